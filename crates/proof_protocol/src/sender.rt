//! What a sender does is a sequence of the rules. The send queue is seen as a map from places to what waits there: is the
//! message partly sent, and which bytes are left of it. A message that was given up and not yet discarded is not in it.

ghost use Rattle.std.specs.Prelude.{◌≡◌, ◌+◌, ◌<◌, ◌≤◌, ◌++◌, Bool, List, None, Option, Some, [], ◌∷◌, cond, false, replicate, true, ℕ};
ghost use Rattle.proof_protocol.specs.Joints.{Sends, reports_of};
ghost use Rattle.proof_protocol.specs.Invariant.{Invariant};
ghost use Rattle.proof_protocol.specs.Rules.{accept, begin, end_with_placeholder, give_up, Happens, acknowledge_next, number, run};
ghost use Rattle.proof_protocol.specs.Sending.{Queued, Waiting};
ghost use Rattle.proof_protocol.specs.State.{IsAmong, Message, Transfer, is_empty, put, stream_of};

/// The next message is accepted: all of it waits.
pub fn message_is_accepted()
    ensures sends { (message : ℕ → Message) (is_interleaved : Bool) (x : Transfer) (queue : ℕ → Option Waiting) →
        Invariant message is_interleaved x → Queued message x.sender queue →
        Sends message is_interleaved x (accept ∷ [])
        (put queue x.sender.accepted (Some (record { begun = false; rest = (message x.sender.accepted).payload }))) }
{}

/// The first message of its stream gets its number, and its first bytes a TSN. Without interleaving no other message may
/// be partly sent then.
pub fn first_fragment()
    ensures sends { (message : ℕ → Message) (is_interleaved : Bool) (x : Transfer) (queue : ℕ → Option Waiting) (p : ℕ) (w : Waiting) (bytes more : List ℕ) →
        Invariant message is_interleaved x → Queued message x.sender queue → queue p ≡ Some w → w.begun ≡ false → w.rest ≡ bytes ++ more →
        ((a : ℕ) → a < p → stream_of message a ≡ stream_of message p → queue a ≡ None) →
        (is_interleaved ≡ false → (a : ℕ) (v : Waiting) → queue a ≡ Some v → v.begun ≡ false) →
        Sends message is_interleaved x (begin p ∷ number p bytes more ∷ [])
        (put queue p (cond (is_empty more) None (Some (record { begun = true; rest = more })))) }
{}

/// The next bytes of a message that is partly sent get a TSN.
pub fn next_fragment()
    ensures sends { (message : ℕ → Message) (is_interleaved : Bool) (x : Transfer) (queue : ℕ → Option Waiting) (p : ℕ) (w : Waiting) (bytes more : List ℕ) →
        Invariant message is_interleaved x → Queued message x.sender queue → queue p ≡ Some w → w.begun ≡ true → w.rest ≡ bytes ++ more →
        Sends message is_interleaved x (number p bytes more ∷ [])
        (put queue p (cond (is_empty more) None (Some (record { begun = true; rest = more })))) }
{}

/// A message is given up before any of it was sent: it leaves the queue.
pub fn unsent_is_given_up()
    ensures sends { (message : ℕ → Message) (is_interleaved : Bool) (x : Transfer) (queue : ℕ → Option Waiting) (p : ℕ) (w : Waiting) →
        Invariant message is_interleaved x → Queued message x.sender queue → queue p ≡ Some w → w.begun ≡ false →
        Sends message is_interleaved x (give_up p ∷ []) (put queue p None) }
{}

/// A message is given up that is partly sent: a placeholder end takes the next TSN, and the rest leaves the queue.
pub fn partly_sent_is_given_up()
    ensures sends { (message : ℕ → Message) (is_interleaved : Bool) (x : Transfer) (queue : ℕ → Option Waiting) (p : ℕ) (w : Waiting) →
        Invariant message is_interleaved x → Queued message x.sender queue → queue p ≡ Some w → w.begun ≡ true →
        Sends message is_interleaved x (end_with_placeholder p ∷ give_up p ∷ []) (put queue p None) }
{}

/// A message is given up all of whose fragments have a TSN, and that was not given up before.
pub fn sent_is_given_up()
    ensures sends { (message : ℕ → Message) (is_interleaved : Bool) (x : Transfer) (queue : ℕ → Option Waiting) (p : ℕ) →
        Invariant message is_interleaved x → Queued message x.sender queue → p < x.sender.accepted → x.sender.given_up p ≡ false → queue p ≡ None →
        Sends message is_interleaved x (give_up p ∷ []) queue }
{}

/// A SACK that was ever sent takes all fragments below its point away, with the reports in the order of their TSNs.
pub fn sack_comes()
    ensures may { (message : ℕ → Message) (is_interleaved : Bool) (x : Transfer) (n c : ℕ) → IsAmong c x.sacks → x.acknowledged + n ≤ c →
        Happens message is_interleaved x (replicate n (acknowledge_next c)) }
    ensures leads { (message : ℕ → Message) (is_interleaved : Bool) (x : Transfer) (n c : ℕ) → IsAmong c x.sacks → x.acknowledged + n ≤ c →
        run message is_interleaved x (replicate n (acknowledge_next c))
        ≡ record x { acknowledged = x.acknowledged + n; reports = x.reports ++ reports_of x.sender x.acknowledged n } }
{}
