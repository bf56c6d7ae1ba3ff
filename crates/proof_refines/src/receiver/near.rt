//! Wire numbers are read as they were meant where the sender's windows hold (`IsInWindow`; of ordered numbers `IsNearNext`, `AreNearNext`).
//! What the other laws ask of them (`IsRead`, `StandForAll`) follows from how the sender writes them, and from a queue that is near
//! (`ReadsNear`): a new one is, and each step of the laws keeps it so. A step that leaves the queue and the state as they are keeps it too.

ghost use Rattle.std.specs.Prelude.{◌≡◌, ◌+◌, ◌^◌, ◌<◌, ◌≤◌, Bool, List, None, [], ◌∷◌, false, map, suc, true, ℕ};
ghost use Rattle.sctp_serial.specs.Messages as messages;
ghost use Rattle.sctp_serial.specs.Unwrapped.{origin, wire, u32_space};
ghost use Rattle.sctp_packet.specs.Chunk.{FragmentTree};
ghost use Rattle.sctp_chunk.specs.declared.forward_tsn.SkippedStream.{SkippedStream};
ghost use Rattle.sctp_rx.specs.ReassemblyQueue.{Reassembly, add, forward, number_of, reassembly};
ghost use Rattle.sctp_rx.specs.DataTracker as tracker;
ghost use Rattle.sctp_rx.specs.DataTracker.{DataTracker, IsTracker, Tracker, moves_on, observe};
ghost use Rattle.proof_protocol.specs.Invariant.{Invariant};
ghost use Rattle.proof_protocol.specs.Lifted.{AreEntriesOfCurrentEpoch, IsOfCurrentEpoch, no_base, wire_point};
ghost use Rattle.proof_protocol.specs.Rules.{TransferEvent, IsAllowed, after, data_comes, become_ready, forward_comes, late_comes, run};
ghost use Rattle.proof_protocol.specs.State.{ForwardPoint, IsAmong, Message, Transfer, start};
ghost use Rattle.proof_protocol.specs.Windows.{IsTimely};
ghost use Rattle.proof_refines.specs.Near.{AreEntries, AreFew, AreNearNext, GoesNear, IsInWindow, IsNearNext, IsWritten, ReadsNear};
ghost use Rattle.proof_refines.specs.Read.{Carries, IsRead, StandForAll, is_behind, shift_after};
ghost use Rattle.proof_protocol.specs.Points.{AreApart};
ghost use Rattle.proof_refines.specs.ReceiverRefinement.{Goes, ReceiverRefines};
ghost use Rattle.proof_refines.specs.View.{was_seen};

/// The tracker reads the TSN of fragment k, in DATA or as the last one of a forward point, where its packet was emitted
/// when n fragments were numbered, of which the first kept one was at most k.
pub fn tracker_reads()
    ensures read { (message : ℕ → Message) (is_interleaved : Bool) (base : Bool → ℕ → ℕ) (shift : ℕ) (x : Transfer) (handed : List messages.Message) (d : DataTracker) (r : Reassembly) (k n : ℕ) →
        Invariant message is_interleaved x → IsInWindow x → ReceiverRefines message is_interleaved base shift x handed d.tracker r → IsTracker d.tracker →
        k < n → n ≤ k + 2 ^ 30 → IsTimely x n → tracker.number_of d (wire u32_space d.first (origin + k)) ≡ origin + k }
{}

/// A fragment that comes and was not seen is read as the sender numbered it.
pub fn fragments_are_read()
    ensures read { (message : ℕ → Message) (is_interleaved : Bool) (base : Bool → ℕ → ℕ) (first shift : ℕ) (x : Transfer) (handed : List messages.Message) (t : Tracker) (r : Reassembly) (k tsn : ℕ) (f : FragmentTree) →
        Invariant message is_interleaved x → IsInWindow x → AreFew x.sender → ReceiverRefines message is_interleaved base shift x handed t r → ReadsNear message is_interleaved base first shift x r →
        tsn ≡ wire u32_space first (origin + k) → Carries message is_interleaved x.sender k f → IsWritten message is_interleaved x.sender k f → was_seen t k ≡ false → IsOfCurrentEpoch base message x.sender k → IsNearNext message x k →
        IsRead message is_interleaved (shift_after r.first shift k) x.sender r k tsn f }
{}

/// A forward point that moves the tracker's front is read as it was sent: its TSN (`tsn`, `below`), and its entries.
pub fn points_are_read()
    ensures tsn { (message : ℕ → Message) (is_interleaved : Bool) (base : Bool → ℕ → ℕ) (first shift : ℕ) (x : Transfer) (handed : List messages.Message) (t : Tracker) (r : Reassembly) (k tsn : ℕ) (f : ForwardPoint) →
        Invariant message is_interleaved x → IsInWindow x → ReceiverRefines message is_interleaved base shift x handed t r → ReadsNear message is_interleaved base first shift x r → IsTracker t →
        IsAmong f x.forward_points → f.upto ≡ suc k → moves_on (origin + k) t ≡ true → tsn ≡ wire u32_space first (origin + k) →
        number_of r tsn + shift_after r.first shift k ≡ origin + k }
    ensures below { (message : ℕ → Message) (is_interleaved : Bool) (x : Transfer) (k : ℕ) (f : ForwardPoint) →
        Invariant message is_interleaved x → AreFew x.sender → IsAmong f x.forward_points → f.upto ≡ suc k → k < 2 ^ 62 }
    ensures entries { (message : ℕ → Message) (is_interleaved : Bool) (base : Bool → ℕ → ℕ) (first shift : ℕ) (x : Transfer) (handed : List messages.Message) (t : Tracker) (r : Reassembly) (k : ℕ) (f : ForwardPoint) (entries : List SkippedStream) →
        Invariant message is_interleaved x → IsInWindow x → AreFew x.sender → ReceiverRefines message is_interleaved base shift x handed t r → ReadsNear message is_interleaved base first shift x r → IsTracker t →
        IsAmong f x.forward_points → f.upto ≡ suc k → moves_on (origin + k) t ≡ true → AreApart f.entries → AreEntries is_interleaved entries f.entries → AreEntriesOfCurrentEpoch base f → AreNearNext x f →
        StandForAll is_interleaved r.streams entries (wire_point f).entries }
{}

/// A new queue is near, and it stays so: when a fragment comes, or a forward point that moves the tracker's front, when a
/// message is taken, and while the sender goes on, with no premise of its windows.
pub fn nearness_is_kept()
    ensures new_queue { (message : ℕ → Message) (is_interleaved : Bool) (first shift max_size max_fragments : ℕ) → ReadsNear message is_interleaved no_base first shift start (record (reassembly max_size is_interleaved) { max_fragments = max_fragments }) }
    ensures fragment { (message : ℕ → Message) (is_interleaved : Bool) (base : Bool → ℕ → ℕ) (first shift : ℕ) (x : Transfer) (handed : List messages.Message) (t : Tracker) (r : Reassembly) (k tsn : ℕ) (f : FragmentTree) (now : Bool) (es : List TransferEvent) →
        Invariant message is_interleaved x → IsInWindow x → ReceiverRefines message is_interleaved base shift x handed t r → ReadsNear message is_interleaved base first shift x r → IsTracker t → r.deferred ≡ None →
        tsn ≡ wire u32_space first (origin + k) → Carries message is_interleaved x.sender k f → IsRead message is_interleaved (shift_after r.first shift k) x.sender r k tsn f → was_seen t k ≡ false → IsOfCurrentEpoch base message x.sender k →
        Goes message is_interleaved base (shift_after r.first shift k) x es handed None (observe (origin + k) now t) (add tsn f r) →
        ReadsNear message is_interleaved base first (shift_after r.first shift k) (run message is_interleaved x es) (add tsn f r) }
    ensures forward_point { (message : ℕ → Message) (is_interleaved : Bool) (base : Bool → ℕ → ℕ) (first shift : ℕ) (x : Transfer) (handed : List messages.Message) (t : Tracker) (r : Reassembly) (k tsn : ℕ) (f : ForwardPoint) (entries : List SkippedStream) (es : List TransferEvent) →
        Invariant message is_interleaved x → IsInWindow x → AreFew x.sender → ReceiverRefines message is_interleaved base shift x handed t r → ReadsNear message is_interleaved base first shift x r → IsTracker t → r.deferred ≡ None →
        IsAmong f x.forward_points → f.upto ≡ suc k → moves_on (origin + k) t ≡ true → tsn ≡ wire u32_space first (origin + k) →
        StandForAll is_interleaved r.streams entries (wire_point f).entries → AreApart f.entries → AreEntriesOfCurrentEpoch base f →
        Goes message is_interleaved base (shift_after r.first shift k) x es handed None (tracker.forward (origin + k) t) (forward tsn entries r) →
        ReadsNear message is_interleaved base first (shift_after r.first shift k) (run message is_interleaved x es) (forward tsn entries r) }
    ensures message_is_taken { (message : ℕ → Message) (is_interleaved : Bool) (base : Bool → ℕ → ℕ) (first shift : ℕ) (x : Transfer) (r : Reassembly) (ms : List messages.Message) →
        ReadsNear message is_interleaved base first shift x r → ReadsNear message is_interleaved base first shift x (record r { ready = ms }) }
    ensures sender_goes_on { (message : ℕ → Message) (is_interleaved : Bool) (base : Bool → ℕ → ℕ) (first shift : ℕ) (x : Transfer) (e : TransferEvent) (r : Reassembly) →
        Invariant message is_interleaved x → IsAllowed message is_interleaved x e → (after message is_interleaved x e).receiver ≡ x.receiver →
        ReadsNear message is_interleaved base first shift x r → ReadsNear message is_interleaved base first shift (after message is_interleaved x e) r }
{}

/// So a fragment that comes as it was written, and was not seen, is a few of the rules. It is held, and message after
/// message becomes ready (`held`); or its message can't become ready any more, and it is only seen (`late`).
pub fn written_fragment_comes()
    ensures held { (message : ℕ → Message) (is_interleaved : Bool) (base : Bool → ℕ → ℕ) (first shift : ℕ) (x : Transfer) (handed : List messages.Message) (t : Tracker) (r : Reassembly) (k tsn : ℕ) (f : FragmentTree) (now : Bool) →
        Invariant message is_interleaved x → IsInWindow x → AreFew x.sender → ReceiverRefines message is_interleaved base shift x handed t r → ReadsNear message is_interleaved base first shift x r → IsTracker t → r.deferred ≡ None →
        tsn ≡ wire u32_space first (origin + k) → Carries message is_interleaved x.sender k f → IsWritten message is_interleaved x.sender k f → was_seen t k ≡ false → IsOfCurrentEpoch base message x.sender k → IsNearNext message x k →
        is_behind message is_interleaved x.sender x.receiver k ≡ false →
        (ps : List ℕ) × GoesNear message is_interleaved base first (shift_after r.first shift k) x (data_comes k ∷ map become_ready ps) handed None (observe (origin + k) now t) (add tsn f r) }
    ensures late { (message : ℕ → Message) (is_interleaved : Bool) (base : Bool → ℕ → ℕ) (first shift : ℕ) (x : Transfer) (handed : List messages.Message) (t : Tracker) (r : Reassembly) (k tsn : ℕ) (f : FragmentTree) (now : Bool) →
        Invariant message is_interleaved x → IsInWindow x → AreFew x.sender → ReceiverRefines message is_interleaved base shift x handed t r → ReadsNear message is_interleaved base first shift x r → IsTracker t → r.deferred ≡ None →
        tsn ≡ wire u32_space first (origin + k) → Carries message is_interleaved x.sender k f → IsWritten message is_interleaved x.sender k f → was_seen t k ≡ false → IsOfCurrentEpoch base message x.sender k → IsNearNext message x k →
        is_behind message is_interleaved x.sender x.receiver k ≡ true →
        GoesNear message is_interleaved base first (shift_after r.first shift k) x (late_comes k ∷ []) handed None (observe (origin + k) now t) (add tsn f r) }
{}

/// And so is a forward point that moves the tracker's front. The last fragment that it passes is k.
pub fn written_point_comes()
    ensures goes { (message : ℕ → Message) (is_interleaved : Bool) (base : Bool → ℕ → ℕ) (first shift : ℕ) (x : Transfer) (handed : List messages.Message) (t : Tracker) (r : Reassembly) (k tsn : ℕ) (f : ForwardPoint) (entries : List SkippedStream) →
        Invariant message is_interleaved x → IsInWindow x → AreFew x.sender → ReceiverRefines message is_interleaved base shift x handed t r → ReadsNear message is_interleaved base first shift x r → IsTracker t → r.deferred ≡ None →
        IsAmong f x.forward_points → f.upto ≡ suc k → moves_on (origin + k) t ≡ true → tsn ≡ wire u32_space first (origin + k) →
        AreApart f.entries → AreEntries is_interleaved entries f.entries → AreEntriesOfCurrentEpoch base f → AreNearNext x f →
        (ps : List ℕ) × GoesNear message is_interleaved base first (shift_after r.first shift k) x (forward_comes f ∷ map become_ready ps) handed None (tracker.forward (origin + k) t) (forward tsn entries r) }
{}
