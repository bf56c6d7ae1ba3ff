//! What the receiver's values do is a sequence of the rules of a transfer.
//!
//! Each law takes a state of the rules that meets the invariant, and values of a tracker and of a reassembly queue that
//! are its receiver (`ReceiverRefines`). A call leads to values that are the receiver again after the events that the law names.
//! `handed` is what was handed out of the queue before, and `shift` the fragment that the queue counts TSNs from: the first
//! that came. `base` is how many messages of each kind and stream were numbered before the stream's last reset; what comes is of
//! the time since then (`IsOfCurrentEpoch`, `AreEntriesOfCurrentEpoch`). No reset is deferred here: `resets` has what comes while one is.

ghost use Rattle.std.specs.Prelude.{◌≡◌, ◌+◌, ◌++◌, ◌^◌, ◌<◌, Bool, List, None, Some, [], ◌∷◌, false, map, suc, true, unwrap_or, ℕ};
ghost use Rattle.sctp_serial.specs.Messages as messages;
ghost use Rattle.sctp_serial.specs.Unwrapped.{origin};
ghost use Rattle.sctp_packet.specs.Chunk.{FragmentTree};
ghost use Rattle.sctp_chunk.specs.declared.forward_tsn.SkippedStream.{SkippedStream};
ghost use Rattle.sctp_state.specs.Options.{Options};
ghost use Rattle.sctp_rx.specs.DataTracker.{IsTracker, Tracker, ack_timeout, acking, moves_on, observe, packet_end, take_ack, tracker, update_rto};
ghost use Rattle.sctp_rx.specs.DataTracker as tracker;
ghost use Rattle.sctp_rx.specs.declared.data_tracker.AckState.{AckState};
ghost use Rattle.sctp_rx.specs.Sack.{clear_duplicates};
ghost use Rattle.sctp_rx.specs.ReassemblyQueue.{Reassembly, add, forward, number_of, reassembly};
ghost use Rattle.proof_protocol.specs.Invariant.{Invariant};
ghost use Rattle.proof_protocol.specs.Lifted.{AreEntriesOfCurrentEpoch, IsOfCurrentEpoch, no_base, wire_point};
ghost use Rattle.proof_protocol.specs.Reassembly.{NoneReady};
ghost use Rattle.proof_protocol.specs.Rules.{TransferEvent, IsAllowed, after, data_comes, become_ready, forward_comes, late_comes, send_sack};
ghost use Rattle.proof_protocol.specs.State.{ForwardPoint, IsAmong, Message, Transfer, start};
ghost use Rattle.proof_refines.specs.Read.{Carries, IsRead, StandForAll, is_behind, shift_after};
ghost use Rattle.proof_protocol.specs.Points.{AreApart};
ghost use Rattle.proof_refines.specs.ReceiverRefinement.{Goes, ReceiverRefines};
ghost use Rattle.proof_refines.specs.View.{was_seen};

pub mod near;
pub mod resets;
pub mod runs;

/// A new tracker and a new queue are the receiver at the start, with nothing handed out, whatever the queue's limits are.
pub fn new_values_are_the_start()
    ensures receives { (message : ℕ → Message) (is_interleaved : Bool) (shift : ℕ) (options : Options) (max_size max_fragments : ℕ) →
        ReceiverRefines message is_interleaved no_base shift start [] (tracker options origin) (record (reassembly max_size is_interleaved) { max_fragments = max_fragments }) }
{}

/// A fragment comes that was not seen. It is held, and then message after message becomes ready (`held`); or its message
/// can't become ready any more, and it is only seen (`late`). Where no TSN came before, TSNs are counted from it (`first`).
pub fn fragment_comes()
    ensures held { (message : ℕ → Message) (is_interleaved : Bool) (base : Bool → ℕ → ℕ) (shift : ℕ) (x : Transfer) (handed : List messages.Message) (t : Tracker) (r : Reassembly) (k tsn : ℕ) (f : FragmentTree) (now : Bool) →
        Invariant message is_interleaved x → ReceiverRefines message is_interleaved base shift x handed t r → IsTracker t → r.deferred ≡ None →
        Carries message is_interleaved x.sender k f → IsRead message is_interleaved (shift_after r.first shift k) x.sender r k tsn f → was_seen t k ≡ false → IsOfCurrentEpoch base message x.sender k →
        is_behind message is_interleaved x.sender x.receiver k ≡ false →
        (ps : List ℕ) × Goes message is_interleaved base (shift_after r.first shift k) x (data_comes k ∷ map become_ready ps) handed None (observe (origin + k) now t) (add tsn f r) }
    ensures late { (message : ℕ → Message) (is_interleaved : Bool) (base : Bool → ℕ → ℕ) (shift : ℕ) (x : Transfer) (handed : List messages.Message) (t : Tracker) (r : Reassembly) (k tsn : ℕ) (f : FragmentTree) (now : Bool) →
        Invariant message is_interleaved x → ReceiverRefines message is_interleaved base shift x handed t r → IsTracker t → r.deferred ≡ None →
        Carries message is_interleaved x.sender k f → IsRead message is_interleaved (shift_after r.first shift k) x.sender r k tsn f → was_seen t k ≡ false → IsOfCurrentEpoch base message x.sender k →
        is_behind message is_interleaved x.sender x.receiver k ≡ true →
        Goes message is_interleaved base (shift_after r.first shift k) x (late_comes k ∷ []) handed None (observe (origin + k) now t) (add tsn f r) }
    ensures first { (message : ℕ → Message) (is_interleaved : Bool) (base : Bool → ℕ → ℕ) (shift : ℕ) (x : Transfer) (handed : List messages.Message) (t : Tracker) (r : Reassembly) (k tsn : ℕ) (f : FragmentTree) →
        Invariant message is_interleaved x → ReceiverRefines message is_interleaved base shift x handed t r → IsTracker t → r.deferred ≡ None →
        Carries message is_interleaved x.sender k f → IsRead message is_interleaved (shift_after r.first shift k) x.sender r k tsn f → was_seen t k ≡ false → IsOfCurrentEpoch base message x.sender k →
        (add tsn f r).first ≡ Some (unwrap_or r.first tsn) }
{}

/// A forward point is given to the tracker and to the queue: all below it counts as seen, what its entries name is dropped,
/// the next numbers move behind them, and message after message becomes ready. No two entries name one stream and kind. The last
/// fragment that it passes is `k`.
pub fn forward_point_comes()
    ensures goes { (message : ℕ → Message) (is_interleaved : Bool) (base : Bool → ℕ → ℕ) (shift : ℕ) (x : Transfer) (handed : List messages.Message) (t : Tracker) (r : Reassembly) (k tsn : ℕ) (entries : List SkippedStream) (f : ForwardPoint) →
        Invariant message is_interleaved x → ReceiverRefines message is_interleaved base shift x handed t r → r.deferred ≡ None →
        IsAmong f x.forward_points → f.upto ≡ suc k → number_of r tsn + shift_after r.first shift k ≡ origin + k → k < 2 ^ 62 →
        StandForAll is_interleaved r.streams entries (wire_point f).entries → AreApart f.entries → AreEntriesOfCurrentEpoch base f →
        (ps : List ℕ) × Goes message is_interleaved base (shift_after r.first shift k) x (forward_comes f ∷ map become_ready ps) handed None (tracker.forward (origin + k) t) (forward tsn entries r) }
    ensures first { (message : ℕ → Message) (is_interleaved : Bool) (base : Bool → ℕ → ℕ) (shift : ℕ) (x : Transfer) (handed : List messages.Message) (t : Tracker) (r : Reassembly) (k tsn : ℕ) (entries : List SkippedStream) (f : ForwardPoint) →
        Invariant message is_interleaved x → ReceiverRefines message is_interleaved base shift x handed t r → r.deferred ≡ None →
        IsAmong f x.forward_points → f.upto ≡ suc k → number_of r tsn + shift_after r.first shift k ≡ origin + k → k < 2 ^ 62 →
        StandForAll is_interleaved r.streams entries (wire_point f).entries → AreApart f.entries → AreEntriesOfCurrentEpoch base f →
        (forward tsn entries r).first ≡ Some (unwrap_or r.first tsn) }
{}

/// A forward point that doesn't move the tracker's front, or a fragment that was seen before, changes nothing.
pub fn nothing_new_comes()
    ensures forward_point { (message : ℕ → Message) (is_interleaved : Bool) (base : Bool → ℕ → ℕ) (shift : ℕ) (x : Transfer) (handed : List messages.Message) (t : Tracker) (r : Reassembly) (last : ℕ) →
        ReceiverRefines message is_interleaved base shift x handed t r → moves_on last t ≡ false → ReceiverRefines message is_interleaved base shift x handed (tracker.forward last t) r }
    ensures fragment { (message : ℕ → Message) (is_interleaved : Bool) (base : Bool → ℕ → ℕ) (shift : ℕ) (x : Transfer) (handed : List messages.Message) (t : Tracker) (r : Reassembly) (k : ℕ) (now : Bool) →
        ReceiverRefines message is_interleaved base shift x handed t r → IsTracker t → was_seen t k ≡ true → ReceiverRefines message is_interleaved base shift x handed (observe (origin + k) now t) r }
{}

/// The cumulative point of a SACK that is made now, the tracker's front, may be sent: all below it was seen (`allowed`),
/// and nothing complete and in turn is left in the queue (`none_ready`).
pub fn sack_is_made()
    ensures allowed { (message : ℕ → Message) (is_interleaved : Bool) (base : Bool → ℕ → ℕ) (shift : ℕ) (x : Transfer) (handed : List messages.Message) (t : Tracker) (r : Reassembly) (c : ℕ) →
        Invariant message is_interleaved x → ReceiverRefines message is_interleaved base shift x handed t r → origin + c ≡ suc t.seen.front → IsAllowed message is_interleaved x (send_sack c) }
    ensures none_ready { (message : ℕ → Message) (is_interleaved : Bool) (base : Bool → ℕ → ℕ) (shift : ℕ) (x : Transfer) (handed : List messages.Message) (t : Tracker) (r : Reassembly) →
        Invariant message is_interleaved x → (shown : ReceiverRefines message is_interleaved base shift x handed t r) → NoneReady is_interleaved shown.queue }
{}

/// When acknowledgements are sent is no matter of the rules.
pub fn acknowledging_changes_nothing()
    ensures rto { (message : ℕ → Message) (is_interleaved : Bool) (base : Bool → ℕ → ℕ) (shift : ℕ) (x : Transfer) (handed : List messages.Message) (t : Tracker) (r : Reassembly) (rto : ℕ) →
        ReceiverRefines message is_interleaved base shift x handed t r → ReceiverRefines message is_interleaved base shift x handed (update_rto rto t) r }
    ensures state { (message : ℕ → Message) (is_interleaved : Bool) (base : Bool → ℕ → ℕ) (shift : ℕ) (x : Transfer) (handed : List messages.Message) (t : Tracker) (r : Reassembly) (a : AckState) →
        ReceiverRefines message is_interleaved base shift x handed t r → ReceiverRefines message is_interleaved base shift x handed (acking a t) r }
    ensures taken { (message : ℕ → Message) (is_interleaved : Bool) (base : Bool → ℕ → ℕ) (shift : ℕ) (x : Transfer) (handed : List messages.Message) (t : Tracker) (r : Reassembly) (also_if_delayed : Bool) →
        ReceiverRefines message is_interleaved base shift x handed t r → ReceiverRefines message is_interleaved base shift x handed (take_ack also_if_delayed t) r }
    ensures packet { (message : ℕ → Message) (is_interleaved : Bool) (base : Bool → ℕ → ℕ) (shift : ℕ) (x : Transfer) (handed : List messages.Message) (t : Tracker) (r : Reassembly) (now : ℕ) →
        ReceiverRefines message is_interleaved base shift x handed t r → ReceiverRefines message is_interleaved base shift x handed (packet_end now t) r }
    ensures timeout { (message : ℕ → Message) (is_interleaved : Bool) (base : Bool → ℕ → ℕ) (shift : ℕ) (x : Transfer) (handed : List messages.Message) (t : Tracker) (r : Reassembly) (now : ℕ) →
        ReceiverRefines message is_interleaved base shift x handed t r → ReceiverRefines message is_interleaved base shift x handed (ack_timeout now t) r }
    ensures reported { (message : ℕ → Message) (is_interleaved : Bool) (base : Bool → ℕ → ℕ) (shift : ℕ) (x : Transfer) (handed : List messages.Message) (t : Tracker) (r : Reassembly) →
        ReceiverRefines message is_interleaved base shift x handed t r → ReceiverRefines message is_interleaved base shift x handed (clear_duplicates t) r }
{}

/// A message that is handed out was ready, and stays so in the rules.
pub fn message_is_taken()
    ensures receives { (message : ℕ → Message) (is_interleaved : Bool) (base : Bool → ℕ → ℕ) (shift : ℕ) (x : Transfer) (handed : List messages.Message) (t : Tracker) (r : Reassembly) (m : messages.Message) (ms : List messages.Message) →
        ReceiverRefines message is_interleaved base shift x handed t r → r.ready ≡ m ∷ ms → ReceiverRefines message is_interleaved base shift x (handed ++ m ∷ []) t (record r { ready = ms }) }
{}

/// While the sender goes on, the values stay the receiver.
pub fn sender_goes_on()
    ensures receives { (message : ℕ → Message) (is_interleaved : Bool) (base : Bool → ℕ → ℕ) (shift : ℕ) (x : Transfer) (e : TransferEvent) (handed : List messages.Message) (t : Tracker) (r : Reassembly) →
        Invariant message is_interleaved x → IsAllowed message is_interleaved x e → (after message is_interleaved x e).receiver ≡ x.receiver →
        ReceiverRefines message is_interleaved base shift x handed t r → ReceiverRefines message is_interleaved base shift (after message is_interleaved x e) handed t r }
{}
