//! Resets of streams over the rules with epochs: performed, or deferred until all was seen that was sent before.

ghost use Rattle.std.specs.Prelude.{◌≡◌, ◌+◌, ◌<◌, ◌≤◌, Bool, List, None, Option, Some, [], ◌∷◌, false, map, suc, true, ℕ};
ghost use Rattle.sctp_serial.specs.Messages as messages;
ghost use Rattle.sctp_serial.specs.Unwrapped.{origin, wire, u32_space};
ghost use Rattle.sctp_serial.specs.declared.api.StreamId.{StreamId};
ghost use Rattle.sctp_packet.specs.Chunk.{FragmentTree};
ghost use Rattle.sctp_chunk.specs.declared.forward_tsn.SkippedStream.{SkippedStream};
ghost use Rattle.sctp_rx.specs.ReassemblyQueue.{Deferred, Reassembly, add, defer, forward, waiting_in};
ghost use Rattle.sctp_rx.specs.DataTracker as tracker;
ghost use Rattle.sctp_rx.specs.DataTracker.{IsTracker, Tracker, moves_on, observe};
ghost use Rattle.proof_protocol.specs.Based.{InEpochs};
ghost use Rattle.proof_protocol.specs.Points.{AreApart};
ghost use Rattle.proof_protocol.specs.Resets.{Epochs, Request};
ghost use Rattle.proof_protocol.specs.Rules.{data_comes, become_ready, forward_comes, late_comes};
ghost use Rattle.proof_protocol.specs.State.{ForwardPoint, IsAmong, Message, count};
ghost use Rattle.proof_refines.specs.Near.{AreEntries, AreFew, AreNearNext, IsInWindow, IsNearNext, IsWritten, ReadsNear};
ghost use Rattle.proof_refines.specs.Read.{Carries, is_behind, shift_after};
ghost use Rattle.proof_refines.specs.ReceiverRefinement.{ReceiverRefines};
ghost use Rattle.proof_refines.specs.Resets.{AreNext, AreNextTo, Comes, IsWaitingFor, Performs, base_now};
ghost use Rattle.proof_refines.specs.Resets as requests;
ghost use Rattle.proof_refines.specs.View.{was_seen};

/// Requests of one or more streams that were sent, are the next ones of their streams, and of which all was seen, may be performed
/// where nothing waits in the queue. What is held of the streams is forgotten, their numbers begin at 0 again, and the values
/// are the receiver of the state after it, which reads what comes next as it was meant.
pub fn resets_are_performed()
    ensures performs { (message : ℕ → Message) (is_interleaved : Bool) (first shift : ℕ) (x : Epochs) (handed : List messages.Message) (t : Tracker) (r : Reassembly) (q : Request) (rs : List Request) →
        InEpochs message is_interleaved x → ReceiverRefines message is_interleaved (base_now x) shift x.transfer handed t r → ReadsNear message is_interleaved (base_now x) first shift x.transfer r →
        AreNext x (q ∷ rs) → waiting_in r.deferred ≡ [] → Performs message is_interleaved first shift x (q ∷ rs) handed t r }
{}

/// A deferral whose last TSN has come may be performed: its requests are the next ones still (`next`), and nothing waits (`idle`).
pub fn deferrals_end()
    ensures next { (x : Epochs) (upto : ℕ) (rs : List Request) → AreNextTo x upto rs → ((t : ℕ) → t < upto → x.transfer.receiver.seen t ≡ true) → AreNext x rs }
    ensures idle { (shift : ℕ) (x : Epochs) (first : Option ℕ) (d : Option Deferred) → IsWaitingFor shift x first d → waiting_in d ≡ [] }
{}

/// Requests that were sent with the last TSN of fragment `k`, and are the next ones of their streams, are deferred where a fragment up
/// to that one wasn't seen. The queue may count TSNs from that one, with no fragment (`deferred`). While they are deferred, they are
/// so still when they come again (`again`).
pub fn reset_is_deferred()
    ensures deferred { (message : ℕ → Message) (is_interleaved : Bool) (first shift : ℕ) (x : Epochs) (handed : List messages.Message) (t : Tracker) (r : Reassembly) (k tsn u : ℕ) (q : Request) (rs : List Request) →
        InEpochs message is_interleaved x → IsInWindow x.transfer → ReceiverRefines message is_interleaved (base_now x) shift x.transfer handed t r → ReadsNear message is_interleaved (base_now x) first shift x.transfer r →
        r.deferred ≡ None → AreNextTo x (suc k) (q ∷ rs) → k < count x.transfer.sender → u ≤ k → was_seen t u ≡ false → tsn ≡ wire u32_space first (origin + k) →
        Comes message is_interleaved first (shift_after r.first shift k) x [] handed t (defer tsn (requests.named_by (q ∷ rs)) r) }
    ensures again { (tsn : ℕ) (ids : List StreamId) (r : Reassembly) (d : Deferred) → r.deferred ≡ Some d → defer tsn ids r ≡ r }
{}

/// A fragment comes, whether a reset is deferred or not: it doesn't wait. It is held, and message after message becomes ready (`held`);
/// or its message can't become ready any more (`late`). It is of the epoch that the receiver is in.
pub fn fragments_come_in_epochs()
    ensures held { (message : ℕ → Message) (is_interleaved : Bool) (first shift : ℕ) (x : Epochs) (handed : List messages.Message) (t : Tracker) (r : Reassembly) (k tsn : ℕ) (f : FragmentTree) (now : Bool) →
        InEpochs message is_interleaved x → IsInWindow x.transfer → ReceiverRefines message is_interleaved (base_now x) shift x.transfer handed t r → ReadsNear message is_interleaved (base_now x) first shift x.transfer r →
        IsWaitingFor shift x r.first r.deferred → IsTracker t → AreFew x.transfer.sender →
        tsn ≡ wire u32_space first (origin + k) → Carries message is_interleaved x.transfer.sender k f → IsWritten message is_interleaved x.transfer.sender k f → was_seen t k ≡ false → IsNearNext message x.transfer k →
        is_behind message is_interleaved x.transfer.sender x.transfer.receiver k ≡ false →
        (ps : List ℕ) × Comes message is_interleaved first (shift_after r.first shift k) x (data_comes k ∷ map become_ready ps) handed (observe (origin + k) now t) (add tsn f r) }
    ensures late { (message : ℕ → Message) (is_interleaved : Bool) (first shift : ℕ) (x : Epochs) (handed : List messages.Message) (t : Tracker) (r : Reassembly) (k tsn : ℕ) (f : FragmentTree) (now : Bool) →
        InEpochs message is_interleaved x → IsInWindow x.transfer → ReceiverRefines message is_interleaved (base_now x) shift x.transfer handed t r → ReadsNear message is_interleaved (base_now x) first shift x.transfer r →
        IsWaitingFor shift x r.first r.deferred → IsTracker t → AreFew x.transfer.sender →
        tsn ≡ wire u32_space first (origin + k) → Carries message is_interleaved x.transfer.sender k f → IsWritten message is_interleaved x.transfer.sender k f → was_seen t k ≡ false → IsNearNext message x.transfer k →
        is_behind message is_interleaved x.transfer.sender x.transfer.receiver k ≡ true →
        Comes message is_interleaved first (shift_after r.first shift k) x (late_comes k ∷ []) handed (observe (origin + k) now t) (add tsn f r) }
{}

/// And so does a forward point that moves the tracker's front: where it goes on above the last TSN of a reset that is deferred, it
/// names nothing of the reset's streams, so no entry of it waits.
pub fn points_come_in_epochs()
    ensures goes { (message : ℕ → Message) (is_interleaved : Bool) (first shift : ℕ) (x : Epochs) (handed : List messages.Message) (t : Tracker) (r : Reassembly) (k tsn : ℕ) (f : ForwardPoint) (entries : List SkippedStream) →
        InEpochs message is_interleaved x → IsInWindow x.transfer → ReceiverRefines message is_interleaved (base_now x) shift x.transfer handed t r → ReadsNear message is_interleaved (base_now x) first shift x.transfer r →
        IsWaitingFor shift x r.first r.deferred → IsTracker t → AreFew x.transfer.sender →
        IsAmong f x.transfer.forward_points → f.upto ≡ suc k → moves_on (origin + k) t ≡ true → tsn ≡ wire u32_space first (origin + k) →
        AreApart f.entries → AreNearNext x.transfer f → AreEntries is_interleaved entries f.entries →
        (ps : List ℕ) × Comes message is_interleaved first (shift_after r.first shift k) x (forward_comes f ∷ map become_ready ps) handed (tracker.forward (origin + k) t) (forward tsn entries r) }
{}
