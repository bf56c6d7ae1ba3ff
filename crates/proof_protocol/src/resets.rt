//! Stream resets over the rules of the transfer. SSNs and MIDs count on across resets here; on the wire they count from
//! the stream's last reset.

ghost use Rattle.std.specs.Prelude.{◌≡◌, ◌+◌, ◌<◌, ◌≤◌, Bool, List, false, suc, true, ℕ};
ghost use Rattle.proof_protocol.specs.Based.{Bracketed, EntriesAreOfCurrentEpoch, EpochWindows, InEpochs, NamedIsOfCurrentEpoch, NothingWaits, UnseenIsOfCurrentEpoch, base_at};
ghost use Rattle.proof_protocol.specs.Claims.{Claims};
ghost use Rattle.proof_protocol.specs.Invariant.{IsDone, Invariant};
ghost use Rattle.proof_protocol.specs.Lifted.{IsOfCurrentEpoch};
ghost use Rattle.proof_protocol.specs.Resets.{EachInItsEpoch, Epochs, EpochInvariant, MayAll, MayReset, Request, ResetEvent, commit, first_epoch, go_all, goes};
ghost use Rattle.proof_protocol.specs.Rules.{IsResettable, covers};
ghost use Rattle.proof_protocol.specs.Windows.{IsNear};
ghost use Rattle.proof_protocol.specs.State.{ForwardPoint, IsAmong, Message, Transfer, count, ordered_of, place_of, stream_of};

/// Where all fragments of stream `s` are seen, nothing is left to make ready and none of its messages is partly sent, the
/// receiver's next number is the sender's count, so that both may count from 0 again; and each of the stream's numbered
/// messages is ready or was given up.
pub fn counts_are_aligned()
    ensures aligned { (message : ℕ → Message) (is_interleaved : Bool) (x : Transfer) (s c : ℕ) → Invariant message is_interleaved x →
        IsResettable message x.sender x.receiver s c → x.receiver.next s ≡ x.sender.counts true s }
    ensures done { (message : ℕ → Message) (is_interleaved : Bool) (x : Transfer) (s c p : ℕ) → Invariant message is_interleaved x →
        IsResettable message x.sender x.receiver s c → x.sender.begun p ≡ true → stream_of message p ≡ s → IsDone x.sender x.receiver p }
{}

/// Along every schedule with stream resets, a message that may become ready, ordered or not, is of the epoch that the
/// receiver is in: as many resets of its stream were performed as were asked for before its acceptance.
///
/// The claims of the transfer hold with resets too, over all epochs of a stream.
///
/// Denied requests are left out: between two ends that follow the rules none is denied.
pub fn each_in_its_epoch()
    ensures epochs { (message : ℕ → Message) (is_interleaved : Bool) (events : List ResetEvent) →
        MayAll message is_interleaved first_epoch events → EachInItsEpoch message is_interleaved (go_all message is_interleaved first_epoch events) }
    ensures transfer { (message : ℕ → Message) (is_interleaved : Bool) (events : List ResetEvent) →
        MayAll message is_interleaved first_epoch events → Claims message (go_all message is_interleaved first_epoch events).transfer }
{}

/// The invariant of the rules with resets holds at first, each step keeps it, and it gives the claim. It contains the
/// invariant of the transfer, so the transfer's claims hold with resets too.
pub fn order_is_kept()
    ensures first { (message : ℕ → Message) (is_interleaved : Bool) → EpochInvariant message is_interleaved first_epoch }
    ensures step { (message : ℕ → Message) (is_interleaved : Bool) (x : Epochs) (e : ResetEvent) →
        EpochInvariant message is_interleaved x → MayReset message is_interleaved x e → EpochInvariant message is_interleaved (goes message is_interleaved x e) }
    ensures claims { (message : ℕ → Message) (is_interleaved : Bool) (x : Epochs) → EpochInvariant message is_interleaved x → EachInItsEpoch message is_interleaved x }
{}

/// With the bases of the epochs, too: the invariant holds at first, and each step keeps it. On the wire a number is the one here
/// less its epoch's base. Once the answer to a reset has come, the new epoch's base is the sender's count, of either kind, so that
/// its numbers begin at 0 again.
pub fn epochs_are_kept()
    ensures first { (message : ℕ → Message) (is_interleaved : Bool) → InEpochs message is_interleaved first_epoch }
    ensures step { (message : ℕ → Message) (is_interleaved : Bool) (x : Epochs) (e : ResetEvent) →
        InEpochs message is_interleaved x → MayReset message is_interleaved x e → InEpochs message is_interleaved (goes message is_interleaved x e) }
    ensures again { (message : ℕ → Message) (is_interleaved : Bool) (x : Epochs) (s : ℕ) (kind : Bool) →
        InEpochs message is_interleaved x → x.raised s ≡ suc (x.opened s) → MayReset message is_interleaved x (commit s) →
        x.base s ((goes message is_interleaved x (commit s)).opened s) kind ≡ x.transfer.sender.counts kind s }
    ensures written { (message : ℕ → Message) (is_interleaved : Bool) (x : Epochs) (p : ℕ) → InEpochs message is_interleaved x → x.transfer.sender.begun p ≡ true →
        base_at message x p + x.transfer.sender.written p ≡ x.transfer.sender.number p }
    ensures following { (message : ℕ → Message) (is_interleaved : Bool) (x : Epochs) (s : ℕ) (kind : Bool) → InEpochs message is_interleaved x →
        x.base s (x.opened s) kind + x.transfer.sender.following kind s ≡ x.transfer.sender.counts kind s }
{}

/// What comes is of the epoch that the receiver is in: each fragment that was not seen; and the messages with the greatest
/// numbers that a forward point names, where the point moves the front of what is seen: their entries are written with the base
/// that the receiver has. What was sent before a reset of its stream was performed, and comes late, was seen.
pub fn what_comes_is_of_its_epoch()
    ensures fragments { (message : ℕ → Message) (is_interleaved : Bool) (x : Epochs) → InEpochs message is_interleaved x → UnseenIsOfCurrentEpoch message x }
    ensures wire { (message : ℕ → Message) (is_interleaved : Bool) (x : Epochs) (t : ℕ) → InEpochs message is_interleaved x → t < count x.transfer.sender →
        x.transfer.receiver.seen t ≡ false → IsOfCurrentEpoch (λ kind s. x.base s (x.performed s) kind) message x.transfer.sender t }
    ensures points { (message : ℕ → Message) (is_interleaved : Bool) (x : Epochs) → InEpochs message is_interleaved x → NamedIsOfCurrentEpoch message x }
    ensures entries { (message : ℕ → Message) (is_interleaved : Bool) (x : Epochs) → InEpochs message is_interleaved x → EntriesAreOfCurrentEpoch message x }
{}

/// While a request waits to be performed, nothing of its stream is numbered above its last TSN, and a forward point that goes on
/// above that names nothing of its stream.
pub fn nothing_waits_for_a_reset()
    ensures waits { (message : ℕ → Message) (is_interleaved : Bool) (x : Epochs) (r : Request) → InEpochs message is_interleaved x →
        IsAmong r x.requests → x.performed r.stream < r.epoch → NothingWaits message x r }
{}

/// The windows, by epochs, suffice: the SSN or MID of a kept ordered fragment of the epoch that the receiver is in is near its
/// stream's next one (`numbers`), and so is the greatest number that a forward point names of an ordered stream, where the point moves
/// the front (`named`).
pub fn numbers_of_an_epoch_are_near()
    ensures numbers { (message : ℕ → Message) (is_interleaved : Bool) (x : Epochs) (t : ℕ) → InEpochs message is_interleaved x → EpochWindows message x →
        x.transfer.acknowledged ≤ t → t < count x.transfer.sender → ordered_of message (place_of x.transfer.sender t) ≡ true →
        x.epoch (place_of x.transfer.sender t) ≡ x.performed (stream_of message (place_of x.transfer.sender t)) →
        IsNear 32000 (x.transfer.receiver.next (stream_of message (place_of x.transfer.sender t))) (x.transfer.sender.number (place_of x.transfer.sender t)) }
    ensures named { (message : ℕ → Message) (is_interleaved : Bool) (x : Epochs) (f : ForwardPoint) (u s n : ℕ) → InEpochs message is_interleaved x → EpochWindows message x →
        IsAmong f x.transfer.forward_points → u < f.upto → x.transfer.receiver.seen u ≡ false → covers f.entries true s n ≡ true →
        ((m : ℕ) → covers f.entries true s m ≡ true → m ≤ n) →
        (n < x.transfer.receiver.next s + 32000) × (x.transfer.receiver.next s ≤ n + 32001) }
{}

/// A step of code is several rules. The epoch of each message that becomes ready in it lies between the resets of its stream that
/// were performed before the step and those that are performed after it.
pub fn epochs_are_bracketed()
    ensures between { (message : ℕ → Message) (is_interleaved : Bool) (x : Epochs) (events : List ResetEvent) →
        InEpochs message is_interleaved x → MayAll message is_interleaved x events → Bracketed message x (go_all message is_interleaved x events) }
{}
