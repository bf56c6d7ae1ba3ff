//! The windows suffice: under them each number on the wire is read as it was meant.

ghost use Rattle.std.specs.Prelude.{◌≡◌, ◌+◌, ◌^◌, ◌<◌, ◌≤◌, Bool, true, ℕ};
ghost use Rattle.proof_protocol.specs.Invariant.{Invariant};
ghost use Rattle.proof_protocol.specs.Rules.{covers};
ghost use Rattle.proof_protocol.specs.State.{ForwardPoint, IsAmong, Message, Transfer, count, ordered_of, place_of, stream_of};
ghost use Rattle.proof_protocol.specs.Windows.{IsFirstUnseen, IsNear, IsTimely, Windows};
ghost use Rattle.sctp_serial.specs.Unwrapped.{nearest, wire};

/// A number that lies less than half its space from where it is looked for is read as it was meant: TSNs, MIDs and
/// request numbers of 32 bits (`words`), SSNs of 16 bits (`halves`).
pub fn numbers_are_read()
    ensures words { (first near n : ℕ) → IsNear (2 ^ 31) near n → 2 ^ 32 ≤ near → nearest (2 ^ 32) first near (wire (2 ^ 32) first n) ≡ n }
    ensures halves { (first near n : ℕ) → IsNear (2 ^ 15) near n → 2 ^ 16 ≤ near → nearest (2 ^ 16) first near (wire (2 ^ 16) first n) ≡ n }
{}

/// A DATA chunk's TSN is near the receiver's front, where the chunk was emitted when n fragments were numbered, of which
/// its own was kept. Where nothing is missing the front is the sender's count.
pub fn data_is_near()
    ensures near { (message : ℕ → Message) (is_interleaved : Bool) (x : Transfer) (f t n : ℕ) → Invariant message is_interleaved x → Windows message x →
        IsFirstUnseen x.receiver f → t < n → n ≤ t + 2 ^ 30 → IsTimely x n → IsNear (2 ^ 31) f t }
{}

/// A SACK's cumulative point is near the sender's own, where it was emitted when n fragments were numbered and the
/// sender's own point was at most it.
pub fn sack_is_near()
    ensures near { (message : ℕ → Message) (is_interleaved : Bool) (x : Transfer) (c own n : ℕ) → Invariant message is_interleaved x → Windows message x →
        own ≤ c → c ≤ n → n ≤ own + 2 ^ 30 → IsTimely x n → IsNear (2 ^ 31) x.acknowledged c }
{}

/// The SSN or MID of a kept ordered fragment is near its stream's next one.
pub fn number_is_near()
    ensures near { (message : ℕ → Message) (is_interleaved : Bool) (x : Transfer) (t : ℕ) → Invariant message is_interleaved x → Windows message x →
        x.acknowledged ≤ t → t < count x.sender → ordered_of message (place_of x.sender t) ≡ true →
        IsNear 32000 (x.receiver.next (stream_of message (place_of x.sender t))) (x.sender.number (place_of x.sender t)) }
{}

/// The greatest number that a forward point names for an ordered stream is near the stream's next one, also where the
/// point comes late, as long as it is ahead of the sender's own point.
///
/// Nothing is claimed of unordered MIDs: they are near the last one met where fewer than 2^31 lie between.
pub fn named_number_is_near()
    ensures near { (message : ℕ → Message) (is_interleaved : Bool) (x : Transfer) (f : ForwardPoint) (s n : ℕ) → Invariant message is_interleaved x → Windows message x →
        IsAmong f x.forward_points → x.acknowledged < f.upto → covers f.entries true s n ≡ true →
        ((m : ℕ) → covers f.entries true s m ≡ true → m ≤ n) →
        (n < x.receiver.next s + 32000) × (x.receiver.next s ≤ n + 32001) }
{}
