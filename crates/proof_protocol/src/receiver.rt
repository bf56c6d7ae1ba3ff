//! What a receiver does is a sequence of the rules. A receiver knows no place of a message: it has a set of seen TSNs, a
//! map from keys to chunks, numbers by stream and a list of ready messages. The key of a chunk is its TSN, or with
//! interleaving its kind, stream, MID and FSN; both modes stand in each law. Each law says of the events that it names
//! that they may happen, that the invariant is kept, that the queue refines the state they lead to, that nothing is left
//! to make ready, and that nothing of the sender or of the packets changes.

ghost use Rattle.std.specs.Prelude.{◌≡◌, ◌<◌, Bool, List, [], map, true, false, ℕ};
ghost use Rattle.proof_protocol.specs.Joints.{LeadsTo, Refines};
ghost use Rattle.proof_protocol.specs.Invariant.{Invariant};
ghost use Rattle.proof_protocol.specs.Lifted.{AreEntriesOfCurrentEpoch, IsOfCurrentEpoch, IsRebased, lift, wire_chunk, wire_key, wire_point};
ghost use Rattle.proof_protocol.specs.Reassembly.{Added, Forwarded, ResetPerformed, IsLate, NoneReady, KeyOf, Queue, Readied, below_of, chunk_of, key_of, next_of};
ghost use Rattle.proof_protocol.specs.Resets.{restarts};
ghost use Rattle.proof_protocol.specs.Rules.{IsAllowed, data_comes, become_ready, TransferEvent, perform_reset, forward_comes, late_comes, IsResettable, send_sack, after};
ghost use Rattle.proof_protocol.specs.State.{ForwardPoint, IsAmong, Message, Transfer, count, fragment};

/// A chunk that was not seen is put under its key, and then run after run becomes ready until none is left.
pub fn new_chunk()
    ensures leads { (message : ℕ → Message) (is_interleaved : Bool) (x : Transfer) (q m r : Queue (KeyOf is_interleaved) (next_of is_interleaved)) (t : ℕ) →
        Invariant message is_interleaved x → Refines message is_interleaved x q →
        t < count x.sender → (fragment x.sender t).placeholder ≡ false → x.receiver.seen t ≡ false →
        Added (KeyOf is_interleaved) (next_of is_interleaved) q m (key_of is_interleaved message x.sender t) (chunk_of message is_interleaved x.sender t) →
        Readied (KeyOf is_interleaved) (next_of is_interleaved) m r →
        (ps : List ℕ) × LeadsTo message is_interleaved x (data_comes t) (map become_ready ps) r }
{}

/// The same of a queue with numbers as they are on the wire, which begin again at each reset: a chunk of the epoch that the receiver is
/// in is put under its key there.
pub fn wire_chunk_comes()
    ensures leads { (message : ℕ → Message) (is_interleaved : Bool) (base : Bool → ℕ → ℕ) (x : Transfer) (q m r : Queue (KeyOf is_interleaved) (next_of is_interleaved)) (t : ℕ) →
        Invariant message is_interleaved x → Refines message is_interleaved x (lift base is_interleaved q) →
        t < count x.sender → (fragment x.sender t).placeholder ≡ false → x.receiver.seen t ≡ false → IsOfCurrentEpoch base message x.sender t →
        Added (KeyOf is_interleaved) (next_of is_interleaved) q m (wire_key is_interleaved message x.sender t) (wire_chunk message is_interleaved x.sender t) →
        Readied (KeyOf is_interleaved) (next_of is_interleaved) m r →
        (ps : List ℕ) × LeadsTo message is_interleaved x (data_comes t) (map become_ready ps) (lift base is_interleaved r) }
{}

/// A chunk that was not seen is not kept where its message can't become ready any more: its number is below its stream's
/// next one, or, unordered with interleaving, at most the greatest MID that a forward point named. Such a message was
/// given up, since it isn't ready.
pub fn late_chunk()
    ensures leads { (message : ℕ → Message) (is_interleaved : Bool) (x : Transfer) (q : Queue (KeyOf is_interleaved) (next_of is_interleaved)) (t : ℕ) →
        Invariant message is_interleaved x → Refines message is_interleaved x q → t < count x.sender → x.receiver.seen t ≡ false →
        IsLate (KeyOf is_interleaved) (next_of is_interleaved) is_interleaved q (chunk_of message is_interleaved x.sender t) → NoneReady is_interleaved q →
        LeadsTo message is_interleaved x (late_comes t) [] q }
{}

/// The same with numbers as they are on the wire, of the epoch that the receiver is in.
pub fn wire_chunk_is_late()
    ensures leads { (message : ℕ → Message) (is_interleaved : Bool) (base : Bool → ℕ → ℕ) (x : Transfer) (q : Queue (KeyOf is_interleaved) (next_of is_interleaved)) (t : ℕ) →
        Invariant message is_interleaved x → Refines message is_interleaved x (lift base is_interleaved q) → t < count x.sender → x.receiver.seen t ≡ false → IsOfCurrentEpoch base message x.sender t →
        IsLate (KeyOf is_interleaved) (next_of is_interleaved) is_interleaved q (wire_chunk message is_interleaved x.sender t) → NoneReady is_interleaved q →
        LeadsTo message is_interleaved x (late_comes t) [] (lift base is_interleaved q) }
{}

/// A forward point that was ever sent drops what it names (and, without interleaving, unordered chunks below it), raises the
/// next numbers, and then run after run becomes ready.
pub fn forward_point_comes()
    ensures leads { (message : ℕ → Message) (is_interleaved : Bool) (x : Transfer) (q m r : Queue (KeyOf is_interleaved) (next_of is_interleaved)) (f : ForwardPoint) →
        Invariant message is_interleaved x → Refines message is_interleaved x q → IsAmong f x.forward_points →
        Forwarded (KeyOf is_interleaved) (next_of is_interleaved) is_interleaved (below_of is_interleaved) q m f → Readied (KeyOf is_interleaved) (next_of is_interleaved) m r →
        (ps : List ℕ) × LeadsTo message is_interleaved x (forward_comes f) (map become_ready ps) r }
{}

/// And so does a forward point whose entries are of that epoch, each with its number as it is written.
pub fn wire_point_comes()
    ensures leads { (message : ℕ → Message) (is_interleaved : Bool) (base : Bool → ℕ → ℕ) (x : Transfer) (q m r : Queue (KeyOf is_interleaved) (next_of is_interleaved)) (f : ForwardPoint) →
        Invariant message is_interleaved x → Refines message is_interleaved x (lift base is_interleaved q) → IsAmong f x.forward_points → AreEntriesOfCurrentEpoch base f →
        Forwarded (KeyOf is_interleaved) (next_of is_interleaved) is_interleaved (below_of is_interleaved) q m (wire_point f) → Readied (KeyOf is_interleaved) (next_of is_interleaved) m r →
        (ps : List ℕ) × LeadsTo message is_interleaved x (forward_comes f) (map become_ready ps) (lift base is_interleaved r) }
{}

/// A reset of stream `s` forgets the stream: no chunk of it is held, and its numbers go on from the sender's counts.
pub fn stream_is_reset()
    ensures leads { (message : ℕ → Message) (is_interleaved : Bool) (x : Transfer) (q r : Queue (KeyOf is_interleaved) (next_of is_interleaved)) (s c : ℕ) →
        Invariant message is_interleaved x → Refines message is_interleaved x q → IsResettable message x.sender x.receiver s c →
        ResetPerformed (KeyOf is_interleaved) (next_of is_interleaved) q r s (x.sender.counts true s) (x.sender.counts false s) → NoneReady is_interleaved q →
        LeadsTo message is_interleaved x (perform_reset s c) [] r }
{}

/// On the wire its numbers begin at 0 again: the queue forgets them, and what is 0 there is the sender's count from now on.
pub fn wire_stream_is_reset()
    ensures leads { (message : ℕ → Message) (is_interleaved : Bool) (base new : Bool → ℕ → ℕ) (x : Transfer) (q r : Queue (KeyOf is_interleaved) (next_of is_interleaved)) (s c : ℕ) →
        Invariant message is_interleaved x → Refines message is_interleaved x (lift base is_interleaved q) → IsResettable message x.sender x.receiver s c → IsRebased base new x.sender s →
        ResetPerformed (KeyOf is_interleaved) (next_of is_interleaved) q r s 0 0 → NoneReady is_interleaved q →
        LeadsTo message is_interleaved x (perform_reset s c) [] (lift new is_interleaved r) }
{}

/// A SACK of the front of what is seen may be sent where no run is left to make ready.
pub fn sack_is_made()
    ensures allowed { (message : ℕ → Message) (is_interleaved : Bool) (x : Transfer) (q : Queue (KeyOf is_interleaved) (next_of is_interleaved)) (c : ℕ) →
        Invariant message is_interleaved x → Refines message is_interleaved x q → ((t : ℕ) → t < c → x.receiver.seen t ≡ true) → NoneReady is_interleaved q →
        IsAllowed message is_interleaved x (send_sack c) }
    ensures wire { (message : ℕ → Message) (is_interleaved : Bool) (base : Bool → ℕ → ℕ) (x : Transfer) (q : Queue (KeyOf is_interleaved) (next_of is_interleaved)) (c : ℕ) →
        Invariant message is_interleaved x → Refines message is_interleaved x (lift base is_interleaved q) → ((t : ℕ) → t < c → x.receiver.seen t ≡ true) → NoneReady is_interleaved q →
        IsAllowed message is_interleaved x (send_sack c) }
{}

/// While the sender goes on, the queue refines the state still, and a fragment is carried by the same chunk under the same
/// key: so what was sent may come at any time. Nor is it shown that a stream's numbers on the wire begin again (`restarted`).
pub fn sender_goes_on()
    ensures shows { (message : ℕ → Message) (is_interleaved : Bool) (x : Transfer) (e : TransferEvent) (q : Queue (KeyOf is_interleaved) (next_of is_interleaved)) →
        Invariant message is_interleaved x → IsAllowed message is_interleaved x e → (after message is_interleaved x e).receiver ≡ x.receiver →
        Refines message is_interleaved x q → Refines message is_interleaved (after message is_interleaved x e) q }
    ensures chunk { (message : ℕ → Message) (is_interleaved : Bool) (x : Transfer) (e : TransferEvent) (t : ℕ) →
        Invariant message is_interleaved x → IsAllowed message is_interleaved x e → t < count x.sender →
        (t < count (after message is_interleaved x e).sender) × (fragment (after message is_interleaved x e).sender t ≡ fragment x.sender t)
        × (chunk_of message is_interleaved (after message is_interleaved x e).sender t ≡ chunk_of message is_interleaved x.sender t) }
    ensures key { (message : ℕ → Message) (is_interleaved : Bool) (x : Transfer) (e : TransferEvent) (t : ℕ) →
        Invariant message is_interleaved x → IsAllowed message is_interleaved x e → t < count x.sender →
        key_of is_interleaved message (after message is_interleaved x e).sender t ≡ key_of is_interleaved message x.sender t }
    ensures restarted { (message : ℕ → Message) (is_interleaved : Bool) (x : Transfer) (q : Queue (KeyOf is_interleaved) (next_of is_interleaved)) (s : ℕ) →
        Refines message is_interleaved x q → Refines message is_interleaved (record x { sender = restarts x.sender s }) q }
{}
