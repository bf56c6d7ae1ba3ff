//! What becomes ready in a reassembly, stated over the map of fragments: it is made of fragments that were held, and are held
//! no more.

ghost use Rattle.std.specs.Prelude.{◌≡◌, ℕ, suc, max, nat_lt, false, true, List, ◌∷◌, ◌++◌};
ghost use Rattle.sctp_fragments.specs.ReassemblyKey.{pair_rank};
ghost use Rattle.sctp_fragments.specs.Runs.{flat, with_item, from_rank, IsMessage};
ghost use Rattle.sctp_fragments.specs.Held.{Held, rank_of, goes_on, begins, ends, intervals_of, is_complete};
ghost use Rattle.sctp_reassembly.specs.Delivery.{OrderedStream, UnorderedStream, ordered_arrival, ordered_forward, unordered_arrival};
ghost use Rattle.proof_refines.specs.SettledStreams.{AreInOrder};
ghost use Rattle.proof_refines.specs.ReadyMessages.{AreHeld, IsWhole, IsIn, AreReady, AreReadyInTurn};

/// A message is complete when its fragments are held: from a beginning to an end, each with the key after the one before.
/// Then they stand side by side, and are one interval by `messages_are_intervals`.
pub fn held_fragments_make_messages()
    ensures { (hs run : List Held) → AreInOrder hs → IsWhole run → AreHeld hs run → IsIn run hs }
{}

/// Fragments from a beginning to an end, each with the key after the one before, are one of the intervals, wherever they
/// stand among fragments.
pub fn messages_are_intervals()
    ensures { (front run back : List Held) → IsMessage rank_of goes_on begins ends run → intervals_of (front ++ (run ++ back)) ≡ intervals_of front ++ run ∷ intervals_of back }
{}

/// And a complete interval has just such fragments.
pub fn complete_intervals_are_messages()
    ensures whole { (hs run : List Held) (front back : List (List Held)) → AreInOrder hs → intervals_of hs ≡ front ++ run ∷ back → is_complete run ≡ true → IsWhole run }
    ensures split { (hs run : List Held) (front back : List (List Held)) → intervals_of hs ≡ front ++ run ∷ back → hs ≡ flat front ++ (run ++ flat back) }
{}

/// A fragment of an ordered message that isn't late: what becomes ready has the stream's next number and those behind it,
/// in order; the next number moves behind it; and the map parts into what became ready and what is held.
pub fn ordered_fragments_make_ready()
    ensures { (h : Held) (s : OrderedStream) → AreInOrder s.held → nat_lt h.number s.next ≡ false → AreReadyInTurn s.next (with_item rank_of h s.held) (ordered_arrival h s) }
{}

/// The same where a forward point names message n: of what it leaves, and of the next number that it leaves.
pub fn forward_points_make_ready()
    ensures { (n : ℕ) (s : OrderedStream) → AreInOrder s.held → AreReadyInTurn (max (suc n) s.next) (from_rank rank_of (pair_rank (suc n) 0) s.held) (ordered_forward n s) }
{}

/// A fragment of an unordered message that no forward point passed.
pub fn unordered_fragments_make_ready()
    ensures { (h : Held) (s : UnorderedStream) → AreInOrder s.held → nat_lt h.number s.passed ≡ false → AreReady (with_item rank_of h s.held) (unordered_arrival h s).stream.held (unordered_arrival h s).messages }
{}
