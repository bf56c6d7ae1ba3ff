//! The keys of fragments.

ghost use Rattle.std.specs.Prelude.{◌≡◌, ◌==◌, ℕ, suc, ◌+◌, ◌<◌, ◌≤◌, ◌^◌, nat_lt, IsTrue, ◌↔◌};
ghost use Rattle.std.specs.Ordering.{nat_cmp};
ghost use Rattle.sctp_fragments.specs.ReassemblyKey.{NoneBetween, IsPair, pair_rank, pair_bound, pair_after_number, pair_after_index, rank_at};
ghost use Rattle.sctp_fragments.specs.KeyLaws.{pair_made, pair_by_rank, pair_number, pair_index, pair_within, pair_follows};

/// Where a fragment stands among others of its stream: the number of its message, and its place in the message. Both
/// are unwrapped. Keys are in order, without cycles, and the fragment behind one in the same message has the next key.
pub trait ReassemblyKey: Copy + Ord {
    // Holds of each value of the type.
    ghost is_key: { Self → Type 0 };

    // The rank of the greatest key. A key's rank is made of its number and its index.
    ghost bound: { ℕ };

    ghost after: { Self → Self };

    // The message's number, and the fragment's place.
    ghost number: { Self → ℕ };

    ghost index: { Self → ℕ };

    /// The number of the fragment's message.
    fn number(self) -> u64
        ensures { result ≡ number self };

    /// A value of the type is a key.
    fn known(self)
        ensures { is_key self };

    /// The least greater key. For a key that isn't the greatest.
    fn next(self) -> Self
        requires key { is_key self }
        requires below { pair_rank (number self) (index self) < bound }
        ensures { result ≡ after self };

    /// The key of the fragment in this place of the message with this number.
    fn from_parts(message: u64, place: u64) -> Self
        ensures number { number result ≡ message }
        ensures index { index result ≡ place };

    // The order is that of the ranks, which are different.
    ghost by_rank: { (x y : Self) → is_key x → is_key y → Self.cmp x y ≡ nat_cmp (pair_rank (number x) (index x)) (pair_rank (number y) (index y)) };

    ghost one_key: { (x y : Self) → is_key x → is_key y → pair_rank (number x) (index x) ≡ pair_rank (number y) (index y) → x ≡ y };

    ghost within: { (x : Self) → is_key x → pair_rank (number x) (index x) ≤ bound };

    // A place has 64 bits.
    ghost small: { (x : Self) → is_key x → index x < 2 ^ 64 };

    // The next key is a key, and no rank lies between.
    ghost follows: { (x : Self) → is_key x → pair_rank (number x) (index x) < bound → is_key (after x) × (pair_rank (number (after x)) (index (after x)) ≡ suc (pair_rank (number x) (index x))) };
}

/// Whether `x` comes before `y`.
pub fn is_before<K: ReassemblyKey>(x: K, y: K) -> bool
    ensures { result ≡ nat_lt (rank_at K.number K.index x) (rank_at K.number K.index y) }
{
    x.known();
    y.known();
    x.cmp(&y).is_lt()
}

/// Whether `y` is the next key after `x`.
pub fn leads_to<K: ReassemblyKey>(x: K, y: K) -> bool
    ensures { result ≡ (rank_at K.number K.index y == suc (rank_at K.number K.index x)) }
{
    if !is_before(x, y) {
        return false;
    }
    x.known();
    y.known();
    x.next().cmp(&y).is_eq()
}

/// The law of `next`: below the bound, the next key is a greater one, and no key lies between.
pub fn next_key<K: ReassemblyKey>(x: K) -> K
    requires { rank_at K.number K.index x < K.bound }
    ensures key { K.is_key result }
    ensures greater { rank_at K.number K.index x < rank_at K.number K.index result }
    ensures least { NoneBetween K.is_key (λ k. rank_at K.number K.index k) x result }
{
    x.known();
    x.next()
}

/// Among greater keys, the next one is told by that: no key lies between.
pub fn touch<K: ReassemblyKey>(x: K, y: K) -> bool
    requires { rank_at K.number K.index x < rank_at K.number K.index y }
    ensures { IsTrue result ↔ NoneBetween K.is_key (λ k. rank_at K.number K.index k) x y }
{
    x.known();
    y.known();
    x.next().cmp(&y).is_eq()
}

/// The law of equality: equal keys are those of one rank.
pub fn is_same<K: ReassemblyKey>(x: K, y: K) -> bool
    ensures { IsTrue result ↔ (x ≡ y) }
{
    x.known();
    y.known();
    x.cmp(&y).is_eq()
}

/// Without interleaving: the unwrapped SSN of an ordered message, a constant for unordered ones, and the unwrapped TSN.
#[derive(Clone, Copy, PartialEq, Eq, PartialOrd, Ord, Debug)]
pub struct TraditionalKey {
    /// The SSN, counted on from 2^32; 2^32 for unordered messages.
    pub number: u64,
    /// The TSN, counted on from 2^32.
    pub index: u64,
}

impl ReassemblyKey for TraditionalKey {
    ghost is_key = { λ k. IsPair k.number k.index };

    ghost bound = { pair_bound };

    ghost after = { λ k. record { number = pair_after_number k.number k.index; index = pair_after_index k.index } };

    ghost number = { λ k. k.number };

    ghost index = { λ k. k.index };

    fn number(self) -> u64 {
        self.number
    }

    fn known(self) {}

    fn next(self) -> TraditionalKey {
        if self.index == u64::MAX {
            TraditionalKey {
                number: self.number + 1,
                index: 0,
            }
        } else {
            TraditionalKey {
                number: self.number,
                index: self.index + 1,
            }
        }
    }

    fn from_parts(message: u64, place: u64) -> TraditionalKey {
        TraditionalKey {
            number: message,
            index: place,
        }
    }

    ghost by_rank = { λ x y p q. pair_by_rank x.number x.index y.number y.index p q };

    ghost one_key = { λ x y p q same. pair_made (λ n i. record { number = n; index = i }) x.number x.index y.number y.index (pair_number x.number x.index y.number y.index p q same) (pair_index x.number x.index y.number y.index p q same) };

    ghost within = { λ x p. pair_within x.number x.index p };

    ghost small = { λ x p. p.1 };

    ghost follows = { λ x p less. pair_follows x.number x.index p less };
}

/// With interleaving, on an ordered stream: the message's unwrapped MID and the fragment's FSN.
#[derive(Clone, Copy, PartialEq, Eq, PartialOrd, Ord, Debug)]
pub struct InterleavedKey {
    /// The MID, counted on from 2^32.
    pub number: u64,
    /// The FSN, and 0 where the fragment begins its message.
    pub index: u64,
}

impl ReassemblyKey for InterleavedKey {
    ghost is_key = { λ k. IsPair k.number k.index };

    ghost bound = { pair_bound };

    ghost after = { λ k. record { number = pair_after_number k.number k.index; index = pair_after_index k.index } };

    ghost number = { λ k. k.number };

    ghost index = { λ k. k.index };

    fn number(self) -> u64 {
        self.number
    }

    fn known(self) {}

    fn next(self) -> InterleavedKey {
        if self.index == u64::MAX {
            InterleavedKey {
                number: self.number + 1,
                index: 0,
            }
        } else {
            InterleavedKey {
                number: self.number,
                index: self.index + 1,
            }
        }
    }

    fn from_parts(message: u64, place: u64) -> InterleavedKey {
        InterleavedKey {
            number: message,
            index: place,
        }
    }

    ghost by_rank = { λ x y p q. pair_by_rank x.number x.index y.number y.index p q };

    ghost one_key = { λ x y p q same. pair_made (λ n i. record { number = n; index = i }) x.number x.index y.number y.index (pair_number x.number x.index y.number y.index p q same) (pair_index x.number x.index y.number y.index p q same) };

    ghost within = { λ x p. pair_within x.number x.index p };

    ghost small = { λ x p. p.1 };

    ghost follows = { λ x p less. pair_follows x.number x.index p less };
}

/// With interleaving, on an unordered stream: the message's unwrapped MID and the fragment's FSN.
#[derive(Clone, Copy, PartialEq, Eq, PartialOrd, Ord, Debug)]
pub struct UnorderedInterleavedKey {
    /// The MID, counted on from 2^32.
    pub number: u64,
    /// The FSN, and 0 where the fragment begins its message.
    pub index: u64,
}

impl ReassemblyKey for UnorderedInterleavedKey {
    ghost is_key = { λ k. IsPair k.number k.index };

    ghost bound = { pair_bound };

    ghost after = { λ k. record { number = pair_after_number k.number k.index; index = pair_after_index k.index } };

    ghost number = { λ k. k.number };

    ghost index = { λ k. k.index };

    fn number(self) -> u64 {
        self.number
    }

    fn known(self) {}

    fn next(self) -> UnorderedInterleavedKey {
        if self.index == u64::MAX {
            UnorderedInterleavedKey {
                number: self.number + 1,
                index: 0,
            }
        } else {
            UnorderedInterleavedKey {
                number: self.number,
                index: self.index + 1,
            }
        }
    }

    fn from_parts(message: u64, place: u64) -> UnorderedInterleavedKey {
        UnorderedInterleavedKey {
            number: message,
            index: place,
        }
    }

    ghost by_rank = { λ x y p q. pair_by_rank x.number x.index y.number y.index p q };

    ghost one_key = { λ x y p q same. pair_made (λ n i. record { number = n; index = i }) x.number x.index y.number y.index (pair_number x.number x.index y.number y.index p q same) (pair_index x.number x.index y.number y.index p q same) };

    ghost within = { λ x p. pair_within x.number x.index p };

    ghost small = { λ x p. p.1 };

    ghost follows = { λ x p less. pair_follows x.number x.index p less };
}
