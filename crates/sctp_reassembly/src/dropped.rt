//! Intervals that lie before a key.

ghost use Rattle.std.specs.Prelude.{◌≡◌, ◌<◌, ◌^◌, ◌++◌, List, None, true, length, IfSome, IfNone};
ghost use Rattle.std.specs.Map.{values_of};
ghost use Rattle.sctp_fragments.specs.Held.{rank_of, bytes_of};
ghost use Rattle.sctp_fragments.specs.Runs.{end_of, IsBelow};
ghost use Rattle.sctp_fragments.specs.ReassemblyKey.{rank_at};
ghost use Rattle.sctp_fragments.specs.Interval.{held_of, lists_of, entries_of, first_below};
ghost use Rattle.sctp_reassembly.specs.Places.{all_of, AreNamed, IsLed};

use sctp_fragments::{Interval, ReassemblyKey, is_before};
use std::collections::BTreeMap;

/// Whether the last fragment is before the key.
pub(crate) fn ends_below<K: ReassemblyKey>(
    first: &Option<Interval<K>>,
    later: &BTreeMap<K, Interval<K>>,
    key: K,
) -> bool
    ensures { result ≡ true → IsBelow rank_of (rank_at K.number K.index key) (end_of None (lists_of (held_of K.number K.index) (all_of first.now later.now.entries))) }
{
    if let Some((_, interval)) = later.last_key_value() {
        return is_before(interval.last().key, key);
    }
    match first {
        Some(interval) => is_before(interval.last().key, key),
        None => true,
    }
}

/// Whether the first interval is before the key.
fn is_first_below<K: ReassemblyKey>(first: &Option<Interval<K>>, key: K) -> bool {
    match first {
        Some(interval) => is_before(interval.last().key, key),
        None => false,
    }
}

/// Whether the interval behind the first is before the key.
fn is_next_below<K: ReassemblyKey>(later: &BTreeMap<K, Interval<K>>, key: K) -> bool {
    match later.first_key_value() {
        Some((_, interval)) => is_before(interval.last().key, key),
        None => false,
    }
}

/// Intervals that went out together.
#[derive(Drop)]
pub(crate) struct Low<K: ReassemblyKey> {
    pub(crate) first: Option<Interval<K>>,
    pub(crate) later: BTreeMap<K, Interval<K>>,
}

/// Takes out the intervals before the last one whose key in the map is below this, by one cut. That one is then the first, and begins
/// below the key. Where only one interval lies below, where none does, and without memory, nothing changes.
pub(crate) fn take_low<K: ReassemblyKey>(
    first: &mut Option<Interval<K>>,
    later: &mut BTreeMap<K, Interval<K>>,
    key: K,
) -> Option<Low<K>>
    requires led { IsLed first.old later.old.entries }
    requires named { AreNamed K.is_key K.number K.index later.old.entries }
    ensures taken { IfSome result (λ low. lists_of (held_of K.number K.index) (all_of first.old later.old.entries) ≡ lists_of (held_of K.number K.index) (all_of low.first low.later.entries) ++ lists_of (held_of K.number K.index) (all_of first.new later.new.entries)) }
    ensures below { IfSome result (λ low. first_below (rank_at K.number K.index key) (lists_of (held_of K.number K.index) (all_of first.new later.new.entries)) ≡ true) }
    ensures first { IfNone result (first.new ≡ first.old) }
    ensures later { IfNone result (later.new.entries ≡ later.old.entries) }
    ensures led { IsLed first.new later.new.entries }
    ensures named { AreNamed K.is_key K.number K.index later.new.entries }
{
    if !is_first_below(first, key) || !is_next_below(later, key) {
        return None;
    }
    key.known();
    let Ok(rest) = later.split_off(&key) else {
        return None;
    };
    let mut low = std::mem::replace(later, rest);
    let Some((_, last)) = low.pop_last() else {
        return None;
    };
    Some(Low {
        first: first.replace(last),
        later: low,
    })
}

/// How many bytes of payload and how many fragments the intervals have.
fn sums_of<K: ReassemblyKey>(later: &BTreeMap<K, Interval<K>>) -> (usize, usize)
    requires bytes { bytes_of (entries_of (held_of K.number K.index) (values_of later.now.entries)) < 2 ^ 64 }
    requires fragments { length (entries_of (held_of K.number K.index) (values_of later.now.entries)) < 2 ^ 64 }
    ensures bytes { result.0 ≡ bytes_of (entries_of (held_of K.number K.index) (values_of later.now.entries)) }
    ensures fragments { result.1 ≡ length (entries_of (held_of K.number K.index) (values_of later.now.entries)) }
{
    let mut bytes = 0;
    let mut fragments = 0;
    for interval in later.values() {
        bytes += interval.total_bytes();
        fragments += interval.len();
    }
    (bytes, fragments)
}

/// The same, with the first one.
pub(crate) fn all_sums_of<K: ReassemblyKey>(low: &Low<K>) -> (usize, usize)
    requires bytes { bytes_of (entries_of (held_of K.number K.index) (all_of low.now.first low.now.later.entries)) < 2 ^ 64 }
    requires fragments { length (entries_of (held_of K.number K.index) (all_of low.now.first low.now.later.entries)) < 2 ^ 64 }
    ensures bytes { result.0 ≡ bytes_of (entries_of (held_of K.number K.index) (all_of low.now.first low.now.later.entries)) }
    ensures fragments { result.1 ≡ length (entries_of (held_of K.number K.index) (all_of low.now.first low.now.later.entries)) }
{
    let (bytes, fragments) = sums_of(&low.later);
    match &low.first {
        Some(interval) => (bytes + interval.total_bytes(), fragments + interval.len()),
        None => (bytes, fragments),
    }
}
