//! Intervals by their place in a list: the first one, and the later ones in a map.

ghost use Rattle.std.specs.Prelude.{◌≡◌, ◌==◌, ◌+◌, ◌<◌, ◌≤◌, ◌^◌, ◌++◌, ◌∷◌, [], List, Option, Some, None, suc, true, false, length, IfOk, OnOk, OnErr, IfSome, IfNone};
ghost use Rattle.std.specs.Option.{option_to_list};
ghost use Rattle.sctp_fragments.specs.Entries.{size_of, FitsBehind, FitsBefore};
ghost use Rattle.sctp_fragments.specs.Held.{Held, rank_of, goes_on, is_complete, is_in_turn, NoneInTurn};
ghost use Rattle.sctp_fragments.specs.Runs.{is_next, is_held, flat, last_of, end_of, joins_left, AreRuns, IsBelow, LeadsTo};
ghost use Rattle.sctp_fragments.specs.ReassemblyKey.{pair_rank, rank_at};
ghost use Rattle.sctp_fragments.specs.Interval.{held_of, run_of, lists_of, entries_of, IsInRuns, AreIndexed, without_first, first_below, starts_upto};
ghost use Rattle.sctp_fragments.specs.declared.interval.Interval.{Interval};
ghost use Rattle.sctp_reassembly.specs.Turns.{IsFirstOut, IsFirstPassing};
ghost use Rattle.sctp_reassembly.specs.Finished.{NoneEarlier};
ghost use Rattle.sctp_reassembly.specs.Places.{AreBeside, HasRoom, Holds, IsAmong, IsOut, IsFirstAt, all_of, runs_at, AreNamed, AreLow, AreHigh, IsLed, IsSplit, IsChanged, IsJoined, AreJoined, IsAdded, IsAnswer, IsSame, next_of, previous_of, ends_from, first_key_of, last_key};

use sctp_fragments::{Entries, Entry, Interval, ReassemblyKey, Size, goes_on_to, is_before};
use std::alloc::{AllocError, Global};
use std::collections::BTreeMap;

/// Whether the first fragment is before the key.
pub(crate) fn begins_below<K: ReassemblyKey>(first: &Option<Interval<K>>, key: K) -> bool
    ensures { (later : List (K × Interval K)) → IsLed first.now later → result ≡ first_below (rank_at K.number K.index key) (lists_of (held_of K.number K.index) (all_of first.now later)) }
{
    match first {
        Some(interval) => is_before(interval.first().key, key),
        None => false,
    }
}

/// Takes out the first interval. The next one then is the first.
fn take_first<K: ReassemblyKey>(
    first: &mut Option<Interval<K>>,
    later: &mut BTreeMap<K, Interval<K>>,
) -> Option<Interval<K>>
    requires { IsLed first.old later.old.entries }
    ensures result { result ≡ first.old }
    ensures others { all_of first.old later.old.entries ≡ option_to_list result ++ all_of first.new later.new.entries }
    ensures led { IsLed first.new later.new.entries }
    ensures named { AreNamed K.is_key K.number K.index later.old.entries → AreNamed K.is_key K.number K.index later.new.entries }
{
    let Some((_, next)) = later.pop_first() else {
        return first.take();
    };
    first.replace(next)
}

/// Drops the first fragment, and says how many bytes it had.
pub(crate) fn drop_first<K: ReassemblyKey>(
    first: &mut Option<Interval<K>>,
    later: &mut BTreeMap<K, Interval<K>>,
) -> usize
    requires { IsLed first.old later.old.entries }
    ensures value { (e : Held) (es : List Held) (rs : List (List Held)) → lists_of (held_of K.number K.index) (all_of first.old later.old.entries) ≡ (e ∷ es) ∷ rs → (result ≡ length e.fragment.payload) × (lists_of (held_of K.number K.index) (all_of first.new later.new.entries) ≡ without_first es rs) }
    ensures led { IsLed first.new later.new.entries }
    ensures named { AreNamed K.is_key K.number K.index later.old.entries → AreNamed K.is_key K.number K.index later.new.entries }
{
    let Some(interval) = first else {
        return 0;
    };
    if interval.is_single() {
        let bytes = interval.first().fragment.payload.len();
        drop(take_first(first, later));
        return bytes;
    }
    let Some(entry) = interval.pop_front() else {
        return 0;
    };
    entry.fragment.payload.len()
}

/// The last interval whose key in the map is below this, and that key.
fn last_below<K: ReassemblyKey>(
    later: &BTreeMap<K, Interval<K>>,
    key: K,
) -> Option<(K, &Interval<K>)>
    ensures some { IfSome result (λ e. (ps qs : List (K × Interval K)) → IsSplit K.is_key (rank_at K.number K.index) (rank_at K.number K.index key) later.now.entries ps qs → (front : List (K × Interval K)) × (ps ≡ front ++ (e.0, e.1.now) ∷ [])) }
    ensures none { IfNone result ((ps qs : List (K × Interval K)) → IsSplit K.is_key (rank_at K.number K.index) (rank_at K.number K.index key) later.now.entries ps qs → ps ≡ []) }
{
    key.known();
    match later.range(..key).next_back() {
        Some((place, interval)) => Some((*place, interval)),
        None => None,
    }
}

/// The first interval whose key in the map is this or above it, and that key.
fn first_from<K: ReassemblyKey>(
    later: &BTreeMap<K, Interval<K>>,
    key: K,
) -> Option<(K, &Interval<K>)>
    ensures some { IfSome result (λ e. (ps qs : List (K × Interval K)) → IsSplit K.is_key (rank_at K.number K.index) (rank_at K.number K.index key) later.now.entries ps qs → (back : List (K × Interval K)) × (qs ≡ (e.0, e.1.now) ∷ back)) }
    ensures none { IfNone result ((ps qs : List (K × Interval K)) → IsSplit K.is_key (rank_at K.number K.index) (rank_at K.number K.index key) later.now.entries ps qs → qs ≡ []) }
{
    key.known();
    match later.range(key..).next() {
        Some((place, interval)) => Some((*place, interval)),
        None => None,
    }
}

/// The interval that has the key, and its key in the map, where that is below it.
fn below_with<K: ReassemblyKey>(
    later: &BTreeMap<K, Interval<K>>,
    key: K,
) -> Option<(K, &Interval<K>)>
    ensures some { IfSome result (λ e. (ps qs : List (K × Interval K)) → IsSplit K.is_key (rank_at K.number K.index) (rank_at K.number K.index key) later.now.entries ps qs → (ends_from (rank_at K.number K.index key) (runs_at K.number K.index ps) ≡ true) × ((front : List (K × Interval K)) × (ps ≡ front ++ (e.0, e.1.now) ∷ []))) }
    ensures none { IfNone result ((ps qs : List (K × Interval K)) → IsSplit K.is_key (rank_at K.number K.index) (rank_at K.number K.index key) later.now.entries ps qs → IsBelow rank_of (rank_at K.number K.index key) (end_of None (runs_at K.number K.index ps))) }
{
    let found = last_below(later, key)?;
    if is_before(found.1.last().key, key) {
        return None;
    }
    Some(found)
}

/// The same, where it is the key or above it.
fn from_with<K: ReassemblyKey>(
    later: &BTreeMap<K, Interval<K>>,
    key: K,
) -> Option<(K, &Interval<K>)>
    ensures some { IfSome result (λ e. (ps qs : List (K × Interval K)) → IsSplit K.is_key (rank_at K.number K.index) (rank_at K.number K.index key) later.now.entries ps qs → (starts_upto (rank_at K.number K.index key) (runs_at K.number K.index qs) ≡ true) × ((back : List (K × Interval K)) × (qs ≡ (e.0, e.1.now) ∷ back))) }
    ensures none { IfNone result ((ps qs : List (K × Interval K)) → IsSplit K.is_key (rank_at K.number K.index) (rank_at K.number K.index key) later.now.entries ps qs → LeadsTo rank_of (rank_at K.number K.index key) (runs_at K.number K.index qs)) }
{
    let found = first_from(later, key)?;
    if is_before(key, found.1.first().key) {
        return None;
    }
    Some(found)
}

/// The later interval that has the key, and its key in the map.
fn found_with<K: ReassemblyKey>(
    later: &BTreeMap<K, Interval<K>>,
    key: K,
) -> Option<(K, &Interval<K>)>
    requires runs { IsInRuns (runs_at K.number K.index later.now.entries) }
    requires named { AreNamed K.is_key K.number K.index later.now.entries }
    ensures some { IfSome result (λ e. (h : Holds K.is_key K.number K.index (rank_at K.number K.index key) e.0 later.now.entries) × (e.1.now ≡ h.interval)) }
    ensures none { IfNone result (is_held rank_of (rank_at K.number K.index key) (flat (runs_at K.number K.index later.now.entries)) ≡ false) }
{
    if let Some(found) = last_with(later, key) {
        return Some(found);
    }
    amid_with(later, key)
}

/// The same, without a look at the last interval first.
fn amid_with<K: ReassemblyKey>(
    later: &BTreeMap<K, Interval<K>>,
    key: K,
) -> Option<(K, &Interval<K>)>
    requires runs { IsInRuns (runs_at K.number K.index later.now.entries) }
    requires named { AreNamed K.is_key K.number K.index later.now.entries }
    ensures some { IfSome result (λ e. (h : Holds K.is_key K.number K.index (rank_at K.number K.index key) e.0 later.now.entries) × (e.1.now ≡ h.interval)) }
    ensures none { IfNone result (is_held rank_of (rank_at K.number K.index key) (flat (runs_at K.number K.index later.now.entries)) ≡ false) }
{
    match below_with(later, key) {
        Some(found) => Some(found),
        None => from_with(later, key),
    }
}

/// The last interval and its key in the map, where it has the key.
fn last_with<K: ReassemblyKey>(
    later: &BTreeMap<K, Interval<K>>,
    key: K,
) -> Option<(K, &Interval<K>)>
    requires runs { IsInRuns (runs_at K.number K.index later.now.entries) }
    requires named { AreNamed K.is_key K.number K.index later.now.entries }
    ensures { IfSome result (λ e. (h : Holds K.is_key K.number K.index (rank_at K.number K.index key) e.0 later.now.entries) × (e.1.now ≡ h.interval)) }
{
    let Some((place, interval)) = later.last_key_value() else {
        return None;
    };
    if !has_key(interval, key) {
        return None;
    }
    Some((*place, interval))
}

/// Whether an interval has an entry with the key.
pub(crate) fn has_key<K: ReassemblyKey>(interval: &Interval<K>, key: K) -> bool
    ensures { (before : Option Held) (rs : List (List Held)) → AreRuns rank_of goes_on before (run_of (held_of K.number K.index) interval.now ∷ rs) → result ≡ is_held rank_of (rank_at K.number K.index key) (run_of (held_of K.number K.index) interval.now) }
{
    !is_before(key, interval.first().key) && !is_before(interval.last().key, key)
}

/// The interval that has the key.
pub(crate) fn interval_with<'a, K: ReassemblyKey>(
    first: &'a Option<Interval<K>>,
    later: &'a BTreeMap<K, Interval<K>>,
    key: K,
) -> Option<&'a Interval<K>>
    requires led { IsLed first.now later.now.entries }
    requires runs { IsInRuns (lists_of (held_of K.number K.index) (all_of first.now later.now.entries)) }
    requires named { AreNamed K.is_key K.number K.index later.now.entries }
    ensures some { IfSome result (λ i. IsAmong (rank_at K.number K.index key) (run_of (held_of K.number K.index) i.now) (lists_of (held_of K.number K.index) (all_of first.now later.now.entries))) }
    ensures none { IfNone result (is_held rank_of (rank_at K.number K.index key) (entries_of (held_of K.number K.index) (all_of first.now later.now.entries)) ≡ false) }
{
    let Some(interval) = first else {
        return None;
    };
    if has_key(interval, key) {
        return Some(interval);
    }
    match found_with(later, key) {
        Some((_, interval)) => Some(interval),
        None => None,
    }
}

/// Takes the interval that has the key out where it is a complete message.
pub(crate) fn take_if_complete<K: ReassemblyKey>(
    first: &mut Option<Interval<K>>,
    later: &mut BTreeMap<K, Interval<K>>,
    key: K,
) -> Option<Interval<K>>
    requires led { IsLed first.old later.old.entries }
    requires runs { IsInRuns (lists_of (held_of K.number K.index) (all_of first.old later.old.entries)) }
    requires named { AreNamed K.is_key K.number K.index later.old.entries }
    ensures taken { IfSome result (λ i. IsOut (lists_of (held_of K.number K.index) (all_of first.old later.old.entries)) (run_of (held_of K.number K.index) i) (lists_of (held_of K.number K.index) (all_of first.new later.new.entries))) }
    ensures complete { IfSome result (λ i. is_complete (run_of (held_of K.number K.index) i) ≡ true) }
    ensures held { IfSome result (λ i. is_held rank_of (rank_at K.number K.index key) (run_of (held_of K.number K.index) i) ≡ true) }
    ensures none { IfNone result (lists_of (held_of K.number K.index) (all_of first.new later.new.entries) ≡ lists_of (held_of K.number K.index) (all_of first.old later.old.entries)) }
    ensures incomplete { IfNone result ((front back : List (List Held)) (r : List Held) → lists_of (held_of K.number K.index) (all_of first.old later.old.entries) ≡ front ++ r ∷ back → is_held rank_of (rank_at K.number K.index key) r ≡ true → is_complete r ≡ false) }
    ensures named { AreNamed K.is_key K.number K.index later.new.entries }
    ensures led { IsLed first.new later.new.entries }
{
    let Some(interval) = first else {
        return None;
    };
    if has_key(interval, key) {
        if !interval.is_complete() {
            return None;
        }
        return take_first(first, later);
    }
    let found = found_with(later, key)?;
    if !found.1.is_complete() {
        return None;
    }
    let place = found.0;
    place.known();
    later.remove(&place)
}

/// The first key of the message with the number, or a lesser key.
pub(crate) fn least_of<K: ReassemblyKey>(number: u128) -> K
    ensures { rank_at K.number K.index result ≤ pair_rank number 0 }
{
    K::from_parts(number.min(u64::MAX as u128) as u64, 0)
}

/// Takes out the first interval that is a complete message with the number, where none begins before the key.
pub(crate) fn take_in_turn<K: ReassemblyKey>(
    first: &mut Option<Interval<K>>,
    later: &mut BTreeMap<K, Interval<K>>,
    key: K,
    number: u128,
) -> Option<Interval<K>>
    requires led { IsLed first.old later.old.entries }
    requires runs { IsInRuns (lists_of (held_of K.number K.index) (all_of first.old later.old.entries)) }
    requires named { AreNamed K.is_key K.number K.index later.old.entries }
    requires small { AreIndexed (entries_of (held_of K.number K.index) (all_of first.old later.old.entries)) }
    requires earlier { NoneEarlier number (rank_at K.number K.index key) (lists_of (held_of K.number K.index) (all_of first.old later.old.entries)) }
    ensures taken { IfSome result (λ i. IsFirstOut (is_in_turn number) (lists_of (held_of K.number K.index) (all_of first.old later.old.entries)) (run_of (held_of K.number K.index) i) (lists_of (held_of K.number K.index) (all_of first.new later.new.entries))) }
    ensures none { IfNone result (lists_of (held_of K.number K.index) (all_of first.new later.new.entries) ≡ lists_of (held_of K.number K.index) (all_of first.old later.old.entries)) }
    ensures unturned { IfNone result (NoneInTurn number (lists_of (held_of K.number K.index) (all_of first.old later.old.entries))) }
    ensures named { AreNamed K.is_key K.number K.index later.new.entries }
    ensures led { IsLed first.new later.new.entries }
{
    let Some(interval) = first else {
        return None;
    };
    if interval.is_in_turn(number) {
        return take_first(first, later);
    }
    let Some(place) = place_in_turn(later, key, number) else {
        return None;
    };
    place.known();
    later.remove(&place)
}

/// The key in the map of the first interval that is a complete message with the number, where none begins before the key. Those
/// under lesser keys are passed by the map, and those of greater numbers aren't looked at.
fn place_in_turn<K: ReassemblyKey>(
    later: &BTreeMap<K, Interval<K>>,
    key: K,
    number: u128,
) -> Option<K>
    requires runs { IsInRuns (runs_at K.number K.index later.now.entries) }
    requires named { AreNamed K.is_key K.number K.index later.now.entries }
    requires small { AreIndexed (flat (runs_at K.number K.index later.now.entries)) }
    requires earlier { NoneEarlier number (rank_at K.number K.index key) (runs_at K.number K.index later.now.entries) }
    ensures some { IfSome result (λ place. IsFirstPassing K.is_key K.number K.index (is_in_turn number) place later.now.entries) }
    ensures none { IfNone result (NoneInTurn number (runs_at K.number K.index later.now.entries)) }
{
    key.known();
    let mut rest = later.range(key..);
    while let Some((place, interval)) = rest.next() {
        if interval.is_in_turn(number) {
            return Some(*place);
        }
        if (interval.first().key.number() as u128) > number {
            return None;
        }
    }
    None
}

/// An interval of one entry.
fn alone<K: ReassemblyKey>(alloc: Global, entry: Entry<K>) -> Result<Interval<K>, AllocError>
    ensures { IfOk result (λ i. run_of (held_of K.number K.index) i ≡ held_of K.number K.index entry ∷ []) }
{
    let entries = Entries::one(alloc, entry)?;
    Ok(Interval { entries })
}

/// Adds an entry, and says whether it is new.
pub(crate) fn add_to<K: ReassemblyKey>(
    alloc: Global,
    first: &mut Option<Interval<K>>,
    later: &mut BTreeMap<K, Interval<K>>,
    entry: Entry<K>,
) -> Result<bool, AllocError>
    requires led { IsLed first.old later.old.entries }
    requires runs { IsInRuns (lists_of (held_of K.number K.index) (all_of first.old later.old.entries)) }
    requires named { AreNamed K.is_key K.number K.index later.old.entries }
    ensures ok { IfOk result (λ is_new. IsAnswer K.is_key K.number K.index (lists_of (held_of K.number K.index) (all_of first.old later.old.entries)) (lists_of (held_of K.number K.index) (all_of first.new later.new.entries)) (held_of K.number K.index entry) later.new.entries is_new) }
    ensures err { OnErr result (lists_of (held_of K.number K.index) (all_of first.new later.new.entries) ≡ lists_of (held_of K.number K.index) (all_of first.old later.old.entries)) }
    ensures named { AreNamed K.is_key K.number K.index later.new.entries }
    ensures led { IsLed first.new later.new.entries }
{
    let Some(interval) = first else {
        *first = Some(alone(alloc, entry)?);
        return Ok(true);
    };
    if is_before(entry.key, interval.first().key) {
        put_ahead(alloc, interval, later, entry)?;
        return Ok(true);
    }
    if !is_before(interval.last().key, entry.key) {
        return Ok(false);
    }
    add_behind(alloc, interval, later, entry)
}

/// Puts an entry in front of the first interval.
fn put_ahead<K: ReassemblyKey>(
    alloc: Global,
    first: &mut Interval<K>,
    later: &mut BTreeMap<K, Interval<K>>,
    entry: Entry<K>,
) -> Result<(), AllocError>
    requires runs { IsInRuns (run_of (held_of K.number K.index) first.old ∷ runs_at K.number K.index later.old.entries) }
    requires named { AreNamed K.is_key K.number K.index later.old.entries }
    requires ahead { LeadsTo rank_of (rank_of (held_of K.number K.index entry)) (run_of (held_of K.number K.index) first.old ∷ []) }
    ensures ok { OnOk result (IsAdded K.is_key K.number K.index (run_of (held_of K.number K.index) first.old ∷ runs_at K.number K.index later.old.entries) (run_of (held_of K.number K.index) first.new ∷ runs_at K.number K.index later.new.entries) (held_of K.number K.index entry) later.new.entries) }
    ensures first { OnErr result (run_of (held_of K.number K.index) first.new ≡ run_of (held_of K.number K.index) first.old) }
    ensures later { OnErr result (later.new.entries ≡ later.old.entries) }
{
    if goes_on_to(&entry, first.first()) {
        first.push_front(entry)?;
        return Ok(());
    }
    let new = alone(alloc, entry)?;
    let place = first.first().key;
    place.known();
    let old = std::mem::replace(first, new);
    match later.insert(place, old) {
        Ok(_) => Ok(()),
        Err(failed) => {
            let (_, old) = failed.value;
            drop(std::mem::replace(first, old));
            Err(AllocError)
        }
    }
}

/// Adds an entry behind the first interval, and says whether it is new.
fn add_behind<K: ReassemblyKey>(
    alloc: Global,
    first: &mut Interval<K>,
    later: &mut BTreeMap<K, Interval<K>>,
    entry: Entry<K>,
) -> Result<bool, AllocError>
    requires runs { IsInRuns (run_of (held_of K.number K.index) first.old ∷ runs_at K.number K.index later.old.entries) }
    requires named { AreNamed K.is_key K.number K.index later.old.entries }
    requires behind { IsBelow rank_of (rank_of (held_of K.number K.index entry)) (end_of None (run_of (held_of K.number K.index) first.old ∷ [])) }
    ensures ok { IfOk result (λ is_new. IsAnswer K.is_key K.number K.index (run_of (held_of K.number K.index) first.old ∷ runs_at K.number K.index later.old.entries) (run_of (held_of K.number K.index) first.new ∷ runs_at K.number K.index later.new.entries) (held_of K.number K.index entry) later.new.entries is_new) }
    ensures err { OnErr result ((run_of (held_of K.number K.index) first.new ≡ run_of (held_of K.number K.index) first.old) × IsSame K.is_key K.number K.index later.old.entries later.new.entries) }
{
    let Some(joined) = joined_to(later, &entry) else {
        return Ok(false);
    };
    if goes_on_to(first.last(), &entry) {
        extend_first(first, later, joined, entry)?;
        return Ok(true);
    }
    put(alloc, later, joined, entry)?;
    Ok(true)
}

/// The keys in the map of the intervals that an entry joins, where there are such.
#[derive(Drop)]
struct Joined<K> {
    before: Option<K>,
    behind: Option<K>,
}

/// What an entry joins, unless its key is there already.
fn joined_to<K: ReassemblyKey>(
    later: &BTreeMap<K, Interval<K>>,
    entry: &Entry<K>,
) -> Option<Joined<K>>
    requires runs { IsInRuns (runs_at K.number K.index later.now.entries) }
    requires named { AreNamed K.is_key K.number K.index later.now.entries }
    ensures some { IfSome result (λ j. AreJoined K.is_key K.number K.index later.now.entries (held_of K.number K.index entry.now) j.before j.behind) }
    ensures none { IfNone result (is_held rank_of (rank_of (held_of K.number K.index entry.now)) (flat (runs_at K.number K.index later.now.entries)) ≡ true) }
{
    if let Some(before) = joined_at_end(later, entry) {
        return Some(Joined {
            before,
            behind: None,
        });
    }
    let before = joined_before(later, entry)?;
    let behind = joined_behind(later, entry)?;
    Some(Joined { before, behind })
}

/// Of an entry behind all others, the key in the map of the interval from which it goes on, if any: most entries come there. No
/// answer where it isn't behind all.
fn joined_at_end<K: ReassemblyKey>(
    later: &BTreeMap<K, Interval<K>>,
    entry: &Entry<K>,
) -> Option<Option<K>>
    requires runs { IsInRuns (runs_at K.number K.index later.now.entries) }
    requires named { AreNamed K.is_key K.number K.index later.now.entries }
    ensures { IfSome result (λ before. AreJoined K.is_key K.number K.index later.now.entries (held_of K.number K.index entry.now) before None) }
{
    let Some((place, interval)) = later.last_key_value() else {
        return Some(None);
    };
    let last = interval.last();
    if !is_before(last.key, entry.key) {
        return None;
    }
    if !goes_on_to(last, entry) {
        return Some(None);
    }
    Some(Some(*place))
}

/// The key in the map of the interval from which the entry goes on, if any; no answer where the interval before it has its key.
fn joined_before<K: ReassemblyKey>(
    later: &BTreeMap<K, Interval<K>>,
    entry: &Entry<K>,
) -> Option<Option<K>>
    ensures some { IfSome result (λ place. (ps qs : List (K × Interval K)) → IsSplit K.is_key (rank_at K.number K.index) (rank_of (held_of K.number K.index entry.now)) later.now.entries ps qs → IsBelow rank_of (rank_of (held_of K.number K.index entry.now)) (end_of None (runs_at K.number K.index ps)) × (place ≡ previous_of K.number K.index (held_of K.number K.index entry.now) ps)) }
    ensures none { IfNone result ((ps qs : List (K × Interval K)) → IsSplit K.is_key (rank_at K.number K.index) (rank_of (held_of K.number K.index entry.now)) later.now.entries ps qs → ends_from (rank_of (held_of K.number K.index entry.now)) (runs_at K.number K.index ps) ≡ true) }
{
    let Some((place, interval)) = last_below(later, entry.key) else {
        return Some(None);
    };
    let last = interval.last();
    if !is_before(last.key, entry.key) {
        return None;
    }
    if !goes_on_to(last, entry) {
        return Some(None);
    }
    Some(Some(place))
}

/// The key in the map of the interval to which the entry goes on, if any; no answer where the interval behind it has its key.
fn joined_behind<K: ReassemblyKey>(
    later: &BTreeMap<K, Interval<K>>,
    entry: &Entry<K>,
) -> Option<Option<K>>
    ensures some { IfSome result (λ place. (ps qs : List (K × Interval K)) → IsSplit K.is_key (rank_at K.number K.index) (rank_of (held_of K.number K.index entry.now)) later.now.entries ps qs → LeadsTo rank_of (rank_of (held_of K.number K.index entry.now)) (runs_at K.number K.index qs) × (place ≡ next_of K.number K.index (held_of K.number K.index entry.now) qs)) }
    ensures none { IfNone result ((ps qs : List (K × Interval K)) → IsSplit K.is_key (rank_at K.number K.index) (rank_of (held_of K.number K.index entry.now)) later.now.entries ps qs → starts_upto (rank_of (held_of K.number K.index entry.now)) (runs_at K.number K.index qs) ≡ true) }
{
    let Some((place, interval)) = first_from(later, entry.key) else {
        return Some(None);
    };
    let first = interval.first();
    if !is_before(entry.key, first.key) {
        return None;
    }
    if !goes_on_to(entry, first) {
        return Some(None);
    }
    Some(Some(place))
}

/// Adds an entry to the first interval, from which it goes on, and the next one where it goes on to that.
fn extend_first<K: ReassemblyKey>(
    first: &mut Interval<K>,
    later: &mut BTreeMap<K, Interval<K>>,
    joined: Joined<K>,
    entry: Entry<K>,
) -> Result<(), AllocError>
    requires runs { IsInRuns (run_of (held_of K.number K.index) first.old ∷ runs_at K.number K.index later.old.entries) }
    requires named { AreNamed K.is_key K.number K.index later.old.entries }
    requires joined { AreJoined K.is_key K.number K.index later.old.entries (held_of K.number K.index entry) joined.before joined.behind }
    requires left { joins_left rank_of goes_on (end_of None (run_of (held_of K.number K.index) first.old ∷ [])) (held_of K.number K.index entry) ≡ true }
    ensures ok { OnOk result (IsAdded K.is_key K.number K.index (run_of (held_of K.number K.index) first.old ∷ runs_at K.number K.index later.old.entries) (run_of (held_of K.number K.index) first.new ∷ runs_at K.number K.index later.new.entries) (held_of K.number K.index entry) later.new.entries) }
    ensures first { OnErr result (run_of (held_of K.number K.index) first.new ≡ run_of (held_of K.number K.index) first.old) }
    ensures later { OnErr result (IsSame K.is_key K.number K.index later.old.entries later.new.entries) }
{
    let Some(next) = joined.behind else {
        first.push_back(entry)?;
        return Ok(());
    };
    join_first(first, later, next, entry)
}

/// Adds an entry to the later intervals that it joins, or as one of its own.
fn put<K: ReassemblyKey>(
    alloc: Global,
    later: &mut BTreeMap<K, Interval<K>>,
    joined: Joined<K>,
    entry: Entry<K>,
) -> Result<(), AllocError>
    requires runs { IsInRuns (runs_at K.number K.index later.old.entries) }
    requires named { AreNamed K.is_key K.number K.index later.old.entries }
    requires joined { AreJoined K.is_key K.number K.index later.old.entries (held_of K.number K.index entry) joined.before joined.behind }
    ensures ok { OnOk result ((first : List Held) → AreRuns rank_of goes_on None (first ∷ runs_at K.number K.index later.old.entries) → IsBelow rank_of (rank_of (held_of K.number K.index entry)) (end_of None (first ∷ [])) → joins_left rank_of goes_on (end_of None (first ∷ [])) (held_of K.number K.index entry) ≡ false → IsAdded K.is_key K.number K.index (first ∷ runs_at K.number K.index later.old.entries) (first ∷ runs_at K.number K.index later.new.entries) (held_of K.number K.index entry) later.new.entries) }
    ensures err { OnErr result (IsSame K.is_key K.number K.index later.old.entries later.new.entries) }
{
    entry.key.known();
    match (joined.before, joined.behind) {
        (Some(place), Some(next)) => join(later, place, next, entry),
        (Some(place), None) => push_back_at(later, place, entry),
        (None, Some(next)) => push_front_at(later, next, entry),
        (None, None) => put_alone(alloc, later, entry),
    }
}

/// Adds the entry in front of the interval at the place.
fn push_front_at<K: ReassemblyKey>(
    later: &mut BTreeMap<K, Interval<K>>,
    place: K,
    entry: Entry<K>,
) -> Result<(), AllocError>
    ensures ok { OnOk result ((ps qs : List (K × Interval K)) (i : Interval K) → later.old.entries ≡ ps ++ (place, i) ∷ qs → AreLow K.is_key (rank_at K.number K.index) (rank_at K.number K.index place) ps → IsChanged K.number K.index ps qs place (held_of K.number K.index entry ∷ run_of (held_of K.number K.index) i) later.new.entries) }
    ensures err { OnErr result ((ps qs : List (K × Interval K)) (i : Interval K) → later.old.entries ≡ ps ++ (place, i) ∷ qs → AreLow K.is_key (rank_at K.number K.index) (rank_at K.number K.index place) ps → IsChanged K.number K.index ps qs place (run_of (held_of K.number K.index) i) later.new.entries) }
{
    place.known();
    let Some(interval) = later.get_mut(&place) else {
        return Err(AllocError);
    };
    interval.push_front(entry)?;
    Ok(())
}

/// Makes an interval of the entry.
fn put_alone<K: ReassemblyKey>(
    alloc: Global,
    later: &mut BTreeMap<K, Interval<K>>,
    entry: Entry<K>,
) -> Result<(), AllocError>
    ensures ok { OnOk result ((ps qs : List (K × Interval K)) → later.old.entries ≡ ps ++ qs → AreLow K.is_key (rank_at K.number K.index) (rank_at K.number K.index entry.key) ps → AreHigh K.is_key (rank_at K.number K.index) (suc (rank_at K.number K.index entry.key)) qs → IsChanged K.number K.index ps qs entry.key (held_of K.number K.index entry ∷ []) later.new.entries) }
    ensures err { OnErr result (later.new.entries ≡ later.old.entries) }
{
    entry.key.known();
    let place = entry.key;
    let interval = alone(alloc, entry)?;
    later.insert(place, interval)?;
    Ok(())
}

/// Adds the entry behind the interval at the place.
fn push_back_at<K: ReassemblyKey>(
    later: &mut BTreeMap<K, Interval<K>>,
    place: K,
    entry: Entry<K>,
) -> Result<(), AllocError>
    ensures ok { OnOk result ((ps qs : List (K × Interval K)) (i : Interval K) → later.old.entries ≡ ps ++ (place, i) ∷ qs → AreLow K.is_key (rank_at K.number K.index) (rank_at K.number K.index place) ps → IsChanged K.number K.index ps qs place (run_of (held_of K.number K.index) i ++ held_of K.number K.index entry ∷ []) later.new.entries) }
    ensures err { OnErr result ((ps qs : List (K × Interval K)) (i : Interval K) → later.old.entries ≡ ps ++ (place, i) ∷ qs → AreLow K.is_key (rank_at K.number K.index) (rank_at K.number K.index place) ps → IsChanged K.number K.index ps qs place (run_of (held_of K.number K.index) i) later.new.entries) }
{
    place.known();
    let Some(interval) = later.get_mut(&place) else {
        return Err(AllocError);
    };
    interval.push_back(entry)?;
    Ok(())
}

/// How much room the interval at the place takes at another one.
fn size_at<K: ReassemblyKey>(later: &BTreeMap<K, Interval<K>>, place: K) -> Size
    ensures { (ps qs : List (K × Interval K)) (i : Interval K) → later.now.entries ≡ ps ++ (place, i) ∷ qs → AreLow K.is_key (rank_at K.number K.index) (rank_at K.number K.index place) ps → result ≡ size_of i.entries.value }
{
    place.known();
    match later.get(&place) {
        Some(interval) => interval.size(),
        None => Size::Entries(0),
    }
}

/// Makes room behind the interval at the place for one of this size.
fn reserve_behind<K: ReassemblyKey>(
    later: &mut BTreeMap<K, Interval<K>>,
    place: K,
    size: Size,
) -> Result<(), AllocError>
    ensures ok { OnOk result ((ps qs : List (K × Interval K)) (i : Interval K) → later.old.entries ≡ ps ++ (place, i) ∷ qs → AreLow K.is_key (rank_at K.number K.index) (rank_at K.number K.index place) ps → HasRoom K.number K.index ps qs place (run_of (held_of K.number K.index) i) (FitsBehind size) later.new.entries) }
    ensures kept { (ps qs : List (K × Interval K)) (i : Interval K) → later.old.entries ≡ ps ++ (place, i) ∷ qs → AreLow K.is_key (rank_at K.number K.index) (rank_at K.number K.index place) ps → IsChanged K.number K.index ps qs place (run_of (held_of K.number K.index) i) later.new.entries }
{
    place.known();
    let Some(interval) = later.get_mut(&place) else {
        return Err(AllocError);
    };
    interval.reserve_behind(size)
}

/// The same in front of it.
fn reserve_before<K: ReassemblyKey>(
    later: &mut BTreeMap<K, Interval<K>>,
    place: K,
    size: Size,
) -> Result<(), AllocError>
    ensures ok { OnOk result ((ps qs : List (K × Interval K)) (i : Interval K) → later.old.entries ≡ ps ++ (place, i) ∷ qs → AreLow K.is_key (rank_at K.number K.index) (rank_at K.number K.index place) ps → HasRoom K.number K.index ps qs place (run_of (held_of K.number K.index) i) (FitsBefore size) later.new.entries) }
    ensures kept { (ps qs : List (K × Interval K)) (i : Interval K) → later.old.entries ≡ ps ++ (place, i) ∷ qs → AreLow K.is_key (rank_at K.number K.index) (rank_at K.number K.index place) ps → IsChanged K.number K.index ps qs place (run_of (held_of K.number K.index) i) later.new.entries }
{
    place.known();
    let Some(interval) = later.get_mut(&place) else {
        return Err(AllocError);
    };
    interval.reserve_before(size)
}

/// Makes one interval of the first and the next one with the entry between them. What the shorter one has moves, its entries or,
/// where it is long, its pieces.
fn join_first<K: ReassemblyKey>(
    first: &mut Interval<K>,
    later: &mut BTreeMap<K, Interval<K>>,
    place: K,
    entry: Entry<K>,
) -> Result<(), AllocError>
    requires { IsFirstAt place later.old.entries }
    ensures ok { OnOk result ((j : Interval K) (qs : List (K × Interval K)) → later.old.entries ≡ (place, j) ∷ qs → (run_of (held_of K.number K.index) first.new ≡ run_of (held_of K.number K.index) first.old ++ held_of K.number K.index entry ∷ run_of (held_of K.number K.index) j) × (later.new.entries ≡ qs)) }
    ensures first { OnErr result (run_of (held_of K.number K.index) first.new ≡ run_of (held_of K.number K.index) first.old) }
    ensures later { OnErr result ((j : Interval K) (qs : List (K × Interval K)) → later.old.entries ≡ (place, j) ∷ qs → IsChanged K.number K.index [] qs place (run_of (held_of K.number K.index) j) later.new.entries) }
{
    if first.size().is_below(size_at(later, place)) {
        return join_first_to_second(first, later, place, entry);
    }
    join_second_to_first(first, later, place, entry)
}

/// The same, where the next one's entries move to the first.
fn join_second_to_first<K: ReassemblyKey>(
    first: &mut Interval<K>,
    later: &mut BTreeMap<K, Interval<K>>,
    place: K,
    entry: Entry<K>,
) -> Result<(), AllocError>
    requires { IsFirstAt place later.old.entries }
    ensures ok { OnOk result ((j : Interval K) (qs : List (K × Interval K)) → later.old.entries ≡ (place, j) ∷ qs → (run_of (held_of K.number K.index) first.new ≡ run_of (held_of K.number K.index) first.old ++ held_of K.number K.index entry ∷ run_of (held_of K.number K.index) j) × (later.new.entries ≡ qs)) }
    ensures first { OnErr result (run_of (held_of K.number K.index) first.new ≡ run_of (held_of K.number K.index) first.old) }
    ensures later { OnErr result ((j : Interval K) (qs : List (K × Interval K)) → later.old.entries ≡ (place, j) ∷ qs → IsChanged K.number K.index [] qs place (run_of (held_of K.number K.index) j) later.new.entries) }
{
    place.known();
    let size = size_at(later, place);
    first.reserve_behind(size)?;
    let Some(moved) = later.remove(&place) else {
        return Err(AllocError);
    };
    first.append(entry, moved);
    Ok(())
}

/// The same, where the first one's entries move to the next.
fn join_first_to_second<K: ReassemblyKey>(
    first: &mut Interval<K>,
    later: &mut BTreeMap<K, Interval<K>>,
    place: K,
    entry: Entry<K>,
) -> Result<(), AllocError>
    requires { IsFirstAt place later.old.entries }
    ensures ok { OnOk result ((j : Interval K) (qs : List (K × Interval K)) → later.old.entries ≡ (place, j) ∷ qs → (run_of (held_of K.number K.index) first.new ≡ run_of (held_of K.number K.index) first.old ++ held_of K.number K.index entry ∷ run_of (held_of K.number K.index) j) × (later.new.entries ≡ qs)) }
    ensures first { OnErr result (run_of (held_of K.number K.index) first.new ≡ run_of (held_of K.number K.index) first.old) }
    ensures later { OnErr result ((j : Interval K) (qs : List (K × Interval K)) → later.old.entries ≡ (place, j) ∷ qs → IsChanged K.number K.index [] qs place (run_of (held_of K.number K.index) j) later.new.entries) }
{
    place.known();
    reserve_before(later, place, first.size())?;
    let Some(next) = later.remove(&place) else {
        return Err(AllocError);
    };
    let moved = std::mem::replace(first, next);
    first.prepend(entry, moved);
    Ok(())
}

/// Makes one interval of two with the entry between them, likewise.
fn join<K: ReassemblyKey>(
    later: &mut BTreeMap<K, Interval<K>>,
    place: K,
    next: K,
    entry: Entry<K>,
) -> Result<(), AllocError>
    requires { AreBeside K.is_key (rank_at K.number K.index) place next later.old.entries }
    ensures ok { OnOk result ((ps qs : List (K × Interval K)) (i j : Interval K) → later.old.entries ≡ ps ++ (place, i) ∷ ((next, j) ∷ qs) → AreLow K.is_key (rank_at K.number K.index) (rank_at K.number K.index place) ps → rank_at K.number K.index place < rank_at K.number K.index next → IsJoined K.is_key K.number K.index ps qs place next (run_of (held_of K.number K.index) i ++ held_of K.number K.index entry ∷ run_of (held_of K.number K.index) j) later.new.entries) }
    ensures err { OnErr result ((ps qs : List (K × Interval K)) (i j : Interval K) → later.old.entries ≡ ps ++ (place, i) ∷ ((next, j) ∷ qs) → AreLow K.is_key (rank_at K.number K.index) (rank_at K.number K.index place) ps → rank_at K.number K.index place < rank_at K.number K.index next → AreNamed K.is_key K.number K.index later.old.entries → IsSame K.is_key K.number K.index later.old.entries later.new.entries) }
{
    place.known();
    next.known();
    if size_at(later, place).is_below(size_at(later, next)) {
        return join_to_second(later, place, next, entry);
    }
    join_to_first(later, place, next, entry)
}

/// Makes one interval of two with the entry between them, where the second one's entries move to the first.
fn join_to_first<K: ReassemblyKey>(
    later: &mut BTreeMap<K, Interval<K>>,
    place: K,
    next: K,
    entry: Entry<K>,
) -> Result<(), AllocError>
    requires { AreBeside K.is_key (rank_at K.number K.index) place next later.old.entries }
    ensures ok { OnOk result ((ps qs : List (K × Interval K)) (i j : Interval K) → later.old.entries ≡ ps ++ (place, i) ∷ ((next, j) ∷ qs) → AreLow K.is_key (rank_at K.number K.index) (rank_at K.number K.index place) ps → rank_at K.number K.index place < rank_at K.number K.index next → IsChanged K.number K.index ps qs place (run_of (held_of K.number K.index) i ++ held_of K.number K.index entry ∷ run_of (held_of K.number K.index) j) later.new.entries) }
    ensures err { OnErr result ((ps qs : List (K × Interval K)) (i j : Interval K) → later.old.entries ≡ ps ++ (place, i) ∷ ((next, j) ∷ qs) → AreLow K.is_key (rank_at K.number K.index) (rank_at K.number K.index place) ps → rank_at K.number K.index place < rank_at K.number K.index next → IsChanged K.number K.index ps ((next, j) ∷ qs) place (run_of (held_of K.number K.index) i) later.new.entries) }
{
    place.known();
    next.known();
    let size = size_at(later, next);
    reserve_behind(later, place, size)?;
    let Some(moved) = later.remove(&next) else {
        return Err(AllocError);
    };
    let Some(interval) = later.get_mut(&place) else {
        return Err(AllocError);
    };
    interval.append(entry, moved);
    Ok(())
}

/// The same, where the first one's entries move to the second.
fn join_to_second<K: ReassemblyKey>(
    later: &mut BTreeMap<K, Interval<K>>,
    place: K,
    next: K,
    entry: Entry<K>,
) -> Result<(), AllocError>
    requires { AreBeside K.is_key (rank_at K.number K.index) place next later.old.entries }
    ensures ok { OnOk result ((ps qs : List (K × Interval K)) (i j : Interval K) → later.old.entries ≡ ps ++ (place, i) ∷ ((next, j) ∷ qs) → AreLow K.is_key (rank_at K.number K.index) (rank_at K.number K.index place) ps → rank_at K.number K.index place < rank_at K.number K.index next → IsChanged K.number K.index ps qs next (run_of (held_of K.number K.index) i ++ held_of K.number K.index entry ∷ run_of (held_of K.number K.index) j) later.new.entries) }
    ensures err { OnErr result ((ps qs : List (K × Interval K)) (i j : Interval K) → later.old.entries ≡ ps ++ (place, i) ∷ ((next, j) ∷ qs) → AreLow K.is_key (rank_at K.number K.index) (rank_at K.number K.index place) ps → rank_at K.number K.index place < rank_at K.number K.index next → IsChanged K.number K.index (ps ++ (place, i) ∷ []) qs next (run_of (held_of K.number K.index) j) later.new.entries) }
{
    place.known();
    next.known();
    let size = size_at(later, place);
    reserve_before(later, next, size)?;
    let Some(moved) = later.remove(&place) else {
        return Err(AllocError);
    };
    let Some(interval) = later.get_mut(&next) else {
        return Err(AllocError);
    };
    interval.prepend(entry, moved);
    Ok(())
}
