//! The moments at which items expire.

ghost use Rattle.std.specs.Prelude.{◌≡◌, ℕ, ◌+◌, ◌^◌, ◌<◌, ◌≤◌, ◌==◌, true, false, IfSome};
ghost use Rattle.sctp_tx_outstanding.specs.Messages.{pair_key};
ghost use Rattle.sctp_tx_outstanding.specs.Numbers.{is_listed};
ghost use Rattle.sctp_tx_outstanding.specs.Expiries.{ListsUpTo, expires_as};

use crate::item::Item;
use crate::messages::number_at;
use crate::numbers::{add, least_from};
use sctp_serial::SocketTime;
use std::alloc::Global;
use std::collections::{BTreeSet, VecDeque};

/// Which items expire when, each under its deadline and its number, if it is known: once the first lifetime is over of an item that was
/// missing or lost, up to which one costs a test. Then an item has its key as long as it is kept, so that SACKs which acknowledge it and
/// take it back cost no more.
/// Keys go too once their moment has passed: up to the last one of these, those that are missing or lost alone have theirs. Where
/// memory was missing it isn't known, until all items are looked at.
#[derive(Drop)]
pub struct Expiries {
    pub keys: BTreeSet<u128>,
    /// The first item's number.
    pub first: u32,
    /// The moment up to which keys were dropped.
    pub dropped: u128,
    pub is_known: bool,
}

/// The places of the items that expire by a moment, if they are known.
#[derive(Drop)]
pub struct Due {
    pub places: BTreeSet<u64>,
    pub is_known: bool,
}

/// A moment and the number of an item, in one.
fn key_of(moment: u128, number: u32) -> Option<u128>
    ensures { IfSome result (λ key. key ≡ pair_key moment number) }
{
    if moment >= 1 << 96 {
        return None;
    }
    Some(moment * (1 << 32) + u128::from(number))
}

/// The least key from this one on, if it is below the end.
fn least_below(keys: &BTreeSet<u128>, from: u128, end: u128) -> u128
    requires { from ≤ end }
    ensures from { from ≤ result }
    ensures end { result ≤ end }
    ensures none { (n : ℕ) → from ≤ n → n < result → is_listed keys.now.keys n ≡ false }
{
    match keys.range(from..).next() {
        Some(key) => (*key).min(end),
        None => end,
    }
}

/// Lists the places of the keys below the end, at most so many. Says whether these are all, and there was memory.
fn list_below(
    keys: &BTreeSet<u128>,
    first: u32,
    end: u128,
    most: usize,
    places: &mut BTreeSet<u64>,
) -> bool
    ensures { result ≡ true → ListsUpTo end first keys.now.keys places.new.keys }
{
    let mut from = 0;
    let mut left = most;
    while from < end {
        let next = least_below(keys, from, end);
        if end <= next {
            return true;
        }
        if left == 0 {
            return false;
        }
        left -= 1;
        let place = ((next % (1 << 32)) as u64).saturating_sub(u64::from(first));
        if !add(places, place) {
            return false;
        }
        from = next + 1;
    }
    true
}

/// Whether the item of the key expires at its moment. The first item has the number `first`.
fn is_due_under(items: &VecDeque<Item>, first: u32, key: u128) -> bool
    ensures { (moment k : ℕ) → first + k < 2 ^ 32 → key ≡ pair_key moment (first + k) → result ≡ expires_as moment k items.now.items }
{
    let number = (key % (1 << 32)) as u32;
    let Some(place) = number.checked_sub(first) else {
        return false;
    };
    match items.get(place as usize) {
        Some(item) => item.expiry() == key / (1 << 32),
        None => false,
    }
}

impl Expiries {
    ghost use Rattle.std.specs.Prelude.{◌∷◌, [], List};
    ghost use Rattle.std.specs.List.{All};
    ghost use Rattle.sctp_tx_outstanding.specs.Item.{Item, NotBefore};
    ghost use Rattle.sctp_tx_outstanding.specs.Expiries.{Expects, FindsDue, Gains, Moves};

    /// Nothing is known. Takes no memory.
    pub fn new(alloc: Global) -> Expiries
        ensures { (is : List Item) → Expects result is }
    {
        Expiries {
            keys: BTreeSet::new(alloc),
            first: 0,
            dropped: 0,
            is_known: false,
        }
    }

    /// Nothing is known any more.
    pub fn forget(&mut self)
        ensures { (is : List Item) → Expects self.new is }
    {
        self.keys.clear();
        self.is_known = false;
    }

    /// It is known of no item. Keys are as if they were dropped up to now.
    pub fn begin(&mut self, now: SocketTime)
        ensures { Expects self.new [] }
    {
        self.keys.clear();
        self.first = 0;
        self.dropped = now.as_nanos();
        self.is_known = true;
    }

    /// The item at the place gets a key of this moment.
    pub fn list(&mut self, place: usize, moment: u128)
        ensures { (is js : List Item) → Gains place moment is js → Expects self.old is → Expects self.new js }
    {
        if !self.is_known || moment == u128::MAX {
            return;
        }
        let Some(number) = number_at(self.first, place) else {
            self.is_known = false;
            return;
        };
        let Some(key) = key_of(moment, number) else {
            self.is_known = false;
            return;
        };
        self.is_known = self.keys.insert(key).is_ok();
    }

    /// The item at the place expired at one moment, and does at another or at the same one.
    pub fn renew(&mut self, place: usize, was: u128, will: u128)
        ensures { (is js : List Item) → Moves place was will is js → Expects self.old is → Expects self.new js }
    {
        if was != will && will <= self.dropped {
            self.list(place, will);
        }
    }

    /// The first item leaves, whose lifetime ends at this moment.
    pub fn leave(&mut self, deadline: u128)
        ensures { (i : Item) (is : List Item) → Expects self.old (i ∷ is) → Expects self.new is }
    {
        let number = self.first;
        let Some(next) = number.checked_add(1) else {
            self.is_known = false;
            return;
        };
        self.first = next;
        if !self.is_known || deadline == u128::MAX {
            return;
        }
        let Some(key) = key_of(deadline, number) else {
            return;
        };
        self.keys.remove(&key);
    }

    /// Drops the first key where its moment has passed and no item expires under it. Says whether it did.
    fn drop_first(&mut self, items: &VecDeque<Item>, now: u128) -> bool
        requires { Expects self.old items.now.items }
        ensures { Expects self.new items.now.items }
    {
        let Some(first) = self.keys.first() else {
            return false;
        };
        let key = *first;
        let moment = key / (1 << 32);
        if now < moment || is_due_under(items, self.first, key) {
            return false;
        }
        self.keys.pop_first();
        self.dropped = self.dropped.max(moment);
        true
    }

    /// Drops the first keys whose moment has passed, up to one under which an item expires.
    pub fn drop_stale(&mut self, items: &VecDeque<Item>, now: SocketTime)
        requires { Expects self.old items.now.items }
        ensures { Expects self.new items.now.items }
    {
        for _ in 0..self.keys.len() {
            if !self.drop_first(items, now.as_nanos()) {
                return;
            }
        }
    }

    /// Before this moment no item expires, if that is known.
    pub fn earliest(&self) -> Option<u128>
        ensures { IfSome result (λ earliest. (is : List Item) → Expects self.now is → All (NotBefore earliest) is) }
    {
        if !self.is_known {
            return None;
        }
        let least = least_below(&self.keys, 0, u128::MAX);
        Some(least / (1 << 32))
    }

    /// The places of the items that expire by now, of so many. Where more than a sixteenth do, a look at all costs less than
    /// to list them, and none is.
    pub fn due(&self, alloc: Global, now: SocketTime, count: usize) -> Due
        ensures { (is : List Item) → Expects self.now is → FindsDue result now is }
    {
        let mut places = BTreeSet::new(alloc);
        let end = (now.as_nanos() + 1) * (1 << 32);
        let is_known = self.is_known
            && list_below(&self.keys, self.first, end, count / 16, &mut places);
        Due { places, is_known }
    }
}

impl Due {
    ghost use Rattle.std.specs.Prelude.{List};
    ghost use Rattle.sctp_tx_outstanding.specs.Item.{Item};
    ghost use Rattle.sctp_tx_outstanding.specs.Expiries.{FindsDue, NoneExpires};

    /// The place from this one on up to which no item expires.
    pub fn next(&self, place: usize) -> usize
        ensures onward { place ≤ result }
        ensures none { (now : ℕ) (is : List Item) → FindsDue self.now now is → NoneExpires now place result is }
    {
        if !self.is_known {
            return place;
        }
        match least_from(&self.places, place as u64) {
            Some(next) => next as usize,
            None => usize::MAX,
        }
    }
}
