//! The items of each message.

ghost use Rattle.std.specs.Prelude.{◌≡◌, ℕ, ◌+◌, ◌<◌, ◌≤◌, ◌==◌, true, false, length, IfSome};
ghost use Rattle.std.specs.List.Sorted.{IsNonDecreasing};
ghost use Rattle.sctp_tx_outstanding.specs.Messages.{pair_key, IsFirstFrom};
ghost use Rattle.sctp_tx_outstanding.specs.Numbers.{is_listed};

use crate::numbers::{add, least_from};
use sctp_serial::OutgoingMessageId;
use std::alloc::Global;
use std::collections::BTreeSet;

/// Which items are of which message, if it is known: from a message that is given up on, until all leave that are kept then. So
/// what is never given up costs nothing. Each item has a key, of its message and its number.
#[derive(Drop)]
pub struct Messages {
    /// Keys of the items that were kept when it became known, ascending. Those of items that left since say nothing.
    pub sorted: Vec<u64>,
    /// Keys of the items that came since. Those of items that left say nothing either.
    pub added: BTreeSet<u64>,
    /// The first item's number.
    pub first: u32,
    /// The number up to which it stays known.
    pub until: u32,
    pub is_known: bool,
}

/// The number of the item at the place.
pub(crate) fn number_at(first: u32, place: usize) -> Option<u32>
    ensures { IfSome result (λ number. number ≡ first + place) }
{
    if place >= 1 << 32 {
        return None;
    }
    first.checked_add(place as u32)
}

/// A message and the number of an item, in one.
fn key_of(message_id: OutgoingMessageId, number: u32) -> u64
    ensures { result ≡ pair_key message_id.0 number }
{
    u64::from(message_id.0) * (1 << 32) + u64::from(number)
}

/// Whether the keys below the place are below this one, and those from there on aren't.
fn begins_at(sorted: &Vec<u64>, from: u64, place: usize) -> bool
    requires ascends { IsNonDecreasing sorted.now.items }
    requires within { place ≤ length sorted.now.items }
    ensures { result ≡ true → IsFirstFrom from place sorted.now.items }
{
    if place > 0 && sorted[place - 1] >= from {
        return false;
    }
    place == sorted.len() || sorted[place] >= from
}

/// The place of the first key from this one on, or of another that is the same. It takes no search where each message before has one
/// item, and so this number is the place.
fn first_from(sorted: &Vec<u64>, from: u64, number: u64) -> usize
    requires { IsNonDecreasing sorted.now.items }
    ensures { IsFirstFrom from result sorted.now.items }
{
    let place = sorted.len().min(number as usize);
    if begins_at(sorted, from, place) {
        return place;
    }
    match sorted.binary_search(&from) {
        Ok(place) => place,
        Err(place) => place,
    }
}

/// The least sorted key from this one on, if it isn't above the last.
fn least_sorted(sorted: &Vec<u64>, from: u64, last: u64) -> u64
    requires ascends { IsNonDecreasing sorted.now.items }
    requires least { from ≤ last }
    ensures from { from ≤ result }
    ensures last { result ≤ last }
    ensures none { (n : ℕ) → from ≤ n → n < result → is_listed sorted.now.items n ≡ false }
{
    let place = first_from(sorted, from, from % (1 << 32));
    match sorted.get(place) {
        Some(least) => (*least).min(last),
        None => last,
    }
}

/// The least added key from this one on, if it isn't above the last.
fn least_added(added: &BTreeSet<u64>, from: u64, last: u64) -> u64
    requires { from ≤ last }
    ensures from { from ≤ result }
    ensures last { result ≤ last }
    ensures none { (n : ℕ) → from ≤ n → n < result → is_listed added.now.keys n ≡ false }
{
    match least_from(added, from) {
        Some(least) => least.min(last),
        None => last,
    }
}

/// Whether none of the sorted keys from one up to the last is there but this one.
fn has_no_other_sorted(sorted: &Vec<u64>, from: u64, key: u64, last: u64) -> bool
    requires { IsNonDecreasing sorted.now.items }
    ensures { result ≡ true → (n : ℕ) → from ≤ n → n ≤ last → (n == key) ≡ false → is_listed sorted.now.items n ≡ false }
{
    let place = first_from(sorted, from, key % (1 << 32));
    let Some(first) = sorted.get(place) else {
        return true;
    };
    if *first != key {
        return last < *first;
    }
    match sorted.get(place + 1) {
        Some(next) => last < *next,
        None => true,
    }
}

/// Whether none of the added keys from one up to the last is there but this one.
fn has_no_other_added(added: &BTreeSet<u64>, from: u64, key: u64, last: u64) -> bool
    ensures { result ≡ true → (n : ℕ) → from ≤ n → n ≤ last → (n == key) ≡ false → is_listed added.now.keys n ≡ false }
{
    let Some(first) = least_from(added, from) else {
        return true;
    };
    if first != key {
        return last < first;
    }
    if last <= key {
        return false;
    }
    match least_from(added, key + 1) {
        Some(next) => last < next,
        None => true,
    }
}

impl Messages {
    ghost use Rattle.std.specs.Prelude.{◌∷◌, ◌++◌, [], List};
    ghost use Rattle.sctp_tx_outstanding.specs.Item.{Item};
    ghost use Rattle.sctp_tx_outstanding.specs.Messages.{Finds, Lists, NoneIsOf};

    /// Nothing is known. Takes no memory.
    pub fn new(alloc: Global) -> Messages
        ensures { Finds result [] }
    {
        Messages {
            sorted: Vec::new(alloc),
            added: BTreeSet::new(alloc),
            first: 0,
            until: 0,
            is_known: false,
        }
    }

    /// Nothing is known any more.
    pub fn forget(&mut self)
        ensures keys { self.new.sorted.items ++ self.new.added.keys ≡ [] }
        ensures finds { (is : List Item) → Finds self.new is }
    {
        self.sorted.clear();
        self.sorted.shrink_to_fit();
        self.added.clear();
        self.is_known = false;
    }

    /// It is known of no item, and those that are kept are to be listed.
    pub fn begin(&mut self)
        ensures { Lists self.new [] }
    {
        self.forget();
        self.first = 0;
        self.is_known = true;
    }

    /// An item of this message, which is kept, stands behind so many others.
    pub fn list(&mut self, message_id: OutgoingMessageId, count: usize)
        ensures { (is : List Item) (i : Item) → length is ≡ count → i.number ≡ message_id.0 → Lists self.old is → Lists self.new (is ++ i ∷ []) }
    {
        if !self.is_known {
            return;
        }
        let Some(number) = number_at(self.first, count) else {
            self.forget();
            return;
        };
        let key = key_of(message_id, number);
        if self.sorted.push(key).is_err() {
            self.forget();
        }
    }

    /// All that are kept are listed.
    pub fn settle(&mut self)
        ensures { (is : List Item) → Lists self.old is → Finds self.new is }
    {
        if !self.sorted.is_sorted() {
            self.sorted.sort_unstable();
        }
    }

    /// It stays known until so many of the first items leave.
    pub fn hold(&mut self, count: usize)
        ensures { (is : List Item) → Finds self.old is → Finds self.new is }
    {
        self.until = number_at(self.first, count).unwrap_or(u32::MAX);
    }

    /// An item of this message comes behind so many others.
    pub fn add(&mut self, message_id: OutgoingMessageId, count: usize)
        ensures { (is : List Item) (i : Item) → length is ≡ count → i.number ≡ message_id.0 → Finds self.old is → Finds self.new (is ++ i ∷ []) }
    {
        if !self.is_known {
            return;
        }
        let Some(number) = number_at(self.first, count) else {
            self.forget();
            return;
        };
        let key = key_of(message_id, number);
        if !add(&mut self.added, key) {
            self.forget();
        }
    }

    /// The first item leaves.
    pub fn leave(&mut self)
        ensures { (i : Item) (is : List Item) → Finds self.old (i ∷ is) → Finds self.new is }
    {
        if !self.is_known {
            return;
        }
        if self.first >= self.until {
            self.forget();
            return;
        }
        self.first += 1;
    }

    /// The place from this one on up to which no item is of the message.
    pub fn next(&self, message_id: OutgoingMessageId, place: usize) -> usize
        requires { IsNonDecreasing self.now.sorted.items }
        ensures onward { place ≤ result }
        ensures none { (is : List Item) → Finds self.now is → NoneIsOf message_id.0 place result is }
    {
        if !self.is_known {
            return place;
        }
        let Some(number) = number_at(self.first, place) else {
            return place;
        };
        let begin = key_of(message_id, self.first);
        let from = key_of(message_id, number);
        let last = key_of(message_id, u32::MAX);
        let least = self.least_key(from, last);
        (least - begin) as usize
    }

    /// Whether it is known that but for the item at the place none is of the message.
    pub fn is_alone(&self, message_id: OutgoingMessageId, place: usize) -> bool
        requires { IsNonDecreasing self.now.sorted.items }
        ensures before { result ≡ true → (is : List Item) → Finds self.now is → NoneIsOf message_id.0 0 place is }
        ensures behind { result ≡ true → (is : List Item) → Finds self.now is → NoneIsOf message_id.0 (place + 1) (length is) is }
    {
        if !self.is_known {
            return false;
        }
        let Some(number) = number_at(self.first, place) else {
            return false;
        };
        let from = key_of(message_id, self.first);
        let key = key_of(message_id, number);
        let last = key_of(message_id, u32::MAX);
        self.has_no_other(from, key, last)
    }

    /// The least key from this one on, if it isn't above the last.
    fn least_key(&self, from: u64, last: u64) -> u64
        requires ascends { IsNonDecreasing self.now.sorted.items }
        requires least { from ≤ last }
        ensures from { from ≤ result }
        ensures last { result ≤ last }
        ensures none { (n : ℕ) → from ≤ n → n < result → is_listed (self.now.sorted.items ++ self.now.added.keys) n ≡ false }
    {
        let least = least_sorted(&self.sorted, from, last);
        if self.added.is_empty() {
            return least;
        }
        least_added(&self.added, from, least)
    }

    /// Whether none of the keys from one up to the last is there but this one.
    fn has_no_other(&self, from: u64, key: u64, last: u64) -> bool
        requires { IsNonDecreasing self.now.sorted.items }
        ensures { result ≡ true → (n : ℕ) → from ≤ n → n ≤ last → (n == key) ≡ false → is_listed (self.now.sorted.items ++ self.now.added.keys) n ≡ false }
    {
        if !has_no_other_sorted(&self.sorted, from, key, last) {
            return false;
        }
        self.added.is_empty() || has_no_other_added(&self.added, from, key, last)
    }
}
