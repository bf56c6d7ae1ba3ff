//! What an interval says.

ghost use Rattle.std.specs.Prelude.{◌≡◌, ◌==◌, ◌+◌, ◌<◌, ◌^◌, ◌++◌, ◌∷◌, List, IfOk, OnOk, length, map};
ghost use Rattle.sctp_fragments.specs.Entries.{items_of, all_in};
ghost use Rattle.sctp_fragments.specs.Held.{bytes_of, payload_of};
ghost use Rattle.sctp_fragments.specs.Interval.{held_of};

use crate::interval::{Entries, Entry, Interval, Pieces};
use crate::reassembly_key::{ReassemblyKey, leads_to};
use std::alloc::{AllocError, Global};
use std::collections::VecDeque;

/// So many bytes and those of the entries.
fn with_bytes<K: ReassemblyKey>(before: usize, entries: &VecDeque<Entry<K>>) -> usize
    requires { before + bytes_of (map (held_of K.number K.index) entries.now.items) < 2 ^ 64 }
    ensures { result ≡ before + bytes_of (map (held_of K.number K.index) entries.now.items) }
{
    let mut bytes = before;
    for index in 0..entries.len() {
        bytes += entries[index].fragment.payload.len();
    }
    bytes
}

/// The same, where that can be counted.
fn with_room<K>(before: usize, entries: &VecDeque<Entry<K>>) -> usize {
    let mut bytes = before;
    for entry in entries {
        bytes = bytes.saturating_add(entry.fragment.payload.len());
    }
    bytes
}

/// Puts the payloads of the entries behind others. Without memory some are there.
fn put_payloads<K: ReassemblyKey>(
    payload: &mut Vec<u8>,
    entries: &VecDeque<Entry<K>>,
) -> Result<(), AllocError>
    ensures { OnOk result (payload.new.items ≡ payload.old.items ++ payload_of (map (held_of K.number K.index) entries.now.items)) }
{
    for index in 0..entries.len() {
        payload.extend_from_slice(&entries[index].fragment.payload)?;
    }
    Ok(())
}

impl<K: ReassemblyKey> Pieces<K> {
    /// How many entries they have.
    fn len(&self) -> usize
        requires { length (all_in self.now) < 2 ^ 64 }
        ensures { result ≡ length (all_in self.now) }
    {
        let mut count = self.first.len() + self.last.len();
        for index in 0..self.middle.len() {
            count += self.middle[index].len();
        }
        count
    }

    /// How many bytes of payload they have.
    fn total_bytes(&self) -> usize
        requires { bytes_of (map (held_of K.number K.index) (all_in self.now)) < 2 ^ 64 }
        ensures { result ≡ bytes_of (map (held_of K.number K.index) (all_in self.now)) }
    {
        let mut bytes = with_bytes(0, &self.first);
        for index in 0..self.middle.len() {
            bytes = with_bytes(bytes, &self.middle[index]);
        }
        with_bytes(bytes, &self.last)
    }

    /// The same, where that can be counted.
    fn room(&self) -> usize {
        let mut bytes = with_room(0, &self.first);
        for piece in &self.middle {
            bytes = with_room(bytes, piece);
        }
        with_room(bytes, &self.last)
    }

    /// Puts their payloads behind others. Without memory some are there.
    fn put_payloads(&self, payload: &mut Vec<u8>) -> Result<(), AllocError>
        ensures { OnOk result (payload.new.items ≡ payload.old.items ++ payload_of (map (held_of K.number K.index) (all_in self.now))) }
    {
        put_payloads(payload, &self.first)?;
        for index in 0..self.middle.len() {
            put_payloads(payload, &self.middle[index])?;
        }
        put_payloads(payload, &self.last)
    }
}

impl<K: ReassemblyKey> Interval<K> {
    ghost use Rattle.sctp_fragments.specs.Runs.{last_of};
    ghost use Rattle.sctp_fragments.specs.Held.{Held, is_complete, is_in_turn};
    ghost use Rattle.sctp_fragments.specs.Interval.{run_of};

    /// How many fragments it has.
    #[inline(always)]
    pub fn len(&self) -> usize
        requires { length (items_of self.now.entries.value) < 2 ^ 64 }
        ensures { result ≡ length (items_of self.now.entries.value) }
    {
        match &*self.entries {
            Entries::One(_, _) => 1,
            Entries::Many(entries) => entries.len(),
            Entries::Long(pieces) => pieces.len(),
        }
    }

    /// Whether it has one alone.
    #[inline(always)]
    pub fn is_single(&self) -> bool
        ensures { result ≡ (length (items_of self.now.entries.value) == 1) }
    {
        self.entries.is_single()
    }

    /// The fragment with its least key.
    #[inline(always)]
    pub fn first(&self) -> &Entry<K>
        ensures { (h : Held) (hs : List Held) → run_of (held_of K.number K.index) self.now ≡ h ∷ hs → held_of K.number K.index result.now ≡ h }
    {
        self.entries.front()
    }

    /// The fragment with its greatest key.
    #[inline(always)]
    pub fn last(&self) -> &Entry<K>
        ensures { (h : Held) (hs : List Held) → run_of (held_of K.number K.index) self.now ≡ h ∷ hs → held_of K.number K.index result.now ≡ last_of h hs }
    {
        self.entries.back()
    }

    /// How many bytes of payload it holds.
    #[inline(always)]
    pub fn total_bytes(&self) -> usize
        requires { bytes_of (run_of (held_of K.number K.index) self.now) < 2 ^ 64 }
        ensures { result ≡ bytes_of (run_of (held_of K.number K.index) self.now) }
    {
        match &*self.entries {
            Entries::One(_, entry) => entry.fragment.payload.len(),
            Entries::Many(entries) => with_bytes(0, entries),
            Entries::Long(pieces) => pieces.total_bytes(),
        }
    }

    /// How much room the payloads take, where that can be counted.
    fn room(&self) -> usize {
        match &*self.entries {
            Entries::One(_, entry) => entry.fragment.payload.len(),
            Entries::Many(entries) => with_room(0, entries),
            Entries::Long(pieces) => pieces.room(),
        }
    }

    /// The payloads of its fragments, joined, in room that is made for all of them at once. Fails for want of memory
    /// alone.
    pub fn collect_payload(&self, alloc: Global) -> Result<Vec<u8>, AllocError>
        ensures { IfOk result (λ payload. payload.items ≡ payload_of (run_of (held_of K.number K.index) self.now)) }
    {
        let mut payload = Vec::with_capacity(alloc, self.room())?;
        match &*self.entries {
            Entries::One(_, entry) => payload.extend_from_slice(&entry.fragment.payload)?,
            Entries::Many(entries) => put_payloads(&mut payload, entries)?,
            Entries::Long(pieces) => pieces.put_payloads(&mut payload)?,
        }
        Ok(payload)
    }

    /// Whether it is a message from its beginning to its end.
    #[inline(always)]
    pub fn is_complete(&self) -> bool
        ensures { result ≡ is_complete (run_of (held_of K.number K.index) self.now) }
    {
        self.first().fragment.is_beginning && self.last().fragment.is_end
    }

    /// Whether it is one with the number.
    #[inline(always)]
    pub fn is_in_turn(&self, number: u128) -> bool
        ensures { result ≡ is_in_turn number (run_of (held_of K.number K.index) self.now) }
    {
        self.is_complete() && self.first().key.number() as u128 == number
    }
}

ghost use Rattle.sctp_fragments.specs.Runs.{is_next};
ghost use Rattle.sctp_fragments.specs.Held.{rank_of, goes_on};

/// Whether a message may go on from one fragment to the other, with the next key.
pub fn goes_on_to<K: ReassemblyKey>(from: &Entry<K>, to: &Entry<K>) -> bool
    ensures { result ≡ is_next rank_of goes_on (held_of K.number K.index from.now) (held_of K.number K.index to.now) }
{
    leads_to(from.key, to.key) && !from.fragment.is_end && !to.fragment.is_beginning
}
