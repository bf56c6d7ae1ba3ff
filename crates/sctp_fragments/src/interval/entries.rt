//! The entries of an interval.

ghost use Rattle.std.specs.Prelude.{◌≡◌, ◌==◌, ◌+◌, ◌-◌, ◌<◌, ◌≤◌, ◌++◌, ◌∷◌, [], length, is_ok, if◌then◌else◌, IfOk, OnOk, IsSome, slice_index_or};
ghost use Rattle.std.specs.Option.{option_to_list};
ghost use Rattle.std.specs.VecDeque.{deque_len};
ghost use Rattle.sctp_fragments.specs.Entries.{items_of, size_of, spare_behind, spare_before, FitsBehind, FitsBefore, IsOne, IsMany, IsLong, IsReady};

use crate::interval::pieces::{Pieces, admits, append_all, give_room_back, prepend_all};
use crate::interval::{Entry, Interval, Size};
use crate::reassembly_key::ReassemblyKey;
use std::alloc::{AllocError, Global};
use std::collections::VecDeque;

/// The entries of an interval. One takes a single block of memory, and most that are held are alone.
#[derive(Debug, Drop)]
pub enum Entries<K> {
    /// A single one, and where memory for more comes from.
    One(Global, Entry<K>),
    /// One or more.
    Many(VecDeque<Entry<K>>),
    /// So many that they stand in pieces.
    Long(Box<Pieces<K>>),
}

/// Moves a single entry to where there is room for more.
fn widen<K: Copy>(entries: &mut Entries<K>) -> Result<(), AllocError>
    ensures items { items_of entries.new ≡ items_of entries.old }
    ensures many { OnOk result (IsOne entries.old → IsMany entries.new) }
    ensures other { OnOk result ((IsOne entries.old → ⊥) → entries.new ≡ entries.old) }
{
    let Entries::One(alloc, _) = entries else {
        return Ok(());
    };
    let room = VecDeque::with_capacity(*alloc, 2)?;
    if let Entries::One(_, entry) = std::mem::replace(entries, Entries::Many(room)) {
        if let Entries::Many(many) = entries {
            many.push_back_reserved(entry);
        }
    }
    Ok(())
}

/// Makes pieces of the entries. Without memory nothing changes.
fn lengthen<K: Copy>(many: &mut Entries<K>) -> Result<(), AllocError>
    requires { 0 < length (items_of many.old) }
    ensures items { items_of many.new ≡ items_of many.old }
    ensures long { OnOk result (IsLong many.new) }
{
    widen(many)?;
    let Entries::Many(entries) = many else {
        return Ok(());
    };
    let alloc = *entries.allocator();
    let first = std::mem::replace(entries, VecDeque::new(alloc));
    match Box::new(alloc, Pieces::of(alloc, first)) {
        Ok(pieces) => {
            *many = Entries::Long(pieces);
            Ok(())
        }
        Err(failed) => {
            let pieces = failed.value;
            *many = Entries::Many(pieces.first);
            Err(AllocError)
        }
    }
}

/// Takes no more room than what is left needs.
fn narrow<K: Copy>(entries: &mut Entries<K>)
    ensures { items_of entries.new ≡ items_of entries.old }
{
    let Entries::Many(many) = entries else {
        return;
    };
    if many.len() != 1 {
        give_room_back(many);
        return;
    }
    let alloc = *many.allocator();
    if let Some(entry) = many.pop_front() {
        drop(std::mem::replace(entries, Entries::One(alloc, entry)));
    }
}

impl<K: Copy> Entries<K> {
    /// One entry.
    pub fn one(alloc: Global, entry: Entry<K>) -> Result<Box<Entries<K>>, AllocError>
        ensures { IfOk result (λ b. items_of b.value ≡ entry ∷ []) }
    {
        Ok(Box::new(alloc, Entries::One(alloc, entry))?)
    }

    /// The first entry.
    #[inline(always)]
    pub fn front(&self) -> &Entry<K>
        requires { 0 < length (items_of self.now) }
        ensures { result.now ≡ slice_index_or (items_of self.now) 0 result.now }
    {
        match self {
            Entries::One(_, entry) => entry,
            Entries::Many(entries) => &entries[0],
            Entries::Long(pieces) => pieces.front(),
        }
    }

    /// The last entry.
    #[inline(always)]
    pub fn back(&self) -> &Entry<K>
        requires { 0 < length (items_of self.now) }
        ensures { result.now ≡ slice_index_or (items_of self.now) (length (items_of self.now) - 1) result.now }
    {
        match self {
            Entries::One(_, entry) => entry,
            Entries::Many(entries) => &entries[entries.len() - 1],
            Entries::Long(pieces) => pieces.back(),
        }
    }

    /// Whether there is one alone.
    #[inline(always)]
    pub fn is_single(&self) -> bool
        ensures { result ≡ (length (items_of self.now) == 1) }
    {
        match self {
            Entries::One(_, _) => true,
            Entries::Many(entries) => entries.len() == 1,
            Entries::Long(pieces) => pieces.is_single(),
        }
    }

    /// How much room they take at others.
    #[inline(always)]
    pub fn size(&self) -> Size
        ensures { result ≡ size_of self.now }
    {
        match self {
            Entries::One(_, _) => Size::Entries(2),
            Entries::Many(entries) => Size::Entries(entries.len() + 1),
            Entries::Long(pieces) => Size::Pieces(pieces.middle.len() + 2),
        }
    }

    /// A single one becomes one of many, and those that are too many with others of this size, or are joined to pieces, become pieces.
    fn prepare(&mut self, size: Size) -> Result<(), AllocError>
        requires { 0 < length (items_of self.old) }
        ensures items { items_of self.new ≡ items_of self.old }
        ensures ok { OnOk result (IsReady size self.new) }
    {
        let Size::Entries(more) = size else {
            return lengthen(self);
        };
        widen(self)?;
        match self {
            Entries::Many(entries) if !admits(entries.len(), more) => lengthen(self),
            _ => Ok(()),
        }
    }

    /// Makes room behind them for others of this size. The entries stay as they are, in room of another form perhaps.
    pub fn reserve_behind(&mut self, size: Size) -> Result<(), AllocError>
        requires { 0 < length (items_of self.old) }
        ensures items { items_of self.new ≡ items_of self.old }
        ensures ok { OnOk result (FitsBehind size self.new) }
    {
        self.prepare(size)?;
        match (self, size) {
            (Entries::Many(entries), Size::Entries(more)) => entries.reserve(more),
            (Entries::Long(pieces), size) => pieces.reserve_back(size),
            _ => unreachable!(),
        }
    }

    /// The same in front of them.
    pub fn reserve_before(&mut self, size: Size) -> Result<(), AllocError>
        requires { 0 < length (items_of self.old) }
        ensures items { items_of self.new ≡ items_of self.old }
        ensures ok { OnOk result (FitsBefore size self.new) }
    {
        self.prepare(size)?;
        match (self, size) {
            (Entries::Many(entries), Size::Entries(more)) => entries.reserve(more),
            (Entries::Long(pieces), size) => pieces.reserve_front(size),
            _ => unreachable!(),
        }
    }

    /// Adds an entry behind the others, where there is room.
    fn push_back_reserved(&mut self, entry: Entry<K>)
        requires { 0 < spare_behind self.old }
        ensures items { items_of self.new ≡ items_of self.old ++ entry ∷ [] }
        ensures room { spare_behind self.new + 1 ≡ spare_behind self.old }
    {
        match self {
            Entries::One(_, _) => {}
            Entries::Many(entries) => entries.push_back_reserved(entry),
            Entries::Long(pieces) => pieces.last.push_back_reserved(entry),
        }
    }

    /// Adds an entry in front of the others, where there is room.
    fn push_front_reserved(&mut self, entry: Entry<K>)
        requires { 0 < spare_before self.old }
        ensures items { items_of self.new ≡ entry ∷ items_of self.old }
        ensures room { spare_before self.new + 1 ≡ spare_before self.old }
    {
        match self {
            Entries::One(_, _) => {}
            Entries::Many(entries) => entries.push_front_reserved(entry),
            Entries::Long(pieces) => pieces.first.push_front_reserved(entry),
        }
    }

    /// Adds the others behind these, where there is room.
    fn append_few(&mut self, others: VecDeque<Entry<K>>)
        requires { deque_len others ≤ spare_behind self.old }
        ensures { items_of self.new ≡ items_of self.old ++ others.items }
    {
        match self {
            Entries::One(_, _) => {}
            Entries::Many(entries) => append_all(entries, others),
            Entries::Long(pieces) => append_all(&mut pieces.last, others),
        }
    }

    /// Adds the others in front of these, where there is room.
    fn prepend_few(&mut self, others: VecDeque<Entry<K>>)
        requires { deque_len others ≤ spare_before self.old }
        ensures { items_of self.new ≡ others.items ++ items_of self.old }
    {
        match self {
            Entries::One(_, _) => {}
            Entries::Many(entries) => prepend_all(entries, others),
            Entries::Long(pieces) => prepend_all(&mut pieces.first, others),
        }
    }

    /// Adds an entry behind the others. Without memory none is added.
    pub fn push_back(&mut self, entry: Entry<K>) -> Result<(), AllocError>
        requires { 0 < length (items_of self.old) }
        ensures items { items_of self.new ≡ (if is_ok result then items_of self.old ++ entry ∷ [] else items_of self.old) }
    {
        self.reserve_behind(Size::Entries(1))?;
        self.push_back_reserved(entry);
        Ok(())
    }

    /// Adds an entry in front of the others. Without memory none is added.
    pub fn push_front(&mut self, entry: Entry<K>) -> Result<(), AllocError>
        requires { 0 < length (items_of self.old) }
        ensures items { items_of self.new ≡ (if is_ok result then entry ∷ items_of self.old else items_of self.old) }
    {
        self.reserve_before(Size::Entries(1))?;
        self.push_front_reserved(entry);
        Ok(())
    }

    /// Takes out the first entry, unless it is the only one. Room that is no more needed is given back.
    pub fn pop_front(&mut self) -> Option<Entry<K>>
        requires { 1 < length (items_of self.old) }
        ensures items { items_of self.old ≡ option_to_list result ++ items_of self.new }
        ensures some { IsSome result }
    {
        match self {
            Entries::One(_, _) => None,
            Entries::Many(entries) => {
                let first = entries.pop_front();
                narrow(self);
                first
            }
            Entries::Long(pieces) => pieces.pop_front(),
        }
    }

    /// The first entry, of those that are no more needed.
    pub fn into_first(self) -> Entry<K>
        requires { 0 < length (items_of self) }
        ensures { result ≡ slice_index_or (items_of self) 0 result }
    {
        let mut entries = match self {
            Entries::One(_, entry) => return entry,
            Entries::Many(entries) => entries,
            Entries::Long(pieces) => Box::into_inner(pieces).first,
        };
        let Some(entry) = entries.pop_front() else {
            unreachable!();
        };
        entry
    }

    /// Puts the entry and then the others behind these, where there is room.
    pub fn append(&mut self, entry: Entry<K>, others: Box<Entries<K>>)
        requires room { FitsBehind (size_of others.value) self.old }
        ensures { items_of self.new ≡ items_of self.old ++ entry ∷ items_of others.value }
    {
        match Box::into_inner(others) {
            Entries::One(_, other) => {
                self.push_back_reserved(entry);
                self.push_back_reserved(other);
            }
            Entries::Many(others) => {
                self.push_back_reserved(entry);
                self.append_few(others);
            }
            Entries::Long(others) => {
                if let Entries::Long(pieces) = self {
                    pieces.append(entry, Box::into_inner(others));
                }
            }
        }
    }

    /// Puts the others and then the entry in front of these, where there is room.
    pub fn prepend(&mut self, entry: Entry<K>, others: Box<Entries<K>>)
        requires room { FitsBefore (size_of others.value) self.old }
        ensures { items_of self.new ≡ items_of others.value ++ entry ∷ items_of self.old }
    {
        match Box::into_inner(others) {
            Entries::One(_, other) => {
                self.push_front_reserved(entry);
                self.push_front_reserved(other);
            }
            Entries::Many(others) => {
                self.push_front_reserved(entry);
                self.prepend_few(others);
            }
            Entries::Long(others) => {
                if let Entries::Long(pieces) = self {
                    pieces.prepend(entry, Box::into_inner(others));
                }
            }
        }
    }
}

impl<K: ReassemblyKey> Interval<K> {
    /// How much room it takes at another one.
    #[inline(always)]
    pub fn size(&self) -> Size
        ensures { result ≡ size_of self.now.entries.value }
    {
        self.entries.size()
    }

    /// Adds an entry at the back. Without memory none is added.
    pub fn push_back(&mut self, entry: Entry<K>) -> Result<(), AllocError>
        ensures items { items_of self.new.entries.value ≡ (if is_ok result then items_of self.old.entries.value ++ entry ∷ [] else items_of self.old.entries.value) }
    {
        self.entries.push_back(entry)
    }

    /// Adds an entry in front. Without memory none is added.
    pub fn push_front(&mut self, entry: Entry<K>) -> Result<(), AllocError>
        ensures items { items_of self.new.entries.value ≡ (if is_ok result then entry ∷ items_of self.old.entries.value else items_of self.old.entries.value) }
    {
        self.entries.push_front(entry)
    }

    /// Takes out the first entry, which isn't the only one.
    pub fn pop_front(&mut self) -> Option<Entry<K>>
        requires { 1 < length (items_of self.old.entries.value) }
        ensures items { items_of self.old.entries.value ≡ option_to_list result ++ items_of self.new.entries.value }
        ensures some { IsSome result }
    {
        self.entries.pop_front()
    }

    /// Makes room at the back for an interval of this size.
    pub fn reserve_behind(&mut self, size: Size) -> Result<(), AllocError>
        ensures items { items_of self.new.entries.value ≡ items_of self.old.entries.value }
        ensures ok { OnOk result (FitsBehind size self.new.entries.value) }
    {
        self.entries.reserve_behind(size)
    }

    /// Makes room in front for an interval of this size.
    pub fn reserve_before(&mut self, size: Size) -> Result<(), AllocError>
        ensures items { items_of self.new.entries.value ≡ items_of self.old.entries.value }
        ensures ok { OnOk result (FitsBefore size self.new.entries.value) }
    {
        self.entries.reserve_before(size)
    }

    /// Puts the entry and then the others at the back, where there is room.
    pub fn append(&mut self, entry: Entry<K>, others: Interval<K>)
        requires { FitsBehind (size_of others.entries.value) self.old.entries.value }
        ensures { items_of self.new.entries.value ≡ items_of self.old.entries.value ++ entry ∷ items_of others.entries.value }
    {
        self.entries.append(entry, others.entries)
    }

    /// Puts the others and then the entry in front, where there is room.
    pub fn prepend(&mut self, entry: Entry<K>, others: Interval<K>)
        requires { FitsBefore (size_of others.entries.value) self.old.entries.value }
        ensures { items_of self.new.entries.value ≡ items_of others.entries.value ++ entry ∷ items_of self.old.entries.value }
    {
        self.entries.prepend(entry, others.entries)
    }
}
