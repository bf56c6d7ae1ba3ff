//! What pieces have at either end, and what is added or taken there.

ghost use Rattle.std.specs.Prelude.{◌≡◌, ◌==◌, ◌+◌, ◌-◌, ◌<◌, ◌≤◌, ◌++◌, ◌∷◌, length, OnOk, IsSome, slice_index_or};
ghost use Rattle.std.specs.Option.{option_to_list};
ghost use Rattle.std.specs.VecDeque.{deque_len};
ghost use Rattle.sctp_fragments.specs.Entries.{all_in, size_between, EndsFit, BeginsFit};

use crate::interval::pieces::{
    Pieces, append_all, give_room_back, prepend_all, push_piece, take_next,
};
use crate::interval::{Entry, Size};
use std::alloc::{AllocError, Global};
use std::collections::VecDeque;

/// With so many entries a piece is full. One that another interval was joined to may have a few more.
const FULL: usize = 512;

/// So many places a new piece has.
const FEW: usize = 16;

/// Whether a piece of this length has so many more.
pub(crate) fn admits(len: usize, more: usize) -> bool {
    len.saturating_add(more) <= FULL
}

impl<K: Copy> Pieces<K> {
    /// A single piece. Takes no memory.
    pub(crate) fn of(alloc: Global, first: VecDeque<Entry<K>>) -> Pieces<K>
        requires { 0 < length first.items }
        ensures items { all_in result ≡ first.items }
        ensures first { result.first ≡ first }
    {
        Pieces {
            first,
            middle: VecDeque::new(alloc),
            last: VecDeque::new(alloc),
        }
    }

    /// The first entry.
    pub(crate) fn front(&self) -> &Entry<K>
        ensures { result.now ≡ slice_index_or (all_in self.now) 0 result.now }
    {
        &self.first[0]
    }

    /// The last entry.
    pub(crate) fn back(&self) -> &Entry<K>
        ensures { result.now ≡ slice_index_or (all_in self.now) (length (all_in self.now) - 1) result.now }
    {
        if let Some(entry) = self.last.back() {
            return entry;
        }
        let Some(piece) = self.middle.back() else {
            return &self.first[self.first.len() - 1];
        };
        &piece[piece.len() - 1]
    }

    /// Whether there is one entry alone.
    pub(crate) fn is_single(&self) -> bool
        ensures { result ≡ (length (all_in self.now) == 1) }
    {
        if !self.middle.is_empty() {
            return false;
        }
        self.first.len() + self.last.len() == 1
    }

    /// Begins a last piece, behind the one that there is.
    fn begin_last(&mut self) -> Result<(), AllocError>
        requires { 0 < length self.old.last.items }
        ensures { all_in self.new ≡ all_in self.old }
    {
        self.middle.reserve(1)?;
        let piece = VecDeque::new(*self.last.allocator());
        self.middle
            .push_back_reserved(std::mem::replace(&mut self.last, piece));
        Ok(())
    }

    /// Begins a first piece, with the first entry, in front of the one that there is.
    fn begin_first(&mut self) -> Result<(), AllocError>
        requires { 1 < length self.old.first.items }
        ensures { all_in self.new ≡ all_in self.old }
    {
        let mut piece = VecDeque::with_capacity(*self.first.allocator(), FEW)?;
        self.middle.reserve(1)?;
        if let Some(entry) = self.first.pop_front() {
            piece.push_back_reserved(entry);
        }
        self.middle
            .push_front_reserved(std::mem::replace(&mut self.first, piece));
        Ok(())
    }

    /// Takes out the first entry, unless it is the only one. Room that is no more needed is given back.
    pub(crate) fn pop_front(&mut self) -> Option<Entry<K>>
        requires { 1 < length (all_in self.old) }
        ensures items { all_in self.old ≡ option_to_list result ++ all_in self.new }
        ensures some { IsSome result }
    {
        if self.first.len() > 1 {
            let entry = self.first.pop_front();
            give_room_back(&mut self.first);
            return entry;
        }
        let next = take_next(&mut self.middle, &mut self.last);
        std::mem::replace(&mut self.first, next).pop_front()
    }

    /// Makes room at the back for an interval of this size, and the entry before it. The entries stay as they are; a piece may begin.
    pub(crate) fn reserve_back(&mut self, size: Size) -> Result<(), AllocError>
        ensures items { all_in self.new ≡ all_in self.old }
        ensures ok { OnOk result (EndsFit size self.new) }
    {
        match size {
            Size::Entries(more) => {
                if !self.last.is_empty() && !admits(self.last.len(), more) {
                    self.begin_last()?;
                }
                self.last.reserve(more)
            }
            Size::Pieces(more) => {
                self.last.reserve(1)?;
                self.middle.reserve(more)
            }
        }
    }

    /// Makes room at the front for an interval of this size, and the entry behind it. The entries stay as they are; a piece may begin.
    pub(crate) fn reserve_front(&mut self, size: Size) -> Result<(), AllocError>
        ensures items { all_in self.new ≡ all_in self.old }
        ensures ok { OnOk result (BeginsFit size self.new) }
    {
        match size {
            Size::Entries(more) => {
                if self.first.len() > 1 && !admits(self.first.len(), more) {
                    self.begin_first()?;
                }
                self.first.reserve(more)
            }
            Size::Pieces(more) => {
                self.first.reserve(1)?;
                self.middle.reserve(more)
            }
        }
    }

    /// Puts the entry and then the other pieces behind these, where there is room.
    pub(crate) fn append(&mut self, entry: Entry<K>, others: Pieces<K>)
        requires { EndsFit (size_between others) self.old }
        ensures { all_in self.new ≡ all_in self.old ++ entry ∷ all_in others }
    {
        let (first, middle, last) = (others.first, others.middle, others.last);
        self.last.push_back_reserved(entry);
        self.middle
            .push_back_reserved(std::mem::replace(&mut self.last, last));
        self.middle.push_back_reserved(first);
        append_all(&mut self.middle, middle);
    }

    /// Puts the other pieces and then the entry in front of these, where there is room.
    pub(crate) fn prepend(&mut self, entry: Entry<K>, others: Pieces<K>)
        requires { BeginsFit (size_between others) self.old }
        ensures { all_in self.new ≡ all_in others ++ entry ∷ all_in self.old }
    {
        let (first, middle, last) = (others.first, others.middle, others.last);
        self.first.push_front_reserved(entry);
        self.middle
            .push_front_reserved(std::mem::replace(&mut self.first, first));
        push_piece(&mut self.middle, last);
        prepend_all(&mut self.middle, middle);
    }
}
