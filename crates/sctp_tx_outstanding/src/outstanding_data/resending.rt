//! Items that are sent again.

ghost use Rattle.std.specs.Prelude.{◌≡◌, ◌≤◌, nat_lt, length, map, true, false, IfOk, OnOk, OnErr};
ghost use Rattle.sctp_tx_outstanding.specs.Views.{resent_of, chunk_of};
ghost use Rattle.sctp_tx_outstanding.specs.OutstandingData.{number_of};
ghost use Rattle.sctp_tx_outstanding.specs.Sack.{is_open_at};
ghost use Rattle.sctp_tx_outstanding.specs.Resending.{again_at, allowance, waiting_for, turn_at, step_at, resent_below, resend, empty_packet, chunk_bytes, IsFull, AreLeft, SomeResent};

use crate::item::copy_of;
use crate::kept::Change;
use crate::outstanding_data::{Filling, OutstandingData, Turn};
use sctp_chunk::Data;
use sctp_serial::Tsn;
use std::alloc::AllocError;

impl OutstandingData {
    /// Whether the item with this TSN is kept, and neither acknowledged by a block nor given up.
    pub fn is_open(&self, tsn: Tsn) -> bool
        ensures { result ≡ is_open_at (number_of self.now tsn.0) self.now.items }
    {
        let number = self.unwrapped(tsn);
        if number <= self.acked {
            return false;
        }
        match self.kept.get((number - self.acked - 1) as usize) {
            Some(item) => item.is_open(),
            None => false,
        }
    }

    /// Hands the item at the place out to be sent once more.
    fn resend_at(&mut self, place: usize, filling: &mut Filling) -> Result<(), AllocError>
        ensures ok { OnOk result (resent_of self.new filling.new ≡ again_at place (resent_of self.old filling.old)) }
        ensures err { OnErr result (self.new ≡ self.old) }
    {
        let Some(item) = self.kept.get(place) else {
            return Ok(());
        };
        let size = item.chunk_size(self.kept.is_interleaved());
        let fragment = copy_of(self.alloc, item.data())?;
        let tsn = self.tsn_at(place);
        filling.chunks.push((tsn, fragment))?;
        filling.room = filling.room.saturating_sub(size);
        filling.window = filling.window.saturating_sub(size);
        self.kept.change(place, Change::Retransmit);
        Ok(())
    }

    /// What may be sent now: while something is in flight the peer's window counts too.
    fn allowed(&self, filling: &Filling) -> usize
        ensures { result ≡ allowance (resent_of self.now filling.now) }
    {
        if self.kept.flights() == 0 {
            return filling.room;
        }
        filling.room.min(filling.window)
    }

    /// What becomes of the item at the place.
    fn turn_at(&self, place: usize, fast: bool, filling: &Filling) -> Turn
        ensures { result ≡ turn_at fast place (resent_of self.now filling.now) }
    {
        let Some(item) = self.kept.get(place) else {
            return Turn::Leave;
        };
        let size = item.chunk_size(self.kept.is_interleaved());
        if fast {
            if !item.is_fast() {
                return Turn::Leave;
            }
            if size <= filling.room {
                return Turn::Send;
            }
            return Turn::PassOver;
        }
        if item.should_be_retransmitted() && size <= self.allowed(filling) {
            return Turn::Send;
        }
        Turn::Leave
    }

    fn take_turn(
        &mut self,
        place: usize,
        fast: bool,
        filling: &mut Filling,
    ) -> Result<(), AllocError>
        ensures ok { OnOk result (resent_of self.new filling.new ≡ step_at fast place (resent_of self.old filling.old)) }
        ensures err { OnErr result (self.new ≡ self.old) }
    {
        match self.turn_at(place, fast, filling) {
            Turn::Send => self.resend_at(place, filling),
            Turn::PassOver => {
                self.kept.change(place, Change::MissFast);
                Ok(())
            }
            Turn::Leave => Ok(()),
        }
    }

    /// Whether an item waits to be sent again, by the fast packet or in all.
    fn has_waiting(&self, fast: bool) -> bool
        ensures { result ≡ nat_lt 0 (waiting_for fast self.now.items) }
    {
        if fast {
            self.kept.has_fast()
        } else {
            self.kept.has_queued()
        }
    }

    /// Whether no item that waits may be sent, for all that is known of their sizes. The fast packet passes each over.
    fn is_full(&self, fast: bool, filling: &Filling) -> bool
        ensures slow { result ≡ true → fast ≡ false }
        ensures full { result ≡ true → IsFull (resent_of self.now filling.now) }
    {
        if fast {
            return false;
        }
        self.allowed(filling) < self.kept.least_waiting()
    }

    /// A place from this one on, to which a walk came from another, up to which no item may be sent, for all that is known of
    /// their sizes. For the fast packet it is this one.
    fn pass_large(&mut self, from: usize, place: usize, fast: bool, filling: &Filling) -> usize
        ensures same { self.new ≡ self.old }
        ensures onward { place ≤ result }
        ensures left { AreLeft fast place result (resent_of self.old filling.now) }
    {
        if fast {
            return place;
        }
        let allowed = self.allowed(filling);
        self.kept.pass_large(from, place, allowed)
    }

    /// Where each item that waits had its turn, looks how small those are that don't fit: until one does, none is looked at
    /// again.
    fn see_left(&mut self, filling: &Filling)
        ensures { self.new ≡ self.old }
    {
        if self.is_full(false, filling) {
            return;
        }
        let allowed = self.allowed(filling);
        self.kept.renew_least(allowed);
    }

    /// Gives each item that waits its turn, up to the last one that may be sent; no other has one.
    fn resend(&mut self, fast: bool, filling: &mut Filling) -> Result<(), AllocError>
        ensures ok { OnOk result (resent_of self.new filling.new ≡ resent_below fast (length self.old.items.kept) (resent_of self.old filling.old)) }
        ensures err { OnErr result (SomeResent fast (resent_of self.old filling.old) self.new) }
    {
        let count = self.kept.len();
        let mut place = 0;
        while place < count {
            if !self.has_waiting(fast) {
                return Ok(());
            }
            if self.is_full(fast, filling) {
                return Ok(());
            }
            let next = self.kept.next_waiting(fast, place);
            if count <= next {
                return Ok(());
            }
            let end = self.pass_large(place, next, fast, filling);
            if next < end {
                place = end.min(count);
            } else {
                self.take_turn(next, fast, filling)?;
                place = next + 1;
            }
        }
        Ok(())
    }

    /// Hands out the items that wait for the packet that ignores the congestion window, in ascending order, as far as
    /// their chunks fit into `max_size` bytes; those that don't fit wait for another packet. Without memory this is done
    /// for some of the first items alone, and none is handed out.
    pub fn get_chunks_to_be_fast_retransmitted(
        &mut self,
        max_size: usize,
    ) -> Result<Vec<(Tsn, Data)>, AllocError>
        ensures items { OnOk result (self.new ≡ (resend true max_size 0 self.old).outstanding) }
        ensures chunks { IfOk result (λ chunks. map chunk_of chunks.items ≡ (resend true max_size 0 self.old).chunks) }
        ensures fits { IfOk result (λ chunks. chunk_bytes self.old.items.is_interleaved (map chunk_of chunks.items) ≤ max_size) }
        ensures err { OnErr result (SomeResent true (empty_packet max_size 0 self.old) self.new) }
    {
        let mut filling = Filling {
            chunks: Vec::new(self.alloc),
            room: max_size,
            window: 0,
        };
        self.resend(true, &mut filling)?;
        Ok(filling.chunks)
    }

    /// Hands out the items that wait to be sent again, in ascending order, as far as their chunks fit into `max_size`
    /// bytes and, while something is in flight, into the peer's window `rwnd`; an item that doesn't fit is passed over.
    /// Without memory this is done for some of the first items alone, and none is handed out.
    pub fn get_chunks_to_be_retransmitted(
        &mut self,
        max_size: usize,
        rwnd: usize,
    ) -> Result<Vec<(Tsn, Data)>, AllocError>
        ensures items { OnOk result (self.new ≡ (resend false max_size rwnd self.old).outstanding) }
        ensures chunks { IfOk result (λ chunks. map chunk_of chunks.items ≡ (resend false max_size rwnd self.old).chunks) }
        ensures fits { IfOk result (λ chunks. chunk_bytes self.old.items.is_interleaved (map chunk_of chunks.items) ≤ max_size) }
        ensures err { OnErr result (SomeResent false (empty_packet max_size rwnd self.old) self.new) }
    {
        if !self.has_data_to_be_retransmitted() {
            return Ok(Vec::new(self.alloc));
        }
        let mut filling = Filling {
            chunks: Vec::new(self.alloc),
            room: max_size,
            window: rwnd,
        };
        self.resend(false, &mut filling)?;
        self.see_left(&filling);
        Ok(filling.chunks)
    }
}
