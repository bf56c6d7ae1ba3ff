//! Which streams of channels that close have their resets asked for.

ghost use Rattle.std.specs.Prelude.{◌≡◌, OnOk};
ghost use Rattle.sctp_channels.specs.Channels.{drain};
ghost use Rattle.sctp_channels.specs.Steps.{Follows, StaysTold, with_channels};

use crate::closing::has_association;
use crate::data_channels::{DataChannels, MANY};
use sctp_serial::StreamId;
use sctp_state::DcSctpSocket;
use std::alloc::AllocError;

impl DataChannels {
    /// Asks for the resets that are due. Before there is an association they wait for that.
    #[tactic(auto, using(crate::proofs::FollowsLemmas::follows_then, crate::proofs::FollowsLemmas::follows_same, crate::proofs::FollowsLemmas::told_then, crate::proofs::FollowsLemmas::told_same))]
    pub(super) fn settle_closing<S: DcSctpSocket>(&mut self, socket: &S) -> Result<(), AllocError>
        ensures steps { OnOk result (Follows self.old self.new) }
        ensures told { StaysTold self.old self.new }
    {
        if !has_association(socket) {
            return Ok(());
        }
        self.settle_due(socket)?;
        self.settle_in_turn(socket)
    }

    /// Asks for the resets of the streams that are to be looked at first, where they are due.
    #[tactic(auto, using(crate::proofs::FollowsLemmas::follows_then, crate::proofs::FollowsLemmas::follows_same, crate::proofs::FollowsLemmas::told_then, crate::proofs::FollowsLemmas::told_same))]
    fn settle_due<S: DcSctpSocket>(&mut self, socket: &S) -> Result<(), AllocError>
        ensures steps { OnOk result (Follows self.old self.new) }
        ensures told { StaysTold self.old self.new }
    {
        for _ in 0..self.closing.due_count() {
            match self.next_due() {
                Some(id) => self.settle_one(socket, id)?,
                None => break,
            }
        }
        Ok(())
    }

    /// Takes out the next one of the streams that are to be looked at first.
    fn next_due(&mut self) -> Option<StreamId>
        ensures { self.new ≡ self.old }
    {
        self.closing.next_due()
    }

    /// Asks for the reset of the stream, where it is due.
    #[tactic(auto, using(crate::proofs::FollowsLemmas::follows_same, crate::proofs::FollowsLemmas::follows_drains, crate::proofs::FollowsLemmas::told_same))]
    fn settle_one<S: DcSctpSocket>(&mut self, socket: &S, id: StreamId) -> Result<(), AllocError>
        ensures steps { OnOk result (Follows self.old self.new) }
        ensures told { StaysTold self.old self.new }
    {
        if socket.buffered_amount(id) == 0 || self.channels.is_incoming_reset(id) {
            return self.drain(id);
        }
        Ok(())
    }

    /// Asks for the resets that are due, up to where of the streams that are next in turn fewer than half are: a call looks at no more than two for
    /// each that it asks for, and two beside, however many streams wait for a peer that takes nothing.
    fn settle_in_turn<S: DcSctpSocket>(&mut self, socket: &S) -> Result<(), AllocError>
        ensures steps { OnOk result (Follows self.old self.new) }
        ensures told { StaysTold self.old self.new }
    {
        for _ in 0..MANY {
            if !self.settle_some(socket)? {
                return Ok(());
            }
        }
        Ok(())
    }

    /// Asks for the resets that are due of the closing streams that are next in turn. Says whether one was, which is half of them.
    #[tactic(auto, using(crate::proofs::FollowsLemmas::follows_then, crate::proofs::FollowsLemmas::follows_same, crate::proofs::FollowsLemmas::told_then, crate::proofs::FollowsLemmas::told_same))]
    fn settle_some<S: DcSctpSocket>(&mut self, socket: &S) -> Result<bool, AllocError>
        ensures steps { OnOk result (Follows self.old self.new) }
        ensures told { StaysTold self.old self.new }
    {
        let before = self.closing.len();
        let ids = self.next_closing()?;
        for id in &ids {
            self.settle_one(socket, *id)?;
        }
        Ok(self.closing.len() < before)
    }

    /// Nothing waits on the stream that the peer would take. Once its reset is asked for it isn't looked at again.
    fn drain(&mut self, id: StreamId) -> Result<(), AllocError>
        ensures row { OnOk result (self.new ≡ with_channels (drain id.0 0 self.old.channels) self.old) }
        ensures told { self.new.events ≡ self.old.events }
    {
        self.channels.drain(id, 0)?;
        if self.channels.is_draining(id) {
            return self.closing.insert(id);
        }
        self.closing.remove(id);
        Ok(())
    }

    /// The closing streams that are next in turn: all where they are few, ascending.
    fn next_closing(&mut self) -> Result<Vec<StreamId>, AllocError>
        ensures { self.new ≡ self.old }
    {
        self.closing.next_in_turn()
    }
}
