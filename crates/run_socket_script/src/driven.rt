//! The sockets that are driven, and what is asked of one beside the calls of the trait.

use crate::setup::EndSetup;
use crate::words::Known;
use sctp_association::{Association, DcSctpSocket, Socket};
use sctp_serial::{Message, SocketTime};
use sctp_state::{CallError, GivenUp};
use sctp_wire::Checksum;
use std::alloc::Global;

/// What a socket shows of itself, beside what the calls of its trait answer.
#[derive(Clone, Copy)]
pub struct Shown {
    /// Whether it has nothing queued and keeps no item.
    pub rests: bool,
    pub own_tag: u32,
    /// The moment to which its time was advanced.
    pub clock: SocketTime,
    pub association: Option<Association>,
}

/// What is asked of a socket beside the calls of its trait.
pub trait Driven: DcSctpSocket {
    /// A new socket, where the options are valid.
    fn made(alloc: Global, name: &str, setup: &EndSetup) -> Result<Self, CallError>;

    fn let_go(self);

    fn next_record(&mut self) -> Option<GivenUp>;

    fn shown(&self) -> Shown;

    fn would_refuse(&self, bytes: &[u8]) -> Result<bool, CallError>;

    fn first_ready(&self) -> Option<&Message>;
}

impl<R: Known + Drop, C: Checksum + Default + Drop> Driven for Socket<R, C> {
    fn made(alloc: Global, name: &str, setup: &EndSetup) -> Result<Socket<R, C>, CallError> {
        if !setup.options.is_valid() {
            return Err(CallError::Failed);
        }
        let words = R::known(setup.first, setup.stride);
        Socket::new(alloc, name, &setup.options, words, C::default())
    }

    fn let_go(self) {
        self.let_go();
    }

    fn next_record(&mut self) -> Option<GivenUp> {
        self.next_given_up()
    }

    fn shown(&self) -> Shown {
        Shown {
            rests: self.is_at_rest(),
            own_tag: self.verification_tag(),
            clock: self.clock(),
            association: self.association(),
        }
    }

    fn would_refuse(&self, bytes: &[u8]) -> Result<bool, CallError> {
        self.refuses(bytes)
    }

    fn first_ready(&self) -> Option<&Message> {
        self.ready_message(0)
    }
}
