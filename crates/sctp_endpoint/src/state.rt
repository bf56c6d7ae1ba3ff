//! The states of an end (RFC 9260 section 4).

ghost use Rattle.std.specs.Prelude.{◌≡◌};
ghost use Rattle.std.specs.Borrow.{LendsIf, sem};
ghost use Rattle.std.specs.Option.{option_map};
ghost use Rattle.spec_endpoint.specs.Association.{block_in};
ghost use Rattle.sctp_endpoint.specs.Lending.{with_block};
ghost use Rattle.spec_endpoint.specs.Sending.{is_before_cookie_ack};
ghost use Rattle.sctp_endpoint.specs.Views.{phase_of, state_of, tcb_of};
ghost use Rattle.sctp_endpoint.specs.contracts.state.State as states;
ghost use Rattle.sctp_endpoint.specs.contracts.transmission_control_block.TransmissionControlBlock as blocks;

use crate::transmission_control_block::TransmissionControlBlock;
use sctp_serial::Tsn;
use sctp_state::Timer;

/// An INIT was sent.
#[derive(Drop)]
pub struct CookieWaitState {
    pub verification_tag: u32,
    pub initial_tsn: Tsn,
    pub t1_init: Timer,
}

/// The cookie was echoed.
#[derive(Drop)]
pub struct CookieEchoedState {
    pub t1_cookie: Timer,
    pub cookie: Vec<u8>,
}

/// The states with a control block.
#[derive(Drop)]
pub enum Phase {
    CookieEchoed(CookieEchoedState),
    Established,
    ShutdownPending,
    /// With T2-shutdown.
    ShutdownSent(Timer),
    ShutdownReceived,
    /// With T2-shutdown.
    ShutdownAckSent(Timer),
}

/// What an end is in.
#[derive(Drop)]
pub enum State {
    Closed,
    CookieWait(CookieWaitState),
    Open(Phase, TransmissionControlBlock),
}

impl Phase {
    /// Whether a burst has one packet: before the COOKIE ACK no other goes out (RFC 9260 section 5.1).
    pub fn is_before_cookie_ack(&self) -> bool
        ensures { result ≡ is_before_cookie_ack (phase_of self.now) }
    {
        matches!(self, Phase::CookieEchoed(_))
    }
}

impl State {
    /// The next state, in place of this one.
    pub fn enter(&mut self, next: State)
        ensures { self.new ≡ next }
    {
        drop(std::mem::replace(self, next));
    }

    /// The state is let go, as a control block is.
    pub fn let_go(self) {
        drop(self);
    }

    /// The control block, in the states that have one.
    pub fn tcb(&self) -> Option<&TransmissionControlBlock>
        ensures { option_map (λ t. tcb_of t.now) result ≡ block_in (state_of self.now) }
    {
        match self {
            State::Closed | State::CookieWait(_) => None,
            State::Open(_, tcb) => Some(tcb),
        }
    }

    /// The control block, to be changed where it stands: for who leads an association by the calls of its layers. The state stays what
    /// it is, and keeps the rest.
    pub fn tcb_mut(&mut self) -> Option<&mut TransmissionControlBlock>
        ensures* writes_back { sem 𝓛 (LendsIf states.the_row blocks.the_row self.entry result (with_block self.old) self.old) }
        ensures value { option_map (λ t. tcb_of t.now) result ≡ block_in (state_of self.old) }
    {
        match self {
            State::Closed | State::CookieWait(_) => None,
            State::Open(_, tcb) => Some(tcb),
        }
    }
}
