//! A message crosses, and its sender goes on in a new socket, while any allocation may be refused: each call answers as with
//! ample memory, or that memory lacks, and then its socket fails.

use crate::tests::sockets::Seven;
use crate::tests::sockets::crossing::crosses;
use crate::tests::sockets::opening::{
    Emitted, Fault, Watched, emits_connected, is_mute, lacks, next_emitted, opens, right,
};
use rand_core::Rng;
use rand_pcg::Pcg32;
use sctp_association::{Association, DcSctpSocket, Socket};
use sctp_state::{CallError, HandoverError, Options, RestoreError, SocketHandoverState};
use sctp_wire::Checksum;
use std::alloc::Global;

/// A generator that is made of one number.
trait Seeded: Rng {
    fn seeded(words: u64) -> Self;
}

impl Seeded for Pcg32 {
    fn seeded(words: u64) -> Pcg32 {
        Pcg32::new(words, words)
    }
}

impl<R: Seeded + Drop, C: Checksum + Default + Drop> Watched for Socket<R, C> {
    fn made(alloc: Global, name: &str, words: u64) -> Result<Socket<R, C>, CallError> {
        Socket::new(
            alloc,
            name,
            &Options::default(),
            R::seeded(words),
            C::default(),
        )
    }

    fn joined(&self) -> Option<Association> {
        self.association()
    }

    fn let_go(self) {
        self.let_go();
    }

    fn would_refuse(&self, bytes: &[u8]) -> Result<bool, CallError> {
        self.refuses(bytes)
    }
}

/// A socket that was handed over emits that it is closed, and nothing else.
fn tells_its_end<S: Watched>(socket: &mut S) -> Result<(), Fault> {
    right(matches!(next_emitted(socket), Emitted::Closed))?;
    right(is_mute(socket) && socket.joined().is_none())
}

fn takes<S: Watched>(socket: &mut S, state: &SocketHandoverState) -> Result<(), Fault> {
    match socket.restore_from_state(state) {
        Ok(()) => Ok(()),
        Err(RestoreError::Memory) => Err(lacks(socket)),
        Err(_) => Err(Fault::Wrong),
    }
}

/// The new socket takes the record of `a`, and emits that it is connected.
fn takes_over<S: Watched>(
    a: &mut S,
    new: &mut S,
    state: &SocketHandoverState,
) -> Result<(), Fault> {
    tells_its_end(a)?;
    takes(new, state)?;
    emits_connected(new)
}

/// The idle `a` is handed over.
fn hands_over<S: Watched>(a: &mut S, new: &mut S) -> Result<(), Fault> {
    right(a.get_handover_readiness().is_ready())?;
    match a.get_handover_state_and_close() {
        Ok(state) => {
            let outcome = takes_over(a, new, &state);
            drop(state);
            outcome
        }
        Err(HandoverError::Memory) => Err(lacks(a)),
        Err(_) => Err(Fault::Wrong),
    }
}

/// The new socket takes the place of `a`, whose message has crossed.
fn goes_on<S: Watched>(alloc: Global, a: &mut S, b: &mut S, new: &mut S) -> Result<(), Fault> {
    opens(a, b)?;
    crosses(alloc, a, b)?;
    let association = a.joined();
    hands_over(a, new)?;
    right(is_mute(new) && new.joined() == association)
}

fn let_go<S: Watched>(socket: Result<S, CallError>) {
    match socket {
        Ok(socket) => socket.let_go(),
        Err(_) => {}
    }
}

fn three_go_on<S: Watched>(alloc: Global) -> Result<(), Fault> {
    let mut a: Result<S, CallError> = S::made(alloc, "a", 1);
    let mut b: Result<S, CallError> = S::made(alloc, "b", 2);
    let mut new: Result<S, CallError> = S::made(alloc, "new", 3);
    let outcome = match (&mut a, &mut b, &mut new) {
        (Ok(a), Ok(b), Ok(new)) => goes_on(alloc, a, b, new),
        _ => Err(Fault::Memory),
    };
    let_go(a);
    let_go(b);
    let_go(new);
    outcome
}

fn is_handed_over(alloc: Global) -> Result<(), Fault> {
    three_go_on::<Socket<Pcg32, Seven>>(alloc)
}

#[test]
fn an_idle_end_goes_on(rt: HostRuntime) {
    assert!(rt; is_handed_over(rt.alloc()).is_ok());
}

/// The test to run with a refused allocation.
#[test]
fn tells_want_of_memory(rt: HostRuntime) {
    assert!(rt; !matches!(is_handed_over(rt.alloc()), Err(Fault::Wrong)));
}
