//! A world, by its own calls: an end is set, both connect, and a message crosses, after which the sender is at rest.

use rand_core::Rng;
use rand_pcg::Pcg32;
use sctp_serial::{Message, PpId, StreamId};
use sctp_state::{CallError, Options, SendOptions};
use sctp_wire::Checksum;
use sctp_world::*;
use std::alloc::{AllocError, Global};

/// What a test asks of a world. Its helpers know no more of one than its answers.
trait Watched {
    fn does(&mut self, events: &[Event]) -> Result<(), WorldError>;

    fn entries(&self) -> &[Entry];

    fn rests(&self, end: End) -> bool;

    fn let_go(self);
}

impl<R: Rng + Drop, C: Checksum + Drop> Watched for World<R, C> {
    fn does(&mut self, events: &[Event]) -> Result<(), WorldError> {
        run(self, events)
    }

    fn entries(&self) -> &[Entry] {
        self.log()
    }

    fn rests(&self, end: End) -> bool {
        self.is_at_rest(end)
    }

    fn let_go(self) {
        self.let_go();
    }
}

/// What is set of an end.
fn is_set<W: Watched>(world: &mut W) -> bool {
    let settings = [
        Event::Call(End::A, Call::SetPriority(StreamId(1), 5)),
        Event::Call(End::A, Call::SetLowThreshold(StreamId(1), 4)),
        Event::Call(End::A, Call::SetMaxMessageSize(4)),
    ];
    let is_set = world.does(&settings).is_ok();
    drop(settings);
    is_set & are_done(world.entries())
}

/// Whether these are three settings, and nothing else.
fn are_done(entries: &[Entry]) -> bool {
    let mut holds = entries.len() == 3;
    for entry in entries {
        holds &= matches!(entry, Entry::Call(End::A, _, _, Answer::Done));
    }
    holds
}

/// Connects both ends, and sends the message: the sender is at rest when it hears that it came, and not before.
fn crosses<W: Watched>(world: &mut W, message: Message) -> bool {
    let events = [
        Event::Call(End::A, Call::Connect),
        Event::Give(0, End::B),
        Event::Give(0, End::A),
        Event::Give(1, End::B),
        Event::Give(1, End::A),
        Event::Call(End::A, Call::Send(message, SendOptions::default())),
    ];
    let is_sent = world.does(&events).is_ok();
    drop(events);
    let is_busy = !world.rests(End::A);
    let is_heard = world
        .does(&[Event::Give(2, End::B), Event::Give(2, End::A)])
        .is_ok();
    is_sent & is_busy & is_heard & world.rests(End::A)
}

fn goes_on<W: Watched>(world: &mut W, message: Result<Vec<u8>, AllocError>) -> bool {
    match message {
        Ok(payload) => is_set(world)
            && crosses(world, Message::new(StreamId(1), PpId(53), payload)),
        Err(_) => false,
    }
}

fn goes_on_anew<W: Watched>(alloc: Global, world: Result<W, CallError>) -> bool {
    match world {
        Ok(mut world) => {
            let is_right = goes_on(&mut world, Vec::from_slice(alloc, &[1, 2, 3]));
            world.let_go();
            is_right
        }
        Err(_) => false,
    }
}

#[test]
fn a_world_goes_on(rt: HostRuntime) {
    let options = Options::default();
    let (a, b) = (Pcg32::new(1, 1), Pcg32::new(2, 2));
    let world = World::new(rt.alloc(), &options, &options, a, b, ByteSum, ByteSum);
    assert!(rt; goes_on_anew(rt.alloc(), world));
}
