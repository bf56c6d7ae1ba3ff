//! Two worlds, and what a script asks of them.

use crate::events::number_at;
use rand_core::Rng;
use rand_pcg::Pcg32;
use sctp_state::{CallError, Options};
use sctp_wire::Checksum;
use sctp_world::{ByteSum, End, Entry, Event, World, WorldError, run_pair};
use std::alloc::Global;

/// What a script asks of two worlds. Its helpers know no more of them than this.
pub trait Pair {
    fn lead(&mut self, events: &[Event]) -> Result<(), WorldError>;

    fn first(&self) -> &[Entry];

    fn second(&self) -> &[Entry];

    /// Whether the end sent the packet of this number in the first world.
    fn has_sent(&self, end: End, number: usize) -> bool;

    fn let_go(self);
}

/// Two worlds with any generators and one checksum function.
#[derive(Drop)]
pub struct Two<R: Rng, S: Rng, C: Checksum> {
    first: World<R, C>,
    second: World<S, C>,
}

impl<R: Rng + Drop, S: Rng + Drop, C: Checksum + Drop> Pair for Two<R, S, C> {
    fn lead(&mut self, events: &[Event]) -> Result<(), WorldError> {
        run_pair(&mut self.first, &mut self.second, events)
    }

    fn first(&self) -> &[Entry] {
        self.first.log()
    }

    fn second(&self) -> &[Entry] {
        self.second.log()
    }

    fn has_sent(&self, end: End, number: usize) -> bool {
        self.first.packet(end, number).is_some()
    }

    fn let_go(self) {
        self.first.let_go();
        self.second.let_go();
    }
}

/// State and stream of a generator.
#[derive(Clone, Copy)]
struct Seed {
    state: u64,
    stream: u64,
}

/// Of both ends, in the first world and in the second.
#[derive(Clone, Copy)]
pub struct Seeds {
    a: Seed,
    b: Seed,
    other_a: Seed,
    other_b: Seed,
}

fn seed_of(state: u64, stream: u64) -> Seed {
    Seed { state, stream }
}

impl Default for Seeds {
    fn default() -> Seeds {
        Seeds {
            a: seed_of(1, 1),
            b: seed_of(2, 2),
            other_a: seed_of(3, 3),
            other_b: seed_of(4, 4),
        }
    }
}

/// Of the numbers at this place and at the next one.
fn seed_at(words: &[&str], place: usize) -> Seed {
    seed_of(
        number_at(words, place),
        number_at(words, place.saturating_add(1)),
    )
}

/// As eight numbers behind two words say them; without these numbers the default ones.
pub fn seeds_of(words: &[&str]) -> Seeds {
    if words.len() < 10 {
        return Seeds::default();
    }
    Seeds {
        a: seed_at(words, 2),
        b: seed_at(words, 4),
        other_a: seed_at(words, 6),
        other_b: seed_at(words, 8),
    }
}

fn new_world(alloc: Global, a: Seed, b: Seed) -> Result<World<Pcg32, ByteSum>, CallError> {
    let options = Options::default();
    World::new(
        alloc,
        &options,
        &options,
        Pcg32::new(a.state, a.stream),
        Pcg32::new(b.state, b.stream),
        ByteSum,
        ByteSum,
    )
}

/// Two new worlds with default options, and generators of these seeds.
pub fn made(alloc: Global, seeds: Seeds) -> Result<Two<Pcg32, Pcg32, ByteSum>, CallError> {
    let first = new_world(alloc, seeds.a, seeds.b)?;
    match new_world(alloc, seeds.other_a, seeds.other_b) {
        Ok(second) => Ok(Two { first, second }),
        Err(fault) => {
            first.let_go();
            Err(fault)
        }
    }
}
