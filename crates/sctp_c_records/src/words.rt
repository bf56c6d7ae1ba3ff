//! The words that a socket draws: those of ChaCha20 (RFC 8439) with a seed of 32 bytes as its key.

ghost use Rattle.std.specs.Prelude.{◌≡◌, ◌<◌, ◌^◌, length};
ghost use Rattle.rand_chacha.specs.ChaCha.{ChaCha, next_word, of_seed};
ghost use Rattle.rand_core.specs.Steps.{steps_u32, stream_of};

use rand_chacha::ChaCha20Rng;
use rand_core::utils::{NextWord, fill_bytes_via_u32, next_u64_via_u32};
use rand_core::{Rng, SeedableRng};
use std::marker::Model;

/// The seed, and the place of the next word. A socket draws few words, so that their blocks are made anew and not kept.
#[derive(Drop)]
pub struct SeededWords {
    seed: [u8; 32],
    place: u128,
}

impl Model for SeededWords {
    ghost Value = { ChaCha };

    ghost view = { λ w. record (of_seed w.seed) { word_pos = w.place } };

    ghost invariant = { λ w. w.place < 2 ^ 68 };
}

impl SeededWords {
    /// The words of a seed of 32 bytes, from the first one on.
    pub fn of(seed: &[u8]) -> SeededWords
        requires { length seed.now ≡ 32 }
        ensures { result ≡ of_seed seed.now }
    {
        let mut key = [0; 32];
        key.copy_from_slice(seed);
        SeededWords {
            seed: key,
            place: 0,
        }
    }
}

impl NextWord<u32> for SeededWords {
    ghost step = { next_word 10 };

    fn next_word(&mut self) -> u32 {
        let mut rng = ChaCha20Rng::from_seed(self.seed);
        rng.set_word_pos(self.place);
        let word = rng.next_word();
        self.place = rng.get_word_pos();
        word
    }
}

impl Rng for SeededWords {
    ghost stream = { stream_of (steps_u32 (next_word 10)) };

    fn next_u32(&mut self) -> u32 {
        self.next_word()
    }

    fn next_u64(&mut self) -> u64 {
        next_u64_via_u32(self)
    }

    fn fill_bytes(&mut self, dst: &mut [u8]) {
        fill_bytes_via_u32(self, dst)
    }
}
