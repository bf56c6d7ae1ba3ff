//! A generator whose words are known.

ghost use Rattle.std.specs.Prelude.{ℕ, ◌+◌, ◌%◌, ◌^◌};
ghost use Rattle.rand_core.specs.Steps.{stream_of, steps_u32};

use rand_core::Rng;
use rand_core::utils::{self, NextWord};
use std::marker::Model;

/// The word `next`, and from then on each word `stride` above the one before.
#[derive(Drop)]
pub struct Words {
    next: u32,
    stride: u32,
}

impl Model for Words {
    ghost use Rattle.std.specs.Prelude.{ℕ};

    ghost Value = { ℕ × ℕ };

    ghost view = { λ w. (w.next, w.stride) };
}

/// A generator that is made of its first word, and of how much each is above the one before.
pub trait Known: Rng {
    fn known(first: u32, stride: u32) -> Self;
}

impl Known for Words {
    fn known(first: u32, stride: u32) -> Words {
        Words {
            next: first,
            stride,
        }
    }
}

impl NextWord<u32> for Words {
    ghost step = { λ s. (s.0, ((s.0 + s.1) % 2 ^ 32, s.1)) };

    fn next_word(&mut self) -> u32 {
        let word = self.next;
        self.next = word.wrapping_add(self.stride);
        word
    }
}

impl Rng for Words {
    ghost stream = { stream_of (steps_u32 (λ (s : ℕ × ℕ). (s.0, ((s.0 + s.1) % 2 ^ 32, s.1)))) };

    fn next_u32(&mut self) -> u32 {
        self.next_word()
    }

    fn next_u64(&mut self) -> u64 {
        utils::next_u64_via_u32(self)
    }

    fn fill_bytes(&mut self, dst: &mut [u8]) {
        utils::fill_bytes_via_u32(self, dst)
    }
}
