//! What the two sockets of a script are made with.

use crate::output::Output;
use crate::payload::{half_at, number_at, word_at, words_of};
use sctp_state::Options;
use std::alloc::Global;

/// The options of an end, and the words that it draws: the first one, and how much each is above the one before.
#[derive(Clone, Copy)]
pub struct EndSetup {
    pub options: Options,
    pub first: u32,
    pub stride: u32,
}

impl EndSetup {
    fn new(first: u32, stride: u32) -> EndSetup {
        EndSetup {
            options: Options::default(),
            first,
            stride,
        }
    }

    /// `words FIRST STRIDE`, `mtu BYTES`, `window BYTES`, `holds FRAGMENTS`, `burst PACKETS`, `interleaves`, `is-reliable`,
    /// `hands-over-data`, `avoids-stalls`. Answers whether it is one of these.
    fn sets(&mut self, verb: &str, rest: &[&str]) -> bool {
        match verb {
            "words" => {
                self.first = word_at(rest, 0);
                self.stride = word_at(rest, 1);
            }
            "mtu" => self.options.mtu = number_at(rest, 0) as usize,
            "window" => {
                self.options.max_receiver_window_buffer_size = number_at(rest, 0) as usize
            }
            "holds" => self.options.max_held_fragments = Some(number_at(rest, 0) as usize),
            "burst" => self.options.max_burst = i32::from(half_at(rest, 0)),
            "interleaves" => self.options.enable_message_interleaving = true,
            "is-reliable" => self.options.enable_partial_reliability = false,
            "hands-over-data" => self.options.enable_handover_with_outstanding_data = true,
            "avoids-stalls" => self.options.avoid_stalls = true,
            _ => return false,
        }
        true
    }
}

/// Both ends.
#[derive(Clone, Copy)]
pub struct Setup {
    pub a: EndSetup,
    pub b: EndSetup,
}

impl Setup {
    /// With default options.
    pub fn new() -> Setup {
        Setup {
            a: EndSetup::new(456, 7),
            b: EndSetup::new(5, 11),
        }
    }

    /// `make X` and what `sets` takes. Answers whether the words are such ones.
    pub fn takes(&mut self, words: &[&str]) -> bool {
        match words {
            ["make", end, verb, rest @ ..] => {
                if *end == "a" {
                    self.a.sets(verb, rest)
                } else {
                    self.b.sets(verb, rest)
                }
            }
            _ => false,
        }
    }

    fn take_line(&mut self, alloc: Global, line: &str, output: &mut Output) {
        let words = words_of(alloc, line, output);
        self.takes(&words);
        drop(words);
    }
}

/// What the lines say that begin with `make`.
pub fn setup_of(alloc: Global, lines: &str, output: &mut Output) -> Setup {
    let mut setup = Setup::new();
    for line in lines.lines() {
        setup.take_line(alloc, line, output);
    }
    setup
}
