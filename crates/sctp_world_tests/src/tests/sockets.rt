//! Sockets whose checksum is one word.

mod crossing;
mod memory;
mod opening;

use sctp_wire::Checksum;

/// The word 7, whatever the bytes are.
#[derive(Clone, Copy, Default, Drop)]
struct Seven;

impl Checksum for Seven {
    ghost word_of = { λ _ _. 7 };

    fn word(&self, _before: &[u8], _after: &[u8]) -> u32 {
        7
    }
}
