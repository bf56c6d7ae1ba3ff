//! CRC32c, the checksum of a packet on the wire (RFC 9260 appendix A), sixteen bytes at a time.
#![tactic(auto)]

ghost use Rattle.std.specs.Prelude.{◌≡◌, ◌<◌, ◌≤◌, [], ◌∷◌, suc};
ghost use Rattle.sctp_crc32c.specs.Crc32c.{take_byte, take_zeros, tables, remainder, crc32c, crc32c_word};

mod entries;

use entries::TABLES;
use sctp_wire::Checksum;

/// All bits set.
const START: u32 = 0xffff_ffff;

/// CRC32c as the checksum of packets.
#[derive(Clone, Copy, Debug, PartialEq, Eq, Default)]
pub struct Crc32c;

impl Checksum for Crc32c {
    ghost word_of = { λ _ bytes. crc32c_word bytes };

    fn word(&self, before: &[u8], after: &[u8]) -> u32 {
        let word = remainder(START, before);
        let word = remainder(word, &[0, 0, 0, 0]);
        (!remainder(word, after)).swap_bytes()
    }
}

/// The CRC32c of the bytes, its lowest byte the first that is written.
pub fn crc32c_of(bytes: &[u8]) -> u32
    ensures { result ≡ crc32c bytes.now }
{
    !remainder(START, bytes)
}

/// The remainder of the bytes behind this word.
fn remainder(start: u32, bytes: &[u8]) -> u32
    ensures { result ≡ remainder start bytes.now }
{
    let entries = tables();
    let mut word = start;
    let mut rest = bytes;
    while let [a, b, c, d, e, f, g, h, i, j, k, l, m, n, o, p, tail @ ..] = rest {
        let front = behind(entries, 12, word, (*a, *b, *c, *d));
        let second = four(entries, 8, (*e, *f, *g, *h));
        let third = four(entries, 4, (*i, *j, *k, *l));
        let last = four(entries, 0, (*m, *n, *o, *p));
        word = front ^ (second ^ (third ^ last));
        rest = tail;
    }
    while let [b0, b1, b2, b3, tail @ ..] = rest {
        word = behind(entries, 0, word, (*b0, *b1, *b2, *b3));
        rest = tail;
    }
    for byte in rest {
        word = take_byte(entries, word, *byte);
    }
    word
}

/// Four bytes behind the word, and so many zeros behind them.
fn behind(entries: &[u32; 4096], zeros: usize, word: u32, bytes: (u8, u8, u8, u8)) -> u32
    requires tables { entries.now ≡ tables }
    requires few { zeros ≤ 12 }
    ensures { result ≡ take_zeros zeros (remainder word (bytes.0 ∷ bytes.1 ∷ bytes.2 ∷ bytes.3 ∷ [])) }
{
    let parts = word.to_le_bytes();
    let sums = (
        bytes.0 ^ parts[0],
        bytes.1 ^ parts[1],
        bytes.2 ^ parts[2],
        bytes.3 ^ parts[3],
    );
    four(entries, zeros, sums)
}

/// Four bytes behind the word 0, and so many zeros behind them.
fn four(entries: &[u32; 4096], zeros: usize, bytes: (u8, u8, u8, u8)) -> u32
    requires tables { entries.now ≡ tables }
    requires few { zeros ≤ 12 }
    ensures { result ≡ take_zeros zeros (remainder 0 (bytes.0 ∷ bytes.1 ∷ bytes.2 ∷ bytes.3 ∷ [])) }
{
    let e0 = entry(entries, zeros + 3, bytes.0);
    let e1 = entry(entries, zeros + 2, bytes.1);
    let e2 = entry(entries, zeros + 1, bytes.2);
    let e3 = entry(entries, zeros, bytes.3);
    e0 ^ (e1 ^ (e2 ^ e3))
}

fn take_byte(entries: &[u32; 4096], word: u32, byte: u8) -> u32
    requires { entries.now ≡ tables }
    ensures { result ≡ take_byte word byte }
{
    let place = (word ^ byte as u32) & 255;
    entries[place as usize] ^ (word >> 8)
}

/// The byte, and so many zeros behind it.
fn entry(entries: &[u32; 4096], zeros: usize, byte: u8) -> u32
    requires tables { entries.now ≡ tables }
    requires few { zeros < 16 }
    ensures { result ≡ take_zeros (suc zeros) byte }
{
    entries[256 * zeros + byte as usize]
}

/// The tables.
#[tactic(auto, unfolding(crate::specs::Crc32c::tables, crate::specs::Crc32c::take_zeros, crate::specs::Crc32c::take_bits, crate::specs::Crc32c::take_bit))]
fn tables() -> &'static [u32; 4096]
    ensures { result.now ≡ tables }
{
    &TABLES
}
