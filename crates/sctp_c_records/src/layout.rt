//! A struct of C as its bytes: each number at its place, low byte first.

ghost use Rattle.std.specs.Prelude.{◌≡◌, ◌+◌, ◌<◌, ◌≤◌, length};
ghost use Rattle.sctp_c_records.specs.Layout.{put_u8, put_u16, put_u32, put_u64, u16_in, u16_or, u32_in, u32_or, u64_in, u64_or};
ghost use Rattle.sctp_c_records.specs.Texts.{IsEnded};

fn u16_in(bytes: &[u8], at: usize) -> u16
    requires { at + 2 ≤ length bytes.now }
    ensures { result ≡ u16_in at bytes.now }
{
    bytes[at] as u16 + 256 * bytes[at + 1] as u16
}

fn u32_in(bytes: &[u8], at: usize) -> u32
    requires { at + 4 ≤ length bytes.now }
    ensures { result ≡ u32_in at bytes.now }
{
    u16_in(bytes, at) as u32 + 65_536 * u16_in(bytes, at + 2) as u32
}

fn u64_in(bytes: &[u8], at: usize) -> u64
    requires { at + 8 ≤ length bytes.now }
    ensures { result ≡ u64_in at bytes.now }
{
    u32_in(bytes, at) as u64 + 4_294_967_296 * u32_in(bytes, at + 4) as u64
}

/// The number that stands there, or the other one where the bytes end before.
pub(crate) fn u16_or(bytes: &[u8], at: usize, other: u16) -> u16
    requires { at < 1024 }
    ensures { result ≡ u16_or at other bytes.now }
{
    if at + 2 <= bytes.len() {
        u16_in(bytes, at)
    } else {
        other
    }
}

/// The number that stands there, or the other one where the bytes end before.
pub fn u32_or(bytes: &[u8], at: usize, other: u32) -> u32
    requires { at < 1024 }
    ensures { result ≡ u32_or at other bytes.now }
{
    if at + 4 <= bytes.len() {
        u32_in(bytes, at)
    } else {
        other
    }
}

/// The number that stands there, or the other one where the bytes end before.
pub fn u64_or(bytes: &[u8], at: usize, other: u64) -> u64
    requires { at < 1024 }
    ensures { result ≡ u64_or at other bytes.now }
{
    if at + 8 <= bytes.len() {
        u64_in(bytes, at)
    } else {
        other
    }
}

/// Writes a number, where there is a place.
pub(crate) fn put_u8(bytes: &mut [u8], at: usize, number: u8)
    ensures { bytes.new ≡ put_u8 at number bytes.old }
{
    if at < bytes.len() {
        bytes[at] = number;
    }
}

/// Writes a number, as far as there is a place.
pub(crate) fn put_u16(bytes: &mut [u8], at: usize, number: u16)
    requires { at < 1024 }
    ensures { bytes.new ≡ put_u16 at number bytes.old }
{
    put_u8(bytes, at, (number % 256) as u8);
    put_u8(bytes, at + 1, (number / 256) as u8);
}

fn set_u16(bytes: &mut [u8], at: usize, number: u16)
    requires { at + 2 ≤ length bytes.old }
    ensures { bytes.new ≡ put_u16 at number bytes.old }
{
    bytes[at] = (number % 256) as u8;
    bytes[at + 1] = (number / 256) as u8;
}

/// Writes a number where there is a place for all of it.
pub(crate) fn set_u32(bytes: &mut [u8], at: usize, number: u32)
    requires { at + 4 ≤ length bytes.old }
    ensures row { bytes.new ≡ put_u32 at number bytes.old }
{
    set_u16(bytes, at, (number % 65_536) as u16);
    set_u16(bytes, at + 2, (number / 65_536) as u16);
}

/// Writes a number where there is a place for all of it.
pub(crate) fn set_u64(bytes: &mut [u8], at: usize, number: u64)
    requires { at + 8 ≤ length bytes.old }
    ensures row { bytes.new ≡ put_u64 at number bytes.old }
{
    set_u32(bytes, at, (number % 4_294_967_296) as u32);
    set_u32(bytes, at + 4, (number / 4_294_967_296) as u32);
}

/// Writes a number, as far as there is a place: at once where there is one for all of it.
pub fn put_u32(bytes: &mut [u8], at: usize, number: u32)
    requires { at < 1022 }
    ensures { bytes.new ≡ put_u32 at number bytes.old }
{
    if at + 4 <= bytes.len() {
        set_u32(bytes, at, number);
    } else {
        put_u16(bytes, at, (number % 65_536) as u16);
        put_u16(bytes, at + 2, (number / 65_536) as u16);
    }
}

/// Writes a number, as far as there is a place.
pub fn put_u64(bytes: &mut [u8], at: usize, number: u64)
    requires { at < 1018 }
    ensures { bytes.new ≡ put_u64 at number bytes.old }
{
    put_u32(bytes, at, (number % 4_294_967_296) as u32);
    put_u32(bytes, at + 4, (number / 4_294_967_296) as u32);
}

/// Where a text begins.
pub(crate) fn place_of(text: &'static str) -> *const u8
    requires { IsEnded text.now }
{
    std::ptr::from_ref(&text.as_bytes()[0])
}
