//! What the random words of the generator stand for.

ghost use Rattle.std.specs.Prelude.{◌≡◌};
ghost use Rattle.spec_endpoint.specs.Opening as table;

use sctp_serial::Tsn;

/// The first TSN that a word stands for: never the last one.
pub fn tsn_from(word: u32) -> Tsn
    ensures { result.0 ≡ table.tsn_from word }
{
    Tsn(word % 0xffff_ffff)
}

/// The tag that a word stands for: never the last one, nor 0, under which an INIT alone is sent (RFC 9260 section 3.3.2).
pub fn tag_from(word: u32) -> u32
    ensures { result ≡ table.tag_from word }
{
    1 + word % 0xffff_fffe
}
