//! The flag T: the packet's tag is the one that the answered packet had.

ghost use Rattle.std.specs.Prelude.{◌≡◌};
ghost use Rattle.sctp_chunk.specs.Written.{flag, reflected_flag};
ghost use Rattle.sctp_chunk.specs.ChunkText.{reflected_text};

const FLAG_REFLECTED: u8 = 1;

/// Whether it is set.
pub fn is_reflected(flags: u8) -> bool
    ensures { result ≡ flag flags 1 }
{
    flags & FLAG_REFLECTED != 0
}

/// The flags of a chunk that has this one alone.
pub fn reflected_flag(tag_reflected: bool) -> u8
    ensures { result ≡ reflected_flag tag_reflected }
{
    if tag_reflected { FLAG_REFLECTED } else { 0 }
}

/// The flag as it is shown, where it is set.
pub fn reflected_text(tag_reflected: bool) -> &'static str
    ensures { result.now ≡ reflected_text tag_reflected }
{
    if tag_reflected { ", flags=T" } else { "" }
}
