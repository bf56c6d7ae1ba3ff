//! Flags as they are shown.

ghost use Rattle.std.specs.Prelude.{◌≡◌, ◌||◌, Some};
ghost use Rattle.sctp_chunk.specs.ChunkText.{letter, fragment_flags_text};

use std::fmt;

/// The flags of DATA and I-DATA that are set.
#[derive(Clone, Copy)]
pub struct FragmentFlags {
    pub immediate: bool,
    pub unordered: bool,
    pub beginning: bool,
    pub end: bool,
}

impl fmt::Display for FragmentFlags {
    ghost output = { λ x. Some (fragment_flags_text x.immediate x.unordered x.beginning x.end) };

    fn fmt<W: fmt::Write>(&self, f: &mut fmt::Formatter<W>) -> fmt::Result {
        if !self.is_some() {
            return Ok(());
        }
        let immediate = letter(self.immediate, "I");
        let unordered = letter(self.unordered, "U");
        let beginning = letter(self.beginning, "B");
        let end = letter(self.end, "E");
        write!(f, ", flags={immediate}{unordered}{beginning}{end}")
    }
}

impl FragmentFlags {
    fn is_some(self) -> bool
        ensures { result ≡ (self.immediate || (self.unordered || (self.beginning || self.end))) }
    {
        self.immediate || self.unordered || self.beginning || self.end
    }
}

fn letter(is_set: bool, text: &'static str) -> &'static str
    ensures { result.now ≡ letter is_set text.now }
{
    if is_set { text } else { "" }
}
