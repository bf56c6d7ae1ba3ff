//! What happened, row by row.

ghost use Rattle.std.specs.Prelude.{◌≡◌, ◌&&◌, ◌==◌};
ghost use Rattle.sctp_trace.specs.Rows.{other, end_name, sends, is_given};

/// One of the two ends; the lifeline of `A` is the left one.
#[derive(Clone, Copy, Debug, PartialEq, Eq)]
pub enum End {
    A,
    B,
}

impl End {
    /// The end's name.
    pub fn name(self) -> &'static str
        ensures { result.now ≡ end_name self }
    {
        match self {
            End::A => "a",
            End::B => "b",
        }
    }

    /// The other end.
    pub fn other(self) -> End
        ensures { result ≡ other self }
    {
        match self {
            End::A => End::B,
            End::B => End::A,
        }
    }
}

/// What a row shows.
#[derive(Debug, Drop)]
pub enum What {
    /// The end sent its packet of this number, from 0 on: its bytes, and its chunks in a few words.
    Sent(usize, Vec<u8>, String),
    /// The packet of this number of the other end was given to this one.
    Given(usize),
    /// A call, an event, a message or a state.
    Note(String),
}

/// What happened at an end, and when by its clock, in nanoseconds.
#[derive(Debug, Drop)]
pub struct Row {
    pub end: End,
    pub nanoseconds: u64,
    pub what: What,
}

impl Row {
    /// Whether the end sends its packet of this number here.
    pub fn sends(&self, from: End, number: usize) -> bool
        ensures { result ≡ sends from number self.now }
    {
        match &self.what {
            What::Sent(sent, _, _) => self.end == from && *sent == number,
            _ => false,
        }
    }

    /// Whether the packet of this number that `from` sent is given here.
    pub fn is_given(&self, from: End, number: usize) -> bool
        ensures { result ≡ is_given from number self.now }
    {
        match &self.what {
            What::Given(given) => self.end == from.other() && *given == number,
            _ => false,
        }
    }
}
