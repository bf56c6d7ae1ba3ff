//! What is true of each ladder.

ghost use Rattle.sctp_trace.specs.Text.{EachLineFits, IsLine, heading};

/// Each line of a ladder is printable ASCII of at most 98 columns, whatever the rows say.
pub fn lines_fit()
    ensures heading { IsLine heading }
    ensures each { EachLineFits }
{}
