//! A conversation as rows, drawn.

use crate::answer::Answer;
use crate::output::Output;
use crate::words::{Line, bytes_of, cut};
use sctp_trace::{CaptureError, End, Row, What, capture, chart, ladder, packet_label};

/// Draws the rows so far.
pub fn draw(rows: &[Row], format: &str, output: &mut Output) -> Answer {
    let drawing = match format {
        "ladder" => ladder(output.alloc, rows),
        "chart" => chart(output.alloc, rows),
        _ => match capture(output.alloc, rows) {
            Ok(bytes) => return output.hex_line(&bytes),
            Err(CaptureError::Memory) => return Answer::NoMemory,
            Err(CaptureError::TooLong) => return Answer::Unknown,
        },
    };
    let bytes = output.made(drawing);
    output.push_str(str::from_utf8(&bytes).unwrap_or("?\n"));
    Answer::Done
}

/// The row that the line is, `None` where it has no such form.
pub fn row_of(line: &Line<'_>, output: &mut Output) -> Option<Row> {
    let (end, rest) = line.rest.split_once(' ')?;
    let (nanoseconds, rest) = rest.split_once(' ')?;
    let end = end_of(end)?;
    let nanoseconds = nanoseconds.parse::<u64>().ok()?;
    let what = what_of(line.name, rest, output)?;
    Some(Row {
        end,
        nanoseconds,
        what,
    })
}

fn end_of(word: &str) -> Option<End> {
    match word {
        "a" => Some(End::A),
        "b" => Some(End::B),
        _ => None,
    }
}

/// What the row shows.
fn what_of(kind: &str, rest: &str, output: &mut Output) -> Option<What> {
    match kind {
        "sent" => {
            let (number, digits) = cut(rest, ' ');
            let number = number.parse::<usize>().ok()?;
            let bytes = bytes_of(digits, output)?;
            let label = output.made_text(packet_label(output.alloc, &bytes));
            Some(What::Sent(number, bytes, label))
        }
        "given" => Some(What::Given(rest.parse::<usize>().ok()?)),
        _ => Some(What::Note(output.made_text(String::from_str(output.alloc, rest)))),
    }
}
