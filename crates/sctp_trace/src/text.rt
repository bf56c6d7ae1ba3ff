//! The rows as text of at most 98 columns: what a says, two lifelines with the packets between them, what b says.

ghost use Rattle.std.specs.Prelude.{◌≡◌, ◌++◌, map, take, replicate, OnOk, IfOk, string_bytes};
ghost use Rattle.sctp_trace.specs.Ascii.{plain};
ghost use Rattle.sctp_trace.specs.Followed.{IsFollowed};
ghost use Rattle.sctp_trace.specs.Text.{left_cell, right_cell, mark, sent_caption, given_caption, arrow_head, packet_cell, lifelines, note_cell, note_line, packet_line, line_of, heading, ladder_text};

use crate::conversation::Conversation;
use crate::rows::{End, Row, What};
use crate::xml::plain;
use std::alloc::{AllocError, Global};

const NOTE_WIDTH: usize = 29;

const ARROW_WIDTH: usize = 36;

const CAPTION_WIDTH: usize = 34;

fn push_spaces(text: &mut Vec<u8>, count: usize) -> Result<(), AllocError>
    ensures { OnOk result (text.new.items ≡ text.old.items ++ replicate count 32) }
{
    for _ in 0..count {
        text.push(b' ')?;
    }
    Ok(())
}

/// As many bytes as fit the width.
fn front(words: &[u8], width: usize) -> &[u8]
    ensures { result.now ≡ take width words.now }
{
    if words.len() <= width {
        return words;
    }
    &words[..width]
}

fn push_plain(text: &mut Vec<u8>, words: &[u8]) -> Result<(), AllocError>
    ensures { OnOk result (text.new.items ≡ text.old.items ++ map plain words.now) }
{
    for byte in words {
        text.push(plain(*byte))?;
    }
    Ok(())
}

/// The front of the words, and spaces behind it up to the width.
fn push_left(text: &mut Vec<u8>, width: usize, words: &[u8]) -> Result<(), AllocError>
    ensures { OnOk result (text.new.items ≡ text.old.items ++ left_cell width words.now) }
{
    push_plain(text, front(words, width))?;
    push_spaces(text, width.saturating_sub(words.len()))
}

/// The front of the words, and spaces before it up to the width.
fn push_right(text: &mut Vec<u8>, width: usize, words: &[u8]) -> Result<(), AllocError>
    ensures { OnOk result (text.new.items ≡ text.old.items ++ right_cell width words.now) }
{
    push_spaces(text, width.saturating_sub(words.len()))?;
    push_plain(text, front(words, width))
}

fn mark(times: usize) -> &'static str
    ensures { result.now ≡ mark times }
{
    match times {
        0 => " lost: ",
        1 => ": ",
        _ => " twice: ",
    }
}

fn sent_caption(
    alloc: Global,
    number: usize,
    times: usize,
    label: &str,
) -> Result<String, AllocError>
    ensures { IfOk result (λ t. string_bytes t ≡ sent_caption number times label.now) }
{
    let mark = mark(times);
    format!(in alloc; " {number}{mark}{label} ")
}

fn given_caption(alloc: Global, number: usize) -> Result<String, AllocError>
    ensures { IfOk result (λ t. string_bytes t ≡ given_caption number) }
{
    format!(in alloc; " {number} ")
}

/// The two signs of an arrow's head.
fn arrow_head(end: End) -> &'static [u8]
    ensures { result.now ≡ arrow_head end }
{
    match end {
        End::A => b"<-",
        End::B => b"->",
    }
}

/// The signs at the end's lifeline, and the caption beside them.
fn push_cell(text: &mut Vec<u8>, end: End, signs: &[u8], caption: &[u8]) -> Result<(), AllocError>
    ensures { OnOk result (text.new.items ≡ text.old.items ++ packet_cell end signs.now caption.now) }
{
    match end {
        End::A => {
            text.extend_from_slice(signs)?;
            push_left(text, CAPTION_WIDTH, caption)
        }
        End::B => {
            push_right(text, CAPTION_WIDTH, caption)?;
            text.extend_from_slice(signs)
        }
    }
}

fn push_packet(text: &mut Vec<u8>, end: End, signs: &[u8], caption: &[u8]) -> Result<(), AllocError>
    ensures { OnOk result (text.new.items ≡ text.old.items ++ packet_line (packet_cell end signs.now caption.now)) }
{
    push_spaces(text, NOTE_WIDTH)?;
    text.extend_from_slice(b" |")?;
    push_cell(text, end, signs, caption)?;
    text.extend_from_slice(b"|\n")
}

fn push_lifelines(text: &mut Vec<u8>) -> Result<(), AllocError>
    ensures { OnOk result (text.new.items ≡ text.old.items ++ lifelines) }
{
    text.extend_from_slice(b" |")?;
    push_spaces(text, ARROW_WIDTH)?;
    text.extend_from_slice(b"|")
}

/// What b says, behind a space.
fn push_note(text: &mut Vec<u8>, words: &[u8]) -> Result<(), AllocError>
    ensures { OnOk result (text.new.items ≡ text.old.items ++ note_cell words.now) }
{
    text.extend_from_slice(b" ")?;
    push_plain(text, front(words, NOTE_WIDTH))
}

fn push_note_line(text: &mut Vec<u8>, end: End, words: &[u8]) -> Result<(), AllocError>
    ensures { OnOk result (text.new.items ≡ text.old.items ++ note_line end words.now) }
{
    match end {
        End::A => {
            push_right(text, NOTE_WIDTH, words)?;
            push_lifelines(text)?;
            text.extend_from_slice(b"\n")
        }
        End::B => {
            push_spaces(text, NOTE_WIDTH)?;
            push_lifelines(text)?;
            push_note(text, words)?;
            text.extend_from_slice(b"\n")
        }
    }
}

fn push_line(
    text: &mut Vec<u8>,
    alloc: Global,
    conversation: &Conversation,
    row: &Row,
) -> Result<(), AllocError>
    requires { IsFollowed conversation.now }
    ensures { OnOk result (text.new.items ≡ text.old.items ++ line_of conversation.now.rows.now row.now) }
{
    match &row.what {
        What::Sent(number, _, label) => {
            let times = conversation.times_given(row.end, *number);
            let caption = sent_caption(alloc, *number, times, label)?;
            push_packet(text, row.end, b"--", caption.as_bytes())
        }
        What::Given(number) => {
            let caption = given_caption(alloc, *number)?;
            push_packet(text, row.end, arrow_head(row.end), caption.as_bytes())
        }
        What::Note(words) => push_note_line(text, row.end, words.as_bytes()),
    }
}

/// The ends' names over their lifelines.
fn push_heading(text: &mut Vec<u8>) -> Result<(), AllocError>
    ensures { OnOk result (text.new.items ≡ text.old.items ++ heading) }
{
    push_right(text, NOTE_WIDTH, b"a")?;
    push_lifelines(text)?;
    text.extend_from_slice(b" b\n")
}

fn lines(alloc: Global, conversation: &Conversation) -> Result<Vec<u8>, AllocError>
    requires { IsFollowed conversation.now }
    ensures { IfOk result (λ text. text.items ≡ ladder_text conversation.now.rows.now) }
{
    let mut text = Vec::new(alloc);
    push_heading(&mut text)?;
    for row in conversation.rows {
        push_line(&mut text, alloc, conversation, row)?;
    }
    Ok(text)
}

/// A line a row, under the ends' names. What is longer than its column is cut; bytes that are no printable ASCII are question marks.
pub fn ladder(alloc: Global, rows: &[Row]) -> Result<Vec<u8>, AllocError>
    ensures { IfOk result (λ text. text.items ≡ ladder_text rows.now) }
{
    let conversation = Conversation::of(alloc, rows)?;
    let text = lines(alloc, &conversation);
    drop(conversation);
    text
}
