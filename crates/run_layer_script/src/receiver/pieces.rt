//! Fragments and messages, as words say them.

use crate::answer::Answer;
use crate::output::Output;
use crate::words::{Line, Number, bytes_of, rest_of, word_at};
use sctp_packet::{Data, SkippedStream};
use sctp_serial::{Fsn, Message, Mid, PpId, Ssn, StreamId, StreamKey};

/// `o3` is the ordered stream 3, and `u3` the unordered one.
pub fn stream_key(word: &str) -> StreamKey {
    let id = match word.strip_prefix('u') {
        Some(id) => id,
        None => word.strip_prefix('o').unwrap_or(word),
    };
    StreamKey::new(word.starts_with('u'), StreamId(Number::of(id).half))
}

/// `o3:7` or `u3:7` is an entry of I-FORWARD-TSN, `3:7` one of FORWARD-TSN.
pub fn entry(word: &str) -> SkippedStream {
    let (stream, number) = word.split_once(':').unwrap_or((word, ""));
    let number = Number::of(number);
    match stream.parse::<u16>() {
        Ok(id) => SkippedStream::ForwardTsn(StreamId(id), Ssn(number.half)),
        Err(_) => SkippedStream::IForwardTsn(stream_key(stream), Mid(number.word)),
    }
}

/// The entries behind the first two words.
pub fn entries(line: &Line<'_>, output: &mut Output) -> Vec<SkippedStream> {
    let mut entries = Vec::new(output.alloc);
    for word in rest_of(line.text, 2) {
        output.note(entries.push(entry(word)));
    }
    entries
}

/// The streams from the place on.
pub fn stream_ids(line: &Line<'_>, place: u8, output: &mut Output) -> Vec<StreamId> {
    let mut ids = Vec::new(output.alloc);
    for word in rest_of(line.text, place) {
        output.note(ids.push(StreamId(Number::of(word).half)));
    }
    ids
}

/// The bytes that hex digits say, none where the word has others.
pub fn payload_of(digits: &str, output: &mut Output) -> Vec<u8> {
    bytes_of(digits, output).unwrap_or(Vec::new(output.alloc))
}

/// A fragment of message `number`, with a protocol id where the message begins. It begins and ends with `be`; `b` is the first
/// fragment, `e` the last one, `-` one in the middle.
pub fn fragment(key: StreamKey, number: u16, fsn: u32, ends: &str, payload: Vec<u8>) -> Data {
    let is_beginning = ends.starts_with('b');
    Data {
        stream_key: key,
        ssn: Ssn(number),
        mid: Mid(number as u32),
        fsn: Fsn(fsn),
        ppid: PpId(if is_beginning { 53 } else { 0 }),
        payload,
        is_beginning,
        is_end: ends.ends_with('e'),
    }
}

/// The fragment of a command `NAME TSN STREAM NUMBER FSN ENDS HEX`.
pub fn fragment_of(line: &Line<'_>, output: &mut Output) -> Data {
    let key = stream_key(word_at(line.text, 2));
    let payload = payload_of(word_at(line.text, 6), output);
    let ends = word_at(line.text, 5);
    fragment(key, line.third.half, line.fourth.word, ends, payload)
}

/// The fragment of a command `NAME NUMBER INDEX ENDS HEX`. Its FSN is the index.
pub fn piece(line: &Line<'_>, output: &mut Output) -> Data {
    let key = StreamKey::Unordered(StreamId(1));
    let payload = payload_of(word_at(line.text, 4), output);
    fragment(key, 0, line.second.word, word_at(line.text, 3), payload)
}

/// A message as `STREAM/PROTOCOL:HEX`.
pub fn show_message(message: Option<&Message>, output: &mut Output) -> Answer {
    let Some(message) = message else {
        return Answer::Nothing;
    };
    let names = [message.stream_id.0 as u128, message.ppid.0 as u128];
    output.fill("#/#:", &names);
    output.push_hex(&message.payload);
    Answer::Text
}

/// A message that was taken.
pub fn show_next(message: Option<Message>, output: &mut Output) -> Answer {
    let answer = show_message(message.as_ref(), output);
    drop(message);
    answer
}
