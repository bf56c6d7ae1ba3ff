//! Streams in either form.

use crate::answer::{Answer, Subject, done, run_commands};
use crate::output::Output;
use crate::receiver::pieces::{
    entries, entry, fragment, fragment_of, payload_of, show_message, show_next, stream_ids,
    stream_key,
};
use crate::receiver::stream::have_room;
use crate::words::{Line, Number, rest_of, word_at};
use sctp_packet::{Data, SkippedStream};
use sctp_rx::{ReadyMessages, ReassemblyStreams};
use sctp_serial::{Message, PpId, StreamId, StreamKey};
use std::alloc::{AllocError, Global};

/// A message whose fragments have one byte each, that of their TSN, or `long_byte` where they are more than a thousand: they have the TSNs
/// from the first one on.
#[derive(Clone, Copy)]
struct Row {
    key: StreamKey,
    number: u16,
    first: u64,
    count: u64,
}

/// Streams, the messages that are ready, and the messages whose fragments may come.
#[derive(Drop)]
struct Streams {
    streams: ReassemblyStreams,
    ready: ReadyMessages,
    rows: Vec<Row>,
}

/// Takes the commands of a script on streams.
pub fn run(line: &Line<'_>, script: &str, output: &mut Output) {
    let is_interleaved = line.word != "traditional";
    let streams = Streams {
        streams: ReassemblyStreams::new(output.alloc, is_interleaved),
        ready: ReadyMessages::new(output.alloc),
        rows: Vec::new(output.alloc),
    };
    run_commands(streams, script, output);
}

impl Subject for Streams {
    /// `next`; `ready PLACE`; `push STREAM HEX`: a message that is ready; `sizes`; `message STREAM NUMBER FIRST COUNT`: a message whose
    /// fragments may come; `come TSN ..`; `whole FIRST`: takes a message, and says whether it is one of more than a thousand fragments, from
    /// this TSN on; and changes, which are answered by how much there is then, as is `sums`.
    fn obey(&mut self, line: &Line<'_>, output: &mut Output) -> Answer {
        match line.name {
            "next" => return show_next(self.ready.pop(), output),
            "ready" => return show_message(self.ready.get(line.first.size), output),
            "push" => return push(&mut self.ready, line, output),
            "sizes" => return show_ready(&self.ready, output),
            "message" => {
                let row = Row {
                    key: stream_key(line.word),
                    number: line.second.half,
                    first: line.third.long,
                    count: line.fourth.long,
                };
                return done(self.rows.push(row));
            }
            "come" => return self.come(line, output),
            "whole" => return show_whole(self.ready.pop(), line.first.long, output),
            _ => self.change(line, output),
        }
        let sums = [
            self.ready.len() as u128,
            self.streams.queued_bytes() as u128,
        ];
        output.text("ready #, bytes #", &sums)
    }
}

impl Streams {
    /// `add TSN STREAM NUMBER FSN ENDS HEX`, `forward TSN ENTRY ..`, `skip ENTRY`, `reset STREAM ..`; `span FIRST LAST`: fragments come from
    /// one TSN to another, which may be less.
    fn change(&mut self, line: &Line<'_>, output: &mut Output) {
        match line.name {
            "add" => {
                let fragment = fragment_of(line, output);
                output.note(self.add(line.first.long, fragment));
            }
            "forward" => {
                let entries = entries(line, output);
                output.note(self.forward(output.alloc, line.first.long, &entries));
            }
            "skip" => output.note(self.skip(entry(line.word))),
            "span" => self.span(line.first.long, line.second.long, output),
            "reset" => {
                let ids = stream_ids(line, 1, output);
                self.streams.reset_streams(&ids);
            }
            _ => {}
        }
    }

    /// What there is no room for is not taken.
    fn add(&mut self, tsn: u64, fragment: Data) -> Result<(), AllocError> {
        let held = self.streams.queued_bytes();
        let has_room = have_room(held, &self.ready, fragment.payload.len());
        let is_most = self.streams.held_fragments() >= 1 << 40;
        if tsn >= 1 << 40 || !has_room || is_most {
            drop(fragment);
            return Ok(());
        }
        self.streams.add(tsn, fragment, &mut self.ready)
    }

    fn forward(
        &mut self,
        alloc: Global,
        tsn: u64,
        entries: &[SkippedStream],
    ) -> Result<(), AllocError> {
        if tsn >= 1 << 40 || !have_room(self.streams.queued_bytes(), &self.ready, 0) {
            return Ok(());
        }
        self.streams
            .handle_forward_tsn(alloc, tsn, entries, &mut self.ready)
    }

    fn skip(&mut self, entry: SkippedStream) -> Result<(), AllocError> {
        if !have_room(self.streams.queued_bytes(), &self.ready, 0) {
            return Ok(());
        }
        self.streams.skip(entry, &mut self.ready)
    }

    /// Fragments come: prints, for each, which messages become ready, which are taken, and how many bytes are held then.
    fn come(&mut self, line: &Line<'_>, output: &mut Output) -> Answer {
        for word in rest_of(line.text, 1) {
            self.come_once(Number::of(word).long, output);
            show_each(&mut self.ready, output);
            output.fill(" #", &[self.streams.queued_bytes() as u128]);
        }
        Answer::Text
    }

    fn come_once(&mut self, tsn: u64, output: &mut Output) {
        if let Some(fragment) = fragment_with(&self.rows, tsn, output) {
            output.note(self.add(tsn, fragment));
        }
    }

    fn span(&mut self, first: u64, last: u64, output: &mut Output) {
        for step in 0..first.abs_diff(last).saturating_add(1) {
            if first < last {
                self.come_once(first.saturating_add(step), output);
            } else {
                self.come_once(first.saturating_sub(step), output);
            }
        }
    }
}

/// The messages that are ready, which are taken.
fn show_each(ready: &mut ReadyMessages, output: &mut Output) {
    for _ in 0..ready.len() {
        output.push_str(" ");
        show_next(ready.pop(), output);
    }
}

/// The byte of a fragment of a long message, such that pieces of 512 fragments that change places show.
fn long_byte(tsn: u64) -> u8 {
    (tsn % 251) as u8
}

fn show_whole(message: Option<Message>, first: u64, output: &mut Output) -> Answer {
    let Some(message) = message else {
        return Answer::Nothing;
    };
    let (mut tsn, mut is_whole) = (first, true);
    for byte in &message.payload {
        is_whole &= *byte == long_byte(tsn);
        tsn = tsn.saturating_add(1);
    }
    let numbers = [
        message.stream_id.0 as u128,
        message.ppid.0 as u128,
        message.payload.len() as u128,
        is_whole as u128,
    ];
    drop(message);
    output.text("#/# of # bytes, whole ?", &numbers)
}

fn push(ready: &mut ReadyMessages, line: &Line<'_>, output: &mut Output) -> Answer {
    let payload = payload_of(word_at(line.text, 2), output);
    if !have_room(0, ready, payload.len()) {
        drop(payload);
        return Answer::Refused;
    }
    let id = StreamId(line.first.half);
    output.note(ready.push(Message::new(id, PpId(53), payload)));
    show_ready(ready, output)
}

fn show_ready(ready: &ReadyMessages, output: &mut Output) -> Answer {
    let sums = [ready.len() as u128, ready.total_bytes() as u128];
    output.text("ready #, their bytes #", &sums)
}

/// The fragment with the TSN, of the last message that was named and has it.
fn fragment_with(rows: &[Row], tsn: u64, output: &mut Output) -> Option<Data> {
    let mut found = None;
    for row in rows {
        if row.first <= tsn && tsn.saturating_sub(row.first) < row.count {
            found = Some(*row);
        }
    }
    let row = found?;
    let place = tsn.saturating_sub(row.first);
    let ends = match (place == 0, place == row.count.saturating_sub(1)) {
        (true, true) => "be",
        (true, false) => "b",
        (false, true) => "e",
        (false, false) => "-",
    };
    let mut payload = Vec::new(output.alloc);
    let byte = if row.count > 1000 {
        long_byte(tsn)
    } else {
        (tsn % 256) as u8
    };
    output.note(payload.push(byte));
    let fsn = u32::try_from(place).unwrap_or(u32::MAX);
    Some(fragment(row.key, row.number, fsn, ends, payload))
}
