//! What happens to the sockets: a call or a question a line. `X` is `a` or `b`, `Y` the other end.

use crate::driven::Driven;
use crate::emitted::{show_message, show_refusal, take_emitted};
use crate::exchange::exchange;
use crate::output::Output;
use crate::payload::{
    are_numbers, half_at, number_at, number_behind, payload, text_at, word_at, words_of,
};
use crate::questions::{ask, ask_with, show_judgement};
use crate::setup::{EndSetup, Setup};
use crate::side::Side;
use sctp_serial::{LifecycleId, Message, PpId, SocketTime, StreamId};
use sctp_state::api::handover::HandoverSocketState;
use sctp_state::{HandoverError, SendOptions, SocketHandoverState};
use std::alloc::Global;
use std::time::Duration;

/// `[life MS] [rtx N] [id N]`
fn options_of(words: &[&str]) -> SendOptions {
    let mut options = SendOptions::default();
    if let Some(millis) = number_behind(words, "life") {
        options.lifetime = Some(Duration::from_millis(millis));
    }
    if let Some(count) = number_behind(words, "rtx") {
        options.max_retransmissions = u16::try_from(count).ok();
    }
    if let Some(number) = number_behind(words, "id") {
        options.lifecycle_id = LifecycleId::new(number);
    }
    options
}

/// `S P` and the word of a payload.
fn message_of(alloc: Global, words: &[&str], word: &str, output: &mut Output) -> Message {
    let payload = payload(alloc, word, output);
    Message::new(
        StreamId(half_at(words, 0)),
        PpId(word_at(words, 1)),
        payload,
    )
}

/// `S P PAYLOAD [life MS] [rtx N] [id N]`
fn send<S: Driven>(alloc: Global, side: &mut Side<S>, words: &[&str], output: &mut Output) {
    let message = message_of(alloc, words, text_at(words, 2), output);
    let answer = side.socket.send(message, &options_of(words));
    show_refusal(side.name, answer, output);
}

fn messages_of(alloc: Global, words: &[&str], output: &mut Output) -> Vec<Message> {
    let mut messages = Vec::new(alloc);
    for word in words.iter().skip(2) {
        let message = message_of(alloc, words, word, output);
        output.note(messages.push(message));
    }
    messages
}

/// `S P PAYLOAD ..`: many messages at once.
fn send_many<S: Driven>(alloc: Global, side: &mut Side<S>, words: &[&str], output: &mut Output) {
    let messages = messages_of(alloc, words, output);
    let answer = side.socket.send_many(messages, &SendOptions::default());
    show_refusal(side.name, answer, output);
}

fn streams_of(alloc: Global, first: u16, count: u16, output: &mut Output) -> Vec<StreamId> {
    let mut streams = Vec::new(alloc);
    let mut stream = first;
    for _ in 0..count {
        output.note(streams.push(StreamId(stream)));
        stream = stream.wrapping_add(1);
    }
    streams
}

/// `S COUNT`: so many streams, from this one on.
fn reset<S: Driven>(alloc: Global, side: &mut Side<S>, words: &[&str], output: &mut Output) {
    let streams = streams_of(alloc, half_at(words, 0), half_at(words, 1), output);
    let answer = side.socket.reset_streams(&streams);
    drop(streams);
    show_refusal(side.name, answer, output);
}

fn receive<S: Driven>(side: &mut Side<S>, output: &mut Output) {
    let message = side.socket.get_next_message();
    show_message(side.name, "message", message.as_ref(), output);
}

/// A new socket takes the place of this one, with its options and its record.
fn renew<S: Driven>(
    alloc: Global,
    side: &mut Side<S>,
    state: &SocketHandoverState,
    output: &mut Output,
) {
    take_emitted(side, false, output);
    let setup = EndSetup {
        options: side.socket.options(),
        first: 3,
        stride: 3,
    };
    match S::made(alloc, "new", &setup) {
        Ok(new) => {
            std::mem::replace(&mut side.socket, new).let_go();
            show_refusal(side.name, side.socket.restore_from_state(state), output);
        }
        Err(fault) => output.note(Err(fault)),
    }
}

/// The socket is handed over to a new one; where it isn't ready, it says why.
fn replace<S: Driven>(alloc: Global, side: &mut Side<S>, output: &mut Output) {
    match side.socket.get_handover_state_and_close() {
        Ok(state) => {
            renew(alloc, side, &state, output);
            drop(state);
        }
        Err(HandoverError::NotReady(readiness)) => {
            writeln!(output, "{} is not ready: {readiness}", side.name);
        }
        Err(fault) => writeln!(output, "{} refused {fault:?}", side.name),
    }
}

/// The record of a closed socket, or one that says that it is connected and nothing more.
fn restore<S: Driven>(
    alloc: Global,
    side: &mut Side<S>,
    socket_state: HandoverSocketState,
    output: &mut Output,
) {
    let mut state = SocketHandoverState::empty(alloc);
    state.socket_state = socket_state;
    let answer = side.socket.restore_from_state(&state);
    drop(state);
    show_refusal(side.name, answer, output);
}

/// A call without further words. Answers whether it was understood.
fn call<S: Driven>(alloc: Global, side: &mut Side<S>, verb: &str, output: &mut Output) -> bool {
    match verb {
        "connect" => show_refusal(side.name, side.socket.connect(), output),
        "shutdown" => show_refusal(side.name, side.socket.shutdown(), output),
        "close" => show_refusal(side.name, side.socket.close(), output),
        "recv" => receive(side, output),
        "replace" => replace(alloc, side, output),
        "restore-closed" => restore(alloc, side, HandoverSocketState::Closed, output),
        "restore-connected" => restore(alloc, side, HandoverSocketState::Connected, output),
        _ => return ask(side, verb, output),
    }
    true
}

/// `S P`
fn set_priority<S: Driven>(side: &mut Side<S>, words: &[&str], output: &mut Output) {
    let stream = StreamId(half_at(words, 0));
    let answer = side.socket.set_stream_priority(stream, half_at(words, 1));
    show_refusal(side.name, answer, output);
}

/// `S BYTES`
fn set_threshold<S: Driven>(side: &mut Side<S>, words: &[&str], output: &mut Output) {
    let (stream, bytes) = (StreamId(half_at(words, 0)), word_at(words, 1) as usize);
    let answer = side.socket.set_buffered_amount_low_threshold(stream, bytes);
    show_refusal(side.name, answer, output);
}

/// `BYTES`
fn set_limit<S: Driven>(side: &mut Side<S>, bytes: u32, output: &mut Output) {
    side.socket.set_max_message_size(bytes as usize);
    let limit = side.socket.options().max_message_size;
    writeln!(output, "{} limit {limit}", side.name);
}

/// A call with numbers. Answers whether it was understood.
fn call_with<S: Driven>(
    alloc: Global,
    side: &mut Side<S>,
    verb: &str,
    words: &[&str],
    output: &mut Output,
) -> bool {
    match verb {
        "reset" => reset(alloc, side, words, output),
        "priority" => set_priority(side, words, output),
        "threshold" => set_threshold(side, words, output),
        "limit" => set_limit(side, word_at(words, 0), output),
        _ => return ask_with(side, verb, words, output),
    }
    true
}

/// `HEX`: gives the socket these bytes.
fn take<S: Driven>(alloc: Global, side: &mut Side<S>, words: &[&str], output: &mut Output) {
    let bytes = payload(alloc, text_at(words, 0), output);
    let answer = side.socket.handle_input(&bytes);
    drop(bytes);
    show_refusal(side.name, answer, output);
}

/// `HEX`
fn judge<S: Driven>(alloc: Global, side: &Side<S>, words: &[&str], output: &mut Output) {
    let bytes = payload(alloc, text_at(words, 0), output);
    show_judgement(side, &bytes, output);
    drop(bytes);
}

fn act_with<S: Driven>(
    alloc: Global,
    side: &mut Side<S>,
    verb: &str,
    words: &[&str],
    output: &mut Output,
) -> bool {
    match verb {
        "send" => send(alloc, side, words, output),
        "send-many" => send_many(alloc, side, words, output),
        "take" => take(alloc, side, words, output),
        "judge" => judge(alloc, side, words, output),
        _ => return are_numbers(words) && call_with(alloc, side, verb, words, output),
    }
    true
}

/// What happens at an end, and what it emits of it.
fn act<S: Driven>(
    alloc: Global,
    side: &mut Side<S>,
    verb: &str,
    words: &[&str],
    output: &mut Output,
) -> bool {
    let is_known = if words.is_empty() {
        call(alloc, side, verb, output)
    } else {
        act_with(alloc, side, verb, words, output)
    };
    take_emitted(side, false, output);
    is_known
}

/// `K`: gives the packet of this number of the other end.
fn give<S: Driven>(
    side: &mut Side<S>,
    packets: &[Vec<u8>],
    words: &[&str],
    output: &mut Output,
) -> bool {
    match packets.get(number_at(words, 0) as usize) {
        Some(bytes) => show_refusal(side.name, side.socket.handle_input(bytes), output),
        None => writeln!(output, "no packet"),
    }
    take_emitted(side, false, output);
    true
}

/// Time is advanced to a moment, in milliseconds.
fn advance<S: Driven>(side: &mut Side<S>, milliseconds: u64, output: &mut Output) {
    let now = SocketTime::zero() + Duration::from_millis(milliseconds);
    show_refusal(side.name, side.socket.advance_time(now), output);
    take_emitted(side, false, output);
}

/// `time MS`, `exchange FIRST LOST`: what happens at both ends.
fn act_at_both<S: Driven>(
    a: &mut Side<S>,
    b: &mut Side<S>,
    verb: &str,
    words: &[&str],
    output: &mut Output,
) -> bool {
    let (first, second) = (number_at(words, 0), number_at(words, 1));
    match verb {
        "time" => {
            advance(a, first, output);
            advance(b, first, output);
        }
        "exchange" => exchange(a, b, first as usize, second as usize, output),
        _ => return false,
    }
    true
}

/// `VERB X ..`, `give X K Y`, and what happens at both.
fn run_words<S: Driven>(
    alloc: Global,
    a: &mut Side<S>,
    b: &mut Side<S>,
    words: &[&str],
    output: &mut Output,
) -> bool {
    let [verb, end, rest @ ..] = words else {
        return false;
    };
    match (*verb == "give", *end == "a", *end == "b") {
        (true, true, _) => give(b, &a.packets, rest, output),
        (true, false, _) => give(a, &b.packets, rest, output),
        (false, true, _) => act(alloc, a, verb, rest, output),
        (false, false, true) => act(alloc, b, verb, rest, output),
        (false, false, false) => act_at_both(a, b, verb, &words[1..], output),
    }
}

/// Runs a line, unless the setup has taken it. One that isn't understood is printed behind a `?`.
fn run_line<S: Driven>(
    alloc: Global,
    a: &mut Side<S>,
    b: &mut Side<S>,
    line: &str,
    output: &mut Output,
) {
    let words = words_of(alloc, line, output);
    let is_known = Setup::new().takes(&words) || run_words(alloc, a, b, &words, output);
    drop(words);
    if !is_known {
        writeln!(output, "? {line}");
    }
}

pub fn run_lines<S: Driven>(
    alloc: Global,
    a: &mut Side<S>,
    b: &mut Side<S>,
    lines: &str,
    output: &mut Output,
) {
    for line in lines.lines() {
        run_line(alloc, a, b, line, output);
    }
}
