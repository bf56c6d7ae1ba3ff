//! `errors`: why calls fail, in words and by number. A command is the name of a call and of an error.

use crate::answer::{Answer, Subject};
use crate::output::Output;
use crate::words::Line;
use sctp_state::{
    BatchFault, BatchSendError, CallError, HandoverError, HandoverReadiness, ResetStreamsError,
    RestoreError, SendError,
};
use std::fmt::Display;

#[derive(Clone, Copy)]
pub struct Errors;

impl Subject for Errors {
    fn obey(&mut self, line: &Line<'_>, output: &mut Output) -> Answer {
        match line.name {
            "too-large" => too_large(line, output),
            "send" => send(line.last, output),
            "batch" => batch(line.last, output),
            "call" => call(line.last, output),
            "reset" => reset(line.last, output),
            "hand-over" => hand_over(line.last, output),
            "restore" => restore(line.last, output),
            _ => Answer::Unknown,
        }
    }
}

/// Why a call fails, and the number of that.
fn show<T: Display>(error: &T, number: u8, output: &mut Output) -> Answer {
    write!(output, ": {error} ({number})");
    Answer::Text
}

/// `too-large LENGTH LIMIT`
fn too_large(line: &Line<'_>, output: &mut Output) -> Answer {
    let error = SendError::MessageTooLarge {
        len: line.first.size,
        limit: line.second.size,
    };
    show(&error, error.number(), output)
}

fn call(name: &str, output: &mut Output) -> Answer {
    match name {
        "memory" => show(&CallError::Memory, CallError::Memory as u8, output),
        "failed" => show(&CallError::Failed, CallError::Failed as u8, output),
        _ => Answer::Unknown,
    }
}

fn send(name: &str, output: &mut Output) -> Answer {
    let error = match name {
        "empty-payload" => SendError::EmptyPayload,
        "shutting-down" => SendError::ShuttingDown,
        "resource-exhaustion" => SendError::ResourceExhaustion,
        "memory" => SendError::Memory,
        "failed" => SendError::Failed,
        _ => return Answer::Unknown,
    };
    show(&error, error.number(), output)
}

/// `refused`: the second message of a batch is empty.
fn batch(name: &str, output: &mut Output) -> Answer {
    let mut errors = Vec::new(output.alloc);
    output.note(errors.push((1, SendError::EmptyPayload)));
    let fault = match name {
        "refused" => BatchFault::Refused(BatchSendError(errors)),
        "memory" => BatchFault::Memory,
        "failed" => BatchFault::Failed,
        _ => return Answer::Unknown,
    };
    let answer = show(&fault, fault.number(), output);
    drop(fault);
    answer
}

fn reset(name: &str, output: &mut Output) -> Answer {
    let error = match name {
        "not-connected" => ResetStreamsError::NotConnected,
        "not-supported" => ResetStreamsError::NotSupported,
        "memory" => ResetStreamsError::Memory,
        "failed" => ResetStreamsError::Failed,
        _ => return Answer::Unknown,
    };
    write!(output, ": {error}");
    output.text(" (#)", &[error as u8 as u128])
}

fn hand_over(name: &str, output: &mut Output) -> Answer {
    let error = match name {
        "not-ready" => HandoverError::NotReady(HandoverReadiness::PENDING_STREAM_RESET),
        "memory" => HandoverError::Memory,
        "failed" => HandoverError::Failed,
        _ => return Answer::Unknown,
    };
    show(&error, error.number(), output)
}

fn restore(name: &str, output: &mut Output) -> Answer {
    let error = match name {
        "socket-not-closed" => RestoreError::SocketNotClosed,
        "invalid-state" => RestoreError::InvalidState,
        "memory" => RestoreError::Memory,
        "failed" => RestoreError::Failed,
        _ => return Answer::Unknown,
    };
    write!(output, ": {error}");
    output.text(" (#)", &[error as u8 as u128])
}
