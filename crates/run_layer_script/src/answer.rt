//! What a layer's commands are for, what they answer, and the loop over them.

use crate::output::Output;
use crate::words::Line;
use std::alloc::AllocError;

/// What a command answers. Where memory was refused nothing is printed of the answer.
#[derive(Clone, Copy)]
pub enum Answer {
    /// It is done. Lines that it answers, if any, have been written.
    Done,
    /// What has been written ends here.
    Text,
    /// Yes or no.
    Is(bool),
    Number(u128),
    Two(u128, u128),
    /// There is none.
    Nothing,
    /// The call may not be made now.
    Refused,
    /// There was no memory for it.
    NoMemory,
    /// The line is no command.
    Unknown,
}

/// Done, unless there was no memory for it.
pub fn done<T: Drop, E: Drop>(outcome: Result<T, E>) -> Answer {
    match outcome {
        Ok(_) => Answer::Done,
        Err(_) => Answer::NoMemory,
    }
}

/// How answers are written.
#[derive(Clone, Copy)]
pub enum Style {
    /// Behind the command.
    Behind,
    /// As a line, whether there is a value or not.
    Lines,
    /// As a line where there is a value.
    Values,
}

/// What commands act on.
pub trait Subject {
    /// Does what the line says.
    fn obey(&mut self, line: &Line<'_>, output: &mut Output) -> Answer;
}

/// Lets the subject do each of the commands, writes the answers, and lets the subject go.
pub fn run_commands<S: Subject + Drop>(mut subject: S, commands: &str, output: &mut Output) {
    for command in commands.lines() {
        let line = Line::new(command);
        if let Style::Behind = output.style {
            output.push_str(command);
        }
        let answer = subject.obey(&line, output);
        finish(output.style, command, answer, output);
    }
    drop(subject);
}

/// Ends the line with what the command answers.
fn finish(style: Style, command: &str, answer: Answer, output: &mut Output) {
    match (style, answer) {
        (_, Answer::NoMemory) => output.note(Err(AllocError)),
        (Style::Behind, Answer::Done) | (_, Answer::Text) => output.push_str("\n"),
        (Style::Lines, Answer::Done) => output.push_str("done\n"),
        (Style::Values, Answer::Done) => {}
        (Style::Behind, Answer::Unknown) => output.push_str(" ?\n"),
        (_, Answer::Unknown) => writeln!(output, "? {command}"),
        (Style::Behind, answer) => {
            output.push_str(": ");
            put(answer, "no\n", output);
        }
        (Style::Lines, answer) => put(answer, "nothing\n", output),
        (Style::Values, answer) => put(answer, "none\n", output),
    }
}

/// Writes a value as a line; `nothing` where there is none.
fn put(answer: Answer, nothing: &str, output: &mut Output) {
    match answer {
        Answer::Is(true) => output.push_str("yes\n"),
        Answer::Is(false) => output.push_str("no\n"),
        Answer::Number(number) => output.fill("#\n", &[number]),
        Answer::Two(first, second) => output.fill("# #\n", &[first, second]),
        Answer::Refused => output.push_str("refused\n"),
        _ => output.push_str(nothing),
    }
}
