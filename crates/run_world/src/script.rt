//! The script: commands, a line each, and what becomes of them.

ghost use Rattle.std.specs.Prelude.{IfOk};
ghost use Rattle.run_world.specs.Script.{IsDrawing, Draws};

use crate::log::{Watched, rows_of};
use sctp_state::CallError;
use sctp_trace::{CaptureError, Row, capture, chart, ladder};
use sctp_world::{Command, End, Event, WorldError, parse_command};
use std::alloc::{AllocError, Global};
use std::env;
use std::io::{self, Read, Write};

/// Why the program ends before its time.
pub enum Fault {
    /// Words say so: a line is no command, or the arguments name no format.
    Printed,
    /// Memory ran out, or a read or a write failed.
    Silent,
}

impl From<AllocError> for Fault {
    fn from(_e: AllocError) -> Fault {
        Fault::Silent
    }
}

impl From<io::Error> for Fault {
    fn from(e: io::Error) -> Fault {
        drop(e);
        Fault::Silent
    }
}

impl From<CallError> for Fault {
    fn from(_e: CallError) -> Fault {
        Fault::Silent
    }
}

impl From<CaptureError> for Fault {
    fn from(_e: CaptureError) -> Fault {
        Fault::Silent
    }
}

/// What is written of a conversation.
#[derive(Clone, Copy, Debug, PartialEq, Eq)]
pub enum Format {
    Text,
    Chart,
    Pcap,
}

impl Format {
    /// The format that the one argument names, `None` where there is no argument.
    pub fn asked(rt: &HostRuntime) -> Result<Option<Format>, Fault> {
        let mut words = env::args(rt)?.skip(1);
        let Some(word) = words.next() else {
            return Ok(None);
        };
        match (format_of(&word), words.next()) {
            (Some(format), None) => Ok(Some(format)),
            _ => {
                eprintln!(rt; "sctp-trace: one of text, chart and pcap is needed")?;
                Err(Fault::Printed)
            }
        }
    }
}

fn format_of(word: &str) -> Option<Format> {
    match word {
        "text" => Some(Format::Text),
        "chart" => Some(Format::Chart),
        "pcap" => Some(Format::Pcap),
        _ => None,
    }
}

/// Makes the event happen; a packet that isn't there is none.
fn happen<W: Watched>(world: &mut W, event: &Event) -> Result<(), Fault> {
    match world.happen(event) {
        Ok(()) | Err(WorldError::NoSuchPacket) => Ok(()),
        Err(WorldError::Memory) => Err(Fault::Silent),
    }
}

fn run_command<W: Watched>(world: &mut W, command: &Command) -> Result<(), Fault> {
    match command {
        Command::Event(event) => happen(world, event),
        Command::Time(now) => {
            happen(world, &Event::Time(End::A, *now))?;
            happen(world, &Event::Time(End::B, *now))
        }
        Command::Probe(_) | Command::Show(_, _) => Ok(()),
    }
}

/// Runs the line, and says whether it was empty or a command.
fn run_line<W: Watched>(alloc: Global, world: &mut W, line: &[u8]) -> Result<bool, Fault> {
    if line.is_empty() {
        return Ok(true);
    }
    let Some(command) = parse_command(alloc, line)? else {
        return Ok(false);
    };
    run_command(world, &command)?;
    Ok(true)
}

/// Runs the lines up to the first that is no command, whose number it answers, from 1 on.
fn run_lines<W: Watched>(
    alloc: Global,
    world: &mut W,
    lines: &[&[u8]],
) -> Result<Option<u64>, Fault> {
    let mut number = 0u64;
    for line in lines {
        number = number.saturating_add(1);
        if !run_line(alloc, world, line)? {
            return Ok(Some(number));
        }
    }
    Ok(None)
}

/// Runs what standard input has.
fn run_input<W: Watched>(rt: &HostRuntime, world: &mut W) -> Result<Option<u64>, Fault> {
    let mut input = Vec::new(rt.alloc());
    rt.reader().read_to_end(&mut input)?;
    let lines: Vec<&[u8]> = input.split(|b| *b == b'\n').collect(rt.alloc())?;
    run_lines(rt.alloc(), world, &lines)
}

fn drawing(alloc: Global, rows: &[Row], format: Format) -> Result<Vec<u8>, Fault>
    ensures { IfOk result (λ bytes. IsDrawing format rows.now bytes.items) }
{
    match format {
        Format::Text => Ok(ladder(alloc, rows)?),
        Format::Chart => Ok(chart(alloc, rows)?),
        Format::Pcap => Ok(capture(alloc, rows)?),
    }
}

/// What is drawn of the world's log.
fn draw<W: Watched>(alloc: Global, world: &W, format: Format) -> Result<Vec<u8>, Fault>
    ensures { IfOk result (λ bytes. Draws format (W.log_of world.now) (W.packets_of world.now) bytes.items) }
{
    let rows = rows_of(alloc, world)?;
    drawing(alloc, &rows, format)
}

fn write_all(rt: &HostRuntime, bytes: &[u8]) -> Result<(), Fault> {
    let mut writer = io::writer(rt);
    writer.write_all(bytes)?;
    Ok(())
}

/// Says that the line is no command. A ladder stands before, as far as it goes.
fn stop(rt: &HostRuntime, bytes: &[u8], format: Format, number: u64) -> Result<(), Fault> {
    if format == Format::Text {
        write_all(rt, bytes)?;
        println!(rt; "line {number} is not a command")?;
    } else {
        eprintln!(rt; "line {number} is not a command")?;
    }
    Err(Fault::Printed)
}

/// Runs the commands of standard input on the world, and writes what was asked for.
pub fn trace<W: Watched>(rt: &HostRuntime, world: W, format: Format) -> Result<(), Fault> {
    let mut world = world;
    let outcome = trace_on(rt, &mut world, format);
    world.let_go();
    outcome
}

fn trace_on<W: Watched>(rt: &HostRuntime, world: &mut W, format: Format) -> Result<(), Fault> {
    let stopped = run_input(rt, world)?;
    let bytes = draw(rt.alloc(), world, format)?;
    match stopped {
        None => write_all(rt, &bytes),
        Some(number) => stop(rt, &bytes, format, number),
    }
}
