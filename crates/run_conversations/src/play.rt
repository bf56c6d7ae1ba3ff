//! A script in two worlds.

use crate::events::{end_at, event_of, number_at};
use crate::exchange::{Link, exchange};
use crate::pair::Pair;
use crate::shown::{line_of, ready_line};
use sctp_world::{End, Entry, Event, WorldError};
use std::alloc::Global;

/// The lines that a log shows.
fn lines_of(alloc: Global, log: &[Entry]) -> anyhow::Result<Vec<String>> {
    let mut lines = Vec::new(alloc);
    for entry in log {
        if let Some(line) = line_of(alloc, entry)? {
            lines.push(line)?;
        }
    }
    Ok(lines)
}

/// Says whether both logs show the same, and else where they first differ.
fn compare(rt: &HostRuntime, first: &[Entry], second: &[Entry]) -> anyhow::Result<()> {
    let first = lines_of(rt.alloc(), first)?;
    let second = lines_of(rt.alloc(), second)?;
    for (place, line) in first.iter().enumerate() {
        if second.get(place) != Some(line) {
            println!(rt; "other from line {place} on: {line}")?;
            return Ok(());
        }
    }
    if first.len() == second.len() {
        println!(rt; "the same")?;
    } else {
        println!(rt; "the second shows more")?;
    }
    Ok(())
}

/// Prints what the first log shows from this entry on.
fn show(rt: &HostRuntime, log: &[Entry], before: usize) -> anyhow::Result<()> {
    for entry in log.iter().skip(before) {
        if let Some(line) = line_of(rt.alloc(), entry)? {
            println!(rt; "{line}")?;
        }
    }
    Ok(())
}

/// Prints the messages that became ready at an end.
fn show_ready(rt: &HostRuntime, log: &[Entry], end: End) -> anyhow::Result<()> {
    for entry in log {
        match entry {
            Entry::Ready(at, message) if *at == end => {
                let line = ready_line(rt.alloc(), end, message)?;
                println!(rt; "{line}")?;
            }
            _ => {}
        }
    }
    Ok(())
}

/// Runs the events that were read, and forgets them.
fn lead<P: Pair>(rt: &HostRuntime, pair: &mut P, events: &mut Vec<Event>) -> anyhow::Result<()> {
    match pair.lead(events) {
        Ok(()) => {}
        Err(WorldError::NoSuchPacket) => println!(rt; "no packet")?,
        Err(WorldError::Memory) => println!(rt; "out of memory")?,
    }
    events.clear();
    Ok(())
}

/// How far a script is: how much was shown, and what is on its way.
#[derive(Drop)]
struct Place {
    shown: usize,
    link: Link,
}

/// A line that is no event.
fn ask<P: Pair>(
    rt: &HostRuntime,
    pair: &mut P,
    place: &mut Place,
    words: &[&str],
) -> anyhow::Result<()> {
    match words.first() {
        Some(&"show") => {
            show(rt, pair.first(), place.shown)?;
            place.shown = pair.first().len();
        }
        Some(&"ready") => show_ready(rt, pair.first(), end_at(words, 1))?,
        Some(&"exchange") => {
            place.link.lose(number_at(words, 2));
            exchange(pair, &mut place.link, number_at(words, 1))?;
        }
        _ => {}
    }
    Ok(())
}

/// One line: an event, or a question behind the events that were read.
fn take<P: Pair>(
    rt: &HostRuntime,
    pair: &mut P,
    place: &mut Place,
    events: &mut Vec<Event>,
    line: &str,
) -> anyhow::Result<()> {
    let words: Vec<&str> = line.split(' ').collect(rt.alloc())?;
    match event_of(rt.alloc(), line, &words)? {
        Some(event) => events.push(event)?,
        None => {
            lead(rt, pair, events)?;
            ask(rt, pair, place, &words)?;
        }
    }
    Ok(())
}

/// Runs a script, and says at its end whether both worlds showed the same.
pub fn play<P: Pair>(rt: &HostRuntime, pair: &mut P, script: &str) -> anyhow::Result<()> {
    let mut events = Vec::new(rt.alloc());
    let mut place = Place {
        shown: 0,
        link: Link::new(),
    };
    for line in script.lines() {
        take(rt, pair, &mut place, &mut events, line)?;
    }
    lead(rt, pair, &mut events)?;
    compare(rt, pair.first(), pair.second())
}
