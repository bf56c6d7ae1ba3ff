//! Conversations of two ends: runs each script of standard input in a world of its own, or in two whose ends draw other words, and prints
//! what it answers, or what the first world shows and where the second first shows something else.
//!
//! A script is what stands behind a line that begins with `#`, which says what the script shows and is printed too. Where it has a line
//! `two worlds`, it runs in two. Behind these words eight numbers may stand: state and stream of the generator of each end, of the first
//! world and of the second. There lines up to an empty one, or one of the next three, are events of one run (`events`): `show` prints what the first
//! world showed since, `ready X` the messages that became ready at an end, `exchange N L` runs N events more: each packet of either end is
//! given to the other one, but each L-th, and where none is on its way half a second passes. The end of such a script says whether both
//! showed the same.
#![tactic(auto)]

mod events;
mod exchange;
mod pair;
mod play;
mod shown;

use pair::{Pair, Seeds, made, seeds_of};
use play::play;
use sctp_world::{ScriptFault, run_script};
use std::alloc::{AllocError, Global};
use std::io;

/// Runs a script in a world from the start. A line that is no command ends it, and is printed.
fn answer_in_one(rt: &HostRuntime, script: &str) -> Result<(), ScriptFault> {
    let mut reader = script.as_bytes();
    let mut writer = io::writer(rt);
    match run_script(rt.alloc(), &mut reader, &mut writer) {
        Err(ScriptFault::NotACommand(_)) => Ok(()),
        end => end,
    }
}

/// Runs a script in two new worlds.
fn answer_in_two<P: Pair>(rt: &HostRuntime, pair: P, script: &str) -> anyhow::Result<()> {
    let mut pair = pair;
    let outcome = play(rt, &mut pair, script);
    pair.let_go();
    outcome
}

fn answer(rt: &HostRuntime, two: Option<Seeds>, script: &str) -> anyhow::Result<()> {
    match two {
        Some(seeds) => answer_in_two(rt, made(rt.alloc(), seeds)?, script),
        None => Ok(answer_in_one(rt, script)?),
    }
}

/// A line behind a title: that the script runs in two worlds, or a part of it.
fn take_line(
    alloc: Global,
    two: &mut Option<Seeds>,
    script: &mut String,
    line: &str,
) -> Result<(), AllocError> {
    if line.starts_with("two worlds") {
        let words: Vec<&str> = line.split(' ').collect(alloc)?;
        *two = Some(seeds_of(&words));
    } else {
        script.push_str(line)?;
        script.push('\n')?;
    }
    Ok(())
}

fn main(rt: HostRuntime) -> anyhow::Result<()> {
    let mut two: Option<Seeds> = None;
    let mut script = String::new(rt.alloc());
    for line in rt.lines(rt.alloc()) {
        let line = line?;
        if line.starts_with('#') {
            answer(&rt, two, &script)?;
            script.clear();
            two = None;
            println!(rt; "{line}")?;
        } else {
            take_line(rt.alloc(), &mut two, &mut script, &line)?;
        }
    }
    answer(&rt, two, &script)
}
