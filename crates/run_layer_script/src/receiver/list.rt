//! Intervals of fragments.

use crate::answer::{Answer, Subject, run_commands};
use crate::output::Output;
use crate::receiver::pieces::piece;
use crate::words::Line;
use sctp_packet::Data;
use sctp_reassembly::is_message;
use sctp_rx::{
    InterleavedKey, Interval, IntervalList, ReassemblyKey, TraditionalKey, UnorderedInterleavedKey,
};

/// Takes the commands of a script on a list of intervals.
pub fn run(line: &Line<'_>, script: &str, output: &mut Output) {
    match line.word {
        "tsn" => run_on::<TraditionalKey>(script, output),
        "fsn" => run_on::<InterleavedKey>(script, output),
        "mid" => run_on::<UnorderedInterleavedKey>(script, output),
        _ => output.push_str("?\n"),
    }
}

fn run_on<K: ReassemblyKey>(script: &str, output: &mut Output) {
    run_commands(IntervalList::<K>::new(output.alloc), script, output);
}

impl<K: ReassemblyKey> Subject for IntervalList<K> {
    /// `add NUMBER INDEX ENDS HEX`; `turn NUMBER INDEX MESSAGE`; `take NUMBER INDEX`; `next MESSAGE`; `retain NUMBER INDEX`; `sums`.
    fn obey(&mut self, line: &Line<'_>, output: &mut Output) -> Answer {
        let key = K::from_parts(line.first.long, line.second.long);
        match line.name {
            "turn" => {
                let number = line.third.long as u128;
                return Answer::Is(is_message(self.finished_at(key), number));
            }
            "take" => return take(self, key, output),
            "next" => return next(self, line.first.long, output),
            "add" => add(self, key, piece(line, output), output),
            "retain" => self.retain(key),
            "sums" => {}
            _ => return Answer::Unknown,
        }
        let (count, bytes) = (self.len() as u128, self.total_bytes() as u128);
        output.text(
            "intervals #, bytes #, empty ?",
            &[count, bytes, self.is_empty() as u128],
        )
    }
}

fn add<K: ReassemblyKey>(list: &mut IntervalList<K>, key: K, fragment: Data, output: &mut Output) {
    if list.total_bytes() >= 1 << 40
        || fragment.payload.len() >= 1 << 40
        || list.held_fragments() >= 1 << 40
    {
        drop(fragment);
        output.push_str("held already, ");
        return;
    }
    match list.add(key, fragment) {
        Ok(true) => {}
        Ok(false) => output.push_str("held already, "),
        Err(fault) => output.note(Err(fault)),
    }
}

fn take<K: ReassemblyKey>(list: &mut IntervalList<K>, key: K, output: &mut Output) -> Answer {
    if list.total_bytes() >= 1 << 40 {
        return Answer::Refused;
    }
    match list.pop_if_complete(key) {
        Some(interval) => {
            let bytes = interval.total_bytes();
            show(interval, bytes, output)
        }
        None => Answer::Nothing,
    }
}

fn next<K: ReassemblyKey>(list: &mut IntervalList<K>, number: u64, output: &mut Output) -> Answer {
    if list.total_bytes() >= 1 << 40 {
        return Answer::Refused;
    }
    match list.pop_front_if_complete_and(number as u128) {
        Some(interval) => {
            let bytes = interval.total_bytes();
            show(interval, bytes, output)
        }
        None => Answer::Nothing,
    }
}

/// An interval that was taken.
fn show<K: ReassemblyKey>(interval: Interval<K>, bytes: usize, output: &mut Output) -> Answer {
    let (first, last) = (interval.first(), interval.last());
    let number = first.key.number() as u128;
    output.fill(
        "#/# to #/#, complete ?, in turn ?, at the next number ?, bytes #: ",
        &[
            number,
            first.fragment.fsn.0 as u128,
            last.key.number() as u128,
            last.fragment.fsn.0 as u128,
            interval.is_complete() as u128,
            interval.is_in_turn(number) as u128,
            interval.is_in_turn(number + 1) as u128,
            bytes as u128,
        ],
    );
    let payload = output.made(interval.collect_payload(output.alloc));
    drop(interval);
    output.push_hex(&payload);
    Answer::Text
}
