//! A conversation, turn by turn.

use crate::Owned;
use crate::soak::end::{Counts, Talker, act, new_talker};
use crate::soak::link::{Link, carry};
use crate::soak::messages::{Plan, STREAMS};
use anyhow::Result;
use rand_core::Rng;
use sctp_association::{DcSctpSocket, HandoverReadiness, SocketTime, StreamId};
use std::time::Duration;

/// A turn takes so many milliseconds.
const TURN: u64 = 5;

/// The time passes by a turn; where nothing is under way, up to the moment at which a socket has something to do.
fn pass<S: Owned>(a: &Talker<S>, b: &Talker<S>, now: SocketTime) -> SocketTime {
    let soon = now + Duration::from_millis(TURN);
    if is_empty(a) && is_empty(b) {
        soon.max(a.end.socket.poll_timeout().min(b.end.socket.poll_timeout()))
    } else {
        soon
    }
}

fn is_empty<S>(talker: &Talker<S>) -> bool {
    talker.end.came.is_empty() && talker.late.is_empty()
}

/// Whether the end has sent so many messages, and holds nothing of them or of the other's.
fn is_quiet<S: Owned>(talker: &Talker<S>, count: u32) -> bool {
    talker.counts.accepted == count
        && talker.due.is_none()
        && is_empty(talker)
        && talker.end.socket.rests()
        && talker.end.socket.get_handover_readiness() == HandoverReadiness::READY
}

/// Goes on until each end has sent so many messages and all is quiet. Answers what time it is then.
fn go_on<S: Owned, R: Rng>(
    a: &mut Talker<S>,
    b: &mut Talker<S>,
    link: &mut Link<R>,
    start: SocketTime,
    plan: Plan,
) -> Result<SocketTime> {
    let mut now = start;
    let turns = u64::from(plan.count) * 20 + 100_000;
    for _ in 0..turns {
        act(a, now, plan)?;
        act(b, now, plan)?;
        carry(link, a, b)?;
        carry(link, b, a)?;
        if is_quiet(a, plan.count) && is_quiet(b, plan.count) {
            break;
        }
        now = pass(a, b, now);
    }
    Ok(now)
}

fn queued<S: DcSctpSocket>(socket: &S) -> usize {
    let mut bytes = 0usize;
    for stream in 0..STREAMS {
        bytes = bytes.saturating_add(socket.buffered_amount(StreamId(stream as u16)));
    }
    bytes
}

fn outstanding<S: DcSctpSocket>(socket: &S) -> usize {
    match socket.get_metrics() {
        Some(metrics) => metrics.unack_data_count,
        None => 0,
    }
}

/// What the socket holds: of its own messages and of the peer's.
fn show_held<S: Owned>(rt: &HostRuntime, name: &str, socket: &S) -> Result<()> {
    let (bytes, ready) = (queued(socket), socket.messages_ready_count());
    let outstanding = outstanding(socket);
    let (rests, readiness) = (socket.rests(), socket.get_handover_readiness());
    println!(rt;
        "{name} holds {bytes} bytes queued, {outstanding} outstanding, {ready} ready; at rest: {rests} ({readiness})"
    )?;
    Ok(())
}

/// What has to hold of each conversation.
fn show_counts(rt: &HostRuntime, name: &str, own: &Counts, peer: &Counts) -> Result<()> {
    println!(rt;
        "{name} sent {} messages and reset {} streams, of which it was told {} times; {} errors",
        own.accepted, own.resets, own.reset_events, own.errors
    )?;
    let others = u64::from(own.partial) + u64::from(peer.given_up);
    let is_whole = others >= u64::from(peer.accepted / 3);
    println!(rt;
        "{name} has {} reliable messages, {} out of place; each other one came or was given up: {is_whole}",
        own.reliable, own.wrong
    )?;
    Ok(())
}

/// What differs from one way of sending to another.
fn show_packets(rt: &HostRuntime, name: &str, own: &Counts) -> Result<()> {
    println!(rt;
        "{name} sent {} packets, of which {} were lost, and gave up {} messages; it has {} partially reliable ones",
        own.packets, own.lost, own.given_up, own.partial
    )?;
    Ok(())
}

fn show<S: Owned>(
    rt: &HostRuntime,
    name: &str,
    talker: &Talker<S>,
    peer: &Counts,
    plan: Plan,
) -> Result<()> {
    show_counts(rt, name, &talker.counts, peer)?;
    if plan.shows_packets {
        show_packets(rt, name, &talker.counts)?;
    }
    show_held(rt, name, &talker.end.socket)
}

/// Prints what both ends hold.
fn show_both<S: Owned>(
    rt: &HostRuntime,
    a: &mut Talker<S>,
    b: &mut Talker<S>,
    plan: Plan,
) -> Result<()> {
    show(rt, "a", a, &b.counts, plan)?;
    show(rt, "b", b, &a.counts, plan)
}

/// Both ends send; when they have sent as many as are to be looked at first, and at the end, what they hold is printed.
fn converse_as<S: Owned, R: Rng>(
    rt: &HostRuntime,
    a: &mut Talker<S>,
    b: &mut Talker<S>,
    link: &mut Link<R>,
    plan: Plan,
) -> Result<()> {
    a.end.socket.connect()?;
    let first = Plan {
        count: plan.first.min(plan.count),
        ..plan
    };
    let now = go_on(a, b, link, SocketTime::zero(), first)?;
    show_both(rt, a, b, first)?;
    go_on(a, b, link, now, plan)?;
    show_both(rt, a, b, plan)
}

/// Runs a conversation of two new sockets.
pub fn converse<S: Owned, R: Rng + Drop>(
    rt: &HostRuntime,
    a: S,
    b: S,
    link: Link<R>,
    plan: Plan,
) -> Result<()> {
    let mut link = link;
    let (mut a, mut b) = (new_talker(rt, a), new_talker(rt, b));
    let outcome = converse_as(rt, &mut a, &mut b, &mut link, plan);
    a.let_go();
    b.let_go();
    outcome
}
