//! Two owners of data channels over a link in memory that loses nothing: what is opened, sent, closed and opened again, and what each end
//! is told.

use crate::{MANY, Owned};
use anyhow::Result;
use sctp_association::{DcSctpSocket, SocketEvent, SocketTime, StreamId};
use sctp_channels::{ChannelEvent, DataChannelOpen, DataChannels, PayloadKind, Reliability};
use std::alloc::{AllocError, Global};

/// A socket with its channels, and the packets to and from it.
#[derive(Drop)]
struct End<S> {
    alloc: Global,
    name: &'static str,
    socket: S,
    channels: DataChannels,
    came: Vec<Vec<u8>>,
    sent: Vec<Vec<u8>>,
}

fn new_end<S>(rt: &HostRuntime, name: &'static str, socket: S, is_client: bool) -> End<S> {
    End {
        alloc: rt.alloc(),
        name,
        socket,
        channels: DataChannels::new(
            rt.alloc(),
            is_client,
            16,
            65536,
            65536,
            1_000_000,
            1_000_000,
        ),
        came: Vec::new(rt.alloc()),
        sent: Vec::new(rt.alloc()),
    }
}

impl<S: Owned> End<S> {
    fn let_go(self) {
        self.socket.let_go();
    }
}

fn show_message(
    rt: &HostRuntime,
    name: &str,
    id: StreamId,
    kind: PayloadKind,
    size: usize,
) -> Result<()> {
    println!(rt; "{name} has {kind:?} of {size} bytes on {id}")?;
    Ok(())
}

fn show_event(rt: &HostRuntime, name: &str, event: &ChannelEvent) -> Result<()> {
    println!(rt; "{name} {event:?}")?;
    Ok(())
}

/// Prints what the end is told, but that a stream is low; packets are kept for the other end.
fn tell<S: DcSctpSocket>(rt: &HostRuntime, end: &mut End<S>) -> Result<()> {
    for _ in 0..MANY {
        match end.channels.poll_event(&mut end.socket)? {
            Some(ChannelEvent::Socket(SocketEvent::SendPacket(bytes))) => end.sent.push(bytes)?,
            Some(ChannelEvent::Message(id, kind, bytes)) => {
                show_message(rt, end.name, id, kind, bytes.len())?
            }
            Some(ChannelEvent::BufferedAmountLow(_id)) => {}
            Some(event) => {
                let outcome = show_event(rt, end.name, &event);
                drop(event);
                outcome?
            }
            None => break,
        }
    }
    Ok(())
}

/// One turn of an end. Answers by which moment the next is due.
fn turn<S: DcSctpSocket>(
    rt: &HostRuntime,
    end: &mut End<S>,
    now: SocketTime,
) -> Result<SocketTime> {
    end.socket.advance_time(now)?;
    tell(rt, end)?;
    let mut came = Vec::new(rt.alloc());
    came.append(&mut end.came)?;
    for bytes in &came {
        end.channels.handle_input(&mut end.socket, bytes)?;
        tell(rt, end)?;
    }
    Ok(end.socket.poll_timeout())
}

/// Two ends, and what time it is.
#[derive(Drop)]
struct Pair<S> {
    a: End<S>,
    b: End<S>,
    now: SocketTime,
}

/// A turn of both ends, and what they sent comes to the other. Answers by which moment the next is due.
fn turn_both<S: DcSctpSocket>(rt: &HostRuntime, pair: &mut Pair<S>) -> Result<SocketTime> {
    let due_a = turn(rt, &mut pair.a, pair.now)?;
    let due_b = turn(rt, &mut pair.b, pair.now)?;
    pair.b.came.append(&mut pair.a.sent)?;
    pair.a.came.append(&mut pair.b.sent)?;
    Ok(due_a.min(due_b))
}

/// Packets go to and fro until none is left; then time passes.
fn exchange<S: DcSctpSocket>(rt: &HostRuntime, pair: &mut Pair<S>) -> Result<()> {
    let mut due = pair.now;
    for _ in 0..MANY {
        due = turn_both(rt, pair)?;
        if pair.a.came.is_empty() && pair.b.came.is_empty() {
            break;
        }
    }
    pair.now = due;
    Ok(())
}

fn description(alloc: Global, label: &str, unordered: bool) -> Result<DataChannelOpen, AllocError> {
    Ok(DataChannelOpen {
        unordered,
        reliability: Reliability::Reliable,
        priority: 512,
        label: String::from_str(alloc, label)?,
        protocol: String::new(alloc),
    })
}

fn open<S: DcSctpSocket>(end: &mut End<S>, label: &str, unordered: bool) -> Result<StreamId> {
    let description = description(end.alloc, label, unordered)?;
    Ok(end.channels.open(&mut end.socket, description)?)
}

/// Sends so many bytes.
fn send<S: DcSctpSocket>(
    end: &mut End<S>,
    id: StreamId,
    kind: PayloadKind,
    size: usize,
) -> Result<()> {
    let bytes = vec![in end.alloc; 7u8; size]?;
    Ok(end.channels.send(&mut end.socket, id, kind, bytes)?)
}

fn close<S: DcSctpSocket>(end: &mut End<S>, id: StreamId) -> Result<()> {
    Ok(end.channels.close(&mut end.socket, id)?)
}

fn connect<S: DcSctpSocket>(rt: &HostRuntime, pair: &mut Pair<S>) -> Result<()> {
    pair.a.socket.advance_time(pair.now)?;
    pair.a.socket.connect()?;
    exchange(rt, pair)
}

/// Answers on which stream the channel was.
fn open_and_close<S: DcSctpSocket>(rt: &HostRuntime, pair: &mut Pair<S>) -> Result<StreamId> {
    println!(rt; "a opens a channel, sends on it at once, and closes it")?;
    let id = open(&mut pair.a, "Größe", true)?;
    for size in [3usize, 0, 2000] {
        send(&mut pair.a, id, PayloadKind::Binary, size)?;
    }
    close(&mut pair.a, id)?;
    exchange(rt, pair)?;
    Ok(id)
}

/// Prints what both sockets weigh the stream by.
fn show_priorities<S: DcSctpSocket>(rt: &HostRuntime, pair: &Pair<S>, id: StreamId) -> Result<()> {
    let at_a = pair.a.socket.get_stream_priority(id);
    let at_b = pair.b.socket.get_stream_priority(id);
    println!(rt; "{id} has priority {at_a} at a, {at_b} at b")?;
    Ok(())
}

/// Answers on which streams the channels of `a` and of `b` are.
fn open_again<S: DcSctpSocket>(
    rt: &HostRuntime,
    pair: &mut Pair<S>,
    before: StreamId,
) -> Result<(StreamId, StreamId)> {
    println!(rt; "a opens one again, b answers on it and opens its own")?;
    let again = open(&mut pair.a, "again", false)?;
    println!(rt; "{before} {again}")?;
    exchange(rt, pair)?;
    show_priorities(rt, pair, again)?;
    send(&mut pair.b, again, PayloadKind::Text, 2)?;
    let own = open(&mut pair.b, "b", false)?;
    exchange(rt, pair)?;
    Ok((again, own))
}

fn close_both<S: DcSctpSocket>(
    rt: &HostRuntime,
    pair: &mut Pair<S>,
    again: StreamId,
    own: StreamId,
) -> Result<()> {
    println!(rt; "both close them")?;
    close(&mut pair.a, again)?;
    close(&mut pair.b, again)?;
    close(&mut pair.b, own)?;
    exchange(rt, pair)
}

/// How many packets the end has sent.
fn packets_of<S: DcSctpSocket>(end: &End<S>) -> usize {
    match end.socket.get_metrics() {
        Some(metrics) => metrics.tx_packets_count,
        None => 0,
    }
}

/// Prints how many packets that takes: each end resets the stream in turn once.
fn reset_without_a_channel<S: DcSctpSocket>(rt: &HostRuntime, pair: &mut Pair<S>) -> Result<()> {
    println!(rt; "a resets a stream without a channel")?;
    let before = packets_of(&pair.a);
    pair.a.socket.reset_streams(&[StreamId(8)])?;
    exchange(rt, pair)?;
    let packets = packets_of(&pair.a).saturating_sub(before);
    println!(rt; "a sent {packets} packets")?;
    Ok(())
}

fn close_association<S: DcSctpSocket>(rt: &HostRuntime, pair: &mut Pair<S>) -> Result<()> {
    println!(rt; "b closes the association with a channel open")?;
    open(&mut pair.a, "last", false)?;
    exchange(rt, pair)?;
    pair.b.socket.advance_time(pair.now)?;
    pair.b.socket.close()?;
    turn(rt, &mut pair.b, pair.now)?;
    pair.a.came.append(&mut pair.b.sent)?;
    turn(rt, &mut pair.a, pair.now)?;
    Ok(())
}

fn talk<S: DcSctpSocket>(rt: &HostRuntime, pair: &mut Pair<S>) -> Result<()> {
    connect(rt, pair)?;
    let id = open_and_close(rt, pair)?;
    let (again, own) = open_again(rt, pair, id)?;
    close_both(rt, pair, again, own)?;
    reset_without_a_channel(rt, pair)?;
    close_association(rt, pair)
}

/// Two sockets with channels talk.
pub fn meet<S: Owned>(rt: &HostRuntime, a: S, b: S) -> Result<()> {
    let mut pair = Pair {
        a: new_end(rt, "a", a, true),
        b: new_end(rt, "b", b, false),
        now: SocketTime::zero(),
    };
    let outcome = talk(rt, &mut pair);
    pair.a.let_go();
    pair.b.let_go();
    outcome
}
