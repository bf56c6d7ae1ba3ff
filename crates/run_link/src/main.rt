//! Owners of two sockets over a link in memory, to copy: the loop in which an owner drives a socket, from the first call to the last.
//!
//! Standard input has a conversation a line; what each end emitted and handed out is printed.
//!
//! | line | conversation |
//! |---|---|
//! | `cross` | a message crosses, and nothing is lost |
//! | `talk` | three messages cross, and the association shuts down, while every third packet is lost; when time passes is printed too |
//! | `channels` | data channels are opened, closed and opened again (`channels`) |
//! | numbers | a plan for many messages (`soak`) |
//!
//! A line that begins with `#` is printed.
#![tactic(auto)]

mod channels;
mod soak;

use anyhow::Result;
use rand_core::Rng;
use rand_pcg::Pcg32;
use sctp_association::{
    CallError, Checksum, DcSctpSocket, GivenUp, Message, Options, PpId, SendOptions, Socket,
    SocketEvent, SocketState, SocketTime, StreamId,
};
use sctp_crc32c::Crc32c;
use soak::{Plan, plan_of};
use std::io;

/// More turns, or events of one turn, are not looked for.
const MANY: u32 = 1000;

/// Words that are made of one number.
trait Seeded: Rng {
    fn seeded(seed: u64) -> Self;
}

impl Seeded for Pcg32 {
    fn seeded(seed: u64) -> Pcg32 {
        Pcg32::new(seed, seed)
    }
}

/// A socket as helpers know it, whichever it is: what is asked of it beside the calls of its trait. `let_go` is a call of `Socket`:
/// whoever calls it is spared the proof of how each part goes.
trait Owned: DcSctpSocket {
    fn made(rt: &HostRuntime, name: &str, seed: u64) -> Result<Self, CallError>;

    fn next_record(&mut self) -> Option<GivenUp>;

    fn rests(&self) -> bool;

    fn let_go(self);
}

impl<R: Seeded + Drop, C: Checksum + Default + Drop> Owned for Socket<R, C> {
    fn made(rt: &HostRuntime, name: &str, seed: u64) -> Result<Socket<R, C>, CallError> {
        let options = Options::default();
        Socket::new(rt.alloc(), name, &options, R::seeded(seed), C::default())
    }

    fn next_record(&mut self) -> Option<GivenUp> {
        self.next_given_up()
    }

    fn rests(&self) -> bool {
        self.is_at_rest()
    }

    fn let_go(self) {
        self.let_go();
    }
}

/// A socket, and what is under way to and from it.
#[derive(Drop)]
struct End<S> {
    socket: S,
    came: Vec<Vec<u8>>,
    sent: Vec<Vec<u8>>,
    events: Vec<SocketEvent>,
    messages: Vec<Message>,
    sent_count: u32,
    message_count: usize,
}

fn new_end<S>(rt: &HostRuntime, socket: S) -> End<S> {
    End {
        socket,
        came: Vec::new(rt.alloc()),
        sent: Vec::new(rt.alloc()),
        events: Vec::new(rt.alloc()),
        messages: Vec::new(rt.alloc()),
        sent_count: 0,
        message_count: 0,
    }
}

impl<S: Owned> End<S> {
    fn let_go(self) {
        self.socket.let_go();
    }
}

/// Takes the messages that are ready.
fn take_messages<S: DcSctpSocket>(socket: &mut S, messages: &mut Vec<Message>) -> Result<()> {
    for _ in 0..socket.messages_ready_count() {
        match socket.get_next_message() {
            Some(message) => messages.push(message)?,
            None => break,
        }
    }
    Ok(())
}

/// One turn: the time is advanced, since all calls go by it, what came is handed in, and what that made ready is taken behind each
/// packet, since the next may end the association; then all that the socket emits. Answers by which moment the time is to be advanced again.
fn turn<S: DcSctpSocket>(end: &mut End<S>, now: SocketTime) -> Result<SocketTime> {
    end.socket.advance_time(now)?;
    for bytes in end.came.drain(..) {
        end.socket.handle_input(&bytes)?;
        take_messages(&mut end.socket, &mut end.messages)?;
    }
    for _ in 0..MANY {
        match end.socket.poll_event() {
            Some(SocketEvent::SendPacket(bytes)) => end.sent.push(bytes)?,
            Some(event) => end.events.push(event)?,
            None => break,
        }
    }
    Ok(end.socket.poll_timeout())
}

fn show_events(rt: &HostRuntime, name: &str, events: &[SocketEvent]) -> Result<()> {
    for event in events {
        println!(rt; "{name} {event:?}")?;
    }
    Ok(())
}

fn show_messages(rt: &HostRuntime, name: &str, messages: &[Message]) -> Result<()> {
    for message in messages {
        println!(rt; "{name} has {:?}", message.payload)?;
    }
    Ok(())
}

/// Prints what the socket emitted and handed out.
fn show<S>(rt: &HostRuntime, name: &str, end: &mut End<S>) -> Result<()> {
    show_events(rt, name, &end.events)?;
    show_messages(rt, name, &end.messages)?;
    end.message_count = end.message_count.saturating_add(end.messages.len());
    end.events.clear();
    end.messages.clear();
    Ok(())
}

/// What `a` sends, and what the link does: `count` messages from the number `first` on, of so many packets one is lost (0: none),
/// and whether the association shuts down.
#[derive(Clone, Copy)]
struct Talk {
    first: u8,
    count: u8,
    lost: u32,
    shuts_down: bool,
}

/// What one socket sent comes to the other.
fn carry<S>(from: &mut End<S>, to: &mut End<S>, lost: u32) -> Result<()> {
    for bytes in from.sent.drain(..) {
        from.sent_count = from.sent_count.wrapping_add(1);
        if lost == 0 || from.sent_count % lost != 0 {
            to.came.push(bytes)?;
        }
    }
    Ok(())
}

/// Sends three bytes of this number, at the moment of the socket's clock.
fn send<S: DcSctpSocket>(rt: &HostRuntime, end: &mut End<S>, number: u8) -> Result<()> {
    let payload = vec![in rt.alloc(); number; 3]?;
    let message = Message::new(StreamId(1), PpId(53), payload);
    end.socket.send(message, &SendOptions::default())?;
    Ok(())
}

/// Opens an association, and sends the messages.
fn begin<S: DcSctpSocket>(rt: &HostRuntime, a: &mut End<S>, talk: Talk) -> Result<()> {
    a.socket.advance_time(SocketTime::zero())?;
    a.socket.connect()?;
    for index in 0..talk.count {
        send(rt, a, talk.first.wrapping_add(index))?;
    }
    Ok(())
}

/// Whether all messages have come.
fn has_all<S>(b: &End<S>, talk: Talk) -> bool {
    b.message_count == usize::from(talk.count)
}

/// Once all messages have come, and with them nothing is queued any more, `a` shuts the association down.
fn shut_down<S: DcSctpSocket>(a: &mut End<S>, now: SocketTime) -> Result<()> {
    if a.socket.state() == SocketState::Connected {
        a.socket.advance_time(now)?;
        a.socket.shutdown()?;
    }
    Ok(())
}

/// A turn of both ends. Answers by which moment the next one is due.
fn turn_both<S: DcSctpSocket>(
    rt: &HostRuntime,
    a: &mut End<S>,
    b: &mut End<S>,
    now: SocketTime,
) -> Result<SocketTime> {
    let due_a = turn(a, now)?;
    let due_b = turn(b, now)?;
    show(rt, "a", a)?;
    show(rt, "b", b)?;
    Ok(due_a.min(due_b))
}

/// `a` opens an association and sends. Once `b` has all messages, that is all, or `a` shuts the association down, which ends at `b` last.
/// Where nothing is on its way, time passes up to the moment at which the first of the sockets has something to do.
fn converse<S: DcSctpSocket>(
    rt: &HostRuntime,
    a: &mut End<S>,
    b: &mut End<S>,
    talk: Talk,
) -> Result<()> {
    let mut now = SocketTime::zero();
    begin(rt, a, talk)?;
    for _ in 0..MANY {
        if talk.shuts_down && has_all(b, talk) {
            shut_down(a, now)?;
        }
        let due = turn_both(rt, a, b, now)?;
        if has_all(b, talk) && (!talk.shuts_down || b.socket.state() == SocketState::Closed) {
            break;
        }
        carry(a, b, talk.lost)?;
        carry(b, a, talk.lost)?;
        if a.came.is_empty() && b.came.is_empty() {
            now = due;
            println!(rt; "{} ms", (now - SocketTime::zero()).as_millis())?;
        }
    }
    Ok(())
}

/// Two sockets talk.
fn meet<S: Owned>(rt: &HostRuntime, a: S, b: S, talk: Talk) -> Result<()> {
    let (mut a, mut b) = (new_end(rt, a), new_end(rt, b));
    let outcome = converse(rt, &mut a, &mut b, talk);
    a.let_go();
    b.let_go();
    outcome
}

/// What a line asks for.
#[derive(Clone, Copy)]
enum Conversation {
    Talk(Talk),
    Channels,
    Soak(Plan),
}

fn conversation_of(line: &str) -> Option<Conversation> {
    match line {
        "cross" => Some(Conversation::Talk(Talk {
            first: 7,
            count: 1,
            lost: 0,
            shuts_down: false,
        })),
        "talk" => Some(Conversation::Talk(Talk {
            first: 1,
            count: 3,
            lost: 3,
            shuts_down: true,
        })),
        "channels" => Some(Conversation::Channels),
        _ => Some(Conversation::Soak(plan_of(line)?)),
    }
}

fn go_through<S: Owned>(rt: &HostRuntime, a: S, b: S, conversation: Conversation) -> Result<()> {
    match conversation {
        Conversation::Talk(talk) => meet(rt, a, b, talk),
        Conversation::Channels => channels::meet(rt, a, b),
        Conversation::Soak(plan) => soak::soak(rt, a, b, plan),
    }
}

/// Has two new sockets go through the conversation.
fn begin_anew<S: Owned>(rt: &HostRuntime, conversation: Conversation) -> Result<()> {
    let a: S = S::made(rt, "a", 1)?;
    let b: Result<S, CallError> = S::made(rt, "b", 2);
    match b {
        Ok(b) => go_through(rt, a, b, conversation),
        Err(fault) => {
            a.let_go();
            Err(fault.into())
        }
    }
}

fn answer(rt: &HostRuntime, line: &str) -> Result<()> {
    if line.starts_with('#') {
        return Ok(println!(rt; "{line}")?);
    }
    match conversation_of(line) {
        // The concrete socket is named here alone.
        Some(conversation) => begin_anew::<Socket<Pcg32, Crc32c>>(rt, conversation),
        None => Ok(println!(rt; "? {line}")?),
    }
}

fn answer_all(rt: &HostRuntime, input: &str) -> Result<()> {
    for line in input.lines() {
        answer(rt, line)?;
    }
    Ok(())
}

fn main(rt: HostRuntime) -> Result<()> {
    let input = io::read_to_string(rt.alloc(), rt.reader())?;
    let outcome = answer_all(&rt, &input);
    drop(input);
    outcome
}
