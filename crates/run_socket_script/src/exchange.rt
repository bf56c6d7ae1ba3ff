//! The loop in which an owner drives sockets, over a link that loses packets.

use crate::driven::Driven;
use crate::emitted::take_emitted;
use crate::output::Output;
use crate::side::Side;
use sctp_state::SocketState;

/// An exchange that hasn't ended after as many turns doesn't.
const TURNS: u32 = 1000;

/// How many packets of each end were handed over or lost, and of how many packets the last one is lost; with 0 none is.
#[derive(Clone, Copy)]
struct Progress {
    a: usize,
    b: usize,
    lost: usize,
}

fn is_lost(number: usize, lost: usize) -> bool {
    lost != 0 && number % lost == lost - 1
}

/// Hands the packets from this number on to the other end, each once, but those that are lost.
fn hand_over<S: Driven>(
    to: &mut Side<S>,
    packets: &[Vec<u8>],
    first: usize,
    lost: usize,
    output: &mut Output,
) {
    for (number, bytes) in packets.iter().enumerate() {
        if number >= first && !is_lost(number, lost) {
            output.note(to.socket.handle_input(bytes));
        }
    }
}

/// Time passes up to the moment at which the first of the sockets has something to do.
fn pass_time<S: Driven>(a: &mut Side<S>, b: &mut Side<S>, output: &mut Output) {
    let now = a.socket.poll_timeout().min(b.socket.poll_timeout());
    writeln!(output, "{} ms", now.as_nanos() / 1_000_000);
    output.note(a.socket.advance_time(now));
    output.note(b.socket.advance_time(now));
}

/// Hands over what each end sent; where nothing is on its way, time passes. Then what the sockets emit is taken.
fn go_on<S: Driven>(
    a: &mut Side<S>,
    b: &mut Side<S>,
    progress: Progress,
    output: &mut Output,
) -> Progress {
    let next = Progress {
        a: a.packets.len(),
        b: b.packets.len(),
        ..progress
    };
    if next.a == progress.a && next.b == progress.b {
        pass_time(a, b, output);
    } else {
        hand_over(b, &a.packets, progress.a, progress.lost, output);
        hand_over(a, &b.packets, progress.b, progress.lost, output);
    }
    take_emitted(a, true, output);
    take_emitted(b, true, output);
    next
}

/// Whether the end has sent nothing else, has nothing to send, and neither opens nor ends an association.
fn is_quiet<S: Driven>(side: &Side<S>, sent: usize) -> bool {
    let is_settled = match side.socket.state() {
        SocketState::Closed | SocketState::Connected => true,
        SocketState::Connecting | SocketState::ShuttingDown => false,
    };
    is_settled && side.packets.len() == sent && side.socket.shown().rests
}

fn longest(packets: &[Vec<u8>]) -> usize {
    let mut size = 0;
    for packet in packets {
        size = packet.len().max(size);
    }
    size
}

/// How many packets an end sent, and the size of the longest.
fn show_packets(name: &str, packets: &[Vec<u8>], output: &mut Output) {
    let (count, size) = (packets.len(), longest(packets));
    writeln!(output, "{name} sent {count} packets of at most {size}");
}

/// Hands over the packets of both ends from this number on, but of so many the last one, until all is quiet.
pub fn exchange<S: Driven>(
    a: &mut Side<S>,
    b: &mut Side<S>,
    first: usize,
    lost: usize,
    output: &mut Output,
) {
    let mut progress = Progress {
        a: first,
        b: first,
        lost,
    };
    for _ in 0..TURNS {
        if is_quiet(a, progress.a) && is_quiet(b, progress.b) {
            writeln!(output, "all is quiet");
            break;
        }
        progress = go_on(a, b, progress, output);
    }
    show_packets(a.name, &a.packets, output);
    show_packets(b.name, &b.packets, output);
}
