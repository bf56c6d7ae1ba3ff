//! A queue of fragments.

ghost use Rattle.std.specs.Prelude.{◌≡◌, true, IsTrue};
ghost use Rattle.sctp_state.specs.Handover.{receive_of};
ghost use Rattle.sctp_state.specs.Validity.{is_valid_reception};

use crate::answer::{Answer, Subject, run_commands};
use crate::output::Output;
use crate::receiver::pieces::{
    entries, fragment_of, show_message, show_next, stream_ids, stream_key,
};
use crate::words::{Line, word_at};
use sctp_chunk::DataView;
use sctp_packet::{Data, SkippedStream};
use sctp_rx::ReassemblyQueue;
use sctp_serial::{Fsn, Mid, PpId, Ssn, StreamId, StreamKey, Tsn};
use sctp_state::SocketHandoverState;
use sctp_state::api::handover::{
    HandoverOrderedStream, HandoverSocketState, HandoverUnorderedStream,
};
use std::alloc::{AllocError, Global};

/// A queue, and what it wrote for a handover.
#[derive(Drop)]
struct Queue {
    queue: ReassemblyQueue,
    state: SocketHandoverState,
    max_size: u32,
    max_fragments: usize,
}

/// Takes the commands of a script on a queue. Without a third word fragments have no bound.
pub fn run(line: &Line<'_>, script: &str, output: &mut Output) {
    let is_interleaved = line.word == "interleaved";
    let max_size = line.second.word;
    let max_fragments = if word_at(line.text, 3).is_empty() {
        usize::MAX
    } else {
        line.third.word as usize
    };
    let queue = ReassemblyQueue::new(output.alloc, max_size as usize, is_interleaved);
    let queue = Queue {
        queue: queue.with_max_fragments(max_fragments),
        state: record(output.alloc, is_interleaved),
        max_size,
        max_fragments,
    };
    run_commands(queue, script, output);
}

/// The record of a socket that has sent nothing.
fn record(alloc: Global, message_interleaving: bool) -> SocketHandoverState {
    let mut state = SocketHandoverState::empty(alloc);
    state.socket_state = HandoverSocketState::Connected;
    state.my_verification_tag = 1;
    state.peer_verification_tag = 1;
    state.capabilities.message_interleaving = message_interleaving;
    state.tx.cwnd = 1;
    state.tx.next_tsn = 1;
    state
}

/// Whether a record is valid, of a connected socket.
#[tactic(auto, using(sctp_reassembly::proofs::ReceptionLemmas::valid_reception))]
fn is_valid(state: &SocketHandoverState) -> bool
    ensures { IsTrue result → is_valid_reception state.now.capabilities.message_interleaving (receive_of state.now.rx) ≡ true }
{
    match state.socket_state {
        HandoverSocketState::Closed => false,
        HandoverSocketState::Connected => state.is_valid(),
    }
}

impl Subject for Queue {
    /// `sizes`; `fragments`; `readiness`; `write`; `restore`; `next`; `ready PLACE`; and changes.
    fn obey(&mut self, line: &Line<'_>, output: &mut Output) -> Answer {
        match line.name {
            "next" => show_next(self.queue.get_next_message(), output),
            "ready" => show_message(self.queue.ready(line.first.size), output),
            "sizes" | "fragments" | "readiness" => show(&self.queue, line.name, output),
            "write" => self.write(output),
            "restore" => self.restore(output),
            _ => change(&mut self.queue, line, output),
        }
    }
}

/// What there is no room for is not taken.
fn add(queue: &mut ReassemblyQueue, tsn: Tsn, fragment: Data) -> Result<(), AllocError> {
    if queue.queued_bytes() >= 1 << 40
        || fragment.payload.len() >= 1 << 40
        || queue.holds_most_fragments()
    {
        drop(fragment);
        return Ok(());
    }
    queue.add(tsn, fragment)
}

/// `add TSN STREAM NUMBER FSN ENDS HEX TIMES`, so many with TSNs and FSNs that follow one another, `forward TSN ENTRY ..`,
/// `reset STREAM ..`, `defer TSN STREAM ..`, `let-go`: of spare buffers. Answered by how much there is then, as is `sums`.
fn change(queue: &mut ReassemblyQueue, line: &Line<'_>, output: &mut Output) -> Answer {
    let tsn = Tsn(line.first.word);
    match line.name {
        "add" => {
            for more in 0..line.number(7).word.max(1) {
                let mut fragment = fragment_of(line, output);
                fragment.fsn = fragment.fsn + more;
                output.note(add(queue, tsn + more, fragment));
            }
        }
        "forward" => {
            let entries = entries(line, output);
            output.note(queue.handle_forward_tsn(tsn, &entries));
        }
        "reset" => {
            let ids = stream_ids(line, 1, output);
            output.note(queue.reset_streams_and_leave_deferred_reset(&ids));
        }
        "defer" => {
            let ids = stream_ids(line, 2, output);
            output.note(queue.enter_deferred_reset(tsn, &ids));
        }
        "let-go" => queue.let_buffers_go(),
        _ => return ask(queue, line, output),
    }
    show(queue, "sums", output)
}

/// `point TSN COUNT`, `admits TSN STREAM`, `room BYTES`: what the copy of a fragment has.
fn ask(queue: &mut ReassemblyQueue, line: &Line<'_>, output: &mut Output) -> Answer {
    match line.name {
        "point" => point(queue, line, output),
        "admits" => {
            let key = stream_key(word_at(line.text, 2));
            Answer::Is(queue.admits_fragment(Tsn(line.first.word), key))
        }
        "room" => room(queue, line.first.size, output),
        name => show(queue, name, output),
    }
}

fn room(queue: &mut ReassemblyQueue, size: usize, output: &mut Output) -> Answer {
    let payload = output.made(vec![in output.alloc; 0u8; size]);
    let copy = queue.copy_of(DataView {
        tsn: Tsn(1),
        stream_key: StreamKey::Ordered(StreamId(1)),
        ssn: Ssn(0),
        mid: Mid(0),
        fsn: Fsn(0),
        ppid: PpId(53),
        payload: &payload,
        is_beginning: true,
        is_end: false,
        immediate_ack: false,
    });
    match copy {
        Ok(copy) => {
            let room = copy.payload.capacity();
            drop(copy);
            Answer::Number(room as u128)
        }
        Err(_) => Answer::NoMemory,
    }
}

/// Says whether a forward point with so many entries, all for the first message of stream 1, is admitted, and takes it then.
fn point(queue: &mut ReassemblyQueue, line: &Line<'_>, output: &mut Output) -> Answer {
    let tsn = Tsn(line.first.word);
    let mut skipped = Vec::new(output.alloc);
    for _ in 0..line.second.word {
        output.note(skipped.push(SkippedStream::ForwardTsn(StreamId(1), Ssn(0))));
    }
    let is_admitted = queue.admits_point(tsn, &skipped);
    if is_admitted {
        output.note(queue.handle_forward_tsn(tsn, &skipped));
    }
    Answer::Is(is_admitted)
}

impl Queue {
    /// The streams with their next numbers, then those of unordered messages.
    fn write(&mut self, output: &mut Output) -> Answer {
        output.note(self.queue.add_to_handover_state(&mut self.state));
        show_ordered(&self.state.rx.ordered_streams, output);
        show_unordered(&self.state.rx.unordered_streams, output);
        Answer::Text
    }

    /// A new queue takes up what was written.
    fn restore(&mut self, output: &mut Output) -> Answer {
        if !is_valid(&self.state) {
            return Answer::Refused;
        }
        let is_interleaved = self.state.capabilities.message_interleaving;
        let mut other = ReassemblyQueue::new(
            output.alloc,
            self.max_size as usize,
            is_interleaved,
        ).with_max_fragments(self.max_fragments);
        output.note(other.restore_from_state(&self.state));
        drop(std::mem::replace(&mut self.queue, other));
        show(&self.queue, "sums", output)
    }
}

fn show_ordered(streams: &[HandoverOrderedStream], output: &mut Output) {
    output.push_str("ordered");
    for stream in streams {
        output.fill(" #:#", &[stream.id as u128, stream.next_ssn as u128]);
    }
}

fn show_unordered(streams: &[HandoverUnorderedStream], output: &mut Output) {
    output.push_str(" unordered");
    for stream in streams {
        output.fill(" #", &[stream.id as u128]);
    }
}

fn show(queue: &ReassemblyQueue, name: &str, output: &mut Output) -> Answer {
    match name {
        "sizes" => output.text(
            "became ready #, left #, above watermark ?, full ?",
            &[
                queue.rx_messages_count() as u128,
                queue.remaining_bytes() as u128,
                queue.is_above_watermark() as u128,
                queue.is_full() as u128,
            ],
        ),
        "fragments" => {
            let is_most = queue.holds_most_fragments();
            output.text(
                "fragments #, most ?",
                &[queue.held_fragments() as u128, is_most as u128],
            )
        }
        "readiness" => {
            write!(output, "[{}]", queue.get_handover_readiness());
            Answer::Text
        }
        _ => {
            let (count, bytes) = (queue.messages_ready_count(), queue.queued_bytes());
            output.text("ready #, bytes #", &[count as u128, bytes as u128])
        }
    }
}
