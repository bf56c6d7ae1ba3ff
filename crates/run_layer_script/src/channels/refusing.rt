//! A socket that may refuse what channels send, and what their owner is told then.

use crate::answer::Answer;
use crate::output::Output;
use crate::words::{Line, cut};
use sctp_channels::{CONTROL_PPID, DataChannels};
use sctp_serial::{Message, SocketTime, StreamId};
use sctp_state::{
    BatchFault, CallError, DcSctpSocket, ErrorKind, HandoverError, HandoverReadiness, Metrics,
    Options, ResetStreamsError, RestoreError, SendError, SendOptions, SocketEvent,
    SocketHandoverState, SocketState,
};
use std::alloc::{AllocError, Global};
use std::collections::VecDeque;

/// More events are not looked for.
const MANY: u32 = 1000;

/// DATA_CHANNEL_OPEN of an ordered, reliable channel without a label.
const OPEN: [u8; 12] = [3, 0, 0, 0, 0, 0, 0, 0, 0, 0, 0, 0];

/// A socket without a peer: it has room for so many messages, and emits an error for each one that it refuses. A reset that it is asked for is
/// performed.
#[derive(Drop)]
struct Refusing {
    alloc: Global,
    state: SocketState,
    options: Options,
    room: u32,
    offered: u32,
    events: VecDeque<SocketEvent>,
    messages: VecDeque<Message>,
}

impl Refusing {
    fn emit(&mut self, event: SocketEvent) -> Result<(), AllocError> {
        self.events.push_back(event)?;
        Ok(())
    }

    /// Emits an error for this refusal.
    fn refuse(&mut self, refusal: SendError) -> Result<(), SendError> {
        let text = String::new(self.alloc);
        self.emit(SocketEvent::OnError(ErrorKind::NoError, text))?;
        Err(refusal)
    }
}

impl DcSctpSocket for Refusing {
    fn poll_event(&mut self) -> Option<SocketEvent> {
        self.events.pop_front()
    }

    fn get_next_message(&mut self) -> Option<Message> {
        self.messages.pop_front()
    }

    fn handle_input(&mut self, _bytes: &[u8]) -> Result<(), CallError> {
        Ok(())
    }

    fn advance_time(&mut self, _now: SocketTime) -> Result<(), CallError> {
        Ok(())
    }

    fn poll_timeout(&self) -> SocketTime {
        SocketTime::zero()
    }

    fn connect(&mut self) -> Result<(), CallError> {
        Ok(())
    }

    fn close(&mut self) -> Result<(), CallError> {
        Ok(())
    }

    fn shutdown(&mut self) -> Result<(), CallError> {
        Ok(())
    }

    fn send(&mut self, _message: Message, _options: &SendOptions) -> Result<(), SendError> {
        self.offered = self.offered.saturating_add(1);
        if self.options.max_message_size == 0 {
            return self.refuse(SendError::MessageTooLarge { len: 1, limit: 0 });
        }
        if self.state == SocketState::ShuttingDown {
            return self.refuse(SendError::ShuttingDown);
        }
        if self.room == 0 {
            return self.refuse(SendError::ResourceExhaustion);
        }
        self.room = self.room.saturating_sub(1);
        self.emit(SocketEvent::SendPacket(Vec::new(self.alloc)))?;
        Ok(())
    }

    fn send_many(
        &mut self,
        _messages: Vec<Message>,
        _options: &SendOptions,
    ) -> Result<(), BatchFault> {
        Err(BatchFault::Failed)
    }

    fn reset_streams(&mut self, streams: &[StreamId]) -> Result<(), ResetStreamsError> {
        let mut ids = Vec::new(self.alloc);
        ids.extend_from_slice(streams)?;
        self.emit(SocketEvent::OnStreamsResetPerformed(ids))?;
        Ok(())
    }

    fn set_stream_priority(&mut self, _id: StreamId, _priority: u16) -> Result<(), CallError> {
        Ok(())
    }

    fn get_stream_priority(&self, _id: StreamId) -> u16 {
        256
    }

    fn set_buffered_amount_low_threshold(
        &mut self,
        _id: StreamId,
        _bytes: usize,
    ) -> Result<(), CallError> {
        Ok(())
    }

    fn buffered_amount_low_threshold(&self, _id: StreamId) -> usize {
        0
    }

    fn buffered_amount(&self, _id: StreamId) -> usize {
        0
    }

    fn set_max_message_size(&mut self, bytes: usize) {
        self.options.max_message_size = bytes;
    }

    fn options(&self) -> Options {
        self.options
    }

    fn state(&self) -> SocketState {
        self.state
    }

    fn get_metrics(&self) -> Option<Metrics> {
        None
    }

    fn messages_ready_count(&self) -> usize {
        self.messages.len()
    }

    fn get_handover_readiness(&self) -> HandoverReadiness {
        HandoverReadiness(0)
    }

    fn get_handover_state_and_close(&mut self) -> Result<SocketHandoverState, HandoverError> {
        Err(HandoverError::Failed)
    }

    fn restore_from_state(&mut self, _state: &SocketHandoverState) -> Result<(), RestoreError> {
        Ok(())
    }
}

/// Prints what the owner is told, until nothing more is.
fn tell(channels: &mut DataChannels, socket: &mut Refusing, output: &mut Output) {
    for _ in 0..MANY {
        match channels.poll_event(socket) {
            Ok(Some(event)) => {
                output.debug_line(&event);
                drop(event);
            }
            Ok(None) => break,
            Err(fault) => output.note(Err(fault)),
        }
    }
}

fn begin(alloc: Global, state: SocketState, room: u32, size: usize) -> Refusing {
    Refusing {
        alloc,
        state,
        options: Options {
            max_message_size: size,
            ..Options::default()
        },
        room,
        offered: 0,
        events: VecDeque::new(alloc),
        messages: VecDeque::new(alloc),
    }
}

/// The peer opens a channel.
fn open(channels: &mut DataChannels, socket: &mut Refusing, id: u16, output: &mut Output) {
    let bytes = output.made(Vec::from_slice(output.alloc, &OPEN));
    let message = Message::new(StreamId(id), CONTROL_PPID, bytes);
    output.note(socket.messages.push_back(message));
    tell(channels, socket, output);
}

/// A packet goes out, by which there is room for so many messages.
fn make_room(channels: &mut DataChannels, socket: &mut Refusing, room: u32, output: &mut Output) {
    output.push_str("room\n");
    socket.room = room;
    output.note(socket.emit(SocketEvent::SendPacket(Vec::new(output.alloc))));
    tell(channels, socket, output);
    output.fill("offered #\n", &[socket.offered as u128]);
}

/// A socket in a state that has room for so many messages, of so many bytes at most.
pub fn meet(line: &Line<'_>, output: &mut Output) -> Answer {
    let state = match line.word {
        "closed" => SocketState::Closed,
        "connecting" => SocketState::Connecting,
        "connected" => SocketState::Connected,
        "shutting-down" => SocketState::ShuttingDown,
        _ => return Answer::Unknown,
    };
    let (_, sizes) = cut(line.rest, ' ');
    let (room, size) = cut(sizes, ' ');
    let (Ok(room), Ok(size)) = (room.parse::<u32>(), size.parse::<usize>()) else {
        return Answer::Unknown;
    };
    let mut channels = DataChannels::new(output.alloc, true, 8, 100, 100, 100, 100);
    let mut socket = begin(output.alloc, state, room, size);
    open(&mut channels, &mut socket, 1, output);
    make_room(&mut channels, &mut socket, room.saturating_add(1), output);
    drop(socket);
    drop(channels);
    Answer::Done
}

/// Behind a channel whose answer isn't taken the peer opens others, one after the other on one stream, and resets as many as it is said.
pub fn reopen(line: &Line<'_>, output: &mut Output) -> Answer {
    let mut channels = DataChannels::new(output.alloc, true, 8, 100, 100, 100, 100);
    let mut socket = begin(output.alloc, SocketState::Connected, 0, 1);
    open(&mut channels, &mut socket, 1, output);
    for i in 0..line.first.word {
        open(&mut channels, &mut socket, 3, output);
        if i < line.second.word {
            let ids = output.made(Vec::from_slice(output.alloc, &[StreamId(3)]));
            output.note(socket.emit(SocketEvent::OnIncomingStreamReset(ids)));
            tell(&mut channels, &mut socket, output);
        }
    }
    make_room(&mut channels, &mut socket, MANY, output);
    drop(socket);
    drop(channels);
    Answer::Done
}
