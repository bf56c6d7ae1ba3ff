//! The channels of an association, and the socket below.

ghost use Rattle.std.specs.Prelude.{◌≡◌, ◌<◌, ℕ, true, IsTrue, IsFalse, None, Some, List, [], ◌∷◌, ◌++◌, length, IfOk, IfNone, OnOk, OnErr, option_copied, option_map, option_to_list};
ghost use Rattle.sctp_serial.specs.Messages.{message_of};
ghost use Rattle.sctp_state.specs.Events.{event_of as socket_event_of, numbers_of};
ghost use Rattle.sctp_channels.specs.Channel.{count_received, takes_whole};
ghost use Rattle.sctp_channels.specs.Views.{open_of};
ghost use Rattle.sctp_channels.specs.Payload.{protocol_of};
ghost use Rattle.sctp_channels.specs.Channels.{OnMessage, change, close, is_own, negotiate, no_channels, on_incoming_reset, on_reset_denied, on_reset_performed, open_own, output_of, sent};
ghost use Rattle.sctp_channels.specs.Entries.{channel_at};
ghost use Rattle.sctp_channels.specs.DataChannels.{IsOpenAt, IsShortEnough};
ghost use Rattle.sctp_channels.specs.Steps.{DataChannels, Follows, Gets, StaysTold, acknowledged_by, each, ended, event_of, heard, named, passed_on, told_by, with_channels, with_outputs};

mod beginning;
mod settling;

use crate::closing::Closing;
use crate::data_channels::beginning::begins_with_cookie;
use crate::event::passed_on;
use crate::unanswered::{Unanswered, answer_each, takes_answers};
use crate::{
    CONTROL_PPID, Channel, ChannelEvent, ChannelMessage, Channels, DataChannelOpen, OpenError,
    Output, PayloadKind, PayloadProtocol, SendRefusal, data_message, take_first,
};
use sctp_serial::{Message, StreamId};
use sctp_state::{CallError, DcSctpSocket, ResetStreamsError, SendOptions, SocketEvent};
use std::alloc::{AllocError, Global};
use std::collections::VecDeque;
use std::marker::Model;

/// More events are not looked for in one `collect`.
const MANY: u32 = 1_000_000;

/// The channels of an association.
///
/// A message that is given up leaves a record in the socket: one of a channel that is not reliable, and any that waits where its stream is reset,
/// an answer too. The calls of `DcSctpSocket` don't reach these records: the owner takes them each turn, by `next_given_up` of `Socket`, or they
/// pile up. Channels have no use for them.
#[derive(Drop)]
pub struct DataChannels {
    alloc: Global,
    channels: Channels,
    events: VecDeque<ChannelEvent>,
    // streams whose answer the socket hasn't taken; it is offered again with each packet that goes out, as long as neither end resets the stream
    unanswered: Unanswered,
    closing: Closing,
    peer_max_message_size: usize,
    max_buffered_amount: usize,
    // memory lacked as something was taken, which is lost: nothing more is
    has_failed: bool,
}

impl Model for DataChannels {
    ghost use Rattle.std.specs.Prelude.{map};
    ghost use Rattle.sctp_channels.specs.Steps.{DataChannels, event_of};

    ghost Value = { DataChannels };

    ghost view = { λ d. record { channels = d.channels; peer_limit = d.peer_max_message_size; buffer_limit = d.max_buffered_amount; events = map event_of d.events.items; unanswered = d.unanswered } };
}

impl DataChannels {
    /// No channels. The client of DTLS opens even streams, the server odd ones, below `stream_count`, and once the association stands below the
    /// number that was negotiated. A message of more than `max_message_size` bytes isn't taken, and none is sent of more than
    /// `peer_max_message_size`, as the session descriptions say, where 0 is any; nor one by which more than `max_buffered_amount` bytes of its
    /// channel would wait. `max_kept_bytes` is as for `Channels::new`.
    pub fn new(
        alloc: Global,
        is_client: bool,
        stream_count: u16,
        max_message_size: usize,
        peer_max_message_size: usize,
        max_buffered_amount: usize,
        max_kept_bytes: usize,
    ) -> DataChannels
        ensures { result ≡ record { channels = no_channels is_client stream_count max_message_size max_kept_bytes; peer_limit = peer_max_message_size; buffer_limit = max_buffered_amount; events = []; unanswered = [] } }
    {
        DataChannels {
            alloc,
            channels: Channels::new(
                alloc,
                is_client,
                stream_count,
                max_message_size,
                max_kept_bytes,
            ),
            events: VecDeque::new(alloc),
            unanswered: Unanswered::new(alloc),
            closing: Closing::new(alloc),
            peer_max_message_size,
            max_buffered_amount,
            has_failed: false,
        }
    }

    /// The channel on a stream: `lifecycle().state()` says how far it is.
    pub fn get(&self, id: StreamId) -> Option<&Channel>
        ensures { option_copied result ≡ channel_at id.0 self.now.channels.entries }
    {
        self.channels.get(id)
    }

    /// Takes what happened first.
    pub fn next_event(&mut self) -> Option<ChannelEvent>
        ensures taken { self.old ≡ record self.new { events = option_to_list (option_map event_of result) ++ self.new.events } }
        ensures none { IfNone result (self.old.events ≡ []) }
    {
        take_first(&mut self.events)
    }

    /// Opens a channel. Messages may be sent on it at once; `Opened` tells when the peer has it. Its stream has its priority once the next call
    /// of `collect`, of `close` or, where nothing waits for the owner, of `poll_event` was made.
    pub fn open<S: DcSctpSocket>(
        &mut self,
        socket: &mut S,
        description: DataChannelOpen,
    ) -> Result<StreamId, OpenError>
        ensures ok { IfOk result (λ id. self.new ≡ with_channels (open_own id.0 (open_of description) self.old.channels) self.old) }
        ensures free { IfOk result (λ id. channel_at id.0 self.old.channels.entries ≡ None) }
        ensures own { IfOk result (λ id. is_own self.old.channels.is_client id.0 ≡ true) }
        ensures there { IfOk result (λ id. id.0 < self.old.channels.stream_count) }
        ensures err { OnErr result (self.new ≡ self.old) }
    {
        let message = ChannelMessage::Open(description);
        if !message.is_encodable() {
            return Err(OpenError::TooLong);
        }
        let Some(id) = self.channels.free_stream() else {
            return Err(OpenError::NoFreeStream);
        };
        let bytes = message.to_bytes(self.alloc)?;
        socket.send(
            Message::new(id, CONTROL_PPID, bytes),
            &SendOptions::default(),
        )?;
        let ChannelMessage::Open(description) = message else {
            unreachable!();
        };
        self.channels.open(id, description)?;
        Ok(id)
    }

    /// A channel that both ends have agreed on, on a stream that is free. It is open at once, and its stream has its priority as by `open`.
    pub fn negotiate(&mut self, id: StreamId, description: DataChannelOpen) -> Result<(), OpenError>
        ensures ok { OnOk result (self.new ≡ with_channels (negotiate id.0 (open_of description) self.old.channels) self.old) }
        ensures free { OnOk result (channel_at id.0 self.old.channels.entries ≡ None) }
        ensures err { OnErr result (self.new ≡ self.old) }
    {
        if self.channels.get(id).is_some() {
            return Err(OpenError::StreamInUse);
        }
        self.channels.negotiate(id, description)?;
        Ok(())
    }

    /// Sends a message. Text is UTF-8.
    pub fn send<S: DcSctpSocket>(
        &mut self,
        socket: &mut S,
        id: StreamId,
        kind: PayloadKind,
        payload: Vec<u8>,
    ) -> Result<(), SendRefusal>
        ensures ok { OnOk result (self.new ≡ with_channels (sent id.0 (length payload.items) self.old.channels) self.old) }
        ensures opened { OnOk result (IsOpenAt (channel_at id.0 self.old.channels.entries)) }
        ensures short { OnOk result (IsShortEnough (length payload.items) self.old) }
        ensures err { OnErr result (self.new ≡ self.old) }
    {
        let size = payload.len();
        let given = self.given(socket.buffered_amount(id), id, kind, payload);
        self.channels.send(socket, id, size, given)
    }

    /// What is to be sent, where it is short enough for the peer and for what waits on the channel.
    fn given(
        &self,
        buffered: usize,
        id: StreamId,
        kind: PayloadKind,
        payload: Vec<u8>,
    ) -> Result<Message, SendRefusal>
        ensures { OnOk result (IsShortEnough (length payload.items) self.now) }
    {
        let size = payload.len();
        if self.peer_max_message_size != 0 && self.peer_max_message_size < size {
            return Err(SendRefusal::TooLong);
        }
        if self.max_buffered_amount < buffered.saturating_add(size) {
            return Err(SendRefusal::Full);
        }
        Ok(data_message(id, kind, payload)?)
    }

    /// Closes a channel. What was accepted is sent first, as long as the peer doesn't close it too; `Closed` tells when the stream is free, unless
    /// its reset was refused, or the peer has opened another channel there. Before there is an association the reset waits for that.
    #[tactic(auto, using(crate::proofs::FollowsLemmas::told_then, crate::proofs::FollowsLemmas::told_same))]
    pub fn close<S: DcSctpSocket>(&mut self, socket: &mut S, id: StreamId) -> Result<(), CallError>
        ensures closed { OnOk result (Follows (with_channels (close id.0 self.old.channels) self.old) self.new) }
        ensures done { OnOk result (self.new.channels.outputs ≡ []) }
        ensures told { StaysTold self.old self.new }
    {
        self.channels.close(id);
        self.note_closing(id)?;
        self.settle(socket)
    }

    /// Hands the socket the bytes of a packet that came, and takes what it brings, as `collect`. Of one that begins with a COOKIE ECHO messages
    /// are taken behind the events that say how the association stands, and behind what was emitted before: they may be another association's.
    pub fn handle_input<S: DcSctpSocket>(
        &mut self,
        socket: &mut S,
        bytes: &[u8],
    ) -> Result<(), CallError>
        ensures steps { OnOk result (Follows self.old self.new) }
        ensures done { OnOk result (self.new.channels.outputs ≡ []) }
        ensures told { StaysTold self.old self.new }
    {
        if self.has_failed {
            return Err(CallError::Failed);
        }
        let done = self.take_packet(socket, bytes);
        self.mark(done)
    }

    #[inline(always)]
    fn take_packet<S: DcSctpSocket>(
        &mut self,
        socket: &mut S,
        bytes: &[u8],
    ) -> Result<(), CallError>
        ensures steps { OnOk result (Follows self.old self.new) }
        ensures done { OnOk result (self.new.channels.outputs ≡ []) }
        ensures told { StaysTold self.old self.new }
    {
        if begins_with_cookie(bytes) {
            return self.take_cookie(socket, bytes);
        }
        socket.handle_input(bytes)?;
        self.collect_all(socket)
    }

    /// Keeps in mind that a call failed.
    #[inline(always)]
    fn mark(&mut self, done: Result<(), CallError>) -> Result<(), CallError>
        ensures result { result ≡ done }
        ensures same { self.new ≡ self.old }
    {
        if done.is_err() {
            self.has_failed = true;
        }
        done
    }

    /// Takes what the socket has handed out and emitted: messages first, since a channel's are ready before the reset that closes it is emitted.
    pub fn collect<S: DcSctpSocket>(&mut self, socket: &mut S) -> Result<(), CallError>
        ensures steps { OnOk result (Follows self.old self.new) }
        ensures done { OnOk result (self.new.channels.outputs ≡ []) }
        ensures told { StaysTold self.old self.new }
    {
        if self.has_failed {
            return Err(CallError::Failed);
        }
        let done = self.collect_all(socket);
        self.mark(done)
    }

    #[inline(always)]
    fn collect_all<S: DcSctpSocket>(&mut self, socket: &mut S) -> Result<(), CallError>
        ensures steps { OnOk result (Follows self.old self.new) }
        ensures done { OnOk result (self.new.channels.outputs ≡ []) }
        ensures told { StaysTold self.old self.new }
    {
        self.take_ready(socket)?;
        self.take_rest(socket)
    }

    /// What the socket has ready, and what is to be done then.
    #[inline(always)]
    fn take_ready<S: DcSctpSocket>(&mut self, socket: &mut S) -> Result<(), CallError>
        ensures steps { OnOk result (Follows self.old self.new) }
        ensures told { StaysTold self.old self.new }
    {
        self.take_messages(socket)?;
        self.settle(socket)
    }

    /// What the socket emitted, and what is to be done then.
    #[inline(always)]
    fn take_rest<S: DcSctpSocket>(&mut self, socket: &mut S) -> Result<(), CallError>
        ensures steps { OnOk result (Follows self.old self.new) }
        ensures done { OnOk result (self.new.channels.outputs ≡ []) }
        ensures told { StaysTold self.old self.new }
    {
        self.take_events(socket)?;
        self.settle(socket)
    }

    /// Takes what happens next: what waits for the owner, or else what the socket has handed out and emitted since, as `collect` finds it.
    /// A packet, or that a stream is low, is passed on at once where nothing else is to be done.
    #[tactic(auto, using(crate::proofs::FollowsLemmas::follows_told, crate::proofs::FollowsLemmas::follows_same, crate::proofs::FollowsLemmas::told_first, crate::proofs::FollowsLemmas::told_same))]
    pub fn poll_event<S: DcSctpSocket>(
        &mut self,
        socket: &mut S,
    ) -> Result<Option<ChannelEvent>, CallError>
        ensures steps { IfOk result (λ told. Follows self.old (record self.new { events = option_to_list (option_map event_of told) ++ self.new.events })) }
        ensures none { IfOk result (λ told. IfNone told (self.new.events ≡ [])) }
        ensures first { IfOk result (λ told. StaysTold self.old (record self.new { events = option_to_list (option_map event_of told) ++ self.new.events })) }
        ensures err { OnErr result (StaysTold self.old self.new) }
    {
        if self.has_told_all() {
            if self.has_failed {
                return Err(CallError::Failed);
            }
            if socket.messages_ready_count() == 0 && self.is_quiet() {
                return self.pass_on(socket);
            }
            self.collect(socket)?;
        }
        Ok(self.next_event())
    }

    /// Whether nothing waits for the owner.
    #[tactic(auto, using(crate::proofs::FollowsLemmas::nothing_told))]
    fn has_told_all(&self) -> bool
        ensures { IsTrue result → self.now.events ≡ [] }
    {
        self.events.len() == 0
    }

    /// Takes what the socket emitted, where nothing waits in front of it.
    fn pass_on<S: DcSctpSocket>(
        &mut self,
        socket: &mut S,
    ) -> Result<Option<ChannelEvent>, CallError>
        requires { self.old.events ≡ [] }
        ensures steps { IfOk result (λ told. Follows self.old (record self.new { events = option_to_list (option_map event_of told) ++ self.new.events })) }
        ensures none { IfOk result (λ told. IfNone told (self.new.events ≡ [])) }
        ensures first { IfOk result (λ told. StaysTold self.old (record self.new { events = option_to_list (option_map event_of told) ++ self.new.events })) }
        ensures err { OnErr result (StaysTold self.old self.new) }
    {
        match socket.poll_event() {
            None => Ok(None),
            Some(SocketEvent::SendPacket(bytes)) => {
                Ok(Some(ChannelEvent::Socket(SocketEvent::SendPacket(bytes))))
            }
            Some(SocketEvent::OnBufferedAmountLow(id)) => {
                Ok(Some(ChannelEvent::BufferedAmountLow(id)))
            }
            Some(event) => {
                self.take_marked(socket, event)?;
                Ok(self.next_event())
            }
        }
    }

    /// The same as `take_others`, of which is kept in mind that it failed.
    #[inline(always)]
    fn take_marked<S: DcSctpSocket>(
        &mut self,
        socket: &mut S,
        event: SocketEvent,
    ) -> Result<(), CallError>
        ensures steps { OnOk result (Follows self.old self.new) }
        ensures told { StaysTold self.old self.new }
    {
        let done = self.take_others(socket, event);
        self.mark(done)
    }

    /// An event, and what the socket emitted behind it.
    fn take_others<S: DcSctpSocket>(
        &mut self,
        socket: &mut S,
        event: SocketEvent,
    ) -> Result<(), CallError>
        ensures steps { OnOk result (Follows self.old self.new) }
        ensures done { OnOk result (self.new.channels.outputs ≡ []) }
        ensures told { StaysTold self.old self.new }
    {
        self.take_event(socket, event)?;
        self.take_rest(socket)
    }

    /// Whether nothing is to be done, asked for or answered.
    fn is_quiet(&self) -> bool
        ensures { IsTrue result → self.now.channels.outputs ≡ [] }
    {
        self.closing.is_empty() && self.channels.output_count() == 0 && self.unanswered.len() == 0
    }

    fn take_messages<S: DcSctpSocket>(&mut self, socket: &mut S) -> Result<(), CallError>
        ensures steps { OnOk result (Follows self.old self.new) }
        ensures told { StaysTold self.old self.new }
    {
        for _ in 0..socket.messages_ready_count() {
            match socket.get_next_message() {
                Some(message) => self.take_message(message)?,
                None => break,
            }
        }
        Ok(())
    }

    #[inline(always)]
    fn take_events<S: DcSctpSocket>(&mut self, socket: &mut S) -> Result<(), CallError>
        ensures steps { OnOk result (Follows self.old self.new) }
        ensures told { StaysTold self.old self.new }
    {
        for _ in 0..MANY {
            match socket.poll_event() {
                Some(event) => self.take_event(socket, event)?,
                None => break,
            }
        }
        Ok(())
    }

    /// Takes a message. A whole one of a channel is told at once, where nothing is to be done or told before it.
    #[tactic(auto, using(crate::proofs::FollowsLemmas::follows_gets, crate::proofs::FollowsLemmas::told_same, crate::proofs::FollowsLemmas::told_more))]
    fn take_message(&mut self, message: Message) -> Result<(), AllocError>
        ensures steps { OnOk result (Follows self.old self.new) }
        ensures told { StaysTold self.old self.new }
    {
        let id = message.stream_id;
        if let Some(PayloadProtocol::Data(kind)) = PayloadProtocol::from_ppid(message.ppid) {
            if self.counts_at_once(id, message.payload.len()) {
                self.tell(ChannelEvent::Message(id, kind, message.payload))?;
                return Ok(());
            }
        }
        self.take_other(message)?;
        Ok(())
    }

    fn counts_at_once(&mut self, id: StreamId, size: usize) -> bool
        ensures quiet { IsTrue result → self.old.channels.outputs ≡ [] }
        ensures whole { IsTrue result → option_map (takes_whole self.old.channels.limit size) (channel_at id.0 self.old.channels.entries) ≡ Some true }
        ensures row { IsTrue result → self.new ≡ with_channels (change (count_received size) id.0 self.old.channels) self.old }
        ensures none { IsFalse result → self.new ≡ self.old }
        ensures told { self.new.events ≡ self.old.events }
    {
        self.channels.counts_at_once(id, size)
    }

    /// What is not told at once. A message of the opening may close the channel of its stream.
    #[inline(never)]
    fn take_other(&mut self, message: Message) -> Result<(), AllocError>
        ensures row { OnOk result (Gets (message_of message) self.old self.new) }
        ensures told { self.new.events ≡ self.old.events }
    {
        let id = message.stream_id;
        self.on_message(message)?;
        self.note_message(id)?;
        Ok(())
    }

    fn on_message(&mut self, message: Message) -> Result<(), AllocError>
        ensures row { OnOk result (OnMessage (protocol_of message.ppid.0) message.stream_id.0 message.payload.items self.old.channels self.new.channels) }
        ensures rest { OnOk result (self.new ≡ with_channels self.new.channels self.old) }
        ensures told { self.new.events ≡ self.old.events }
    {
        self.channels.on_message(message)
    }

    /// Keeps in mind that the stream is to be reset, where it is.
    fn note_closing(&mut self, id: StreamId) -> Result<(), AllocError>
        ensures { self.new ≡ self.old }
    {
        if self.channels.is_draining(id) {
            self.closing.insert(id)?;
        }
        Ok(())
    }

    /// Something came on the stream, and may have closed its channel.
    fn note_message(&mut self, id: StreamId) -> Result<(), AllocError>
        ensures { self.new ≡ self.old }
    {
        self.closing.on_data(id);
        self.note_closing(id)
    }

    #[inline(always)]
    fn take_event<S: DcSctpSocket>(
        &mut self,
        socket: &mut S,
        event: SocketEvent,
    ) -> Result<(), CallError>
        ensures steps { OnOk result (Follows self.old self.new) }
        ensures told { StaysTold self.old self.new }
    {
        match event {
            SocketEvent::SendPacket(bytes) => {
                self.carry_out_again(socket)?;
                self.tell(ChannelEvent::Socket(SocketEvent::SendPacket(bytes)))?;
                Ok(())
            }
            event => match self.left_of(event)? {
                Some(event) => self.take_other_event(socket, event),
                None => Ok(()),
            },
        }
    }

    /// What is left of an event, where the channels have something to do with it.
    fn left_of(&mut self, event: SocketEvent) -> Result<Option<SocketEvent>, AllocError>
        ensures { self.new ≡ self.old }
    {
        self.closing.left_of(&self.channels, event)
    }

    #[inline(never)]
    fn take_other_event<S: DcSctpSocket>(
        &mut self,
        socket: &mut S,
        event: SocketEvent,
    ) -> Result<(), CallError>
        ensures steps { OnOk result (Follows self.old self.new) }
        ensures told { StaysTold self.old self.new }
    {
        self.note_streams(socket, &event);
        self.hear(&event)?;
        if let Some(event) = passed_on(event) {
            self.carry_out(socket)?;
            self.tell(event)?;
        }
        Ok(())
    }

    /// Once the association stands, streams are those that were negotiated for both directions.
    #[tactic(auto, using(crate::proofs::FollowsLemmas::follows_counts, crate::proofs::FollowsLemmas::follows_same))]
    fn note_streams<S: DcSctpSocket>(&mut self, socket: &S, event: &SocketEvent)
        ensures steps { Follows self.old self.new }
        ensures told { self.new.events ≡ self.old.events }
    {
        if let SocketEvent::OnConnected() = event {
            if let Some(metrics) = socket.get_metrics() {
                let incoming = metrics.negotiated_maximum_incoming_streams;
                let outgoing = metrics.negotiated_maximum_outgoing_streams;
                self.set_stream_count(incoming.min(outgoing));
            }
        }
    }

    fn set_stream_count(&mut self, stream_count: u16)
        ensures { self.new ≡ with_channels (record self.old.channels { stream_count = stream_count }) self.old }
    {
        self.channels.set_stream_count(stream_count);
    }

    #[inline(always)]
    fn tell(&mut self, event: ChannelEvent) -> Result<(), AllocError>
        ensures ok { OnOk result (self.new ≡ record self.old { events = self.old.events ++ event_of event ∷ [] }) }
        ensures err { OnErr result (self.new ≡ self.old) }
    {
        if self.events.len() < self.events.capacity() {
            self.events.push_back_reserved(event);
            return Ok(());
        }
        self.tell_growing(event)
    }

    /// The same, where there may be no room yet.
    #[inline(never)]
    fn tell_growing(&mut self, event: ChannelEvent) -> Result<(), AllocError>
        ensures ok { OnOk result (self.new ≡ record self.old { events = self.old.events ++ event_of event ∷ [] }) }
        ensures err { OnErr result (self.new ≡ self.old) }
    {
        self.events.push_back(event)?;
        Ok(())
    }

    /// What an event makes of the channels: all are closed before the owner is told of their end, and those on streams that an association doesn't
    /// have before it is told that this stands.
    fn hear(&mut self, event: &SocketEvent) -> Result<(), AllocError>
        ensures row { OnOk result (self.new ≡ heard (socket_event_of event.now) self.old) }
        ensures told { self.new.events ≡ self.old.events }
    {
        match event {
            SocketEvent::OnIncomingStreamReset(ids) => self.on_incoming_resets(ids),
            SocketEvent::OnStreamsResetPerformed(ids) => self.on_resets_performed(ids),
            SocketEvent::OnStreamsResetFailed(ids) => self.on_resets_denied(ids),
            SocketEvent::OnBufferedAmountLow(id) => self.closing.insert_due_if_closing(*id),
            SocketEvent::OnConnected() => self.channels.end_all_missing(),
            SocketEvent::OnClosed() => self.end(),
            SocketEvent::OnConnectionRestarted() => self.end(),
            SocketEvent::OnAborted(_kind, _text) => self.end(),
            _ => Ok(()),
        }
    }

    fn end(&mut self) -> Result<(), AllocError>
        ensures row { OnOk result (self.new ≡ ended self.old) }
        ensures told { self.new.events ≡ self.old.events }
    {
        self.channels.end()?;
        self.unanswered.clear();
        self.closing.clear();
        Ok(())
    }

    /// The peer has performed resets. A channel that is closed on such a stream, and has waited for that, has its own asked for.
    fn on_resets_performed(&mut self, ids: &[StreamId]) -> Result<(), AllocError>
        ensures row { OnOk result (self.new ≡ with_channels (each on_reset_performed (numbers_of ids.now) self.old.channels) self.old) }
        ensures told { self.new.events ≡ self.old.events }
    {
        self.closing.on_answers(ids)?;
        self.channels.on_resets_performed(ids)
    }

    /// The peer has refused resets: a channel that has waited for that has its own asked for too.
    fn on_resets_denied(&mut self, ids: &[StreamId]) -> Result<(), AllocError>
        ensures row { OnOk result (self.new ≡ with_channels (each on_reset_denied (numbers_of ids.now) self.old.channels) self.old) }
        ensures told { self.new.events ≡ self.old.events }
    {
        self.closing.on_answers(ids)?;
        self.channels.on_resets_denied(ids)
    }

    /// Where no stream is named all are meant that weren't reset yet.
    fn on_incoming_resets(&mut self, ids: &[StreamId]) -> Result<(), AllocError>
        ensures row { OnOk result (self.new ≡ with_channels (each on_incoming_reset (named (numbers_of ids.now) self.old.channels) self.old.channels) self.old) }
        ensures told { self.new.events ≡ self.old.events }
    {
        if ids.is_empty() {
            let all = self.channels.incoming_streams()?;
            return self.on_each_reset(&all);
        }
        self.on_each_reset(ids)
    }

    fn on_each_reset(&mut self, ids: &[StreamId]) -> Result<(), AllocError>
        ensures row { OnOk result (self.new ≡ with_channels (each on_incoming_reset (numbers_of ids.now) self.old.channels) self.old) }
        ensures told { self.new.events ≡ self.old.events }
    {
        for id in ids {
            self.on_incoming_reset(*id)?;
        }
        Ok(())
    }

    fn on_incoming_reset(&mut self, id: StreamId) -> Result<(), AllocError>
        ensures row { OnOk result (self.new ≡ with_channels (on_incoming_reset id.0 self.old.channels) self.old) }
        ensures told { self.new.events ≡ self.old.events }
    {
        self.closing.insert_due(id)?;
        self.channels.on_incoming_reset(id)
    }

    /// Asks for the resets that are due, and carries out what is to be done.
    #[inline(always)]
    #[tactic(auto, using(crate::proofs::FollowsLemmas::follows_then, crate::proofs::FollowsLemmas::follows_same, crate::proofs::FollowsLemmas::follows_drains, crate::proofs::FollowsLemmas::told_then, crate::proofs::FollowsLemmas::told_same, crate::proofs::FollowsLemmas::no_outputs))]
    fn settle<S: DcSctpSocket>(&mut self, socket: &mut S) -> Result<(), CallError>
        ensures steps { OnOk result (Follows self.old self.new) }
        ensures done { OnOk result (self.new.channels.outputs ≡ []) }
        ensures told { StaysTold self.old self.new }
    {
        if self.is_quiet() {
            return Ok(());
        }
        self.settle_all(socket)
    }

    #[inline(never)]
    fn settle_all<S: DcSctpSocket>(&mut self, socket: &mut S) -> Result<(), CallError>
        ensures steps { OnOk result (Follows self.old self.new) }
        ensures done { OnOk result (self.new.channels.outputs ≡ []) }
        ensures told { StaysTold self.old self.new }
    {
        self.settle_closing(socket)?;
        self.carry_out(socket)
    }

    /// Carries out what is to be done. Where nothing is, nothing changes: what the socket refused isn't tried again, since each refusal emits.
    #[inline(always)]
    #[tactic(auto, using(crate::proofs::FollowsLemmas::follows_then, crate::proofs::FollowsLemmas::follows_same, crate::proofs::FollowsLemmas::follows_carried, crate::proofs::FollowsLemmas::told_then, crate::proofs::FollowsLemmas::told_same, crate::proofs::FollowsLemmas::no_outputs, crate::proofs::FollowsLemmas::all_carried))]
    fn carry_out<S: DcSctpSocket>(&mut self, socket: &mut S) -> Result<(), CallError>
        ensures steps { OnOk result (Follows self.old self.new) }
        ensures done { OnOk result (self.new.channels.outputs ≡ []) }
        ensures told { StaysTold self.old self.new }
        ensures idle { self.old.channels.outputs ≡ [] → self.new ≡ self.old }
    {
        if self.channels.output_count() == 0 {
            return Ok(());
        }
        self.carry_out_all(socket)
    }

    /// The same where a packet goes out, and by that the socket may have room for an answer that it refused.
    #[inline(always)]
    #[tactic(auto, using(crate::proofs::FollowsLemmas::follows_same, crate::proofs::FollowsLemmas::told_same))]
    fn carry_out_again<S: DcSctpSocket>(&mut self, socket: &mut S) -> Result<(), CallError>
        ensures steps { OnOk result (Follows self.old self.new) }
        ensures told { StaysTold self.old self.new }
    {
        if self.channels.output_count() == 0 && self.unanswered.len() == 0 {
            return Ok(());
        }
        self.carry_out_all(socket)
    }

    #[inline(never)]
    fn carry_out_all<S: DcSctpSocket>(&mut self, socket: &mut S) -> Result<(), CallError>
        ensures steps { OnOk result (Follows self.old self.new) }
        ensures done { OnOk result (self.new.channels.outputs ≡ []) }
        ensures told { StaysTold self.old self.new }
    {
        let mut resets = Vec::new(self.alloc);
        self.take_outputs(socket, &mut resets)?;
        self.answer_all(socket)?;
        self.ask_for_resets(socket, &resets)?;
        self.take_outputs(socket, &mut resets)?;
        Ok(())
    }

    #[tactic(auto, using(crate::proofs::FollowsLemmas::fewer, crate::proofs::FollowsLemmas::told_same, crate::proofs::FollowsLemmas::carried_all))]
    fn take_outputs<S: DcSctpSocket>(
        &mut self,
        socket: &mut S,
        resets: &mut Vec<StreamId>,
    ) -> Result<(), CallError>
        ensures row { OnOk result (self.new ≡ with_outputs self.old) }
        ensures told { StaysTold self.old self.new }
    {
        while let Some(output) = self.next_output() {
            self.take_output(socket, output, resets)?;
        }
        Ok(())
    }

    fn next_output(&mut self) -> Option<Output>
        ensures taken { self.old ≡ with_channels (record self.new.channels { outputs = option_to_list (option_map output_of result) ++ self.new.channels.outputs }) self.new }
        ensures none { IfNone result (self.old.channels.outputs ≡ []) }
    {
        self.channels.next_output()
    }

    fn take_output<S: DcSctpSocket>(
        &mut self,
        socket: &mut S,
        output: Output,
        resets: &mut Vec<StreamId>,
    ) -> Result<(), CallError>
        ensures row { OnOk result (self.new ≡ record self.old { events = self.old.events ++ told_by (output_of output); unanswered = acknowledged_by (output_of output) self.old.unanswered }) }
        ensures err { OnErr result (self.new ≡ self.old) }
    {
        match output {
            Output::Acknowledge(id) => self.unanswered.push(id.0)?,
            Output::Reset(id) => keep(resets, id)?,
            Output::Prioritize(id, priority) => socket.set_stream_priority(id, priority)?,
            Output::Opened(id) => self.tell(ChannelEvent::Opened(id))?,
            Output::Message(id, kind, bytes) => self.tell(ChannelEvent::Message(id, kind, bytes))?,
            Output::Closed(id) => self.tell(ChannelEvent::Closed(id))?,
            Output::Refused(id, why) => self.tell(ChannelEvent::Refused(id, why))?,
        }
        Ok(())
    }

    /// Answers the openings of the peer, as far as the socket takes messages.
    #[tactic(auto, using(crate::proofs::FollowsLemmas::follows_answers, crate::proofs::FollowsLemmas::follows_same))]
    fn answer_all<S: DcSctpSocket>(&mut self, socket: &mut S) -> Result<(), CallError>
        ensures steps { OnOk result (Follows self.old self.new) }
        ensures told { self.new.events ≡ self.old.events }
    {
        if !takes_answers(socket) {
            return Ok(());
        }
        answer_each(self.alloc, socket, &self.channels, &mut self.unanswered)
    }

    /// A reset that the socket doesn't ask for, since the peer takes none, is refused.
    #[tactic(auto, using(crate::proofs::FollowsLemmas::follows_same, crate::proofs::FollowsLemmas::follows_refuses))]
    fn ask_for_resets<S: DcSctpSocket>(
        &mut self,
        socket: &mut S,
        ids: &[StreamId],
    ) -> Result<(), CallError>
        ensures steps { OnOk result (Follows self.old self.new) }
        ensures told { self.new.events ≡ self.old.events }
    {
        if ids.is_empty() {
            return Ok(());
        }
        match socket.reset_streams(ids) {
            Ok(()) => Ok(()),
            Err(ResetStreamsError::Memory) => Err(CallError::Memory),
            Err(ResetStreamsError::Failed) => Err(CallError::Failed),
            Err(_refusal) => Ok(self.channels.on_resets_denied(ids)?),
        }
    }
}

fn keep(ids: &mut Vec<StreamId>, id: StreamId) -> Result<(), AllocError> {
    ids.push(id)?;
    Ok(())
}
