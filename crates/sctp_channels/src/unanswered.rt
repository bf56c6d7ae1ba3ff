//! Streams that are to be answered.

ghost use Rattle.std.specs.Prelude.{◌≡◌, ◌≤◌, ◌++◌, ℕ, List, [], length, OnOk, OnErr, IsTrue, option_to_list, slice_get};
ghost use Rattle.sctp_channels.specs.DataChannels.{needs_answer_at};
ghost use Rattle.sctp_channels.specs.Entries.{channel_at};
ghost use Rattle.sctp_channels.specs.Unanswered.{wait};

use crate::{CONTROL_PPID, ChannelMessage, Channels, take_first};
use sctp_serial::{Message, StreamId};
use sctp_state::{CallError, DcSctpSocket, SendError, SendOptions, SocketState};
use std::alloc::{AllocError, Global};
use std::collections::{BTreeSet, VecDeque};
use std::marker::Model;

/// The streams whose DATA_CHANNEL_OPEN is to be answered, in order, each once: however often a peer opens and resets a stream, they are no more than
/// there are streams.
#[derive(Drop)]
pub(crate) struct Unanswered {
    streams: VecDeque<u16>,
    // the same streams
    waiting: BTreeSet<u16>,
}

impl Model for Unanswered {
    ghost use Rattle.std.specs.Prelude.{ℕ, List};
    ghost use Rattle.sctp_channels.specs.Unanswered.{AreWaiting};

    ghost Value = { List ℕ };

    ghost view = { λ u. u.streams.items };

    ghost invariant = { λ u. AreWaiting u.waiting.keys u.streams.items };
}

impl Unanswered {
    pub(crate) fn new(alloc: Global) -> Unanswered
        ensures { result ≡ [] }
    {
        Unanswered {
            streams: VecDeque::new(alloc),
            waiting: BTreeSet::new(alloc),
        }
    }

    /// How many there are.
    pub(crate) fn len(&self) -> usize
        ensures len { result ≡ length self.now }
        ensures few { result ≤ 65_536 }
    {
        self.streams.len()
    }

    /// The one that is to be answered next.
    pub(crate) fn first(&self) -> Option<u16>
        ensures { result ≡ slice_get self.now 0 }
    {
        self.streams.front().copied()
    }

    /// The stream is to be answered behind the others, or at its place where it is one of them.
    pub(crate) fn push(&mut self, id: u16) -> Result<(), AllocError>
        ensures ok { OnOk result (self.new ≡ wait id self.old) }
        ensures err { OnErr result (self.new ≡ self.old) }
    {
        self.streams.reserve(1)?;
        if self.waiting.insert(id)? {
            self.streams.push_back_reserved(id);
        }
        Ok(())
    }

    /// The first one is answered, or needs no answer any more.
    pub(crate) fn take_first(&mut self) -> Option<u16>
        ensures { self.old ≡ option_to_list result ++ self.new }
    {
        let id = take_first(&mut self.streams)?;
        self.waiting.remove(&id);
        Some(id)
    }

    pub(crate) fn clear(&mut self)
        ensures { self.new ≡ [] }
    {
        self.streams.clear();
        self.waiting.clear();
    }
}

/// Whether the association may still take an answer. One that shuts down takes none, and a closed socket would keep it for the next association.
pub(crate) fn takes_answers<S: DcSctpSocket>(socket: &S) -> bool {
    match socket.state() {
        SocketState::Connecting | SocketState::Connected => socket.options().max_message_size != 0,
        SocketState::Closed | SocketState::ShuttingDown => false,
    }
}

/// Whether an answer is still of use: the peer has a channel on the stream, and neither end has reset it since, or asked for it. One that went out
/// behind the reset would be the first message of a later channel.
fn needs_answer(channels: &Channels, id: StreamId) -> bool
    ensures { result ≡ needs_answer_at (channel_at id.0 channels.now.entries) }
{
    match channels.get(id) {
        None => false,
        Some(channel) => channel.lifecycle().needs_answer(),
    }
}

/// Answers on this stream, and says whether the socket has taken the answer.
fn answer<S: DcSctpSocket>(alloc: Global, socket: &mut S, id: StreamId) -> Result<bool, CallError> {
    let bytes = ChannelMessage::Ack.to_bytes(alloc)?;
    let message = Message::new(id, CONTROL_PPID, bytes);
    match socket.send(message, &SendOptions::default()) {
        Ok(()) => Ok(true),
        Err(SendError::Memory) => Err(CallError::Memory),
        Err(SendError::Failed) => Err(CallError::Failed),
        Err(_refusal) => Ok(false),
    }
}

/// Answers the openings of the peer, up to the first answer that the socket doesn't take.
#[tactic(auto, using(crate::proofs::FollowsLemmas::answered_none, crate::proofs::FollowsLemmas::answered_more))]
pub(crate) fn answer_each<S: DcSctpSocket>(
    alloc: Global,
    socket: &mut S,
    channels: &Channels,
    unanswered: &mut Unanswered,
) -> Result<(), CallError>
    ensures { (answered : List ℕ) × (unanswered.old ≡ answered ++ unanswered.new) }
{
    for _ in 0..unanswered.len() {
        let Some(id) = unanswered.first() else {
            break;
        };
        let id = StreamId(id);
        if needs_answer(channels, id) && !answer(alloc, socket, id)? {
            break;
        }
        unanswered.take_first();
    }
    Ok(())
}
