//! What a channel may do, and when its stream is free again.

ghost use Rattle.std.specs.Prelude.{◌≡◌};
ghost use Rattle.sctp_channels.specs.Lifecycle.{answer, asks_for_reset, close, confirm, deny, drain, finish, is_connecting, is_over, may_reopen, may_send, needs_answer, negotiated, opened, refused, reopened, state, stop_incoming, takes_data};

/// Whether both ends have the channel.
#[derive(Clone, Copy, Debug)]
pub enum Opening {
    /// This end has sent DATA_CHANNEL_OPEN, and since then neither an answer nor a message came.
    Connecting,
    /// Both ends have it.
    Established,
    /// The peer opened it, and this end doesn't take it, or the peer has reset a stream without a channel: its stream is reset, and nothing else.
    Refused,
}

/// What has become of the outgoing stream.
#[derive(Clone, Copy, Debug)]
pub enum Outgoing {
    /// Messages are accepted.
    Sending,
    /// No message is accepted any more; those that were go out first, as long as the peer hasn't reset its stream. A former reset is answered first.
    Draining,
    /// The reset was asked for, and isn't answered.
    Resetting,
    /// The peer has performed the reset.
    Stopped,
    /// The reset was refused, by the peer or by the socket: the stream stays in use as long as the association.
    Denied,
}

/// What a channel is to its owner, in the words of W3C's `RTCDataChannel.readyState`.
#[derive(Clone, Copy, Debug)]
pub enum ChannelState {
    /// This end opens it, and `Opened` is to come. Messages are accepted.
    Connecting,
    /// Both ends have it; one that was negotiated is so at once. Messages are accepted.
    Open,
    /// An end closes it, and `Closed` is to come. No message is accepted.
    Closing,
    /// The owner was told that it is closed, or never had it, and its stream isn't free.
    Closed,
}

/// A channel between its opening and the moment when its stream is free for the next one.
#[derive(Clone, Copy, Debug)]
pub struct Lifecycle {
    /// Whether both ends have it.
    pub opening: Opening,
    /// What has become of the outgoing stream.
    pub outgoing: Outgoing,
    /// Whether the peer has reset its outgoing stream, which is the incoming one here.
    pub is_incoming_reset: bool,
    /// Whether the reset of this stream that belongs to the channel before is unanswered (`may_reopen`).
    pub awaits_answer: bool,
}

impl Lifecycle {
    /// This end opens a channel: DATA_CHANNEL_OPEN is to be sent.
    pub fn opened() -> Lifecycle
        ensures { result ≡ opened }
    {
        Lifecycle {
            opening: Opening::Connecting,
            ..Lifecycle::negotiated()
        }
    }

    /// A channel that both ends have agreed on beforehand: nothing is sent. So it is too with one that the peer has opened and this end takes:
    /// DATA_CHANNEL_ACK is an output then.
    pub fn negotiated() -> Lifecycle
        ensures { result ≡ negotiated }
    {
        Lifecycle {
            opening: Opening::Established,
            outgoing: Outgoing::Sending,
            is_incoming_reset: false,
            awaits_answer: false,
        }
    }

    /// The peer has opened what this end doesn't take, or has reset a stream without a channel.
    pub fn refused() -> Lifecycle
        ensures { result ≡ refused }
    {
        Lifecycle {
            opening: Opening::Refused,
            outgoing: Outgoing::Draining,
            ..Lifecycle::negotiated()
        }
    }

    /// The peer has opened a channel on the stream of one that `may_reopen`. What is sent waits in the socket for the answer.
    pub fn reopened() -> Lifecycle
        ensures { result ≡ reopened }
    {
        Lifecycle {
            awaits_answer: true,
            ..Lifecycle::negotiated()
        }
    }

    /// Whether the opener waits for an answer. As long as it does all messages go ordered, also those of an unordered channel, so that none
    /// overtakes DATA_CHANNEL_OPEN (RFC 8832 section 6).
    pub fn is_connecting(&self) -> bool
        ensures { result ≡ is_connecting self.now }
    {
        matches!(self.opening, Opening::Connecting)
    }

    /// Whether messages of the owner are accepted.
    pub fn may_send(&self) -> bool
        ensures { result ≡ may_send self.now }
    {
        matches!(self.outgoing, Outgoing::Sending)
    }

    /// What it is to its owner.
    pub fn state(&self) -> ChannelState
        ensures { result ≡ state self.now }
    {
        match (self.opening, self.outgoing) {
            (Opening::Refused, _) | (_, Outgoing::Denied) => ChannelState::Closed,
            (Opening::Connecting, Outgoing::Sending) => ChannelState::Connecting,
            (_, Outgoing::Sending) => ChannelState::Open,
            _ => ChannelState::Closing,
        }
    }

    /// Whether what comes on the stream is of this channel.
    pub fn takes_data(&self) -> bool
        ensures { result ≡ takes_data self.now }
    {
        !matches!(self.opening, Opening::Refused) && !self.is_incoming_reset
    }

    /// Whether an answer to the peer's opening is still of use: the peer has not reset its stream since, and this end's reset wasn't asked for.
    pub(crate) fn needs_answer(&self) -> bool
        ensures { result ≡ needs_answer self.now }
    {
        matches!(self.outgoing, Outgoing::Sending | Outgoing::Draining) && !self.is_incoming_reset
    }

    /// Whether both streams were reset: then the channel is closed, and its stream is free (RFC 8831 section 6.7).
    pub fn is_over(&self) -> bool
        ensures { result ≡ is_over self.now }
    {
        matches!(self.outgoing, Outgoing::Stopped) && self.is_incoming_reset
    }

    /// Whether the peer may open a channel on this stream already. Both resets are under way here, and a peer that has performed this end's may
    /// be ahead of its own answer.
    pub fn may_reopen(&self) -> bool
        ensures { result ≡ may_reopen self.now }
    {
        matches!(self.outgoing, Outgoing::Resetting)
            && self.is_incoming_reset
            && !self.awaits_answer
    }

    /// An answer or a message came.
    pub fn confirm(&mut self)
        ensures { self.new ≡ confirm self.old }
    {
        if self.is_connecting() {
            self.opening = Opening::Established;
        }
    }

    /// The owner closes the channel.
    pub fn close(&mut self)
        ensures { self.new ≡ close self.old }
    {
        if self.may_send() {
            self.outgoing = Outgoing::Draining;
        }
    }

    /// The peer has reset its outgoing stream: this end closes the channel too.
    pub fn stop_incoming(&mut self)
        ensures { self.new ≡ stop_incoming self.old }
    {
        self.is_incoming_reset = true;
        self.close();
    }

    /// So many bytes of the stream wait in the socket for a peer that takes them: none where it has reset its stream. Answers whether this stream's
    /// reset is to be asked for, which drops what waits. It isn't before the stream's former reset is answered.
    pub fn drain(&mut self, buffered_amount: usize) -> bool
        ensures asks { result ≡ asks_for_reset buffered_amount self.old }
        ensures row { self.new ≡ drain buffered_amount self.old }
    {
        match self.outgoing {
            Outgoing::Draining if buffered_amount == 0 && !self.awaits_answer => {
                self.outgoing = Outgoing::Resetting;
                true
            }
            _ => false,
        }
    }

    /// The peer has performed the reset of the outgoing stream that was asked for.
    pub fn finish(&mut self)
        ensures { self.new ≡ finish self.old }
    {
        self.answer(Outgoing::Stopped);
    }

    /// The reset of the outgoing stream was refused.
    pub fn deny(&mut self)
        ensures { self.new ≡ deny self.old }
    {
        self.answer(Outgoing::Denied);
    }

    /// The first answer is that to the channel before, where there was one.
    fn answer(&mut self, outgoing: Outgoing)
        ensures { self.new ≡ answer outgoing self.old }
    {
        if self.awaits_answer {
            self.awaits_answer = false;
        } else if let Outgoing::Resetting = self.outgoing {
            self.outgoing = outgoing;
        }
    }
}
