//! How hard a channel tries.

ghost use Rattle.std.specs.Prelude.{◌≡◌, false, IfSome, IfNone};
ghost use Rattle.sctp_channels.specs.Message.{channel_type, is_channel_type, parameter, MeansParameter};

/// How often a message of a channel is sent again (RFC 8832 section 5.1, Channel Type and Reliability Parameter).
#[derive(Clone, Copy, Debug)]
pub enum Reliability {
    /// Until it arrives.
    Reliable,
    /// At most so many times.
    MaxRetransmissions(u32),
    /// For at most so many milliseconds.
    MaxLifetime(u32),
}

impl Reliability {
    /// The number of a channel with this reliability, whose messages are handed out in order or not.
    pub fn channel_type(self, unordered: bool) -> u8
        ensures { result ≡ channel_type unordered self }
    {
        match (unordered, self) {
            (false, Reliability::Reliable) => 0x00,
            (false, Reliability::MaxRetransmissions(_)) => 0x01,
            (false, Reliability::MaxLifetime(_)) => 0x02,
            (true, Reliability::Reliable) => 0x80,
            (true, Reliability::MaxRetransmissions(_)) => 0x81,
            (true, Reliability::MaxLifetime(_)) => 0x82,
        }
    }

    /// The number that goes with the channel type; 0 for a reliable channel.
    pub fn parameter(self) -> u32
        ensures { result ≡ parameter self }
    {
        match self {
            Reliability::Reliable => 0,
            Reliability::MaxRetransmissions(count) => count,
            Reliability::MaxLifetime(milliseconds) => milliseconds,
        }
    }

    /// Whether a channel of this type is unordered, and its reliability. `None` where the type is none of the six. The parameter of a
    /// reliable channel is not looked at.
    pub fn from_channel_type(typ: u8, parameter: u32) -> Option<(bool, Reliability)>
        ensures typed { IfSome result (λ read. typ ≡ channel_type read.0 read.1) }
        ensures means { IfSome result (λ read. MeansParameter read.1 parameter) }
        ensures none { IfNone result (is_channel_type typ ≡ false) }
    {
        match typ {
            0x00 => Some((false, Reliability::Reliable)),
            0x01 => Some((false, Reliability::MaxRetransmissions(parameter))),
            0x02 => Some((false, Reliability::MaxLifetime(parameter))),
            0x80 => Some((true, Reliability::Reliable)),
            0x81 => Some((true, Reliability::MaxRetransmissions(parameter))),
            0x82 => Some((true, Reliability::MaxLifetime(parameter))),
            _ => None,
        }
    }
}
