//! The fields of a DATA_CHANNEL_OPEN that have a fixed length.

ghost use Rattle.std.specs.Prelude.{◌≡◌, ◌<◌, ◌++◌, length, IfSome, IfNone, OnOk};
ghost use Rattle.sctp_channels.specs.Message.{HeaderFits, header_bytes};

use sctp_wire::{first_u16, first_u32, push_u16, push_u32};
use std::alloc::AllocError;

/// What is between the message type and the label, eleven bytes.
#[derive(Clone, Copy)]
pub(crate) struct Header {
    pub(crate) channel_type: u8,
    pub(crate) priority: u16,
    pub(crate) parameter: u32,
    pub(crate) label_length: u16,
    pub(crate) protocol_length: u16,
}

impl Header {
    /// The fields at the front of the bytes, and the bytes behind them. `None` where there are too few.
    #[tactic(auto, unfolding(crate::specs::Message::header_bytes))]
    pub(crate) fn at(bytes: &[u8]) -> Option<(Header, &[u8])>
        ensures joined { IfSome result (λ read. bytes.now ≡ header_bytes read.0 ++ read.1.now) }
        ensures fits { IfSome result (λ read. HeaderFits read.0) }
        ensures none { IfNone result (length bytes.now < 11) }
    {
        if bytes.len() < 11 {
            return None;
        }
        let Some((channel_type, rest)) = bytes.split_first() else {
            unreachable!();
        };
        let (priority, rest) = first_u16(rest);
        let (parameter, rest) = first_u32(rest);
        let (label_length, rest) = first_u16(rest);
        let (protocol_length, rest) = first_u16(rest);
        let header = Header {
            channel_type: *channel_type,
            priority,
            parameter,
            label_length,
            protocol_length,
        };
        Some((header, rest))
    }

    /// Appends the fields.
    #[tactic(auto, unfolding(crate::specs::Message::header_bytes))]
    pub(crate) fn push_to(self, output: &mut Vec<u8>) -> Result<(), AllocError>
        ensures wrote { OnOk result (output.new.items ≡ output.old.items ++ header_bytes self) }
        ensures fits { HeaderFits self }
    {
        output.push(self.channel_type)?;
        push_u16(output, self.priority)?;
        push_u32(output, self.parameter)?;
        push_u16(output, self.label_length)?;
        push_u16(output, self.protocol_length)
    }
}
