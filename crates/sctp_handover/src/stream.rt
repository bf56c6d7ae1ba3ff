//! Streams.

ghost use Rattle.sctp_state.specs.declared.api.handover.HandoverOrderedStream.{HandoverOrderedStream};
ghost use Rattle.sctp_state.specs.declared.api.handover.HandoverOutgoingStream.{HandoverOutgoingStream};
ghost use Rattle.sctp_state.specs.declared.api.handover.HandoverUnorderedStream.{HandoverUnorderedStream};
ghost use Rattle.sctp_handover.specs.Bounds.{OrderedFits, OutgoingFits, UnorderedFits};
ghost use Rattle.sctp_handover.specs.Bytes.{ordered_bytes, outgoing_bytes, unordered_bytes};
ghost use Rattle.sctp_handover.specs.Parts.{ordered_has_bytes, outgoing_has_bytes, unordered_has_bytes};

use crate::field::{number16_at, number32_at, push_numbers16, push_numbers32};
use crate::part::Part;
use sctp_state::api::handover::{
    HandoverOrderedStream, HandoverOutgoingStream, HandoverUnorderedStream,
};
use sctp_wire::{push_u16, push_u32};
use std::alloc::{AllocError, Global};

impl Part for HandoverOutgoingStream {
    ghost Value = { HandoverOutgoingStream };

    ghost value_of = { λ s. s };

    ghost bytes_of = { outgoing_bytes };

    ghost Fits = { OutgoingFits };

    ghost has_bytes = { outgoing_has_bytes };

    fn part_at(
        _alloc: Global,
        bytes: &[u8],
    ) -> Result<(HandoverOutgoingStream, &[u8]), AllocError> {
        let (id, rest) = number16_at(bytes);
        let (next_ssn, rest) = number16_at(rest);
        let (next_unordered_mid, rest) = number32_at(rest);
        let (next_ordered_mid, rest) = number32_at(rest);
        let (priority, rest) = number16_at(rest);
        let stream = HandoverOutgoingStream {
            id,
            next_ssn,
            next_unordered_mid,
            next_ordered_mid,
            priority,
        };
        Ok((stream, rest))
    }

    fn push_to(&self, output: &mut Vec<u8>) -> Result<(), AllocError> {
        push_numbers16(output, &[self.id, self.next_ssn])?;
        push_numbers32(output, &[self.next_unordered_mid, self.next_ordered_mid])?;
        push_u16(output, self.priority)
    }
}

impl Part for HandoverOrderedStream {
    ghost Value = { HandoverOrderedStream };

    ghost value_of = { λ s. s };

    ghost bytes_of = { ordered_bytes };

    ghost Fits = { OrderedFits };

    ghost has_bytes = { ordered_has_bytes };

    fn part_at(_alloc: Global, bytes: &[u8]) -> Result<(HandoverOrderedStream, &[u8]), AllocError> {
        let (id, rest) = number16_at(bytes);
        let (next_ssn, rest) = number32_at(rest);
        Ok((HandoverOrderedStream { id, next_ssn }, rest))
    }

    #[tactic(auto, unfolding(crate::specs::Bytes::ordered_bytes))]
    fn push_to(&self, output: &mut Vec<u8>) -> Result<(), AllocError> {
        push_u16(output, self.id)?;
        push_u32(output, self.next_ssn)
    }
}

impl Part for HandoverUnorderedStream {
    ghost Value = { HandoverUnorderedStream };

    ghost value_of = { λ s. s };

    ghost bytes_of = { unordered_bytes };

    ghost Fits = { UnorderedFits };

    ghost has_bytes = { unordered_has_bytes };

    fn part_at(
        _alloc: Global,
        bytes: &[u8],
    ) -> Result<(HandoverUnorderedStream, &[u8]), AllocError> {
        let (id, rest) = number16_at(bytes);
        Ok((HandoverUnorderedStream { id }, rest))
    }

    #[tactic(auto, unfolding(crate::specs::Bytes::unordered_bytes))]
    fn push_to(&self, output: &mut Vec<u8>) -> Result<(), AllocError> {
        push_u16(output, self.id)
    }
}
