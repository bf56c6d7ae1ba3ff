//! The chunk that carries a fragment which stays where it is.

ghost use Rattle.std.specs.Prelude.{true};
ghost use Rattle.sctp_chunk.specs.Written.{chunk_item};
ghost use Rattle.sctp_chunk.specs.Views.{fragment_chunk_tree};

use crate::data::{Data, DataChunk, IDataChunk, push_data, push_idata};
use sctp_serial::Tsn;
use sctp_wire::SerializableTlv;
use std::alloc::AllocError;

/// The DATA, or I-DATA, of a fragment that is borrowed.
#[derive(Clone, Copy, Debug)]
pub struct FragmentChunk<'a> {
    pub tsn: Tsn,
    pub fragment: &'a Data,
    /// Whether the sender asks for an acknowledgement at once.
    pub immediate_ack: bool,
    /// Whether it is I-DATA.
    pub is_interleaved: bool,
}

#[tactic(auto, unfolding(crate::specs::Written::chunk_value))]
impl SerializableTlv for FragmentChunk<'_> {
    ghost item_of = { λ c. chunk_item (fragment_chunk_tree c) };

    ghost parts_agree = { λ _. true };

    fn kind(&self) -> [u8; 2] {
        let flags = self.fragment.flags(self.immediate_ack);
        if self.is_interleaved {
            [IDataChunk::TYPE, flags]
        } else {
            [DataChunk::TYPE, flags]
        }
    }

    #[tactic(auto, using(crate::proofs::ValueLemmas::length_data, crate::proofs::ValueLemmas::length_idata))]
    fn value_size(&self) -> usize {
        if self.is_interleaved {
            self.fragment.payload.len().saturating_add(16)
        } else {
            self.fragment.payload.len().saturating_add(12)
        }
    }

    fn is_whole(&self) -> bool {
        true
    }

    fn push_value(&self, output: &mut Vec<u8>) -> Result<(), AllocError> {
        if self.is_interleaved {
            push_idata(self.tsn, self.fragment, output)
        } else {
            push_data(self.tsn, self.fragment, output)
        }
    }
}
