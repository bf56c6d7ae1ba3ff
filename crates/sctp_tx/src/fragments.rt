//! Where fragments go that are to be sent.

ghost use Rattle.std.specs.Prelude.{◌≡◌, ℕ, OnOk};
ghost use Rattle.sctp_chunk.specs.Chunk.{FragmentTree};
ghost use Rattle.sctp_chunk.specs.Views.{fragment_tree};

use sctp_packet::Data;
use sctp_serial::{SocketTime, Tsn};
use sctp_tx_outstanding::item::copy_of;
use std::alloc::{AllocError, Global};
use std::marker::Model;

/// How a packet carries fragments.
#[derive(Clone, Copy, Debug)]
pub struct ChunkForm {
    /// As I-DATA (RFC 8260), else as DATA.
    pub is_interleaved: bool,
    /// With the request to acknowledge at once (RFC 7053).
    pub is_immediate: bool,
}

/// An opportunity to send: a packet is to be filled.
#[derive(Clone, Copy, Debug)]
pub struct SendOpportunity {
    /// The moment at which the packet goes.
    pub now: SocketTime,
    /// The bytes of chunks that it has room for.
    pub max_bytes: usize,
    /// How it carries fragments.
    pub form: ChunkForm,
}

impl SendOpportunity {
    /// A packet goes now, with room for so many bytes of chunks, and carries fragments in this form.
    pub fn at(now: SocketTime, max_bytes: usize, form: ChunkForm) -> SendOpportunity
        ensures { result ≡ record { now = now; max_bytes = max_bytes; form = form } }
    {
        SendOpportunity {
            now,
            max_bytes,
            form,
        }
    }
}

/// What takes fragments one after the other, as a packet does. It borrows them: each is kept until it is acknowledged.
pub trait TakesFragments {
    ghost use Rattle.sctp_tx.specs.declared.fragments.ChunkForm.{ChunkForm};

    // with this fragment, in this form, under this TSN
    ghost taken: { ChunkForm → ℕ × FragmentTree → Self → Self };

    /// Takes one more, where it does; without memory it may be left out.
    fn take(&mut self, form: ChunkForm, tsn: Tsn, fragment: &Data) -> Result<(), AllocError>
        ensures { OnOk result (self.new ≡ taken form (tsn.0, fragment_tree fragment.now) self.old) };
}

/// A list of fragments with their TSNs.
#[derive(Drop)]
pub struct FragmentList {
    alloc: Global,
    chunks: Vec<(Tsn, Data)>,
}

impl Model for FragmentList {
    ghost use Rattle.std.specs.Prelude.{ℕ, List, map};
    ghost use Rattle.sctp_chunk.specs.Chunk.{FragmentTree};
    ghost use Rattle.sctp_tx_outstanding.specs.Views.{chunk_of};

    ghost Value = { List (ℕ × FragmentTree) };

    ghost view = { λ l. map chunk_of l.chunks.items };
}

impl FragmentList {
    ghost use Rattle.std.specs.Prelude.{[], map};
    ghost use Rattle.sctp_tx_outstanding.specs.Views.{chunk_of};

    /// No fragments.
    pub fn new(alloc: Global) -> FragmentList
        ensures { result ≡ [] }
    {
        FragmentList {
            alloc,
            chunks: Vec::new(alloc),
        }
    }

    /// The fragments with their TSNs, in order.
    pub fn into_chunks(self) -> Vec<(Tsn, Data)>
        ensures { map chunk_of result.items ≡ self }
    {
        self.chunks
    }
}

impl TakesFragments for FragmentList {
    ghost use Rattle.std.specs.Prelude.{◌++◌, ◌∷◌, []};

    ghost taken = { λ _ c l. l ++ c ∷ [] };

    fn take(&mut self, _form: ChunkForm, tsn: Tsn, fragment: &Data) -> Result<(), AllocError> {
        let copy = copy_of(self.alloc, fragment)?;
        self.chunks.push((tsn, copy))?;
        Ok(())
    }
}
