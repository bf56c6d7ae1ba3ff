//! Streams by name, for look-ups.

ghost use Rattle.std.specs.Prelude.{◌≡◌, ◌==◌, ◌||◌, ℕ, length, IfOk};
ghost use Rattle.std.specs.List.{list_any};
ghost use Rattle.sctp_reassembly.specs.ReassemblyStreams.{is_named, is_part};
ghost use Rattle.sctp_reassembly.specs.StreamIdSet.{has_bit, AreNamedIn};

use sctp_serial::StreamId;
use std::alloc::{AllocError, Global};
use std::marker::Model;

/// So many words have a bit for each stream.
const WORDS: usize = 1024;

/// Streams in the order in which they were named, each with its bit. Where none is named, all are meant.
#[derive(Drop)]
pub struct StreamIdSet {
    ids: Vec<StreamId>,
    words: Vec<u64>,
}

impl Model for StreamIdSet {
    ghost use Rattle.std.specs.Prelude.{List};
    ghost use Rattle.sctp_serial.specs.declared.api.StreamId.{StreamId};
    ghost use Rattle.sctp_reassembly.specs.StreamIdSet.{AreNamedIn};

    ghost Value = { List StreamId };

    ghost view = { λ n. n.ids.items };

    ghost invariant = { λ n. AreNamedIn n.words.items n.ids.items };
}

impl StreamIdSet {
    /// The streams with these ids.
    pub fn new(alloc: Global, ids: &[StreamId]) -> Result<StreamIdSet, AllocError>
        ensures { IfOk result (λ named. named ≡ ids.now) }
    {
        let words = words_of(alloc, ids)?;
        let ids = Vec::from_slice(alloc, ids)?;
        Ok(StreamIdSet { ids, words })
    }

    fn has(&self, id: u16) -> bool
        ensures { result ≡ list_any (λ i. i.0 == id) self.now }
    {
        is_set(&self.words, id)
    }

    /// Whether the stream is meant.
    pub fn is_named(&self, id: u16) -> bool
        ensures { result ≡ is_named self.now id }
    {
        self.ids.is_empty() || self.has(id)
    }

    /// Whether the stream is one of those that are meant, or of the others.
    pub fn is_part(&self, named: bool, id: u16) -> bool
        ensures { result ≡ is_part named self.now id }
    {
        if named {
            self.is_named(id)
        } else {
            !self.is_named(id)
        }
    }
}

/// Whether the stream has its bit.
fn is_set(words: &[u64], id: u16) -> bool
    requires { length words.now ≡ 1024 }
    ensures { result ≡ has_bit words.now id }
{
    let word = words[id as usize / 64];
    (word >> (id as u32 % 64)) % 2 == 1
}

/// Sets the stream's bit.
fn set_bit(words: &mut Vec<u64>, id: u16)
    requires { length words.old.items ≡ 1024 }
    ensures length { length words.new.items ≡ 1024 }
    ensures bits { (k : ℕ) → has_bit words.new.items k ≡ ((id == k) || has_bit words.old.items k) }
{
    let place = id as usize / 64;
    let word = words[place];
    words[place] = word | 1 << (id as u32 % 64);
}

/// The bits of the streams.
fn words_of(alloc: Global, ids: &[StreamId]) -> Result<Vec<u64>, AllocError>
    ensures { IfOk result (λ words. AreNamedIn words.items ids.now) }
{
    let mut words = Vec::from_elem(alloc, 0, WORDS)?;
    for id in ids {
        set_bit(&mut words, id.0);
    }
    Ok(words)
}
