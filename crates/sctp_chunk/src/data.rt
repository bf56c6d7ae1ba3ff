//! DATA (RFC 9260 section 3.3.1) and I-DATA (RFC 8260 section 2.1): fragments of messages.

ghost use Rattle.std.specs.Prelude.{◌≡◌, ◌≢◌, ◌⊎◌, ◌<◌, length, OnOk, OnErr, ◌+◌, ◌++◌, true, false, [], IfOk, IfErr};
ghost use Rattle.sctp_wire.specs.Room.{Fills};
ghost use Rattle.sctp_chunk.specs.Written.{chunk_item, chunk_value, data_value, idata_value, fragment_flags, ppid_or_fsn, flag, key_stream};
ghost use Rattle.sctp_chunk.specs.Grammar.{IsChunk, RefusesChunkAs};
ghost use Rattle.sctp_chunk.specs.Views.{raw_chunk, fragment_tree, viewed_fragment, viewed_data, viewed_idata, data_chunk_tree, idata_chunk_tree, is_unordered_key};
ghost use Rattle.std.specs.Prelude.{Some};
ghost use Rattle.sctp_chunk.specs.ChunkText.{chunk_text};

use crate::flags::FragmentFlags;
use crate::raw::RawChunk;
use sctp_serial::{Fsn, Mid, PpId, Ssn, StreamId, StreamKey, Tsn};
use sctp_wire::{ChunkParseError, SerializableTlv, first_u16, first_u32};
use std::alloc::{AllocError, Global};
use std::fmt;

const FLAG_IMMEDIATE: u8 = 8;

const FLAG_UNORDERED: u8 = 4;

const FLAG_BEGINNING: u8 = 2;

const FLAG_END: u8 = 1;

/// A fragment of a message. Fields lie in memory as they stand here: the flags fill a gap, so that it takes 48 bytes.
#[derive(Drop)]
pub struct Data {
    pub stream_key: StreamKey,
    /// The message's number in its stream, as DATA carries it; 0 in what was read from I-DATA.
    pub ssn: Ssn,
    /// Whether the message begins here.
    pub is_beginning: bool,
    /// Whether the message ends here.
    pub is_end: bool,
    /// The message's number in its stream, as I-DATA carries it; 0 in what was read from DATA.
    pub mid: Mid,
    /// The fragment's number in its message, as I-DATA carries it; 0 in what was read from DATA.
    pub fsn: Fsn,
    pub ppid: PpId,
    pub payload: Vec<u8>,
}

impl fmt::Debug for Data {
    fn fmt<W: fmt::Write>(&self, f: &mut fmt::Formatter<W>) -> fmt::Result {
        f.debug_struct("Data")
            .field("stream_key", &self.stream_key)
            .field("ssn", &self.ssn)
            .field("mid", &self.mid)
            .field("fsn", &self.fsn)
            .field("ppid", &self.ppid)
            .field("payload", &self.payload)
            .field("is_beginning", &self.is_beginning)
            .field("is_end", &self.is_end)
            .finish()
    }
}

impl Data {
    /// No payload, numbers 0, ordered on stream 0, neither beginning nor end. Takes no memory.
    pub fn empty(alloc: Global) -> Data
        ensures { fragment_tree result ≡ record {
          stream_id = 0;
          is_unordered = false;
          ssn = 0;
          mid = 0;
          fsn = 0;
          ppid = 0;
          payload = [];
          is_beginning = false;
          is_end = false;
        } }
    {
        Data {
            stream_key: StreamKey::Ordered(StreamId(0)),
            ssn: Ssn(0),
            mid: Mid(0),
            fsn: Fsn(0),
            ppid: PpId(0),
            payload: Vec::new(alloc),
            is_beginning: false,
            is_end: false,
        }
    }

    /// The flags of a chunk that carries the fragment.
    pub(crate) fn flags(&self, immediate_ack: bool) -> u8
        ensures { result ≡ fragment_flags immediate_ack (fragment_tree self.now).is_unordered self.now.is_beginning self.now.is_end }
    {
        let is_unordered = is_unordered(self.stream_key);
        (if immediate_ack { FLAG_IMMEDIATE } else { 0 })
            + ((if is_unordered { FLAG_UNORDERED } else { 0 })
                + ((if self.is_beginning { FLAG_BEGINNING } else { 0 })
                    + (if self.is_end { FLAG_END } else { 0 })))
    }

    /// The flags as they are shown.
    fn shown_flags(&self, immediate: bool) -> FragmentFlags
        ensures { result ≡ record { immediate = immediate; unordered = (fragment_tree self.now).is_unordered; beginning = self.now.is_beginning; end = self.now.is_end } }
    {
        FragmentFlags {
            immediate,
            unordered: is_unordered(self.stream_key),
            beginning: self.is_beginning,
            end: self.is_end,
        }
    }

    /// What stands in the field that I-DATA has for both.
    fn ppid_or_fsn(&self) -> u32
        ensures { result ≡ ppid_or_fsn (fragment_tree self.now) }
    {
        if self.is_beginning {
            self.ppid.0
        } else {
            self.fsn.0
        }
    }
}

fn is_unordered(key: StreamKey) -> bool
    ensures { result ≡ is_unordered_key key }
{
    match key {
        StreamKey::Ordered(_) => false,
        StreamKey::Unordered(_) => true,
    }
}

fn stream_key(is_unordered: bool, id: u16) -> StreamKey
    ensures stream { key_stream result ≡ id }
    ensures kind { is_unordered_key result ≡ is_unordered }
{
    StreamKey::new(is_unordered, StreamId(id))
}

fn has_flag(flags: u8, mask: u8) -> bool
    ensures { result ≡ flag flags mask }
{
    flags & mask != 0
}

/// A fragment of a message, borrowed from the bytes of the DATA or I-DATA that carries it.
#[derive(Clone, Copy, Debug)]
pub struct DataView<'a> {
    pub tsn: Tsn,
    pub stream_key: StreamKey,
    /// The message's number in its stream, in DATA; else 0.
    pub ssn: Ssn,
    /// The message's number in its stream, in I-DATA; else 0.
    pub mid: Mid,
    /// The fragment's number in its message, in I-DATA; else 0.
    pub fsn: Fsn,
    pub ppid: PpId,
    pub payload: &'a [u8],
    /// Whether the message begins here.
    pub is_beginning: bool,
    /// Whether the message ends here.
    pub is_end: bool,
    /// Whether the sender asks for an acknowledgement at once.
    pub immediate_ack: bool,
}

#[tactic(auto, unfolding(crate::specs::Written::data_value, crate::specs::Written::idata_value))]
impl<'a> DataView<'a> {
    /// What lies in a DATA; `InvalidType` where the chunk is of another type, `InvalidLength` where its value has under 12
    /// bytes.
    pub(crate) fn of_data(raw: RawChunk<'a>) -> Result<DataView<'a>, ChunkParseError>
        ensures ok { IfOk result (λ v. IsChunk (raw_chunk raw.entry) (viewed_data v)) }
        ensures refused { IfErr result (RefusesChunkAs 0 (raw_chunk raw.entry)) }
        ensures other { OnErr result ((raw.entry.typ ≢ 0) ⊎ (length raw.entry.value.now < 12)) }
    {
        let value = raw.value_as(DataChunk::TYPE)?;
        if value.len() < 12 {
            return Err(ChunkParseError::InvalidLength);
        }
        let (tsn, rest) = first_u32(value);
        let (stream_id, rest) = first_u16(rest);
        let (ssn, rest) = first_u16(rest);
        let (ppid, payload) = first_u32(rest);
        Ok(DataView {
            tsn: Tsn(tsn),
            stream_key: stream_key(has_flag(raw.flags, FLAG_UNORDERED), stream_id),
            ssn: Ssn(ssn),
            mid: Mid(0),
            fsn: Fsn(0),
            ppid: PpId(ppid),
            payload,
            is_beginning: has_flag(raw.flags, FLAG_BEGINNING),
            is_end: has_flag(raw.flags, FLAG_END),
            immediate_ack: has_flag(raw.flags, FLAG_IMMEDIATE),
        })
    }

    /// What lies in an I-DATA; `InvalidType` where the chunk is of another type, `InvalidLength` where its value has under 16
    /// bytes.
    pub(crate) fn of_idata(raw: RawChunk<'a>) -> Result<DataView<'a>, ChunkParseError>
        ensures ok { IfOk result (λ v. IsChunk (raw_chunk raw.entry) (viewed_idata v)) }
        ensures refused { IfErr result (RefusesChunkAs 64 (raw_chunk raw.entry)) }
        ensures other { OnErr result ((raw.entry.typ ≢ 64) ⊎ (length raw.entry.value.now < 16)) }
    {
        let value = raw.value_as(IDataChunk::TYPE)?;
        if value.len() < 16 {
            return Err(ChunkParseError::InvalidLength);
        }
        let (tsn, rest) = first_u32(value);
        let (stream_id, rest) = first_u16(rest);
        let (_reserved, rest) = first_u16(rest);
        let (mid, rest) = first_u32(rest);
        let (ppid_or_fsn, payload) = first_u32(rest);
        let is_beginning = has_flag(raw.flags, FLAG_BEGINNING);
        Ok(DataView {
            tsn: Tsn(tsn),
            stream_key: stream_key(has_flag(raw.flags, FLAG_UNORDERED), stream_id),
            ssn: Ssn(0),
            mid: Mid(mid),
            fsn: Fsn(if is_beginning { 0 } else { ppid_or_fsn }),
            ppid: PpId(if is_beginning { ppid_or_fsn } else { 0 }),
            payload,
            is_beginning,
            is_end: has_flag(raw.flags, FLAG_END),
            immediate_ack: has_flag(raw.flags, FLAG_IMMEDIATE),
        })
    }

    /// The fragment with a copy of its payload: what takes memory of all that a view does.
    pub fn to_data(self, alloc: Global) -> Result<Data, AllocError>
        ensures { IfOk result (λ d. fragment_tree d ≡ viewed_fragment self.entry) }
    {
        let payload = Vec::from_slice(alloc, self.payload)?;
        Ok(self.with_payload(payload))
    }

    /// The fragment with this copy of its payload.
    pub fn with_payload(self, payload: Vec<u8>) -> Data
        requires { payload.items ≡ self.payload.now }
        ensures { fragment_tree result ≡ viewed_fragment self.entry }
    {
        Data {
            stream_key: self.stream_key,
            ssn: self.ssn,
            mid: self.mid,
            fsn: self.fsn,
            ppid: self.ppid,
            payload,
            is_beginning: self.is_beginning,
            is_end: self.is_end,
        }
    }
}

/// A fragment of a message that is not interleaved with others.
#[derive(Debug, Drop)]
pub struct DataChunk {
    pub tsn: Tsn,
    pub data: Data,
    /// Whether the sender asks for an acknowledgement at once.
    pub immediate_ack: bool,
}

#[tactic(auto, unfolding(crate::specs::Written::data_value))]
impl DataChunk {
    /// The chunk type.
    pub const TYPE: u8 = 0;

    /// What the chunk says; `InvalidType` where it is of another type, `InvalidLength` where its value has under 12 bytes, `Memory` where that lacks.
    pub fn try_from(alloc: Global, raw: RawChunk<'_>) -> Result<DataChunk, ChunkParseError>
        ensures ok { IfOk result (λ c. IsChunk (raw_chunk raw.entry) (data_chunk_tree c)) }
        ensures refused { IfErr result (RefusesChunkAs 0 (raw_chunk raw.entry)) }
    {
        let view = DataView::of_data(raw)?;
        Ok(DataChunk {
            tsn: view.tsn,
            data: view.to_data(alloc)?,
            immediate_ack: view.immediate_ack,
        })
    }
}

#[tactic(auto, unfolding(crate::specs::Written::chunk_value, crate::specs::Written::data_value))]
impl SerializableTlv for DataChunk {
    ghost item_of = { λ c. chunk_item (data_chunk_tree c) };

    ghost parts_agree = { λ c. true };

    fn kind(&self) -> [u8; 2] {
        [Self::TYPE, self.data.flags(self.immediate_ack)]
    }

    #[tactic(auto, using(crate::proofs::ValueLemmas::length_data))]
    fn value_size(&self) -> usize {
        self.data.payload.len().saturating_add(12)
    }

    fn is_whole(&self) -> bool {
        true
    }

    fn push_value(&self, output: &mut Vec<u8>) -> Result<(), AllocError> {
        push_data(self.tsn, &self.data, output)
    }
}

/// A fragment of a message that may be interleaved with others.
#[derive(Debug, Drop)]
pub struct IDataChunk {
    pub tsn: Tsn,
    pub data: Data,
    /// Whether the sender asks for an acknowledgement at once.
    pub immediate_ack: bool,
}

#[tactic(auto, unfolding(crate::specs::Written::idata_value))]
impl IDataChunk {
    /// The chunk type.
    pub const TYPE: u8 = 64;

    /// What the chunk says; `InvalidType` where it is of another type, `InvalidLength` where its value has under 16 bytes, `Memory` where that lacks.
    pub fn try_from(alloc: Global, raw: RawChunk<'_>) -> Result<IDataChunk, ChunkParseError>
        ensures ok { IfOk result (λ c. IsChunk (raw_chunk raw.entry) (idata_chunk_tree c)) }
        ensures refused { IfErr result (RefusesChunkAs 64 (raw_chunk raw.entry)) }
    {
        let view = DataView::of_idata(raw)?;
        Ok(IDataChunk {
            tsn: view.tsn,
            data: view.to_data(alloc)?,
            immediate_ack: view.immediate_ack,
        })
    }
}

#[tactic(auto, unfolding(crate::specs::Written::chunk_value, crate::specs::Written::idata_value))]
impl SerializableTlv for IDataChunk {
    ghost item_of = { λ c. chunk_item (idata_chunk_tree c) };

    ghost parts_agree = { λ c. true };

    fn kind(&self) -> [u8; 2] {
        [Self::TYPE, self.data.flags(self.immediate_ack)]
    }

    #[tactic(auto, using(crate::proofs::ValueLemmas::length_idata))]
    fn value_size(&self) -> usize {
        self.data.payload.len().saturating_add(16)
    }

    fn is_whole(&self) -> bool {
        true
    }

    fn push_value(&self, output: &mut Vec<u8>) -> Result<(), AllocError> {
        push_idata(self.tsn, &self.data, output)
    }
}

/// Appends the value of the DATA that carries the fragment.
#[tactic(auto, using(crate::proofs::ValueLemmas::length_data_fields), unfolding(crate::specs::Written::data_value, sctp_wire::specs::Field::be16, sctp_wire::specs::Field::be32))]
pub(crate) fn push_data(tsn: Tsn, fragment: &Data, output: &mut Vec<u8>) -> Result<(), AllocError>
    ensures wrote { OnOk result (output.new.items ≡ output.old.items ++ data_value tsn.0 (fragment_tree fragment.now)) }
    ensures room { Fills output.old output.new (length (data_value tsn.0 (fragment_tree fragment.now))) result }
{
    let tsn = tsn.0.to_be_bytes();
    let id = fragment.stream_key.id().0.to_be_bytes();
    let ssn = fragment.ssn.0.to_be_bytes();
    let ppid = fragment.ppid.0.to_be_bytes();
    output.extend_from_slice(&[
        tsn[0], tsn[1], tsn[2], tsn[3], id[0], id[1], ssn[0], ssn[1], ppid[0], ppid[1], ppid[2],
        ppid[3],
    ])?;
    output.extend_from_slice(&fragment.payload)
}

/// Appends the value of the I-DATA that carries the fragment.
#[tactic(auto, using(crate::proofs::ValueLemmas::length_idata_fields), unfolding(crate::specs::Written::idata_value, sctp_wire::specs::Field::be16, sctp_wire::specs::Field::be32))]
pub(crate) fn push_idata(tsn: Tsn, fragment: &Data, output: &mut Vec<u8>) -> Result<(), AllocError>
    ensures wrote { OnOk result (output.new.items ≡ output.old.items ++ idata_value 0 tsn.0 (fragment_tree fragment.now)) }
    ensures room { Fills output.old output.new (length (idata_value 0 tsn.0 (fragment_tree fragment.now))) result }
{
    let tsn = tsn.0.to_be_bytes();
    let id = fragment.stream_key.id().0.to_be_bytes();
    let mid = fragment.mid.0.to_be_bytes();
    let last = fragment.ppid_or_fsn().to_be_bytes();
    output.extend_from_slice(&[
        tsn[0], tsn[1], tsn[2], tsn[3], id[0], id[1], 0, 0, mid[0], mid[1], mid[2], mid[3],
        last[0], last[1], last[2], last[3],
    ])?;
    output.extend_from_slice(&fragment.payload)
}

#[tactic(auto, unfolding(crate::specs::ChunkText::chunk_text))]
impl fmt::Display for DataChunk {
    ghost output = { λ c. Some (chunk_text (data_chunk_tree c)) };

    fn fmt<W: fmt::Write>(&self, f: &mut fmt::Formatter<W>) -> fmt::Result {
        write!(
            f,
            "DATA, tsn={}, stream_key={}, ssn={}, ppid={}, payload={} bytes{}",
            self.tsn.0,
            self.data.stream_key.id().0,
            self.data.ssn.0,
            self.data.ppid.0,
            self.data.payload.len(),
            self.data.shown_flags(self.immediate_ack)
        )
    }
}

#[tactic(auto, unfolding(crate::specs::ChunkText::chunk_text))]
impl fmt::Display for IDataChunk {
    ghost output = { λ c. Some (chunk_text (idata_chunk_tree c)) };

    fn fmt<W: fmt::Write>(&self, f: &mut fmt::Formatter<W>) -> fmt::Result {
        let flags = self.data.shown_flags(self.immediate_ack);
        if self.data.is_beginning {
            return write!(
                f,
                "I-DATA, tsn={}, stream_key={}, mid={}, ppid={}, payload={} bytes{}",
                self.tsn.0,
                self.data.stream_key.id().0,
                self.data.mid.0,
                self.data.ppid.0,
                self.data.payload.len(),
                flags
            );
        }
        write!(
            f,
            "I-DATA, tsn={}, stream_key={}, mid={}, fsn={}, payload={} bytes{}",
            self.tsn.0,
            self.data.stream_key.id().0,
            self.data.mid.0,
            self.data.fsn.0,
            self.data.payload.len(),
            flags
        )
    }
}
