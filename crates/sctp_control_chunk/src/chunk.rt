//! A chunk of any kind.

ghost use Rattle.std.specs.Prelude.{◌≢◌, IfOk, IfErr, OnOk, Some};
ghost use Rattle.sctp_chunk.specs.Written.{chunk_item, chunk_is_whole};
ghost use Rattle.sctp_chunk.specs.Chunk.{ChunkTree};
ghost use Rattle.sctp_chunk.specs.Grammar.{IsChunk, RefusesChunk};
ghost use Rattle.sctp_chunk.specs.Views.{raw_chunk};
ghost use Rattle.sctp_control_chunk.specs.ChunkView.{chunk_tree};
ghost use Rattle.sctp_chunk.specs.ChunkText.{chunk_text};

use crate::check::check_value;
use crate::cookie::{CookieAckChunk, CookieEchoChunk};
use crate::error::{AbortChunk, ErrorChunk};
use crate::flags::reflected_flag;
use crate::heartbeat::{HeartbeatAckChunk, HeartbeatRequestChunk};
use crate::init::{InitAckChunk, InitChunk, push_init};
use crate::inner::{are_whole, causes_size, parameters_size, push_causes, push_parameters};
use crate::re_config::ReConfigChunk;
use crate::shutdown::{ShutdownAckChunk, ShutdownChunk, ShutdownCompleteChunk};
use crate::unknown::UnknownChunk;
use sctp_chunk::{DataChunk, ForwardTsnChunk, IDataChunk, IForwardTsnChunk, RawChunk, SackChunk};
use sctp_wire::{
    CheckItem, ChunkParseError, FromItem, RawItem, SerializableTlv, push_u32, read_by_type,
};
use std::alloc::{AllocError, Global};
use std::fmt;

/// A chunk (RFC 9260 section 3.2).
#[derive(Debug, Drop)]
pub enum Chunk {
    Data(DataChunk),
    Init(InitChunk),
    InitAck(InitAckChunk),
    Sack(SackChunk),
    HeartbeatRequest(HeartbeatRequestChunk),
    HeartbeatAck(HeartbeatAckChunk),
    Abort(AbortChunk),
    Shutdown(ShutdownChunk),
    ShutdownAck(ShutdownAckChunk),
    Error(ErrorChunk),
    CookieEcho(CookieEchoChunk),
    CookieAck(CookieAckChunk),
    ShutdownComplete(ShutdownCompleteChunk),
    ReConfig(ReConfigChunk),
    ForwardTsn(ForwardTsnChunk),
    IData(IDataChunk),
    IForwardTsn(IForwardTsnChunk),
    /// A chunk of another type.
    Unknown(UnknownChunk),
}

impl Chunk {
    /// What the chunk says, by its type; else the fault of that type's reader, `Memory` where that lacks.
    pub fn try_from(alloc: Global, raw: RawChunk<'_>) -> Result<Chunk, ChunkParseError>
        ensures ok { IfOk result (λ c. IsChunk (raw_chunk raw.entry) (chunk_tree c)) }
        ensures refused { IfErr result (RefusesChunk (raw_chunk raw.entry)) }
    {
        read_by_type!(Chunk, alloc, raw,
            DataChunk::TYPE => Data(DataChunk),
            InitChunk::TYPE => Init(InitChunk),
            InitAckChunk::TYPE => InitAck(InitAckChunk),
            SackChunk::TYPE => Sack(SackChunk),
            HeartbeatRequestChunk::TYPE => HeartbeatRequest(HeartbeatRequestChunk),
            HeartbeatAckChunk::TYPE => HeartbeatAck(HeartbeatAckChunk),
            AbortChunk::TYPE => Abort(AbortChunk),
            ShutdownChunk::TYPE => Shutdown(ShutdownChunk),
            ShutdownAckChunk::TYPE => ShutdownAck(ShutdownAckChunk),
            ErrorChunk::TYPE => Error(ErrorChunk),
            CookieEchoChunk::TYPE => CookieEcho(CookieEchoChunk),
            CookieAckChunk::TYPE => CookieAck(CookieAckChunk),
            ShutdownCompleteChunk::TYPE => ShutdownComplete(ShutdownCompleteChunk),
            IDataChunk::TYPE => IData(IDataChunk),
            ReConfigChunk::TYPE => ReConfig(ReConfigChunk),
            ForwardTsnChunk::TYPE => ForwardTsn(ForwardTsnChunk),
            IForwardTsnChunk::TYPE => IForwardTsn(IForwardTsnChunk),
            _ => Unknown(UnknownChunk),
        )
    }

    /// Whether a chunk says something. It has the faults of `try_from`, but for want of memory, since it builds nothing.
    pub fn check(raw: RawChunk<'_>) -> Result<(), ChunkParseError>
        ensures ok { OnOk result ((t : ChunkTree) × IsChunk (raw_chunk raw.entry) t) }
        ensures refused { IfErr result (RefusesChunk (raw_chunk raw.entry)) }
        ensures never_memory { IfErr result (λ fault. fault ≢ ChunkParseError.Memory) }
    {
        check_value(raw.typ, raw.flags, raw.value)
    }
}

impl FromItem for Chunk {
    ghost stands_for = { λ i c. IsChunk i (chunk_tree c) };

    ghost refuses = { RefusesChunk };

    fn from_item(alloc: Global, item: RawItem<'_>) -> Result<Chunk, ChunkParseError> {
        Chunk::try_from(alloc, RawChunk::from_item(item))
    }
}

impl CheckItem for Chunk {
    ghost use Rattle.sctp_chunk.specs.Chunk.{ChunkTree};

    ghost Tree = { ChunkTree };

    ghost stands_for = { IsChunk };

    ghost refuses = { RefusesChunk };

    fn check_item(item: RawItem<'_>) -> Result<(), ChunkParseError> {
        Chunk::check(RawChunk::from_item(item))
    }
}

#[tactic(auto, unfolding(sctp_chunk::specs::Written::chunk_value))]
impl SerializableTlv for Chunk {
    ghost item_of = { λ c. chunk_item (chunk_tree c) };

    ghost parts_agree = { λ c. chunk_is_whole (chunk_tree c) };

    fn kind(&self) -> [u8; 2] {
        match self {
            Chunk::Data(c) => c.kind(),
            Chunk::Init(_) => [InitChunk::TYPE, 0],
            Chunk::InitAck(_) => [InitAckChunk::TYPE, 0],
            Chunk::Sack(c) => c.kind(),
            Chunk::HeartbeatRequest(_) => [HeartbeatRequestChunk::TYPE, 0],
            Chunk::HeartbeatAck(_) => [HeartbeatAckChunk::TYPE, 0],
            Chunk::Abort(c) => [AbortChunk::TYPE, reflected_flag(c.tag_reflected)],
            Chunk::Shutdown(_) => [ShutdownChunk::TYPE, 0],
            Chunk::ShutdownAck(_) => [ShutdownAckChunk::TYPE, 0],
            Chunk::Error(_) => [ErrorChunk::TYPE, 0],
            Chunk::CookieEcho(_) => [CookieEchoChunk::TYPE, 0],
            Chunk::CookieAck(_) => [CookieAckChunk::TYPE, 0],
            Chunk::ShutdownComplete(c) => [
                ShutdownCompleteChunk::TYPE,
                reflected_flag(c.tag_reflected),
            ],
            Chunk::ReConfig(_) => [ReConfigChunk::TYPE, 0],
            Chunk::ForwardTsn(c) => c.kind(),
            Chunk::IData(c) => c.kind(),
            Chunk::IForwardTsn(c) => c.kind(),
            Chunk::Unknown(c) => [c.typ, c.flags],
        }
    }

    #[tactic(auto, using(crate::proofs::InnerLemmas::length_init, sctp_chunk::proofs::ValueLemmas::length_shutdown), unfolding(sctp_chunk::specs::Written::chunk_value))]
    fn value_size(&self) -> usize {
        match self {
            Chunk::Data(c) => c.value_size(),
            Chunk::Init(c) => parameters_size(&c.parameters).saturating_add(16),
            Chunk::InitAck(c) => parameters_size(&c.parameters).saturating_add(16),
            Chunk::Sack(c) => c.value_size(),
            Chunk::HeartbeatRequest(c) => parameters_size(&c.parameters),
            Chunk::HeartbeatAck(c) => parameters_size(&c.parameters),
            Chunk::Abort(c) => causes_size(&c.error_causes),
            Chunk::Shutdown(_) => 4,
            Chunk::Error(c) => causes_size(&c.error_causes),
            Chunk::CookieEcho(c) => c.cookie.len(),
            Chunk::ReConfig(c) => parameters_size(&c.parameters),
            Chunk::ForwardTsn(c) => c.value_size(),
            Chunk::IData(c) => c.value_size(),
            Chunk::IForwardTsn(c) => c.value_size(),
            Chunk::ShutdownAck(_) | Chunk::CookieAck(_) | Chunk::ShutdownComplete(_) => 0,
            Chunk::Unknown(c) => c.value.len(),
        }
    }

    fn is_whole(&self) -> bool {
        match self {
            Chunk::Init(c) => are_whole(&c.parameters),
            Chunk::InitAck(c) => are_whole(&c.parameters),
            Chunk::HeartbeatRequest(c) => are_whole(&c.parameters),
            Chunk::HeartbeatAck(c) => are_whole(&c.parameters),
            Chunk::ReConfig(c) => are_whole(&c.parameters),
            Chunk::ForwardTsn(c) => c.is_whole(),
            Chunk::IForwardTsn(c) => c.is_whole(),
            _ => true,
        }
    }

    #[tactic(auto, using(crate::proofs::InnerLemmas::length_init, sctp_chunk::proofs::ValueLemmas::length_shutdown), unfolding(sctp_chunk::specs::Written::chunk_value))]
    fn push_value(&self, output: &mut Vec<u8>) -> Result<(), AllocError> {
        match self {
            Chunk::Data(c) => c.push_value(output),
            Chunk::Init(c) => push_init(c.fields(), &c.parameters, output),
            Chunk::InitAck(c) => push_init(c.fields(), &c.parameters, output),
            Chunk::Sack(c) => c.push_value(output),
            Chunk::HeartbeatRequest(c) => push_parameters(&c.parameters, output),
            Chunk::HeartbeatAck(c) => push_parameters(&c.parameters, output),
            Chunk::Abort(c) => push_causes(&c.error_causes, output),
            Chunk::Shutdown(c) => push_u32(output, c.cumulative_tsn_ack.0),
            Chunk::Error(c) => push_causes(&c.error_causes, output),
            Chunk::CookieEcho(c) => output.extend_from_slice(&c.cookie),
            Chunk::ReConfig(c) => push_parameters(&c.parameters, output),
            Chunk::ForwardTsn(c) => c.push_value(output),
            Chunk::IData(c) => c.push_value(output),
            Chunk::IForwardTsn(c) => c.push_value(output),
            Chunk::ShutdownAck(_) | Chunk::CookieAck(_) | Chunk::ShutdownComplete(_) => Ok(()),
            Chunk::Unknown(c) => output.extend_from_slice(&c.value),
        }
    }
}

#[tactic(auto, unfolding(sctp_chunk::specs::ChunkText::chunk_text))]
impl fmt::Display for Chunk {
    ghost output = { λ c. Some (chunk_text (chunk_tree c)) };

    fn fmt<W: fmt::Write>(&self, f: &mut fmt::Formatter<W>) -> fmt::Result {
        match self {
            Chunk::Data(c) => c.fmt(f),
            Chunk::Init(c) => c.fmt(f),
            Chunk::InitAck(c) => c.fmt(f),
            Chunk::Sack(c) => c.fmt(f),
            Chunk::HeartbeatRequest(c) => c.fmt(f),
            Chunk::HeartbeatAck(c) => c.fmt(f),
            Chunk::Abort(c) => c.fmt(f),
            Chunk::Shutdown(c) => c.fmt(f),
            Chunk::ShutdownAck(c) => c.fmt(f),
            Chunk::Error(c) => c.fmt(f),
            Chunk::CookieEcho(c) => c.fmt(f),
            Chunk::CookieAck(c) => c.fmt(f),
            Chunk::ShutdownComplete(c) => c.fmt(f),
            Chunk::ReConfig(c) => c.fmt(f),
            Chunk::ForwardTsn(c) => c.fmt(f),
            Chunk::IData(c) => c.fmt(f),
            Chunk::IForwardTsn(c) => c.fmt(f),
            Chunk::Unknown(c) => c.fmt(f),
        }
    }
}
