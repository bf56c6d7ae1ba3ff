//! INIT and INIT ACK (RFC 9260 sections 3.3.2 and 3.3.3).
#![tactic(auto, unfolding(sctp_chunk::specs::ChunkText::chunk_text))]

ghost use Rattle.std.specs.Prelude.{◌≡◌, ◌+◌, ◌^◌, ◌<◌, ◌≤◌, ◌++◌, true, length, map, drop, IfOk, IfErr, OnOk, OnErr, Some};
ghost use Rattle.std.specs.List.{list_all};
ghost use Rattle.sctp_wire.specs.Room.{Fills};
ghost use Rattle.sctp_wire.specs.Serialize.{inner_items};
ghost use Rattle.sctp_wire.specs.Parameter.{parameter_item, parameter_is_whole};
ghost use Rattle.sctp_parameter.specs.ParameterViews.{parameter_tree};
ghost use Rattle.sctp_chunk.specs.Written.{init_fields};
ghost use Rattle.sctp_chunk.specs.Grammar.{IsChunk, RefusesChunkAs};
ghost use Rattle.sctp_chunk.specs.Views.{raw_chunk};
ghost use Rattle.sctp_control_chunk.specs.Views.{init_chunk_tree, init_ack_chunk_tree, init_tree, init_ack_tree};
ghost use Rattle.sctp_control_chunk.specs.InitFront.{init_front, FitsFront};
ghost use Rattle.sctp_chunk.specs.ChunkText.{chunk_text};

use crate::inner::push_parameters;
use sctp_chunk::RawChunk;
use sctp_parameter::{Parameter, parameters_from_bytes};
use sctp_serial::Tsn;
use sctp_wire::{ChunkParseError, first_u16, first_u32, push_u16, push_u32};
use std::alloc::{AllocError, Global};
use std::fmt;

/// The fields that both begin with.
#[derive(Clone, Copy)]
pub struct InitFields {
    initiate_tag: u32,
    a_rwnd: u32,
    nbr_outbound_streams: u16,
    nbr_inbound_streams: u16,
    initial_tsn: Tsn,
}

#[tactic(auto, unfolding(sctp_chunk::specs::Written::init_fields))]
impl InitFields {
    /// The fields at the front of a value, and the bytes behind them.
    fn at(value: &[u8]) -> Result<(InitFields, &[u8]), ChunkParseError>
        ensures ok { IfOk result (λ read. value.now ≡ init_front read.0 ++ read.1.now) }
        ensures behind { IfOk result (λ read. read.1.now ≡ drop 16 value.now) }
        ensures fits { IfOk result (λ read. FitsFront read.0) }
        ensures long { OnOk result (16 ≤ length value.now) }
        ensures short { OnErr result (length value.now < 16) }
        ensures fault { IfErr result (λ e. e ≡ ChunkParseError.InvalidLength) }
    {
        if value.len() < 16 {
            return Err(ChunkParseError::InvalidLength);
        }
        let (initiate_tag, rest) = first_u32(value);
        let (a_rwnd, rest) = first_u32(rest);
        let (nbr_outbound_streams, rest) = first_u16(rest);
        let (nbr_inbound_streams, rest) = first_u16(rest);
        let (initial_tsn, rest) = first_u32(rest);
        Ok((
            InitFields {
                initiate_tag,
                a_rwnd,
                nbr_outbound_streams,
                nbr_inbound_streams,
                initial_tsn: Tsn(initial_tsn),
            },
            rest,
        ))
    }

    /// Appends them.
    fn push_to(self, output: &mut Vec<u8>) -> Result<(), AllocError>
        ensures wrote { OnOk result (output.new.items ≡ output.old.items ++ init_front self) }
        ensures room { Fills output.old output.new 16 result }
    {
        push_u32(output, self.initiate_tag)?;
        push_u32(output, self.a_rwnd)?;
        push_u16(output, self.nbr_outbound_streams)?;
        push_u16(output, self.nbr_inbound_streams)?;
        push_u32(output, self.initial_tsn.0)
    }
}

/// Appends the value of an INIT or an INIT ACK.
pub fn push_init(
    fields: InitFields,
    parameters: &[Parameter],
    output: &mut Vec<u8>,
) -> Result<(), AllocError>
    requires fits { 20 + length (inner_items (map parameter_item (map parameter_tree parameters.now))) < 2 ^ 16 }
    requires whole { list_all parameter_is_whole (map parameter_tree parameters.now) ≡ true }
    ensures wrote { OnOk result (output.new.items ≡ output.old.items ++ (init_front fields ++ inner_items (map parameter_item (map parameter_tree parameters.now)))) }
    ensures room { Fills output.old output.new (16 + length (inner_items (map parameter_item (map parameter_tree parameters.now)))) result }
{
    fields.push_to(output)?;
    push_parameters(parameters, output)
}

/// A request for an association.
#[derive(Debug, Drop)]
pub struct InitChunk {
    pub initiate_tag: u32,
    /// The sender's window, in bytes.
    pub a_rwnd: u32,
    pub nbr_outbound_streams: u16,
    pub nbr_inbound_streams: u16,
    pub initial_tsn: Tsn,
    pub parameters: Vec<Parameter>,
}

#[tactic(auto, unfolding(sctp_chunk::specs::Written::init_fields))]
impl InitChunk {
    /// The chunk type.
    pub const TYPE: u8 = 1;

    /// What the chunk says; `InvalidType` where it is of another type, `InvalidLength` where its value has under 16
    /// bytes, else the fault of its first parameter that cannot be read, `Memory` where that lacks.
    pub fn try_from(alloc: Global, raw: RawChunk<'_>) -> Result<Self, ChunkParseError>
        ensures ok { IfOk result (λ c. IsChunk (raw_chunk raw.entry) (init_chunk_tree c)) }
        ensures refused { IfErr result (RefusesChunkAs 1 (raw_chunk raw.entry)) }
    {
        let value = raw.value_as(Self::TYPE)?;
        let (fields, behind) = InitFields::at(value)?;
        let parameters = parameters_from_bytes(alloc, behind)?;
        Ok(Self {
            initiate_tag: fields.initiate_tag,
            a_rwnd: fields.a_rwnd,
            nbr_outbound_streams: fields.nbr_outbound_streams,
            nbr_inbound_streams: fields.nbr_inbound_streams,
            initial_tsn: fields.initial_tsn,
            parameters,
        })
    }

    /// The fields in front of its parameters.
    pub fn fields(&self) -> InitFields
        ensures { init_front result ≡ init_fields (init_tree self.now) }
    {
        InitFields {
            initiate_tag: self.initiate_tag,
            a_rwnd: self.a_rwnd,
            nbr_outbound_streams: self.nbr_outbound_streams,
            nbr_inbound_streams: self.nbr_inbound_streams,
            initial_tsn: self.initial_tsn,
        }
    }
}

/// The answer to an INIT; its parameters hold a cookie.
#[derive(Debug, Drop)]
pub struct InitAckChunk {
    pub initiate_tag: u32,
    /// The sender's window, in bytes.
    pub a_rwnd: u32,
    pub nbr_outbound_streams: u16,
    pub nbr_inbound_streams: u16,
    pub initial_tsn: Tsn,
    pub parameters: Vec<Parameter>,
}

#[tactic(auto, unfolding(sctp_chunk::specs::Written::init_fields))]
impl InitAckChunk {
    /// The chunk type.
    pub const TYPE: u8 = 2;

    /// What the chunk says; `InvalidType` where it is of another type, `InvalidLength` where its value has under 16
    /// bytes, else the fault of its first parameter that cannot be read, `Memory` where that lacks.
    pub fn try_from(alloc: Global, raw: RawChunk<'_>) -> Result<Self, ChunkParseError>
        ensures ok { IfOk result (λ c. IsChunk (raw_chunk raw.entry) (init_ack_chunk_tree c)) }
        ensures refused { IfErr result (RefusesChunkAs 2 (raw_chunk raw.entry)) }
    {
        let value = raw.value_as(Self::TYPE)?;
        let (fields, behind) = InitFields::at(value)?;
        let parameters = parameters_from_bytes(alloc, behind)?;
        Ok(Self {
            initiate_tag: fields.initiate_tag,
            a_rwnd: fields.a_rwnd,
            nbr_outbound_streams: fields.nbr_outbound_streams,
            nbr_inbound_streams: fields.nbr_inbound_streams,
            initial_tsn: fields.initial_tsn,
            parameters,
        })
    }

    /// The fields in front of its parameters.
    pub fn fields(&self) -> InitFields
        ensures { init_front result ≡ init_fields (init_ack_tree self.now) }
    {
        InitFields {
            initiate_tag: self.initiate_tag,
            a_rwnd: self.a_rwnd,
            nbr_outbound_streams: self.nbr_outbound_streams,
            nbr_inbound_streams: self.nbr_inbound_streams,
            initial_tsn: self.initial_tsn,
        }
    }
}

impl fmt::Display for InitChunk {
    ghost output = { λ c. Some (chunk_text (init_chunk_tree c)) };

    fn fmt<W: fmt::Write>(&self, f: &mut fmt::Formatter<W>) -> fmt::Result {
        write!(
            f,
            "INIT, initiate_tag={}, a_rwnd={}, nbr_outbound_streams={}, nbr_inbound_streams={}, initial_tsn={}, parameters={}",
            self.initiate_tag,
            self.a_rwnd,
            self.nbr_outbound_streams,
            self.nbr_inbound_streams,
            self.initial_tsn.0,
            self.parameters.len()
        )
    }
}

impl fmt::Display for InitAckChunk {
    ghost output = { λ c. Some (chunk_text (init_ack_chunk_tree c)) };

    fn fmt<W: fmt::Write>(&self, f: &mut fmt::Formatter<W>) -> fmt::Result {
        write!(
            f,
            "INIT ACK, initiate_tag={}, a_rwnd={}, nbr_outbound_streams={}, nbr_inbound_streams={}, initial_tsn={}, parameters={}",
            self.initiate_tag,
            self.a_rwnd,
            self.nbr_outbound_streams,
            self.nbr_inbound_streams,
            self.initial_tsn.0,
            self.parameters.len()
        )
    }
}
