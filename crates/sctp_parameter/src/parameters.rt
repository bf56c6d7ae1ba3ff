//! Parameters, by their types.

ghost use Rattle.std.specs.Prelude.{◌≡◌, ◌≢◌, ◌⊎◌, List, [], map, IfOk, OnOk, IfErr, Some};
ghost use Rattle.sctp_wire.specs.ParameterText.{parameter_text};
ghost use Rattle.sctp_wire.specs.Item.{ParsesAll};
ghost use Rattle.sctp_wire.specs.Refusal.{FailsToParseAs};
ghost use Rattle.sctp_wire.specs.Parameter.{ParameterTree, SaysParameter, RefusesParameterAs, IsParameter, RefusesParameter, parameter_item, parameter_is_whole};
ghost use Rattle.sctp_parameter.specs.ParameterViews.{parameter_tree};

use crate::check::check_value;
use crate::parameter::{
    ForwardTsnSupportedParameter, HeartbeatInfoParameter, StateCookieParameter,
    SupportedExtensionsParameter, ZeroChecksumAcceptableParameter,
};
use crate::reset::{
    IncomingSsnResetRequestParameter, OutgoingSsnResetRequestParameter,
    ReconfigurationResponseParameter,
};
use sctp_wire::{
    CheckItem, ChunkParseError, FromItem, RawItem, RawParameter, SerializableTlv, UnknownParameter,
    check_items, items_from_bytes, read_by_type,
};
use std::alloc::{AllocError, Global};
use std::fmt;

/// The type of a request to reset all numbers (RFC 6525 section 4.3).
pub const PARAMETER_TYPE_SSN_TSN_RESET_REQUEST: u16 = 15;

/// The type of a request for more outgoing streams (RFC 6525 section 4.5).
pub const PARAMETER_TYPE_ADD_OUTGOING_STREAMS_REQUEST: u16 = 17;

/// The type of a request for more incoming streams (RFC 6525 section 4.6).
pub const PARAMETER_TYPE_ADD_INCOMING_STREAMS_REQUEST: u16 = 18;

/// A parameter: of INIT, INIT ACK, HEARTBEAT, HEARTBEAT ACK or RE-CONFIG.
#[derive(Debug, Drop)]
pub enum Parameter {
    /// Type 1.
    HeartbeatInfo(HeartbeatInfoParameter),
    /// Type 7.
    StateCookie(StateCookieParameter),
    /// Type 13.
    OutgoingSsnResetRequest(OutgoingSsnResetRequestParameter),
    /// Type 14.
    IncomingSsnResetRequest(IncomingSsnResetRequestParameter),
    /// Type 15, kept as it came.
    SsnTsnResetRequest(UnknownParameter),
    /// Type 16.
    ReconfigurationResponse(ReconfigurationResponseParameter),
    /// Type 17, kept as it came.
    AddOutgoingStreamsRequest(UnknownParameter),
    /// Type 18, kept as it came.
    AddIncomingStreamsRequest(UnknownParameter),
    /// Type 0x8008.
    SupportedExtensions(SupportedExtensionsParameter),
    /// Type 0xC000.
    ForwardTsnSupported(ForwardTsnSupportedParameter),
    /// Type 0x8001.
    ZeroChecksumAcceptable(ZeroChecksumAcceptableParameter),
    /// Any other type, kept as it came.
    Unknown(UnknownParameter),
}

#[tactic(auto, unfolding(sctp_wire::specs::Parameter::parameter_value))]
impl Parameter {
    /// What a parameter says, by its type; else the fault of that type's reader, `Memory` where that lacks.
    pub fn try_from(alloc: Global, raw: RawParameter<'_>) -> Result<Parameter, ChunkParseError>
        ensures ok { IfOk result (λ it. SaysParameter raw.entry.typ raw.entry.value.now (parameter_tree it)) }
        ensures refused { IfErr result (RefusesParameterAs raw.entry.typ raw.entry.typ raw.entry.value.now) }
    {
        read_by_type!(Parameter, alloc, raw,
            HeartbeatInfoParameter::TYPE => HeartbeatInfo(HeartbeatInfoParameter),
            StateCookieParameter::TYPE => StateCookie(StateCookieParameter),
            OutgoingSsnResetRequestParameter::TYPE => OutgoingSsnResetRequest(OutgoingSsnResetRequestParameter),
            IncomingSsnResetRequestParameter::TYPE => IncomingSsnResetRequest(IncomingSsnResetRequestParameter),
            PARAMETER_TYPE_SSN_TSN_RESET_REQUEST => SsnTsnResetRequest(UnknownParameter),
            ReconfigurationResponseParameter::TYPE => ReconfigurationResponse(ReconfigurationResponseParameter),
            PARAMETER_TYPE_ADD_OUTGOING_STREAMS_REQUEST => AddOutgoingStreamsRequest(UnknownParameter),
            PARAMETER_TYPE_ADD_INCOMING_STREAMS_REQUEST => AddIncomingStreamsRequest(UnknownParameter),
            SupportedExtensionsParameter::TYPE => SupportedExtensions(SupportedExtensionsParameter),
            ForwardTsnSupportedParameter::TYPE => ForwardTsnSupported(ForwardTsnSupportedParameter),
            ZeroChecksumAcceptableParameter::TYPE => ZeroChecksumAcceptable(ZeroChecksumAcceptableParameter),
            _ => Unknown(UnknownParameter),
        )
    }

    /// Whether a parameter says something. It has the faults of `try_from`, but for want of memory, since it builds nothing.
    pub fn check(raw: RawParameter<'_>) -> Result<(), ChunkParseError>
        ensures ok { OnOk result ((t : ParameterTree) × SaysParameter raw.entry.typ raw.entry.value.now t) }
        ensures refused { IfErr result (RefusesParameterAs raw.entry.typ raw.entry.typ raw.entry.value.now) }
        ensures never_memory { IfErr result (λ fault. fault ≢ ChunkParseError.Memory) }
    {
        check_value(raw.typ, raw.value)
    }
}

/// What is asked of a parameter, answered by its kind.
macro_rules! of_its_kind {
    ($parameter:expr, $it:ident => $answer:expr) => {
        match $parameter {
            Parameter::HeartbeatInfo($it) => $answer,
            Parameter::StateCookie($it) => $answer,
            Parameter::OutgoingSsnResetRequest($it) => $answer,
            Parameter::IncomingSsnResetRequest($it) => $answer,
            Parameter::SsnTsnResetRequest($it) => $answer,
            Parameter::ReconfigurationResponse($it) => $answer,
            Parameter::AddOutgoingStreamsRequest($it) => $answer,
            Parameter::AddIncomingStreamsRequest($it) => $answer,
            Parameter::SupportedExtensions($it) => $answer,
            Parameter::ForwardTsnSupported($it) => $answer,
            Parameter::ZeroChecksumAcceptable($it) => $answer,
            Parameter::Unknown($it) => $answer,
        }
    };
}

#[tactic(auto, unfolding(sctp_wire::specs::Parameter::parameter_value))]
impl SerializableTlv for Parameter {
    ghost item_of = { λ it. parameter_item (parameter_tree it) };

    ghost parts_agree = { λ it. parameter_is_whole (parameter_tree it) };

    fn kind(&self) -> [u8; 2] {
        of_its_kind!(self, it => it.kind())
    }

    fn value_size(&self) -> usize {
        of_its_kind!(self, it => it.value_size())
    }

    fn is_whole(&self) -> bool {
        of_its_kind!(self, it => it.is_whole())
    }

    fn push_value(&self, output: &mut Vec<u8>) -> Result<(), AllocError> {
        of_its_kind!(self, it => it.push_value(output))
    }
}

#[tactic(auto, unfolding(sctp_wire::specs::ParameterText::parameter_text))]
impl fmt::Display for Parameter {
    ghost output = { λ it. Some (parameter_text (parameter_tree it)) };

    fn fmt<W: fmt::Write>(&self, f: &mut fmt::Formatter<W>) -> fmt::Result {
        of_its_kind!(self, it => it.fmt(f))
    }
}

impl FromItem for Parameter {
    ghost stands_for = { λ i it. IsParameter i (parameter_tree it) };

    ghost refuses = { RefusesParameter };

    fn from_item(alloc: Global, item: RawItem<'_>) -> Result<Parameter, ChunkParseError> {
        Parameter::try_from(alloc, RawParameter::from_item(item))
    }
}

/// The parameters that the bytes are, from the left. The fault is that of the first one that cannot be read, `Memory` where that lacks.
pub fn parameters_from_bytes(alloc: Global, bytes: &[u8]) -> Result<Vec<Parameter>, ChunkParseError>
    ensures ok { IfOk result (λ list. ParsesAll IsParameter bytes.now (map parameter_tree list.items) []) }
    ensures refused { IfErr result (λ fault. (fault ≡ ChunkParseError.Memory) ⊎ FailsToParseAs IsParameter RefusesParameter bytes.now fault) }
{
    items_from_bytes(alloc, bytes)
}

impl CheckItem for Parameter {
    ghost use Rattle.sctp_wire.specs.Parameter.{ParameterTree};

    ghost Tree = { ParameterTree };

    ghost stands_for = { IsParameter };

    ghost refuses = { RefusesParameter };

    fn check_item(item: RawItem<'_>) -> Result<(), ChunkParseError> {
        Parameter::check(RawParameter::from_item(item))
    }
}

/// Whether the bytes are parameters, from the left. It has the faults of `parameters_from_bytes`, but for want of memory, since
/// it builds nothing.
pub fn check_parameters(bytes: &[u8]) -> Result<(), ChunkParseError>
    ensures ok { OnOk result ((ts : List ParameterTree) × ParsesAll IsParameter bytes.now ts []) }
    ensures refused { IfErr result (FailsToParseAs IsParameter RefusesParameter bytes.now) }
    ensures never_memory { IfErr result (λ fault. fault ≢ ChunkParseError.Memory) }
{
    check_items::<Parameter>(bytes)
}
