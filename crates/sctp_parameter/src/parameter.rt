//! The parameters of INIT, INIT ACK, HEARTBEAT and HEARTBEAT ACK.
#![tactic(auto, unfolding(sctp_wire::specs::Parameter::parameter_value, sctp_wire::specs::ParameterText::parameter_text))]

ghost use Rattle.std.specs.Prelude.{IfOk, IfErr, Some};
ghost use Rattle.sctp_wire.specs.ParameterText.{parameter_text};
ghost use Rattle.sctp_wire.specs.Parameter.{SaysParameter, RefusesParameterAs, parameter_item, parameter_value};
ghost use Rattle.sctp_parameter.specs.ParameterViews.{heartbeat_info_tree, state_cookie_tree, supported_extensions_tree, forward_tsn_supported_tree, zero_checksum_acceptable_tree};

use sctp_serial::ZeroChecksumAlternateErrorDetectionMethod;
use sctp_wire::{ChunkParseError, FieldValue, Joined, OneField, RawParameter, ends_here, u32_at};
use std::alloc::Global;
use std::fmt;

/// What a HEARTBEAT asks to be sent back (RFC 9260 section 3.3.5).
#[derive(Debug, Drop)]
pub struct HeartbeatInfoParameter {
    /// Bytes that mean something to the sender alone.
    pub info: Vec<u8>,
}

impl HeartbeatInfoParameter {
    /// The parameter's type.
    pub const TYPE: u16 = 1;

    /// What the parameter says; `InvalidType` where it is of another type, `Memory` where that lacks.
    pub fn try_from(alloc: Global, raw: RawParameter<'_>) -> Result<Self, ChunkParseError>
        ensures ok { IfOk result (λ p. SaysParameter raw.entry.typ raw.entry.value.now (heartbeat_info_tree p)) }
        ensures refused { IfErr result (RefusesParameterAs 1 raw.entry.typ raw.entry.value.now) }
    {
        let info = Vec::from_slice(alloc, raw.value_as(Self::TYPE)?)?;
        Ok(Self { info })
    }
}

impl OneField for HeartbeatInfoParameter {
    ghost item = { λ p. parameter_item (heartbeat_info_tree p) };

    fn first_bytes(&self) -> [u8; 2] {
        Self::TYPE.to_be_bytes()
    }

    fn field(&self) -> FieldValue<'_> {
        FieldValue::Bytes(&self.info)
    }
}

impl fmt::Display for HeartbeatInfoParameter {
    ghost output = { λ p. Some (parameter_text (heartbeat_info_tree p)) };

    fn fmt<W: fmt::Write>(&self, f: &mut fmt::Formatter<W>) -> fmt::Result {
        write!(f, "HEARTBEAT INFO, info={} bytes", self.info.len())
    }
}

/// The cookie of an INIT ACK (RFC 9260 section 3.3.3).
#[derive(Debug, Drop)]
pub struct StateCookieParameter {
    /// Bytes that mean something to the sender alone.
    pub cookie: Vec<u8>,
}

impl StateCookieParameter {
    /// The parameter's type.
    pub const TYPE: u16 = 7;

    /// What the parameter says; `InvalidType` where it is of another type, `Memory` where that lacks.
    pub fn try_from(alloc: Global, raw: RawParameter<'_>) -> Result<Self, ChunkParseError>
        ensures ok { IfOk result (λ p. SaysParameter raw.entry.typ raw.entry.value.now (state_cookie_tree p)) }
        ensures refused { IfErr result (RefusesParameterAs 7 raw.entry.typ raw.entry.value.now) }
    {
        let cookie = Vec::from_slice(alloc, raw.value_as(Self::TYPE)?)?;
        Ok(Self { cookie })
    }
}

impl OneField for StateCookieParameter {
    ghost item = { λ p. parameter_item (state_cookie_tree p) };

    fn first_bytes(&self) -> [u8; 2] {
        Self::TYPE.to_be_bytes()
    }

    fn field(&self) -> FieldValue<'_> {
        FieldValue::Bytes(&self.cookie)
    }
}

impl fmt::Display for StateCookieParameter {
    ghost output = { λ p. Some (parameter_text (state_cookie_tree p)) };

    fn fmt<W: fmt::Write>(&self, f: &mut fmt::Formatter<W>) -> fmt::Result {
        write!(f, "STATE COOKIE, cookie={} bytes", self.cookie.len())
    }
}

/// The types of further chunks that an endpoint understands (RFC 5061 section 4.2.7).
#[derive(Debug, Drop)]
pub struct SupportedExtensionsParameter {
    /// Chunk types, one byte each.
    pub chunk_types: Vec<u8>,
}

impl SupportedExtensionsParameter {
    /// The parameter's type.
    pub const TYPE: u16 = 0x8008;

    /// What the parameter says; `InvalidType` where it is of another type, `Memory` where that lacks.
    pub fn try_from(alloc: Global, raw: RawParameter<'_>) -> Result<Self, ChunkParseError>
        ensures ok { IfOk result (λ p. SaysParameter raw.entry.typ raw.entry.value.now (supported_extensions_tree p)) }
        ensures refused { IfErr result (RefusesParameterAs 0x8008 raw.entry.typ raw.entry.value.now) }
    {
        let chunk_types = Vec::from_slice(alloc, raw.value_as(Self::TYPE)?)?;
        Ok(Self { chunk_types })
    }
}

impl OneField for SupportedExtensionsParameter {
    ghost item = { λ p. parameter_item (supported_extensions_tree p) };

    fn first_bytes(&self) -> [u8; 2] {
        Self::TYPE.to_be_bytes()
    }

    fn field(&self) -> FieldValue<'_> {
        FieldValue::Bytes(&self.chunk_types)
    }
}

impl fmt::Display for SupportedExtensionsParameter {
    ghost output = { λ p. Some (parameter_text (supported_extensions_tree p)) };

    fn fmt<W: fmt::Write>(&self, f: &mut fmt::Formatter<W>) -> fmt::Result {
        write!(
            f,
            "SUPPORTED EXTENSIONS, chunk_types={}",
            Joined(&self.chunk_types)
        )
    }
}

/// An endpoint understands FORWARD-TSN (RFC 3758 section 3.1).
#[derive(Clone, Copy, Debug, PartialEq, Eq, Default)]
pub struct ForwardTsnSupportedParameter {}

impl ForwardTsnSupportedParameter {
    /// The parameter's type.
    pub const TYPE: u16 = 0xC000;

    /// What the parameter says; `InvalidType` where it is of another type, `InvalidLength` where it has a value.
    pub fn try_from(_alloc: Global, raw: RawParameter<'_>) -> Result<Self, ChunkParseError>
        ensures ok { IfOk result (λ p. SaysParameter raw.entry.typ raw.entry.value.now (forward_tsn_supported_tree p)) }
        ensures refused { IfErr result (RefusesParameterAs 0xC000 raw.entry.typ raw.entry.value.now) }
    {
        ends_here(raw.value_as(Self::TYPE)?)?;
        Ok(Self {})
    }
}

impl OneField for ForwardTsnSupportedParameter {
    ghost item = { λ p. parameter_item (forward_tsn_supported_tree p) };

    fn first_bytes(&self) -> [u8; 2] {
        Self::TYPE.to_be_bytes()
    }

    fn field(&self) -> FieldValue<'_> {
        FieldValue::Bytes(&[])
    }
}

impl fmt::Display for ForwardTsnSupportedParameter {
    ghost output = { λ p. Some (parameter_text (forward_tsn_supported_tree p)) };

    fn fmt<W: fmt::Write>(&self, f: &mut fmt::Formatter<W>) -> fmt::Result {
        f.write_str("FORWARD TSN SUPPORTED")
    }
}

/// An endpoint finds damage by this method, and takes packets without a checksum (RFC 9653 section 4).
#[derive(Clone, Copy, Debug, PartialEq, Eq)]
pub struct ZeroChecksumAcceptableParameter {
    /// The method's number, four bytes.
    pub method: ZeroChecksumAlternateErrorDetectionMethod,
}

impl ZeroChecksumAcceptableParameter {
    /// The parameter's type.
    pub const TYPE: u16 = 0x8001;

    /// What the parameter says; `InvalidType` where it is of another type, `InvalidLength` where its value has not
    /// four bytes.
    pub fn try_from(_alloc: Global, raw: RawParameter<'_>) -> Result<Self, ChunkParseError>
        ensures ok { IfOk result (λ p. SaysParameter raw.entry.typ raw.entry.value.now (zero_checksum_acceptable_tree p)) }
        ensures refused { IfErr result (RefusesParameterAs 0x8001 raw.entry.typ raw.entry.value.now) }
    {
        let value = raw.value_as(Self::TYPE)?;
        let (method, rest) = u32_at(value)?;
        ends_here(rest)?;
        Ok(Self {
            method: ZeroChecksumAlternateErrorDetectionMethod(method),
        })
    }
}

impl OneField for ZeroChecksumAcceptableParameter {
    ghost item = { λ p. parameter_item (zero_checksum_acceptable_tree p) };

    fn first_bytes(&self) -> [u8; 2] {
        Self::TYPE.to_be_bytes()
    }

    fn field(&self) -> FieldValue<'_> {
        FieldValue::Number(self.method.0)
    }
}

impl fmt::Display for ZeroChecksumAcceptableParameter {
    ghost output = { λ p. Some (parameter_text (zero_checksum_acceptable_tree p)) };

    fn fmt<W: fmt::Write>(&self, f: &mut fmt::Formatter<W>) -> fmt::Result {
        write!(f, "ZERO CHECKSUM ACCEPTABLE, method={}", self.method.0)
    }
}
