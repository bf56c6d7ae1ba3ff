//! Error causes, in ABORT and ERROR (RFC 9260 section 3.3.10).
#![tactic(auto, unfolding(sctp_wire::specs::Cause::cause_value, sctp_wire::specs::CauseText::cause_text))]

ghost use Rattle.std.specs.Prelude.{true, IfOk, IfErr, Some};
ghost use Rattle.sctp_wire.specs.CauseText.{cause_text};
ghost use Rattle.sctp_wire.specs.Cause.{SaysCause, RefusesCauseAs, cause_item, cause_value};
ghost use Rattle.sctp_error_cause.specs.CauseViews.{missing_mandatory_parameter_tree, unrecognized_chunk_tree, no_user_data_tree, cookie_received_tree, user_initiated_abort_tree, protocol_violation_tree};

use sctp_serial::Tsn;
use sctp_wire::{
    ChunkParseError, Entry, FieldValue, Joined, OneField, RawParameter, SerializableTlv, ends_here,
    entries_from_bytes, push_entries, push_u32, text_from_bytes, u32_at,
};
use std::alloc::{AllocError, Global};
use std::fmt;

/// Parameters that were not there, by their types (RFC 9260 section 3.3.10.2).
#[derive(Debug, Drop)]
pub struct MissingMandatoryParameterErrorCause {
    /// The types, two bytes each, behind their number of four bytes.
    pub missing_parameter_types: Vec<u16>,
}

impl MissingMandatoryParameterErrorCause {
    /// The cause's type.
    pub const TYPE: u16 = 2;

    /// What the cause says; `InvalidType` where it is of another type, `InvalidLength` where there are
    /// not as many types as it counts, `Memory` where that lacks.
    pub fn try_from(alloc: Global, raw: RawParameter<'_>) -> Result<Self, ChunkParseError>
        ensures ok { IfOk result (λ c. SaysCause raw.entry.typ raw.entry.value.now (missing_mandatory_parameter_tree c)) }
        ensures refused { IfErr result (RefusesCauseAs 2 raw.entry.typ raw.entry.value.now) }
    {
        let value = raw.value_as(Self::TYPE)?;
        let (count, rest) = u32_at(value)?;
        if rest.len() != 2 * count as usize {
            return Err(ChunkParseError::InvalidLength);
        }
        Ok(Self {
            missing_parameter_types: entries_from_bytes(alloc, rest)?,
        })
    }
}

impl SerializableTlv for MissingMandatoryParameterErrorCause {
    ghost item_of = { λ c. cause_item (missing_mandatory_parameter_tree c) };

    ghost parts_agree = { λ c. true };

    fn kind(&self) -> [u8; 2] {
        Self::TYPE.to_be_bytes()
    }

    #[tactic(auto, using(crate::proofs::CauseLemmas::length_missing))]
    fn value_size(&self) -> usize {
        self.missing_parameter_types
            .len()
            .saturating_mul(2)
            .saturating_add(4)
    }

    fn is_whole(&self) -> bool {
        true
    }

    #[tactic(auto, using(crate::proofs::CauseLemmas::length_missing), unfolding(sctp_wire::specs::Cause::cause_value))]
    fn push_value(&self, output: &mut Vec<u8>) -> Result<(), AllocError> {
        push_u32(output, self.missing_parameter_types.len() as u32)?;
        push_entries(output, &self.missing_parameter_types)
    }
}

impl fmt::Display for MissingMandatoryParameterErrorCause {
    ghost output = { λ c. Some (cause_text (missing_mandatory_parameter_tree c)) };

    fn fmt<W: fmt::Write>(&self, f: &mut fmt::Formatter<W>) -> fmt::Result {
        write!(
            f,
            "MISSING MANDATORY PARAMETER, missing_parameter_types={}",
            Joined(&self.missing_parameter_types)
        )
    }
}

/// A chunk of a type that was not understood, its bytes as they came (RFC 9260 section 3.3.10.6).
#[derive(Debug, Drop)]
pub struct UnrecognizedChunkErrorCause {
    /// The chunk's bytes, header and value.
    pub chunk: Vec<u8>,
}

impl UnrecognizedChunkErrorCause {
    /// The cause's type.
    pub const TYPE: u16 = 6;

    /// What the cause says; `InvalidType` where it is of another type, `Memory` where that lacks.
    pub fn try_from(alloc: Global, raw: RawParameter<'_>) -> Result<Self, ChunkParseError>
        ensures ok { IfOk result (λ c. SaysCause raw.entry.typ raw.entry.value.now (unrecognized_chunk_tree c)) }
        ensures refused { IfErr result (RefusesCauseAs 6 raw.entry.typ raw.entry.value.now) }
    {
        let chunk = Vec::from_slice(alloc, raw.value_as(Self::TYPE)?)?;
        Ok(Self { chunk })
    }
}

impl OneField for UnrecognizedChunkErrorCause {
    ghost item = { λ c. cause_item (unrecognized_chunk_tree c) };

    fn first_bytes(&self) -> [u8; 2] {
        Self::TYPE.to_be_bytes()
    }

    fn field(&self) -> FieldValue<'_> {
        FieldValue::Bytes(&self.chunk)
    }
}

impl fmt::Display for UnrecognizedChunkErrorCause {
    ghost output = { λ c. Some (cause_text (unrecognized_chunk_tree c)) };

    fn fmt<W: fmt::Write>(&self, f: &mut fmt::Formatter<W>) -> fmt::Result {
        write!(f, "UNRECOGNIZED CHUNK, chunk={} bytes", self.chunk.len())
    }
}

/// A DATA chunk without data, by its TSN (RFC 9260 section 3.3.10.9).
#[derive(Clone, Copy, Debug)]
pub struct NoUserDataErrorCause {
    /// The TSN of the chunk.
    pub tsn: Tsn,
}

impl NoUserDataErrorCause {
    /// The cause's type.
    pub const TYPE: u16 = 9;

    /// What the cause says; `InvalidType` where it is of another type, `InvalidLength` where its value has
    /// not four bytes.
    pub fn try_from(_alloc: Global, raw: RawParameter<'_>) -> Result<Self, ChunkParseError>
        ensures ok { IfOk result (λ c. SaysCause raw.entry.typ raw.entry.value.now (no_user_data_tree c)) }
        ensures refused { IfErr result (RefusesCauseAs 9 raw.entry.typ raw.entry.value.now) }
    {
        let value = raw.value_as(Self::TYPE)?;
        let (tsn, rest) = Tsn::entry_at(value)?;
        ends_here(rest)?;
        Ok(Self { tsn })
    }
}

impl OneField for NoUserDataErrorCause {
    ghost item = { λ c. cause_item (no_user_data_tree c) };

    fn first_bytes(&self) -> [u8; 2] {
        Self::TYPE.to_be_bytes()
    }

    fn field(&self) -> FieldValue<'_> {
        FieldValue::Number(self.tsn.0)
    }
}

impl fmt::Display for NoUserDataErrorCause {
    ghost output = { λ c. Some (cause_text (no_user_data_tree c)) };

    fn fmt<W: fmt::Write>(&self, f: &mut fmt::Formatter<W>) -> fmt::Result {
        write!(f, "NO USER DATA, tsn={}", self.tsn.0)
    }
}

/// A COOKIE ECHO came while the association was shutting down (RFC 9260 section 3.3.10.10).
#[derive(Clone, Copy, Debug)]
pub struct CookieReceivedWhileShuttingDownErrorCause {}

impl CookieReceivedWhileShuttingDownErrorCause {
    /// The cause's type.
    pub const TYPE: u16 = 10;

    /// What the cause says; `InvalidType` where it is of another type, `InvalidLength` where it has a value.
    pub fn try_from(_alloc: Global, raw: RawParameter<'_>) -> Result<Self, ChunkParseError>
        ensures ok { IfOk result (λ c. SaysCause raw.entry.typ raw.entry.value.now (cookie_received_tree c)) }
        ensures refused { IfErr result (RefusesCauseAs 10 raw.entry.typ raw.entry.value.now) }
    {
        ends_here(raw.value_as(Self::TYPE)?)?;
        Ok(Self {})
    }
}

impl OneField for CookieReceivedWhileShuttingDownErrorCause {
    ghost item = { λ c. cause_item (cookie_received_tree c) };

    fn first_bytes(&self) -> [u8; 2] {
        Self::TYPE.to_be_bytes()
    }

    fn field(&self) -> FieldValue<'_> {
        FieldValue::Bytes(&[])
    }
}

impl fmt::Display for CookieReceivedWhileShuttingDownErrorCause {
    ghost output = { λ c. Some (cause_text (cookie_received_tree c)) };

    fn fmt<W: fmt::Write>(&self, f: &mut fmt::Formatter<W>) -> fmt::Result {
        f.write_str("COOKIE RECEIVED WHILE SHUTTING DOWN")
    }
}

/// The layer above ended the association (RFC 9260 section 3.3.10.12).
#[derive(Debug, Drop)]
pub struct UserInitiatedAbortErrorCause {
    /// The reason, UTF-8.
    pub reason: String,
}

impl UserInitiatedAbortErrorCause {
    /// The cause's type.
    pub const TYPE: u16 = 12;

    /// What the cause says; `InvalidType` where it is of another type, `Memory` where that lacks.
    pub fn try_from(alloc: Global, raw: RawParameter<'_>) -> Result<Self, ChunkParseError>
        ensures ok { IfOk result (λ c. SaysCause raw.entry.typ raw.entry.value.now (user_initiated_abort_tree c)) }
        ensures refused { IfErr result (RefusesCauseAs 12 raw.entry.typ raw.entry.value.now) }
    {
        let reason = text_from_bytes(alloc, raw.value_as(Self::TYPE)?)?;
        Ok(Self { reason })
    }
}

impl OneField for UserInitiatedAbortErrorCause {
    ghost item = { λ c. cause_item (user_initiated_abort_tree c) };

    fn first_bytes(&self) -> [u8; 2] {
        Self::TYPE.to_be_bytes()
    }

    fn field(&self) -> FieldValue<'_> {
        FieldValue::Bytes(self.reason.as_bytes())
    }
}

impl fmt::Display for UserInitiatedAbortErrorCause {
    ghost output = { λ c. Some (cause_text (user_initiated_abort_tree c)) };

    fn fmt<W: fmt::Write>(&self, f: &mut fmt::Formatter<W>) -> fmt::Result {
        write!(f, "USER INITIATED ABORT, reason={}", self.reason)
    }
}

/// The peer broke the protocol (RFC 9260 section 3.3.10.13).
#[derive(Debug, Drop)]
pub struct ProtocolViolationErrorCause {
    /// What was wrong, UTF-8.
    pub information: String,
}

impl ProtocolViolationErrorCause {
    /// The cause's type.
    pub const TYPE: u16 = 13;

    /// What the cause says; `InvalidType` where it is of another type, `Memory` where that lacks.
    pub fn try_from(alloc: Global, raw: RawParameter<'_>) -> Result<Self, ChunkParseError>
        ensures ok { IfOk result (λ c. SaysCause raw.entry.typ raw.entry.value.now (protocol_violation_tree c)) }
        ensures refused { IfErr result (RefusesCauseAs 13 raw.entry.typ raw.entry.value.now) }
    {
        let information = text_from_bytes(alloc, raw.value_as(Self::TYPE)?)?;
        Ok(Self { information })
    }
}

impl OneField for ProtocolViolationErrorCause {
    ghost item = { λ c. cause_item (protocol_violation_tree c) };

    fn first_bytes(&self) -> [u8; 2] {
        Self::TYPE.to_be_bytes()
    }

    fn field(&self) -> FieldValue<'_> {
        FieldValue::Bytes(self.information.as_bytes())
    }
}

impl fmt::Display for ProtocolViolationErrorCause {
    ghost output = { λ c. Some (cause_text (protocol_violation_tree c)) };

    fn fmt<W: fmt::Write>(&self, f: &mut fmt::Formatter<W>) -> fmt::Result {
        write!(f, "PROTOCOL VIOLATION, information={}", self.information)
    }
}
