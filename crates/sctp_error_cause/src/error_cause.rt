//! Error causes, by their types.

ghost use Rattle.std.specs.Prelude.{◌≡◌, ◌≢◌, ◌⊎◌, true, List, [], map, IfOk, OnOk, IfErr, Some};
ghost use Rattle.sctp_wire.specs.CauseText.{cause_text};
ghost use Rattle.sctp_wire.specs.Item.{ParsesAll};
ghost use Rattle.sctp_wire.specs.Refusal.{FailsToParseAs};
ghost use Rattle.sctp_wire.specs.Cause.{CauseTree, SaysCause, RefusesCauseAs, IsCause, RefusesCause, cause_item};
ghost use Rattle.sctp_error_cause.specs.CauseViews.{cause_tree};

use crate::cause::{
    CookieReceivedWhileShuttingDownErrorCause, MissingMandatoryParameterErrorCause,
    NoUserDataErrorCause, ProtocolViolationErrorCause, UnrecognizedChunkErrorCause,
    UserInitiatedAbortErrorCause,
};
use crate::check::check_value;
use sctp_wire::{
    CheckItem, ChunkParseError, FromItem, RawItem, RawParameter, SerializableTlv, UnknownParameter,
    check_items, items_from_bytes, read_by_type,
};
use std::alloc::{AllocError, Global};
use std::fmt;

/// An error cause of ABORT or ERROR.
#[derive(Debug, Drop)]
pub enum ErrorCause {
    /// Type 2.
    MissingMandatoryParameter(MissingMandatoryParameterErrorCause),
    /// Type 6.
    UnrecognizedChunk(UnrecognizedChunkErrorCause),
    /// Type 9.
    NoUserData(NoUserDataErrorCause),
    /// Type 10.
    CookieReceivedWhileShuttingDown(CookieReceivedWhileShuttingDownErrorCause),
    /// Type 12.
    UserInitiatedAbort(UserInitiatedAbortErrorCause),
    /// Type 13.
    ProtocolViolation(ProtocolViolationErrorCause),
    /// Any other type, kept as it came.
    Unknown(UnknownParameter),
}

#[tactic(auto, unfolding(sctp_wire::specs::Cause::cause_value))]
impl ErrorCause {
    /// What a cause says, by its type; else the fault of that type's reader, `Memory` where that lacks.
    pub fn try_from(alloc: Global, raw: RawParameter<'_>) -> Result<ErrorCause, ChunkParseError>
        ensures ok { IfOk result (λ it. SaysCause raw.entry.typ raw.entry.value.now (cause_tree it)) }
        ensures refused { IfErr result (RefusesCauseAs raw.entry.typ raw.entry.typ raw.entry.value.now) }
    {
        read_by_type!(ErrorCause, alloc, raw,
            MissingMandatoryParameterErrorCause::TYPE => MissingMandatoryParameter(MissingMandatoryParameterErrorCause),
            UnrecognizedChunkErrorCause::TYPE => UnrecognizedChunk(UnrecognizedChunkErrorCause),
            NoUserDataErrorCause::TYPE => NoUserData(NoUserDataErrorCause),
            CookieReceivedWhileShuttingDownErrorCause::TYPE => CookieReceivedWhileShuttingDown(CookieReceivedWhileShuttingDownErrorCause),
            UserInitiatedAbortErrorCause::TYPE => UserInitiatedAbort(UserInitiatedAbortErrorCause),
            ProtocolViolationErrorCause::TYPE => ProtocolViolation(ProtocolViolationErrorCause),
            _ => Unknown(UnknownParameter),
        )
    }

    /// Whether a cause says something. It has the faults of `try_from`, but for want of memory, since it builds nothing.
    pub fn check(raw: RawParameter<'_>) -> Result<(), ChunkParseError>
        ensures ok { OnOk result ((t : CauseTree) × SaysCause raw.entry.typ raw.entry.value.now t) }
        ensures refused { IfErr result (RefusesCauseAs raw.entry.typ raw.entry.typ raw.entry.value.now) }
        ensures never_memory { IfErr result (λ fault. fault ≢ ChunkParseError.Memory) }
    {
        check_value(raw.typ, raw.value)
    }
}

/// What is asked of a cause, answered by its kind.
macro_rules! of_its_kind {
    ($cause:expr, $it:ident => $answer:expr) => {
        match $cause {
            ErrorCause::MissingMandatoryParameter($it) => $answer,
            ErrorCause::UnrecognizedChunk($it) => $answer,
            ErrorCause::NoUserData($it) => $answer,
            ErrorCause::CookieReceivedWhileShuttingDown($it) => $answer,
            ErrorCause::UserInitiatedAbort($it) => $answer,
            ErrorCause::ProtocolViolation($it) => $answer,
            ErrorCause::Unknown($it) => $answer,
        }
    };
}

#[tactic(auto, unfolding(sctp_wire::specs::Cause::cause_value))]
impl SerializableTlv for ErrorCause {
    ghost item_of = { λ it. cause_item (cause_tree it) };

    ghost parts_agree = { λ it. true };

    fn kind(&self) -> [u8; 2] {
        of_its_kind!(self, it => it.kind())
    }

    fn value_size(&self) -> usize {
        of_its_kind!(self, it => it.value_size())
    }

    fn is_whole(&self) -> bool {
        true
    }

    fn push_value(&self, output: &mut Vec<u8>) -> Result<(), AllocError> {
        of_its_kind!(self, it => it.push_value(output))
    }
}

#[tactic(auto, unfolding(sctp_wire::specs::CauseText::cause_text))]
impl fmt::Display for ErrorCause {
    ghost output = { λ it. Some (cause_text (cause_tree it)) };

    fn fmt<W: fmt::Write>(&self, f: &mut fmt::Formatter<W>) -> fmt::Result {
        match self {
            ErrorCause::MissingMandatoryParameter(it) => it.fmt(f),
            ErrorCause::UnrecognizedChunk(it) => it.fmt(f),
            ErrorCause::NoUserData(it) => it.fmt(f),
            ErrorCause::CookieReceivedWhileShuttingDown(it) => it.fmt(f),
            ErrorCause::UserInitiatedAbort(it) => it.fmt(f),
            ErrorCause::ProtocolViolation(it) => it.fmt(f),
            ErrorCause::Unknown(it) => {
                write!(
                    f,
                    "UNKNOWN CAUSE, typ={}, value={} bytes",
                    it.typ,
                    it.value.len()
                )
            }
        }
    }
}

impl FromItem for ErrorCause {
    ghost stands_for = { λ i it. IsCause i (cause_tree it) };

    ghost refuses = { RefusesCause };

    fn from_item(alloc: Global, item: RawItem<'_>) -> Result<ErrorCause, ChunkParseError> {
        ErrorCause::try_from(alloc, RawParameter::from_item(item))
    }
}

/// The causes that the bytes are, from the left. The fault is that of the first one that cannot be read, `Memory` where that lacks.
pub fn error_cause_from_bytes(
    alloc: Global,
    bytes: &[u8],
) -> Result<Vec<ErrorCause>, ChunkParseError>
    ensures ok { IfOk result (λ list. ParsesAll IsCause bytes.now (map cause_tree list.items) []) }
    ensures refused { IfErr result (λ fault. (fault ≡ ChunkParseError.Memory) ⊎ FailsToParseAs IsCause RefusesCause bytes.now fault) }
{
    items_from_bytes(alloc, bytes)
}

impl CheckItem for ErrorCause {
    ghost use Rattle.sctp_wire.specs.Cause.{CauseTree};

    ghost Tree = { CauseTree };

    ghost stands_for = { IsCause };

    ghost refuses = { RefusesCause };

    fn check_item(item: RawItem<'_>) -> Result<(), ChunkParseError> {
        ErrorCause::check(RawParameter::from_item(item))
    }
}

/// Whether the bytes are causes, from the left. It has the faults of `error_cause_from_bytes`, but for want of memory, since it
/// builds nothing.
pub fn check_causes(bytes: &[u8]) -> Result<(), ChunkParseError>
    ensures ok { OnOk result ((ts : List CauseTree) × ParsesAll IsCause bytes.now ts []) }
    ensures refused { IfErr result (FailsToParseAs IsCause RefusesCause bytes.now) }
    ensures never_memory { IfErr result (λ fault. fault ≢ ChunkParseError.Memory) }
{
    check_items::<ErrorCause>(bytes)
}
