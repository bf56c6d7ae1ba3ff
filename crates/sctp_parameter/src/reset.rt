//! The parameters of a RE-CONFIG: requests to reset streams, and responses (RFC 6525 section 4).
#![tactic(auto, unfolding(sctp_wire::specs::Parameter::parameter_value, sctp_wire::specs::ParameterText::parameter_text))]

ghost use Rattle.std.specs.Prelude.{◌≡◌, ◌+◌, ◌^◌, ◌<◌, ◌≤◌, ◌≢◌, ◌⊎◌, length, true, ◌++◌, is_some, IfSome, IfOk, IfErr, OnOk, OnErr, MatchResult, Some};
ghost use Rattle.sctp_wire.specs.ParameterText.{parameter_text};
ghost use Rattle.sctp_wire.specs.declared.error.ChunkParseError.TheVariants.{InvalidValue as no_value};
ghost use Rattle.sctp_wire.specs.Parameter.{SaysParameter, RefusesParameterAs, parameter_item, parameter_value, parameter_is_whole, optional_tsn_bytes};
ghost use Rattle.sctp_wire.specs.Room.{Fills};
ghost use Rattle.sctp_parameter.specs.ParameterViews.{outgoing_tree, incoming_tree, response_tree, result_number};

use sctp_serial::{StreamId, Tsn};
use sctp_wire::{
    ChunkParseError, Entry, Joined, RawParameter, SerializableTlv, ends_here, entries_from_bytes,
    push_entries, push_u32, u32_at,
};
use std::alloc::{AllocError, Global};
use std::fmt;

/// A request that the sender's streams, all where none is named, begin anew (RFC 6525 section 4.1).
#[derive(Debug, Drop)]
pub struct OutgoingSsnResetRequestParameter {
    /// The request's number: requests are counted from the sender's first TSN.
    pub request_seq_nbr: u32,
    /// The number of the incoming request that this follows, else the last number seen from the peer.
    pub response_seq_nbr: u32,
    /// The last TSN that the sender gave out before the reset.
    pub sender_last_assigned_tsn: Tsn,
    /// The streams, two bytes each; none stands for all.
    pub streams: Vec<StreamId>,
}

impl OutgoingSsnResetRequestParameter {
    /// The parameter's type.
    pub const TYPE: u16 = 13;

    /// What the parameter says; `InvalidType` where it is of another type, `InvalidLength` where its value is no
    /// twelve bytes and then whole stream ids, `Memory` where that lacks.
    pub fn try_from(alloc: Global, raw: RawParameter<'_>) -> Result<Self, ChunkParseError>
        ensures ok { IfOk result (λ p. SaysParameter raw.entry.typ raw.entry.value.now (outgoing_tree p)) }
        ensures refused { IfErr result (RefusesParameterAs 13 raw.entry.typ raw.entry.value.now) }
    {
        let value = raw.value_as(Self::TYPE)?;
        let (request_seq_nbr, rest) = u32_at(value)?;
        let (response_seq_nbr, rest) = u32_at(rest)?;
        let (sender_last_assigned_tsn, rest) = Tsn::entry_at(rest)?;
        let streams = entries_from_bytes(alloc, rest)?;
        Ok(Self {
            request_seq_nbr,
            response_seq_nbr,
            sender_last_assigned_tsn,
            streams,
        })
    }
}

impl SerializableTlv for OutgoingSsnResetRequestParameter {
    ghost item_of = { λ p. parameter_item (outgoing_tree p) };

    ghost parts_agree = { λ p. true };

    fn kind(&self) -> [u8; 2] {
        Self::TYPE.to_be_bytes()
    }

    #[tactic(auto, using(crate::proofs::ParameterLemmas::length_outgoing))]
    fn value_size(&self) -> usize {
        self.streams.len().saturating_mul(2).saturating_add(12)
    }

    fn is_whole(&self) -> bool {
        true
    }

    #[tactic(auto, using(crate::proofs::ParameterLemmas::length_outgoing), unfolding(sctp_wire::specs::Parameter::parameter_value))]
    fn push_value(&self, output: &mut Vec<u8>) -> Result<(), AllocError> {
        push_u32(output, self.request_seq_nbr)?;
        push_u32(output, self.response_seq_nbr)?;
        push_u32(output, self.sender_last_assigned_tsn.0)?;
        push_entries(output, &self.streams)
    }
}

impl fmt::Display for OutgoingSsnResetRequestParameter {
    ghost output = { λ p. Some (parameter_text (outgoing_tree p)) };

    fn fmt<W: fmt::Write>(&self, f: &mut fmt::Formatter<W>) -> fmt::Result {
        write!(
            f,
            "OUTGOING RESET REQUEST, request_seq_nbr={}, response_seq_nbr={}, sender_last_assigned_tsn={}, streams={}",
            self.request_seq_nbr,
            self.response_seq_nbr,
            self.sender_last_assigned_tsn.0,
            Joined(&self.streams)
        )
    }
}

/// A request that the receiver reset its streams, all where none is named (RFC 6525 section 4.2).
#[derive(Debug, Drop)]
pub struct IncomingSsnResetRequestParameter {
    /// The request's number: requests are counted from the sender's first TSN.
    pub request_seq_nbr: u32,
    /// The streams, two bytes each; none stands for all.
    pub streams: Vec<StreamId>,
}

impl IncomingSsnResetRequestParameter {
    /// The parameter's type.
    pub const TYPE: u16 = 14;

    /// What the parameter says; `InvalidType` where it is of another type, `InvalidLength` where its value is no
    /// four bytes and then whole stream ids, `Memory` where that lacks.
    pub fn try_from(alloc: Global, raw: RawParameter<'_>) -> Result<Self, ChunkParseError>
        ensures ok { IfOk result (λ p. SaysParameter raw.entry.typ raw.entry.value.now (incoming_tree p)) }
        ensures refused { IfErr result (RefusesParameterAs 14 raw.entry.typ raw.entry.value.now) }
    {
        let value = raw.value_as(Self::TYPE)?;
        let (request_seq_nbr, rest) = u32_at(value)?;
        let streams = entries_from_bytes(alloc, rest)?;
        Ok(Self {
            request_seq_nbr,
            streams,
        })
    }
}

impl SerializableTlv for IncomingSsnResetRequestParameter {
    ghost item_of = { λ p. parameter_item (incoming_tree p) };

    ghost parts_agree = { λ p. true };

    fn kind(&self) -> [u8; 2] {
        Self::TYPE.to_be_bytes()
    }

    #[tactic(auto, using(crate::proofs::ParameterLemmas::length_incoming))]
    fn value_size(&self) -> usize {
        self.streams.len().saturating_mul(2).saturating_add(4)
    }

    fn is_whole(&self) -> bool {
        true
    }

    #[tactic(auto, using(crate::proofs::ParameterLemmas::length_incoming), unfolding(sctp_wire::specs::Parameter::parameter_value))]
    fn push_value(&self, output: &mut Vec<u8>) -> Result<(), AllocError> {
        push_u32(output, self.request_seq_nbr)?;
        push_entries(output, &self.streams)
    }
}

impl fmt::Display for IncomingSsnResetRequestParameter {
    ghost output = { λ p. Some (parameter_text (incoming_tree p)) };

    fn fmt<W: fmt::Write>(&self, f: &mut fmt::Formatter<W>) -> fmt::Result {
        write!(
            f,
            "INCOMING RESET REQUEST, request_seq_nbr={}, streams={}",
            self.request_seq_nbr,
            Joined(&self.streams)
        )
    }
}

/// What became of a request (RFC 6525 section 4.4).
#[derive(Clone, Copy, Debug, PartialEq, Eq)]
pub enum ReconfigurationResponseResult {
    /// There was nothing to reset.
    SuccessNothingToDo = 0,
    /// Done.
    SuccessPerformed = 1,
    /// Not done, and not to be.
    Denied = 2,
    /// The number in the request is wrong.
    ErrorWrongSSN = 3,
    /// Another request is being worked on.
    ErrorRequestAlreadyInProgress = 4,
    /// The request's number is not the next one.
    ErrorBadSequenceNumber = 5,
    /// Not done yet: ask again.
    InProgress = 6,
}

impl ReconfigurationResponseResult {
    /// Its number on the wire.
    pub fn number(self) -> u32
        ensures { result ≡ result_number self }
    {
        self as u32
    }
}

impl TryFrom<u32> for ReconfigurationResponseResult {
    type Error = ChunkParseError;

    ghost try_from_gives = { λ n r. MatchResult r (λ outcome. result_number outcome ≡ n) (λ e. (e ≡ no_value) × (6 < n)) };

    fn try_from(value: u32) -> Result<ReconfigurationResponseResult, ChunkParseError> {
        match value {
            0 => Ok(ReconfigurationResponseResult::SuccessNothingToDo),
            1 => Ok(ReconfigurationResponseResult::SuccessPerformed),
            2 => Ok(ReconfigurationResponseResult::Denied),
            3 => Ok(ReconfigurationResponseResult::ErrorWrongSSN),
            4 => Ok(ReconfigurationResponseResult::ErrorRequestAlreadyInProgress),
            5 => Ok(ReconfigurationResponseResult::ErrorBadSequenceNumber),
            6 => Ok(ReconfigurationResponseResult::InProgress),
            _ => Err(ChunkParseError::InvalidValue),
        }
    }
}

/// An answer to a request: what became of it, and, for a reset of all numbers, the TSNs that both sides go on with
/// (RFC 6525 section 4.4).
#[derive(Clone, Copy, Debug)]
pub struct ReconfigurationResponseParameter {
    /// The number of the request that this answers.
    pub response_seq_nbr: u32,
    /// What became of the request.
    pub result: ReconfigurationResponseResult,
    /// The next TSN of the response's sender; there with the other one alone.
    pub sender_next_tsn: Option<Tsn>,
    /// The next TSN of its receiver.
    pub receiver_next_tsn: Option<Tsn>,
}

impl ReconfigurationResponseParameter {
    /// The parameter's type.
    pub const TYPE: u16 = 16;

    /// What the parameter says; `InvalidType` where it is of another type, `InvalidLength` where its value has
    /// neither 8 nor 16 bytes, `InvalidValue` where its result is over 6.
    pub fn try_from(_alloc: Global, raw: RawParameter<'_>) -> Result<Self, ChunkParseError>
        ensures ok { IfOk result (λ p. SaysParameter raw.entry.typ raw.entry.value.now (response_tree p)) }
        ensures refused { IfErr result (RefusesParameterAs 16 raw.entry.typ raw.entry.value.now) }
    {
        let value = raw.value_as(Self::TYPE)?;
        let (response_seq_nbr, rest) = u32_at(value)?;
        let (result, rest) = u32_at(rest)?;
        let (sender_next_tsn, receiver_next_tsn) = next_tsns(rest)?;
        let result = ReconfigurationResponseResult::try_from(result)?;
        Ok(Self {
            response_seq_nbr,
            result,
            sender_next_tsn,
            receiver_next_tsn,
        })
    }
}

/// Nothing, or two TSNs.
fn next_tsns(bytes: &[u8]) -> Result<(Option<Tsn>, Option<Tsn>), ChunkParseError>
    ensures ok { IfOk result (λ tsns. bytes.now ≡ optional_tsn_bytes tsns.0 ++ optional_tsn_bytes tsns.1) }
    ensures sender { IfOk result (λ tsns. IfSome tsns.0 (λ tsn. tsn.0 < 2 ^ 32)) }
    ensures receiver { IfOk result (λ tsns. IfSome tsns.1 (λ tsn. tsn.0 < 2 ^ 32)) }
    ensures both { IfOk result (λ tsns. is_some tsns.0 ≡ is_some tsns.1) }
    ensures len { OnOk result ((length bytes.now ≡ 0) ⊎ (length bytes.now ≡ 8)) }
    ensures other { OnErr result ((length bytes.now ≢ 0) × (length bytes.now ≢ 8)) }
    ensures fault { IfErr result (λ e. e ≡ ChunkParseError.InvalidLength) }
{
    if bytes.is_empty() {
        return Ok((None, None));
    }
    let (sender_next_tsn, rest) = Tsn::entry_at(bytes)?;
    let (receiver_next_tsn, rest) = Tsn::entry_at(rest)?;
    ends_here(rest)?;
    Ok((Some(sender_next_tsn), Some(receiver_next_tsn)))
}

impl SerializableTlv for ReconfigurationResponseParameter {
    ghost item_of = { λ p. parameter_item (response_tree p) };

    ghost parts_agree = { λ p. parameter_is_whole (response_tree p) };

    fn kind(&self) -> [u8; 2] {
        Self::TYPE.to_be_bytes()
    }

    #[tactic(auto, using(crate::proofs::ParameterLemmas::length_response))]
    fn value_size(&self) -> usize {
        8 + optional_tsn_size(self.sender_next_tsn) + optional_tsn_size(self.receiver_next_tsn)
    }

    fn is_whole(&self) -> bool {
        self.sender_next_tsn.is_some() == self.receiver_next_tsn.is_some()
    }

    #[tactic(auto, using(crate::proofs::ParameterLemmas::length_response), unfolding(sctp_wire::specs::Parameter::parameter_value))]
    fn push_value(&self, output: &mut Vec<u8>) -> Result<(), AllocError> {
        push_u32(output, self.response_seq_nbr)?;
        push_u32(output, self.result.number())?;
        push_optional_tsn(output, self.sender_next_tsn)?;
        push_optional_tsn(output, self.receiver_next_tsn)
    }
}

impl fmt::Display for ReconfigurationResponseParameter {
    ghost output = { λ p. Some (parameter_text (response_tree p)) };

    fn fmt<W: fmt::Write>(&self, f: &mut fmt::Formatter<W>) -> fmt::Result {
        let number = self.response_seq_nbr;
        let result = self.result.number();
        match (self.sender_next_tsn, self.receiver_next_tsn) {
            (None, None) => write!(f, "RESPONSE, response_seq_nbr={number}, result={result}"),
            (Some(Tsn(sender)), None) => write!(
                f,
                "RESPONSE, response_seq_nbr={number}, result={result}, sender_next_tsn={sender}"
            ),
            (None, Some(Tsn(receiver))) => write!(
                f,
                "RESPONSE, response_seq_nbr={number}, result={result}, receiver_next_tsn={receiver}"
            ),
            (Some(Tsn(sender)), Some(Tsn(receiver))) => write!(
                f,
                "RESPONSE, response_seq_nbr={number}, result={result}, sender_next_tsn={sender}, receiver_next_tsn={receiver}"
            ),
        }
    }
}

#[tactic(auto, using(crate::proofs::ParameterLemmas::length_present))]
fn optional_tsn_size(tsn: Option<Tsn>) -> usize
    ensures size { result ≡ length (optional_tsn_bytes tsn) }
    ensures small { result ≤ 4 }
{
    match tsn {
        Some(_) => 4,
        None => 0,
    }
}

#[tactic(auto, using(crate::proofs::ParameterLemmas::length_present))]
fn push_optional_tsn(output: &mut Vec<u8>, tsn: Option<Tsn>) -> Result<(), AllocError>
    ensures wrote { OnOk result (output.new.items ≡ output.old.items ++ optional_tsn_bytes tsn) }
    ensures room { Fills output.old output.new (length (optional_tsn_bytes tsn)) result }
{
    match tsn {
        Some(tsn) => push_u32(output, tsn.0),
        None => Ok(()),
    }
}
