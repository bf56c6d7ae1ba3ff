//! What both ends of an association can do: announced by parameters of INIT and INIT ACK, and negotiated.

ghost use Rattle.std.specs.Prelude.{◌≡◌, ◌||◌, map, IfOk};
ghost use Rattle.std.specs.List.{list_any};
ghost use Rattle.sctp_parameter.specs.ParameterViews.{parameter_tree};
ghost use Rattle.sctp_state.specs.Options.{Options as Settings, options_of};
ghost use Rattle.sctp_capabilities.specs.Capabilities.{capabilities_of, nothing, zero_checksum_enabled, extensions, announced_parameters, extensions_in, method_in, is_forward_tsn_supported, has_type, forward_tsn, announced_by, announced_by_init, announced_by_init_ack, negotiate, agreed};

use sctp_parameter::{
    ForwardTsnSupportedParameter, Parameter, SupportedExtensionsParameter,
    ZeroChecksumAcceptableParameter,
};
use sctp_state::Options;
use sctp_wire::{
    ZERO_CHECKSUM_ALTERNATE_ERROR_DETECTION_METHOD_NONE, ZeroChecksumAlternateErrorDetectionMethod,
};
use std::alloc::{AllocError, Global};

/// The type of I-DATA (RFC 8260 section 2.1).
const I_DATA: u8 = 64;

/// The type of RE-CONFIG (RFC 6525 section 3.1).
const RE_CONFIG: u8 = 130;

/// The type of FORWARD-TSN (RFC 3758 section 3.2).
const FORWARD_TSN: u8 = 192;

/// The type of I-FORWARD-TSN (RFC 8260 section 2.3.1).
const I_FORWARD_TSN: u8 = 194;

/// What a peer says that it can do, or what both ends have agreed on. The default is nothing.
#[derive(Clone, Copy, Debug)]
pub struct Capabilities {
    /// Messages may be given up (RFC 3758).
    pub partial_reliability: bool,
    /// Messages of several streams may be interleaved (RFC 8260).
    pub message_interleaving: bool,
    /// Streams may be reset (RFC 6525).
    pub reconfig: bool,
    /// How damage is found where packets go without a checksum (RFC 9653).
    pub zero_checksum_method: ZeroChecksumAlternateErrorDetectionMethod,
    /// How many streams the peer may send on.
    pub negotiated_maximum_incoming_streams: u16,
    /// How many streams this end may send on.
    pub negotiated_maximum_outgoing_streams: u16,
}

impl Default for Capabilities {
    fn default() -> Capabilities
        ensures { capabilities_of result ≡ nothing }
    {
        Capabilities {
            partial_reliability: false,
            message_interleaving: false,
            reconfig: false,
            zero_checksum_method: ZERO_CHECKSUM_ALTERNATE_ERROR_DETECTION_METHOD_NONE,
            negotiated_maximum_incoming_streams: 0,
            negotiated_maximum_outgoing_streams: 0,
        }
    }
}

impl Capabilities {
    /// What the sender of an INIT or INIT ACK with these stream counts and parameters can do. Of several parameters of
    /// one type the first counts.
    pub fn from_parameters(
        nbr_outbound_streams: u16,
        nbr_inbound_streams: u16,
        parameters: &[Parameter],
    ) -> Capabilities
        ensures { capabilities_of result
            ≡ announced_by nbr_outbound_streams nbr_inbound_streams (map parameter_tree parameters.now) }
    {
        let chunk_types = supported_chunk_types(parameters);
        Capabilities {
            partial_reliability: supports_partial_reliability(parameters, chunk_types),
            message_interleaving: chunk_types.contains(&I_DATA),
            reconfig: chunk_types.contains(&RE_CONFIG),
            zero_checksum_method: acceptable_method(parameters),
            negotiated_maximum_incoming_streams: nbr_outbound_streams,
            negotiated_maximum_outgoing_streams: nbr_inbound_streams,
        }
    }

    /// What an end with these options does with a peer that can do this: what both enable, the method where both name
    /// the same, and the smaller stream counts. From the parameters of an INIT, or of the INIT ACK that answers it,
    /// both ends come to the same, with the stream counts exchanged.
    pub fn negotiate(&self, options: &Options) -> Capabilities
        ensures negotiated { capabilities_of result ≡ negotiate (options_of options.now) (capabilities_of self.now) }
        ensures by_init { (peer : Settings) → capabilities_of self.now ≡ announced_by_init peer
            → capabilities_of result ≡ agreed (options_of options.now) peer }
        ensures by_init_ack { (peer : Settings) → capabilities_of self.now ≡ announced_by_init_ack peer (options_of options.now)
            → capabilities_of result ≡ agreed (options_of options.now) peer }
    {
        let own_method = options.zero_checksum_alternate_error_detection_method;
        Capabilities {
            partial_reliability: options.enable_partial_reliability && self.partial_reliability,
            message_interleaving: options.enable_message_interleaving && self.message_interleaving,
            reconfig: self.reconfig,
            zero_checksum_method: if own_method == self.zero_checksum_method {
                own_method
            } else {
                ZERO_CHECKSUM_ALTERNATE_ERROR_DETECTION_METHOD_NONE
            },
            negotiated_maximum_incoming_streams: options
                .announced_maximum_incoming_streams
                .min(self.negotiated_maximum_incoming_streams),
            negotiated_maximum_outgoing_streams: options
                .announced_maximum_outgoing_streams
                .min(self.negotiated_maximum_outgoing_streams),
        }
    }

    /// Whether packets go without a checksum (RFC 9653).
    pub fn zero_checksum_enabled(&self) -> bool
        ensures { result ≡ zero_checksum_enabled (capabilities_of self.now) }
    {
        self.zero_checksum_method != ZERO_CHECKSUM_ALTERNATE_ERROR_DETECTION_METHOD_NONE
    }
}

/// The parameters that an INIT or INIT ACK announces the options by, but for the cookie. An INIT has the method of the
/// options, an INIT ACK the negotiated one.
pub fn announced_parameters(
    alloc: Global,
    options: &Options,
    method: ZeroChecksumAlternateErrorDetectionMethod,
) -> Result<Vec<Parameter>, AllocError>
    ensures { IfOk result (λ list. map parameter_tree list.items ≡ announced_parameters (options_of options.now) method.0) }
{
    let mut parameters = Vec::new(alloc);
    if options.enable_partial_reliability {
        parameters.push(Parameter::ForwardTsnSupported(ForwardTsnSupportedParameter {}))?;
    }
    if method != ZERO_CHECKSUM_ALTERNATE_ERROR_DETECTION_METHOD_NONE {
        parameters.push(Parameter::ZeroChecksumAcceptable(ZeroChecksumAcceptableParameter {
            method,
        }))?;
    }
    let chunk_types = announced_chunk_types(alloc, options)?;
    parameters.push(Parameter::SupportedExtensions(SupportedExtensionsParameter { chunk_types }))?;
    Ok(parameters)
}

/// The types of further chunks that an end with these options understands.
fn announced_chunk_types(alloc: Global, options: &Options) -> Result<Vec<u8>, AllocError>
    ensures { IfOk result (λ list. list.items ≡ extensions (options_of options.now)) }
{
    let chunk_types: &[u8] = match (
        options.enable_partial_reliability,
        options.enable_message_interleaving,
    ) {
        (false, false) => &[RE_CONFIG],
        (true, false) => &[RE_CONFIG, FORWARD_TSN],
        (false, true) => &[RE_CONFIG, I_DATA, I_FORWARD_TSN],
        (true, true) => &[RE_CONFIG, FORWARD_TSN, I_DATA, I_FORWARD_TSN],
    };
    Vec::from_slice(alloc, chunk_types)
}

/// The chunk types of the first parameter that names some.
fn supported_chunk_types(parameters: &[Parameter]) -> &[u8]
    ensures { result.now ≡ extensions_in (map parameter_tree parameters.now) }
{
    for parameter in parameters {
        if let Parameter::SupportedExtensions(extensions) = parameter {
            return &extensions.chunk_types;
        }
    }
    &[]
}

/// The method of the first parameter that names one.
fn acceptable_method(parameters: &[Parameter]) -> ZeroChecksumAlternateErrorDetectionMethod
    ensures { result.0 ≡ method_in (map parameter_tree parameters.now) }
{
    for parameter in parameters {
        if let Parameter::ZeroChecksumAcceptable(acceptable) = parameter {
            return acceptable.method;
        }
    }
    ZERO_CHECKSUM_ALTERNATE_ERROR_DETECTION_METHOD_NONE
}

/// Whether a message may be given up: a parameter of its own says so, or FORWARD-TSN is among the chunk types.
#[tactic(auto, using(crate::proofs::CapabilitiesLemmas::list_any_map))]
fn supports_partial_reliability(parameters: &[Parameter], chunk_types: &[u8]) -> bool
    ensures { result ≡ (list_any is_forward_tsn_supported (map parameter_tree parameters.now)
        || has_type forward_tsn chunk_types.now) }
{
    supports_forward_tsn(parameters) || chunk_types.contains(&FORWARD_TSN)
}

fn supports_forward_tsn(parameters: &[Parameter]) -> bool
    ensures { result ≡ list_any (λ p. is_forward_tsn_supported (parameter_tree p)) parameters.now }
{
    parameters.iter().any(|parameter| matches!(parameter, Parameter::ForwardTsnSupported(_)))
}
