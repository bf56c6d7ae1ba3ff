//! What real calls hand in fits: the fields of the values that a program has are no larger than their types let them be.
//! A field's bounds are known once it is read.

ghost use Rattle.sctp_packet.specs.Grammar.{Each, FitsFragment};
ghost use Rattle.sctp_tx_outstanding.specs.Handover.{fragment_from};
ghost use Rattle.sctp_serial.specs.Messages.{message_of};
ghost use Rattle.sctp_state.specs.Events.{numbers_of};
ghost use Rattle.sctp_state.specs.Handover.{OutstandingData, handover_state_of, outstanding_data_of, stream_message_of};
ghost use Rattle.sctp_state.specs.declared.api.handover.HandoverOutgoingStream.{HandoverOutgoingStream};
ghost use Rattle.sctp_state.specs.Options.{IsValid, options_of};
ghost use Rattle.std.specs.Prelude.{ℕ, ◌<◌, ◌^◌, map};
ghost use Rattle.proof_endpoint.specs.Sound.{FitsMessage, FitsRecord, FitsStreamMessage, OptionsFit};

use sctp_serial::{Message, StreamId};
use sctp_state::Options;
use sctp_state::api::handover::{
    HandoverOutgoingStream, HandoverOutstandingData, HandoverStreamMessage, SocketHandoverState,
};

/// Valid options fit.
pub fn options_fit(options: &Options)
    requires valid { IsValid (options_of options.now) }
    ensures fit { OptionsFit (options_of options.now) }
{
    let _local = options.local_port;
    let _remote = options.remote_port;
    let _incoming = options.announced_maximum_incoming_streams;
    let _outgoing = options.announced_maximum_outgoing_streams;
    let _method = options.zero_checksum_alternate_error_detection_method.0;
}

/// A message fits.
pub fn a_message_fits(message: &Message)
    ensures fits { FitsMessage (message_of message.now) }
{
    let _stream = message.stream_id.0;
    let _ppid = message.ppid.0;
}

/// Each message of a batch fits.
pub fn messages_fit(messages: &[Message])
    ensures fit { Each FitsMessage (map message_of messages.now) }
{
    for message in messages {
        a_message_fits(message);
    }
}

/// A stream's number has 16 bits.
pub fn a_stream_fits(stream: &StreamId)
    ensures fits { stream.now.0 < 2 ^ 16 }
{
    let _id = stream.0;
}

/// Each stream that is to be reset fits.
pub fn streams_fit(streams: &[StreamId])
    ensures fit { Each (λ (id : ℕ). id < 2 ^ 16) (numbers_of streams.now) }
{
    for stream in streams {
        a_stream_fits(stream);
    }
}

/// A stream in a record of a handover fits.
pub fn a_recorded_stream_fits(stream: &HandoverOutgoingStream)
    ensures fits { stream.now.id < 2 ^ 16 }
{
    let _id = stream.id;
}

/// The streams of a record fit.
pub fn recorded_streams_fit(streams: &[HandoverOutgoingStream])
    ensures fit { Each (λ (s : HandoverOutgoingStream). s.id < 2 ^ 16) streams.now }
{
    for stream in streams {
        a_recorded_stream_fits(stream);
    }
}

/// A message that waits in a record fits.
pub fn a_recorded_message_fits(message: &HandoverStreamMessage)
    ensures fits { FitsStreamMessage (stream_message_of message.now) }
{
    let _ppid = message.ppid;
    let _fsn = message.fsn;
}

/// The messages that wait in a record fit.
pub fn recorded_messages_fit(messages: &[HandoverStreamMessage])
    ensures fit { Each FitsStreamMessage (map stream_message_of messages.now) }
{
    for message in messages {
        a_recorded_message_fits(message);
    }
}

/// A fragment that is kept in a record fits.
pub fn a_recorded_fragment_fits(data: &HandoverOutstandingData)
    ensures fits { FitsFragment (fragment_from (outstanding_data_of «data».now)) }
{
    let _stream = data.stream_id;
    let _ssn = data.ssn;
    let _mid = data.mid;
    let _fsn = data.fsn;
    let _ppid = data.ppid;
}

/// The fragments that are kept in a record fit.
pub fn recorded_fragments_fit(fragments: &[HandoverOutstandingData])
    ensures fit { Each (λ (d : OutstandingData). FitsFragment (fragment_from d)) (map outstanding_data_of fragments.now) }
{
    for fragment in fragments {
        a_recorded_fragment_fits(fragment);
    }
}

/// The record of a handover fits.
pub fn a_record_fits(record: &SocketHandoverState)
    ensures fits { FitsRecord (handover_state_of «record».now) }
{
    let _my_tag = record.my_verification_tag;
    let _my_first = record.my_initial_tsn;
    let _peer_tag = record.peer_verification_tag;
    let _next_request = record.tx.next_reset_req_sn;
    recorded_streams_fit(&record.tx.streams);
    recorded_messages_fit(&record.tx.queued_messages);
    recorded_fragments_fit(&record.tx.outstanding_data);
}
