//! What the types of a chunk's fields say of it: its numbers fit their fields on the wire, and its texts are UTF-8.

ghost use Rattle.std.specs.Prelude.{◌≡◌, ◌+◌, ◌<◌, ◌^◌, true, length, map, All};
ghost use Rattle.sctp_wire.specs.Serialize.{IsEncodable, inner_items};
ghost use Rattle.sctp_wire.specs.Parameter.{ParameterFits};
ghost use Rattle.sctp_parameter.specs.ParameterViews.{parameter_tree};
ghost use Rattle.sctp_wire.specs.Cause.{CauseFits, cause_item};
ghost use Rattle.sctp_error_cause.specs.CauseViews.{cause_tree};
ghost use Rattle.sctp_wire.specs.ReadBack.{IsText};
ghost use Rattle.sctp_chunk.specs.Written.{chunk_item, chunk_is_whole, key_stream};
ghost use Rattle.sctp_chunk.specs.Grammar.{Each, FitsFragment, FitsInit, FitsBlock, FitsTsn, FitsSkip, FitsChunk};
ghost use Rattle.sctp_chunk.specs.Views.{fragment_tree, sack_chunk_tree};
ghost use Rattle.sctp_control_chunk.specs.Views.{init_tree, init_ack_tree};
ghost use Rattle.sctp_control_chunk.specs.ChunkView.{chunk_tree};
ghost use Rattle.sctp_packet.specs.ReadBack.{HasItsTypes, InsideFits, ChunkReadsBack};

use sctp_chunk::{Data, GapAckBlock, SackChunk, SkippedStream};
use sctp_control_chunk::{Chunk, InitAckChunk, InitChunk};
use sctp_error_cause::{ErrorCause, cause_fits};
use sctp_parameter::{Parameter, parameter_fits};
use sctp_serial::{StreamKey, Tsn};
use sctp_wire::{id_fits, number_fits};

/// The numbers of a chunk that can be written fit their fields. So it is read back, as `read_back` says, where each item's type
/// is one of its variant and a COOKIE ECHO has a cookie.
pub fn chunk_fits(chunk: &Chunk)
    requires encodable { IsEncodable (chunk_item (chunk_tree chunk.now)) }
    requires whole { chunk_is_whole (chunk_tree chunk.now) ≡ true }
    ensures fits { FitsChunk (chunk_tree chunk.now) }
    ensures reads_back { HasItsTypes (chunk_tree chunk.now) → ChunkReadsBack (chunk_tree chunk.now) }
{
    outside_fits(chunk);
    inside_fits(chunk);
}

/// The numbers of a chunk's own fields.
fn outside_fits(chunk: &Chunk)
    requires { IsEncodable (chunk_item (chunk_tree chunk.now)) }
    ensures { FitsChunk (chunk_tree chunk.now) }
{
    match chunk {
        Chunk::Data(c) => {
            number_fits(c.tsn.0);
            data_fits(&c.data);
        }
        Chunk::IData(c) => {
            number_fits(c.tsn.0);
            data_fits(&c.data);
        }
        Chunk::Init(c) => init_fits(c),
        Chunk::InitAck(c) => init_ack_fits(c),
        Chunk::Sack(c) => sack_fits(c),
        Chunk::Shutdown(c) => number_fits(c.cumulative_tsn_ack.0),
        Chunk::ForwardTsn(c) => {
            number_fits(c.new_cumulative_tsn.0);
            skips_fit(&c.skipped_streams);
        }
        Chunk::IForwardTsn(c) => {
            number_fits(c.new_cumulative_tsn.0);
            skips_fit(&c.skipped_streams);
        }
        _ => {}
    }
}

/// The numbers and texts of the items inside a chunk.
#[tactic(auto, unfolding(sctp_chunk::specs::Written::chunk_value))]
fn inside_fits(chunk: &Chunk)
    requires { IsEncodable (chunk_item (chunk_tree chunk.now)) }
    ensures { InsideFits (chunk_tree chunk.now) }
{
    match chunk {
        Chunk::Init(c) => parameters_fit(&c.parameters),
        Chunk::InitAck(c) => parameters_fit(&c.parameters),
        Chunk::HeartbeatRequest(c) => parameters_fit(&c.parameters),
        Chunk::HeartbeatAck(c) => parameters_fit(&c.parameters),
        Chunk::ReConfig(c) => parameters_fit(&c.parameters),
        Chunk::Abort(c) => causes_fit(&c.error_causes),
        Chunk::Error(c) => causes_fit(&c.error_causes),
        _ => {}
    }
}

fn data_fits(fragment: &Data)
    ensures { FitsFragment (fragment_tree fragment.now) }
{
    key_fits(fragment.stream_key);
    id_fits(fragment.ssn.0);
    number_fits(fragment.mid.0);
    number_fits(fragment.fsn.0);
    number_fits(fragment.ppid.0);
}

fn init_fits(init: &InitChunk)
    ensures { FitsInit (init_tree init.now) }
{
    number_fits(init.initiate_tag);
    number_fits(init.a_rwnd);
    id_fits(init.nbr_outbound_streams);
    id_fits(init.nbr_inbound_streams);
    number_fits(init.initial_tsn.0);
}

fn init_ack_fits(init: &InitAckChunk)
    ensures { FitsInit (init_ack_tree init.now) }
{
    number_fits(init.initiate_tag);
    number_fits(init.a_rwnd);
    id_fits(init.nbr_outbound_streams);
    id_fits(init.nbr_inbound_streams);
    number_fits(init.initial_tsn.0);
}

fn sack_fits(sack: &SackChunk)
    requires { IsEncodable (chunk_item (sack_chunk_tree sack.now)) }
    ensures { FitsChunk (sack_chunk_tree sack.now) }
{
    number_fits(sack.cumulative_tsn_ack.0);
    number_fits(sack.a_rwnd);
    blocks_fit(&sack.gap_ack_blocks);
    tsns_fit(&sack.duplicate_tsns);
}

fn blocks_fit(blocks: &[GapAckBlock])
    ensures { All FitsBlock blocks.now }
{
    for block in blocks {
        id_fits(block.start);
        id_fits(block.end);
    }
}

fn tsns_fit(tsns: &[Tsn])
    ensures { All FitsTsn tsns.now }
{
    for tsn in tsns {
        number_fits(tsn.0);
    }
}

fn skips_fit(skipped: &[SkippedStream])
    ensures { Each FitsSkip skipped.now }
{
    for skip in skipped {
        skip_fits(*skip);
    }
}

fn skip_fits(skip: SkippedStream)
    ensures { FitsSkip skip }
{
    match skip {
        SkippedStream::ForwardTsn(id, ssn) => {
            id_fits(id.0);
            id_fits(ssn.0);
        }
        SkippedStream::IForwardTsn(key, mid) => {
            key_fits(key);
            number_fits(mid.0);
        }
    }
}

fn key_fits(key: StreamKey)
    ensures { key_stream key < 2 ^ 16 }
{
    match key {
        StreamKey::Ordered(id) => id_fits(id.0),
        StreamKey::Unordered(id) => id_fits(id.0),
    }
}

fn parameters_fit(parameters: &[Parameter])
    ensures { All ParameterFits (map parameter_tree parameters.now) }
{
    for parameter in parameters {
        parameter_fits(parameter);
    }
}

fn causes_fit(causes: &[ErrorCause])
    requires { 4 + length (inner_items (map cause_item (map cause_tree causes.now))) < 2 ^ 16 }
    ensures fits { All CauseFits (map cause_tree causes.now) }
    ensures texts { All IsText (map cause_tree causes.now) }
{
    for cause in causes {
        cause_fits(cause);
    }
}
