//! Streams with ordered messages, by their ids.

ghost use Rattle.std.specs.Prelude.{◌≡◌, true, IfOk};
ghost use Rattle.sctp_serial.specs.Unwrapped.{wire};
ghost use Rattle.sctp_state.specs.Validity.{rises_from, ordered_ids};
ghost use Rattle.sctp_reassembly.specs.ReassemblyHandover.{ordered_records, ordered_entries, space_of};

use crate::ordered_stream::{FIRST, OrderedStream};
use crate::reassembly_stream::ReassemblyStream;
use crate::stream_map::StreamMap;
use sctp_fragments::ReassemblyKey;
use sctp_serial::{Mid, SerialNumber, Ssn};
use sctp_state::api::handover::HandoverOrderedStream;
use std::alloc::{AllocError, Global};
use std::collections::BTreeMap;

/// Streams whose messages become ready in the order of their numbers.
pub type OrderedStreams<K> = StreamMap<OrderedStream<K>>;

impl<K: ReassemblyKey> StreamMap<OrderedStream<K>> {
    /// The streams of a handover record, whose ids rise.
    pub fn restored(
        alloc: Global,
        records: &[HandoverOrderedStream],
    ) -> Result<OrderedStreams<K>, AllocError>
        requires { rises_from 0 (ordered_ids records.now) ≡ true }
        ensures { IfOk result (λ streams. streams ≡ ordered_entries records.now) }
    {
        Ok(StreamMap {
            alloc,
            streams: read(alloc, records)?,
            bytes: 0,
            fragments: 0,
        })
    }

    /// The streams in a handover record.
    pub fn handed_over(
        &self,
        alloc: Global,
        is_interleaved: bool,
    ) -> Result<Vec<HandoverOrderedStream>, AllocError>
        ensures value { IfOk result (λ records. records.items ≡ ordered_records is_interleaved self.now) }
        ensures rises { IfOk result (λ records. rises_from 0 (ordered_ids records.items) ≡ true) }
    {
        records(alloc, &self.streams, is_interleaved)
    }
}

/// How the number is written: as an SSN, or with interleaving as a MID.
fn wire_number(number: u128, is_interleaved: bool) -> u32
    ensures { result ≡ wire (space_of is_interleaved) 0 number }
{
    let number = (number % (1 << 32)) as u64;
    if is_interleaved {
        Mid::wrapped(Mid(0), number).0
    } else {
        u32::from(Ssn::wrapped(Ssn(0), number).0)
    }
}

/// The streams in a handover record.
fn records<K: ReassemblyKey>(
    alloc: Global,
    streams: &BTreeMap<u16, OrderedStream<K>>,
    is_interleaved: bool,
) -> Result<Vec<HandoverOrderedStream>, AllocError>
    ensures value { IfOk result (λ records. records.items ≡ ordered_records is_interleaved streams.now.entries) }
    ensures rises { IfOk result (λ records. rises_from 0 (ordered_ids records.items) ≡ true) }
{
    // (what a map keeps is known once it is read)
    let _count = streams.len();
    let mut records = Vec::new(alloc);
    for (id, stream) in streams {
        records.push(HandoverOrderedStream {
            id: *id,
            next_ssn: wire_number(stream.reading_point(), is_interleaved),
        })?;
    }
    Ok(records)
}

/// The streams of a handover record.
fn read<K: ReassemblyKey>(
    alloc: Global,
    records: &[HandoverOrderedStream],
) -> Result<BTreeMap<u16, OrderedStream<K>>, AllocError>
    requires { rises_from 0 (ordered_ids records.now) ≡ true }
    ensures { IfOk result (λ streams. streams.entries ≡ ordered_entries records.now) }
{
    let mut streams = BTreeMap::new(alloc);
    for record in records {
        let next = FIRST + record.next_ssn as u64;
        streams.insert(record.id, OrderedStream::restored(alloc, next))?;
    }
    Ok(streams)
}
