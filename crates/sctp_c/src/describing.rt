//! A packet as people read it.

ghost use Rattle.sctp_c_records.specs.Describe.{Shows};

use sctp_c_records::describe_packet;
use std::alloc::Global;

/// Writes what the chunks of a packet say where it fits, a line each, and a zero byte behind them; and how many bytes that takes.
#[unsafe(no_mangle)]
pub extern "C" fn pigeon_describe_packet(
    alloc: Global,
    bytes: &[u8],
    needed: &mut usize,
    buffer: &mut [u8],
) -> u32
    ensures { Shows bytes.now buffer.old buffer.new needed.new result }
{
    describe_packet(alloc, bytes, needed, buffer)
}
