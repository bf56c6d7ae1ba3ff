//! Readers that never end, and reads and writes that fail.

use crate::tests::run_read;
use sctp_world::*;
use std::alloc::Global;
use std::io;
use std::io::{Read, Write};

/// One whole message: stream 2, protocol 53, bytes 00 01 02 03; the sum of the packet's bytes is 668.
const LINE: &[u8] = b"probe 13881388000001410000029c000300145508363c000200010000003500010203\n";

const PRINTED: &[u8] =
    b"message 2 53 00010203\nsack 1388138800000141000002a2030000105508363c0048000000000000\n";

/// Gives one newline a read, for ever.
#[derive(Drop)]
struct Newlines;

impl Read for Newlines {
    fn read(&mut self, buf: &mut [u8]) -> io::Result<usize> {
        match buf {
            [] => Ok(0),
            [first, ..] => {
                *first = b'\n';
                Ok(1)
            }
        }
    }
}

/// Gives 16 bytes a read, and fails after so many reads.
#[derive(Drop)]
struct Torn<'a> {
    bytes: &'a [u8],
    reads: usize,
}

impl Read for Torn<'_> {
    fn read(&mut self, buf: &mut [u8]) -> io::Result<usize> {
        if self.reads == 0 {
            return Err(io::Error::new(io::ErrorKind::Other, "torn"));
        }
        self.reads -= 1;
        let room = buf.len().min(16);
        self.bytes.read(&mut buf[..room])
    }
}

/// Takes so many writes, and fails then.
#[derive(Drop)]
struct Filling {
    taken: Vec<u8>,
    writes: usize,
}

impl Write for Filling {
    fn write(&mut self, buf: &[u8]) -> io::Result<usize> {
        if self.writes == 0 {
            return Err(io::Error::new(io::ErrorKind::Other, "full"));
        }
        self.writes -= 1;
        self.taken.extend_from_slice(buf)?;
        Ok(buf.len())
    }

    fn flush(&mut self) -> io::Result<()> {
        Ok(())
    }
}

/// Whether the script ends as it should where the reader fails after so many reads.
fn ends_torn(alloc: Global, reads: usize) -> bool {
    let mut out = Vec::new(alloc);
    let mut torn = Torn { bytes: LINE, reads };
    let end = run_read(alloc, &mut torn, &mut out);
    // 71 bytes in reads of 16: the sixth read is the one that says that the input has ended
    let is_end = if reads == 6 {
        end == Ok(())
    } else {
        end == Err(ScriptFault::Read)
    };
    let want: &[u8] = if reads >= 5 { PRINTED } else { b"" };
    is_end & (out.as_slice() == want)
}

/// The same where the writer fails after so many writes. With 19 all is written.
fn ends_full(alloc: Global, writes: usize) -> bool {
    let mut reader = LINE;
    let mut filling = Filling {
        taken: Vec::new(alloc),
        writes,
    };
    let end = run_read(alloc, &mut reader, &mut filling);
    let has_ended = end == Ok(());
    let taken = filling.taken.as_slice();
    (has_ended | (end == Err(ScriptFault::Write)))
        & PRINTED.starts_with(taken)
        & (has_ended == (taken.len() == PRINTED.len()))
        & (has_ended | (writes < 19))
}

fn never_ends(alloc: Global) -> bool {
    let mut out = Vec::new(alloc);
    let end = run_read(alloc, &mut Newlines, &mut out);
    (end == Err(ScriptFault::Read)) & out.is_empty()
}

#[test]
fn ends_with_its_reader_and_its_writer(rt: HostRuntime) {
    let mut are_right = never_ends(rt.alloc());
    for reads in 0..7 {
        are_right &= ends_torn(rt.alloc(), reads);
    }
    for writes in 0..20 {
        are_right &= ends_full(rt.alloc(), writes);
    }
    assert!(rt; are_right);
}
