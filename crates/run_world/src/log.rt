//! The log of a world as rows: plain values, from which all is drawn.

ghost use Rattle.std.specs.Prelude.{◌≡◌, ℕ, List, map, slice_get, IfOk};
ghost use Rattle.spec_world.specs.Observations.{End as LoggedEnd, Entry as LoggedEntry};
ghost use Rattle.sctp_network_side.specs.SideView.{end_tree, entry_tree};
ghost use Rattle.run_world.specs.Log.{Packet, Giving, Other, lifeline, bytes_in, row_shows, row_time, entry_shows, entry_end, stamp, clock_of, with_clock, clocks_after, times_of};

use crate::note::note_of;
use sctp_serial::SocketTime;
use sctp_trace::{Row, What, packet_label};
use sctp_world::{End, Entry, Event, WorldError};
use std::alloc::{AllocError, Global};

/// What is asked of a world.
pub trait Watched {
    /// Its log.
    ghost log_of: { Self → List LoggedEntry };

    /// The packets that an end ever sent.
    ghost packets_of: { Self → LoggedEnd → List (List ℕ) };

    fn happen(&mut self, event: &Event) -> Result<(), WorldError>;

    fn entries(&self) -> &[Entry]
        ensures { map entry_tree result.now ≡ log_of self.now };

    /// The packet of this number that the end sent; no bytes where there is none.
    fn bytes_of(&self, end: End, number: usize) -> &[u8]
        ensures { result.now ≡ bytes_in (slice_get (packets_of self.now (end_tree end)) number) };

    fn let_go(self);
}

/// The clocks of both ends, in nanoseconds.
#[derive(Clone, Copy)]
pub struct Clocks {
    a: u64,
    b: u64,
}

impl Clocks {
    fn of(&self, end: End) -> u64
        ensures { result ≡ clock_of (end_tree end) self.now }
    {
        match end {
            End::A => self.a,
            End::B => self.b,
        }
    }

    /// An entry may have the clock of its end.
    fn read(&mut self, entry: &Entry)
        ensures { self.new ≡ clocks_after self.old (entry_tree entry.now) }
    {
        match entry {
            Entry::Call(end, clock, _, _) => self.set(*end, *clock),
            Entry::Give(end, clock, _) => self.set(*end, *clock),
            Entry::Foreign(end, clock, _) => self.set(*end, *clock),
            Entry::Time(end, clock, _) => self.set(*end, *clock),
            Entry::Packet(_, _)
            | Entry::Association(_, _)
            | Entry::Event(_, _)
            | Entry::GivenUp(_, _)
            | Entry::Ready(_, _) => {}
        }
    }

    fn set(&mut self, end: End, now: SocketTime)
        ensures { self.new ≡ with_clock (end_tree end) now self.old }
    {
        let nanoseconds = stamp(now);
        match end {
            End::A => self.a = nanoseconds,
            End::B => self.b = nanoseconds,
        }
    }
}

/// The moment in nanoseconds; later ones than fit are the last.
fn stamp(now: SocketTime) -> u64
    ensures { result ≡ stamp now }
{
    now.as_nanos().min(u64::MAX as u128) as u64
}

fn lifeline_of(end: End) -> sctp_trace::End
    ensures { result ≡ lifeline (end_tree end) }
{
    match end {
        End::A => sctp_trace::End::A,
        End::B => sctp_trace::End::B,
    }
}

fn sent<W: Watched>(
    alloc: Global,
    world: &W,
    clocks: &Clocks,
    end: End,
    number: usize,
) -> Result<Row, AllocError>
    ensures shown { IfOk result (λ row. row_shows row ≡ Packet (lifeline (end_tree end)) number (bytes_in (slice_get (W.packets_of world.now (end_tree end)) number))) }
    ensures time { IfOk result (λ row. row.nanoseconds ≡ clock_of (end_tree end) clocks.now) }
{
    let bytes = world.bytes_of(end, number);
    let label = packet_label(alloc, bytes)?;
    let bytes = Vec::from_slice(alloc, bytes)?;
    Ok(Row {
        end: lifeline_of(end),
        nanoseconds: clocks.of(end),
        what: What::Sent(number, bytes, label),
    })
}

fn given(clocks: &Clocks, end: End, number: usize) -> Row
    ensures shown { row_shows result ≡ Giving (lifeline (end_tree end)) number }
    ensures time { result.nanoseconds ≡ clock_of (end_tree end) clocks.now }
{
    Row {
        end: lifeline_of(end),
        nanoseconds: clocks.of(end),
        what: What::Given(number),
    }
}

fn note_row(alloc: Global, clocks: &Clocks, end: End, entry: &Entry) -> Result<Row, AllocError>
    ensures shown { IfOk result (λ row. row_shows row ≡ Other (lifeline (end_tree end))) }
    ensures time { IfOk result (λ row. row.nanoseconds ≡ clock_of (end_tree end) clocks.now) }
{
    let note = note_of(alloc, entry)?;
    Ok(Row {
        end: lifeline_of(end),
        nanoseconds: clocks.of(end),
        what: What::Note(note),
    })
}

fn row_of<W: Watched>(
    alloc: Global,
    world: &W,
    clocks: &Clocks,
    entry: &Entry,
) -> Result<Row, AllocError>
    ensures shown { IfOk result (λ row. row_shows row ≡ entry_shows (W.packets_of world.now) (entry_tree entry.now)) }
    ensures time { IfOk result (λ row. row.nanoseconds ≡ clock_of (entry_end (entry_tree entry.now)) clocks.now) }
{
    match entry {
        Entry::Packet(end, number) => sent(alloc, world, clocks, *end, *number),
        Entry::Give(end, _, number) => Ok(given(clocks, *end, *number)),
        Entry::Call(end, _, _, _) => note_row(alloc, clocks, *end, entry),
        Entry::Foreign(end, _, _) => note_row(alloc, clocks, *end, entry),
        Entry::Time(end, _, _) => note_row(alloc, clocks, *end, entry),
        Entry::Association(end, _) => note_row(alloc, clocks, *end, entry),
        Entry::Event(end, _) => note_row(alloc, clocks, *end, entry),
        Entry::GivenUp(end, _) => note_row(alloc, clocks, *end, entry),
        Entry::Ready(end, _) => note_row(alloc, clocks, *end, entry),
    }
}

/// A row for each entry of the log, in their order, at the clock of its end: the packets are those that the ends sent, and the givings
/// those of the log.
pub fn rows_of<W: Watched>(alloc: Global, world: &W) -> Result<Vec<Row>, AllocError>
    ensures shown { IfOk result (λ rows. map row_shows rows.items ≡ map (entry_shows (W.packets_of world.now)) (W.log_of world.now)) }
    ensures times { IfOk result (λ rows. map row_time rows.items ≡ times_of (W.log_of world.now)) }
{
    let mut rows = Vec::new(alloc);
    let mut clocks = Clocks { a: 0, b: 0 };
    let entries = world.entries();
    for entry in entries {
        clocks.read(entry);
        rows.push(row_of(alloc, world, &clocks, entry)?)?;
    }
    Ok(rows)
}
