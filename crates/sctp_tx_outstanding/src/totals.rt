//! Running totals over the kept items.

ghost use Rattle.std.specs.Prelude.{◌≡◌, ◌^◌, ◌-◌, ◌+◌, ◌≤◌, false, min};
ghost use Rattle.sctp_tx_outstanding.specs.OutstandingData.{when};
ghost use Rattle.sctp_tx_outstanding.specs.Totals.{parts, replace_part, nothing, HasPart, IsSmall};

use crate::item::Item;

/// Sums over the items: of those in flight or missing the bytes of their chunks, of their payloads, and how many they are;
/// how many are to be sent again, in all and by the fast packet. Before the nanosecond `earliest` none expires.
#[derive(Clone, Copy)]
pub struct Totals {
    pub packet_bytes: u128,
    pub payload_bytes: u128,
    pub flights: usize,
    pub queued: usize,
    pub fast: usize,
    pub earliest: u128,
}

fn bytes_if(condition: bool, bytes: usize) -> u128
    ensures { result ≡ when condition bytes }
{
    if condition { bytes as u128 } else { 0 }
}

fn one_if(condition: bool) -> usize
    ensures { result ≡ when condition 1 }
{
    if condition { 1 } else { 0 }
}

impl Totals {
    pub(crate) fn nothing() -> Totals
        ensures { result ≡ nothing }
    {
        Totals {
            packet_bytes: 0,
            payload_bytes: 0,
            flights: 0,
            queued: 0,
            fast: 0,
            earliest: u128::MAX,
        }
    }

    /// What one item adds.
    #[inline(always)]
    pub(crate) fn of(item: &Item, is_interleaved: bool) -> Totals
        ensures parts { result ≡ parts is_interleaved item.now }
        ensures small { IsSmall item.now }
    {
        let is_in_flight = item.is_outstanding();
        Totals {
            packet_bytes: bytes_if(is_in_flight, item.chunk_size(is_interleaved)),
            payload_bytes: bytes_if(is_in_flight, item.payload_size()),
            flights: one_if(is_in_flight),
            queued: one_if(item.should_be_retransmitted()),
            fast: one_if(item.is_fast()),
            earliest: item.expiry(),
        }
    }

    /// The totals with one part more.
    pub(crate) fn with_part(self, part: Totals) -> Totals
        ensures { result ≡ replace_part nothing part self }
    {
        Totals {
            packet_bytes: self.packet_bytes.saturating_add(part.packet_bytes),
            payload_bytes: self.payload_bytes.saturating_add(part.payload_bytes),
            flights: self.flights.saturating_add(part.flights),
            queued: self.queued.saturating_add(part.queued),
            fast: self.fast.saturating_add(part.fast),
            earliest: self.earliest.min(part.earliest),
        }
    }

    /// The totals without one part.
    pub(crate) fn without_part(self, part: Totals) -> Totals
        ensures { result ≡ replace_part part nothing self }
    {
        Totals {
            packet_bytes: self.packet_bytes.saturating_sub(part.packet_bytes),
            payload_bytes: self.payload_bytes.saturating_sub(part.payload_bytes),
            flights: self.flights.saturating_sub(part.flights),
            queued: self.queued.saturating_sub(part.queued),
            fast: self.fast.saturating_sub(part.fast),
            earliest: self.earliest,
        }
    }

    /// The totals with one part in place of another. What doesn't change isn't counted anew.
    #[inline(always)]
    pub(crate) fn exchanged(self, old: Totals, new: Totals) -> Totals
        ensures { HasPart old new self → result ≡ replace_part old new self }
    {
        let moves = old.flights != new.flights;
        Totals {
            packet_bytes: bytes(self.packet_bytes, old.packet_bytes, new.packet_bytes, moves),
            payload_bytes: bytes(
                self.payload_bytes,
                old.payload_bytes,
                new.payload_bytes,
                moves,
            ),
            flights: count(self.flights, old.flights, new.flights),
            queued: count(self.queued, old.queued, new.queued),
            fast: count(self.fast, old.fast, new.fast),
            earliest: self.earliest.min(new.earliest),
        }
    }
}

#[inline(always)]
fn bytes(total: u128, old: u128, new: u128, moves: bool) -> u128
    ensures { (moves ≡ false → old ≡ new) → old ≤ total → result ≡ min (total - old + new) (2 ^ 128 - 1) }
{
    if !moves {
        return total;
    }
    total.saturating_sub(old).saturating_add(new)
}

#[inline(always)]
fn count(total: usize, old: usize, new: usize) -> usize
    ensures { old ≤ total → result ≡ min (total - old + new) (2 ^ 64 - 1) }
{
    if old == new {
        return total;
    }
    total.saturating_sub(old).saturating_add(new)
}
