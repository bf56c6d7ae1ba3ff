//! The packets as a capture that Wireshark reads: pcapng, link type 248 (SCTP without IP).

ghost use Rattle.std.specs.Prelude.{◌≡◌, ◌+◌, ◌<◌, ◌^◌, ◌++◌, true, false, length, replicate, IfOk, IfErr, OnOk};
ghost use Rattle.std.specs.List.{flat_map};
ghost use Rattle.sctp_trace.specs.Bytes.{le16, le32, with_crc32c};
ghost use Rattle.sctp_trace.specs.Pcapng.{pad, option_bytes, section_header, interface, interface_number, fate, packet_block, IsPacketSize, row_bytes, capture_bytes, is_too_long, has_long_packet};
ghost use Rattle.sctp_trace.specs.Followed.{IsFollowed};
ghost use Rattle.sctp_trace.specs.declared.pcapng.CaptureError.TheVariants.{Memory as no_memory};

use crate::conversation::Conversation;
use crate::crc::with_crc32c;
use crate::rows::{End, Row, What};
use sctp_wire::padding_len;
use std::alloc::{AllocError, Global};
use thiserror::Error;

/// 2^32.
const UPPER: u64 = 0x1_0000_0000;

/// The blocks that come first: a section's header, whose length isn't given, and the interfaces a and b.
const FRONT: [u8; 108] = [
    // byte order, version 1.0
    0x0a, 0x0d, 0x0d, 0x0a, 28, 0, 0, 0, 0x4d, 0x3c, 0x2b, 0x1a, 1, 0, 0, 0, 0xff, 0xff, 0xff,
    0xff, 0xff, 0xff, 0xff, 0xff, 28, 0, 0, 0,
    // link type 248, no limit of a packet's length, a name, and times in nanoseconds: a tenth to the power of 9
    1, 0, 0, 0, 40, 0, 0, 0, 248, 0, 0, 0, 0, 0, 0, 0, 2, 0, 1, 0, b'a', 0, 0, 0, 9, 0, 1, 0, 9, 0,
    0, 0, 0, 0, 0, 0, 40, 0, 0, 0, 1, 0, 0, 0, 40, 0, 0, 0, 248, 0, 0, 0, 0, 0, 0, 0, 2, 0, 1, 0,
    b'b', 0, 0, 0, 9, 0, 1, 0, 9, 0, 0, 0, 0, 0, 0, 0, 40, 0, 0, 0,
];

const ENHANCED_PACKET: u32 = 6;

const OPTION_COMMENT: u16 = 1;

const END_OF_OPTIONS: u32 = 0;

/// Why there is no capture.
#[derive(Clone, Copy, Debug, PartialEq, Eq, Error)]
pub enum CaptureError {
    /// A packet has over 65,535 bytes.
    #[error("packet too long")]
    TooLong,
    #[error("out of memory")]
    Memory,
}

impl From<AllocError> for CaptureError {
    ghost from_gives = { λ _ e. e ≡ no_memory };

    fn from(_e: AllocError) -> CaptureError {
        CaptureError::Memory
    }
}

#[tactic(auto, unfolding(crate::specs::Bytes::le16))]
fn push_u16(bytes: &mut Vec<u8>, n: u16) -> Result<(), AllocError>
    ensures { OnOk result (bytes.new.items ≡ bytes.old.items ++ le16 n) }
{
    bytes.extend_from_slice(&n.to_le_bytes())
}

#[tactic(auto, unfolding(crate::specs::Bytes::le32))]
fn push_u32(bytes: &mut Vec<u8>, n: u32) -> Result<(), AllocError>
    ensures { OnOk result (bytes.new.items ≡ bytes.old.items ++ le32 n) }
{
    bytes.extend_from_slice(&n.to_le_bytes())
}

fn push_words(bytes: &mut Vec<u8>, words: &[u32]) -> Result<(), AllocError>
    ensures { OnOk result (bytes.new.items ≡ bytes.old.items ++ flat_map le32 words.now) }
{
    for word in words {
        push_u32(bytes, *word)?;
    }
    Ok(())
}

/// Appends up to three zeros.
fn push_zeros(bytes: &mut Vec<u8>, count: usize) -> Result<(), AllocError>
    requires { count < 4 }
    ensures { OnOk result (bytes.new.items ≡ bytes.old.items ++ replicate count 0) }
{
    bytes.extend_from_slice(&[0, 0, 0][..count])
}

#[tactic(auto, unfolding(crate::specs::Pcapng::pad))]
fn push_padded(bytes: &mut Vec<u8>, value: &[u8]) -> Result<(), AllocError>
    ensures { OnOk result (bytes.new.items ≡ bytes.old.items ++ pad value.now) }
{
    bytes.extend_from_slice(value)?;
    push_zeros(bytes, padding_len(value.len()))
}

#[tactic(auto, unfolding(crate::specs::Pcapng::option_bytes))]
fn push_option(bytes: &mut Vec<u8>, code: u16, value: &[u8]) -> Result<(), AllocError>
    requires { length value.now < 2 ^ 16 }
    ensures { OnOk result (bytes.new.items ≡ bytes.old.items ++ option_bytes code value.now) }
{
    push_u16(bytes, code)?;
    push_u16(bytes, value.len() as u16)?;
    push_padded(bytes, value)
}

#[tactic(auto, unfolding(crate::specs::Bytes::le16, crate::specs::Bytes::le32, crate::specs::Pcapng::pad, crate::specs::Pcapng::option_bytes, crate::specs::Pcapng::block, crate::specs::Pcapng::section_body, crate::specs::Pcapng::interface_body))]
fn push_front(bytes: &mut Vec<u8>) -> Result<(), AllocError>
    ensures { OnOk result (bytes.new.items ≡ bytes.old.items ++ (section_header ++ (interface End.A ++ interface End.B))) }
{
    bytes.extend_from_slice(&FRONT)
}

/// How often a packet was given, in words.
fn fate(times: usize) -> &'static str
    ensures words { result.now ≡ fate times }
    ensures short { length result.now < 2 ^ 16 }
{
    match times {
        0 => "never given",
        1 => "given once",
        2 => "given twice",
        _ => "given three times or more",
    }
}

fn interface_number(end: End) -> u32
    ensures { result ≡ interface_number end }
{
    match end {
        End::A => 0,
        End::B => 1,
    }
}

/// A packet's block, in bytes: its numbers, the packet and the comment.
#[tactic(auto, using(crate::proofs::Lengths::length_packet_body))]
fn packet_size(packet: &[u8], comment: &str) -> u32
    requires packet { length packet.now < 2 ^ 16 }
    requires comment { length comment.now < 2 ^ 16 }
    ensures { IsPacketSize packet.now comment.now result }
{
    let packet = packet.len() + padding_len(packet.len());
    let comment = comment.len() + padding_len(comment.len());
    (40 + packet + comment) as u32
}

fn push_packet(
    bytes: &mut Vec<u8>,
    end: End,
    nanoseconds: u64,
    packet: &[u8],
    comment: &str,
) -> Result<(), AllocError>
    requires packet { length packet.now < 2 ^ 16 }
    requires comment { length comment.now < 2 ^ 16 }
    ensures { OnOk result (bytes.new.items ≡ bytes.old.items ++ packet_block end nanoseconds packet.now comment.now) }
{
    let size = packet_size(packet, comment);
    let upper = (nanoseconds / UPPER) as u32;
    let lower = (nanoseconds % UPPER) as u32;
    let length = packet.len() as u32;
    let front = [
        ENHANCED_PACKET,
        size,
        interface_number(end),
        upper,
        lower,
        length,
        length,
    ];
    push_words(bytes, &front)?;
    push_padded(bytes, packet)?;
    push_option(bytes, OPTION_COMMENT, comment.as_bytes())?;
    push_words(bytes, &[END_OF_OPTIONS, size])
}

#[tactic(auto, using(crate::proofs::Lengths::length_with_crc32c))]
fn push_sent(
    bytes: &mut Vec<u8>,
    alloc: Global,
    row: &Row,
    packet: &[u8],
    times: usize,
) -> Result<(), AllocError>
    requires { length packet.now < 2 ^ 16 }
    ensures { OnOk result (bytes.new.items ≡ bytes.old.items ++ packet_block row.now.end row.now.nanoseconds (with_crc32c packet.now) (fate times)) }
{
    let packet = with_crc32c(alloc, packet)?;
    push_packet(bytes, row.end, row.nanoseconds, &packet, fate(times))
}

fn push_row(
    bytes: &mut Vec<u8>,
    alloc: Global,
    conversation: &Conversation,
    row: &Row,
) -> Result<(), CaptureError>
    requires { IsFollowed conversation.now }
    ensures wrote { OnOk result (bytes.new.items ≡ bytes.old.items ++ row_bytes conversation.now.rows.now row.now) }
    ensures short { OnOk result (is_too_long row.now.what ≡ false) }
    ensures long { IfErr result (λ e. e ≡ CaptureError.TooLong → is_too_long row.now.what ≡ true) }
{
    if let What::Sent(number, packet, _) = &row.what {
        if packet.len() > 65_535 {
            return Err(CaptureError::TooLong);
        }
        let times = conversation.times_given(row.end, *number);
        push_sent(bytes, alloc, row, packet, times)?;
    }
    Ok(())
}

fn push_packets(
    bytes: &mut Vec<u8>,
    alloc: Global,
    conversation: &Conversation,
) -> Result<(), CaptureError>
    requires { IsFollowed conversation.now }
    ensures wrote { OnOk result (bytes.new.items ≡ bytes.old.items ++ capture_bytes conversation.now.rows.now) }
    ensures short { OnOk result (has_long_packet conversation.now.rows.now ≡ false) }
    ensures long { IfErr result (λ e. e ≡ CaptureError.TooLong → has_long_packet conversation.now.rows.now ≡ true) }
{
    push_front(bytes)?;
    for row in conversation.rows {
        push_row(bytes, alloc, conversation, row)?;
    }
    Ok(())
}

/// The packets in the order in which they were sent, each with its CRC32c, at the clock of its end; its comment says how often it was
/// given. Bytes that have no whole common header stay as they are. `TooLong` where a packet has over 65,535 bytes.
pub fn capture(alloc: Global, rows: &[Row]) -> Result<Vec<u8>, CaptureError>
    ensures ok { IfOk result (λ bytes. bytes.items ≡ capture_bytes rows.now) }
    ensures short { OnOk result (has_long_packet rows.now ≡ false) }
    ensures long { IfErr result (λ e. e ≡ CaptureError.TooLong → has_long_packet rows.now ≡ true) }
{
    let conversation = Conversation::of(alloc, rows)?;
    let mut bytes = Vec::new(alloc);
    let outcome = push_packets(&mut bytes, alloc, &conversation);
    drop(conversation);
    outcome?;
    Ok(bytes)
}
