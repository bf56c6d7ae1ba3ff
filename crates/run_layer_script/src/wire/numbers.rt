//! Commands over numbers: headers, policies, results and limits, and SACKs of peers. A field takes a number's low bits.

ghost use Rattle.std.specs.Prelude.{◌<◌, ◌^◌};

use crate::answer::Answer;
use crate::output::Output;
use crate::wire::packets;
use sctp_error_cause::NoUserDataErrorCause;
use sctp_packet::{GapAckBlock, SackChunk, clean_sack, validate_sack, write_chunk_header};
use sctp_parameter::{
    HeartbeatInfoParameter, ReconfigurationResponseParameter, ReconfigurationResponseResult,
    StateCookieParameter,
};
use sctp_serial::Tsn;
use sctp_wire::{
    Policy, RawParameter, SerializableTlv,
    ZERO_CHECKSUM_ALTERNATE_ERROR_DETECTION_METHOD_LOWER_LAYER_DTLS, write_item_header,
    write_parameter_header,
};
use std::alloc::AllocError;

/// The number at this place, 0 where there is none.
pub fn number(numbers: &[u32], place: usize) -> u32 {
    numbers.get(place).copied().unwrap_or(0)
}

/// Its lower half.
pub fn half(number: u32) -> u16 {
    (number & 0xffff) as u16
}

pub fn answer(name: &str, numbers: &[u32], output: &mut Output) -> Answer {
    let (first, second) = (number(numbers, 0), number(numbers, 1));
    match name {
        "default" => output.put_line(&Policy::default().accepts(first, second)),
        "disabled" => output.put_line(&packets::unchecked().accepts(first, second)),
        "dtls" => output.put_line(&DTLS.accepts(first, second)),
        "header" => {
            let mut bytes = Vec::new(output.alloc);
            let size = (second & 0x7fff) as usize;
            output.note(write_headers(&mut bytes, half(first), size));
            output.hex_line(&bytes);
        }
        "clean" => {
            let cleaned = clean_sack(sack(numbers, output));
            output.put_line(&cleaned);
            drop(cleaned);
        }
        "validate" => {
            let sack = sack(numbers, output);
            output.put_line(&validate_sack(&sack));
            drop(sack);
        }
        "misread" => return misread(half(first), output),
        _ => return answer_further(name, first, second, output),
    }
    Answer::Done
}

fn answer_further(name: &str, first: u32, second: u32, output: &mut Output) -> Answer {
    match name {
        "result" => output.debug_line(&ReconfigurationResponseResult::try_from(first)),
        "response" => {
            let response = ReconfigurationResponseParameter {
                response_seq_nbr: first,
                result: ReconfigurationResponseResult::SuccessPerformed,
                sender_next_tsn: if second == 0 { None } else { Some(Tsn(second)) },
                receiver_next_tsn: None,
            };
            output.put_line(&response.encodable());
        }
        "cookie" => {
            let cookie = output.made(vec![in output.alloc; 0u8; first as usize]);
            output.put_line(&StateCookieParameter { cookie }.encodable());
        }
        "zeros" => {
            let bytes = output.made(vec![in output.alloc; 0u8; first as usize]);
            return packets::read(&bytes, 0, &packets::unchecked(), false, output);
        }
        _ => return Answer::Unknown,
    }
    Answer::Done
}

/// Lets the checksum 0 through, as DTLS below allows.
const DTLS: Policy = Policy {
    disable_checksum_verification: false,
    zero_checksum_alternate_error_detection_method: ZERO_CHECKSUM_ALTERNATE_ERROR_DETECTION_METHOD_LOWER_LAYER_DTLS,
};

/// The headers of a parameter, an item and a chunk of this type with a value of so many bytes.
fn write_headers(output: &mut Vec<u8>, typ: u16, size: usize) -> Result<(), AllocError>
    requires { size < 2 ^ 15 }
{
    let [first, second] = typ.to_be_bytes();
    write_parameter_header(typ, size, output)?;
    write_item_header([first, second], size, output)?;
    write_chunk_header(first, second, size, output)
}

/// The faults of readers of three other types on an empty parameter of this type.
fn misread(typ: u16, output: &mut Output) -> Answer {
    let raw = RawParameter { typ, value: &[] };
    output.debug_text(
        "",
        &HeartbeatInfoParameter::try_from(output.alloc, raw).err(),
    );
    let response = ReconfigurationResponseParameter::try_from(output.alloc, raw);
    output.debug_text(", ", &response.err());
    output.debug_text(
        ", ",
        &NoUserDataErrorCause::try_from(output.alloc, raw).err(),
    )
}

/// The SACK with the cumulative TSN 7, a window of 4096 bytes, the duplicates 3 and 3, and for each two numbers a block, from its start to its
/// end.
fn sack(numbers: &[u32], output: &mut Output) -> SackChunk {
    let mut gap_ack_blocks = Vec::new(output.alloc);
    for pair in numbers.chunks(2) {
        if let [start, end] = pair {
            output.note(gap_ack_blocks.push(GapAckBlock::new(half(*start), half(*end))));
        }
    }
    SackChunk {
        cumulative_tsn_ack: Tsn(7),
        a_rwnd: 4096,
        gap_ack_blocks,
        duplicate_tsns: output.made(Vec::from_slice(output.alloc, &[Tsn(3), Tsn(3)])),
    }
}
