//! Fields. A reader answers what the bytes begin with; where they begin with no such field it answers something.

ghost use Rattle.std.specs.Prelude.{◌≡◌, ◌<◌, ◌^◌, Bool, List, ℕ, ◌++◌, length, All, FitsSigned, IfOk, OnOk};
ghost use Rattle.std.specs.Int.{w32};
ghost use Rattle.std.specs.List.{flat_map};
ghost use Rattle.sctp_wire.specs.Field.{be16, be32, be64};
ghost use Rattle.sctp_handover.specs.Bounds.{Is16, Is32, Is64};
ghost use Rattle.sctp_handover.specs.Bytes.{flag_bytes, payload_bytes, signed_bytes};
ghost use Rattle.sctp_handover.specs.Reads.{Finds, some_if};

use sctp_wire::{push_u16, push_u32, push_u64, u16_at, u32_at, u64_at};
use std::alloc::{AllocError, Global};

/// Four flags, and the bytes behind them.
#[tactic(auto, unfolding(crate::specs::Bytes::flag_bytes))]
pub(crate) fn flags_at(bytes: &[u8]) -> ((bool, bool, bool, bool), &[u8])
    ensures { (a b c d : Bool) (after : List ℕ) → bytes.now ≡ flag_bytes a b c d ++ after → (result.0 ≡ (a, b, c, d)) × (result.1.now ≡ after) }
{
    match bytes.split_first_chunk::<4>() {
        None => ((false, false, false, false), bytes),
        Some((flags, rest)) => {
            (
                (flags[0] == 1, flags[1] == 1, flags[2] == 1, flags[3] == 1),
                rest,
            )
        }
    }
}

/// The number in two bytes, and the bytes behind it.
pub(crate) fn number16_at(bytes: &[u8]) -> (u16, &[u8])
    ensures { Finds be16 Is16 bytes.now result.0 result.1.now }
{
    match u16_at(bytes) {
        Ok(read) => read,
        Err(_fault) => (0, bytes),
    }
}

/// The number in four bytes, and the bytes behind it.
pub(crate) fn number32_at(bytes: &[u8]) -> (u32, &[u8])
    ensures { Finds be32 Is32 bytes.now result.0 result.1.now }
{
    match u32_at(bytes) {
        Ok(read) => read,
        Err(_fault) => (0, bytes),
    }
}

/// The number in eight bytes, and the bytes behind it.
pub(crate) fn number64_at(bytes: &[u8]) -> (u64, &[u8])
    ensures { Finds be64 Is64 bytes.now result.0 result.1.now }
{
    match u64_at(bytes) {
        Ok(read) => read,
        Err(_fault) => (0, bytes),
    }
}

/// The number in four bytes in two's complement, and the bytes behind it.
pub(crate) fn signed_at(bytes: &[u8]) -> (i32, &[u8])
    ensures { Finds signed_bytes (FitsSigned w32) bytes.now result.0 result.1.now }
{
    let (number, rest) = number32_at(bytes);
    (number.cast_signed(), rest)
}

/// The value, where there is one.
pub(crate) fn some_if<T: Drop>(is_there: bool, value: T) -> Option<T>
    ensures { result ≡ some_if is_there value }
{
    if is_there { Some(value) } else { None }
}

/// The bytes behind their length, and those behind them.
pub(crate) fn payload_at(alloc: Global, bytes: &[u8]) -> Result<(Vec<u8>, &[u8]), AllocError>
    ensures { IfOk result (λ read. Finds payload_bytes (λ payload. Is64 (length payload)) bytes.now read.0.items read.1.now) }
{
    let (length, rest) = number64_at(bytes);
    let (payload, after) = rest.split_at(length.min(rest.len() as u64) as usize);
    Ok((Vec::from_slice(alloc, payload)?, after))
}

/// Appends four flags.
#[tactic(auto, unfolding(crate::specs::Bytes::flag_bytes))]
pub(crate) fn push_flags(
    output: &mut Vec<u8>,
    a: bool,
    b: bool,
    c: bool,
    d: bool,
) -> Result<(), AllocError>
    ensures { OnOk result (output.new.items ≡ output.old.items ++ flag_bytes a b c d) }
{
    output.extend_from_slice(&[u8::from(a), u8::from(b), u8::from(c), u8::from(d)])
}

/// Appends bytes behind their length.
#[tactic(auto, unfolding(crate::specs::Bytes::payload_bytes))]
pub(crate) fn push_payload(output: &mut Vec<u8>, payload: &[u8]) -> Result<(), AllocError>
    ensures { OnOk result (output.new.items ≡ output.old.items ++ payload_bytes payload.now) }
{
    push_u64(output, payload.len() as u64)?;
    output.extend_from_slice(payload)
}

/// Appends numbers of two bytes.
pub(crate) fn push_numbers16(output: &mut Vec<u8>, numbers: &[u16]) -> Result<(), AllocError>
    ensures wrote { OnOk result (output.new.items ≡ output.old.items ++ flat_map be16 numbers.now) }
    ensures fits { OnOk result (All Is16 numbers.now) }
{
    for number in numbers {
        push_u16(output, *number)?;
    }
    Ok(())
}

/// Appends numbers of four bytes.
pub(crate) fn push_numbers32(output: &mut Vec<u8>, numbers: &[u32]) -> Result<(), AllocError>
    ensures wrote { OnOk result (output.new.items ≡ output.old.items ++ flat_map be32 numbers.now) }
    ensures fits { OnOk result (All Is32 numbers.now) }
{
    for number in numbers {
        push_u32(output, *number)?;
    }
    Ok(())
}

/// Appends numbers of eight bytes.
pub(crate) fn push_numbers64(output: &mut Vec<u8>, numbers: &[u64]) -> Result<(), AllocError>
    ensures wrote { OnOk result (output.new.items ≡ output.old.items ++ flat_map be64 numbers.now) }
    ensures fits { OnOk result (All Is64 numbers.now) }
{
    for number in numbers {
        push_u64(output, *number)?;
    }
    Ok(())
}
