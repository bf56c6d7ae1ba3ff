//! Items: two bytes of kind, two of length, a value, and padding to a multiple of four bytes.

ghost use Rattle.std.specs.Prelude.{IfSome, IfNone};
ghost use Rattle.sctp_item.specs.Item.{Takes, TakesNone};

/// An item, and what follows it, borrowed from the bytes that it was found in.
#[derive(Clone, Copy, Debug, PartialEq, Eq)]
pub struct FoundItem<'a> {
    /// The first byte of its kind.
    pub first: u8,
    /// The second one.
    pub second: u8,
    /// The value, without header and padding.
    pub value: &'a [u8],
    /// The bytes behind the item and its padding.
    pub rest: &'a [u8],
}

/// The item at the front of the bytes. None where there are under four bytes, or the length that stands there, header included, is
/// under 4 or greater than the number of bytes.
pub fn find_item(bytes: &[u8]) -> Option<FoundItem<'_>>
    ensures item { IfSome result (λ found. Takes bytes.now
        (record { first = found.first; second = found.second; value = found.value.now }) found.rest.now) }
    ensures none { IfNone result (TakesNone bytes.now) }
{
    if bytes.len() < 4 {
        return None;
    }
    let len = u16::from_be_bytes([bytes[2], bytes[3]]) as usize;
    if len < 4 || bytes.len() < len {
        return None;
    }
    let (item, after) = bytes.split_at(len);
    let padding = (4 - len % 4) % 4;
    Some(FoundItem {
        first: item[0],
        second: item[1],
        value: &item[4..],
        rest: &after[padding.min(after.len())..],
    })
}
