//! Items written: kind, length, value, and zeros up to a multiple of four bytes (RFC 9260 section 3.2).

ghost use Rattle.std.specs.Prelude.{◌≡◌, ◌+◌, ◌-◌, ◌%◌, ◌^◌, ◌<◌, ◌↔◌, min, Bool, true, IsTrue, [], ◌∷◌, ◌++◌, length, map, replicate, OnOk, All};
ghost use Rattle.std.specs.List.{list_all};
ghost use Rattle.sctp_wire.specs.Field.{be16};
ghost use Rattle.sctp_item.specs.Item.{Item, item_bytes, padding};
ghost use Rattle.sctp_wire.specs.Room.{Fills};
ghost use Rattle.sctp_wire.specs.Serialize.{IsEncodable, is_encodable, padded_item, inner_items};

use crate::field::push_u16;
use std::alloc::AllocError;

/// The greatest length of an item's value, in bytes: the length field counts four bytes more.
pub const MAX_VALUE_SIZE: usize = 65531;

/// What is written as an item.
///
/// An item is encodable where its length fits 16 bits and where it is whole: where its parts agree with one another.
pub trait SerializableTlv {
    ghost item_of: { Self → Item };

    ghost parts_agree: { Self → Bool };

    /// The item's first two bytes: type and flags of a chunk, the type of a parameter or a cause.
    fn kind(&self) -> [u8; 2]
        ensures { result ≡ (item_of self.now).first ∷ (item_of self.now).second ∷ [] };

    /// The length of the item's value in bytes, without header and padding; `usize::MAX` where it is greater still.
    fn value_size(&self) -> usize
        ensures { result ≡ min (length (item_of self.now).value) (2 ^ 64 - 1) };

    /// Whether the parts agree with one another: a response has both TSNs or neither, the entries of a forward point are those of
    /// its chunk's type, and parameters in a chunk are whole.
    fn is_whole(&self) -> bool
        ensures { result ≡ parts_agree self.now };

    /// Appends the value alone.
    fn push_value(&self, output: &mut Vec<u8>) -> Result<(), AllocError>
        requires fits { IsEncodable (item_of self.now) }
        requires whole { parts_agree self.now ≡ true }
        ensures wrote { OnOk result (output.new.items ≡ output.old.items ++ (item_of self.now).value) }
        ensures room { Fills output.old output.new (length (item_of self.now).value) result };

    /// Whether the item can be written: its length fits 16 bits, and it is whole.
    final fn encodable(&self) -> bool
        ensures test { result ≡ is_encodable (item_of self.now) (parts_agree self.now) }
        ensures says { IsTrue result ↔ (IsEncodable (item_of self.now) × (parts_agree self.now ≡ true)) }
    {
        self.value_size() <= MAX_VALUE_SIZE && self.is_whole()
    }

    /// The length of the item with its header and padding, in bytes; `usize::MAX` where it is greater still.
    #[tactic(auto, using(crate::proofs::SerializeLemmas::length_padded_item))]
    final fn serialized_size(&self) -> usize
        ensures { result ≡ min (length (padded_item (item_of self.now))) (2 ^ 64 - 1) }
    {
        let size = self.value_size();
        size.saturating_add(padding_len(size)).saturating_add(4)
    }

    /// Appends the item without padding.
    final fn push_item(&self, output: &mut Vec<u8>) -> Result<(), AllocError>
        requires fits { IsEncodable (item_of self.now) }
        requires whole { parts_agree self.now ≡ true }
        ensures wrote { OnOk result (output.new.items ≡ output.old.items ++ item_bytes (item_of self.now)) }
        ensures room { Fills output.old output.new (length (item_bytes (item_of self.now))) result }
    {
        write_item_header(self.kind(), self.value_size(), output)?;
        self.push_value(output)
    }

    /// Appends the item, and zeros up to a multiple of four bytes.
    #[tactic(auto, using(crate::proofs::SerializeLemmas::length_padded_item))]
    final fn serialize_to(&self, output: &mut Vec<u8>) -> Result<(), AllocError>
        requires fits { IsEncodable (item_of self.now) }
        requires whole { parts_agree self.now ≡ true }
        ensures wrote { OnOk result (output.new.items ≡ output.old.items ++ padded_item (item_of self.now)) }
        ensures room { Fills output.old output.new (length (padded_item (item_of self.now))) result }
    {
        self.push_item(output)?;
        push_zeros(padding_len(self.value_size()), output)
    }
}

/// How many bytes bring `size` bytes to a multiple of four.
pub fn padding_len(size: usize) -> usize
    ensures { result ≡ padding size }
{
    (4 - size % 4) % 4
}

/// Appends up to three zeros.
fn push_zeros(count: usize, output: &mut Vec<u8>) -> Result<(), AllocError>
    requires { count < 4 }
    ensures wrote { OnOk result (output.new.items ≡ output.old.items ++ replicate count 0) }
    ensures room { Fills output.old output.new count result }
{
    if count == 0 {
        return Ok(());
    }
    output.extend_from_slice(&[0, 0, 0][..count])
}

/// Appends an item's header: its first two bytes, and its length in bytes, which is below 2^16.
#[tactic(auto, unfolding(crate::specs::Field::be16))]
pub fn write_item_header(
    kind: [u8; 2],
    value_size: usize,
    output: &mut Vec<u8>,
) -> Result<(), AllocError>
    requires { 4 + value_size < 2 ^ 16 }
    ensures wrote { OnOk result (output.new.items ≡ output.old.items ++ (kind ++ be16 (4 + value_size))) }
    ensures room { Fills output.old output.new 4 result }
{
    let length = ((4 + value_size) as u16).to_be_bytes();
    output.extend_from_slice(&[kind[0], kind[1], length[0], length[1]])
}

/// Appends the header of a parameter or a cause: its type, and its length in bytes, which is below 2^16.
pub fn write_parameter_header(
    typ: u16,
    value_size: usize,
    output: &mut Vec<u8>,
) -> Result<(), AllocError>
    requires { 4 + value_size < 2 ^ 16 }
    ensures wrote { OnOk result (output.new.items ≡ output.old.items ++ (be16 typ ++ be16 (4 + value_size))) }
    ensures room { Fills output.old output.new 4 result }
{
    push_u16(output, typ)?;
    push_u16(output, (4 + value_size) as u16)
}

/// The length of the items as part of the value around them: the padding of each but the last counts;
/// `usize::MAX` where it is greater still.
pub fn parameters_serialized_size<T: SerializableTlv>(parameters: &[T]) -> usize
    ensures { result ≡ min (length (inner_items (map T.item_of parameters.now))) (2 ^ 64 - 1) }
{
    let mut size = 0usize;
    for parameter in parameters {
        size = size
            .saturating_add(padding_len(size))
            .saturating_add(parameter.value_size())
            .saturating_add(4);
    }
    size
}

/// Whether each of the items can be written.
pub fn all_encodable<T: SerializableTlv>(items: &[T]) -> bool
    ensures test { result ≡ list_all (λ item. is_encodable (T.item_of item) (T.parts_agree item)) items.now }
    ensures fit { IsTrue result → All (λ item. IsEncodable (T.item_of item)) items.now }
    ensures whole { IsTrue result → All (λ item. T.parts_agree item ≡ true) items.now }
{
    items.iter().all(|item| item.encodable())
}

/// Appends the items as part of the value around them: each but the last with its padding.
#[tactic(auto, using(crate::proofs::SerializeLemmas::item_fits))]
pub fn parameters_serialize_to<T: SerializableTlv>(
    parameters: &[T],
    output: &mut Vec<u8>,
) -> Result<(), AllocError>
    requires fit { All (λ parameter. IsEncodable (T.item_of parameter)) parameters.now }
    requires whole { All (λ parameter. T.parts_agree parameter ≡ true) parameters.now }
    ensures wrote { OnOk result (output.new.items ≡ output.old.items ++ inner_items (map T.item_of parameters.now)) }
    ensures room { Fills output.old output.new (length (inner_items (map T.item_of parameters.now))) result }
{
    let mut padding = 0;
    for parameter in parameters {
        push_zeros(padding, output)?;
        parameter.push_item(output)?;
        padding = padding_len(parameter.value_size());
    }
    Ok(())
}
