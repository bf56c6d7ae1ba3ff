//! Items whose value is one field, or none: most parameters and causes.

ghost use Rattle.std.specs.Prelude.{◌≡◌, true, [], ◌∷◌, ◌++◌, length, OnOk};
ghost use Rattle.sctp_item.specs.Item.{Item};
ghost use Rattle.sctp_wire.specs.Room.{Fills};
ghost use Rattle.sctp_wire.specs.OneField.{field_bytes};

use crate::field::push_u32;
use crate::serialize::SerializableTlv;
use std::alloc::AllocError;

/// A value that is one field.
#[derive(Clone, Copy)]
pub enum FieldValue<'a> {
    /// Bytes, as many as there are; none where an item has no value.
    Bytes(&'a [u8]),
    /// A number of four bytes.
    Number(u32),
}

#[tactic(auto, using(crate::specs::Field::length_be32))]
impl FieldValue<'_> {
    fn size(self) -> usize
        ensures { result ≡ length (field_bytes self.entry) }
    {
        match self {
            FieldValue::Bytes(bytes) => bytes.len(),
            FieldValue::Number(_) => 4,
        }
    }

    fn push_to(self, output: &mut Vec<u8>) -> Result<(), AllocError>
        ensures wrote { OnOk result (output.new.items ≡ output.old.items ++ field_bytes self.entry) }
        ensures room { Fills output.old output.new (length (field_bytes self.entry)) result }
    {
        match self {
            FieldValue::Bytes(bytes) => output.extend_from_slice(bytes),
            FieldValue::Number(number) => push_u32(output, number),
        }
    }
}

/// A kind of item whose value is one field.
pub trait OneField {
    ghost item: { Self → Item };

    /// The first two bytes of the item.
    fn first_bytes(&self) -> [u8; 2]
        ensures { result ≡ (item self.now).first ∷ (item self.now).second ∷ [] };

    /// Its value.
    fn field(&self) -> FieldValue<'_>
        ensures { field_bytes result ≡ (item self.now).value };
}

impl<T: OneField> SerializableTlv for T {
    ghost item_of = { T.item };

    ghost parts_agree = { λ t. true };

    fn kind(&self) -> [u8; 2] {
        self.first_bytes()
    }

    fn value_size(&self) -> usize {
        self.field().size()
    }

    fn is_whole(&self) -> bool {
        true
    }

    fn push_value(&self, output: &mut Vec<u8>) -> Result<(), AllocError> {
        self.field().push_to(output)
    }
}
