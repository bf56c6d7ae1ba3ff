//! Parameters and causes of no known type.

ghost use Rattle.std.specs.Prelude.{◌≡◌, IfOk, IfErr, Some, codes};
ghost use Rattle.sctp_wire.specs.ParameterText.{unknown_text};
ghost use Rattle.sctp_wire.specs.Serialize.{item_of_type};

use crate::ChunkParseError;
use crate::item::RawParameter;
use crate::kind::{FieldValue, OneField};
use std::alloc::Global;
use std::fmt;

/// A parameter or a cause that is kept as it came.
#[derive(Debug, Drop)]
pub struct UnknownParameter {
    /// The type, two bytes.
    pub typ: u16,
    /// The value, without padding.
    pub value: Vec<u8>,
}

impl UnknownParameter {
    /// The parameter, of whatever type; only memory may lack.
    pub fn try_from(
        alloc: Global,
        raw: RawParameter<'_>,
    ) -> Result<UnknownParameter, ChunkParseError>
        ensures typ { IfOk result (λ p. p.typ ≡ raw.entry.typ) }
        ensures value { IfOk result (λ p. p.value.items ≡ raw.entry.value.now) }
        ensures refused { IfErr result (λ e. e ≡ ChunkParseError.Memory) }
    {
        Ok(UnknownParameter {
            typ: raw.typ,
            value: Vec::from_slice(alloc, raw.value)?,
        })
    }
}

impl OneField for UnknownParameter {
    ghost item = { λ p. item_of_type p.typ p.value.items };

    fn first_bytes(&self) -> [u8; 2] {
        self.typ.to_be_bytes()
    }

    fn field(&self) -> FieldValue<'_> {
        FieldValue::Bytes(&self.value)
    }
}

impl fmt::Display for UnknownParameter {
    ghost output = { λ p. Some (unknown_text (codes "UNKNOWN PARAMETER") p.typ p.value.items) };

    fn fmt<W: fmt::Write>(&self, f: &mut fmt::Formatter<W>) -> fmt::Result {
        write!(
            f,
            "UNKNOWN PARAMETER, typ={}, value={} bytes",
            self.typ,
            self.value.len()
        )
    }
}
