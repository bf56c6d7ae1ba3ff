//! Lists in the texts of chunks, parameters and causes.

ghost use Rattle.std.specs.Prelude.{◌≡◌, ℕ, List, Some, map, refl};
ghost use Rattle.std.specs.Fmt.{decimal};
ghost use Rattle.sctp_wire.specs.Show.{join_texts};

use sctp_serial::{StreamId, Tsn};
use std::fmt;

/// An entry of a list that is shown.
pub trait Listed: fmt::Display {
    ghost text: { Self → List ℕ };

    ghost shows: { (entry : Self) → Self.output entry ≡ Some (text entry) };
}

impl Listed for u8 {
    ghost text = { decimal };

    ghost shows = { λ n. refl };
}

impl Listed for u16 {
    ghost text = { decimal };

    ghost shows = { λ n. refl };
}

impl Listed for StreamId {
    ghost text = { λ id. decimal id.0 };

    ghost shows = { λ id. refl };
}

impl Listed for Tsn {
    ghost text = { λ tsn. decimal tsn.0 };

    ghost shows = { λ tsn. refl };
}

/// A list, shown entry by entry with `/` between.
#[derive(Clone, Copy)]
pub struct Joined<'a, T>(pub &'a [T]);

#[tactic(auto, unfolding(crate::specs::Show::join_texts))]
impl<T: Listed> fmt::Display for Joined<'_, T> {
    ghost output = { λ list. Some (join_texts (map T.text list.0.now)) };

    fn fmt<W: fmt::Write>(&self, f: &mut fmt::Formatter<W>) -> fmt::Result {
        let Some((first, others)) = self.0.split_first() else {
            return Ok(());
        };
        write!(f, "{first}")?;
        for entry in others {
            write!(f, "/{entry}")?;
        }
        Ok(())
    }
}
