//! A fragment with its key, and fragments with one key after the other.

ghost use Rattle.std.specs.Prelude.{◌<◌, length};
ghost use Rattle.sctp_fragments.specs.Entries.{items_of};

mod entries;
mod pieces;
mod reading;

pub use entries::Entries;
pub use pieces::Pieces;
pub use reading::goes_on_to;
use sctp_chunk::Data;

/// A fragment and its key.
#[derive(Debug, Drop)]
pub struct Entry<K> {
    /// Where the fragment stands.
    pub key: K,
    /// The fragment, as it came.
    pub fragment: Data,
}

/// How much room an interval takes at another one, with the entry between them.
#[derive(Clone, Copy, Debug)]
pub enum Size {
    /// So many places for entries.
    Entries(usize),
    /// So many places for pieces, of a long one.
    Pieces(usize),
}

impl Size {
    /// Whether it is less. Entries are less than pieces.
    pub fn is_below(self, other: Size) -> bool {
        match (self, other) {
            (Size::Entries(one), Size::Entries(other)) => one < other,
            (Size::Pieces(one), Size::Pieces(other)) => one < other,
            (Size::Entries(_), Size::Pieces(_)) => true,
            (Size::Pieces(_), Size::Entries(_)) => false,
        }
    }
}

/// Fragments with one key after the other, none of which ends a message or begins one but at the interval's ends.
#[derive(Debug, Drop)]
pub struct Interval<K> {
    /// In the order of their keys; one at least.
    pub entries: Box<Entries<K>>,
    ghost some: { 0 < length (items_of entries.value) },
}
