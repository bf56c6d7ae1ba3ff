//! The streams that can be reset and are in no request.

ghost use Rattle.std.specs.Prelude.{◌≡◌, true, [], IfOk, map, take, if◌then◌else◌};
ghost use Rattle.std.specs.Ordering.{nat_cmp};
ghost use Rattle.std.specs.BTreeMap.{is_at};
ghost use Rattle.std.specs.BTreeSet.{insert_key};
ghost use Rattle.std.specs.Set.{remove_key};
ghost use Rattle.sctp_tx_queue.specs.Bounded.{ids_after};

use sctp_serial::StreamId;
use std::alloc::{AllocError, Global};
use std::collections::BTreeSet;

/// Their ids, if they are known: where memory was missing, they aren't until there are none.
#[derive(Drop)]
pub struct ReadyIds {
    pub ids: BTreeSet<u16>,
    pub is_known: bool,
}

/// Lists the id or takes it out. Says whether there was memory.
fn put(ids: &mut BTreeSet<u16>, id: u16, is_ready: bool) -> bool
    ensures { result ≡ true → ids.new.keys ≡ (if is_ready then insert_key nat_cmp ids.old.keys id else remove_key (is_at (nat_cmp id)) ids.old.keys) }
{
    if is_ready {
        return ids.insert(id).is_ok();
    }
    ids.remove(&id);
    true
}

impl ReadyIds {
    /// There are none. Takes no memory.
    pub(crate) fn new(alloc: Global) -> ReadyIds
        ensures { result.ids.keys ≡ [] }
    {
        ReadyIds {
            ids: BTreeSet::new(alloc),
            is_known: true,
        }
    }

    /// There are none.
    pub(crate) fn begin(&mut self)
        ensures { self.new.ids.keys ≡ [] }
    {
        self.ids.clear();
        self.is_known = true;
    }

    /// A stream is ready or isn't, and was so before or wasn't.
    #[inline(always)]
    pub(crate) fn follow(&mut self, id: u16, was_ready: bool, is_ready: bool)
        ensures { self.new.is_known ≡ true → (self.old.is_known ≡ true) × (self.new.ids.keys ≡ ids_after id was_ready is_ready self.old.ids.keys) }
    {
        if was_ready == is_ready {
            return;
        }
        if self.is_known {
            self.is_known = put(&mut self.ids, id, is_ready);
        }
    }
}

/// The first of these ids, at most `most`.
pub(crate) fn first_ids(
    alloc: Global,
    ready: &BTreeSet<u16>,
    most: usize,
) -> Result<Vec<StreamId>, AllocError>
    ensures { IfOk result (λ ids. map (λ id. id.0) ids.items ≡ take most ready.now.keys) }
{
    let mut ids = Vec::new(alloc);
    for id in ready {
        if ids.len() >= most {
            return Ok(ids);
        }
        ids.push(StreamId(*id))?;
    }
    Ok(ids)
}
