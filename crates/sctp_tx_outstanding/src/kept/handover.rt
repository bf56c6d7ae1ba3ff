//! The kept items in the record of a socket that is handed over.

ghost use Rattle.std.specs.Prelude.{◌≡◌, ◌++◌, ◌<◌, ◌^◌, map, IfOk, OnOk};
ghost use Rattle.sctp_state.specs.Handover.{outstanding_data_of};
ghost use Rattle.sctp_state.specs.Validity.{outstanding_bytes};
ghost use Rattle.sctp_tx_outstanding.specs.Handover.{item_records, items_from};

use crate::item::Item;
use crate::kept::Kept;
use sctp_serial::SocketTime;
use sctp_state::api::handover::HandoverOutstandingData;
use std::alloc::{AllocError, Global};
use std::collections::VecDeque;

/// The items in a record.
fn hand_over_all(
    items: &VecDeque<Item>,
    alloc: Global,
    now: SocketTime,
    records: &mut Vec<HandoverOutstandingData>,
) -> Result<(), AllocError>
    ensures { OnOk result (map outstanding_data_of records.new.items ≡ map outstanding_data_of records.old.items ++ item_records now items.now.items) }
{
    for item in items.iter() {
        records.push(item.handed_over(alloc, now)?)?;
    }
    Ok(())
}

/// Adds the items of a record.
fn restore_all(
    kept: &mut Kept,
    alloc: Global,
    now: SocketTime,
    records: &[HandoverOutstandingData],
) -> Result<(), AllocError>
    requires { outstanding_bytes (map outstanding_data_of records.now) < 2 ^ 32 }
    ensures { OnOk result (kept.new ≡ record kept.old { items = kept.old.items ++ items_from now (map outstanding_data_of records.now) }) }
{
    for record in records {
        kept.push(Item::restored(alloc, now, record)?)?;
    }
    Ok(())
}

impl Kept {
    /// The items in a record.
    pub(crate) fn handed_over(
        &self,
        alloc: Global,
        now: SocketTime,
    ) -> Result<Vec<HandoverOutstandingData>, AllocError>
        ensures { IfOk result (λ records. map outstanding_data_of records.items ≡ item_records now self.now.items) }
    {
        let mut records = Vec::new(alloc);
        hand_over_all(&self.items, alloc, now, &mut records)?;
        Ok(records)
    }

    /// The items of a record, in the mode of these.
    pub(crate) fn restored(
        &self,
        alloc: Global,
        now: SocketTime,
        records: &[HandoverOutstandingData],
    ) -> Result<Kept, AllocError>
        requires { outstanding_bytes (map outstanding_data_of records.now) < 2 ^ 32 }
        ensures { IfOk result (λ kept. kept ≡ record self.now { items = items_from now (map outstanding_data_of records.now) }) }
    {
        let mut kept = Kept::new(alloc, self.is_interleaved);
        restore_all(&mut kept, alloc, now, records)?;
        Ok(kept)
    }
}
