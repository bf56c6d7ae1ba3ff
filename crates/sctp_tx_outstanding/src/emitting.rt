//! Events of items that leave.

ghost use Rattle.std.specs.Prelude.{◌≡◌, OnOk, OnErr};
ghost use Rattle.sctp_state.specs.Events.{emit_events, Grown};
ghost use Rattle.sctp_tx_outstanding.specs.Sack.{leaving_events};

use crate::item::Item;
use sctp_state::{Events, SocketEvent};
use std::alloc::AllocError;

/// Emits what is due as an item leaves.
pub(crate) fn emit_left(events: &mut Events, item: &Item) -> Result<(), AllocError>
    ensures ok { OnOk result (events.new ≡ emit_events (leaving_events item.now) events.old) }
    ensures err { OnErr result (Grown events.old events.new) }
{
    if !item.data().is_end {
        return Ok(());
    }
    let Some(id) = item.lifecycle_id() else {
        return Ok(());
    };
    if item.is_abandoned() {
        events.add(SocketEvent::OnLifecycleMessageMaybeExpired(id))?;
    } else {
        events.add(SocketEvent::OnLifecycleMessageDelivered(id))?;
    }
    events.add(SocketEvent::OnLifecycleEnd(id))?;
    Ok(())
}
