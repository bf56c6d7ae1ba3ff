//! An event taken apart, for who lends its bytes.

ghost use Rattle.std.specs.Prelude.{◌≡◌, IfErr, IfOk};
ghost use Rattle.sctp_state.specs.Events.{event_of};
ghost use Rattle.sctp_c_records.specs.Event.{bytes_of, record_of};

use crate::event::{EventRecord, head_of};
use crate::streams::spelled;
use sctp_state::SocketEvent;
use std::alloc::Global;

/// What an event is, and its bytes.
pub struct EventParts {
    pub head: EventRecord,
    pub bytes: Vec<u8>,
}

/// The bytes of an event. Where there is no memory for those of streams, it comes back.
fn bytes_of(alloc: Global, event: SocketEvent) -> Result<Vec<u8>, SocketEvent>
    ensures bytes { IfOk result (λ bytes. bytes.items ≡ bytes_of (event_of event)) }
    ensures same { IfErr result (λ back. back ≡ event) }
{
    match event {
        SocketEvent::SendPacket(bytes) => Ok(bytes),
        SocketEvent::OnAborted(_kind, text) => Ok(text.into_bytes()),
        SocketEvent::OnError(_kind, text) => Ok(text.into_bytes()),
        SocketEvent::OnStreamsResetFailed(ids) => match spelled(alloc, &ids) {
            Ok(bytes) => Ok(bytes),
            Err(_error) => Err(SocketEvent::OnStreamsResetFailed(ids)),
        },
        SocketEvent::OnStreamsResetPerformed(ids) => match spelled(alloc, &ids) {
            Ok(bytes) => Ok(bytes),
            Err(_error) => Err(SocketEvent::OnStreamsResetPerformed(ids)),
        },
        SocketEvent::OnIncomingStreamReset(ids) => match spelled(alloc, &ids) {
            Ok(bytes) => Ok(bytes),
            Err(_error) => Err(SocketEvent::OnIncomingStreamReset(ids)),
        },
        SocketEvent::OnConnected()
        | SocketEvent::OnClosed()
        | SocketEvent::OnConnectionRestarted()
        | SocketEvent::OnBufferedAmountLow(_)
        | SocketEvent::OnTotalBufferedAmountLow()
        | SocketEvent::OnLifecycleMessageFullySent(_)
        | SocketEvent::OnLifecycleMessageMaybeExpired(_)
        | SocketEvent::OnLifecycleMessageExpired(_)
        | SocketEvent::OnLifecycleMessageDelivered(_)
        | SocketEvent::OnLifecycleEnd(_) => Ok(Vec::new(alloc)),
    }
}

/// Takes an event apart. Where there is no memory for the bytes of streams, it comes back.
pub fn parts_of(alloc: Global, event: SocketEvent) -> Result<EventParts, SocketEvent>
    ensures head { IfOk result (λ parts. parts.head ≡ record_of (event_of event)) }
    ensures bytes { IfOk result (λ parts. parts.bytes.items ≡ bytes_of (event_of event)) }
    ensures same { IfErr result (λ back. back ≡ event) }
{
    let head = head_of(&event);
    match bytes_of(alloc, event) {
        Ok(bytes) => Ok(EventParts {
            head: head.with_length(bytes.len()),
            bytes,
        }),
        Err(event) => Err(event),
    }
}
