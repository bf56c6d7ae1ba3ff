//! What stands beside a lifeline: calls and what they answered, the time, events, associations, messages.

use sctp_serial::{Message, SocketTime};
use sctp_state::{GivenUp, GivenUpCause, SocketEvent};
use sctp_world::{Answer, Call, Entry};
use std::alloc::{AllocError, Global};

/// What is said of the entry, which is no packet.
pub fn note_of(alloc: Global, entry: &Entry) -> Result<String, AllocError> {
    match entry {
        Entry::Call(_, _, call, answer) => call_text(alloc, call, answer),
        Entry::Foreign(_, _, Some(bytes)) => {
            format!(in alloc; "bytes from elsewhere: {}", bytes.len())
        }
        Entry::Foreign(_, _, None) => format!(in alloc; "bytes from elsewhere, skipped"),
        Entry::Time(_, _, now) => time_text(alloc, *now),
        Entry::Association(_, Some(association)) => {
            let (mine, peer) = (association.my_tag, association.peer_tag);
            format!(in alloc; "association {mine:08x} {peer:08x}")
        }
        Entry::Association(_, None) => format!(in alloc; "no association"),
        Entry::Event(_, event) => event_text(alloc, event),
        Entry::GivenUp(_, given_up) => given_up_text(alloc, given_up),
        Entry::Ready(_, message) => message_text(alloc, "ready", message),
        Entry::Packet(_, _) | Entry::Give(_, _, _) => format!(in alloc; "packet"),
    }
}

/// A moment in whole milliseconds.
fn time_text(alloc: Global, now: SocketTime) -> Result<String, AllocError> {
    let milliseconds = now.as_nanos() / 1_000_000;
    format!(in alloc; "{milliseconds} ms")
}

/// `NAME sSTREAM: SIZE B`
fn message_text(alloc: Global, name: &str, message: &Message) -> Result<String, AllocError> {
    let (stream, size) = (message.stream_id, message.payload.len());
    format!(in alloc; "{name} s{stream}: {size} B")
}

fn given_up_text(alloc: Global, given_up: &GivenUp) -> Result<String, AllocError> {
    let number = given_up.number;
    match given_up.cause {
        GivenUpCause::Lifetime => format!(in alloc; "given up {number}: lifetime"),
        GivenUpCause::Retransmissions(limit) => {
            format!(in alloc; "given up {number}: {limit} retransmissions")
        }
        GivenUpCause::Reset => format!(in alloc; "given up {number}: reset"),
        GivenUpCause::Ended => format!(in alloc; "given up {number}: its association ended"),
    }
}

fn call_name(call: &Call) -> &'static str {
    match call {
        Call::Connect => "connect",
        Call::Shutdown => "shutdown",
        Call::Close => "close",
        Call::Send(_, _) => "send",
        Call::SendMany(_, _) => "send many",
        Call::Receive => "receive",
        Call::Reset(_) => "reset streams",
        Call::SetPriority(_, _) => "set priority",
        Call::SetMaxMessageSize(_) => "set max message size",
        Call::SetLowThreshold(_, _) => "set low threshold",
        Call::Handover => "handover",
    }
}

fn call_text(alloc: Global, call: &Call, answer: &Answer) -> Result<String, AllocError> {
    let name = call_name(call);
    match (call, answer) {
        (Call::Send(message, _), Answer::Sent(None)) => message_text(alloc, name, message),
        (_, Answer::Sent(Some(_))) => format!(in alloc; "{name}: refused"),
        (_, Answer::Received(Some(message))) => message_text(alloc, name, message),
        (_, Answer::Received(None)) => format!(in alloc; "{name}: none"),
        (_, Answer::AskedReset(Some(_))) => format!(in alloc; "{name}: refused"),
        (_, Answer::NotReady(_)) => format!(in alloc; "{name}: not ready"),
        _ => format!(in alloc; "{name}"),
    }
}

fn event_name(event: &SocketEvent) -> &'static str {
    match event {
        SocketEvent::SendPacket(_) => "packet",
        SocketEvent::OnConnected() => "connected",
        SocketEvent::OnClosed() => "closed",
        SocketEvent::OnConnectionRestarted() => "restarted",
        SocketEvent::OnAborted(_, _) => "aborted",
        SocketEvent::OnError(_, _) => "error",
        SocketEvent::OnBufferedAmountLow(_) => "buffered amount low",
        SocketEvent::OnTotalBufferedAmountLow() => "total buffered amount low",
        SocketEvent::OnStreamsResetFailed(_) => "streams reset failed",
        SocketEvent::OnStreamsResetPerformed(_) => "streams reset performed",
        SocketEvent::OnIncomingStreamReset(_) => "incoming stream reset",
        SocketEvent::OnLifecycleMessageFullySent(_) => "fully sent",
        SocketEvent::OnLifecycleMessageMaybeExpired(_) => "maybe expired",
        SocketEvent::OnLifecycleMessageExpired(_) => "expired",
        SocketEvent::OnLifecycleMessageDelivered(_) => "delivered",
        SocketEvent::OnLifecycleEnd(_) => "end of",
    }
}

fn event_text(alloc: Global, event: &SocketEvent) -> Result<String, AllocError> {
    let name = event_name(event);
    match event {
        SocketEvent::OnAborted(_, text) | SocketEvent::OnError(_, text) => {
            format!(in alloc; "{name}: {text}")
        }
        SocketEvent::OnBufferedAmountLow(id) => format!(in alloc; "{name} s{id}"),
        SocketEvent::OnLifecycleMessageFullySent(id)
        | SocketEvent::OnLifecycleMessageMaybeExpired(id)
        | SocketEvent::OnLifecycleMessageExpired(id)
        | SocketEvent::OnLifecycleMessageDelivered(id)
        | SocketEvent::OnLifecycleEnd(id) => format!(in alloc; "{name} {id}"),
        _ => String::from_str(alloc, name),
    }
}
