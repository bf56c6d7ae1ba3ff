//! What is printed of the log's entries and of packets.

ghost use Rattle.std.specs.Prelude.{◌≡◌, ◌++◌, map, slice_get, IfOk, string_bytes, option_map, codes};
ghost use Rattle.std.specs.List.{flat_map};
ghost use Rattle.sctp_state.specs.Events.{event_of, numbers_of};
ghost use Rattle.spec_world.specs.World.{side_of};
ghost use Rattle.sctp_world.specs.Printing.{size_of, kind_name, event_name, event_words, refusal_name, reset_refusal_name, refusal_line, message_line, given_up_line, bytes_line, event_line, number_word, cause_words, answer_text, entry_text, news_text, packet_text};
ghost use Rattle.sctp_serial.specs.Messages.{message_of};
ghost use Rattle.sctp_network_side.specs.SideView.{answer_tree, end_tree, entry_tree};
ghost use Rattle.sctp_network.specs.WorldView.{world_of};

use rand_core::Rng;
use sctp_network::{Answer, End, Entry, World};
use sctp_serial::{Message, StreamId};
use sctp_state::{ErrorKind, GivenUp, GivenUpCause, ResetStreamsError, SendError, SocketEvent};
use sctp_wire::Checksum;
use std::alloc::{AllocError, Global};

/// What the entries of the log from this place on print.
pub fn news_text<R: Rng, C: Checksum>(
    alloc: Global,
    world: &World<R, C>,
    before: usize,
) -> Result<String, AllocError>
    ensures { IfOk result (λ text. string_bytes text ≡ news_text (world_of R.stream C.word_of world.now) before) }
{
    match world.log().get(before..) {
        Some(entries) => entries_text(alloc, world, entries),
        None => Ok(String::new(alloc)),
    }
}

fn entries_text<R: Rng, C: Checksum>(
    alloc: Global,
    world: &World<R, C>,
    entries: &[Entry],
) -> Result<String, AllocError>
    ensures { IfOk result (λ text. string_bytes text ≡ flat_map (entry_text (world_of R.stream C.word_of world.now)) (map entry_tree entries.now)) }
{
    let mut text = String::new(alloc);
    for entry in entries {
        text.push_str(&entry_text(alloc, world, entry)?)?;
    }
    Ok(text)
}

/// The packet of this number, from 0 on, that the end sent.
pub fn packet_text<R: Rng, C: Checksum>(
    alloc: Global,
    world: &World<R, C>,
    end: End,
    number: usize,
) -> Result<String, AllocError>
    ensures { IfOk result (λ text. string_bytes text
        ≡ packet_text (end_tree end) number (slice_get (side_of (end_tree end) (world_of R.stream C.word_of world.now)).packets number)) }
{
    match world.packet(end, number) {
        Some(bytes) => bytes_text(alloc, end, number, bytes),
        None => format!(in alloc; "no packet\n"),
    }
}

fn bytes_text(alloc: Global, end: End, number: usize, bytes: &[u8]) -> Result<String, AllocError>
    ensures { IfOk result (λ text. string_bytes text ≡ bytes_line (end_tree end) number bytes.now) }
{
    let bytes = hex::encode(alloc, bytes)?;
    format!(in alloc; "{end} bytes {number} {bytes}\n")
}

/// One entry, which may print nothing.
fn entry_text<R: Rng, C: Checksum>(
    alloc: Global,
    world: &World<R, C>,
    entry: &Entry,
) -> Result<String, AllocError>
    ensures { IfOk result (λ text. string_bytes text ≡ entry_text (world_of R.stream C.word_of world.now) (entry_tree entry.now)) }
{
    match entry {
        Entry::Packet(end, number) => {
            let size = size_of(world.packet(*end, *number));
            format!(in alloc; "{end} packet {number} {size}\n")
        }
        Entry::Event(end, event) => event_text(alloc, *end, event),
        Entry::Call(end, _, _, answer) => answer_text(alloc, *end, answer),
        Entry::Foreign(_, _, None) => format!(in alloc; "foreign skipped\n"),
        Entry::GivenUp(end, record) => given_up_text(alloc, *end, *record),
        _ => Ok(String::new(alloc)),
    }
}

fn answer_text(alloc: Global, end: End, answer: &Answer) -> Result<String, AllocError>
    ensures { IfOk result (λ text. string_bytes text ≡ answer_text (end_tree end) (answer_tree answer.now)) }
{
    match answer {
        Answer::Sent(Some(refusal)) => refusal_text(alloc, end, refusal),
        Answer::AskedReset(Some(refusal)) => {
            let name = reset_refusal_name(refusal);
            format!(in alloc; "{end} refused {name}\n")
        }
        Answer::Received(Some(message)) => message_text(alloc, end, message),
        Answer::Received(None) => format!(in alloc; "{end} none\n"),
        _ => Ok(String::new(alloc)),
    }
}

fn size_of(packet: Option<&[u8]>) -> usize
    ensures { result ≡ size_of (option_map (λ bytes. bytes.now) packet.entry) }
{
    match packet {
        Some(bytes) => bytes.len(),
        None => 0,
    }
}

fn refusal_text(alloc: Global, end: End, error: &SendError) -> Result<String, AllocError>
    ensures { IfOk result (λ text. string_bytes text ≡ refusal_line (end_tree end) (refusal_name error.now)) }
{
    let name = refusal_name(error);
    format!(in alloc; "{end} refused {name}\n")
}

fn message_text(alloc: Global, end: End, message: &Message) -> Result<String, AllocError>
    ensures { IfOk result (λ text. string_bytes text ≡ message_line (end_tree end) (message_of message.now)) }
{
    let stream = message.stream_id;
    let ppid = message.ppid;
    let payload = hex::encode(alloc, &message.payload)?;
    format!(in alloc; "{end} message {stream} {ppid} {payload}\n")
}

fn given_up_text(alloc: Global, end: End, given_up: GivenUp) -> Result<String, AllocError>
    ensures { IfOk result (λ text. string_bytes text ≡ given_up_line (end_tree end) given_up.number.0 (cause_words given_up.cause)) }
{
    let number = given_up.number;
    match given_up.cause {
        GivenUpCause::Lifetime => format!(in alloc; "{end} given-up {number} lifetime\n"),
        GivenUpCause::Retransmissions(count) => {
            format!(in alloc; "{end} given-up {number} retransmissions {count}\n")
        }
        GivenUpCause::Reset => format!(in alloc; "{end} given-up {number} reset\n"),
        GivenUpCause::Ended => format!(in alloc; "{end} given-up {number} ended\n"),
    }
}

fn event_text(alloc: Global, end: End, event: &SocketEvent) -> Result<String, AllocError>
    ensures { IfOk result (λ text. string_bytes text ≡ event_line (end_tree end) (event_name (event_of event.now)) (event_words (event_of event.now))) }
{
    let name = event_name(event);
    let words = event_words(alloc, event)?;
    format!(in alloc; "{end} event {name}{words}\n")
}

/// What stands behind the event's name.
fn event_words(alloc: Global, event: &SocketEvent) -> Result<String, AllocError>
    ensures { IfOk result (λ text. string_bytes text ≡ event_words (event_of event.now)) }
{
    match event {
        SocketEvent::OnAborted(kind, text) => kind_text(alloc, *kind, text),
        SocketEvent::OnError(kind, text) => kind_text(alloc, *kind, text),
        SocketEvent::OnBufferedAmountLow(id) => format!(in alloc; " {id}"),
        SocketEvent::OnStreamsResetFailed(ids) => ids_text(alloc, ids),
        SocketEvent::OnStreamsResetPerformed(ids) => ids_text(alloc, ids),
        SocketEvent::OnIncomingStreamReset(ids) => ids_text(alloc, ids),
        SocketEvent::OnLifecycleMessageFullySent(id) => format!(in alloc; " {id}"),
        SocketEvent::OnLifecycleMessageMaybeExpired(id) => format!(in alloc; " {id}"),
        SocketEvent::OnLifecycleMessageExpired(id) => format!(in alloc; " {id}"),
        SocketEvent::OnLifecycleMessageDelivered(id) => format!(in alloc; " {id}"),
        SocketEvent::OnLifecycleEnd(id) => format!(in alloc; " {id}"),
        _ => Ok(String::new(alloc)),
    }
}

fn kind_text(alloc: Global, kind: ErrorKind, text: &str) -> Result<String, AllocError>
    ensures { IfOk result (λ words. string_bytes words ≡ codes " " ++ (kind_name kind ++ (codes ": " ++ text.now))) }
{
    let kind = kind_name(kind);
    format!(in alloc; " {kind}: {text}")
}

fn ids_text(alloc: Global, ids: &[StreamId]) -> Result<String, AllocError>
    ensures { IfOk result (λ text. string_bytes text ≡ flat_map number_word (numbers_of ids.now)) }
{
    let mut text = String::new(alloc);
    for id in ids {
        text.push_str(&format!(in alloc; " {id}")?)?;
    }
    Ok(text)
}

fn kind_name(kind: ErrorKind) -> &'static str
    ensures { result.now ≡ kind_name kind }
{
    match kind {
        ErrorKind::NoError => "NoError",
        ErrorKind::TooManyRetries => "TooManyRetries",
        ErrorKind::NotConnected => "NotConnected",
        ErrorKind::ParseFailed => "ParseFailed",
        ErrorKind::WrongSequence => "WrongSequence",
        ErrorKind::PeerReported => "PeerReported",
        ErrorKind::ProtocolViolation => "ProtocolViolation",
        ErrorKind::ResourceExhaustion => "ResourceExhaustion",
        ErrorKind::UnsupportedOperation => "UnsupportedOperation",
    }
}

fn refusal_name(error: &SendError) -> &'static str
    ensures { result.now ≡ refusal_name error.now }
{
    match error {
        SendError::EmptyPayload => "EmptyPayload",
        SendError::MessageTooLarge { .. } => "MessageTooLarge",
        SendError::ShuttingDown => "ShuttingDown",
        SendError::ResourceExhaustion => "ResourceExhaustion",
        SendError::Memory => "Memory",
        SendError::Failed => "Failed",
    }
}

fn reset_refusal_name(error: &ResetStreamsError) -> &'static str
    ensures { result.now ≡ reset_refusal_name error.now }
{
    match error {
        ResetStreamsError::NotConnected => "NotConnected",
        ResetStreamsError::NotSupported => "NotSupported",
        ResetStreamsError::Memory => "Memory",
        ResetStreamsError::Failed => "Failed",
    }
}

fn event_name(event: &SocketEvent) -> &'static str
    ensures { result.now ≡ event_name (event_of event.now) }
{
    match event {
        SocketEvent::SendPacket(_) => "SendPacket",
        SocketEvent::OnConnected() => "OnConnected",
        SocketEvent::OnClosed() => "OnClosed",
        SocketEvent::OnConnectionRestarted() => "OnConnectionRestarted",
        SocketEvent::OnAborted(..) => "OnAborted",
        SocketEvent::OnError(..) => "OnError",
        SocketEvent::OnBufferedAmountLow(_) => "OnBufferedAmountLow",
        SocketEvent::OnTotalBufferedAmountLow() => "OnTotalBufferedAmountLow",
        SocketEvent::OnStreamsResetFailed(_) => "OnStreamsResetFailed",
        SocketEvent::OnStreamsResetPerformed(_) => "OnStreamsResetPerformed",
        SocketEvent::OnIncomingStreamReset(_) => "OnIncomingStreamReset",
        SocketEvent::OnLifecycleMessageFullySent(_) => "OnLifecycleMessageFullySent",
        SocketEvent::OnLifecycleMessageMaybeExpired(_) => "OnLifecycleMessageMaybeExpired",
        SocketEvent::OnLifecycleMessageExpired(_) => "OnLifecycleMessageExpired",
        SocketEvent::OnLifecycleMessageDelivered(_) => "OnLifecycleMessageDelivered",
        SocketEvent::OnLifecycleEnd(_) => "OnLifecycleEnd",
    }
}
