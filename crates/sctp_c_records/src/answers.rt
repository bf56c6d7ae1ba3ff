//! The numbers that calls answer.

ghost use Rattle.std.specs.Prelude.{◌≡◌, [], ◌∷◌};
ghost use Rattle.sctp_c_records.specs.Answers.{IsAmong, call_number};

use sctp_state::CallError;

/// The call was done.
pub const OK: u32 = 0;
/// Too little memory: the socket has failed for good.
pub const MEMORY: u32 = 1;
/// An earlier call found too little memory.
pub const FAILED: u32 = 2;
/// The handle holds no socket.
pub const NO_SOCKET: u32 = 3;
/// The handle holds a socket already.
pub const IN_USE: u32 = 4;
/// No socket can be made with these options.
pub const INVALID_OPTIONS: u32 = 5;
/// No stream has this number.
pub const INVALID_STREAM: u32 = 6;
/// An argument is beyond what it can be.
pub const INVALID_ARGUMENT: u32 = 7;
/// There is none: no event, message or record waits, or no association is counted.
pub const NOTHING: u32 = 8;
/// The buffer is too short; what didn't fit stays.
pub const SHORT_BUFFER: u32 = 9;
/// A message has to have a byte.
pub const EMPTY_PAYLOAD: u32 = 10;
/// A message is larger than the options, or the peer of a channel, allow.
pub const MESSAGE_TOO_LARGE: u32 = 11;
/// The socket is shutting down.
pub const SHUTTING_DOWN: u32 = 12;
/// The send queue is full, or as much waits on a channel as may.
pub const QUEUE_FULL: u32 = 13;
/// There is no association.
pub const NO_ASSOCIATION: u32 = 14;
/// The peer can't reset streams.
pub const NOT_SUPPORTED: u32 = 15;
/// Something stands in the way of a handover.
pub const NOT_READY: u32 = 16;
/// Too little memory to begin with: but by `pigeon_handover` nothing changed.
pub const NO_ROOM: u32 = 17;
/// Some messages of a batch weren't accepted; the others were.
pub const SOME_REFUSED: u32 = 18;
/// A record can be taken up by a closed socket alone.
pub const NOT_CLOSED: u32 = 19;
/// The bytes are no record of a socket, or not a valid one.
pub const INVALID_STATE: u32 = 20;
/// The size of a struct is beyond those that there are.
pub const INVALID_SIZE: u32 = 21;
/// The bytes are no packet.
pub const NO_PACKET: u32 = 22;
/// The socket has no channels.
pub const NO_CHANNELS: u32 = 23;
/// The socket has channels already.
pub const HAS_CHANNELS: u32 = 24;
/// There is no channel on the stream.
pub const NO_CHANNEL: u32 = 25;
/// The channel is being closed, or its number isn't free behind that.
pub const CHANNEL_CLOSING: u32 = 26;
/// The stream has a channel, or isn't free yet.
pub const STREAM_IN_USE: u32 = 27;
/// All streams that this end may open channels on are in use.
pub const NO_FREE_STREAM: u32 = 28;
/// A label or a protocol has 65,536 bytes or more.
pub const TEXT_TOO_LONG: u32 = 29;
/// A label, a protocol or a message of text is not UTF-8.
pub const NOT_UTF8: u32 = 30;
/// The socket takes no message: its queue is full, it is shutting down, or the message is larger than it may be.
pub const NOT_TAKEN: u32 = 31;

/// The number of a call that says nothing else.
pub fn call_number(outcome: Result<(), CallError>) -> u32
    ensures number { result ≡ call_number outcome }
    ensures among { IsAmong (0 ∷ 1 ∷ 2 ∷ []) result }
{
    match outcome {
        Ok(()) => OK,
        Err(CallError::Memory) => MEMORY,
        Err(CallError::Failed) => FAILED,
    }
}
