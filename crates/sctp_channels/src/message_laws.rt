//! What holds of the definitions: what is written is read back, and bytes say one thing or are refused for one reason.

ghost use Rattle.std.specs.Prelude.{◌≡◌, ◌≢◌, ℕ, List, Some};
ghost use Rattle.sctp_channels.specs.declared.fault.ChannelMessageFault.{ChannelMessageFault};
ghost use Rattle.sctp_channels.specs.declared.payload.PayloadKind.{PayloadKind};
ghost use Rattle.sctp_channels.specs.Message.{Establishment, MessageFits, RefusedAs, Says, message_bytes};
ghost use Rattle.sctp_channels.specs.Payload.{data_payload, data_ppid, handed_out, protocol_of};

use crate::ChannelMessageFault;

/// Bytes say at most one message.
pub fn one_message()
    ensures { (bytes : List ℕ) (m n : Establishment) → Says bytes m → Says bytes n → m ≡ n }
{}

/// A message whose fields hold its values is said by the bytes that it is written as.
pub fn read_back()
    ensures { (m : Establishment) → MessageFits m → Says (message_bytes m) m }
{}

/// Messages that are written alike are the same.
pub fn written_alike()
    ensures { (m n : Establishment) → MessageFits m → MessageFits n → message_bytes m ≡ message_bytes n → m ≡ n }
{}

/// Bytes that say a message are refused for want of memory alone; others for one reason.
pub fn one_answer()
    ensures never_both { (bytes : List ℕ) (m : Establishment) (fault : ChannelMessageFault) → Says bytes m → RefusedAs bytes fault → fault ≡ ChannelMessageFault.Memory }
    ensures one_fault { (bytes : List ℕ) (fault other : ChannelMessageFault) → RefusedAs bytes fault → RefusedAs bytes other
        → fault ≢ ChannelMessageFault.Memory → other ≢ ChannelMessageFault.Memory → fault ≡ other }
{}

/// What is handed out of a message of SCTP is what went into it, of the same kind.
pub fn one_payload()
    ensures { (kind : PayloadKind) (payload : List ℕ) → handed_out (protocol_of (data_ppid kind payload)) (data_payload payload) ≡ Some (kind, payload) }
{}
