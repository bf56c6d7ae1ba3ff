//! Messages that are ready to be handed out.

ghost use Rattle.std.specs.Prelude.{◌≡◌, ◌&&◌, nat_lt, nat_le, length, option_map, slice_get};
ghost use Rattle.sctp_serial.specs.Messages.{message_of};
ghost use Rattle.sctp_state.specs.Events.{first_of};
ghost use Rattle.sctp_state.specs.Options.{IsValid, options_of};
ghost use Rattle.sctp_endpoint.specs.Views.{state_of, tcb_of};
ghost use Rattle.spec_endpoint.specs.Calls as table;

use sctp_endpoint::{State, TransmissionControlBlock};
use sctp_serial::Message;
use sctp_state::Options;

/// The ready message at this place, the first one at 0.
pub fn ready_message(state: &State, place: usize) -> Option<&Message>
    ensures { option_map (λ m. message_of m.now) result ≡ slice_get (table.ready_in (state_of state.now)) place }
{
    match state {
        State::Closed | State::CookieWait(_) => None,
        State::Open(_, tcb) => tcb.reassembly_queue.ready(place),
    }
}

/// How many messages are ready.
pub fn ready_count(state: &State) -> usize
    ensures { result ≡ length (table.ready_in (state_of state.now)) }
{
    match state {
        State::Closed | State::CookieWait(_) => 0,
        State::Open(_, tcb) => tcb.reassembly_queue.messages_ready_count(),
    }
}

/// Whether items are kept.
pub fn keeps_items(state: &State) -> bool
    ensures { result ≡ table.keeps_items (state_of state.now) }
{
    match state {
        State::Closed | State::CookieWait(_) => false,
        State::Open(_, tcb) => !tcb.retransmission_queue.is_empty(),
    }
}

/// From so large a window on the peer is told of it: a quarter of the whole, or an mtu where that is more, but no more than the whole.
fn least_window(options: &Options) -> usize
    requires { IsValid (options_of options.now) }
    ensures { result ≡ table.least_window (options_of options.now) }
{
    let widest = options.max_receiver_window_buffer_size * 9 / 10;
    widest.min(options.mtu.max(widest / 4))
}

/// Whether the window opens, from so many bytes to so many, where the peer is to be told so.
fn opens_window(options: &Options, before: usize, after: usize) -> bool
    requires { IsValid (options_of options.now) }
    ensures { result ≡ ((options_of options.now).avoid_stalls
        && (nat_lt before (table.least_window (options_of options.now)) && nat_le (table.least_window (options_of options.now)) after)) }
{
    let least = least_window(options);
    options.avoid_stalls && (before < least && least <= after)
}

fn first_message(tcb: &mut TransmissionControlBlock) -> Option<Message>
    ensures message { option_map message_of result ≡ first_of (tcb_of tcb.old).reassembly.ready }
    ensures rest { tcb_of tcb.new ≡ table.without_first_message (tcb_of tcb.old) }
{
    tcb.reassembly_queue.get_next_message()
}

fn tell_if(opens: bool, tcb: &mut TransmissionControlBlock)
    ensures { tcb_of tcb.new ≡ table.told_if opens (tcb_of tcb.old) }
{
    if opens {
        tcb.data_tracker.force_immediate_sack();
    }
}

/// Hands out the message that was ready first. With stalls avoided an acknowledgement is due where the window opens by it.
fn take_first(tcb: &mut TransmissionControlBlock, options: &Options) -> Option<Message>
    requires { IsValid (options_of options.now) }
    ensures message { option_map message_of result ≡ first_of (tcb_of tcb.old).reassembly.ready }
    ensures rest { tcb_of tcb.new ≡ table.message_taken (options_of options.now) (tcb_of tcb.old) }
{
    if !options.avoid_stalls {
        return first_message(tcb);
    }
    let before = tcb.reassembly_queue.remaining_bytes();
    let message = first_message(tcb);
    let after = tcb.reassembly_queue.remaining_bytes();
    tell_if(opens_window(options, before, after), tcb);
    message
}

/// Hands out the message that was ready first.
pub fn get_next_message(state: &mut State, options: &Options) -> Option<Message>
    requires { IsValid (options_of options.now) }
    ensures message { option_map message_of result ≡ first_of (table.ready_in (state_of state.old)) }
    ensures rest { state_of state.new ≡ table.message_taken_in (options_of options.now) (state_of state.old) }
{
    match state {
        State::Closed | State::CookieWait(_) => None,
        State::Open(_, tcb) => take_first(tcb, options),
    }
}
