//! What real events hand in fits: the fields of the values that a program has are no larger than their types let them be.

ghost use Rattle.std.specs.Prelude.{map, All};
ghost use Rattle.sctp_packet.specs.Grammar.{Each};
ghost use Rattle.proof_endpoint.specs.Sound.{ArgumentFits};
ghost use Rattle.spec_world.specs.World.{table_call};
ghost use Rattle.sctp_network_side.specs.SideView.{action_of, call_tree};
ghost use Rattle.sctp_network.specs.WorldView.{world_of};
ghost use Rattle.proof_world.specs.Reachable.{ActionFits};
ghost use Rattle.proof_world.specs.Readable as readable;
ghost use Rattle.proof_world.specs.Readable.{GivesBytes};

use crate::world::{Call, End, Event, World};
use proof_endpoint::arguments::{a_message_fits, a_stream_fits, messages_fit, streams_fit};
use rand_core::Rng;
use sctp_network_side::side::bytes_fit;
use sctp_wire::Checksum;

/// What a call hands in fits.
pub fn a_call_fits(call: &Call)
    ensures fits { ArgumentFits (table_call (call_tree call.now)) }
{
    match call {
        Call::Connect | Call::Shutdown | Call::Close => {}
        Call::Send(message, _) => a_message_fits(message),
        Call::SendMany(messages, _) => messages_fit(messages),
        Call::Receive => {}
        Call::Reset(streams) => streams_fit(streams),
        Call::SetPriority(stream, _) => a_stream_fits(stream),
        Call::SetMaxMessageSize(bytes) => {
            let _bytes = *bytes;
        }
        Call::SetLowThreshold(stream, _) => a_stream_fits(stream),
        Call::Handover => {}
    }
}

/// An event fits; bytes from elsewhere are bytes.
pub fn an_event_fits(event: &Event)
    ensures fits { ActionFits (action_of event.now) }
{
    match event {
        Event::Call(_, call) => a_call_fits(call),
        Event::Give(_, _) => {}
        Event::Foreign(_, bytes) => bytes_fit(bytes),
        Event::Time(_, _) => {}
    }
}

/// Each of these events fits.
pub fn events_fit(events: &[Event])
    ensures fit { All ActionFits (map action_of events.now) }
    ensures readable { Each readable.ActionArgumentsFit (map action_of events.now) }
{
    for event in events {
        an_event_fits(event);
    }
}

/// The packet of a world that an event gives is bytes.
pub fn an_event_gives_bytes<R: Rng, C: Checksum>(world: &World<R, C>, event: &Event)
    ensures bytes { GivesBytes (world_of R.stream C.word_of world.now) (action_of event.now) }
{
    match event {
        Event::Call(_, _) => {}
        Event::Give(number, End::A) => {
            if let Some(bytes) = world.packet(End::B, *number) {
                bytes_fit(bytes);
            }
        }
        Event::Give(number, End::B) => {
            if let Some(bytes) = world.packet(End::A, *number) {
                bytes_fit(bytes);
            }
        }
        Event::Foreign(_, _) | Event::Time(_, _) => {}
    }
}

/// The packets of a world that these events give are bytes.
pub fn events_give_bytes<R: Rng, C: Checksum>(world: &World<R, C>, events: &[Event])
    ensures bytes { Each (GivesBytes (world_of R.stream C.word_of world.now)) (map action_of events.now) }
{
    for event in events {
        an_event_gives_bytes(world, event);
    }
}
