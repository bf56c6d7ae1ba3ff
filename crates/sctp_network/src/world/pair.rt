//! Two worlds that the same events lead on.

ghost use Rattle.std.specs.Prelude.{◌≡◌, ◌⊎◌, true, false, List, [], ◌∷◌, map, IfErr, OnOk, Err};
ghost use Rattle.spec_world.specs.World.{Action, Happens, IsDisabled};
ghost use Rattle.proof_world.specs.Reachable.{initial_world, IsReachable, Continues};
ghost use Rattle.proof_world.specs.Alike.{TwoOrigins, first_origin, second_origin, AreComparable, ShowAlong};
ghost use Rattle.proof_world.specs.Pairs.{Both, BothUpToLack, RanOut};
ghost use Rattle.sctp_network_side.specs.SideView.{action_of};
ghost use Rattle.sctp_network.specs.WorldView.{world_of};

use crate::arguments::events_fit;
use crate::world::{End, Event, World, WorldError};
use rand_core::Rng;
use sctp_wire::Checksum;

/// Makes events happen in two worlds, one after the other, in the first world first. Before an event that names a packet it looks
/// whether both have it: where one lacks it the answer is `NoSuchPacket`, and both stand as before that event. The first error ends
/// it; where memory ran out in the first world, the second isn't stepped. Where it ran out before, in either, the answer is `Memory`.
///
/// Two worlds that began with the same options in pairs and one checksum function, and were led by the same events, show the same whatever
/// words their ends drew, until an end of the first emits that an association is over, and up to and with the event in which it does.
/// Asked for, until then, is that the first follows the rules, that no bytes come from elsewhere, and that no tag is drawn twice in either.
pub fn run_pair<R: Rng, S: Rng, C: Checksum>(
    first: &mut World<R, C>,
    second: &mut World<S, C>,
    events: &[Event],
) -> Result<(), WorldError>
    ensures ok { OnOk result (Both (map action_of events.now) (world_of R.stream C.word_of first.old) (world_of S.stream C.word_of second.old)
        (world_of R.stream C.word_of first.new) (world_of S.stream C.word_of second.new)) }
    ensures works { OnOk result ((first.new.has_failed ≡ false) × (second.new.has_failed ≡ false)) }
    ensures disabled { IfErr result (λ e. e ≡ WorldError.NoSuchPacket → BothUpToLack (map action_of events.now)
        (world_of R.stream C.word_of first.old) (world_of S.stream C.word_of second.old)
        (world_of R.stream C.word_of first.new) (world_of S.stream C.word_of second.new)) }
    ensures unfailed { IfErr result (λ e. e ≡ WorldError.NoSuchPacket → (first.new.has_failed ≡ false) × (second.new.has_failed ≡ false)) }
    ensures memory { IfErr result (λ e. e ≡ WorldError.Memory → (first.new.has_failed ≡ true) ⊎ (second.new.has_failed ≡ true)) }
    ensures ran_out { first.old.has_failed ≡ false → second.old.has_failed ≡ false → IfErr result (λ e. e ≡ WorldError.Memory
        → RanOut (map action_of events.now) (world_of R.stream C.word_of first.old) (world_of S.stream C.word_of second.old)
        (world_of R.stream C.word_of first.new) (world_of S.stream C.word_of second.new) first.new.has_failed second.new.has_failed) }
    ensures failed { (first.old.has_failed ≡ true) ⊎ (second.old.has_failed ≡ true)
        → (result ≡ Err WorldError.Memory) × (first.new ≡ first.old) × (second.new ≡ second.old) }
    ensures reachable { OnOk result (Continues (map action_of events.now) (world_of R.stream C.word_of first.old) (world_of R.stream C.word_of first.new) × Continues (map action_of events.now) (world_of S.stream C.word_of second.old) (world_of S.stream C.word_of second.new)) }
    ensures stopped { IfErr result (λ e. e ≡ WorldError.NoSuchPacket → (k : BothUpToLack (map action_of events.now) (world_of R.stream C.word_of first.old) (world_of S.stream C.word_of second.old) (world_of R.stream C.word_of first.new) (world_of S.stream C.word_of second.new))
        × Continues k.before (world_of R.stream C.word_of first.old) (world_of R.stream C.word_of first.new) × Continues k.before (world_of S.stream C.word_of second.old) (world_of S.stream C.word_of second.new)) }
    ensures alike { (t : TwoOrigins) (actions : List Action) (p : IsReachable (first_origin t) actions (world_of R.stream C.word_of first.new))
        (q : IsReachable (second_origin t) actions (world_of S.stream C.word_of second.new)) → AreComparable t actions (world_of R.stream C.word_of first.new) (world_of S.stream C.word_of second.new) p.runs q.runs
        → ShowAlong actions (initial_world (first_origin t)) (initial_world (second_origin t)) (world_of R.stream C.word_of first.new) (world_of S.stream C.word_of second.new) p.runs q.runs }
{
    let first_a = first.sent(End::A);
    let first_b = first.sent(End::B);
    let second_a = second.sent(End::A);
    let second_b = second.sent(End::B);
    let answer = lead(first, second, events);
    events_fit(events);
    first.sent_bytes(End::A, first_a);
    first.sent_bytes(End::B, first_b);
    second.sent_bytes(End::A, second_a);
    second.sent_bytes(End::B, second_b);
    answer
}

fn lead<R: Rng, S: Rng, C: Checksum>(
    first: &mut World<R, C>,
    second: &mut World<S, C>,
    events: &[Event],
) -> Result<(), WorldError>
    ensures ok { OnOk result (Both (map action_of events.now) (world_of R.stream C.word_of first.old) (world_of S.stream C.word_of second.old)
        (world_of R.stream C.word_of first.new) (world_of S.stream C.word_of second.new)) }
    ensures works { OnOk result ((first.new.has_failed ≡ false) × (second.new.has_failed ≡ false)) }
    ensures disabled { IfErr result (λ e. e ≡ WorldError.NoSuchPacket → BothUpToLack (map action_of events.now)
        (world_of R.stream C.word_of first.old) (world_of S.stream C.word_of second.old)
        (world_of R.stream C.word_of first.new) (world_of S.stream C.word_of second.new)) }
    ensures unfailed { IfErr result (λ e. e ≡ WorldError.NoSuchPacket → (first.new.has_failed ≡ false) × (second.new.has_failed ≡ false)) }
    ensures memory { IfErr result (λ e. e ≡ WorldError.Memory → (first.new.has_failed ≡ true) ⊎ (second.new.has_failed ≡ true)) }
    ensures ran_out { first.old.has_failed ≡ false → second.old.has_failed ≡ false → IfErr result (λ e. e ≡ WorldError.Memory
        → RanOut (map action_of events.now) (world_of R.stream C.word_of first.old) (world_of S.stream C.word_of second.old)
        (world_of R.stream C.word_of first.new) (world_of S.stream C.word_of second.new) first.new.has_failed second.new.has_failed) }
    ensures failed { (first.old.has_failed ≡ true) ⊎ (second.old.has_failed ≡ true)
        → (result ≡ Err WorldError.Memory) × (first.new ≡ first.old) × (second.new ≡ second.old) }
{
    if first.has_failed || second.has_failed {
        return Err(WorldError::Memory);
    }
    lead_each(first, second, events)
}

/// As `lead`, where both worlds work.
fn lead_each<R: Rng, S: Rng, C: Checksum>(
    first: &mut World<R, C>,
    second: &mut World<S, C>,
    events: &[Event],
) -> Result<(), WorldError>
    requires first { first.now.has_failed ≡ false }
    requires second { second.now.has_failed ≡ false }
    ensures ok { OnOk result (Both (map action_of events.now) (world_of R.stream C.word_of first.old) (world_of S.stream C.word_of second.old)
        (world_of R.stream C.word_of first.new) (world_of S.stream C.word_of second.new)) }
    ensures works { OnOk result ((first.new.has_failed ≡ false) × (second.new.has_failed ≡ false)) }
    ensures disabled { IfErr result (λ e. e ≡ WorldError.NoSuchPacket → BothUpToLack (map action_of events.now)
        (world_of R.stream C.word_of first.old) (world_of S.stream C.word_of second.old)
        (world_of R.stream C.word_of first.new) (world_of S.stream C.word_of second.new)) }
    ensures unfailed { IfErr result (λ e. e ≡ WorldError.NoSuchPacket → (first.new.has_failed ≡ false) × (second.new.has_failed ≡ false)) }
    ensures ran_out { IfErr result (λ e. e ≡ WorldError.Memory
        → RanOut (map action_of events.now) (world_of R.stream C.word_of first.old) (world_of S.stream C.word_of second.old)
        (world_of R.stream C.word_of first.new) (world_of S.stream C.word_of second.new) first.new.has_failed second.new.has_failed) }
{
    for event in events {
        step_both(first, second, event)?;
    }
    Ok(())
}

/// Makes one event happen in both, where both have the packet that it names.
fn step_both<R: Rng, S: Rng, C: Checksum>(
    first: &mut World<R, C>,
    second: &mut World<S, C>,
    event: &Event,
) -> Result<(), WorldError>
    requires first { first.now.has_failed ≡ false }
    requires second { second.now.has_failed ≡ false }
    ensures first { OnOk result (Happens (action_of event.now) (world_of R.stream C.word_of first.old) (world_of R.stream C.word_of first.new)) }
    ensures second { OnOk result (Happens (action_of event.now) (world_of S.stream C.word_of second.old) (world_of S.stream C.word_of second.new)) }
    ensures works { OnOk result ((first.new.has_failed ≡ false) × (second.new.has_failed ≡ false)) }
    ensures disabled { IfErr result (λ e. e ≡ WorldError.NoSuchPacket
        → IsDisabled (action_of event.now) (world_of R.stream C.word_of first.old) ⊎ IsDisabled (action_of event.now) (world_of S.stream C.word_of second.old)) }
    ensures same { IfErr result (λ e. e ≡ WorldError.NoSuchPacket → (first.new ≡ first.old) × (second.new ≡ second.old)) }
    ensures ran_out { IfErr result (λ e. e ≡ WorldError.Memory
        → RanOut (action_of event.now ∷ []) (world_of R.stream C.word_of first.old) (world_of S.stream C.word_of second.old)
        (world_of R.stream C.word_of first.new) (world_of S.stream C.word_of second.new) first.new.has_failed second.new.has_failed) }
{
    if !has_packet(first, event) || !has_packet(second, event) {
        return Err(WorldError::NoSuchPacket);
    }
    first.happen(event)?;
    second.happen(event)
}

/// Whether the world has the packet that the event names, if it names one.
fn has_packet<R: Rng, C: Checksum>(world: &World<R, C>, event: &Event) -> bool
    ensures there { result ≡ true → IsDisabled (action_of event.now) (world_of R.stream C.word_of world.now) → ⊥ }
    ensures disabled { result ≡ false → IsDisabled (action_of event.now) (world_of R.stream C.word_of world.now) }
{
    match event {
        Event::Give(number, End::A) => world.packet(End::B, *number).is_some(),
        Event::Give(number, End::B) => world.packet(End::A, *number).is_some(),
        _ => true,
    }
}
