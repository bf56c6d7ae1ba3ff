//! Two ends and all packets between them.

ghost use Rattle.std.specs.Prelude.{◌≡◌, List, ℕ, true, false, Some, None, [], ◌∷◌, drop, length, map, option_map, slice_get, IfOk, IfErr, OnOk, OnErr, Ok, Err};
ghost use Rattle.sctp_packet.specs.Grammar.{Each};
ghost use Rattle.sctp_state.specs.Options.{IsValid, options_of};
ghost use Rattle.sctp_network.specs.declared.world.WorldError.TheVariants.{Memory as no_memory};
ghost use Rattle.spec_endpoint.specs.Wire.{AreBytes};
ghost use Rattle.spec_world.specs.World.{MeetsForeign, Happens, Runs, IsDisabled, RunsUpToDisabled, Action, fresh_world, side_of, is_at_rest, TakesBytes, clock};
ghost use Rattle.proof_world.specs.FirstRun.{LeadsFirstRun, ContinuesFirstRun};
ghost use Rattle.spec_world.specs.Observations as observed;
ghost use Rattle.spec_world.specs.Observations.{Given};
ghost use Rattle.spec_world.specs.World as table;
ghost use Rattle.proof_world.specs.Agreed.{WorldAgrees, EachEndDrawsDistinctTags};
ghost use Rattle.proof_world.specs.Composed.{Composes};
ghost use Rattle.proof_world.specs.Consistent.{WorldKeepsRules};
ghost use Rattle.proof_world.specs.Delivered.{WorldDelivers};
ghost use Rattle.proof_world.specs.Few.{LogUsesFew};
ghost use Rattle.proof_world.specs.Reachable.{Origin, origin, initial_world, IsReachable, Continues};
ghost use Rattle.proof_awake.specs.Worlds.{EndsAreAwake, EndsHaveNoLine};
ghost use Rattle.sctp_network_side.specs.Interrupted.{StopsWithin, TakesBytesSo};
ghost use Rattle.sctp_network_side.specs.SideView.{action_of, call_tree, end_tree, entry_tree, side_in};
ghost use Rattle.sctp_network.specs.Interrupted.{IsMadeBy, RunsUpToFailure};
ghost use Rattle.sctp_network.specs.WorldView.{world_of};

mod pair;

use crate::arguments::{an_event_fits, events_fit};
pub use pair::run_pair;
use proof_endpoint::arguments::options_fit;
use rand_core::Rng;
use sctp_network_side::side::Side;
pub use sctp_network_side::{Answer, Call, End, Entry, Event};
use sctp_serial::SocketTime;
use sctp_state::{CallError, Options};
use sctp_wire::Checksum;
use std::alloc::{AllocError, Global};
use std::marker::Model;
use thiserror::Error;

/// Why an event didn't happen.
#[derive(Clone, Copy, Debug, PartialEq, Eq, Error)]
pub enum WorldError {
    /// Memory ran out, now or before: the world has failed.
    #[error("out of memory")]
    Memory = 1,
    /// The event names a packet that the other end didn't send.
    #[error("no such packet")]
    NoSuchPacket = 2,
}

impl From<AllocError> for WorldError {
    ghost from_gives = { λ _ e. e ≡ no_memory };

    fn from(_e: AllocError) -> WorldError {
        WorldError::Memory
    }
}

impl From<CallError> for WorldError {
    ghost from_gives = { λ _ e. e ≡ no_memory };

    fn from(_e: CallError) -> WorldError {
        WorldError::Memory
    }
}

/// Two ends, all packets that they sent, and the log.
#[derive(Drop)]
pub struct World<R: Rng, C: Checksum> {
    alloc: Global,
    a: Side<R, C>,
    b: Side<R, C>,
    log: Vec<Entry>,
    has_failed: bool,
}

impl<R: Rng, C: Checksum> Model for World<R, C> {
    ghost use Rattle.std.specs.Prelude.{map};
    ghost use Rattle.sctp_network_side.specs.SideView.{entry_tree};
    ghost use Rattle.sctp_network.specs.WorldView.{WorldValue};

    ghost Value = { WorldValue R C };

    ghost view = { λ w. record { a = w.a; b = w.b; log = map entry_tree w.log.items; has_failed = w.has_failed } };
}

impl<R: Rng + Drop, C: Checksum + Drop> World<R, C> {
    /// Two closed ends. Each has its own options, its generator and its checksum function. The error is `Memory`.
    pub fn new(
        alloc: Global,
        options_a: &Options,
        options_b: &Options,
        rng_a: R,
        rng_b: R,
        checksum_a: C,
        checksum_b: C,
    ) -> Result<World<R, C>, CallError>
        requires a { IsValid (options_of options_a.now) }
        requires b { IsValid (options_of options_b.now) }
        ensures world { IfOk result (λ w. world_of R.stream C.word_of w
            ≡ fresh_world (options_of options_a.now) (options_of options_b.now) (R.stream rng_a) (R.stream rng_b) (C.word_of checksum_a) (C.word_of checksum_b)) }
        ensures works { IfOk result (λ w. w.has_failed ≡ false) }
        ensures reachable { IfOk result (λ w. IsReachable (origin (options_of options_a.now) (options_of options_b.now) (R.stream rng_a) (R.stream rng_b) (C.word_of checksum_a) (C.word_of checksum_b))
            [] (world_of R.stream C.word_of w)) }
        ensures memory { IfErr result (λ e. e ≡ CallError.Memory) }
    {
        options_fit(options_a);
        options_fit(options_b);
        World::made(
            alloc, options_a, options_b, rng_a, rng_b, checksum_a, checksum_b,
        )
    }

    /// A new world, and what these events make of it: `World::new`, and then `run`. What the clauses conclude rests on what is handed in
    /// here: `delivers` gives the one run of these events from this new world. Its premises speak of the log, and of the packets that
    /// it numbers; `composes` has it for longer runs, by windows.
    pub fn after(
        alloc: Global,
        options_a: &Options,
        options_b: &Options,
        rng_a: R,
        rng_b: R,
        checksum_a: C,
        checksum_b: C,
        events: &[Event],
    ) -> Result<World<R, C>, WorldError>
        requires a { IsValid (options_of options_a.now) }
        requires b { IsValid (options_of options_b.now) }
        ensures delivers { IfOk result (λ w.
            let first = fresh_world (options_of options_a.now) (options_of options_b.now) (R.stream rng_a) (R.stream rng_b) (C.word_of checksum_a) (C.word_of checksum_b) in
            let last = world_of R.stream C.word_of w in (runs : Runs (map action_of events.now) first last)
            × (WorldKeepsRules last → LogUsesFew last.log → (x : observed.End) → WorldDelivers x (map action_of events.now) first last runs)) }
        ensures composes { IfOk result (λ w.
            let o = origin (options_of options_a.now) (options_of options_b.now) (R.stream rng_a) (R.stream rng_b) (C.word_of checksum_a) (C.word_of checksum_b) in
            (l : IsReachable o (map action_of events.now) (world_of R.stream C.word_of w)) × Composes o (map action_of events.now) (world_of R.stream C.word_of w) l.runs) }
        ensures agrees { IfOk result (λ w.
            let first = fresh_world (options_of options_a.now) (options_of options_b.now) (R.stream rng_a) (R.stream rng_b) (C.word_of checksum_a) (C.word_of checksum_b) in
            let last = world_of R.stream C.word_of w in (runs : Runs (map action_of events.now) first last)
            × (EachEndDrawsDistinctTags (map action_of events.now) first last runs → WorldAgrees last.log)) }
        ensures awake { IfOk result (λ w. EndsAreAwake (world_of R.stream C.word_of w)) }
        ensures no_line { IfOk result (λ w. EndsHaveNoLine (options_of options_a.now).max_burst (options_of options_b.now).max_burst (world_of R.stream C.word_of w)) }
        ensures works { IfOk result (λ w. w.has_failed ≡ false) }
        ensures stopped { IfErr result (λ e. e ≡ WorldError.NoSuchPacket → (v : table.World) × RunsUpToDisabled (map action_of events.now)
            (fresh_world (options_of options_a.now) (options_of options_b.now) (R.stream rng_a) (R.stream rng_b) (C.word_of checksum_a) (C.word_of checksum_b)) v) }
    {
        let mut world = World::new(
            alloc, options_a, options_b, rng_a, rng_b, checksum_a, checksum_b,
        )?;
        match run(&mut world, events) {
            Ok(()) => Ok(world),
            Err(fault) => {
                world.let_go();
                Err(fault)
            }
        }
    }

    fn made(
        alloc: Global,
        options_a: &Options,
        options_b: &Options,
        rng_a: R,
        rng_b: R,
        checksum_a: C,
        checksum_b: C,
    ) -> Result<World<R, C>, CallError>
        requires a { IsValid (options_of options_a.now) }
        requires b { IsValid (options_of options_b.now) }
        ensures world { IfOk result (λ w. world_of R.stream C.word_of w
            ≡ fresh_world (options_of options_a.now) (options_of options_b.now) (R.stream rng_a) (R.stream rng_b) (C.word_of checksum_a) (C.word_of checksum_b)) }
        ensures works { IfOk result (λ w. w.has_failed ≡ false) }
        ensures memory { IfErr result (λ e. e ≡ CallError.Memory) }
    {
        let a = Side::new(alloc, "a", options_a, rng_a, checksum_a)?;
        let b = match Side::new(alloc, "b", options_b, rng_b, checksum_b) {
            Ok(b) => b,
            Err(fault) => {
                a.let_go();
                return Err(fault);
            }
        };
        Ok(World {
            alloc,
            a,
            b,
            log: Vec::new(alloc),
            has_failed: false,
        })
    }

    /// Lets the world go.
    pub fn let_go(self) {
        self.a.let_go();
        self.b.let_go();
    }
}

impl<R: Rng, C: Checksum> World<R, C> {
    /// The packet of this number, from 0 on, that the end sent.
    pub fn packet(&self, end: End, number: usize) -> Option<&[u8]>
        ensures { option_map (λ bytes. bytes.now) result
            ≡ slice_get (side_of (end_tree end) (world_of R.stream C.word_of self.now)).packets number }
    {
        match end {
            End::A => self.a.packet(number),
            End::B => self.b.packet(number),
        }
    }

    /// What happened so far.
    pub fn log(&self) -> &[Entry]
        ensures { map entry_tree result.now ≡ self.now.log }
    {
        &self.log
    }

    /// Whether the end has nothing queued and keeps no item.
    pub fn is_at_rest(&self, end: End) -> bool
        ensures { result ≡ is_at_rest (end_tree end) (world_of R.stream C.word_of self.now) }
    {
        match end {
            End::A => self.a.socket.is_at_rest(),
            End::B => self.b.socket.is_at_rest(),
        }
    }

    /// How many packets the end sent.
    fn sent(&self, end: End) -> usize
        ensures { result ≡ length (side_of (end_tree end) (world_of R.stream C.word_of self.now)).packets }
    {
        match end {
            End::A => self.a.packets.len(),
            End::B => self.b.packets.len(),
        }
    }

    /// The packets that the end sent, from this number on, are bytes.
    fn sent_bytes(&self, end: End, first: usize)
        ensures bytes { Each AreBytes (drop first (side_of (end_tree end) (world_of R.stream C.word_of self.now)).packets) }
    {
        match end {
            End::A => self.a.are_bytes(first),
            End::B => self.b.are_bytes(first),
        }
    }

    fn happen(&mut self, event: &Event) -> Result<(), WorldError>
        ensures ok { OnOk result (Happens (action_of event.now) (world_of R.stream C.word_of self.old) (world_of R.stream C.word_of self.new)) }
        ensures works { OnOk result ((self.old.has_failed ≡ false) × (self.new.has_failed ≡ false)) }
        ensures disabled { IfErr result (λ e. e ≡ WorldError.NoSuchPacket → IsDisabled (action_of event.now) (world_of R.stream C.word_of self.old)) }
        ensures no_such_packet { self.old.has_failed ≡ false → IsDisabled (action_of event.now) (world_of R.stream C.word_of self.old) → result ≡ Err WorldError.NoSuchPacket }
        ensures same { IfErr result (λ e. e ≡ WorldError.NoSuchPacket → self.new ≡ self.old) }
        ensures unfailed { IfErr result (λ e. e ≡ WorldError.NoSuchPacket → self.new.has_failed ≡ false) }
        ensures cut { OnErr result (StopsWithin (IsMadeBy (action_of event.now) (world_of R.stream C.word_of self.old)) self.old.log self.new.log) }
        ensures memory { IfErr result (λ e. e ≡ WorldError.Memory → self.new.has_failed ≡ true) }
        ensures failed { self.old.has_failed ≡ true → result ≡ Err WorldError.Memory }
    {
        if self.has_failed {
            return Err(WorldError::Memory);
        }
        let answer = self.act(event);
        if answer == Err(WorldError::Memory) {
            self.has_failed = true;
        }
        answer
    }

    fn act(&mut self, event: &Event) -> Result<(), WorldError>
        ensures ok { OnOk result (Happens (action_of event.now) (world_of R.stream C.word_of self.old) (world_of R.stream C.word_of self.new)) }
        ensures disabled { IfErr result (λ e. e ≡ WorldError.NoSuchPacket → IsDisabled (action_of event.now) (world_of R.stream C.word_of self.old)) }
        ensures no_such_packet { IsDisabled (action_of event.now) (world_of R.stream C.word_of self.old) → result ≡ Err WorldError.NoSuchPacket }
        ensures same { IfErr result (λ e. e ≡ WorldError.NoSuchPacket → self.new ≡ self.old) }
        ensures cut { OnErr result (StopsWithin (IsMadeBy (action_of event.now) (world_of R.stream C.word_of self.old)) self.old.log self.new.log) }
        ensures failed { self.new.has_failed ≡ self.old.has_failed }
    {
        match event {
            Event::Call(end, call) => Ok(self.call(*end, call)?),
            Event::Give(number, end) => self.give(*end, *number),
            Event::Foreign(end, bytes) => Ok(self.inject(*end, bytes)?),
            Event::Time(end, now) => Ok(self.advance_time(*end, *now)?),
        }
    }

    /// An end makes a call.
    fn call(&mut self, end: End, call: &Call) -> Result<(), CallError>
        ensures ok { OnOk result (Happens (table.CallOf (end_tree end) (call_tree call.now)) (world_of R.stream C.word_of self.old) (world_of R.stream C.word_of self.new)) }
        ensures cut { OnErr result (StopsWithin (IsMadeBy (table.CallOf (end_tree end) (call_tree call.now)) (world_of R.stream C.word_of self.old)) self.old.log self.new.log) }
        ensures failed { self.new.has_failed ≡ self.old.has_failed }
    {
        match end {
            End::A => self.a.call(self.alloc, end, call, &mut self.log),
            End::B => self.b.call(self.alloc, end, call, &mut self.log),
        }
    }

    /// An end's time is advanced.
    fn advance_time(&mut self, end: End, now: SocketTime) -> Result<(), CallError>
        ensures ok { OnOk result (Happens (table.AdvanceTime (end_tree end) now) (world_of R.stream C.word_of self.old) (world_of R.stream C.word_of self.new)) }
        ensures cut { OnErr result (StopsWithin (IsMadeBy (table.AdvanceTime (end_tree end) now) (world_of R.stream C.word_of self.old)) self.old.log self.new.log) }
        ensures failed { self.new.has_failed ≡ self.old.has_failed }
    {
        match end {
            End::A => self.a.advance_time(end, now, &mut self.log),
            End::B => self.b.advance_time(end, now, &mut self.log),
        }
    }

    /// An end is given the packet of this number of the other one.
    fn give(&mut self, end: End, number: usize) -> Result<(), WorldError>
        ensures ok { OnOk result (Happens (table.Give number (end_tree end)) (world_of R.stream C.word_of self.old) (world_of R.stream C.word_of self.new)) }
        ensures disabled { IfErr result (λ e. e ≡ WorldError.NoSuchPacket → IsDisabled (table.Give number (end_tree end)) (world_of R.stream C.word_of self.old)) }
        ensures no_such_packet { IsDisabled (table.Give number (end_tree end)) (world_of R.stream C.word_of self.old) → result ≡ Err WorldError.NoSuchPacket }
        ensures same { IfErr result (λ e. e ≡ WorldError.NoSuchPacket → self.new ≡ self.old) }
        ensures cut { OnErr result (StopsWithin (IsMadeBy (table.Give number (end_tree end)) (world_of R.stream C.word_of self.old)) self.old.log self.new.log) }
        ensures failed { self.new.has_failed ≡ self.old.has_failed }
    {
        match end {
            End::A => give(end, number, &mut self.a, &self.b, &mut self.log),
            End::B => give(end, number, &mut self.b, &self.a, &mut self.log),
        }
    }

    /// Bytes from elsewhere come to an end.
    fn inject(&mut self, end: End, bytes: &[u8]) -> Result<(), CallError>
        ensures ok { OnOk result (MeetsForeign (end_tree end) bytes.now (world_of R.stream C.word_of self.old) (world_of R.stream C.word_of self.new)) }
        ensures cut { OnErr result (StopsWithin (IsMadeBy (table.GiveForeign (end_tree end) bytes.now) (world_of R.stream C.word_of self.old)) self.old.log self.new.log) }
        ensures failed { self.new.has_failed ≡ self.old.has_failed }
    {
        match end {
            End::A => self.a.inject(self.alloc, end, bytes, &mut self.log),
            End::B => self.b.inject(self.alloc, end, bytes, &mut self.log),
        }
    }

    fn proceed(&mut self, events: &[Event]) -> Result<(), WorldError>
        ensures ok { OnOk result (Runs (map action_of events.now) (world_of R.stream C.word_of self.old) (world_of R.stream C.word_of self.new)) }
        ensures works { OnOk result ((self.old.has_failed ≡ false) × (self.new.has_failed ≡ false)) }
        ensures disabled { IfErr result (λ e. e ≡ WorldError.NoSuchPacket
            → RunsUpToDisabled (map action_of events.now) (world_of R.stream C.word_of self.old) (world_of R.stream C.word_of self.new)) }
        ensures unfailed { IfErr result (λ e. e ≡ WorldError.NoSuchPacket → self.new.has_failed ≡ false) }
        ensures interrupted { IfErr result (λ e. e ≡ WorldError.Memory → self.old.has_failed ≡ false
            → RunsUpToFailure (map action_of events.now) (world_of R.stream C.word_of self.old) self.new.log) }
        ensures memory { IfErr result (λ e. e ≡ WorldError.Memory → self.new.has_failed ≡ true) }
        ensures failed { self.old.has_failed ≡ true → result ≡ Err WorldError.Memory }
    {
        if self.has_failed {
            return Err(WorldError::Memory);
        }
        self.run_each(events)
    }

    fn run_each(&mut self, events: &[Event]) -> Result<(), WorldError>
        ensures ok { OnOk result (Runs (map action_of events.now) (world_of R.stream C.word_of self.old) (world_of R.stream C.word_of self.new)) }
        ensures disabled { IfErr result (λ e. e ≡ WorldError.NoSuchPacket
            → RunsUpToDisabled (map action_of events.now) (world_of R.stream C.word_of self.old) (world_of R.stream C.word_of self.new)) }
        ensures works { self.old.has_failed ≡ false → OnOk result (self.new.has_failed ≡ false) }
        ensures unfailed { IfErr result (λ e. e ≡ WorldError.NoSuchPacket → self.new.has_failed ≡ false) }
        ensures interrupted { IfErr result (λ e. e ≡ WorldError.Memory → self.old.has_failed ≡ false
            → RunsUpToFailure (map action_of events.now) (world_of R.stream C.word_of self.old) self.new.log) }
        ensures memory { IfErr result (λ e. e ≡ WorldError.Memory → self.new.has_failed ≡ true) }
    {
        for event in events {
            self.happen(event)?;
        }
        Ok(())
    }
}

/// Makes one event happen. Where the packet that it names isn't there, the world stands as before. Once memory ran out, it has
/// failed, and answers so from then on. Each packet that an end sends has at most the bytes of its `mtu`.
pub fn step<R: Rng, C: Checksum>(world: &mut World<R, C>, event: &Event) -> Result<(), WorldError>
    ensures ok { OnOk result (Happens (action_of event.now) (world_of R.stream C.word_of world.old) (world_of R.stream C.word_of world.new)) }
    ensures works { OnOk result ((world.old.has_failed ≡ false) × (world.new.has_failed ≡ false)) }
    ensures disabled { IfErr result (λ e. e ≡ WorldError.NoSuchPacket → IsDisabled (action_of event.now) (world_of R.stream C.word_of world.old)) }
    ensures no_such_packet { world.old.has_failed ≡ false → IsDisabled (action_of event.now) (world_of R.stream C.word_of world.old) → result ≡ Err WorldError.NoSuchPacket }
    ensures same { IfErr result (λ e. e ≡ WorldError.NoSuchPacket → world.new ≡ world.old) }
    ensures unfailed { IfErr result (λ e. e ≡ WorldError.NoSuchPacket → world.new.has_failed ≡ false) }
    ensures interrupted { OnErr result (StopsWithin (IsMadeBy (action_of event.now) (world_of R.stream C.word_of world.old)) world.old.log world.new.log) }
    ensures memory { IfErr result (λ e. e ≡ WorldError.Memory → world.new.has_failed ≡ true) }
    ensures failed { world.old.has_failed ≡ true → result ≡ Err WorldError.Memory }
    ensures first_run { OnOk result (LeadsFirstRun (action_of event.now ∷ []) (world_of R.stream C.word_of world.old) (world_of R.stream C.word_of world.new)) }
    ensures nothing_lacks { IfErr result (λ e. ContinuesFirstRun (action_of event.now ∷ []) (world_of R.stream C.word_of world.old) → e ≡ WorldError.Memory) }
    ensures reachable { OnOk result (Continues (action_of event.now ∷ []) (world_of R.stream C.word_of world.old) (world_of R.stream C.word_of world.new)) }
    ensures composes { (o : Origin) (actions : List Action) (l : IsReachable o actions (world_of R.stream C.word_of world.new)) → Composes o actions (world_of R.stream C.word_of world.new) l.runs }
    ensures agrees { (o : Origin) (actions : List Action) (l : IsReachable o actions (world_of R.stream C.word_of world.new))
        → EachEndDrawsDistinctTags actions (initial_world o) (world_of R.stream C.word_of world.new) l.runs → WorldAgrees (world_of R.stream C.word_of world.new).log }
    ensures awake { (o : Origin) (actions : List Action) → IsReachable o actions (world_of R.stream C.word_of world.new) → EndsAreAwake (world_of R.stream C.word_of world.new) }
    ensures no_line { (o : Origin) (actions : List Action) → IsReachable o actions (world_of R.stream C.word_of world.new)
        → EndsHaveNoLine o.a.max_burst o.b.max_burst (world_of R.stream C.word_of world.new) }
{
    let a = world.sent(End::A);
    let b = world.sent(End::B);
    let answer = world.happen(event);
    an_event_fits(event);
    world.sent_bytes(End::A, a);
    world.sent_bytes(End::B, b);
    answer
}

/// Makes events happen, one after the other, up to the first that doesn't; `step` says how it then stands.
pub fn run<R: Rng, C: Checksum>(world: &mut World<R, C>, events: &[Event]) -> Result<(), WorldError>
    ensures ok { OnOk result (Runs (map action_of events.now) (world_of R.stream C.word_of world.old) (world_of R.stream C.word_of world.new)) }
    ensures works { OnOk result ((world.old.has_failed ≡ false) × (world.new.has_failed ≡ false)) }
    ensures disabled { IfErr result (λ e. e ≡ WorldError.NoSuchPacket
        → RunsUpToDisabled (map action_of events.now) (world_of R.stream C.word_of world.old) (world_of R.stream C.word_of world.new)) }
    ensures unfailed { IfErr result (λ e. e ≡ WorldError.NoSuchPacket → world.new.has_failed ≡ false) }
    ensures interrupted { IfErr result (λ e. e ≡ WorldError.Memory → world.old.has_failed ≡ false
        → RunsUpToFailure (map action_of events.now) (world_of R.stream C.word_of world.old) world.new.log) }
    ensures memory { IfErr result (λ e. e ≡ WorldError.Memory → world.new.has_failed ≡ true) }
    ensures failed { world.old.has_failed ≡ true → result ≡ Err WorldError.Memory }
    ensures first_run { OnOk result (LeadsFirstRun (map action_of events.now) (world_of R.stream C.word_of world.old) (world_of R.stream C.word_of world.new)) }
    ensures nothing_lacks { IfErr result (λ e. ContinuesFirstRun (map action_of events.now) (world_of R.stream C.word_of world.old) → e ≡ WorldError.Memory) }
    ensures reachable { OnOk result (Continues (map action_of events.now) (world_of R.stream C.word_of world.old) (world_of R.stream C.word_of world.new)) }
    ensures no_such_packet { OnOk result ((v : table.World) → RunsUpToDisabled (map action_of events.now) (world_of R.stream C.word_of world.old) v → ⊥) }
    ensures stopped { IfErr result (λ e. e ≡ WorldError.NoSuchPacket → (k : RunsUpToDisabled (map action_of events.now) (world_of R.stream C.word_of world.old) (world_of R.stream C.word_of world.new))
        × Continues k.before (world_of R.stream C.word_of world.old) (world_of R.stream C.word_of world.new)) }
    ensures composes { (o : Origin) (actions : List Action) (l : IsReachable o actions (world_of R.stream C.word_of world.new)) → Composes o actions (world_of R.stream C.word_of world.new) l.runs }
    ensures agrees { (o : Origin) (actions : List Action) (l : IsReachable o actions (world_of R.stream C.word_of world.new))
        → EachEndDrawsDistinctTags actions (initial_world o) (world_of R.stream C.word_of world.new) l.runs → WorldAgrees (world_of R.stream C.word_of world.new).log }
    ensures awake { (o : Origin) (actions : List Action) → IsReachable o actions (world_of R.stream C.word_of world.new) → EndsAreAwake (world_of R.stream C.word_of world.new) }
    ensures no_line { (o : Origin) (actions : List Action) → IsReachable o actions (world_of R.stream C.word_of world.new)
        → EndsHaveNoLine o.a.max_burst o.b.max_burst (world_of R.stream C.word_of world.new) }
{
    let a = world.sent(End::A);
    let b = world.sent(End::B);
    let answer = world.proceed(events);
    events_fit(events);
    world.sent_bytes(End::A, a);
    world.sent_bytes(End::B, b);
    answer
}

/// Gives an end the packet of this number of the other one.
fn give<R: Rng, C: Checksum>(
    end: End,
    number: usize,
    to: &mut Side<R, C>,
    from: &Side<R, C>,
    log: &mut Vec<Entry>,
) -> Result<(), WorldError>
    ensures ok { OnOk result ((bytes : List ℕ) × (slice_get from.now.packets number ≡ Some bytes)
        × TakesBytes (end_tree end) (Given (end_tree end) (clock (side_in R.stream C.word_of to.old).socket) number) bytes (side_in R.stream C.word_of to.old) (side_in R.stream C.word_of to.new) (map entry_tree log.old.items) (map entry_tree log.new.items)) }
    ensures disabled { IfErr result (λ e. e ≡ WorldError.NoSuchPacket → slice_get from.now.packets number ≡ None) }
    ensures no_such_packet { slice_get from.now.packets number ≡ None → result ≡ Err WorldError.NoSuchPacket }
    ensures cut { OnErr result (StopsWithin (λ longer. (bytes : List ℕ) × (slice_get from.now.packets number ≡ Some bytes)
        × TakesBytesSo (end_tree end) (Given (end_tree end) (clock (side_in R.stream C.word_of to.old).socket) number) bytes
        (side_in R.stream C.word_of to.old) (map entry_tree log.old.items) longer) (map entry_tree log.old.items) (map entry_tree log.new.items)) }
    ensures side { IfErr result (λ e. e ≡ WorldError.NoSuchPacket → to.new ≡ to.old) }
    ensures log { IfErr result (λ e. e ≡ WorldError.NoSuchPacket → log.new ≡ log.old) }
{
    let Some(bytes) = from.packet(number) else {
        return Err(WorldError::NoSuchPacket);
    };
    Ok(to.receive(end, number, bytes, log)?)
}
