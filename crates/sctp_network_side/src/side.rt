//! One end of a network, with the packets that it ever sent.

ghost use Rattle.std.specs.Prelude.{◌≡◌, Some, None, true, false, [], ◌∷◌, ◌++◌, drop, length, map, option_map, slice_get, IfOk, IfErr, OnOk, OnErr};
ghost use Rattle.sctp_packet.specs.Grammar.{Each};
ghost use Rattle.sctp_state.specs.Events.{event_of, given_up_of};
ghost use Rattle.sctp_state.specs.Options.{IsValid, options_of};
ghost use Rattle.spec_endpoint.specs.Calls.{ready_in};
ghost use Rattle.spec_endpoint.specs.Shown.{association_in};
ghost use Rattle.spec_endpoint.specs.Wire.{AreBytes};
ghost use Rattle.sctp_association.specs.Socket.{association_of, endpoint};
ghost use Rattle.spec_world.specs.Observations.{Given, Foreign, GaveUp, same_association};
ghost use Rattle.spec_world.specs.World as table;
ghost use Rattle.spec_world.specs.World.{fresh_side, associated_unless, TakesBytes, take_emitted, news, emitted_entries, given_up_entries, ready_entries, after_call, after_time, clock, call_entry};
ghost use Rattle.spec_endpoint.specs.Packets.{packets_in};
ghost use Rattle.sctp_network_side.specs.Interrupted.{IsCut, StopsWithin, TakesBytesSo, MeetsForeignSo};
ghost use Rattle.sctp_network_side.specs.SideView.{call_tree, end_tree, entry_tree, ready_entry, side_in, without_events, without_records};

use crate::calling::make_call;
use crate::log::{Call, End, Entry, copy_of, copy_of_call};
use rand_core::Rng;
use sctp_association::{Association, DcSctpSocket, Socket};
use sctp_serial::SocketTime;
use sctp_state::{CallError, GivenUp, Options, SocketEvent};
use sctp_wire::Checksum;
use std::alloc::{AllocError, Global};
use std::marker::Model;

/// An end, and the packets that it ever sent.
#[derive(Drop)]
pub struct Side<R: Rng, C: Checksum> {
    pub socket: Socket<R, C>,
    pub packets: Vec<Vec<u8>>,
}

impl<R: Rng, C: Checksum> Model for Side<R, C> {
    ghost use Rattle.std.specs.Prelude.{map};
    ghost use Rattle.sctp_network_side.specs.SideView.{SideValue};

    ghost Value = { SideValue R C };

    ghost view = { λ s. record { socket = s.socket; packets = map (λ bytes. bytes.items) s.packets.items } };
}

/// What is remembered of an end while an event happens.
#[derive(Clone, Copy)]
struct Before {
    association: Option<Association>,
    ready: usize,
}

impl<R: Rng + Drop, C: Checksum + Drop> Side<R, C> {
    /// A new socket, which has sent nothing. The error is `Memory`.
    pub fn new(
        alloc: Global,
        name: &str,
        options: &Options,
        rng: R,
        checksum: C,
    ) -> Result<Side<R, C>, CallError>
        requires { IsValid (options_of options.now) }
        ensures side { IfOk result (λ side. side_in R.stream C.word_of side ≡ fresh_side (options_of options.now) (R.stream rng) (C.word_of checksum)) }
        ensures memory { IfErr result (λ e. e ≡ CallError.Memory) }
    {
        Ok(Side {
            socket: Socket::new(alloc, name, options, rng, checksum)?,
            packets: Vec::new(alloc),
        })
    }

    /// Lets the end go.
    pub fn let_go(self) {
        self.socket.let_go();
    }
}

impl<R: Rng, C: Checksum> Side<R, C> {
    /// The packet of this number.
    pub fn packet(&self, number: usize) -> Option<&[u8]>
        ensures { option_map (λ bytes. bytes.now) result ≡ slice_get self.now.packets number }
    {
        match self.packets.get(number) {
            Some(bytes) => Some(bytes),
            None => None,
        }
    }

    /// The packets from this number on are bytes.
    pub fn are_bytes(&self, first: usize)
        ensures bytes { Each AreBytes (drop first self.now.packets) }
    {
        if let Some(packets) = self.packets.get(first..) {
            packets_fit(packets);
        }
    }

    fn before(&self) -> Before
        ensures association { option_map association_of result.association ≡ association_in self.now.socket.state }
        ensures ready { result.ready ≡ length (ready_in self.now.socket.state) }
    {
        Before {
            association: self.socket.association(),
            ready: self.socket.messages_ready_count(),
        }
    }

    /// Logs the entry, takes all that the end emitted, and logs what is new.
    fn settle(
        &mut self,
        end: End,
        first: Entry,
        before: Before,
        log: &mut Vec<Entry>,
    ) -> Result<(), AllocError>
        ensures side { OnOk result (side_in R.stream C.word_of self.new
            ≡ take_emitted (side_in R.stream C.word_of self.old) (endpoint R.stream C.word_of self.old.socket)) }
        ensures log { OnOk result (map entry_tree log.new.items ≡ map entry_tree log.old.items
            ++ entry_tree first ∷ news (end_tree end) (length self.old.packets) before.ready (option_map association_of before.association)
            (endpoint R.stream C.word_of self.old.socket)) }
        ensures cut { OnErr result (IsCut (map entry_tree log.old.items) (map entry_tree log.old.items
            ++ entry_tree first ∷ news (end_tree end) (length self.old.packets) before.ready (option_map association_of before.association)
            (endpoint R.stream C.word_of self.old.socket)) (map entry_tree log.new.items)) }
    {
        log.push(first)?;
        let association = self.socket.association();
        let is_same = is_same(before.association, association);
        log_association(end, is_same, association, log)?;
        take_events(&mut self.socket, &mut self.packets, end, log)?;
        take_given_up(&mut self.socket, end, log)?;
        let place = if is_same { before.ready } else { 0 };
        log_ready(*log.allocator(), &self.socket, end, place, log)
    }

    /// Makes a call, and logs it with what it answered and what came of it.
    pub fn call(
        &mut self,
        alloc: Global,
        end: End,
        call: &Call,
        log: &mut Vec<Entry>,
    ) -> Result<(), CallError>
        ensures side { OnOk result (side_in R.stream C.word_of self.new
            ≡ take_emitted (side_in R.stream C.word_of self.old) (after_call (call_tree call.now) (endpoint R.stream C.word_of self.old.socket))) }
        ensures log { OnOk result (map entry_tree log.new.items ≡ map entry_tree log.old.items
            ++ call_entry (end_tree end) (call_tree call.now) (endpoint R.stream C.word_of self.old.socket)
            ∷ table.news_of (end_tree end) (side_in R.stream C.word_of self.old)
            (after_call (call_tree call.now) (endpoint R.stream C.word_of self.old.socket))) }
        ensures cut { OnErr result (IsCut (map entry_tree log.old.items) (map entry_tree log.old.items
            ++ call_entry (end_tree end) (call_tree call.now) (endpoint R.stream C.word_of self.old.socket)
            ∷ table.news_of (end_tree end) (side_in R.stream C.word_of self.old)
            (after_call (call_tree call.now) (endpoint R.stream C.word_of self.old.socket))) (map entry_tree log.new.items)) }
    {
        let before = self.before();
        let clock = self.socket.clock();
        let copy = copy_of_call(alloc, call)?;
        let answer = match make_call(alloc, call, &mut self.socket) {
            Ok(answer) => answer,
            Err(fault) => {
                drop(copy);
                return Err(fault);
            }
        };
        let first = Entry::Call(end, clock, copy, answer);
        Ok(self.settle(end, first, before, log)?)
    }

    /// The end's time is advanced.
    pub fn advance_time(
        &mut self,
        end: End,
        now: SocketTime,
        log: &mut Vec<Entry>,
    ) -> Result<(), CallError>
        ensures side { OnOk result (side_in R.stream C.word_of self.new
            ≡ take_emitted (side_in R.stream C.word_of self.old) (after_time now (endpoint R.stream C.word_of self.old.socket))) }
        ensures log { OnOk result (map entry_tree log.new.items ≡ map entry_tree log.old.items
            ++ table.time_entry (end_tree end) now (endpoint R.stream C.word_of self.old.socket)
            ∷ table.news_of (end_tree end) (side_in R.stream C.word_of self.old) (after_time now (endpoint R.stream C.word_of self.old.socket))) }
        ensures cut { OnErr result (IsCut (map entry_tree log.old.items) (map entry_tree log.old.items
            ++ table.time_entry (end_tree end) now (endpoint R.stream C.word_of self.old.socket)
            ∷ table.news_of (end_tree end) (side_in R.stream C.word_of self.old) (after_time now (endpoint R.stream C.word_of self.old.socket)))
            (map entry_tree log.new.items)) }
    {
        let before = self.before();
        self.socket.advance_time(now)?;
        let first = Entry::Time(end, self.socket.clock(), now);
        Ok(self.settle(end, first, before, log)?)
    }

    /// Takes the bytes of a packet, of which the log has this entry first.
    fn take(
        &mut self,
        end: End,
        first: Entry,
        bytes: &[u8],
        log: &mut Vec<Entry>,
    ) -> Result<(), CallError>
        ensures taken { OnOk result (TakesBytes (end_tree end) (entry_tree first) bytes.now
            (side_in R.stream C.word_of self.old) (side_in R.stream C.word_of self.new) (map entry_tree log.old.items) (map entry_tree log.new.items)) }
        ensures cut { OnErr result (StopsWithin (TakesBytesSo (end_tree end) (entry_tree first) bytes.now (side_in R.stream C.word_of self.old) (map entry_tree log.old.items))
            (map entry_tree log.old.items) (map entry_tree log.new.items)) }
    {
        let before = self.before();
        self.socket.handle_input(bytes)?;
        Ok(self.settle(end, first, before, log)?)
    }

    /// The packet of this number, with these bytes, is given to the end.
    pub fn receive(
        &mut self,
        end: End,
        packet: usize,
        bytes: &[u8],
        log: &mut Vec<Entry>,
    ) -> Result<(), CallError>
        ensures taken { OnOk result (let old = side_in R.stream C.word_of self.old in TakesBytes (end_tree end) (Given (end_tree end) (clock old.socket) packet) bytes.now
            old (side_in R.stream C.word_of self.new) (map entry_tree log.old.items) (map entry_tree log.new.items)) }
        ensures cut { OnErr result (let old = side_in R.stream C.word_of self.old in
            StopsWithin (TakesBytesSo (end_tree end) (Given (end_tree end) (clock old.socket) packet) bytes.now old (map entry_tree log.old.items))
            (map entry_tree log.old.items) (map entry_tree log.new.items)) }
    {
        let first = Entry::Give(end, self.socket.clock(), packet);
        self.take(end, first, bytes, log)
    }

    /// Bytes from elsewhere that the end refuses come to it.
    fn receive_foreign(
        &mut self,
        alloc: Global,
        end: End,
        bytes: &[u8],
        log: &mut Vec<Entry>,
    ) -> Result<(), CallError>
        ensures taken { OnOk result (let old = side_in R.stream C.word_of self.old in
            TakesBytes (end_tree end) (Foreign (end_tree end) (clock old.socket) (Some bytes.now)) bytes.now
            old (side_in R.stream C.word_of self.new) (map entry_tree log.old.items) (map entry_tree log.new.items)) }
        ensures cut { OnErr result (let old = side_in R.stream C.word_of self.old in
            StopsWithin (TakesBytesSo (end_tree end) (Foreign (end_tree end) (clock old.socket) (Some bytes.now)) bytes.now old (map entry_tree log.old.items))
            (map entry_tree log.old.items) (map entry_tree log.new.items)) }
    {
        let copy = Vec::from_slice(alloc, bytes)?;
        let first = Entry::Foreign(end, self.socket.clock(), Some(copy));
        self.take(end, first, bytes, log)
    }

    /// Bytes from elsewhere are skipped.
    fn skip(&self, end: End, log: &mut Vec<Entry>) -> Result<(), AllocError>
        ensures log { OnOk result (map entry_tree log.new.items ≡ map entry_tree log.old.items
            ++ Foreign (end_tree end) (clock (endpoint R.stream C.word_of self.now.socket)) None ∷ []) }
        ensures kept { OnErr result (map entry_tree log.new.items ≡ map entry_tree log.old.items) }
    {
        log.push(Entry::Foreign(end, self.socket.clock(), None))?;
        Ok(())
    }

    /// Bytes from elsewhere come to the end, which are skipped where it wouldn't refuse them.
    pub fn inject(
        &mut self,
        alloc: Global,
        end: End,
        bytes: &[u8],
        log: &mut Vec<Entry>,
    ) -> Result<(), CallError>
        ensures met { OnOk result (table.MeetsForeignAt (end_tree end) bytes.now (side_in R.stream C.word_of self.old) (side_in R.stream C.word_of self.new)
            (map entry_tree log.old.items) (map entry_tree log.new.items)) }
        ensures cut { OnErr result (StopsWithin (MeetsForeignSo (end_tree end) bytes.now (side_in R.stream C.word_of self.old) (map entry_tree log.old.items))
            (map entry_tree log.old.items) (map entry_tree log.new.items)) }
    {
        if self.socket.refuses(bytes)? {
            self.receive_foreign(alloc, end, bytes, log)
        } else {
            Ok(self.skip(end, log)?)
        }
    }
}

/// Bytes are below 256.
pub fn bytes_fit(bytes: &[u8])
    ensures fit { AreBytes bytes.now }
{}

/// Packets are bytes.
fn packets_fit(packets: &[Vec<u8>])
    ensures fit { Each AreBytes (map (λ bytes. bytes.items) packets.now) }
{
    for bytes in packets {
        bytes_fit(bytes);
    }
}

fn is_same(old: Option<Association>, new: Option<Association>) -> bool
    ensures { result ≡ same_association (option_map association_of old) (option_map association_of new) }
{
    match (old, new) {
        (None, None) => true,
        (Some(old), Some(new)) => {
            old.my_tag == new.my_tag
                && old.my_initial_tsn == new.my_initial_tsn
                && old.peer_tag == new.peer_tag
                && old.peer_initial_tsn == new.peer_initial_tsn
        }
        _ => false,
    }
}

fn log_association(
    end: End,
    is_same: bool,
    association: Option<Association>,
    log: &mut Vec<Entry>,
) -> Result<(), AllocError>
    ensures log { OnOk result (map entry_tree log.new.items
        ≡ map entry_tree log.old.items ++ associated_unless is_same (end_tree end) (option_map association_of association)) }
    ensures kept { OnErr result (map entry_tree log.new.items ≡ map entry_tree log.old.items) }
{
    if !is_same {
        log.push(Entry::Association(end, association))?;
    }
    Ok(())
}

/// Logs an event; a packet is kept, and logged by its number.
fn take_event(
    event: SocketEvent,
    packets: &mut Vec<Vec<u8>>,
    end: End,
    log: &mut Vec<Entry>,
) -> Result<(), AllocError>
    ensures packets { OnOk result (map (λ bytes. bytes.items) packets.new.items
        ≡ map (λ bytes. bytes.items) packets.old.items ++ packets_in (event_of event ∷ [])) }
    ensures log { OnOk result (map entry_tree log.new.items
        ≡ map entry_tree log.old.items ++ emitted_entries (end_tree end) (length packets.old.items) (event_of event ∷ [])) }
    ensures kept { OnErr result (map entry_tree log.new.items ≡ map entry_tree log.old.items) }
{
    match event {
        SocketEvent::SendPacket(bytes) => {
            let number = packets.len();
            packets.push(bytes)?;
            log.push(Entry::Packet(end, number))?;
        }
        event => log.push(Entry::Event(end, event))?,
    }
    Ok(())
}

/// Takes all events that the end emitted.
fn take_events<R: Rng, C: Checksum>(
    socket: &mut Socket<R, C>,
    packets: &mut Vec<Vec<u8>>,
    end: End,
    log: &mut Vec<Entry>,
) -> Result<(), AllocError>
    ensures socket { OnOk result (socket.new ≡ without_events socket.old) }
    ensures packets { OnOk result (map (λ bytes. bytes.items) packets.new.items
        ≡ map (λ bytes. bytes.items) packets.old.items ++ packets_in socket.old.context.emitted.events) }
    ensures log { OnOk result (map entry_tree log.new.items
        ≡ map entry_tree log.old.items ++ emitted_entries (end_tree end) (length packets.old.items) socket.old.context.emitted.events) }
    ensures cut { OnErr result (IsCut (map entry_tree log.old.items) (map entry_tree log.old.items
        ++ emitted_entries (end_tree end) (length packets.old.items) socket.old.context.emitted.events) (map entry_tree log.new.items)) }
{
    while let Some(event) = socket.poll_event() {
        take_event(event, packets, end, log)?;
    }
    Ok(())
}

/// Takes the records of all messages that the end gave up.
fn take_given_up<R: Rng, C: Checksum>(
    socket: &mut Socket<R, C>,
    end: End,
    log: &mut Vec<Entry>,
) -> Result<(), AllocError>
    ensures socket { OnOk result (socket.new ≡ without_records socket.old) }
    ensures log { OnOk result (map entry_tree log.new.items
        ≡ map entry_tree log.old.items ++ given_up_entries (end_tree end) socket.old.context.emitted.given_up) }
    ensures cut { OnErr result (IsCut (map entry_tree log.old.items) (map entry_tree log.old.items
        ++ given_up_entries (end_tree end) socket.old.context.emitted.given_up) (map entry_tree log.new.items)) }
{
    while let Some(given_up) = socket.next_given_up() {
        log_given_up(given_up, end, log)?;
    }
    Ok(())
}

fn log_given_up(given_up: GivenUp, end: End, log: &mut Vec<Entry>) -> Result<(), AllocError>
    ensures log { OnOk result (map entry_tree log.new.items
        ≡ map entry_tree log.old.items ++ GaveUp (end_tree end) (given_up_of given_up) ∷ []) }
    ensures kept { OnErr result (map entry_tree log.new.items ≡ map entry_tree log.old.items) }
{
    log.push(Entry::GivenUp(end, given_up))?;
    Ok(())
}

/// Logs the messages that are ready, from this place on.
fn log_ready<R: Rng, C: Checksum>(
    alloc: Global,
    socket: &Socket<R, C>,
    end: End,
    first: usize,
    log: &mut Vec<Entry>,
) -> Result<(), AllocError>
    ensures log { OnOk result (map entry_tree log.new.items
        ≡ map entry_tree log.old.items ++ ready_entries (end_tree end) first (ready_in socket.now.state)) }
    ensures cut { OnErr result (IsCut (map entry_tree log.old.items) (map entry_tree log.old.items
        ++ ready_entries (end_tree end) first (ready_in socket.now.state)) (map entry_tree log.new.items)) }
{
    for place in first..socket.messages_ready_count() {
        log_message(alloc, socket, place, end, log)?;
    }
    Ok(())
}

fn log_message<R: Rng, C: Checksum>(
    alloc: Global,
    socket: &Socket<R, C>,
    place: usize,
    end: End,
    log: &mut Vec<Entry>,
) -> Result<(), AllocError>
    ensures log { OnOk result (map entry_tree log.new.items
        ≡ map entry_tree log.old.items ++ ready_entry (end_tree end) (slice_get (ready_in socket.now.state) place)) }
    ensures kept { OnErr result (map entry_tree log.new.items ≡ map entry_tree log.old.items) }
{
    if let Some(message) = socket.ready_message(place) {
        log.push(Entry::Ready(end, copy_of(alloc, message)?))?;
    }
    Ok(())
}
