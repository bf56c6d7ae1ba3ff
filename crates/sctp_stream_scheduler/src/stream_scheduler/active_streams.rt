//! The streams that have something to send, with their finish times.

ghost use Rattle.std.specs.Prelude.{◌≡◌, ◌<◌, ◌^◌, [], ◌∷◌, length, map, IfOk, IfSome, IfNone, OnOk, OnErr, None, Some, option_map};
ghost use Rattle.std.specs.Map.{keys_of, remove_entry};
ghost use Rattle.std.specs.Ordering.{nat_cmp};
ghost use Rattle.std.specs.BTreeMap.{IsOrdered, is_at, insert_entry};
ghost use Rattle.sctp_stream_scheduler.specs.StreamScheduler.{Indexes, IsNext, finish_time, best, stream_in};

use sctp_serial::StreamId;
use std::alloc::{AllocError, Global};
use std::collections::{BTreeMap, BTreeSet};
use std::marker::Model;

/// The finish times of the active streams, and which is the least. A stream that enters where no other is active stands in a
/// field until another enters, so that most associations enter and leave no map.
#[derive(Drop)]
pub struct ActiveStreams {
    // the one that is active, where the maps have none
    only: Option<(u16, u128)>,
    finish_times: BTreeMap<u16, u128>,
    // the same by time
    turns: BTreeSet<(u128, u16)>,
}

impl Model for ActiveStreams {
    ghost use Rattle.sctp_stream_scheduler.specs.StreamScheduler.{Times, Indexes, IsOnly, times_of};

    ghost Value = { Times };

    ghost view = { λ a. times_of a.only a.finish_times.entries };

    ghost invariant = { λ a. Indexes a.turns.keys a.finish_times.entries × IsOnly a.only a.finish_times.entries };
}

/// Takes a stream out.
fn leave(
    finish_times: &mut BTreeMap<u16, u128>,
    turns: &mut BTreeSet<(u128, u16)>,
    id: u16,
) -> Option<u128>
    requires { Indexes turns.old.keys finish_times.old.entries }
    ensures time { result ≡ finish_time id finish_times.old.entries }
    ensures times { finish_times.new.entries ≡ remove_entry (is_at (nat_cmp id)) finish_times.old.entries }
    ensures removed { finish_time id finish_times.new.entries ≡ None }
    ensures indexed { Indexes turns.new.keys finish_times.new.entries }
{
    let finish = finish_times.remove(&id)?;
    turns.remove(&(finish, id));
    Some(finish)
}

/// Puts in a stream that isn't there.
fn enter(
    finish_times: &mut BTreeMap<u16, u128>,
    turns: &mut BTreeSet<(u128, u16)>,
    id: u16,
    finish: u128,
) -> Result<(), AllocError>
    requires absent { finish_time id finish_times.old.entries ≡ None }
    requires index { Indexes turns.old.keys finish_times.old.entries }
    ensures ok { OnOk result (finish_times.new.entries ≡ insert_entry nat_cmp finish_times.old.entries id finish) }
    ensures err { OnErr result (finish_times.new.entries ≡ finish_times.old.entries) }
    ensures indexed { Indexes turns.new.keys finish_times.new.entries }
{
    turns.insert((finish, id))?;
    match finish_times.insert(id, finish) {
        Ok(_) => Ok(()),
        Err(_) => {
            turns.remove(&(finish, id));
            Err(AllocError)
        }
    }
}

/// Gives a stream that is there another time. Without memory nothing changes.
fn renew(
    finish_times: &mut BTreeMap<u16, u128>,
    turns: &mut BTreeSet<(u128, u16)>,
    id: u16,
    finish: u128,
    next: u128,
) -> Result<(), AllocError>
    requires there { finish_time id finish_times.old.entries ≡ Some finish }
    requires index { Indexes turns.old.keys finish_times.old.entries }
    ensures ok { OnOk result (finish_times.new.entries ≡ insert_entry nat_cmp (remove_entry (is_at (nat_cmp id)) finish_times.old.entries) id next) }
    ensures absent { OnOk result (finish_time id (remove_entry (is_at (nat_cmp id)) finish_times.old.entries) ≡ None) }
    ensures err { OnErr result (finish_times.new.entries ≡ finish_times.old.entries) }
    ensures indexed { Indexes turns.new.keys finish_times.new.entries }
{
    if next == finish {
        finish_times.insert(id, next)?;
        return Ok(());
    }
    turns.insert((next, id))?;
    turns.remove(&(finish, id));
    finish_times.insert(id, next)?;
    Ok(())
}

fn first_turn(finish_times: &BTreeMap<u16, u128>, turns: &BTreeSet<(u128, u16)>) -> Option<u16>
    requires { Indexes turns.now.keys finish_times.now.entries }
    ensures value { result ≡ option_map stream_in (best None finish_times.now.entries) }
    ensures next { IfSome result (IsNext finish_times.now.entries) }
    ensures none { IfNone result (finish_times.now.entries ≡ []) }
    ensures ordered { IsOrdered nat_cmp finish_times.now }
{
    // (what a map keeps is known once it is read)
    let _count = finish_times.len();
    match turns.first() {
        Some(turn) => Some(turn.1),
        None => None,
    }
}

/// The streams of a map, ascending.
fn keys(alloc: Global, finish_times: &BTreeMap<u16, u128>) -> Result<Vec<StreamId>, AllocError>
    ensures { IfOk result (λ ids. map (λ id. id.0) ids.items ≡ keys_of finish_times.now.entries) }
{
    let mut ids = Vec::new(alloc);
    for (id, _) in finish_times {
        ids.push(StreamId(*id))?;
    }
    Ok(ids)
}

/// One stream.
fn alone(alloc: Global, id: u16) -> Result<Vec<StreamId>, AllocError>
    ensures { IfOk result (λ ids. map (λ id. id.0) ids.items ≡ id ∷ []) }
{
    let mut ids = Vec::new(alloc);
    ids.push(StreamId(id))?;
    Ok(ids)
}

impl ActiveStreams {
    /// No stream is active.
    pub fn new(alloc: Global) -> ActiveStreams
        ensures { result ≡ [] }
    {
        ActiveStreams {
            only: None,
            finish_times: BTreeMap::new(alloc),
            turns: BTreeSet::new(alloc),
        }
    }

    /// How many streams are active.
    pub fn len(&self) -> usize
        ensures value { result ≡ length self.now }
        ensures small { result < 2 ^ 63 }
    {
        match self.only {
            Some(_) => 1,
            None => self.finish_times.len(),
        }
    }

    /// The streams, ascending.
    pub fn ids(&self, alloc: Global) -> Result<Vec<StreamId>, AllocError>
        ensures { IfOk result (λ ids. map (λ id. id.0) ids.items ≡ keys_of self.now) }
    {
        match self.only {
            Some((only, _)) => alone(alloc, only),
            None => keys(alloc, &self.finish_times),
        }
    }

    /// The finish time of a stream that is active.
    pub fn finish_time(&self, id: u16) -> Option<u128>
        ensures { result ≡ finish_time id self.now }
    {
        match self.only {
            Some((only, finish)) if only == id => Some(finish),
            Some(_) => None,
            None => self.finish_times.get(&id).copied(),
        }
    }

    /// Takes a stream out. The answer is its finish time, if it was active.
    #[inline(always)]
    pub fn leave(&mut self, id: u16) -> Option<u128>
        ensures time { result ≡ finish_time id self.old }
        ensures times { self.new ≡ remove_entry (is_at (nat_cmp id)) self.old }
        ensures removed { finish_time id self.new ≡ None }
    {
        match self.only {
            Some((only, finish)) if only == id => {
                self.only = None;
                Some(finish)
            }
            Some(_) => None,
            None if self.finish_times.is_empty() => None,
            None => leave(&mut self.finish_times, &mut self.turns, id),
        }
    }

    /// Puts in a stream that isn't active. Without memory nothing changes.
    pub fn enter(&mut self, id: u16, finish: u128) -> Result<(), AllocError>
        requires { finish_time id self.old ≡ None }
        ensures ok { OnOk result (self.new ≡ insert_entry nat_cmp self.old id finish) }
        ensures err { OnErr result (self.new ≡ self.old) }
    {
        if self.len() == 0 {
            self.only = Some((id, finish));
            return Ok(());
        }
        if let Some((only, first)) = self.only {
            enter(&mut self.finish_times, &mut self.turns, only, first)?;
            self.only = None;
        }
        enter(&mut self.finish_times, &mut self.turns, id, finish)
    }

    /// Gives a stream that is active another finish time. Without memory nothing changes.
    pub fn renew(&mut self, id: u16, finish: u128, next: u128) -> Result<(), AllocError>
        requires { finish_time id self.old ≡ Some finish }
        ensures ok { OnOk result (self.new ≡ insert_entry nat_cmp (remove_entry (is_at (nat_cmp id)) self.old) id next) }
        ensures absent { OnOk result (finish_time id (remove_entry (is_at (nat_cmp id)) self.old) ≡ None) }
        ensures err { OnErr result (self.new ≡ self.old) }
    {
        if self.only.is_some() {
            self.only = Some((id, next));
            return Ok(());
        }
        renew(&mut self.finish_times, &mut self.turns, id, finish, next)
    }

    /// The stream that is next.
    pub fn first(&self) -> Option<u16>
        ensures value { result ≡ option_map stream_in (best None self.now) }
        ensures next { IfSome result (IsNext self.now) }
        ensures none { IfNone result (self.now ≡ []) }
    {
        match self.only {
            Some((only, _)) => Some(only),
            None => first_turn(&self.finish_times, &self.turns),
        }
    }
}
