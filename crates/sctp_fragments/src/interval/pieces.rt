//! The entries of a long interval, in pieces: so few move where it is joined to another one, or cut.

ghost use Rattle.std.specs.Prelude.{◌≡◌, ◌+◌, ◌<◌, ◌≤◌, ◌++◌, length, map, true};
ghost use Rattle.std.specs.VecDeque.{deque_len, deque_capacity};
ghost use Rattle.sctp_fragments.specs.Pieces.{are_some};
ghost use Rattle.sctp_fragments.specs.Runs.{flat};

mod ends;

use crate::interval::Entry;
pub(crate) use ends::admits;
use std::collections::VecDeque;

/// The entries of a long interval: those of the first piece, of the pieces behind it, and of the last one, which may have none.
#[derive(Debug, Drop)]
pub struct Pieces<K> {
    pub(crate) first: VecDeque<Entry<K>>,
    pub(crate) middle: VecDeque<VecDeque<Entry<K>>>,
    pub(crate) last: VecDeque<Entry<K>>,
    ghost some: { 0 < length first.items },
    ghost pieces: { are_some (map (λ d. d.items) middle.items) ≡ true },
}

/// Puts the others behind these, where there is room.
pub(crate) fn append_all<T: Drop>(queue: &mut VecDeque<T>, mut others: VecDeque<T>)
    requires { deque_len queue.old + deque_len others ≤ deque_capacity queue.old }
    ensures { queue.new.items ≡ queue.old.items ++ others.items }
{
    while let Some(next) = others.pop_front() {
        queue.push_back_reserved(next);
    }
}

/// Puts the others in front of these, where there is room.
pub(crate) fn prepend_all<T: Drop>(queue: &mut VecDeque<T>, mut others: VecDeque<T>)
    requires { deque_len queue.old + deque_len others ≤ deque_capacity queue.old }
    ensures { queue.new.items ≡ others.items ++ queue.old.items }
{
    while let Some(last) = others.pop_back() {
        queue.push_front_reserved(last);
    }
}

/// Gives room back where there is clearly more than twice what is taken, and leaves a sixteenth more than is. So what is taken
/// out or added moves some sixteen others at most, over all of them. Without memory the room stays.
pub(crate) fn give_room_back<T>(queue: &mut VecDeque<T>)
    ensures { queue.new.items ≡ queue.old.items }
{
    let wanted = queue.len() + queue.len() / 16;
    if wanted < queue.capacity() / 2 {
        queue.shrink_to(wanted);
    }
}

/// Takes out the first of the pieces behind the first.
fn take_next<K>(
    middle: &mut VecDeque<VecDeque<Entry<K>>>,
    last: &mut VecDeque<Entry<K>>,
) -> VecDeque<Entry<K>>
    requires some { 0 < length (flat (map (λ d. d.items) middle.old.items) ++ last.old.items) }
    requires pieces { are_some (map (λ d. d.items) middle.old.items) ≡ true }
    ensures items { flat (map (λ d. d.items) middle.old.items) ++ last.old.items ≡ result.items ++ (flat (map (λ d. d.items) middle.new.items) ++ last.new.items) }
    ensures some { 0 < length result.items }
    ensures pieces { are_some (map (λ d. d.items) middle.new.items) ≡ true }
{
    let Some(next) = middle.pop_front() else {
        let alloc = *last.allocator();
        return std::mem::replace(last, VecDeque::new(alloc));
    };
    give_room_back(middle);
    next
}

/// Puts a piece in front of the others, where there is room, unless it is empty.
fn push_piece<K: Copy>(pieces: &mut VecDeque<VecDeque<Entry<K>>>, piece: VecDeque<Entry<K>>)
    requires room { deque_len pieces.old < deque_capacity pieces.old }
    requires pieces { are_some (map (λ d. d.items) pieces.old.items) ≡ true }
    ensures items { flat (map (λ d. d.items) pieces.new.items) ≡ piece.items ++ flat (map (λ d. d.items) pieces.old.items) }
    ensures pieces { are_some (map (λ d. d.items) pieces.new.items) ≡ true }
    ensures len { deque_len pieces.new ≤ deque_len pieces.old + 1 }
    ensures capacity { deque_capacity pieces.new ≡ deque_capacity pieces.old }
{
    if piece.is_empty() {
        return;
    }
    pieces.push_front_reserved(piece);
}
