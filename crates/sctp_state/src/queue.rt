//! Queues that give their room back.

ghost use Rattle.std.specs.Prelude.{◌≡◌, ◌++◌, [], drop, IfNone, option_to_list, slice_get};

use std::collections::VecDeque;

/// A queue keeps so many places, whatever it has.
const MOST_SPARE_PLACES: usize = 1_024;

/// A queue that had more than 1,024 places, and less than a quarter of them taken, keeps twice those, or 1,024.
#[inline(never)]
fn give_back<T>(queue: &mut VecDeque<T>)
    ensures { queue.new.items ≡ queue.old.items }
{
    if queue.len() < queue.capacity() / 4 {
        let wanted = queue.len() * 2;
        queue.shrink_to(wanted.max(MOST_SPARE_PLACES));
    }
}

/// Takes the first of a queue, which gives back places that it no longer needs.
#[inline(always)]
pub fn take_first<T>(queue: &mut VecDeque<T>) -> Option<T>
    ensures first { result ≡ slice_get queue.old.items 0 }
    ensures rest { queue.new.items ≡ drop 1 queue.old.items }
    ensures taken { queue.old.items ≡ option_to_list result ++ queue.new.items }
    ensures none { IfNone result (queue.old.items ≡ []) }
{
    if queue.capacity() > MOST_SPARE_PLACES {
        give_back(queue);
    }
    queue.pop_front()
}
