//! What forward points pass, kept from one to the next.

ghost use Rattle.std.specs.Prelude.{◌≡◌, ℕ, ◌∷◌, Bool, List, IfOk, filter};
ghost use Rattle.sctp_tx_outstanding.specs.Item.{Item};
ghost use Rattle.sctp_tx_outstanding.specs.Views.{point_of};
ghost use Rattle.sctp_tx_outstanding.specs.Touched.{is_kept};
ghost use Rattle.sctp_tx_outstanding.specs.Passed.{IsPassed, BeginsPoint};

use crate::item::Item;
use crate::skips::{Touched, chunk_size_with, pass};
use std::alloc::{AllocError, Global};
use std::collections::VecDeque;

/// What is known of the first items that a forward point passes: how many, and which streams they touch. So the next point
/// goes on from there. A stream stays listed when the last item that touches it leaves, until a point goes on.
#[derive(Drop)]
pub struct Passed {
    pub count: usize,
    /// How many items left while they were counted: the number of the first item that is.
    pub left: u64,
    pub touched: Vec<Touched>,
}

/// How far a forward point goes.
#[derive(Drop)]
pub struct ForwardPoint {
    pub count: usize,
    pub touched: Vec<Touched>,
}

/// Leaves the streams that an item touches which is still kept.
fn forget_left(touched: &mut Vec<Touched>, left: u64)
    ensures { touched.new.items ≡ filter (λ t. is_kept left t) touched.old.items }
{
    touched.retain(|one| left <= one.last);
}

/// The streams that an item touches which is still kept.
fn still_touched(alloc: Global, all: &[Touched], left: u64) -> Result<Vec<Touched>, AllocError>
    ensures { IfOk result (λ touched. touched.items ≡ filter (λ t. is_kept left t) all.now) }
{
    let mut touched = Vec::new(alloc);
    touched.extend_from_slice(all)?;
    forget_left(&mut touched, left);
    Ok(touched)
}

/// A point that passes nothing.
fn nothing(alloc: Global) -> ForwardPoint
    ensures { (most end : ℕ) (m : Bool) (is : List Item) → BeginsPoint most end m is (point_of result) }
{
    ForwardPoint {
        count: 0,
        touched: Vec::new(alloc),
    }
}

impl Passed {
    ghost use Rattle.std.specs.Prelude.{[]};

    /// No items. Takes no memory.
    pub(crate) fn new(alloc: Global) -> Passed
        ensures { (m : Bool) → IsPassed m [] result }
    {
        Passed {
            count: 0,
            left: 0,
            touched: Vec::new(alloc),
        }
    }

    /// Nothing is known any more.
    fn forget(&mut self)
        ensures { (m : Bool) (is : List Item) → IsPassed m is self.new }
    {
        self.count = 0;
        self.touched.clear();
    }

    /// The first item leaves.
    pub(crate) fn leave(&mut self)
        ensures { (m : Bool) (i : Item) (is : List Item) → IsPassed m (i ∷ is) self.old → IsPassed m is self.new }
    {
        if self.count == 0 {
            return;
        }
        if self.left == u64::MAX {
            self.forget();
            return;
        }
        self.count -= 1;
        self.left += 1;
    }

    /// Goes on over the next item, if it is given up and its stream has room. Says whether it did.
    fn pass_next(&mut self, items: &VecDeque<Item>, is_interleaved: bool, most: usize) -> bool
        requires { IsPassed is_interleaved items.now.items self.old }
        ensures { IsPassed is_interleaved items.now.items self.new }
    {
        let Some(number) = self.left.checked_add(self.count as u64) else {
            return false;
        };
        let item = items.get(self.count);
        let Ok(passes) = pass(&mut self.touched, item, number, is_interleaved, most) else {
            self.forget();
            return false;
        };
        if passes {
            self.count += 1;
        }
        passes
    }

    /// Forgets the streams of items that left, and all where it ends behind this place or the chunk is longer than this.
    fn tidy(&mut self, items: &VecDeque<Item>, is_interleaved: bool, end: usize, most: usize)
        requires { IsPassed is_interleaved items.now.items self.old }
        ensures { IsPassed is_interleaved items.now.items self.new }
    {
        forget_left(&mut self.touched, self.left);
        let size = chunk_size_with(is_interleaved, None, &self.touched);
        if self.count > end || size > most as u128 {
            self.forget();
        }
    }

    /// Goes on over the next items up to this place, as far as they are given up and the chunk isn't longer than this.
    pub(crate) fn go_on(
        &mut self,
        items: &VecDeque<Item>,
        is_interleaved: bool,
        end: usize,
        most: usize,
    )
        requires { IsPassed is_interleaved items.now.items self.old }
        ensures { IsPassed is_interleaved items.now.items self.new }
    {
        self.tidy(items, is_interleaved, end, most);
        for _ in self.count..end {
            if !self.pass_next(items, is_interleaved, most) {
                return;
            }
        }
    }

    /// The point over the items that are known, where it ends by this place and its chunk isn't longer than this, or else
    /// over none.
    pub(crate) fn point(
        &self,
        alloc: Global,
        items: &VecDeque<Item>,
        is_interleaved: bool,
        end: usize,
        most: usize,
    ) -> Result<ForwardPoint, AllocError>
        requires { IsPassed is_interleaved items.now.items self.now }
        ensures { IfOk result (λ p. BeginsPoint most end is_interleaved items.now.items (point_of p)) }
    {
        if self.count == 0 || self.count > end {
            return Ok(nothing(alloc));
        }
        let touched = still_touched(alloc, &self.touched, self.left)?;
        if chunk_size_with(is_interleaved, None, &touched) > most as u128 {
            return Ok(nothing(alloc));
        }
        Ok(ForwardPoint {
            count: self.count,
            touched,
        })
    }
}
