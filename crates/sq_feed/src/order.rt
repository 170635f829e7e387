//! Squitters in the order of their timestamps.
ghost use Rattle.std.specs.Prelude.{◌≡◌, ◌≤◌, [], ◌∷◌, IfOk, OnErr, OnOk, drop, false, length, vec_len};
ghost use Rattle.std.specs.List.{insert};
ghost use Rattle.sq_feed.specs.Feeds.{stored};
ghost use Rattle.sq_feed.specs.Orders.{HasFlushed, is_due, nothing_sorted, place_of, with_one};

use crate::message::Timed;
use std::alloc::{AllocError, Allocator, Global};
use std::marker::Model;

/// Sorts squitters by timestamp. Squitters with equal timestamps keep their order of arrival. A squitter is held until
/// one that is `reorder` milliseconds later has come. The timestamps that it gives never go back: a squitter below the
/// last one given is late, and is dropped and counted.
#[derive(Drop)]
pub struct Order<A: Allocator = Global> {
    line: Vec<Timed, A>,
    first: usize,
    reorder: u64,
    latest: u64,
    given: u64,
    late: u64,
}

impl<A: Allocator> Model for Order<A> {
    ghost use Rattle.std.specs.Prelude.{◌≤◌, drop, length};
    ghost use Rattle.sq_feed.specs.Orders.{Sorting};

    ghost Value = { Sorting };

    ghost view = { λ s. record {
      reorder = s.reorder;
      latest = s.latest;
      given = s.given;
      late = s.late;
      held = drop s.first s.line.items;
    } };

    ghost invariant = { λ s. s.first ≤ length s.line.items };
}

impl<A: Allocator> Order<A> {
    /// Returns an order that holds nothing, and allocates as it needs. Squitters may come late by `reorder`
    /// milliseconds.
    pub fn new(alloc: A, reorder: u64) -> Order<A>
        ensures { result ≡ nothing_sorted reorder }
    {
        Order {
            line: Vec::new(alloc),
            first: 0,
            reorder,
            latest: 0,
            given: 0,
            late: 0,
        }
    }

    /// Creates an order like [`Order::new`], with the memory for `slots` squitters already allocated. Up to three
    /// quarters of them are held without a further allocation.
    pub fn with_slots(alloc: A, slots: usize, reorder: u64) -> Result<Order<A>, AllocError>
        ensures { IfOk result (λ order. order ≡ nothing_sorted reorder) }
    {
        let mut order = Order::new(alloc, reorder);
        order.line.reserve_exact(slots)?;
        Ok(order)
    }

    /// Returns a copy of the order in other memory, with `slots` as in [`Order::with_slots`].
    pub fn copied_to<B: Allocator>(&self, alloc: B, slots: usize) -> Result<Order<B>, AllocError>
        ensures { IfOk result (λ order. order ≡ self.now) }
    {
        let mut order = Order::with_slots(alloc, slots, self.reorder)?;
        order.line.extend_from_slice(&self.line[self.first..])?;
        order.latest = self.latest;
        order.given = self.given;
        order.late = self.late;
        Ok(order)
    }

    /// Inserts a squitter at its place, or counts it as late. The error is that of an allocation: the order is full,
    /// and unchanged.
    #[inline(always)]
    pub fn put(&mut self, one: &Timed) -> Result<(), AllocError>
        ensures ok { OnOk result (self.new ≡ with_one one.now self.old) }
        ensures err { OnErr result (self.new ≡ self.old) }
    {
        if one.moment < self.given {
            self.late = self.late.saturating_add(1);
            return Ok(());
        }
        self.first = make_room(&mut self.line, self.first);
        let at = self.first + place_of(&self.line[self.first..], one.moment);
        match insert_at(&mut self.line, at, one) {
            Ok(()) => {
                self.latest = self.latest.max(one.moment);
                Ok(())
            }
            Err(error) => Err(error),
        }
    }

    /// Stores the first squitter in the slot, if it is due, and holds it no longer. Returns whether it was due.
    #[inline(always)]
    pub fn give_into(&mut self, into: &mut Timed) -> bool
        ensures due { result ≡ is_due self.old.reorder self.old.latest self.old.held }
        ensures given { HasFlushed self.old (stored result into.new) self.new }
        ensures kept { result ≡ false → into.new ≡ into.old }
    {
        if self.is_due() {
            *into = self.pop();
            true
        } else {
            false
        }
    }

    /// Stores the first squitter in the slot, due or not, and holds it no longer. Returns whether one was held.
    #[inline(always)]
    pub fn flush_into(&mut self, into: &mut Timed) -> bool
        ensures none { result ≡ false → self.old.held ≡ [] }
        ensures given { HasFlushed self.old (stored result into.new) self.new }
        ensures kept { result ≡ false → into.new ≡ into.old }
    {
        if self.held() > 0 {
            *into = self.pop();
            true
        } else {
            false
        }
    }

    /// Returns how many squitters are held.
    pub fn held(&self) -> usize
        ensures { result ≡ length self.now.held }
    {
        self.line.len() - self.first
    }

    /// Returns how many squitters were late.
    pub fn late(&self) -> u64
        ensures { result ≡ self.now.late }
    {
        let Order { late, .. } = self;
        *late
    }

    /// Returns whether the first squitter is due.
    #[inline(always)]
    pub fn is_due(&self) -> bool
        ensures { result ≡ is_due self.now.reorder self.now.latest self.now.held }
    {
        if self.first == self.line.len() {
            return false;
        }
        let moment = self.line[self.first].moment;
        moment <= self.latest && self.reorder <= self.latest - moment
    }

    // Removes and returns the first squitter.
    #[inline(always)]
    fn pop(&mut self) -> Timed
        requires { 1 ≤ length self.old.held }
        ensures { HasFlushed self.old (result ∷ []) self.new }
    {
        let one = self.line[self.first];
        self.first += 1;
        self.given = one.moment;
        one
    }
}

// Makes room at the end if all slots are taken, and a quarter of them hold squitters that were given. Returns the new
// index of the squitter that was at index `first`.
#[inline(always)]
fn make_room<A: Allocator>(line: &mut Vec<Timed, A>, first: usize) -> usize
    requires { first ≤ vec_len line.old }
    ensures kept { drop result line.new.items ≡ drop first line.old.items }
    ensures within { result ≤ length line.new.items }
{
    if line.len() < line.capacity() || first < line.len() / 4 {
        return first;
    }
    move_to_front(line, first);
    0
}

// Drops the squitters before index `first`.
#[cold]
#[inline(never)]
fn move_to_front<A: Allocator>(line: &mut Vec<Timed, A>, first: usize)
    requires { first ≤ vec_len line.old }
    ensures { line.new.items ≡ drop first line.old.items }
{
    let len = line.len();
    line.as_mut_slice().copy_within(first..len, 0);
    line.truncate(len - first);
}

// Inserts a squitter at an index. Most squitters come in order, and are appended.
#[inline(always)]
fn insert_at<A: Allocator>(
    line: &mut Vec<Timed, A>,
    at: usize,
    one: &Timed,
) -> Result<(), AllocError>
    requires { at ≤ vec_len line.old }
    ensures ok { OnOk result (line.new.items ≡ insert line.old.items at one.now) }
    ensures err { OnErr result (line.new.items ≡ line.old.items) }
{
    if at < line.len() {
        return insert_within(line, at, one);
    }
    match line.push(*one) {
        Ok(()) => Ok(()),
        Err(_) => Err(AllocError),
    }
}

// Inserts a squitter before another one.
#[cold]
#[inline(never)]
fn insert_within<A: Allocator>(
    line: &mut Vec<Timed, A>,
    at: usize,
    one: &Timed,
) -> Result<(), AllocError>
    requires { at ≤ vec_len line.old }
    ensures ok { OnOk result (line.new.items ≡ insert line.old.items at one.now) }
    ensures err { OnErr result (line.new.items ≡ line.old.items) }
{
    match line.insert(at, *one) {
        Ok(()) => Ok(()),
        Err(_) => Err(AllocError),
    }
}

// Returns the index for a squitter with this timestamp: after the last one that is not later. Most squitters come in
// order, so the search begins at the end.
#[inline(always)]
fn place_of(held: &[Timed], moment: u64) -> usize
    ensures value { result ≡ place_of moment held.now }
    ensures within { result ≤ length held.now }
{
    let mut at = held.len();
    while at > 0 && moment < held[at - 1].moment {
        at -= 1;
    }
    at
}
