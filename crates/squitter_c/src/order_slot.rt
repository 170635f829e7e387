//! What C holds: an order, or none.
ghost use Rattle.std.specs.Prelude.{◌≡◌, ◌≤◌, ◌+◌, ◌*◌, ◌/◌, IfSome, Option, Some, None, option_map};
ghost use Rattle.sq_feed.specs.Orders.{nothing_sorted};
ghost use Rattle.squitter_c.specs.Seal.{a_sorter, sorter_of, flag};

use crate::parts::Parts;
use crate::seal::Seal;
use sq_feed::Order;
use sq_lent::{Lent, Memory, Room};
use std::mem::replace;

// The bytes of a sorter itself, and of the allocator in front of its squitters.
const HOME: usize = 256;

const FRONT: usize = 256;

// The bytes of a squitter.
const SLOT_BYTES: usize = 24;

/// An order in memory that C lends.
#[derive(Drop)]
pub struct Sorter {
    pub order: Order<&'static Lent>,
}

/// An order, or none: all bytes 0 mean none. C lends these 16 bytes, and neither writes to them nor copies them.
#[repr(C)]
pub struct OrderSlot {
    full: u64,
    pub seal: Seal,
    ghost tied: { full ≡ flag (sorter_of seal.held) },
    ghost kind: { seal.held ≡ option_map a_sorter (sorter_of seal.held) },
}

/// Returns the bytes of a block for an order that holds up to `room` squitters. A third more have slots, so that those
/// that are held seldom move to the front.
pub fn bytes_for(room: u32) -> usize
    ensures { result ≡ 512 + 24 * (room + room / 3 + 1) }
{
    let room = room as usize;
    HOME + FRONT + SLOT_BYTES * (room + room / 3 + 1)
}

/// Returns an order that holds nothing, in a box over this memory; `None` if the room has fewer bytes than
/// [`bytes_for`] returns for 0. Squitters may come late by `reorder` milliseconds.
pub fn order_in(room: Room, reorder: u64) -> Option<Box<Sorter, Lent>>
    ensures new { IfSome result (λ b. b.value.order ≡ nothing_sorted reorder) }
    ensures room { IfSome result (λ b. 536 ≤ room.size) }
{
    let (home, lent, slots) = divided(room)?;
    match Order::with_slots(lent, slots, reorder) {
        Ok(order) => boxed(home, order),
        Err(_) => None,
    }
}

/// Returns a copy of the order in a box over this memory; `None` if the squitters that it holds do not fit.
pub fn moved_to(sorter: &Sorter, room: Room) -> Option<Box<Sorter, Lent>>
    ensures { IfSome result (λ b. b.value.order ≡ sorter.now.order) }
{
    let (home, lent, slots) = divided(room)?;
    match sorter.order.copied_to(lent, slots) {
        Ok(order) => boxed(home, order),
        Err(_) => None,
    }
}

// Divides a room into the memory of a sorter and an allocator with room for its squitters. Returns how many fit.
fn divided(room: Room) -> Option<(Memory, &'static Lent, usize)>
    ensures { IfSome result (λ r. (r.0.size ≡ 256) × (536 ≤ room.size)) }
{
    let len = room.len();
    if len < bytes_for(0) {
        return None;
    }
    let Ok((home, rest)) = room.take(HOME) else {
        return None;
    };
    let lent = Lent::settle(rest)?;
    Some((home, lent, (len - HOME - FRONT) / SLOT_BYTES))
}

// Puts an order into a box over this memory.
fn boxed(home: Memory, order: Order<&'static Lent>) -> Option<Box<Sorter, Lent>>
    requires { home.size ≡ 256 }
    ensures { IfSome result (λ b. b.value.order ≡ order.entry) }
{
    match Box::new(Lent::over(HOME, home), Sorter { order }) {
        Ok(made) => Some(made),
        Err(_) => None,
    }
}

impl OrderSlot {
    /// Takes the order out, if there is one, and leaves the slot empty.
    pub fn take(&mut self) -> Option<Box<Sorter, Lent>>
        ensures taken { option_map (λ b. b.value) result ≡ sorter_of self.old.seal.held }
        ensures none { sorter_of self.new.seal.held ≡ None }
    {
        let none = OrderSlot {
            full: 0,
            seal: Seal::none(),
        };
        let OrderSlot { full, seal } = replace(self, none);
        if full == 0 {
            seal.let_go();
            return None;
        }
        Some(seal.into_sorter(Lent::empty()).into_box())
    }

    /// Puts an order into an empty slot.
    pub fn put(&mut self, order: Box<Sorter, Lent>)
        requires { sorter_of self.old.seal.held ≡ None }
        ensures { sorter_of self.new.seal.held ≡ Some order.value }
    {
        let (seal, _handle) = Seal::of_sorter(Parts::of(order));
        let OrderSlot { full: _, seal } = replace(self, OrderSlot { full: 1, seal });
        seal.let_go();
    }
}
