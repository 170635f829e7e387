//! An allocator that hands out lent memory once, front to back.
ghost use Rattle.std.specs.Prelude.{◌≡◌, ◌^◌, ◌<◌, ◌≤◌, IfSome};
ghost use Rattle.std.specs.Borrow.{ftrue};
ghost use Rattle.linked_list_allocator.specs.Region.{block_size};

use crate::memory::{Memory, Room};
use std::alloc::{AllocError, Allocator};
use std::cell::Cell;

/// Hands out blocks of lent memory, each aligned to 16 bytes. Memory that is deallocated stays unused.
#[derive(Drop)]
pub struct Lent {
    rest: Cell<Option<Room>>,
}

impl Lent {
    /// Returns an allocator over this memory.
    pub fn new(room: Room) -> Lent {
        Lent {
            rest: Cell::new(Some(room)),
        }
    }

    /// Returns an allocator over memory of this size.
    pub fn over(size: usize, memory: Memory) -> Lent
        requires { size ≡ memory.size }
    {
        Lent::new(Room::of(size, memory))
    }

    /// Returns an allocator without memory.
    pub fn empty() -> Lent {
        Lent {
            rest: Cell::new(None),
        }
    }

    /// Returns an allocator that lies in the memory that it hands out, so its handle is a plain copy. The allocator
    /// owns the memory from then on. Returns `None` if the room has fewer than 64 bytes and the allocator's own size.
    pub fn settle(room: Room) -> Option<&'static Lent> {
        let Ok((front, rest)) = room.take(64) else {
            return None;
        };
        let home = Lent::new(Room::of(64, front));
        match Box::new(home, Lent::new(rest)) {
            Ok(settled) => Some(Box::leak(settled)),
            Err(_) => None,
        }
    }

    // Takes a block of at least `size` bytes off the front. Returns `None` if too little memory is left, or if `align`
    // is above 16.
    fn take(&self, size: usize, align: usize) -> Option<Memory>
        ensures { IfSome result (λ m. (m.size ≡ block_size size) × (size < 2 ^ 63) × (align ≤ 16)) }
    {
        if align > 16 || size > isize::MAX as usize {
            return None;
        }
        let room = self.rest.replace(None)?;
        match room.take(size.max(16).next_multiple_of(16)) {
            Ok((memory, rest)) => {
                self.rest.replace(Some(rest));
                Some(memory)
            }
            Err(room) => {
                self.rest.replace(Some(room));
                None
            }
        }
    }
}

unsafe impl Allocator for Lent {
    ghost dealloc_token = { λ _ _ _. ftrue };

    fn allocate(&self, size: usize, align: usize) -> Result<*mut u8, AllocError> {
        match self.take(size, align) {
            Some(Memory { ptr }) => Ok(ptr),
            None => Err(AllocError),
        }
    }

    unsafe fn deallocate(&self, _ptr: *mut u8, _size: usize, _align: usize) {}
}
