//! Memory that holds no value.
ghost use Rattle.std.specs.Prelude.{◌≡◌, ℕ, ◌-◌, ◌≤◌, ◌%◌, IfOk, IfErr};
ghost use Rattle.linked_list_allocator.specs.Ownership.{bytes_at};
ghost use Rattle.sq_lent.specs.Sizes.{IsSize};

use std::marker::Model;

/// The start of a block that is aligned to 16 bytes. Its owner owns the `size` bytes from there on.
#[repr(C)]
#[derive(Drop)]
pub struct Memory {
    pub(crate) ptr: *mut u8,
    pub ghost size: { ℕ },
    pub ghost fits: { IsSize size },
}

impl Model for Memory {
    ghost also_owns = { λ m. bytes_at m.ptr m.size };
}

impl Memory {
    // Splits off the first `n` bytes.
    fn split(self, n: usize) -> (Memory, Memory)
        requires { (n % 16 ≡ 0) × (n ≤ self.size) }
        ensures { (result.0.size ≡ n) × (result.1.size ≡ self.size - n) }
    {
        let Memory { ptr } = self;
        let back = unsafe { ptr.add(n) };
        (Memory { ptr }, Memory { ptr: back })
    }
}

/// A block of memory that a caller lends, and its size in bytes. Only whole units of 16 bytes are used.
#[repr(C)]
#[derive(Drop)]
pub struct Room {
    pub(crate) size: usize,
    pub memory: Memory,
    ghost tied: { memory.size ≡ size - size % 16 },
}

impl Room {
    /// Returns a room of this size.
    pub(crate) fn of(size: usize, memory: Memory) -> Room
        requires { size ≡ memory.size }
        ensures { result.memory ≡ memory }
    {
        Room { size, memory }
    }

    /// Returns the size of the lent block in bytes.
    pub fn len(&self) -> usize
        ensures { result ≡ self.now.size }
    {
        self.size
    }

    /// Takes `n` bytes off the front. Returns the room unchanged if it has fewer.
    pub fn take(self, n: usize) -> Result<(Memory, Room), Room>
        requires { n % 16 ≡ 0 }
        ensures ok { IfOk result (λ r. (r.0.size ≡ n) × (n ≤ self.memory.size)
            × (r.1.memory.size ≡ self.memory.size - n)) }
        ensures err { IfErr result (λ r. r ≡ self) }
    {
        if n > self.len() {
            return Err(self);
        }
        let Room { size, memory } = self;
        let (first, rest) = memory.split(n);
        Ok((
            first,
            Room {
                size: size - n,
                memory: rest,
            },
        ))
    }
}
