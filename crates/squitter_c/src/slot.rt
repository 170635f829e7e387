//! What C holds: a listener, or none.
ghost use Rattle.std.specs.Prelude.{◌≡◌, Option, Some, None, option_map};
ghost use Rattle.squitter_c.specs.Seal.{a_listener, flag, listener_of};

use crate::listener::Listener;
use crate::parts::Parts;
use crate::seal::Seal;
use sq_lent::Lent;
use std::mem::replace;

/// A listener, or none: all bytes 0 mean none. C lends these 16 bytes, and neither writes to them nor copies them.
#[repr(C)]
pub struct Slot {
    full: u64,
    pub seal: Seal,
    ghost tied: { full ≡ flag (listener_of seal.held) },
    ghost kind: { seal.held ≡ option_map a_listener (listener_of seal.held) },
}

impl Slot {
    /// Takes the listener out, if there is one, and leaves the slot empty.
    pub fn take(&mut self) -> Option<Box<Listener, Lent>>
        ensures taken { option_map (λ b. b.value) result ≡ listener_of self.old.seal.held }
        ensures none { listener_of self.new.seal.held ≡ None }
    {
        let none = Slot {
            full: 0,
            seal: Seal::none(),
        };
        let Slot { full, seal } = replace(self, none);
        if full == 0 {
            seal.let_go();
            return None;
        }
        Some(seal.into_listener(Lent::empty()).into_box())
    }

    /// Puts a listener into an empty slot.
    pub fn put(&mut self, listener: Box<Listener, Lent>)
        requires { listener_of self.old.seal.held ≡ None }
        ensures { listener_of self.new.seal.held ≡ Some listener.value }
    {
        let (seal, _handle) = Seal::of_listener(Parts::of(listener));
        let Slot { full: _, seal } = replace(self, Slot { full: 1, seal });
        seal.let_go();
    }

    /// Puts back the listener that was taken out, if there was one.
    pub fn put_back(&mut self, taken: Option<Box<Listener, Lent>>)
        requires { listener_of self.old.seal.held ≡ None }
        ensures { listener_of self.new.seal.held ≡ option_map (λ b. b.value) taken }
    {
        if let Some(listener) = taken {
            self.put(listener);
        }
    }
}
