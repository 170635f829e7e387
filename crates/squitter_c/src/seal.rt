//! A boxed value, or none, behind a pointer that names no type.
ghost use Rattle.std.specs.Prelude.{◌≡◌, IsSome, Option, Some, None};
ghost use Rattle.std.specs.Coded.{coded_option};
ghost use Rattle.squitter_c.specs.Seal.{Content, a_feed, a_listener, a_sorter, content_coded, feed_of, listener_of};
ghost use Rattle.squitter_c.specs.Seal.{sorter_of, seal_owns};

use crate::listener::Listener;
use crate::order_slot::Sorter;
use crate::parts::Parts;
use sq_feed::Feed;
use sq_lent::Lent;
use std::marker::Model;

/// The pointer of a box, or null. `held` is the value in the box, if there is one.
#[repr(C)]
pub struct Seal {
    at: *mut u8,
    pub ghost held: { Option Content } by { coded_option content_coded },
}

impl Model for Seal {
    ghost also_owns = { λ s. seal_owns s.at s.held };
}

impl Seal {
    /// Null: no value.
    pub fn none() -> Seal
        ensures { result.held ≡ None }
    {
        Seal {
            at: std::ptr::null_mut(),
        }
    }

    /// Drops a seal that holds nothing.
    pub fn let_go(self)
        requires { self.held ≡ None }
    {
        let Seal { at } = self;
    }

    /// Seals what the parts of a boxed listener own, and returns the allocator.
    pub fn of_listener(parts: Parts<Listener, Lent>) -> (Seal, Lent)
        ensures { result.0.held ≡ Some (a_listener parts.value) }
    {
        let Parts { ptr, alloc } = parts;
        let listener = ptr as *mut u8;
        (Seal { at: listener }, alloc)
    }

    /// Opens a seal that holds a listener. The parts own it again, with any allocator.
    pub fn into_listener(self, alloc: Lent) -> Parts<Listener, Lent>
        requires { IsSome (listener_of self.held) }
        ensures { Some result.value ≡ listener_of self.held }
    {
        let Seal { at } = self;
        Parts {
            ptr: at as *mut Listener,
            alloc,
        }
    }

    /// Seals what the parts of a boxed feed own, and returns the allocator.
    pub fn of_feed(parts: Parts<Feed, Lent>) -> (Seal, Lent)
        ensures { result.0.held ≡ Some (a_feed parts.value) }
    {
        let Parts { ptr, alloc } = parts;
        let feed = ptr as *mut u8;
        (Seal { at: feed }, alloc)
    }

    /// Opens a seal that holds a feed. The parts own it again, with any allocator.
    pub fn into_feed(self, alloc: Lent) -> Parts<Feed, Lent>
        requires { IsSome (feed_of self.held) }
        ensures { Some result.value ≡ feed_of self.held }
    {
        let Seal { at } = self;
        Parts {
            ptr: at as *mut Feed,
            alloc,
        }
    }

    /// Seals what the parts of a boxed sorter own, and returns the allocator.
    pub fn of_sorter(parts: Parts<Sorter, Lent>) -> (Seal, Lent)
        ensures { result.0.held ≡ Some (a_sorter parts.value) }
    {
        let Parts { ptr, alloc } = parts;
        let sorter = ptr as *mut u8;
        (Seal { at: sorter }, alloc)
    }

    /// Opens a seal that holds a sorter. The parts own it again, with any allocator.
    pub fn into_sorter(self, alloc: Lent) -> Parts<Sorter, Lent>
        requires { IsSome (sorter_of self.held) }
        ensures { Some result.value ≡ sorter_of self.held }
    {
        let Seal { at } = self;
        Parts {
            ptr: at as *mut Sorter,
            alloc,
        }
    }
}
