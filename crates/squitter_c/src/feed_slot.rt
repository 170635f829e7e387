//! What C holds: a feed, or none.
ghost use Rattle.std.specs.Prelude.{◌≡◌, ◌≤◌, IfSome, Option, Some, None, option_map};
ghost use Rattle.sq_feed.specs.Feeds.{nothing_fed};
ghost use Rattle.squitter_c.specs.Seal.{a_feed, feed_of, flag};

use crate::parts::Parts;
use crate::seal::Seal;
use sq_feed::{Feed, Format, Manner};
use sq_lent::{Lent, Room};
use std::mem::replace;

/// The bytes of a block for a feed.
pub const FEED_BYTES: usize = 20_480;

/// A feed, or none: all bytes 0 mean none. C lends these 16 bytes, and neither writes to them nor copies them.
#[repr(C)]
pub struct FeedSlot {
    full: u64,
    pub seal: Seal,
    ghost tied: { full ≡ flag (feed_of seal.held) },
    ghost kind: { seal.held ≡ option_map a_feed (feed_of seal.held) },
}

/// Returns a feed at the start of a source of this format, in a box over this memory. Without a format, the first
/// bytes of the source show it. Returns `None` if the room has fewer than `FEED_BYTES` bytes.
pub fn feed_in(room: Room, format: Option<Format>, manner: &Manner) -> Option<Box<Feed, Lent>>
    ensures new { IfSome result (λ b. b.value ≡ nothing_fed format manner.now) }
    ensures room { IfSome result (λ b. 20480 ≤ room.size) }
{
    if room.len() < FEED_BYTES {
        return None;
    }
    let Ok((home, _)) = room.take(FEED_BYTES) else {
        return None;
    };
    match Box::new(Lent::over(FEED_BYTES, home), Feed::new(format, manner)) {
        Ok(made) => Some(made),
        Err(_) => None,
    }
}

impl FeedSlot {
    /// Takes the feed out, if there is one, and leaves the slot empty.
    pub fn take(&mut self) -> Option<Box<Feed, Lent>>
        ensures taken { option_map (λ b. b.value) result ≡ feed_of self.old.seal.held }
        ensures none { feed_of self.new.seal.held ≡ None }
    {
        let none = FeedSlot {
            full: 0,
            seal: Seal::none(),
        };
        let FeedSlot { full, seal } = replace(self, none);
        if full == 0 {
            seal.let_go();
            return None;
        }
        Some(seal.into_feed(Lent::empty()).into_box())
    }

    /// Puts a feed into an empty slot.
    pub fn put(&mut self, feed: Box<Feed, Lent>)
        requires { feed_of self.old.seal.held ≡ None }
        ensures { feed_of self.new.seal.held ≡ Some feed.value }
    {
        let (seal, _handle) = Seal::of_feed(Parts::of(feed));
        let FeedSlot { full: _, seal } = replace(self, FeedSlot { full: 1, seal });
        seal.let_go();
    }
}
