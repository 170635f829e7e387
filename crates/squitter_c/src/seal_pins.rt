//! Guards of the definitions: each has one value, some value or an exact condition, so none can be weakened unnoticed.
//! A function with an empty body does nothing: its contract is the statement.
ghost use Rattle.std.specs.Prelude.{◌≡◌, None, Some};
ghost use Rattle.squitter_c.specs.Seal.{Kept, KeptFeed, KeptSorter, a_feed, a_listener, a_sorter, feed_of, flag};
ghost use Rattle.squitter_c.specs.Seal.{listener_of, sorter_of};
ghost use Rattle.squitter_c.specs.Sizes.{OneSize};

/// The bytes for a limit of addresses are one number.
pub fn one_size()
    ensures { OneSize }
{}

/// A seal that holds a listener, a feed or a sorter holds no other value, and an empty seal holds none.
pub fn kinds_exactly()
    ensures listener { (k : Kept) → (listener_of (Some (a_listener k)) ≡ Some k)
        × (feed_of (Some (a_listener k)) ≡ None) × (sorter_of (Some (a_listener k)) ≡ None) }
    ensures feed { (k : KeptFeed) → (listener_of (Some (a_feed k)) ≡ None) × (feed_of (Some (a_feed k)) ≡ Some k)
        × (sorter_of (Some (a_feed k)) ≡ None) }
    ensures sorter { (k : KeptSorter) → (listener_of (Some (a_sorter k)) ≡ None)
        × (feed_of (Some (a_sorter k)) ≡ None) × (sorter_of (Some (a_sorter k)) ≡ Some k) }
    ensures none { (listener_of None ≡ None) × (feed_of None ≡ None) × (sorter_of None ≡ None) }
    ensures flags { (k : Kept) → (flag (Some k) ≡ 1) × (flag (listener_of None) ≡ 0) }
{}
