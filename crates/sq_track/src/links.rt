//! Links between the indices of a table, which lead through all of them in the order of last hearing, and back to the
//! first.
ghost use Rattle.std.specs.Prelude.{◌≡◌, ◌≢◌, ℕ, List, ◌+◌, ◌-◌, ◌^◌, ◌<◌, ◌≤◌, ◌++◌, [], ◌∷◌, length, map, take, nat_eq};
ghost use Rattle.std.specs.Prelude.{if◌then◌else◌};
ghost use Rattle.sq_track.specs.Ordered.{others_than};
ghost use Rattle.sq_track.specs.Ring.{IsEntered, IsLinking, IsOnRound, IsRound, after_at, before_at, renamed, round};
ghost use Rattle.sq_track.specs.declared.links.Neighbours.{Neighbours};

use std::alloc::Allocator;

/// The links of an index. At 8 bytes, eight of them share a cache line.
#[derive(Clone, Copy)]
pub struct Neighbours {
    /// The index of the address heard just before; for the longest silent, the index of the last heard.
    pub before: u32,
    /// The index of the address heard just after; for the last heard, the index of the longest silent.
    pub after: u32,
}

// Returns the index heard next after `at`.
#[inline(always)]
fn after(links: &[Neighbours], at: u32) -> u32
    requires { at < length links.now }
    ensures { result ≡ after_at links.now at }
{
    links[at as usize].after
}

// Returns the index heard just before `at`.
#[inline(always)]
fn before(links: &[Neighbours], at: u32) -> u32
    requires { at < length links.now }
    ensures { result ≡ before_at links.now at }
{
    links[at as usize].before
}

// Links one index to another.
#[inline(always)]
fn link(links: &mut [Neighbours], from: u32, to: u32)
    requires from { from < length links.old }
    requires to { to < length links.old }
    ensures { IsLinking from to links.old links.new }
{
    links[from as usize].after = to;
    links[to as usize].before = from;
}

// Links the indices before and after an index to each other.
#[inline(always)]
fn pass_over(links: &mut [Neighbours], at: u32)
    requires within { at < length links.old }
    requires before { before_at links.old at < length links.old }
    requires after { after_at links.old at < length links.old }
    ensures { IsLinking (before_at links.old at) (after_at links.old at) links.old links.new }
{
    let before = before(links, at);
    let after = after(links, at);
    link(links, before, after);
}

// Puts the last index at the end of the round, and returns the first index of the round.
pub(crate) fn join(links: &mut [Neighbours], oldest: u32, at: u32) -> u32
    requires { IsEntered links.old oldest at }
    ensures round { IsRound links.new result }
    ensures order { round links.new result ≡ round (take at links.old) oldest ++ at ∷ [] }
    ensures len { length links.new ≡ length links.old }
{
    if at == 0 {
        return at;
    }
    let newest = before(links, oldest);
    link(links, newest, at);
    link(links, at, oldest);
    oldest
}

// Returns the links of an index.
#[inline(always)]
pub(crate) fn links_at(links: &[Neighbours], at: u32) -> Neighbours
    requires { at < length links.now }
    ensures before { result.before ≡ before_at links.now at }
    ensures after { result.after ≡ after_at links.now at }
{
    links[at as usize]
}

// Puts an index with these links at the end of the round, and returns the first index of the round. Writes nothing if
// the index is already last, like that of a new address.
#[inline(always)]
pub(crate) fn put_last(links: &mut [Neighbours], oldest: u32, at: u32, own: Neighbours) -> u32
    requires on_round { IsOnRound links.old oldest at }
    requires before { own.before ≡ before_at links.old at }
    requires after { own.after ≡ after_at links.old at }
    ensures round { IsRound links.new result }
    ensures order { round links.new result ≡ others_than at (round links.old oldest) ++ at ∷ [] }
    ensures len { length links.new ≡ length links.old }
{
    if own.after == oldest {
        return oldest;
    }
    if at == oldest {
        return own.after;
    }
    link(links, own.before, own.after);
    let newest = before(links, oldest);
    link(links, newest, at);
    link(links, at, oldest);
    oldest
}

// Removes an index from the round, and returns the first index of the round. The last index takes the removed one's
// place.
pub(crate) fn take_out<A: Allocator>(links: &mut Vec<Neighbours, A>, oldest: u32, at: u32) -> u32
    requires on_round { IsOnRound links.old.items oldest at }
    requires few { length links.old.items ≤ 2 ^ 32 }
    ensures round { IsRound links.new.items result }
    ensures order { round links.new.items result
        ≡ map (renamed at (length links.old.items - 1)) (others_than at (round links.old.items oldest)) }
    ensures len { length links.new.items + 1 ≡ length links.old.items }
{
    let first = first_without(links, oldest, at);
    pass_over(links, at);
    let last = (links.len() - 1) as u32;
    rename_last(links, at, last);
    links.swap_remove(at as usize);
    new_name(first, last, at)
}

// Returns the first index of the round without an index.
fn first_without(links: &[Neighbours], oldest: u32, at: u32) -> u32
    requires { at < length links.now }
    ensures { result ≡ (if nat_eq oldest at then after_at links.now at else oldest) }
{
    if oldest == at {
        after(links, at)
    } else {
        oldest
    }
}

// Returns the name of an index after `at` was removed: the last index takes the name `at`, all others keep theirs.
fn new_name(index: u32, last: u32, at: u32) -> u32
    ensures { result ≡ renamed at last index }
{
    if index == last { at } else { index }
}

// Links the neighbours of the last index to the index that it gets.
fn rename_last(links: &mut [Neighbours], at: u32, last: u32)
    requires within { at < length links.old }
    requires last { length links.old ≡ last + 1 }
    requires before { before_at links.old last < length links.old }
    requires after { after_at links.old last < length links.old }
    ensures same { at ≡ last → links.new ≡ links.old }
    ensures links { at ≢ last → (ms : List Neighbours)
        × IsLinking (before_at links.old last) at links.old ms
        × IsLinking at (after_at links.old last) ms links.new }
    ensures len { length links.new ≡ length links.old }
{
    if at == last {
        return;
    }
    let before = before(links, last);
    let after = after(links, last);
    link(links, before, at);
    link(links, at, after);
}
