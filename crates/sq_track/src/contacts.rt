//! The decoder state of each address, in the order of last hearing.
ghost use Rattle.std.specs.Prelude.{Option, option_copied, ◌≡◌, ℕ, ◌+◌, ◌^◌, ◌<◌, ◌++◌};
ghost use Rattle.std.specs.Prelude.{is_some, nat_eq, Some, None, length, slice_get, if◌then◌else◌, IfOk, IfSome, OnErr};
ghost use Rattle.std.specs.Prelude.{[], ◌∷◌, ◌≤◌, reverse};
ghost use Rattle.std.specs.List.{IsDistinct, swap_remove};
ghost use Rattle.std.specs.Map.{keys_of, lookup};
ghost use Rattle.indexmap.specs.IndexMap.{index_map_len, values, with_value_at};
ghost use Rattle.sq_message.specs.Parts.{squitter_parts};
ghost use Rattle.sq_track.specs.Held.{contact_of};
ghost use Rattle.sq_track.specs.Kept.{IsContactHearing};
ghost use Rattle.sq_track.specs.declared.contact.Contact.{Contact};
ghost use Rattle.sq_track.specs.Ordered.{blank_contact, moments_in, others_in};
ghost use Rattle.sq_track.specs.Ring.{IsLinkedTable, IsReached, IsRound, address_at, round};

use crate::contact::{Contact, Side};
use crate::heard::Heard;
use crate::links::{Neighbours, join, links_at, put_last, take_out};
use indexmap::IndexMap;
use sq_angle::Position;
use sq_message::Squitter;
use std::alloc::{AllocError, Allocator, Global};
use std::hash::{BuildHasherDefault, FoldHasher};
use std::marker::Model;

// The contact of each address.
type Table<A> = IndexMap<u32, Contact, BuildHasherDefault<FoldHasher>, A>;

/// The contacts by address, the longest silent first.
#[derive(Drop)]
pub struct Contacts<A: Allocator = Global> {
    table: Table<A>,
    // Links the indices of the table in the order of last hearing, and the last heard to the longest silent. A
    // separate array: hearing an address writes the links of up to four others, and loads none of their entries.
    links: Vec<Neighbours, A>,
    // The table index of the longest silent address, if there is one.
    oldest: u32,
}

impl<A: Allocator> Model for Contacts<A> {
    ghost use Rattle.std.specs.Prelude.{ℕ, List};
    ghost use Rattle.sq_track.specs.Ordered.{entries_in};
    ghost use Rattle.sq_track.specs.Ring.{IsLinkedTable, addresses_in};
    ghost use Rattle.sq_track.specs.declared.contact.Contact.{Contact};

    ghost Value = { List (ℕ × Contact) };

    ghost view = { λ t. entries_in t.table.entries (addresses_in t.table.entries t.links.items t.oldest) };

    ghost invariant = { λ t. IsLinkedTable t.table.entries t.links.items t.oldest };
}

// Returns the address at an index of the table, and the timestamp of its newest position.
#[inline(always)]
fn moment_at<A: Allocator>(table: &Table<A>, at: u32) -> Option<(u32, u64)>
    ensures entry { result ≡ slice_get (moments_in table.now.entries) at }
    ensures found { IfSome (slice_get table.now.entries at)
        (λ entry. lookup (nat_eq entry.0) table.now.entries ≡ Some entry.1) }
{
    match table.get_index(at as usize) {
        Some((address, contact)) => Some((*address, contact.moment)),
        None => None,
    }
}

// Returns the address at an index of the table, and its contact.
fn entry_at<A: Allocator>(table: &Table<A>, at: u32) -> Option<(u32, Contact)>
    ensures entry { result ≡ slice_get table.now.entries at }
    ensures found { IfSome (slice_get table.now.entries at)
        (λ entry. lookup (nat_eq entry.0) table.now.entries ≡ Some entry.1) }
{
    match table.get_index(at as usize) {
        Some((address, contact)) => Some((*address, *contact)),
        None => None,
    }
}

// Returns the table index of the address at an index, the longest silent first.
fn nth(links: &[Neighbours], oldest: u32, index: usize) -> Option<u32>
    requires { IsRound links.now oldest }
    ensures index { result ≡ slice_get (round links.now oldest) index }
    ensures within { IfSome result (λ at. at < length links.now) }
{
    if index >= links.len() {
        return None;
    }
    let mut at = oldest;
    for _ in 0..index {
        at = links[at as usize].after;
    }
    Some(at)
}

// Returns the decoder state of an aircraft before its first position.
fn blank() -> Contact
    ensures { result ≡ blank_contact }
{
    Contact {
        moment: 0,
        airborne: Side {
            even: None,
            odd: None,
            fix: None,
        },
        surface: Side {
            even: None,
            odd: None,
            fix: None,
        },
    }
}

// Finds or creates the entry of an address, and returns its table index. A known address needs no memory.
#[inline(always)]
fn reach<A: Allocator>(
    table: &mut Table<A>,
    links: &mut Vec<Neighbours, A>,
    oldest: &mut u32,
    address: u32,
) -> Result<u32, AllocError>
    requires linked { IsLinkedTable table.old.entries links.old.items oldest.old }
    requires room { length table.old.entries < 2 ^ 32 }
    ensures ok { IfOk result (λ at. IsReached address at table.old.entries table.new.entries links.old.items
        links.new.items oldest.old oldest.new) }
    ensures err { OnErr result ((table.new.entries ≡ table.old.entries) × (links.new.items ≡ links.old.items)
        × (oldest.new ≡ oldest.old)) }
    ensures absent { OnErr result (lookup (nat_eq address) table.old.entries ≡ None) }
{
    match table.get_index_of(&address) {
        Some(at) => Ok(at as u32),
        None => enter(table, links, oldest, address),
    }
}

// Creates an entry for an absent address at the end of the round. Removes its links again if the table cannot grow.
#[inline(never)]
fn enter<A: Allocator>(
    table: &mut Table<A>,
    links: &mut Vec<Neighbours, A>,
    oldest: &mut u32,
    address: u32,
) -> Result<u32, AllocError>
    requires linked { IsLinkedTable table.old.entries links.old.items oldest.old }
    requires room { length table.old.entries < 2 ^ 32 }
    requires absent { lookup (nat_eq address) table.old.entries ≡ None }
    ensures ok { IfOk result (λ at. IsReached address at table.old.entries table.new.entries links.old.items
        links.new.items oldest.old oldest.new) }
    ensures err { OnErr result ((table.new.entries ≡ table.old.entries) × (links.new.items ≡ links.old.items)
        × (oldest.new ≡ oldest.old)) }
{
    let at = table.len() as u32;
    links.push(Neighbours {
        before: at,
        after: at,
    })?;
    match table.insert(address, blank()) {
        Ok(_) => {
            *oldest = join(links, *oldest, at);
            Ok(at)
        }
        Err(_) => {
            links.pop();
            Err(AllocError)
        }
    }
}

// Adds a squitter to the contact at a table index.
#[inline(always)]
fn hear_at<A: Allocator>(
    table: &mut Table<A>,
    at: u32,
    window_ms: u64,
    site: Option<&Position>,
    moment: u64,
    squitter: &Squitter,
) -> Heard
    requires { at < index_map_len table.old }
    ensures { (before : Contact) × (after : Contact) × (slice_get (values table.old) at ≡ Some before)
        × IsContactHearing window_ms (option_copied site.entry) moment squitter.now before result after
        × (table.new ≡ with_value_at table.old at after) }
{
    table[at as usize].hear(window_ms, site, moment, squitter)
}

// Sets the contact at a table index.
fn set_at<A: Allocator>(table: &mut Table<A>, at: u32, contact: &Contact)
    requires { at < index_map_len table.old }
    ensures { (before : Contact) × (slice_get (values table.old) at ≡ Some before)
        × (table.new ≡ with_value_at table.old at contact.now) }
{
    table[at as usize] = *contact;
}

// Removes an entry of the table. The last entry moves to its index.
fn remove_at<A: Allocator>(table: &mut Table<A>, at: usize)
    requires { at < index_map_len table.old }
    ensures entries { (entry : ℕ × Contact) × (table.new.entries ≡ swap_remove table.old.entries at entry) }
    ensures len { length table.new.entries + 1 ≡ length table.old.entries }
    ensures contacts { (k : ℕ) → lookup (nat_eq k) table.new.entries
        ≡ (if nat_eq (address_at table.old.entries at) k then None else lookup (nat_eq k) table.old.entries) }
{
    table.swap_remove_index(at);
}

impl<A: Allocator + Copy> Contacts<A> {
    /// Returns an empty table.
    pub fn new(alloc: A) -> Contacts<A>
        ensures { result ≡ [] }
    {
        Contacts {
            table: IndexMap::new(alloc),
            links: Vec::new(alloc),
            oldest: 0,
        }
    }

    /// Returns an empty table with room for `count` contacts. Removed addresses use up slots, so the capacity is
    /// twice `count`.
    pub fn with_room(alloc: A, count: usize) -> Result<Contacts<A>, AllocError>
        requires { count ≤ 2 ^ 32 }
        ensures { IfOk result (λ contacts. contacts ≡ []) }
    {
        let table = IndexMap::with_capacity(alloc, 2 * count)?;
        let links = Vec::with_capacity(alloc, count)?;
        Ok(Contacts {
            table,
            links,
            oldest: 0,
        })
    }
}

impl<A: Allocator> Contacts<A> {
    /// Returns the number of contacts.
    pub fn len(&self) -> usize
        ensures len { result ≡ length self.now }
        ensures unique { IsDistinct nat_eq (keys_of self.now) }
    {
        self.table.len()
    }

    /// Returns whether an address has a contact.
    pub fn contains(&self, address: u32) -> bool
        ensures { result ≡ is_some (lookup (nat_eq address) self.now) }
    {
        self.table.contains_key(&address)
    }

    /// Returns the longest silent address and the timestamp of its newest position.
    #[inline(always)]
    pub fn oldest(&self) -> Option<(u32, u64)>
        ensures { result ≡ slice_get (moments_in self.now) 0 }
    {
        moment_at(&self.table, self.oldest)
    }

    /// Returns the address at an index, the longest silent first, and the timestamp of its newest position.
    pub fn get_index(&self, index: usize) -> Option<(u32, u64)>
        ensures { result ≡ slice_get (moments_in self.now) index }
    {
        match nth(&self.links, self.oldest, index) {
            Some(at) => moment_at(&self.table, at),
            None => None,
        }
    }

    /// Adds a squitter to the contact of its address, and moves the address to the end. A known address needs no
    /// memory. Needs fewer than 2^32 addresses.
    #[inline(always)]
    pub fn hear_last(
        &mut self,
        window_ms: u64,
        site: Option<&Position>,
        moment: u64,
        address: u32,
        squitter: &Squitter,
    ) -> Result<Heard, AllocError>
        requires sender { (squitter_parts squitter.now).address ≡ address }
        requires room { length self.old < 2 ^ 32 }
        ensures ok { IfOk result (λ heard. (after : Contact)
            × IsContactHearing window_ms (option_copied site.entry) moment squitter.now
            (contact_of self.old address) heard after
            × (self.new ≡ others_in address self.old ++ (address, after) ∷ [])) }
        ensures err { OnErr result (self.new ≡ self.old) }
        ensures absent { OnErr result (lookup (nat_eq address) self.old ≡ None) }
    {
        let at = reach(&mut self.table, &mut self.links, &mut self.oldest, address)?;
        // Reading the links first lets both cache misses overlap. Writing them first would delay the entry's reads: the
        // processor holds reads back behind writes to addresses that it does not know yet.
        let own = links_at(&self.links, at);
        let heard = hear_at(&mut self.table, at, window_ms, site, moment, squitter);
        self.oldest = put_last(&mut self.links, self.oldest, at, own);
        Ok(heard)
    }

    /// Sets the contact of an address, and moves the address to the end. Needs fewer than 2^32 addresses.
    pub fn put_last(&mut self, address: u32, contact: &Contact) -> Result<(), AllocError>
        requires room { length self.old < 2 ^ 32 }
        ensures ok { IfOk result (λ u. self.new ≡ others_in address self.old ++ (address, contact.now) ∷ []) }
        ensures err { OnErr result (self.new ≡ self.old) }
    {
        let at = reach(&mut self.table, &mut self.links, &mut self.oldest, address)?;
        let places = links_at(&self.links, at);
        set_at(&mut self.table, at, contact);
        self.oldest = put_last(&mut self.links, self.oldest, at, places);
        Ok(())
    }

    /// Returns the timestamp of the newest position of the last address, or 0 if there are no addresses.
    pub fn newest_moment(&self) -> u64
        ensures none { self.now ≡ [] → result ≡ 0 }
        ensures last { (index : ℕ) → index + 1 ≡ length self.now
            → IfSome (slice_get (moments_in self.now) index) (λ entry. result ≡ entry.1) }
    {
        let links: &[Neighbours] = &self.links;
        if self.table.len() == 0 {
            return 0;
        }
        match moment_at(&self.table, links_at(links, self.oldest).before) {
            Some((_, newest)) => newest,
            None => 0,
        }
    }

    /// Returns the last heard address, and its contact.
    pub fn newest(&self) -> Option<(u32, Contact)>
        ensures { result ≡ slice_get (reverse self.now) 0 }
    {
        let links: &[Neighbours] = &self.links;
        if self.table.len() == 0 {
            return None;
        }
        entry_at(&self.table, links_at(links, self.oldest).before)
    }

    /// Returns the entry after the one at an index, the last heard first, given the address at the index.
    pub fn entry_ahead(&self, index: usize, address: u32) -> Option<(u32, Contact)>
        requires { (contact : Contact) × (slice_get (reverse self.now) index ≡ Some (address, contact)) }
        ensures { result ≡ slice_get (reverse self.now) (index + 1) }
    {
        if index >= self.table.len().saturating_sub(1) {
            return None;
        }
        match self.table.get_index_of(&address) {
            Some(at) => entry_at(&self.table, links_at(&self.links, at as u32).before),
            None => None,
        }
    }

    /// Returns the address at an index, the longest silent first, and its contact. The cost grows with the index.
    pub fn entry(&self, index: usize) -> Option<(u32, Contact)>
        ensures { result ≡ slice_get self.now index }
    {
        match nth(&self.links, self.oldest, index) {
            Some(at) => entry_at(&self.table, at),
            None => None,
        }
    }

    /// Returns the entry after the one at an index, given the address at the index.
    pub fn entry_behind(&self, index: usize, address: u32) -> Option<(u32, Contact)>
        requires { (contact : Contact) × (slice_get self.now index ≡ Some (address, contact)) }
        ensures { result ≡ slice_get self.now (index + 1) }
    {
        if index >= self.table.len().saturating_sub(1) {
            return None;
        }
        match self.table.get_index_of(&address) {
            Some(at) => entry_at(&self.table, links_at(&self.links, at as u32).after),
            None => None,
        }
    }

    /// Drops all addresses.
    pub fn clear(&mut self)
        ensures { self.new ≡ [] }
    {
        self.table.clear();
        self.links.clear();
        self.oldest = 0;
    }

    /// Drops the longest silent address, if there is one.
    pub fn remove_oldest(&mut self)
        ensures { (address newest : ℕ) → slice_get (moments_in self.old) 0 ≡ Some (address, newest)
            → self.new ≡ others_in address self.old }
    {
        let at = self.oldest;
        if (at as usize) < self.table.len() {
            self.oldest = take_out(&mut self.links, at, at);
            remove_at(&mut self.table, at as usize);
        }
    }
}
