//! Lists of watches, linked in place: a watch moves from one list to another without memory, and nothing is written for
//! one that stays.

ghost use Rattle.std.specs.Prelude.{◌≡◌, ℕ, ◌+◌, ◌≤◌, ◌<◌, [], ◌∷◌, ◌++◌, length, take, drop, replicate, Option, slice_index, slice_set, None, OnOk, MatchOption, ◌↔◌, vec_len, vec_capacity};
ghost use Rattle.std.specs.List.Sorted.{IsNonDecreasing};
ghost use Rattle.mal_watch.specs.{Leaving.{pairs_left}, Watches.{links_of, keys_of}, WatchLists.{Has, AreOnce, IsAt, list_from, IsList, AreLinked, IsWalk, AreListed}, Watching.{partner, from_open}};

use crate::link::Link;
use mal_base::{ClauseId, Lit, grown};
use mal_store::{Store, is_among};
use mal_trail::Trail;
use std::alloc::{AllocError, Global};
use std::marker::Model;

/// So many watches there may be.
const MOST: usize = 4_294_967_295;

/// The watch after this one in its list, and the literal whose list it is. The literal stands beside the link: whether
/// the other watched one is true is seen without the clause.
#[derive(Clone, Copy)]
struct Watch {
    next: Link,
    key: Lit,
}

/// Watches, each in the list of its literal. Those of one literal are taken out, and put back one after another, into
/// its list or another. That list is walked in place: the watches that are out are the rest of it, and one that goes
/// back into it stays where it is. Contracts see each watch's literal, the watches taken out, in the order in which
/// they go back, how many lists there are (one for each code of a literal below this number), and how many watches more
/// there is room for.
#[derive(Drop)]
pub struct WatchLists {
    heads: Vec<Link>,
    watches: Vec<Watch>,
    // The first watch that is out, the list that is walked, and the watch before it in that list.
    taken: Link,
    walked: usize,
    last: Link,
}

impl Model for WatchLists {
    ghost use Rattle.std.specs.Prelude.{◌-◌, length, min};
    ghost use Rattle.std.specs.Vec.{vec_len, vec_capacity};
    ghost use Rattle.mal_watch.specs.{WatchLists.{ListedWatches, AreLinked, IsWalk, AreListed, link_at, list_from}, Links.{nowhere}, Watches.{links_of, keys_of}};

    ghost Value = { ListedWatches };

    ghost view = { λ c. record {
      keys = keys_of c.watches.items;
      out = list_from (links_of c.watches.items) (length (links_of c.watches.items)) c.taken;
      count = length c.heads.items;
      room = min (vec_capacity c.watches - vec_len c.watches) (nowhere - vec_len c.watches);
    } };

    ghost invariant = { λ c. AreLinked c.heads.items (links_of c.watches.items) (keys_of c.watches.items)
        × IsWalk (links_of c.watches.items) (link_at c.heads.items c.walked) c.taken c.last
        × AreListed (length c.heads.items) (keys_of c.watches.items) };
}

impl WatchLists {
    /// No watch and no list. Takes no memory.
    pub fn new(alloc: Global) -> WatchLists
        ensures keys { result.keys ≡ [] }
        ensures out { result.out ≡ [] }
    {
        WatchLists {
            heads: Vec::new(alloc),
            watches: Vec::new(alloc),
            taken: Link::none(),
            walked: 0,
            last: Link::none(),
        }
    }

    /// Makes so many lists, if there are fewer, and room for so many watches more. There are fewer than 2^32 watches.
    pub fn reserve(&mut self, lists: usize, watches: usize) -> Result<(), AllocError>
        ensures lists { OnOk result (lists ≤ self.new.count) }
        ensures room { OnOk result (watches ≤ self.new.room) }
        ensures more_lists { self.old.count ≤ self.new.count }
        ensures more_room { self.old.room ≤ self.new.room }
        ensures keys { self.new.keys ≡ self.old.keys }
        ensures out { self.new.out ≡ self.old.out }
    {
        // A link is four bytes, and its greatest number is no watch.
        grown(self.watches.len(), watches, MOST)?;
        self.watches.reserve(watches)?;
        if self.heads.len() < lists {
            self.heads.resize(lists, Link::none())?;
        }
        Ok(())
    }

    /// The literal of a watch.
    pub fn key(&self, watch: usize) -> Lit
        requires { watch < length self.now.keys }
        ensures { result ≡ slice_index self.now.keys watch }
    {
        self.watches[watch].key
    }

    /// Adds a watch to the list of a literal, where none is out. Takes no memory.
    pub fn add(&mut self, key: Lit)
        requires out { self.old.out ≡ [] }
        requires list { key < self.old.count }
        requires room { 1 ≤ self.old.room }
        ensures keys { self.new.keys ≡ self.old.keys ++ key ∷ [] }
        ensures out { self.new.out ≡ self.old.out }
        ensures lists { self.new.count ≡ self.old.count }
        ensures room { self.old.room ≤ self.new.room + 1 }
    {
        let list = key.code() as usize;
        let watch = self.watches.len();
        let next = self.heads[list];
        self.watches.push_reserved(Watch { next, key });
        self.heads[list] = Link::to(watch);
    }

    /// Takes all watches of a literal out, where none is out.
    pub fn take(&mut self, key: Lit)
        requires { self.old.out ≡ [] }
        ensures watches { (k : ℕ) → Has self.new.out k ↔ IsAt self.new.keys k key }
        ensures once { AreOnce self.new.out }
        ensures keys { self.new.keys ≡ self.old.keys }
        ensures lists { self.new.count ≡ self.old.count }
        ensures room { self.new.room ≡ self.old.room }
    {
        let list = key.code() as usize;
        if list < self.heads.len() {
            self.taken = self.heads[list];
            self.walked = list;
            self.last = Link::none();
        }
    }

    /// The first of the watches taken out. None exactly where none is out.
    pub fn first(&self) -> Option<usize>
        ensures { MatchOption result (self.now.out ≡ [])
            (λ k. (self.now.out ≡ k ∷ drop 1 self.now.out) × (k < length self.now.keys)) }
    {
        self.taken.watch()
    }

    /// Puts back the first of the watches taken out, as many as stay since the other watched literal of their clause is
    /// true under the first entries of the trail, so many. Clauses have two watches each, in order.
    pub fn spare(&mut self, trail: &Trail, count: usize)
        requires count { count ≤ length trail.now.entries }
        requires paired { (k : ℕ) → k < length self.old.keys → partner k < length self.old.keys }
        ensures out { self.new.out ≡ from_open (take count trail.now.entries) self.old.keys self.old.out }
        ensures keys { self.new.keys ≡ self.old.keys }
        ensures lists { self.new.count ≡ self.old.count }
        ensures room { self.new.room ≡ self.old.room }
    {
        // The clauses are not looked at: a cut that takes the other literal away takes the false one away first.
        let (taken, last) = passed(self.watches.as_slice(), trail, count, self.taken, self.last);
        self.taken = taken;
        self.last = last;
    }

    /// Puts the first of the watches taken out into the list of a literal.
    pub fn put(&mut self, watch: usize, key: Lit)
        requires first { self.old.out ≡ watch ∷ drop 1 self.old.out }
        requires list { key < self.old.count }
        ensures keys { self.new.keys ≡ slice_set self.old.keys watch key }
        ensures out { self.new.out ≡ drop 1 self.old.out }
        ensures lists { self.new.count ≡ self.old.count }
        ensures room { self.new.room ≡ self.old.room }
    {
        let list = key.code() as usize;
        let first = self.taken;
        let rest = self.watches[watch].next;
        self.taken = rest;
        if list == self.walked {
            // It stays where it is.
            self.last = first;
            return;
        }
        // The list that is walked leads past it.
        match self.last.watch() {
            Some(last) => self.watches[last].next = rest,
            None => self.heads[self.walked] = rest,
        }
        let next = self.heads[list];
        self.watches[watch] = Watch { next, key };
        self.heads[list] = first;
    }

    /// Gives up the watches of the long clauses of these numbers, which rise, where each has two watches, in order. The
    /// others are in the lists of their literals afterwards, and none is out. Takes no memory.
    pub fn forget(&mut self, store: &Store, ids: &[ClauseId])
        requires { IsNonDecreasing ids.now }
        ensures keys { self.new.keys ≡ pairs_left ids.now store.now.long self.old.keys }
        ensures out { self.new.out ≡ [] }
        ensures lists { self.new.count ≡ self.old.count }
        ensures room { self.old.room ≤ self.new.room }
        ensures won { length self.old.keys + self.old.room ≤ length self.new.keys + self.new.room }
    {
        keep_pairs(&mut self.watches, store, ids);
        // Watches move up where others go, so all lists are linked anew: that is one pass, and reductions are rare.
        self.heads.fill(Link::none());
        self.taken = Link::none();
        link_all(&mut self.heads, &mut self.watches);
    }
}

/// The other of the two watches of a clause.
pub fn partner(watch: usize) -> usize
    ensures { result ≡ partner watch }
{
    // The two differ in the last bit.
    watch ^ 1
}

/// Passes the watches from one on along the links while the other watched literal of their clause is true under the
/// first entries of the trail, so many. The result is the first that is not passed, and the one before it.
fn passed(watches: &[Watch], trail: &Trail, count: usize, from: Link, before: Link) -> (Link, Link)
    requires count { count ≤ length trail.now.entries }
    requires list { IsList (links_of watches.now) from
        (list_from (links_of watches.now) (length (links_of watches.now)) from) }
    requires paired { (k : ℕ) → k < length watches.now → partner k < length watches.now }
    ensures rest { list_from (links_of watches.now) (length (links_of watches.now)) result.0
        ≡ from_open (take count trail.now.entries) (keys_of watches.now)
        (list_from (links_of watches.now) (length (links_of watches.now)) from) }
    ensures walk { (head : Option ℕ) → IsWalk (links_of watches.now) head from before
        → IsWalk (links_of watches.now) head result.0 result.1 }
{
    let mut taken = from;
    let mut last = before;
    // Nearly all watches are passed here, so the loop writes nothing.
    while let Some(watch) = taken.watch() {
        if !trail.is_true_before(count, watches[partner(watch)].key) {
            return (taken, last);
        }
        last = taken;
        taken = watches[watch].next;
    }
    (taken, last)
}

/// Keeps of watches, two for each long clause, those of the clauses without these numbers, which rise. Takes no memory.
fn keep_pairs(watches: &mut Vec<Watch>, store: &Store, ids: &[ClauseId])
    requires { IsNonDecreasing ids.now }
    ensures items { watches.new.items ≡ pairs_left ids.now store.now.long watches.old.items }
    ensures len { vec_len watches.new ≤ vec_len watches.old }
    ensures capacity { vec_capacity watches.new ≡ vec_capacity watches.old }
{
    let mut kept = 0;
    for place in 0..store.count_long().min(watches.len() / 2) {
        if !is_among(ids, store.long_id(place)) {
            let first = watches[2 * place];
            let second = watches[2 * place + 1];
            watches[kept] = first;
            watches[kept + 1] = second;
            kept += 2;
        }
    }
    watches.truncate(kept);
}

/// Links watches into the lists of their literals, which are empty.
fn link_all(heads: &mut Vec<Link>, watches: &mut Vec<Watch>)
    requires empty { heads.old.items ≡ replicate (vec_len heads.old) None }
    requires listed { AreListed (vec_len heads.old) (keys_of watches.old.items) }
    ensures linked { AreLinked heads.new.items (links_of watches.new.items) (keys_of watches.new.items) }
    ensures keys { keys_of watches.new.items ≡ keys_of watches.old.items }
    ensures lists { vec_len heads.new ≡ vec_len heads.old }
    ensures capacity { vec_capacity watches.new ≡ vec_capacity watches.old }
{
    for place in 0..watches.len() {
        let key = watches[place].key;
        let list = key.code() as usize;
        let next = heads[list];
        watches[place] = Watch { next, key };
        heads[list] = Link::to(place);
    }
}
