//! Clauses in the order in which they came.

ghost use Rattle.std.specs.Prelude.{◌≡◌, ◌≢◌, ℕ, ◌+◌, ◌≤◌, ◌<◌, List, [], ◌∷◌, ◌++◌, length, take, drop, filter, slice_index_or, sum_by, OnOk, vec_len, vec_capacity};
ghost use Rattle.std.specs.{List.{SameBelow, SameFrom}, List.Sorted.{IsNonDecreasing}};
ghost use Rattle.spec_node.specs.Adding.{forgetting};
ghost use Rattle.mal_store.specs.{Arena.{no_clause, is_left, listed, lits_in, clause_in, IsBody, AreHeaders, clauses_in, IsFrom, end_of, AreLaid, IsFit, AreFit, len_of, listed_count}, declared.clause_arena.Header.{Header}};

use crate::ids::is_among;
use mal_base::{ClauseId, Lit, grown};
use std::alloc::{AllocError, Global};
use std::marker::Model;

/// So many clauses there may be, and so many literals in the list of all.
const MOST: usize = 4_294_967_295;

/// Where the literals of a clause stand: here, where they are three; else in the list of all, from a place on, so many,
/// and at which of them a search begins. A visit costs what it misses in the caches: the watch, the header, the
/// literals. A clause of three is spared the last.
#[derive(Clone, Copy)]
enum Body {
    Three([Lit; 3]),
    Listed {
        start: u32,
        len: u32,
        search_start: u32,
    },
}

/// What stands of a clause beside its literals: its number, and where they are.
#[derive(Clone, Copy)]
struct Header {
    id: ClauseId,
    body: Body,
}

/// Clauses in the order in which they came, the literals of those that have not three side by side. Contracts see them,
/// and how many clauses and literals there is room for. Where a search in a clause begins is kept beside it, and no
/// contract speaks of it.
#[derive(Drop)]
pub struct ClauseArena {
    headers: Vec<Header>,
    literals: Vec<Lit>,
}

impl Model for ClauseArena {
    ghost use Rattle.std.specs.Prelude.{◌-◌, ◌≤◌, length, min};
    ghost use Rattle.std.specs.Vec.{vec_len, vec_capacity};
    ghost use Rattle.mal_store.specs.Arena.{Arena, AreLaid, AreFit, clauses_in};

    ghost Value = { Arena };

    ghost view = { λ s. record {
      clauses = clauses_in s.literals.items s.headers.items;
      clause_room = min (vec_capacity s.headers - vec_len s.headers) (4294967295 - vec_len s.headers);
      literal_room = min (vec_capacity s.literals - vec_len s.literals) (4294967295 - vec_len s.literals);
    } };

    ghost invariant = { λ s. AreLaid 0 (length s.literals.items) s.headers.items × (length s.literals.items ≤ 4294967295)
        × AreFit s.headers.items × (length s.headers.items ≤ 4294967295) };
}

impl ClauseArena {
    /// No clause, and no room. Takes no memory.
    pub fn new(alloc: Global) -> ClauseArena
        ensures { result ≡ record { clauses = []; clause_room = 0; literal_room = 0 } }
    {
        ClauseArena {
            headers: Vec::new(alloc),
            literals: Vec::new(alloc),
        }
    }

    /// Makes room for so many clauses and literals more. There are fewer than 2^32 of either.
    pub fn reserve(&mut self, clauses: usize, literals: usize) -> Result<(), AllocError>
        ensures clauses { self.new.clauses ≡ self.old.clauses }
        ensures for_clauses { OnOk result (clauses ≤ self.new.clause_room) }
        ensures for_literals { OnOk result (literals ≤ self.new.literal_room) }
        ensures more_clauses { self.old.clause_room ≤ self.new.clause_room }
        ensures more_literals { self.old.literal_room ≤ self.new.literal_room }
    {
        grown(self.headers.len(), clauses, MOST)?;
        grown(self.literals.len(), literals, MOST)?;
        self.headers.reserve(clauses)?;
        self.literals.reserve(literals)?;
        Ok(())
    }

    /// The number of clauses, below 2^32.
    pub fn len(&self) -> usize
        ensures value { result ≡ length self.now.clauses }
        ensures few { result ≤ 4294967295 }
    {
        self.headers.len()
    }

    /// Adds a clause after the others, where there is room for it. Takes no memory.
    pub fn add_reserved(&mut self, id: ClauseId, lits: &[Lit])
        requires clause_room { 1 ≤ self.old.clause_room }
        requires literal_room { length lits.now ≤ self.old.literal_room }
        ensures clauses { self.new.clauses ≡ self.old.clauses ++ record { id = id; lits = lits.now } ∷ [] }
        ensures clause_room { self.old.clause_room ≤ self.new.clause_room + 1 }
        ensures literal_room { self.old.literal_room ≤ self.new.literal_room + listed lits.now }
    {
        let body = body_of(&mut self.literals, lits);
        self.headers.push_reserved(Header { id, body });
    }

    /// Gives up the clauses of these numbers, which rise, and closes the gaps: the room of the clauses, and of those of
    /// their literals that stand side by side, is room again. Takes no memory.
    pub fn forget(&mut self, ids: &[ClauseId])
        requires { IsNonDecreasing ids.now }
        ensures clauses { self.new.clauses ≡ forgetting ids.now self.old.clauses }
        ensures clause_room { self.old.clause_room ≤ self.new.clause_room }
        ensures literal_room { self.old.literal_room ≤ self.new.literal_room }
        ensures won_clauses { length self.old.clauses + self.old.clause_room
            ≤ length self.new.clauses + self.new.clause_room }
        ensures won { listed_count self.old.clauses + self.old.literal_room
            ≤ listed_count self.new.clauses + self.new.literal_room }
    {
        take_away(&mut self.headers, ids);
        close_up(&mut self.headers, &mut self.literals);
    }

    /// The number of the clause at a place, counted from 0.
    pub fn id(&self, place: usize) -> ClauseId
        requires { place < length self.now.clauses }
        ensures { result ≡ (slice_index_or self.now.clauses place no_clause).id }
    {
        self.headers[place].id
    }

    /// The literals of the clause at a place, counted from 0.
    pub fn lits(&self, place: usize) -> &[Lit]
        requires { place < length self.now.clauses }
        ensures { result.now ≡ (slice_index_or self.now.clauses place no_clause).lits }
    {
        lits_of(self.literals.as_slice(), &self.headers[place].body)
    }

    /// At which of its literals a search in the clause at a place begins, as it was kept last; the first of a clause of
    /// three.
    pub fn search_start(&self, place: usize) -> usize
        requires { place < length self.now.clauses }
    {
        match self.headers[place].body {
            Body::Three(_) => 0,
            Body::Listed { search_start, .. } => search_start as usize,
        }
    }

    /// Keeps at which of its literals the next search in the clause at a place begins. Nothing is kept of a clause of
    /// three.
    pub fn keep_search_start(&mut self, place: usize, search_start: usize)
        requires { place < length self.old.clauses }
        ensures { self.new ≡ self.old }
    {
        let header = self.headers[place];
        self.headers[place] = with_search_start(header, search_start);
    }
}

/// Takes the headers of these numbers, which rise, away. Takes no memory.
fn take_away(headers: &mut Vec<Header>, ids: &[ClauseId])
    requires { IsNonDecreasing ids.now }
    ensures items { (literals : List ℕ)
        → headers.new.items ≡ filter (λ r. is_left ids.now (clause_in literals r)) headers.old.items }
    ensures capacity { vec_capacity headers.new ≡ vec_capacity headers.old }
    ensures len { vec_len headers.new ≤ vec_len headers.old }
{
    headers.retain(|header| !is_among(ids, header.id));
}

/// Moves the literals of headers down, until there is no gap between them. Takes no memory.
fn close_up(headers: &mut Vec<Header>, literals: &mut Vec<Lit>)
    requires laid { AreLaid 0 (length literals.old.items) headers.old.items }
    requires few { length literals.old.items ≤ 4294967295 }
    requires fit { AreFit headers.old.items }
    ensures clauses { clauses_in literals.new.items headers.new.items ≡ clauses_in literals.old.items headers.old.items }
    ensures laid { AreLaid 0 (length literals.new.items) headers.new.items }
    ensures fit { AreFit headers.new.items }
    ensures total { vec_len literals.new ≡ sum_by (λ r. len_of r.body) headers.new.items }
    ensures headers { vec_len headers.new ≡ vec_len headers.old }
    ensures header_room { vec_capacity headers.new ≡ vec_capacity headers.old }
    ensures literals { vec_len literals.new ≤ vec_len literals.old }
    ensures room { vec_capacity literals.new ≡ vec_capacity literals.old }
{
    let mut end = 0;
    for place in 0..headers.len() {
        let header = headers[place];
        let (body, behind) = move_down(literals, header.body, end);
        headers[place] = Header {
            id: header.id,
            body,
        };
        end = behind;
    }
    literals.truncate(end);
}

/// Moves the literals of a clause down to a place. Tells where they stand then, and where the place after them is.
/// Takes no memory.
fn move_down(literals: &mut Vec<Lit>, body: Body, place: usize) -> (Body, usize)
    requires from { IsFrom place body }
    requires within { IsBody (length literals.old.items) body }
    requires few { length literals.old.items ≤ 4294967295 }
    ensures lits { lits_in literals.new.items result.0 ≡ lits_in literals.old.items body }
    ensures from { IsFrom place result.0 }
    ensures end { result.1 ≡ end_of place result.0 }
    ensures total { result.1 ≡ place + len_of result.0 }
    ensures fit { IsFit body → IsFit result.0 }
    ensures lower { result.1 ≤ end_of place body }
    ensures below { SameBelow literals.old.items literals.new.items place }
    ensures above { SameFrom literals.old.items literals.new.items (end_of place body) }
    ensures len { vec_len literals.new ≡ vec_len literals.old }
    ensures capacity { vec_capacity literals.new ≡ vec_capacity literals.old }
{
    match body {
        Body::Three(_) => (body, place),
        Body::Listed {
            start,
            len,
            search_start,
        } => {
            let first = start as usize;
            let count = len as usize;
            literals.copy_within(first..first + count, place);
            let moved = Body::Listed {
                start: place as u32,
                len,
                search_start,
            };
            (moved, place + count)
        }
    }
}

/// Puts the literals of a clause after the others, unless they are three. Tells where they stand. Takes no memory.
fn body_of(literals: &mut Vec<Lit>, lits: &[Lit]) -> Body
    requires room { vec_len literals.old + length lits.now ≤ vec_capacity literals.old }
    requires few { vec_len literals.old + length lits.now ≤ 4294967295 }
    ensures lits { lits_in literals.new.items result ≡ lits.now }
    ensures from { IsFrom (length literals.old.items) result }
    ensures end { end_of (length literals.old.items) result ≡ length literals.new.items }
    ensures headers { (rs : List Header) → AreHeaders (length literals.old.items) rs
        → AreHeaders (length literals.new.items) rs
        × (clauses_in literals.new.items rs ≡ clauses_in literals.old.items rs) }
    ensures fit { IsFit result }
    ensures len { vec_len literals.new ≡ vec_len literals.old + listed lits.now }
    ensures capacity { vec_capacity literals.new ≡ vec_capacity literals.old }
{
    match lits {
        [first, second, third] => Body::Three([*first, *second, *third]),
        _ => {
            let start = literals.len() as u32;
            append_reserved(literals, lits);
            Body::Listed {
                start,
                len: lits.len() as u32,
                search_start: 0,
            }
        }
    }
}

/// The literals that stand there.
fn lits_of<'a>(literals: &'a [Lit], body: &'a Body) -> &'a [Lit]
    requires { IsBody (length literals.now) body.now }
    ensures { result.now ≡ lits_in literals.now body.now }
{
    match body {
        Body::Three(lits) => lits,
        Body::Listed { start, len, .. } => part(literals, *start as usize, *len as usize),
    }
}

/// The same clause, in which a search begins at this literal, unless it has three.
fn with_search_start(header: Header, search_start: usize) -> Header
    ensures id { result.id ≡ header.id }
    ensures lits { (literals : List ℕ) → lits_in literals result.body ≡ lits_in literals header.body }
    ensures from { (low : ℕ) → IsFrom low header.body → IsFrom low result.body }
    ensures end { (low : ℕ) → end_of low result.body ≡ end_of low header.body }
    ensures fit { IsFit header.body → IsFit result.body }
{
    match header.body {
        Body::Three(_) => header,
        Body::Listed { start, len, .. } => Header {
            id: header.id,
            body: Body::Listed {
                start,
                len,
                search_start: search_start.min(MOST) as u32,
            },
        },
    }
}

/// So many literals from a place on.
fn part(literals: &[Lit], start: usize, len: usize) -> &[Lit]
    requires { start + len ≤ length literals.now }
    ensures { result.now ≡ take len (drop start literals.now) }
{
    let (_before, rest) = literals.split_at(start);
    let (part, _behind) = rest.split_at(len);
    part
}

/// Appends literals to a list that has room for them. Takes no memory.
fn append_reserved(list: &mut Vec<Lit>, lits: &[Lit])
    requires { vec_len list.old + length lits.now ≤ vec_capacity list.old }
    ensures items { list.new.items ≡ list.old.items ++ lits.now }
    ensures capacity { vec_capacity list.new ≡ vec_capacity list.old }
{
    for lit in lits {
        list.push_reserved(*lit);
    }
}
