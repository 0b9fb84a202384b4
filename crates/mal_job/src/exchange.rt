//! What the nodes of a job export.

ghost use Rattle.std.specs.Prelude.{◌≡◌, ◌%◌, ◌<◌, ◌≤◌, ◌++◌, nat_le, ◌&&◌, true, All, length, map, take, drop, IfOk, OnOk};
ghost use Rattle.mal_base.specs.Clauses.{rises};
ghost use Rattle.spec_exchange.specs.Exchange.{broadcast};
ghost use Rattle.spec_job.specs.{SoloMachine.{exports_from}, OnePass.{awaits, taken_from}};
ghost use Rattle.mal_job.specs.{Exports.{least_mark, marked, marked_at}, Viewed.{place_of}};

use crate::node_slot::NodeSlot;
use mal_base::{Clause, ClauseId, Lit, NumberedClause};
use mal_buffer::Buffer;
use mal_exchange::broadcast;
use mal_proof::Log;
use std::alloc::{AllocError, Global};

/// A clause that is exported has 16 literals at the most.
const MOST_LITERALS: usize = 16;

/// A tree has 64 places.
const PLACES: u64 = 64;

/// What is broadcast of a log for these places, the first ones of a job: of each that is at home the clauses that it
/// exports of the lines after its mark. The literals of each line rise by variable.
pub fn broadcast_of(alloc: Global, places: &[NodeSlot], log: &Log) -> Result<Buffer, AllocError>
    requires { All (λ line. rises line.lits ≡ true) log.now.lines }
    ensures { IfOk result
        (λ b. b ≡ broadcast (exports_from (length places.now) log.now.lines 0 (map place_of places.now))) }
{
    let entries = taken(alloc, places, log)?;
    Ok(broadcast(entries))
}

/// The clauses of the lines that are exported, in one pass over the log from the least mark on.
fn taken(alloc: Global, places: &[NodeSlot], log: &Log) -> Result<Vec<NumberedClause>, AllocError>
    requires { All (λ line. rises line.lits ≡ true) log.now.lines }
    ensures { IfOk result
        (λ v. v.items ≡ taken_from (length places.now) (map place_of places.now) 0 log.now.lines) }
{
    let count = log.count();
    let mut entries = Vec::new(alloc);
    for n in least_mark(places, count)..count {
        push_taken(alloc, &mut entries, places, log, n)?;
    }
    Ok(entries)
}

/// The least of a number and of the marks of those of these places that are at home.
fn least_mark(places: &[NodeSlot], most: usize) -> usize
    ensures { result ≡ least_mark most places.now }
{
    let mut least = most;
    for place in places {
        if !place.is_out() {
            least = least.min(place.mark());
        }
    }
    least
}

/// Puts the clause of a line after others, where the line is exported.
fn push_taken(
    alloc: Global,
    entries: &mut Vec<NumberedClause>,
    places: &[NodeSlot],
    log: &Log,
    n: usize,
) -> Result<(), AllocError>
    requires within { n < length log.now.lines }
    requires rising { All (λ line. rises line.lits ≡ true) log.now.lines }
    ensures { OnOk result
        (entries.new.items
        ≡ entries.old.items
        ++ taken_from (length places.now) (map place_of places.now) n (take 1 (drop n log.now.lines))) }
{
    let id = log.id(n);
    if !awaits(places, node_of(id), n) {
        return Ok(());
    }
    let lits = log.lits(n);
    if !may_export(lits) {
        return Ok(());
    }
    let clause = clause_of(alloc, lits)?;
    entries.push(NumberedClause::new(id, clause))?;
    Ok(())
}

/// The place of the node that derived the clause of this number.
fn node_of(id: ClauseId) -> usize
    ensures { result ≡ id % 64 }
{
    // The index of the node that derived a clause is what is left of its number divided by 64, so an exchange looks
    // into no node.
    (id.number() % PLACES) as usize
}

/// Whether the place of this index is one of these and at home, and the line that stands so far in the log came after
/// its mark.
fn awaits(places: &[NodeSlot], index: usize, n: usize) -> bool
    ensures { result ≡ awaits (length places.now) (map place_of places.now) index n }
{
    match places.get(index) {
        None => false,
        Some(place) => !place.is_out() && place.mark() <= n,
    }
}

/// Whether a clause of these literals may be exported.
fn may_export(lits: &[Lit]) -> bool
    ensures { result ≡ (nat_le 1 (length lits.now) && nat_le (length lits.now) 16) }
{
    if lits.is_empty() {
        return false;
    }
    lits.len() <= MOST_LITERALS
}

/// The clause of these literals, which rise by variable.
fn clause_of(alloc: Global, lits: &[Lit]) -> Result<Clause, AllocError>
    requires { rises lits.now ≡ true }
    ensures { IfOk result (λ c. c ≡ lits.now) }
{
    match Clause::of_rising(alloc, lits)? {
        None => unreachable!(),
        Some(clause) => Ok(clause),
    }
}

/// Moves the marks of those of the first places, so many, that are at home, to a length of the log.
pub fn move_marks(places: &mut Vec<NodeSlot>, count: usize, mark: usize)
    requires { count ≤ length places.old.items }
    ensures { places.new.items ≡ marked count mark places.old.items }
{
    for index in 0..count {
        move_mark(&mut places[index], mark);
    }
}

/// Moves the mark of a place that is at home.
fn move_mark(place: &mut NodeSlot, mark: usize)
    ensures { place.new ≡ marked_at mark place.old }
{
    if !place.is_out() {
        place.set_mark(mark);
    }
}
