//! Going over the clauses that watch a literal which has become false.

ghost use Rattle.std.specs.Prelude.{◌≡◌, ◌+◌, ◌≤◌, ◌<◌, [], ◌++◌, length, take, drop, ◌∷◌, slice_index, slice_index_or, MatchOption, vec_len, vec_capacity};
ghost use Rattle.std.specs.Option.{option_to_list};
ghost use Rattle.mal_store.specs.Arena.{no_clause};
ghost use Rattle.mal_watch.specs.{Watching.{IsOther, AreOthersFalse}, Going.{Turns, Goes}, Finding.{found_at, found_in}};

use crate::found::Found;
use crate::watch_lists::{WatchLists, partner};
use mal_base::Lit;
use mal_store::Store;
use mal_trail::Trail;

/// The place of the first literal that may be watched in another's place: not this one, and not false under the first
/// entries of the trail, so many.
fn first_replacement(trail: &Trail, count: usize, lits: &[Lit], other: Lit) -> Option<usize>
    requires { count ≤ length trail.now.entries }
    ensures { MatchOption result (AreOthersFalse (take count trail.now.entries) other lits.now)
        (λ i. (i < length lits.now) × IsOther (take count trail.now.entries) other lits.now (slice_index lits.now i)) }
{
    for place in 0..lits.len() {
        let lit = lits[place];
        if lit != other && !trail.is_false_before(count, lit) {
            return Some(place);
        }
    }
    None
}

/// The same, sought from a place on and round to it.
fn replacement_from(
    trail: &Trail,
    count: usize,
    lits: &[Lit],
    other: Lit,
    from: usize,
) -> Option<usize>
    requires { count ≤ length trail.now.entries }
    ensures { MatchOption result (AreOthersFalse (take count trail.now.entries) other lits.now)
        (λ i. (i < length lits.now) × IsOther (take count trail.now.entries) other lits.now (slice_index lits.now i)) }
{
    let start = from.min(lits.len());
    let (before, after) = lits.split_at(start);
    match first_replacement(trail, count, after, other) {
        Some(place) => return Some(start + place),
        None => {}
    }
    first_replacement(trail, count, before, other)
}

/// The place of a literal of a long clause that may be watched in the place of one that is false: not false under the
/// first entries of the trail, so many, and not the other watched one. A clause of two literals has no other, and is not
/// looked at.
fn replacement(
    store: &Store,
    trail: &Trail,
    count: usize,
    clause: usize,
    other: Lit,
) -> Option<usize>
    requires count { count ≤ length trail.now.entries }
    requires clause { clause < length store.now.long }
    requires two { length (slice_index_or store.now.long clause no_clause).lits ≡ 2
        → AreOthersFalse (take count trail.now.entries) other (slice_index_or store.now.long clause no_clause).lits }
    ensures { MatchOption result
        (AreOthersFalse (take count trail.now.entries) other (slice_index_or store.now.long clause no_clause).lits)
        (λ i. (i < length (slice_index_or store.now.long clause no_clause).lits)
        × IsOther (take count trail.now.entries) other (slice_index_or store.now.long clause no_clause).lits
        (slice_index (slice_index_or store.now.long clause no_clause).lits i)) }
{
    let lits = store.long_lits(clause);
    if lits.len() == 2 {
        return None;
    }
    // From where the last one was found on; the place is a hint of which no contract speaks.
    replacement_from(trail, count, lits, other, store.search_start(clause))
}

/// Visits the first watch that is out, which is of the literal that became false by the last of the first entries, so
/// many: it goes to another literal that is not false, or back. Where the other watched literal alone is left, and not
/// true, the clause is found.
fn visit(
    lists: &mut WatchLists,
    store: &mut Store,
    trail: &Trail,
    count: usize,
    lit: Lit,
    watch: usize,
) -> Option<Found>
    requires turns { Turns trail.now.entries count lit }
    requires first { lists.old.out ≡ watch ∷ drop 1 lists.old.out }
    requires goes { Goes trail.now.entries count lit lists.old.count store.old.long lists.old.keys
        (watch ∷ drop 1 lists.old.out) }
    ensures goes { Goes trail.now.entries count lit lists.new.count store.old.long lists.new.keys
        (drop 1 lists.old.out) }
    ensures found { option_to_list result
        ≡ found_at (take count trail.now.entries) trail.now.entries store.old.long watch }
    ensures out { lists.new.out ≡ drop 1 lists.old.out }
    ensures store { store.new ≡ store.old }
    ensures lists { lists.new.count ≡ lists.old.count }
    ensures lists_room { lists.new.room ≡ lists.old.room }
{
    let clause = watch / 2;
    let other = lists.key(partner(watch));
    match replacement(store, trail, count, clause, other) {
        Some(place) => {
            lists.put(watch, store.long_lits(clause)[place]);
            store.keep_search_start(clause, place);
            None
        }
        None => {
            lists.put(watch, lit);
            if !trail.is_false_before(count, other) && !trail.is_true(other) {
                Some(Found {
                    id: store.long_id(clause),
                    lit: other,
                })
            } else {
                None
            }
        }
    }
}

/// Visits all watches that are out, which are of the literal that became false by the last of the first entries, so
/// many. What is found of them is put after the rest.
pub fn walk(
    lists: &mut WatchLists,
    found: &mut Vec<Found>,
    store: &mut Store,
    trail: &Trail,
    count: usize,
    lit: Lit,
)
    requires turns { Turns trail.now.entries count lit }
    requires goes { Goes trail.now.entries count lit lists.old.count store.old.long lists.old.keys lists.old.out }
    requires room { vec_len found.old + length lists.old.out ≤ vec_capacity found.old }
    ensures goes { Goes trail.now.entries count lit lists.new.count store.old.long lists.new.keys [] }
    ensures found { found.new.items
        ≡ found.old.items ++ found_in (take count trail.now.entries) trail.now.entries store.old.long lists.old.out }
    ensures out { lists.new.out ≡ [] }
    ensures store { store.new ≡ store.old }
    ensures lists { lists.new.count ≡ lists.old.count }
    ensures lists_room { lists.new.room ≡ lists.old.room }
    ensures capacity { vec_capacity found.new ≡ vec_capacity found.old }
{
    lists.spare(trail, count);
    while let Some(watch) = lists.first() {
        match visit(lists, store, trail, count, lit, watch) {
            Some(clause) => found.push_reserved(clause),
            None => {}
        }
        lists.spare(trail, count);
    }
}
