//! Stores whose clauses are known.

use super::values::{has_lits, ids, lits};
use mal_base::{ClauseId, ClauseView, Lit};
use mal_store::Store;
use std::alloc::{AllocError, Global};

/// Adds a clause under a number that is not held.
fn enter(store: &mut Store, id: ClauseId, lits: &[Lit]) -> Result<(), AllocError> {
    if store.get(id).is_some() {
        return Err(AllocError);
    }
    store.reserve(1, lits.len())?;
    store.add_reserved(id, lits);
    Ok(())
}

/// A clause by its number and its literals.
type Row<'a> = (u64, &'a [i32]);

/// Adds a clause.
fn add(store: &mut Store, alloc: Global, row: Row) -> Option<()> {
    let (number, numbers) = row;
    let id = ClauseId::of(number)?;
    let lits = lits(alloc, numbers)?;
    enter(store, id, lits.as_slice()).ok()
}

/// The store of these clauses.
fn filled(alloc: Global, rows: &[Row]) -> Option<Store> {
    let mut store = Store::new(alloc);
    for row in rows {
        add(&mut store, alloc, *row)?;
    }
    Some(store)
}

/// Whether these are the literals of a clause that is held.
fn are(found: Option<&[Lit]>, numbers: &[i32]) -> bool {
    match found {
        None => false,
        Some(lits) => has_lits(lits, numbers),
    }
}

/// Whether a store has the clause of these literals under a number, by itself and by its view.
fn holds_one(store: &Store, number: u64, numbers: &[i32]) -> bool {
    match ClauseId::of(number) {
        None => false,
        Some(id) => are(store.get(id), numbers) && are(ClauseView::get(store, id), numbers),
    }
}

/// Whether a clause is held under this number.
fn is_held(store: &Store, number: u64) -> bool {
    match ClauseId::of(number) {
        None => false,
        Some(id) => store.get(id).is_some(),
    }
}

/// Whether a store has these clauses alone.
fn holds(store: &Store, rows: &[Row]) -> bool {
    for (number, numbers) in rows {
        if !holds_one(store, *number, numbers) {
            return false;
        }
    }
    store.len() == rows.len()
}

/// Whether the store of these clauses has them alone, and none under the number 4.
fn stand(alloc: Global, rows: &[Row]) -> Option<[bool; 2]> {
    let store = filled(alloc, rows)?;
    Some([holds(&store, rows), !is_held(&store, 4)])
}

#[test]
fn clauses_stand_by_rising_number(rt: HostRuntime) {
    assert!(rt; ClauseId::derived(0, 3).number() == 4_294_967_299);
    let rows: [Row; 2] = [(4_294_967_299, &[-2]), (5, &[1, -2])];
    assert!(rt; stand(rt.alloc(), &rows) == Some([true; 2]));
}

/// Four clauses, of which two are forgotten, whose literals stand before, between and after those of the others.
const FOUR: [Row<'static>; 4] = [
    (4_294_967_299, &[1, -2]),
    (5, &[-2, 3]),
    (4_294_967_360, &[3]),
    (2, &[1, 3]),
];

/// Forgets these clauses.
fn forget(store: &mut Store, alloc: Global, numbers: &[u64]) -> Option<()> {
    let mut gone = ids(alloc, numbers)?;
    store.forget(gone.as_mut_slice());
    Some(())
}

/// Whether a store of four has the two that stay alone when two are forgotten.
fn forgets(store: &mut Store, alloc: Global) -> Option<bool> {
    forget(store, alloc, &[4_294_967_360, 7, 4_294_967_299])?;
    Some(holds(store, &[(2, &[1, 3]), (5, &[-2, 3])]))
}

/// The same of a store that is new.
fn four_forgets(alloc: Global) -> Option<bool> {
    let mut store = filled(alloc, &FOUR)?;
    forgets(&mut store, alloc)
}

#[test]
fn a_store_forgets_the_clauses_of_some_numbers(rt: HostRuntime) {
    assert!(rt; four_forgets(rt.alloc()) == Some(true));
}
