//! What a node takes of the clauses that others exported: those whose literals no clause held has.

ghost use Rattle.std.specs.Prelude.{◌≡◌, ℕ, ◌||◌, true, not, bytes_eq, List, [], filter, IfOk, OnOk};
ghost use Rattle.mal_base.specs.NumberedClause.{NumberedClause};
ghost use Rattle.mal_filter.specs.Noted.{is_noted};
ghost use Rattle.spec_node.specs.{Import.{has_lits}, State.{Node}};
ghost use Rattle.mal_cdcl.specs.{Ready.{posted, readied}, Importing.{Sees, lent, picked, is_exported_in, is_posted_in, is_loaded_in}};

use mal_base::{ClauseList, Lit, NumberedClause};
use mal_buffer::Buffer;
use mal_filter::ClauseSet;
use mal_revision::Revision;
use mal_trail::Listed;
use std::alloc::{AllocError, Global};
use std::marker::Model;

/// The clauses of one import that are new to the node, and are taken. Contracts see the list of them.
#[derive(Drop)]
pub struct NewClauses {
    entries: Vec<NumberedClause>,
}

impl Model for NewClauses {
    ghost use Rattle.std.specs.Prelude.{List};
    ghost use Rattle.mal_base.specs.NumberedClause.{NumberedClause};

    ghost Value = { List NumberedClause };

    ghost view = { λ p. p.entries.items };
}

impl NewClauses {
    /// The clauses that are taken.
    pub fn entries(&self) -> &[NumberedClause]
        ensures { result.now ≡ self.now }
    {
        self.entries.as_slice()
    }

    /// Those of the entries that a filter lets pass.
    fn of(
        alloc: Global,
        seen: &ClauseSet,
        entries: &[NumberedClause],
    ) -> Result<NewClauses, AllocError>
        ensures { IfOk result (λ p. p ≡ filter (λ c. not (is_noted c.lits seen.now)) entries.now) }
    {
        let mut taken = Vec::new(alloc);
        for entry in entries {
            if seen.passes_lits(entry.lits()) {
                taken.push(entry.copy()?)?;
            }
        }
        Ok(NewClauses { entries: taken })
    }
}

/// What a node with this engine takes of each import, after these loads.
pub fn new_clauses_of<E: Listed>(
    alloc: Global,
    engine: &E,
    loads: &[(&Revision, u32)],
    imports: &[&Buffer],
) -> Result<Vec<NewClauses>, AllocError>
    ensures { IfOk result
        (λ v. (n : Node) → n.clauses ≡ E.clauses engine.now
        → v.items ≡ picked (lent imports.now) (readied (posted loads.now) n).clauses) }
{
    let mut picks = Vec::new(alloc);
    if imports.is_empty() {
        return Ok(picks);
    }
    let mut exported = ClauseSet::new(alloc);
    let mut seen = ClauseSet::new(alloc);
    note_all(&mut exported, &mut seen, engine, loads, imports)?;
    pick_past(alloc, &mut picks, &mut seen, imports)?;
    Ok(picks)
}

/// Notes the entries of imports in one filter, and in another those clauses of an engine and of loads that are exported
/// too.
fn note_all<E: Listed>(
    exported: &mut ClauseSet,
    seen: &mut ClauseSet,
    engine: &E,
    loads: &[(&Revision, u32)],
    imports: &[&Buffer],
) -> Result<(), AllocError>
    ensures exported { OnOk result
        ((lits : List ℕ) → is_noted lits exported.new ≡ (is_exported_in lits (lent imports.now) || is_noted lits exported.old)) }
    ensures seen { OnOk result
        ((lits : List ℕ) → is_noted lits exported.new ≡ true
        → is_noted lits seen.new
        ≡ (is_loaded_in lits (posted loads.now) || (has_lits lits (E.clauses engine.now) || is_noted lits seen.old))) }
{
    note_exported(exported, imports)?;
    // A node holds many clauses and imports few: of those held only the ones that are imported too are noted.
    note_held(seen, exported, engine)?;
    note_loads(seen, exported, loads)
}

/// Picks what is taken of each import by a node whose clauses a filter has seen.
fn pick_past(
    alloc: Global,
    picks: &mut Vec<NewClauses>,
    seen: &mut ClauseSet,
    imports: &[&Buffer],
) -> Result<(), AllocError>
    requires { picks.old.items ≡ [] }
    ensures { OnOk result
        ((clauses : List NumberedClause) → Sees seen.old clauses
        → picks.new.items ≡ picked (lent imports.now) clauses) }
{
    for exported in imports {
        picks.push(NewClauses::of(alloc, seen, exported.entries())?)?;
        note_entries(seen, exported.entries())?;
    }
    Ok(())
}

/// Notes entries.
fn note_entries(seen: &mut ClauseSet, entries: &[NumberedClause]) -> Result<(), AllocError>
    ensures { OnOk result
        ((lits : List ℕ) → is_noted lits seen.new ≡ (has_lits lits entries.now || is_noted lits seen.old)) }
{
    for entry in entries {
        seen.note_lits(entry.lits())?;
    }
    Ok(())
}

/// Notes the entries of imports.
fn note_exported(exported: &mut ClauseSet, imports: &[&Buffer]) -> Result<(), AllocError>
    ensures { OnOk result
        ((lits : List ℕ) → is_noted lits exported.new ≡ (is_exported_in lits (lent imports.now) || is_noted lits exported.old)) }
{
    for buffer in imports {
        note_entries(exported, buffer.entries())?;
    }
    Ok(())
}

/// Notes those clauses of an engine that are exported too.
fn note_held<E: Listed>(
    seen: &mut ClauseSet,
    exported: &ClauseSet,
    engine: &E,
) -> Result<(), AllocError>
    ensures { OnOk result
        ((lits : List ℕ) → is_noted lits exported.now ≡ true
        → is_noted lits seen.new ≡ (has_lits lits (E.clauses engine.now) || is_noted lits seen.old)) }
{
    for place in 0..engine.count() {
        let (_id, lits) = engine.clause_at(place);
        note_if_exported(seen, exported, lits)?;
    }
    Ok(())
}

/// Notes those clauses of loads that are exported too.
fn note_loads(
    seen: &mut ClauseSet,
    exported: &ClauseSet,
    loads: &[(&Revision, u32)],
) -> Result<(), AllocError>
    ensures { OnOk result
        ((lits : List ℕ) → is_noted lits exported.now ≡ true
        → is_noted lits seen.new ≡ (is_loaded_in lits (posted loads.now) || is_noted lits seen.old)) }
{
    for load in loads {
        let (revision, _first) = load;
        note_posted(seen, exported, revision.clauses())?;
    }
    Ok(())
}

/// Notes those clauses of a revision that are exported too.
fn note_posted(
    seen: &mut ClauseSet,
    exported: &ClauseSet,
    clauses: &ClauseList,
) -> Result<(), AllocError>
    ensures { OnOk result
        ((lits : List ℕ) → is_noted lits exported.now ≡ true
        → is_noted lits seen.new ≡ (is_posted_in lits clauses.now || is_noted lits seen.old)) }
{
    for place in 0..clauses.len() {
        match clauses.at(place) {
            None => {}
            Some(lits) => note_if_exported(seen, exported, lits)?,
        }
    }
    Ok(())
}

/// Notes these literals where they are exported too.
fn note_if_exported(
    seen: &mut ClauseSet,
    exported: &ClauseSet,
    lits: &[Lit],
) -> Result<(), AllocError>
    ensures { OnOk result
        ((others : List ℕ) → is_noted others exported.now ≡ true
        → is_noted others seen.new ≡ (bytes_eq others lits.now || is_noted others seen.old)) }
{
    if exported.passes_lits(lits) {
        return Ok(());
    }
    seen.note_lits(lits)
}
