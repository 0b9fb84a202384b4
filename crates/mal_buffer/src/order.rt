//! The order of the clauses of a buffer.

ghost use Rattle.std.specs.Prelude.{◌≡◌};
ghost use Rattle.spec_exchange.specs.{Exchange.{lits_cmp, union}, Order.{entry_cmp, has_same_lits}};

use mal_base::NumberedClause;
use std::cmp::Ordering;

/// How two clauses stand: the one with fewer literals first, and of two with equally many the one whose literals have
/// the lesser code where they first differ. Their numbers do not count.
pub fn clause_order(one: &NumberedClause, other: &NumberedClause) -> Ordering
    ensures { result ≡ lits_cmp one.now.lits other.now.lits }
{
    let (lits, others) = (one.lits(), other.lits());
    match lits.len().cmp(&others.len()) {
        Ordering::Equal => lits.cmp(others),
        unequal => unequal,
    }
}

/// Puts clauses in order. Of those with the same literals one stays, with the least number. Takes no memory.
pub fn put_in_order(entries: &mut Vec<NumberedClause>)
    ensures { entries.new.items ≡ union entries.old.items }
{
    entries.sort_unstable_by(|one, other| entry_order(one, other));
    entries.dedup_by(|later, kept| is_same_clause(later, kept));
}

/// How two entries stand: by their clauses, and of two with the same literals the one with the lesser number first.
fn entry_order(one: &NumberedClause, other: &NumberedClause) -> Ordering
    ensures { result ≡ entry_cmp one.now other.now }
{
    match clause_order(one, other) {
        Ordering::Equal => one.id().number().cmp(&other.id().number()),
        unequal => unequal,
    }
}

/// Whether two entries have the same literals.
fn is_same_clause(one: &NumberedClause, other: &NumberedClause) -> bool
    ensures { result ≡ has_same_lits one.now other.now }
{
    clause_order(one, other).is_eq()
}
