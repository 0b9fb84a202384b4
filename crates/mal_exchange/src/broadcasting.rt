//! What is broadcast of clauses.

ghost use Rattle.std.specs.Prelude.{◌≡◌};
ghost use Rattle.spec_exchange.specs.Exchange.{broadcast};

use crate::climbing::MOST_LITERALS;
use mal_base::NumberedClause;
use mal_buffer::Buffer;

/// What is broadcast where these clauses are exported: each list of literals once with the least number, cut to the
/// longest prefix of at most 1,500 literals. It is what [`crate::up`] gives of the buffers of all solvers, found by one
/// sort. Takes no memory.
pub fn broadcast(entries: Vec<NumberedClause>) -> Buffer
    ensures { result ≡ broadcast entries.items }
{
    let mut told = Buffer::of(entries);
    told.cut(MOST_LITERALS);
    told
}
