//! Which two literals of a clause are watched.

ghost use Rattle.std.specs.Prelude.{◌≡◌, ◌≢◌, ℕ, ◌≤◌, ◌<◌, true, List, [], ◌∷◌, ◌++◌, length};
ghost use Rattle.mal_base.specs.{Clauses.{rises}, declared.trail_entry.TrailEntry.{TrailEntry}};
ghost use Rattle.mal_watch.specs.{WatchLists.{Has}, Pairs.{IsOpenUntil, IsBest, ArePicked}};

use mal_base::Lit;
use mal_trail::Trail;

/// Two literals, each with the number of entries under which it is not false yet. The first stays so at least as long.
#[derive(Clone, Copy)]
struct Pair {
    first: Lit,
    first_until: usize,
    second: Lit,
    second_until: usize,
}

impl Pair {
    /// These two literals of a clause.
    fn of(first: Lit, first_until: usize, second: Lit, second_until: usize) -> Pair
        requires { first ≢ second }
        ensures { (entries : List TrailEntry) (count : ℕ) (lits : List ℕ) → Has lits first → Has lits second
            → IsOpenUntil entries count first first_until → IsOpenUntil entries count second second_until
            → IsBest entries count lits [] result }
    {
        if first_until < second_until {
            return Pair {
                first: second,
                first_until: second_until,
                second: first,
                second_until: first_until,
            };
        }
        Pair {
            first,
            first_until,
            second,
            second_until,
        }
    }

    /// The two that stay open longest, where one more literal of the clause is seen.
    fn with(self, lit: Lit, until: usize) -> Pair
        ensures { (entries : List TrailEntry) (count : ℕ) (lits seen : List ℕ) → Has lits lit
            → IsOpenUntil entries count lit until → IsBest entries count lits seen self
            → IsBest entries count lits (seen ++ lit ∷ []) result }
    {
        if lit == self.first {
            return self;
        }
        if self.first_until < until {
            return Pair {
                first: lit,
                first_until: until,
                second: self.first,
                second_until: self.first_until,
            };
        }
        if self.second_until < until {
            return Pair {
                first: self.first,
                first_until: self.first_until,
                second: lit,
                second_until: until,
            };
        }
        self
    }
}

/// How many of the first entries of the trail, so many at most, leave the literal not false.
fn open_until(trail: &Trail, count: usize, lit: Lit) -> usize
    requires { count ≤ length trail.now.entries }
    ensures { IsOpenUntil trail.now.entries count lit result }
{
    trail.open_until(lit).min(count)
}

/// The two literals of a clause that stay open longest under the first entries of the trail, so many.
pub fn pick(trail: &Trail, count: usize, lits: &[Lit]) -> (Lit, Lit)
    requires count { count ≤ length trail.now.entries }
    requires form { rises lits.now ≡ true }
    requires long { 2 ≤ length lits.now }
    ensures { ArePicked trail.now.entries count lits.now result.0 result.1 }
{
    let first = lits[0];
    let second = lits[1];
    // A clause that is learned or loaded under a long trail may be false but for one literal. Those that became false last
    // are watched: a backtrack that frees any literal of the clause frees them first.
    let mut pair = Pair::of(
        first,
        open_until(trail, count, first),
        second,
        open_until(trail, count, second),
    );
    for lit in lits {
        pair = pair.with(*lit, open_until(trail, count, *lit));
    }
    (pair.first, pair.second)
}
