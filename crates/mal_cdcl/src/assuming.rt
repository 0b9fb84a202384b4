//! The assumption that is to be made true next.

ghost use Rattle.std.specs.Prelude.{◌≡◌, true, take};
ghost use Rattle.std.specs.List.{list_all};
ghost use Rattle.spec_node.specs.Value.{is_true, next_assumption};

use mal_base::Lit;
use mal_trail::Trail;

/// The first of these assumptions that is not true, where those that are passed are true. Those in front of it are
/// passed.
pub fn next_assumption(trail: &Trail, assumptions: &[Lit], passed: &mut usize) -> Option<Lit>
    requires { list_all (is_true trail.now.entries) (take passed.old assumptions.now) ≡ true }
    ensures value { result ≡ next_assumption trail.now.entries assumptions.now }
    ensures passed { list_all (is_true trail.now.entries) (take passed.new assumptions.now) ≡ true }
{
    for place in *passed..assumptions.len() {
        let lit = assumptions[place];
        if !trail.is_true(lit) {
            return Some(lit);
        }
        *passed = place + 1;
    }
    None
}
