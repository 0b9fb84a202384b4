//! Variables and literals, as DIMACS CNF numbers them.

ghost use Rattle.std.specs.Prelude.{◌≡◌, ℕ, ◌+◌, ◌-◌, ◌*◌, ◌/◌, ◌%◌, ◌<◌, ◌≤◌, ◌↔◌, ◌==◌, true, IsTrue, IfOk, IsSome, IfSome, pos, int_lt, nat_abs};
ghost use Rattle.mal_base.specs.{Limits.{greatest_variable}, Literals.{var_of, dimacs_of, negated, literal, has_plus, IsLiteral}, Clauses.{climbs, HaveSame}};

use std::alloc::{AllocError, Global};
use std::marker::Model;

/// A variable, from 1 to 2^30. Contracts see its number.
#[derive(Clone, Copy, Debug, PartialEq, Eq)]
pub struct Var {
    number: u32,
}

impl Model for Var {
    ghost use Rattle.std.specs.Prelude.{ℕ, ◌≤◌};
    ghost use Rattle.mal_base.specs.Limits.{greatest_variable};

    ghost Value = { ℕ };

    ghost view = { λ v. v.number };

    ghost invariant = { λ v. (1 ≤ v.number) × (v.number ≤ greatest_variable) };

    ghost inverse = { λ n. record { number = n } };
}

impl Var {
    /// The greatest variable.
    pub const MAX: u32 = 1 << 30;

    /// The variable of this number, which is 1 to 2^30.
    pub fn of(number: u32) -> Var
        requires some { 1 ≤ number }
        requires bound { number ≤ greatest_variable }
        ensures { result ≡ number }
    {
        Var { number }
    }

    /// The variable's number.
    pub fn number(self) -> u32
        ensures value { result ≡ self }
        ensures some { 1 ≤ result }
        ensures bound { result ≤ greatest_variable }
    {
        self.number
    }

    /// The variable's literal of this sign.
    pub fn literal(self, positive: bool) -> Lit
        ensures { result ≡ literal self positive }
    {
        if positive {
            Lit {
                code: 2 * self.number,
            }
        } else {
            Lit {
                code: 2 * self.number + 1,
            }
        }
    }
}

/// A literal. Contracts see its code: twice the variable, and one more where the literal is negative. Literals are
/// ordered by code.
#[derive(Clone, Copy, Debug, PartialEq, Eq, PartialOrd, Ord)]
pub struct Lit {
    code: u32,
}

impl Model for Lit {
    ghost Value = { ℕ };

    ghost view = { λ l. l.code };

    ghost invariant = { λ l. IsLiteral l.code };

    ghost inverse = { λ n. record { code = n } };
}

/// The literal of variable 1, so that a list of literals can be made before they are known.
impl Default for Lit {
    fn default() -> Lit {
        Lit { code: 2 }
    }
}

impl Lit {
    /// The literal that DIMACS CNF writes as this number, positive or negative. None exactly for 0 and for magnitudes
    /// above 2^30.
    pub fn of_dimacs(number: i32) -> Option<Lit>
        ensures some { IsSome result ↔ ((1 ≤ nat_abs number) × (nat_abs number ≤ greatest_variable)) }
        ensures var { IfSome result (λ l. var_of l ≡ nat_abs number) }
        ensures sign { IfSome result (λ l. has_plus l ≡ int_lt (pos 0) number) }
    {
        let var = number.unsigned_abs();
        if var == 0 || var > Var::MAX {
            return None;
        }
        if number > 0 {
            Some(Lit { code: 2 * var })
        } else {
            Some(Lit { code: 2 * var + 1 })
        }
    }

    /// The number that DIMACS CNF writes this literal as.
    pub fn dimacs(self) -> i32
        ensures { result ≡ dimacs_of self }
    {
        let var = self.var().number() as i32;
        if self.is_positive() { var } else { -var }
    }

    /// The literal of the same variable with the other sign.
    pub fn negate(self) -> Lit
        ensures { result ≡ negated self }
    {
        if self.code % 2 == 0 {
            Lit {
                code: self.code + 1,
            }
        } else {
            Lit {
                code: self.code - 1,
            }
        }
    }

    /// The literal's variable.
    pub fn var(self) -> Var
        ensures value { result ≡ var_of self }
        ensures range { IsLiteral self }
    {
        Var {
            number: self.code / 2,
        }
    }

    /// Whether the literal is positive.
    pub fn is_positive(self) -> bool
        ensures { result ≡ has_plus self }
    {
        self.code % 2 == 0
    }

    /// The literal's code: twice the variable, and one more where the literal is negative.
    pub fn code(self) -> u32
        ensures value { result ≡ self }
        ensures range { IsLiteral self }
    {
        self.code
    }

    /// These literals by strictly rising code, so each stands once.
    pub fn sorted(alloc: Global, lits: &[Lit]) -> Result<Vec<Lit>, AllocError>
        ensures rising { IfOk result (λ v. climbs v.items ≡ true) }
        ensures same { IfOk result (λ v. HaveSame lits.now v.items) }
    {
        let mut sorted = Vec::from_slice(alloc, lits)?;
        Lit::sort(&mut sorted);
        Ok(sorted)
    }

    /// Puts these literals in the order of strictly rising code, so each stands once. Takes no memory.
    pub fn sort(lits: &mut Vec<Lit>)
        ensures rising { climbs lits.new.items ≡ true }
        ensures same { HaveSame lits.old.items lits.new.items }
    {
        lits.sort_unstable();
        lits.dedup();
    }

    /// Whether these are the same literals in the same order.
    pub fn are_same(lits: &[Lit], others: &[Lit]) -> bool
        ensures { IsTrue result ↔ (lits.now ≡ others.now) }
    {
        lits == others
    }
}
