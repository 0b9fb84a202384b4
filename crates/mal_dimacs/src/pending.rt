//! The literals that wait for a 0.

ghost use Rattle.std.specs.Prelude.{◌≡◌, ◌≢◌, ◌++◌, ◌∷◌, [], true, OnOk, OnErr};
ghost use Rattle.mal_base.specs.{Clauses.{rises, IsTautology, HaveSame}, Formulas.{is_clause_of, is_within}};
ghost use Rattle.spec_dimacs.specs.Merged.{clause_of};
ghost use Rattle.mal_dimacs.specs.Merged.{merged};

use mal_base::{Clause, Lit};
use std::alloc::{AllocError, Global};
use std::marker::Model;

/// Literals in the order in which they were put. Most texts have the literals of a clause by rising variable; whether
/// it is so is seen as they are put, so that such a clause need not be sorted. Contracts see the literals.
#[derive(Drop)]
pub struct Pending {
    lits: Vec<Lit>,
    rising: bool,
}

impl Model for Pending {
    ghost use Rattle.std.specs.Prelude.{◌≡◌, ℕ, List};
    ghost use Rattle.mal_base.specs.Clauses.{rises};

    ghost Value = { List ℕ };

    ghost view = { λ p. p.lits.items };

    ghost invariant = { λ p. p.rising ≡ rises p.lits.items };
}

impl Pending {
    /// No literal. Takes no memory.
    pub fn new(alloc: Global) -> Pending
        ensures { result ≡ [] }
    {
        Pending {
            lits: Vec::new(alloc),
            rising: true,
        }
    }

    /// The literals.
    pub fn lits(&self) -> &[Lit]
        ensures { result.now ≡ self.now }
    {
        self.lits.as_slice()
    }

    /// Puts a literal after the others.
    pub fn push(&mut self, lit: Lit) -> Result<(), AllocError>
        ensures ok { OnOk result (self.new ≡ self.old ++ lit ∷ []) }
        ensures err { OnErr result (self.new ≡ self.old) }
    {
        self.lits.reserve(1)?;
        self.rising = self.rises_with(lit);
        self.lits.push_reserved(lit);
        Ok(())
    }

    /// Whether the variables rise strictly with a literal after the others.
    fn rises_with(&self, lit: Lit) -> bool
        ensures { result ≡ rises (self.now ++ lit ∷ []) }
    {
        if !self.rising {
            return false;
        }
        match self.lits.as_slice().last() {
            None => true,
            Some(last) => last.var().number() < lit.var().number(),
        }
    }

    /// Puts literals of the first variables in the order of the clause that they make, each once. Whether they make one:
    /// else they are a tautology. Takes no memory.
    pub fn merge(&mut self, variables: u32) -> bool
        requires { is_within variables self.old ≡ true }
        ensures made { merged result self.new ≡ clause_of self.old }
        ensures form { is_clause_of variables (merged result self.new) ≡ true }
        ensures within { is_within variables self.new ≡ true }
    {
        self.sort()
    }

    /// Puts the literals in clause order, each once. Whether their variables then rise strictly.
    fn sort(&mut self) -> bool
        ensures value { result ≡ rises self.new }
        ensures tautology { rises self.new ≢ true → IsTautology self.old }
        ensures same { HaveSame self.old self.new }
    {
        if self.rising {
            return true;
        }
        let rising = Clause::merge(&mut self.lits);
        self.rising = rising;
        rising
    }

    /// Takes all literals away, and keeps the room.
    pub fn clear(&mut self)
        ensures { self.new ≡ [] }
    {
        self.lits.clear();
        self.rising = true;
    }
}
