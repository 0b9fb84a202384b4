//! The literals that are true so far.

ghost use Rattle.std.specs.Prelude.{◌≡◌, ℕ, ◌∷◌, ◌++◌, [], true, false, List, slice_index_or, OnOk, OnErr};
ghost use Rattle.spec_logic.specs.Derivation.{is_true, is_false};

use mal_base::Lit;
use std::alloc::{AllocError, Global};
use std::marker::Model;

/// The literals that are true so far, with a mark for each by its code. Contracts see them, the latest last.
#[derive(Drop)]
pub struct Trues {
    marks: Vec<bool>,
    lits: Vec<Lit>,
}

impl Model for Trues {
    ghost use Rattle.std.specs.Prelude.{◌≡◌, ℕ, false, List, slice_index_or};
    ghost use Rattle.spec_logic.specs.Derivation.{is_true};

    ghost Value = { List ℕ };

    ghost view = { λ t. t.lits.items };

    ghost invariant = { λ t. (code : ℕ) → slice_index_or t.marks.items code false ≡ is_true t.lits.items code };
}

impl Trues {
    /// No literals. Takes no memory.
    pub fn new(alloc: Global) -> Trues
        ensures { result ≡ [] }
    {
        Trues {
            marks: Vec::new(alloc),
            lits: Vec::new(alloc),
        }
    }

    /// Whether a literal is true.
    pub fn is_true(&self, lit: Lit) -> bool
        ensures { result ≡ is_true self.now lit }
    {
        match self.marks.get(lit.code() as usize) {
            Some(mark) => *mark,
            None => false,
        }
    }

    /// Whether a literal is false.
    pub fn is_false(&self, lit: Lit) -> bool
        ensures { result ≡ is_false self.now lit }
    {
        self.is_true(lit.negate())
    }

    /// Makes a literal true. Where memory is refused nothing changes.
    pub fn add(&mut self, lit: Lit) -> Result<(), AllocError>
        ensures ok { OnOk result (self.new ≡ self.old ++ lit ∷ []) }
        ensures err { OnErr result (self.new ≡ self.old) }
    {
        let code = lit.code() as usize;
        if self.marks.len() <= code {
            self.marks.resize(code + 1, false)?;
        }
        self.lits.push(lit)?;
        self.marks[code] = true;
        Ok(())
    }

    /// Forgets the literals, each by its own mark, so that a line costs what its hints cost.
    pub fn clear(&mut self)
        ensures { self.new ≡ [] }
    {
        unmark(self.marks.as_mut_slice(), self.lits.as_slice());
        self.lits.clear();
    }
}

/// Takes away the marks of these literals, which are all that there are.
fn unmark(marks: &mut [bool], lits: &[Lit])
    requires { (code : ℕ) → slice_index_or marks.old code false ≡ true → is_true lits.now code ≡ true }
    ensures { (code : ℕ) → slice_index_or marks.new code false ≡ false }
{
    for lit in lits {
        let code = lit.code() as usize;
        if code < marks.len() {
            marks[code] = false;
        }
    }
}
