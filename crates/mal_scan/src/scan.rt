//! The engine.

ghost use Rattle.mal_base.specs.Limits.{greatest_variable};

use crate::batch;
use mal_base::{ClauseId, ClauseView, Lit};
use mal_store::Store;
use mal_trail::{Engine, Listed, Trail};
use std::alloc::{AllocError, Global};

/// The clauses in flat storage. Nothing follows the trail, so the engine fits each.
#[derive(Drop)]
pub struct Scan {
    store: Store,
}

impl ClauseView for Scan {
    ghost clauses = { λ s. s.store.clauses };

    fn get(&self, id: ClauseId) -> Option<&[Lit]> {
        self.store.get(id)
    }
}

impl Engine for Scan {
    ghost room = { λ s. record { variables = greatest_variable; clauses = s.store.clause_room; literals = s.store.literal_room } };

    ghost fits = { λ s entries processed. Unit {0} };

    fn new(alloc: Global) -> Scan {
        Scan {
            store: Store::new(alloc),
        }
    }

    fn reserve(
        &mut self,
        _variables: u32,
        clauses: usize,
        literals: usize,
    ) -> Result<(), AllocError> {
        self.store.reserve(clauses, literals)
    }

    fn load(&mut self, id: ClauseId, lits: &[Lit], _trail: &Trail) {
        self.store.add_reserved(id, lits);
    }

    fn learn(&mut self, id: ClauseId, lits: &[Lit], _trail: &Trail) {
        self.store.add_reserved(id, lits);
    }

    fn forget(&mut self, ids: &mut [ClauseId]) {
        self.store.forget(ids);
    }

    fn propagate_one(&mut self, trail: &mut Trail) -> Option<ClauseId> {
        let processed = trail.processed();
        let conflict = batch::propagate(trail, processed as usize, &self.store);
        trail.set_processed(processed + 1);
        conflict
    }

    ghost fits_push = { λ engine entries entry processed bound fits. tt };

    ghost fits_cut = { λ engine entries processed level fits. tt };

    ghost fits_alike = { λ engine entries others processed alike fits. tt };

    ghost fits_less = { λ engine entries processed less bound fits. tt };
}

impl Listed for Scan {
    fn count(&self) -> usize {
        self.store.len()
    }

    fn clause_at(&self, place: usize) -> (ClauseId, &[Lit]) {
        self.store.at(place)
    }
}
