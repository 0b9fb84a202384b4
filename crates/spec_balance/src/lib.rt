//! Fair volumes: what the rule of balancing says, and the laws about it as the contracts of functions without a body.
#![tactic(auto)]

ghost use Rattle.std.specs.Prelude.{◌≡◌, ◌≤◌, ℕ, List, [], ◌∷◌, All, length, replicate, take};
ghost use Rattle.mal_base.specs.Asks.{Terms};
ghost use Rattle.spec_balance.specs.Fair.{Asking, AsksForSome, IsFair, asks_of, volume_at};

/// The rule decides the volumes: no two lists are fair for the same workers and the same asks by opening, whatever the
/// jobs are called.
pub fn fair_volumes_are_unique()
    ensures { (workers : ℕ) (asks : List Terms) (us vs : List ℕ) → IsFair workers asks us → IsFair workers asks vs
        → us ≡ vs }
{}

/// Where there are no jobs, nothing is given.
pub fn no_jobs_get_nothing()
    ensures { IsFair 1 [] [] }
{}

/// A single worker goes to the job that was opened first.
pub fn one_worker_goes_to_the_first()
    ensures { (ask : Terms) (rest : List Terms) → 1 ≤ ask.demand
        → IsFair 1 (ask ∷ rest) (1 ∷ replicate (length rest) 0) }
{}

/// Renamed jobs have the volumes that they had: the same asks by opening have the same volumes, whatever the names.
pub fn names_do_not_matter()
    ensures { (workers : ℕ) (jobs renamed : List Asking) (us vs : List ℕ) → asks_of jobs ≡ asks_of renamed
        → IsFair workers (asks_of jobs) us → IsFair workers (asks_of renamed) vs → us ≡ vs }
{}

/// A job keeps its volume where its own ask and its rivals' asks stay. Its rivals are the jobs among the first, as many
/// as there are workers; what the others ask for changes nothing. Each job asks for one worker at least.
pub fn the_same_asks_keep_their_volumes()
    ensures { (workers : ℕ) (asks others : List Terms) (us vs : List ℕ) → All AsksForSome asks → All AsksForSome others
        → take workers asks ≡ take workers others → IsFair workers asks us → IsFair workers others vs → (i : ℕ)
        → volume_at us i ≡ volume_at vs i }
{}
