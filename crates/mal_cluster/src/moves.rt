//! Moves.

use mal_base::Name;
use std::marker::Model;

/// A move of a job: the place of the hall to which it went, counted from 0, and how many events that hall had then, the
/// job's arrival among them. Contracts see the key of the job, and the stay that began.
#[derive(Drop)]
pub struct Move {
    pub tenant: Name,
    pub job: Name,
    pub hall: usize,
    pub from: usize,
}

impl Model for Move {
    ghost use Rattle.spec_cluster.specs.Visits as spec;
    ghost use Rattle.spec_hall.specs.Dressed.{keyed};

    ghost Value = { spec.Move };

    ghost view = { λ m. record { key = keyed m.tenant m.job; visit = record { hall = m.hall; from = m.from } } };
}
