//! What of its ask a job may change while it runs.

ghost use Rattle.std.specs.Prelude.{◌≡◌, ◌≤◌, ◌↔◌, pos, IsSome, IfSome};
ghost use Rattle.mal_base.specs.{Limits.{limits}, Asks.{IsInWeight, IsWeight, weight_of}};

use crate::ask::is_up_to;
use crate::limits::LIMITS;
use std::marker::Model;

/// A priority (1 to 1,000) and a demand (1 to 64). Contracts see the two numbers.
#[derive(Clone, Copy, Debug, PartialEq, Eq)]
pub struct Weight {
    priority: u32,
    demand: u32,
}

impl Model for Weight {
    ghost use Rattle.mal_base.specs.Asks.{Weighed, IsWeight};

    ghost Value = { Weighed };

    ghost view = { λ w. record { priority = w.priority; demand = w.demand } };

    ghost invariant = { λ w. IsWeight (record { priority = w.priority; demand = w.demand }) };

    ghost inverse = { λ w. record { priority = w.priority; demand = w.demand } };
}

impl Weight {
    /// The weight with these numbers. None exactly where one is out of its range.
    pub fn of(priority: i64, demand: i64) -> Option<Weight>
        ensures value { result ≡ weight_of priority demand }
        ensures some { IsSome result ↔ IsInWeight priority demand }
        ensures priority { IfSome result (λ w. pos w.priority ≡ priority) }
        ensures demand { IfSome result (λ w. pos w.demand ≡ demand) }
    {
        if !is_up_to(LIMITS.priority, priority) || !is_up_to(LIMITS.demand, demand) {
            return None;
        }
        Some(Weight {
            priority: priority as u32,
            demand: demand as u32,
        })
    }

    /// The priority, from 1 to 1,000.
    pub fn priority(self) -> u32
        ensures value { result ≡ self.priority }
        ensures form { IsWeight self }
        ensures some { 1 ≤ result }
        ensures bound { result ≤ limits.priority }
    {
        self.priority
    }

    /// The demand, from 1 to 64.
    pub fn demand(self) -> u32
        ensures value { result ≡ self.demand }
        ensures some { 1 ≤ result }
        ensures bound { result ≤ limits.demand }
    {
        self.demand
    }
}
