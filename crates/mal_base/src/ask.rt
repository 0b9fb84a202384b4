//! What a job asks for.

ghost use Rattle.std.specs.Prelude.{◌≡◌, ◌≤◌, ◌≤ℤ◌, ◌↔◌, pos, IsTrue, IsSome, IfSome};
ghost use Rattle.mal_base.specs.{Limits.{limits}, Asks.{InRange, IsAsk, ask_of, ask_of_numbers, is_up_to, reasked, with_profile}};
ghost use Rattle.mal_base.specs.declared.profile.Profile.TheVariants.{Plain};

use crate::limits::LIMITS;
use crate::profile::Profile;
use crate::weight::Weight;
use std::marker::Model;

/// A job's priority (1 to 1,000), its demand (the most solvers that it can use at a time, 1 to 64), the slices that
/// each of its revisions may spend (1 to 4,096), and the profile of its solvers. Contracts see the four.
#[derive(Clone, Copy, Debug, PartialEq, Eq)]
pub struct Ask {
    priority: u32,
    demand: u32,
    slices: u32,
    profile: Profile,
}

impl Model for Ask {
    ghost use Rattle.mal_base.specs.Asks.{Terms, IsAsk};

    ghost Value = { Terms };

    ghost view = { λ a. record { priority = a.priority; demand = a.demand; slices = a.slices; profile = a.profile } };

    ghost invariant = { λ a. IsAsk
        (record { priority = a.priority; demand = a.demand; slices = a.slices; profile = a.profile }) };

    ghost inverse = { λ t. record { priority = t.priority; demand = t.demand; slices = t.slices; profile = t.profile } };
}

impl Ask {
    /// The ask with these numbers, for solvers of the first profile. None exactly where one is out of its range.
    pub fn of(priority: i64, demand: i64, slices: i64) -> Option<Ask>
        ensures value { result ≡ ask_of priority demand slices }
        ensures some { IsSome result ↔ InRange priority demand slices }
        ensures priority { IfSome result (λ a. pos a.priority ≡ priority) }
        ensures demand { IfSome result (λ a. pos a.demand ≡ demand) }
        ensures slices { IfSome result (λ a. pos a.slices ≡ slices) }
        ensures profile { IfSome result (λ a. a.profile ≡ Plain) }
    {
        if !is_up_to(LIMITS.priority, priority) {
            return None;
        }
        if !is_up_to(LIMITS.demand, demand) || !is_up_to(LIMITS.slices, slices) {
            return None;
        }
        Some(Ask {
            priority: priority as u32,
            demand: demand as u32,
            slices: slices as u32,
            profile: Profile::Plain,
        })
    }

    /// The ask with these numbers, for solvers of the profile of this number. None exactly where one of the four is out
    /// of its range.
    pub fn of_numbers(priority: i64, demand: i64, slices: i64, profile: i64) -> Option<Ask>
        ensures { result ≡ ask_of_numbers priority demand slices profile }
    {
        let ask = Ask::of(priority, demand, slices)?;
        let profile = Profile::of(profile)?;
        Some(ask.with_profile(profile))
    }

    /// The same ask, for solvers of this profile.
    pub fn with_profile(self, profile: Profile) -> Ask
        ensures { result ≡ with_profile self profile }
    {
        Ask { profile, ..self }
    }

    /// The same ask, with this priority and this demand in place of its own.
    pub fn reasked(self, weight: Weight) -> Ask
        ensures value { result ≡ reasked self weight }
    {
        Ask {
            priority: weight.priority(),
            demand: weight.demand(),
            ..self
        }
    }

    /// The priority, from 1 to 1,000.
    pub fn priority(self) -> u32
        ensures value { result ≡ self.priority }
        ensures form { IsAsk self }
        ensures some { 1 ≤ result }
        ensures bound { result ≤ limits.priority }
    {
        self.priority
    }

    /// The demand, from 1 to 64.
    pub fn demand(self) -> u32
        ensures value { result ≡ self.demand }
        ensures some { 1 ≤ result }
        ensures bound { result ≤ limits.demand }
    {
        self.demand
    }

    /// The profile of the job's solvers.
    pub fn profile(self) -> Profile
        ensures { result ≡ self.profile }
    {
        self.profile
    }

    /// The slices of a revision, from 1 to 4,096.
    pub fn slices(self) -> u32
        ensures value { result ≡ self.slices }
        ensures some { 1 ≤ result }
        ensures bound { result ≤ limits.slices }
    {
        self.slices
    }
}

/// Whether a number is 1 to this one.
pub fn is_up_to(max: u32, number: i64) -> bool
    ensures value { result ≡ is_up_to max number }
    ensures range { IsTrue result ↔ ((pos 1 ≤ℤ number) × (number ≤ℤ pos max)) }
{
    1 <= number && number <= i64::from(max)
}
