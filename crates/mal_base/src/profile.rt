//! The profiles of a search, and what a search asks of its own.

ghost use Rattle.std.specs.Prelude.{◌≡◌, ◌<◌, ◌^◌, ◌-◌, ◌≤◌};
ghost use Rattle.mal_base.specs.Profiles.{policy, number, profile_of, last_profile, is_due, counted};

/// The rule by which the solvers of a job search.
#[derive(Clone, Copy, Debug, PartialEq, Eq, Drop)]
pub enum Profile {
    /// Profile 1: what is learned stays as it was found, and for ever.
    Plain,
    /// Profile 2: what is learned is minimized, and reduced from time to time.
    Lean,
}

/// When the learned clauses are reduced: never, or after so many conflicts that were learned since the last time.
#[derive(Clone, Copy, Debug, PartialEq, Eq, Drop)]
pub enum Reduction {
    Never,
    After { conflicts: u32 },
}

/// What a search asks of its profile.
#[derive(Clone, Copy, Debug, PartialEq, Eq, Drop)]
pub struct Policy {
    /// Whether a learned clause is minimized.
    pub minimizes: bool,
    /// When the learned clauses are reduced.
    pub reduction: Reduction,
    /// Whether an import that takes no clause leaves the search where it is.
    pub skips_empty_imports: bool,
}

impl Profile {
    /// The number of the last profile. They count from 1.
    pub const LAST: u32 = 2;

    /// The profile of this number. None exactly where there is none.
    pub fn of(number: i64) -> Option<Profile>
        ensures { result ≡ profile_of number }
    {
        match number {
            1 => Some(Profile::Plain),
            2 => Some(Profile::Lean),
            _ => None,
        }
    }

    /// The number that texts have.
    pub fn number(self) -> u32
        ensures value { result ≡ number self }
        ensures some { 1 ≤ result }
        ensures bound { result ≤ last_profile }
    {
        match self {
            Profile::Plain => 1,
            Profile::Lean => 2,
        }
    }

    /// What a search of this profile does.
    pub fn policy(self) -> Policy
        ensures { result ≡ policy self }
    {
        match self {
            Profile::Plain => Policy {
                minimizes: false,
                reduction: Reduction::Never,
                skips_empty_imports: false,
            },
            Profile::Lean => Policy {
                minimizes: true,
                reduction: Reduction::After { conflicts: 2000 },
                skips_empty_imports: true,
            },
        }
    }
}

impl Reduction {
    /// Whether a reduction is due after so many conflicts since the last.
    pub fn is_due(self, conflicts: u32) -> bool
        ensures { result ≡ is_due self conflicts }
    {
        match self {
            Reduction::Never => false,
            Reduction::After { conflicts: most } => most <= conflicts,
        }
    }

    /// The conflicts since the last reduction, after one more: none are counted where there is no reduction.
    pub fn counted(self, conflicts: u32) -> u32
        requires { conflicts < 2 ^ 32 - 1 }
        ensures { result ≡ counted self conflicts }
    {
        match self {
            Reduction::Never => conflicts,
            Reduction::After { .. } => conflicts + 1,
        }
    }
}
