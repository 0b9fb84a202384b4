//! Requests.

/// What the program's words ask for.
#[derive(Clone, Copy, Debug, PartialEq, Eq)]
pub enum Request {
    /// Runs a script with so many workers, 1 to 64.
    Run {
        workers: u32,
    },
    /// Checks the proof of a claim.
    Check,
    /// Replays a history over its script.
    Replay,
    /// Writes the script of a seed below 2^31 with so many jobs, 1 to 256.
    Generate {
        seed: u32,
        jobs: u32,
    },
    /// Runs that script with so many workers, 1 to 64.
    RunGenerated {
        seed: u32,
        jobs: u32,
        workers: u32,
    },
    /// Writes the script that a description spells.
    Json,
    /// Runs a script in 2 to 8 halls of so many workers, 1 to 64, each; after each so many slices of every hall, 1 to
    /// 1,000, its first live job goes on to the next.
    Cluster {
        halls: u32,
        workers: u32,
        every: u32,
    },
    /// Finds the optimum of a formula with soft literals, each question with a budget of so many slices, 1 to 4,096.
    Max {
        slices: u32,
    },
    /// Finds a minimal core of a formula and assumptions, each question with a budget of so many slices, 1 to 4,096.
    Core {
        slices: u32,
    },
    /// Serves the posts of a feed as they come with so many workers, 1 to 64.
    Serve {
        workers: u32,
    },
}
