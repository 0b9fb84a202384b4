//! What tenants and operators can count on: texts that tell one thing, a reply to each revision, bounded work, and what
//! is the same in two runs. Definitions, and the laws about them as the contracts of functions without a body.
#![tactic(auto)]

ghost use Rattle.spec_promises.specs.{Bounded.{JobIsBounded, RunIsBounded}, Decided.{ClusterIsDecided, CoreIsDecided, MaxIsDecided}, Examples.{HasCounts, HasHeadings, HasKeysInJson, HasTaken}, Found.{MinimalIsTold, OptimumIsTold}, Keys.{KeysAreTested, ReadIsKeyed}, Parcels.{ParcelIsTold}, Replied.{ClusterRepliesToAll, ReplayRepliesToAll, RunRepliesToAll}, Singles.{SingleReplaysAreAlike, SingleRunsAreAlike, SinglesRunAlike}, Steps.{HasFirstSteps, StepFaultIsFirst}, Taken.{CoreIsTaken, LegalIsTaken, MaxIsTaken, RefutedIsTaken, ReplayIsTaken, RunIsTaken}, Tells.{RepliesAreTold, ReplyIsTold}, Waiting.{FirstHaveVolumes, NobodyStarves}};

/// A text of replies tells them: no two replies, and no two lists of replies, are written alike, where 64 bits hold their
/// numbers and their literals are literals.
#[tactic(auto, using(crate::proofs::Tells::reply_is_told, crate::proofs::Tells::replies_are_told))]
pub fn replies_are_told()
    ensures reply { ReplyIsTold }
    ensures replies { RepliesAreTold }
{}

/// So is what is written of an optimum, and of what a search for a minimal core comes to.
#[tactic(auto, using(crate::proofs::Found::optimum_is_told, crate::proofs::Found::minimal_is_told))]
pub fn found_is_told()
    ensures optimum { OptimumIsTold }
    ensures minimal { MinimalIsTold }
{}

/// The output of a run, the text that a history is replayed to and the output of a cluster have one reply to each
/// revision of each job, in the order of the script.
pub fn all_are_replied_to()
    ensures run { RunRepliesToAll }
    ensures replay { ReplayRepliesToAll }
    ensures cluster { ClusterRepliesToAll }
    ensures examples { HasHeadings }
{}

/// The replies to a job that always asks for one worker are the same whatever the number of workers, where no start of
/// it ran out of memory; where all jobs do, so are the outputs of runs and the texts that histories are replayed to.
pub fn singles_run_alike()
    ensures job { SinglesRunAlike }
    ensures all { SingleRunsAreAlike }
    ensures replays { SingleReplaysAreAlike }
{}

/// The bytes that a job is moved as are those of no other job, and of no other own events, where these are lawful and 8
/// bytes hold their lengths.
pub fn parcel_is_told()
    ensures { ParcelIsTold }
{}

/// Nothing after the first faulty step of a job in JSON counts.
pub fn first_faulty_step()
    ensures first { StepFaultIsFirst }
    ensures examples { HasFirstSteps }
{}

/// The objects of a text in JSON have each key once, and the tests of shapes accept just the keys that there have to be
/// or may be.
pub fn keys_are_tested()
    ensures read { ReadIsKeyed }
    ensures tested { KeysAreTested }
    ensures examples { HasKeysInJson }
{}

/// Where no start is lost, a job is started no more often than its revisions have slices, and twice more for each of
/// them, and a run starts no more than that for all its jobs.
pub fn runs_are_bounded()
    ensures job { JobIsBounded }
    ensures run { RunIsBounded }
    ensures examples { HasCounts }
{}

/// Where no start runs out of memory, two searches for an optimum or for a minimal core write the same, and two runs in
/// a cluster have the same histories, the same log and the same output.
pub fn runs_are_decided()
    ensures optimum { MaxIsDecided }
    ensures minimal { CoreIsDecided }
    ensures cluster { ClusterIsDecided }
{}

/// The command `check` takes each refutation that is written: the claim of the formula under the failed assumptions of a
/// line `k`, written after an `a`, with the lines `l` as they stand, is verified. So it is with what a hall, a run and a
/// history that is replayed tell of a job's revision, where the formula is that of its revisions up to this one, and with
/// what is written of an optimum and of a minimal core.
pub fn refutations_are_taken()
    ensures claim { RefutedIsTaken }
    ensures hall { LegalIsTaken }
    ensures run { RunIsTaken }
    ensures replay { ReplayIsTaken }
    ensures optimum { MaxIsTaken }
    ensures minimal { CoreIsTaken }
    ensures examples { HasTaken }
{
    spec_lrat::written_is_read();
    spec_hall::legal_is_lawful();
}

/// Nobody starves: of two nodes that may start all the while, neither gets two starts ahead of the other that it did not
/// have. Whenever nodes are started, the first live jobs by opening have a volume, as many as there are workers.
pub fn nobody_starves()
    ensures starts { NobodyStarves }
    ensures volumes { FirstHaveVolumes }
{
    spec_hall::first_startable_is_picked();
}
