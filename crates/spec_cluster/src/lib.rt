//! A cluster of halls between which jobs move, and the rounds in which it works. Definitions, and the laws about them as
//! the contracts of functions without a body.
#![tactic(auto)]

mod fault;

ghost use Rattle.spec_cluster.specs.{Examples.{HasRounds}, Laws.{AllIsEvident, AnswersStay, CallsGrow, CallsKeep, DealtIsScript, GrowthKeeps, JobsAreThere, MoveKeeps, MovesAreTaken, MovesGoOn, NewIsCluster, OwnIsAll, PostedIsCluster, RoundsEnd, RoundsKeep, SinglesAgree, SinglesReplyAlike, TurnGrows}};

pub use fault::MoveFault;

/// The own events that the hall of a job has of it are all that the job did, stay after stay.
pub fn own_is_all()
    ensures { OwnIsAll }
{}

/// A cluster in which nothing has happened is one.
pub fn new_is_cluster()
    ensures { NewIsCluster }
{}

/// Events of one hall that move no job keep what holds of a cluster.
pub fn growth_keeps()
    ensures { GrowthKeeps }
{}

/// A hall's turn enters such events.
pub fn turn_grows()
    ensures { TurnGrows }
{}

/// The calls that post enter such events, and so they keep what holds of a cluster.
pub fn calls_keep()
    ensures grows { CallsGrow }
    ensures keep { CallsKeep }
{}

/// A move keeps what holds of a cluster.
pub fn move_keeps()
    ensures { MoveKeeps }
{}

/// The answers of each job stay over such events, over the calls that post, and over moves.
pub fn answers_stay()
    ensures { AnswersStay }
{}

/// The answers of each job of a cluster are evidence.
pub fn all_is_evident()
    ensures { AllIsEvident }
{}

/// A job whose demand was always 1 and that never ran out of memory agrees with one of the same name, budget, profile
/// and revisions that one hall ran, as far as both go.
pub fn singles_agree()
    ensures { SinglesAgree }
{}

/// In a round a job that was chosen goes on by the call that moves it to the next hall, and stays where that refuses it.
pub fn moves_go_on()
    ensures { MovesGoOn }
{}

/// Each hall gets a script of its own, and halls that got all that these post are a cluster.
pub fn posted_is_cluster()
    ensures scripts { DealtIsScript }
    ensures cluster { PostedIsCluster }
{}

/// After any rounds some hall has each job of the script, so no reply is wanting for a job.
pub fn jobs_are_there()
    ensures { JobsAreThere }
{}

/// A round keeps what holds of a cluster, and so do rounds one after the other.
pub fn rounds_keep()
    ensures { RoundsKeep }
{}

/// A round in which a job is live leaves the jobs less to run, so rounds end.
pub fn rounds_end()
    ensures { RoundsEnd }
{}

/// In the rounds over a script no move is refused: each job that was chosen may come to the next hall when it goes on.
pub fn moves_are_taken()
    ensures { MovesAreTaken }
{}

/// A job of a script that always asks for one worker is replied to in a cluster as in one hall that ran the same script.
pub fn singles_reply_alike()
    ensures { SinglesReplyAlike }
{}

/// A worked example of rounds: a job of three revisions moves twice, and its machine is run on all that it did.
pub fn cluster_examples()
    ensures { HasRounds }
{}
