//! A job alone: its own events, the journals of its nodes, and the machine that answers its revisions. Definitions,
//! and the laws about them as the contracts of functions without a body.
#![tactic(auto)]

ghost use Rattle.spec_job.specs.{Counts.{ReplaysCount, RunsAreFew}, DemandOne.{NoneIsDue, SinglesAgree}, DemandOneUpTo.{HasUpTo, SinglesAgreeUpTo}, Examples.{HasExamples, HasExchanges, HasReasked, HasRefutations, HasRunnable}, Exported.{ExchangesTellDerived, ExportsAreDerived, HasUnexported}, Following.{RunnableJournalsFollow}, Lasting.{HasLasting, RepliesStay}, Lawful.{LawfulIsOnce, LawfulIsRunnable}, Left.{LeftFalls}, OnePass.{NoneBeforeMarks, OnePassFindsAll}, ProfileExamples.{HasProfiles}, Provenance.{RunnableClausesOwn}, Runnable.{AnswersStay, RunnableAnswersFollow, RunnableAnswersRefute, RunnableAnswersSolve, RunnableLogsDerived}, Unknown.{RunnableAnswersAccountedFor, RunnableFedAnswersDecide}, UnknownExamples.{HasEndings}};

/// The worked examples of a job's machine compute to the answers that are known, under either profile of its solvers,
/// and own events may happen as they should.
pub fn job_examples()
    ensures machines { HasExamples }
    ensures refutations { HasRefutations }
    ensures exchanges { HasExchanges }
    ensures reasked { HasReasked }
    ensures runnable { HasRunnable }
    ensures profiles { HasProfiles }
{}

/// Where each own event may happen after those before it, each satisfiable answer carries a model of its revision,
/// which has a value for each variable that the job has by then, and no revision is answered before it is posted.
pub fn answers_solve()
    ensures solve { RunnableAnswersSolve }
    ensures follow { RunnableAnswersFollow }
{}

/// Where each own event may happen after those before it, the log is derived from the job's clauses, and each answer
/// that refutes carries a proof from the clauses of the revisions up to its own.
pub fn answers_refute()
    ensures log { RunnableLogsDerived }
    ensures refute { RunnableAnswersRefute }
{}

/// An answer that was given stays, whatever own events follow.
pub fn answers_stay()
    ensures { AnswersStay }
{}

/// A reply that was told stays the same bytes, whatever own events follow that may happen.
pub fn replies_stay()
    ensures stay { RepliesStay }
    ensures example { HasLasting }
{}

/// Replays bring the counts of a job's nodes no further than the slices that were run.
pub fn replays_count()
    ensures { ReplaysCount }
{}

/// The slices of a job are no more than the budgets of its revisions.
pub fn runs_are_few()
    ensures { RunsAreFew }
{}

/// Where each own event may happen after those before it, each clause that a node holds, that is exported or that was
/// broadcast is an original of the job or a line of its log, which is derived from the job's clauses; the literals of
/// each line rise by variable.
pub fn clauses_are_own()
    ensures { RunnableClausesOwn }
{}

/// The answers and the replies of a job that one node runs are decided by its name, its budget, its solvers' profile
/// and its revisions, whatever own events lie between them; no exchange is due then.
pub fn singles_agree()
    ensures agree { SinglesAgree }
    ensures alone { NoneIsDue }
{}

/// Where each own event may happen after those before it, the journals of a job's nodes can be replayed: each revision
/// is loaded under new numbers, the node may import what is imported, and each slice is run on a sound node without
/// a verdict.
pub fn journals_follow()
    ensures { RunnableJournalsFollow }
{}

/// A start of a node that may start leaves less to run where it ends as ran or starved, and as much as before where it
/// is lost.
pub fn left_falls()
    ensures { LeftFalls }
{}

/// Each answer without a verdict is accounted for by the job's own events: as many slices as the budget were run for
/// the revision, none of which gave a verdict, or just three starts of it ran out of memory before it was answered.
/// Where none ran out of memory, each answer is a verdict, or the budget was spent.
pub fn unknowns_are_accounted_for()
    ensures accounted { RunnableAnswersAccountedFor }
    ensures fed { RunnableFedAnswersDecide }
    ensures examples { HasEndings }
{}

/// Where a job is opened before all else, what a node exports are the short lines that the slices of its journal
/// derived since it last took part in an exchange; an exchange broadcasts all that the nodes export that take part.
pub fn exports_are_derived()
    ensures exports { ExportsAreDerived }
    ensures exchanges { ExchangesTellDerived }
    ensures examples { HasUnexported }
{}

/// One pass over the log, from the least mark of the places that take part on, finds what an exchange broadcasts: the
/// number of a line tells which node derived it.
pub fn one_pass_finds_the_exports()
    ensures all { OnePassFindsAll }
    ensures marks { NoneBeforeMarks }
{}

/// The answer and the reply to a revision of a job that one node runs are decided by its name, its budget, its solvers'
/// profile and its revisions up to that one, whatever revisions come after and whatever own events lie between them.
pub fn singles_agree_up_to()
    ensures agree { SinglesAgreeUpTo }
    ensures example { HasUpTo }
{}

/// Lawful own events are those of a job that is opened once, and each may happen after those before it.
pub fn lawful_is_once()
    ensures once { LawfulIsOnce }
    ensures runnable { LawfulIsRunnable }
{}
