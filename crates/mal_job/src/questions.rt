//! What was asked of a job, and what was answered.

ghost use Rattle.std.specs.Prelude.{◌≡◌, ◌+◌, ◌-◌, ◌<◌, ◌≤◌, ◌^◌, [], ◌++◌, true, false, length, replicate, vec_len, vec_capacity, OnOk, OnErr};
ghost use Rattle.mal_base.specs.{Asks.{reasked}, Limits.{limits}, declared.answer.Answer.TheVariants.{Refuted}};
ghost use Rattle.spec_job.specs.SoloMachine.{clauses_in, literals_in};
ghost use Rattle.mal_job.specs.{Viewed.{shared}, Asking.{IsAsked, and_revision, replied, answer_with, spent_once, concluded, starved_once, settled_with}};

use mal_base::{Answer, Ask, ClauseId, Values, Verdict, Weight};
use mal_revision::Revision;
use std::alloc::{AllocError, Global};
use std::marker::Model;
use std::sync::Arc;

/// Three starts of a revision that ran out of memory answer it.
const MOST_STARVED: u32 = 3;

/// The ask of a job, whether it was closed, its revisions with their answers, and how many slices the current revision
/// has spent and how many of its starts ran out of memory. There is room for each answer that is owed. The numbers of
/// the clauses and of the literals of all revisions are kept, so that no call counts them.
#[derive(Drop)]
pub struct Questions {
    ask: Ask,
    closed: bool,
    revisions: Vec<Arc<Revision>>,
    answers: Vec<Answer>,
    spent: u32,
    starved: u32,
    clauses: u32,
    literals: u64,
}

impl Model for Questions {
    ghost use Rattle.std.specs.Prelude.{◌≤◌, length, vec_capacity};
    ghost use Rattle.mal_job.specs.{Viewed.{QuestionsView, questions_of, shared}, Asking.{IsAsked, AreSums}};

    ghost Value = { QuestionsView };

    ghost view = { λ q. questions_of q.ask q.closed (shared q.revisions.items) q.answers.items q.spent q.starved };

    ghost invariant = { λ q. IsAsked
        (questions_of q.ask q.closed (shared q.revisions.items) q.answers.items q.spent q.starved)
        × (length q.revisions.items ≤ vec_capacity q.answers)
        × AreSums (shared q.revisions.items) q.clauses q.literals };
}

impl Questions {
    /// Nothing but an ask. Takes no memory.
    pub fn fresh(alloc: Global, ask: Ask) -> Questions
        ensures value { result
            ≡ record { ask = ask; closed = false; revisions = []; answers = []; spent = 0; starved = 0 } }
        ensures kept { IsAsked result }
    {
        // For the proof.
        let _ = ask.slices();
        Questions {
            ask,
            closed: false,
            revisions: Vec::new(alloc),
            answers: Vec::new(alloc),
            spent: 0,
            starved: 0,
            clauses: 0,
            literals: 0,
        }
    }

    /// What the job asks for.
    pub fn ask(&self) -> Ask
        ensures { result ≡ self.now.ask }
    {
        self.ask
    }

    /// Whether the job was closed.
    pub fn is_closed(&self) -> bool
        ensures { result ≡ self.now.closed }
    {
        self.closed
    }

    /// The revisions, in the order in which they were posted.
    pub fn revisions(&self) -> &[Arc<Revision>]
        ensures value { shared result.now ≡ self.now.revisions }
        ensures kept { IsAsked self.now }
    {
        self.revisions.as_slice()
    }

    /// The number of the clauses of all revisions.
    pub fn clauses(&self) -> u32
        ensures value { result ≡ clauses_in self.now.revisions }
        ensures bound { result ≤ limits.clauses }
    {
        self.clauses
    }

    /// The number of the literals of the clauses of all revisions.
    pub fn literals(&self) -> u64
        ensures value { result ≡ literals_in self.now.revisions }
        ensures bound { result ≤ 2 ^ 32 }
    {
        self.literals
    }

    /// The answers, in the order of the revisions.
    pub fn answers(&self) -> &[Answer]
        ensures value { result.now ≡ self.now.answers }
        ensures kept { IsAsked self.now }
    {
        self.answers.as_slice()
    }

    /// How many slices the current revision has spent.
    pub fn spent(&self) -> u32
        ensures value { result ≡ self.now.spent }
        ensures kept { IsAsked self.now }
    {
        self.spent
    }

    /// The allocator that these take memory from.
    pub fn allocator(&self) -> Global {
        *self.answers.allocator()
    }

    /// Puts this priority and this demand in place of those of the ask.
    pub fn reask(&mut self, weight: Weight)
        ensures { self.new ≡ record self.old { ask = reasked self.old.ask weight } }
    {
        self.ask = self.ask.reasked(weight);
    }

    /// Closes the job.
    pub fn close(&mut self)
        ensures { self.new ≡ record self.old { closed = true } }
    {
        self.closed = true;
    }

    /// Posts a revision, and makes room for its answer. It is answered at once where there is the number of an empty
    /// clause. If memory runs out, all is as before.
    pub fn revise(&mut self, revision: Revision, goal: Option<ClauseId>) -> Result<(), AllocError>
        requires few { length self.old.revisions < limits.revisions }
        requires clauses { clauses_in self.old.revisions + length revision.clauses ≤ limits.clauses }
        ensures ok { OnOk result (self.new ≡ settled_with goal (and_revision self.old revision)) }
        ensures err { OnErr result (self.new ≡ self.old) }
        ensures kept { IsAsked self.new }
    {
        let alloc = self.allocator();
        let (clauses, literals) = (revision.clauses().len(), revision.literals());
        let posted = Arc::new(alloc, revision)?;
        let unanswered = self.revisions.len() - self.answers.len();
        self.answers.reserve(unanswered + 1)?;
        self.revisions.push(posted)?;
        self.clauses += clauses as u32;
        self.literals += literals as u64;
        self.settle(goal);
        Ok(())
    }

    /// A slice of the current revision ended with this answer, or with none and counts as spent. Takes no memory.
    pub fn conclude(&mut self, answer: Option<Answer>)
        requires live { length self.old.answers < length self.old.revisions }
        ensures value { self.new ≡ concluded answer self.old }
        ensures kept { IsAsked self.new }
    {
        match answer {
            None => self.spend(),
            Some(answer) => self.reply(answer),
        }
    }

    /// Answers the current revision.
    fn reply(&mut self, answer: Answer)
        requires live { length self.old.answers < length self.old.revisions }
        ensures value { self.new ≡ replied self.old answer }
        ensures kept { IsAsked self.new }
    {
        self.answers.push_reserved(answer);
        self.spent = 0;
        self.starved = 0;
    }

    /// Counts a slice that answers nothing as spent; the last of the budget answers unknown.
    fn spend(&mut self)
        requires live { length self.old.answers < length self.old.revisions }
        ensures value { self.new ≡ spent_once self.old }
        ensures kept { IsAsked self.new }
    {
        let slices = self.ask.slices();
        if self.spent + 1 == slices {
            self.reply(Answer::Spent(slices));
        } else {
            self.spent += 1;
        }
    }

    /// A start of the current revision ran out of memory: the third one answers unknown. Takes no memory.
    pub fn starve(&mut self)
        requires live { length self.old.answers < length self.old.revisions }
        ensures value { self.new ≡ starved_once self.old }
        ensures kept { IsAsked self.new }
    {
        if self.starved + 1 == MOST_STARVED {
            self.reply(Answer::OutOfStarts);
        } else {
            self.starved += 1;
        }
    }

    /// Answers each revision that has no answer by the number of an empty clause, where there is one. Takes no memory.
    pub fn settle(&mut self, goal: Option<ClauseId>)
        ensures value { self.new ≡ settled_with goal self.old }
        ensures kept { IsAsked self.new }
    {
        match goal {
            None => {}
            Some(goal) => {
                let unanswered = self.revisions.len() - self.answers.len();
                refute(goal, unanswered, &mut self.answers);
                self.spent = 0;
                self.starved = 0;
            }
        }
    }
}

/// What a slice answers that ended with this verdict and the model that goes with it.
pub fn answer_of(verdict: Option<Verdict>, model: Values) -> Option<Answer>
    ensures { result ≡ answer_with verdict model }
{
    match verdict {
        None => None,
        Some(verdict) => match verdict {
            Verdict::Satisfiable => Some(Answer::Satisfied(model)),
            Verdict::Unsatisfiable { goal } => Some(Answer::Refuted { goal }),
        },
    }
}

/// Answers so many revisions by one goal. Takes no memory.
fn refute(goal: ClauseId, unanswered: usize, answers: &mut Vec<Answer>)
    requires { vec_len answers.old + unanswered ≤ vec_capacity answers.old }
    ensures answers { answers.new.items ≡ answers.old.items ++ replicate unanswered (Refuted goal) }
    ensures room { vec_capacity answers.new ≡ vec_capacity answers.old }
{
    for _made in 0..unanswered {
        answers.push_reserved(Answer::Refuted { goal });
    }
}
