//! A search: what is asked next follows from what was told, until an outcome is reached.

ghost use Rattle.std.specs.Prelude.{◌≡◌, ◌+◌, ◌<◌, ◌≤◌, [], IfOk};
ghost use Rattle.mal_base.specs.Limits.{limits};
ghost use Rattle.mal_base.specs.Asks.{Terms};
ghost use Rattle.mal_inquiry.specs.Searching.{next_by};
ghost use Rattle.spec_course.specs.Course.Next.{Asks};
ghost use Rattle.spec_hall.specs.Dressed.{keyed};
ghost use Rattle.spec_inquiry.specs.{Rounds.{IsInquiry}, Searches.{HasRoom, IsSearch, IsUnderway, one_solver}};

use crate::inquiry::Inquiry;
use mal_base::{Ask, LIMITS, Lines, Name};
use mal_job::Finding;
use mal_learn::Scratch;
use mal_revision::Revision;
use std::alloc::{AllocError, Global};

/// What follows a reply: a question is asked in a state, an outcome is reached that is told with the lines of the proof of
/// the question of this number, or one is reached without lines.
#[derive(Drop)]
pub enum Next<S, P, O> {
    Asks(S, Revision),
    Proves(P, u32),
    Ends(O),
}

/// What is searched for. Questions have numbers from 1. The lines of a proof are made once, of the question that the
/// outcome names: a state has the number of a question in their place, and clauses say what it stands for by all proofs.
pub trait Search {
    ghost use Rattle.std.specs.Prelude.{◌≡◌, List, IfOk};
    ghost use Rattle.mal_base.specs.NumberedClause.{Line};
    ghost use Rattle.mal_inquiry.specs.Searching.{IsFoundIn, next_by};
    ghost use Rattle.mal_job.specs.Findings.{told_by};
    ghost use Rattle.mal_revision.specs.Posted.{Posted};
    ghost use Rattle.spec_course.specs.Course.{Next};
    ghost use Rattle.spec_inquiry.specs.Searches.{Proofs};
    ghost use Rattle.spec_report.specs.Replies.{ReplyBody};

    type State: Drop;
    /// An outcome but for the lines of its proof.
    type Proved: Drop;

    type Outcome: Drop;

    /// States and outcomes as definitions have them, and what each stands for.
    ghost Stood: { Type 0 };

    ghost Reached: { Type 0 };

    ghost stood: { Proofs → Self.State → Stood };

    ghost proved: { Self.Proved → List Line → Reached };

    ghost reached: { Self.Outcome → Reached };

    /// Whether it is one that is served.
    ghost served: { Self → Type 0 };

    /// The first state and the first question, and what follows a reply.
    ghost start: { Self → Stood };

    ghost question: { Self → Posted };

    ghost step: { Self → Stood → ReplyBody → Next Stood Reached };

    /// The first state and its question.
    fn first(&self, alloc: Global) -> Result<(Self::State, Revision), AllocError>
        requires { served self.now }
        ensures { IfOk result
            (λ p. ((proofs : Proofs) → stood proofs p.0 ≡ start self.now) × (p.1 ≡ question self.now)) };

    /// What follows what is found of the question of this number, which was asked in this state.
    fn after(
        &self,
        alloc: Global,
        state: Self::State,
        number: u32,
        found: Finding,
    ) -> Result<Next<Self::State, Self::Proved, Self::Outcome>, AllocError>
        requires served { served self.now }
        requires found { IsFoundIn (step self.now) (start self.now) (question self.now) (λ proofs. stood proofs state) number found }
        ensures { IfOk result (λ next. (proofs : Proofs) → next_by stood proved reached proofs next
            ≡ step self.now (stood proofs state) (told_by (proofs number) found)) };

    /// The outcome with the lines of its proof.
    fn with_lines(outcome: Self::Proved, lines: Lines) -> Self::Outcome
        ensures { reached result ≡ proved outcome lines.lines };
}

/// Searches by a job of its own, of this name under a tenant of the same, in a hall of one worker on this thread, until an
/// outcome is reached. Each question may spend so many slices, 1 to 4,096.
pub fn run<S: Search>(
    alloc: Global,
    name: Name,
    slices: u32,
    search: &S,
    scratch: &mut Scratch,
) -> Result<S::Outcome, AllocError>
    requires some { 1 ≤ slices }
    requires bound { slices ≤ limits.slices }
    requires served { S.served search.now }
    requires room { HasRoom (S.step search.now) (S.start search.now) (S.question search.now) }
    ensures { IfOk result (λ o. IsSearch (keyed name name) (one_solver slices) (S.step search.now)
        (Asks (S.start search.now) (S.question search.now)) (S.reached o)) }
{
    let mut inquiry = begin(alloc, name, slices)?;
    go_on(alloc, &mut inquiry, search, scratch)
}

/// The inquiry of a search, of which nothing was asked yet.
fn begin(alloc: Global, name: Name, slices: u32) -> Result<Inquiry, AllocError>
    requires some { 1 ≤ slices }
    requires bound { slices ≤ limits.slices }
    ensures key { IfOk result (λ i. i.key ≡ keyed name name) }
    ensures inquiry { IfOk result (λ i. IsInquiry (keyed name name) (one_solver slices) [] i.events) }
{
    let Some(ask) = Ask::of(1, 1, i64::from(slices)) else {
        unreachable!();
    };
    Inquiry::new(alloc, name, name, ask)
}

/// Asks question by question until an outcome is reached.
fn go_on<S: Search>(
    alloc: Global,
    inquiry: &mut Inquiry,
    search: &S,
    scratch: &mut Scratch,
) -> Result<S::Outcome, AllocError>
    requires served { S.served search.now }
    requires room { HasRoom (S.step search.now) (S.start search.now) (S.question search.now) }
    requires new { (terms : Terms) × IsInquiry inquiry.old.key terms [] inquiry.old.events }
    ensures { (terms : Terms) → IsInquiry inquiry.old.key terms [] inquiry.old.events
        → IfOk result (λ o. IsSearch inquiry.old.key terms (S.step search.now)
        (Asks (S.start search.now) (S.question search.now)) (S.reached o)) }
{
    let (mut state, mut question) = search.first(alloc)?;
    let most = LIMITS.revisions as u32;
    for asked in 0..most {
        match follow(alloc, inquiry, search, state, asked, question, scratch)? {
            Next::Asks(then, next) => {
                state = then;
                question = next;
            }
            Next::Proves(outcome, number) => {
                let lines = inquiry.lines(alloc, number)?;
                return Ok(S::with_lines(outcome, lines));
            }
            Next::Ends(outcome) => return Ok(outcome),
        }
    }
    unreachable!()
}

/// Asks the question of a search after so many others, and gives what follows. If memory runs out, no more may be
/// asked.
fn follow<S: Search>(
    alloc: Global,
    inquiry: &mut Inquiry,
    search: &S,
    state: S::State,
    asked: u32,
    question: Revision,
    scratch: &mut Scratch,
) -> Result<Next<S::State, S::Proved, S::Outcome>, AllocError>
    requires served { S.served search.now }
    requires room { HasRoom (S.step search.now) (S.start search.now) (S.question search.now) }
    requires few { asked < limits.revisions }
    requires underway { (terms : Terms) × IsUnderway inquiry.old.key terms (S.step search.now)
        (Asks (S.start search.now) (S.question search.now)) asked inquiry.old.events
        (λ proofs. Asks (S.stood proofs state) question) }
    ensures key { inquiry.new.key ≡ inquiry.old.key }
    ensures follows { (terms : Terms) → IsUnderway inquiry.old.key terms (S.step search.now)
        (Asks (S.start search.now) (S.question search.now)) asked inquiry.old.events
        (λ proofs. Asks (S.stood proofs state) question)
        → IfOk result (λ next. IsUnderway inquiry.old.key terms (S.step search.now)
        (Asks (S.start search.now) (S.question search.now)) (asked + 1) inquiry.new.events
        (λ proofs. next_by S.stood S.proved S.reached proofs next)) }
{
    let found = inquiry.ask(question, scratch)?;
    search.after(alloc, state, asked + 1, found)
}
