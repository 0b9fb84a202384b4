//! The scripts that a seed decides.

ghost use Rattle.std.specs.Prelude.{◌≡◌, ◌<◌, ◌≤◌, ◌^◌, ◌∷◌, true, decimal, length, IfOk, OnOk};
ghost use Rattle.std.specs.List.{remove, slice_index};
ghost use Rattle.mal_base.specs.Names.{is_name};
ghost use Rattle.spec_script.specs.Generated.{after_clause, after_clauses, after_literals, after_revision, ask_from, clause_from, clauses_from, generated, job_from, literals_from, most_generated, pick, revision_from, signed, variables};
ghost use Rattle.mal_base.specs.Limits.{limits};
ghost use Rattle.spec_script.specs.{Formed.{IsScript}};
ghost use Rattle.spec_seq.specs.Draws.{next};

use crate::script::{Script, ScriptJob};
use itoa::Buffer;
use mal_base::{Ask, Clause, ClauseList, Lit, Name, Var};
use mal_revision::{Revision, RevisionFault};
use mal_seq::Draws;
use spec_script::Step;
use std::alloc::{AllocError, Global};

/// The variables of a generated formula.
const VARIABLES: u32 = 50;

/// The clauses of a generated formula.
const CLAUSES: u32 = 213;

/// The script of a seed below 2^31 with 1 to 256 jobs: job i belongs to one of four tenants, which take turns, and has
/// a priority of 1 to 8 and one revision, a random formula of 213 clauses of three literals over 50 variables.
#[tactic(auto, using(crate::proofs::GenerateSteps::job_lemmas))]
pub fn generate(alloc: Global, seed: u32, jobs: u32) -> Result<Script, AllocError>
    requires seed { seed < 2 ^ 31 }
    requires some { 1 ≤ jobs }
    requires bound { jobs ≤ most_generated }
    ensures value { IfOk result (λ s. s ≡ generated seed jobs) }
    ensures formed { IfOk result (λ s. IsScript limits s) }
{
    let mut draws = Draws::new(seed);
    let mut made = Vec::new(alloc);
    for number in 1..jobs + 1 {
        made.push(job(alloc, number, &mut draws)?)?;
    }
    Ok(Script::of_form(made))
}

/// The job of this number.
#[tactic(auto, using(crate::proofs::GenerateSteps::form_lemmas))]
fn job(alloc: Global, number: u32, draws: &mut Draws) -> Result<ScriptJob, AllocError>
    requires some { 1 ≤ number }
    requires bound { number ≤ most_generated }
    ensures value { IfOk result (λ j. j ≡ job_from number draws.old) }
    ensures state { OnOk result (draws.new ≡ after_revision (next draws.old)) }
{
    let tenant = numbered(alloc, b't', (number - 1) % 4 + 1)?;
    let name = numbered(alloc, b'j', number)?;
    let ask = ask(draws);
    let revision = revision(alloc, draws)?;
    let mut steps = Vec::new(alloc);
    steps.push(Step::Revise(revision))?;
    Ok(ScriptJob::new(tenant, name, ask, steps))
}

/// The name of this letter and number.
fn numbered(alloc: Global, letter: u8, number: u32) -> Result<Name, AllocError>
    requires { is_name (letter ∷ decimal number) ≡ true }
    ensures { IfOk result (λ n. n ≡ letter ∷ decimal number) }
{
    let mut buffer = Buffer::new();
    let mut text = Vec::new(alloc);
    text.push(letter)?;
    text.extend_from_slice(buffer.format(number).as_bytes())?;
    match Name::of(text.as_slice()) {
        Some(name) => Ok(name),
        None => unreachable!(),
    }
}

/// What the next job asks for.
fn ask(draws: &mut Draws) -> Ask
    ensures value { result ≡ ask_from draws.old }
    ensures state { draws.new ≡ next draws.old }
{
    match Ask::of(1 + i64::from(draws.pick(8)), 1, 64) {
        Some(ask) => ask,
        None => unreachable!(),
    }
}

/// The revision of the next job.
#[tactic(auto, using(crate::proofs::GenerateSteps::form_lemmas))]
fn revision(alloc: Global, draws: &mut Draws) -> Result<Revision, AllocError>
    ensures value { IfOk result (λ r. r ≡ revision_from draws.old) }
    ensures state { OnOk result (draws.new ≡ after_revision draws.old) }
{
    let clauses = clauses(alloc, CLAUSES, draws)?;
    match Revision::new(alloc, VARIABLES, clauses, &[]) {
        Ok(revision) => Ok(revision),
        Err(RevisionFault::Opposite { .. }) => unreachable!(),
        Err(RevisionFault::VarTooLarge { .. }) => unreachable!(),
        Err(RevisionFault::Limit { .. }) => unreachable!(),
        Err(RevisionFault::OutOfMemory) => Err(AllocError),
    }
}

/// So many clauses.
#[tactic(auto, using(crate::proofs::GenerateSteps::clause_lemmas))]
fn clauses(alloc: Global, count: u32, draws: &mut Draws) -> Result<ClauseList, AllocError>
    ensures value { IfOk result (λ v. v ≡ clauses_from count draws.old) }
    ensures state { OnOk result (draws.new ≡ after_clauses count draws.old) }
{
    let mut clauses = ClauseList::new(alloc);
    for made in 0..count {
        clauses.push(&clause(alloc, draws)?)?;
    }
    Ok(clauses)
}

/// The clause of three literals of different variables.
fn clause(alloc: Global, draws: &mut Draws) -> Result<Option<Clause>, AllocError>
    ensures value { IfOk result (λ c. c ≡ clause_from draws.old) }
    ensures state { OnOk result (draws.new ≡ after_clause draws.old) }
{
    let lits = literals(alloc, 3, draws)?;
    Clause::of_lits(alloc, lits.as_slice())
}

/// So many literals of different variables, at most 50.
fn literals(alloc: Global, count: u32, draws: &mut Draws) -> Result<Vec<Lit>, AllocError>
    requires { count ≤ 50 }
    ensures value { IfOk result (λ v. v.items ≡ literals_from count variables draws.old) }
    ensures state { OnOk result (draws.new ≡ after_literals count draws.old) }
{
    let mut left = variables(alloc)?;
    let mut lits = Vec::new(alloc);
    for made in 0..count {
        lits.push(literal(&mut left, draws))?;
    }
    Ok(lits)
}

/// A literal of one of the variables that are left, which is then no longer among them.
fn literal(left: &mut Vec<Var>, draws: &mut Draws) -> Lit
    requires some { 1 ≤ length left.old.items }
    requires bound { length left.old.items ≤ 50 }
    ensures value { result
        ≡ signed (slice_index left.old.items (pick (length left.old.items) draws.old)) (next draws.old) }
    ensures left { left.new.items ≡ remove left.old.items (pick (length left.old.items) draws.old) }
    ensures state { draws.new ≡ next (next draws.old) }
{
    let place = draws.pick(left.len() as u32);
    let var = left.remove(place as usize);
    var.literal(draws.pick(2) == 0)
}

/// The variables of a clause.
#[tactic(auto, using(crate::proofs::GenerateSteps::variable_lemmas))]
fn variables(alloc: Global) -> Result<Vec<Var>, AllocError>
    ensures { IfOk result (λ v. v.items ≡ variables) }
{
    let mut variables = Vec::with_capacity(alloc, VARIABLES as usize)?;
    for number in 1..VARIABLES + 1 {
        variables.push(Var::of(number))?;
    }
    Ok(variables)
}
