//! A script of which some lines were read.

ghost use Rattle.std.specs.Prelude.{◌≡◌, ◌≢◌, ◌<◌, ◌∷◌, ◌++◌, [], true, ℕ, List, MatchOption, OnOk, OnErr, vec_len, vec_capacity};
ghost use Rattle.std.specs.List.{list_any};
ghost use Rattle.spec_text.specs.Inputs.{words_of};
ghost use Rattle.spec_script.specs.Reading.{unread, named, has_room, is_job, after_tenant, admitted, of_tenant, after_job, outside, inside_job, inside, after_counted, after_row, at_end, after_end, with_job};
ghost use Rattle.mal_script.specs.{InPlace.{GoesOn, StaysInBlock, in_job_of}, ReadResult.{Gives, Leaves, of_jobs}, TakenNames.{AreTaken}};

use crate::asks::asked;
use crate::fault::LineRefusal;
use crate::opened::{OpenJob, SplitLine};
use crate::script::ScriptJob;
use crate::taken::{TakenNames, is_among};
use mal_base::{Ask, LimitKind, Limits, LineFault, Name};
use mal_dimacs::is_comment;
use mal_text::{begins_number, first_word};
use std::alloc::{AllocError, Global};
use std::marker::Model;
use std::mem;

/// A script of which some lines were read: the jobs that have ended, the tenants that were named, the last of them, and
/// the job that has begun. Contracts see the four. Beside the jobs their names are kept in order.
#[derive(Drop)]
pub struct Reader {
    jobs: Vec<ScriptJob>,
    names: TakenNames,
    tenants: Vec<Name>,
    tenant: Option<Name>,
    opened: Option<OpenJob>,
}

impl Model for Reader {
    ghost use Rattle.spec_script.specs.Reading.{Reading};
    ghost use Rattle.mal_script.specs.TakenNames.{AreTaken};

    ghost Value = { Reading };

    ghost view = { λ r. record { jobs = r.jobs.items; tenants = r.tenants.items; tenant = r.tenant; opened = r.opened } };

    ghost invariant = { λ r. AreTaken r.jobs.items r.names.places r.names.counts };
}

impl Reader {
    /// Before the first line.
    pub fn new(alloc: Global) -> Reader
        ensures { result ≡ unread }
    {
        Reader {
            jobs: Vec::new(alloc),
            names: TakenNames::new(alloc),
            tenants: Vec::new(alloc),
            tenant: None,
            opened: None,
        }
    }

    /// Reads the name of a tenant.
    fn take_name(&mut self, limits: Limits, name: Name) -> Result<(), LineRefusal>
        ensures { Leaves result self.new (named limits name self.old) }
    {
        if is_among(name, self.tenants.as_slice()) {
            self.tenant = Some(name);
            return Ok(());
        }
        if self.tenants.len() >= limits.tenants {
            return Err(LineRefusal::Fault(LineFault::Limit {
                which: LimitKind::Tenants,
            }));
        }
        self.tenants.reserve(1)?;
        self.tenants.push_reserved(name);
        self.tenant = Some(name);
        Ok(())
    }

    /// Reads the words after the `t` of a tenant's line.
    fn take_tenant(&mut self, limits: Limits, words: &[u8]) -> Result<(), LineRefusal>
        ensures { Leaves result self.new (after_tenant limits (words_of words.now) self.old) }
    {
        let Some(word) = only_word(words) else {
            return Err(LineRefusal::Fault(LineFault::BadLine));
        };
        match Name::of(word) {
            Some(name) => self.take_name(limits, name),
            None => Err(LineRefusal::Fault(LineFault::BadLine)),
        }
    }

    /// Whether a tenant has a job of this name.
    fn has_job(&self, tenant: Name, name: Name) -> bool
        ensures { result ≡ list_any (is_job tenant name) self.now.jobs }
    {
        self.names.has_job(tenant, name)
    }

    /// Whether one job more of this tenant may begin.
    fn has_room(&self, limits: Limits, tenant: Name) -> bool
        ensures { result ≡ has_room limits tenant self.now.jobs }
    {
        self.names.jobs_of(tenant) < limits.jobs_of_tenant && self.jobs.len() < limits.jobs
    }

    /// With this as the job that has begun.
    fn set_opened(&mut self, opened: Option<OpenJob>)
        ensures { self.new ≡ record self.old { opened = opened } }
    {
        drop(mem::replace(&mut self.opened, opened));
    }

    /// Begins a job of this tenant.
    fn admit(
        &mut self,
        limits: Limits,
        tenant: Name,
        name: Name,
        ask: Ask,
    ) -> Result<(), LineRefusal>
        ensures { Leaves result self.new (admitted limits tenant name self.old ask) }
    {
        if self.has_job(tenant, name) {
            return Err(LineRefusal::Fault(LineFault::Duplicate { tenant, job: name }));
        }
        if !self.has_room(limits, tenant) {
            return Err(LineRefusal::Fault(LineFault::Limit {
                which: LimitKind::Jobs,
            }));
        }
        let alloc = *self.jobs.allocator();
        self.set_opened(Some(OpenJob::begin(alloc, tenant, name, ask)));
        Ok(())
    }

    /// Reads the words of a job's first line: its name, its priority, demand and slices, and the words after them.
    fn take_terms(
        &mut self,
        limits: Limits,
        name: &[u8],
        priority: &[u8],
        demand: &[u8],
        slices: &[u8],
        behind: &[u8],
    ) -> Result<(), LineRefusal>
        ensures { Leaves
            result self.new
            (of_tenant limits self.old.tenant name.now priority.now demand.now slices.now (words_of behind.now) self.old) }
    {
        let Some(tenant) = self.tenant else {
            return Err(LineRefusal::Fault(LineFault::BadLine));
        };
        let Some(name) = Name::of(name) else {
            return Err(LineRefusal::Fault(LineFault::BadLine));
        };
        match asked(priority, demand, slices, behind) {
            Ok(ask) => self.admit(limits, tenant, name, ask),
            Err(fault) => Err(LineRefusal::Fault(fault)),
        }
    }

    /// Reads the words after the `j` of a job's first line.
    fn take_job(&mut self, limits: Limits, words: &[u8]) -> Result<(), LineRefusal>
        ensures { Leaves result self.new (after_job limits (words_of words.now) self.old) }
    {
        match four_words(words) {
            Some((name, priority, demand, slices, behind)) => {
                self.take_terms(limits, name, priority, demand, slices, behind)
            }
            None => Err(LineRefusal::Fault(LineFault::BadLine)),
        }
    }

    /// Reads a line outside a job, which is its first word and the others.
    fn take_outside(
        &mut self,
        limits: Limits,
        first: &[u8],
        others: &[u8],
    ) -> Result<(), LineRefusal>
        ensures { Leaves result self.new (outside limits first.now (words_of others.now) self.old) }
    {
        if first == b"t".as_slice() {
            return self.take_tenant(limits, others);
        }
        if first == b"j".as_slice() {
            return self.take_job(limits, others);
        }
        Err(LineRefusal::Fault(LineFault::BadLine))
    }

    /// Goes on with this job, of which a line was read, where that was no refusal.
    fn go_on(&mut self, job: OpenJob, read: Result<(), LineRefusal>) -> Result<(), LineRefusal>
        ensures { GoesOn read job result self.old self.new }
    {
        match read {
            Ok(()) => {
                self.set_opened(Some(job));
                Ok(())
            }
            Err(refusal) => {
                drop(job);
                Err(refusal)
            }
        }
    }

    /// Puts a job that has ended after the others.
    #[tactic(auto, using(crate::proofs::Names::few_jobs))]
    fn add(&mut self, job: ScriptJob) -> Result<(), AllocError>
        ensures { OnOk result (self.new ≡ with_job self.old job) }
    {
        self.set_opened(None);
        match note(&mut self.jobs, &mut self.names, &job) {
            Ok(()) => {
                self.jobs.push_reserved(job);
                Ok(())
            }
            Err(error) => {
                drop(job);
                Err(error)
            }
        }
    }

    /// Reads the line that ends this job, given what stands after its first word.
    fn take_end(&mut self, job: OpenJob, words: &[u8]) -> Result<(), LineRefusal>
        ensures { Leaves result self.new (after_end (words_of words.now) job self.old) }
    {
        if first_word(words).is_some() {
            drop(job);
            return Err(LineRefusal::Fault(LineFault::BadLine));
        }
        self.add(job.into_job())?;
        Ok(())
    }

    /// Reads a line in this job and in no block, which is its first word and the others.
    fn take_in_job(
        &mut self,
        limits: Limits,
        split: SplitLine,
        job: OpenJob,
    ) -> Result<(), LineRefusal>
        requires { words_of split.line.now ≡ split.first.now ∷ words_of split.others.now }
        ensures { Leaves
            result self.new
            (inside_job limits split.entry.first.now (words_of split.entry.others.now) job self.old) }
    {
        if split.first == b"e".as_slice() {
            return self.take_end(job, split.others);
        }
        let mut job = job;
        let read = job.take_between(limits, split);
        self.go_on(job, read)
    }

    /// Reads a line in this job, which is its first word and the others.
    fn take_inside(
        &mut self,
        limits: Limits,
        split: SplitLine,
        job: OpenJob,
    ) -> Result<(), LineRefusal>
        requires { words_of split.line.now ≡ split.first.now ∷ words_of split.others.now }
        ensures { Leaves
            result self.new
            (inside limits split.entry.first.now (words_of split.entry.others.now) job job.block self.old) }
    {
        if !job.has_block() {
            return self.take_in_job(limits, split, job);
        }
        let mut job = job;
        let read = job.take_in_block(split);
        self.go_on(job, read)
    }

    /// Reads a line, which is its first word and the others and no comment.
    fn take_counted(&mut self, limits: Limits, split: SplitLine) -> Result<(), LineRefusal>
        requires { words_of split.line.now ≡ split.first.now ∷ words_of split.others.now }
        ensures { Leaves
            result self.new
            (after_counted limits split.entry.first.now (words_of split.entry.others.now) self.old.opened self.old) }
    {
        match self.opened.take() {
            None => self.take_outside(limits, split.first, split.others),
            Some(job) => self.take_inside(limits, split, job),
        }
    }

    /// Reads a line by its first word.
    fn take_other(&mut self, limits: Limits, line: &[u8]) -> Result<(), LineRefusal>
        ensures { Leaves result self.new (after_row limits (words_of line.now) self.old) }
    {
        let Some((first, others)) = first_word(line) else {
            return Ok(());
        };
        if is_comment(first) {
            return Ok(());
        }
        let split = SplitLine {
            line,
            first,
            others,
        };
        self.take_counted(limits, split)
    }

    /// Whether a line is one of numbers in a block, as its first byte tells. One that is not may be one all the same.
    #[tactic(auto, using(crate::proofs::InPlace::stays_in_block))]
    fn is_at_numbers(&self, line: &[u8]) -> bool
        ensures { result ≡ true → StaysInBlock line.now self.now }
    {
        match &self.opened {
            Some(job) => job.has_block() && begins_number(line),
            None => false,
        }
    }

    /// Reads a line of numbers of a block in place. Without a block nothing is changed.
    fn take_numbers(&mut self, line: &[u8]) -> Result<(), LineRefusal>
        ensures { Leaves result self.new (in_job_of (words_of line.now) self.old self.old.opened) }
    {
        if let Some(job) = &mut self.opened {
            return job.take_numbers(line);
        }
        Ok(())
    }

    /// Reads a line: one of numbers in place, since nearly all lines of a long text are such. After a refusal nothing is
    /// said of what is left.
    pub fn take_row(&mut self, limits: Limits, line: &[u8]) -> Result<(), LineRefusal>
        ensures { Leaves result self.new (after_row limits (words_of line.now) self.old) }
    {
        if self.is_at_numbers(line) {
            return self.take_numbers(line);
        }
        self.take_other(limits, line)
    }

    /// The jobs of the script, where no job has begun that has not ended.
    pub fn finish(self) -> Result<Vec<ScriptJob>, LineRefusal>
        ensures { Gives (λ v. of_jobs v.items) result (at_end self.opened self.jobs) }
    {
        let Reader {
            jobs,
            names,
            tenants,
            opened,
            ..
        } = self;
        drop(names);
        drop(tenants);
        match opened {
            None => Ok(jobs),
            Some(job) => {
                drop(jobs);
                Err(job.unended())
            }
        }
    }
}

/// Makes room for one job more after these, and notes its names.
fn note(
    jobs: &mut Vec<ScriptJob>,
    names: &mut TakenNames,
    job: &ScriptJob,
) -> Result<(), AllocError>
    requires { AreTaken jobs.old.items names.old.places names.old.counts }
    ensures jobs { jobs.new.items ≡ jobs.old.items }
    ensures room { OnOk result (vec_len jobs.new < vec_capacity jobs.new) }
    ensures noted { OnOk result (AreTaken (jobs.old.items ++ job.now ∷ []) names.new.places names.new.counts) }
    ensures alike { OnErr result (AreTaken jobs.old.items names.new.places names.new.counts) }
{
    jobs.reserve(1)?;
    names.note(job)
}

/// The only word of a line. None exactly where the line has no word or more than one.
fn only_word(line: &[u8]) -> Option<&[u8]>
    ensures { MatchOption result ((word : List ℕ) → words_of line.now ≢ word ∷ [])
        (λ word. words_of line.now ≡ word.now ∷ []) }
{
    match first_word(line) {
        Some((word, others)) if first_word(others).is_none() => Some(word),
        _ => None,
    }
}

/// The first four words of a line, and what is after them. None exactly where the line has fewer words.
fn four_words(line: &[u8]) -> Option<(&[u8], &[u8], &[u8], &[u8], &[u8])>
    ensures { MatchOption result
        ((a b c d : List ℕ) (behind : List (List ℕ)) → words_of line.now ≢ a ∷ b ∷ c ∷ d ∷ behind)
        (λ w. words_of line.now ≡ w.0.now ∷ w.1.now ∷ w.2.now ∷ w.3.now ∷ words_of w.4.now) }
{
    let (first, others) = first_word(line)?;
    let (second, others) = first_word(others)?;
    let (third, others) = first_word(others)?;
    let (fourth, behind) = first_word(others)?;
    Some((first, second, third, fourth, behind))
}
