//! A feed of which some lines were read.

ghost use Rattle.std.specs.Prelude.{◌≡◌, ◌+◌, ◌^◌, ◌<◌, ◌∷◌, ◌++◌, [], true, false, Some, drop, length, map, not, option_to_list, slice_get, Ok, MatchOption, OnOk, OnErr, IfOk, vec_len, vec_capacity};
ghost use Rattle.std.specs.List.{filter, list_any, position_or_len};
ghost use Rattle.spec_text.specs.Inputs.{words_of};
ghost use Rattle.mal_base.specs.Limits.{limits};
ghost use Rattle.spec_script.specs.Reading.{has_room, is_job};
ghost use Rattle.spec_script.specs.Script.{ScriptedJob};
ghost use Rattle.mal_script.specs.{InPlace.{between, in_its_block}, ReadResult.{}, TakenNames.{TakenBy}};
ghost use Rattle.spec_feed.specs.Reading.{admitted, after_counted, after_job, after_row, after_tenant, begins, closings, ended, goes_on, inside, inside_job, is_open_job, is_opened, key_of, named, of_tenant, opened, outside, put_aside, unfed};
ghost use Rattle.spec_feed.specs.declared.post.FeedPost.TheVariants.{Closes, Takes};
ghost use Rattle.mal_feed.specs.Posting.{Ends, after_end, are_apart, JobGoesOn, IsFirstOpen, Posts, HavePassed, StaysInBlock, in_job_of, posting, with_current, without};

use crate::lines::{four_words, only_word};
use mal_base::{Ask, Key, LIMITS, LimitKind, Limits, LineFault, Name};
use mal_dimacs::is_comment;
use mal_script::{LineRefusal, OpenJob, ScriptJob, SplitLine, Step, TakenNames, asked, is_among};
use mal_text::{begins_number, first_word};
use spec_feed::FeedPost;
use std::alloc::{AllocError, Global};
use std::marker::Model;
use std::mem;

/// A feed of which some lines were read: the jobs that have begun, as they began; the job that the lines are of, and the
/// other jobs that have not ended; the tenants that were named, and the last of them. Contracts see the five. Beside the
/// jobs their names are kept in order.
#[derive(Drop)]
pub struct Feed {
    begun: Vec<ScriptJob>,
    names: TakenNames,
    current: Option<OpenJob>,
    aside: Vec<OpenJob>,
    tenants: Vec<Name>,
    tenant: Option<Name>,
}

impl Model for Feed {
    ghost use Rattle.std.specs.Prelude.{◌≡◌, true};
    ghost use Rattle.mal_script.specs.TakenNames.{TakenBy};
    ghost use Rattle.spec_feed.specs.Reading.{Feeding};
    ghost use Rattle.mal_feed.specs.Posting.{are_apart};

    ghost Value = { Feeding };

    ghost view = { λ f. record { begun = f.begun.items; current = f.current; aside = f.aside.items; tenants = f.tenants.items; tenant = f.tenant } };

    ghost invariant = { λ f. TakenBy f.begun.items f.names × (are_apart f.begun.items ≡ true) };
}

impl Feed {
    /// Before the first line.
    pub fn new(alloc: Global) -> Feed
        ensures { result ≡ unfed }
    {
        Feed {
            begun: Vec::new(alloc),
            names: TakenNames::new(alloc),
            current: None,
            aside: Vec::new(alloc),
            tenants: Vec::new(alloc),
            tenant: None,
        }
    }

    /// Reads the name of a tenant.
    fn take_name(&mut self, limits: Limits, name: Name) -> Result<Option<FeedPost>, LineRefusal>
        ensures { Posts result self.new (named limits name self.old) }
    {
        if is_among(name, self.tenants.as_slice()) {
            self.tenant = Some(name);
            return Ok(None);
        }
        if self.tenants.len() >= limits.tenants {
            return Err(LineRefusal::Fault(LineFault::Limit {
                which: LimitKind::Tenants,
            }));
        }
        self.tenants.reserve(1)?;
        self.tenants.push_reserved(name);
        self.tenant = Some(name);
        Ok(None)
    }

    /// Reads the words after the `t` of a tenant's line.
    fn take_tenant(&mut self, limits: Limits, words: &[u8]) -> Result<Option<FeedPost>, LineRefusal>
        ensures { Posts result self.new (after_tenant limits (words_of words.now) self.old) }
    {
        let Some(word) = only_word(words) else {
            return Err(LineRefusal::Fault(LineFault::BadLine));
        };
        match Name::of(word) {
            Some(name) => self.take_name(limits, name),
            None => Err(LineRefusal::Fault(LineFault::BadLine)),
        }
    }

    /// Whether a job of this tenant has begun under this name.
    fn has_job(&self, tenant: Name, name: Name) -> bool
        ensures { result ≡ list_any (is_job tenant name) self.now.begun }
    {
        self.names.has_job(tenant, name)
    }

    /// Whether one job more of this tenant may begin.
    fn has_room(&self, limits: Limits, tenant: Name) -> bool
        ensures { result ≡ has_room limits tenant self.now.begun }
    {
        self.names.jobs_of(tenant) < limits.jobs_of_tenant && self.begun.len() < limits.jobs
    }

    /// The lines that follow are of this job, or of none.
    fn set_current(&mut self, current: Option<OpenJob>)
        ensures { self.new ≡ record self.old { current = current } }
    {
        drop(mem::replace(&mut self.current, current));
    }

    /// Puts a job after those that have begun.
    #[tactic(auto, using(crate::proofs::Names::few_jobs, crate::proofs::Apart::apart_push))]
    fn add(&mut self, job: ScriptJob) -> Result<(), AllocError>
        requires { list_any (is_job job.tenant job.name) self.old.begun ≡ false }
        ensures { OnOk result (self.new ≡ record self.old { begun = self.old.begun ++ job ∷ [] }) }
    {
        match note(&mut self.begun, &mut self.names, &job) {
            Ok(()) => {
                self.begun.push_reserved(job);
                Ok(())
            }
            Err(error) => {
                drop(job);
                Err(error)
            }
        }
    }

    /// Begins a job of this tenant.
    fn begin(&mut self, tenant: Name, name: Name, ask: Ask) -> Result<Option<FeedPost>, LineRefusal>
        requires { list_any (is_job tenant name) self.old.begun ≡ false }
        ensures { Posts result self.new (Ok (begins tenant name ask self.old)) }
    {
        let alloc = *self.begun.allocator();
        self.add(ScriptJob::new(tenant, name, ask, Vec::new(alloc)))?;
        self.set_current(Some(OpenJob::begin(alloc, tenant, name, ask)));
        Ok(Some(FeedPost::Opens {
            key: Key { tenant, job: name },
            ask,
        }))
    }

    /// Begins a job of this tenant, where it may have one more under this name.
    fn admit(
        &mut self,
        limits: Limits,
        tenant: Name,
        name: Name,
        ask: Ask,
    ) -> Result<Option<FeedPost>, LineRefusal>
        ensures { Posts result self.new (admitted limits tenant name self.old ask) }
    {
        if self.has_job(tenant, name) {
            return Err(LineRefusal::Fault(LineFault::Duplicate { tenant, job: name }));
        }
        if !self.has_room(limits, tenant) {
            return Err(LineRefusal::Fault(LineFault::Limit {
                which: LimitKind::Jobs,
            }));
        }
        self.begin(tenant, name, ask)
    }

    /// The place of the open job of this tenant under this name beside the others, their number where there is none.
    fn place_of(&self, tenant: Name, name: &[u8]) -> usize
        ensures { result ≡ position_or_len (is_open_job tenant name.now) self.now.aside }
    {
        self.aside
            .iter()
            .take_while(|open| !is_open_job(open, tenant, name))
            .count()
    }

    /// The lines that follow are of this tenant's open job of this name.
    fn take_up(&mut self, tenant: Name, name: &[u8]) -> Result<Option<FeedPost>, LineRefusal>
        ensures { Posts result self.new (goes_on tenant name.now self.old) }
    {
        let place = self.place_of(tenant, name);
        if place >= self.aside.len() {
            return Err(LineRefusal::Fault(LineFault::BadLine));
        }
        let job = self.aside.remove(place);
        self.set_current(Some(job));
        Ok(None)
    }

    /// Reads the words of the line that begins a job of this tenant: its name, its priority, demand and slices, and the
    /// words after them.
    fn take_terms(
        &mut self,
        limits: Limits,
        tenant: Name,
        words: (&[u8], &[u8], &[u8], &[u8], &[u8]),
    ) -> Result<Option<FeedPost>, LineRefusal>
        ensures { Posts
            result self.new
            (of_tenant limits tenant
            (words.entry.0.now ∷ words.entry.1.now ∷ words.entry.2.now ∷ words.entry.3.now ∷ words_of words.entry.4.now) self.old) }
    {
        let (name, priority, demand, slices, rest) = words;
        let Some(name) = Name::of(name) else {
            return Err(LineRefusal::Fault(LineFault::BadLine));
        };
        match asked(priority, demand, slices, rest) {
            Ok(ask) => self.admit(limits, tenant, name, ask),
            Err(fault) => Err(LineRefusal::Fault(fault)),
        }
    }

    /// Reads the words after the `j` of a job's line, of this tenant.
    #[tactic(auto, using(crate::proofs::Rows::other_words))]
    fn take_job_of(
        &mut self,
        limits: Limits,
        tenant: Name,
        words: &[u8],
    ) -> Result<Option<FeedPost>, LineRefusal>
        ensures { Posts result self.new (of_tenant limits tenant (words_of words.now) self.old) }
    {
        match only_word(words) {
            Some(name) => return self.take_up(tenant, name),
            None => {}
        }
        match four_words(words) {
            Some(words) => self.take_terms(limits, tenant, words),
            None => Err(LineRefusal::Fault(LineFault::BadLine)),
        }
    }

    /// Reads the words after the `j` of a job's line.
    fn take_job(&mut self, limits: Limits, words: &[u8]) -> Result<Option<FeedPost>, LineRefusal>
        ensures { Posts result self.new (after_job limits self.old.tenant (words_of words.now) self.old) }
    {
        match self.tenant {
            Some(tenant) => self.take_job_of(limits, tenant, words),
            None => Err(LineRefusal::Fault(LineFault::BadLine)),
        }
    }

    /// Reads a line of no job, which is its first word and the others.
    fn take_outside(
        &mut self,
        limits: Limits,
        first: &[u8],
        others: &[u8],
    ) -> Result<Option<FeedPost>, LineRefusal>
        ensures { Posts result self.new (outside limits first.now (words_of others.now) self.old) }
    {
        if first == b"t".as_slice() {
            return self.take_tenant(limits, others);
        }
        if first == b"j".as_slice() {
            return self.take_job(limits, others);
        }
        Err(LineRefusal::Fault(LineFault::BadLine))
    }

    /// Goes on with this job after a line of it, where that was no refusal: what it has got is posted.
    fn go_on(
        &mut self,
        before: Before,
        job: OpenJob,
        read: Result<(), LineRefusal>,
    ) -> Result<Option<FeedPost>, LineRefusal>
        ensures { JobGoesOn before.key before.steps read job result self.old self.new }
    {
        match read {
            Ok(()) => match step_got(before, &job) {
                Ok(post) => {
                    self.set_current(Some(job));
                    Ok(post)
                }
                Err(_) => {
                    drop(job);
                    Err(LineRefusal::OutOfMemory)
                }
            },
            Err(refusal) => {
                drop(job);
                Err(refusal)
            }
        }
    }

    /// Reads a line in this job that may begin a block or change what the job asks for.
    fn take_between(
        &mut self,
        limits: Limits,
        split: SplitLine,
        job: OpenJob,
    ) -> Result<Option<FeedPost>, LineRefusal>
        requires { words_of split.line.now ≡ split.first.now ∷ words_of split.others.now }
        ensures { Posts
            result self.new
            (posting self.old job (between limits split.entry.first.now (words_of split.entry.others.now) job)) }
    {
        let before = Before::of(&job);
        let mut job = job;
        let read = job.take_between(limits, split);
        self.go_on(before, job, read)
    }

    /// Reads a line in the block of this job.
    fn take_in_block(
        &mut self,
        split: SplitLine,
        job: OpenJob,
    ) -> Result<Option<FeedPost>, LineRefusal>
        requires { words_of split.line.now ≡ split.first.now ∷ words_of split.others.now }
        ensures { Posts
            result self.new
            (posting self.old job (in_its_block split.entry.first.now (words_of split.entry.others.now) job job.block)) }
    {
        let before = Before::of(&job);
        let mut job = job;
        let read = job.take_in_block(split);
        self.go_on(before, job, read)
    }

    /// Reads the line that ends this job, given what stands after its first word.
    fn take_end(&mut self, job: OpenJob, words: &[u8]) -> Result<Option<FeedPost>, LineRefusal>
        ensures { Posts result self.new (after_end (words_of words.now) job self.old) }
    {
        if first_word(words).is_some() {
            drop(job);
            return Err(LineRefusal::Fault(LineFault::BadLine));
        }
        let key = Before::of(&job).key;
        drop(job);
        self.set_current(None);
        Ok(Some(FeedPost::Closes { key }))
    }

    /// The lines that follow are not of this job, which stays open.
    fn put_aside(&mut self, job: OpenJob) -> Result<(), AllocError>
        ensures { OnOk result (self.new ≡ put_aside (with_current self.old job)) }
    {
        self.set_current(None);
        match self.aside.reserve(1) {
            Ok(()) => {
                self.aside.push_reserved(job);
                Ok(())
            }
            Err(error) => {
                drop(job);
                Err(error)
            }
        }
    }

    /// Reads a line that is not one of this job.
    fn take_beside(
        &mut self,
        limits: Limits,
        split: SplitLine,
        job: OpenJob,
    ) -> Result<Option<FeedPost>, LineRefusal>
        ensures { Posts
            result self.new
            (outside limits split.entry.first.now (words_of split.entry.others.now) (put_aside (with_current self.old job))) }
    {
        self.put_aside(job)?;
        self.take_outside(limits, split.first, split.others)
    }

    /// Reads a line where the lines are of this job, and in no block, which is its first word and the others.
    fn take_in_job(
        &mut self,
        limits: Limits,
        split: SplitLine,
        job: OpenJob,
    ) -> Result<Option<FeedPost>, LineRefusal>
        requires { words_of split.line.now ≡ split.first.now ∷ words_of split.others.now }
        ensures { Posts
            result self.new
            (inside_job limits split.entry.first.now (words_of split.entry.others.now) job (with_current self.old job)) }
    {
        if split.first == b"p".as_slice() {
            return self.take_between(limits, split, job);
        }
        if split.first == b"q".as_slice() {
            return self.take_between(limits, split, job);
        }
        if split.first == b"e".as_slice() {
            return self.take_end(job, split.others);
        }
        self.take_beside(limits, split, job)
    }

    /// Reads a line where the lines are of this job, which is its first word and the others.
    fn take_inside(
        &mut self,
        limits: Limits,
        split: SplitLine,
        job: OpenJob,
    ) -> Result<Option<FeedPost>, LineRefusal>
        requires { words_of split.line.now ≡ split.first.now ∷ words_of split.others.now }
        ensures { Posts
            result self.new
            (inside limits split.entry.first.now (words_of split.entry.others.now) job job.block (with_current self.old job)) }
    {
        if job.has_block() {
            return self.take_in_block(split, job);
        }
        self.take_in_job(limits, split, job)
    }

    /// Reads a line, which is its first word and the others and no comment.
    fn take_counted(
        &mut self,
        limits: Limits,
        split: SplitLine,
    ) -> Result<Option<FeedPost>, LineRefusal>
        requires { words_of split.line.now ≡ split.first.now ∷ words_of split.others.now }
        ensures { Posts
            result self.new
            (after_counted limits split.entry.first.now (words_of split.entry.others.now) self.old.current self.old) }
    {
        match self.current.take() {
            None => self.take_outside(limits, split.first, split.others),
            Some(job) => self.take_inside(limits, split, job),
        }
    }

    /// Reads a line by its first word.
    fn take_other(&mut self, limits: Limits, line: &[u8]) -> Result<Option<FeedPost>, LineRefusal>
        ensures { Posts result self.new (after_row limits (words_of line.now) self.old) }
    {
        let Some((first, others)) = first_word(line) else {
            return Ok(None);
        };
        if is_comment(first) {
            return Ok(None);
        }
        let split = SplitLine {
            line,
            first,
            others,
        };
        self.take_counted(limits, split)
    }

    /// Whether a line is one of numbers in a block, as its first byte tells. One that is not may be one all the same.
    #[tactic(auto, using(crate::proofs::Rows::stays_in_block))]
    fn is_at_numbers(&self, line: &[u8]) -> bool
        ensures { result ≡ true → StaysInBlock line.now self.now }
    {
        match &self.current {
            Some(job) => job.has_block() && begins_number(line),
            None => false,
        }
    }

    /// Reads a line of numbers of a block in place. Without a block nothing is changed.
    fn take_numbers(&mut self, line: &[u8]) -> Result<Option<FeedPost>, LineRefusal>
        ensures { Posts result self.new (in_job_of (words_of line.now) self.old self.old.current) }
    {
        if let Some(job) = &mut self.current {
            return match job.take_numbers(line) {
                Ok(()) => Ok(None),
                Err(refusal) => Err(refusal),
            };
        }
        Ok(None)
    }

    /// Reads a line within these limits: one of numbers in place, since nearly all lines of a long text are such.
    fn take_within(&mut self, limits: Limits, line: &[u8]) -> Result<Option<FeedPost>, LineRefusal>
        ensures { Posts result self.new (after_row limits (words_of line.now) self.old) }
    {
        if self.is_at_numbers(line) {
            return self.take_numbers(line);
        }
        self.take_other(limits, line)
    }

    /// Reads a line: what it posts. After a refusal nothing is said of what is left.
    pub(crate) fn take_row(&mut self, line: &[u8]) -> Result<Option<FeedPost>, LineRefusal>
        ensures { Posts result self.new (after_row limits (words_of line.now) self.old) }
    {
        self.take_within(LIMITS, line)
    }

    /// Whether the text may end here: no block has begun and not ended. After a refusal nothing is said of what is left.
    pub(crate) fn end(&mut self) -> Result<(), LineRefusal>
        ensures { Ends result self.old self.new }
    {
        match self.current.take() {
            None => Ok(()),
            Some(job) => self.end_in(job),
        }
    }

    /// Whether the text may end in this job.
    #[tactic(auto, using(crate::proofs::Rows::unended_at_end))]
    fn end_in(&mut self, job: OpenJob) -> Result<(), LineRefusal>
        ensures { Ends result (with_current self.old job) self.new }
    {
        if job.has_block() {
            return Err(job.unended());
        }
        self.set_current(Some(job));
        Ok(())
    }

    /// Whether this is an open job beside the one that the lines are of.
    fn is_aside(&self, tenant: Name, name: &[u8]) -> bool
        ensures { result ≡ list_any (is_open_job tenant name.now) self.now.aside }
    {
        self.aside
            .iter()
            .any(|open| is_open_job(open, tenant, name))
    }

    /// Whether this is the job that the lines are of.
    fn is_current(&self, tenant: Name, name: &[u8]) -> bool
        ensures { result ≡ list_any (is_open_job tenant name.now) (option_to_list self.now.current) }
    {
        match &self.current {
            Some(open) => is_open_job(open, tenant, name),
            None => false,
        }
    }

    /// Whether the job of these names has not ended.
    #[tactic(auto, using(crate::proofs::Closing::opened_either))]
    fn is_open(&self, tenant: Name, name: &[u8]) -> bool
        ensures { result ≡ list_any (is_open_job tenant name.now) (opened self.now) }
    {
        self.is_aside(tenant, name) || self.is_current(tenant, name)
    }

    /// Whether the job at this place among those that have begun has not ended.
    fn is_open_at(&self, at: usize) -> bool
        requires { at < length self.now.begun }
        ensures { (j : ScriptedJob) → slice_get self.now.begun at ≡ Some j → result ≡ is_opened self.now j }
    {
        let job = &self.begun[at];
        self.is_open(job.tenant(), job.name().as_bytes())
    }

    /// The place of the first job that has not ended, from this place on.
    fn first_open(&self, from: usize) -> Option<usize>
        ensures { MatchOption result (filter (is_opened self.now) (drop from self.now.begun) ≡ [])
            (λ at. IsFirstOpen from at self.now) }
    {
        let mut at = from;
        while at < self.begun.len() {
            if self.is_open_at(at) {
                return Some(at);
            }
            at += 1;
        }
        None
    }

    /// The key of the job at this place among those that have begun.
    fn key_at(&self, at: usize) -> Key
        requires { at < length self.now.begun }
        ensures key { (j : ScriptedJob) × (slice_get self.now.begun at ≡ Some j) × (result ≡ key_of j) }
        ensures apart { are_apart self.now.begun ≡ true }
        ensures bound { at + 1 < 2 ^ 64 }
    {
        key_of(&self.begun[at])
    }

    /// Takes out the open job of this key.
    fn close(&mut self, key: &Key)
        ensures { self.new ≡ without key.now self.old }
    {
        take_out(&mut self.aside, key.tenant, key.job.as_bytes());
        if self.is_current(key.tenant, key.job.as_bytes()) {
            self.set_current(None);
        }
    }

    /// Takes out the first of the jobs that have not ended, where so many of those that began first have ended. Answers
    /// its key, and how many of those that began first have ended then.
    pub(crate) fn take_open(&mut self, passed: usize) -> Option<(Key, usize)>
        requires { HavePassed passed self.old }
        ensures { MatchOption result ((closings self.old ≡ []) × (self.new ≡ self.old))
            (λ c. (closings self.old ≡ Closes c.0 ∷ closings self.new)
            × HavePassed c.1 self.new) }
    {
        match self.first_open(passed) {
            None => None,
            Some(at) => {
                let key = self.key_at(at);
                self.close(&key);
                Some((key, at + 1))
            }
        }
    }
}

/// What a job was before a line of it: its key, and how many steps it had.
#[derive(Clone, Copy)]
struct Before {
    key: Key,
    steps: usize,
}

impl Before {
    /// Of this job.
    fn of(job: &OpenJob) -> Before
        ensures key { result.key ≡ key_of job.now.job }
        ensures steps { result.steps ≡ length job.now.job.steps }
    {
        Before {
            key: key_of(job.job()),
            steps: job.job().steps().len(),
        }
    }
}

/// The key of a job.
fn key_of(job: &ScriptJob) -> Key
    ensures { result ≡ key_of job.now }
{
    Key {
        tenant: job.tenant(),
        job: job.name(),
    }
}

/// Whether an open job is that of this tenant under this name.
fn is_open_job(job: &OpenJob, tenant: Name, name: &[u8]) -> bool
    ensures { result ≡ is_open_job tenant name.now job.now }
{
    tenant == job.job().tenant() && name == job.job().name().as_bytes()
}

/// Takes out the open job of this tenant under this name.
fn take_out(jobs: &mut Vec<OpenJob>, tenant: Name, name: &[u8])
    ensures { jobs.new.items ≡ filter (λ o. not (is_open_job tenant name.now o)) jobs.old.items }
{
    jobs.retain(|open| !is_open_job(open, tenant, name));
}

/// The step that a job has got by a line, as what is posted. A revision shares its lists.
fn step_got(before: Before, job: &OpenJob) -> Result<Option<FeedPost>, AllocError>
    ensures { IfOk result
        (λ p. option_to_list p ≡ map (Takes before.key) (option_to_list (slice_get job.now.job.steps before.steps))) }
{
    match job.job().steps().get(before.steps) {
        None => Ok(None),
        Some(step) => Ok(Some(FeedPost::Takes {
            key: before.key,
            step: step_of(step)?,
        })),
    }
}

/// An equal step. A revision shares its lists.
fn step_of(step: &Step) -> Result<Step, AllocError>
    ensures { IfOk result (λ s. s ≡ step.now) }
{
    match step {
        Step::Revise(revision) => Ok(Step::Revise(revision.copy()?)),
        Step::Reask(weight) => Ok(Step::Reask(*weight)),
    }
}

/// Makes room for one job more after these, and notes its names.
fn note(
    jobs: &mut Vec<ScriptJob>,
    names: &mut TakenNames,
    job: &ScriptJob,
) -> Result<(), AllocError>
    requires { TakenBy jobs.old.items names.old }
    ensures jobs { jobs.new.items ≡ jobs.old.items }
    ensures room { OnOk result (vec_len jobs.new < vec_capacity jobs.new) }
    ensures noted { OnOk result (TakenBy (jobs.old.items ++ job.now ∷ []) names.new) }
    ensures alike { OnErr result (TakenBy jobs.old.items names.new) }
{
    jobs.reserve(1)?;
    names.note(job)
}
