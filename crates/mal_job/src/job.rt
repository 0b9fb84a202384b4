//! A job: its machine, which only takes events.

ghost use Rattle.std.specs.Prelude.{◌≡◌, ◌↔◌, ◌+◌, ◌-◌, ◌<◌, ◌≤◌, ◌^◌, ◌==◌, ℕ, List, not, true, length, slice_get, is_some, IsTrue, Some, None, OnOk, OnErr, IfOk};
ghost use Rattle.std.specs.Option.{option_copied};
ghost use Rattle.mal_base.specs.{Limits.{limits}, NumberedClause.{Line}};
ghost use Rattle.mal_base.specs.declared.verdict.Outcome.TheVariants.{Ran, Starved, Lost};
ghost use Rattle.spec_job.specs.{SoloMachine.{Opened, Revised, Reasked, Closed, Volume, Finished, Exchanged, unopened, solo_step, is_live, startable, is_exchange_due, place_at, clauses_in, literals_in}, Viewed.{unstarted, and_own, and_start, journal_at, IsLeaseOf, IsBack}, Proofs.{failed, proof_lines}, Replies.{body_by}};
ghost use Rattle.mal_suspend.specs.Freezing.{IsFrozen};
ghost use Rattle.spec_report.specs.Replies.{Proof, reply_text};
ghost use Rattle.mal_report.specs.Told.{body_of};
ghost use Rattle.mal_job.specs.{Among.{among}, Findings.{Finds, told_by}, Finishing.{outcome_of, MayFinish, MayFollow, MayStarve}, Replying.{Tells, TellsReply}, Viewed.{shared}};

use crate::derivation::Derivation;
use crate::finding::Finding;
use crate::finishing::{finish_lost, finish_run, finish_starved, give_up};
use crate::loading::{count_clauses, missing_loads};
use crate::questions::{Questions, answer_of};
use crate::told::{answer_at, copied, last_lits, lits_at, negations, revision_at};
use crate::tree::Tree;
use mal_base::{Answer, Ask, ClauseId, Lines, Name, Outcome, Weight};
use mal_learn::Scratch;
use mal_proof::renumber;
use mal_report::{Cause, Told, reply};
use mal_revision::Revision;
use mal_suspend::{Done, Kept, Lease};
use std::alloc::{AllocError, Global};
use std::marker::Model;
use std::sync::Arc;

/// A job as its machine run alone: what was asked and answered, the tree of its nodes, and the log of derived lines.
/// Contracts see the job's number and key with the machine, and the numbers of the last starts; the type keeps that the
/// machine was run on own events that may happen.
#[derive(Drop)]
pub struct Job {
    tenant: Name,
    name: Name,
    questions: Questions,
    tree: Tree,
    log: Derivation,
}

impl Model for Job {
    ghost use Rattle.spec_job.specs.Viewed.{JobView};
    ghost use Rattle.mal_job.specs.{Viewed.{viewed}, JobInvariant.{JobInvariant}};

    ghost Value = { JobView };

    ghost view = { λ j. viewed j.tenant j.name (record { asked = j.questions; tree = j.tree; log = j.log }) };

    ghost invariant = { λ j. JobInvariant (record { asked = j.questions; tree = j.tree; log = j.log }) };
}

impl Job {
    /// A job of this number that was just opened.
    pub fn fresh(
        alloc: Global,
        number: u64,
        tenant: Name,
        job: Name,
        ask: Ask,
    ) -> Result<Job, AllocError>
        ensures { IfOk result
            (λ j. j ≡ unstarted number
            (record { key = record { tenant = tenant; job = job }; state = solo_step unopened (Opened ask) })) }
    {
        Ok(Job {
            tenant,
            name: job,
            questions: Questions::fresh(alloc, ask),
            tree: Tree::fresh(alloc, number, ask.profile()),
            log: Derivation::new(alloc),
        })
    }

    /// The job's number.
    pub fn number(&self) -> u64
        ensures { result ≡ self.now.number }
    {
        self.tree.number()
    }

    /// The job's tenant.
    pub fn tenant(&self) -> Name
        ensures { result ≡ self.now.titled.key.tenant }
    {
        self.tenant
    }

    /// The job's name.
    pub fn name(&self) -> Name
        ensures { result ≡ self.now.titled.key.job }
    {
        self.name
    }

    /// What the job asks for.
    pub fn ask(&self) -> Ask
        ensures { result ≡ self.now.titled.state.ask }
    {
        self.questions.ask()
    }

    /// Whether the job was closed.
    pub fn is_closed(&self) -> bool
        ensures { result ≡ self.now.titled.state.closed }
    {
        self.questions.is_closed()
    }

    /// Whether a revision has no answer yet.
    pub fn is_live(&self) -> bool
        ensures { result ≡ is_live self.now.titled.state }
    {
        self.questions.answers().len() < self.questions.revisions().len()
    }

    /// How many of the job's nodes may run at a time.
    pub fn volume(&self) -> u32
        ensures value { result ≡ self.now.titled.state.volume }
        ensures few { self.now.titled.state.volume ≤ 64 }
    {
        self.tree.volume()
    }

    /// The revisions, in the order in which they were posted.
    pub fn revisions(&self) -> &[Arc<Revision>]
        ensures value { shared result.now ≡ self.now.titled.state.revisions }
        ensures few { length self.now.titled.state.revisions ≤ limits.revisions }
        ensures clauses { clauses_in self.now.titled.state.revisions ≤ limits.clauses }
    {
        self.questions.revisions()
    }

    /// The number of the clauses of all revisions, tautologies among them. It is kept, and takes no count.
    pub fn clauses(&self) -> u32
        ensures value { result ≡ clauses_in self.now.titled.state.revisions }
        ensures bound { result ≤ limits.clauses }
    {
        self.questions.clauses()
    }

    /// The number of the literals of the clauses of all revisions, at most 2^32. It is kept, and takes no count.
    pub fn literals(&self) -> u64
        ensures value { result ≡ literals_in self.now.titled.state.revisions }
        ensures bound { result ≤ 2 ^ 32 }
    {
        self.questions.literals()
    }

    /// A revision, numbered from 1: None exactly where the job has no such revision.
    pub fn revision(&self, r: u32) -> Option<&Revision>
        ensures { option_copied result ≡ among r self.now.titled.state.revisions }
    {
        revision_at(self.questions.revisions(), r)
    }

    /// The answers, in the order of the revisions.
    pub fn answers(&self) -> &[Answer]
        ensures value { result.now ≡ self.now.titled.state.answers }
        ensures fewer { length self.now.titled.state.answers ≤ length self.now.titled.state.revisions }
    {
        self.questions.answers()
    }

    /// Whether a revision, numbered from 1, is answered.
    pub fn answered(&self, r: u32) -> bool
        ensures { IsTrue result ↔ ((1 ≤ r) × (r ≤ length self.now.titled.state.answers)) }
    {
        1 <= r && r as usize <= self.questions.answers().len()
    }

    /// What the reply to a revision, numbered from 1, tells: None exactly where it is not answered.
    pub fn told(&self, r: u32) -> Result<Option<Told>, AllocError>
        ensures { IfOk result (λ told. Tells r told self.now.titled.state) }
    {
        match answer_at(self.questions.answers(), r) {
            None => Ok(None),
            Some(answer) => Ok(Some(self.tell(r, answer)?)),
        }
    }

    /// What is found of a revision, numbered from 1: None exactly where it is not answered. No lines of a proof are made.
    pub fn finding(&self, r: u32) -> Result<Option<Finding>, AllocError>
        ensures { IfOk result (λ found. Finds r found self.now.titled.state) }
    {
        match answer_at(self.questions.answers(), r) {
            None => Ok(None),
            Some(answer) => Ok(Some(self.found(answer)?)),
        }
    }

    /// What an answer says but for the lines of a proof.
    fn found(&self, answer: &Answer) -> Result<Finding, AllocError>
        ensures { (r : ℕ) → IfOk result
            (λ found. (lines : List Line) × (body_by self.now.titled.state r answer.now ≡ told_by lines found)) }
    {
        let alloc = self.questions.allocator();
        match answer {
            Answer::Satisfied(model) => Ok(Finding::Model(copied(alloc, model)?)),
            Answer::Refuted { goal } => {
                let failed = negations(alloc, lits_at(self.log.log(), *goal))?;
                Ok(Finding::Failed(failed))
            }
            Answer::Spent(slices) => Ok(Finding::Unknown(Cause::Spent(*slices))),
            Answer::OutOfStarts => Ok(Finding::Unknown(Cause::Starved)),
        }
    }

    /// The reply to a revision, numbered from 1: None exactly where it is not answered.
    pub fn reply(&self, r: u32) -> Result<Option<Vec<u8>>, AllocError>
        ensures { IfOk result (λ text. TellsReply self.now.titled.key r text self.now.titled.state) }
    {
        match self.told(r)? {
            None => Ok(None),
            Some(told) => Ok(Some(self.text(r, &told)?)),
        }
    }

    /// The text of the reply to a revision, numbered from 1, that tells this.
    fn text(&self, r: u32, told: &Told) -> Result<Vec<u8>, AllocError>
        ensures { IfOk result
            (λ text. text.items
            ≡ reply_text self.now.titled.key.tenant self.now.titled.key.job r self.now.titled.state.ask.profile
            (body_of told.now)) }
    {
        let alloc = self.questions.allocator();
        let profile = self.questions.ask().profile();
        reply(alloc, &self.tenant, &self.name, r, profile, told)
    }

    /// What an answer to a revision, numbered from 1, tells.
    fn tell(&self, r: u32, answer: &Answer) -> Result<Told, AllocError>
        requires first { 1 ≤ r }
        requires posted { r ≤ length self.now.titled.state.revisions }
        ensures { IfOk result (λ told. body_of told ≡ body_by self.now.titled.state (r - 1) answer.now) }
    {
        match answer {
            Answer::Satisfied(model) => {
                Ok(Told::Model(copied(self.questions.allocator(), model)?))
            }
            Answer::Refuted { goal } => self.tell_proof(r, *goal),
            Answer::Spent(slices) => Ok(Told::Spent(*slices)),
            Answer::OutOfStarts => Ok(Told::Starved),
        }
    }

    /// What is told of a refuted revision, numbered from 1: the assumptions that fail, and of the log the lines that
    /// the goal needs, numbered after the clauses of the revisions up to this one.
    fn tell_proof(&self, r: u32, goal: ClauseId) -> Result<Told, AllocError>
        requires first { 1 ≤ r }
        requires posted { r ≤ length self.now.titled.state.revisions }
        ensures { IfOk result
            (λ told. body_of told ≡ Proof (failed goal self.now.titled.state.log)
            (proof_lines self.now.titled.state.revisions self.now.titled.state.log (r - 1) goal)) }
    {
        let alloc = self.questions.allocator();
        let needed = self.log.log().trim(goal)?;
        let revisions = self.questions.revisions();
        let count = count_clauses(&revisions[..r as usize]);
        let lines = renumber(alloc, &needed, count as u64)?;
        let failed = negations(alloc, last_lits(&needed))?;
        Ok(Told::Proof { failed, lines })
    }

    /// The number of slices that were run.
    pub fn slice_count(&self) -> usize
        ensures { result ≡ length self.now.titled.state.slices }
    {
        self.log.slice_count()
    }

    /// The lines that a slice logged, and whether its verdict answered a revision, the slices counted from 0.
    pub fn slice(&self, n: usize) -> (&Lines, bool)
        requires { n < length self.now.titled.state.slices }
        ensures { slice_get self.now.titled.state.slices n
            ≡ Some (record { lines = result.0.now.lines; ends = result.1 }) }
    {
        self.log.slice(n)
    }

    /// Posts the job's next revision, and makes room for its answer. It is answered at once where the log holds an
    /// empty clause. If memory runs out, the job is as before.
    pub fn revise(&mut self, revision: Revision) -> Result<(), AllocError>
        requires few { length self.old.titled.state.revisions < limits.revisions }
        requires clauses { clauses_in self.old.titled.state.revisions + length revision.clauses ≤ limits.clauses }
        ensures ok { OnOk result (self.new ≡ and_own self.old (Revised revision)) }
        ensures err { OnErr result (self.new ≡ self.old) }
    {
        // For the proof.
        let _ = revision.clauses();
        self.questions.revise(revision, self.log.empty())
    }

    /// Puts this priority and this demand in place of those that the job asked for. Its slices, its profile and its
    /// nodes are as before. Takes no memory.
    pub fn reask(&mut self, weight: Weight)
        ensures { self.new ≡ and_own self.old (Reasked weight) }
    {
        self.questions.reask(weight);
    }

    /// Closes the job: no revision follows. Once each has its answer the job keeps its nodes' journals alone.
    pub fn close(&mut self)
        ensures { self.new ≡ and_own self.old Closed }
    {
        self.questions.close();
        give_up(&self.questions, &mut self.tree);
    }

    /// Sets how many of the job's nodes may run at a time, 64 at most.
    pub fn set_volume(&mut self, volume: u32)
        requires { volume ≤ 64 }
        ensures { self.new ≡ and_own self.old (Volume volume) }
    {
        self.tree.set_volume(volume);
    }

    /// How often the node of this index (0 to 63) was started.
    pub fn starts(&self, index: u32) -> u64
        requires { index ≤ 63 }
        ensures { result ≡ (place_at self.now.titled.state index).starts }
    {
        self.tree.starts(index)
    }

    /// Whether the start of the node of this index (0 to 63) is out.
    pub fn is_out(&self, index: u32) -> bool
        requires { index ≤ 63 }
        ensures { result ≡ is_some (place_at self.now.titled.state index).out }
    {
        self.tree.is_out(index)
    }

    /// Whether the node of this index (0 to 63) has run.
    pub fn has_run(&self, index: u32) -> bool
        requires { index ≤ 63 }
        ensures { result ≡ not (length (place_at self.now.titled.state index).entries == 0) }
    {
        self.tree.has_run(index)
    }

    /// The bytes of the image of the node of this index (0 to 63), which is not out. One that is gone is rebuilt.
    pub fn image(&self, index: u32, scratch: &mut Scratch) -> Result<Vec<u8>, AllocError>
        requires index { index ≤ 63 }
        requires home { (place_at self.now.titled.state index).out ≡ None }
        ensures { IfOk result (λ v. IsFrozen v.items (journal_at self.now index)) }
    {
        self.tree.image(index, scratch)
    }

    /// Whether the node of this index (0 to 63) may start.
    pub fn startable(&self, index: u32) -> bool
        requires { index ≤ 63 }
        ensures { result ≡ startable self.now.titled.state index }
    {
        if !self.is_live() || index >= self.tree.volume() {
            return false;
        }
        if self.tree.is_out(index) {
            return false;
        }
        let out = self.tree.out_count(self.questions.answers().len());
        self.questions.spent() as usize + out < self.questions.ask().slices() as usize
    }

    /// Starts the node of this index for the current revision: hands it out to a worker as the lease of the start of
    /// this number. Makes room for what comes back. If memory runs out, and where the count of starts would pass its
    /// end, the job is as before.
    pub fn start(&mut self, index: u32, worker: u32, start: u64) -> Result<Lease, AllocError>
        requires { startable self.old.titled.state index ≡ true }
        ensures ok { OnOk result (self.new ≡ and_start self.old index start) }
        ensures lease { IfOk result (λ l. IsLeaseOf self.old index start worker l) }
        ensures err { OnErr result (self.new ≡ self.old) }
    {
        // For the proof.
        let _ = self.tree.volume();
        self.tree.grow(index as usize + 1)?;
        self.log.reserve(self.tree.starts_out() + 1)?;
        let loads = missing_loads(&self.questions, self.tree.loads(index))?;
        let current = self.questions.answers().len();
        self.tree.start(index, current, loads, start, worker)
    }

    /// Whether what came back is that of the lease that is out at this index (0 to 63): its journal is the lease's,
    /// after a start that ran with the start's entries besides.
    pub fn is_back(&self, index: u32, back: &Done) -> bool
        requires { index ≤ 63 }
        ensures { IsTrue result ↔ IsBack self.now index back.now }
    {
        self.tree.is_back(index, back)
    }

    /// Ends the start that is out at this index (0 to 63): it is lost where nothing came back. Takes no memory.
    pub fn finish(&mut self, index: u32, back: Option<Done>)
        requires index { index ≤ 63 }
        requires back { MayFinish self.old index back }
        ensures { self.new ≡ and_own self.old (Finished index (outcome_of back)) }
    {
        match back {
            None => self.end_lost(index),
            Some(done) => self.end_back(index, done),
        }
    }

    /// Ends the start that is out at this index as its slice ended where it was run: with these lines and, unless it is
    /// late, with this answer. The node is gone. If memory runs out, the job is as before.
    pub fn follow(
        &mut self,
        index: u32,
        lines: Lines,
        answer: Option<Answer>,
    ) -> Result<(), AllocError>
        requires { MayFollow self.old index lines.lines answer }
        ensures ok { OnOk result (self.new ≡ and_own self.old (Finished index Ran)) }
        ensures err { OnErr result (self.new ≡ self.old) }
    {
        match self.tree.grown(index) {
            Ok(grown) => {
                finish_run(
                    &mut self.questions,
                    &mut self.tree,
                    &mut self.log,
                    index,
                    Kept::Gone(grown),
                    lines,
                    answer,
                );
                Ok(())
            }
            Err(error) => {
                // For the proof.
                drop(lines);
                drop(answer);
                Err(error)
            }
        }
    }

    /// Ends the start that is out at this index as one that ran out of memory where it was run. The node is gone where
    /// nothing is kept of it. Takes no memory.
    pub fn starve(&mut self, index: u32, kept: Option<Kept>)
        requires { MayStarve self.old index kept }
        ensures { self.new ≡ and_own self.old (Finished index Starved) }
    {
        finish_starved(&mut self.questions, &mut self.tree, &self.log, index, kept);
    }

    /// Puts the node of this index, where it is not out, where its journal is, from the bytes of its image, so that it
    /// is not rebuilt. If memory runs out, the node is where it was.
    pub fn wake(&mut self, index: u32, bytes: Vec<u8>) -> Result<(), AllocError>
        requires { IsFrozen bytes.items (journal_at self.old index) }
        ensures { self.new ≡ self.old }
    {
        self.tree.wake(index, bytes)
    }

    /// Ends a start of which this came back.
    fn end_back(&mut self, index: u32, back: Done)
        requires back { IsBack self.old index back }
        ensures { self.new ≡ and_own self.old (Finished index back.outcome) }
    {
        match back.outcome() {
            Outcome::Ran => self.end_run(index, back),
            Outcome::Starved => self.end_starved(index, back),
            Outcome::Lost => unreachable!(),
        }
    }

    /// Ends a start that ran.
    fn end_run(&mut self, index: u32, back: Done)
        requires ran { back.outcome ≡ Ran }
        requires back { IsBack self.old index back }
        ensures { self.new ≡ and_own self.old (Finished index Ran) }
    {
        let verdict = back.verdict();
        let (kept, lines, model) = back.into_parts();
        finish_run(
            &mut self.questions,
            &mut self.tree,
            &mut self.log,
            index,
            kept,
            lines,
            answer_of(verdict, model),
        );
    }

    /// Ends a start that ran out of memory.
    fn end_starved(&mut self, index: u32, back: Done)
        requires starved { back.outcome ≡ Starved }
        requires back { IsBack self.old index back }
        ensures { self.new ≡ and_own self.old (Finished index Starved) }
    {
        let kept = Some(back.into_kept());
        finish_starved(&mut self.questions, &mut self.tree, &self.log, index, kept);
    }

    /// Ends a start that is lost.
    fn end_lost(&mut self, index: u32)
        requires { is_some (place_at self.old.titled.state index).out ≡ true }
        ensures { self.new ≡ and_own self.old (Finished index Lost) }
    {
        finish_lost(&mut self.questions, &mut self.tree, &self.log, index);
    }

    /// Whether an exchange is due: at a volume of at least 2, once twice as many slices as the volume were run since
    /// the last one.
    pub fn exchange_due(&self) -> bool
        ensures { result ≡ is_exchange_due self.now.titled.state }
    {
        let volume = self.tree.volume();
        volume >= 2 && 2 * volume <= self.tree.ran()
    }

    /// Lets the nodes below the volume that are at home tell one another what they derived since their last exchange.
    /// If memory runs out, the job is as before.
    pub fn exchange(&mut self) -> Result<(), AllocError>
        ensures ok { OnOk result (self.new ≡ and_own self.old Exchanged) }
        ensures err { OnErr result (self.new ≡ self.old) }
    {
        let volume = self.tree.volume();
        self.tree.grow(volume as usize)?;
        self.tree.exchange(self.log.log())
    }
}
