//! The summary of a run's replies.

ghost use Rattle.std.specs.Prelude.{◌≡◌, ◌≤◌, bytes_eq, if◌then◌else◌, IfOk};
ghost use Rattle.mal_answer.specs.{Answers.{IsSummaryOf, logged}, Summaries.{lines_summary, lines_that_are}};

use crate::answer::{Complaint, Texts};
use itoa::Buffer;
use mal_text::{first_line, put_line};
use std::alloc::{AllocError, Global};

/// The texts of a run with the summary of its replies in their place.
pub fn summarized(alloc: Global, jobs: u32, ran: Texts) -> Result<Texts, Complaint>
    ensures { IsSummaryOf jobs (logged ran.log.items) ran.out.items result }
{
    match summary(alloc, jobs, ran.out.as_slice()) {
        Ok(out) => Ok(Texts { log: ran.log, out }),
        Err(_) => Err(Complaint::OutOfMemory),
    }
}

/// The line `g N sat A unsat B unknown C` of so many jobs and the replies to them: A of them are satisfiable, B
/// unsatisfiable and C unknown.
#[tactic(auto, unfolding(crate::specs::Summaries::lines_summary))]
fn summary(alloc: Global, jobs: u32, replies: &[u8]) -> Result<Vec<u8>, AllocError>
    ensures { IfOk result (λ v. v.items ≡ lines_summary jobs replies.now) }
{
    let mut number = Buffer::new();
    let mut satisfiable = Buffer::new();
    let mut unsatisfiable = Buffer::new();
    let mut unknown = Buffer::new();
    // Replies are told apart by their line `s ..`, of which each has one.
    let words = [
        number.format(jobs).as_bytes(),
        b"sat",
        satisfiable
            .format(count(b"s SATISFIABLE", replies))
            .as_bytes(),
        b"unsat",
        unsatisfiable
            .format(count(b"s UNSATISFIABLE", replies))
            .as_bytes(),
        b"unknown",
        unknown.format(count(b"s UNKNOWN", replies)).as_bytes(),
    ];
    let mut line = Vec::new(alloc);
    put_line(&mut line, b"g", &words)?;
    Ok(line)
}

/// How many lines of a text are this one.
#[tactic(auto, using(crate::proofs::Counting::counting_lemmas))]
fn count(line: &[u8], text: &[u8]) -> usize
    ensures { result ≡ lines_that_are line.now text.now }
{
    let mut rest = text;
    let mut count = 0;
    while let Some((row, behind)) = first_line(rest) {
        count += one_if_same(line, row);
        rest = behind;
    }
    count
}

/// One where two lines are the same, else zero.
fn one_if_same(line: &[u8], other: &[u8]) -> usize
    ensures value { result ≡ (if bytes_eq line.now other.now then 1 else 0) }
    ensures bound { result ≤ 1 }
{
    if line == other { 1 } else { 0 }
}
