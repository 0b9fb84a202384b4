//! Checking the lines of a proof as they are read.

ghost use Rattle.std.specs.Prelude.{◌<◌, ◌+◌, ◌^◌, [], length, OnOk, IfErr};
ghost use Rattle.std.specs.Option.{option_map};
ghost use Rattle.spec_dimacs.specs.Rows.{rows_of};
ghost use Rattle.mal_check.specs.Checked.{held};
ghost use Rattle.mal_claim.specs.{Answers.{Gives}, Claims.{verdict_after}, Judged.{Judges, IsAlike, Explains}, Proofs.{first_fault, line_at, lines_from, verdict_from}, Verdicts.{IsFault, Says}};
ghost use Rattle.mal_lrat.specs.LineView.{seen};

use crate::denial::{Denial, VerifyFault};
use crate::row::{ProofFault, last_behind, read_row};
use mal_base::Lit;
use mal_check::{CheckFault, Checker};
use mal_lrat::Line;
use mal_text::first_line;
use std::alloc::Global;

/// Gives a checker the lines of a proof's text, each as it is read, up to the first one that is refused, where `last`
/// is the number of original clauses. The rows after that one are read all the same, since what is no line of a proof
/// comes before a refusal.
pub fn check_rows(
    alloc: Global,
    checker: &mut Checker,
    assumptions: &[Lit],
    text: &[u8],
    last: u64,
) -> Result<(), Denial>
    requires { length text.now < 2 ^ 63 }
    ensures { Judges result
        (verdict_after (held checker.old) checker.old.added assumptions.now (lines_from 1 last (rows_of text.now))) }
{
    let mut last = last;
    let mut number: u64 = 1;
    let mut rest = text;
    while let Some((row, behind)) = first_line(rest) {
        let line = read_row(alloc, number, row, last)?;
        last = last_behind(last, &line);
        match take_line(checker, number, line) {
            Ok(()) => {}
            Err(fault) => {
                read_behind(alloc, number + 1, behind, last)?;
                return Err(Denial::NotVerified { fault });
            }
        }
        number += 1;
        rest = behind;
    }
    match reached(checker, assumptions) {
        Ok(()) => Ok(()),
        Err(fault) => Err(Denial::NotVerified { fault }),
    }
}

/// Gives a checker the line of a row, if it spells one. Whatever lines are after, the verdict on all of them is that of
/// the checker after the line, or the refusal.
fn take_line(checker: &mut Checker, number: u64, line: Option<Line>) -> Result<(), VerifyFault>
    ensures taken { OnOk result
        (IsAlike (line_at number (option_map seen line)) (held checker.old) checker.old.added (held checker.new)
        checker.new.added) }
    ensures refused { IfErr result
        (λ e. Explains e (line_at number (option_map seen line)) (held checker.old) checker.old.added) }
{
    match line {
        None => Ok(()),
        Some(line) => match checker.line(line) {
            Ok(()) => Ok(()),
            Err(fault) => Err(refused(number, fault)),
        },
    }
}

/// The refusal of a line, or out of memory.
fn refused(line: u64, fault: CheckFault) -> VerifyFault
    ensures { IsFault line fault result }
{
    match fault {
        CheckFault::OutOfMemory => VerifyFault::OutOfMemory,
        fault => VerifyFault::Refused { line, fault },
    }
}

/// Reads the rows of a proof from this number on. The first one that is no line of a proof is a fault.
fn read_behind(alloc: Global, number: u64, text: &[u8], last: u64) -> Result<(), ProofFault>
    requires { number + length text.now < 2 ^ 64 }
    ensures { Gives (λ _. tt) result (first_fault (lines_from number last (rows_of text.now))) }
{
    let mut last = last;
    let mut number = number;
    let mut rest = text;
    while let Some((row, behind)) = first_line(rest) {
        let line = read_row(alloc, number, row, last)?;
        last = last_behind(last, &line);
        number += 1;
        rest = behind;
    }
    Ok(())
}

/// Whether the lines that a checker took reach the goal.
fn reached(checker: &Checker, assumptions: &[Lit]) -> Result<(), VerifyFault>
    ensures { Says result (verdict_from (held checker.now) checker.now.added assumptions.now []) }
{
    if checker.goal(assumptions) {
        Ok(())
    } else {
        Err(VerifyFault::NoGoal)
    }
}
