//! Checking claims.

ghost use Rattle.std.specs.Prelude.{◌<◌, ◌^◌, length, OnOk};
ghost use Rattle.spec_dimacs.specs.Rows.{rows_of};
ghost use Rattle.mal_claim.specs.{Claims.{said, said_of_rows, said_behind}, Judged.{Judges, IsVerified}, ReadResult.{opened_seen}};

use crate::checking::check_rows;
use crate::denial::Denial;
use crate::fault::ClaimFault;
use crate::opened::Opened;
use crate::reading::{has_proof, read_opening};
use mal_check::Checker;
use std::alloc::Global;

/// Checks the claim that a text spells: a formula by DIMACS CNF, maybe a line `a`, literals and 0, then the line
/// `proof`, and the lines of a proof, each of which is checked as it is read. Ok says that the lines refute the formula
/// under the assumptions, so nothing satisfies both.
///
/// Errors: `NoClaim` where no line is the one word `proof`, and else with the first fault of the text, from its
/// beginning, with its line; lines of the proof are counted from 1 after the line `proof`. `NotVerified` where the text
/// has no fault, with the first line that is refused, or where the lines do not reach the goal. Out of memory may come
/// at any time.
pub fn check(alloc: Global, text: &[u8]) -> Result<(), Denial>
    requires { length text.now < 2 ^ 63 }
    // Which verdict or which fault it is.
    ensures exact { Judges result (said text.now) }
    // What is verified is spelled so, and nothing satisfies it.
    ensures verified { OnOk result (IsVerified text.now) }
{
    judge(alloc, text)
}

/// Checks the claim of a text, or tells its first fault.
fn judge(alloc: Global, text: &[u8]) -> Result<(), Denial>
    requires { length text.now < 2 ^ 63 }
    ensures { Judges result (said text.now) }
{
    if has_proof(text) {
        judge_rows(alloc, text)
    } else {
        Err(Denial::NoClaim {
            fault: ClaimFault::NoProof,
        })
    }
}

/// Checks the claim of a text in which a line is the word `proof`.
#[tactic(auto, using(crate::proofs::JudgedLemmas::judged_lemmas))]
fn judge_rows(alloc: Global, text: &[u8]) -> Result<(), Denial>
    requires { length text.now < 2 ^ 63 }
    ensures { Judges result (said_of_rows (rows_of text.now)) }
{
    let opened = read_opening(alloc, text)?;
    judge_opened(alloc, &opened)
}

/// Checks the claim of a formula, assumptions and the text of a proof. The checker has the clauses as its own.
fn judge_opened(alloc: Global, opened: &Opened) -> Result<(), Denial>
    requires { length opened.now.proof.now < 2 ^ 63 }
    ensures { Judges result (said_behind (opened_seen opened.now)) }
{
    let mut checker = Checker::of_formula(alloc, &opened.formula)?;
    let last = opened.formula.clauses().len() as u64;
    check_rows(
        alloc,
        &mut checker,
        opened.assumptions.as_slice(),
        opened.proof,
        last,
    )
}
