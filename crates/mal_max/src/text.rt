//! Writing an optimum.

ghost use Rattle.std.specs.Prelude.{◌≡◌, ◌∷◌, ◌++◌, [], codes, IfOk, OnOk};
ghost use Rattle.std.specs.Option.{option_map};
ghost use Rattle.spec_text.specs.Lines.{text_of};
ghost use Rattle.mal_max.specs.{Seen.{seen, solution_of}, Texts.{best_rows, optimum_rows, optimum_text, solution_rows}};

use crate::optimum::{Optimum, Solution};
use itoa::Buffer;
use mal_inquiry::put_unknown;
use mal_report::{put_model, put_proof};
use mal_text::put_line;
use std::alloc::{AllocError, Global};

/// The text of an optimum: the line `s OPTIMUM FOUND`, the lines of its cost and of its model, and those of the proof;
/// the line `s UNSATISFIABLE` and those of the proof; or the line `s UNKNOWN`, that of the cause, and those of the best
/// solution so far, if there is one.
#[tactic(auto, unfolding(crate::specs::Texts::optimum_text))]
pub fn optimum_text(alloc: Global, optimum: &Optimum) -> Result<Vec<u8>, AllocError>
    ensures { IfOk result (λ v. v.items ≡ optimum_text (seen optimum.now)) }
{
    let mut out = Vec::new(alloc);
    put_optimum(&mut out, optimum)?;
    Ok(out)
}

/// Writes the lines of an optimum.
fn put_optimum(out: &mut Vec<u8>, optimum: &Optimum) -> Result<(), AllocError>
    ensures { OnOk result (out.new.items ≡ out.old.items ++ text_of (optimum_rows (seen optimum.now))) }
{
    match optimum {
        Optimum::Best { solution, lines } => {
            put_line(out, b"s", &[b"OPTIMUM", b"FOUND"])?;
            put_solution(out, solution)?;
            put_proof(out, lines)?;
        }
        Optimum::NoModel { lines } => {
            put_line(out, b"s", &[b"UNSATISFIABLE"])?;
            put_proof(out, lines)?;
        }
        Optimum::Unknown { best, cause } => {
            put_unknown(out, *cause)?;
            put_best(out, best)?;
        }
    }
    Ok(())
}

/// Writes the lines of the best solution so far, if there is one.
fn put_best(out: &mut Vec<u8>, best: &Option<Solution>) -> Result<(), AllocError>
    ensures { OnOk result (out.new.items ≡ out.old.items ++ text_of (best_rows (option_map solution_of best.now))) }
{
    match best {
        None => Ok(()),
        Some(solution) => put_solution(out, solution),
    }
}

/// Writes the lines of a solution: its cost, and its model.
fn put_solution(out: &mut Vec<u8>, solution: &Solution) -> Result<(), AllocError>
    ensures { OnOk result (out.new.items ≡ out.old.items ++ text_of (solution_rows (solution_of solution.now))) }
{
    let mut cost = Buffer::new();
    put_line(out, b"o", &[cost.format(solution.cost).as_bytes()])?;
    put_model(out, solution.model.as_slice())
}
