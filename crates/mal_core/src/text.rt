//! Writing what a search for a minimal core comes to.

ghost use Rattle.std.specs.Prelude.{◌≡◌, [], ◌∷◌, ◌++◌, codes, IfOk, OnOk};
ghost use Rattle.spec_text.specs.{Lines.{text_of}, Numbers.{literal_word}};
ghost use Rattle.mal_report.specs.Rows.{model_row};
ghost use Rattle.mal_core.specs.{Seen.{seen}, Texts.{core_rows, minimal_rows, minimal_text, witness_rows}};

use crate::outcome::{Minimal, Narrowed};
use itoa::Buffer;
use mal_base::{Lit, Values};
use mal_inquiry::put_unknown;
use mal_report::{put_failed, put_model, put_proof};
use mal_text::put_line;
use std::alloc::{AllocError, Global};

/// The text of what a search came to: the line `s UNSATISFIABLE`, those of the core, of its proof, and of each literal
/// with a model without it; the line `s SATISFIABLE` and that of the model; or the line `s UNKNOWN` and that of the cause.
pub fn minimal_text(alloc: Global, minimal: &Minimal) -> Result<Vec<u8>, AllocError>
    ensures { IfOk result (λ v. v.items ≡ minimal_text (seen minimal.now)) }
{
    let mut out = Vec::new(alloc);
    put_minimal(&mut out, minimal)?;
    Ok(out)
}

/// Writes the lines of what a search came to.
fn put_minimal(out: &mut Vec<u8>, minimal: &Minimal) -> Result<(), AllocError>
    ensures { OnOk result (out.new.items ≡ out.old.items ++ text_of (minimal_rows (seen minimal.now))) }
{
    match minimal {
        Minimal::Core(narrowed) => put_core(out, narrowed),
        Minimal::Satisfiable { model } => {
            put_line(out, b"s", &[b"SATISFIABLE"])?;
            put_model(out, model.as_slice())
        }
        Minimal::Unknown { cause } => put_unknown(out, *cause),
    }
}

/// Writes the lines of a core: its literals, the lines that refute the formula under them, and its witnesses.
fn put_core(out: &mut Vec<u8>, narrowed: &Narrowed) -> Result<(), AllocError>
    ensures { OnOk result (out.new.items ≡ out.old.items ++ text_of (core_rows narrowed.now)) }
{
    put_line(out, b"s", &[b"UNSATISFIABLE"])?;
    put_failed(out, narrowed.core.as_slice())?;
    put_proof(out, &narrowed.lines)?;
    put_witnesses(out, narrowed.core.as_slice(), narrowed.models.as_slice())
}

/// Writes the lines of each literal that has a model without it.
fn put_witnesses(out: &mut Vec<u8>, core: &[Lit], models: &[Values]) -> Result<(), AllocError>
    ensures { OnOk result (out.new.items ≡ out.old.items ++ text_of (witness_rows core.now models.now)) }
{
    for (lit, model) in core.iter().zip(models) {
        put_witness(out, *lit, model)?;
    }
    Ok(())
}

/// Writes the line of a literal, and that of a model without it.
fn put_witness(out: &mut Vec<u8>, lit: Lit, model: &Values) -> Result<(), AllocError>
    ensures { OnOk result
        (out.new.items ≡ out.old.items ++ text_of ((codes "m" ∷ literal_word lit ∷ []) ∷ model_row model.now ∷ [])) }
{
    let mut number = Buffer::new();
    put_line(out, b"m", &[number.format(lit.dimacs()).as_bytes()])?;
    put_model(out, model.as_slice())
}
