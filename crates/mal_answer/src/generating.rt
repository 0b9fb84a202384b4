//! The text of a generated script.

ghost use Rattle.std.specs.Prelude.{◌≡◌, ◌<◌, ◌≤◌, ◌^◌, List, ℕ, IfOk};
ghost use Rattle.mal_answer.specs.{Answers.{IsAnswerTo}, Commands.{generating}};
ghost use Rattle.spec_script.specs.Generated.{generated};
ghost use Rattle.spec_script.specs.Script.{spelling};

use crate::answer::{Complaint, Texts};
use mal_script::{generate, write};
use std::alloc::{AllocError, Global};

/// Makes the text of the script of a seed with so many jobs. It has no input: what it is given stays unread.
pub fn generate_text(alloc: Global, seed: u32, jobs: u32) -> Result<Texts, Complaint>
    requires seed { seed < 2 ^ 31 }
    requires some { 1 ≤ jobs }
    requires bound { jobs ≤ 256 }
    ensures { (text : List ℕ) → IsAnswerTo (generating seed jobs) text result }
{
    match script_text(alloc, seed, jobs) {
        Ok(out) => Ok(Texts {
            log: Vec::new(alloc),
            out,
        }),
        Err(_) => Err(Complaint::OutOfMemory),
    }
}

/// The text of the script of a seed with so many jobs.
fn script_text(alloc: Global, seed: u32, jobs: u32) -> Result<Vec<u8>, AllocError>
    requires seed { seed < 2 ^ 31 }
    requires some { 1 ≤ jobs }
    requires bound { jobs ≤ 256 }
    ensures { IfOk result (λ v. v.items ≡ spelling (generated seed jobs)) }
{
    let script = generate(alloc, seed, jobs)?;
    write(alloc, &script)
}
