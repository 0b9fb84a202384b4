//! Writing that an answer is unknown.

ghost use Rattle.std.specs.Prelude.{◌≡◌, ◌++◌, OnOk};
ghost use Rattle.mal_inquiry.specs.Causes.{cause_of};
ghost use Rattle.spec_course.specs.Course.{unknown};
ghost use Rattle.spec_report.specs.Replies.{told_rows};
ghost use Rattle.spec_text.specs.Lines.{text_of};

use mal_report::{Cause, put_cause};
use mal_text::put_line;
use std::alloc::AllocError;

/// Writes that what is asked for is unknown, and the cause, as a reply tells it.
pub fn put_unknown(out: &mut Vec<u8>, cause: Cause) -> Result<(), AllocError>
    ensures { OnOk result (out.new.items ≡ out.old.items ++ text_of (told_rows (unknown (cause_of cause)))) }
{
    put_line(out, b"s", &[b"UNKNOWN"])?;
    put_cause(out, cause)
}
