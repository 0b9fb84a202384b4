//! What the marks come to for the clauses that they are of.

ghost use Rattle.mal_marks.specs.Laws.{InsertFollows, ForgetFollows, ResolveFollows, CountsClauses, ChoosesReduced, FreeIsUnmarked};

/// Where marks are those of the derived clauses held, they stay so with one more of each, without those of some numbers, and
/// after a conflict; and what becomes of them is what a guide notes.
pub fn marks_follow()
    ensures insert { InsertFollows }
    ensures forget { ForgetFollows }
    ensures resolve { ResolveFollows }
{}

/// Where marks are those of the derived clauses held, a number that is free has none, as many count as of the clauses, and
/// what is chosen of them is what a reduction gives up.
pub fn marks_tell()
    ensures free { FreeIsUnmarked }
    ensures counted { CountsClauses }
    ensures chosen { ChoosesReduced }
{}
