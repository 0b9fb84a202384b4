//! Laws of a worker's loop.

ghost use Rattle.mal_pool.specs.LoopLaws.{LoopsAreBounded, LoopsEndSo};

/// What each end of a worker's loop says of its calls, and that no loop picks more often than it has turns.
pub fn loops_end_so()
    ensures so { LoopsEndSo }
    ensures bounded { LoopsAreBounded }
{}
