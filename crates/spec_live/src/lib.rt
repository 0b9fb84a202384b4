//! A live service: what was posted in a history, which replies were told and in which order, and the texts of both.
//! Definitions, and the laws about them as the contracts of functions without a body.
#![tactic(auto)]

ghost use Rattle.spec_live.specs.{Examples.{HasExamples}, Laws.{CallLosesNone, CallMovesNone, CallPostsBy, LegalIsEvident, ToldStays, TurnsAreLegal, TurnsPostNothing, UnknownHasNoRevision}};

/// Replies that could be told can be told in each history that goes on legally where no job moves, with the same text.
pub fn told_stays()
    ensures { ToldStays }
{}

/// Turns post nothing, move no job and lose no lease, and leave a legal history legal.
pub fn turns_post_nothing()
    ensures unposted { TurnsPostNothing }
    ensures legal { TurnsAreLegal }
{}

/// What is posted by the events that a call of a hall enters is what the call posts: one post where it is taken, and else
/// none. A call by which no job goes to another hall moves no job. None but a recall, and the giving back of a lease that
/// was lost, loses one.
pub fn call_posts_by()
    ensures posts { CallPostsBy }
    ensures moves { CallMovesNone }
    ensures losses { CallLosesNone }
{}

/// In a legal history in which no job moves, a key under which no job was opened has no revision and no reply.
pub fn unknown_has_no_revision()
    ensures { UnknownHasNoRevision }
{}

/// In a legal history the answers of each job are evidence.
pub fn legal_is_evident()
    ensures { LegalIsEvident }
{}

/// The worked examples of posts, of the text of a live history and of what was told compute to the values that are known.
pub fn live_examples()
    ensures { HasExamples }
{}
