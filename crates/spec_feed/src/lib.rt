//! Feeds: lines as those of a script, in which several jobs may be open side by side, and what each line posts. What a text
//! spells, and which fault of a text is the first one. Definitions, and the laws about them as the contracts of functions
//! that do nothing.
#![tactic(auto)]

mod fault;
mod post;

ghost use Rattle.spec_feed.specs.{Examples.{FaultExamples, FaultLineExamples, ReadingExamples}, Laws.{FaultIsFirst, LinesPostOne, PostsAreOrderly, ScriptIsFeed, SpelledIsRead}};

pub use fault::FeedFault;
pub use post::FeedPost;
use spec_script::words_are_read;

/// What small texts post.
#[tactic(auto, using(crate::proofs::ExampleLemmas::reading_examples))]
pub fn reading_examples()
    ensures { ReadingExamples }
{}

/// What is wrong with small texts, and where.
#[tactic(auto, using(crate::proofs::ExampleLemmas::fault_examples))]
pub fn fault_examples()
    ensures { FaultExamples }
{}

/// The lines that tell faults.
#[tactic(auto, using(crate::proofs::ExampleLemmas::fault_line_examples))]
pub fn fault_line_examples()
    ensures { FaultLineExamples }
{}

/// A text spells posts exactly where reading gives them. So no text spells two lists of posts, and none that has a first
/// fault spells one.
pub fn spelled_is_read()
    ensures { SpelledIsRead }
{
    // For the proof: it rests on what the words of a script say.
    words_are_read();
}

/// Where the first fault of a text is on a line before the last, each text that begins with the same lines, up to this
/// one, has the same first fault.
#[tactic(auto, using(crate::proofs::Firsts::fault_is_first))]
pub fn fault_is_first()
    ensures { FaultIsFirst }
{}

/// Each line that is read posts one thing or nothing.
#[tactic(auto, using(crate::proofs::PostOne::lines_post_one))]
pub fn lines_post_one()
    ensures { LinesPostOne }
{}

/// A text that spells a script, each line of which has at most 2^26 bytes, is read as a feed: it posts the jobs of the
/// script one after another, of each its opening, its steps and its closing.
pub fn script_is_feed()
    ensures { ScriptIsFeed }
{
    // For the proof: it rests on what the words of a script say.
    words_are_read();
}

/// Of each job of which a text posts something, the opening comes first and the closing last, each once, and all between
/// them is its steps.
pub fn posts_are_orderly()
    ensures { PostsAreOrderly }
{}
