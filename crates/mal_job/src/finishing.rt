//! How a start ends that came back, and when the nodes of a job are given up.

ghost use Rattle.std.specs.Prelude.{◌≡◌, ◌+◌, ◌<◌, ◌≤◌, ◌^◌, true, ◌∷◌, [], ◌++◌, length, is_some};
ghost use Rattle.spec_job.specs.{Journaled.{and_entries}, SoloMachine.{first_empty}};
ghost use Rattle.mal_suspend.specs.Kept.{journal_of};
ghost use Rattle.mal_job.specs.{Asking.{IsAsked, concluded_by, ends_by, starved_by, settled_with}, Placing.{HasJournal, IsTree, placed, with_placed, ran_home, came_home, one_more_ran, revision_of, adds_of}, Viewed.{MayAppend}};

use crate::derivation::Derivation;
use crate::questions::Questions;
use crate::tree::Tree;
use mal_base::{Answer, Lines};
use mal_suspend::Kept;

/// Ends a start that ran: the node comes home with its journal, the lines of its slice enter the log, and unless the
/// revision of the start has its answer, the slice answers it or counts as spent. Takes no memory.
pub fn finish_run(
    questions: &mut Questions,
    tree: &mut Tree,
    log: &mut Derivation,
    index: u32,
    kept: Kept,
    lines: Lines,
    answer: Option<Answer>,
)
    requires out { is_some (placed tree.old index).out ≡ true }
    requires back { journal_of kept
        ≡ and_entries (placed tree.old index).journal (adds_of (placed tree.old index).out) }
    requires few { tree.old.ran < 2 ^ 31 }
    requires live { length questions.old.answers ≤ revision_of (placed tree.old index).out
        → length questions.old.answers < length questions.old.revisions }
    requires log { MayAppend log.old lines.lines }
    ensures tree { tree.new ≡ one_more_ran (with_placed tree.old index (ran_home (placed tree.old index))) }
    ensures questions { questions.new
        ≡ settled_with (first_empty log.new.lines)
        (concluded_by (revision_of (placed tree.old index).out) answer questions.old) }
    ensures log { log.new.lines ≡ log.old.lines ++ lines.lines }
    ensures slices { log.new.slices
        ≡ log.old.slices
        ++ record {
          lines = lines.lines;
          ends = ends_by (revision_of (placed tree.old index).out) answer questions.old;
        }
        ∷ [] }
    ensures less { log.new.chunk_room + 1 ≡ log.old.chunk_room }
    ensures asked { IsAsked questions.new }
    ensures kept { IsTree tree.new }
{
    let revision = tree.come_back(index, kept);
    let late = revision < questions.answers().len();
    log.append(lines, !late && answer.is_some());
    if !late {
        questions.conclude(answer);
    }
    questions.settle(log.empty());
    give_up(questions, tree);
}

/// Ends a start that ran out of memory: the node comes home as it was, or is gone where nothing is kept of it, and
/// unless the revision of the start has its answer, the start is counted. Takes no memory.
pub fn finish_starved(
    questions: &mut Questions,
    tree: &mut Tree,
    log: &Derivation,
    index: u32,
    kept: Option<Kept>,
)
    requires out { is_some (placed tree.old index).out ≡ true }
    requires own { HasJournal kept (placed tree.old index).journal }
    requires live { length questions.old.answers ≤ revision_of (placed tree.old index).out
        → length questions.old.answers < length questions.old.revisions }
    ensures tree { tree.new ≡ with_placed tree.old index (came_home (placed tree.old index)) }
    ensures questions { questions.new
        ≡ settled_with (first_empty log.now.lines)
        (starved_by (revision_of (placed tree.old index).out) questions.old) }
    ensures asked { IsAsked questions.new }
    ensures kept { IsTree tree.new }
{
    let revision = bring_home(tree, index, kept);
    count_starved(questions, tree, log, revision);
}

/// The node of this index comes home as it was, or is gone where nothing is kept of it. Gives the revision that its
/// start was for, counted from 0. Takes no memory.
fn bring_home(tree: &mut Tree, index: u32, kept: Option<Kept>) -> usize
    requires out { is_some (placed tree.old index).out ≡ true }
    requires own { HasJournal kept (placed tree.old index).journal }
    ensures value { tree.new ≡ with_placed tree.old index (came_home (placed tree.old index)) }
    ensures revision { result ≡ revision_of (placed tree.old index).out }
    ensures kept { IsTree tree.new }
{
    match kept {
        None => {
            let revision = tree.revision(index);
            tree.lose(index);
            revision
        }
        Some(kept) => tree.come_home(index, kept),
    }
}

/// Counts a start for this revision that ran out of memory, unless the revision has its answer. Takes no memory.
fn count_starved(questions: &mut Questions, tree: &mut Tree, log: &Derivation, revision: usize)
    requires { length questions.old.answers ≤ revision
        → length questions.old.answers < length questions.old.revisions }
    ensures tree { tree.new ≡ tree.old }
    ensures questions { questions.new
        ≡ settled_with (first_empty log.now.lines) (starved_by revision questions.old) }
    ensures asked { IsAsked questions.new }
{
    if questions.answers().len() <= revision {
        questions.starve();
    }
    questions.settle(log.empty());
    give_up(questions, tree);
}

/// Ends a start that is lost: the node is gone. Takes no memory.
pub fn finish_lost(questions: &mut Questions, tree: &mut Tree, log: &Derivation, index: u32)
    requires out { is_some (placed tree.old index).out ≡ true }
    ensures tree { tree.new ≡ with_placed tree.old index (came_home (placed tree.old index)) }
    ensures questions { questions.new ≡ settled_with (first_empty log.now.lines) questions.old }
    ensures asked { IsAsked questions.new }
    ensures kept { IsTree tree.new }
{
    tree.lose(index);
    questions.settle(log.empty());
    give_up(questions, tree);
}

/// Gives the nodes of a tree up, where its job is closed and each revision has its answer, so that none of them starts
/// again. Takes no memory.
pub fn give_up(questions: &Questions, tree: &mut Tree)
    ensures { tree.new ≡ tree.old }
{
    if !questions.is_closed() || questions.answers().len() < questions.revisions().len() {
        return;
    }
    tree.give_up();
}
