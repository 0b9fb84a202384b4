//! Laws about accounts and their texts, as the contracts of functions without a body.

ghost use Rattle.mal_account.specs.{Examples.{HasExamples}, Laws.{HistoryFaultIsFirst, ScriptFaultIsFirst, ScriptFaultStays, SpelledIsRead, WrittenIsRead}};

/// What is said of small texts.
#[tactic(auto, using(crate::proofs::AccountExampleLemmas::examples))]
pub fn account_examples()
    ensures { HasExamples }
{}

/// A text spells an account exactly where reading gives the account. So no text spells two, and none that has a first
/// fault spells one.
pub fn spelled_is_read()
    ensures { SpelledIsRead }
{}

/// A script in form and a history in form are read again from their texts with the line `history` between them.
pub fn written_is_read()
    ensures { WrittenIsRead }
{}

/// Nothing after a faulty line counts, whether it is of the script or of the history.
pub fn nothing_behind_counts()
    ensures stays { ScriptFaultStays }
    ensures first { ScriptFaultIsFirst }
    ensures history { HistoryFaultIsFirst }
{
    mal_history::fault_is_first();
}
