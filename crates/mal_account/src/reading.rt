//! Reading accounts.

ghost use Rattle.std.specs.Prelude.{◌≡◌, ℕ, List, ◌++◌, false, None, codes, IfOk, MatchResult};
ghost use Rattle.spec_dimacs.specs.Rows.{rows_of};
ghost use Rattle.mal_base.specs.Limits.{limits};
ghost use Rattle.spec_script.specs.{Formed.{IsScript}, Script.{Scripted, spelling}};
ghost use Rattle.spec_script.specs.Reading as script;
ghost use Rattle.mal_history.specs.{declared.event.Event.{Event}, Formed.{IsHistory}, Text.{history_text}};
ghost use Rattle.mal_history.specs.ReadResult as history_given;
ghost use Rattle.mal_history.specs.Reading as history;
ghost use Rattle.mal_account.specs.Accounts as spelled;
ghost use Rattle.mal_account.specs.{Accounts.{in_history, in_script, read_text}, Grammar.{Spells}};
ghost use Rattle.mal_account.specs.ReadResult.{Gives, IsCut, fault_of, seen};

use crate::account::Account;
use crate::fault::AccountFault;
use mal_history::{History, HistoryFault};
use mal_script::{Script, ScriptFault};
use mal_text::{first_line, is_word_line};
use std::alloc::Global;

/// The account that a text spells: the lines before the first line of the one word `history` are a script, those after
/// it a history.
///
/// Errors: `NoHistory` where no line is that word; else the first fault of the script, and then that of the history,
/// with its line. `OutOfMemory` may come at any time.
pub fn read(alloc: Global, text: &[u8]) -> Result<Account, AccountFault>
    // Which account or which fault it is.
    ensures exact { Gives seen result (read_text text.now) }
    // What is read is spelled so.
    ensures found { IfOk result (λ a. Spells text.now (seen a)) }
    // What is spelled so is read, unless memory runs out.
    ensures only { (a : spelled.Account) → Spells text.now a
        → MatchResult result (λ x. seen x ≡ a) (λ e. fault_of e ≡ None) }
    // The texts of a script and of a history in form, with the line `history` between them, are read as these.
    ensures again { (s : Scripted) (workers : ℕ) (events : List Event) → IsScript limits s → IsHistory workers events
        → text.now ≡ spelling s ++ (codes "history\n" ++ history_text workers events)
        → MatchResult result (λ a. (a.script ≡ s) × (a.history.workers ≡ workers) × (a.history.events ≡ events))
        (λ e. fault_of e ≡ None) }
{
    first(alloc, text)
}

/// The account of a text, or its first fault.
fn first(alloc: Global, text: &[u8]) -> Result<Account, AccountFault>
    ensures { Gives seen result (read_text text.now) }
{
    let Some((script, history)) = cut(text) else {
        return Err(AccountFault::NoHistory);
    };
    let script = read_script(alloc, script)?;
    let history = read_history(alloc, history)?;
    Ok(Account { script, history })
}

/// The text before the first line of the one word `history`, and the text after it. None where no line is that word.
fn cut(text: &[u8]) -> Option<(&[u8], &[u8])>
    ensures { IsCut result (rows_of text.now) }
{
    let mut rest = text;
    let mut start = 0;
    while let Some((row, after)) = first_line(rest) {
        if is_word_line(row, b"history") {
            return Some((&text[..start], after));
        }
        start += row.len() + 1;
        rest = after;
    }
    None
}

/// The script of the text before the line `history`.
#[tactic(auto, using(crate::proofs::Parts::fault_lemmas))]
fn read_script(alloc: Global, text: &[u8]) -> Result<Script, AccountFault>
    ensures { Gives (λ s. s) result (in_script (script.read_text limits text.now)) }
{
    match mal_script::read(alloc, text) {
        Ok(script) => Ok(script),
        Err(ScriptFault::OutOfMemory) => Err(AccountFault::OutOfMemory),
        Err(fault) => Err(AccountFault::Script { fault }),
    }
}

/// The history of the text after the line `history`.
#[tactic(auto, using(crate::proofs::Parts::fault_lemmas))]
fn read_history(alloc: Global, text: &[u8]) -> Result<History, AccountFault>
    ensures { Gives (λ h. history_given.seen h) result (in_history (history.read_text text.now)) }
{
    match mal_history::read(alloc, text) {
        Ok(history) => Ok(history),
        Err(HistoryFault::OutOfMemory) => Err(AccountFault::OutOfMemory),
        Err(fault) => Err(AccountFault::History { fault }),
    }
}
