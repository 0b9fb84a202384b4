//! Replaying a history.

ghost use Rattle.std.specs.Prelude.{◌≡◌, ◌∷◌, [], codes, IfOk, IfErr, MatchOption};
ghost use Rattle.mal_account.specs.ReadResult.{seen};
ghost use Rattle.mal_cli.specs.Accounts.{IsReplayText, IsUnsound, TellsFault, TellsReplay};
ghost use Rattle.mal_answer.specs.{Answers.{IsAnswerTo, logged}, Commands.{AreReplies, replaying}};
ghost use Rattle.mal_account.specs.FaultLines.{history_line};
ghost use Rattle.mal_base.specs.declared.replay_fault.ReplayFault.TheVariants.{OutOfMemory};
ghost use Rattle.spec_text.specs.Lines.{line_of};

use itoa::Buffer;
use mal_account::{Account, AccountFault, fault_line, read};
use mal_answer::{Complaint, Texts};
use mal_replay::{ReplayFault, replay};
use mal_text::put_line;
use std::alloc::{AllocError, Global};
use std::thread::Threads;

/// Replays the history of the account that a text spells: nothing for the log, and the replies for the output.
#[tactic(auto, using(crate::proofs::Replays::replay_lemmas))]
pub fn replay_text<R: Threads + Sync>(
    rt: &R,
    alloc: Global,
    text: Vec<u8>,
) -> Result<Texts, Complaint>
    ensures { IsAnswerTo replaying text.items result }
{
    match read(alloc, text.as_slice()) {
        Ok(account) => {
            drop(text);
            judge(rt, alloc, &account)
        }
        Err(fault) => Err(no_account(alloc, fault)),
    }
}

/// Replays the history of an account.
#[tactic(auto, using(crate::proofs::Replays::judge_lemmas))]
fn judge<R: Threads + Sync>(rt: &R, alloc: Global, account: &Account) -> Result<Texts, Complaint>
    ensures replies { IfOk result (λ t. AreReplies (seen account.now) t.out.items) }
    ensures silent { IfOk result (λ t. logged t.log.items ≡ []) }
    ensures denied { IfErr result (λ e. IsUnsound (seen account.now) e) }
{
    match replay(rt, alloc, &account.script, &account.history) {
        Ok(out) => Ok(Texts {
            log: Vec::new(alloc),
            out,
        }),
        Err(fault) => Err(no_replay(alloc, fault)),
    }
}

/// The complaint about a text whose first fault this is.
fn no_account(alloc: Global, fault: AccountFault) -> Complaint
    ensures { TellsFault fault result }
{
    match fault_line(alloc, fault) {
        Ok(Some(line)) => Complaint::Refused(line),
        _ => Complaint::OutOfMemory,
    }
}

/// The complaint about an account whose history is not replayed for this cause.
fn no_replay(alloc: Global, fault: ReplayFault) -> Complaint
    ensures { TellsReplay fault result }
{
    match replay_line(alloc, fault) {
        Ok(Some(line)) => Complaint::Denied(line),
        _ => Complaint::OutOfMemory,
    }
}

/// The line that tells why a history is not replayed; none when out of memory.
fn replay_line(alloc: Global, fault: ReplayFault) -> Result<Option<Vec<u8>>, AllocError>
    ensures { IfOk result (λ o. MatchOption o (fault ≡ OutOfMemory) (λ text. IsReplayText fault text.items)) }
{
    match fault {
        ReplayFault::NotLegal { line } => Ok(Some(not_legal(alloc, line)?)),
        ReplayFault::NotComplete => Ok(Some(not_complete(alloc)?)),
        ReplayFault::OutOfMemory => Ok(None),
    }
}

/// The line that tells that the event on this line is not allowed.
fn not_legal(alloc: Global, line: u64) -> Result<Vec<u8>, AllocError>
    ensures { IfOk result (λ text. text.items ≡ history_line line (codes "NotLegal")) }
{
    let mut text = Vec::new(alloc);
    text.extend_from_slice(b"fault: history line ")?;
    put_line(
        &mut text,
        Buffer::new().format(line).as_bytes(),
        &[b"NotLegal"],
    )?;
    Ok(text)
}

/// The line that tells that the history is not complete.
fn not_complete(alloc: Global) -> Result<Vec<u8>, AllocError>
    ensures { IfOk result (λ text. text.items ≡ line_of (codes "fault:" ∷ codes "history" ∷ codes "NotComplete" ∷ [])) }
{
    Vec::from_slice(alloc, b"fault: history NotComplete\n")
}
