//! Texts of each grammar, with what is told of them.

use mal_account::Account;
use mal_base::LineFault;
use mal_claim::{Denial, verdict_line};
use mal_dimacs::DimacsFault;
use mal_script::line_fault_line;
use std::alloc::Global;

/// What a text is read as.
#[derive(Clone, Copy)]
pub enum Grammar {
    Formula,
    Script,
    History,
    Account,
    Claim,
}

/// What is told of a text: what was read, written again, or the line that tells its first fault. Of a claim it is the
/// line that tells the verdict on its proof, empty where it is verified. None where memory runs out.
fn told(alloc: Global, grammar: Grammar, text: &[u8]) -> Option<Vec<u8>> {
    match grammar {
        Grammar::Formula => formula(alloc, text),
        Grammar::Script => script(alloc, text),
        Grammar::History => history(alloc, text),
        Grammar::Account => account(alloc, text),
        Grammar::Claim => claim(alloc, text),
    }
}

fn formula(alloc: Global, text: &[u8]) -> Option<Vec<u8>> {
    match mal_dimacs::read(alloc, text) {
        Ok(formula) => mal_dimacs::write(alloc, &formula).ok(),
        Err(DimacsFault::Fault { line, fault }) => {
            line_fault_line(alloc, b"formula", line, LineFault::Dimacs { fault }).ok()
        }
        Err(DimacsFault::OutOfMemory) => None,
    }
}

fn script(alloc: Global, text: &[u8]) -> Option<Vec<u8>> {
    match mal_script::read(alloc, text) {
        Ok(script) => mal_script::write(alloc, &script).ok(),
        Err(fault) => mal_script::fault_line(alloc, fault).ok()?,
    }
}

fn history(alloc: Global, text: &[u8]) -> Option<Vec<u8>> {
    match mal_history::read(alloc, text) {
        Ok(history) => mal_history::write(alloc, &history).ok(),
        Err(_) => None,
    }
}

/// The script and the history of an account are written one after another.
fn account(alloc: Global, text: &[u8]) -> Option<Vec<u8>> {
    match mal_account::read(alloc, text) {
        Ok(account) => both(alloc, &account),
        Err(fault) => mal_account::fault_line(alloc, fault).ok()?,
    }
}

fn both(alloc: Global, account: &Account) -> Option<Vec<u8>> {
    let mut text = mal_script::write(alloc, &account.script).ok()?;
    let history = mal_history::write(alloc, &account.history).ok()?;
    text.extend_from_slice(history.as_slice()).ok()?;
    Some(text)
}

fn claim(alloc: Global, text: &[u8]) -> Option<Vec<u8>> {
    match mal_claim::check(alloc, text) {
        Ok(()) => Some(Vec::new(alloc)),
        Err(Denial::NoClaim { fault }) => mal_claim::fault_line(alloc, fault).ok()?,
        Err(Denial::NotVerified { fault }) => verdict_line(alloc, fault).ok()?,
    }
}

/// Texts, with what is told of them.
const TOLD: [(Grammar, &[u8], &[u8]); 37] = [
    // Layouts of tools, and the greatest variables.
    (
        Grammar::Formula,
        b"c made by a tool\r\n\np\tcnf 03 2\r\n3\r\n-1\n\n2 00 -3\ncomment\n0\r\n%\n0\n\n",
        b"p cnf 3 2\n-1 2 3 0\n-3 0\n",
    ),
    (
        Grammar::Formula,
        b"p cnf 65536 3\n65536 -65536 0 0 -7 65535 0",
        b"p cnf 65536 3\n1 -1 0\n0\n-7 65535 0\n",
    ),
    // Limits, headers, numbers, and what is wrong at the end.
    (
        Grammar::Formula,
        b"p cnf 99999999999999999999999 0\n",
        b"fault: formula line 1 Limit Variables\n",
    ),
    (
        Grammar::Formula,
        b"p cnf 1 1 1\n",
        b"fault: formula line 1 BadHeader\n",
    ),
    (
        Grammar::Formula,
        b"p cnf 2 2\n1 +1 0\n3 0\n",
        b"fault: formula line 2 BadNumber\n",
    ),
    (
        Grammar::Formula,
        b"p cnf 2 2\n1 0\nc\n3 x 0\n",
        b"fault: formula line 4 VarTooLarge\n",
    ),
    (
        Grammar::Formula,
        b"p cnf 1 0\n0 0 0",
        b"fault: formula line 2 ClauseCount 0 3\n",
    ),
    (
        Grammar::Formula,
        b"p cnf 1 1\n1 0\n%\n0\nc\n0\n",
        b"fault: formula line 6 Trailing\n",
    ),
    // Every field of a job, what tools write, and jobs of several tenants with several revisions and assumptions.
    (
        Grammar::Script,
        b"t a\nj p_1 1000 64 4096\np cnf 3 3\n1 -3 0\n-2 0\n0\na 0\ne\n",
        b"t a\nj p_1 1000 64 4096\np cnf 3 3\n1 -3 0\n-2 0\n0\na 0\ne\n",
    ),
    (
        Grammar::Script,
        b"c made by a tool\r\nt a\r\nj p 1 1 04\r\np cnf 2 2\r\n1\r\n2 0 -1\r\n\r\n-1 0\r\n%\r\n0\r\na 00\r\ne",
        b"t a\nj p 1 1 4\np cnf 2 2\n1 2 0\n-1 0\na 0\ne\n",
    ),
    (
        Grammar::Script,
        b"t a\nt b\nt a\nj p 1 1 4\np cnf 2 1\n1 2 0\na 2 -1 2 0\np cnf 1 0\na 1 0\ne\nt b\nj p 2 2 2\ne\n",
        b"t a\nj p 1 1 4\np cnf 2 1\n1 2 0\na -1 2 0\np cnf 1 0\na 1 0\ne\nt b\nj p 2 2 2\ne\n",
    ),
    (
        Grammar::Script,
        b"t a\nj p 1 1 4\ne\nj q 1 1 4\ne\n",
        b"t a\nj p 1 1 4\ne\nt a\nj q 1 1 4\ne\n",
    ),
    // What stands between jobs, blocks, limits, a name that stands twice, and a variable that is assumed with both signs.
    (Grammar::Script, b"t A\n", b"fault: script line 1 BadLine\n"),
    (
        Grammar::Script,
        b"t a\nj p 1 1 4\n\nc x",
        b"fault: script line 4 BadLine\n",
    ),
    (
        Grammar::Script,
        b"t a\nj p 1 1 4\np cnf 2 1\nq 2\na 0\ne\n",
        b"fault: script line 4 BadNumber\n",
    ),
    (
        Grammar::Script,
        b"t a\nj p 1 1 4\np cnf 65537 0\na 0\ne\n",
        b"fault: script line 3 Limit Variables\n",
    ),
    (
        Grammar::Script,
        b"t a\nj p 1 1 4\np cnf 65536 1048577\na 0\ne\n",
        b"fault: script line 3 Limit Clauses\n",
    ),
    (
        Grammar::Script,
        b"t a\nj p 1 1 4\ne\nj p 1 1 4\ne\n",
        b"fault: script line 4 Duplicate a p\n",
    ),
    (
        Grammar::Script,
        b"t a\nj p 1 1 4\np cnf 2 0\na 1 -1 0\ne\n",
        b"fault: script line 4 Opposite 1\n",
    ),
    // Events of each kind, and balancings of several jobs.
    (
        Grammar::History,
        b"h mal 1 2\n\no a p 1 1 4\r\nr a p 01\nc a p\nb a p 2\ns  a p 0 2\nf a p 0 2 lost\nx a p",
        b"h mal 1 2\no a p 1 1 4\nr a p 1\nc a p\nb a p 2\ns a p 0 2\nf a p 0 2 lost\nx a p\n",
    ),
    (
        Grammar::History,
        b"h mal 1 2\nb a p 1 a q 1 b p 0 b q 0\nb a q 1 b p 1 b q 0\nc a p\nb b p 1 c p 1 b q 0\nb\nb b p 1\n",
        b"h mal 1 2\nb a p 1 a q 1 b p 0 b q 0\nb a q 1 b p 1 b q 0\nc a p\nb b p 1 c p 1 b q 0\nb\nb b p 1\n",
    ),
    // A script and a history after it, and what is wrong with one of them.
    (
        Grammar::Account,
        b"c\nt a\nj p 1 1 4\ne\n history\t\r\nh mal 1 2\n\nc a p",
        b"t a\nj p 1 1 4\ne\nh mal 1 2\nc a p\n",
    ),
    (
        Grammar::Account,
        b"x\nhistory of a run\n",
        b"fault: no history\n",
    ),
    (
        Grammar::Account,
        b"t a\nj p 1 1 4\nhistory\nh mal 1 1\n",
        b"fault: script line 2 BadLine\n",
    ),
    (
        Grammar::Account,
        b"\nhistory\nh mal 1 1\nf a p 0 1 done\n",
        b"fault: history line 2 BadLine\n",
    ),
    // What is wrong with a formula and its assumptions, with the lines of a proof, and with what they derive.
    (
        Grammar::Claim,
        b"p cnf 1 1\n2 0\nproof",
        b"fault: formula line 2 VarTooLarge\n",
    ),
    (
        Grammar::Claim,
        b"p cnf 70000 1\nproof",
        b"fault: formula line 1 Limit Variables\n",
    ),
    (
        Grammar::Claim,
        b"p cnf 1 1\n1 0\na 1 -1 0\nproof",
        b"fault: formula line 3 Opposite 1\n",
    ),
    (
        Grammar::Claim,
        b"p cnf 0 1\n0\nproof\n1 0 1 0",
        b"fault: proof line 1 IdNotRising 1 1\n",
    ),
    (Grammar::Claim, b"p cnf 0 1\n0\nproof\n2 0 1 0", b""),
    (
        Grammar::Claim,
        b"p cnf 2 1\n1 2 0\nproof\n2 0 1 0",
        b"fault: proof line 1 HintNotUnit 1\n",
    ),
    (
        Grammar::Claim,
        b"p cnf 0 1\n0\nproof\n",
        b"fault: proof goal\n",
    ),
    // A claim with every part, the lines of a reply, a clause that is held no more, an id that stands twice, and a line
    // that is faulty after one that is refused.
    (
        Grammar::Claim,
        b"c\np cnf 3 2\n1 -2\n0 3 -3 0\n\na 2 -1 2 0\nc\n proof\t\nl 4 -2 1 0 1 0\n\n4 d 1 0",
        b"",
    ),
    (
        Grammar::Claim,
        b"p cnf 2 4\n1 2 0\n1 -2 0\n-1 2 0\n-1 -2 0\nproof\nl 5 1 0 1 2 0\n\nc comment\nl 6 0 5 3 4 0",
        b"",
    ),
    (
        Grammar::Claim,
        b"p cnf 2 2\n1 2 0\n1 -2 0\nproof\n5 1 0 1 2 0\n\n5 d 1 0\n999999999999 1 0 1 2 0\n",
        b"fault: proof line 4 UnknownHint 1\n",
    ),
    (
        Grammar::Claim,
        b"p cnf 2 2\n1 2 0\n1 -2 0\nproof\n5 1 0 1 2 0\n5 0 0",
        b"fault: proof line 2 IdNotRising 5 5\n",
    ),
    (
        Grammar::Claim,
        b"p cnf 2 1\n1 2 0\nproof\n2 0 1 0\n\n3 0\n",
        b"fault: proof line 3 MissingZero\n",
    ),
];

/// Whether this is told of a text.
pub fn is_told(alloc: Global, grammar: Grammar, text: &[u8], known: &[u8]) -> bool {
    match told(alloc, grammar, text) {
        None => false,
        Some(told) => told.as_slice() == known,
    }
}

#[test]
fn texts_are_told(rt: HostRuntime) {
    for (grammar, text, known) in &TOLD {
        assert!(rt;
            is_told(rt.alloc(), *grammar, text, known),
            "of {:?}",
            str::from_utf8(text)
        );
    }
}
