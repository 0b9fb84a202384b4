//! The program over devices in memory.

use mal_cli::top;
use mal_io::{MemSink, MemSource};
use mal_pool::Gate;
use std::alloc::Global;
use std::sync::Wait;
use std::thread::Threads;

/// What came of a run: its status, the bytes of its output, and those of its log.
#[derive(Drop)]
pub struct RunTexts {
    pub status: u8,
    pub out: Vec<u8>,
    pub log: Vec<u8>,
}

/// Room for what a sink gets.
const ROOM: usize = 1 << 20;

/// Puts words into a list, as the program gets them.
fn put_words(alloc: Global, words: &mut Vec<String>, parts: &[&str]) -> Option<()> {
    for part in parts {
        words.push(String::from_str(alloc, part).ok()?).ok()?;
    }
    Some(())
}

/// These words as the program gets them.
pub fn words(alloc: Global, parts: &[&str]) -> Option<Vec<String>> {
    let mut words = Vec::new(alloc);
    if put_words(alloc, &mut words, parts).is_some() {
        return Some(words);
    }
    drop(words);
    None
}

/// Runs the script of a text with as many workers as this word says.
pub fn run<R: Threads + Wait + Sync, G: Gate>(
    rt: &R,
    alloc: Global,
    workers: &str,
    text: &[u8],
    gate: &G,
) -> Option<RunTexts> {
    let words = words(alloc, &["mal", "run", "--workers", workers])?;
    let ran = run_words(rt, alloc, words.as_slice(), text, gate);
    drop(words);
    ran
}

/// Runs the program with these words on a text.
fn run_words<R: Threads + Wait + Sync, G: Gate>(
    rt: &R,
    alloc: Global,
    words: &[String],
    text: &[u8],
    gate: &G,
) -> Option<RunTexts> {
    let mut out = MemSink::new(alloc, ROOM, 4_096, &[]).ok()?;
    let ran = run_into(rt, alloc, words, text, &mut out, gate);
    drop(out);
    ran
}

/// The same, with this output.
fn run_into<R: Threads + Wait + Sync, G: Gate>(
    rt: &R,
    alloc: Global,
    words: &[String],
    text: &[u8],
    out: &mut MemSink,
    gate: &G,
) -> Option<RunTexts> {
    let mut source = MemSource::new(text, 4_096, &[]);
    let mut log = MemSink::new(alloc, ROOM, 4_096, &[]).ok()?;
    let status = top(rt, alloc, words, &mut source, out, &mut log, gate);
    let ran = texts(alloc, status, out.bytes(), log.bytes());
    drop(log);
    ran
}

/// What came of a run that wrote these bytes.
fn texts(alloc: Global, status: u8, out: &[u8], log: &[u8]) -> Option<RunTexts> {
    let out = Vec::from_slice(alloc, out).ok()?;
    match Vec::from_slice(alloc, log) {
        Ok(log) => Some(RunTexts { status, out, log }),
        Err(_) => {
            drop(out);
            None
        }
    }
}
