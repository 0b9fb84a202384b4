//! The program from its words and its devices to its exit status.

ghost use Rattle.std.specs.Prelude.{◌≡◌, ◌⊎◌, map, string_bytes};
ghost use Rattle.mal_answer.specs.{Answers.{IsAnswer, IsAnswerTo, StayedCalm}, Commands.{ReadsNothing, command_of}, Devices.{AreSilent, Complained, device}, Requests.{IsRequest, Means, MeansNothing}, Served.{HasDone}, Usage.{usage_line}, declared.words.request.Request.{Request}};
ghost use Rattle.mal_cli.specs.{Live.{IsDoneBy, live_workers}, Stopping.{stops_of}};

use crate::clusters::run_clustered;
use crate::cores::minimize;
use crate::generating::run_generated;
use crate::optima::optimize;
use crate::replaying::replay_text;
use crate::running::run_text;
use crate::serving::serve_feed;
use mal_answer::{
    BAD_WORDS, Complaint, OUT_OF_MEMORY, Request, Texts, check, complain, conclude, describe,
    generate_text, input, request_of, usage_line,
};
use mal_io::{Sink, Source};
use mal_pool::Gate;
use std::alloc::Global;
use std::sync::Wait;
use std::thread::Threads;

/// The program. `words` are its name and its arguments.
///
/// | Words | What is done |
/// |---|---|
/// | `run --workers N` | The script that `source` gives is run with N workers, 1 to 64. The text of the history goes to `log`, the replies go to `out`. |
/// | `check` | The proof of the claim that `source` gives is checked. The line `s VERIFIED` goes to `out`. |
/// | `replay` | The history that `source` gives after its script is replayed. The replies go to `out`. |
/// | `gen --seed S --jobs N` | The script of the seed S with N jobs goes to `out`. |
/// | `json` | The script that the description that `source` gives spells goes to `out`. |
/// | `cluster --halls H --workers N --every K` | The script that `source` gives is run in H halls, 2 to 8, of N workers each, 1 to 64. After each K slices of every hall, 1 to 1,000, its first live job goes on to the next. The texts of the histories go to `log`, hall by hall, the replies to `out`. |
/// | `max --slices N` | The optimum of the formula and the soft literals that `source` gives is looked for, each question with a budget of N slices, 1 to 4,096. It goes to `out`. |
/// | `core --slices N` | A minimal core of the formula and the assumptions that `source` gives is looked for, each question with a budget of N slices, 1 to 4,096. It goes to `out`. |
/// | `serve --workers N` | The feed that `source` gives is served with N workers, 1 to 64, as it comes: each event goes to `log` as it is entered, each reply to `out` as soon as it is there. |
/// | `gen --seed S --jobs N --workers W` | That script is run with W workers. The text of the history goes to `log`, a summary of the replies to `out`. |
///
/// | Status | Comes |
/// |---|---|
/// | 0 | done |
/// | 2 | exactly where the words ask for nothing; the log gains the usage line |
/// | 3 | the input is above 2^26 bytes or not in the command's grammar; the log gains the line that says so, or the first fault and its line |
/// | 4 | only where the source failed, and with any other status it did not; nothing is written |
/// | 5 | only where a sink failed; what was written is a front of the log's text and then of the output's |
/// | 6 | memory ran out; nothing is written |
/// | 7 | the input is in the grammar, and its proof is no refutation, or its history not legal or not complete; the log gains the line that says why |
///
/// Of `serve` the input is not bounded, and what was posted before a fault (3), before the source failed (4), a sink failed
/// (5) or memory ran out (6) is served, as far as that goes: something may be written with each of these.
///
/// With more than one worker, and of `serve`, the call may wait; all else goes by functions that return.
pub fn top<R: Threads + Wait + Sync, S: Source + Send, K: Sink + Send, L: Sink + Send, G: Gate>(
    rt: &R,
    alloc: Global,
    words: &[String],
    source: &mut S,
    out: &mut K,
    log: &mut L,
    gate: &G,
) -> u8
    // What the words ask for is done, and the status says how far.
    ensures done { (r : Request) → Means (map string_bytes words.now) r
        → IsDoneBy (stops_of (G.stops gate.now)) r (device S.left S.faults source.old source.new) (device L.got L.faults log.old log.new)
        (device K.got K.faults out.old out.new) result }
    // Status 2 comes only where the words ask for nothing, and there nothing else comes, unless memory runs out.
    ensures usage { result ≡ 2 → MeansNothing (map string_bytes words.now) }
    ensures refuses { MeansNothing (map string_bytes words.now) → (result ≡ 2) ⊎ (result ≡ 6) }
    ensures usage_line { result ≡ 2
        → Complained (device L.got L.faults log.old log.new) (device K.got K.faults out.old out.new) usage_line }
    // Nothing is written where memory runs out, but by a live service.
    ensures silent { result ≡ 6
        → ((r : Request) → Means (map string_bytes words.now) r → live_workers r ≡ None)
        → AreSilent (device L.got L.faults log.old log.new) (device K.got K.faults out.old out.new) }
    // The source is as before where the words ask for nothing, and where they ask for a script that is made.
    ensures unread { MeansNothing (map string_bytes words.now) → source.new ≡ source.old }
    ensures made_unread { (r : Request) → Means (map string_bytes words.now) r → ReadsNothing r
        → source.new ≡ source.old }
    // A source that failed is told: with any status but 4 its count of faults stays, unless a live service ends with 5 or 6.
    ensures calm { (result ≡ 4 → ⊥) → ((r : Request) → Means (map string_bytes words.now) r → live_workers r ≡ None)
        → S.faults source.new ≡ S.faults source.old }
{
    match request_of(alloc, words) {
        Ok(Some(request)) => perform(rt, alloc, request, source, out, log, gate),
        Ok(None) => {
            complain(log, usage_line());
            BAD_WORDS
        }
        Err(_) => OUT_OF_MEMORY,
    }
}

/// Does what was asked for.
fn perform<R: Threads + Wait + Sync, S: Source + Send, K: Sink + Send, L: Sink + Send, G: Gate>(
    rt: &R,
    alloc: Global,
    request: Request,
    source: &mut S,
    out: &mut K,
    log: &mut L,
    gate: &G,
) -> u8
    requires { IsRequest request }
    ensures done { IsDoneBy (stops_of (G.stops gate.now)) request (device S.left S.faults source.old source.new)
        (device L.got L.faults log.old log.new) (device K.got K.faults out.old out.new) result }
    ensures made_unread { ReadsNothing request → source.new ≡ source.old }
    ensures calm { (result ≡ 4 → ⊥) → live_workers request ≡ None → S.faults source.new ≡ S.faults source.old }
    ensures silent { result ≡ 6 → live_workers request ≡ None
        → AreSilent (device L.got L.faults log.old log.new) (device K.got K.faults out.old out.new) }
    ensures words { result ≡ 2 → ⊥ }
{
    match workers_of(request) {
        Some(workers) => serve_feed(rt, alloc, workers, source, out, log),
        None => answer_with(rt, alloc, request, source, out, log, gate),
    }
}

/// The workers of a live service, where one is asked for.
fn workers_of(request: Request) -> Option<u32>
    ensures { result ≡ live_workers request }
{
    match request {
        Request::Serve { workers } => Some(workers),
        _ => None,
    }
}

/// Writes what a command answers that is no live service.
fn answer_with<R: Threads + Wait + Sync, S: Source, K: Sink, L: Sink, G: Gate>(
    rt: &R,
    alloc: Global,
    request: Request,
    source: &mut S,
    out: &mut K,
    log: &mut L,
    gate: &G,
) -> u8
    requires form { IsRequest request }
    requires other { live_workers request ≡ None }
    ensures done { HasDone (command_of (stops_of (G.stops gate.now)) request) (device S.left S.faults source.old source.new)
        (device L.got L.faults log.old log.new) (device K.got K.faults out.old out.new) result }
    ensures made_unread { ReadsNothing request → source.new ≡ source.old }
    ensures calm { (result ≡ 4 → ⊥) → S.faults source.new ≡ S.faults source.old }
{
    conclude(answer_to(rt, alloc, request, source, gate), out, log)
}

/// What a command answers to its input.
#[tactic(auto, using(crate::proofs::Rules::answer_lemmas))]
fn answer_to<R: Threads + Wait + Sync, S: Source, G: Gate>(
    rt: &R,
    alloc: Global,
    request: Request,
    source: &mut S,
    gate: &G,
) -> Result<Texts, Complaint>
    requires form { IsRequest request }
    requires other { live_workers request ≡ None }
    ensures answer { IsAnswer (command_of (stops_of (G.stops gate.now)) request) (device S.left S.faults source.old source.new) result }
    ensures made_unread { ReadsNothing request → source.new ≡ source.old }
    ensures calm { StayedCalm (device S.left S.faults source.old source.new) result }
{
    let text = input(alloc, request, source)?;
    answer(rt, alloc, request, text, gate)
}

/// What a command answers to a text: a line a command.
fn answer<R: Threads + Wait + Sync, G: Gate>(
    rt: &R,
    alloc: Global,
    request: Request,
    text: Vec<u8>,
    gate: &G,
) -> Result<Texts, Complaint>
    requires form { IsRequest request }
    requires other { live_workers request ≡ None }
    ensures { IsAnswerTo (command_of (stops_of (G.stops gate.now)) request) text.items result }
{
    match request {
        Request::Run { workers } => run_text(rt, alloc, workers, text, gate),
        Request::Check => check(alloc, text),
        Request::Replay => replay_text(rt, alloc, text),
        Request::Json => describe(alloc, text),
        Request::Cluster {
            halls,
            workers,
            every,
        } => run_clustered(alloc, halls, workers, every, text),
        Request::Max { slices } => optimize(alloc, slices, text),
        Request::Core { slices } => minimize(alloc, slices, text),
        Request::Serve { .. } => unreachable!(),
        Request::Generate { seed, jobs } => generate_text(alloc, seed, jobs),
        Request::RunGenerated {
            seed,
            jobs,
            workers,
        } => run_generated(rt, alloc, seed, jobs, workers, gate),
    }
}
