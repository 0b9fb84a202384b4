//! Reading the words.

ghost use Rattle.std.specs.Prelude.{◌≡◌, IfOk, IfSome, OnErr, None, Some, codes, map, option_map, string_bytes};
ghost use Rattle.clap.specs.Words.{first_of, found_of, rows_of, subcommand_rows_of};
ghost use Rattle.clap.specs.declared.error.kind.ErrorKind.TheVariants.{OutOfMemory};
ghost use Rattle.mal_answer.specs.{Forms.{cluster_form, cluster_of, core_form, gen_form, generate_of, max_form, number_in, run_form, serve_form}, Requests.{IsRequest, asked, asked_in}, Found.{IsMeaning}};

use crate::words::command::command;
use crate::words::number::number;
use crate::words::request::Request;
use clap::ArgMatches;
use clap::error::ErrorKind;
use mal_base::LIMITS;
use std::alloc::{AllocError, Global};

/// What the words ask for; the first of them is the program's name. None exactly where clap refuses them by the
/// program's command line, or a number is out of its range or not in decimal digits without a sign and without a
/// leading zero.
pub fn request_of(alloc: Global, words: &[String]) -> Result<Option<Request>, AllocError>
    ensures meaning { IfOk result (λ o. IsMeaning o (map string_bytes words.now)) }
    ensures range { IfOk result (λ o. IfSome o (λ r. IsRequest r)) }
{
    let command = command(alloc)?;
    match command.try_get_matches_from(words) {
        Ok(matches) => Ok(request_in(&matches)),
        Err(error) => refused(error.kind()),
    }
}

/// What words that the command line refuses ask for: nothing. It is out of memory exactly where the command line ran
/// out of memory. Takes no memory.
fn refused(kind: ErrorKind) -> Result<Option<Request>, AllocError>
    ensures nothing { IfOk result (λ o. (o ≡ None) × (kind ≡ OutOfMemory → ⊥)) }
    ensures memory { OnErr result (kind ≡ OutOfMemory) }
{
    match kind {
        ErrorKind::OutOfMemory => Err(AllocError),
        _ => Ok(None),
    }
}

/// What the subcommand that was found asks for.
fn request_in(matches: &ArgMatches<'_>) -> Option<Request>
    ensures { result ≡ asked_in (subcommand_rows_of matches.now) }
{
    match matches.subcommand() {
        Some((name, options)) => request_named(name, options),
        None => None,
    }
}

/// What the subcommand of this name asks for with these options.
fn request_named(name: &str, options: &ArgMatches<'_>) -> Option<Request>
    ensures { result ≡ asked name.now (rows_of (found_of options.now)) }
{
    if name == "run" {
        return run_with(options);
    }
    if name == "check" {
        return Some(Request::Check);
    }
    if name == "replay" {
        return Some(Request::Replay);
    }
    if name == "gen" {
        return generate_with(options);
    }
    if name == "json" {
        return Some(Request::Json);
    }
    if name == "cluster" {
        return cluster_with(options);
    }
    if name == "max" {
        return max_with(options);
    }
    if name == "core" {
        return core_with(options);
    }
    if name == "serve" {
        return serve_with(options);
    }
    None
}

/// What `run` asks for with these options.
fn run_with(options: &ArgMatches<'_>) -> Option<Request>
    ensures { result ≡ run_form.asks (rows_of (found_of options.now)) }
{
    match number_in(options, "workers", 1, 64) {
        Some(workers) => Some(Request::Run { workers }),
        None => None,
    }
}

/// What `serve` asks for with these options.
fn serve_with(options: &ArgMatches<'_>) -> Option<Request>
    ensures { result ≡ serve_form.asks (rows_of (found_of options.now)) }
{
    match number_in(options, "workers", 1, 64) {
        Some(workers) => Some(Request::Serve { workers }),
        None => None,
    }
}

/// What `cluster` asks for with these options.
fn cluster_with(options: &ArgMatches<'_>) -> Option<Request>
    ensures { result ≡ cluster_form.asks (rows_of (found_of options.now)) }
{
    match number_in(options, "halls", 2, 8) {
        Some(halls) => match number_in(options, "workers", 1, 64) {
            Some(workers) => cluster_by(options, halls, workers),
            None => None,
        },
        None => None,
    }
}

/// What `cluster` asks for with these options, of which the numbers of halls and of workers are known.
fn cluster_by(options: &ArgMatches<'_>, halls: u32, workers: u32) -> Option<Request>
    ensures { result
        ≡ cluster_of (Some halls) (Some workers) (number_in 1 1000 (first_of (codes "every") (rows_of (found_of options.now)))) }
{
    match number_in(options, "every", 1, 1000) {
        Some(every) => Some(Request::Cluster {
            halls,
            workers,
            every,
        }),
        None => None,
    }
}

/// What `max` asks for with these options.
fn max_with(options: &ArgMatches<'_>) -> Option<Request>
    ensures { result ≡ max_form.asks (rows_of (found_of options.now)) }
{
    match number_in(options, "slices", 1, LIMITS.slices) {
        Some(slices) => Some(Request::Max { slices }),
        None => None,
    }
}

/// What `core` asks for with these options.
fn core_with(options: &ArgMatches<'_>) -> Option<Request>
    ensures { result ≡ core_form.asks (rows_of (found_of options.now)) }
{
    match number_in(options, "slices", 1, LIMITS.slices) {
        Some(slices) => Some(Request::Core { slices }),
        None => None,
    }
}

/// What `gen` asks for with these options.
fn generate_with(options: &ArgMatches<'_>) -> Option<Request>
    ensures { result ≡ gen_form.asks (rows_of (found_of options.now)) }
{
    match number_in(options, "seed", 0, 2_147_483_647) {
        Some(seed) => match number_in(options, "jobs", 1, 256) {
            Some(jobs) => generate_by(options, seed, jobs),
            None => None,
        },
        None => None,
    }
}

/// What `gen` asks for with these options, of which the seed and the number of jobs are known.
fn generate_by(options: &ArgMatches<'_>, seed: u32, jobs: u32) -> Option<Request>
    ensures { result ≡ generate_of (Some seed) (Some jobs) (first_of (codes "workers") (rows_of (found_of options.now))) }
{
    match value_of(options, "workers") {
        None => Some(Request::Generate { seed, jobs }),
        Some(word) => match number(word, 1, 64) {
            Some(workers) => Some(Request::RunGenerated {
                seed,
                jobs,
                workers,
            }),
            None => None,
        },
    }
}

/// The number from `least` to `most` that an option was given.
fn number_in(options: &ArgMatches<'_>, name: &str, least: u32, most: u32) -> Option<u32>
    ensures { result ≡ number_in least most (first_of name.now (rows_of (found_of options.now))) }
{
    match value_of(options, name) {
        Some(word) => number(word, least, most),
        None => None,
    }
}

/// The value that an option was given.
#[tactic(auto, using(crate::proofs::Meanings::value_lemmas))]
fn value_of<'a>(options: &ArgMatches<'a>, name: &str) -> Option<&'a str>
    ensures { option_map (λ s. s.now) result ≡ first_of name.now (rows_of (found_of options.now)) }
{
    options.get_str(name)
}
