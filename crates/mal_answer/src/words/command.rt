//! The command line as clap takes it, a subcommand a command with its options, and the line of usage. There is no help and
//! no version flag, no abbreviation, and no option twice.

ghost use Rattle.std.specs.Prelude.{◌≡◌, false, IfOk};
ghost use Rattle.clap.specs.{Words.{app_of, rule_of}, declared.builder.command.Command.TheViews.{out-Command as fields_of}};
ghost use Rattle.mal_answer.specs.{CommandLine.{app_with, bare_app, bare_mal, cluster_app, gen_app, mal_app, option_rule}, Usage.{usage_line}};

use clap::{Arg, Command};
use std::alloc::{AllocError, Global};

/// The commands with their options.
const USAGE: &[u8] =
    b"usage: mal run --workers N, check, replay, gen --seed S --jobs N [--workers W], json, cluster --halls H --workers N --every K, max --slices N, core --slices N, serve --workers N\n";

/// The line for words that ask for nothing: each command with its options.
pub fn usage_line() -> &'static [u8]
    ensures { result.now ≡ usage_line }
{
    USAGE
}

/// The program's command line.
pub fn command<'a>(alloc: Global) -> Result<Command<'a>, AllocError>
    ensures { IfOk result (λ c. app_of c ≡ mal_app) }
{
    program(alloc)
        .subcommand(with_number(alloc, "run", "workers")?)?
        .subcommand(bare(alloc, "check"))?
        .subcommand(bare(alloc, "replay"))?
        .subcommand(generate(alloc)?)?
        .subcommand(bare(alloc, "json"))?
        .subcommand(cluster(alloc)?)?
        .subcommand(with_number(alloc, "max", "slices")?)?
        .subcommand(with_number(alloc, "core", "slices")?)?
        .subcommand(with_number(alloc, "serve", "workers")?)
}

/// The program itself, of which a subcommand has to follow.
fn program<'a>(alloc: Global) -> Command<'a>
    ensures app { app_of result ≡ bare_mal }
    ensures local { (fields_of result).has_globals ≡ false }
{
    bare(alloc, "mal")
        .disable_help_subcommand(true)
        .subcommand_required(true)
}

/// `NAME --NUMBER N`: a command of this name with the one option of that name, which has to be given.
fn with_number<'a>(alloc: Global, name: &'a str, number: &'a str) -> Result<Command<'a>, AllocError>
    ensures app { IfOk result (λ c. app_of c ≡ app_with name.entry.now number.entry.now) }
    ensures local { IfOk result (λ c. (fields_of c).has_globals ≡ false) }
{
    bare(alloc, name).arg(option(alloc, number, true))
}

/// `gen --seed S --jobs N`, with or without `--workers W`.
fn generate<'a>(alloc: Global) -> Result<Command<'a>, AllocError>
    ensures app { IfOk result (λ c. app_of c ≡ gen_app) }
    ensures local { IfOk result (λ c. (fields_of c).has_globals ≡ false) }
{
    bare(alloc, "gen")
        .arg(option(alloc, "seed", true))?
        .arg(option(alloc, "jobs", true))?
        .arg(option(alloc, "workers", false))
}

/// `cluster --halls H --workers N --every K`.
fn cluster<'a>(alloc: Global) -> Result<Command<'a>, AllocError>
    ensures app { IfOk result (λ c. app_of c ≡ cluster_app) }
    ensures local { IfOk result (λ c. (fields_of c).has_globals ≡ false) }
{
    bare(alloc, "cluster")
        .arg(option(alloc, "halls", true))?
        .arg(option(alloc, "workers", true))?
        .arg(option(alloc, "every", true))
}

/// A command of this name without arguments and without a help flag.
fn bare<'a>(alloc: Global, name: &'a str) -> Command<'a>
    ensures app { app_of result ≡ bare_app name.entry.now }
    ensures local { (fields_of result).has_globals ≡ false }
{
    Command::new(alloc, name).disable_help_flag(true)
}

/// An option of this name that takes one value.
fn option<'a>(alloc: Global, name: &'a str, required: bool) -> Arg<'a>
    ensures rule { rule_of result ≡ option_rule name.entry.now required }
    ensures local { result.global ≡ false }
{
    Arg::new(alloc, name).long(name).required(required)
}
