//! The program `mal`, over the standard streams.
#![tactic(auto)]

ghost use Rattle.std.specs.Prelude.{◌≡◌, [], IfErr, IfOk, IfSome, IsNone, IsSomeAnd};
ghost use Rattle.std.specs.IoError.{error_kind};
ghost use Rattle.std.specs.Vec.Iter.{into_iter_items};
ghost use Rattle.std.specs.declared.io.ErrorKind.TheVariants.{InvalidData};

use mal_cli::top;
use mal_io::{StdSink, StdSource};
use mal_pool::PlainGate;
use std::alloc::Global;
use std::env::{self, Args};
use std::io::{self, ErrorKind};
use std::process::ExitCode;

/// The exit status where memory runs out before the words are known.
const OUT_OF_MEMORY: u8 = 6;

fn main(rt: HostRuntime) -> ExitCode {
    let alloc = rt.alloc();
    let Some(words) = words_of(alloc, env::args(&rt)) else {
        return ExitCode::from(OUT_OF_MEMORY);
    };
    let mut source = StdSource::new(rt.stdin());
    let mut out = StdSink::new(rt.stdout());
    let mut log = StdSink::new(rt.stderr());
    ExitCode::from(top(
        &rt,
        alloc,
        words.as_slice(),
        &mut source,
        &mut out,
        &mut log,
        &PlainGate,
    ))
}

/// The program's words, which are its arguments. Where one of these is not UTF-8 there are none, and no words ask for
/// nothing. None where the arguments are not to be had for another cause, and where memory runs out.
fn words_of(alloc: Global, args: io::Result<Args>) -> Option<Vec<String>>
    ensures words { IfOk args (λ a. IfSome result (λ w. w.items ≡ into_iter_items a)) }
    ensures no_text { IfErr args (λ e. error_kind e ≡ InvalidData → IsSomeAnd result (λ w. w.items ≡ [])) }
    ensures no_words { IfErr args (λ e. (error_kind e ≡ InvalidData → ⊥) → IsNone result) }
{
    match args {
        Ok(all) => listed(alloc, all),
        Err(error) if error.kind() == ErrorKind::InvalidData => Some(Vec::new(alloc)),
        Err(_) => None,
    }
}

/// These words, in their order. None where memory runs out.
fn listed(alloc: Global, args: Args) -> Option<Vec<String>>
    ensures { IfSome result (λ w. w.items ≡ into_iter_items args) }
{
    let mut words = Vec::new(alloc);
    for word in args {
        if words.push(word).is_err() {
            drop(words);
            return None;
        }
    }
    Some(words)
}
