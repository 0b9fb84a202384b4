//! A script that one thread runs for two workers, whose history is known.

ghost use Rattle.std.specs.Prelude.{◌≤◌};

use mal_pool::run_alone;
use mal_script::{Script, read};
use std::alloc::Global;

/// Whether the history of a run of a script is this text.
fn is_history(alloc: Global, script: &Script, workers: u32, known: &[u8]) -> Option<bool>
    requires some { 1 ≤ workers }
    requires bound { workers ≤ 64 }
{
    let hall = run_alone(alloc, script, workers).ok()?;
    let text = mal_history::write(alloc, hall.history()).ok();
    drop(hall);
    Some(text?.as_slice() == known)
}

/// Whether the history of a run of the script of a text is this text.
fn has_history(alloc: Global, text: &[u8], workers: u32, known: &[u8]) -> Option<bool>
    requires some { 1 ≤ workers }
    requires bound { workers ≤ 64 }
{
    let script = read(alloc, text).ok()?;
    let is_known = is_history(alloc, &script, workers, known);
    drop(script);
    is_known
}

/// Two jobs of two tenants.
const TWO_TENANTS: &[u8] =
    b"t a\nj p 1 1 4\np cnf 2 1\n1 2 0\na 0\ne\nt b\nj p 1 1 4\np cnf 2 1\n-1 -2 0\na 1 2 0\ne\n";

#[test]
fn each_of_two_jobs_has_a_worker_where_there_are_two(rt: HostRuntime) {
    let known =
        b"h mal 1 2\no a p 1 1 4\no b p 1 1 4\nr a p 1\nc a p\nr b p 1\nc b p\nb a p 1 b p 1\ns a p 0 1\nf a p 0 1 ran\nb b p 1\ns b p 0 1\nf b p 0 1 ran\n";
    assert!(rt; has_history(rt.alloc(), TWO_TENANTS, 2, known) == Some(true));
}
