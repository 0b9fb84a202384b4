//! Halls whose answers and histories are known.

mod playing;
mod plays;

use super::calling::{P, Told};
use super::making::Posted;
use mal_base::Profile;
use playing::{Call, tried};
use plays::PLAYS;
use std::alloc::Global;

/// The first play that is answered otherwise than it is known: its name, and the place of that call, from 0.
fn first_wrong(alloc: Global) -> Option<(&'static str, usize)> {
    for (play_name, workers, play) in &PLAYS {
        let known = tried(alloc, *workers, *play);
        if known != play.len() {
            return Some((*play_name, known));
        }
    }
    None
}

#[test]
fn calls_are_answered_as_known(rt: HostRuntime) {
    assert_eq!(rt; first_wrong(rt.alloc()), None);
}

/// How two nodes of profile 1 spend 8 slices on a revision of 1,000 variables and no clause, with an exchange between.
const SPENT: &[u8] =
    b"h mal 1 2\no a p 1 2 8\nr a p 1\nc a p\nb a p 2\ns a p 0 1\nf a p 0 1 ran\ns a p 1 1\nf a p 1 1 ran\ns a p 0 1\nf a p 0 1 ran\ns a p 1 1\nf a p 1 1 ran\nx a p\ns a p 0 1\nf a p 0 1 ran\ns a p 1 1\nf a p 1 1 ran\ns a p 0 1\nf a p 0 1 ran\ns a p 1 1\nf a p 1 1 ran\n";

/// The same of profile 2: the exchange of nothing leaves the nodes as they are, and one answers.
const ANSWERED: &[u8] =
    b"h mal 1 2\no a p 1 2 8 2\nr a p 1\nc a p\nb a p 2\ns a p 0 1\nf a p 0 1 ran\ns a p 1 1\nf a p 1 1 ran\ns a p 0 1\nf a p 0 1 ran\ns a p 1 1\nf a p 1 1 ran\nx a p\ns a p 0 1\nf a p 0 1 ran\n";

/// How many calls are answered as known where two nodes of a profile have 8 slices for a revision of 1,000 variables and
/// no clause, this is the history of the run, and who expects this reply is told so.
fn two_nodes<'a>(
    alloc: Global,
    profile: Profile,
    history: &'a [u8],
    reply: &'a [u8],
    told: Told,
) -> usize {
    let calls = [
        (Call::OneJob(2, 8, profile, 1_000), Told::Done),
        (Call::Drive(history), Told::Done),
        (Call::Hear(P, 1, reply), told),
    ];
    tried(alloc, 2, &calls)
}

#[test]
fn two_nodes_go_on_behind_an_exchange(rt: HostRuntime) {
    let spent = b"r a p 1\ns UNKNOWN\nu spent 8\n";
    assert!(rt; two_nodes(rt.alloc(), Profile::Plain, SPENT, spent, Told::Done) == 3);
    assert!(rt; two_nodes(rt.alloc(), Profile::Lean, ANSWERED, b"", Told::Other) == 3);
}

/// How many calls are answered as known where of two nodes the one at this place comes back first, and this is the reply.
fn first_back(alloc: Global, place: usize, reply: &[u8]) -> usize {
    let calls = [
        (Call::OpenFor(2, 4, Profile::Plain), Told::Done),
        (Call::Revise(P, Posted::Clause(&[1, 2], &[])), Told::Done),
        (Call::Work(1), Told::Done),
        (Call::Work(2), Told::Done),
        (Call::Give(place), Told::Done),
        (Call::Revise(P, Posted::Clause(&[-1], &[])), Told::Done),
        (Call::Give(0), Told::Done),
        (Call::Hear(P, 1, reply), Told::Done),
        (Call::Hear(P, 2, b""), Told::NoReply),
    ];
    tried(alloc, 2, &calls)
}

#[test]
fn the_first_node_that_comes_back_answers(rt: HostRuntime) {
    let first = b"r a p 1\ns SATISFIABLE\nv -1 2 0\n";
    let second = b"r a p 1\ns SATISFIABLE\nv 1 2 0\n";
    assert!(rt; first_back(rt.alloc(), 0, first) == 9);
    assert!(rt; first_back(rt.alloc(), 1, second) == 9);
}
