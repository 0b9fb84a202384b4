//! Accounts that are read.

use mal_account::read;
use mal_history::History;
use std::alloc::Global;

/// The line of the first event.
fn first_line(history: &History) -> Option<u64> {
    if history.events().is_empty() {
        return None;
    }
    Some(history.line(0))
}

/// The line of the first event of the account of a text.
fn first_line_in(alloc: Global, text: &[u8]) -> Option<u64> {
    let account = read(alloc, text).ok()?;
    first_line(&account.history)
}

#[test]
fn lines_are_counted_from_the_history_on(rt: HostRuntime) {
    let text = b"c\nt a\nj p 1 1 4\ne\n history\t\r\nh mal 1 2\n\nc a p";
    assert!(rt; first_line_in(rt.alloc(), text) == Some(3));
}
