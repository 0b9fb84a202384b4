//! Why a text is no account.

use mal_history::HistoryFault;
use mal_script::ScriptFault;

/// Why a text is no account: its first fault, or out of memory.
#[derive(Clone, Copy, Debug, Drop)]
pub enum AccountFault {
    /// No line is the one word `history`.
    NoHistory,
    /// A line before the line `history` is wrong, counted from 1.
    Script { fault: ScriptFault },
    /// A line after the line `history` is wrong, counted from 1 after it.
    History { fault: HistoryFault },
    /// Memory ran out.
    OutOfMemory,
}
