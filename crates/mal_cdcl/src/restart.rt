//! When a node restarts.

ghost use Rattle.std.specs.Prelude.{◌≡◌, ◌*◌, ◌≤◌, nat_le};
ghost use Rattle.spec_seq.specs.Luby.{luby};

/// Whether a restart is due: 64 conflicts times Luby's number at the place of this one came since the last.
pub fn is_due(conflicts_since_restart: u32, restart_number: u32) -> bool
    requires { 1 ≤ restart_number }
    ensures { result ≡ nat_le (64 * luby restart_number) conflicts_since_restart }
{
    // Compared with the conflicts divided by 64, so no product can pass the machine word. Each number of Luby's is 1 or
    // more, so none is found before there are 64 conflicts.
    let units = u64::from(conflicts_since_restart) / 64;
    if units == 0 {
        return false;
    }
    mal_seq::luby(u64::from(restart_number)) <= units
}
