//! Luby's sequence.

ghost use Rattle.std.specs.Prelude.{◌≡◌, ◌≤◌};
ghost use Rattle.spec_seq.specs.Luby.{luby};

/// Luby's number at this place, counted from 1: the sequence 1, 1, 2, 1, 1, 2, 4, .. of Luby, Sinclair and Zuckerman
/// (1993), of which the place 2^k - 1 has 2^(k-1), and after it the sequence begins again.
pub fn luby(i: u64) -> u64
    requires { 1 ≤ i }
    ensures { result ≡ luby i }
{
    let mut rest = i;
    let mut size: u64 = 1 << 63;
    for _made in 0..64u32 {
        if rest == size - 1 + size {
            return size;
        }
        if size <= rest {
            rest -= size - 1;
        }
        size /= 2;
    }
    1
}
