//! Luby's numbers and draws that are known.

use mal_seq::{Draws, luby};

#[test]
fn the_last_place_has_the_greatest_number(rt: HostRuntime) {
    assert!(rt; luby(u64::MAX) == 1 << 63);
}

#[test]
fn a_pick_is_the_rest_of_a_draw(rt: HostRuntime) {
    let mut draws = Draws::new(1);
    assert!(rt; draws.pick(8) == 16838 % 8);
    assert!(rt; draws.pick(50) == 8);
}
