//! Places of a tree, their neighbours, and whether they are active.

use mal_tree::Index;

/// The place of this number.
fn place(number: u32) -> Option<Index> {
    if number > 63 {
        return None;
    }
    Some(Index::of(number))
}

/// The number of a place, if there is one.
fn number_of(place: Option<Index>) -> Option<u32> {
    Some(place?.number())
}

/// The numbers of the place above, and of those below on the left and on the right.
fn around(number: u32) -> Option<[Option<u32>; 3]> {
    let place = place(number)?;
    let (left, right) = place.children();
    let above = number_of(place.parent());
    Some([above, number_of(left), number_of(right)])
}

/// Places at the edges of the tree, and the places around them.
const EDGES: [(u32, [Option<u32>; 3]); 4] = [
    (0, [None, Some(1), Some(2)]),
    (31, [Some(15), Some(63), None]),
    (32, [Some(15), None, None]),
    (63, [Some(31), None, None]),
];

#[test]
fn places_at_the_edges_of_the_tree(rt: HostRuntime) {
    for (number, known) in &EDGES {
        assert!(rt; around(*number) == Some(*known));
    }
}

/// Places, volumes, and whether the place is active.
const ACTIVE: [(u32, u32, bool); 4] = [
    (0, 1, true),
    (0, 0, false),
    (63, 64, true),
    (63, 63, false),
];

/// Whether a place is active at a volume.
fn is_active(number: u32, volume: u32) -> Option<bool> {
    Some(place(number)?.is_active(volume))
}

#[test]
fn places_below_the_volume_are_active(rt: HostRuntime) {
    for (number, volume, known) in &ACTIVE {
        assert!(rt; is_active(*number, *volume) == Some(*known));
    }
    assert!(rt; number_of(place(7)) == Some(7));
}
