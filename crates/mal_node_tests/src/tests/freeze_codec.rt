//! Images as bytes, and bytes that are no image.

ghost use Rattle.std.specs.Prelude.{◌≤◌};

use mal_base::{Clause, ClauseId, NumberedClause, Profile, TrailEntry, Var};
use mal_freeze::{Image, Parts, ThawFault, freeze, thaw};
use std::alloc::Global;

/// The parts of the node of index 0 and of this profile at its first start, but that so many conflicts count for the next
/// dropping.
fn fresh_parts(alloc: Global, profile: Profile, conflicts_since_dropping: u32) -> Parts {
    Parts {
        index: 0,
        profile,
        variables: 0,
        serial: 0,
        conflicts_since_restart: 0,
        restart_number: 1,
        conflicts_since_dropping,
        processed: 0,
        conflict: None,
        verdict: None,
        assumptions: Vec::new(alloc),
        order: Vec::new(alloc),
        phases: Vec::new(alloc),
        trail: Vec::new(alloc),
        clauses: Vec::new(alloc),
    }
}

/// The bytes of an image.
fn written(alloc: Global, image: Image) -> Option<Vec<u8>> {
    let bytes = freeze(alloc, &image).ok();
    drop(image);
    bytes
}

/// The image of these parts. None where they are in no form.
fn image_of(alloc: Global, parts: Parts) -> Option<Image> {
    Image::new(alloc, parts).ok()?
}

/// The bytes of the image of these parts. None where they are in no form.
fn bytes_of(alloc: Global, parts: Parts) -> Option<Vec<u8>> {
    written(alloc, image_of(alloc, parts)?)
}

/// The bytes of the node of index 0 and profile 1 at its first start.
fn fresh_bytes(alloc: Global) -> Option<Vec<u8>> {
    bytes_of(alloc, fresh_parts(alloc, Profile::Plain, 0))
}

/// Whether parts are in no form, if memory is there.
fn are_formless(alloc: Global, parts: Parts) -> bool {
    match Image::new(alloc, parts) {
        Ok(Some(image)) => {
            drop(image);
            false
        }
        Ok(None) => true,
        Err(_) => false,
    }
}

/// The fault of these bytes, none where they are an image.
fn fault_of(alloc: Global, bytes: &[u8]) -> Option<ThawFault> {
    thaw(alloc, bytes).err()
}

/// Whether a byte at a place makes this fault of these bytes.
fn has_fault(
    alloc: Global,
    bytes: &[u8],
    place: usize,
    byte: u8,
    fault: ThawFault,
) -> Option<bool> {
    let mut other = Vec::from_slice(alloc, bytes).ok()?;
    let is_put = put_at(other.as_mut_slice(), place, byte);
    let found = fault_of(alloc, other.as_slice());
    drop(other);
    Some(is_put && found == Some(fault))
}

/// Puts a byte at a place. False where there is no such place.
fn put_at(bytes: &mut [u8], place: usize, byte: u8) -> bool {
    match bytes.get_mut(place) {
        None => false,
        Some(found) => {
            *found = byte;
            true
        }
    }
}

/// Whether these bytes are an image that is written as they are.
fn come_again(alloc: Global, bytes: &[u8]) -> Option<bool> {
    let again = written(alloc, thaw(alloc, bytes).ok()?)?;
    let are_same = again.as_slice() == bytes;
    drop(again);
    Some(are_same)
}

/// Profiles, how many conflicts count for the next dropping, and whether a node may have them: under profile 1 none
/// count.
const COUNTED: [(Profile, u32, bool); 3] = [
    (Profile::Plain, 0, true),
    (Profile::Plain, 1, false),
    (Profile::Lean, 1792, true),
];

/// Whether there is a node of a profile with so many conflicts where it is to be one, and none where not.
fn is_counted(alloc: Global, profile: Profile, conflicts: u32, is_image: bool) -> bool {
    let parts = fresh_parts(alloc, profile, conflicts);
    if !is_image {
        return are_formless(alloc, parts);
    }
    match image_of(alloc, parts) {
        Some(image) => {
            drop(image);
            true
        }
        None => false,
    }
}

#[test]
fn conflicts_count_for_a_dropping_where_the_profile_reduces(rt: HostRuntime) {
    for (profile, conflicts, is_image) in &COUNTED {
        assert!(rt; is_counted(rt.alloc(), *profile, *conflicts, *is_image));
    }
}

/// Whether the conflicts since the last dropping stand in their place, and come back.
fn conflicts_come_back(alloc: Global) -> Option<bool> {
    let bytes = bytes_of(alloc, fresh_parts(alloc, Profile::Lean, 1792))?;
    let are_there = bytes.get(33..36) == Some([0, 7, 0].as_slice());
    let come = come_again(alloc, bytes.as_slice());
    drop(bytes);
    Some(are_there && come?)
}

#[test]
fn conflicts_since_the_last_dropping_come_back(rt: HostRuntime) {
    assert!(rt; conflicts_come_back(rt.alloc()) == Some(true));
}

/// Whether each front of so many bytes is refused as one.
fn fronts_are_refused(alloc: Global, bytes: &[u8]) -> bool {
    for len in 0..65 {
        let fault = match bytes.get(..len) {
            Some(front) => fault_of(alloc, front),
            None => None,
        };
        if fault != Some(ThawFault::Truncated) {
            return false;
        }
    }
    true
}

/// The same of the fresh node.
fn fresh_fronts_are_refused(alloc: Global) -> Option<bool> {
    let bytes = fresh_bytes(alloc)?;
    let are_refused = fronts_are_refused(alloc, bytes.as_slice());
    drop(bytes);
    Some(are_refused)
}

#[test]
fn bytes_that_are_cut_short_are_refused(rt: HostRuntime) {
    assert!(rt; fresh_fronts_are_refused(rt.alloc()) == Some(true));
}

/// Whether a byte at each of these places makes its fault of these bytes.
fn have_faults(alloc: Global, bytes: &[u8], known: &[(usize, u8, ThawFault)]) -> bool {
    for (place, byte, fault) in known {
        if has_fault(alloc, bytes, *place, *byte, *fault) != Some(true) {
            return false;
        }
    }
    true
}

/// Places of the bytes of the fresh node, with a byte there and its fault: there is no third profile.
const FRESH_FAULTS: [(usize, u8, ThawFault); 3] = [
    (0, b'm', ThawFault::BadMagic),
    (7, b'3', ThawFault::BadMagic),
    (11, 64, ThawFault::BadField { place: 8 }),
];

/// Whether they make their faults.
fn fresh_faults_are_told(alloc: Global) -> Option<bool> {
    let bytes = fresh_bytes(alloc)?;
    let are_told = have_faults(alloc, bytes.as_slice(), &FRESH_FAULTS);
    drop(bytes);
    Some(are_told)
}

#[test]
fn other_bytes_are_refused(rt: HostRuntime) {
    assert!(rt; fresh_faults_are_told(rt.alloc()) == Some(true));
}

/// Whether a fault has this text, if memory is there.
fn has_text(alloc: Global, fault: ThawFault, known: &[u8]) -> bool {
    match format!(in alloc; "{fault}") {
        Ok(text) => text.as_bytes() == known,
        Err(_) => false,
    }
}

#[test]
fn each_fault_has_its_text(rt: HostRuntime) {
    assert!(rt; has_text(rt.alloc(), ThawFault::BadMagic, b"bad magic"));
    assert!(rt; has_text(rt.alloc(), ThawFault::Truncated, b"truncated"));
    let field = ThawFault::BadField { place: 12 };
    assert!(rt; has_text(rt.alloc(), field, b"bad field at 12"));
    assert!(rt; has_text(rt.alloc(), ThawFault::NotCanonical, b"not canonical"));
    assert!(rt; has_text(rt.alloc(), ThawFault::OutOfMemory, b"out of memory"));
}

/// The fault of the bytes of the fresh node with one after them.
fn fault_of_longer(alloc: Global) -> Option<ThawFault> {
    let mut longer = fresh_bytes(alloc)?;
    let is_longer = longer.push(0).is_ok();
    let fault = fault_of(alloc, longer.as_slice());
    drop(longer);
    if is_longer { fault } else { None }
}

#[test]
fn a_byte_too_many_is_refused(rt: HostRuntime) {
    assert!(rt; fault_of_longer(rt.alloc()) == Some(ThawFault::NotCanonical));
}

/// The clause of 1 and 2 with these signs, under a number.
fn clause(alloc: Global, number: u32, first: bool, second: bool) -> Option<NumberedClause>
    requires { 1 ≤ number }
{
    let lits = [Var::of(1).literal(first), Var::of(2).literal(second)];
    let clause = Clause::of_rising(alloc, &lits).ok()??;
    Some(NumberedClause::new(ClauseId::original(number), clause))
}

/// The entry of a trail on level 1 that 1 or 2 is so, with its reason.
fn entry(variable: u32, sign: bool, reason: Option<ClauseId>) -> TrailEntry
    requires some { 1 ≤ variable }
    requires bound { variable ≤ 2 }
{
    TrailEntry {
        lit: Var::of(variable).literal(sign),
        reason,
        level: 1,
    }
}

/// Fills parts without a clause: the clauses 1 2 and -1 2, a trail on which -1 was decided and 2 was forced, and both as
/// assumptions.
fn fill(alloc: Global, parts: &mut Parts) -> Option<()> {
    parts.clauses.push(clause(alloc, 1, true, true)?).ok()?;
    parts.clauses.push(clause(alloc, 2, false, true)?).ok()?;
    let trail = [
        entry(1, false, None),
        entry(2, true, Some(ClauseId::original(1))),
    ];
    parts.trail.extend_from_slice(&trail).ok()?;
    parts
        .order
        .extend_from_slice(&[Var::of(2), Var::of(1)])
        .ok()?;
    parts.phases.extend_from_slice(&[false, true]).ok()?;
    let assumptions = [Var::of(1).literal(false), Var::of(2).literal(true)];
    parts.assumptions.extend_from_slice(&assumptions).ok()
}

/// The parts of a node of two variables that has two assumptions, two entries on its trail, and two clauses.
fn node_parts(alloc: Global) -> Option<Parts> {
    let mut parts = fresh_parts(alloc, Profile::Plain, 0);
    parts.variables = 2;
    parts.processed = 3;
    if fill(alloc, &mut parts).is_some() {
        return Some(parts);
    }
    drop(parts);
    None
}

/// The bytes of that node.
fn node_bytes(alloc: Global) -> Option<Vec<u8>> {
    bytes_of(alloc, node_parts(alloc)?)
}

/// How many variables, batches that count as handled, entries and clauses an image has.
fn counts_of(image: &Image) -> [usize; 4] {
    let parts = image.parts();
    [
        parts.variables as usize,
        parts.processed as usize,
        parts.trail.len(),
        parts.clauses.len(),
    ]
}

/// Whether an image has the counts and the phases of that node.
fn is_of_node(image: Image) -> bool {
    let is_known = counts_of(&image) == [2, 3, 2, 2]
        && image.parts().phases.as_slice() == [false, true].as_slice();
    drop(image);
    is_known
}

/// How many bytes that node has, and whether it comes back from them.
fn comes_back(alloc: Global) -> Option<(usize, bool)> {
    let bytes = node_bytes(alloc)?;
    let len = bytes.len();
    let image = thaw(alloc, bytes.as_slice()).ok();
    drop(bytes);
    Some((len, is_of_node(image?)))
}

#[test]
fn a_node_comes_back_from_its_bytes(rt: HostRuntime) {
    assert!(rt; comes_back(rt.alloc()) == Some((155, true)));
}

/// Whether that node has the same bytes when it comes back.
fn node_comes_again(alloc: Global) -> Option<bool> {
    let bytes = node_bytes(alloc)?;
    let come = come_again(alloc, bytes.as_slice());
    drop(bytes);
    come
}

#[test]
fn a_node_that_comes_back_has_the_same_bytes(rt: HostRuntime) {
    assert!(rt; node_comes_again(rt.alloc()) == Some(true));
}

/// How many entries the trail of an image has, and how many batches count as handled.
fn trail_counts(image: &Image) -> Option<(usize, u32)> {
    let trail = image.trail().ok()?;
    let counts = (trail.len(), trail.processed());
    drop(trail);
    Some(counts)
}

/// Whether the image of those parts has their counts and their trail.
fn parts_are_kept(alloc: Global) -> Option<bool> {
    let image = image_of(alloc, node_parts(alloc)?)?;
    let has_trail = trail_counts(&image) == Some((2, 3));
    Some(has_trail && is_of_node(image))
}

#[test]
fn parts_in_form_make_an_image(rt: HostRuntime) {
    assert!(rt; parts_are_kept(rt.alloc()) == Some(true));
}

/// Places of the bytes of that node, with a byte there that leaves each number in its range and the node in no form: a
/// batch too many; a verdict without a goal, a goal without a verdict; assumptions that do not rise; an order with a
/// variable twice; a first level above 1, a variable twice on the trail, a level that falls, one that rises by 2; a
/// clause number of 0, literals that do not rise, numbers that do not rise.
const UNORDERED: [(usize, u8); 12] = [
    (35, 4),
    (44, 2),
    (52, 1),
    (64, 2),
    (72, 2),
    (94, 2),
    (98, 2),
    (110, 0),
    (110, 3),
    (122, 0),
    (134, 2),
    (142, 1),
];

/// Places with a byte there that takes a number out of its range, and where that number begins: the variables, the
/// serial, the number of the restart, the verdict, the count of the assumptions, a literal, a variable, a phase, the
/// count of the trail, the count of a clause's literals.
const OUT_OF_RANGE: [(usize, u8, usize); 10] = [
    (12, 1, 12),
    (16, 2, 16),
    (31, 0, 28),
    (44, 3, 44),
    (56, 3, 53),
    (60, 6, 57),
    (68, 0, 65),
    (74, 2, 74),
    (78, 3, 75),
    (126, 3, 123),
];

/// Whether each byte of the first list leaves that node in no form, and each of the second is out of range.
fn are_told(alloc: Global, bytes: &[u8]) -> bool {
    for (place, byte) in &UNORDERED {
        if has_fault(alloc, bytes, *place, *byte, ThawFault::NotCanonical) != Some(true) {
            return false;
        }
    }
    for (at, byte, place) in &OUT_OF_RANGE {
        let fault = ThawFault::BadField { place: *place };
        if has_fault(alloc, bytes, *at, *byte, fault) != Some(true) {
            return false;
        }
    }
    true
}

/// The same of the bytes of that node.
fn node_faults_are_told(alloc: Global) -> Option<bool> {
    let bytes = node_bytes(alloc)?;
    let are_told = are_told(alloc, bytes.as_slice());
    drop(bytes);
    Some(are_told)
}

#[test]
fn what_is_in_no_form_or_out_of_its_range_is_refused(rt: HostRuntime) {
    assert!(rt; node_faults_are_told(rt.alloc()) == Some(true));
}
