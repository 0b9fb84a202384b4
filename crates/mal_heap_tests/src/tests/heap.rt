//! Heaps whose first variables are known.

ghost use Rattle.std.specs.Prelude.{◌≡◌, true};
ghost use Rattle.mal_heap.specs.Heaped.{IsVariable};

use mal_activity::Activity;
use mal_heap::Heap;
use std::alloc::Global;

/// Whether a heap has this variable.
fn has(heap: &Heap, v: u32) -> bool
    ensures { result ≡ true → IsVariable heap.now.activities v }
{
    1 <= v && v <= heap.len()
}

/// Puts a variable in.
fn insert(heap: &mut Heap, v: u32) -> Option<()> {
    if !has(heap, v) {
        return None;
    }
    heap.insert(v);
    Some(())
}

/// Raises the activity of a variable.
fn raise(heap: &mut Heap, v: u32, activity: Activity) -> Option<()> {
    if !has(heap, v) || activity.number() < heap.activity(v).number() {
        return None;
    }
    heap.raise(v, activity);
    Some(())
}

/// The heap of four variables, all inside, of the node with this index.
fn of_four(alloc: Global, index: u32) -> Option<Heap> {
    let mut heap = Heap::new(alloc, index);
    heap.grow(4).ok()?;
    for v in 1..5 {
        insert(&mut heap, v)?;
    }
    Some(heap)
}

/// The variables that are taken out first, 0 where none is inside any more.
fn taken(heap: &mut Heap) -> [u32; 5] {
    let mut row = [0; 5];
    for place in 0..5 {
        row[place] = heap.take_first().unwrap_or(0);
    }
    row
}

/// What is taken out of four variables of one activity.
fn of_one_activity(alloc: Global, index: u32) -> Option<[u32; 5]> {
    let mut heap = of_four(alloc, index)?;
    Some(taken(&mut heap))
}

#[test]
fn equally_active_variables_come_by_the_index(rt: HostRuntime) {
    assert!(rt; of_one_activity(rt.alloc(), 0) == Some([1, 2, 3, 4, 0]));
    assert!(rt; of_one_activity(rt.alloc(), 32) == Some([2, 4, 1, 3, 0]));
    assert!(rt; of_one_activity(rt.alloc(), 63) == Some([4, 3, 2, 1, 0]));
}

/// What is first of four variables of which 3 rises inside and 4 outside, before and after 4 is put in again, and what is
/// taken out then.
fn risen(alloc: Global) -> Option<([Option<u32>; 2], [u32; 5])> {
    let mut heap = of_four(alloc, 63)?;
    let four = heap.take_first();
    raise(&mut heap, 3, Activity::one())?;
    raise(&mut heap, 4, Activity::of(33_554_432 + 8_388_608)?)?;
    let three = heap.first();
    insert(&mut heap, 4)?;
    insert(&mut heap, 4)?;
    Some(([four, three], taken(&mut heap)))
}

#[test]
fn a_variable_that_rises_comes_first(rt: HostRuntime) {
    assert!(rt; risen(rt.alloc()) == Some(([Some(4), Some(3)], [4, 3, 2, 1, 0])));
}

/// Whether a variable is inside, and the number of its activity.
fn shown(heap: &Heap, v: u32) -> Option<(bool, u64)> {
    if !has(heap, v) {
        return None;
    }
    Some((heap.contains(v), heap.activity(v).number()))
}

/// What is shown of a variable at first, once it is inside, and once it was taken out.
fn shown_of_one(alloc: Global) -> Option<[Option<(bool, u64)>; 3]> {
    let mut heap = Heap::new(alloc, 7);
    heap.reserve(2).ok()?;
    heap.grow_reserved(2);
    let before = shown(&heap, 2);
    insert(&mut heap, 2)?;
    let inside = shown(&heap, 2);
    heap.take_first();
    Some([before, inside, shown(&heap, 2)])
}

#[test]
fn a_variable_is_inside_until_it_is_taken(rt: HostRuntime) {
    let known = [Some((false, 0)), Some((true, 0)), Some((false, 0))];
    assert!(rt; shown_of_one(rt.alloc()) == Some(known));
}
