//! Items that rise and sink to their place in a heap.

ghost use Rattle.mal_base.specs.Limits.{greatest_variable};
ghost use Rattle.std.specs.Prelude.{◌≡◌, ℕ, ◌+◌, ◌*◌, ◌<◌, ◌≤◌, length, vec_capacity};
ghost use Rattle.mal_heap.specs.Rows.{IsRow, inside};
ghost use Rattle.mal_heap.specs.Heaps.{IsHeap, IsHeapUp, IsHeapDown, IsChild, parent};

use crate::ranks::outranks;
use crate::row::Row;
use mal_activity::Activity;

/// Lets the item at a place rise to where it belongs among the first so many.
pub fn rise(row: &mut Row, index: u32, activities: &[Activity], count: u32, from: u32)
    requires row { IsRow row.old.items.items row.old.places.items }
    requires long { length activities.now ≡ length row.old.places.items }
    requires few { length activities.now ≤ greatest_variable }
    requires within { count ≤ length row.old.items.items }
    requires from { from < count }
    requires up { IsHeapUp index activities.now row.old.items.items count from }
    ensures row { IsRow row.new.items.items row.new.places.items }
    ensures heap { IsHeap index activities.now row.new.items.items count }
    ensures inside { inside count row.new.places.items ≡ inside count row.old.places.items }
    ensures long { length row.new.places.items ≡ length row.old.places.items }
    ensures items { vec_capacity row.new.items ≡ vec_capacity row.old.items }
    ensures places { vec_capacity row.new.places ≡ vec_capacity row.old.places }
{
    let mut place = from;
    while 0 < place {
        let above = (place - 1) / 2;
        let item = row.items[place as usize];
        if !outranks(index, activities, item, row.items[above as usize]) {
            return;
        }
        row.swap(place, above);
        place = above;
    }
}

/// Lets the item at the first place sink to where it belongs among the first so many.
pub fn sink(row: &mut Row, index: u32, activities: &[Activity], count: u32)
    requires row { IsRow row.old.items.items row.old.places.items }
    requires long { length activities.now ≡ length row.old.places.items }
    requires few { length activities.now ≤ greatest_variable }
    requires within { count ≤ length row.old.items.items }
    requires down { IsHeapDown index activities.now row.old.items.items count 0 }
    ensures row { IsRow row.new.items.items row.new.places.items }
    ensures heap { IsHeap index activities.now row.new.items.items count }
    ensures inside { inside count row.new.places.items ≡ inside count row.old.places.items }
    ensures long { length row.new.places.items ≡ length row.old.places.items }
    ensures items { vec_capacity row.new.items ≡ vec_capacity row.old.items }
    ensures places { vec_capacity row.new.places ≡ vec_capacity row.old.places }
{
    let mut place = 0;
    while 2 * place + 1 < count {
        let below = child(row, index, activities, count, place);
        let item = row.items[below as usize];
        if !outranks(index, activities, item, row.items[place as usize]) {
            return;
        }
        row.swap(place, below);
        place = below;
    }
}

/// The place of the first item of those below a place that has some.
fn child(row: &Row, index: u32, activities: &[Activity], count: u32, place: u32) -> u32
    requires row { IsRow row.now.items.items row.now.places.items }
    requires long { length activities.now ≡ length row.now.places.items }
    requires few { length activities.now ≤ greatest_variable }
    requires within { count ≤ length row.now.items.items }
    requires some { 2 * place + 1 < count }
    ensures { IsChild index activities.now row.now.items.items count place result }
{
    let left = 2 * place + 1;
    let right = left + 1;
    if count <= right {
        return left;
    }
    let far = row.items[right as usize];
    if outranks(index, activities, far, row.items[left as usize]) {
        return right;
    }
    left
}
