//! A heap of variables.

ghost use Rattle.mal_base.specs.Limits.{greatest_variable};
ghost use Rattle.std.specs.Prelude.{◌≡◌, ℕ, ◌+◌, ◌-◌, ◌≤◌, true, false, length, [], ◌++◌, replicate, set, OnOk, OnErr, MatchOption, IfSome};
ghost use Rattle.spec_activity.specs.Rank.{activity_of};
ghost use Rattle.mal_heap.specs.Heaped.{IsVariable, is_inside, IsFirst, IsEmpty};

use crate::row::Row;
use crate::sift::{rise, sink};
use mal_activity::Activity;
use std::alloc::{AllocError, Global};
use std::marker::Model;

/// Variables from 1 on with their activities, of which some are inside: those that may be asked for the first one. Who is
/// more active comes first; of equally active ones the node's index decides. Contracts see the index, the activities,
/// which variables are inside, and for how many more variables there is room.
#[derive(Drop)]
pub struct Heap {
    index: u32,
    activities: Vec<Activity>,
    row: Row,
    count: u32,
    spare: u32,
}

impl Model for Heap {
    ghost use Rattle.std.specs.Prelude.{◌-◌};
    ghost use Rattle.std.specs.Vec.{vec_len, vec_capacity};
    ghost use Rattle.mal_heap.specs.{Rows.{inside}, Heaped.{Heaped, IsHeaped, HasRoom}};

    ghost Value = { Heaped };

    ghost view = { λ h. record {
      index = h.index;
      activities = h.activities.items;
      inside = inside h.count h.row.places.items;
      room = h.spare;
    } };

    ghost invariant = { λ h. IsHeaped h.index h.activities.items h.row.items.items h.row.places.items h.count
        × HasRoom h.spare (vec_capacity h.activities - vec_len h.activities) (vec_capacity h.row.items - vec_len h.row.items) (vec_capacity h.row.places - vec_len h.row.places) };
}

impl Heap {
    /// The heap of the node with this index, without variables. Takes no memory.
    pub fn new(alloc: Global, index: u32) -> Heap
        ensures index { result.index ≡ index }
        ensures activities { result.activities ≡ [] }
        ensures inside { result.inside ≡ [] }
    {
        Heap {
            index,
            activities: Vec::new(alloc),
            row: Row {
                items: Vec::new(alloc),
                places: Vec::new(alloc),
            },
            count: 0,
            spare: 0,
        }
    }

    /// The number of variables.
    pub fn len(&self) -> u32
        ensures { result ≡ length self.now.activities }
    {
        self.activities.len() as u32
    }

    /// The activity of a variable.
    pub fn activity(&self, v: u32) -> Activity
        requires { IsVariable self.now.activities v }
        ensures { result ≡ activity_of self.now.activities v }
    {
        self.activities[v as usize - 1]
    }

    /// Whether a variable is inside.
    pub fn contains(&self, v: u32) -> bool
        requires { IsVariable self.now.activities v }
        ensures { result ≡ is_inside self.now.inside v }
    {
        self.row.places[v as usize - 1] < self.count
    }

    /// Makes room for n more variables. The heap stays as it is.
    pub fn reserve(&mut self, n: u32) -> Result<(), AllocError>
        ensures index { self.new.index ≡ self.old.index }
        ensures activities { self.new.activities ≡ self.old.activities }
        ensures inside { self.new.inside ≡ self.old.inside }
        ensures room { OnOk result (n ≤ self.new.room) }
        ensures more { self.old.room ≤ self.new.room }
    {
        self.activities.reserve(n as usize)?;
        self.row.items.reserve(n as usize)?;
        self.row.places.reserve(n as usize)?;
        self.spare = self.spare.max(n);
        Ok(())
    }

    /// Appends the next n variables, for which there is room, outside and with activity 0. With those that stand they are
    /// as many as literals can be of at most. Takes no memory.
    pub fn grow_reserved(&mut self, n: u32)
        requires few { length self.old.activities + n ≤ greatest_variable }
        requires room { n ≤ self.old.room }
        ensures index { self.new.index ≡ self.old.index }
        ensures activities { self.new.activities ≡ self.old.activities ++ replicate n 0 }
        ensures inside { self.new.inside ≡ self.old.inside ++ replicate n false }
        ensures room { self.new.room + n ≡ self.old.room }
    {
        for _grown in 0..n {
            self.push_reserved();
        }
    }

    /// Appends the next n variables, outside and with activity 0. With those that stand they are as many as literals can
    /// be of at most. Where memory runs out the heap is as before.
    pub fn grow(&mut self, n: u32) -> Result<(), AllocError>
        requires few { length self.old.activities + n ≤ greatest_variable }
        ensures index { self.new.index ≡ self.old.index }
        ensures activities { OnOk result (self.new.activities ≡ self.old.activities ++ replicate n 0) }
        ensures inside { OnOk result (self.new.inside ≡ self.old.inside ++ replicate n false) }
        ensures err_activities { OnErr result (self.new.activities ≡ self.old.activities) }
        ensures err_inside { OnErr result (self.new.inside ≡ self.old.inside) }
    {
        self.reserve(n)?;
        self.grow_reserved(n);
        Ok(())
    }

    /// Appends a variable.
    fn push_reserved(&mut self)
        requires few { length self.old.activities + 1 ≤ greatest_variable }
        requires room { 1 ≤ self.old.room }
        ensures index { self.new.index ≡ self.old.index }
        ensures activities { self.new.activities ≡ self.old.activities ++ replicate 1 0 }
        ensures inside { self.new.inside ≡ self.old.inside ++ replicate 1 false }
        ensures room { self.new.room + 1 ≡ self.old.room }
    {
        let number = self.activities.len() as u32;
        self.activities.push_reserved(Activity::none());
        self.row.items.push_reserved(number);
        self.row.places.push_reserved(number);
        self.spare -= 1;
    }

    /// Puts a variable in, where it is not inside. Takes no memory.
    pub fn insert(&mut self, v: u32)
        requires { IsVariable self.old.activities v }
        ensures index { self.new.index ≡ self.old.index }
        ensures activities { self.new.activities ≡ self.old.activities }
        ensures inside { self.new.inside ≡ set self.old.inside (v - 1) true }
        ensures room { self.new.room ≡ self.old.room }
    {
        let place = self.row.places[v as usize - 1];
        if place < self.count {
            return;
        }
        let last = self.count;
        self.row.swap(place, last);
        self.count += 1;
        rise(
            &mut self.row,
            self.index,
            &self.activities,
            self.count,
            last,
        );
    }

    /// The variable inside that comes before all others inside. None exactly where none is.
    pub fn first(&self) -> Option<u32>
        ensures { MatchOption result (IsEmpty self.now.activities self.now.inside) (λ v. IsFirst self.now.index self.now.activities self.now.inside v) }
    {
        if self.count == 0 {
            None
        } else {
            Some(self.row.items[0] + 1)
        }
    }

    /// Takes out the variable that comes before all others inside, and answers it. None exactly where none is inside.
    pub fn take_first(&mut self) -> Option<u32>
        ensures first { MatchOption result (IsEmpty self.old.activities self.old.inside) (λ v. IsFirst self.old.index self.old.activities self.old.inside v) }
        ensures index { self.new.index ≡ self.old.index }
        ensures activities { self.new.activities ≡ self.old.activities }
        ensures inside { MatchOption result (self.new.inside ≡ self.old.inside) (λ v. self.new.inside ≡ set self.old.inside (v - 1) false) }
        ensures room { self.new.room ≡ self.old.room }
    {
        if self.count == 0 {
            return None;
        }
        let last = self.count - 1;
        let first = self.row.items[0];
        self.row.swap(0, last);
        self.count = last;
        sink(&mut self.row, self.index, &self.activities, last);
        Some(first + 1)
    }

    /// Raises the activity of a variable, inside or not, to one that is no less. Takes no memory.
    pub fn raise(&mut self, v: u32, activity: Activity)
        requires variable { IsVariable self.old.activities v }
        requires more { activity_of self.old.activities v ≤ activity }
        ensures index { self.new.index ≡ self.old.index }
        ensures activities { self.new.activities ≡ set self.old.activities (v - 1) activity }
        ensures inside { self.new.inside ≡ self.old.inside }
        ensures room { self.new.room ≡ self.old.room }
    {
        self.activities[v as usize - 1] = activity;
        let place = self.row.places[v as usize - 1];
        if place < self.count {
            rise(
                &mut self.row,
                self.index,
                &self.activities,
                self.count,
                place,
            );
        }
    }
}
