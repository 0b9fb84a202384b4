//! A decision order.

ghost use Rattle.mal_base.specs.Limits.{greatest_variable};
ghost use Rattle.std.specs.Prelude.{◌≡◌, ℕ, ◌*◌, ◌/◌, ◌+◌, ◌≤◌, ◌<◌, ◌==◌, true, length, [], ◌++◌, take, get_or, OnOk, OnErr, IfOk};
ghost use Rattle.std.specs.List.{list_any, list_all};
ghost use Rattle.spec_node.specs.{Load.{counted, new_order}, Value.{first_free, has_value}};
ghost use Rattle.spec_learn.specs.Order.{moved};
ghost use Rattle.mal_order.specs.Rings.{IsApart, IsTurned};

use crate::ring::Ring;
use mal_base::{TrailView, Var};
use std::alloc::{AllocError, Global};
use std::marker::Model;

/// The decision order of a node: the first variable without a value is decided next. A search mark tells how many of
/// the first variables were passed since they had values; who takes values away rewinds it. Contracts see the node's
/// index (0 to 63), the variables in order, for how many more there is room, and how many are passed.
#[derive(Drop)]
pub struct Order {
    index: u32,
    ring: Ring,
    passed: u32,
    mark: u32,
}

impl Model for Order {
    ghost use Rattle.mal_order.specs.Ordered.{Ordered, IsOrder};

    ghost Value = { Ordered };

    ghost view = { λ o. record { index = o.index; list = o.ring.list; room = o.ring.room; passed = o.passed } };

    ghost invariant = { λ o. IsOrder o.index o.ring o.passed o.mark };
}

impl Order {
    /// The order of the node with this index (0 to 63), without variables. Takes no memory.
    pub fn new(alloc: Global, index: u32) -> Order
        requires { index ≤ 63 }
        ensures index { result.index ≡ index }
        ensures list { result.list ≡ [] }
        ensures passed { result.passed ≡ 0 }
    {
        Order {
            index,
            ring: Ring::new(alloc),
            passed: 0,
            mark: 0,
        }
    }

    /// The order of the node with this index (0 to 63) that has the variables in this row: those from 1 to their
    /// number, each once.
    pub fn of_list(alloc: Global, index: u32, list: &[Var]) -> Result<Order, AllocError>
        requires index { index ≤ 63 }
        requires bound { length list.now ≤ greatest_variable }
        requires turned { IsTurned list.now }
        ensures index { IfOk result (λ o. o.index ≡ index) }
        ensures list { IfOk result (λ o. o.list ≡ list.now) }
        ensures passed { IfOk result (λ o. o.passed ≡ 0) }
    {
        let mut ring = Ring::new(alloc);
        let places = list.len() as u32;
        ring.reserve(places)?;
        ring.grow_reserved(places);
        for var in list {
            ring.push(var.number());
        }
        Ok(Order {
            index,
            ring,
            passed: 0,
            mark: 0,
        })
    }

    /// Makes room for n more variables. The order stays as it is.
    pub fn reserve(&mut self, n: u32) -> Result<(), AllocError>
        ensures index { self.new.index ≡ self.old.index }
        ensures list { self.new.list ≡ self.old.list }
        ensures passed { self.new.passed ≡ self.old.passed }
        ensures room { OnOk result (n ≤ self.new.room) }
        ensures more { self.old.room ≤ self.new.room }
    {
        self.ring.reserve(n)
    }

    /// Appends the next n variables, for which there is room: in rising order, turned left by the node's share of a
    /// turn. With those that stand they are as many as literals can be of at most. Takes no memory.
    pub fn append_reserved(&mut self, n: u32)
        requires bound { length self.old.list + n ≤ greatest_variable }
        requires room { n ≤ self.old.room }
        ensures index { self.new.index ≡ self.old.index }
        ensures list { self.new.list ≡ self.old.list ++ new_order self.old.index (length self.old.list) n }
        ensures passed { self.new.passed ≡ self.old.passed }
        ensures room { self.new.room + n ≡ self.old.room }
    {
        let variables = self.ring.len();
        let turn = share(self.index, n);
        self.ring.grow_reserved(n);
        push_counted(&mut self.ring, variables + 1 + turn, n - turn);
        push_counted(&mut self.ring, variables + 1, turn);
    }

    /// Appends the next n variables: in rising order, turned left by the node's share of a turn. With those that stand
    /// they are as many as literals can be of at most. Where memory runs out the order is as before.
    pub fn append(&mut self, n: u32) -> Result<(), AllocError>
        requires { length self.old.list + n ≤ greatest_variable }
        ensures index { self.new.index ≡ self.old.index }
        ensures list { OnOk result
            (self.new.list ≡ self.old.list ++ new_order self.old.index (length self.old.list) n) }
        ensures unchanged { OnErr result (self.new.list ≡ self.old.list) }
        ensures passed { self.new.passed ≡ self.old.passed }
    {
        self.reserve(n)?;
        self.append_reserved(n);
        Ok(())
    }

    /// The first variable without a value, where those that are passed have values. None exactly where every variable
    /// of the order has one. What has a value in front of it is passed.
    pub fn first_free<T: TrailView>(&mut self, trail: &T) -> Option<Var>
        requires { list_all (has_value (T.entries trail.now)) (take self.old.passed self.old.list) ≡ true }
        ensures value { result ≡ first_free (T.entries trail.now) self.old.list }
        ensures index { self.new.index ≡ self.old.index }
        ensures list { self.new.list ≡ self.old.list }
        ensures room { self.new.room ≡ self.old.room }
        ensures passed { list_all (has_value (T.entries trail.now)) (take self.new.passed self.new.list) ≡ true }
    {
        for _place in self.passed as usize..self.len() {
            let var = self.ahead();
            match trail.value(var) {
                None => return Some(var),
                Some(_) => self.pass(var),
            }
        }
        None
    }

    /// The variable after those that are passed.
    fn ahead(&self) -> Var
        requires { self.now.passed < length self.now.list }
        ensures { result ≡ get_or self.now.list self.now.passed 0 }
    {
        Var::of(self.ring.next(self.mark))
    }

    /// Passes the variable after those that are passed.
    fn pass(&mut self, var: Var)
        requires within { self.old.passed < length self.old.list }
        requires ahead { var ≡ get_or self.old.list self.old.passed 0 }
        ensures index { self.new.index ≡ self.old.index }
        ensures list { self.new.list ≡ self.old.list }
        ensures room { self.new.room ≡ self.old.room }
        ensures passed { self.new.passed ≡ self.old.passed + 1 }
    {
        self.passed += 1;
        self.mark = var.number();
    }

    /// Moves a variable of the order to the front, and rewinds. Takes no memory.
    pub fn bump(&mut self, var: Var)
        requires { list_any (λ w. w == var) self.old.list ≡ true }
        ensures index { self.new.index ≡ self.old.index }
        ensures list { self.new.list ≡ moved var self.old.list }
        ensures room { self.new.room ≡ self.old.room }
        ensures passed { self.new.passed ≡ 0 }
    {
        self.rewind();
        self.ring.bump(var.number());
    }

    /// Tells the order that variables may have lost their values: none is passed any more.
    pub fn rewind(&mut self)
        ensures index { self.new.index ≡ self.old.index }
        ensures list { self.new.list ≡ self.old.list }
        ensures room { self.new.room ≡ self.old.room }
        ensures passed { self.new.passed ≡ 0 }
    {
        // To the front, not as far as needed: the learned variables come to the front after each cut, and the walk is
        // short beside the batches of a conflict. Stamps would pay where many variables have values for good.
        self.passed = 0;
        self.mark = 0;
    }

    /// The variables in order.
    pub fn variables(&self) -> Result<Vec<Var>, AllocError>
        ensures { IfOk result (λ v. v.items ≡ self.now.list) }
    {
        let mut list = Vec::with_capacity(self.ring.allocator(), self.ring.len() as usize)?;
        let mut mark = 0;
        for _place in 0..self.ring.len() {
            mark = self.ring.next(mark);
            list.push_reserved(Var::of(mark));
        }
        Ok(list)
    }

    /// The number of variables.
    pub fn len(&self) -> usize
        ensures { result ≡ length self.now.list }
    {
        self.ring.len() as usize
    }
}

/// The share of a turn of n variables that the node of this index is turned by.
fn share(index: u32, n: u32) -> u32
    requires { index ≤ 63 }
    ensures { result ≡ index * n / 64 }
{
    (u64::from(index) * u64::from(n) / 64) as u32
}

/// Appends so many numbers from this one on, none of which is in the ring.
fn push_counted(ring: &mut Ring, first: u32, count: u32)
    requires some { 1 ≤ first }
    requires bound { first + count ≤ greatest_variable + 1 }
    requires places { first + count ≤ ring.old.places }
    requires few { length ring.old.list + count ≤ greatest_variable }
    requires new { (v : ℕ) → first ≤ v → v < first + count → IsApart v ring.old.list }
    ensures places { ring.new.places ≡ ring.old.places }
    ensures list { ring.new.list ≡ ring.old.list ++ counted first count }
    ensures room { ring.new.room ≡ ring.old.room }
{
    for place in 0..count {
        ring.push(first + place);
    }
}
