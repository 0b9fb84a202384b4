//! Orders whose first variables are known.

use mal_base::Var;
use mal_order::Order;
use mal_trail::Trail;
use std::alloc::Global;

/// The number of a variable, 0 for none.
fn number_of(var: Option<Var>) -> u32 {
    match var {
        None => 0,
        Some(var) => var.number(),
    }
}

/// The number of the variable that is free first, asked twice, 0 where each has a value. The second time it is looked for
/// from the search mark on.
fn first(order: &mut Order, trail: &Trail) -> [u32; 2] {
    order.rewind();
    let first = order.first_free(trail);
    let again = order.first_free(trail);
    [number_of(first), number_of(again)]
}

/// Appends variables to an order that has few.
fn append(order: &mut Order, n: u32) -> Option<()> {
    if order.len() > 100 || n > 100 {
        return None;
    }
    order.append(n).ok()
}

/// Moves a variable of the order to the front.
fn bump(order: &mut Order, var: Var) -> Option<()> {
    let list = order.variables().ok()?;
    if !list.iter().any(|w| *w == var) {
        return None;
    }
    order.bump(var);
    Some(())
}

/// A trail on which 4 is false.
fn without_four(alloc: Global) -> Option<Trail> {
    let mut trail = Trail::new(alloc);
    trail.reserve(5).ok()?;
    trail.push(Var::of(4).literal(false), None, 1);
    Some(trail)
}

/// Appends five variables in two parts, and moves 2 and then 4 to the front.
fn append_and_move(order: &mut Order) -> Option<()> {
    append(order, 3)?;
    append(order, 2)?;
    bump(order, Var::of(2))?;
    bump(order, Var::of(4))
}

/// The variables that are free first in an order, where none has a value and where 4 has one.
fn firsts(order: &mut Order, alloc: Global) -> Option<[[u32; 2]; 2]> {
    let four = without_four(alloc)?;
    let free = first(order, &Trail::new(alloc));
    Some([free, first(order, &four)])
}

#[test]
fn a_moved_variable_is_decided_next(rt: HostRuntime) {
    let mut order = Order::new(rt.alloc(), 0);
    assert!(rt; append_and_move(&mut order).is_some());
    assert!(rt; firsts(&mut order, rt.alloc()) == Some([[4, 4], [2, 2]]));
}

#[test]
fn an_order_without_variables_has_no_first(rt: HostRuntime) {
    let mut order = Order::new(rt.alloc(), 0);
    assert!(rt; first(&mut order, &Trail::new(rt.alloc())) == [0, 0]);
}

/// Whether an order has this list.
fn has_list(order: &Order, list: &[Var]) -> bool {
    match order.variables() {
        Err(_) => false,
        Ok(again) => again.as_slice() == list,
    }
}

/// Whether an order has this list, and the variables that are free first where none has a value.
fn shown(order: &mut Order, alloc: Global, list: &[Var]) -> (bool, [u32; 2]) {
    let has_list = has_list(order, list);
    (has_list, first(order, &Trail::new(alloc)))
}

/// The same of the order of a list.
fn listed(alloc: Global) -> Option<(bool, [u32; 2])> {
    let list = [Var::of(2), Var::of(3), Var::of(1)];
    let mut order = Order::of_list(alloc, 5, &list).ok()?;
    Some(shown(&mut order, alloc, &list))
}

#[test]
fn a_list_comes_back_in_its_order(rt: HostRuntime) {
    assert!(rt; listed(rt.alloc()) == Some((true, [2, 2])));
}
