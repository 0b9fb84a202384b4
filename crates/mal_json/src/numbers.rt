//! What the numbers of a description have to be.

ghost use Rattle.std.specs.Prelude.{◌≡◌, map};
ghost use Rattle.std.specs.List.{list_any};
ghost use Rattle.serde_json.specs.View.{view};
ghost use Rattle.spec_json.specs.Numbers.{ask_in, assumptions_in, clauses_in, has_number, is_above, is_none, profile_in, weight_in};
ghost use Rattle.spec_json.specs.Shape.{at, items_in, numbers_in, whole_in};

use crate::shape::items;
use mal_base::{Ask, Profile, Weight};
use serde_json::Value;

/// The whole number that a value is; 0 of another value.
pub fn whole(value: &Value) -> i64
    ensures { result ≡ whole_in (view value.now) }
{
    match value.as_i64() {
        None => 0,
        Some(number) => number,
    }
}

/// The whole number under a key; 0 where there is none.
pub fn whole_at(value: &Value, key: &str) -> i64
    ensures { result ≡ whole_in (at key.now (view value.now)) }
{
    match value.get(key) {
        None => 0,
        Some(found) => whole(found),
    }
}

/// The number of the profile that a job names: that of the first where it names none.
fn profile(value: &Value) -> i64
    ensures { result ≡ profile_in (view value.now) }
{
    let first = i64::from(Profile::Plain.number());
    match value.get("profile") {
        None => first,
        Some(found) => match found.as_i64() {
            None => first,
            Some(number) => number,
        },
    }
}

/// The values of the list under a key; none where there is no list.
pub fn items_at<'a>(value: &'a Value, key: &str) -> &'a [Value]
    ensures { map view result.now ≡ items_in (at key.now (view value.now)) }
{
    match value.get(key) {
        None => &[],
        Some(found) => items(found),
    }
}

/// What a job asks for. None exactly where a number is out of its range.
pub fn ask(value: &Value) -> Option<Ask>
    ensures { result ≡ ask_in (view value.now) }
{
    Ask::of_numbers(
        whole_at(value, "priority"),
        whole_at(value, "demand"),
        whole_at(value, "slices"),
        profile(value),
    )
}

/// The priority and the demand of a step. None exactly where one is out of its range.
pub fn weight(value: &Value) -> Option<Weight>
    ensures { result ≡ weight_in (view value.now) }
{
    Weight::of(whole_at(value, "priority"), whole_at(value, "demand"))
}

/// Whether a number is 0, which stands for no literal.
fn is_none(value: &Value) -> bool
    ensures { result ≡ is_none (whole_in (view value.now)) }
{
    whole(value).unsigned_abs() == 0
}

/// Whether a number stands for a literal of a variable above this one.
fn is_above(variables: u64, value: &Value) -> bool
    ensures { result ≡ is_above variables (whole_in (view value.now)) }
{
    variables < whole(value).unsigned_abs()
}

/// Whether one of these numbers is 0.
fn any_none(values: &[Value]) -> bool
    ensures { result ≡ list_any (λ v. is_none (whole_in (view v))) values.now }
{
    values.iter().any(|value| is_none(value))
}

/// Whether one of these numbers stands for a literal of a variable above this one.
fn any_above(variables: u64, values: &[Value]) -> bool
    ensures { result ≡ list_any (λ v. is_above variables (whole_in (view v))) values.now }
{
    values.iter().any(|value| is_above(variables, value))
}

/// Whether one of the numbers of a list is 0.
fn list_has_none(list: &Value) -> bool
    ensures { result ≡ list_any is_none (numbers_in (view list.now)) }
{
    any_none(items(list))
}

/// The same of a literal of a variable above this one.
fn list_has_above(variables: u64, list: &Value) -> bool
    ensures { result ≡ list_any (is_above variables) (numbers_in (view list.now)) }
{
    any_above(variables, items(list))
}

/// Whether one of the numbers of these lists is 0.
fn lists_have_none(lists: &[Value]) -> bool
    ensures { result ≡ list_any (λ v. list_any is_none (numbers_in (view v))) lists.now }
{
    lists.iter().any(|list| list_has_none(list))
}

/// The same of a literal of a variable above this one.
fn lists_have_above(variables: u64, lists: &[Value]) -> bool
    ensures { result ≡ list_any (λ v. list_any (is_above variables) (numbers_in (view v))) lists.now }
{
    lists.iter().any(|list| list_has_above(variables, list))
}

/// Whether one of the numbers of a step's clauses is 0.
fn clauses_have_none(value: &Value) -> bool
    ensures { result ≡ list_any (list_any is_none) (clauses_in (view value.now)) }
{
    lists_have_none(items_at(value, "clauses"))
}

/// The same of a literal of a variable above this one.
fn clauses_have_above(variables: u64, value: &Value) -> bool
    ensures { result ≡ list_any (list_any (is_above variables)) (clauses_in (view value.now)) }
{
    lists_have_above(variables, items_at(value, "clauses"))
}

/// Whether one of the numbers of a step's assumptions is 0.
fn assumptions_have_none(value: &Value) -> bool
    ensures { result ≡ list_any is_none (assumptions_in (view value.now)) }
{
    any_none(items_at(value, "assumptions"))
}

/// The same of a literal of a variable above this one.
fn assumptions_have_above(variables: u64, value: &Value) -> bool
    ensures { result ≡ list_any (is_above variables) (assumptions_in (view value.now)) }
{
    any_above(variables, items_at(value, "assumptions"))
}

/// Whether one of the numbers of a step's clauses or assumptions is 0.
pub fn has_none(value: &Value) -> bool
    ensures { result ≡ has_number is_none (clauses_in (view value.now)) (assumptions_in (view value.now)) }
{
    clauses_have_none(value) || assumptions_have_none(value)
}

/// The same of a literal of a variable above this one.
pub fn has_above(variables: u64, value: &Value) -> bool
    ensures { result
        ≡ has_number (is_above variables) (clauses_in (view value.now)) (assumptions_in (view value.now)) }
{
    clauses_have_above(variables, value) || assumptions_have_above(variables, value)
}
