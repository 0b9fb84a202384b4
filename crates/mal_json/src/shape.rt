//! What the values of a description have to look like.

ghost use Rattle.std.specs.Prelude.{◌≡◌, codes, false, is_some, if◌then◌else◌, map, true, MatchOption};
ghost use Rattle.std.specs.List.{list_all};
ghost use Rattle.serde_json.specs.{Find.{get}, View.{view}};
ghost use Rattle.spec_json.specs.Shape.{at, has, has_ask_shape, has_job_frame, is_document_shape, is_job_shape, is_list, is_list_of, is_name_text, is_numbers, is_revision, is_revision_shape, is_step_shape, is_weight_shape, is_whole, items_in, key_count, may_have, text_in};

use mal_base::Name;
use serde_json::Value;

/// How many keys an object has; 0 of another value.
#[tactic(auto, using(crate::proofs::Items::keys_of))]
fn key_count(value: &Value) -> usize
    ensures { result ≡ key_count (view value.now) }
{
    match value.as_object() {
        None => 0,
        Some(members) => members.len(),
    }
}

/// The values of a list; none of another value.
#[tactic(auto, using(crate::proofs::Items::values_of))]
pub fn items(value: &Value) -> &[Value]
    ensures { map view result.now ≡ items_in (view value.now) }
{
    match value.as_array() {
        None => &[],
        Some(list) => list.as_slice(),
    }
}

/// Whether a value is a whole number within 64 signed bits.
fn is_whole(value: &Value) -> bool
    ensures { result ≡ is_whole (view value.now) }
{
    value.is_i64()
}

/// Whether a value is a list.
fn is_list(value: &Value) -> bool
    ensures { result ≡ is_list (view value.now) }
{
    value.is_array()
}

/// Whether these are whole numbers.
fn are_whole(values: &[Value]) -> bool
    ensures { result ≡ list_all (λ v. is_whole (view v)) values.now }
{
    values.iter().all(|value| is_whole(value))
}

/// Whether a value is a list of whole numbers.
fn is_numbers(value: &Value) -> bool
    ensures { result ≡ is_numbers (view value.now) }
{
    is_list(value) && are_whole(items(value))
}

/// Whether these are lists of whole numbers.
fn are_numbers(values: &[Value]) -> bool
    ensures { result ≡ list_all (λ v. is_numbers (view v)) values.now }
{
    values.iter().all(|value| is_numbers(value))
}

/// Whether a value is a list of lists of whole numbers.
fn is_clauses(value: &Value) -> bool
    ensures { result ≡ is_list_of is_numbers (view value.now) }
{
    is_list(value) && are_numbers(items(value))
}

/// Whether a whole number stands under a key.
fn has_whole(value: &Value, key: &str) -> bool
    ensures { result ≡ has is_whole key.now (view value.now) }
{
    match value.get(key) {
        None => false,
        Some(found) => is_whole(found),
    }
}

/// Whether a list of whole numbers stands under a key.
fn has_numbers(value: &Value, key: &str) -> bool
    ensures { result ≡ has is_numbers key.now (view value.now) }
{
    match value.get(key) {
        None => false,
        Some(found) => is_numbers(found),
    }
}

/// Whether a list of lists of whole numbers stands under a key.
fn has_clauses(value: &Value, key: &str) -> bool
    ensures { result ≡ has (is_list_of is_numbers) key.now (view value.now) }
{
    match value.get(key) {
        None => false,
        Some(found) => is_clauses(found),
    }
}

/// Whether a value has three keys.
pub fn is_revision(value: &Value) -> bool
    ensures { result ≡ is_revision (view value.now) }
{
    key_count(value) == 3
}

/// Whether a value has exactly variables, clauses and assumptions.
fn is_revision_shape(value: &Value) -> bool
    ensures { result ≡ is_revision_shape (view value.now) }
{
    is_revision(value)
        && (has_whole(value, "variables")
            && (has_clauses(value, "clauses") && has_numbers(value, "assumptions")))
}

/// Whether a value has exactly priority and demand.
fn is_weight_shape(value: &Value) -> bool
    ensures { result ≡ is_weight_shape (view value.now) }
{
    key_count(value) == 2 && (has_whole(value, "priority") && has_whole(value, "demand"))
}

/// Whether a value has the shape of a step.
fn is_step_shape(value: &Value) -> bool
    ensures { result ≡ is_step_shape (view value.now) }
{
    is_revision_shape(value) || is_weight_shape(value)
}

/// Whether these have the shape of steps.
fn are_step_shapes(values: &[Value]) -> bool
    ensures { result ≡ list_all (λ v. is_step_shape (view v)) values.now }
{
    values.iter().all(|value| is_step_shape(value))
}

/// Whether a value is a list of steps.
fn is_steps(value: &Value) -> bool
    ensures { result ≡ is_list_of is_step_shape (view value.now) }
{
    is_list(value) && are_step_shapes(items(value))
}

/// Whether a list of steps stands under a key.
fn has_steps(value: &Value, key: &str) -> bool
    ensures { result ≡ has (is_list_of is_step_shape) key.now (view value.now) }
{
    match value.get(key) {
        None => false,
        Some(found) => is_steps(found),
    }
}

/// Whether a list stands under a key.
fn has_list(value: &Value, key: &str) -> bool
    ensures { result ≡ has is_list key.now (view value.now) }
{
    match value.get(key) {
        None => false,
        Some(found) => is_list(found),
    }
}

/// Whether a whole number stands under a key, or the key is not there.
fn may_have_whole(value: &Value, key: &str) -> bool
    ensures { result ≡ may_have is_whole key.now (view value.now) }
{
    match value.get(key) {
        None => true,
        Some(found) => is_whole(found),
    }
}

/// The name that a value is. None exactly where it is none.
fn name(value: &Value) -> Option<Name>
    ensures { MatchOption result (is_name_text (view value.now) ≡ false)
        (λ n. (n ≡ text_in (view value.now)) × (is_name_text (view value.now) ≡ true)) }
{
    Name::of(value.as_str()?.as_bytes())
}

/// The name under a key. None exactly where there is none.
fn name_at(value: &Value, key: &str) -> Option<Name>
    ensures { MatchOption result (has is_name_text key.now (view value.now) ≡ false)
        (λ n. (n ≡ text_in (at key.now (view value.now))) × (has is_name_text key.now (view value.now) ≡ true)) }
{
    name(value.get(key)?)
}

/// Whether a value has the numbers that a job asks for.
fn has_ask_shape(value: &Value) -> bool
    ensures { result ≡ has_ask_shape (view value.now) }
{
    (has_whole(value, "priority") && has_whole(value, "demand"))
        && (has_whole(value, "slices") && may_have_whole(value, "profile"))
}

/// How many keys a job has.
fn job_keys(value: &Value) -> usize
    ensures { result ≡ (if is_some (get (codes "profile") (view value.now)) then 7 else 6) }
{
    match value.get("profile") {
        None => 6,
        Some(_) => 7,
    }
}

/// Whether a value has as many keys as a job, and those that are no names.
fn has_job_frame(value: &Value) -> bool
    ensures { result ≡ has_job_frame (view value.now) }
{
    key_count(value) == job_keys(value) && (has_ask_shape(value) && has_steps(value, "steps"))
}

/// The tenant and the name of a job. None exactly where a value has not the shape of a job.
pub fn names(value: &Value) -> Option<(Name, Name)>
    ensures shape { MatchOption result (is_job_shape (view value.now) ≡ false)
        (λ n. is_job_shape (view value.now) ≡ true) }
    ensures tenant { MatchOption result (is_job_shape (view value.now) ≡ false)
        (λ n. n.0 ≡ text_in (at (codes "tenant") (view value.now))) }
    ensures name { MatchOption result (is_job_shape (view value.now) ≡ false)
        (λ n. n.1 ≡ text_in (at (codes "name") (view value.now))) }
{
    if !has_job_frame(value) {
        return None;
    }
    let tenant = name_at(value, "tenant")?;
    let name = name_at(value, "name")?;
    Some((tenant, name))
}

/// Whether a value has exactly jobs, a list.
pub fn is_document(value: &Value) -> bool
    ensures { result ≡ is_document_shape (view value.now) }
{
    key_count(value) == 1 && has_list(value, "jobs")
}
