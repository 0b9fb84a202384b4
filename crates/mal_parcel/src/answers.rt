//! The section of the answers.

ghost use Rattle.std.specs.Prelude.{◌≡◌, ◌==◌, ◌≤◌, [], ◌∷◌, ◌++◌, length, map, flat_map, IfOk, OnOk};
ghost use Rattle.mal_base.specs.Limits.{limits};
ghost use Rattle.mal_freeze.specs.Spelling.{phase_code};
ghost use Rattle.spec_parcel.specs.Packed.{answer_bytes, listed};
ghost use Rattle.mal_parcel.specs.{Answered.{answer_at, goal_at, model_at}, Taking.{Takes}};

use crate::sized::{put_length, put_number, take_number};
use mal_base::{Answer, ClauseId, Values};
use std::alloc::{AllocError, Global};

/// Puts how many answers there are, and then each of them, after the others.
pub fn put_answers(out: &mut Vec<u8>, answers: &[Answer]) -> Result<(), AllocError>
    ensures { OnOk result (out.new.items ≡ out.old.items ++ listed answer_bytes answers.now) }
{
    put_length(out, answers.len())?;
    put_each(out, answers)
}

/// Puts answers after the others.
fn put_each(out: &mut Vec<u8>, answers: &[Answer]) -> Result<(), AllocError>
    ensures { OnOk result (out.new.items ≡ out.old.items ++ flat_map answer_bytes answers.now) }
{
    for answer in answers {
        put_answer(out, answer)?;
    }
    Ok(())
}

/// Puts an answer after the others: its kind, and then its model or its goal.
pub fn put_answer(out: &mut Vec<u8>, answer: &Answer) -> Result<(), AllocError>
    ensures { OnOk result (out.new.items ≡ out.old.items ++ answer_bytes answer.now) }
{
    match answer {
        Answer::Satisfied(model) => {
            out.push(1)?;
            put_values(out, model.as_slice())
        }
        Answer::Refuted { goal } => {
            out.push(2)?;
            put_number(out, goal.number())
        }
        Answer::Spent(_) => put_byte(out, 3),
        Answer::OutOfStarts => put_byte(out, 4),
    }
}

/// Puts a byte after the others.
fn put_byte(out: &mut Vec<u8>, byte: u8) -> Result<(), AllocError>
    ensures { OnOk result (out.new.items ≡ out.old.items ++ byte ∷ []) }
{
    out.push(byte)?;
    Ok(())
}

/// Puts the values of a model after the others, 1 for true and 0 for false.
fn put_values(out: &mut Vec<u8>, values: &[bool]) -> Result<(), AllocError>
    ensures { OnOk result (out.new.items ≡ out.old.items ++ map phase_code values.now) }
{
    for value in values {
        put_byte(out, phase_code(*value))?;
    }
    Ok(())
}

/// 1 for true, 0 for false.
pub fn phase_code(value: bool) -> u8
    ensures { result ≡ phase_code value }
{
    if value { 1 } else { 0 }
}

/// The answer at the front, where it is a verdict, of a job with so many variables by then, and what stands after it.
/// None where no answer stands there.
pub fn take_answer(
    alloc: Global,
    variables: usize,
    bytes: &[u8],
) -> Result<Option<(Option<Answer>, &[u8])>, AllocError>
    requires { variables ≤ limits.variables }
    ensures { IfOk result (λ o. Takes (λ x. (x.0, x.1.now)) o (answer_at variables bytes.now)) }
{
    match bytes {
        [1, rest @ ..] => take_model(alloc, variables, rest),
        [2, rest @ ..] => Ok(take_goal(rest)),
        [3, rest @ ..] => Ok(Some((None, rest))),
        [4, rest @ ..] => Ok(Some((None, rest))),
        _ => Ok(None),
    }
}

/// The model of so many variables at the front, and what stands after it.
fn take_model(
    alloc: Global,
    variables: usize,
    bytes: &[u8],
) -> Result<Option<(Option<Answer>, &[u8])>, AllocError>
    requires { variables ≤ limits.variables }
    ensures { IfOk result (λ o. Takes (λ x. (x.0, x.1.now)) o (model_at variables bytes.now)) }
{
    if bytes.len() < variables {
        return Ok(None);
    }
    let (front, rest) = bytes.split_at(variables);
    let values = ones(alloc, front)?;
    Ok(Some((Some(Answer::Satisfied(Values::of(values))), rest)))
}

/// Which of these bytes are 1.
fn ones(alloc: Global, bytes: &[u8]) -> Result<Vec<bool>, AllocError>
    ensures values { IfOk result (λ v. v.items ≡ map (λ b. b == 1) bytes.now) }
    ensures count { IfOk result (λ v. length v.items ≡ length bytes.now) }
{
    let mut found = Vec::new(alloc);
    for byte in bytes {
        found.push(*byte == 1)?;
    }
    Ok(found)
}

/// The goal of 8 bytes at the front, and what stands after it.
fn take_goal(bytes: &[u8]) -> Option<(Option<Answer>, &[u8])>
    ensures { Takes (λ x. (x.0, x.1.now)) result (goal_at bytes.now) }
{
    let (number, rest) = take_number(bytes)?;
    let goal = ClauseId::of(number)?;
    Some((Some(Answer::Refuted { goal }), rest))
}
