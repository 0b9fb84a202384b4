//! What stands after slices, nodes and answers.

ghost use Rattle.std.specs.Prelude.{◌≡◌, drop, flat_map, length};
ghost use Rattle.spec_parcel.specs.Packed.{answer_bytes};
ghost use Rattle.mal_parcel.specs.Taking.{Takes, behind_each, behind_node, behind_number, behind_slice, placed_at, told_at};

use crate::sized::{take_number, take_sized};
use crate::slices::take_ends;
use mal_base::Answer;

/// Whether the slice at the front ends a revision, the text of its lines, and what stands after it.
pub fn take_told(bytes: &[u8]) -> Option<(bool, &[u8], &[u8])>
    ensures { Takes (λ x. (x.0, (x.1.now, x.2.now))) result (told_at bytes.now) }
{
    let (ends, rest) = take_ends(bytes)?;
    let rest = behind_number(rest)?;
    let (text, rest) = take_sized(rest)?;
    Some((ends, text, rest))
}

/// What stands after the number at the front.
pub fn behind_number(bytes: &[u8]) -> Option<&[u8]>
    ensures { Takes (λ x. x.now) result (behind_number bytes.now) }
{
    let (_, rest) = take_number(bytes)?;
    Some(rest)
}

/// What stands after the slice at the front.
fn behind_slice(bytes: &[u8]) -> Option<&[u8]>
    ensures { Takes (λ x. x.now) result (behind_slice bytes.now) }
{
    let (_, _, rest) = take_told(bytes)?;
    Some(rest)
}

/// What stands after so many slices.
pub fn behind_slices(count: u64, bytes: &[u8]) -> Option<&[u8]>
    ensures { Takes (λ x. x.now) result (behind_each behind_slice count bytes.now) }
{
    let mut rest = bytes;
    for _ in 0..count {
        rest = behind_slice(rest)?;
    }
    Some(rest)
}

/// The index and the image of the node at the front, and what stands after them.
pub fn take_placed(bytes: &[u8]) -> Option<(u64, &[u8], &[u8])>
    ensures { Takes (λ x. (x.0, (x.1.now, x.2.now))) result (placed_at bytes.now) }
{
    let (index, rest) = take_number(bytes)?;
    let (image, rest) = take_sized(rest)?;
    Some((index, image, rest))
}

/// What stands after the node at the front.
fn behind_node(bytes: &[u8]) -> Option<&[u8]>
    ensures { Takes (λ x. x.now) result (behind_node bytes.now) }
{
    let (_, _, rest) = take_placed(bytes)?;
    Some(rest)
}

/// What stands after so many nodes.
pub fn behind_nodes(count: u64, bytes: &[u8]) -> Option<&[u8]>
    ensures { Takes (λ x. x.now) result (behind_each behind_node count bytes.now) }
{
    let mut rest = bytes;
    for _ in 0..count {
        rest = behind_node(rest)?;
    }
    Some(rest)
}

/// What stands after the bytes of these answers, none where there are fewer.
pub fn behind_answers<'a>(bytes: &'a [u8], answers: &[Answer]) -> &'a [u8]
    ensures { result.now ≡ drop (length (flat_map answer_bytes answers.now)) bytes.now }
{
    let mut rest = bytes;
    for answer in answers {
        rest = behind_answer(rest, answer);
    }
    rest
}

/// What stands after the bytes of an answer.
fn behind_answer<'a>(bytes: &'a [u8], answer: &Answer) -> &'a [u8]
    ensures { result.now ≡ drop (length (answer_bytes answer.now)) bytes.now }
{
    let (_, rest) = bytes.split_at(width(answer).min(bytes.len()));
    rest
}

/// How many bytes an answer takes.
#[tactic(auto, unfolding(mal_freeze::specs::Spelling::spelled))]
fn width(answer: &Answer) -> usize
    ensures { result ≡ length (answer_bytes answer.now) }
{
    match answer {
        Answer::Satisfied(model) => model.as_slice().len() + 1,
        Answer::Refuted { .. } => 9,
        Answer::Spent(_) => 1,
        Answer::OutOfStarts => 1,
    }
}
