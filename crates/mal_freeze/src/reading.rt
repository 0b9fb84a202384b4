//! Reading the fields of an image from front to back. `total` is the length of the whole text.

ghost use Rattle.std.specs.Prelude.{◌≡◌, ℕ, ◌≤◌, ◌+◌, ◌-◌, ◌*◌, ◌<◌, List, Result, length, IfOk};
ghost use Rattle.std.specs.Int.{w32, w64};
ghost use Rattle.mal_base.specs.Limits.{greatest_variable, limits};
ghost use Rattle.mal_freeze.specs.{declared.fault.ThawFault.{ThawFault}, declared.fault.ThawFault.TheVariants.{BadField}, Reading.{Gives, place_of, number_at, ranged_at, byte_at, many_at, counted_at, literal_at, variable_at, number_in, phase_at, entry_at, clause_at, profile_at, dropping_at, head_at, search_at, ended_at, lists_at, fields_at}};

use crate::fault::ThawFault;
use crate::fields::{Ended, Fields, Head, Lists, Search};
use crate::form::{Form, profile_named};
use crate::numbered::Numbered;
use mal_base::{ClauseId, LIMITS, Lit, Profile, TrailEntry, Var};
use smallvec::SmallVec;
use std::alloc::Global;

/// The fault of a field that begins where these bytes do.
fn bad_field(total: usize, bytes: &[u8]) -> ThawFault
    ensures { result ≡ BadField (place_of total bytes.now) }
{
    ThawFault::BadField {
        // The length of the whole text less that of what is left from the field on; no place is counted.
        place: total.saturating_sub(bytes.len()),
    }
}

/// The 4 bytes at the front as a number, and the bytes after them.
#[tactic(auto, unfolding(crate::specs::Reading::number_at))]
fn u32_at(bytes: &[u8]) -> Result<(u32, &[u8]), ThawFault>
    ensures { Gives (λ x. (x.0, x.1.now)) result (number_at w32 bytes.now) }
{
    if bytes.len() < 4 {
        return Err(ThawFault::Truncated);
    }
    let (front, rest) = bytes.split_at(4);
    let number = u32::from_be_bytes([front[0], front[1], front[2], front[3]]);
    Ok((number, rest))
}

/// The 8 bytes at the front as a number, and the bytes after them.
#[tactic(auto, unfolding(crate::specs::Reading::number_at))]
fn u64_at(bytes: &[u8]) -> Result<(u64, &[u8]), ThawFault>
    ensures { Gives (λ x. (x.0, x.1.now)) result (number_at w64 bytes.now) }
{
    if bytes.len() < 8 {
        return Err(ThawFault::Truncated);
    }
    let (front, rest) = bytes.split_at(8);
    let number = u64::from_be_bytes([
        front[0], front[1], front[2], front[3], front[4], front[5], front[6], front[7],
    ]);
    Ok((number, rest))
}

/// The number of 4 bytes at the front, which is from `low` to `high`.
#[tactic(auto, unfolding(crate::specs::Reading::ranged_at))]
fn u32_within(total: usize, low: u32, high: u32, bytes: &[u8]) -> Result<(u32, &[u8]), ThawFault>
    ensures value { Gives (λ x. (x.0, x.1.now)) result (ranged_at total w32 low high bytes.now) }
    ensures low { IfOk result (λ x. low ≤ x.0) }
    ensures high { IfOk result (λ x. x.0 ≤ high) }
{
    let (number, rest) = u32_at(bytes)?;
    if number < low || high < number {
        return Err(bad_field(total, bytes));
    }
    Ok((number, rest))
}

/// The number of 8 bytes at the front, which is from `low` to `high`.
#[tactic(auto, unfolding(crate::specs::Reading::ranged_at))]
fn u64_within(total: usize, low: u64, high: u64, bytes: &[u8]) -> Result<(u64, &[u8]), ThawFault>
    ensures { Gives (λ x. (x.0, x.1.now)) result (ranged_at total w64 low high bytes.now) }
{
    let (number, rest) = u64_at(bytes)?;
    if number < low || high < number {
        return Err(bad_field(total, bytes));
    }
    Ok((number, rest))
}

/// The byte at the front, which is up to `high`.
#[tactic(auto, unfolding(crate::specs::Reading::byte_at))]
fn u8_within(total: usize, high: u8, bytes: &[u8]) -> Result<(u8, &[u8]), ThawFault>
    ensures { Gives (λ x. (x.0, x.1.now)) result (byte_at total high bytes.now) }
{
    match bytes {
        [] => Err(ThawFault::Truncated),
        [byte, rest @ ..] => {
            if high < *byte {
                return Err(bad_field(total, bytes));
            }
            Ok((*byte, rest))
        }
    }
}

/// The literal of this code, which is twice that of a variable, or one more.
fn literal_of(code: u32) -> Lit
    requires low { 2 ≤ code }
    requires high { code < 2 * greatest_variable + 2 }
    ensures { result ≡ code }
{
    Var::of(code / 2).literal(code % 2 == 0)
}

/// The number of a clause, none for 0.
fn number_of(number: u64) -> Option<ClauseId>
    ensures { result ≡ number_in number }
{
    ClauseId::of(number)
}

/// So many literals of the variables up to the greatest.
fn literals(
    alloc: Global,
    total: usize,
    greatest: u32,
    count: u32,
    bytes: &[u8],
) -> Result<(SmallVec<Lit, 4>, &[u8]), ThawFault>
    requires { greatest ≤ greatest_variable }
    ensures { Gives (λ x. (x.0.items, x.1.now)) result (many_at (literal_at total greatest) count bytes.now) }
{
    let mut all = SmallVec::new(alloc);
    let mut rest = bytes;
    for _ in 0..count {
        let (code, after) = u32_within(total, 2, 2 * greatest + 1, rest)?;
        all.reserve(1)?;
        all.push_reserved(literal_of(code));
        rest = after;
    }
    Ok((all, rest))
}

/// A count up to the greatest variable, and so many literals.
#[tactic(auto, unfolding(crate::specs::Reading::counted_at))]
fn counted_literals(
    alloc: Global,
    total: usize,
    greatest: u32,
    bytes: &[u8],
) -> Result<(SmallVec<Lit, 4>, &[u8]), ThawFault>
    requires { greatest ≤ greatest_variable }
    ensures { Gives
        (λ x. (x.0.items, x.1.now)) result (counted_at total greatest (literal_at total greatest) bytes.now) }
{
    let (count, rest) = u32_within(total, 0, greatest, bytes)?;
    literals(alloc, total, greatest, count, rest)
}

/// A field of which an image has lists. `greatest` is the greatest variable.
trait Field: Drop {
    /// What the field at the front of these bytes is read to, with the bytes after it, or the fault.
    ghost at: { ℕ → ℕ → List ℕ → Result (Self × List ℕ) ThawFault };

    /// The field at the front, and the bytes after it.
    fn read(
        alloc: Global,
        total: usize,
        greatest: u32,
        bytes: &[u8],
    ) -> Result<(Self, &[u8]), ThawFault>
        requires { greatest ≤ greatest_variable }
        ensures { Gives (λ x. (x.0, x.1.now)) result (at total greatest bytes.now) };
}

impl Field for Lit {
    ghost at = { literal_at };

    fn read(
        _alloc: Global,
        total: usize,
        greatest: u32,
        bytes: &[u8],
    ) -> Result<(Lit, &[u8]), ThawFault> {
        let (code, rest) = u32_within(total, 2, 2 * greatest + 1, bytes)?;
        Ok((literal_of(code), rest))
    }
}

impl Field for Var {
    ghost at = { variable_at };

    fn read(
        _alloc: Global,
        total: usize,
        greatest: u32,
        bytes: &[u8],
    ) -> Result<(Var, &[u8]), ThawFault> {
        let (number, rest) = u32_within(total, 1, greatest, bytes)?;
        Ok((Var::of(number), rest))
    }
}

/// A phase.
impl Field for bool {
    ghost at = { λ total greatest bytes. phase_at total bytes };

    #[tactic(auto, unfolding(crate::specs::Reading::phase_at))]
    fn read(
        _alloc: Global,
        total: usize,
        _greatest: u32,
        bytes: &[u8],
    ) -> Result<(bool, &[u8]), ThawFault> {
        let (code, rest) = u8_within(total, 1, bytes)?;
        Ok((code == 1, rest))
    }
}

impl Field for TrailEntry {
    ghost at = { entry_at };

    #[tactic(auto, unfolding(crate::specs::Reading::entry_at))]
    fn read(
        _alloc: Global,
        total: usize,
        greatest: u32,
        bytes: &[u8],
    ) -> Result<(TrailEntry, &[u8]), ThawFault> {
        let (code, rest) = u32_within(total, 2, 2 * greatest + 1, bytes)?;
        let (reason, rest) = u64_at(rest)?;
        let (level, rest) = u32_at(rest)?;
        Ok((
            TrailEntry {
                lit: literal_of(code),
                reason: number_of(reason),
                level,
            },
            rest,
        ))
    }
}

impl Field for Numbered {
    ghost at = { clause_at };

    #[tactic(auto, unfolding(crate::specs::Reading::clause_at))]
    fn read(
        alloc: Global,
        total: usize,
        greatest: u32,
        bytes: &[u8],
    ) -> Result<(Numbered, &[u8]), ThawFault> {
        let (number, rest) = u64_at(bytes)?;
        let (lits, rest) = counted_literals(alloc, total, greatest, rest)?;
        Ok((Numbered::new(number, lits), rest))
    }
}

/// So many fields.
fn many<F: Field>(
    alloc: Global,
    total: usize,
    greatest: u32,
    count: u32,
    bytes: &[u8],
) -> Result<(Vec<F>, &[u8]), ThawFault>
    requires { greatest ≤ greatest_variable }
    ensures { Gives (λ x. (x.0.items, x.1.now)) result (many_at (F.at total greatest) count bytes.now) }
{
    let mut all = Vec::new(alloc);
    let mut rest = bytes;
    for _ in 0..count {
        let (one, after) = match F::read(alloc, total, greatest, rest) {
            Ok(read) => read,
            Err(fault) => return Err(fault),
        };
        all.reserve(1)?;
        all.push_reserved(one);
        rest = after;
    }
    Ok((all, rest))
}

/// A count up to the most, and so many fields.
#[tactic(auto, unfolding(crate::specs::Reading::counted_at))]
fn counted<F: Field>(
    alloc: Global,
    total: usize,
    greatest: u32,
    most: u32,
    bytes: &[u8],
) -> Result<(Vec<F>, &[u8]), ThawFault>
    requires { greatest ≤ greatest_variable }
    ensures { Gives (λ x. (x.0.items, x.1.now)) result (counted_at total most (F.at total greatest) bytes.now) }
{
    let (count, rest) = u32_within(total, 0, most, bytes)?;
    many(alloc, total, greatest, count, rest)
}

/// The profile that the first 8 bytes name, and what stands after them.
#[tactic(auto, unfolding(crate::specs::Reading::profile_at))]
fn profile(bytes: &[u8]) -> Result<(Profile, &[u8]), ThawFault>
    ensures { Gives (λ x. (x.0, x.1.now)) result (profile_at bytes.now) }
{
    let (number, rest) = u64_at(bytes)?;
    match profile_named(number) {
        None => Err(ThawFault::BadMagic),
        Some(profile) => Ok((profile, rest)),
    }
}

/// The conflicts since the last dropping, which stand where the profile counts them.
#[tactic(auto, unfolding(crate::specs::Reading::dropping_at))]
fn dropping(profile: Profile, bytes: &[u8]) -> Result<(u32, &[u8]), ThawFault>
    ensures { Gives (λ x. (x.0, x.1.now)) result (dropping_at profile bytes.now) }
{
    if Form::of(profile).counts {
        u32_at(bytes)
    } else {
        Ok((0, bytes))
    }
}

/// The index, the variables, the serial, and the conflicts since the last restart.
#[tactic(auto, unfolding(crate::specs::Reading::head_at))]
fn head(total: usize, bytes: &[u8]) -> Result<(Head, &[u8]), ThawFault>
    ensures value { Gives (λ x. (x.0, x.1.now)) result (head_at total bytes.now) }
    ensures bound { IfOk result (λ x. x.0.variables ≤ limits.variables) }
{
    let (index, rest) = u32_within(total, 0, 63, bytes)?;
    let (variables, rest) = u32_within(total, 0, LIMITS.variables, rest)?;
    let (serial, rest) = u64_within(total, 0, (1 << 57) - 1, rest)?;
    let (conflicts_since_restart, rest) = u32_at(rest)?;
    Ok((
        Head {
            index,
            variables,
            serial,
            conflicts_since_restart,
        },
        rest,
    ))
}

/// The number of the restart, the conflicts since the last dropping, the batches handled, and the waiting conflict.
#[tactic(auto, unfolding(crate::specs::Reading::search_at))]
fn search(total: usize, profile: Profile, bytes: &[u8]) -> Result<(Search, &[u8]), ThawFault>
    ensures { Gives (λ x. (x.0, x.1.now)) result (search_at total profile bytes.now) }
{
    let (restart_number, rest) = u32_within(total, 1, u32::MAX, bytes)?;
    let (conflicts_since_dropping, rest) = dropping(profile, rest)?;
    let (processed, rest) = u32_at(rest)?;
    let (conflict, rest) = u64_at(rest)?;
    Ok((
        Search {
            restart_number,
            conflicts_since_dropping,
            processed,
            conflict: number_of(conflict),
        },
        rest,
    ))
}

/// The code of the verdict, and the goal.
#[tactic(auto, unfolding(crate::specs::Reading::ended_at))]
fn ended(total: usize, bytes: &[u8]) -> Result<(Ended, &[u8]), ThawFault>
    ensures { Gives (λ x. (x.0, x.1.now)) result (ended_at total bytes.now) }
{
    let (code, rest) = u8_within(total, 2, bytes)?;
    let (goal, rest) = u64_at(rest)?;
    Ok((Ended { code, goal }, rest))
}

/// The lists, of the variables up to the greatest.
#[tactic(auto, unfolding(crate::specs::Reading::lists_at))]
fn lists(
    alloc: Global,
    total: usize,
    greatest: u32,
    bytes: &[u8],
) -> Result<(Lists, &[u8]), ThawFault>
    requires { greatest ≤ greatest_variable }
    ensures { Gives (λ x. (x.0, x.1.now)) result (lists_at total greatest bytes.now) }
{
    let (assumptions, rest) = counted::<Lit>(alloc, total, greatest, greatest, bytes)?;
    let (order, rest) = many::<Var>(alloc, total, greatest, greatest, rest)?;
    let (phases, rest) = many::<bool>(alloc, total, greatest, greatest, rest)?;
    let (trail, rest) = counted::<TrailEntry>(alloc, total, greatest, greatest, rest)?;
    let (clauses, rest) = counted::<Numbered>(alloc, total, greatest, u32::MAX, rest)?;
    Ok((
        Lists {
            assumptions,
            order,
            phases,
            trail,
            clauses,
        },
        rest,
    ))
}

/// All fields of an image, and how many bytes are left over.
#[tactic(auto, unfolding(crate::specs::Reading::fields_at))]
pub fn fields(alloc: Global, bytes: &[u8]) -> Result<Fields, ThawFault>
    ensures { Gives (λ x. x) result (fields_at (length bytes.now) bytes.now) }
{
    let total = bytes.len();
    let (profile, rest) = profile(bytes)?;
    let (head, rest) = head(total, rest)?;
    let (search, rest) = match search(total, profile, rest) {
        Ok(read) => read,
        Err(fault) => return Err(fault),
    };
    let (ended, rest) = ended(total, rest)?;
    let (lists, rest) = match lists(alloc, total, head.variables, rest) {
        Ok(read) => read,
        Err(fault) => return Err(fault),
    };
    Ok(Fields {
        profile,
        head,
        search,
        ended,
        lists,
        left: rest.len(),
    })
}
