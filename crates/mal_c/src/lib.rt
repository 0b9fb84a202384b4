//! The incremental solver for C: one function a call, each of a handle, which is a pointer that is null where there is
//! no solver.
//!
//! What is proved of each is its contract, over the value of the handle's solver: what it was given, what it answered, and
//! what an answer promises. Misuse has an answer too: a call on a null handle gives 0, false or -1 and changes nothing; what
//! is no input is refused, and a solver that refused one answers nothing more.
//!
//! Nothing checks the caller. It has to
//!
//! - set a new handle to null, and hand in valid pointers, and slices of the length that it tells;
//! - never read, write or copy what a handle holds;
//! - give a handle to one call at a time, on the thread that made its solver, and to none in a signal handler;
//! - give all handles one heap, and let each solver go by `mal_release`.
#![tactic(auto)]

ghost use Rattle.std.specs.Prelude.{◌≡◌, ◌≢◌, pos, neg_ℤ, true, false, [], length, is_none, Some, None, IfSome, IsSomeAnd, MatchOption};
ghost use Rattle.spec_solving.specs.{Solving.{fresh, Promises}, Calls.{IsBegun, IsRun}};
ghost use Rattle.spec_solving.specs.declared.refusal.Refusal.TheVariants.{OpenClause};
ghost use Rattle.mal_solving.specs.Answers.{lines_of};
ghost use Rattle.mal_c.specs.Calls.{Goes, IsAdded, IsAssumed, HasModel, HasCore};
ghost use Rattle.mal_c.specs.Numbers.{value_of, failed_of, status_of, number_of_cause, line_of, numbers_of, laid};

mod calls;
mod handle;
mod lines;
mod loose;

use handle::Handle;
use mal_base::Profile;
use mal_solving::Solver;
use std::alloc::Global;

/// Makes a solver that was given nothing and keeps no proofs. One that was there is let go. The handle stays null where
/// there is no memory.
#[unsafe(no_mangle)]
pub extern "C" fn mal_init(alloc: Global, h: &mut Handle)
    ensures { IfSome h.new.value (λ s. s ≡ fresh false) }
{
    drop(h.take(alloc));
    match Box::new(alloc, Solver::new(alloc, Profile::Lean, false)) {
        Ok(solver) => h.put(alloc, solver),
        Err(_) => {}
    }
}

/// Lets the solver go. The handle is null then.
#[unsafe(no_mangle)]
pub extern "C" fn mal_release(alloc: Global, h: &mut Handle)
    ensures { h.new.value ≡ None }
{
    drop(h.take(alloc));
}

/// Has a solver that was given nothing keep proofs. False where it was given something, or there is none.
#[unsafe(no_mangle)]
pub extern "C" fn mal_proof_on(alloc: Global, h: &mut Handle) -> bool
    ensures on { result ≡ true → h.new.value ≡ Some (fresh true) }
    ensures before { result ≡ true → IsSomeAnd h.old.value (λ s. s ≡ fresh s.proving) }
    ensures kept { result ≡ false → h.new.value ≡ h.old.value }
{
    match h.take(alloc) {
        None => false,
        Some(mut solver) => {
            let fresh = solver.is_fresh();
            if fresh {
                *solver = Solver::new(alloc, Profile::Lean, true);
            }
            h.put(alloc, solver);
            fresh
        }
    }
}

/// Puts a literal into the open clause, or ends it by 0. What is no literal is refused.
#[unsafe(no_mangle)]
pub extern "C" fn mal_add(alloc: Global, h: &mut Handle, lit: i32)
    ensures { Goes (IsAdded lit) h.old.value h.new.value }
{
    match h.take(alloc) {
        None => {}
        Some(mut solver) => {
            calls::add(&mut solver, lit);
            h.put(alloc, solver);
        }
    }
}

/// Assumes a literal for the next answer. What is no literal is refused, 0 too.
#[unsafe(no_mangle)]
pub extern "C" fn mal_assume(alloc: Global, h: &mut Handle, lit: i32)
    ensures { Goes (IsAssumed lit) h.old.value h.new.value }
{
    match h.take(alloc) {
        None => {}
        Some(mut solver) => {
            calls::assume(&mut solver, lit);
            h.put(alloc, solver);
        }
    }
}

/// Asks for an answer under the assumptions since the last one. True where `mal_run` may be called, false where an input
/// was refused, as an open clause is here.
#[unsafe(no_mangle)]
pub extern "C" fn mal_begin(alloc: Global, h: &mut Handle) -> bool
    ensures begun { Goes IsBegun h.old.value h.new.value }
    ensures ready { MatchOption h.new.value (result ≡ false) (λ s. result ≡ is_none s.refused) }
    ensures promises { IfSome h.new.value (λ s. Promises s.proving s.clauses s.assumed s.answer) }
    ensures cause { IfSome h.old.value (λ s. IfSome h.new.value (λ t.
        t.refused ≡ Some OpenClause → s.refused ≢ Some OpenClause → s.open_clause ≢ [])) }
{
    match h.take(alloc) {
        None => false,
        Some(mut solver) => {
            let ready = calls::begin(&mut solver);
            h.put(alloc, solver);
            ready
        }
    }
}

/// Runs at most so many slices of the search. 10: the clauses have a model under the assumptions. 20: they have none.
/// 0: that is not known yet, or was not asked. -1: an input was refused, or there is no solver.
#[tactic(auto, using(crate::proofs::Promised::has_model, crate::proofs::Promised::has_core))]
#[unsafe(no_mangle)]
pub extern "C" fn mal_run(alloc: Global, h: &mut Handle, slices: u32) -> i32
    ensures run { Goes IsRun h.old.value h.new.value }
    ensures status { MatchOption h.new.value (result ≡ neg_ℤ (pos 1)) (λ s. result ≡ status_of s) }
    ensures model { result ≡ pos 10 → IsSomeAnd h.new.value (λ s. HasModel s) }
    ensures core { result ≡ pos 20 → IsSomeAnd h.new.value (λ s. HasCore s) }
    ensures refused { IfSome h.new.value (λ s. s.refused ≢ None → result ≡ neg_ℤ (pos 1)) }
{
    match h.take(alloc) {
        None => -1,
        Some(mut solver) => {
            solver.run(slices);
            let status = calls::status(&solver);
            h.put(alloc, solver);
            status
        }
    }
}

/// The literal where it is true in the model, its negation where that is true, 0 where there is no model or it has no
/// value there.
#[unsafe(no_mangle)]
pub extern "C" fn mal_val(alloc: Global, h: &mut Handle, lit: i32) -> i32
    ensures value { MatchOption h.old.value (result ≡ pos 0) (λ s. result ≡ value_of lit s.answer) }
    ensures kept { h.new.value ≡ h.old.value }
{
    match h.take(alloc) {
        None => 0,
        Some(solver) => {
            let value = calls::value(&solver, lit);
            h.put(alloc, solver);
            value
        }
    }
}

/// Whether a literal is one of the failed assumptions.
#[unsafe(no_mangle)]
pub extern "C" fn mal_failed(alloc: Global, h: &mut Handle, lit: i32) -> bool
    ensures failed { MatchOption h.old.value (result ≡ false) (λ s. result ≡ failed_of lit s.answer) }
    ensures kept { h.new.value ≡ h.old.value }
{
    match h.take(alloc) {
        None => false,
        Some(solver) => {
            let failed = calls::has_failed(&solver, lit);
            h.put(alloc, solver);
            failed
        }
    }
}

/// Why an input was refused: 1 no literal, 2 a clause is open, 3 a limit was passed, 4 out of memory. 0 where none was.
#[unsafe(no_mangle)]
pub extern "C" fn mal_refusal(alloc: Global, h: &mut Handle) -> u32
    ensures cause { MatchOption h.old.value (result ≡ 0) (λ s. result ≡ number_of_cause s.refused) }
    ensures kept { h.new.value ≡ h.old.value }
{
    match h.take(alloc) {
        None => 0,
        Some(solver) => {
            let cause = calls::cause(&solver);
            h.put(alloc, solver);
            cause
        }
    }
}

/// How many lines the refutation has: none where proofs are not kept.
#[unsafe(no_mangle)]
pub extern "C" fn mal_lines(alloc: Global, h: &mut Handle) -> usize
    ensures lines { MatchOption h.old.value (result ≡ 0) (λ s. result ≡ length (lines_of s.answer)) }
    ensures kept { h.new.value ≡ h.old.value }
{
    match h.take(alloc) {
        None => 0,
        Some(solver) => {
            let lines = calls::lines(&solver);
            h.put(alloc, solver);
            lines
        }
    }
}

/// Writes a line of the refutation, the lines counted from 0: its number, its literals, 0, its hints, 0. What `out` has
/// no room for is cut. Tells how many numbers the line has, 0 where there is no such line.
#[unsafe(no_mangle)]
pub extern "C" fn mal_line(alloc: Global, h: &mut Handle, n: usize, out: &mut [i64]) -> usize
    ensures line { MatchOption (line_of n h.old.value)
        ((result ≡ 0) × (out.new ≡ out.old))
        (λ line. (result ≡ length (numbers_of line)) × (out.new ≡ laid 0 (numbers_of line) out.old)) }
    ensures kept { h.new.value ≡ h.old.value }
{
    match h.take(alloc) {
        None => 0,
        Some(solver) => {
            let count = calls::line(&solver, n, out);
            h.put(alloc, solver);
            count
        }
    }
}
