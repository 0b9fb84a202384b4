//! Jobs whose fair volumes are known.

ghost use Rattle.std.specs.Prelude.{◌≤◌};

use mal_balance::fair;
use mal_base::Ask;
use std::alloc::Global;
use std::test::Fail;

fn ask(priority: i64, demand: i64) -> Result<Ask, Fail> {
    Ok(Ask::of(priority, demand, 1).ok_or("out of range")?)
}

/// Whether jobs with these priorities and demands get these volumes of so many workers.
fn get(alloc: Global, workers: u32, jobs: &[(i64, i64)], known: &[u32]) -> Result<bool, Fail>
    requires some { 1 ≤ workers }
    requires bound { workers ≤ 64 }
{
    let mut asks = Vec::new(alloc);
    for (priority, demand) in jobs {
        asks.push(ask(*priority, *demand)?)?;
    }
    let mut out = vec![in alloc; 9; asks.len()]?;
    fair(asks.as_slice(), workers, out.as_mut_slice());
    Ok(out.as_slice() == known)
}

#[test]
fn volumes_are_fair(rt: HostRuntime) -> Result<(), Fail> {
    let alloc = rt.alloc();
    // Higher priorities get more.
    assert!(rt; get(alloc, 8, &[(4, 8), (2, 8), (1, 8)], &[5, 2, 1])?);
    // No job gets more than it asks.
    assert!(rt; get(alloc, 8, &[(7, 2), (7, 8)], &[2, 6])?);
    // Jobs after the workers get none.
    assert!(rt; get(alloc, 2, &[(1, 8), (1, 8), (9, 8)], &[1, 1, 0])?);
    // Ties go to the earlier job.
    assert!(rt; get(alloc, 8, &[(4, 8), (2, 8), (4, 8)], &[3, 2, 3])?);
    // No jobs get nothing.
    assert!(rt; get(alloc, 8, &[], &[])?);
    Ok(())
}

#[test]
fn many_jobs_share_64_workers(rt: HostRuntime) -> Result<(), Fail> {
    let jobs = [ask(1000, 64)?; 4096];
    let mut out = [9; 4096];
    fair(&jobs, 64, &mut out);
    assert!(rt; out.iter().take(64).all(|v| *v == 1));
    assert!(rt; out.iter().skip(64).all(|v| *v == 0));
    Ok(())
}
