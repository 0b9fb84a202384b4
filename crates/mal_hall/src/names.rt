//! Jobs by their names.

ghost use Rattle.std.specs.Prelude.{◌≡◌, ◌+◌, ◌<◌, ◌^◌, ◌&&◌, ℕ, List, None, Some, OnOk, OnErr, is_none, if◌then◌else◌};
ghost use Rattle.mal_hall.specs.Named.{found, jobs_at};
ghost use Rattle.spec_hall.specs.{Dressed.{keyed}, Own.{is_key, is_text}};
ghost use Rattle.spec_job.specs.KeyedJob.{Key};

use mal_base::Name;
use std::alloc::{AllocError, Global};
use std::collections::BTreeMap;

/// The numbers of jobs by their tenants and names, and how many names each tenant has.
#[derive(Drop)]
pub struct Names {
    numbers: BTreeMap<(Name, Name), u64>,
    tenants: BTreeMap<Name, usize>,
}

impl Names {
    /// No names.
    pub fn new(alloc: Global) -> Names
        ensures found { (k : Key) → found result.numbers k ≡ None }
        ensures jobs { (tenant : List ℕ) → jobs_at result.tenants tenant ≡ 0 }
    {
        Names {
            numbers: BTreeMap::new(alloc),
            tenants: BTreeMap::new(alloc),
        }
    }

    /// The number under which the job with this key came last.
    pub fn number_of(&self, tenant: Name, job: Name) -> Option<u64>
        ensures { result ≡ found self.now.numbers (keyed tenant job) }
    {
        self.numbers.get(&(tenant, job)).copied()
    }

    /// How many names a tenant has.
    pub fn jobs_of(&self, tenant: Name) -> usize
        ensures { result ≡ jobs_at self.now.tenants tenant }
    {
        match self.tenants.get(&tenant).copied() {
            None => 0,
            Some(jobs) => jobs,
        }
    }

    /// Notes the number of a job that comes. If memory runs out, what is found is as before.
    pub fn note(&mut self, tenant: Name, job: Name, number: u64) -> Result<(), AllocError>
        requires { jobs_at self.old.tenants tenant < 2 ^ 63 }
        ensures found { OnOk result
            ((k : Key)
            → found self.new.numbers k
            ≡ (if is_key (keyed tenant job) k then Some number else found self.old.numbers k)) }
        ensures jobs { OnOk result
            ((other : List ℕ)
            → jobs_at self.new.tenants other
            ≡ jobs_at self.old.tenants other
            + (if is_text tenant other && is_none (found self.old.numbers (keyed tenant job)) then 1 else 0)) }
        ensures same_found { OnErr result ((k : Key) → found self.new.numbers k ≡ found self.old.numbers k) }
        ensures same_jobs { OnErr result
            ((other : List ℕ) → jobs_at self.new.tenants other ≡ jobs_at self.old.tenants other) }
    {
        let jobs = self.jobs_of(tenant);
        match self.tenants.insert(tenant, jobs) {
            Ok(_) => {}
            Err(error) => return Err(error.into()),
        }
        match self.numbers.insert((tenant, job), number) {
            Ok(Some(_)) => return Ok(()),
            Ok(None) => {}
            Err(error) => return Err(error.into()),
        }
        match self.tenants.insert(tenant, jobs + 1) {
            Ok(_) => Ok(()),
            Err(_) => unreachable!(),
        }
    }
}
