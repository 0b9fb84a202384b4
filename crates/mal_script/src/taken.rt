//! Which names and places are taken by the jobs so far.

ghost use Rattle.std.specs.Prelude.{◌≡◌, ◌<◌, ◌^◌, ◌∷◌, ◌++◌, [], List, is_some, OnOk, OnErr};
ghost use Rattle.std.specs.{List.{list_any}, Str.{bytes_eq}};
ghost use Rattle.mal_script.specs.TakenNames.{AreTaken, jobs_at, kept_at};
ghost use Rattle.spec_script.specs.Script.{ScriptedJob};

use crate::script::ScriptJob;
use mal_base::Name;
use std::alloc::{AllocError, Global};
use std::collections::BTreeMap;

/// Whether a name is among these.
pub fn is_among(name: Name, names: &[Name]) -> bool
    ensures { result ≡ list_any (bytes_eq name) names.now }
{
    names.iter().any(|other| name == *other)
}

/// The names of jobs, each with the place of the job among those of its tenant, and how many jobs each tenant has. So
/// no job is gone over to find whether its name is taken.
#[derive(Drop)]
pub struct TakenNames {
    places: BTreeMap<(Name, Name), usize>,
    counts: BTreeMap<Name, usize>,
}

impl TakenNames {
    /// No names. Takes no memory.
    pub fn new(alloc: Global) -> TakenNames
        ensures { AreTaken [] result.places result.counts }
    {
        TakenNames {
            places: BTreeMap::new(alloc),
            counts: BTreeMap::new(alloc),
        }
    }

    /// Whether a tenant has a job of this name.
    pub fn has_job(&self, tenant: Name, name: Name) -> bool
        ensures { result ≡ is_some (kept_at self.now.places tenant name) }
    {
        let place = self.places.get(&(tenant, name)).copied();
        place.is_some()
    }

    /// The number of a tenant's jobs.
    pub fn jobs_of(&self, tenant: Name) -> usize
        ensures { result ≡ jobs_at self.now.counts tenant }
    {
        match self.counts.get(&tenant).copied() {
            None => 0,
            Some(jobs) => jobs,
        }
    }

    /// Notes the names of a job that comes after others. If memory runs out, those of the others are taken, as before.
    pub fn note(&mut self, job: &ScriptJob) -> Result<(), AllocError>
        requires { jobs_at self.old.counts job.now.tenant < 2 ^ 63 }
        ensures noted { OnOk result
            ((jobs : List ScriptedJob)
            → AreTaken jobs self.old.places self.old.counts
            → AreTaken (jobs ++ job.now ∷ []) self.new.places self.new.counts) }
        ensures alike { OnErr result
            ((jobs : List ScriptedJob)
            → AreTaken jobs self.old.places self.old.counts
            → AreTaken jobs self.new.places self.new.counts) }
    {
        let tenant = job.tenant();
        let place = self.jobs_of(tenant);
        // The tenant's count stands there before the name, so that to raise it takes no memory.
        match self.counts.insert(tenant, place) {
            Ok(_) => {}
            Err(error) => return Err(error.into()),
        }
        match self.places.insert((tenant, job.name()), place) {
            Ok(_) => {}
            Err(error) => return Err(error.into()),
        }
        match self.counts.insert(tenant, place + 1) {
            Ok(_) => Ok(()),
            Err(_) => unreachable!(),
        }
    }
}
