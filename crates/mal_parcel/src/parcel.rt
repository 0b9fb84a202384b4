//! A job as a parcel.

ghost use Rattle.std.specs.Prelude.{◌≡◌, All};
ghost use Rattle.spec_job.specs.{Counts.{starts_out}, Lawful.{IsLawful}, SoloMachine.{solo}};
ghost use Rattle.spec_parcel.specs.Packed.{parcel_bytes, ran_indices};
ghost use Rattle.mal_parcel.specs.Parcelled.{IsParcel, IsReadBack};

use crate::owned::Owned;
use mal_base::Name;
use std::marker::Model;

/// A job that moves: its tenant, its name, the bytes that stand for it and its own events. Contracts see the key and
/// the own events; the type keeps that these are lawful, that no start is out after them and no volume is left, and
/// that the bytes are those of the job, with images that are read to their nodes.
#[derive(Drop)]
pub struct Parcel {
    tenant: Name,
    job: Name,
    bytes: Vec<u8>,
    own: Owned,
}

impl Model for Parcel {
    ghost use Rattle.mal_parcel.specs.Parcelled.{Parcelled, IsParcel};

    ghost Value = { Parcelled };

    ghost view = { λ p. record { key = record { tenant = p.tenant; job = p.job }; own = p.own } };

    ghost invariant = { λ p. IsParcel (record { tenant = p.tenant; job = p.job }) p.own p.bytes.items };
}

impl Parcel {
    /// The parcel of a job with these own events, of which these are the bytes.
    pub(crate) fn of(tenant: Name, job: Name, bytes: Vec<u8>, own: Owned) -> Parcel
        requires { IsParcel (record { tenant = tenant; job = job }) own bytes.items }
        ensures { result ≡ record { key = record { tenant = tenant; job = job }; own = own } }
    {
        Parcel {
            tenant,
            job,
            bytes,
            own,
        }
    }

    /// The job's tenant.
    pub fn tenant(&self) -> Name
        ensures { result ≡ self.now.key.tenant }
    {
        self.tenant
    }

    /// The job's name.
    pub fn job(&self) -> Name
        ensures { result ≡ self.now.key.job }
    {
        self.job
    }

    /// The bytes.
    pub fn bytes(&self) -> &[u8]
        ensures spelled { result.now ≡ parcel_bytes self.now.key self.now.own }
        ensures again { All (IsReadBack (solo self.now.own)) (ran_indices (solo self.now.own)) }
    {
        self.bytes.as_slice()
    }

    /// The own events.
    pub fn own(&self) -> &Owned
        ensures value { result.now ≡ self.now.own }
        ensures lawful { IsLawful self.now.own }
        ensures home { starts_out (solo self.now.own).places ≡ 0 }
        ensures still { (solo self.now.own).volume ≡ 0 }
    {
        &self.own
    }
}
