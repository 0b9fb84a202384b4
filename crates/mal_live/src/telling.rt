//! What was told so far.

ghost use Rattle.std.specs.Prelude.{◌≡◌, ◌⊎◌, ◌+◌, ◌≤◌, ℕ, List, [], IfSome, OnOk, OnErr};
ghost use Rattle.std.specs.Io.KnownBytes.{Appends};
ghost use Rattle.mal_base.specs.declared.key.Key.{Key};
ghost use Rattle.mal_io.specs.Moves.{GotPrefix, Rose};
ghost use Rattle.mal_live.specs.Telling.{IsToldOnce, told_at};
ghost use Rattle.mal_live.specs.declared.telling.TellFault.TheVariants.{Broken, OutOfMemory};

use mal_base::Key;
use mal_io::{Sink, write_all};
use std::alloc::Global;
use std::collections::BTreeMap;

/// What was told so far: how many events were written, and how many replies to each job.
#[derive(Drop)]
pub struct Teller {
    written: usize,
    counts: BTreeMap<Key, u32>,
}

/// Why nothing was told.
#[derive(Clone, Copy, Debug, PartialEq, Eq)]
pub enum TellFault {
    /// The sink failed.
    Broken,
    /// Memory ran out; nothing was written.
    OutOfMemory,
}

impl Teller {
    /// Nothing was told. Takes no memory.
    pub fn new(alloc: Global) -> Teller
        ensures written { result.written ≡ 0 }
        ensures counts { (k : Key) → told_at result k ≡ 0 }
    {
        Teller {
            written: 0,
            counts: BTreeMap::new(alloc),
        }
    }

    /// How many events were written.
    pub fn written(&self) -> usize
        ensures { result ≡ self.now.written }
    {
        self.written
    }

    /// The number of the revision of a job whose reply is told next, unless 2^32 - 1 were.
    pub fn next(&self, key: Key) -> Option<u32>
        ensures { IfSome result (λ r. r ≡ told_at self.now key + 1) }
    {
        match self.counts.get(&key).copied() {
            None => Some(1),
            Some(told) => told.checked_add(1),
        }
    }

    /// Writes the lines of the events that came since, of which there are so many then.
    pub fn write<L: Sink>(
        &mut self,
        log: &mut L,
        text: &[u8],
        count: usize,
    ) -> Result<(), TellFault>
        ensures all { OnOk result (Appends (L.got log.old) (L.got log.new) text.now) }
        ensures written { OnOk result (self.new.written ≡ count) }
        ensures counts { (k : Key) → told_at self.new k ≡ told_at self.old k }
        ensures prefix { (prefix : List ℕ) × GotPrefix (L.got log.old) (L.got log.new) text.now prefix }
        ensures later { L.faults log.old ≤ L.faults log.new }
        ensures cause { OnErr result (Rose (L.faults log.old) (L.faults log.new)) }
        ensures counted { OnOk result (L.faults log.new ≡ L.faults log.old) }
    {
        match write_all(log, text) {
            Ok(()) => {
                self.written = count;
                Ok(())
            }
            Err(_) => Err(TellFault::Broken),
        }
    }

    /// Tells the next reply to a job.
    pub fn tell<K: Sink>(&mut self, out: &mut K, key: Key, text: &[u8]) -> Result<(), TellFault>
        ensures all { OnOk result (Appends (K.got out.old) (K.got out.new) text.now) }
        ensures counts { OnOk result (IsToldOnce self.old self.new key) }
        ensures written { self.new.written ≡ self.old.written }
        ensures same { result ≡ Err OutOfMemory
            → ((k : Key) → told_at self.new k ≡ told_at self.old k) × Appends (K.got out.old) (K.got out.new) [] }
        ensures prefix { (prefix : List ℕ) × GotPrefix (K.got out.old) (K.got out.new) text.now prefix }
        ensures later { K.faults out.old ≤ K.faults out.new }
        ensures cause { result ≡ Err Broken → Rose (K.faults out.old) (K.faults out.new) }
        ensures counted { (result ≡ Err Broken → ⊥) → K.faults out.new ≡ K.faults out.old }
    {
        let Some(count) = self.next(again(&key)) else {
            return Err(TellFault::OutOfMemory);
        };
        // The count stands there before anything is written, so that to raise it takes no memory.
        match self.counts.insert(again(&key), count - 1) {
            Ok(_) => {}
            Err(_) => return Err(TellFault::OutOfMemory),
        }
        if write_all(out, text).is_err() {
            return Err(TellFault::Broken);
        }
        match self.counts.insert(key, count) {
            Ok(_) => Ok(()),
            Err(_) => unreachable!(),
        }
    }
}

/// The same key once more.
fn again(key: &Key) -> Key
    ensures { result ≡ key.now }
{
    Key {
        tenant: key.tenant,
        job: key.job,
    }
}
