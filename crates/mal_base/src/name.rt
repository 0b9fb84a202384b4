//! The names of tenants and jobs.

ghost use Rattle.std.specs.Prelude.{◌≡◌, ◌≢◌, ℕ, ◌-◌, ◌<◌, ◌++◌, List, Some, true, length, take, refl, replicate, MatchOption};
ghost use Rattle.std.specs.{List.{list_all}, Str.{bytes_eq}, Cmp.Rules.{comparing}, Cmp.Lexicographic.{slice_cmp, nat_list_cmp_total, texts_ties, texts_po}, Ordering.{nat_cmp}};
ghost use Rattle.std.proofs.Common.{rules};
ghost use Rattle.mal_base.specs.Names.{is_name, is_name_byte};

use std::cmp::Ordering;
use std::marker::Model;

/// The name of a tenant or of a job: 1 to 32 bytes, each a small letter, a digit or an underline. Contracts see the
/// bytes.
#[derive(Clone, Copy, Debug)]
pub struct Name {
    bytes: [u8; 32],
    len: usize,
}

impl Model for Name {
    ghost use Rattle.std.specs.Prelude.{◌≡◌, ℕ, ◌-◌, ◌++◌, List, true, length, take, replicate};
    ghost use Rattle.mal_base.specs.Names.{is_name};

    ghost Value = { List ℕ };

    ghost use Rattle.mal_base.specs.NameFields.{IsPadded};

    ghost view = { λ n. take n.len n.bytes };

    ghost invariant = { IsPadded };

    ghost inverse = { λ text. record { bytes = text ++ replicate (32 - length text) 0; len = length text } };
}

/// Two names are equal where their bytes are.
impl PartialEq for Name {
    ghost eq = { bytes_eq };

    ghost laws = { Prim.search (comparing, rules) };

    fn eq(&self, other: &Name) -> bool {
        self.as_bytes() == other.as_bytes()
    }
}

impl Eq for Name {
    ghost laws = { Prim.search (comparing, rules) };
}

/// Names are ordered as their bytes are.
impl PartialOrd for Name {
    ghost partial_cmp = { λ x y. Some (slice_cmp nat_cmp x y) };

    ghost laws = { texts_po };

    fn partial_cmp(&self, other: &Name) -> Option<Ordering> {
        Some(self.cmp(other))
    }
}

impl Ord for Name {
    ghost cmp = { slice_cmp nat_cmp };

    ghost total = { nat_list_cmp_total };

    ghost matches_partial_cmp = { λ x y. refl };

    ghost matches_eq = { texts_ties };

    fn cmp(&self, other: &Name) -> Ordering {
        self.as_bytes().cmp(other.as_bytes())
    }
}

impl Name {
    /// The name of these bytes. None exactly where they are no name. Asks for no memory: a name is held inline, so that
    /// events carry names without taking any.
    pub fn of(text: &[u8]) -> Option<Name>
        ensures { MatchOption result (is_name text.now ≢ true) (λ n. (n ≡ text.now) × (is_name text.now ≡ true)) }
    {
        if !is_name_text(text) {
            return None;
        }
        let mut bytes = [0; 32];
        bytes[..text.len()].copy_from_slice(text);
        Some(Name {
            bytes,
            len: text.len(),
        })
    }

    /// The bytes of the name.
    pub fn as_bytes(&self) -> &[u8]
        ensures value { result.now ≡ self.now }
        ensures form { is_name self.now ≡ true }
    {
        &self.bytes[..self.len]
    }
}

/// Whether these bytes are a name.
fn is_name_text(text: &[u8]) -> bool
    ensures { result ≡ is_name text.now }
{
    if text.is_empty() {
        return false;
    }
    if text.len() > 32 {
        return false;
    }
    has_name_bytes(text)
}

/// Whether each of these bytes may stand in a name.
fn has_name_bytes(text: &[u8]) -> bool
    ensures { result ≡ list_all is_name_byte text.now }
{
    text.iter().all(|b| is_name_letter(*b))
}

/// Whether a name may have this byte.
fn is_name_letter(b: u8) -> bool
    ensures { result ≡ is_name_byte b }
{
    (97..=122).contains(&b) || (48..=57).contains(&b) || b == 95
}
