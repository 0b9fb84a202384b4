//! What takes texts, and words and lines put into it.

ghost use Rattle.std.specs.Prelude.{◌≡◌, ℕ, List, [], ◌∷◌, ◌++◌, map, flat_map, OnOk};
ghost use Rattle.spec_text.specs.Lines.{line_of};
ghost use Rattle.std.proofs.Common.{sym, ap, ◌∙◌, append-nil, append_assoc};

use std::alloc::AllocError;

/// What takes bytes: a text in memory, or what hands them on.
pub trait Taker {
    /// Why it takes no more.
    type Fault;

    /// It took a text.
    ghost took: { Self → Self → List ℕ → Type 0 };

    /// Takes bytes.
    fn put(&mut self, bytes: &[u8]) -> Result<(), Self::Fault>
        ensures { OnOk result (took self.old self.new bytes.now) };

    /// It took nothing.
    ghost none: { (x : Self) → took x x [] };

    /// It took a text, and then another.
    ghost more: { (x y z : Self) (text other : List ℕ) → took x y text → took y z other → took x z (text ++ other) };
}

/// A text in memory, which grows.
impl Taker for Vec<u8> {
    type Fault = AllocError;

    ghost took = { λ x y text. y.items ≡ x.items ++ text };

    ghost none = { λ x. sym (append-nil x.items) };

    ghost more = { λ x y z text other e f. f ∙ ap (λ (bytes : List ℕ). bytes ++ other) e ∙ append_assoc x.items text other };

    fn put(&mut self, bytes: &[u8]) -> Result<(), AllocError> {
        self.extend_from_slice(bytes)?;
        Ok(())
    }
}

/// Puts a line of the words `first` and `others`.
pub fn put_line<T: Taker>(out: &mut T, first: &[u8], others: &[&[u8]]) -> Result<(), T::Fault>
    ensures { OnOk result (T.took out.old out.new (line_of (first.now ∷ map (λ w. w.now) others.now))) }
{
    out.put(first)?;
    put_words(out, others)?;
    out.put(b"\n")?;
    Ok(())
}

/// Puts words, each after a space.
pub fn put_words<T: Taker>(out: &mut T, words: &[&[u8]]) -> Result<(), T::Fault>
    ensures { OnOk result (T.took out.old out.new (flat_map (λ w. 32 ∷ w) (map (λ w. w.now) words.now))) }
{
    for word in words {
        out.put(b" ")?;
        out.put(word)?;
    }
    Ok(())
}
