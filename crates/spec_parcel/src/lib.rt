//! Parcels: the bytes that a job is moved as, of its own events and of its machine. Definitions, and the laws about them
//! as the contracts of functions without a body.
#![tactic(auto)]

ghost use Rattle.spec_parcel.specs.{Apart.{HasSections, NodesAreApart, SectionsAreApart, SizedAreApart, SlicesAreApart}, Examples.{HasPieces, HasRuns, HasTexts}};

/// The worked examples of the bytes of a parcel compute to the texts that are known.
#[tactic(auto, using(crate::proofs::ExampleLemmas::texts, crate::proofs::ExampleLemmas::pieces, crate::proofs::ExampleLemmas::runs))]
pub fn parcel_examples()
    ensures texts { HasTexts }
    ensures pieces { HasPieces }
    ensures runs { HasRuns }
{}

/// Bytes after their length, nodes and slices are read from the front of what they stand before: no others begin the
/// same text, and what follows is the same.
#[tactic(auto, using(crate::proofs::SizedLemmas::sized_are_apart, crate::proofs::ListedLemmas::nodes_are_apart, crate::proofs::ListedLemmas::slices_are_apart))]
pub fn pieces_are_apart()
    ensures sized { SizedAreApart }
    ensures nodes { NodesAreApart }
    ensures slices { SlicesAreApart }
{}

/// A parcel is the bytes of its five sections, and no other sections have these bytes, where 8 bytes hold their lengths
/// and counts.
#[tactic(auto, using(crate::proofs::SectionLemmas::has_sections, crate::proofs::SectionLemmas::sections_are_apart))]
pub fn sections_are_apart()
    ensures sections { HasSections }
    ensures apart { SectionsAreApart }
{}
