//! Inquiries: one job that is asked revision by revision, alone in a hall of one worker, and the evidence of what is
//! told. Definitions, and the laws about them as the contracts of functions without a body.
#![tactic(auto)]

ghost use Rattle.spec_inquiry.specs.{Examples.{HasRounds, TellsOfBoth}, Laws.{AssumingMayAsk, FirstHasAll, InquiryGrows, InquiryIsLegal, InquiryIsOpen, InquiryIsSupported, LegalIsEvident, LegalToldStays, ToldIsEvident, ToldStays}};

/// The history of an inquiry is legal, its job is open, and one more round may follow.
pub fn inquiry_is_legal()
    ensures legal { InquiryIsLegal }
    ensures opened { InquiryIsOpen }
    ensures grows { InquiryGrows }
{}

/// What is told of a revision has its evidence, in an inquiry as in any legal history.
pub fn told_is_evident()
    ensures legal { LegalIsEvident }
    ensures evident { ToldIsEvident }
{}

/// What is told of a revision stays, whatever follows in a legal history but an arrival of the job: the replies to all
/// revisions of an inquiry can be read off its end.
pub fn told_stays()
    ensures legal { LegalToldStays }
    ensures told { ToldStays }
{}

/// Where the revisions after the first only assume, all have the variables and the clauses of the first, there is room
/// for 256 of them, and what is told has its evidence of these clauses.
pub fn first_has_all()
    ensures first { FirstHasAll }
    ensures room { AssumingMayAsk }
    ensures supported { InquiryIsSupported }
{}

/// A worked example of an inquiry: a model is told first, and then that the assumptions fail. At its end both are told.
pub fn inquiry_examples()
    ensures rounds { HasRounds }
    ensures told { TellsOfBoth }
{}
