//! Laws of the turn.
ghost use Rattle.mal_turn.specs.Laws.{AllAreWhole, BackIsWhole, BothAreBack, ManyAreWhole, OneHas, OneHolds, PartIsSeen, SeenStays, TurnExtends, WholeIsAlone, WholeSeesAll, BeginsOrderly, SplitKeeps, JoinKeeps, DrawKeeps, LookKeeps, IdleLookKeeps, EntryKeeps, PassingKeeps};

use crate::view::Recorded;

/// The rule of the turn holds at the start, and each kind of step keeps it, whatever the table is: so it holds at every
/// moment. A holder's slot out and slot home change nothing that the rule speaks of.
pub fn each_step_keeps_the_rule<T: Recorded>()
    ensures start { BeginsOrderly T.stands }
    ensures split { SplitKeeps T.stands }
    ensures join { JoinKeeps T.stands }
    ensures draw { DrawKeeps T.stands }
    ensures look { LookKeeps T.stands }
    ensures idle_look { IdleLookKeeps T.stands }
    ensures enter { EntryKeeps T.stands T.last }
    ensures pass { PassingKeeps T.stands }
{}

/// At every moment at most one token holds the value, a number is at most one token's, and beside a whole token no
/// other is left.
pub fn one_token_holds<T: Recorded>()
    ensures holds { OneHolds T.stands }
    ensures number { OneHas T.stands }
    ensures whole { WholeIsAlone T.stands }
{}

/// Whoever takes the turn and puts the value back has seen a record that has all it had seen as a beginning and ends
/// with its entry, and has of its numbers the entries that it had and this one, each once.
pub fn a_turn_adds_one_entry<T: Recorded>()
    ensures { TurnExtends T.Entry }
{}

/// What a token has seen stays a beginning of the record, after which nothing of its numbers comes, also over joins.
pub fn what_was_seen_stays<T: Recorded>()
    ensures later { SeenStays T.Entry }
    ensures part { PartIsSeen T.Entry }
{}

/// A whole token that closes the turn has seen the whole record, and the record is its part.
pub fn a_whole_token_has_seen_all<T: Recorded>()
    ensures { WholeSeesAll T.stands }
{}

/// One token that was split n times and took the n new tokens in, in any order, is whole; and so is one that took in
/// tokens that were split further, once each number that is awaited is there.
pub fn joined_tokens_are_whole()
    ensures many { ManyAreWhole }
    ensures all { AllAreWhole }
{}

/// A token that is split, both parts of which are used, split and joined at will and joined at last, has what it had
/// and awaits no more. So a whole token is whole again.
pub fn a_token_comes_back()
    ensures joined { BothAreBack }
    ensures whole { BackIsWhole }
{}
