//! A text that comes in pieces.

ghost use Rattle.std.specs.Prelude.{◌≡◌, ◌++◌, [], true, nat_lt, ◌+◌, ◌<◌, ◌≤◌, length, map, max, option_to_list, Ok, MatchOption, OnOk, IfOk, IfErr, IfNone, IfSome};
ghost use Rattle.std.specs.List.{list_all};
ghost use Rattle.mal_base.specs.Limits.{limits};
ghost use Rattle.spec_text.specs.Inputs.{words_of};
ghost use Rattle.spec_feed.specs.Reading.{after_line, after_row, closings, longest_line, on_feed_line};
ghost use Rattle.spec_feed.specs.declared.post.FeedPost.TheVariants.{Closes};
ghost use Rattle.mal_feed.specs.Coming.{FailsAt, FailsOn, GoesOn, IsBy, IsTooLong, ReadsLine, after_posts, is_inside, nothing_came, reading_on};
ghost use Rattle.mal_feed.specs.Posting.{Posts};

use crate::fault::{FeedError, refused};
use crate::feed::Feed;
use crate::lines::cut;
use mal_base::Key;
use mal_script::LineRefusal;
use spec_feed::{FeedFault, FeedPost};
use std::alloc::Global;
use std::marker::Model;

/// The most bytes of a line.
const LONGEST_LINE: usize = 1 << 26;

/// What came of a text that comes in pieces: what its lines gave that were read, the front of the next line, and how many
/// lines were read. Contracts see the three. How many of the jobs that began first have ended for certain is kept beside
/// them, so that the closings at the end of the text go over the jobs once.
#[derive(Drop)]
pub struct Feeder {
    feed: Feed,
    tail: Vec<u8>,
    lines: u64,
    passed: usize,
}

impl Model for Feeder {
    ghost use Rattle.std.specs.Prelude.{◌≡◌, ◌≤◌, true, length};
    ghost use Rattle.std.specs.List.{list_all};
    ghost use Rattle.spec_feed.specs.Reading.{longest_line};
    ghost use Rattle.mal_feed.specs.Coming.{Coming, is_inside};
    ghost use Rattle.mal_feed.specs.Posting.{HavePassed};

    ghost Value = { Coming };

    ghost view = { λ f. record { feed = f.feed; tail = f.tail.items; lines = f.lines } };

    ghost invariant = { λ f. (list_all is_inside f.tail.items ≡ true) × (length f.tail.items ≤ longest_line)
        × HavePassed f.passed f.feed };
}

/// What the front of a piece gave: what the line posts that has come, and what is after it where a line has come.
#[derive(Drop)]
pub struct Taken<'a> {
    pub post: Option<FeedPost>,
    pub rest: Option<&'a [u8]>,
}

impl Feeder {
    /// Before the first piece.
    pub fn new(alloc: Global) -> Feeder
        ensures { result ≡ nothing_came }
    {
        Feeder {
            feed: Feed::new(alloc),
            tail: Vec::new(alloc),
            lines: 0,
            passed: 0,
        }
    }

    /// Takes the front of a piece: up to the first line end, or all of it. Answers what the line posts that has come, and
    /// what is after it. Of a line that has not ended at most 2^26 bytes are kept. After a fault nothing else is said of
    /// what is left.
    pub fn take<'a>(&mut self, piece: &'a [u8]) -> Result<Taken<'a>, FeedError>
        // Whatever follows, the text posts this and then what it posts from here on.
        ensures goes { IfOk result
            (λ t. MatchOption t.rest (GoesOn self.old piece.now (option_to_list t.post) self.new [])
            (λ rest. GoesOn self.old piece.now (option_to_list t.post) self.new rest.now)) }
        ensures shorter { IfOk result (λ t. IfSome t.rest (λ rest. length rest.now < length piece.now)) }
        // The line that has come is cut off, so a text that ends with it is read to its end.
        ensures line { IfOk result
            (λ t. IfSome t.rest (λ rest. ReadsLine self.old piece.now (option_to_list t.post) self.new rest.now)) }
        // Whatever follows, this is the first fault of the text.
        ensures fails { IfErr result (λ fault. FailsOn self.old piece.now fault) }
        // All lines before it were read.
        ensures next { IfErr result (λ fault. IsBy (self.old.lines + 1) fault) }
        ensures short { length self.new.tail ≤ longest_line }
        // What is kept is the front of one line, so all lines before it were read.
        ensures inside { list_all is_inside self.new.tail ≡ true }
    {
        // For the proof.
        let _ = &self.tail;
        match cut(piece) {
            None => match self.keep(piece) {
                Ok(()) => Ok(Taken {
                    post: None,
                    rest: None,
                }),
                Err(fault) => Err(fault),
            },
            Some((front, rest)) => match self.take_line(front) {
                Ok(post) => Ok(Taken {
                    post,
                    rest: Some(rest),
                }),
                Err(fault) => Err(fault),
            },
        }
    }

    /// Whether the line that goes on with these bytes is too long.
    fn is_too_long(&self, front: &[u8]) -> bool
        ensures { result ≡ nat_lt longest_line (length (self.now.tail ++ front.now)) }
    {
        front.len() > LONGEST_LINE - self.tail.len()
    }

    /// The fault of a line that is too long, which is the next one.
    fn too_long(&self) -> FeedError
        ensures fault { IsTooLong (self.now.lines + 1) result }
        ensures next { IsBy (self.now.lines + 1) result }
    {
        match self.lines.checked_add(1) {
            Some(line) => FeedError::Line {
                line,
                fault: FeedFault::TooLong,
            },
            None => FeedError::OutOfMemory,
        }
    }

    /// Keeps the front of a line.
    fn keep(&mut self, front: &[u8]) -> Result<(), FeedError>
        requires { list_all is_inside front.now ≡ true }
        ensures goes { OnOk result (self.new ≡ record self.old { tail = self.old.tail ++ front.now }) }
        ensures fails { IfErr result (λ fault. FailsOn self.old front.now fault) }
        ensures next { IfErr result (λ fault. IsBy (self.old.lines + 1) fault) }
        ensures short { length self.new.tail ≤ longest_line }
        ensures inside { list_all is_inside self.new.tail ≡ true }
    {
        if self.is_too_long(front) {
            return Err(self.too_long());
        }
        match self.tail.extend_from_slice(front) {
            Ok(()) => Ok(()),
            Err(_) => Err(FeedError::OutOfMemory),
        }
    }

    /// Reads the line that ends with these bytes.
    fn take_line(&mut self, front: &[u8]) -> Result<Option<FeedPost>, FeedError>
        requires { list_all is_inside front.now ≡ true }
        ensures tail { self.new.tail ≡ [] }
        ensures lines { OnOk result (self.new.lines ≡ self.old.lines + 1) }
        ensures read { IfOk result
            (λ post. after_line limits (self.old.tail ++ front.now) self.old.feed
            ≡ Ok (record { left = self.new.feed; posts = option_to_list post })) }
        ensures fails { IfErr result
            (λ fault. FailsAt fault
            (on_feed_line (self.old.lines + 1) (after_line limits (self.old.tail ++ front.now) self.old.feed))) }
        ensures next { IfErr result (λ fault. IsBy (self.old.lines + 1) fault) }
    {
        let long = self.is_too_long(front);
        let fault = self.too_long();
        self.passed = 0;
        if long {
            self.tail.clear();
            return Err(fault);
        }
        let Some(line) = self.lines.checked_add(1) else {
            self.tail.clear();
            return Err(FeedError::OutOfMemory);
        };
        let read = read_row(&mut self.feed, &mut self.tail, front);
        self.tail.clear();
        match read {
            Ok(post) => {
                self.lines = line;
                Ok(post)
            }
            Err(refusal) => Err(refused(line, refusal)),
        }
    }

    /// Reads what was kept as the last line, if anything was.
    fn flush(&mut self) -> Result<Option<FeedPost>, FeedError>
        ensures tail { self.new.tail ≡ [] }
        ensures goes { IfOk result
            (λ post. reading_on self.old []
            ≡ after_posts (option_to_list post) (reading_on self.new [])) }
        ensures lines { OnOk result (self.new.lines ≤ self.old.lines + 1) }
        ensures fails { IfErr result (λ fault. FailsAt fault (reading_on self.old [])) }
        ensures next { IfErr result (λ fault. IsBy (self.old.lines + 1) fault) }
    {
        if self.tail.is_empty() {
            return Ok(None);
        }
        self.take_line(&[])
    }

    /// Whether the text may end here, all of which was read.
    fn close(&mut self) -> Result<(), FeedError>
        requires { self.old.tail ≡ [] }
        ensures ends { OnOk result (reading_on self.old [] ≡ Ok (closings self.new.feed)) }
        ensures fails { IfErr result (λ fault. FailsAt fault (reading_on self.old [])) }
        ensures next { IfErr result (λ fault. IsBy (max 1 self.old.lines) fault) }
    {
        self.passed = 0;
        match self.feed.end() {
            Ok(()) => {}
            Err(refusal) => return Err(refused(self.lines.max(1), refusal)),
        }
        Ok(())
    }

    /// The end of the text: what was kept is its last line. The jobs that are open then are those that `next_open` gives.
    pub fn end(&mut self) -> Result<Option<FeedPost>, FeedError>
        ensures ends { IfOk result
            (λ post. reading_on self.old [] ≡ Ok (option_to_list post ++ closings self.new.feed)) }
        ensures fails { IfErr result (λ fault. FailsAt fault (reading_on self.old [])) }
        ensures next { IfErr result (λ fault. IsBy (self.old.lines + 1) fault) }
    {
        match self.flush() {
            Ok(post) => match self.close() {
                Ok(()) => Ok(post),
                Err(fault) => {
                    drop(post);
                    Err(fault)
                }
            },
            Err(fault) => Err(fault),
        }
    }

    /// The next of the jobs that have not ended, in the order in which they began: it is taken out, as one that has ended.
    /// None exactly where no job is open.
    pub fn next_open(&mut self) -> Option<Key>
        ensures next { closings self.old.feed ≡ map Closes (option_to_list result) ++ closings self.new.feed }
        ensures last { IfNone result (closings self.old.feed ≡ []) }
        ensures tail { self.new.tail ≡ self.old.tail }
        ensures lines { self.new.lines ≡ self.old.lines }
    {
        match self.feed.take_open(self.passed) {
            None => None,
            Some((key, passed)) => {
                self.passed = passed;
                Some(key)
            }
        }
    }
}

/// Reads the line that ends with these bytes after those that were kept: in place where none was.
fn read_row(
    feed: &mut Feed,
    tail: &mut Vec<u8>,
    front: &[u8],
) -> Result<Option<FeedPost>, LineRefusal>
    ensures { Posts result feed.new (after_row limits (words_of (tail.old.items ++ front.now)) feed.old) }
{
    if tail.is_empty() {
        return feed.take_row(front);
    }
    if tail.extend_from_slice(front).is_err() {
        return Err(LineRefusal::OutOfMemory);
    }
    feed.take_row(tail.as_slice())
}
