//! What the reader does.

ghost use Rattle.std.specs.Prelude.{◌≡◌, ℕ, ◌<◌, ◌≤◌, List, [], ◌∷◌, ◌++◌, true, not, fold, filter, length, map, option_to_list, Option, Some, OnOk, OnErr, IfErr, MatchOption};
ghost use Rattle.std.specs.List.{list_all};
ghost use Rattle.std.specs.Io.KnownBytes.{IsAtEnd};
ghost use Rattle.mal_feed.specs.Coming.{is_inside, nothing_came};
ghost use Rattle.mal_io.specs.Moves.{Rose};
ghost use Rattle.mal_parts.specs.Reading.{EndsBy, HasCome, HasRead, StopsIn, WentOn, end_by, open_after};
ghost use Rattle.spec_feed.specs.Reading.{closings};
ghost use Rattle.spec_feed.specs.declared.post.FeedPost.{FeedPost};
ghost use Rattle.spec_feed.specs.declared.post.FeedPost.TheVariants.{Closes, Opens, Takes};
ghost use Rattle.spec_hall.specs.Own.{is_key};

use mal_base::{Ask, Key};
use mal_feed::{FeedError, FeedFault, FeedPost, Feeder, Taken, read_from_the_start};
use mal_io::Source;
use mal_live::{LiveDesk, Refused, Signals};
use spec_script::Step;
use std::alloc::Global;
use std::marker::Model;
use std::sync::Wait;

/// How many bytes are taken from the source at a time, at most.
const PIECE: usize = 16_384;

/// How reading ends.
#[derive(Clone, Copy, Debug, PartialEq, Eq)]
pub enum ReadEnd {
    /// At the end of the input, which is a feed.
    AtEnd,
    /// By the first fault, on this line.
    Fault { line: u64, fault: FeedFault },
    /// The source failed.
    Failed,
    /// A sink failed meanwhile.
    Broken,
    /// Memory ran out, or the desk refused a post.
    OutOfMemory,
}

/// The keys of the jobs that are open, in the order of their opening.
#[derive(Drop)]
struct OpenKeys {
    keys: Vec<Key>,
}

impl Model for OpenKeys {
    ghost use Rattle.std.specs.Prelude.{List};
    ghost use Rattle.mal_base.specs.declared.key.Key.{Key};

    ghost Value = { List Key };

    ghost view = { λ o. o.keys.items };
}

/// What came of a feed so far: what was read, and which jobs are open.
#[derive(Drop)]
struct Progress {
    feeder: Feeder,
    open: OpenKeys,
}

/// Reads a feed as it comes, posts each line's post at once, and closes at the end what is open: at the end of the input,
/// after a fault, and where the source fails.
pub fn read_all<R: Wait, P: Send + Drop, D: LiveDesk<P>, S: Source>(
    rt: &R,
    alloc: Global,
    desk: &D,
    pass: P,
    source: &mut S,
) -> (P, ReadEnd)
    requires of { D.is_of desk.now pass }
    ensures of { D.is_of desk.now result.0 }
    ensures numbers { D.numbers result.0 ≡ D.numbers pass }
    ensures read { HasRead (D.said pass) (D.said result.0) (S.left source.old) (S.left source.new) result.1 }
    ensures later { S.faults source.old ≤ S.faults source.new }
    ensures cause { result.1 ≡ ReadEnd.Failed → Rose (S.faults source.old) (S.faults source.new) }
    // After a fault of the source memory may run out for the closings.
    ensures counted { (result.1 ≡ ReadEnd.Failed → ⊥) → (result.1 ≡ ReadEnd.OutOfMemory → ⊥)
        → S.faults source.new ≡ S.faults source.old }
{
    let (pass, end) = read_pieces(rt, alloc, desk, pass, source);
    desk.signals().end_input();
    (pass, end)
}

/// Reads until reading ends.
fn read_pieces<R: Wait, P: Send + Drop, D: LiveDesk<P>, S: Source>(
    rt: &R,
    alloc: Global,
    desk: &D,
    pass: P,
    source: &mut S,
) -> (P, ReadEnd)
    requires of { D.is_of desk.now pass }
    ensures of { D.is_of desk.now result.0 }
    ensures numbers { D.numbers result.0 ≡ D.numbers pass }
    ensures read { HasRead (D.said pass) (D.said result.0) (S.left source.old) (S.left source.new) result.1 }
    ensures later { S.faults source.old ≤ S.faults source.new }
    ensures cause { result.1 ≡ ReadEnd.Failed → Rose (S.faults source.old) (S.faults source.new) }
    ensures counted { (result.1 ≡ ReadEnd.Failed → ⊥) → (result.1 ≡ ReadEnd.OutOfMemory → ⊥)
        → S.faults source.new ≡ S.faults source.old }
{
    let mut progress = Progress::new(alloc);
    let mut buffer = [0u8; PIECE];
    let mut pass = pass;
    for _ in rt.forever() {
        let (back, end) = read_piece(rt, desk, pass, &mut progress, source, &mut buffer);
        pass = back;
        match end {
            Some(end) => return (pass, end),
            None => {}
        }
    }
    unreachable!()
}

/// Takes the next piece, and posts what its lines post. Answers how reading ends, unless it goes on.
fn read_piece<R: Wait, P: Send + Drop, D: LiveDesk<P>, S: Source>(
    rt: &R,
    desk: &D,
    pass: P,
    progress: &mut Progress,
    source: &mut S,
    buffer: &mut [u8],
) -> (P, Option<ReadEnd>)
    requires of { D.is_of desk.now pass }
    requires inside { list_all is_inside progress.old.feeder.tail ≡ true }
    requires room { 0 < length buffer.old }
    ensures of { D.is_of desk.now result.0 }
    ensures numbers { D.numbers result.0 ≡ D.numbers pass }
    ensures read { (said : List FeedPost) (left : Option (List ℕ))
        → HasCome said (D.said pass) left (S.left source.old) progress.old.feeder progress.old.open
        → MatchOption result.1
        (HasCome said (D.said result.0) left (S.left source.new) progress.new.feeder progress.new.open)
        (λ end. HasRead said (D.said result.0) left (S.left source.new) end) }
    ensures later { S.faults source.old ≤ S.faults source.new }
    ensures cause { result.1 ≡ Some ReadEnd.Failed → Rose (S.faults source.old) (S.faults source.new) }
    ensures counted { (result.1 ≡ Some ReadEnd.Failed → ⊥) → (result.1 ≡ Some ReadEnd.OutOfMemory → ⊥)
        → S.faults source.new ≡ S.faults source.old }
    ensures len { length buffer.new ≡ length buffer.old }
{
    // For the proof.
    read_from_the_start();
    let Ok(count) = source.take(buffer) else {
        let (pass, end) = close_after(rt, desk, pass, progress.open.keys(), ReadEnd::Failed);
        return (pass, Some(end));
    };
    if count == 0 {
        let (pass, end) = end_feed(rt, desk, pass, progress);
        return (pass, Some(end));
    }
    let (pass, answer) = take_piece(rt, desk, pass, progress, &buffer[..count]);
    match answer {
        Err(fault) => {
            let (pass, end) = close_after(rt, desk, pass, progress.open.keys(), end_by(fault));
            (pass, Some(end))
        }
        Ok(()) => {
            if desk.signals().is_broken() {
                return (pass, Some(ReadEnd::Broken));
            }
            (pass, None)
        }
    }
}

/// Reads a piece line by line, and posts what each line posts. After a fault, or a post that was refused, the rest of the
/// piece is left.
fn take_piece<R: Wait, P: Send + Drop, D: LiveDesk<P>>(
    rt: &R,
    desk: &D,
    pass: P,
    progress: &mut Progress,
    piece: &[u8],
) -> (P, Result<(), FeedError>)
    requires of { D.is_of desk.now pass }
    requires inside { list_all is_inside progress.old.feeder.tail ≡ true }
    ensures of { D.is_of desk.now result.0 }
    ensures numbers { D.numbers result.0 ≡ D.numbers pass }
    ensures went { OnOk result.1 ((posts : List FeedPost) × (D.said result.0 ≡ D.said pass ++ posts)
        × WentOn progress.old.feeder progress.old.open piece.now posts progress.new.feeder progress.new.open) }
    ensures stopped { IfErr result.1
        (λ fault. (posts : List FeedPost) × (D.said result.0 ≡ D.said pass ++ posts)
        × StopsIn progress.old.feeder progress.old.open piece.now fault posts progress.new.open) }
{
    let mut pass = pass;
    let mut rest = piece;
    'lines: loop {
        match progress.feeder.take(rest) {
            Err(fault) => return (pass, Err(fault)),
            Ok(Taken { post, rest: behind }) => {
                let (back, answer) = progress.open.post_line(rt, desk, pass, post);
                pass = back;
                match answer {
                    Err(_) => return (pass, Err(FeedError::OutOfMemory)),
                    Ok(()) => {}
                }
                match behind {
                    None => return (pass, Ok(())),
                    Some(behind) => rest = behind,
                }
            }
        }
    }
}

/// Reads what was kept as the last line, posts what it posts, and closes what is open.
fn end_feed<R: Wait, P: Send + Drop, D: LiveDesk<P>>(
    rt: &R,
    desk: &D,
    pass: P,
    progress: &mut Progress,
) -> (P, ReadEnd)
    requires of { D.is_of desk.now pass }
    ensures of { D.is_of desk.now result.0 }
    ensures numbers { D.numbers result.0 ≡ D.numbers pass }
    ensures read { (said : List FeedPost) (left left_now : Option (List ℕ)) → IsAtEnd left_now
        → HasCome said (D.said pass) left left_now progress.old.feeder progress.old.open
        → HasRead said (D.said result.0) left left_now result.1 }
    ensures other { result.1 ≡ ReadEnd.Failed → ⊥ }
{
    // For the proof.
    read_from_the_start();
    match progress.feeder.end() {
        Err(fault) => close_after(rt, desk, pass, progress.open.keys(), end_by(fault)),
        Ok(post) => {
            let (pass, answer) = progress.open.post_line(rt, desk, pass, post);
            match answer {
                Ok(()) => close_rest(rt, desk, pass, &mut progress.feeder),
                Err(_) => close_after(rt, desk, pass, progress.open.keys(), ReadEnd::OutOfMemory),
            }
        }
    }
}

/// Closes the jobs that have not ended at the end of the text.
fn close_rest<R: Wait, P: Send + Drop, D: LiveDesk<P>>(
    rt: &R,
    desk: &D,
    pass: P,
    feeder: &mut Feeder,
) -> (P, ReadEnd)
    requires of { D.is_of desk.now pass }
    ensures of { D.is_of desk.now result.0 }
    ensures numbers { D.numbers result.0 ≡ D.numbers pass }
    ensures ends { EndsBy ReadEnd.AtEnd result.1 (D.said pass) (D.said result.0) (closings feeder.old.feed) }
{
    let mut pass = pass;
    while let Some(key) = feeder.next_open() {
        let (back, answer) = enter(rt, desk, pass, FeedPost::Closes { key });
        pass = back;
        match answer {
            Ok(()) => {}
            Err(_) => {
                desk.signals().break_off();
                return (pass, ReadEnd::OutOfMemory);
            }
        }
    }
    (pass, ReadEnd::AtEnd)
}

/// Closes these jobs, after which reading ends so. Where a closing is refused nobody is to wait for the others.
fn close_after<R: Wait, P: Send + Drop, D: LiveDesk<P>>(
    rt: &R,
    desk: &D,
    pass: P,
    keys: &[Key],
    end: ReadEnd,
) -> (P, ReadEnd)
    requires of { D.is_of desk.now pass }
    ensures of { D.is_of desk.now result.0 }
    ensures numbers { D.numbers result.0 ≡ D.numbers pass }
    ensures ends { EndsBy end result.1 (D.said pass) (D.said result.0) (map Closes keys.now) }
{
    let mut pass = pass;
    for key in keys {
        let (back, answer) = enter(rt, desk, pass, FeedPost::Closes { key: *key });
        pass = back;
        match answer {
            Ok(()) => {}
            Err(_) => {
                desk.signals().break_off();
                return (pass, ReadEnd::OutOfMemory);
            }
        }
    }
    (pass, end)
}

/// How reading ends by a fault.
fn end_by(fault: FeedError) -> ReadEnd
    ensures { result ≡ end_by fault }
{
    match fault {
        FeedError::Line { line, fault } => ReadEnd::Fault { line, fault },
        FeedError::OutOfMemory => ReadEnd::OutOfMemory,
    }
}

/// Posts, and wakes who may work by it or tell it. After a refusal nothing was posted.
fn enter<R: Wait, P: Send + Drop, D: LiveDesk<P>>(
    rt: &R,
    desk: &D,
    pass: P,
    post: FeedPost,
) -> (P, Result<(), Refused>)
    requires of { D.is_of desk.now pass }
    ensures of { D.is_of desk.now result.0 }
    ensures numbers { D.numbers result.0 ≡ D.numbers pass }
    ensures posted { OnOk result.1 (D.said result.0 ≡ D.said pass ++ post ∷ []) }
    ensures refused { OnErr result.1 (D.said result.0 ≡ D.said pass) }
{
    let (pass, answer) = desk.post(rt, pass, post);
    desk.signals().entered();
    (pass, answer)
}

/// Posts a step of a job, a revision once the reader is not too far ahead.
fn take_step<R: Wait, P: Send + Drop, D: LiveDesk<P>>(
    rt: &R,
    desk: &D,
    pass: P,
    key: Key,
    step: Step,
) -> (P, Result<(), Refused>)
    requires of { D.is_of desk.now pass }
    ensures of { D.is_of desk.now result.0 }
    ensures numbers { D.numbers result.0 ≡ D.numbers pass }
    ensures posted { OnOk result.1 (D.said result.0 ≡ D.said pass ++ Takes key step ∷ []) }
    ensures refused { OnErr result.1 (D.said result.0 ≡ D.said pass) }
{
    await_room(rt, desk.signals(), &step);
    enter(rt, desk, pass, FeedPost::Takes { key, step })
}

/// Waits before a step where it is a revision and too many of those have no reply. A new ask adds nothing to be answered.
fn await_room<R: Wait>(rt: &R, signals: &Signals, step: &Step) {
    match step {
        Step::Revise(_) => signals.await_room(rt),
        Step::Reask(_) => {}
    }
}

/// Whether two keys are the same.
fn is_key(one: Key, other: Key) -> bool
    ensures { result ≡ is_key one other }
{
    one.tenant == other.tenant && one.job == other.job
}

impl Progress {
    /// Before the first piece.
    fn new(alloc: Global) -> Progress
        ensures feeder { result.feeder ≡ nothing_came }
        ensures open { result.open ≡ [] }
    {
        Progress {
            feeder: Feeder::new(alloc),
            open: OpenKeys {
                keys: Vec::new(alloc),
            },
        }
    }
}

impl OpenKeys {
    /// The keys.
    fn keys(&self) -> &[Key]
        ensures { result.now ≡ self.now }
    {
        self.keys.as_slice()
    }

    /// Posts what a line posts, if it posts anything, and notes which jobs are open then. After a refusal nothing was
    /// posted.
    fn post_line<R: Wait, P: Send + Drop, D: LiveDesk<P>>(
        &mut self,
        rt: &R,
        desk: &D,
        pass: P,
        post: Option<FeedPost>,
    ) -> (P, Result<(), Refused>)
        requires of { D.is_of desk.now pass }
        ensures of { D.is_of desk.now result.0 }
        ensures numbers { D.numbers result.0 ≡ D.numbers pass }
        ensures posted { OnOk result.1 (D.said result.0 ≡ D.said pass ++ option_to_list post) }
        ensures refused { OnErr result.1 (D.said result.0 ≡ D.said pass) }
        ensures noted { OnOk result.1 (self.new ≡ fold open_after self.old (option_to_list post)) }
        ensures kept { OnErr result.1 (self.new ≡ self.old) }
    {
        match post {
            None => (pass, Ok(())),
            Some(FeedPost::Opens { key, ask }) => self.open(rt, desk, pass, key, ask),
            Some(FeedPost::Takes { key, step }) => take_step(rt, desk, pass, key, step),
            Some(FeedPost::Closes { key }) => self.close(rt, desk, pass, key),
        }
    }

    /// Opens a job. There is room for its key before it is posted.
    fn open<R: Wait, P: Send + Drop, D: LiveDesk<P>>(
        &mut self,
        rt: &R,
        desk: &D,
        pass: P,
        key: Key,
        ask: Ask,
    ) -> (P, Result<(), Refused>)
        requires of { D.is_of desk.now pass }
        ensures of { D.is_of desk.now result.0 }
        ensures numbers { D.numbers result.0 ≡ D.numbers pass }
        ensures posted { OnOk result.1 (D.said result.0 ≡ D.said pass ++ Opens key ask ∷ []) }
        ensures refused { OnErr result.1 (D.said result.0 ≡ D.said pass) }
        ensures noted { OnOk result.1 (self.new ≡ self.old ++ key ∷ []) }
        ensures kept { OnErr result.1 (self.new ≡ self.old) }
    {
        if self.keys.reserve(1).is_err() {
            return (pass, Err(Refused));
        }
        // Noted once the post is taken.
        let opened = key;
        let (pass, answer) = enter(rt, desk, pass, FeedPost::Opens { key, ask });
        match answer {
            Ok(()) => {
                self.keys.push_reserved(opened);
                (pass, Ok(()))
            }
            Err(refused) => (pass, Err(refused)),
        }
    }

    /// Closes a job.
    fn close<R: Wait, P: Send + Drop, D: LiveDesk<P>>(
        &mut self,
        rt: &R,
        desk: &D,
        pass: P,
        key: Key,
    ) -> (P, Result<(), Refused>)
        requires of { D.is_of desk.now pass }
        ensures of { D.is_of desk.now result.0 }
        ensures numbers { D.numbers result.0 ≡ D.numbers pass }
        ensures posted { OnOk result.1 (D.said result.0 ≡ D.said pass ++ Closes key ∷ []) }
        ensures refused { OnErr result.1 (D.said result.0 ≡ D.said pass) }
        ensures noted { OnOk result.1 (self.new ≡ filter (λ o. not (is_key key o)) self.old) }
        ensures kept { OnErr result.1 (self.new ≡ self.old) }
    {
        let (pass, answer) = enter(rt, desk, pass, FeedPost::Closes { key });
        match answer {
            Ok(()) => {
                self.keys.retain(|held| !is_key(key, *held));
                (pass, Ok(()))
            }
            Err(refused) => (pass, Err(refused)),
        }
    }
}
