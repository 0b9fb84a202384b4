//! Plays that are known.

use super::playing::{Call, Play};
use crate::tests::calling::{FREE_REPLY, P, Told};
use crate::tests::making::Posted;
use mal_base::{LimitKind, Profile};
use mal_hall::{CloseFault, OpenFault, PickFault, ReaskFault, ReplyFault, ReviseFault};

/// A job that is open is not opened again.
const OPENINGS: Play = &[
    (Call::Open(P), Told::Done),
    (Call::Open(P), Told::NotOpened(OpenFault::Duplicate)),
    (Call::Open((b"p", b"a")), Told::Done),
];

/// A tenant has room for 64 jobs.
const JOBS_OF_A_TENANT: Play = &[
    (Call::OpenJobs(64), Told::Done),
    (Call::Open(P), Told::NotOpened(OpenFault::TenantFull)),
    (
        Call::Open((b"a", b"aa")),
        Told::NotOpened(OpenFault::Duplicate),
    ),
    (Call::Open((b"b", b"p")), Told::Done),
];

/// A hall has room for 64 tenants.
const TENANTS: Play = &[
    (Call::OpenTenants(64), Told::Done),
    (Call::Open(P), Told::NotOpened(OpenFault::HallFull)),
    (Call::Open((b"aa", b"q")), Told::Done),
];

/// A revision and a closing of an absent job are refused, and of one that is closed.
const REVISIONS_AND_CLOSINGS: Play = &[
    (Call::Open(P), Told::Done),
    (
        Call::Revise((b"a", b"q"), Posted::Free(0)),
        Told::NotPosted(ReviseFault::NoJob),
    ),
    (
        Call::Close((b"q", b"p")),
        Told::NotClosed(CloseFault::NoJob),
    ),
    (Call::Close(P), Told::Done),
    (
        Call::Revise(P, Posted::Free(0)),
        Told::NotPosted(ReviseFault::Closed),
    ),
    (Call::Close(P), Told::NotClosed(CloseFault::Closed)),
];

/// The ask of an absent job does not change, nor that of one that is closed.
const REASKS: Play = &[
    (Call::Open(P), Told::Done),
    (
        Call::Reask((b"a", b"q"), 1, 1),
        Told::NotReasked(ReaskFault::NoJob),
    ),
    (Call::Reask(P, 1000, 64), Told::Done),
    (Call::Close(P), Told::Done),
    (Call::Reask(P, 1, 1), Told::NotReasked(ReaskFault::Closed)),
    (
        Call::Write(b"h mal 2 1\no a p 1 1 4\nq a p 1000 64\nc a p\n"),
        Told::Done,
    ),
];

/// The shares of eight workers follow a new priority with the next pick.
const SHARES_FOLLOW: Play = &[
    (Call::OpenAt(P, 4, 8), Told::Done),
    (Call::OpenAt((b"a", b"q"), 2, 8), Told::Done),
    (Call::OpenAt((b"a", b"r"), 1, 8), Told::Done),
    (Call::Pick(1), Told::Leased),
    (Call::Reask((b"a", b"r"), 4, 8), Told::Done),
    (Call::Pick(2), Told::Leased),
    (
        Call::Write(
            b"h mal 2 8\no a p 4 8 4\nr a p 1\no a q 2 8 4\nr a q 1\no a r 1 8 4\nr a r 1\nb a p 5 a q 2 a r 1\ns a p 0 1\nq a r 4 8\nb a p 3 a q 2 a r 3\ns a p 1 2\n",
        ),
        Told::Done,
    ),
];

/// A job that wants one worker in place of two has both nodes out: they come home, and only the first starts again.
const FEWER_WANTED: Play = &[
    (Call::OpenFor(2, 8, Profile::Lean), Told::Done),
    (Call::Revise(P, Posted::Free(1000)), Told::Done),
    (Call::Work(1), Told::Done),
    (Call::Work(2), Told::Done),
    (Call::Reask(P, 1, 1), Told::Done),
    (Call::Close(P), Told::Done),
    (Call::Give(0), Told::Done),
    (Call::Give(0), Told::Done),
    (
        Call::Drive(
            b"h mal 2 2\no a p 1 2 8 2\nr a p 1\nb a p 2\ns a p 0 1\ns a p 1 2\nq a p 1 1\nc a p\nf a p 0 1 ran\nf a p 1 2 ran\nb a p 1\ns a p 0 1\nf a p 0 1 ran\ns a p 0 1\nf a p 0 1 ran\n",
        ),
        Told::Done,
    ),
];

/// A job has room for 256 revisions.
const REVISIONS_OF_A_JOB: Play = &[
    (Call::Open(P), Told::Done),
    (Call::ReviseOften(256), Told::Done),
    (
        Call::Revise(P, Posted::Free(0)),
        Told::NotPosted(ReviseFault::RevisionsFull),
    ),
];

/// A job has no room for more clauses.
const CLAUSES_FULL: ReviseFault = ReviseFault::JobFull {
    which: LimitKind::Clauses,
};

/// A job has room for its clauses.
const CLAUSES_OF_A_JOB: Play = &[
    (Call::Open(P), Told::Done),
    (Call::Revise(P, Posted::Tautologies(1_048_575)), Told::Done),
    (
        Call::Revise(P, Posted::Tautologies(2)),
        Told::NotPosted(CLAUSES_FULL),
    ),
    (Call::Revise(P, Posted::Tautologies(1)), Told::Done),
];

/// Who asks an absent job for a reply is told so.
const ABSENT_JOBS: Play = &[
    (Call::Open(P), Told::Done),
    (
        Call::Hear((b"a", b"a"), 1, b""),
        Told::NotHeard(ReplyFault::NoJob),
    ),
    (
        Call::Hear((b"p", b"p"), 1, b""),
        Told::NotHeard(ReplyFault::NoJob),
    ),
    (Call::Hear(P, 1, b""), Told::NoReply),
];

/// A revision is satisfiable, the assumption of the next fails, and the third is satisfiable again.
const THREE_REVISIONS: Play = &[
    (Call::Open(P), Told::Done),
    (Call::Revise(P, Posted::Clause(&[1, 2], &[])), Told::Done),
    (Call::Revise(P, Posted::Clause(&[-1], &[-2])), Told::Done),
    (Call::Revise(P, Posted::Free(2)), Told::Done),
    (Call::Close(P), Told::Done),
    (Call::Hear(P, 1, b""), Told::NoReply),
    (
        Call::Drive(
            b"h mal 1 1\no a p 1 1 4\nr a p 1\nr a p 2\nr a p 3\nc a p\nb a p 1\ns a p 0 1\nf a p 0 1 ran\ns a p 0 1\nf a p 0 1 ran\ns a p 0 1\nf a p 0 1 ran\n",
        ),
        Told::Done,
    ),
    (
        Call::Hear(P, 1, b"r a p 1\ns SATISFIABLE\nv -1 2 0\n"),
        Told::Done,
    ),
    (
        Call::Hear(P, 2, b"r a p 2\ns UNSATISFIABLE\nk -2 0\nl 3 2 0 2 1 0\n"),
        Told::Done,
    ),
    (
        Call::Hear(P, 3, b"r a p 3\ns SATISFIABLE\nv -1 2 0\n"),
        Told::Done,
    ),
];

/// One job with a revision without variables.
const ONE_JOB: Call = Call::OneJob(1, 4, Profile::Plain, 0);

/// A worker with a lease is busy.
const BUSY: Play = &[
    (ONE_JOB, Told::Done),
    (Call::Pick(1), Told::Leased),
    (Call::Pick(1), Told::NotPicked(PickFault::Busy)),
    (Call::Pick(2), Told::Idle),
    (Call::Hear(P, 1, b""), Told::NoReply),
];

/// A lease that was recalled is strange.
const RECALLED: Play = &[
    (ONE_JOB, Told::Done),
    (Call::Work(1), Told::Done),
    (Call::Recall, Told::Done),
    (Call::Work(1), Told::Done),
    (Call::Give(0), Told::Strange(Some(2))),
    (Call::Give(0), Told::Done),
    (Call::Hear(P, 1, FREE_REPLY), Told::Done),
    (Call::Pick(1), Told::AllDone),
    (
        Call::Write(
            b"h mal 1 1\no a p 1 1 4\nr a p 1\nc a p\nb a p 1\ns a p 0 1\nf a p 0 1 lost\ns a p 0 1\nf a p 0 1 ran\n",
        ),
        Told::Done,
    ),
];

/// Three starts that starve leave a revision unknown.
const STARVED: Play = &[
    (ONE_JOB, Told::Done),
    (Call::Hear(P, 1, b""), Told::NoReply),
    (Call::Starve(1), Told::Done),
    (Call::Give(0), Told::Done),
    (Call::Hear(P, 1, b""), Told::NoReply),
    (Call::Starve(1), Told::Done),
    (Call::Give(0), Told::Done),
    (Call::Hear(P, 1, b""), Told::NoReply),
    (Call::Starve(1), Told::Done),
    (Call::Give(0), Told::Done),
    (
        Call::Hear(P, 1, b"r a p 1\ns UNKNOWN\nu starved 3\n"),
        Told::Done,
    ),
    (Call::Pick(1), Told::AllDone),
];

/// An equal journal of another hall is taken back.
const EQUAL_JOURNALS: Play = &[
    (ONE_JOB, Told::Done),
    (Call::WorkElsewhere, Told::Done),
    (Call::Work(1), Told::Done),
    (Call::Give(0), Told::Done),
    (Call::Give(0), Told::Strange(None)),
    (Call::Hear(P, 1, FREE_REPLY), Told::Done),
];

/// The last balancing comes before a hall idles.
const UNCLOSED: Play = &[
    (Call::Open(P), Told::Done),
    (Call::Revise(P, Posted::Free(0)), Told::Done),
    (
        Call::Drive(b"h mal 1 1\no a p 1 1 4\nr a p 1\nb a p 1\ns a p 0 1\nf a p 0 1 ran\nb\n"),
        Told::Done,
    ),
    (Call::Pick(1), Told::Idle),
];

/// All plays by their names, each after the number of workers that its hall has.
pub(crate) const PLAYS: [(&str, u32, Play); 16] = [
    ("OPENINGS", 1, OPENINGS),
    ("JOBS_OF_A_TENANT", 1, JOBS_OF_A_TENANT),
    ("TENANTS", 1, TENANTS),
    ("REVISIONS_AND_CLOSINGS", 1, REVISIONS_AND_CLOSINGS),
    ("REASKS", 1, REASKS),
    ("SHARES_FOLLOW", 8, SHARES_FOLLOW),
    ("FEWER_WANTED", 2, FEWER_WANTED),
    ("REVISIONS_OF_A_JOB", 1, REVISIONS_OF_A_JOB),
    ("CLAUSES_OF_A_JOB", 1, CLAUSES_OF_A_JOB),
    ("ABSENT_JOBS", 1, ABSENT_JOBS),
    ("THREE_REVISIONS", 1, THREE_REVISIONS),
    ("BUSY", 2, BUSY),
    ("RECALLED", 1, RECALLED),
    ("STARVED", 1, STARVED),
    ("EQUAL_JOURNALS", 1, EQUAL_JOURNALS),
    ("UNCLOSED", 1, UNCLOSED),
];
