//! The scripts that are run.

use std::alloc::Global;

/// A script with the replies to it.
#[derive(Clone, Copy)]
pub struct Answered {
    pub script: &'static [u8],
    pub replies: &'static [u8],
}

/// Three revisions of one job: one that is satisfiable, one whose assumption fails, and one that is satisfiable again.
pub const THREE_REVISIONS: Answered = Answered {
    script: b"t a\nj p 1 1 4\np cnf 2 1\n1 2 0\na 0\np cnf 2 1\n-1 0\na -2 0\np cnf 2 0\na 0\ne\n",
    replies: b"r a p 1\ns SATISFIABLE\nv -1 2 0\nr a p 2\ns UNSATISFIABLE\nk -2 0\nl 3 2 0 2 1 0\nr a p 3\ns SATISFIABLE\nv -1 2 0\n",
};

/// Three revisions of a job of one tenant, beside jobs of three others.
pub const FOUR_TENANTS: Answered = Answered {
    script: b"t a\nj p 1 1 4\np cnf 2 1\n1 2 0\na 0\np cnf 2 1\n-1 0\na -2 0\np cnf 2 0\na 0\ne\nt b\nj p 1 2 4\np cnf 0 0\na 0\ne\nt c\nj p 1 1 4\np cnf 0 0\na 0\ne\nt d\nj p 1 3 4\np cnf 0 0\na 0\ne\n",
    replies: b"r a p 1\ns SATISFIABLE\nv -1 2 0\nr a p 2\ns UNSATISFIABLE\nk -2 0\nl 3 2 0 2 1 0\nr a p 3\ns SATISFIABLE\nv -1 2 0\nr b p 1\ns SATISFIABLE\nv 0\nr c p 1\ns SATISFIABLE\nv 0\nr d p 1\ns SATISFIABLE\nv 0\n",
};

/// Two jobs of demand 1 of one tenant, each with one empty revision.
pub const TWO_JOBS: &[u8] = b"t a\nj p0 1 1 4\np cnf 0 0\na 0\ne\nj p1 1 1 4\np cnf 0 0\na 0\ne\n";

/// Four such jobs.
pub const FOUR_JOBS: &[u8] =
    b"t a\nj p0 1 1 4\np cnf 0 0\na 0\ne\nj p1 1 1 4\np cnf 0 0\na 0\ne\nj p2 1 1 4\np cnf 0 0\na 0\ne\nj p3 1 1 4\np cnf 0 0\na 0\ne\n";

/// A tenant's line, and the lines of its four jobs.
#[derive(Clone, Copy)]
struct Heads {
    tenant: &'static [u8],
    jobs: &'static [&'static [u8]],
}

/// Four tenants with four jobs each: those of the first ask for one worker, those of the next for two, and so on.
const HEADS: &[Heads] = &[
    Heads {
        tenant: b"t a1\n",
        jobs: &[
            b"j p0 1 1 64\n",
            b"j p1 1 1 64\n",
            b"j p2 1 1 64\n",
            b"j p3 1 1 64\n",
        ],
    },
    Heads {
        tenant: b"t a2\n",
        jobs: &[
            b"j p0 1 2 64\n",
            b"j p1 1 2 64\n",
            b"j p2 1 2 64\n",
            b"j p3 1 2 64\n",
        ],
    },
    Heads {
        tenant: b"t a3\n",
        jobs: &[
            b"j p0 1 3 64\n",
            b"j p1 1 3 64\n",
            b"j p2 1 3 64\n",
            b"j p3 1 3 64\n",
        ],
    },
    Heads {
        tenant: b"t a4\n",
        jobs: &[
            b"j p0 1 4 64\n",
            b"j p1 1 4 64\n",
            b"j p2 1 4 64\n",
            b"j p3 1 4 64\n",
        ],
    },
];

/// The block that puts four pigeons into three holes, no two into one, and the end of its job.
const PIGEONS: &[u8] =
    b"p cnf 12 22\n1 2 3 0\n4 5 6 0\n7 8 9 0\n10 11 12 0\n-4 -1 0\n-7 -1 0\n-7 -4 0\n-10 -1 0\n-10 -4 0\n-10 -7 0\n-5 -2 0\n-8 -2 0\n-8 -5 0\n-11 -2 0\n-11 -5 0\n-11 -8 0\n-6 -3 0\n-9 -3 0\n-9 -6 0\n-12 -3 0\n-12 -6 0\n-12 -9 0\na 0\ne\n";

/// Puts the jobs of one tenant after a text. False where memory runs out.
fn put_tenant(text: &mut Vec<u8>, heads: &Heads) -> bool {
    if text.extend_from_slice(heads.tenant).is_err() {
        return false;
    }
    for job in heads.jobs {
        if text.extend_from_slice(job).is_err() || text.extend_from_slice(PIGEONS).is_err() {
            return false;
        }
    }
    true
}

/// Puts the jobs of these tenants after a text. False where memory runs out.
fn put_tenants(text: &mut Vec<u8>, tenants: &[Heads]) -> bool {
    for heads in tenants {
        if !put_tenant(text, heads) {
            return false;
        }
    }
    true
}

/// The jobs of so many of the four tenants.
pub fn mixed_jobs(alloc: Global, tenants: usize) -> Option<Vec<u8>> {
    let heads = HEADS.get(..tenants)?;
    let mut text = Vec::new(alloc);
    if put_tenants(&mut text, heads) {
        return Some(text);
    }
    drop(text);
    None
}
