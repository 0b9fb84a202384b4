//! Which post of a tenant an event is.

ghost use Rattle.std.specs.Prelude.{◌≡◌};
ghost use Rattle.mal_history.specs.Posts.{post_of};

use crate::event::Event;
use mal_base::{Ask, Name, Weight};

/// What a tenant posts of a job, as it is written down: without its contents.
#[derive(Clone, Copy, PartialEq, Eq)]
pub struct PostLine {
    pub tenant: Name,
    pub job: Name,
    pub kind: PostKind,
}

/// What is posted of a job: it is opened, its revision of a number is posted, its weight is changed, or it is closed.
#[derive(Clone, Copy, PartialEq, Eq)]
pub enum PostKind {
    Opening(Ask),
    Revision(u32),
    Reasking(Weight),
    Closing,
}

impl Event {
    /// Which post the event is: None for what the hall does by itself.
    pub fn post(&self) -> Option<PostLine>
        ensures { result ≡ post_of self.now }
    {
        let (tenant, job, kind) = match self {
            Event::Open { tenant, job, ask } => (*tenant, *job, PostKind::Opening(*ask)),
            Event::Revise {
                tenant,
                job,
                number,
            } => (*tenant, *job, PostKind::Revision(*number)),
            Event::Reask {
                tenant,
                job,
                weight,
            } => (*tenant, *job, PostKind::Reasking(*weight)),
            Event::Close { tenant, job } => (*tenant, *job, PostKind::Closing),
            _ => return None,
        };
        Some(PostLine { tenant, job, kind })
    }
}
