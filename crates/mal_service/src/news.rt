//! What was entered since somebody looked.

ghost use Rattle.std.specs.Prelude.{◌≡◌, ◌++◌, length, drop, IfOk, OnOk};
ghost use Rattle.mal_service.specs.News.{AreNews, lines_of_events};

use mal_base::Key;
use mal_hall::{Hall, ReplyFault};
use mal_history::{Event, append_event};
use std::alloc::{AllocError, Global};

/// What was entered since so many events: the lines of these, how many events there are now, and the jobs of which a
/// revision may have been answered.
#[derive(Drop)]
pub struct News {
    pub text: Vec<u8>,
    pub count: usize,
    pub touched: Vec<Key>,
}

/// What who looks is told: the reply that was asked for, and the news.
#[derive(Drop)]
pub struct Looked {
    pub reply: Result<Option<Vec<u8>>, ReplyFault>,
    pub news: Result<News, AllocError>,
}

/// What was entered in a hall since so many events.
pub fn news_of(alloc: Global, hall: &Hall, from: usize) -> Result<News, AllocError>
    ensures { IfOk result (λ n. AreNews from hall.now.events n) }
{
    news_since(alloc, hall.history().events(), from)
}

/// The news since so many events.
fn news_since(alloc: Global, events: &[Event], from: usize) -> Result<News, AllocError>
    ensures text { IfOk result (λ n. n.text.items ≡ lines_of_events (drop from events.now)) }
    ensures count { IfOk result (λ n. n.count ≡ length events.now) }
{
    let mut text = Vec::new(alloc);
    let mut touched = Vec::new(alloc);
    let (_, since) = events.split_at(from.min(events.len()));
    note_all(since, &mut text, &mut touched)?;
    Ok(News {
        text,
        count: events.len(),
        touched,
    })
}

/// Puts the lines of events after the others, and the jobs of which a revision may have been answered.
fn note_all(events: &[Event], text: &mut Vec<u8>, touched: &mut Vec<Key>) -> Result<(), AllocError>
    ensures { OnOk result (text.new.items ≡ text.old.items ++ lines_of_events events.now) }
{
    for event in events {
        append_event(text, event)?;
        if let Some(key) = touched_by(event) {
            touched.push(key)?;
        }
    }
    Ok(())
}

/// The job of which a revision may have been answered by an event.
fn touched_by(event: &Event) -> Option<Key> {
    match event {
        Event::Revise { tenant, job, .. } | Event::Finish { tenant, job, .. } => Some(Key {
            tenant: *tenant,
            job: *job,
        }),
        _ => None,
    }
}
