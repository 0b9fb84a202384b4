//! Whether what is posted is what a script says.

ghost use Rattle.std.specs.Prelude.{◌≡◌, ◌↔◌, bytes_eq, IsTrue, MatchBool, IfOk};
ghost use Rattle.std.specs.List.{list_all, list_any};
ghost use Rattle.mal_posts.specs.{Dues.{due}, Expected.{GoesOn, Leaves, is_known}};
ghost use Rattle.spec_run.specs.PostLines.{HasPosts, HavePosts, is_post_line};
ghost use Rattle.spec_script.specs.Formed.{tenants_of};

use crate::cursor::Cursor;
use crate::lines::is_due;
use mal_base::Name;
use mal_history::Event;
use mal_script::{Script, ScriptJob};
use std::alloc::{AllocError, Global};

/// Whether each tenant posted just what the script says, in its order.
pub fn have_posts(alloc: Global, script: &Script, events: &[Event]) -> Result<bool, AllocError>
    ensures { IfOk result (λ b. IsTrue b ↔ HavePosts script.now events.now) }
{
    // Each tenant's posts are compared with what the script says of it: the events times the tenants. A post by a
    // tenant of no job is found first.
    let tenants = tenants_of(alloc, script.jobs())?;
    if !are_known(events, &tenants) {
        return Ok(false);
    }
    for tenant in tenants.as_slice() {
        if !has_posts(script, events, *tenant) {
            return Ok(false);
        }
    }
    Ok(true)
}

/// Whether a tenant posted just what the script says, in its order.
fn has_posts(script: &Script, events: &[Event], tenant: Name) -> bool
    ensures { IsTrue result ↔ HasPosts script.now events.now tenant }
{
    let mut cursor = Cursor::of_tenant(script.jobs(), tenant);
    for event in events {
        if !goes_on(event, tenant, &mut cursor) {
            return false;
        }
    }
    cursor.next().is_none()
}

/// Whether a tenant goes on with an event in what is due: the event is none of its posts, or the next one.
fn goes_on(event: &Event, tenant: Name, cursor: &mut Cursor<'_>) -> bool
    ensures { MatchBool result (GoesOn tenant event.now (due cursor.old) (due cursor.new))
        (Leaves tenant event.now (due cursor.old)) }
{
    if !is_post_of(event, tenant) {
        return true;
    }
    match cursor.next() {
        None => false,
        Some(due) => is_due(event, &due),
    }
}

/// Whether a tenant posted an event.
fn is_post_of(event: &Event, tenant: Name) -> bool
    ensures { result ≡ is_post_line tenant event.now }
{
    match event.post() {
        Some(post) => tenant == post.tenant,
        None => false,
    }
}

/// The names of the tenants of jobs, each once.
fn tenants_of(alloc: Global, jobs: &[ScriptJob]) -> Result<Vec<Name>, AllocError>
    ensures { IfOk result (λ v. v.items ≡ tenants_of jobs.now) }
{
    let mut tenants = Vec::new(alloc);
    for job in jobs {
        if !has_name(&tenants, job.tenant()) {
            tenants.push(job.tenant())?;
        }
    }
    Ok(tenants)
}

/// Whether a name is among these.
fn has_name(names: &[Name], name: Name) -> bool
    ensures { result ≡ list_any (bytes_eq name) names.now }
{
    names.iter().any(|other| name == *other)
}

/// Whether each event that was posted was by one of these tenants.
fn are_known(events: &[Event], tenants: &[Name]) -> bool
    ensures { result ≡ list_all (is_known tenants.now) events.now }
{
    events.iter().all(|event| is_known(event, tenants))
}

/// Whether an event was posted by one of these tenants, or by none.
fn is_known(event: &Event, tenants: &[Name]) -> bool
    ensures { result ≡ is_known tenants.now event.now }
{
    match event.post() {
        Some(post) => has_name(tenants, post.tenant),
        None => true,
    }
}
