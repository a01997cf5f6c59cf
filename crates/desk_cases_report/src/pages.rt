//! The page of a report.

use crate::revisions::Revisions;
use desk_cases_texts::answers::Asked;
use desk_cases_texts::sites::say_fault;
use desk_core::{State, can_be_kept, can_be_pending};
use desk_index::Index;
use page_lists::text_digest;
use page_site::page_of_state;
use std::alloc::Global;
use std::mem;

/// `page DB`: the page for this word, of a database with the revisions and the proposals that were kept, which are then forgotten: the
/// SHA-256 of the page, and how many bytes it has; or the fault of the site.
pub fn page(alloc: Global, revisions: &mut Revisions, out: &mut String, database: &str) -> Asked {
    let heads = mem::replace(&mut revisions.heads, Vec::new(alloc));
    let proposals = mem::replace(&mut revisions.proposals, Vec::new(alloc));
    if !can_be_kept(heads.as_slice()) || !can_be_pending(proposals.as_slice()) {
        drop(heads);
        drop(proposals);
        return Ok(false);
    }
    match State::<Index>::from_heads(alloc, heads, proposals) {
        Ok(state) => {
            let asked = of_state(alloc, &state, out, database);
            drop(state);
            asked
        }
        Err(error) => say_fault(out, error),
    }
}

/// Answers by the page of a state.
fn of_state(alloc: Global, state: &State<Index>, out: &mut String, database: &str) -> Asked {
    if !can_be_kept(state.heads()) {
        return Ok(false);
    }
    let page = page_of_state(alloc, database, state)?;
    say_page(alloc, out, page.as_str())
}

/// Answers with the digest of a page, and how long it is.
fn say_page(alloc: Global, out: &mut String, page: &str) -> Asked {
    let digest = text_digest(alloc, page)?;
    let (digest, bytes) = (digest.as_str(), page.len());
    write!(out, "{digest} {bytes}")?;
    Ok(true)
}
