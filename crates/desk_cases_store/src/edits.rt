//! Questions on edits of a site's files, asked of a state in memory. While a desk is open they are asked of it (`desks`).

use crate::stores::Fresh;
use crate::subject::Subject;
use crate::views::ByKeys;
use desk_cases_texts::answers::{Asked, number, say, split};
use desk_cases_texts::policies::say_verdict;
use desk_cases_texts::sites::{keep, say_fault};
use desk_core::{Edit, Entry, Head, Judged, Proposal, Refusal, State, can_be_kept, can_be_pending};
use desk_exports::Profile;
use desk_policy::{PolicyView, SiteFault};
use desk_text::{Addr, Path, ReadError, Text};
use std::alloc::{AllocError, Global};
use std::mem;

/// The heads and the proposals of the state to come, and the state that was made last.
#[derive(Drop)]
pub struct Edits<V: PolicyView + Drop> {
    heads: Vec<Head>,
    proposals: Vec<Proposal>,
    state: Option<State<V>>,
}

impl<V: PolicyView + Drop> Edits<V> {
    /// No heads, no proposals, and no state.
    pub fn new(alloc: Global) -> Edits<V> {
        Edits {
            heads: Vec::new(alloc),
            proposals: Vec::new(alloc),
            state: None,
        }
    }
}

/// Answers a question on edits.
pub fn answer<S: Fresh, V: ByKeys>(
    alloc: Global,
    subject: &mut Subject<S, V>,
    out: &mut String,
    question: &str,
    text: &str,
) -> Asked {
    match question {
        "head" => head(alloc, subject.site.profile, &mut subject.edits, out, text),
        "pending" => pending(alloc, &mut subject.edits, out, text),
        "state" => start(alloc, &mut subject.edits, out),
        "keys_in_force" => keys_in_force(alloc, subject, out),
        _ => match &mut subject.edits.state {
            Some(state) => of_state(alloc, state, out, question, text),
            None => Ok(false),
        },
    }
}

/// Answers a question on a state.
fn of_state<V: PolicyView + Drop>(
    alloc: Global,
    state: &mut State<V>,
    out: &mut String,
    question: &str,
    text: &str,
) -> Asked {
    match question {
        "edit" => edit(alloc, state, out, text),
        "heads" => heads(state, out),
        "newest" => say_newest(out, state.newest(text)),
        "approver" => say_approver(out, state.newest(text)),
        "profile_of" => say_profile(out, state.newest(text)),
        "proposal" => say_proposal(out, state.proposal(text)),
        "in_force" => in_force(alloc, state.view(), out, text),
        _ => Ok(false),
    }
}

/// `head FILE REV AUTHOR TEXT`: `kept`. Adds the newest revision of a file to the state to come, which nobody approved, and
/// which is read by the profile that was set last.
fn head<V: PolicyView + Drop>(
    alloc: Global,
    profile: Profile,
    edits: &mut Edits<V>,
    out: &mut String,
    text: &str,
) -> Asked {
    let (file, rest) = split(text);
    let (rev, rest) = split(rest);
    match number(rev) {
        Some(rev) => {
            let head = head_of(alloc, profile, file, rev, rest)?;
            edits.heads.push(head)?;
            say(out, "kept")
        }
        None => Ok(false),
    }
}

fn head_of(
    alloc: Global,
    profile: Profile,
    file: &str,
    rev: u32,
    text: &str,
) -> Result<Head, AllocError> {
    let (author, body) = split(text);
    let file = Text::copy(alloc, file)?;
    let author = Text::copy(alloc, author)?;
    let body = Text::copy(alloc, body)?;
    Ok(Head {
        file,
        rev,
        author,
        approver: None,
        profile,
        body,
    })
}

/// `pending FILE BASE AUTHOR TEXT`: `kept`. Adds the proposal of a file to the state to come.
fn pending<V: PolicyView + Drop>(
    alloc: Global,
    edits: &mut Edits<V>,
    out: &mut String,
    text: &str,
) -> Asked {
    let (file, rest) = split(text);
    let (base, rest) = split(rest);
    match number(base) {
        Some(base) => {
            edits.proposals.push(proposal_of(alloc, file, base, rest)?)?;
            say(out, "kept")
        }
        None => Ok(false),
    }
}

fn proposal_of(alloc: Global, file: &str, base: u32, text: &str) -> Result<Proposal, AllocError> {
    let (author, body) = split(text);
    let file = Text::copy(alloc, file)?;
    let author = Text::copy(alloc, author)?;
    let body = Text::copy(alloc, body)?;
    Ok(Proposal {
        file,
        base,
        author,
        body,
    })
}

/// `state`: `in force`, or the fault. Makes the state of the heads and the proposals, which are then forgotten.
fn start<V: PolicyView + Drop>(alloc: Global, edits: &mut Edits<V>, out: &mut String) -> Asked {
    let heads = mem::replace(&mut edits.heads, Vec::new(alloc));
    let proposals = mem::replace(&mut edits.proposals, Vec::new(alloc));
    if !can_be_kept(heads.as_slice()) || !can_be_pending(proposals.as_slice()) {
        drop(heads);
        drop(proposals);
        return Ok(false);
    }
    set_state(edits, out, State::from_heads(alloc, heads, proposals))
}

fn set_state<V: PolicyView + Drop>(
    edits: &mut Edits<V>,
    out: &mut String,
    state: Result<State<V>, ReadError<SiteFault>>,
) -> Asked {
    match state {
        Ok(state) => {
            edits.state = Some(state);
            say(out, "in force")
        }
        Err(error) => say_fault(out, error),
    }
}

/// `edit FILE BASE CALLER KEY TEXT`: `stored 2`, and the edit is in force; `proposed 2`; `already 2`, or `already proposed 2`;
/// or the refusal, as it is printed.
fn edit<V: PolicyView + Drop>(
    alloc: Global,
    state: &mut State<V>,
    out: &mut String,
    text: &str,
) -> Asked {
    let Some(edit) = edit_of(text) else {
        return Ok(false);
    };
    match put(alloc, state, &edit) {
        Ok(done) => say_done(out, done),
        Err(error) => say_refused(out, error),
    }
}

/// What an edit is answered that is not refused.
#[derive(Clone, Copy)]
struct Answered {
    number: u32,
    already: bool,
    proposed: bool,
}

/// Puts an edit in force, or keeps its proposal.
fn put<V: PolicyView + Drop>(
    alloc: Global,
    state: &mut State<V>,
    edit: &Edit<'_>,
) -> Result<Answered, ReadError<Refusal>> {
    match state.judge(alloc, edit)? {
        Judged::Accepted(accepted) => {
            let done = answer_of(accepted.entry());
            state.apply(accepted);
            Ok(done)
        }
        Judged::Already { rev, proposed } => Ok(Answered {
            number: rev,
            already: true,
            proposed,
        }),
    }
}

/// Returns what is answered for what is stored: a proposal is answered with the number that its revision would have.
fn answer_of(entry: &Entry) -> Answered {
    let (number, proposed) = match entry {
        Entry::Revised(head) => (head.rev, false),
        Entry::Proposed(proposal) => (proposal.base.saturating_add(1), true),
    };
    Answered {
        number,
        already: false,
        proposed,
    }
}

fn say_done(out: &mut String, done: Answered) -> Asked {
    say_answer(out, done.number, done.already, done.proposed)
}

/// Answers an edit that is not refused.
pub fn say_answer(out: &mut String, number: u32, already: bool, proposed: bool) -> Asked {
    let answer = match (already, proposed) {
        (false, false) => "stored",
        (false, true) => "proposed",
        (true, false) => "already",
        (true, true) => "already proposed",
    };
    write!(out, "{answer} {number}")?;
    Ok(true)
}

/// Returns the edit `FILE BASE CALLER KEY TEXT`.
pub fn edit_of(text: &str) -> Option<Edit<'_>> {
    let (file, rest) = split(text);
    let (base, rest) = split(rest);
    let (caller, rest) = split(rest);
    let (key, text) = split(rest);
    let base = number(base)?;
    Some(Edit {
        file,
        base,
        caller,
        key,
        text,
    })
}

/// `newest FILE`: the number, the author and the text of its newest revision, or `none`.
pub fn say_newest(out: &mut String, newest: Option<&Head>) -> Asked {
    if let Some(head) = newest {
        let (number, author, body) = (head.rev, head.author.as_str(), head.body.as_str());
        write!(out, "{number} {author} {body}")?;
    }
    Ok(true)
}

/// `approver FILE`: who approved its newest revision, or `none`.
pub fn say_approver(out: &mut String, newest: Option<&Head>) -> Asked {
    match newest {
        Some(head) => say_some(out, &head.approver),
        None => Ok(true),
    }
}

fn say_some(out: &mut String, text: &Option<Text>) -> Asked {
    match text {
        Some(text) => say(out, text.as_str()),
        None => Ok(true),
    }
}

/// `profile_of FILE`: the number of the profile by which its newest revision is read, or `none`.
pub fn say_profile(out: &mut String, newest: Option<&Head>) -> Asked {
    if let Some(head) = newest {
        let number = head.profile.number();
        write!(out, "{number}")?;
    }
    Ok(true)
}

/// `proposal FILE`: the base, the author and the text of its proposal, or `none`.
pub fn say_proposal(out: &mut String, proposal: Option<&Proposal>) -> Asked {
    if let Some(proposal) = proposal {
        let (base, author, body) = (
            proposal.base,
            proposal.author.as_str(),
            proposal.body.as_str(),
        );
        write!(out, "{base} {author} {body}")?;
    }
    Ok(true)
}

fn say_refused(out: &mut String, error: ReadError<Refusal>) -> Asked {
    match error {
        ReadError::Memory => Err(AllocError),
        ReadError::Fault(refusal) => {
            write!(out, "{refusal}")?;
            Ok(true)
        }
    }
}

/// `heads`: the newest revision of each file, as the state has them: its file, its number and its author, with `; `
/// between them.
fn heads<V: PolicyView + Drop>(state: &State<V>, out: &mut String) -> Asked {
    for (place, head) in state.heads().iter().enumerate() {
        if place > 0 {
            out.push_str("; ")?;
        }
        add_head(out, head)?;
    }
    Ok(true)
}

/// Adds the file, the number and the author of a revision.
pub fn add_head(out: &mut String, head: &Head) -> Result<(), AllocError> {
    let (file, author) = (head.file.as_str(), head.author.as_str());
    let number = head.rev;
    write!(out, "{file} {number} {author}")
}

/// `in_force CLIENT PATH`: the verdict by the view of the state, or of the desk, as it is printed.
pub fn in_force<V: PolicyView + Drop>(
    alloc: Global,
    view: &V,
    out: &mut String,
    text: &str,
) -> Asked {
    let (client, path) = split(text);
    let Ok(client) = Addr::read(client) else {
        return Ok(false);
    };
    match Path::read(alloc, path) {
        Ok(path) => say_verdict(alloc, view.policy(), out, &view.decide(client, &path)),
        Err(_) => Ok(false),
    }
}

/// `keys_in_force`: what `keys` answers, of the view of the state, or of the desk, and its newest texts.
fn keys_in_force<S: Fresh, V: ByKeys>(
    alloc: Global,
    subject: &mut Subject<S, V>,
    out: &mut String,
) -> Asked {
    let Some(state) = &subject.edits.state else {
        return Ok(false);
    };
    let mut texts = desk_policy::Site::new(alloc);
    let asked = match keep_heads(alloc, &mut texts, state.heads()) {
        Ok(()) => state
            .view()
            .compare_keys(alloc, &mut subject.keys, &texts, out),
        Err(error) => Err(error),
    };
    drop(texts);
    asked
}

/// Sets the texts of the files of these revisions.
fn keep_heads(
    alloc: Global,
    texts: &mut desk_policy::Site,
    heads: &[Head],
) -> Result<(), AllocError> {
    for head in heads {
        keep_head(alloc, texts, head)?;
    }
    Ok(())
}

/// Sets the text of the file of a revision.
pub fn keep_head(
    alloc: Global,
    texts: &mut desk_policy::Site,
    head: &Head,
) -> Result<(), AllocError> {
    let body = Text::copy(alloc, head.body.as_str())?;
    keep(alloc, texts, head.profile, head.file.as_str(), body)?;
    Ok(())
}
