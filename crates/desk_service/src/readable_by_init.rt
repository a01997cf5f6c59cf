//! Whether `init` could read the newest exports files: it reads them by profile 2, and older ones are of profile 1.

ghost use Rattle.std.specs.Prelude.{◌≡◌, ◌++◌, ◌∷◌, [], IfOk, OnOk, map};
ghost use Rattle.desk_core.specs.Head.{newest_in};
ghost use Rattle.desk_service.specs.ReadableByInit as spec;

use crate::texts::name_in;
use desk_core::{Head, State, can_be_kept};
use desk_exports::Profile;
use desk_policy::{PolicyView, SiteFault};
use desk_text::{ReadError, Text};
use std::alloc::{AllocError, Global};

/// Reads the site of these newest revisions by profile 2, or gives its fault. Nothing is stored.
pub fn read_by_second<V: PolicyView + Drop>(
    alloc: Global,
    heads: &[Head],
) -> Result<(), ReadError<SiteFault>>
    ensures { spec.Reads (spec.by_second (newest_in heads.now)) result }
{
    let read: Result<State<V>, _> = state_by_second(alloc, heads);
    match read {
        Ok(state) => {
            drop(state);
            Ok(())
        }
        Err(error) => Err(error),
    }
}

/// Makes the state of the site of these newest revisions, read by profile 2, or gives its fault. Nothing is stored.
#[tactic(auto, using(crate::proofs::SecondReading::starts))]
fn state_by_second<V: PolicyView + Drop>(
    alloc: Global,
    heads: &[Head],
) -> Result<State<V>, ReadError<SiteFault>>
    ensures { spec.Reads (spec.by_second (newest_in heads.now)) result }
{
    let copies = heads_by_second(alloc, heads)?;
    // The revisions of a desk are within the limits.
    if can_be_kept(copies.as_slice()) {
        State::from_heads(alloc, copies, Vec::new(alloc))
    } else {
        drop(copies);
        Err(ReadError::Memory)
    }
}

/// Copies these revisions, each to be read by profile 2.
fn heads_by_second(alloc: Global, heads: &[Head]) -> Result<Vec<Head>, AllocError>
    ensures { IfOk result (λ copies. newest_in copies.items ≡ spec.by_second (newest_in heads.now)) }
{
    let copies = copies_by_second(alloc, heads)?;
    Ok(copies)
}

/// Copies these revisions, in their order, each to be read by profile 2.
fn copies_by_second(alloc: Global, heads: &[Head]) -> Result<Vec<Head>, AllocError>
    ensures { IfOk result (λ copies. copies.items ≡ map spec.second heads.now) }
{
    let mut copies = Vec::new(alloc);
    for head in heads {
        push_second(alloc, head, &mut copies)?;
    }
    Ok(copies)
}

/// Adds a copy of a revision, to be read by profile 2.
fn push_second(alloc: Global, head: &Head, copies: &mut Vec<Head>) -> Result<(), AllocError>
    ensures { OnOk result (copies.new.items ≡ copies.old.items ++ spec.second head.now ∷ []) }
{
    let copy = second(alloc, head)?;
    copies.push(copy)?;
    Ok(())
}

/// Copies a revision, to be read by profile 2.
fn second(alloc: Global, head: &Head) -> Result<Head, AllocError>
    ensures { IfOk result (λ copy. copy ≡ spec.second head.now) }
{
    let file = Text::copy(alloc, head.file.as_str())?;
    let author = Text::copy(alloc, head.author.as_str())?;
    let approver = name_in(alloc, &head.approver)?;
    let body = Text::copy(alloc, head.body.as_str())?;
    Ok(Head {
        file,
        rev: head.rev,
        author,
        approver,
        profile: Profile::Two,
        body,
    })
}
