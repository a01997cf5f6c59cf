//! The newest of a database's revisions.

ghost use Rattle.std.specs.Prelude.{◌≡◌, ◌≢◌, ◌+◌, ◌==◌, ℕ, List, Contains, Err, IfErr, IfOk, IsPermutation, OnOk, filter, map, if◌then◌else◌};
ghost use Rattle.std.specs.List.Sorted.{IsNonDecreasingBy};
ghost use Rattle.std.specs.Str.{bytes_eq};
ghost use Rattle.desk_core.specs.Head.{Revision, StandOnce, newest_in};
ghost use Rattle.desk_core.specs.History.{IsHistory, newest_of};
ghost use Rattle.desk_core.specs.declared.entry.Entry.TheVariants.{Revised};
ghost use Rattle.desk_store.specs.NewestRevisions.{AreNewest, number_in};
ghost use Rattle.desk_store.specs.Open.{IsOfRows};
ghost use Rattle.desk_store.specs.declared.error.DeskError.TheVariants as error;

use crate::error::DeskError;
use desk_core::{Head, standing_of_a_longer_history};
use std::alloc::{AllocError, Global};
use std::collections::BTreeMap;

/// Finds the newest revision of each file, if the revisions of each file are numbered 1, 2, .. without a gap; else `Schema`.
pub(crate) fn newest_heads(alloc: Global, revisions: Vec<Head>) -> Result<Vec<Head>, DeskError>
    ensures newest { IfOk result (λ heads. (history : List Revision) × IsPermutation revisions.items history × IsHistory (map Revised history) × (newest_in heads.items ≡ newest_of (map Revised history))) }
    ensures among { IfOk result (λ heads. (head : Revision) → Contains heads.items head → Contains revisions.items head) }
    ensures once { IfOk result (λ heads. StandOnce heads.items) }
    ensures gap { result ≡ Err error.Schema → (history : List Revision) → IsPermutation revisions.items history → IsHistory (map Revised history) → ⊥ }
    ensures errors { IfErr result IsOfRows }
{
    let Ok(mut revisions) = by_number(revisions) else {
        return Err(DeskError::Memory);
    };
    match newest_numbers(alloc, revisions.as_slice()) {
        Ok(numbers) => {
            keep_newest(&mut revisions, &numbers);
            Ok(revisions)
        }
        Err(e) => Err(e),
    }
}

/// Puts revisions into the order of their numbers.
fn by_number(mut revisions: Vec<Head>) -> Result<Vec<Head>, AllocError>
    ensures same { IfOk result (λ sorted. IsPermutation revisions.items sorted.items) }
    ensures order { IfOk result (λ sorted. IsNonDecreasingBy (λ (revision : Revision). revision.rev) sorted.items) }
{
    revisions.sort_by_key(|revision| revision.rev)?;
    Ok(revisions)
}

/// Keeps the number of a file's next revision; `Schema` if it is not the next one.
fn keep_number(
    alloc: Global,
    numbers: &mut BTreeMap<String, u32>,
    revision: &Head,
) -> Result<(), DeskError>
    ensures next { OnOk result (revision.now.rev ≡ number_in numbers.old revision.now.file + 1) }
    ensures kept { OnOk result ((file : List ℕ) → number_in numbers.new file
        ≡ (if bytes_eq revision.now.file file then revision.now.rev else number_in numbers.old file)) }
    ensures gap { result ≡ Err error.Schema → revision.now.rev ≢ number_in numbers.old revision.now.file + 1 }
    ensures errors { IfErr result IsOfRows }
{
    if revision.rev == 0 || number_of(numbers, revision.file.as_str()) != revision.rev - 1 {
        return Err(DeskError::Schema);
    }
    let Ok(file) = String::from_str(alloc, revision.file.as_str()) else {
        return Err(DeskError::Memory);
    };
    if numbers.insert(file, revision.rev).is_err() {
        return Err(DeskError::Memory);
    }
    Ok(())
}

/// Returns the number that is kept of a file, 0 if there is none.
fn number_of(numbers: &BTreeMap<String, u32>, file: &str) -> u32
    ensures { result ≡ number_in numbers.now file.now }
{
    match numbers.get(file) {
        Some(number) => *number,
        None => 0,
    }
}

/// Finds the number of each file's newest revision, if each revision's number is that after those of its file before it;
/// else `Schema`.
fn newest_numbers(alloc: Global, revisions: &[Head]) -> Result<BTreeMap<String, u32>, DeskError>
    ensures history { IfOk result (λ numbers. IsHistory (map Revised revisions.now)) }
    ensures newest { IfOk result (λ numbers. AreNewest numbers (map Revised revisions.now)) }
    ensures gap { result ≡ Err error.Schema → IsHistory (map Revised revisions.now) → ⊥ }
    ensures errors { IfErr result IsOfRows }
{
    standing_of_a_longer_history();
    let mut numbers: BTreeMap<String, u32> = BTreeMap::new(alloc);
    for revision in revisions {
        if let Err(e) = keep_number(alloc, &mut numbers, revision) {
            return Err(e);
        }
    }
    Ok(numbers)
}

/// Tests whether a revision has the number that is kept of its file.
fn is_newest(numbers: &BTreeMap<String, u32>, revision: &Head) -> bool
    ensures { result ≡ (number_in numbers.now revision.now.file == revision.now.rev) }
{
    number_of(numbers, revision.file.as_str()) == revision.rev
}

/// Leaves those revisions that have the number that is kept of their file.
fn keep_newest(revisions: &mut Vec<Head>, numbers: &BTreeMap<String, u32>)
    ensures { revisions.new.items ≡ filter (λ (revision : Revision). number_in numbers.now revision.file == revision.rev) revisions.old.items }
{
    revisions.retain(|revision| is_newest(numbers, revision));
}
