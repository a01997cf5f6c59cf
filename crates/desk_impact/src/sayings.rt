//! Whether the verdicts of two policies say the same.

ghost use Rattle.std.specs.Prelude.{◌≡◌};
ghost use Rattle.std.specs.Bool.{Decides};
ghost use Rattle.desk_policy.specs.Verdict.{verdict_result};
ghost use Rattle.desk_impact.specs.Impact.{mount_at, saying};

use desk_policy::{Denial, Policy, Verdict, same_terms};
use desk_tables::FsId;

/// Tests whether two verdicts, each under its policy, say the same: the line and the terms of a granted mount; or why it is
/// denied, of which mount point, and by which line.
pub fn say_the_same(
    before: &Policy,
    after: &Policy,
    verdict: &Verdict<'_>,
    other: &Verdict<'_>,
) -> bool
    ensures { Decides result (saying after.now (verdict_result other.now) ≡ saying before.now (verdict_result verdict.now)) }
{
    match (verdict, other) {
        (Verdict::Denied(denial), Verdict::Denied(other)) => deny_alike(
            before, after, denial, other,
        ),
        (
            Verdict::Granted { line, terms, .. },
            Verdict::Granted {
                line: other_line,
                terms: other_terms,
                ..
            },
        ) => other_line == line && same_terms(other_terms, terms),
        (Verdict::Granted { .. }, Verdict::Denied(_))
        | (Verdict::Denied(_), Verdict::Granted { .. }) => false,
    }
}

fn deny_alike(before: &Policy, after: &Policy, denial: &Denial, other: &Denial) -> bool
    ensures { Decides result (saying after.now (Err other.now) ≡ saying before.now (Err denial.now)) }
{
    match (denial, other) {
        (Denial::NoFileSystem, Denial::NoFileSystem) => true,
        (Denial::NoLine(fs), Denial::NoLine(other)) => same_mount(before, after, *fs, *other),
        (Denial::NotListed(fs, line), Denial::NotListed(other, other_line)) => {
            other_line == line && same_mount(before, after, *fs, *other)
        }
        _ => false,
    }
}

/// Tests whether file systems of two policies have one mount point, or neither has any.
pub fn same_mount(before: &Policy, after: &Policy, fs: FsId, other: FsId) -> bool
    ensures { Decides result (mount_at after.now other.0 ≡ mount_at before.now fs.0) }
{
    match (
        before.filesystems().mount(fs),
        after.filesystems().mount(other),
    ) {
        (Some(path), Some(other)) => *other == *path,
        (None, None) => true,
        (Some(_), None) | (None, Some(_)) => false,
    }
}
