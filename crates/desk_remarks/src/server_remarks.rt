//! What is said of lines by which mountd(8) does something else than this desk.

ghost use Rattle.std.specs.Prelude.{◌≡◌, ◌++◌, IfOk, OnOk, map};
ghost use Rattle.std.specs.List.{flat_map};
ghost use Rattle.std.specs.Option.{option_copied};
ghost use Rattle.desk_remarks.specs.Remarks as spec;
ghost use Rattle.desk_remarks.specs.Remarks.{server_remarks};

use crate::remark::{Example, LineRemark, Remark};
use crate::said_of_systems::Said;
use desk_server::{RepeatedClient, WiderGrant};
use desk_text::{Path, Sequence};
use std::alloc::AllocError;

/// Adds of each file system where the server grants more, and which lines have a client of an earlier one.
pub(crate) fn push_server(
    saids: &[Said<'_>],
    found: &mut Sequence<LineRemark>,
) -> Result<(), AllocError>
    ensures { OnOk result (found.new ≡ found.old ++ flat_map server_remarks saids.now) }
{
    for said in saids {
        push_of_one(said, found)?;
    }
    Ok(())
}

/// Adds that of one file system.
fn push_of_one(said: &Said<'_>, found: &mut Sequence<LineRemark>) -> Result<(), AllocError>
    ensures { OnOk result (found.new ≡ found.old ++ server_remarks said.now) }
{
    push_wider(said.wider.as_slice(), found)?;
    push_repeated(said.repeated.as_slice(), found)
}

/// Adds where the server grants more.
fn push_wider(wider: &[WiderGrant<'_>], found: &mut Sequence<LineRemark>) -> Result<(), AllocError>
    ensures { OnOk result (found.new ≡ found.old ++ map spec.wider_remark wider.now) }
{
    for one in wider {
        let remark = wider_remark(*one)?;
        found.push(remark)?;
    }
    Ok(())
}

/// Makes the remark that the server grants more.
fn wider_remark(wider: WiderGrant<'_>) -> Result<LineRemark, AllocError>
    ensures { IfOk result (λ remark. remark ≡ spec.wider_remark wider.entry) }
{
    let directory = copied(wider.directory)?;
    Ok(LineRemark {
        line: wider.line,
        remark: Remark::ServerGrantsMore,
        example: Some(Example {
            line: wider.other,
            address: wider.address,
        }),
        directory,
    })
}

/// Copies a path, if there is one.
fn copied(path: Option<&Path>) -> Result<Option<Path>, AllocError>
    ensures { IfOk result (λ copy. copy ≡ option_copied path.entry) }
{
    match path {
        Some(path) => Ok(Some(path.clone()?)),
        None => Ok(None),
    }
}

/// Adds which lines have a client of an earlier one.
fn push_repeated(
    repeated: &[RepeatedClient],
    found: &mut Sequence<LineRemark>,
) -> Result<(), AllocError>
    ensures { OnOk result (found.new ≡ found.old ++ map spec.repeated_remark repeated.now) }
{
    for one in repeated {
        found.push(LineRemark {
            line: one.line,
            remark: Remark::RepeatedClient,
            example: Some(Example {
                line: one.other,
                address: one.address,
            }),
            directory: None,
        })?;
    }
    Ok(())
}
