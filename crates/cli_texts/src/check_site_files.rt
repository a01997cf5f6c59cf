//! The command `check --site DIR`: every fault and warning of the files in a site's folder, of which some may be missing.

ghost use Rattle.std.specs.Prelude.{◌≡◌, ◌≢◌, ◌≤◌, codes, IfOk, IfSome, length};
ghost use Rattle.std.specs.Option.{option_map};
ghost use Rattle.std.specs.Result.{result_map_both};
ghost use Rattle.std.specs.String.{string_bytes};
ghost use Rattle.desk_text.specs.Lines.{IsReadable};
ghost use Rattle.desk_findings.specs.CheckFaults.{AreReadable};
ghost use Rattle.desk_findings.specs.CheckFolder.{AreReadableSystems, IsReadableIfThere, systems_of};
ghost use Rattle.cli_files.specs.FolderSystems.{AreShort};
ghost use Rattle.cli_texts.specs.CheckCommand.{AnswersFolder, AnswersFolderTexts, AnswersSite, AreCustodians, ReadsCustodians};
ghost use Rattle.cli_sources.specs.WholeFiles.{files_of};

use crate::check_command::print_findings;
use crate::findings_form::FindingsForm;
use cli_files::files::read_if_there;
use cli_files::folder_systems::{FolderSystems, read_systems};
use cli_output::failure::Failure;
use cli_output::printed::Printed;
use cli_sources::subject::SiteFolder;
use cli_sources::systems::systems_files;
use cli_sources::whole_files::{WholeFiles, read_whole_texts, whole_sources};
use desk_findings::{Source, Systems, WholeSources, gather_folder};
use std::alloc::Global;
use std::io::BufRead;

/// Answers by the files of a site's folder, with opinions if they are asked for. Whether the custodians of its file systems are listed is
/// asked only if it has custodians.
pub fn check_site<I: BufRead>(
    rt: &HostRuntime,
    opinions: bool,
    form: FindingsForm,
    ignored: Option<&[u32]>,
    folder: &SiteFolder,
    files: WholeFiles<'_>,
    input: &mut I,
) -> Result<Printed, Failure>
    ensures { AnswersSite opinions form (option_map (λ numbers. numbers.now) ignored.entry) folder.now (files_of files.entry) (I.remaining input.old) result }
{
    let kept = read_custodians(rt, folder, input)?;
    let systems = read_systems(rt, "--site", systems_files(folder), input)?;
    let asked = CheckAsked {
        opinions,
        form,
        ignored,
        custodians: custodians_of(folder, &kept),
    };
    check_folder(rt, asked, folder, systems, files, input)
}

/// Reads the text of a folder's custodians, if they are there.
fn read_custodians<I: BufRead>(
    rt: &HostRuntime,
    folder: &SiteFolder,
    input: &mut I,
) -> Result<Option<String>, Failure>
    ensures text { ReadsCustodians folder.now (result_map_both (option_map string_bytes) (λ failure. failure) result) }
    ensures short { IfOk result (λ found. IfSome found (λ text. length (string_bytes text) ≤ 16777216)) }
    ensures untouched { string_bytes folder.now.paths.custodians ≢ codes "-" → input.new ≡ input.old }
{
    read_if_there(rt, "--site", folder.paths.custodians.as_str(), input)
}

/// Lends the text of a folder's custodians with its path, if they are there.
fn custodians_of<'a>(folder: &'a SiteFolder, text: &'a Option<String>) -> Option<Source<'a>>
    requires { IfSome text.now (λ one. length (string_bytes one) ≤ 16777216) }
    ensures are { AreCustodians folder.entry.now (option_map string_bytes text.entry.now) result }
    ensures readable { IsReadableIfThere result }
{
    match text {
        Some(text) => Some(Source {
            path: folder.paths.custodians.as_str(),
            text: text.as_str(),
            origins: &[],
        }),
        None => None,
    }
}

/// How a folder is checked: with opinions or without, in which form, without the warnings of which numbers, and with which custodians.
#[derive(Clone, Copy)]
pub struct CheckAsked<'a> {
    pub opinions: bool,
    pub form: FindingsForm,
    pub ignored: Option<&'a [u32]>,
    pub custodians: Option<Source<'a>>,
}

/// Answers by the file systems of a folder.
fn check_folder<I: BufRead>(
    rt: &HostRuntime,
    asked: CheckAsked<'_>,
    folder: &SiteFolder,
    systems: FolderSystems,
    files: WholeFiles<'_>,
    input: &mut I,
) -> Result<Printed, Failure>
    requires custodians { IsReadableIfThere asked.custodians }
    requires short { AreShort systems }
    ensures { AnswersFolder asked.entry folder.now systems (files_of files.entry) (I.remaining input.old) result }
{
    let texts = read_whole_texts(rt, files, input)?;
    let whole = whole_sources(files, &texts);
    match systems {
        FolderSystems::Mounted(filesystems) => {
            check_texts(rt.alloc(), asked, Systems::Mounted(filesystems), whole)
        }
        FolderSystems::Listed(text) => {
            let source = Source {
                path: folder.paths.filesystems.as_str(),
                text: text.as_str(),
                origins: &[],
            };
            check_texts(rt.alloc(), asked, Systems::Listed(source), whole)
        }
    }
}

/// Answers by the texts of a folder.
fn check_texts<'a>(
    alloc: Global,
    asked: CheckAsked<'a>,
    systems: Systems<'a>,
    whole: WholeSources<'a>,
) -> Result<Printed, Failure>
    requires custodians { IsReadableIfThere asked.custodians }
    requires systems { AreReadableSystems systems }
    requires tables { AreReadable whole.tables }
    requires exports { IsReadable whole.exports.text.now }
    ensures { AnswersFolderTexts asked.entry (systems_of systems.entry) whole.entry result }
{
    let gathered = gather_folder(alloc, asked.custodians, systems, whole, asked.opinions)?;
    Ok(print_findings(alloc, asked.form, asked.ignored, gathered)?)
}
