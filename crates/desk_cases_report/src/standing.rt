//! Questions on why lines stand out, of the site that the texts write that were kept last. They are answered by an index alone, since what
//! mountd(8) does is found by one.

ghost use Rattle.std.specs.Prelude.{◌≡◌, [], map};
ghost use Rattle.page_findings.specs.Deciding.{AreSectionsOf};
ghost use Rattle.desk_impact.specs.Sections.{section_value};
ghost use Rattle.desk_policy.specs.Site.{HaveReadableLengths, texts_of};
ghost use Rattle.page_data.specs.Grants.{AreGrants};
ghost use Rattle.page_data.specs.Laws.{IsSound, IsSoundSite};

use crate::lines;
use desk_cases_texts::answers::{Asked, number, split};
use desk_cases_texts::sites::say_fault;
use desk_index::Index;
use desk_policy::{PolicyView, compile};
use desk_tables::FsId;
use desk_text::Path;
use page_data::{
    FileSystemReport, reasons_of_lines, server_findings, sites_are_sound, systems_of_site,
};
use std::alloc::Global;

/// Answers by an index, or with the fault of the site.
pub fn by_index(
    alloc: Global,
    texts: &desk_policy::Site,
    out: &mut String,
    question: &str,
    text: &str,
) -> Asked
    requires { HaveReadableLengths (texts_of texts.now) }
{
    match compile::<Index>(alloc, texts) {
        Ok(index) => {
            sites_are_sound(index.policy());
            let asked = of_index(alloc, &index, out, question, text);
            drop(index);
            asked
        }
        Err(error) => say_fault(out, error),
    }
}

/// Answers by the index of a sound site. The text is the number of a file system.
fn of_index(alloc: Global, index: &Index, out: &mut String, question: &str, text: &str) -> Asked
    requires { IsSoundSite index.now }
{
    let (fs, _) = split(text);
    let Some(fs) = number(fs) else {
        return Ok(false);
    };
    match Path::read(alloc, "/") {
        Ok(root) => of_site(alloc, index, &root, fs, out, question),
        Err(_) => Ok(false),
    }
}

/// Answers by what is told of a site, given the path `/`, of the file system with a number, if there is one.
fn of_site(
    alloc: Global,
    index: &Index,
    root: &Path,
    fs: u32,
    out: &mut String,
    question: &str,
) -> Asked
    requires root { root.now ≡ [] }
    requires sound { IsSoundSite index.now }
{
    let systems = systems_of_site(alloc, index, root)?;
    match systems.as_slice().get(fs as usize) {
        Some(system) => of_system(alloc, index, FsId(fs), system, out, question),
        None => Ok(false),
    }
}

/// Answers by what is told of a file system.
fn of_system(
    alloc: Global,
    index: &Index,
    fs: FsId,
    system: &FileSystemReport<'_>,
    out: &mut String,
    question: &str,
) -> Asked
    requires sound { IsSound index.now fs.0 }
    requires grants { AreGrants index.now fs.0 system.now.grants }
    requires sections { AreSectionsOf index.now fs.0 (map section_value system.now.sections) }
{
    let policy = index.policy();
    let server = server_findings(alloc, index, fs)?;
    let reasons = reasons_of_lines(alloc, policy, fs, system.grants.as_slice(), &server)?;
    match question {
        "deciding" => lines::deciding(alloc, policy, fs, system, reasons.as_slice(), out),
        _ => lines::stands_out(out, reasons.as_slice()),
    }
}
