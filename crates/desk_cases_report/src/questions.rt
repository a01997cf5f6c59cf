//! Questions on what an auditor's report tells of a site: of that which the texts write that were kept last (`file`), and which is
//! consistent. It is compiled anew for each question, but for those of `standing` into both views; if the index tells something else, both
//! are told (`add_by_keys`).

ghost use Rattle.std.specs.Prelude.{◌≡◌, [], map};
ghost use Rattle.desk_impact.specs.Sections.{section_value};
ghost use Rattle.desk_policy.specs.Site.{HaveReadableLengths, texts_of};
ghost use Rattle.page_data.specs.Classes.{class_run};
ghost use Rattle.page_data.specs.Laws.{IsSoundSite, TellVerdicts};
ghost use Rattle.page_data.specs.Systems.{AreSystems, system_value};
ghost use Rattle.page_data.specs.Values.{AreRunsOfSome};

use crate::subject::Subject;
use crate::{classes, lines, pages, places, revisions, standing};
use desk_cases_texts::answers::{Asked, number, split};
use desk_cases_texts::indexes::add_by_keys;
use desk_cases_texts::sites::say_fault;
use desk_index::Index;
use desk_policy::{Plain, Policy, PolicyView, compile};
use desk_text::Path;
use page_data::{FileSystemReport, orders_tell_verdicts, sites_are_sound, systems_of_site};
use std::alloc::Global;

/// Answers a question on a page, on what a report tells, or on the texts of the site and the policy that they write.
pub fn answer(
    alloc: Global,
    subject: &mut Subject,
    out: &mut String,
    question: &str,
    text: &str,
) -> Asked {
    let Subject { site, revisions } = subject;
    match question {
        "head" => revisions::head(alloc, revisions, site.profile, out, text),
        "pending" => revisions::pending(alloc, revisions, out, text),
        "page" => pages::page(alloc, revisions, out, text),
        _ => Ok(
            of_texts(alloc, &site.texts, out, question, text)?
                || desk_cases_texts::answer(alloc, site, out, question, text)?,
        ),
    }
}

/// Answers a question on what a report tells.
fn of_texts(
    alloc: Global,
    texts: &desk_policy::Site,
    out: &mut String,
    question: &str,
    text: &str,
) -> Asked {
    if !texts.is_readable() {
        return Ok(false);
    }
    match question {
        "classes" | "counts" | "grants" | "places" | "table" | "place_classes" => {
            by_both(alloc, texts, out, question, text)
        }
        "stands_out" | "deciding" => standing::by_index(alloc, texts, out, question, text),
        _ => Ok(false),
    }
}

/// Answers by both views.
fn by_both(
    alloc: Global,
    texts: &desk_policy::Site,
    out: &mut String,
    question: &str,
    text: &str,
) -> Asked
    requires { HaveReadableLengths (texts_of texts.now) }
{
    let mut by_keys = String::new(alloc);
    Ok(
        by_view::<Plain>(alloc, texts, out, question, text)?
            && by_view::<Index>(alloc, texts, &mut by_keys, question, text)?
            && add_by_keys(out, by_keys.as_str())?,
    )
}

/// Answers by a view, or with the fault of the site.
fn by_view<V: PolicyView + Drop>(
    alloc: Global,
    texts: &desk_policy::Site,
    out: &mut String,
    question: &str,
    text: &str,
) -> Asked
    requires { HaveReadableLengths (texts_of texts.now) }
{
    match compile::<V>(alloc, texts) {
        Ok(view) => {
            sites_are_sound(view.policy());
            let asked = of_view(alloc, &view, out, question, text);
            drop(view);
            asked
        }
        Err(error) => say_fault(out, error),
    }
}

/// Answers by a view of a site that is sound.
fn of_view<V: PolicyView>(
    alloc: Global,
    view: &V,
    out: &mut String,
    question: &str,
    text: &str,
) -> Asked
    requires { IsSoundSite (V.in_force view.now) }
{
    match Path::read(alloc, "/") {
        Ok(root) => of_site(alloc, view, &root, out, question, text),
        Err(_) => Ok(false),
    }
}

/// Answers by what is told of a site, given the path `/`.
fn of_site<V: PolicyView>(
    alloc: Global,
    view: &V,
    root: &Path,
    out: &mut String,
    question: &str,
    text: &str,
) -> Asked
    requires root { root.now ≡ [] }
    requires sound { IsSoundSite (V.in_force view.now) }
{
    let systems = systems_of_site(alloc, view, root)?;
    of_systems(alloc, view.policy(), systems, out, question, text)
}

/// Answers by what is told of each file system. The text begins with the number of one; `classes` alone is the whole site.
fn of_systems(
    alloc: Global,
    policy: &Policy,
    systems: Vec<FileSystemReport<'_>>,
    out: &mut String,
    question: &str,
    text: &str,
) -> Asked
    requires sound { IsSoundSite policy.now }
    requires systems { AreSystems policy.now (map system_value systems.items) }
{
    if question == "classes" && text.is_empty() {
        return classes::of_site(alloc, systems.as_slice(), out);
    }
    let (fs, behind) = split(text);
    match number(fs) {
        Some(fs) => of_number(alloc, policy, systems, fs, out, question, behind),
        None => Ok(false),
    }
}

/// Answers by what is told of the file system with a number, if there is one.
fn of_number(
    alloc: Global,
    policy: &Policy,
    mut systems: Vec<FileSystemReport<'_>>,
    fs: u32,
    out: &mut String,
    question: &str,
    text: &str,
) -> Asked
    requires sound { IsSoundSite policy.now }
    requires systems { AreSystems policy.now (map system_value systems.items) }
{
    orders_tell_verdicts();
    let place = fs as usize;
    if systems.len() <= place {
        return Ok(false);
    }
    let system = systems.swap_remove(place);
    of_system(alloc, policy, system, out, question, text)
}

/// Answers by what is told of a file system.
fn of_system(
    alloc: Global,
    policy: &Policy,
    system: FileSystemReport<'_>,
    out: &mut String,
    question: &str,
    text: &str,
) -> Asked
    requires classes { AreRunsOfSome (map class_run system.classes) }
    requires told { TellVerdicts (map section_value system.sections) }
{
    match question {
        "classes" => classes::say(out, system.classes.as_slice()),
        "counts" => classes::counts(out, system.classes.as_slice(), text),
        "grants" => lines::grants(out, system.grants.as_slice()),
        "places" => places::groups(alloc, out, system.sections.into_vec()),
        "table" => places::table(alloc, policy, out, system.sections.into_vec(), text),
        "place_classes" => places::classes(alloc, out, system.sections.as_slice(), text),
        _ => Ok(false),
    }
}
