//! Badges of classes, marks of levels, and how many addresses are of which class, as parts of the page.

ghost use Rattle.std.specs.Prelude.{◌≡◌, ◌++◌, ◌∷◌, IfOk, OnOk, map};
ghost use Rattle.std.specs.List.{flat_map};
ghost use Rattle.page_html.specs.Parts.{item_of};
ghost use Rattle.page_findings.specs.Badges as spec;
ghost use Rattle.page_findings.specs.Joining.{comma};

use crate::joining::push_all;
use page_data::{Class, Counts, Level};
use page_html::Part;
use std::alloc::{AllocError, Global};

/// How many addresses there are.
const ALL: u64 = 1 << 32;

/// How it is told how many addresses are of a class.
#[derive(Clone, Copy)]
pub enum Measure {
    /// As a number, behind the class in words. There is no element, so that an attribute may have it, too.
    Count,
    /// As a part of all addresses, behind the badge of the class.
    Share,
}

/// Returns the badge of a class.
pub fn badge_part<'a>(class: Class) -> Part<'a>
    ensures { item_of result ≡ spec.badge_item class }
{
    match class {
        Class::Denied => Part::Badge("n", "denied"),
        Class::ReadOnly => Part::Badge("o", "read-only"),
        Class::ReadWrite => Part::Badge("w", "read-write"),
        Class::RootKept => Part::Badge("r", "root kept"),
    }
}

/// Returns the mark of a level.
pub fn level_part<'a>(level: Level) -> Part<'a>
    ensures { item_of result ≡ spec.level_item level }
{
    match level {
        Level::LookFirst => Part::Level("look-first", "look first"),
        Level::Check => Part::Level("check", "check"),
    }
}

/// Returns the words for a class.
fn words_of(class: Class) -> &'static str
    ensures { result.now ≡ spec.class_words class }
{
    match class {
        Class::Denied => "denied",
        Class::ReadOnly => "read-only",
        Class::ReadWrite => "read-write",
        Class::RootKept => "root kept",
    }
}

/// Gathers how many addresses are of which class.
pub fn measured<'a>(
    alloc: Global,
    measure: Measure,
    counts: &Counts,
) -> Result<Vec<Part<'a>>, AllocError>
    ensures { IfOk result (λ parts. map item_of parts.items ≡ spec.measured_items measure counts.now) }
{
    let classes = present(alloc, counts)?;
    let mut parts = Vec::new(alloc);
    push_classes(measure, counts, classes.as_slice(), &mut parts)?;
    Ok(parts)
}

/// Adds how many addresses are of these classes, with commas between them, or that there is nobody.
fn push_classes<'a>(
    measure: Measure,
    counts: &Counts,
    classes: &[Class],
    parts: &mut Vec<Part<'a>>,
) -> Result<(), AllocError>
    ensures { OnOk result (map item_of parts.new.items ≡ map item_of parts.old.items ++ spec.classes_items measure counts.now classes.now) }
{
    match classes {
        [] => push_all(&[Part::Words("nobody")], parts),
        [first, others @ ..] => {
            push_all(&class_parts(measure, counts, *first), parts)?;
            push_later_classes(measure, counts, others, parts)
        }
    }
}

/// Adds how many are of the classes behind the first.
fn push_later_classes<'a>(
    measure: Measure,
    counts: &Counts,
    classes: &[Class],
    parts: &mut Vec<Part<'a>>,
) -> Result<(), AllocError>
    ensures { OnOk result (map item_of parts.new.items
        ≡ map item_of parts.old.items ++ flat_map (λ class. comma ∷ spec.class_items measure counts.now class) classes.now) }
{
    for class in classes {
        push_all(&[Part::Words(", ")], parts)?;
        push_all(&class_parts(measure, counts, *class), parts)?;
    }
    Ok(())
}

/// Returns how many addresses are of a class. No line is broken before the number.
fn class_parts<'a>(measure: Measure, counts: &Counts, class: Class) -> [Part<'a>; 3]
    ensures { map item_of result ≡ spec.class_items measure counts.now class }
{
    let count = count_of(counts, class);
    match measure {
        Measure::Count => [
            Part::Words(words_of(class)),
            Part::Space,
            Part::Number(count),
        ],
        Measure::Share => [badge_part(class), Part::Space, Part::PartOf(count, ALL)],
    }
}

/// Gathers the classes of a mount that is granted which some address has, the most first.
#[tactic(auto, unfolding(crate::specs::Badges::present))]
fn present(alloc: Global, counts: &Counts) -> Result<Vec<Class>, AllocError>
    ensures { IfOk result (λ classes. classes.items ≡ spec.present counts.now) }
{
    let mut classes = Vec::new(alloc);
    push_if_any(&mut classes, counts, Class::RootKept)?;
    push_if_any(&mut classes, counts, Class::ReadWrite)?;
    push_if_any(&mut classes, counts, Class::ReadOnly)?;
    Ok(classes)
}

/// Adds a class, if some address has it.
fn push_if_any(classes: &mut Vec<Class>, counts: &Counts, class: Class) -> Result<(), AllocError>
    ensures { OnOk result (classes.new.items ≡ classes.old.items ++ spec.if_any counts.now class) }
{
    if count_of(counts, class) != 0 {
        classes.push(class)?;
    }
    Ok(())
}

/// Returns how many addresses are of a class.
fn count_of(counts: &Counts, class: Class) -> u64
    ensures { result ≡ spec.count_of counts.now class }
{
    match class {
        Class::Denied => counts.denied,
        Class::ReadOnly => counts.read_only,
        Class::ReadWrite => counts.read_write,
        Class::RootKept => counts.root_kept,
    }
}
