//! A map as an image.

ghost use Rattle.std.specs.Prelude.{◌≡◌, ◌++◌, ◌≤◌, IfOk, OnOk, codes, length};
ghost use Rattle.std.specs.List.{list_any};
ghost use Rattle.desk_text.specs.Network.{block_size};
ghost use Rattle.page_data.specs.Class.{same_class};
ghost use Rattle.page_findings.specs.Badges.{count_words};
ghost use Rattle.page_html.specs.Images.{image_html};
ghost use Rattle.page_html.specs.Parts.{item_of};
ghost use Rattle.page_maps.specs.Drawing as spec;

use crate::cells::Cell;
use crate::drawn_maps::DrawnMap;
use crate::paths::{Shape, push_ground_path, push_mark_path};
use desk_text::Net;
use page_data::{Class, Counts};
use page_findings::{Measure, measured};
use page_html::{Drawn, Part};
use std::alloc::{AllocError, Global};

/// Adds a map with the numbers of its rows, and a grid.
pub(crate) fn push_large_map(
    alloc: Global,
    drawn: &DrawnMap,
    image: &mut Drawn,
) -> Result<(), AllocError>
    requires { length drawn.now.cells ≡ 256 }
    ensures { OnOk result (image_html image.new ≡ image_html image.old ++ spec.large_map drawn.now) }
{
    image.push_fixed("<svg class=\"big\" viewBox=\"-15 -1 80 66\" role=\"img\" aria-label=\"")?;
    push_label(alloc, drawn, image)?;
    image.push_fixed(axis_of(drawn.network))?;
    push_map_paths(alloc, drawn.cells.as_slice(), image)?;
    image.push_fixed("<use href=\"#h\"/></svg>")?;
    Ok(())
}

/// Adds a map without them.
pub(crate) fn push_small_map(
    alloc: Global,
    drawn: &DrawnMap,
    image: &mut Drawn,
) -> Result<(), AllocError>
    requires { length drawn.now.cells ≡ 256 }
    ensures { OnOk result (image_html image.new ≡ image_html image.old ++ spec.small_map drawn.now) }
{
    image.push_fixed("<svg class=\"tiny\" viewBox=\"-1 -1 66 66\" role=\"img\" aria-label=\"")?;
    push_label(alloc, drawn, image)?;
    image.push_fixed("\"><use href=\"#g\"/>")?;
    push_map_paths(alloc, drawn.cells.as_slice(), image)?;
    image.push_fixed("</svg>")?;
    Ok(())
}

/// Returns the numbers of the rows, and the ground of the map.
fn axis_of(network: Net) -> &'static str
    ensures { result.now ≡ spec.axis network }
{
    if network.prefix().get() == 12 {
        "\"><use href=\"#y12\"/><use href=\"#g\"/>"
    } else {
        "\"><use href=\"#y\"/><use href=\"#g\"/>"
    }
}

/// Adds what is said to those who do not see the map.
fn push_label(alloc: Global, drawn: &DrawnMap, image: &mut Drawn) -> Result<(), AllocError>
    ensures { OnOk result (image_html image.new ≡ image_html image.old ++ spec.label drawn.now) }
{
    push_label_start(alloc, drawn.network, image)?;
    push_counts(alloc, &drawn.counts, image)?;
    push_label_end(alloc, drawn.network, image)?;
    Ok(())
}

/// Adds which network it is.
fn push_label_start(alloc: Global, network: Net, image: &mut Drawn) -> Result<(), AllocError>
    ensures { OnOk result (image_html image.new ≡ image_html image.old ++ spec.label_start network) }
{
    let parts = [
        Part::Words("Map of "),
        network_part(network),
        Part::Words(": "),
    ];
    image.push_parts(alloc, &parts)
}

/// Returns a network, which has its prefix even if it is one address.
pub(crate) fn network_part<'a>(network: Net) -> Part<'a>
    ensures { item_of result ≡ spec.network_item network }
{
    Part::Network(network.first(), network.prefix().get())
}

/// Adds how many of its addresses are of which class.
fn push_counts(alloc: Global, counts: &Counts, image: &mut Drawn) -> Result<(), AllocError>
    ensures { OnOk result (image_html image.new ≡ image_html image.old ++ count_words counts.now) }
{
    let parts = measured(alloc, Measure::Count, counts)?;
    image.push_parts(alloc, parts.as_slice())
}

/// Adds how many addresses it has.
fn push_label_end(alloc: Global, network: Net, image: &mut Drawn) -> Result<(), AllocError>
    ensures { OnOk result (image_html image.new ≡ image_html image.old ++ spec.label_end network) }
{
    let parts = [
        Part::Words(", of "),
        Part::Number(size_of(network)),
        Part::Words(" addresses"),
    ];
    image.push_parts(alloc, &parts)
}

/// Returns how many addresses a network has.
pub(crate) fn size_of(network: Net) -> u64
    ensures { result ≡ block_size network.prefix }
{
    1 << (32 - network.prefix().get())
}

/// Adds the grounds of each class, and the marks of each.
fn push_map_paths(alloc: Global, cells: &[Cell], image: &mut Drawn) -> Result<(), AllocError>
    requires { length cells.now ≡ 256 }
    ensures { OnOk result (image_html image.new ≡ image_html image.old ++ spec.map_paths cells.now) }
{
    push_grounds(alloc, cells, image)?;
    push_marks(alloc, cells, image)?;
    Ok(())
}

/// Adds the grounds of each class.
fn push_grounds(alloc: Global, cells: &[Cell], image: &mut Drawn) -> Result<(), AllocError>
    requires { length cells.now ≡ 256 }
    ensures { OnOk result (image_html image.new ≡ image_html image.old ++ spec.grounds cells.now) }
{
    push_grounds_for(alloc, cells, Class::ReadOnly, image)?;
    push_grounds_for(alloc, cells, Class::ReadWrite, image)?;
    push_grounds_for(alloc, cells, Class::RootKept, image)?;
    Ok(())
}

/// Adds the grounds of a class.
fn push_grounds_for(
    alloc: Global,
    cells: &[Cell],
    class: Class,
    image: &mut Drawn,
) -> Result<(), AllocError>
    requires { length cells.now ≡ 256 }
    ensures { OnOk result (image_html image.new ≡ image_html image.old ++ spec.ground_if_any class (spec.filled_for class cells.now)) }
{
    let filled = filled_for(alloc, cells, class)?;
    push_ground_if_any(alloc, filled.as_slice(), class, image)
}

/// Tells of each cell whether it is filled for a class.
#[tactic(auto, unfolding(crate::specs::Drawing::filled_for))]
fn filled_for(alloc: Global, cells: &[Cell], class: Class) -> Result<Vec<bool>, AllocError>
    ensures filled { IfOk result (λ filled. filled.items ≡ spec.filled_for class cells.now) }
    ensures count { IfOk result (λ filled. length filled.items ≡ length cells.now) }
{
    let mut filled = Vec::new(alloc);
    for cell in cells {
        filled.push(is_same(cell.least, class))?;
    }
    Ok(filled)
}

/// Tests whether two classes are the same.
fn is_same(class: Class, other: Class) -> bool
    ensures { result ≡ same_class class other }
{
    class.rank() == other.rank()
}

/// Adds the path of grounds, if any cell is filled.
fn push_ground_if_any(
    alloc: Global,
    which: &[bool],
    class: Class,
    image: &mut Drawn,
) -> Result<(), AllocError>
    requires { length which.now ≡ 256 }
    ensures { OnOk result (image_html image.new ≡ image_html image.old ++ spec.ground_if_any class which.now) }
{
    if has_any(which) {
        push_ground(alloc, which, class, image)
    } else {
        Ok(())
    }
}

/// Tests whether any cell is meant.
fn has_any(which: &[bool]) -> bool
    ensures { result ≡ list_any (λ is. is) which.now }
{
    which.iter().any(|is| *is)
}

/// Adds the path of grounds.
fn push_ground(
    alloc: Global,
    which: &[bool],
    class: Class,
    image: &mut Drawn,
) -> Result<(), AllocError>
    requires { length which.now ≡ 256 }
    ensures { OnOk result (image_html image.new ≡ image_html image.old ++ spec.ground class which.now) }
{
    image.push_fixed("<path class=\"")?;
    image.push_fixed(letter_of(class))?;
    image.push_fixed("\" d=\"")?;
    push_ground_path(alloc, which, image)?;
    image.push_fixed("\"/>")?;
    Ok(())
}

/// Returns the class of the style sheet for a class.
fn letter_of(class: Class) -> &'static str
    ensures { result.now ≡ spec.class_letter class }
{
    match class {
        Class::Denied => "n",
        Class::ReadOnly => "o",
        Class::ReadWrite => "w",
        Class::RootKept => "r",
    }
}

/// Adds the marks of each class.
fn push_marks(alloc: Global, cells: &[Cell], image: &mut Drawn) -> Result<(), AllocError>
    requires { length cells.now ≡ 256 }
    ensures { OnOk result (image_html image.new ≡ image_html image.old ++ spec.marks cells.now) }
{
    push_marks_for(alloc, cells, Class::ReadOnly, image)?;
    push_marks_for(alloc, cells, Class::ReadWrite, image)?;
    push_marks_for(alloc, cells, Class::RootKept, image)?;
    Ok(())
}

/// Adds the marks of a class.
fn push_marks_for(
    alloc: Global,
    cells: &[Cell],
    class: Class,
    image: &mut Drawn,
) -> Result<(), AllocError>
    requires { length cells.now ≡ 256 }
    ensures { OnOk result (image_html image.new ≡ image_html image.old ++ spec.mark_if_any class (spec.marked_for class cells.now)) }
{
    let marked = marked_for(alloc, cells, class)?;
    push_mark_if_any(marked.as_slice(), class, image)
}

/// Tells of each cell whether it is marked for a class.
#[tactic(auto, unfolding(crate::specs::Drawing::marked_for))]
fn marked_for(alloc: Global, cells: &[Cell], class: Class) -> Result<Vec<bool>, AllocError>
    ensures marked { IfOk result (λ marked. marked.items ≡ spec.marked_for class cells.now) }
    ensures count { IfOk result (λ marked. length marked.items ≡ length cells.now) }
{
    let mut marked = Vec::new(alloc);
    for cell in cells {
        marked.push(is_same(cell.most, class) && !is_same(cell.least, class))?;
    }
    Ok(marked)
}

/// Adds the path of marks, if any cell is marked.
fn push_mark_if_any(which: &[bool], class: Class, image: &mut Drawn) -> Result<(), AllocError>
    requires { length which.now ≡ 256 }
    ensures { OnOk result (image_html image.new ≡ image_html image.old ++ spec.mark_if_any class which.now) }
{
    if has_any(which) {
        push_mark(which, class, image)
    } else {
        Ok(())
    }
}

/// Adds the path of marks.
fn push_mark(which: &[bool], class: Class, image: &mut Drawn) -> Result<(), AllocError>
    requires { length which.now ≡ 256 }
    ensures { OnOk result (image_html image.new ≡ image_html image.old ++ spec.mark class which.now) }
{
    image.push_fixed("<path class=\"")?;
    image.push_fixed(letter_of(class))?;
    image.push_fixed(" k\" d=\"")?;
    push_mark_path(which, shape_of(class), image)?;
    image.push_fixed("\"/>")?;
    Ok(())
}

/// Returns the shape of the marks of a class.
fn shape_of(class: Class) -> Shape
    ensures { result ≡ spec.shape_of class }
{
    match class {
        Class::RootKept => Shape::Diamond,
        _ => Shape::Square,
    }
}
