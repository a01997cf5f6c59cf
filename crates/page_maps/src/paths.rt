//! The paths of a map: its 256 cells in 16 rows of 16, of which some are filled, or marked.

ghost use Rattle.std.specs.Prelude.{◌≡◌, ◌++◌, ◌<◌, ◌≤◌, IfOk, OnOk, length, not};
ghost use Rattle.std.specs.List.{position};
ghost use Rattle.page_html.specs.Images.{image_html};
ghost use Rattle.page_maps.specs.Paths as spec;

use page_html::Drawn;
use std::alloc::{AllocError, Global};

/// The shape of a mark.
#[derive(Clone, Copy)]
pub(crate) enum Shape {
    Square,
    Diamond,
}

/// How many rows a map has, and how many cells a row.
const ROWS: usize = 16;

/// How many cells a map has.
const CELLS: usize = 256;

/// Adds the grounds of the cells that are meant: neighbouring rows that are whole in one piece, and the longest pieces of each other row.
pub(crate) fn push_ground_path(
    alloc: Global,
    which: &[bool],
    image: &mut Drawn,
) -> Result<(), AllocError>
    requires { length which.now ≡ 256 }
    ensures { OnOk result (image_html image.new ≡ image_html image.old ++ spec.ground_path which.now) }
{
    let wholes = whole_rows(alloc, which)?;
    push_rows(which, wholes.as_slice(), image)
}

/// Tells of each row whether it is whole.
fn whole_rows(alloc: Global, which: &[bool]) -> Result<Vec<bool>, AllocError>
    requires { length which.now ≡ 256 }
    ensures { IfOk result (λ wholes. wholes.items ≡ spec.whole_rows which.now) }
{
    let mut wholes = Vec::new(alloc);
    for y in 0..ROWS {
        wholes.push(is_whole(row_of(which, y)))?;
    }
    Ok(wholes)
}

/// Lends the cells of a row.
fn row_of(which: &[bool], y: usize) -> &[bool]
    requires cells { length which.now ≡ 256 }
    requires row { y < 16 }
    ensures row { result.now ≡ spec.row_of which.now y }
    ensures cells { length result.now ≡ 16 }
{
    &which[16 * y..16 * y + 16]
}

/// Tests whether all cells of a row are meant.
fn is_whole(row: &[bool]) -> bool
    ensures { result ≡ spec.is_whole row.now }
{
    row.iter().all(|is| *is)
}

/// Adds what begins in each row, given which rows are whole.
fn push_rows(which: &[bool], wholes: &[bool], image: &mut Drawn) -> Result<(), AllocError>
    requires cells { length which.now ≡ 256 }
    requires wholes { wholes.now ≡ spec.whole_rows which.now }
    ensures { OnOk result (image_html image.new ≡ image_html image.old ++ spec.ground_path which.now) }
{
    for y in 0..ROWS {
        push_row(which, wholes, y, image)?;
    }
    Ok(())
}

/// Adds what begins in a row.
fn push_row(which: &[bool], wholes: &[bool], y: usize, image: &mut Drawn) -> Result<(), AllocError>
    requires cells { length which.now ≡ 256 }
    requires rows { length wholes.now ≡ 16 }
    requires row { y < 16 }
    ensures { OnOk result (image_html image.new ≡ image_html image.old ++ spec.row_path which.now wholes.now y) }
{
    let row = row_of(which, y);
    if is_whole(row) {
        push_whole_at(wholes, y, image)
    } else {
        push_pieces(row, y, image)
    }
}

/// Adds whole rows that are neighbours, if this is the first of them.
fn push_whole_at(wholes: &[bool], y: usize, image: &mut Drawn) -> Result<(), AllocError>
    requires rows { length wholes.now ≡ 16 }
    requires row { y < 16 }
    ensures { OnOk result (image_html image.new ≡ image_html image.old ++ spec.whole_at wholes.now y) }
{
    if begins_at(wholes, y) {
        push_rectangle(0, y, ROWS, length_from(wholes, y), image)
    } else {
        Ok(())
    }
}

/// Adds the longest pieces of a row.
fn push_pieces(row: &[bool], y: usize, image: &mut Drawn) -> Result<(), AllocError>
    requires cells { length row.now ≡ 16 }
    requires row { y < 16 }
    ensures { OnOk result (image_html image.new ≡ image_html image.old ++ spec.pieces row.now y) }
{
    for x in 0..ROWS {
        push_piece_at(row, x, y, image)?;
    }
    Ok(())
}

/// Adds a longest piece of a row, if it begins here.
fn push_piece_at(row: &[bool], x: usize, y: usize, image: &mut Drawn) -> Result<(), AllocError>
    requires cells { length row.now ≡ 16 }
    requires cell { x < 16 }
    requires row { y < 16 }
    ensures { OnOk result (image_html image.new ≡ image_html image.old ++ spec.piece_at row.now y x) }
{
    if begins_at(row, x) {
        push_rectangle(x, y, length_from(row, x), 1, image)
    } else {
        Ok(())
    }
}

/// Tests whether a longest piece begins at a place.
fn begins_at(which: &[bool], place: usize) -> bool
    requires { place < length which.now }
    ensures { result ≡ spec.begins_at which.now place }
{
    which[place] && (place == 0 || !which[place - 1])
}

/// Counts those that are meant from a place on, before the first that is not.
fn length_from(which: &[bool], place: usize) -> usize
    requires { place < length which.now }
    ensures length { result ≡ spec.length_from which.now place }
    ensures few { result ≤ length which.now }
{
    let (_, rest) = which.split_at(place);
    match end_of(rest) {
        Some(end) => end,
        None => rest.len(),
    }
}

/// Finds the first that is not meant.
fn end_of(which: &[bool]) -> Option<usize>
    ensures { result ≡ position not which.now }
{
    which.iter().position(|is| !*is)
}

/// Adds a rectangle, by its left and its upper edge, its width and its height, all counted in cells.
fn push_rectangle(
    left: usize,
    top: usize,
    width: usize,
    height: usize,
    image: &mut Drawn,
) -> Result<(), AllocError>
    requires left { left < 16 }
    requires top { top < 16 }
    requires width { width ≤ 16 }
    requires height { height ≤ 16 }
    ensures { OnOk result (image_html image.new ≡ image_html image.old ++ spec.rectangle left top width height) }
{
    push_place(4 * left, 4 * top, image)?;
    push_side("h", width, image)?;
    push_side("v", height, image)?;
    push_side("h-", width, image)?;
    image.push_fixed("z")
}

/// Adds where a shape begins.
fn push_place(x: usize, y: usize, image: &mut Drawn) -> Result<(), AllocError>
    ensures { OnOk result (image_html image.new ≡ image_html image.old ++ spec.place x y) }
{
    image.push_fixed("M")?;
    image.push_digits(x as u64)?;
    image.push_fixed(" ")?;
    image.push_digits(y as u64)
}

/// Adds a side, as many cells long, by the way in which it goes.
fn push_side(way: &'static str, cells: usize, image: &mut Drawn) -> Result<(), AllocError>
    requires { cells ≤ 16 }
    ensures { OnOk result (image_html image.new ≡ image_html image.old ++ spec.side way.now cells) }
{
    image.push_fixed(way)?;
    image.push_digits(4 * cells as u64)
}

/// Adds the marks of the cells that are meant.
pub(crate) fn push_mark_path(
    which: &[bool],
    mark: Shape,
    image: &mut Drawn,
) -> Result<(), AllocError>
    requires { length which.now ≡ 256 }
    ensures { OnOk result (image_html image.new ≡ image_html image.old ++ spec.mark_path which.now mark) }
{
    for cell in 0..CELLS {
        push_mark_at(which, mark, cell, image)?;
    }
    Ok(())
}

/// Adds the mark of a cell, if it is meant.
fn push_mark_at(
    which: &[bool],
    mark: Shape,
    cell: usize,
    image: &mut Drawn,
) -> Result<(), AllocError>
    requires cells { length which.now ≡ 256 }
    requires cell { cell < 256 }
    ensures { OnOk result (image_html image.new ≡ image_html image.old ++ spec.mark_at which.now mark cell) }
{
    if which[cell] {
        push_shape(mark, cell % ROWS, cell / ROWS, image)
    } else {
        Ok(())
    }
}

/// Adds a square in the middle of a cell, or a diamond as large as the cell.
fn push_shape(mark: Shape, x: usize, y: usize, image: &mut Drawn) -> Result<(), AllocError>
    requires x { x < 16 }
    requires y { y < 16 }
    ensures { OnOk result (image_html image.new ≡ image_html image.old ++ spec.shape mark x y) }
{
    match mark {
        Shape::Square => {
            push_place(4 * x + 1, 4 * y + 1, image)?;
            image.push_fixed("h2v2h-2z")
        }
        Shape::Diamond => {
            push_place(4 * x + 2, 4 * y, image)?;
            image.push_fixed("l2 2-2 2-2-2z")
        }
    }
}
