//! The cells of a map: a network in 256 parts of equal size, each with what its addresses may.

ghost use Rattle.std.specs.Prelude.{◌≡◌, ℕ, ◌<◌, ◌≤◌, ◌^◌, IfOk, map};
ghost use Rattle.desk_text.specs.Address.{number_of};
ghost use Rattle.desk_text.specs.Network.{last_of};
ghost use Rattle.page_data.specs.Classes.{class_run};
ghost use Rattle.page_data.specs.declared.class.Class.{Class};
ghost use Rattle.page_maps.specs.Cells.{AreCellsFrom, AreLeastAndMost, cell_size};
ghost use Rattle.page_maps.specs.PrivateCells.{AreMet, TellClasses, least_of, spread_of, with_run};

use desk_text::{Addr, Net};
use desk_who::Run;
use page_data::Class;
use std::alloc::{AllocError, Global};

/// How many cells a map has.
const CELLS: u32 = 256;

/// The least and the most that addresses of a cell may.
#[derive(Clone, Copy)]
pub struct Cell {
    pub least: Class,
    pub most: Class,
}

/// Lists the cells of the map of a network, in the order of their addresses. The runs that meet the network are found by binary
/// searches, and those of each cell among them, so that maps of small networks cost little in a long list of runs.
pub fn cells_of(alloc: Global, runs: &[Run<Class>], network: Net) -> Result<Vec<Cell>, AllocError>
    requires { network.prefix ≤ 24 }
    ensures { IfOk result (λ cells. AreCellsFrom (map class_run runs.now) network cells.items) }
{
    let start = network.first().number();
    let own = meeting(runs, network.first(), network.last());
    let size = size_of_cells(network);
    let mut cells = Vec::new(alloc);
    for number in 0..CELLS {
        let first = start + number * size;
        let last = first + (size - 1);
        cells.push(cell_at(own, Addr::from_number(first), Addr::from_number(last)))?;
    }
    Ok(cells)
}

/// Returns how many addresses each cell of a network has.
fn size_of_cells(network: Net) -> u32
    requires { network.prefix ≤ 24 }
    ensures size { result ≡ cell_size network.prefix }
    ensures within { last_of network < 2 ^ 32 }
{
    (network.last().number() - network.first().number()) / CELLS + 1
}

/// Lends those of the runs that have an address of a range, by a binary search for the first and one for the last.
fn meeting(runs: &[Run<Class>], first: Addr, last: Addr) -> &[Run<Class>]
    ensures { (class_at : ℕ → Class) → TellClasses class_at (number_of first) (number_of last) runs.now
        → AreMet class_at (number_of first) (number_of last) result.now }
{
    let low = first.number();
    let high = last.number();
    let before = runs.partition_point(|run| run.last.number() < low);
    let rest = &runs[before..];
    let count = rest.partition_point(|run| run.first.number() <= high);
    &rest[..count]
}

/// Finds what the addresses of a cell may, given the runs that have addresses of the network.
fn cell_at(runs: &[Run<Class>], first: Addr, last: Addr) -> Cell
    requires { number_of first ≤ number_of last }
    ensures { (class_at : ℕ → Class) → TellClasses class_at (number_of first) (number_of last) runs.now
        → AreLeastAndMost class_at (number_of first) (number_of last) result }
{
    spread(meeting(runs, first, last))
}

/// Finds the least and the most of the classes of runs; of none the most and the least that there are.
fn spread(runs: &[Run<Class>]) -> Cell
    ensures { result ≡ spread_of runs.now }
{
    let mut cell = Cell {
        least: Class::RootKept,
        most: Class::Denied,
    };
    for run in runs {
        cell = with_run(cell, *run);
    }
    cell
}

/// Adds the addresses of a run to those of a cell.
fn with_run(cell: Cell, run: Run<Class>) -> Cell
    ensures { result ≡ with_run cell run }
{
    Cell {
        least: least(cell.least, run.value),
        most: cell.most.most(run.value),
    }
}

/// Returns the less of two classes.
fn least(class: Class, other: Class) -> Class
    ensures { result ≡ least_of class other }
{
    if other.rank() < class.rank() {
        other
    } else {
        class
    }
}
