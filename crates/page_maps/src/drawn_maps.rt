//! What is drawn of a network.

ghost use Rattle.std.specs.Prelude.{◌≡◌, IfOk, map};
ghost use Rattle.page_data.specs.Classes.{class_run};
ghost use Rattle.page_data.specs.Values.{AreRunsOfSome};
ghost use Rattle.page_maps.specs.Maps.{IsWide};
ghost use Rattle.page_maps.specs.DrawnMaps.{IsDrawable, IsDrawnFrom};

use crate::cells::{Cell, cells_of};
use desk_text::{Net, Sequence};
use desk_who::Run;
use page_data::{Class, Counts, counts_add_up, counts_within};
use std::alloc::{AllocError, Global};

/// The map of a network: its cells, and how many of its addresses are of which class.
#[derive(Drop)]
pub struct DrawnMap {
    pub network: Net,
    pub cells: Sequence<Cell>,
    pub counts: Counts,
}

/// Gathers the map of a network.
pub fn drawn_map(alloc: Global, runs: &[Run<Class>], network: Net) -> Result<DrawnMap, AllocError>
    requires runs { AreRunsOfSome (map class_run runs.now) }
    requires wide { IsWide network }
    ensures network { IfOk result (λ drawn. drawn.network ≡ network) }
    ensures drawn { IfOk result (λ drawn. IsDrawnFrom (map class_run runs.now) drawn) }
    ensures drawable { IfOk result IsDrawable }
{
    counts_add_up();
    let counts = counts_within(runs, network.first(), network.last());
    let cells = cells_of(alloc, runs, network)?;
    Ok(DrawnMap {
        network,
        cells: Sequence::from_vec(cells),
        counts,
    })
}
