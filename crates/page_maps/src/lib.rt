//! The maps of a report, and its table of networks: which maps of networks show where the most that clients may changes,
//! the cells of each, the maps as SVG, and what the addresses of each network may mount, on which file systems.
//!
//! ```text
//! let maps = maps_of(alloc, runs)?;                     // 0.0.0.0/0, 10.0.0.0/8, 10.20.0.0/16
//! let cells = cells_of(alloc, runs, maps[1])?;
//! cells[20].most                                        // Class::ReadOnly: some address of 10.20.0.0/16 may read
//!
//! push_shapes(&mut page)?;                              // once
//! push_file_system_maps(alloc, runs, &mut page)?;       // 0.0.0.0/0, 10.0.0.0/8, 172.16.0.0/12, 192.168.0.0/16, ..
//! push_networks(alloc, policy, &systems, &mut page)?;
//! ```
#![tactic(auto)]

pub mod cells;
mod drawing;
pub mod drawn_maps;
pub mod figures;
pub mod laws;
pub mod line_networks;
pub mod maps;
pub mod network_cells;
pub mod network_laws;
pub mod network_table;
pub mod networks;
mod order;
mod paths;
pub mod shapes;

pub use cells::{Cell, cells_of};
pub use drawn_maps::{DrawnMap, drawn_map};
pub use figures::{FixedMaps, overview_maps, push_file_system_maps, push_group_maps};
pub use laws::{
    cells_cover_the_network, grounds_have_just_the_cells, maps_are_exact_together,
    maps_are_told_in_one_way, needed_maps_are_told, networks_are_told_in_one_way, seams_are_shown,
};
pub use line_networks::{written_in_site, written_networks};
pub use maps::{maps_of, with_fixed_maps};
pub use network_laws::alike_means_all;
pub use network_table::push_networks;
pub use networks::{NetworkRow, SystemClass, SystemCounts, network_rows};
pub use shapes::push_shapes;
