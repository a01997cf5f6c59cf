//! The table of the networks that lines write.

ghost use Rattle.std.specs.Prelude.{◌≡◌, ◌++◌, OnOk, map};
ghost use Rattle.std.specs.String.{string_bytes};
ghost use Rattle.page_data.specs.Laws.{IsSoundSite};
ghost use Rattle.page_data.specs.Systems.{AreSystems, system_value};
ghost use Rattle.page_html.specs.Tables.{row_html, rows_html};
ghost use Rattle.page_maps.specs.NetworkTable as spec;
ghost use Rattle.page_maps.specs.NetworkTable.{GainsNetworks};

use crate::drawing::{network_part, size_of};
use crate::line_networks::written_in_site;
use crate::network_cells::{alike_parts, mixed_parts};
use crate::networks::{NetworkRow, network_rows};
use desk_policy::Policy;
use page_data::FileSystemReport;
use page_html::{
    Column, Element, Frame, Part, Tag, Title, four_cells, push_element, push_row, push_table_start,
    push_tag,
};
use std::alloc::{AllocError, Global};

/// So many networks are listed.
const MOST: usize = 64;

/// The table.
const NETWORKS: Frame = Frame {
    class: "p",
    is_titled: false,
    columns: &[
        Column::Name("Network"),
        Column::Count("Addresses"),
        Column::Plain("All of it, alike"),
        Column::Plain("Parts of it, and how many addresses"),
    ],
};

/// Adds the table of the networks that lines write, given what is found of each file system. For each that is listed, all ranges of
/// classes of all file systems are gone over.
pub fn push_networks(
    alloc: Global,
    policy: &Policy,
    systems: &[FileSystemReport<'_>],
    page: &mut String,
) -> Result<(), AllocError>
    requires sound { IsSoundSite policy.now }
    requires systems { AreSystems policy.now (map system_value systems.now) }
    ensures { OnOk result (GainsNetworks policy.now (string_bytes page.old) (string_bytes page.new)) }
{
    let written = written_in_site(alloc, policy)?;
    let all = written.as_slice();
    let (listed, others) = all.split_at(MOST.min(all.len()));
    let rows = network_rows(alloc, policy, systems, listed)?;
    push_table(alloc, policy, rows.as_slice(), others.len() as u64, page)
}

/// Adds the table, or that there is no network, given how many are not listed.
fn push_table(
    alloc: Global,
    policy: &Policy,
    rows: &[NetworkRow],
    more: u64,
    page: &mut String,
) -> Result<(), AllocError>
    ensures { OnOk result (string_bytes page.new ≡ string_bytes page.old ++ spec.networks_text policy.now rows.now more) }
{
    if rows.is_empty() {
        push_element(
            alloc,
            Element::Paragraph,
            &[Part::Words("No line writes a network, but for /0 or one of IPv6.")],
            page,
        )
    } else {
        push_some_networks(alloc, policy, rows, more, page)
    }
}

/// Adds the table.
fn push_some_networks(
    alloc: Global,
    policy: &Policy,
    rows: &[NetworkRow],
    more: u64,
    page: &mut String,
) -> Result<(), AllocError>
    ensures { OnOk result (string_bytes page.new ≡ string_bytes page.old ++ spec.some_networks policy.now rows.now more) }
{
    push_element(
        alloc,
        Element::Paragraph,
        &[Part::Words(
            "The networks that lines write, but for /0 and those of IPv6, the widest first, and what their addresses may mount at the most, on some directory of each file system.",
        )],
        page,
    )?;
    push_table_start(
        alloc,
        &NETWORKS,
        &[Title::Said("What the networks may mount that lines write")],
        page,
    )?;
    push_rows(alloc, policy, rows, page)?;
    push_tag(Tag::TableEnd, page)?;
    push_left_out(alloc, more, page)?;
    Ok(())
}

/// Adds the rows.
#[tactic(auto, unfolding(page_html::specs::Tables::rows_html))]
fn push_rows(
    alloc: Global,
    policy: &Policy,
    rows: &[NetworkRow],
    page: &mut String,
) -> Result<(), AllocError>
    ensures { OnOk result (string_bytes page.new ≡ string_bytes page.old ++ rows_html spec.frame (map (spec.cells policy.now) rows.now)) }
{
    for row in rows {
        push_network(alloc, policy, row, page)?;
    }
    Ok(())
}

/// Adds the row of a network.
fn push_network(
    alloc: Global,
    policy: &Policy,
    row: &NetworkRow,
    page: &mut String,
) -> Result<(), AllocError>
    ensures { OnOk result (string_bytes page.new ≡ string_bytes page.old ++ row_html spec.frame (spec.cells policy.now row.now)) }
{
    let alike = alike_parts(alloc, policy, row.alike.as_slice())?;
    let mixed = mixed_parts(alloc, policy, row.parts.as_slice())?;
    push_row(
        alloc,
        &NETWORKS,
        &four_cells(
            &[network_part(row.network)],
            &[Part::Number(size_of(row.network))],
            alike.as_slice(),
            mixed.as_slice(),
        ),
        page,
    )
}

/// Adds how many networks are not listed, if there are any.
fn push_left_out(alloc: Global, count: u64, page: &mut String) -> Result<(), AllocError>
    ensures { OnOk result (string_bytes page.new ≡ string_bytes page.old ++ spec.left_out count) }
{
    if count == 0 {
        return Ok(());
    }
    push_element(
        alloc,
        Element::Cut,
        &[
            Part::Plural(count, "more network is", "more networks are"),
            Part::Words(" not listed, none of them wider."),
        ],
        page,
    )
}
