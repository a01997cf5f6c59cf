//! How many addresses of which networks may mount some directory of a file system.

ghost use Rattle.std.specs.Prelude.{◌≡◌, ◌≤◌, ◌^◌, ◌++◌, All, OnOk, map};
ghost use Rattle.std.specs.String.{string_bytes};
ghost use Rattle.page_html.specs.Blocks.{element_html};
ghost use Rattle.page_html.specs.Parts.{item_of};
ghost use Rattle.page_html.specs.Tables.{row_html, rows_html};
ghost use Rattle.page_html.specs.declared.blocks.Element.TheVariants.{Cut};
ghost use Rattle.page_filesystem.specs.Shares as spec;

use desk_text::Addr;
use page_data::Counts;
use page_html::{
    Column, Element, Frame, Part, Tag, Title, push_element, push_row, push_table_start, push_tag,
};
use std::alloc::{AllocError, Global};

/// The table.
const SHARES: Frame = Frame {
    class: "s",
    is_titled: true,
    columns: &[
        Column::Name("Network"),
        Column::Count("has"),
        Column::Count("read-only"),
        Column::Count("read-write"),
        Column::Count("root kept"),
        Column::Count("may mount"),
    ],
};

/// Of which addresses a share is.
#[derive(Clone, Copy)]
pub enum Space {
    All,
    OutsidePrivate,
    /// The network that begins at this address, with so many bits.
    Network(Addr, u8),
}

/// How many of some addresses are of which class.
#[derive(Clone, Copy)]
pub struct Share {
    pub space: Space,
    pub counts: Counts,
}

/// Adds the table of shares of a file system with a name, folded but open, and how many networks are left out.
pub fn push_shares_block(
    alloc: Global,
    name: &str,
    shares: &[Share],
    left_out: u64,
    page: &mut String,
) -> Result<(), AllocError>
    requires { All spec.HasSize shares.now }
    ensures { OnOk result (string_bytes page.new ≡ string_bytes page.old ++ spec.shares_block name.now shares.now left_out) }
{
    push_element(
        alloc,
        Element::OpenFold,
        &[Part::Words("The same in numbers")],
        page,
    )?;
    push_shares(alloc, name, shares, page)?;
    push_networks_left_out(alloc, left_out, page)?;
    push_tag(Tag::FoldEnd, page)?;
    Ok(())
}

/// Adds the table of shares.
fn push_shares(
    alloc: Global,
    name: &str,
    shares: &[Share],
    page: &mut String,
) -> Result<(), AllocError>
    requires { All spec.HasSize shares.now }
    ensures { OnOk result (string_bytes page.new ≡ string_bytes page.old ++ spec.shares_table name.now shares.now) }
{
    push_table_start(
        alloc,
        &SHARES,
        &[
            Title::Said("Addresses that may mount some directory of "),
            Title::Named(name),
        ],
        page,
    )?;
    push_share_rows(alloc, shares, page)?;
    push_tag(Tag::TableEnd, page)?;
    Ok(())
}

/// Adds a row for each share.
#[tactic(auto, unfolding(page_html::specs::Tables::rows_html))]
fn push_share_rows(alloc: Global, shares: &[Share], page: &mut String) -> Result<(), AllocError>
    requires { All spec.HasSize shares.now }
    ensures { OnOk result (string_bytes page.new ≡ string_bytes page.old ++ rows_html spec.frame (map spec.cells shares.now)) }
{
    for share in shares {
        push_share(alloc, share, page)?;
    }
    Ok(())
}

/// Adds the row of a share.
fn push_share(alloc: Global, share: &Share, page: &mut String) -> Result<(), AllocError>
    requires { spec.HasSize share.now }
    ensures { OnOk result (string_bytes page.new ≡ string_bytes page.old ++ row_html spec.frame (spec.cells share.now)) }
{
    let granted = share.counts.granted();
    let size = share.counts.denied + granted;
    push_row(
        alloc,
        &SHARES,
        &[
            &[space_part(share.space)],
            &[Part::Number(size)],
            &[count_part(share.counts.read_only)],
            &[count_part(share.counts.read_write)],
            &[count_part(share.counts.root_kept)],
            &[
                Part::PartOf(granted, size),
                Part::Words(" "),
                Part::SmallPercent(granted, size),
            ],
        ],
        page,
    )
}

/// Returns what the addresses are called.
fn space_part<'a>(space: Space) -> Part<'a>
    ensures { item_of result ≡ spec.space_item space }
{
    match space {
        Space::All => Part::Words("all of IPv4"),
        Space::OutsidePrivate => Part::Words("outside private space"),
        Space::Network(first, prefix) => Part::Network(first, prefix),
    }
}

/// Returns how many of them are of a class.
fn count_part<'a>(count: u64) -> Part<'a>
    ensures { item_of result ≡ spec.count_item count }
{
    if count == 0 {
        Part::Zero("0")
    } else {
        Part::Number(count)
    }
}

/// Adds how many networks are left out, if some are.
fn push_networks_left_out(alloc: Global, count: u64, page: &mut String) -> Result<(), AllocError>
    ensures { OnOk result (string_bytes page.new ≡ string_bytes page.old ++ spec.networks_left_out count) }
{
    if count == 0 {
        return Ok(());
    }
    push_networks_cut(alloc, count, page)
}

/// Adds how many networks are left out.
fn push_networks_cut(alloc: Global, count: u64, page: &mut String) -> Result<(), AllocError>
    ensures { OnOk result (string_bytes page.new ≡ string_bytes page.old ++ element_html Cut (spec.networks_cut count)) }
{
    push_element(
        alloc,
        Element::Cut,
        &[
            Part::Plural(
                count,
                "more network that lines write is",
                "more networks that lines write are",
            ),
            Part::Words(" not listed, none of them wider."),
        ],
        page,
    )
}
