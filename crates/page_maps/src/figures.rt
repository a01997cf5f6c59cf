//! The maps of a part of the page.

ghost use Rattle.std.specs.Prelude.{◌≡◌, ◌++◌, All, IfOk, OnOk, map};
ghost use Rattle.std.specs.String.{string_bytes};
ghost use Rattle.page_data.specs.Classes.{class_run};
ghost use Rattle.page_data.specs.Values.{AreRunsOfSome};
ghost use Rattle.page_html.specs.Images.{image_html};
ghost use Rattle.page_html.specs.Parts.{item_of};
ghost use Rattle.page_maps.specs.Maps.{IsWide};
ghost use Rattle.page_maps.specs.DrawnMaps.{IsDrawable};
ghost use Rattle.page_maps.specs.Figures as spec;
ghost use Rattle.page_maps.specs.PrivateFigures.{GainsFigures, IsSmallMapOf};

use crate::drawing::{network_part, push_large_map, push_small_map, size_of};
use crate::drawn_maps::{DrawnMap, drawn_map};
use crate::maps::{fixed_networks, maps_of, with_fixed_maps};
use desk_text::Net;
use desk_who::Run;
use page_data::Class;
use page_html::{Drawn, Element, Part, Tag, push_element, push_tag};
use std::alloc::{AllocError, Global};

/// How many maps a file system has at most, and how many a group of directories: `most_of_file_system` and `most_of_group`.
const MOST_OF_FILE_SYSTEM: usize = 12;

const MOST_OF_GROUP: usize = 6;

/// The small maps that each file system has: of all addresses, and of the private networks, the widest first.
#[derive(Drop)]
pub struct FixedMaps {
    pub all: Drawn,
    pub wide: Drawn,
    pub middle: Drawn,
    pub narrow: Drawn,
}

/// Adds the maps of a file system: those that each one has, and then the others that are needed, at most 12; and how many are not drawn.
pub fn push_file_system_maps(
    alloc: Global,
    runs: &[Run<Class>],
    page: &mut String,
) -> Result<(), AllocError>
    requires { AreRunsOfSome (map class_run runs.now) }
    ensures { OnOk result (spec.GainsFileSystemMaps (map class_run runs.now) (string_bytes page.old) (string_bytes page.new)) }
{
    let needed = maps_of(alloc, runs)?;
    let maps = with_fixed_maps(alloc, needed.as_slice())?;
    push_maps(alloc, runs, maps.as_slice(), MOST_OF_FILE_SYSTEM, page)?;
    Ok(())
}

/// Adds the maps of a group of directories: those that are needed, at most 6; and how many are not drawn.
pub fn push_group_maps(
    alloc: Global,
    runs: &[Run<Class>],
    page: &mut String,
) -> Result<(), AllocError>
    requires { AreRunsOfSome (map class_run runs.now) }
    ensures { OnOk result (spec.GainsGroupMaps (map class_run runs.now) (string_bytes page.old) (string_bytes page.new)) }
{
    let needed = maps_of(alloc, runs)?;
    push_maps(alloc, runs, needed.as_slice(), MOST_OF_GROUP, page)?;
    Ok(())
}

/// Draws the maps of a row of the table of file systems: those that each one has.
pub fn overview_maps(alloc: Global, runs: &[Run<Class>]) -> Result<FixedMaps, AllocError>
    requires { AreRunsOfSome (map class_run runs.now) }
    ensures { IfOk result (λ maps. spec.AreOverviewMaps (map class_run runs.now) (spec.images_of maps)) }
{
    let [all, wide, middle, narrow] = fixed_networks();
    Ok(FixedMaps {
        all: small_map(alloc, runs, all)?,
        wide: small_map(alloc, runs, wide)?,
        middle: small_map(alloc, runs, middle)?,
        narrow: small_map(alloc, runs, narrow)?,
    })
}

/// Adds the maps of the first so many networks, and how many others there are.
fn push_maps(
    alloc: Global,
    runs: &[Run<Class>],
    networks: &[Net],
    most: usize,
    page: &mut String,
) -> Result<(), AllocError>
    requires runs { AreRunsOfSome (map class_run runs.now) }
    requires wide { All IsWide networks.now }
    ensures { OnOk result (spec.GainsMaps (map class_run runs.now) most networks.now (string_bytes page.old) (string_bytes page.new)) }
{
    let (shown, rest) = networks.split_at(most.min(networks.len()));
    push_tag(Tag::MapsStart, page)?;
    push_figures(alloc, runs, shown, page)?;
    push_tag(Tag::MapsEnd, page)?;
    push_not_drawn(alloc, rest, page)?;
    Ok(())
}

/// Adds a figure for each network.
fn push_figures(
    alloc: Global,
    runs: &[Run<Class>],
    networks: &[Net],
    page: &mut String,
) -> Result<(), AllocError>
    requires runs { AreRunsOfSome (map class_run runs.now) }
    requires wide { All IsWide networks.now }
    ensures { OnOk result (GainsFigures (map class_run runs.now) networks.now (string_bytes page.old) (string_bytes page.new)) }
{
    for network in networks {
        let drawn = drawn_map(alloc, runs, *network)?;
        push_figure(alloc, &drawn, page)?;
    }
    Ok(())
}

/// Adds a figure.
fn push_figure(alloc: Global, drawn: &DrawnMap, page: &mut String) -> Result<(), AllocError>
    requires { IsDrawable drawn.now }
    ensures { OnOk result (string_bytes page.new ≡ string_bytes page.old ++ spec.figure drawn.now) }
{
    let image = figure_image(alloc, drawn)?;
    push_element(alloc, Element::Figure, &[Part::Drawn(&image)], page)?;
    Ok(())
}

/// Draws a map with its caption.
fn figure_image(alloc: Global, drawn: &DrawnMap) -> Result<Drawn, AllocError>
    requires { IsDrawable drawn.now }
    ensures { IfOk result (λ image. image_html image ≡ spec.figure_image drawn.now) }
{
    let mut image = Drawn::new(alloc);
    push_large_map(alloc, drawn, &mut image)?;
    push_caption(alloc, drawn, &mut image)?;
    Ok(image)
}

/// Adds what a network is called, and how many of its addresses may mount something.
fn push_caption(alloc: Global, drawn: &DrawnMap, image: &mut Drawn) -> Result<(), AllocError>
    requires { IsDrawable drawn.now }
    ensures { OnOk result (image_html image.new ≡ image_html image.old ++ spec.caption drawn.now) }
{
    let granted = drawn.counts.granted();
    image.push_fixed("<figcaption><b>")?;
    image.push_parts(alloc, &[name_part(drawn.network)])?;
    image.push_fixed("</b> ")?;
    image.push_parts(alloc, &[Part::PartOf(granted, size_of(drawn.network))])?;
    image.push_fixed(" may</figcaption>")?;
    Ok(())
}

/// Returns what a network is called.
fn name_part<'a>(network: Net) -> Part<'a>
    ensures { item_of result ≡ spec.name_item network }
{
    if network.prefix().get() == 0 {
        Part::Words("all of IPv4")
    } else {
        network_part(network)
    }
}

/// Adds how many maps are not drawn, if any.
fn push_not_drawn(alloc: Global, networks: &[Net], page: &mut String) -> Result<(), AllocError>
    ensures { OnOk result (string_bytes page.new ≡ string_bytes page.old ++ spec.not_drawn networks.now) }
{
    if networks.is_empty() {
        return Ok(());
    }
    push_cut(alloc, networks, page)
}

/// Adds how many maps are not drawn, and how many of them are of which prefix.
fn push_cut(alloc: Global, networks: &[Net], page: &mut String) -> Result<(), AllocError>
    ensures { OnOk result (string_bytes page.new ≡ string_bytes page.old ++ spec.cut networks.now) }
{
    let wide = count_of(networks, 8);
    let middle = count_of(networks, 16);
    let narrow = count_of(networks, 24);
    let parts = [
        Part::Plural(networks.len() as u64, "more map is", "more maps are"),
        Part::Words(" not drawn: "),
        count_part(wide),
        prefix_part(wide, " /8"),
        comma_part(wide, 0, middle),
        count_part(middle),
        prefix_part(middle, " /16"),
        comma_part(wide, middle, narrow),
        count_part(narrow),
        prefix_part(narrow, " /24"),
        Part::Words("."),
    ];
    push_element(alloc, Element::Cut, &parts, page)
}

/// Returns how many networks there are, if any.
fn count_part<'a>(count: usize) -> Part<'a>
    ensures { item_of result ≡ spec.count_item count }
{
    if count == 0 {
        Part::Nothing
    } else {
        Part::Plural(count as u64, "network", "networks")
    }
}

/// Returns of which prefix they are.
fn prefix_part<'a>(count: usize, prefix: &'static str) -> Part<'a>
    ensures { item_of result ≡ spec.prefix_item count prefix.now }
{
    if count == 0 {
        Part::Nothing
    } else {
        Part::Words(prefix)
    }
}

/// Returns what stands between those of one or two other prefixes and these.
fn comma_part<'a>(first: usize, second: usize, count: usize) -> Part<'a>
    ensures { item_of result ≡ spec.comma_item first second count }
{
    if count == 0 || (first == 0 && second == 0) {
        Part::Nothing
    } else {
        Part::Words(", ")
    }
}

/// Counts the networks of a prefix.
fn count_of(networks: &[Net], prefix: u8) -> usize
    ensures { result ≡ spec.count_of prefix networks.now }
{
    networks
        .iter()
        .filter(|network| network.prefix().get() == prefix)
        .count()
}

/// Draws the small map of a network.
fn small_map(alloc: Global, runs: &[Run<Class>], network: Net) -> Result<Drawn, AllocError>
    requires runs { AreRunsOfSome (map class_run runs.now) }
    requires wide { IsWide network }
    ensures { IfOk result (λ image. IsSmallMapOf (map class_run runs.now) network (image_html image)) }
{
    let drawn = drawn_map(alloc, runs, network)?;
    let mut image = Drawn::new(alloc);
    push_small_map(alloc, &drawn, &mut image)?;
    Ok(image)
}
