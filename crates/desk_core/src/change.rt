//! What an accepted edit changes of what is in force.

ghost use Rattle.std.specs.Prelude.{◌≡◌, All};
ghost use Rattle.desk_policy.specs.Site.{HaveReadableLengths, texts_of};
ghost use Rattle.desk_policy.specs.View.{Compiles};
ghost use Rattle.desk_core.specs.Foresight.{with_text};
ghost use Rattle.desk_core.specs.Head.{CanBeKept, newest_in};
ghost use Rattle.desk_core.specs.PrivateState.{MayStand, PutsInForce, custodians_after, tables_after};
ghost use Rattle.desk_core.specs.Site.{site_in};
ghost use Rattle.desk_core.specs.State.{changed};
ghost use Rattle.desk_core.specs.Views.{shown};

use crate::foresight::ForeseenSite;
use crate::head::Head;
use crate::site::{site_of, site_with};
use desk_policy::{PolicyView, Site, SiteContents, SiteFault, SiteTables, compile, read_contents};
use desk_tables::{Custodians, FsId};
use desk_text::ReadError;
use std::alloc::Global;

/// What is kept of a site in force: its custodians, the tables that its exports files are read with, and a view of its policy.
#[derive(Drop)]
pub struct SiteInForce<V> {
    pub custodians: Custodians,
    pub tables: SiteTables,
    pub view: V,
}

/// What an edit puts in the place of what is in force. An edit of an exports file changes the lines of its file system alone.
#[derive(Drop)]
pub enum Change<V, P> {
    /// The site with the edit's text.
    Whole(SiteInForce<V>),
    /// Lines that were made ready to stand for those of a file system.
    Lines(FsId, P),
}

/// Puts the policy of the site of these heads in force, read from their texts alone, so that its warnings are theirs as well; or refuses
/// the site's first fault.
pub fn compile_heads<V: PolicyView>(
    alloc: Global,
    heads: &[Head],
) -> Result<V, ReadError<SiteFault>>
    requires { All CanBeKept heads.now }
    ensures { Compiles V.in_force (site_in (newest_in heads.now)) result }
{
    let site = site_of(alloc, heads)?;
    compile(alloc, &site)
}

/// Takes the view of a site. The rest is dropped.
pub(crate) fn view_of<V: Drop>(site: SiteInForce<V>) -> V
    ensures { result ≡ site.view }
{
    let SiteInForce { view, .. } = site;
    view
}

/// Takes the view and the tables of a site. The custodians are dropped.
pub(crate) fn foreseen_in<V: Drop>(site: SiteInForce<V>) -> ForeseenSite<V>
    ensures { result ≡ record { view = site.view; tables = site.tables } }
{
    let SiteInForce {
        custodians,
        tables,
        view,
    } = site;
    drop(custodians);
    ForeseenSite { view, tables }
}

/// Puts a change in force. It takes no memory.
pub(crate) fn put_change<V: PolicyView + Drop>(
    site: &mut SiteInForce<V>,
    change: Change<V, V::Part>,
)
    requires { MayStand (V.in_force site.old.view) (shown V.part_rows change) }
    ensures custodians { site.new.custodians ≡ custodians_after site.old.custodians (shown V.part_rows change) }
    ensures tables { site.new.tables ≡ tables_after site.old.tables (shown V.part_rows change) }
    ensures view { V.in_force site.new.view ≡ changed V.in_force (V.in_force site.old.view) (shown V.part_rows change) }
{
    match change {
        Change::Whole(made) => *site = made,
        Change::Lines(fs, part) => site.view.set(fs, part),
    }
}

/// Makes the site of these heads ready to be in force, or gives its fault.
pub(crate) fn put_heads_in_force<V: PolicyView + Drop>(
    alloc: Global,
    heads: &[Head],
) -> Result<SiteInForce<V>, ReadError<SiteFault>>
    requires { HaveReadableLengths (site_in (newest_in heads.now)) }
    ensures { PutsInForce V.in_force (site_in (newest_in heads.now)) result }
{
    let site = site_of(alloc, heads)?;
    put_in_force(alloc, &site)
}

/// Makes the site of these heads, if a file has this text, read by profile 2, ready to be in force; or gives its fault.
pub(crate) fn put_text_in_force<V: PolicyView + Drop>(
    alloc: Global,
    heads: &[Head],
    file: &str,
    text: &str,
) -> Result<SiteInForce<V>, ReadError<SiteFault>>
    requires { HaveReadableLengths (site_in (with_text (newest_in heads.now) file.now text.now)) }
    ensures { PutsInForce V.in_force (site_in (with_text (newest_in heads.now) file.now text.now)) result }
{
    let site = site_with(alloc, heads, file, text)?;
    put_in_force(alloc, &site)
}

/// Reads a site and builds the view of its policy, or gives the site's fault.
fn put_in_force<V: PolicyView + Drop>(
    alloc: Global,
    site: &Site,
) -> Result<SiteInForce<V>, ReadError<SiteFault>>
    requires { HaveReadableLengths (texts_of site.now) }
    ensures { PutsInForce V.in_force (texts_of site.now) result }
{
    let SiteContents {
        custodians,
        tables,
        policy,
    } = read_contents(alloc, site)?;
    match V::build(alloc, policy) {
        Ok(view) => Ok(SiteInForce {
            custodians,
            tables,
            view,
        }),
        Err(error) => {
            drop(tables);
            drop(custodians);
            Err(error)
        }
    }
}
