//! The page of a state: of newest revisions and proposals with what each of them would put in force.

ghost use Rattle.std.specs.Prelude.{◌≡◌, [], All, IfOk};
ghost use Rattle.std.specs.String.{string_bytes};
ghost use Rattle.desk_core.specs.Head.{CanBeKept, newest_in};
ghost use Rattle.desk_core.specs.Site.{site_in};
ghost use Rattle.page_site.specs.Page.{IsPageOf};
ghost use Rattle.page_site.specs.PrivateForeseenSites.{IsRead};

use crate::foreseen_sites::waiting_of;
use crate::page::{ReportedSite, report_page};
use desk_core::{State, compile_heads};
use desk_index::Index;
use desk_policy::{PolicyView, SiteFault};
use desk_text::{Path, ReadError};
use page_data::{openings_of_site, sites_are_sound};
use page_findings::server_of_site;
use std::alloc::{AllocError, Global};

/// Makes the page of a state, given the word that names its database. Its policy is read once more from the texts of the newest
/// revisions, so that the page has all their warnings.
pub fn page_of_state(
    alloc: Global,
    database: &str,
    state: &State<Index>,
) -> Result<String, AllocError>
    requires { All CanBeKept state.now.heads }
    ensures { IfOk result (λ page. IsPageOf state.now.heads state.now.proposals database.now (string_bytes page)) }
{
    let read: Result<Index, ReadError<SiteFault>> = compile_heads(alloc, state.heads());
    match read {
        Ok(view) => {
            let page = page_by_view(alloc, database, state, &view);
            drop(view);
            page
        }
        // The newest revisions of a state write a consistent site.
        Err(_) => Err(AllocError),
    }
}

/// Makes the page of a state, by the policy that was read from the texts of its newest revisions.
fn page_by_view(
    alloc: Global,
    database: &str,
    state: &State<Index>,
    view: &Index,
) -> Result<String, AllocError>
    requires kept { All CanBeKept state.now.heads }
    requires read { IsRead (site_in (newest_in state.now.heads)) view.now }
    ensures { IfOk result (λ page. IsPageOf state.now.heads state.now.proposals database.now (string_bytes page)) }
{
    match Path::read(alloc, "/") {
        Ok(root) => page_by_root(alloc, database, state, view, &root),
        Err(_) => Err(AllocError),
    }
}

/// Makes the page of a state, given the path `/` as well.
fn page_by_root(
    alloc: Global,
    database: &str,
    state: &State<Index>,
    view: &Index,
    root: &Path,
) -> Result<String, AllocError>
    requires kept { All CanBeKept state.now.heads }
    requires read { IsRead (site_in (newest_in state.now.heads)) view.now }
    requires root { root.now ≡ [] }
    ensures { IfOk result (λ page. IsPageOf state.now.heads state.now.proposals database.now (string_bytes page)) }
{
    sites_are_sound(view.policy());
    let server = server_of_site(alloc, view)?;
    let openings = openings_of_site(alloc, view, root)?;
    let waiting = waiting_of(alloc, state)?;
    let site = ReportedSite {
        view,
        tables: state.tables(),
        heads: state.heads(),
        proposals: state.proposals(),
        waiting: waiting.as_slice(),
        server: server.as_slice(),
        openings: openings.as_slice(),
    };
    report_page(alloc, database, site)
}
