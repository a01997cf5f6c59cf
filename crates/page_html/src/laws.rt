//! What a page makes of a site's texts, what a list says that is cut, and what the head of a page lets a browser do, each law as a function
//! that does nothing.

ghost use Rattle.page_html.specs.Laws.{ListsSayWhatTheyLeaveOut, NothingIsFetchedOrRun, PagesAreMadeOfPieces};

use crate::text_laws::{no_text_is_markup, texts_are_told_apart};

/// A page is made of bytes of its own, which are the same whatever a site's texts say, and of these texts, of which no character is markup
/// and two that differ are shown differently.
pub fn pages_are_made_of_pieces()
    ensures { PagesAreMadeOfPieces }
{
    no_text_is_markup();
    texts_are_told_apart();
}

/// Of texts that are too many the first are shown, and how many more there are.
pub fn lists_say_what_they_leave_out()
    ensures { ListsSayWhatTheyLeaveOut }
{}

/// The policy at the head of a page lets a browser fetch and run nothing, and has no source but the digest of the page's own style sheet.
pub fn nothing_is_fetched_or_run()
    ensures { NothingIsFetchedOrRun }
{}
