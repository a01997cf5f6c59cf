//! What is foreseen, in the terms of edits: functions that do nothing, whose contracts are laws.

ghost use Rattle.desk_service.specs.Laws.{ForeseesPutsSite, ForeseesWholePutsSite};

use desk_core::foreseen_sites_are_judged;

/// What is foreseen of a text is in force once an edit of that file with that text is: its policy is that of the site by which the edit
/// is judged. Who asks, with which key and base, does not count.
pub fn edits_put_what_was_foreseen()
    ensures { ForeseesPutsSite }
{
    foreseen_sites_are_judged();
}

/// The whole site that is foreseen of a text is the one by which an edit of that file with that text is judged: its policy, and its
/// tables. Who asks, with which key and base, does not count.
pub fn edits_put_the_site_that_was_foreseen()
    ensures { ForeseesWholePutsSite }
{
    foreseen_sites_are_judged();
}
