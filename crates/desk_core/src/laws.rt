//! What the definitions of this crate come to, each as a function that does nothing.

ghost use Rattle.desk_core.specs.Laws.{AnsweredEditsKeepTheNumbers, AnswersAreRight, ConsistentSitesHaveNoFault, EditsTakeEffect, ForeseenSitesAreJudged, GuardedFilesAreMarked, GuardedFilesHaveTwoKeepers, HistoriesStayNumbered, KnownFilesAreListed, KnownFilesHaveNames, StandingOfALongerHistory};

use desk_tables::laws::mount_points_read_back;

/// In every run an edit takes effect exactly if its caller is listed with the key and keeps that file, it names the
/// newest revision, it is within the limits, it leaves the site consistent, and if the file is guarded, another
/// custodian's proposal of that text is pending; nothing else changes anything but a file's one proposal; each denial
/// names its rule; a repeat of the newest edit, by its author or approver, who is still listed with the key and keeps the
/// file, is answered with its revision; and so is a repeat of a pending proposal.
pub fn edits_take_effect()
    ensures { EditsTakeEffect }
{}

/// The same of one edit, at any history.
pub fn answers_are_right()
    ensures { AnswersAreRight }
{}

/// In every run the revisions of each file stay numbered 1, 2, .. without a gap.
pub fn histories_stay_numbered()
    ensures { HistoriesStayNumbered }
{}

/// What an answered edit adds keeps the numbers.
pub fn answered_edits_keep_the_numbers()
    ensures { AnsweredEditsKeepTheNumbers }
{}

/// Of a history with one entry more: a revision is the newest of its file, which then has no proposal; a proposal is that
/// of its file; other files stay as they stand.
pub fn standing_of_a_longer_history()
    ensures { StandingOfALongerHistory }
{}

/// Behind each revision of a guarded file stand two custodians: its author, who proposed it before, and its approver.
pub fn guarded_files_have_two_keepers()
    ensures { GuardedFilesHaveTwoKeepers }
{}

/// A file that an edit may change has one of the names of the project: `hosts`, or `exports:/a`.
pub fn known_files_have_names()
    ensures { KnownFilesHaveNames }
{
    mount_points_read_back()
}

/// A file that an edit may change is one of the seven, or the exports file of a listed mount point; and no other is.
pub fn known_files_are_listed()
    ensures { KnownFilesAreListed }
{}

/// A guarded file is the exports file of a listed mount point that has the mark, and none of the seven.
pub fn guarded_files_are_marked()
    ensures { GuardedFilesAreMarked }
{}

/// The site that is foreseen of a text is the one by which an edit with that text is judged, and which it puts in force: who asks,
/// with which key and base, does not count.
pub fn foreseen_sites_are_judged()
    ensures { ForeseenSitesAreJudged }
{}

/// A consistent site has no fault: each fault that is named is that of a faulty file or of two lines that contradict.
pub fn consistent_sites_have_no_fault()
    ensures { ConsistentSitesHaveNoFault }
{}
