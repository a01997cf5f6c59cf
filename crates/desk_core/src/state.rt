//! States: the newest revision of each file, the proposals, and the policy that is in force.

ghost use Rattle.std.specs.Prelude.{◌≡◌, ◌<◌, ◌≤◌, [], All, IfOk, None, Ok, Some, length, vec_capacity, vec_len};
ghost use Rattle.std.specs.Option.{option_copied};
ghost use Rattle.desk_policy.specs.Parsing.{read_site_tables};
ghost use Rattle.desk_policy.specs.SiteFile.{exports_place};
ghost use Rattle.desk_core.specs.Edit.{asked};
ghost use Rattle.desk_core.specs.Foresight.{Foresees, ForeseesSite};
ghost use Rattle.desk_core.specs.Head.{CanBeKept, StandOnce, last_revision, longest_revision, newest_in, put};
ghost use Rattle.desk_core.specs.Judging.{answer_in, entry_of, first_case};
ghost use Rattle.desk_core.specs.PrivateState.{Accepts, AnswersCase, MakesChange, ReadsRows, ShowsLines, refusal_of, site_with};
ghost use Rattle.desk_core.specs.Site.{IsInForce, site_in};
ghost use Rattle.desk_core.specs.Standing.{CanBePending, PendOnce, proposals_in, with_entry, without};
ghost use Rattle.desk_core.specs.State.{IsJudged, Judges, PutsSite, Starts, standing};
ghost use Rattle.desk_core.specs.Views.{shown};
ghost use Rattle.desk_core.specs.declared.entry.Entry.TheVariants.{Revised};

use crate::change::{
    Change, SiteInForce, foreseen_in, put_change, put_heads_in_force, put_text_in_force, view_of,
};
use crate::edit::{Edit, Refusal};
use crate::entry::Entry;
use crate::foresight::{ForeseenSite, Foresight};
use crate::head::{Head, newest_among, newest_number, put_head};
use crate::judging::{Case, entry_by, first_case};
use crate::proposal::{Proposal, proposal_among, put_proposal, withdraw};
use desk_exports::Profile;
use desk_policy::{
    Policy, PolicyView, Row, SiteFault, SiteTables, exports_place, one_file_is_replaced, read_lines,
};
use desk_tables::FsId;
use desk_tables::laws::tables_are_in_order;
use desk_text::{ReadError, Sequence};
use std::alloc::{AllocError, Global};
use std::marker::Model;

/// The newest revision of each file, the proposals, and the site that the revisions write, in force.
pub struct State<V: PolicyView + Drop> {
    heads: Vec<Head>,
    proposals: Vec<Proposal>,
    site: SiteInForce<V>,
}

// It is written out, so that the crates above do not prove again how each part is dropped.
impl<V: PolicyView + Drop> Drop for State<V> {
    fn drop(self) {
        let State {
            heads: _,
            proposals: _,
            site: _,
        } = self;
    }
}

impl<V: PolicyView + Drop> Model for State<V> {
    ghost use Rattle.desk_core.specs.PrivateState.{IsState};
    ghost use Rattle.desk_core.specs.Views.{Kept, kept_code};

    ghost Value = { Kept V };

    ghost coded = { kept_code V.code };

    ghost view = { λ s. record { heads = s.heads.items; proposals = s.proposals.items; view = s.site.view } };

    ghost invariant = { λ s. IsState s.heads.items s.proposals.items (V.in_force s.site.view) s.site.custodians s.site.tables };
}

/// An accepted edit: what is to be stored of it, what it changes of what is in force, and room for the heads and the
/// proposals.
#[derive(Drop)]
pub struct Accepted<V: PolicyView + Drop> {
    entry: Entry,
    room: Vec<Head>,
    proposal_room: Vec<Proposal>,
    change: Change<V, V::Part>,
}

impl<V: PolicyView + Drop> Model for Accepted<V> {
    ghost use Rattle.std.specs.Prelude.{◌≡◌, [], vec_capacity};
    ghost use Rattle.desk_core.specs.Views.{Ready, ready_code, shown};

    ghost Value = { Ready V };

    ghost coded = { ready_code V.code };

    ghost view = { λ a. record { entry = a.entry; room = vec_capacity a.room; proposal_room = vec_capacity a.proposal_room; change = shown V.part_rows a.change } };

    ghost invariant = { λ a. (a.room.items ≡ []) × (a.proposal_room.items ≡ []) };
}

impl<V: PolicyView + Drop> Accepted<V> {
    /// Lends what is to be stored of the edit: its revision, or its proposal.
    pub fn entry(&self) -> &Entry
        ensures { result.now ≡ self.now.entry }
    {
        &self.entry
    }
}

/// What an edit is answered that is not refused.
#[derive(Drop)]
pub enum Judged<A> {
    /// The newest revision, with this number, is this edit, stored before; or the edit is proposed already, as that
    /// revision.
    Already { rev: u32, proposed: bool },
    /// It can be put in force, or proposed, by `apply`.
    Accepted(A),
}

impl<V: PolicyView + Drop> State<V> {
    /// Makes the state of these heads, one for each file, and of these proposals, at most one for each file, if the site
    /// that the heads write is consistent; else there is the site's fault. (If a file has more than one head, or
    /// proposal, the first counts.)
    pub fn from_heads(
        alloc: Global,
        heads: Vec<Head>,
        proposals: Vec<Proposal>,
    ) -> Result<State<V>, ReadError<SiteFault>>
        requires heads { All CanBeKept heads.items }
        requires proposals { All CanBePending proposals.items }
        ensures { Starts V.in_force heads.items proposals.items result }
    {
        let site = put_heads_in_force(alloc, heads.as_slice())?;
        Ok(State {
            heads,
            proposals,
            site,
        })
    }

    /// Judges an edit by the state as it is, which stays so; an accepted edit is put in force by `apply`. There is no
    /// memory only if none of the cases holds that are checked before the site with the edit's text is.
    pub fn judge(
        &self,
        alloc: Global,
        edit: &Edit<'_>,
    ) -> Result<Judged<Accepted<V>>, ReadError<Refusal>>
        ensures { Judges V.in_force self.now (asked edit.now) result }
    {
        match self.first_case(edit) {
            Some(case) => self.answer_in(edit, case),
            None => Ok(Judged::Accepted(self.accept(alloc, edit)?)),
        }
    }

    /// Makes what would be in force if a file had this text, read by profile 2 as that of an edit is, or gives the fault of the
    /// site with it. If it is the exports file of a listed mount point, no other file is read. The state stays as it is.
    pub fn foresee(
        &self,
        alloc: Global,
        file: &str,
        text: &str,
    ) -> Result<Foresight<V>, ReadError<SiteFault>>
        requires { length text.now ≤ longest_revision }
        ensures { Foresees V.in_force self.now file.now text.now result }
    {
        match exports_place(self.site.view.policy().filesystems(), file) {
            Some(fs) => Ok(Foresight::Lines(fs, self.view_of_lines(alloc, file, text, fs)?)),
            None => {
                let site = put_text_in_force(alloc, self.heads.as_slice(), file, text)?;
                Ok(Foresight::Whole(view_of(site)))
            }
        }
    }

    /// Makes the whole site that would be in force if a file had this text, read by profile 2 as that of an edit is, or gives the
    /// fault of that site. The state stays as it is.
    pub fn foresee_site(
        &self,
        alloc: Global,
        file: &str,
        text: &str,
    ) -> Result<ForeseenSite<V>, ReadError<SiteFault>>
        requires { length text.now ≤ longest_revision }
        ensures { ForeseesSite V.in_force self.now file.now text.now result }
    {
        let made = put_text_in_force(alloc, self.heads.as_slice(), file, text)?;
        Ok(foreseen_in(made))
    }

    /// Puts an edit in force that this state accepted as it is, or keeps its proposal. It takes no memory.
    pub fn apply(&mut self, accepted: Accepted<V>)
        requires { IsJudged V.in_force self.old accepted }
        ensures standing { standing self.new ≡ with_entry (standing self.old) accepted.entry }
        ensures once { StandOnce self.old.heads → StandOnce self.new.heads }
        ensures proposals_once { PendOnce self.old.proposals → PendOnce self.new.proposals }
        ensures view { IsInForce (site_in (newest_in self.new.heads)) (V.in_force self.new.view) }
    {
        let Accepted {
            entry,
            room,
            proposal_room,
            change,
        } = accepted;
        match entry {
            Entry::Revised(head) => self.revise(room, head, change),
            Entry::Proposed(proposal) => {
                put_proposal(&mut self.proposals, proposal_room, proposal);
            }
        }
    }

    /// Puts a revision in force, with what it changes. It takes no memory.
    fn revise(&mut self, room: Vec<Head>, head: Head, change: Change<V, V::Part>)
        requires empty { room.items ≡ [] }
        requires room { length self.old.heads < vec_capacity room }
        requires can_be_kept { CanBeKept head }
        requires site { PutsSite V.in_force self.old (shown V.part_rows change) (site_in (put (newest_in self.old.heads) head)) }
        ensures standing { standing self.new ≡ with_entry (standing self.old) (Revised head) }
        ensures once { StandOnce self.old.heads → StandOnce self.new.heads }
        ensures proposals_once { PendOnce self.old.proposals → PendOnce self.new.proposals }
        ensures view { IsInForce (site_in (newest_in self.new.heads)) (V.in_force self.new.view) }
    {
        put_revision(&mut self.heads, &mut self.proposals, room, head);
        put_change(&mut self.site, change);
    }

    /// Lends the view of the policy in force.
    pub fn view(&self) -> &V
        ensures value { result.now ≡ self.now.view }
        ensures in_force { IsInForce (site_in (newest_in self.now.heads)) (V.in_force result.now) }
    {
        &self.site.view
    }

    /// Lends the tables in force, which exports files are read with.
    pub fn tables(&self) -> &SiteTables
        ensures { read_site_tables (site_in (newest_in self.now.heads)) ≡ Ok result.now }
    {
        &self.site.tables
    }

    /// Lends the newest revision of each file, in no order.
    pub fn heads(&self) -> &[Head]
        ensures { result.now ≡ self.now.heads }
    {
        self.heads.as_slice()
    }

    /// Finds the newest revision of a file.
    pub fn newest(&self, file: &str) -> Option<&Head>
        ensures { option_copied result ≡ newest_in self.now.heads file.now }
    {
        newest_among(self.heads.as_slice(), file)
    }

    /// Lends the proposals, in no order.
    pub fn proposals(&self) -> &[Proposal]
        ensures { result.now ≡ self.now.proposals }
    {
        self.proposals.as_slice()
    }

    /// Finds the proposal of a file.
    pub fn proposal(&self, file: &str) -> Option<&Proposal>
        ensures { option_copied result ≡ proposals_in self.now.proposals file.now }
    {
        proposal_among(self.proposals.as_slice(), file)
    }

    /// Finds the first case that holds.
    fn first_case(&self, edit: &Edit<'_>) -> Option<Case>
        ensures { result ≡ first_case (standing self.now) (asked edit.now) }
    {
        let newest = newest_among(self.heads.as_slice(), edit.file);
        let proposal = proposal_among(self.proposals.as_slice(), edit.file);
        first_case(
            &self.site.custodians,
            self.site.view.policy().filesystems(),
            newest,
            proposal,
            edit,
        )
    }

    /// Answers in a case that holds first.
    fn answer_in(
        &self,
        edit: &Edit<'_>,
        case: Case,
    ) -> Result<Judged<Accepted<V>>, ReadError<Refusal>>
        requires { first_case (standing self.now) (asked edit.now) ≡ Some case }
        ensures { AnswersCase result (answer_in (newest_in self.now.heads edit.now.file.now) (asked edit.now) case) }
    {
        match case {
            Case::Refused(refusal) => Err(ReadError::Fault(refusal)),
            Case::Already => {
                let newest = newest_among(self.heads.as_slice(), edit.file);
                Ok(Judged::Already {
                    rev: newest_number(newest),
                    proposed: false,
                })
            }
            Case::Pending => Ok(Judged::Already {
                rev: edit.base + 1,
                proposed: true,
            }),
        }
    }

    /// Makes an edit of which no case holds ready to be put in force, or gives the fault of the site with its text.
    fn accept(&self, alloc: Global, edit: &Edit<'_>) -> Result<Accepted<V>, ReadError<Refusal>>
        requires { first_case (standing self.now) (asked edit.now) ≡ None }
        ensures { Accepts V.in_force self.now (asked edit.now) result }
    {
        let room = Vec::with_capacity(alloc, self.heads.len() + 1)?;
        let proposal_room = Vec::with_capacity(alloc, self.proposals.len() + 1)?;
        let entry = self.entry_of(alloc, edit)?;
        match self.change_by(alloc, edit.file, edit.text) {
            Ok(change) => Ok(Accepted {
                entry,
                room,
                proposal_room,
                change,
            }),
            Err(error) => {
                drop(entry);
                drop(proposal_room);
                drop(room);
                Err(refused(error))
            }
        }
    }

    /// Makes the change that a file's text brings, read by profile 2, or gives the fault of the site with it.
    fn change_by(
        &self,
        alloc: Global,
        file: &str,
        text: &str,
    ) -> Result<Change<V, V::Part>, ReadError<SiteFault>>
        requires { length text.now ≤ longest_revision }
        ensures { MakesChange V.in_force V.part_rows self.now file.now (site_with self.now file.now text.now) result }
    {
        match exports_place(self.site.view.policy().filesystems(), file) {
            Some(fs) => self.lines_by(alloc, file, text, fs),
            None => Ok(Change::Whole(put_text_in_force(alloc, self.heads.as_slice(), file, text)?)),
        }
    }

    /// Makes the lines of an exports file with this text ready to stand for those of its file system, or gives the fault of the
    /// site with them.
    fn lines_by(
        &self,
        alloc: Global,
        file: &str,
        text: &str,
        fs: FsId,
    ) -> Result<Change<V, V::Part>, ReadError<SiteFault>>
        requires place { exports_place (V.in_force self.now.view).table file.now ≡ Some fs.0 }
        requires short { length text.now ≤ longest_revision }
        ensures { MakesChange V.in_force V.part_rows self.now file.now (site_with self.now file.now text.now) result }
    {
        let rows = self.rows_by(alloc, file, text, fs)?;
        let part = self.site.view.part(alloc, fs, rows)?;
        Ok(Change::Lines(fs, part))
    }

    /// Makes a view of the lines of an exports file with this text, beside no others, or gives the fault of the site with them.
    fn view_of_lines(
        &self,
        alloc: Global,
        file: &str,
        text: &str,
        fs: FsId,
    ) -> Result<V, ReadError<SiteFault>>
        requires place { exports_place (V.in_force self.now.view).table file.now ≡ Some fs.0 }
        requires short { length text.now ≤ longest_revision }
        ensures { ShowsLines V.in_force self.now fs.0 (site_with self.now file.now text.now) result }
    {
        let rows = self.rows_by(alloc, file, text, fs)?;
        let filesystems = self.site.view.policy().filesystems().share()?;
        let policy = Policy::of_lines(alloc, filesystems, fs, rows)?;
        V::build(alloc, policy)
    }

    /// Reads a text as that of an exports file, the one of this file system, or gives the fault of the site with it. No other file
    /// is read.
    fn rows_by(
        &self,
        alloc: Global,
        file: &str,
        text: &str,
        fs: FsId,
    ) -> Result<Sequence<Row>, ReadError<SiteFault>>
        requires place { exports_place (V.in_force self.now.view).table file.now ≡ Some fs.0 }
        requires short { length text.now ≤ longest_revision }
        ensures { ReadsRows V.in_force self.now fs.0 (site_with self.now file.now text.now) result }
    {
        // The rest of the site is as it was, and no other mount point is printed alike.
        one_file_is_replaced();
        tables_are_in_order();
        let filesystems = self.site.view.policy().filesystems();
        read_lines(
            alloc,
            Profile::Two,
            text,
            filesystems,
            &self.site.tables,
            fs,
        )
    }

    /// Makes what is to be stored of an edit of which no case holds.
    fn entry_of(&self, alloc: Global, edit: &Edit<'_>) -> Result<Entry, AllocError>
        requires { edit.now.base < last_revision }
        ensures { IfOk result (λ stored. stored ≡ entry_of (standing self.now) (asked edit.now)) }
    {
        let proposal = proposal_among(self.proposals.as_slice(), edit.file);
        entry_by(alloc, self.site.view.policy().filesystems(), edit, proposal)
    }
}

/// Makes a revision the newest of its file, which then has no proposal. It takes no memory: the room for a file's first
/// revision is brought along.
fn put_revision(heads: &mut Vec<Head>, proposals: &mut Vec<Proposal>, room: Vec<Head>, head: Head)
    requires empty { room.items ≡ [] }
    requires room { vec_len heads.old < vec_capacity room }
    ensures newest { newest_in heads.new.items ≡ put (newest_in heads.old.items) head }
    ensures gone { proposals_in proposals.new.items ≡ without (proposals_in proposals.old.items) head.file }
    ensures once { StandOnce heads.old.items → StandOnce heads.new.items }
    ensures proposals_once { PendOnce proposals.old.items → PendOnce proposals.new.items }
    ensures kept { CanBeKept head → All CanBeKept heads.old.items → All CanBeKept heads.new.items }
    ensures pending { All CanBePending proposals.old.items → All CanBePending proposals.new.items }
{
    withdraw(proposals, head.file.as_str());
    put_head(heads, room, head);
}

/// Gives the fault of the site as why an edit is refused.
fn refused(error: ReadError<SiteFault>) -> ReadError<Refusal>
    ensures { result ≡ refusal_of error }
{
    match error {
        ReadError::Fault(fault) => ReadError::Fault(Refusal::Fault(fault)),
        ReadError::Memory => ReadError::Memory,
    }
}
