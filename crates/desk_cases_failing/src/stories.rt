//! Stories of a desk: how it comes to be, the edits that are put, and how the files stand after each.

use crate::sample::{EXPORTS, FILESYSTEMS, GUARDED, TABLES, UNGUARDED};
use desk_core::Edit;
use desk_exports::Profile;
use std::alloc::{AllocError, Global};

/// How a desk comes to be.
#[derive(Clone, Copy, PartialEq, Eq)]
pub enum Start {
    /// The site is made a desk.
    Creates,
    /// A database of version 1 that holds the site is opened.
    Migrates,
}

/// A revision behind the first, or a proposal with the number that it follows.
#[derive(Clone, Copy)]
pub struct Told {
    number: u32,
    author: &'static str,
    approver: Option<&'static str>,
    text: &'static str,
}

/// An edit, and how its file stands after it: its revisions behind the first, and its proposal.
#[derive(Clone, Copy)]
pub struct Step {
    pub edit: Edit<'static>,
    revisions: &'static [Told],
    proposal: Option<Told>,
}

/// What is done to a desk: the first step makes or opens it, and each other is an edit.
pub struct Story {
    pub name: &'static str,
    pub start: Start,
    /// The file systems of the site as the desk is made or opened.
    pub filesystems: &'static str,
    pub edits: &'static [Step],
}

/// An edit of the hosts file, and one of an exports file.
pub const PLAIN: Story = Story {
    name: "",
    start: Start::Creates,
    filesystems: FILESYSTEMS,
    edits: &[
        Step {
            edit: Edit {
                file: "hosts",
                base: 1,
                caller: "site",
                key: "abc",
                text: "127.0.0.1 localhost\n",
            },
            revisions: &[Told {
                number: 2,
                author: "site",
                approver: None,
                text: "127.0.0.1 localhost\n",
            }],
            proposal: None,
        },
        Step {
            edit: EXPORTS_EDIT,
            revisions: &[EXPORTS_EDITED],
            proposal: None,
        },
    ],
};

const EXPORTS_EDIT: Edit<'static> = Edit {
    file: "exports:/u2",
    base: 1,
    caller: "ulf",
    key: "hello",
    text: "/u2 -ro\n",
};

const EXPORTS_EDITED: Told = Told {
    number: 2,
    author: "ulf",
    approver: None,
    text: "/u2 -ro\n",
};

/// A database of version 1 is opened, and an exports file edited.
pub const MIGRATED: Story = Story {
    name: "a desk of version 1, and ",
    start: Start::Migrates,
    filesystems: FILESYSTEMS,
    edits: &[Step {
        edit: EXPORTS_EDIT,
        revisions: &[EXPORTS_EDITED],
        proposal: None,
    }],
};

const APPROVED: Told = Told {
    number: 2,
    author: "ulf",
    approver: Some("site"),
    text: "/u -ro\n",
};

const PROPOSED_LATER: Told = Told {
    number: 2,
    author: "ulf",
    approver: None,
    text: "/u\n",
};

/// A text is proposed for a guarded file and approved, and another is proposed; then the file is guarded no longer, and the edit is
/// made, which removes the proposal that was left over. (All edits are made once more on what is left, wherever that stands: none
/// may then be refused, or change what the story comes to.)
pub const SECONDED: Story = Story {
    name: "a guarded file, and ",
    start: Start::Creates,
    filesystems: GUARDED,
    edits: &[
        Step {
            edit: Edit {
                file: "exports:/u",
                base: 1,
                caller: "ulf",
                key: "hello",
                text: "/u -ro\n",
            },
            revisions: &[],
            proposal: Some(Told {
                number: 1,
                author: "ulf",
                approver: None,
                text: "/u -ro\n",
            }),
        },
        Step {
            edit: Edit {
                file: "exports:/u",
                base: 1,
                caller: "site",
                key: "abc",
                text: "/u -ro\n",
            },
            revisions: &[APPROVED],
            proposal: None,
        },
        Step {
            edit: Edit {
                file: "exports:/u",
                base: 2,
                caller: "ulf",
                key: "hello",
                text: "/u\n",
            },
            revisions: &[APPROVED],
            proposal: Some(PROPOSED_LATER),
        },
        Step {
            edit: Edit {
                file: "filesystems",
                base: 1,
                caller: "site",
                key: "abc",
                text: UNGUARDED,
            },
            revisions: &[Told {
                number: 2,
                author: "site",
                approver: None,
                text: UNGUARDED,
            }],
            proposal: None,
        },
        Step {
            edit: Edit {
                file: "exports:/u",
                base: 2,
                caller: "ulf",
                key: "hello",
                text: "/u\n",
            },
            revisions: &[
                APPROVED,
                Told {
                    number: 3,
                    author: "ulf",
                    approver: None,
                    text: "/u\n",
                },
            ],
            proposal: None,
        },
    ],
};

impl Story {
    /// Tests whether an edit of the story is of this file.
    pub fn edits_file(&self, file: &str) -> bool {
        self.edits.iter().any(|step| step.edit.file == file)
    }

    /// Returns the profile by which the first revisions are read.
    fn first_profile(&self) -> Profile {
        match self.start {
            Start::Creates => Profile::Two,
            Start::Migrates => Profile::One,
        }
    }

    /// Returns how a file stands after so many edits, if one of them is of that file.
    fn standing(&self, file: &str, edits: usize) -> Option<&'static Step> {
        let mut found = None;
        for step in self.edits.iter().take(edits) {
            if step.edit.file == file {
                found = Some(step);
            }
        }
        found
    }

    /// Tells which tables the database has after so many steps, as `tell_tables` of a desk tells it.
    pub fn tables_after(&self, steps: usize) -> &'static str {
        match (self.start, steps) {
            (Start::Creates, 0) => "no tables",
            (Start::Migrates, 0) => "version 1 file_rev meta",
            _ => "version 2 approval file_rev meta proposal",
        }
    }

    /// Tells what the tables hold after so many edits, as `tell` of a desk tells it.
    pub fn history_after(&self, alloc: Global, edits: usize) -> Result<String, AllocError> {
        let mut history = String::new(alloc);
        self.add_file(&mut history, "filesystems", self.filesystems, edits)?;
        for (name, text) in TABLES {
            self.add_file(&mut history, name, text, edits)?;
        }
        for (mount, text) in EXPORTS {
            let name = format!(in alloc; "exports:{mount}")?;
            self.add_file(&mut history, name.as_str(), text, edits)?;
        }
        Ok(history)
    }

    /// Adds the first revision of a file, and how it stands after so many edits.
    fn add_file(
        &self,
        history: &mut String,
        name: &str,
        text: &str,
        edits: usize,
    ) -> Result<(), AllocError> {
        let profile = self.first_profile().number();
        write!(history, "{name} 1 site profile {profile}\n{text}")?;
        match self.standing(name, edits) {
            Some(step) => step.add(history, name),
            None => Ok(()),
        }
    }
}

impl Step {
    /// Adds how the file stands.
    fn add(&self, history: &mut String, name: &str) -> Result<(), AllocError> {
        for told in self.revisions {
            told.add_revision(history, name)?;
        }
        match &self.proposal {
            Some(told) => told.add_proposal(history, name),
            None => Ok(()),
        }
    }
}

impl Told {
    fn add_revision(&self, history: &mut String, name: &str) -> Result<(), AllocError> {
        let (number, author, text) = (self.number, self.author, self.text);
        write!(history, "{name} {number} {author}")?;
        if let Some(approver) = self.approver {
            write!(history, " approved by {approver}")?;
        }
        write!(history, " profile 2\n{text}")
    }

    fn add_proposal(&self, history: &mut String, name: &str) -> Result<(), AllocError> {
        let (number, author, text) = (self.number, self.author, self.text);
        write!(
            history,
            "{name} proposed behind {number} by {author}\n{text}"
        )
    }
}
