//! The commands of the program: a row for each, with its name, its words, its options, and what its help says.
//!
//! A new command is a variant and a row here, and a row of the definition.

ghost use Rattle.std.specs.Prelude.{◌≡◌, find, map};
ghost use Rattle.std.specs.Option.{option_map};
ghost use Rattle.std.specs.Str.{bytes_eq};
ghost use Rattle.cli_words.specs.Commands.{command_named, commands, more_of, row_of, rule_for, tables_of};

use crate::arguments::{Argument, Kind};

/// A command of the program.
#[derive(Clone, Copy)]
pub enum Subcommand {
    Try,
    Split,
    Check,
    Clients,
    Lists,
    Terms,
    Compare,
    Test,
    Init,
    Ask,
    Show,
    Exports,
    Who,
    Put,
    Impact,
    Audit,
    Log,
    Cat,
    Proposal,
    Files,
    Report,
    Write,
    Copy,
    Serve,
}

/// Which options a command shares with others.
#[derive(Clone, Copy)]
pub enum Shared {
    /// None.
    Nothing,
    /// Those that name the files of tables and of mount points, and a folder.
    Tables,
    /// These, and those that name more exports files.
    Texts,
}

/// A command with its name, and what it takes.
#[derive(Clone, Copy)]
pub struct CommandRow {
    pub command: Subcommand,
    pub name: &'static str,
    /// Its words, in their order.
    pub words: &'static [Argument],
    /// Which options it shares with others.
    pub shared: Shared,
    /// Its own options, in the order of its help.
    pub options: &'static [Argument],
}

const FILE: Argument = Argument {
    name: "FILE",
    kind: Kind::Word,
    help: "The exports text; - is standard input",
};

const HOST: Argument = Argument {
    name: "HOST",
    kind: Kind::Word,
    help: "The IPv4 address of the client",
};

const DIR: Argument = Argument {
    name: "DIR",
    kind: Kind::Word,
    help: "The directory that it asks for",
};

// A command on texts is asked of FILE and MOUNT, or of a folder: then its other words stand one place to the left. So none of its
// words is required here.
const GIVEN_FILE: Argument = Argument {
    name: "FILE",
    kind: Kind::MaybeWord,
    help: "The exports text; - is standard input",
};

const GIVEN_HOST: Argument = Argument {
    name: "HOST",
    kind: Kind::MaybeWord,
    help: "The IPv4 address of the client",
};

const GIVEN_DIR: Argument = Argument {
    name: "DIR",
    kind: Kind::MaybeWord,
    help: "The directory that it asks for",
};

const GIVEN_MOUNTS: Argument = Argument {
    name: "MOUNT",
    kind: Kind::MaybeWords,
    help: "The mount points of the file systems",
};

const GIVEN_CLIENTS_DIR: Argument = Argument {
    name: "DIR",
    kind: Kind::MaybeWord,
    help: "The directory that the clients ask for",
};

const CLIENTS_DIR: Argument = Argument {
    name: "DIR",
    kind: Kind::Word,
    help: "The directory that the clients ask for",
};

const ALL: Argument = Argument {
    name: "all",
    kind: Kind::Flag,
    help: "Lists the ranges whose line or reason alone changes, too",
};

const WHY: Argument = Argument {
    name: "why",
    kind: Kind::Flag,
    help: "Prints below the verdict each line that matches the client, heaviest first, and which of them decides",
};

const MOUNTD: Argument = Argument {
    name: "mountd",
    kind: Kind::Flag,
    help: "Decides by the rule of mountd(8), which asks lighter lines, too",
};

const EXPECTATIONS: Argument = Argument {
    name: "EXPECTATIONS",
    kind: Kind::Word,
    help: "The text of the expectations; - is standard input",
};

const GIVEN_EXPECTATIONS: Argument = Argument {
    name: "EXPECTATIONS",
    kind: Kind::MaybeWord,
    help: "The text of the expectations; - is standard input",
};

const JSON: Argument = Argument {
    name: "json",
    kind: Kind::Flag,
    help: "Prints the answer as one compact JSON object",
};

const BREACHES_JSON: Argument = Argument {
    name: "json",
    kind: Kind::Flag,
    help: "Prints what is broken as one compact JSON list",
};

const BREACHES_SARIF: Argument = Argument {
    name: "sarif",
    kind: Kind::Flag,
    help: "Prints what is broken as a log of SARIF 2.1.0, for code hosts",
};

const DB: Argument = Argument {
    name: "DB",
    kind: Kind::Word,
    help: "The file of the database",
};

const NAME: Argument = Argument {
    name: "NAME",
    kind: Kind::Word,
    help: "The name of the file",
};

/// The options that name the files of tables and of mount points, and the folder that has them all.
pub const TABLES: &[Argument] = &[
    Argument {
        name: "hosts",
        kind: Kind::Valued("FILE"),
        help: "The addresses of names, as in hosts(5)",
    },
    Argument {
        name: "networks",
        kind: Kind::Valued("FILE"),
        help: "The numbers of networks, as in networks(5)",
    },
    Argument {
        name: "passwd",
        kind: Kind::Valued("FILE"),
        help: "The users, as in passwd(5)",
    },
    Argument {
        name: "group",
        kind: Kind::Valued("FILE"),
        help: "The groups, as in group(5)",
    },
    Argument {
        name: "netgroup",
        kind: Kind::Valued("FILE"),
        help: "The netgroups, as in netgroup(5)",
    },
    Argument {
        name: "mounts",
        kind: Kind::Valued("FILE"),
        help: "The mount points, in place of MOUNT: paths, or what zfs mount or mount -p prints",
    },
    Argument {
        name: "site",
        kind: Kind::Valued("DIR"),
        help: "The folder of a site's files, in place of FILE and MOUNT: exports, filesystems or mounts, and tables",
    },
];

/// The options that name more exports files.
const MORE: &[Argument] = &[
    Argument {
        name: "and",
        kind: Kind::Repeated("FILE"),
        help: "One more exports text, whose lines count behind those before it; up to 8 times",
    },
    Argument {
        name: "zfs",
        kind: Kind::Flag,
        help: "Adds zfs/exports of the folder of --site",
    },
];

/// No options.
const NONE: &[Argument] = &[];

/// The commands, in the order of the help.
pub const COMMANDS: &[CommandRow] = &[
    CommandRow {
        command: Subcommand::Try,
        name: "try",
        words: &[GIVEN_FILE, GIVEN_HOST, GIVEN_DIR, GIVEN_MOUNTS],
        shared: Shared::Texts,
        options: &[
            Argument {
                name: "as",
                kind: Kind::Valued("CRED"),
                help: "The client's credential, as USER or USER:GROUP:...; a granted line says as whom it acts",
            },
            WHY,
            MOUNTD,
            JSON,
        ],
    },
    CommandRow {
        command: Subcommand::Split,
        name: "split",
        words: &[
            FILE,
            Argument {
                name: "FILESYSTEMS",
                kind: Kind::Word,
                help: "The file systems, each a line `MOUNT CUSTODIAN...`; - is standard input",
            },
        ],
        shared: Shared::Nothing,
        options: &[],
    },
    CommandRow {
        command: Subcommand::Check,
        name: "check",
        words: &[GIVEN_FILE, GIVEN_MOUNTS],
        shared: Shared::Texts,
        options: &[
            Argument {
                name: "brief",
                kind: Kind::Flag,
                help: "Leaves out the lines of the files and the marks below them",
            },
            Argument {
                name: "strict",
                kind: Kind::Flag,
                help: "Ends with the status 3 where there is a warning, too",
            },
            Argument {
                name: "json",
                kind: Kind::Flag,
                help: "Prints the findings as one compact JSON list",
            },
            Argument {
                name: "sarif",
                kind: Kind::Flag,
                help: "Prints the findings as a log of SARIF 2.1.0, for code hosts",
            },
            Argument {
                name: "opinions",
                kind: Kind::Flag,
                help: "Adds opinions on lines that let everybody write, or root of many hosts act as root",
            },
            Argument {
                name: "ignore",
                kind: Kind::Valued("NUMBERS"),
                help: "Leaves out the warnings of these numbers, as 2,11, and counts them in the last line",
            },
        ],
    },
    CommandRow {
        command: Subcommand::Clients,
        name: "clients",
        words: &[GIVEN_FILE, GIVEN_CLIENTS_DIR, GIVEN_MOUNTS],
        shared: Shared::Texts,
        options: &[MOUNTD, JSON],
    },
    CommandRow {
        command: Subcommand::Lists,
        name: "lists",
        words: &[GIVEN_FILE, GIVEN_HOST, GIVEN_MOUNTS],
        shared: Shared::Texts,
        options: &[],
    },
    CommandRow {
        command: Subcommand::Terms,
        name: "terms",
        words: &[GIVEN_FILE, GIVEN_MOUNTS],
        shared: Shared::Texts,
        options: &[],
    },
    CommandRow {
        command: Subcommand::Compare,
        name: "compare",
        words: &[
            Argument {
                name: "OLD",
                kind: Kind::MaybeWord,
                help: "The exports text before; - is standard input",
            },
            Argument {
                name: "NEW",
                kind: Kind::MaybeWord,
                help: "The exports text after; - is standard input",
            },
            GIVEN_MOUNTS,
        ],
        shared: Shared::Tables,
        options: &[ALL, JSON],
    },
    CommandRow {
        command: Subcommand::Test,
        name: "test",
        words: &[GIVEN_FILE, GIVEN_EXPECTATIONS, GIVEN_MOUNTS],
        shared: Shared::Texts,
        options: &[BREACHES_JSON, BREACHES_SARIF],
    },
    CommandRow {
        command: Subcommand::Init,
        name: "init",
        words: &[
            DB,
            Argument {
                name: "DIR",
                kind: Kind::Word,
                help: "The folder of the site's files",
            },
        ],
        shared: Shared::Nothing,
        options: &[],
    },
    CommandRow {
        command: Subcommand::Ask,
        name: "ask",
        words: &[DB, HOST, DIR],
        shared: Shared::Nothing,
        options: &[
            Argument {
                name: "as",
                kind: Kind::Valued("CRED"),
                help: "The client's credential in numbers, as 1001:100:5; a granted line says as whom it acts",
            },
            WHY,
            MOUNTD,
            JSON,
        ],
    },
    CommandRow {
        command: Subcommand::Show,
        name: "show",
        words: &[DB, HOST],
        shared: Shared::Nothing,
        options: &[JSON],
    },
    CommandRow {
        command: Subcommand::Exports,
        name: "exports",
        words: &[DB],
        shared: Shared::Nothing,
        options: &[
            Argument {
                name: "terms",
                kind: Kind::Flag,
                help: "Adds the terms on which each is exported, as terms prints them",
            },
            JSON,
        ],
    },
    CommandRow {
        command: Subcommand::Who,
        name: "who",
        words: &[DB, CLIENTS_DIR],
        shared: Shared::Nothing,
        options: &[MOUNTD, JSON],
    },
    CommandRow {
        command: Subcommand::Put,
        name: "put",
        words: &[
            DB,
            NAME,
            Argument {
                name: "FILE",
                kind: Kind::MaybeWord,
                help: "The new text; - is standard input",
            },
        ],
        shared: Shared::Nothing,
        options: &[
            Argument {
                name: "proposal",
                kind: Kind::Valued("DIGEST"),
                help: "Takes the pending proposal of the file for the new text, if its SHA-256 is this",
            },
            Argument {
                name: "base",
                kind: Kind::Needed("N"),
                help: "The number of the revision that the edit follows; 0 if there is none",
            },
            Argument {
                name: "caller",
                kind: Kind::Needed("CUSTODIAN"),
                help: "Who edits the file",
            },
            Argument {
                name: "key",
                kind: Kind::Valued("KEY"),
                help: "The caller's key; every user of the machine can see it",
            },
            Argument {
                name: "key-file",
                kind: Kind::Valued("FILE"),
                help: "The file whose first line is the caller's key; - is standard input",
            },
        ],
    },
    CommandRow {
        command: Subcommand::Impact,
        name: "impact",
        words: &[
            DB,
            NAME,
            Argument {
                name: "FILE",
                kind: Kind::MaybeWord,
                help: "The new text; - is standard input",
            },
        ],
        shared: Shared::Nothing,
        options: &[
            ALL,
            Argument {
                name: "proposal",
                kind: Kind::Flag,
                help: "Takes the pending proposal of the file for the new text",
            },
            JSON,
        ],
    },
    CommandRow {
        command: Subcommand::Audit,
        name: "audit",
        words: &[
            DB,
            EXPECTATIONS,
            Argument {
                name: "NAME",
                kind: Kind::MaybeWord,
                help: "The name of a file that would have another text",
            },
            Argument {
                name: "FILE",
                kind: Kind::MaybeWord,
                help: "That text; - is standard input",
            },
        ],
        shared: Shared::Nothing,
        options: &[
            Argument {
                name: "proposal",
                kind: Kind::Flag,
                help: "Takes the pending proposal of the file for that text",
            },
            BREACHES_JSON,
            BREACHES_SARIF,
        ],
    },
    CommandRow {
        command: Subcommand::Log,
        name: "log",
        words: &[DB, NAME],
        shared: Shared::Nothing,
        options: &[JSON],
    },
    CommandRow {
        command: Subcommand::Cat,
        name: "cat",
        words: &[DB, NAME],
        shared: Shared::Nothing,
        options: &[
            Argument {
                name: "rev",
                kind: Kind::Valued("N"),
                help: "The number of the revision; the newest without it",
            },
            JSON,
        ],
    },
    CommandRow {
        command: Subcommand::Proposal,
        name: "proposal",
        words: &[DB, NAME],
        shared: Shared::Nothing,
        options: &[JSON],
    },
    CommandRow {
        command: Subcommand::Files,
        name: "files",
        words: &[DB],
        shared: Shared::Nothing,
        options: &[JSON],
    },
    CommandRow {
        command: Subcommand::Report,
        name: "report",
        words: &[DB],
        shared: Shared::Nothing,
        options: &[],
    },
    CommandRow {
        command: Subcommand::Write,
        name: "write",
        words: &[
            DB,
            Argument {
                name: "DIR",
                kind: Kind::Word,
                help: "The folder, which has to be there",
            },
        ],
        shared: Shared::Nothing,
        options: &[],
    },
    CommandRow {
        command: Subcommand::Copy,
        name: "copy",
        words: &[
            DB,
            Argument {
                name: "FILE",
                kind: Kind::Word,
                help: "The file of the copy, which must not be there",
            },
        ],
        shared: Shared::Nothing,
        options: &[],
    },
    CommandRow {
        command: Subcommand::Serve,
        name: "serve",
        words: &[DB],
        shared: Shared::Nothing,
        options: &[
            Argument {
                name: "port",
                kind: Kind::Needed("N"),
                help: "The TCP port of 127.0.0.1, from 1 to 65535",
            },
            Argument {
                name: "connections",
                kind: Kind::Needed("M"),
                help: "How many connections are served before it ends, up to 4294967295",
            },
            Argument {
                name: "timeout",
                kind: Kind::Valued("SECONDS"),
                help: "How long a message, its reply, and an idle connection may take before the connection ends: 5 if it is not given, 0 for no limit",
            },
        ],
    },
];

/// Lends the options that name the files of tables, if they are shared.
pub fn table_options(shared: Shared) -> &'static [Argument]
    ensures { map rule_for result.now ≡ tables_of shared }
{
    match shared {
        Shared::Tables | Shared::Texts => TABLES,
        Shared::Nothing => NONE,
    }
}

/// Lends the options that name more exports files, if they are shared.
pub fn more_options(shared: Shared) -> &'static [Argument]
    ensures { map rule_for result.now ≡ more_of shared }
{
    match shared {
        Shared::Texts => MORE,
        Shared::Nothing | Shared::Tables => NONE,
    }
}

/// Lends the rows of the commands.
pub fn command_rows() -> &'static [CommandRow]
    ensures { map row_of result.now ≡ commands }
{
    COMMANDS
}

/// Finds the command of this name.
pub fn command_named(name: &str) -> Option<Subcommand>
    ensures { result ≡ command_named name.now }
{
    match first_named(command_rows(), name) {
        Some(row) => Some(row.command),
        None => None,
    }
}

/// Finds the first row of this name.
fn first_named<'a>(rows: &'a [CommandRow], name: &str) -> Option<&'a CommandRow>
    ensures { option_map (λ row. row.now) result ≡ find (λ row. bytes_eq row.name.now name.now) rows.now }
{
    rows.iter().find(|row| row.name == name)
}
