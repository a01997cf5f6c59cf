//! What the help says of each command, beside its words and options. Nothing is promised of it.
//!
//! It stands beside the table of [`crate::commands`] and not in it, since the prover would read each text there letter by letter.

use crate::commands::Subcommand;

/// What the help says of a command.
#[derive(Clone, Copy)]
pub(crate) struct Help {
    /// What it does, in a line.
    pub about: &'static str,
    /// How it is used, if not as `clap` says.
    pub usage: Option<&'static str>,
    /// What stands at the end.
    pub end: Option<&'static str>,
}

/// Returns what the help says of a command.
pub(crate) fn help_of(command: Subcommand) -> Help {
    match command {
        Subcommand::Try => Help {
            about: "Decides one mount request by an exports file",
            usage: Some(
                "exportdesk try [OPTIONS] <FILE> <HOST> <DIR> <MOUNT>...\n       exportdesk try [OPTIONS] --mounts <FILE> <FILE> <HOST> <DIR>\n       exportdesk try [OPTIONS] --site <DIR> <HOST> <DIR>",
            ),
            end: Some(
                "A table that is not given is empty: names of hosts then stand for nothing, credentials are\n\
             written in numbers with a colon (0:0), and names of networks are unknown. One file may be -,\n\
             standard input. --why prints by what each line matches, and whether it lists DIR: a line for a\n\
             name outweighs one for a network, a longer prefix a shorter one, and any network a line for\n\
             everybody. Standard error says by which line mountd(8) grants what is denied; --mountd, which\n\
             cannot be given with --why, decides by its rule.",
            ),
        },
        Subcommand::Split => Help {
            about: "Splits an exports file among file systems",
            usage: None,
            end: Some(
                "For each file system, in byte order of the mount points, it prints a line `== MOUNT` and the\n\
             lines of FILE that are for it, as they are written. A line is for the file system of its first\n\
             directory, a V4: line for the first file system. Comments are left out.",
            ),
        },
        Subcommand::Check => Help {
            about: "Reports every fault and warning of an exports file and its tables",
            usage: Some(
                "exportdesk check [OPTIONS] <FILE> <MOUNT>...\n       exportdesk check [OPTIONS] --mounts <FILE> <FILE>\n       exportdesk check [OPTIONS] --site <DIR>",
            ),
            end: Some(
                "Each finding is a line `PATH:LINE:COLUMN: fault RULE NAME: ...` or `.. warning ..`, behind which\n\
             stands the line of the file with a mark below the words that it is about. Exports are looked at\n\
             only once the tables have no fault. A table that is not given is empty. One file may be -,\n\
             standard input.",
            ),
        },
        Subcommand::Clients => Help {
            about: "Lists who may mount a directory by an exports file",
            usage: Some(
                "exportdesk clients [OPTIONS] <FILE> <DIR> <MOUNT>...\n       exportdesk clients [OPTIONS] --mounts <FILE> <FILE> <DIR>\n       exportdesk clients [OPTIONS] --site <DIR> <DIR>",
            ),
            end: Some(
                "Each line is `FIRST-LAST` and the verdict on every client of that range, as try prints it; together\n\
             they have every address once. A table that is not given is empty. One file may be -, standard input.\n\
             Standard error says to which client mountd(8) grants DIR that is denied to it here; --mountd lists\n\
             by its rule.",
            ),
        },
        Subcommand::Lists => Help {
            about: "Lists what a client may mount by an exports file",
            usage: Some(
                "exportdesk lists [OPTIONS] <FILE> <HOST> <MOUNT>...\n       exportdesk lists [OPTIONS] --mounts <FILE> <FILE> <HOST>\n       exportdesk lists [OPTIONS] --site <DIR> <HOST>",
            ),
            end: Some(
                "For each file system of which a line matches the client it prints a line `MOUNT [alldirs] TERMS lines\n\
             LINE,LINE`, and below it, after two blanks, each directory that its lines write and that the client may\n\
             mount; with alldirs it may mount all others, too. A table that is not given is empty. One file may be -,\n\
             standard input.",
            ),
        },
        Subcommand::Terms => Help {
            about: "Lists whom each directory of an exports file is for, and on what terms",
            usage: Some(
                "exportdesk terms [OPTIONS] <FILE> <MOUNT>...\n       exportdesk terms [OPTIONS] --mounts <FILE> <FILE>\n       exportdesk terms [OPTIONS] --site <DIR>",
            ),
            end: Some(
                "For each directory of each line, by mount point and line, it prints a line `DIRECTORY CLIENTS [alldirs]\n\
             TERMS`. CLIENTS is the names of the line, its network, (ipv6) or (everyone); TERMS is as try prints it. A\n\
             table that is not given is empty. One file may be -, standard input.",
            ),
        },
        Subcommand::Compare => Help {
            about: "Tells what another exports file would change",
            usage: Some(
                "exportdesk compare [OPTIONS] <OLD> <NEW> <MOUNT>...\n       exportdesk compare [OPTIONS] --mounts <FILE> <OLD> <NEW>\n       exportdesk compare [OPTIONS] --site <DIR> <NEW>",
            ),
            end: Some(
                "For each directory that changes it prints a line `== DIR`, or `== other directories of MOUNT` for all that\n\
             no line writes, and below it for each range of addresses the verdict by OLD behind `- ` and that by NEW\n\
             behind `+ `. The last line counts: a change of a line or a reason alone does not matter to a client. A\n\
             table that is not given is empty. One file may be -, standard input. Status: 0 nothing changes for a\n\
             client; 1 something does; 3 a text has a fault.",
            ),
        },
        Subcommand::Test => Help {
            about: "Tests whether an exports file keeps what is expected of it",
            usage: Some(
                "exportdesk test [OPTIONS] <FILE> <EXPECTATIONS> <MOUNT>...\n       exportdesk test [OPTIONS] --mounts <FILE> <FILE> <EXPECTATIONS>\n       exportdesk test [OPTIONS] --site <DIR> <EXPECTATIONS>",
            ),
            end: Some(
                "EXPECTATIONS has a line for each: WHOM [but NAME..] may [not] ACTION DIR.., as in\n\
             `everybody but adm may not write /usr/...`, where /usr/... is /usr and all below it. ACTION is mount, write,\n\
             root, sys, krb5, krb5i or krb5p. For each that is broken it prints `FILE:LINE: broken: WORDS`, and below it,\n\
             for each directory where it is, a line `== DIR` and a line for each range of addresses, as clients does. The\n\
             last line counts. Standard error names the directories that are in no file system. A table that is not given\n\
             is empty. One file may be -, standard input. Status: 0 all hold; 1 some are broken; 3 a text has a fault.",
            ),
        },
        Subcommand::Init => Help {
            about: "Makes a database of a site's files",
            usage: None,
            end: Some(
                "DIR has the files custodians, filesystems, hosts, networks, passwd, group, netgroup and exports;\n\
             exports is split among the file systems. Without filesystems, the mount points are those of the file\n\
             mounts, and site keeps them. Each file is stored as revision 1, by site. It prints the\n\
             warnings of the files, and `ready`. DB is made for its owner alone; a log DB-wal stands beside it.",
            ),
        },
        Subcommand::Ask => Help {
            about: "Decides one mount request by the policy in force",
            usage: None,
            end: Some(
                "--why prints by what each line matches, and whether it lists DIR: a line for a name outweighs one\n\
             for a network, a longer prefix a shorter one, and any network a line for everybody. Standard\n\
             error says by which line mountd(8) grants what is denied; --mountd, which cannot be given with\n\
             --why, decides by its rule.",
            ),
        },
        Subcommand::Show => Help {
            about: "Lists what a client may mount",
            usage: None,
            end: None,
        },
        Subcommand::Exports => Help {
            about: "Lists the directories of all exports lines, and whom they are for",
            usage: None,
            end: None,
        },
        Subcommand::Who => Help {
            about: "Lists who may mount a directory",
            usage: None,
            end: Some(
                "Each line is `FIRST-LAST` and the verdict on every client of that range, as ask prints it; together\n\
             they have every address once. Standard error says to which client mountd(8) grants DIR that is\n\
             denied to it here; --mountd lists by its rule.",
            ),
        },
        Subcommand::Put => Help {
            about: "Puts a new text of a file in force, as its next revision",
            usage: Some(
                "exportdesk put <DB> <NAME> <FILE> --base <N> --caller <CUSTODIAN> --key-file <FILE>\n       exportdesk put <DB> <NAME> <FILE> --base <N> --caller <CUSTODIAN> --key <KEY>\n       exportdesk put --proposal <DIGEST> --base <N> --caller <CUSTODIAN> --key-file <FILE> <DB> <NAME>",
            ),
            end: Some(
                "NAME is custodians, filesystems, hosts, networks, passwd, group or netgroup, which site keeps, or\n\
             exports: and a mount point, as exports:/usr, which the custodians of that mount point keep. Nothing\n\
             is stored unless the site is consistent with the new text. If the mount point is guarded, the text is\n\
             proposed; it is put in force by another of its custodians, who puts the same text with the same base,\n\
             or that text by its DIGEST, as proposal tells it.",
            ),
        },
        Subcommand::Impact => Help {
            about: "Tells what a new text of a file would change, and stores nothing",
            usage: Some(
                "exportdesk impact [OPTIONS] <DB> <NAME> <FILE>\n       exportdesk impact [OPTIONS] <DB> <NAME> --proposal",
            ),
            end: Some(
                "For each directory that changes it prints a line `== DIR`, or `== other directories of MOUNT` for all that\n\
             no line writes, and below it for each range of addresses the verdict now behind `- ` and that with the new\n\
             text behind `+ `. The last line counts: a change of a line or a reason alone does not matter to a client.\n\
             NAME is as in put; no key is asked. Status: 0 nothing changes for a client; 1 something does, the text is\n\
             refused, or there is no proposal; 3 the text has a fault.",
            ),
        },
        Subcommand::Audit => Help {
            about: "Tests whether the newest files keep what is expected of them",
            usage: Some(
                "exportdesk audit [OPTIONS] <DB> <EXPECTATIONS>\n       exportdesk audit [OPTIONS] <DB> <EXPECTATIONS> <NAME> <FILE>\n       exportdesk audit [OPTIONS] <DB> <EXPECTATIONS> <NAME> --proposal",
            ),
            end: Some(
                "EXPECTATIONS, and what is printed, are as in test. With NAME and FILE, or --proposal, the site is tested as\n\
             put would put it in force: NAME is as in put; no key is asked, and nothing is stored. Status: 0 all hold;\n\
             1 some are broken, the text is refused, or there is no proposal; 3 a text has a fault.",
            ),
        },
        Subcommand::Log => Help {
            about: "Lists the revisions of a file with their authors",
            usage: None,
            end: Some(
                "Each line is a revision with its number and its author, as `rev 2 ulf`. Behind it stands who approved it, as\n\
             `, approved by site`, and `, profile 1` if its networks may have the masks of their classes.",
            ),
        },
        Subcommand::Cat => Help {
            about: "Prints the text of a file",
            usage: None,
            end: None,
        },
        Subcommand::Proposal => Help {
            about: "Prints the text that is proposed for a guarded file",
            usage: None,
            end: Some(
                "Standard error says who proposed it, which revision it follows, and the SHA-256 of the text. Another\n\
             custodian of the mount point puts it in force by a put of this text, or with --proposal and this\n\
             SHA-256, with the number of that revision as its base.",
            ),
        },
        Subcommand::Files => Help {
            about: "Lists the files with their newest revisions and authors",
            usage: None,
            end: Some(
                "Each line is a file with the number and the author of its newest revision, as `hosts rev 1 site`. An exports\n\
             file has `guarded` behind it if its mount point is, and `unlisted` if that is not listed now. Below it stands\n\
             its proposal, if one is pending, as `exports:/usr proposed rev 2 ulf`.",
            ),
        },
        Subcommand::Report => Help {
            about: "Prints a page in HTML that shows who may mount what",
            usage: None,
            end: Some(
                "The page needs nothing but itself: it has no script, and loads nothing. It shows by the newest texts who may\n\
             mount which directory, on what terms, by which line and by whose hand, what stands out, and what each\n\
             proposal would change. It has no date: of the same revisions and proposals it is the same, to the byte.",
            ),
        },
        Subcommand::Write => Help {
            about: "Writes the newest texts as the files that init reads",
            usage: None,
            end: Some(
                "DIR gets custodians, filesystems, hosts, networks, passwd, group, netgroup and exports, which has the\n\
             texts of the listed mount points, each below a comment that names its file, revision and author. A file\n\
             that has the same bytes is left alone; another is replaced at once, by a new one that takes its name, and\n\
             told by a line `written NAME`. A text that init could not read is refused, and nothing is written.",
            ),
        },
        Subcommand::Copy => Help {
            about: "Copies a database into one new file, as its backup",
            usage: None,
            end: Some(
                "FILE holds all that DB held at that moment, with the log DB-wal taken in, and is made for its owner alone.\n\
             It must not be there yet, nor anything named FILE-wal or FILE-journal. DB may be in use by serve or put\n\
             meanwhile. Once FILE is written and synced, it prints `copied`.",
            ),
        },
        Subcommand::Serve => Help {
            about: "Answers questions and takes edits over HTTP on the loopback address",
            usage: None,
            end: Some(
                "It prints `listening 127.0.0.1:N`, and then serves up to 256 connections at once, until M of them\n\
             have ended. While it runs, put on DB is refused, and so is another serve: edit over HTTP instead, as\n\
             docs/HTTP.md says. Commands that only read DB work as usual. There is no TLS, and a question needs no\n\
             key: whoever reaches the port may ask.",
            ),
        },
    }
}
