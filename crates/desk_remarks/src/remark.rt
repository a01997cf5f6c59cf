//! What is said of a line that breaks no rule.

ghost use Rattle.std.specs.Prelude.{◌≡◌};
ghost use Rattle.desk_remarks.specs.Remark as spec;

use desk_text::{Addr, Path, Said};

/// What is said of a line that breaks no rule.
#[derive(Clone, Copy, PartialEq, Eq)]
pub enum Remark {
    /// The line decides nothing: it is selected at no address, though it matches some.
    Shadowed,
    /// The line decides nothing, though it is selected at some address.
    Repeated,
    /// The line decides nothing: it matches no address.
    NoClient,
    /// The line is for a network of every address.
    EveryAddress,
    /// An opinion: the line lets everybody write.
    WritableByAll,
    /// An opinion: the line lets the root of many clients act as root.
    RootForMany,
    /// Shadowed, of a line by which mountd(8) may grant.
    ShadowedHere,
    /// mountd(8) grants more to a client of the line, by a lighter one.
    ServerGrantsMore,
    /// A word of the line has a backslash.
    Backslash,
    /// An opinion: the line turns NFSv4 on.
    V4Line,
    /// An earlier line of the file system has a client of the line.
    RepeatedClient,
}

/// What shows it: an address, and another line. Of a line that decides nothing they are the least address that it matches or at which
/// it is selected, and the first line that is selected there.
#[derive(Clone, Copy)]
pub struct Example {
    pub line: u32,
    pub address: Addr,
}

/// What is said of the line of this number.
#[derive(Drop)]
pub struct LineRemark {
    pub line: u32,
    pub remark: Remark,
    pub example: Option<Example>,
    /// The directory that the remark is about, if it is about one.
    pub directory: Option<Path>,
}

/// What the other line is that shows a remark, if one does.
#[derive(Clone, Copy)]
pub enum OtherLine {
    /// The first line that is selected at the address.
    First,
    /// One by which mountd(8) grants more.
    Grants,
    /// One that mountd(8) takes alone.
    Taken,
}

/// What is printed of a remark, and how.
#[derive(Clone, Copy)]
struct Row {
    said: Said,
    is_opinion: bool,
    other: OtherLine,
}

/// The remarks that have numbers of their own, in the order of these.
const REMARKS: &[Remark] = &[
    Remark::Shadowed,
    Remark::Repeated,
    Remark::NoClient,
    Remark::EveryAddress,
    Remark::WritableByAll,
    Remark::RootForMany,
    Remark::ServerGrantsMore,
    Remark::Backslash,
    Remark::V4Line,
    Remark::RepeatedClient,
];

impl Remark {
    /// Gives the remarks that logs list: those with numbers of their own, in the order of these.
    pub fn all() -> &'static [Remark]
        ensures { result.now ≡ spec.remarks }
    {
        REMARKS
    }

    /// Gives the kind that has its number and its name: logs list these. It is the remark itself, but of a line by which mountd(8) may
    /// grant.
    pub fn rule(self) -> Remark
        ensures { result ≡ spec.rule_of self }
    {
        if self == Remark::ShadowedHere {
            Remark::Shadowed
        } else {
            self
        }
    }

    /// Gives the number of the kind of warning, behind those of words.
    pub fn number(self) -> u32
        ensures { result ≡ spec.remark_number self }
    {
        self.row().said.number
    }

    /// Gives the name of the kind of warning.
    pub fn name(self) -> &'static str
        ensures { result.now ≡ spec.remark_name self }
    {
        self.row().said.name
    }

    /// Gives what is said of the line, without the example.
    pub fn sentence(self) -> &'static str
        ensures { result.now ≡ spec.remark_sentence self }
    {
        self.row().said.sentence
    }

    /// Tests whether it is an opinion.
    pub fn is_opinion(self) -> bool
        ensures { result ≡ spec.is_opinion self }
    {
        self.row().is_opinion
    }

    /// Gives what the line of its example is.
    pub fn other(self) -> OtherLine
        ensures { result ≡ spec.other_line_of self }
    {
        self.row().other
    }

    fn row(self) -> Row
        ensures number { result.said.number ≡ spec.remark_number self }
        ensures name { result.said.name.now ≡ spec.remark_name self }
        ensures sentence { result.said.sentence.now ≡ spec.remark_sentence self }
        ensures opinion { result.is_opinion ≡ spec.is_opinion self }
        ensures other { result.other ≡ spec.other_line_of self }
    {
        match self {
            Remark::Shadowed => Row {
                said: Said {
                    number: 5,
                    name: "Shadowed",
                    sentence: "the line decides nothing: heavier lines match each of its clients",
                },
                is_opinion: false,
                other: OtherLine::First,
            },
            Remark::Repeated => Row {
                said: Said {
                    number: 6,
                    name: "Repeated",
                    sentence: "the line decides nothing: earlier lines of equal weight list all that it lists",
                },
                is_opinion: false,
                other: OtherLine::First,
            },
            Remark::NoClient => Row {
                said: Said {
                    number: 7,
                    name: "NoClient",
                    sentence: "the line decides nothing: its names stand for no address",
                },
                is_opinion: false,
                other: OtherLine::First,
            },
            Remark::EveryAddress => Row {
                said: Said {
                    number: 8,
                    name: "EveryAddress",
                    sentence: "the network has the prefix 0, so the line is for everybody: leave the network out, or correct it",
                },
                is_opinion: false,
                other: OtherLine::First,
            },
            Remark::WritableByAll => Row {
                said: Said {
                    number: 9,
                    name: "WritableByAll",
                    sentence: "everybody may write to it: add -ro, or name the clients",
                },
                is_opinion: true,
                other: OtherLine::First,
            },
            Remark::RootForMany => Row {
                said: Said {
                    number: 10,
                    name: "RootForMany",
                    sentence: "root of each client acts as root: leave out -maproot or -mapall, or name the hosts",
                },
                is_opinion: true,
                other: OtherLine::First,
            },
            Remark::ShadowedHere => Row {
                said: Said {
                    number: 5,
                    name: "Shadowed",
                    sentence: "the line decides nothing here, though mountd(8) may grant by it: heavier lines match each of its clients",
                },
                is_opinion: false,
                other: OtherLine::First,
            },
            Remark::ServerGrantsMore => Row {
                said: Said {
                    number: 11,
                    name: "ServerGrantsMore",
                    sentence: "mountd(8) also lets a client mount a directory by a lighter line: list the directory here as well if that is meant, else keep the client out of that line's network, or give it a file system of its own",
                },
                is_opinion: false,
                other: OtherLine::Grants,
            },
            Remark::Backslash => Row {
                said: Said {
                    number: 12,
                    name: "Backslash",
                    sentence: "mountd(8) may read this word otherwise: write the name in quotes",
                },
                is_opinion: false,
                other: OtherLine::First,
            },
            Remark::V4Line => Row {
                said: Said {
                    number: 13,
                    name: "V4Line",
                    sentence: "by NFSv4 a client that may mount one directory reaches the whole file system: the verdicts on directories hold for NFSv3 alone",
                },
                is_opinion: true,
                other: OtherLine::First,
            },
            Remark::RepeatedClient => Row {
                said: Said {
                    number: 14,
                    name: "RepeatedClient",
                    sentence: "mountd(8) takes one line for a client and a file system, and may leave this one out: write the directories on one line",
                },
                is_opinion: false,
                other: OtherLine::Taken,
            },
        }
    }
}
