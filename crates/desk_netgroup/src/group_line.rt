//! The groups that the lines of a netgroup file define. (netgroup(5))

use desk_text::{Sequence, Text};

/// A member of a group: another group, or the host of a triple that has one.
#[derive(Drop)]
pub enum Member {
    Group(Text),
    Host(Text),
}

/// A line that defines a group: the number of its first physical line, the group's name, and its
/// members in the order written. A triple whose host is empty or `-` adds none.
#[derive(Drop)]
pub struct GroupLine {
    pub line: u32,
    pub name: Text,
    pub members: Sequence<Member>,
}
