//! The newest revisions of files.

ghost use Rattle.std.specs.Prelude.{◌≡◌, ◌<◌, ◌∷◌, [], All, Decides, vec_capacity, vec_len};
ghost use Rattle.std.specs.List.{list_all, position};
ghost use Rattle.std.specs.Option.{option_copied};
ghost use Rattle.std.specs.Str.{bytes_eq};
ghost use Rattle.desk_core.specs.Head.{CanBeKept, StandOnce, newest_in, newest_number, put};
ghost use Rattle.desk_core.specs.PrivateHead.{is_within_limits};

use desk_exports::Profile;
use desk_text::{LONGEST_TEXT, Text};

/// The last number that a revision may have.
pub const LAST_REVISION: u32 = 2_147_483_647;

/// The most bytes that the text of a revision may have when it is stored.
pub const LONGEST_REVISION: usize = 65_536;

/// A revision of a file, mostly its newest: its number from 1, who wrote it, who approved it if the file was guarded, the
/// profile by which it is read, and the file's text.
#[derive(Drop)]
pub struct Head {
    pub file: Text,
    pub rev: u32,
    pub author: Text,
    pub approver: Option<Text>,
    pub profile: Profile,
    pub body: Text,
}

/// Tests whether revisions can be kept in a state: each has a number from 1 to 2,147,483,647, and a text of at most
/// 4,294,967,294 bytes.
pub fn can_be_kept(heads: &[Head]) -> bool
    ensures { Decides result (All CanBeKept heads.now) }
{
    are_within_limits(heads)
}

/// Tests whether revisions are within the limits of what can be kept.
fn are_within_limits(heads: &[Head]) -> bool
    ensures { result ≡ list_all is_within_limits heads.now }
{
    heads.iter().all(|head| is_within_limits(head))
}

/// Tests whether a revision is within the limits of what can be kept.
fn is_within_limits(head: &Head) -> bool
    ensures { result ≡ is_within_limits head.now }
{
    1 <= head.rev && head.rev <= LAST_REVISION && head.body.as_str().len() <= LONGEST_TEXT
}

/// Finds the newest revision of a file.
#[tactic(auto, unfolding(crate::specs::Head::newest_in))]
pub fn newest_among<'a>(heads: &'a [Head], file: &str) -> Option<&'a Head>
    ensures { option_copied result ≡ newest_in heads.now file.now }
{
    heads.iter().find(|head| head.file.as_str() == file)
}

/// Returns the number of a file's newest revision, 0 if it has none.
pub(crate) fn newest_number(newest: Option<&Head>) -> u32
    ensures { result ≡ newest_number (option_copied newest.entry) }
{
    match newest {
        Some(head) => head.rev,
        None => 0,
    }
}

/// Finds the place of the newest revision of a file.
fn place_of(heads: &[Head], file: &str) -> Option<usize>
    ensures { result ≡ position (λ head. bytes_eq head.file file.now) heads.now }
{
    heads.iter().position(|head| head.file.as_str() == file)
}

/// Makes a revision the newest of its file. It takes no memory: the room for a file's first revision is brought along.
pub(crate) fn put_head(heads: &mut Vec<Head>, room: Vec<Head>, head: Head)
    requires empty { room.items ≡ [] }
    requires room { vec_len heads.old < vec_capacity room }
    ensures newest { newest_in heads.new.items ≡ put (newest_in heads.old.items) head }
    ensures once { StandOnce heads.old.items → StandOnce heads.new.items }
    ensures kept { CanBeKept head → All CanBeKept heads.old.items → All CanBeKept heads.new.items }
{
    match place_of(heads.as_slice(), head.file.as_str()) {
        Some(place) => heads[place] = head,
        None => add_head(heads, room, head),
    }
}

/// Puts a revision before the others, in the room that is brought along.
fn add_head(heads: &mut Vec<Head>, mut room: Vec<Head>, head: Head)
    requires empty { room.items ≡ [] }
    requires room { vec_len heads.old < vec_capacity room }
    ensures { heads.new.items ≡ head ∷ heads.old.items }
{
    let Ok(()) = room.push(head) else {
        unreachable!()
    };
    let Ok(()) = room.append(heads) else {
        unreachable!()
    };
    *heads = room;
}
