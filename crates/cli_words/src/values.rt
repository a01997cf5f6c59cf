//! Parses the words of a command that are more than texts: HOST, DIR, MOUNT, CRED, DIGEST, and numbers. A fault names the
//! argument as the usage does.

ghost use Rattle.std.specs.Prelude.{◌≡◌, MatchResult, None, Ok, Some, codes, false, map, true};
ghost use Rattle.std.specs.Option.{option_map};
ghost use Rattle.desk_text.specs.Address.{number_of, read_addr};
ghost use Rattle.desk_text.specs.Lines.{IsReadable};
ghost use Rattle.desk_text.specs.Path.{read_path};
ghost use Rattle.desk_tables.specs.CredentialText.{read_credential as read_cred};
ghost use Rattle.desk_tables.specs.FileSystems.{IsTableOf};
ghost use Rattle.desk_tables.specs.Groups.{read_groups};
ghost use Rattle.desk_tables.specs.Users.{read_users};
ghost use Rattle.cli_words.specs.Values.{AnswersArgument, AnswersOwn, IsBadArgument, IsBadCount, IsBadMount, IsBadNumber, IsBadPort, IsNoTable, IsRequest, count_number, first_bad_path, is_digest, is_small_digit, own_answer, paths_of, port_number, revision_number};
ghost use Rattle.cli_output.specs.Failure.{IsRefusal};
ghost use Rattle.cli_output.specs.declared.bad_argument.ArgumentFault.TheVariants as fault;

use cli_output::bad_argument::ArgumentFault;
use cli_output::failure::Failure;
use desk_mounts::table_of;
use desk_tables::{Cred, FileSystems, Groups, Users, credential};
use desk_text::{Addr, Path, ReadError, read_decimal};
use std::alloc::Global;

/// A mount request: who asks for which directory.
#[derive(Drop)]
pub struct Request {
    pub address: Addr,
    pub path: Path,
}

/// Parses HOST and DIR, from left to right.
pub fn read_request(alloc: Global, host: &str, dir: &str) -> Result<Request, Failure>
    ensures { MatchResult result (IsRequest host.now dir.now)
        (IsBadArgument host.now (read_addr host.now) dir.now (read_path dir.now)) }
{
    let address = read_host(alloc, host)?;
    let path = read_path(alloc, "DIR", dir)?;
    Ok(Request { address, path })
}

/// Parses HOST, the client's address.
pub fn read_host(alloc: Global, word: &str) -> Result<Addr, Failure>
    ensures { AnswersArgument number_of fault.Address (codes "HOST") word.now (read_addr word.now) result }
{
    match Addr::read(word) {
        Ok(address) => Ok(address),
        Err(fault) => Err(Failure::of_argument(alloc, "HOST", word, ArgumentFault::Address(fault))),
    }
}

/// Parses a path.
pub fn read_path(alloc: Global, argument: &'static str, word: &str) -> Result<Path, Failure>
    ensures { AnswersArgument (λ path. path) fault.Path argument.now word.now (read_path word.now) result }
{
    match ReadError::split(Path::read(alloc, word))? {
        Ok(path) => Ok(path),
        Err(fault) => Err(Failure::of_argument(alloc, argument, word, ArgumentFault::Path(fault))),
    }
}

/// Parses the number of a revision; that which an edit follows may be 0.
pub fn read_number(alloc: Global, argument: &'static str, word: &str) -> Result<u32, Failure>
    ensures { MatchResult result (λ number. revision_number word.now ≡ Some number)
        (λ failure. (revision_number word.now ≡ None) × IsBadNumber argument.now word.now failure) }
{
    match read_decimal(word, 2_147_483_647) {
        Some(number) => Ok(number),
        None => Err(Failure::of_argument(
            alloc,
            argument,
            word,
            ArgumentFault::Number(0, 2_147_483_647),
        )),
    }
}

/// Tests whether a word is a digest of a text.
pub fn check_digest(alloc: Global, argument: &'static str, word: &str) -> Result<(), Failure>
    ensures { MatchResult result (λ fine. is_digest word.now ≡ true)
        (λ failure. (is_digest word.now ≡ false) × IsRefusal argument.now word.now fault.Digest failure) }
{
    if is_digest(word) {
        Ok(())
    } else {
        Err(Failure::of_argument(alloc, argument, word, ArgumentFault::Digest))
    }
}

/// Tests whether a word is 64 hexadecimal digits, the letters small.
fn is_digest(word: &str) -> bool
    ensures { result ≡ is_digest word.now }
{
    word.len() == 64 && word.as_bytes().iter().all(|b| is_small_digit(*b))
}

/// Tests whether a byte is a hexadecimal digit, and no capital letter.
fn is_small_digit(b: u8) -> bool
    ensures { result ≡ is_small_digit b }
{
    b.is_ascii_hexdigit() && !b.is_ascii_uppercase()
}

/// Parses the number of a port: from 1 to 65,535.
pub fn read_port(alloc: Global, word: &str) -> Result<u16, Failure>
    ensures { MatchResult result (λ number. port_number word.now ≡ Some number)
        (λ failure. (port_number word.now ≡ None) × IsBadPort word.now failure) }
{
    match read_decimal(word, 65_535) {
        Some(number) if number > 0 => Ok(number as u16),
        _ => Err(Failure::of_argument(alloc, "--port", word, ArgumentFault::Number(1, 65_535))),
    }
}

/// Parses how many connections or seconds there are, which may be none.
pub fn read_count(alloc: Global, argument: &'static str, word: &str) -> Result<u32, Failure>
    ensures { MatchResult result (λ number. count_number word.now ≡ Some number)
        (λ failure. (count_number word.now ≡ None) × IsBadCount argument.now word.now failure) }
{
    match read_decimal(word, u32::MAX) {
        Some(number) => Ok(number),
        None => Err(Failure::of_argument(
            alloc,
            argument,
            word,
            ArgumentFault::Number(0, u32::MAX),
        )),
    }
}

/// Parses each MOUNT, the mount points of the file systems.
pub fn read_mounts(alloc: Global, words: &[&str]) -> Result<FileSystems, Failure>
    ensures { let given = map (λ word. word.now) words.now in
        MatchResult result (λ table. (first_bad_path given ≡ None) × IsTableOf (paths_of given) table) (IsNoTable given) }
{
    let mount_points = read_mount_points(alloc, words)?;
    match table_of(alloc, mount_points)? {
        Ok(filesystems) => Ok(filesystems),
        Err(count) => Err(Failure::TooManyMounts("MOUNT", count)),
    }
}

/// Parses each MOUNT, in order.
fn read_mount_points(alloc: Global, words: &[&str]) -> Result<Vec<Path>, Failure>
    ensures { let given = map (λ word. word.now) words.now in
        MatchResult result (λ paths. (first_bad_path given ≡ None) × (paths.items ≡ paths_of given)) (IsBadMount given) }
{
    let mut mount_points = Vec::new(alloc);
    for word in words {
        let path = read_path(alloc, "MOUNT", word)?;
        mount_points.push(path)?;
    }
    Ok(mount_points)
}

/// Parses CRED, if it is given, with the users and groups that these texts list. If one of these texts has a fault, that is
/// reported later, and CRED is not looked at.
pub fn read_credential(
    alloc: Global,
    word: Option<&str>,
    passwd: &str,
    group: &str,
) -> Result<Option<Cred>, Failure>
    requires passwd { IsReadable passwd.now }
    requires group { IsReadable group.now }
    ensures { let given = option_map (λ word. word.now) word.entry in
        AnswersOwn given (own_answer given (read_users passwd.now) (read_groups group.now)) result }
{
    let Some(word) = word else {
        return Ok(None);
    };
    match ReadError::split(Users::read(alloc, passwd))? {
        Ok(users) => read_with_users(alloc, word, &users, group),
        Err(_) => Ok(None),
    }
}

/// Parses CRED, if it is given, with these users and groups.
pub fn read_credential_with(
    alloc: Global,
    word: Option<&str>,
    users: &Users,
    groups: &Groups,
) -> Result<Option<Cred>, Failure>
    ensures { let given = option_map (λ word. word.now) word.entry in
        AnswersOwn given (own_answer given (Ok users.now) (Ok groups.now)) result }
{
    match word {
        Some(word) => parse_credential(alloc, word, users, groups),
        None => Ok(None),
    }
}

/// Parses CRED with these users and the groups that a text lists.
fn read_with_users(
    alloc: Global,
    word: &str,
    users: &Users,
    group: &str,
) -> Result<Option<Cred>, Failure>
    requires { IsReadable group.now }
    ensures { AnswersOwn (Some word.now) (own_answer (Some word.now) (Ok users.now) (read_groups group.now)) result }
{
    match ReadError::split(Groups::read(alloc, group))? {
        Ok(groups) => parse_credential(alloc, word, users, &groups),
        Err(_) => Ok(None),
    }
}

/// Parses CRED with these users and groups.
fn parse_credential(
    alloc: Global,
    word: &str,
    users: &Users,
    groups: &Groups,
) -> Result<Option<Cred>, Failure>
    ensures { AnswersOwn (Some word.now) (read_cred users.now groups.now word.now) result }
{
    match credential(users, groups, word) {
        Ok(own) => Ok(Some(own)),
        Err(fault) => Err(Failure::of_argument(
            alloc,
            "--as",
            word,
            ArgumentFault::Credential(fault),
        )),
    }
}
