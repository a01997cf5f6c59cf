//! A database that is copied step by step, while it may be written.
//!
//! Rules; whoever changes one changes what a reader beside a service may see:
//! 1. The header of the log is read first, then DB, then the log, then the log again, and then its header again. DB is written only while
//!    the pages that it gets are still in the log, and a log is written over only behind a new header. So if the header stays, each page of
//!    DB that changed meanwhile is in the log that is read behind it, as it was committed.
//! 2. Of the log stays what both readings have alike (`kept`). The byte that a commit sets last is read before the rest of that commit is
//!    read again, so a commit of which a part was read too early is cut.
//! 3. Both names lead to the same files at the end. Else another pair has taken their place, and nothing holds of the two.
//! 4. Where nobody can write, since SQLite's lock is shared, a log without a header, or none at all, is one without a commit. Where
//!    somebody may, such a log is about to be made, so nothing is copied.

ghost use Rattle.std.specs.Prelude.{◌≡◌, ℕ, IfOk, IfSome, List, OnOk};
ghost use Rattle.cli_database_files.specs.Copying.{IsCopyOf, LogGives, everything, header_len};

use crate::copied_file::CopiedFile;
use crate::kept::{HEADER_LEN, kept};
use sqlite_disk::Files;
use std::alloc::Global;
use std::io::{Read, Seek, SeekFrom};
use std::os::unix::fs::MetadataExt;
use std::{fs, io};

/// A file of a database, as it is read: from its front on, up to a number of bytes or to its end.
pub trait Source {
    // Reading the file so can give these bytes. Another process may write it, so two readings can give others.
    ghost gives: { Self → ℕ → List ℕ → Type 0 };

    /// Reads the file from its front on, but no more than this many bytes.
    fn read_front(&self, alloc: Global, most: u64) -> io::Result<Vec<u8>>
        ensures { IfOk result (λ bytes. gives self.now most bytes.items) };

    /// Tests whether a path leads to this file.
    fn is_at(&self, rt: &HostRuntime, path: &str) -> io::Result<bool>;
}

impl Source for fs::File {
    ghost gives = { λ file most bytes. Unit {0} };

    fn read_front(&self, alloc: Global, most: u64) -> io::Result<Vec<u8>> {
        let mut reader = self;
        reader.seek(SeekFrom::Start(0))?;
        // There is room for the whole file, and for one byte more, so that its end is found without more room.
        let len = self.metadata()?.len().min(most);
        let mut bytes = Vec::with_capacity(alloc, (len as usize).saturating_add(1))?;
        reader.take(most).read_to_end(&mut bytes)?;
        Ok(bytes)
    }

    fn is_at(&self, rt: &HostRuntime, path: &str) -> io::Result<bool> {
        match fs::symlink_metadata(rt, path) {
            Ok(named) => {
                let found = self.metadata()?;
                Ok(named.dev() == found.dev() && named.ino() == found.ino())
            }
            Err(error) if error.kind() == io::ErrorKind::NotFound => Ok(false),
            Err(error) => Err(error),
        }
    }
}

/// What was read so far of a database that is copied.
#[derive(Drop)]
pub struct Copying<L> {
    alloc: Global,
    /// The log, if there was one.
    pub log: Option<L>,
    /// The header that the log had at first, as far as it had one.
    pub before: Vec<u8>,
    /// The bytes of DB.
    pub db_bytes: Vec<u8>,
    /// The first reading of the log.
    pub first: Vec<u8>,
    /// The second.
    pub second: Vec<u8>,
}

impl<L: Source + Drop> Copying<L> {
    /// Begins to copy a database whose log is this one, if there is one: reads the header of the log.
    pub fn begin(alloc: Global, log: Option<L>) -> io::Result<Copying<L>>
        ensures log { IfOk result (λ begun. begun.log ≡ log) }
        ensures before { IfOk result (λ begun. LogGives L.Source.gives log header_len begun.before.items) }
    {
        let before = read_if_any(alloc, &log, HEADER_LEN as u64)?;
        Ok(Copying {
            alloc,
            log,
            before,
            db_bytes: Vec::new(alloc),
            first: Vec::new(alloc),
            second: Vec::new(alloc),
        })
    }

    /// Reads DB.
    pub fn read_db<D: Source>(&mut self, db: &D) -> io::Result<()>
        ensures given { OnOk result (D.Source.gives db.now everything self.new.db_bytes.items) }
        ensures log { OnOk result (self.new.log ≡ self.old.log) }
        ensures before { OnOk result (self.new.before ≡ self.old.before) }
    {
        self.db_bytes = db.read_front(self.alloc, u64::MAX)?;
        Ok(())
    }

    /// Reads the log, for the first time.
    pub fn read_log(&mut self) -> io::Result<()>
        ensures given { OnOk result (LogGives L.Source.gives self.old.log everything self.new.first.items) }
        ensures log { OnOk result (self.new.log ≡ self.old.log) }
        ensures before { OnOk result (self.new.before ≡ self.old.before) }
        ensures db { OnOk result (self.new.db_bytes ≡ self.old.db_bytes) }
    {
        self.first = read_if_any(self.alloc, &self.log, u64::MAX)?;
        Ok(())
    }

    /// Reads the log again.
    pub fn read_log_again(&mut self) -> io::Result<()>
        ensures given { OnOk result (LogGives L.Source.gives self.old.log everything self.new.second.items) }
        ensures log { OnOk result (self.new.log ≡ self.old.log) }
        ensures before { OnOk result (self.new.before ≡ self.old.before) }
        ensures db { OnOk result (self.new.db_bytes ≡ self.old.db_bytes) }
        ensures first { OnOk result (self.new.first ≡ self.old.first) }
    {
        self.second = read_if_any(self.alloc, &self.log, u64::MAX)?;
        Ok(())
    }

    /// Ends: gives the copy of DB and of what stays of the log; none if the log was written from its front on meanwhile, or if the names
    /// lead to other files. (What was read becomes the copy, so that no byte of it stands twice.)
    pub fn end<D: Source>(
        self,
        rt: &HostRuntime,
        db: &D,
        db_path: &str,
        log_path: &str,
    ) -> io::Result<Option<Files<CopiedFile>>>
        ensures { IfOk result (λ copied. IfSome copied (IsCopyOf L.Source.gives self)) }
    {
        let after = read_if_any(self.alloc, &self.log, HEADER_LEN as u64)?;
        let Some(log_bytes) = kept(
            self.before.as_slice(),
            self.first.as_slice(),
            self.second.as_slice(),
            after.as_slice(),
        ) else {
            return Ok(None);
        };
        let log_len = log_bytes.len();
        if !db.is_at(rt, db_path)? || !is_log_at(rt, log_path, &self.log)? {
            return Ok(None);
        }
        let mut log = self.first;
        log.truncate(log_len);
        Ok(Some(Files {
            log: CopiedFile::of(log),
            db: CopiedFile::of(self.db_bytes),
        }))
    }

    /// Tells whether the log had a header at first.
    pub fn has_header(&self) -> bool {
        self.before.len() == HEADER_LEN && self.before.as_slice().starts_with(&[0x37, 0x7f, 0x06])
    }
}

/// Reads a log, if there is one, from its front on, but no more than this many bytes.
fn read_if_any<L: Source>(alloc: Global, log: &Option<L>, most: u64) -> io::Result<Vec<u8>>
    ensures { IfOk result (λ bytes. LogGives L.Source.gives log.now most bytes.items) }
{
    match log {
        Some(log) => log.read_front(alloc, most),
        None => Ok(Vec::new(alloc)),
    }
}

/// Tests whether a path leads to this log, or to nothing if there is none.
fn is_log_at<L: Source>(rt: &HostRuntime, path: &str, log: &Option<L>) -> io::Result<bool> {
    match log {
        Some(log) => log.is_at(rt, path),
        None => is_free(rt, path),
    }
}

/// Tests whether nothing stands at a path.
fn is_free(rt: &HostRuntime, path: &str) -> io::Result<bool> {
    match fs::symlink_metadata(rt, path) {
        Ok(_) => Ok(false),
        Err(error) if error.kind() == io::ErrorKind::NotFound => Ok(true),
        Err(error) => Err(error),
    }
}
