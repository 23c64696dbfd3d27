//! What can be said of a database file without opening it as a database.
ghost use Rattle.std.specs.Prelude.{◌≡◌, ◌⊎◌, ◌<◌, ◌↔◌, false, is_some, IfSome, IsOkAnd, IsTrue};
ghost use Rattle.std.specs.Fs.{file_type, metadata_len, IsFile};
ghost use Rattle.std.specs.Option.{option_map_or};
ghost use Rattle.std.specs.String.{string_bytes};
ghost use Rattle.program_ends.specs.FileCauses.{begins_otherwise, cause_of_kind, cause_of_links, folder_before, has_second, is_of_path, IsFolder, IsLogPath};

use crate::causes::Cause;
use saga_core::read_some;
use std::alloc::Global;
use std::fs;
use std::fs::{Metadata, OpenOptions};
use std::io::{self, ErrorKind};
use std::os::unix::fs::MetadataExt;

/// The first bytes of each database file.
const FIRST_BYTES: &[u8] = b"SQLite format 3\0";

/// The log beside a database file, by its path, where none stood there before the file was opened.
#[derive(Drop)]
pub struct NewLog {
    path: Option<String>,
}

impl NewLog {
    /// The log that an opening of the file would make. There is none where a log stands beside the file already, where
    /// the file may be that of a new desk, or where that cannot be found out.
    pub(crate) fn beside(rt: &HostRuntime, file: &str) -> NewLog
        ensures log { IfSome result.path (λ path. IsLogPath (string_bytes path)) }
    {
        if !may_be_other(fs::metadata(rt, file)) {
            return NewLog { path: None };
        }
        let path = match log_of(rt, file) {
            Some(path) => match fs::exists(rt, path.as_str()) {
                Ok(false) => Some(path),
                _ => None,
            },
            None => None,
        };
        NewLog { path }
    }

    /// Whether no log stood beside the file.
    pub(crate) fn is_new(&self) -> bool
        ensures new { result ≡ is_some self.now.path }
    {
        self.path.is_some()
    }

    /// Removes the log if it is new. A failure of that is ignored: the log is harmless. Only the system sees what it removes.
    pub(crate) fn remove(self, rt: &HostRuntime) {
        if let Some(path) = self.path {
            let _ = fs::remove_file(rt, path.as_str());
        }
    }
}

/// Whether a file is there and has more than a byte, by what the system says of its path. An empty one is that of a new desk,
/// and so may be one of a single byte, which a first opening left.
fn may_be_other(found: io::Result<Metadata>) -> bool
    ensures other { IsTrue result
        ↔ IsOkAnd found (λ it. IsFile (file_type it) × (1 < metadata_len it)) }
{
    match found {
        Ok(found) => found.is_file() && found.len() > 1,
        Err(_) => false,
    }
}

/// The path of the log of a file that is there.
fn log_of(rt: &HostRuntime, file: &str) -> Option<String>
    ensures log { IfSome result (λ path. IsLogPath (string_bytes path)) }
{
    let alloc: Global = rt.alloc();
    let real = fs::canonicalize(rt, file).ok()?;
    format!(in alloc; "{}-wal", real.as_str()).ok()
}

/// Whether a file does not begin as a database does. No clause knows what a file holds; what its bytes mean is proved below.
pub(crate) fn is_no_database(rt: &HostRuntime, file: &str) -> bool {
    let mut bytes = [0; 16];
    let count = match fs::open(rt, file) {
        Ok(mut opened) => read_some(&mut opened, &mut bytes).ok(),
        Err(_) => None,
    };
    begins_otherwise(count.and_then(|count| bytes.get(..count)))
}

/// Whether these are no first bytes of a database, of which there may be fewer. Where none could be read, that is not known.
fn begins_otherwise(first: Option<&[u8]>) -> bool
    ensures otherwise { result ≡ option_map_or (λ first. begins_otherwise first.now) first.entry false }
{
    match first {
        Some(first) => !FIRST_BYTES.starts_with(first),
        None => false,
    }
}

/// Why a path could not be opened, as far as the path itself shows it.
pub(crate) fn cause_of_path(rt: &HostRuntime, file: &str) -> Option<Cause>
    ensures path { IfSome result (λ cause. IsTrue (is_of_path cause)) }
{
    match fs::metadata(rt, file) {
        Ok(found) if !found.is_file() => Some(Cause::NoFile),
        Ok(_) => cause_of_file(rt, file),
        Err(error) if error.kind() == ErrorKind::NotFound => Some(cause_of_folder(rt, file)),
        Err(error) => cause_of_kind(error.kind()),
    }
}

/// Why a file that is there could not be opened.
fn cause_of_file(rt: &HostRuntime, file: &str) -> Option<Cause>
    ensures path { IfSome result (λ cause. IsTrue (is_of_path cause)) }
{
    match OpenOptions::new().read(true).write(true).open(rt, file) {
        Ok(_) => cause_of_links(links_of(rt, file), links_of_log(rt, file)),
        Err(error) => cause_of_kind(error.kind()),
    }
}

/// Why a file that can be opened is refused, if it is: it or its log has a second hard link, by how many each has, where the
/// system says it.
fn cause_of_links(of_file: Option<u64>, of_log: Option<u64>) -> Option<Cause>
    ensures links { result ≡ cause_of_links of_file of_log }
{
    if has_second(of_file) || has_second(of_log) {
        Some(Cause::SecondLink)
    } else {
        None
    }
}

/// Whether there is a second hard link, by how many there are, where that is known.
fn has_second(links: Option<u64>) -> bool
    ensures second { result ≡ has_second links }
{
    match links {
        Some(count) => count > 1,
        None => false,
    }
}

/// How many hard links a file has. Only the system knows it.
fn links_of(rt: &HostRuntime, file: &str) -> Option<u64> {
    Some(fs::metadata(rt, file).ok()?.nlink())
}

/// How many hard links the log of a file has, which only the system knows too.
fn links_of_log(rt: &HostRuntime, file: &str) -> Option<u64> {
    links_of(rt, log_of(rt, file)?.as_str())
}

/// Why a file that is absent could not be made.
fn cause_of_folder(rt: &HostRuntime, file: &str) -> Cause
    ensures folder { (result ≡ Cause.NoFolder) ⊎ (result ≡ Cause.NotMade) }
{
    match fs::exists(rt, folder_of(file)) {
        Ok(false) => Cause::NoFolder,
        _ => Cause::NotMade,
    }
}

/// The folder of a path: what stands before its last slash.
fn folder_of(file: &str) -> &str
    ensures folder { IsFolder file.now result.now }
{
    match file.rsplit_once('/') {
        Some((before, _)) => folder_before(before),
        None => ".",
    }
}

/// The folder of a path that has a slash, by what stands before its last one.
fn folder_before(before: &str) -> &str
    ensures folder { result.now ≡ folder_before before.now }
{
    if before.is_empty() { "/" } else { before }
}

/// The cause of an error of the system.
pub(crate) fn cause_of_kind(kind: ErrorKind) -> Option<Cause>
    ensures cause { result ≡ cause_of_kind kind }
{
    match kind {
        ErrorKind::NotFound => Some(Cause::Absent),
        ErrorKind::PermissionDenied | ErrorKind::ReadOnlyFilesystem => Some(Cause::NotPermitted),
        ErrorKind::IsADirectory => Some(Cause::NoFile),
        ErrorKind::NotADirectory => Some(Cause::NoFolder),
        ErrorKind::StorageFull | ErrorKind::QuotaExceeded => Some(Cause::FullDisk),
        _ => None,
    }
}
