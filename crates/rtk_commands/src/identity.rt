//! Which file a name means.

use std::fs;
use std::fs::Files;
use std::os::unix::fs::MetadataExt;

/// The word by which the system names standard output.
const STANDARD_OUTPUT: &str = "/proc/self/fd/1";

/// A file of the system, by the numbers of its device and of the file.
#[derive(Clone, Copy, Debug, Default, PartialEq, Eq)]
pub struct FileIdentity {
    pub device: u64,
    pub number: u64,
}

/// What a name means.
#[derive(Clone, Copy, Debug, PartialEq, Eq)]
pub enum Named {
    /// No file that can be looked at.
    Nothing,
    /// A regular file. Its identity is `None` if the system tells none.
    File(Option<FileIdentity>),
    /// Something else, as a pipe or a folder.
    Other,
}

/// What a name means; a symbolic link is followed.
pub fn what_is_named<R: Files>(rt: &R, name: &str) -> Named {
    let Ok(found) = fs::metadata(rt, name) else {
        return Named::Nothing;
    };
    if !found.is_file() {
        return Named::Other;
    }
    let identity = FileIdentity {
        device: found.dev(),
        number: found.ino(),
    };
    // A runtime of a test tells no numbers.
    if identity == FileIdentity::default() {
        return Named::File(None);
    }
    Named::File(Some(identity))
}

/// Has the file of this name more bytes than so many?
pub fn is_longer<R: Files>(rt: &R, name: &str, bytes: u64) -> bool {
    match fs::metadata(rt, name) {
        Ok(found) => bytes < found.len(),
        Err(_) => false,
    }
}

/// The file to which standard output goes, if it is a regular one and the system tells.
pub fn standard_output_file<R: Files>(rt: &R) -> Option<FileIdentity> {
    match what_is_named(rt, STANDARD_OUTPUT) {
        Named::File(identity) => identity,
        _ => None,
    }
}
