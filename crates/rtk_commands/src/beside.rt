//! A file that is written beside its name and gets its name once it is whole.

use std::alloc::AllocError;
use std::fs::{Files, OpenFile, OpenOptions};
use std::io::ErrorKind;
use std::{fs, io};

/// The greatest number of a name beside a name. If something has all these names, no file is made:
/// then so many runs were ended that their files should be removed first.
const MOST_BESIDE: u8 = 99;

/// Why a file does not get its name.
#[derive(Clone, Copy, Debug, PartialEq, Eq)]
pub enum OutputFault {
    /// A file of this name is there.
    IsThere,
    /// What has this name is no regular file.
    NotRegular,
    /// No file can be made in the folder, or files with all names beside the name are there.
    NotMade,
    /// A write failed, or the file could not be named.
    NotWritten,
    /// No memory for a name.
    OutOfMemory,
}

impl From<AllocError> for OutputFault {
    fn from(_refused: AllocError) -> OutputFault {
        OutputFault::OutOfMemory
    }
}

/// A file beside its name.
#[derive(Drop)]
pub struct Beside<F: Drop> {
    /// The open file.
    pub file: F,
    /// The name that it has until it is whole.
    pub name: String,
}

// Has nothing this name? A regular file may have it with `force`.
fn is_free<R: Files>(rt: &R, name: &str, force: bool) -> Result<(), OutputFault> {
    let Ok(found) = fs::symlink_metadata(rt, name) else {
        return Ok(());
    };
    if !force {
        return Err(OutputFault::IsThere);
    }
    if !found.is_file() {
        return Err(OutputFault::NotRegular);
    }
    Ok(())
}

/// Has something this name?
pub fn is_there<R: Files>(rt: &R, name: &str) -> bool {
    fs::symlink_metadata(rt, name).is_ok()
}

// The name with `.part` behind it, and a number from the second one on.
fn name_beside<R: AllocGlobal>(rt: &R, name: &str, number: u8) -> Result<String, AllocError> {
    if number == 0 {
        return format!(in rt.alloc(); "{name}.part");
    }
    format!(in rt.alloc(); "{name}.part{number}")
}

// A new file of this name; an error of the kind `AlreadyExists` if something has the name.
fn make_new<R: Files>(rt: &R, name: &str) -> io::Result<R::File> {
    OpenOptions::new()
        .write(true)
        .create_new(true)
        .open(rt, name)
}

/// A new file in the folder of this name.
pub fn make_beside<R: Files + AllocGlobal>(
    rt: &R,
    name: &str,
) -> Result<Beside<R::File>, OutputFault> {
    for number in 0..=MOST_BESIDE {
        let beside = name_beside(rt, name, number)?;
        match make_new(rt, beside.as_str()) {
            Ok(file) => return Ok(Beside { file, name: beside }),
            Err(error) if error.kind() == ErrorKind::AlreadyExists => {}
            Err(_) => return Err(OutputFault::NotMade),
        }
    }
    Err(OutputFault::NotMade)
}

/// Lets go a file that is not whole.
pub fn let_go<R: Files>(rt: &R, beside: &str) {
    let _removed = fs::remove_file(rt, beside);
}

/// Can a file get this name? One that is there is replaced only with `force`. A file beside the name is
/// made and let go. It does not stay open: where standard error is closed, it could have its descriptor,
/// and messages would be written to it.
pub fn can_get_name<R: Files + AllocGlobal>(
    rt: &R,
    name: &str,
    force: bool,
) -> Result<(), OutputFault> {
    is_free(rt, name, force)?;
    let beside = make_beside(rt, name)?;
    let_go(rt, beside.name.as_str());
    Ok(())
}

// An empty file takes a name, which fails if something has it.
fn take_name<R: Files>(rt: &R, name: &str) -> io::Result<()> {
    let _empty = make_new(rt, name)?;
    Ok(())
}

// Gives a file a name that nothing has, where there are no links: the file replaces an empty one that
// took the name. Two things are not excluded: another program replaces the empty file at this moment,
// and its file is lost; or the run is killed, and the empty file stays.
fn rename_to_new<R: Files>(rt: &R, beside: &str, name: &str) -> io::Result<()> {
    take_name(rt, name)?;
    let renamed = fs::rename(rt, beside, name);
    if renamed.is_err() {
        let_go(rt, name);
    }
    renamed
}

// Gives a file a name that nothing has, in place of the name beside. Some file systems, as FAT, have no
// links.
fn give_new_name<R: Files>(rt: &R, beside: &str, name: &str) -> io::Result<()> {
    match fs::hard_link(rt, beside, name) {
        Ok(()) => {
            let_go(rt, beside);
            Ok(())
        }
        Err(error) if error.kind() == ErrorKind::AlreadyExists => Err(error),
        Err(_) => rename_to_new(rt, beside, name),
    }
}

// Gives a file its name, in place of the name beside. With `force` it replaces the file that has it.
fn give_name<R: Files>(rt: &R, beside: &str, name: &str, force: bool) -> Result<(), OutputFault> {
    let named = if force {
        fs::rename(rt, beside, name)
    } else {
        give_new_name(rt, beside, name)
    };
    match named {
        Ok(()) => Ok(()),
        Err(error) if error.kind() == ErrorKind::AlreadyExists => Err(OutputFault::IsThere),
        Err(_) => Err(OutputFault::NotWritten),
    }
}

// Gives a file the permissions of the regular file that it replaces. Some file systems, as FAT, have none.
fn take_permissions<R: Files, F: OpenFile>(rt: &R, file: &F, name: &str) {
    let Ok(found) = fs::symlink_metadata(rt, name) else {
        return;
    };
    if found.is_file() {
        let _taken = file.set_permissions(found.permissions());
    }
}

/// Gives a file that is whole its name. With `force` it gets the permissions of the file that it replaces.
/// On any other ending no file is left. Once it has its name, the name beside is not ours any more.
pub fn name_whole<R: Files, F: OpenFile + Drop>(
    rt: &R,
    file: F,
    beside: &str,
    name: &str,
    force: bool,
) -> Result<(), OutputFault> {
    if force {
        take_permissions(rt, &file, name);
    }
    let named = match file.sync_all() {
        Ok(()) => give_name(rt, beside, name, force),
        Err(_) => Err(OutputFault::NotWritten),
    };
    if named.is_err() {
        let_go(rt, beside);
    }
    named
}
