// How the file of a disk is opened.

use crate::fault::AttachFault;
use std::fs::{File, Metadata, OpenFile, OpenOptions, TryLockError};
use std::rt::Files as FileSystem;
use std::{fs, io};

// The folder that a name lies in.
fn folder_of(name: &str) -> &str {
    match name.rsplit_once('/') {
        Some(("", _)) => "/",
        Some((folder, _)) => folder,
        None => ".",
    }
}

// Puts the entry of a new file into its folder on the disk.
fn sync_folder<R: FileSystem<File = File>>(rt: &R, name: &str) -> io::Result<()> {
    let folder = fs::open(rt, folder_of(name))?;
    folder.sync_all()
}

// Takes the lock on a file, which no other process has.
fn lock(file: &File) -> Result<(), AttachFault> {
    match file.try_lock() {
        Ok(()) => Ok(()),
        Err(TryLockError::WouldBlock) => Err(AttachFault::Taken),
        Err(TryLockError::Error(error)) => Err(AttachFault::System(error)),
    }
}

// A file proper, and no folder, pipe or device.
fn check_file(metadata: &Metadata) -> Result<(), AttachFault> {
    if metadata.is_file() {
        Ok(())
    } else {
        Err(AttachFault::NoFile)
    }
}

/// Opens the file of a name for reading and writing, and locks it; a name that isn't there becomes
/// an empty file. The folder of an empty file is synced, so that a stop doesn't take its name away.
pub(crate) fn open_locked<R: FileSystem<File = File>>(
    rt: &R,
    name: &str,
) -> Result<File, AttachFault> {
    let file = OpenOptions::new()
        .read(true)
        .write(true)
        .create(true)
        .open(rt, name)?;
    let metadata = file.metadata()?;
    check_file(&metadata)?;
    lock(&file)?;
    if metadata.len() == 0 {
        sync_folder(rt, name)?;
    }
    Ok(file)
}
