// The system's calls on a path. A path is given as bytes, since an argument may be any, and the calls take text.
ghost use Rattle.std.specs.Prelude.{◌≡◌, IfOk};

use std::fs::{File, OpenOptions};
use std::io::ErrorKind;
use std::str::from_utf8;
use std::{fs, io};

// A path as text.
fn path_text(path: &[u8]) -> io::Result<&str>
    ensures { IfOk result (λ text. text.now ≡ path.now) }
{
    match from_utf8(path) {
        Ok(text) => Ok(text),
        Err(_) => Err(io::Error::new(ErrorKind::InvalidFilename, "Not UTF-8")),
    }
}

// Opens a file that is to be read.
pub(crate) fn open_read(rt: &HostRuntime, path: &[u8]) -> io::Result<File> {
    File::open(rt, path_text(path)?)
}

// Opens a file that is there for reading and writing, and leaves its bytes as they are.
pub(crate) fn open_update(rt: &HostRuntime, path: &[u8]) -> io::Result<File> {
    let mut options = OpenOptions::new();
    options.read(true).write(true);
    options.open(rt, path_text(path)?)
}

// Makes a new file that is to be written. A name that is taken is an error.
pub(crate) fn create(rt: &HostRuntime, path: &[u8]) -> io::Result<File> {
    let mut options = OpenOptions::new();
    options.write(true).create_new(true);
    options.open(rt, path_text(path)?)
}

// Whether there is a symbolic link at a path.
pub(crate) fn has_link(rt: &HostRuntime, path: &[u8]) -> io::Result<bool> {
    let metadata = fs::symlink_metadata(rt, path_text(path)?)?;
    Ok(metadata.is_symlink())
}

// Gives a file another name; a file that has it is replaced.
pub(crate) fn rename(rt: &HostRuntime, from: &[u8], to: &[u8]) -> io::Result<()> {
    fs::rename(rt, path_text(from)?, path_text(to)?)
}

// Removes a file.
pub(crate) fn unlink(rt: &HostRuntime, path: &[u8]) -> io::Result<()> {
    fs::remove_file(rt, path_text(path)?)
}
