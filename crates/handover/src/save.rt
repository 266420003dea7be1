// A file is replaced as a whole or not at all: the bytes go into a new file beside it, which then takes its name.
//
// Whatever fails is named on standard error, and then the result is None; the old file is then as it was, and the new one is removed.
ghost use Rattle.std.specs.Prelude.{◌≡◌, ◌+◌, ◌<◌, length, OnSome};
ghost use Rattle.handover.specs.Path.{Ended};

use super::failure::{or_fail, write_error};
use super::files::{create, has_link, open_update, rename, unlink};
use std::fs::File;
use std::io;
use std::io::{ErrorKind, Write};

// The longest path that the system takes, with C's 0.
const PATH_MAX: usize = 4096;

// The new file has the name of the old one and the 4 bytes of .new; the longest name leaves room for them and for C's 0.
const LONGEST: usize = PATH_MAX - 5;

// Says on standard error what is wrong with a path, where there is no error of the system.
pub(crate) fn report(rt: &HostRuntime, path: &[u8], text: &[u8]) {
    write_error(rt, path);
    write_error(rt, text);
}

// Refuses an open file that is no regular one: the system can wait for its bytes to reach a device, and of a terminal or a pipe it cannot.
fn check_regular(rt: &HostRuntime, file: &File, path: &[u8]) -> Option<()> {
    match file.sync_data() {
        Err(error) if error.kind() == ErrorKind::InvalidInput => {
            report(rt, path, b": Not a regular file\n");
            None
        }
        synced => or_fail(rt, path, synced),
    }
}

// Refuses a path that is not free and has no file that the user may write. Links, folders, devices and pipes are not replaced.
fn check_replaceable(rt: &HostRuntime, path: &[u8]) -> Option<()> {
    if has_link(rt, path).unwrap_or(false) {
        report(rt, path, b": Is a symbolic link\n");
        return None;
    }
    match open_update(rt, path) {
        Err(error) if error.kind() == ErrorKind::NotFound => Some(()),
        opened => {
            let file = or_fail(rt, path, opened)?;
            check_regular(rt, &file, path)
        }
    }
}

// Puts the bytes into an open file, and waits until they have reached its device.
fn fill(file: &mut File, bytes: &[u8]) -> io::Result<()> {
    file.write_all(bytes)?;
    file.sync_all()
}

// Removes a new file that is not wanted. If that fails, it is left.
fn remove(rt: &HostRuntime, path: &[u8]) {
    let _ = unlink(rt, path);
}

// Writes a new file.
fn write_new(rt: &HostRuntime, path: &[u8], bytes: &[u8]) -> Option<()> {
    let mut file = or_fail(rt, path, create(rt, path))?;
    let filled = fill(&mut file, bytes);
    // The bytes are on the device by then, so a close that fails says nothing new.
    drop(file);
    let filled = or_fail(rt, path, filled);
    if filled.is_none() {
        remove(rt, path);
    }
    filled
}

// Lets the new file beside the one at a path take its name, or removes it.
fn take_name(rt: &HostRuntime, path: &[u8], beside: &[u8]) -> Option<()> {
    let taken = or_fail(rt, path, rename(rt, beside, path));
    if taken.is_none() {
        remove(rt, beside);
    }
    taken
}

// Whether there is no file at a path.
fn is_free(rt: &HostRuntime, path: &[u8]) -> bool {
    open_update(rt, path).is_err_and(|error| error.kind() == ErrorKind::NotFound)
}

// Writes two new files, or none. A free path that is taken then is the second new file's own name.
fn write_two(
    rt: &HostRuntime,
    path: &[u8],
    beside: &[u8],
    bytes: &[u8],
    other: &[u8],
    more: &[u8],
) -> Option<()> {
    let free = is_free(rt, path);
    write_new(rt, beside, bytes)?;
    if write_new(rt, other, more).is_some() {
        if free == is_free(rt, path) {
            return Some(());
        }
        report(rt, path, b": Is the name of a new file\n");
        remove(rt, other);
    }
    remove(rt, beside);
    None
}

// Lets two new files take their names, both or neither; only if the second one fails after the first one, the first is left, and named.
fn take_names(
    rt: &HostRuntime,
    path: &[u8],
    beside: &[u8],
    second: &[u8],
    other: &[u8],
) -> Option<()> {
    if take_name(rt, path, beside).is_none() {
        remove(rt, other);
        return None;
    }
    let taken = take_name(rt, second, other);
    if taken.is_none() {
        report(rt, path, b": Written, but not the other file\n");
    }
    taken
}

// Refuses a path that leaves no room for the new file's name.
fn check_length(rt: &HostRuntime, path: &[u8]) -> Option<()>
    ensures { OnSome result (length path.now < 4092) }
{
    if path.len() > LONGEST {
        report(rt, path, b": File name too long\n");
        return None;
    }
    Some(())
}

// A path and then zeros, as C reads it.
fn ended(path: &[u8]) -> [u8; PATH_MAX]
    requires { length path.now < 4096 }
    ensures { Ended result }
{
    let mut name = [0u8; PATH_MAX];
    name[..path.len()].copy_from_slice(path);
    name[PATH_MAX - 1] = 0;
    name
}

// Puts the name of the new file beside the one at a path at the start of `room`.
fn new_name<'a>(path: &[u8], room: &'a mut [u8; PATH_MAX]) -> &'a [u8]
    requires { length path.now < 4092 }
    ensures { length result.now ≡ length path.now + 4 }
{
    let n = path.len();
    *room = ended(path);
    room[n..n + 4].copy_from_slice(b".new");
    &room[..n + 4]
}

// Makes the bytes the file at a path.
pub(crate) fn save(rt: &HostRuntime, path: &[u8], bytes: &[u8]) -> Option<()> {
    check_length(rt, path)?;
    check_replaceable(rt, path)?;
    let mut beside = [0u8; PATH_MAX];
    let beside = new_name(path, &mut beside);
    write_new(rt, beside, bytes)?;
    take_name(rt, path, beside)
}

// Does the same with two files, both or neither.
pub(crate) fn save_both(
    rt: &HostRuntime,
    path: &[u8],
    bytes: &[u8],
    second: &[u8],
    more: &[u8],
) -> Option<()> {
    check_length(rt, path)?;
    check_length(rt, second)?;
    // Both are tried before either is refused, so that standard error names both.
    let first = check_replaceable(rt, path);
    check_replaceable(rt, second).and(first)?;
    let mut beside = [0u8; PATH_MAX];
    let beside = new_name(path, &mut beside);
    let mut other = [0u8; PATH_MAX];
    let other = new_name(second, &mut other);
    write_two(rt, path, beside, bytes, other, more)?;
    take_names(rt, path, beside, second, other)
}
