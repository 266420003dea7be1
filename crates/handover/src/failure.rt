// What failed is said on standard error, in the system's words.
ghost use Rattle.std.specs.Prelude.{◌≡◌, ◌≤◌, length};
ghost use Rattle.std.specs.Result.{result_ok};

use std::io;
use std::io::{Cursor, Write};

// So many bytes hold what the C library says of every error.
const ROOM: usize = 128;

// Where the number of an error begins, as in `No such file or directory (os error 2)`; the end of the text if there is none.
fn words_end(text: &[u8]) -> usize
    ensures { result ≤ length text.now }
{
    let number = b" (os error ".as_slice();
    let found = text.windows(number.len()).position(|part| part == number);
    found.unwrap_or(text.len())
}

// Writes bytes to standard error. If that fails, there is nobody to tell.
pub(crate) fn write_error(rt: &HostRuntime, text: &[u8]) {
    let _ = Print::write_all(&rt.stderr(), text);
}

// Says what failed and why, without the error's number.
fn fail(rt: &HostRuntime, what: &[u8], error: &io::Error) {
    let mut words = Cursor::new([0u8; ROOM]);
    let _ = write!(words, "{error}");
    let n = (words.position() as usize).min(ROOM);
    let text = &words.get_ref()[..n];
    write_error(rt, what);
    write_error(rt, b": ");
    write_error(rt, &text[..words_end(text)]);
    write_error(rt, b"\n");
}

// What a step gave. If it failed, that is said, and there is nothing.
pub(crate) fn or_fail<T: Drop>(rt: &HostRuntime, what: &[u8], tried: io::Result<T>) -> Option<T>
    ensures { result ≡ result_ok tried }
{
    tried.inspect_err(|error| fail(rt, what, error)).ok()
}
