// The bytes of a file from an index on, in rows of 16. All of it is layout.
ghost use Rattle.std.specs.Prelude.{◌≤◌, length};

use crate::text::{put, put_digit, put_if, put_number};

// A row has 16 bytes, and at most 16 rows are shown.
const ROW: usize = 16;

const ROWS: usize = 16;

// Puts a byte in hexadecimal.
fn put_byte(out: &mut [u8], at: usize, byte: u8) -> usize {
    let at = put(out, at, b" ");
    let at = put_digit(out, at, byte / 16);
    put_digit(out, at, byte % 16)
}

// Puts a number of at most five digits in five columns.
fn put_index(out: &mut [u8], at: usize, i: usize) -> usize {
    let at = put_if(out, at, i < 10000, b" ");
    let at = put_if(out, at, i < 1000, b" ");
    let at = put_if(out, at, i < 100, b" ");
    let at = put_if(out, at, i < 10, b" ");
    put_number(out, at, i as u64)
}

// Puts the bytes of a row.
fn put_bytes(out: &mut [u8], at: usize, row: &[u8]) -> usize {
    let mut end = at;
    for byte in row {
        end = put_byte(out, end, *byte);
    }
    end
}

// Puts a row that begins at byte i of the file.
fn put_row(out: &mut [u8], at: usize, i: usize, row: &[u8]) -> usize {
    let at = put_index(out, at, i);
    let at = put(out, at, b":");
    let at = put_bytes(out, at, row);
    put(out, at, b"\n")
}

// Puts the rows from an index of a file on, which is not past its end.
fn put_rows(out: &mut [u8], at: usize, file: &[u8], from: usize) -> usize
    requires { from ≤ length file.now }
{
    let mut end = at;
    for (r, row) in file[from..].chunks(ROW).take(ROWS).enumerate() {
        end = put_row(out, end, from + ROW * r, row);
    }
    end
}

// Puts how many bytes follow those that are shown, if any do.
fn put_rest(out: &mut [u8], at: usize, len: usize, from: usize) -> usize {
    let rest = len.saturating_sub(from).saturating_sub(ROW * ROWS);
    if rest == 0 {
        return at;
    }
    let at = put(out, at, b"       and ");
    let at = put_number(out, at, rest as u64);
    put(out, at, b" bytes more\n")
}

// Puts what follows a file's name: the bytes from an index on, or that there are none.
pub(crate) fn put_view(out: &mut [u8], file: &[u8], from: usize) -> usize {
    if from >= file.len() {
        return put(out, 0, b": no bytes: the place is at the end of the file\n");
    }
    let at = put(out, 0, b" from byte ");
    let at = put_number(out, at, from as u64);
    let at = put(out, at, b" on:\n");
    let at = put_rows(out, at, file, from);
    put_rest(out, at, file.len(), from)
}
