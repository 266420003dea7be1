// The packed writer: fields of 1 to 64 bits are put into lent bytes, most significant bit first. It accepts any bytes, cursor, width and
// value, and assumes nothing about its host.
#![tactic(auto)]

ghost use Rattle.std.specs.Prelude.{◌≡◌, ◌+◌, ◌-◌, ◌*◌, ◌/◌, ◌%◌, ◌^◌, ◌≤◌, ◌<◌, min, length};
ghost use Rattle.bits.specs.Fields.{bits_at};
ghost use Rattle.writer.specs.Writing.{put_bits, put_field, has_room, copied, cleared};

use bits::{has_bits, is_there, number_at};

pub mod sets;

// The largest cursor.
const LAST: usize = 18446744073709551615;

// How many bits are copied at once.
const WORD: usize = 64;

// A byte with the last k bits of a value in place of its own k bits, so that `after` bits follow them.
fn with_bits(byte: u64, k: usize, after: usize, value: u64) -> u64
    requires { (byte < 256) × (k + after ≤ 8) }
    ensures { result ≡ (byte / 2 ^ (k + after) * 2 ^ k + value % 2 ^ k) * 2 ^ after + byte % 2 ^ after }
{
    let before = byte >> (k + after);
    (((before << k) + value % (1 << k)) << after) + byte % (1 << after)
}

// Puts the last k bits of a value at a cursor, all into one byte.
fn store(out: &mut [u8], at: usize, k: usize, value: u64)
    requires { (1 ≤ k) × (at % 8 + k ≤ 8) × (at + k ≤ 8 * length out.old) }
    ensures { out.new ≡ put_bits out.old at k value }
{
    let i = at / 8;
    let byte = with_bits(out[i] as u64, k, 8 - at % 8 - k, value);
    out[i] = byte as u8;
}

// How many of `left` bits from a cursor on belong to the cursor's byte.
fn in_byte(at: usize, left: usize) -> usize
    ensures { result ≡ min (8 - at % 8) left }
{
    let room = 8 - at % 8;
    room.min(left)
}

// Puts the last `width` bits of a value from a cursor on: in each round the bits that belong to one byte.
fn put_bits(out: &mut [u8], at: usize, width: usize, value: u64)
    requires { (width ≤ 64) × (at + width ≤ 8 * length out.old) × (at + width < 2 ^ 64) }
    ensures { out.new ≡ put_bits out.old at width value }
{
    let mut done = 0;
    while done < width {
        let left = width - done;
        let k = in_byte(at + done, left);
        store(out, at + done, k, value >> (left - k));
        done += k;
    }
}

// Writes a field of 1 to 64 bits at a cursor: the last `width` bits of a value, most significant first. A field that does not fit in
// full is not written.
pub fn put(out: &mut [u8], at: usize, width: usize, value: u64)
    ensures { out.new ≡ put_field out.old at width value }
{
    if is_there(out, at, width) {
        put_bits(out, at, width, value);
    }
}

// Whether `width` bits from a cursor on are all within the bytes, and a usize can hold the cursor after them.
pub fn has_room(out: &[u8], at: usize, width: usize) -> bool
    ensures { result ≡ has_room out.now at width }
{
    if width > LAST - at {
        return false;
    }
    has_bits(out, at, width)
}

// Copies `width` bits of a file to a cursor of the output: in each round a word, and in the last what is left.
fn copy_bits(src: &[u8], from: usize, out: &mut [u8], to: usize, width: usize)
    requires { (from + width < 2 ^ 64) × (to + width ≤ 8 * length out.old) × (to + width < 2 ^ 64) }
    ensures { out.new ≡ put_bits out.old to width (bits_at src.now from width) }
{
    let mut done = 0;
    while done < width {
        let count = WORD.min(width - done);
        put(out, to + done, count, number_at(src, from + done, count));
        done += count;
    }
}

// Writes the `width` bits of a file from a cursor on at a cursor of the output; past the end of the file they are 0. Bits that do not fit
// in full are not written.
pub fn copy(src: &[u8], from: usize, out: &mut [u8], to: usize, width: usize)
    ensures { out.new ≡ copied out.old to src.now from width }
{
    if width <= LAST - from && has_room(out, to, width) {
        copy_bits(src, from, out, to, width);
    }
}

// Sets the first `count` bytes to 0, or all if there are fewer.
pub fn clear(out: &mut [u8], count: usize)
    ensures { out.new ≡ cleared out.old count }
{
    let count = count.min(out.len());
    out[..count].fill(0);
}
