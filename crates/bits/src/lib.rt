// The packed reader: bits, fields of 1 to 64 bits and the fill of a file, most significant bit first. It accepts any file, cursor and
// width, and assumes nothing about its host.
#![tactic(auto)]

ghost use Rattle.std.specs.Prelude.{◌≡◌, ◌+◌, ◌*◌, ◌/◌, ◌^◌, ◌≤◌, ◌<◌, length};
ghost use Rattle.bits.specs.Fields.{bit_length, has_bits, bit_at, bits_at, is_there, field_at, field_or, number_at, further_byte, fill_at};

// The largest cursor.
const LAST: usize = 18446744073709551615;

// A fault of a file: its number (docs/FORMAT.md, "Faults of reading"), and the bit of the file at which it is.
#[derive(Clone, Copy)]
pub struct FileFault {
    pub number: u32,
    pub bit: usize,
}

// The file's length in bits, which is the place of a field that runs past the end; at most the largest cursor.
#[tactic(auto, unfolding(crate::specs::Fields::bit_length))]
pub fn bit_length(src: &[u8]) -> usize
    ensures { result ≡ bit_length src.now }
{
    src.len().saturating_mul(8)
}

// Bit i of the file, the most significant of a byte first; 0 past the end.
pub fn bit(src: &[u8], i: usize) -> u64
    ensures { result ≡ bit_at src.now i }
{
    let byte = i / 8;
    let after = 7 - i % 8;
    if byte < src.len() {
        (src[byte] as u64 >> after) % 2
    } else {
        0
    }
}

// Whether `count` bits from a cursor on are there. Bytes are counted, because a number of bits may not fit in a usize.
pub fn has_bits(src: &[u8], at: usize, count: usize) -> bool
    ensures { result ≡ has_bits src.now at count }
{
    at / 8 + count / 8 + (at % 8 + count % 8 + 7) / 8 <= src.len()
}

// Byte i of the file; 0 past the end.
fn byte(src: &[u8], i: usize) -> u64
    ensures { result ≡ bits_at src.now (8 * i) 8 }
{
    if i < src.len() { src[i] as u64 } else { 0 }
}

// Whether a field of `width` bits at a cursor is there in full. The byte of its last bit is tested, because 8 * len may not fit.
pub fn is_there(src: &[u8], at: usize, width: usize) -> bool
    ensures { result ≡ is_there src.now at width }
{
    if width < 1 || width > 64 || width > LAST - at {
        return false;
    }
    (at + width - 1) / 8 < src.len()
}

// The 8 bits from bit `skip` of byte i on, most significant first; bits past the end are 0.
fn byte_from(src: &[u8], i: usize, skip: usize) -> u64
    requires { (i < 2 ^ 62) × (skip < 8) }
    ensures { result ≡ bits_at src.now (8 * i + skip) 8 }
{
    let first = byte(src, i);
    let second = byte(src, i + 1);
    ((first * 256 + second) >> (8 - skip)) % 256
}

// The value of a field of `width` bits: whole bytes first, then the bits that are left, at most 8.
fn gather(src: &[u8], at: usize, width: usize) -> u64
    requires { width ≤ 64 }
    ensures { result ≡ bits_at src.now at width }
{
    let mut value = 0;
    let mut done = 0;
    while width - done > 8 {
        let next = byte_from(src, at / 8 + done / 8, at % 8);
        value = value * 256 + next;
        done += 8;
    }
    let left = width - done;
    let last = byte_from(src, at / 8 + done / 8, at % 8) >> (8 - left);
    (value << left) + last
}

// The 16 bits of byte i and the next.
fn two_bytes(src: &[u8], i: usize) -> u64
    requires { i + 2 ≤ length src.now }
    ensures { result ≡ bits_at src.now (8 * i) 16 }
{
    src[i] as u64 * 256 + src[i + 1] as u64
}

// The 64 bits of the 8 bytes from byte i on.
fn eight_bytes(src: &[u8], i: usize) -> u64
    requires { i + 8 ≤ length src.now }
    ensures { result ≡ bits_at src.now (8 * i) 64 }
{
    let first = two_bytes(src, i);
    let second = two_bytes(src, i + 2);
    let third = two_bytes(src, i + 4);
    let fourth = two_bytes(src, i + 6);
    ((first * 65536 + second) * 65536 + third) * 65536 + fourth
}

// The 64 bits from a cursor on, read from the nine bytes that hold them.
fn nine_bytes(src: &[u8], at: usize) -> u64
    requires { at / 8 + 8 < length src.now }
    ensures { result ≡ bits_at src.now at 64 }
{
    let i = at / 8;
    let high = eight_bytes(src, i) << (at % 8);
    high + (src[i + 8] as u64 >> (8 - at % 8))
}

// The value of the 64 bits from a cursor on, with bits past the end read as 0. They are read from nine bytes at once if the file has
// them.
pub fn word(src: &[u8], at: usize) -> u64
    ensures { result ≡ bits_at src.now at 64 }
{
    if at / 8 + 8 < src.len() {
        return nine_bytes(src, at);
    }
    gather(src, at, 64)
}

// The value of `width` bits from a cursor on, with bits past the end read as 0; 0 if there are more than 64.
pub fn number_at(src: &[u8], at: usize, width: usize) -> u64
    ensures { result ≡ number_at src.now at width }
{
    if width > 64 {
        return 0;
    }
    if width == 64 {
        return word(src, at);
    }
    gather(src, at, width)
}

// The field of `width` bits at a cursor: its value, and the next cursor; none if it is missing.
pub fn read(src: &[u8], at: usize, width: usize) -> Option<(u64, usize)>
    ensures { result ≡ field_at src.now at width }
{
    if is_there(src, at, width) {
        let value = gather(src, at, width);
        return Some((value, at + width));
    }
    None
}

// The same, where a missing field is the fault with this number, at the file's length.
pub fn read_or(src: &[u8], at: usize, width: usize, number: u32) -> Result<(u64, usize), FileFault>
    ensures { result ≡ field_or src.now at width number }
{
    read(src, at, width).ok_or(FileFault {
        number,
        bit: bit_length(src),
    })
}

// An error at bit `at + skip` if the file has a further byte there. That bit may be past the largest cursor.
fn further_byte(src: &[u8], at: usize, skip: usize) -> Result<(), usize>
    ensures { result ≡ further_byte src.now (at + skip) }
{
    let Some(next) = at.checked_add(skip) else {
        return Ok(());
    };
    if next / 8 < src.len() {
        Err(next)
    } else {
        Ok(())
    }
}

// Whether the file ends as it must after its last field; if not, the error is the first wrong bit.
pub fn read_fill(src: &[u8], at: usize) -> Result<(), usize>
    ensures { result ≡ fill_at src.now at }
{
    let count = (8 - at % 8) % 8;
    for k in 0..count {
        if bit(src, at + k) != 0 {
            return Err(at + k);
        }
    }
    further_byte(src, at, count)
}
