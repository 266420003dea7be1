// A verdict as the check program's line and as one number.
#![tactic(auto)]

ghost use Rattle.std.specs.Prelude.{◌≡◌, ◌+◌, ◌≤◌, ◌<◌, ◌++◌, length, take};
ghost use Rattle.search.specs.Named.{listed};
ghost use Rattle.report.specs.Code.{code_of};
ghost use Rattle.report.specs.States.{states_of, states_number};
ghost use Rattle.report.specs.Line.{ascii, decimal, place_text, verdict_text, pair_text, pair_line, line_of, written_line, composed_line, guest_text, slot_line, turned_line, left_line, line_into, line_length};
ghost use Rattle.report.specs.Put.{Put};

use checker::{Place, Verdict};
use search::Named;

pub mod root;

// A number is kept modulo 2 ^ 31, and a place modulo 2 ^ 32.
const NUMBERS: u64 = 2147483648;

const PLACES: u64 = 4294967296;

// What the number of states, the second and the third of them count in the number for a host.
const COUNT: u64 = 16777216;

const SECOND: u64 = 256;

const THIRD: u64 = 65536;

// So many bytes hold every line.
pub const LINE_BYTES: usize = 80;

// The verdict as one number, for a host that calls over the C interface.
pub fn code_of(v: Verdict) -> u64
    ensures { result ≡ code_of v }
{
    match v {
        Ok(steps) => steps as u64,
        Err(fault) => {
            let number = fault.number as u64 % NUMBERS * 2;
            match fault.place {
                Place::Bit(i) => number * PLACES + i as u64 % PLACES,
                Place::Node(k) => (number + 1) * PLACES + k as u64 % PLACES,
            }
        }
    }
}

// Up to three states as one number: how many, and each in 8 bits.
fn named_code(states: Named) -> u64
    ensures { result ≡ states_number (listed states) }
{
    match states {
        Named::Nothing => 0,
        Named::One(s) => COUNT + s as u64,
        Named::Two(s, t) => 2 * COUNT + s as u64 + SECOND * t as u64,
        Named::Three(s, t, u) => 3 * COUNT + s as u64 + SECOND * t as u64 + THIRD * u as u64,
    }
}

// The states that a refusal names as one number, for a host that calls over the C interface.
pub fn states_code(v: Verdict) -> u64
    ensures { result ≡ states_number (states_of v) }
{
    match v {
        Ok(_steps) => 0,
        Err(fault) => named_code(fault.states),
    }
}

// Puts a text at a place that has room for it, and returns where it ends.
fn put(out: &mut [u8], at: usize, text: &[u8]) -> usize
    requires { at + length text.now ≤ length out.old }
    ensures { Put out.old at text.now out.new result }
{
    let end = at + text.len();
    out[at..end].copy_from_slice(text);
    end
}

// Puts a number in decimal: all digits but the last, then the last.
fn put_number(out: &mut [u8], at: usize, n: u64) -> usize
    requires { at + length (decimal n) ≤ length out.old }
    ensures { Put out.old at (decimal n) out.new result }
{
    let digit = [b'0' + (n % 10) as u8];
    if n < 10 {
        return put(out, at, &digit);
    }
    let last = put_number(out, at, n / 10);
    put(out, last, &digit)
}

// Puts a word and a number, of at most 20 digits.
fn put_named(out: &mut [u8], at: usize, word: &[u8], n: u64) -> usize
    requires { at + length word.now + 20 ≤ length out.old }
    ensures put { Put out.old at (word.now ++ decimal n) out.new result }
    ensures upper_bound { result ≤ at + length word.now + 20 }
{
    let next = put(out, at, word);
    put_number(out, next, n)
}

// Puts `bit` or `node` and the place.
fn put_place(out: &mut [u8], at: usize, place: Place) -> usize
    requires { at + 26 ≤ length out.old }
    ensures put { Put out.old at (place_text place) out.new result }
    ensures upper_bound { result ≤ at + 26 }
{
    match place {
        Place::Bit(i) => put_named(out, at, b" bit ", i as u64),
        Place::Node(k) => put_named(out, at, b" node ", k as u64),
    }
}

// Puts the words of a verdict.
fn put_words(out: &mut [u8], at: usize, v: Verdict) -> usize
    requires { at + 54 ≤ length out.old }
    ensures put { Put out.old at (verdict_text v) out.new result }
    ensures upper_bound { result ≤ at + 54 }
{
    match v {
        Ok(steps) => put_named(out, at, b"accepted ", steps as u64),
        Err(fault) => {
            let next = put_named(out, at, b"refused ", fault.number as u64);
            put_place(out, next, fault.place)
        }
    }
}

// Puts which pair is meant, where one is.
#[tactic(auto, unfolding(crate::specs::Line::pair_text))]
fn put_pair(out: &mut [u8], at: usize, pair: u32) -> usize
    requires { at + 12 ≤ length out.old }
    ensures put { Put out.old at (pair_text pair) out.new result }
    ensures upper_bound { result ≤ at + 12 }
{
    match pair {
        1 => put(out, at, b" first pair"),
        2 => put(out, at, b" second pair"),
        _ => put(out, at, b""),
    }
}

// Puts the guest place that the line is about at the front, with at most 10 digits.
fn put_guest(out: &mut [u8], place: u32) -> usize
    requires { 27 ≤ length out.old }
    ensures put { Put out.old 0 (guest_text place) out.new result }
    ensures upper_bound { result ≤ 17 }
{
    let next = put_named(out, 0, b"place ", place as u64);
    put(out, next, b" ")
}

// Ends the line in the first `end` bytes with a newline and puts it at the front of `out`; returns its length, or 0 if there is no room.
fn put_line(line: &mut [u8], end: usize, out: &mut [u8]) -> usize
    requires { end < length line.old }
    ensures { (result ≡ line_length (take end line.old ++ ascii "\n") out.old)
        × (out.new ≡ line_into (take end line.old ++ ascii "\n") out.old) }
{
    let n = put(line, end, b"\n");
    if n <= out.len() {
        put(out, 0, &line[..n])
    } else {
        0
    }
}

// Writes the line at the front of `out` and returns its length; if there is no room, writes nothing and returns 0.
pub fn write_line(v: Verdict, out: &mut [u8]) -> usize
    ensures { (result ≡ line_length (line_of v) out.old) × (out.new ≡ line_into (line_of v) out.old) }
{
    let mut line = [0u8; LINE_BYTES];
    let end = put_words(&mut line, 0, v);
    put_line(&mut line, end, out)
}

// Does the same with the line of a verdict on one of two pairs, 1 or 2; any other number names no pair.
pub fn write_pair(v: Verdict, pair: u32, out: &mut [u8]) -> usize
    ensures { (result ≡ line_length (pair_line v pair) out.old)
        × (out.new ≡ line_into (pair_line v pair) out.old) }
{
    let mut line = [0u8; LINE_BYTES];
    let words = put_words(&mut line, 0, v);
    let end = put_pair(&mut line, words, pair);
    put_line(&mut line, end, out)
}

// Does the same with a word of at most 10 bytes and a number.
fn write_named(word: &[u8], n: u64, out: &mut [u8]) -> usize
    requires { length word.now ≤ 10 }
    ensures { (result ≡ line_length ((word.now ++ decimal n) ++ ascii "\n") out.old)
        × (out.new ≡ line_into ((word.now ++ decimal n) ++ ascii "\n") out.old) }
{
    let mut line = [0u8; LINE_BYTES];
    let end = put_named(&mut line, 0, word, n);
    put_line(&mut line, end, out)
}

// Does the same with the line of a file that was written, `written` and its length.
pub fn write_length(length: u32, out: &mut [u8]) -> usize
    ensures { (result ≡ line_length (written_line length) out.old)
        × (out.new ≡ line_into (written_line length) out.old) }
{
    write_named(b"written ", length as u64, out)
}

// Does the same with the line of two pairs that were composed, `composed` and the step number of the result.
pub fn write_composed(steps: u32, out: &mut [u8]) -> usize
    ensures { (result ≡ line_length (composed_line steps) out.old)
        × (out.new ≡ line_into (composed_line steps) out.old) }
{
    write_named(b"composed ", steps as u64, out)
}

// Does the same with the line of a guest that was admitted, its place and its slot.
pub fn write_slot(place: u32, first: u32, length: u32, out: &mut [u8]) -> usize
    ensures { (result ≡ line_length (slot_line place first length) out.old)
        × (out.new ≡ line_into (slot_line place first length) out.old) }
{
    let mut line = [0u8; LINE_BYTES];
    let guest = put_guest(&mut line, place);
    let start = put_named(&mut line, guest, b"first ", first as u64);
    let end = put_named(&mut line, start, b" length ", length as u64);
    put_line(&mut line, end, out)
}

// Does the same with the line of a guest that was turned away, its place and the refusal.
pub fn write_turned(place: u32, v: Verdict, out: &mut [u8]) -> usize
    ensures { (result ≡ line_length (turned_line place v) out.old)
        × (out.new ≡ line_into (turned_line place v) out.old) }
{
    let mut line = [0u8; LINE_BYTES];
    let guest = put_guest(&mut line, place);
    let end = put_words(&mut line, guest, v);
    put_line(&mut line, end, out)
}

// Does the same with the line of the ticks that no guest has.
pub fn write_left(ticks: u32, out: &mut [u8]) -> usize
    ensures { (result ≡ line_length (left_line ticks) out.old)
        × (out.new ≡ line_into (left_line ticks) out.old) }
{
    write_named(b"left over ", ticks as u64, out)
}
