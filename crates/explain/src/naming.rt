// The states that a refusal names, with the values of the variables: `s = 5 (v0 = 1, v1 = 2)`.
ghost use Rattle.std.specs.Prelude.{◌≡◌};
ghost use Rattle.explain.specs.Text.{text_end, text_in};
ghost use Rattle.explain.specs.Naming.{value_at, letter_of};

use crate::text::{put, put_if, put_number};
use evaluation::variable_of;
use handler::head::Head;
use search::Named;

// The value of variable v at state s.
pub fn value_at(head: Head, s: u32, v: u32) -> u32
    ensures { result ≡ value_at head s v }
{
    let x = variable_of(head, v);
    s / x.weight % x.size
}

// Puts the letter of the state that a refusal with this number names in place i, from 0.
#[tactic(auto, unfolding(crate::specs::Naming::letter_of))]
pub fn letter(number: u32, i: u32, out: &mut [u8], at: usize) -> usize
    ensures end { result ≡ text_end out.old at (letter_of number i) }
    ensures bytes { out.new ≡ text_in out.old at (letter_of number i) }
{
    match i {
        0 => put(out, at, b"s"),
        1 if number == 42 || number == 43 => put(out, at, b"s'"),
        1 => put(out, at, b"t"),
        _ => put(out, at, b"u"),
    }
}

// From here on: layout.

// Puts a variable and its value at s, with a comma before it unless it is the first.
fn put_value(out: &mut [u8], at: usize, head: Head, s: u32, v: u32) -> usize {
    let at = put_if(out, at, v > 0, b", ");
    let at = put(out, at, b"v");
    let at = put_number(out, at, v as u64);
    let at = put(out, at, b" = ");
    put_number(out, at, value_at(head, s, v) as u64)
}

fn put_values(out: &mut [u8], at: usize, head: Head, s: u32) -> usize {
    let mut end = at;
    for v in 0..head.count {
        end = put_value(out, end, head, s, v);
    }
    end
}

// Puts a state with the values of the variables, and ends the line.
pub(crate) fn put_state(out: &mut [u8], at: usize, head: Head, s: u32) -> usize {
    let at = put_number(out, at, s as u64);
    let at = put(out, at, b" (");
    let at = put_values(out, at, head, s);
    put(out, at, b")\n")
}

// Puts the line of the state that a refusal names in place i.
fn put_named(out: &mut [u8], at: usize, head: Head, number: u32, i: u32, s: u32) -> usize {
    let at = letter(number, i, out, at);
    let at = put(out, at, b" = ");
    put_state(out, at, head, s)
}

// Puts a line for each state that a refusal names.
pub(crate) fn put_states(
    out: &mut [u8],
    at: usize,
    head: Head,
    number: u32,
    states: Named,
) -> usize {
    match states {
        Named::Nothing => at,
        Named::One(s) => put_named(out, at, head, number, 0, s),
        Named::Two(s, t) => {
            let at = put_named(out, at, head, number, 0, s);
            put_named(out, at, head, number, 1, t)
        }
        Named::Three(s, t, u) => {
            let at = put_named(out, at, head, number, 0, s);
            let at = put_named(out, at, head, number, 1, t);
            put_named(out, at, head, number, 2, u)
        }
    }
}
