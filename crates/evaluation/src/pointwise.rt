// What is computed state by state: a variable's values, sums and differences, comparisons. A row has an integer for each state that
// a set can hold.
ghost use Rattle.std.specs.Prelude.{◌≡◌, cond, not, ◌&&◌, ◌||◌, ℕ, ◌+◌, ◌/◌, ◌%◌, ◌≤◌, ◌<◌, ltb, eqb, pos, get_or};
ghost use Rattle.std.proofs.Math.Option.{none, some};
ghost use Rattle.std.specs.Int.Signed.{mag};
ghost use Rattle.states.specs.Sets.{capacity, has};
ghost use Rattle.semantics.specs.Language.{int, truth, of_integers};
ghost use Rattle.evaluation.specs.Refinement.{less_code, and_code, value_bound};

use crate::{EQUAL, LESS, PLUS};
use states::{CAPACITY, StateSet};

// The number after x, or 0 after the last number below the limit.
fn next_below(limit: u32, x: u32) -> u32
    requires { x < limit }
    ensures { result ≡ (x + 1) % limit }
{
    if x + 1 < limit { x + 1 } else { 0 }
}

// A variable's value at a state, from its value at the previous state: the next value if the state is the first of a run of states
// with the same value, at place 0.
fn next_value(size: u32, value: u32, place: u32) -> u32
    requires { value < size }
    ensures { result ≡ cond (eqb place 0) ((value + 1) % size) value }
{
    if place == 0 {
        next_below(size, value)
    } else {
        value
    }
}

// The values at n states of a variable of this weight and size. The loop counts each state's place in its run, so that nothing is
// divided.
pub(crate) fn variable_row(n: u32, weight: u32, size: u32) -> [i64; CAPACITY as usize]
    requires { (n ≤ capacity) × (0 < weight) × (0 < size) }
    ensures { (s : ℕ) → s < n → get_or result s (pos 0) ≡ pos (s / weight % size) }
{
    let mut row = [0i64; CAPACITY as usize];
    let mut place = 0;
    let mut value = 0;
    for s in 0..n {
        row[s as usize] = value as i64;
        place = next_below(weight, place);
        value = next_value(size, value, place);
    }
    row
}

// The states at which a truth constant is true: all or none.
pub(crate) fn always(b: bool) -> StateSet
    ensures { (s : ℕ) → s < capacity → has result s ≡ b }
{
    if b {
        StateSet::below(CAPACITY)
    } else {
        StateSet::empty()
    }
}

// The sum of two integers where o is PLUS, their difference where it is the code of −. The operands are small, so the result fits.
fn sum(o: u32, a: i64, b: i64) -> i64
    requires { (o < less_code) × (mag a + mag b < value_bound) }
    ensures exact { some (int result) ≡ get_or (of_integers a b) o none }
    ensures bounded { mag result ≤ mag a + mag b + 1 }
{
    if o == PLUS { a + b } else { a - b }
}

// The sums or the differences of two rows, state by state.
pub(crate) fn sum_row(
    n: u32,
    o: u32,
    left: &[i64; CAPACITY as usize],
    right: &[i64; CAPACITY as usize],
) -> [i64; CAPACITY as usize]
    requires { (n ≤ capacity) × (o < less_code) × ((s : ℕ) → s < n → mag (get_or left.now s (pos 0)) + mag (get_or right.now s (pos 0)) < value_bound) }
    ensures { (s : ℕ) → s < n → (some (int (get_or result s (pos 0))) ≡ get_or (of_integers (get_or left.now s (pos 0)) (get_or right.now s (pos 0))) o none)
        × (mag (get_or result s (pos 0)) ≤ mag (get_or left.now s (pos 0)) + mag (get_or right.now s (pos 0)) + 1) }
{
    let mut row = [0i64; CAPACITY as usize];
    for s in 0..n {
        row[s as usize] = sum(o, left[s as usize], right[s as usize]);
    }
    row
}

// Whether two integers compare as operation o asks, which is <, = or >.
fn compares(o: u32, a: i64, b: i64) -> bool
    requires { (less_code ≤ o) × (o < and_code) }
    ensures { some (truth result) ≡ get_or (of_integers a b) o none }
{
    match o {
        LESS => a < b,
        EQUAL => a == b,
        _ => a > b,
    }
}

// The states at which two integers compare as operation o asks.
pub(crate) fn compared(
    n: u32,
    o: u32,
    left: &[i64; CAPACITY as usize],
    right: &[i64; CAPACITY as usize],
) -> StateSet
    requires { (n ≤ capacity) × (less_code ≤ o) × (o < and_code) }
    ensures { (s : ℕ) → s < n → some (truth (has result s)) ≡ get_or (of_integers (get_or left.now s (pos 0)) (get_or right.now s (pos 0))) o none }
{
    let mut found = StateSet::empty();
    for s in 0..n {
        if compares(o, left[s as usize], right[s as usize]) {
            found = found.join(StateSet::single(s));
        }
    }
    found
}

// The states found so far, with those from `from` to below `end` added.
fn with_run(found: StateSet, from: u32, end: u32) -> StateSet
    ensures { (t : ℕ) → has result t ≡ (has found t || ltb t capacity && (ltb t end && not (ltb t from))) }
{
    found.join(StateSet::below(end).narrow(StateSet::below(from)))
}

// The states below n at which a variable of this weight and size has this value. They are found as runs of `weight` states, one in
// every weight * size, so that no state's number is divided.
pub(crate) fn states_with(n: u32, weight: u32, size: u32, value: u32) -> StateSet
    requires { (n ≤ capacity) × (0 < weight) × (weight ≤ capacity) × (size ≤ capacity) × (value < size) }
    ensures { (t : ℕ) → has result t ≡ (ltb t n && eqb value (t / weight % size)) }
{
    let period = weight * size;
    let mut found = StateSet::empty();
    for from in (value * weight..n).step_by(period as usize) {
        found = with_run(found, from, from + weight);
    }
    found.meet(StateSet::below(n))
}
