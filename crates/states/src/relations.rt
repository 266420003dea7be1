// Relations between n states as rows: row s is entry s of the words and holds the ends of the pairs that start in s; a row past the end
// of the slice is empty. Every function accepts any n and any rows, and considers only the pairs between states below n.
ghost use Rattle.std.specs.Prelude.{◌≡◌, ◌↔◌, true, ◌&&◌, ◌||◌, ℕ, ◌*◌, ◌<◌, ◌≤◌, length, ltb, eqb};
ghost use Rattle.std.specs.Bool.{beq};
ghost use Rattle.states.specs.Search.{implies, all, any};
ghost use Rattle.states.specs.Sets.{set_words, capacity, mem, has, entry_at};
ghost use Rattle.states.specs.Relations.{rel, RowsGiven, Reached};

use crate::entries::{entry_at, put_entry};
use crate::{CAPACITY, RELATION_WORDS, StateSet};

// The ends of the pairs that start in s.
pub fn row(n: u32, rows: &[u64], s: u32) -> StateSet
    ensures { (t : ℕ) → has result t ≡ rel n rows.now s t }
{
    if s < n {
        entry_at(rows, s as usize).meet(StateSet::below(n))
    } else {
        StateSet::empty()
    }
}

// How many of n states a set can hold.
fn rows_held(n: u32) -> u32
    ensures { (result ≤ capacity) × ((s : ℕ) → s < capacity → s < n → s < result) × (result ≤ n) }
{
    n.min(CAPACITY)
}

// How many of these rows the slice has, so that a loop over them need not test at each row whether the slice or a set ends.
fn rows_there(n: u32, rows: &[u64]) -> u32
    ensures { (result ≤ n) × (result ≤ length rows.now) × ((s : ℕ) → s < capacity → s < n → set_words * s < length rows.now → s < result) }
{
    rows.len().min(rows_held(n) as usize) as u32
}

// The ends of the pairs that start in the set, from the states that have a row. The rows are joined unmasked, and states that are not below n are removed once at the end.
pub fn image(n: u32, set: StateSet, rows: &[u64]) -> StateSet
    ensures { (t : ℕ) → has result t ≡ any n (λ s. has set s && rel n rows.now s t) }
{
    let there = rows_there(n, rows);
    let mut ends = StateSet::empty();
    for s in set.meet(StateSet::below(there)).states() {
        let bits = rows[s as usize];
        ends = ends.join(StateSet { bits });
    }
    ends.meet(StateSet::below(n))
}

// The states found so far, and s if its row is not empty.
fn with_start(row: StateSet, s: u32, found: StateSet) -> StateSet
    ensures { (t : ℕ) → has result t ≡ (has found t || ltb t capacity && any capacity (λ u. has row u) && eqb s t) }
{
    if row.is_empty() {
        found
    } else {
        found.join(StateSet::single(s))
    }
}

// The states that start a pair, of those that a set can hold.
pub fn starting(n: u32, rows: &[u64]) -> StateSet
    ensures { (s : ℕ) → has result s ≡ (ltb s capacity && any n (rel n rows.now s)) }
{
    let states = StateSet::below(n);
    let mut found = StateSet::empty();
    for s in 0..rows_there(n, rows) {
        let bits = rows[s as usize];
        found = with_start(StateSet { bits }.meet(states), s, found);
    }
    found
}

// The relation with, for each of the first `count` states, the row that a call at it returns; the other rows are empty.
fn rows_to<F: Fn(u32) -> StateSet>(count: u32, row_of: F) -> [u64; RELATION_WORDS]
    requires few { count ≤ capacity }
    requires callable { (s : ℕ) → s < count → F.pre row_of s }
    ensures { RowsGiven (F.post row_of) count result }
{
    let mut rows = [0u64; RELATION_WORDS];
    for s in 0..count {
        put_entry(&mut rows, s as usize, row_of(s));
    }
    rows
}

// The same for each state that a set can hold.
pub fn rows_by<F: Fn(u32) -> StateSet>(row_of: F) -> [u64; RELATION_WORDS]
    requires { (s : ℕ) → s < capacity → F.pre row_of s }
    ensures { RowsGiven (F.post row_of) capacity result }
{
    rows_to(CAPACITY, row_of)
}

// The pairs of a or b that start in a state that a set can hold, with a row for each such state.
pub fn union_of(n: u32, a: &[u64], b: &[u64]) -> [u64; RELATION_WORDS]
    ensures { (s t : ℕ) → mem (entry_at result s) t ≡ (ltb s capacity && (rel n a.now s t || rel n b.now s t)) }
{
    rows_to(rows_held(n), |s| row(n, a, s).join(row(n, b, s)))
}

fn row_included(n: u32, set: StateSet, a: &[u64], b: &[u64], s: u32) -> bool
    ensures { result ≡ implies (has set s) (all n (λ t. implies (rel n a.now s t) (rel n b.now s t))) }
{
    if set.holds_state(s) {
        row(n, a, s).included(row(n, b, s))
    } else {
        true
    }
}

// Whether every pair of a that starts in the set is a pair of b.
pub fn included_from(n: u32, set: StateSet, a: &[u64], b: &[u64]) -> bool
    ensures { result ≡ all n (λ s. implies (has set s) (all n (λ t. implies (rel n a.now s t) (rel n b.now s t)))) }
{
    (0..n).all(|s| row_included(n, set, a, b, s))
}

fn same_row(n: u32, a: &[u64], b: &[u64], s: u32) -> bool
    ensures { result ≡ all n (λ t. beq (rel n a.now s t) (rel n b.now s t)) }
{
    row(n, a, s).same(row(n, b, s))
}

// Whether a and b have the same pairs.
pub fn same_members(n: u32, a: &[u64], b: &[u64]) -> bool
    ensures { result ≡ all n (λ s. all n (λ t. beq (rel n a.now s t) (rel n b.now s t))) }
{
    (0..n).all(|s| same_row(n, a, b, s))
}

// The states reached from the set by zero or more pairs. A round adds the ends of the pairs that start in a state which the round before
// added, or in the set itself at first. The loop ends after the first round that adds no state.
pub fn reach(n: u32, rows: &[u64], from: StateSet) -> StateSet
    ensures { (t : ℕ) → (has result t ≡ true) ↔ Reached (has from) (rel n rows.now) t }
{
    let mut earlier = StateSet::empty();
    let mut reached = from;
    while !reached.included(earlier) {
        let added = reached.narrow(earlier);
        earlier = reached;
        reached = reached.join(image(n, added, rows));
    }
    reached
}
