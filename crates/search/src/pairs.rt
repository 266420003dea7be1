// Relations made from others for the searches, with a row for each state that a set can hold. Any n and any rows are accepted, and
// only the pairs between states below n are looked at.
ghost use Rattle.std.specs.Prelude.{◌≡◌, ◌&&◌, ◌||◌, ℕ, ltb, eqb};
ghost use Rattle.states.specs.Sets.{capacity, has};
ghost use Rattle.states.specs.Relations.{rel};

use states::relations::{row, rows_by};
use states::{CAPACITY, RELATION_WORDS, StateSet};

// The states s with the pair (s,s).
pub fn diagonal(n: u32, rows: &[u64]) -> StateSet
    ensures { (s : ℕ) → has result s ≡ rel n rows.now s s }
{
    let mut found = StateSet::empty();
    for s in 0..CAPACITY {
        found = found.join(row(n, rows, s).meet(StateSet::single(s)));
    }
    found
}

// The pairs (s,t) with t in the set, for any number of states.
pub fn all_into(set: StateSet) -> [u64; RELATION_WORDS]
    ensures { (n s t : ℕ) → rel n result s t ≡ (ltb s capacity && ltb s n && ltb t n && has set t) }
{
    rows_by(|_| set)
}

// The pairs of the rows, and (s,s) for each state s.
pub fn with_same(n: u32, rows: &[u64]) -> [u64; RELATION_WORDS]
    ensures { (s t : ℕ) → rel n result s t ≡ (ltb s capacity && ltb s n && (eqb s t || rel n rows.now s t)) }
{
    rows_by(|s| StateSet::single(s).join(row(n, rows, s)))
}

// The pairs of the rows that end in the set.
pub fn ending_in(n: u32, rows: &[u64], set: StateSet) -> [u64; RELATION_WORDS]
    ensures { (s t : ℕ) → rel n result s t ≡ (ltb s capacity && (rel n rows.now s t && has set t)) }
{
    rows_by(|s| row(n, rows, s).meet(set))
}
