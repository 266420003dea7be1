// The tables of the composition's root and of its two weaken nodes, from the tables of both roots. A relation is given by its rows.
ghost use Rattle.std.specs.Prelude.{◌≡◌, ◌&&◌, ◌||◌, ℕ, ◌≤◌, ◌<◌};
ghost use Rattle.states.specs.Sets.{capacity, has};
ghost use Rattle.states.specs.Relations.{rel, reach as reaches};
ghost use Rattle.rules.specs.Words.{word_spec};
ghost use Rattle.composition.specs.Refinement.{Joint};

use rules::tables::{rows_of, set_at};
use semantics::Names;
use states::relations::{reach, row, rows_by, union_of};
use states::{RELATION_WORDS, StateSet};

// The root's tables, and the R of each weaken node; their G and Q are the sides' own.
#[derive(Clone, Copy)]
pub(crate) struct Roots {
    pub p: StateSet,
    pub r: [u64; RELATION_WORDS],
    pub g: [u64; RELATION_WORDS],
    pub q: [u64; RELATION_WORDS],
    pub left: [u64; RELATION_WORDS],
    pub right: [u64; RELATION_WORDS],
}

// The pairs of both relations.
fn met(n: u32, a: &[u64], b: &[u64]) -> [u64; RELATION_WORDS]
    ensures { n ≤ capacity → (s t : ℕ) → rel n result s t ≡ (rel n a.now s t && rel n b.now s t) }
{
    rows_by(|s| row(n, a, s).meet(row(n, b, s)))
}

// The pairs of either relation.
fn joined(n: u32, a: &[u64], b: &[u64]) -> [u64; RELATION_WORDS]
    ensures { n ≤ capacity → (s t : ℕ) → rel n result s t ≡ (rel n a.now s t || rel n b.now s t) }
{
    union_of(n, a, b)
}

// The ends of both Q at a state of P that are reached from it by the moves.
fn post_at(n: u32, p: StateSet, a: &[u64], b: &[u64], moves: &[u64], s: u32) -> StateSet
    requires { s < capacity }
    ensures { (t : ℕ) → has result t ≡ (has p s && rel n a.now s t && rel n b.now s t && reaches n (rel n moves.now) s t) }
{
    if p.holds_state(s) {
        let both = row(n, a, s).meet(row(n, b, s));
        both.meet(reach(n, moves, StateSet::single(s)))
    } else {
        StateSet::empty()
    }
}

// The pairs of both Q that start in P and end in a state that the moves reach from the start.
fn post(n: u32, p: StateSet, a: &[u64], b: &[u64], moves: &[u64]) -> [u64; RELATION_WORDS]
    ensures { n ≤ capacity → (s t : ℕ) → rel n result s t
        ≡ (has p s && rel n a.now s t && rel n b.now s t && reaches n (rel n moves.now) s t) }
{
    rows_by(|s| post_at(n, p, a, b, moves, s))
}

// The new tables, from the words of both proof files and the names of their roots.
pub(crate) fn roots_of(n: u32, first: &[u64], a: Names, second: &[u64], b: Names) -> Roots
    requires { n ≤ capacity }
    ensures { Joint n (word_spec n first.now a) (word_spec n second.now b) result }
{
    let p = set_at(n, first, a.p).meet(set_at(n, second, b.p));
    let first_g = rows_of(first, a.g);
    let second_g = rows_of(second, b.g);
    let r = met(n, rows_of(first, a.r), rows_of(second, b.r));
    let g = joined(n, first_g, second_g);
    let left = joined(n, &r, second_g);
    let right = joined(n, &r, first_g);
    let moves = joined(n, &right, second_g);
    let q = post(n, p, rows_of(first, a.q), rows_of(second, b.q), &moves);
    Roots {
        p,
        r,
        g,
        q,
        left,
        right,
    }
}
