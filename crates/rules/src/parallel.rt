// The parallel rule.
ghost use Rattle.std.specs.Prelude.{◌≡◌, Bool, ◌&&◌, ◌||◌, ℕ, ◌<◌, ltb, Ok};
ghost use Rattle.states.specs.Search.{must, given, holds};
ghost use Rattle.states.specs.Sets.{capacity, has};
ghost use Rattle.states.specs.Relations.{rel, reach as reaches};
ghost use Rattle.semantics.specs.Conditions.{in_set, c65, c66, moves};
ghost use Rattle.rules.specs.Words.{word_set, word_relation, word_spec};
ghost use Rattle.semantics.specs.Checking.{parallel_tables, parallel_obligations};
ghost use Rattle.rules.specs.Asking.{asked_all, states_for};
ghost use Rattle.search.specs.Named.{naming};

use crate::tables::{is_join, lies_in, row_at, rows_of, same_pre, set_at};
use crate::{common, common_states, require};
use search::{Named, least_pair};
use semantics::Names;
use states::relations::{reach, rows_by, union_of};
use states::{RELATION_WORDS, StateSet};

// 34 and 36: both P; left's R is R joined with right's G, right's R is R joined with left's G.
#[tactic(auto, using(states::proofs::Search::holds_must), unfolding(crate::specs::Asking::asked, semantics::specs::Conditions::c36))]
fn parallel_tables(n: u32, work: &[u64], own: Names, left: Names, right: Names) -> Result<(), u32>
    ensures { result ≡ asked_all (Ok tt) (parallel_tables n (word_spec n work.now own) (word_spec n work.now left)
        (word_spec n work.now right)) }
{
    require(34, same_pre(n, work, own, left))?;
    require(36, is_join(n, work, left.r, own.r, right.g))?;
    require(34, same_pre(n, work, own, right))?;
    require(36, is_join(n, work, right.r, own.r, left.g))
}

// 65: both children's G lie in G.
pub fn guarantees_within(n: u32, work: &[u64], own: Names, left: Names, right: Names) -> bool
    ensures { result ≡ holds (c65 n (word_spec n work.now own) (word_spec n work.now left)
        (word_spec n work.now right)) }
{
    lies_in(n, work, left.g, own.g) & lies_in(n, work, right.g, own.g)
}

// The changes that either side or the others make, with a row for each state that a set can hold.
fn changes(n: u32, work: &[u64], r: u32, left: u32, right: u32) -> [u64; RELATION_WORDS]
    ensures { (s t : ℕ) → rel n result s t ≡ (ltb s capacity && (word_relation n work.now r s t
        || word_relation n work.now left s t || word_relation n work.now right s t)) }
{
    let outer = union_of(n, rows_of(work, r), rows_of(work, left));
    union_of(n, &outer, rows_of(work, right))
}

// Condition 66 at s. The reach from s is computed only if some end of both children's Q is outside Q.
fn joint_post_at(
    n: u32,
    work: &[u64],
    p: u32,
    left: u32,
    right: u32,
    moves: &[u64],
    q: u32,
    s: u32,
) -> bool
    ensures { result ≡ holds (given (word_set n work.now p s) (in_set n
        (λ t. word_relation n work.now left s t && word_relation n work.now right s t
        && reaches n (rel n moves.now) s t) (λ t. must (word_relation n work.now q s t)))) }
{
    if set_at(n, work, p).holds_state(s) {
        let both = row_at(n, work, left, s).meet(row_at(n, work, right, s));
        let ends = row_at(n, work, q, s);
        if both.included(ends) {
            true
        } else {
            both.meet(reach(n, moves, StateSet::single(s)))
                .included(ends)
        }
    } else {
        true
    }
}

// 66: s in P, (s,t) in both children's Q, t reached from s by zero or more pairs of R or either child's G: (s,t) in Q.
pub fn parallel_post(n: u32, work: &[u64], own: Names, left: Names, right: Names) -> bool
    ensures { result ≡ holds (c66 n (word_spec n work.now own) (word_spec n work.now left)
        (word_spec n work.now right)) }
{
    let moves = changes(n, work, own.r, left.g, right.g);
    (0..n).all(|s| joint_post_at(n, work, own.p, left.q, right.q, &moves, own.q, s))
}

#[tactic(auto, unfolding(crate::specs::Asking::asked))]
pub fn parallel_fault(
    n: u32,
    work: &[u64],
    own: Names,
    left: Names,
    right: Names,
    fits: bool,
) -> Result<(), u32>
    ensures { result ≡ asked_all (Ok tt) (parallel_obligations n fits (word_spec n work.now own) (word_spec n work.now left)
        (word_spec n work.now right)) }
{
    common(n, work, own, fits)?;
    parallel_tables(n, work, own, left, right)?;
    require(65, guarantees_within(n, work, own, left, right))?;
    require(66, parallel_post(n, work, own, left, right))
}

// The ends of both children's Q at s that are reached from s by the moves.
fn joint_ends_at(n: u32, work: &[u64], left: u32, right: u32, moves: &[u64], s: u32) -> StateSet
    ensures { s < capacity → (t : ℕ) → has result t ≡ (word_relation n work.now left s t && word_relation n work.now right s t
        && reaches n (rel n moves.now) s t) }
{
    let both = row_at(n, work, left, s).meet(row_at(n, work, right, s));
    both.meet(reach(n, moves, StateSet::single(s)))
}

// The pairs (s,t) of both children's Q with t reached from s by the moves.
fn joint_ends(n: u32, work: &[u64], left: u32, right: u32, moves: &[u64]) -> [u64; RELATION_WORDS]
    ensures { (s t : ℕ) → rel n result s t ≡ (ltb s capacity && (word_relation n work.now left s t
        && word_relation n work.now right s t && reaches n (rel n moves.now) s t)) }
{
    rows_by(|s| joint_ends_at(n, work, left, right, moves, s))
}

// The states that the condition with this number names: s, t for 66.
pub fn parallel_states(
    n: u32,
    work: &[u64],
    own: Names,
    left: Names,
    right: Names,
    number: u32,
) -> Named
    ensures { (fits : Bool) → result ≡ naming (states_for number (parallel_obligations n fits (word_spec n work.now own)
        (word_spec n work.now left) (word_spec n work.now right))) }
{
    if number == 66 {
        let changed = changes(n, work, own.r, left.g, right.g);
        let ends = joint_ends(n, work, left.q, right.q, &changed);
        least_pair(n, set_at(n, work, own.p), &ends, rows_of(work, own.q))
    } else {
        common_states(n, work, own, number)
    }
}
