// The tables in the work words, by number, and what the conditions compare: entry i is set i, and the rows of relation r start at entry
// 16 + CAPACITY r. Any n and any words are accepted: only the states below n are looked at, and an entry past the end is empty.
ghost use Rattle.std.specs.Prelude.{◌≡◌, ◌&&◌, ◌||◌, ℕ, ◌+◌, ◌*◌, drop};
ghost use Rattle.states.specs.Search.{must, given, holds};
ghost use Rattle.states.specs.Sets.{set_words, capacity, has};
ghost use Rattle.semantics.specs.Conditions.{in_set, same_set, same_relation, set_lies_in, relation_lies_in, c34};
ghost use Rattle.derivation.specs.Tables.{most_tables};
ghost use Rattle.rules.specs.Words.{word_set, word_relation, word_spec};

use derivation::MOST_TABLES;
use semantics::Names;
use states::entries::{entries_from, entry_at};
use states::relations::{image, row, same_members};
use states::{CAPACITY, StateSet};

pub fn set_at(n: u32, work: &[u64], i: u32) -> StateSet
    ensures { (s : ℕ) → has result s ≡ word_set n work.now i s }
{
    entry_at(work, i as usize).meet(StateSet::below(n))
}

// The words from the first row of relation r on.
pub fn rows_of(work: &[u64], r: u32) -> &[u64]
    ensures { result.now ≡ drop (set_words * (most_tables + capacity * r)) work.now }
{
    entries_from(work, MOST_TABLES + CAPACITY as usize * (r as usize))
}

// The ends of the pairs of relation r that start in s.
pub fn row_at(n: u32, work: &[u64], r: u32, s: u32) -> StateSet
    ensures { (t : ℕ) → has result t ≡ word_relation n work.now r s t }
{
    row(n, rows_of(work, r), s)
}

// Whether every pair of relation r that starts in `from` ends in `into`.
pub fn leads_into(n: u32, work: &[u64], from: StateSet, r: u32, into: StateSet) -> bool
    ensures { result ≡ holds (in_set n (has from) (λ s. in_set n (word_relation n work.now r s) (λ t. must (has into t)))) }
{
    image(n, from, rows_of(work, r)).included(into)
}

// Whether `whole` has (s,u) for all pairs (s,t) of `a` and (t,u) of `b` with t in `through`. If `whole`
// relates s to every state, the condition holds.
fn row_chains_into(
    n: u32,
    work: &[u64],
    a: u32,
    through: StateSet,
    b: u32,
    whole: u32,
    s: u32,
) -> bool
    ensures { result ≡ holds (in_set n (λ t. word_relation n work.now a s t && has through t)
        (λ t. in_set n (word_relation n work.now b t) (λ u. must (word_relation n work.now whole s u)))) }
{
    let into = row_at(n, work, whole, s);
    if StateSet::below(n).included(into) {
        true
    } else {
        leads_into(n, work, row_at(n, work, a, s).meet(through), b, into)
    }
}

// Whether `whole` has (s,u) for all pairs (s,t) of `a` and (t,u) of `b` with s in `from` and t in `through`.
pub fn chains_into(
    n: u32,
    work: &[u64],
    from: StateSet,
    a: u32,
    through: StateSet,
    b: u32,
    whole: u32,
) -> bool
    ensures { result ≡ holds (in_set n (has from) (λ s. in_set n (λ t. word_relation n work.now a s t && has through t)
        (λ t. in_set n (word_relation n work.now b t) (λ u. must (word_relation n work.now whole s u))))) }
{
    from.meet(StateSet::below(n))
        .states()
        .all(|s| row_chains_into(n, work, a, through, b, whole, s))
}

fn stays_at(n: u32, work: &[u64], from: StateSet, r: u32, s: u32) -> bool
    ensures { result ≡ holds (given (has from s) (must (word_relation n work.now r s s))) }
{
    if from.holds_state(s) {
        row_at(n, work, r, s).holds_state(s)
    } else {
        true
    }
}

// Whether relation r has the pair (s,s) for every state s of a set.
pub fn stays(n: u32, work: &[u64], from: StateSet, r: u32) -> bool
    ensures { result ≡ holds (in_set n (has from) (λ s. must (word_relation n work.now r s s))) }
{
    (0..n).all(|s| stays_at(n, work, from, r, s))
}

fn row_lies_in(n: u32, work: &[u64], a: u32, b: u32, s: u32) -> bool
    ensures { result ≡ set_lies_in n (word_relation n work.now a s) (word_relation n work.now b s) }
{
    row_at(n, work, a, s).included(row_at(n, work, b, s))
}

// Whether every pair of relation a is one of b. A table lies in itself: children often name the same table as their parent.
pub fn lies_in(n: u32, work: &[u64], a: u32, b: u32) -> bool
    ensures { result ≡ relation_lies_in n (word_relation n work.now a) (word_relation n work.now b) }
{
    a == b || (0..n).all(|s| row_lies_in(n, work, a, b, s))
}

// "Same" compares members, those below n.
pub fn same_set(n: u32, a: StateSet, b: StateSet) -> bool
    ensures { result ≡ same_set n (has a) (has b) }
{
    let states = StateSet::below(n);
    a.meet(states).same(b.meet(states))
}

// 34 for a child that is asked to have the node's own P.
pub fn same_pre(n: u32, work: &[u64], own: Names, child: Names) -> bool
    ensures { result ≡ holds (c34 n (word_spec n work.now own) (word_spec n work.now child)) }
{
    same_set(n, set_at(n, work, child.p), set_at(n, work, own.p))
}

// Whether a and b have the same pairs. A table is the same as itself and need not be compared.
pub fn same_relation(n: u32, work: &[u64], a: u32, b: u32) -> bool
    ensures { result ≡ same_relation n (word_relation n work.now a) (word_relation n work.now b) }
{
    a == b || same_members(n, rows_of(work, a), rows_of(work, b))
}

fn row_is_join(n: u32, work: &[u64], whole: u32, a: u32, b: u32, s: u32) -> bool
    ensures { result ≡ same_set n (word_relation n work.now whole s)
        (λ t. word_relation n work.now a s t || word_relation n work.now b s t) }
{
    same_set(
        n,
        row_at(n, work, whole, s),
        row_at(n, work, a, s).join(row_at(n, work, b, s)),
    )
}

// Whether relation whole is a joined with b.
pub fn is_join(n: u32, work: &[u64], whole: u32, a: u32, b: u32) -> bool
    ensures { result ≡ same_relation n (word_relation n work.now whole)
        (λ s t. word_relation n work.now a s t || word_relation n work.now b s t) }
{
    (0..n).all(|s| row_is_join(n, work, whole, a, b, s))
}

fn row_ends_in(n: u32, work: &[u64], part: u32, a: u32, p: u32, s: u32) -> bool
    ensures { result ≡ same_set n (word_relation n work.now part s)
        (λ t. word_relation n work.now a s t && word_set n work.now p t) }
{
    same_set(
        n,
        row_at(n, work, part, s),
        row_at(n, work, a, s).meet(set_at(n, work, p)),
    )
}

// Whether relation part has exactly the pairs of a that end in set p.
pub fn is_ending_in(n: u32, work: &[u64], part: u32, a: u32, p: u32) -> bool
    ensures { result ≡ same_relation n (word_relation n work.now part)
        (λ s t. word_relation n work.now a s t && word_set n work.now p t) }
{
    (0..n).all(|s| row_ends_in(n, work, part, a, p, s))
}
