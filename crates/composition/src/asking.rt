// What is asked of two accepted pairs together (docs/COMPOSITION.md): the same variables, and that each side's moves are allowed.
ghost use Rattle.std.specs.Prelude.{List, ◌&&◌, ◌≡◌, ℕ, ◌≤◌, length};
ghost use Rattle.states.specs.Sets.{capacity};
ghost use Rattle.semantics.specs.Conditions.{relation_lies_in};
ghost use Rattle.handler.specs.Header.{head_of};
ghost use Rattle.rules.specs.Words.{word_relation, word_spec};
ghost use Rattle.joint.specs.Joining.{root_spec};
ghost use Rattle.joint.specs.Composing.{same_sizes, stays_in};
ghost use Rattle.composition.specs.Refinement.{first_unmet};

use handler::head::Head;
use rules::tables::{leads_into, rows_of, set_at};
use semantics::Names;
use states::StateSet;
use states::relations::included_from;

// The second G is not within the first R, the first G is not within the second R, and a pair of either G leads out of the met P.
const SECOND_NOT_ALLOWED: u32 = 91;

const FIRST_NOT_ALLOWED: u32 = 92;

const P_LEFT: u32 = 93;

// Whether two heads declare the same sizes. Sizes past the count are 1 in both.
pub(crate) fn same_sizes(a: Head, b: Head) -> bool
    ensures { (s t : List ℕ) → a ≡ head_of s → b ≡ head_of t → length s ≤ 4 → length t ≤ 4 → result ≡ same_sizes s t }
{
    let s = a.sizes;
    let t = b.sizes;
    let same = (s[0] == t[0]) & (s[1] == t[1]) & (s[2] == t[2]) & (s[3] == t[3]);
    (a.count == b.count) & same
}

// Whether every pair of relation a of some words is one of relation b of others.
fn lies_across(n: u32, first: &[u64], a: u32, second: &[u64], b: u32) -> bool
    requires { n ≤ capacity }
    ensures { result ≡ relation_lies_in n (word_relation n first.now a) (word_relation n second.now b) }
{
    included_from(n, StateSet::below(n), rows_of(first, a), rows_of(second, b))
}

// Whether no pair of either G leads out of the met P.
fn both_stay(n: u32, first: &[u64], a: Names, second: &[u64], b: Names) -> bool
    ensures { result ≡ (let P = (root_spec n (word_spec n first.now a) (word_spec n second.now b)).P in
        stays_in n P (word_relation n first.now a.g) && stays_in n P (word_relation n second.now b.g)) }
{
    let p = set_at(n, first, a.p).meet(set_at(n, second, b.p));
    leads_into(n, first, p, a.g, p) & leads_into(n, second, p, b.g, p)
}

// Asks the conditions on both roots. The `Err` is the number of the first that does not hold.
pub(crate) fn ask_roots(
    n: u32,
    first: &[u64],
    a: Names,
    second: &[u64],
    b: Names,
) -> Result<(), u32>
    requires { n ≤ capacity }
    ensures { result ≡ first_unmet n (word_spec n first.now a) (word_spec n second.now b) }
{
    if !lies_across(n, second, b.g, first, a.r) {
        return Err(SECOND_NOT_ALLOWED);
    }
    if !lies_across(n, first, a.g, second, b.r) {
        return Err(FIRST_NOT_ALLOWED);
    }
    if both_stay(n, first, a, second, b) {
        Ok(())
    } else {
        Err(P_LEFT)
    }
}
