// The assignment rule.
ghost use Rattle.std.specs.Prelude.{◌≡◌, Bool, ◌||◌, eqb, Ok};
ghost use Rattle.states.specs.Search.{must, holds};
ghost use Rattle.states.specs.Relations.{rel};
ghost use Rattle.semantics.specs.Conditions.{in_set};
ghost use Rattle.rules.specs.Words.{word_set, word_relation, word_spec};
ghost use Rattle.rules.specs.Asking.{asked_all, states_for};
ghost use Rattle.search.specs.Named.{naming};
ghost use Rattle.handler.specs.Header.{machine_in};
ghost use Rattle.handler.specs.Terms.{expr_in};
ghost use Rattle.semantics.specs.Checking.{assignment_obligations};

use crate::moving::common_reading;
use crate::tables::{row_at, rows_of, set_at};
use crate::{common_states, require};
use evaluation::successors;
use handler::head::{Head, states_in};
use search::pairs::with_same;
use search::{Named, least_pair};
use semantics::Names;
use states::StateSet;
use states::relations::{included_from, row};

// 42, from the rows that say where a store leads: s in P, s' its end: (s,s') in Q.
pub fn store_in_post(n: u32, work: &[u64], own: Names, after: &[u64]) -> bool
    ensures { result ≡ holds (in_set n (word_set n work.now own.p) (λ s. in_set n (rel n after.now s)
        (λ t. must (word_relation n work.now own.q s t)))) }
{
    included_from(n, set_at(n, work, own.p), after, rows_of(work, own.q))
}

// Whether the end t of a store at s is s, or (s,t) is in G.
fn guaranteed_at(n: u32, work: &[u64], own: Names, after: &[u64], s: u32) -> bool
    ensures { result ≡ holds (in_set n (rel n after.now s) (λ t. must (eqb t s || word_relation n work.now own.g s t))) }
{
    let allowed = StateSet::single(s).join(row_at(n, work, own.g, s));
    row(n, after, s).included(allowed)
}

// 43, from the same rows: s in P, s' its end: s' = s or (s,s') in G.
pub fn store_in_guarantee(n: u32, work: &[u64], own: Names, after: &[u64]) -> bool
    ensures { result ≡ holds (in_set n (word_set n work.now own.p) (λ s. in_set n (rel n after.now s)
        (λ t. must (eqb t s || word_relation n work.now own.g s t)))) }
{
    set_at(n, work, own.p)
        .states()
        .all(|s| guaranteed_at(n, work, own, after, s))
}

#[tactic(auto, using(crate::proofs::Stores::store_in_post_42, crate::proofs::Stores::store_in_guarantee_43), unfolding(crate::specs::Asking::asked, semantics::specs::Conditions::c41))]
pub fn assignment_fault(
    exprs: &[u32],
    head: Head,
    work: &[u64],
    own: Names,
    fits: bool,
    v: u32,
    expr: u32,
) -> Result<(), u32>
    ensures { result ≡ asked_all (Ok tt) (assignment_obligations (machine_in head) fits (word_spec (machine_in head).states work.now own) v
        (expr_in exprs.now expr)) }
{
    let n = states_in(head);
    common_reading(exprs, head, work, own, fits, 41, expr)?;
    let after = successors(exprs, head, v, expr);
    require(42, store_in_post(n, work, own, &after))?;
    require(43, store_in_guarantee(n, work, own, &after))
}

// The states that the condition with this number names: s, s' for 42 and 43.
pub fn assignment_states(
    exprs: &[u32],
    head: Head,
    work: &[u64],
    own: Names,
    v: u32,
    expr: u32,
    number: u32,
) -> Named
    ensures { (fits : Bool) → result ≡ naming (states_for number (assignment_obligations (machine_in head) fits
        (word_spec (machine_in head).states work.now own) v (expr_in exprs.now expr))) }
{
    let n = states_in(head);
    let p = set_at(n, work, own.p);
    let after = successors(exprs, head, v, expr);
    match number {
        42 => least_pair(n, p, &after, rows_of(work, own.q)),
        43 => least_pair(n, p, &after, &with_same(n, rows_of(work, own.g))),
        _ => common_states(n, work, own, number),
    }
}
