// The if rule.
ghost use Rattle.std.specs.Prelude.{◌≡◌, Bool, Ok};
ghost use Rattle.states.specs.Search.{holds};
ghost use Rattle.states.specs.Sets.{has};
ghost use Rattle.semantics.specs.Derivations.{Spec};
ghost use Rattle.semantics.specs.Conditions.{under_test, c46};
ghost use Rattle.rules.specs.Words.{word_spec};
ghost use Rattle.rules.specs.Asking.{asked_all, states_for};
ghost use Rattle.search.specs.Named.{naming};
ghost use Rattle.handler.specs.Header.{machine_in};
ghost use Rattle.handler.specs.Terms.{expr_in};
ghost use Rattle.semantics.specs.Checking.{body_tables, if_obligations};

use crate::moving::common_reading;
use crate::tables::{rows_of, same_relation, same_set, set_at, stays};
use crate::{common_states, require};
use evaluation::truths_at;
use handler::head::{Head, states_in};
use search::pairs::diagonal;
use search::{Named, least_state};
use semantics::Names;
use states::StateSet;

// 34 and 36 to 38: P and the test true; same R, G, Q. The states where the test is true are given.
#[tactic(auto, using(states::proofs::Search::holds_must, crate::proofs::Words::same_cong), unfolding(crate::specs::Asking::asked, semantics::specs::Conditions::c34, semantics::specs::Conditions::c36, semantics::specs::Conditions::c37, semantics::specs::Conditions::c38))]
fn if_tables(n: u32, work: &[u64], own: Names, truth: StateSet, child: Names) -> Result<(), u32>
    ensures { result ≡ asked_all (Ok tt) (body_tables n (under_test (word_spec n work.now own) (has truth)) (word_spec n work.now child)) }
{
    let asked = set_at(n, work, own.p).meet(truth);
    require(34, same_set(n, set_at(n, work, child.p), asked))?;
    require(36, same_relation(n, work, child.r, own.r))?;
    require(37, same_relation(n, work, child.g, own.g))?;
    require(38, same_relation(n, work, child.q, own.q))
}

// 46: s in P, test false: (s,s) in Q.
pub fn skip_satisfies_post(n: u32, work: &[u64], own: Names, falsity: StateSet) -> bool
    ensures { result ≡ holds (c46 n (word_spec n work.now own) (has falsity)) }
{
    stays(n, work, set_at(n, work, own.p).meet(falsity), own.q)
}

#[tactic(auto, unfolding(crate::specs::Asking::asked, semantics::specs::Conditions::c45))]
pub fn if_fault(
    exprs: &[u32],
    head: Head,
    work: &[u64],
    own: Names,
    child: Names,
    fits: bool,
    expr: u32,
) -> Result<(), u32>
    ensures { result ≡ asked_all (Ok tt) (if_obligations (machine_in head) fits (word_spec (machine_in head).states work.now own)
        (expr_in exprs.now expr) (word_spec (machine_in head).states work.now child)) }
{
    let n = states_in(head);
    common_reading(exprs, head, work, own, fits, 45, expr)?;
    let test = truths_at(exprs, head, expr);
    if_tables(n, work, own, test.holds, child)?;
    require(46, skip_satisfies_post(n, work, own, test.fails))
}

// The states that the condition with this number names: s for 46.
pub fn if_states(
    exprs: &[u32],
    head: Head,
    work: &[u64],
    own: Names,
    expr: u32,
    number: u32,
) -> Named
    ensures { (fits : Bool) (child : Spec) → result ≡ naming (states_for number (if_obligations (machine_in head) fits
        (word_spec (machine_in head).states work.now own) (expr_in exprs.now expr) child)) }
{
    let n = states_in(head);
    if number == 46 {
        let test = truths_at(exprs, head, expr);
        let from = set_at(n, work, own.p).meet(test.fails);
        least_state(n, from, diagonal(n, rows_of(work, own.q)))
    } else {
        common_states(n, work, own, number)
    }
}
