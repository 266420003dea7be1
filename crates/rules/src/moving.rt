// The variables that R moves, and how often an expression reads one of them (41, 45 and 50).
ghost use Rattle.std.specs.Prelude.{◌≡◌, not, ◌&&◌, ◌||◌, ℕ, ◌<◌, eqb, leb, [], ◌∷◌, Ok};
ghost use Rattle.states.specs.Search.{must, any};
ghost use Rattle.states.specs.Sets.{has};
ghost use Rattle.semantics.specs.Conditions.{occurrences, moves, unmoved as moves_nothing};
ghost use Rattle.semantics.specs.Checking.{numbered, common_reading};
ghost use Rattle.rules.specs.Asking.{asked_all};
ghost use Rattle.handler.specs.Header.{machine_in};
ghost use Rattle.evaluation.specs.Values.{in_mask, agree};
ghost use Rattle.handler.specs.Terms.{expr_in};
ghost use Rattle.rules.specs.Words.{word_relation, word_spec};

use crate::tables::{leads_into, rows_of, set_at};
use crate::{require, require_stability};
use evaluation::{agreeing, occurrences_at, variable_of};
use handler::head::{Head, states_in};
use semantics::Names;
use states::StateSet;
use states::relations::starting;

// Whether relation r leads from some state of the set to one that differs in variable v. The states that agree with the least are taken
// out together: r must lead from all of these to states that agree.
fn moves_variable(head: Head, n: u32, work: &[u64], from: StateSet, r: u32, v: u32) -> bool
    ensures { result ≡ any n (λ s. has from s && any n (λ t. word_relation n work.now r s t && not (agree (machine_in head) v s t))) }
{
    let variable = variable_of(head, v);
    let mut rest = from.meet(StateSet::below(n));
    while !rest.is_empty() {
        let first = rest.least();
        let agree = agreeing(variable, first);
        let alike = agree.join(StateSet::single(first));
        if leads_into(n, work, rest.meet(alike), r, agree) {
            rest = rest.narrow(alike);
        } else {
            return true;
        }
    }
    false
}

// The mask, with variable v added if `one` is true.
fn with_variable(mask: u32, v: u32, one: bool) -> u32
    requires { v < 32 }
    ensures { (u : ℕ) → in_mask result u ≡ (in_mask mask u || one && eqb v u) }
{
    if one { mask | (1 << v) } else { mask }
}

// The mask of the variables that R moves. Only the states of P that start a pair matter: if there are none, as
// with an empty R, no variable is looked at.
pub fn moved(head: Head, work: &[u64], own: Names) -> u32
    ensures { (v : ℕ) → in_mask result v ≡ moves (machine_in head) (word_spec (machine_in head).states work.now own) v }
{
    let n = states_in(head);
    if n == 0 {
        return 0;
    }
    let starts = starting(n, rows_of(work, own.r));
    let from = set_at(n, work, own.p).meet(starts);
    if from.is_empty() {
        return 0;
    }
    let mut mask = 0;
    let count = head.count;
    for v in 0..count {
        mask = with_variable(mask, v, moves_variable(head, n, work, from, own.r, v));
    }
    mask
}

// 41 and 45, from the mask of the variables that R moves: the expression has none of them.
pub fn unmoved(exprs: &[u32], mask: u32, expr: u32) -> bool
    ensures { result ≡ eqb (occurrences (in_mask mask) (expr_in exprs.now expr)) 0 }
{
    occurrences_at(exprs, mask, expr) == 0
}

// How assignment and if begin: 30, then 41 or 45 by its number (R moves no variable of the expression), then 31 to 33.
#[tactic(auto, using(crate::proofs::Movement::unmoved_41_45, states::proofs::Search::holds_must), unfolding(crate::specs::Asking::asked))]
pub fn common_reading(
    exprs: &[u32],
    head: Head,
    work: &[u64],
    own: Names,
    fits: bool,
    number: u32,
    expr: u32,
) -> Result<(), u32>
    ensures { result ≡ asked_all (Ok tt) (common_reading (machine_in head).states fits
        (numbered number (must (moves_nothing (machine_in head) (word_spec (machine_in head).states work.now own)
        (expr_in exprs.now expr))) ∷ [])
        (word_spec (machine_in head).states work.now own)) }
{
    require(30, fits)?;
    require(number, unmoved(exprs, moved(head, work, own), expr))?;
    require_stability(states_in(head), work, own)
}

// 50, from the same mask: at most one variable occurrence in the test is of one of them.
pub fn read_once(exprs: &[u32], mask: u32, expr: u32) -> bool
    ensures { result ≡ leb (occurrences (in_mask mask) (expr_in exprs.now expr)) 1 }
{
    occurrences_at(exprs, mask, expr) <= 1
}
