// The while rule.
ghost use Rattle.std.specs.Prelude.{◌≡◌, Bool, ◌&&◌, ◌||◌, ℕ, ◌<◌, eqb, Ok};
ghost use Rattle.states.specs.Search.{must, given, holds, implies, all};
ghost use Rattle.states.specs.Sets.{capacity, has};
ghost use Rattle.states.specs.Relations.{rel};
ghost use Rattle.semantics.specs.Derivations.{Spec};
ghost use Rattle.semantics.specs.Conditions.{in_set, in_round, c51, c57, c53, c55, c52, c54, c56};
ghost use Rattle.rules.specs.Words.{word_set, word_relation, word_spec};
ghost use Rattle.rules.specs.Asking.{asked_all, states_for};
ghost use Rattle.search.specs.Named.{naming};
ghost use Rattle.handler.specs.Header.{machine_in};
ghost use Rattle.handler.specs.Terms.{expr_in};
ghost use Rattle.semantics.specs.Checking.{body_tables, while_obligations};

use crate::moving::{moved, read_once};
use crate::tables::{is_ending_in, leads_into, row_at, rows_of, same_relation, same_set, set_at};
use crate::{common, common_states, require};
use evaluation::truths_at;
use handler::head::{Head, states_in};
use search::pairs::{all_into, diagonal, ending_in, with_same};
use search::{Named, least_chain, least_pair, least_state};
use semantics::Names;
use states::{RELATION_WORDS, StateSet};

// 34 and 36 to 38: P met with K; same R, G; Q the pairs of W that end in P.
#[tactic(auto, using(states::proofs::Search::holds_must, crate::proofs::Words::same_cong), unfolding(crate::specs::Asking::asked, semantics::specs::Conditions::c34, semantics::specs::Conditions::c36, semantics::specs::Conditions::c37, semantics::specs::Conditions::c38))]
fn while_tables(n: u32, work: &[u64], own: Names, k: u32, w: u32, child: Names) -> Result<(), u32>
    ensures { result ≡ asked_all (Ok tt) (body_tables n (in_round (word_spec n work.now own) (word_set n work.now k)
        (word_relation n work.now w)) (word_spec n work.now child)) }
{
    let asked = set_at(n, work, own.p).meet(set_at(n, work, k));
    require(34, same_set(n, set_at(n, work, child.p), asked))?;
    require(36, same_relation(n, work, child.r, own.r))?;
    require(37, same_relation(n, work, child.g, own.g))?;
    require(38, is_ending_in(n, work, child.q, w, own.p))
}

// Whether W is a strict order: it has no (s,s) (51), and it is transitive (57).
#[derive(Clone, Copy)]
pub struct Order {
    pub apart: bool,
    pub transitive: bool,
}

// 51: W has no (s,s). 57: (s,t) in W, (t,u) in W: (s,u) in W. Each row is looked at once for both: a test of
// all for each cost 4.3 % more instructions (docs/DECISIONS.md, 75), so one loop keeps both.
pub fn order_of(n: u32, work: &[u64], w: u32) -> Order
    ensures apart { result.apart ≡ holds (c51 n (word_relation n work.now w)) }
    ensures transitive { result.transitive ≡ holds (c57 n (word_relation n work.now w)) }
{
    let mut apart = true;
    let mut transitive = true;
    for s in 0..n {
        let ends = row_at(n, work, w, s);
        apart = apart & !ends.holds_state(s);
        transitive = transitive & leads_into(n, work, ends, w, ends);
    }
    Order { apart, transitive }
}

// 52: s in P, test true: s in K.
pub fn enters_k(n: u32, work: &[u64], own: Names, k: u32, truth: StateSet) -> bool
    ensures { result ≡ holds (c52 n (word_spec n work.now own) (has truth) (word_set n work.now k)) }
{
    set_at(n, work, own.p)
        .meet(truth)
        .included(set_at(n, work, k))
}

// 53: s in P and K, (s,t) in R: t in K.
pub fn keeps_k(n: u32, work: &[u64], own: Names, k: u32) -> bool
    ensures { result ≡ holds (c53 n (word_spec n work.now own) (word_set n work.now k)) }
{
    let set = set_at(n, work, k);
    leads_into(n, work, set_at(n, work, own.p).meet(set), own.r, set)
}

// 54: s in P, test false, (s,t) in R: test false at t.
pub fn stays_false(n: u32, work: &[u64], own: Names, falsity: StateSet) -> bool
    ensures { result ≡ holds (c54 n (word_spec n work.now own) (has falsity)) }
{
    leads_into(
        n,
        work,
        set_at(n, work, own.p).meet(falsity),
        own.r,
        falsity,
    )
}

fn rely_descends_at(n: u32, work: &[u64], p: u32, r: u32, w: u32, s: u32) -> bool
    ensures { result ≡ holds (given (word_set n work.now p s) (in_set n (word_relation n work.now r s)
        (λ t. must (eqb s t || word_relation n work.now w s t)))) }
{
    if set_at(n, work, p).holds_state(s) {
        row_at(n, work, r, s).included(StateSet::single(s).join(row_at(n, work, w, s)))
    } else {
        true
    }
}

// 55: s in P, (s,t) in R: s = t or (s,t) in W.
pub fn rely_descends(n: u32, work: &[u64], own: Names, w: u32) -> bool
    ensures { result ≡ holds (c55 n (word_spec n work.now own) (word_relation n work.now w)) }
{
    (0..n).all(|s| rely_descends_at(n, work, own.p, own.r, w, s))
}

// Whether (s,t) is in Q for each t in p, with the test false, that is s or an end of w from s.
fn exit_satisfies_post_at(
    n: u32,
    work: &[u64],
    own: Names,
    w: u32,
    p: StateSet,
    falsity: StateSet,
    s: u32,
) -> bool
    ensures { result ≡ all capacity (λ t. implies ((eqb t s || word_relation n work.now w s t) && has p t && has falsity t)
        (word_relation n work.now own.q s t)) }
{
    let rounds = StateSet::single(s).join(row_at(n, work, w, s));
    rounds
        .meet(p)
        .meet(falsity)
        .included(row_at(n, work, own.q, s))
}

// 56: s in P, t = s or (s,t) in W, t in P, test false at t: (s,t) in Q.
pub fn exit_satisfies_post(n: u32, work: &[u64], own: Names, w: u32, falsity: StateSet) -> bool
    ensures { result ≡ holds (c56 n (word_spec n work.now own) (has falsity) (word_relation n work.now w)) }
{
    let p = set_at(n, work, own.p);
    p.states()
        .all(|s| exit_satisfies_post_at(n, work, own, w, p, falsity, s))
}

// The pairs (s,t) with t = s or (s,t) in the order, and t in the set.
fn exits(n: u32, order: &[u64], into: StateSet) -> [u64; RELATION_WORDS]
    ensures { (s t : ℕ) → s < capacity → s < n → rel n result s t ≡ ((eqb s t || rel n order.now s t) && has into t) }
{
    let rounds = with_same(n, order);
    ending_in(n, &rounds, into)
}

#[tactic(auto, using(crate::proofs::Movement::read_once_50), unfolding(crate::specs::Asking::asked))]
pub fn while_fault(
    exprs: &[u32],
    head: Head,
    work: &[u64],
    own: Names,
    k: u32,
    w: u32,
    child: Names,
    fits: bool,
    expr: u32,
) -> Result<(), u32>
    ensures { result ≡ asked_all (Ok tt) (while_obligations (machine_in head) fits (word_spec (machine_in head).states work.now own)
        (expr_in exprs.now expr) (word_set (machine_in head).states work.now k)
        (word_relation (machine_in head).states work.now w) (word_spec (machine_in head).states work.now child)) }
{
    let n = states_in(head);
    common(n, work, own, fits)?;
    let test = truths_at(exprs, head, expr);
    while_tables(n, work, own, k, w, child)?;
    require(50, read_once(exprs, moved(head, work, own), expr))?;
    let order = order_of(n, work, w);
    require(51, order.apart)?;
    require(57, order.transitive)?;
    require(52, enters_k(n, work, own, k, test.holds))?;
    require(53, keeps_k(n, work, own, k))?;
    require(54, stays_false(n, work, own, test.fails))?;
    require(55, rely_descends(n, work, own, w))?;
    require(56, exit_satisfies_post(n, work, own, w, test.fails))
}

// The states that the condition with this number names: s for 51 and 52; s, t for 53 to 56; s, t, u for 57.
pub fn while_states(
    exprs: &[u32],
    head: Head,
    work: &[u64],
    own: Names,
    k: u32,
    w: u32,
    expr: u32,
    number: u32,
) -> Named
    ensures { (fits : Bool) (child : Spec) → result ≡ naming (states_for number (while_obligations (machine_in head) fits
        (word_spec (machine_in head).states work.now own) (expr_in exprs.now expr)
        (word_set (machine_in head).states work.now k) (word_relation (machine_in head).states work.now w) child)) }
{
    let n = states_in(head);
    let test = truths_at(exprs, head, expr);
    let truth = test.holds;
    let falsity = test.fails;
    let p = set_at(n, work, own.p);
    let inside = set_at(n, work, k);
    let rely = rows_of(work, own.r);
    let order = rows_of(work, w);
    match number {
        51 => least_state(n, diagonal(n, order), StateSet::empty()),
        52 => least_state(n, p.meet(truth), inside),
        53 => least_pair(n, p.meet(inside), rely, &all_into(inside)),
        54 => least_pair(n, p.meet(falsity), rely, &all_into(falsity)),
        55 => least_pair(n, p, rely, &with_same(n, order)),
        56 => least_pair(
            n,
            p,
            &exits(n, order, p.meet(falsity)),
            rows_of(work, own.q),
        ),
        57 => least_chain(n, StateSet::below(n), order, order, order),
        _ => common_states(n, work, own, number),
    }
}
