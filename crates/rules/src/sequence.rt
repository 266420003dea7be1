// The sequence rule.
ghost use Rattle.std.specs.Prelude.{◌≡◌, Bool, Ok};
ghost use Rattle.states.specs.Search.{holds};
ghost use Rattle.semantics.specs.Conditions.{c60, c61};
ghost use Rattle.rules.specs.Words.{word_spec};
ghost use Rattle.semantics.specs.Checking.{sequence_tables, sequence_obligations};
ghost use Rattle.rules.specs.Asking.{asked_all, states_for};
ghost use Rattle.search.specs.Named.{naming};

use crate::tables::{chains_into, leads_into, rows_of, same_pre, same_relation, set_at};
use crate::{common, common_states, require};
use search::pairs::all_into;
use search::{Named, least_chain, least_pair};
use semantics::Names;
use states::StateSet;

// 34, 36 and 37: left has the same P, R, G, right the same R, G.
#[tactic(auto, using(states::proofs::Search::holds_must), unfolding(crate::specs::Asking::asked, semantics::specs::Conditions::c36, semantics::specs::Conditions::c37))]
fn sequence_tables(n: u32, work: &[u64], own: Names, left: Names, right: Names) -> Result<(), u32>
    ensures { result ≡ asked_all (Ok tt) (sequence_tables n (word_spec n work.now own) (word_spec n work.now left)
        (word_spec n work.now right)) }
{
    require(34, same_pre(n, work, own, left))?;
    require(36, same_relation(n, work, left.r, own.r))?;
    require(37, same_relation(n, work, left.g, own.g))?;
    require(36, same_relation(n, work, right.r, own.r))?;
    require(37, same_relation(n, work, right.g, own.g))
}

// 60: s in P, (s,t) in left Q: t in right P.
pub fn left_meets_right(n: u32, work: &[u64], own: Names, left: Names, right: Names) -> bool
    ensures { result ≡ holds (c60 n (word_spec n work.now own) (word_spec n work.now left)
        (word_spec n work.now right)) }
{
    leads_into(
        n,
        work,
        set_at(n, work, own.p),
        left.q,
        set_at(n, work, right.p),
    )
}

// 61: s in P, (s,t) in left Q, (t,u) in right Q: (s,u) in Q.
pub fn sequence_post(n: u32, work: &[u64], own: Names, left: Names, right: Names) -> bool
    ensures { result ≡ holds (c61 n (word_spec n work.now own) (word_spec n work.now left)
        (word_spec n work.now right)) }
{
    let p = set_at(n, work, own.p);
    chains_into(n, work, p, left.q, StateSet::below(n), right.q, own.q)
}

#[tactic(auto, unfolding(crate::specs::Asking::asked))]
pub fn sequence_fault(
    n: u32,
    work: &[u64],
    own: Names,
    left: Names,
    right: Names,
    fits: bool,
) -> Result<(), u32>
    ensures { result ≡ asked_all (Ok tt) (sequence_obligations n fits (word_spec n work.now own) (word_spec n work.now left)
        (word_spec n work.now right)) }
{
    common(n, work, own, fits)?;
    sequence_tables(n, work, own, left, right)?;
    require(60, left_meets_right(n, work, own, left, right))?;
    require(61, sequence_post(n, work, own, left, right))
}

// The states that the condition with this number names: s, t for 60; s, t, u for 61.
pub fn sequence_states(
    n: u32,
    work: &[u64],
    own: Names,
    left: Names,
    right: Names,
    number: u32,
) -> Named
    ensures { (fits : Bool) → result ≡ naming (states_for number (sequence_obligations n fits (word_spec n work.now own)
        (word_spec n work.now left) (word_spec n work.now right))) }
{
    let p = set_at(n, work, own.p);
    let left_q = rows_of(work, left.q);
    match number {
        60 => least_pair(n, p, left_q, &all_into(set_at(n, work, right.p))),
        61 => least_chain(n, p, left_q, rows_of(work, right.q), rows_of(work, own.q)),
        _ => common_states(n, work, own, number),
    }
}
