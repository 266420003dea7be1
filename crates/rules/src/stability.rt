// 31 to 33: changes by others keep P, and Q absorbs them before and after.
ghost use Rattle.std.specs.Prelude.{◌≡◌};
ghost use Rattle.states.specs.Search.{holds};
ghost use Rattle.semantics.specs.Conditions.{c31, c32, c33};
ghost use Rattle.rules.specs.Words.{word_spec};

use crate::tables::{chains_into, leads_into, rows_of, set_at};
use semantics::Names;
use states::StateSet;
use states::relations::starting;

// Which of the three hold: P is stable under R (31), and Q absorbs R before (32) and after (33).
#[derive(Clone, Copy)]
pub struct Stability {
    pub pre: bool,
    pub before: bool,
    pub after: bool,
}

// 31: s in P, (s,t) in R: t in P. 32: s in P, (s,t) in R, (t,u) in Q: (s,u) in Q. 33: s in P, (s,t) in Q, (t,u) in R: (s,u) in Q.
// Every rule checks the three, so the states that start a pair of R are found once; if there are none, others do nothing.
pub fn stable_under_rely(n: u32, work: &[u64], own: Names) -> Stability
    ensures pre { result.pre ≡ holds (c31 n (word_spec n work.now own)) }
    ensures before { result.before ≡ holds (c32 n (word_spec n work.now own)) }
    ensures after { result.after ≡ holds (c33 n (word_spec n work.now own)) }
{
    let starts = starting(n, rows_of(work, own.r));
    if starts.is_empty() {
        return Stability {
            pre: true,
            before: true,
            after: true,
        };
    }
    let p = set_at(n, work, own.p);
    let from = p.meet(starts);
    let states = StateSet::below(n);
    Stability {
        pre: leads_into(n, work, from, own.r, p),
        before: chains_into(n, work, from, own.r, states, own.q, own.q),
        after: chains_into(n, work, p, own.q, starts, own.r, own.q),
    }
}
