// The weaken rule.
ghost use Rattle.std.specs.Prelude.{◌≡◌, Ok};
ghost use Rattle.states.specs.Search.{holds};
ghost use Rattle.semantics.specs.Conditions.{c70, c71, c72, c73};
ghost use Rattle.rules.specs.Words.{word_spec};
ghost use Rattle.semantics.specs.Checking.{weaken_obligations};
ghost use Rattle.rules.specs.Asking.{asked_all};

use crate::tables::{lies_in, set_at};
use crate::{common, require};
use semantics::Names;

// 70: P lies in the child's P.
pub fn pre_within(n: u32, work: &[u64], own: Names, child: Names) -> bool
    ensures { result ≡ holds (c70 n (word_spec n work.now own) (word_spec n work.now child)) }
{
    set_at(n, work, own.p).included(set_at(n, work, child.p))
}

// 71: R in the child's R.
pub fn rely_within(n: u32, work: &[u64], own: Names, child: Names) -> bool
    ensures { result ≡ holds (c71 n (word_spec n work.now own) (word_spec n work.now child)) }
{
    lies_in(n, work, own.r, child.r)
}

// 72: the child's G in G.
pub fn guarantee_within(n: u32, work: &[u64], own: Names, child: Names) -> bool
    ensures { result ≡ holds (c72 n (word_spec n work.now own) (word_spec n work.now child)) }
{
    lies_in(n, work, child.g, own.g)
}

// 73: the child's Q in Q.
pub fn post_within(n: u32, work: &[u64], own: Names, child: Names) -> bool
    ensures { result ≡ holds (c73 n (word_spec n work.now own) (word_spec n work.now child)) }
{
    lies_in(n, work, child.q, own.q)
}

// A weaken fits every statement.
#[tactic(auto, unfolding(crate::specs::Asking::asked))]
pub fn weaken_fault(n: u32, work: &[u64], own: Names, child: Names) -> Result<(), u32>
    ensures { result ≡ asked_all (Ok tt) (weaken_obligations n (word_spec n work.now own) (word_spec n work.now child)) }
{
    common(n, work, own, true)?;
    require(70, pre_within(n, work, own, child))?;
    require(71, rely_within(n, work, own, child))?;
    require(72, guarantee_within(n, work, own, child))?;
    require(73, post_within(n, work, own, child))
}
