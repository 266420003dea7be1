// The skip rule.
ghost use Rattle.std.specs.Prelude.{◌≡◌, Bool, Ok};
ghost use Rattle.states.specs.Search.{holds};
ghost use Rattle.semantics.specs.Conditions.{c35};
ghost use Rattle.rules.specs.Words.{word_spec};
ghost use Rattle.semantics.specs.Checking.{skip_obligations};
ghost use Rattle.rules.specs.Asking.{asked_all, states_for};
ghost use Rattle.search.specs.Named.{naming};

use crate::tables::{rows_of, set_at, stays};
use crate::{common, common_states, require};
use search::pairs::diagonal;
use search::{Named, least_state};
use semantics::Names;

// Skip 35: s in P: (s,s) in Q.
pub fn reflexive(n: u32, work: &[u64], own: Names) -> bool
    ensures { result ≡ holds (c35 n (word_spec n work.now own)) }
{
    stays(n, work, set_at(n, work, own.p), own.q)
}

#[tactic(auto, unfolding(crate::specs::Asking::asked))]
pub fn skip_fault(n: u32, work: &[u64], own: Names, fits: bool) -> Result<(), u32>
    ensures { result ≡ asked_all (Ok tt) (skip_obligations n fits (word_spec n work.now own)) }
{
    common(n, work, own, fits)?;
    require(35, reflexive(n, work, own))
}

// The states that the condition with this number names: s for 35.
pub fn skip_states(n: u32, work: &[u64], own: Names, number: u32) -> Named
    ensures { (fits : Bool) → result ≡ naming (states_for number (skip_obligations n fits (word_spec n work.now own))) }
{
    if number == 35 {
        least_state(n, set_at(n, work, own.p), diagonal(n, rows_of(work, own.q)))
    } else {
        common_states(n, work, own, number)
    }
}
