// The least states that break a condition, by value. A search runs only after its condition failed: one for each shape of condition, the
// states taken out one by one, the least first. Any n and any rows are accepted, and only the states below n are looked at.
#![tactic(auto)]

ghost use Rattle.std.specs.Prelude.{◌≡◌};
ghost use Rattle.states.specs.Search.{must};
ghost use Rattle.states.specs.Sets.{has};
ghost use Rattle.states.specs.Relations.{rel};
ghost use Rattle.semantics.specs.Conditions.{in_set};
ghost use Rattle.search.specs.Named.{states_found, naming};

use pairs::all_into;
use states::StateSet;
use states::relations::row;

pub mod pairs;

// The states that a refusal names, in the order in which the condition names them. One type for what all conditions
// name: none to three states, which is no Option of one value.
#[derive(Clone, Copy)]
pub enum Named {
    Nothing,
    One(u32),
    Two(u32, u32),
    Three(u32, u32, u32),
}

// The least s in `from` that is not in `good`.
pub fn least_state(n: u32, from: StateSet, good: StateSet) -> Named
    ensures { result ≡ naming (states_found (in_set n (has from) (λ s. must (has good s)))) }
{
    let bad = from.meet(StateSet::below(n)).narrow(good);
    if bad.is_empty() {
        Named::Nothing
    } else {
        Named::One(bad.least())
    }
}

// The least s in `from`, then t, with (s,t) in `pairs` and not in `good`.
pub fn least_pair(n: u32, from: StateSet, pairs: &[u64], good: &[u64]) -> Named
    ensures { result ≡ naming (states_found (in_set n (has from) (λ s. in_set n (rel n pairs.now s)
        (λ t. must (rel n good.now s t))))) }
{
    for s in from.meet(StateSet::below(n)).states() {
        if let Named::One(t) = least_state(n, row(n, pairs, s), row(n, good, s)) {
            return Named::Two(s, t);
        }
    }
    Named::Nothing
}

// The least s in `from`, then t, then u, with (s,t) in `first`, (t,u) in `second` and (s,u) not in `good`.
pub fn least_chain(n: u32, from: StateSet, first: &[u64], second: &[u64], good: &[u64]) -> Named
    ensures { result ≡ naming (states_found (in_set n (has from) (λ s. in_set n (rel n first.now s)
        (λ t. in_set n (rel n second.now t) (λ u. must (rel n good.now s u)))))) }
{
    for s in from.meet(StateSet::below(n)).states() {
        let into = all_into(row(n, good, s));
        if let Named::Two(t, u) = least_pair(n, row(n, first, s), second, &into) {
            return Named::Three(s, t, u);
        }
    }
    Named::Nothing
}
