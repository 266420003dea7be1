// The states of a set one after the other.
ghost use Rattle.std.specs.Iterator.{at_most};
ghost use Rattle.states.specs.Search.{count};
ghost use Rattle.states.specs.Sets.{capacity, has};
ghost use Rattle.states.specs.Taking.{TakesLeast};

use crate::StateSet;

// The states of a set that are still to come.
#[derive(Drop)]
pub struct States {
    pub rest: StateSet,
}

impl Iterator for States {
    type Item = u32;

    ghost next_gives = { TakesLeast };

    ghost remaining = { λ s. at_most (count capacity (has s.rest)) };

    fn next(&mut self) -> Option<u32> {
        if self.rest.is_empty() {
            return None;
        }
        let first = self.rest.least();
        self.rest = self.rest.without_least();
        Some(first)
    }
}
