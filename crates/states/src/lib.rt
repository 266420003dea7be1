// Sets of states by value. No function has a precondition, and each contract describes a set by its members.
// No other crate knows how many words a set has.
#![tactic(auto)]

ghost use Rattle.std.specs.Prelude.{◌≡◌, false, not, ◌&&◌, ◌||◌, ℕ, ◌+◌, ◌-◌, ◌*◌, min, ltb, eqb, get_or};
ghost use Rattle.std.specs.Bool.{beq};
ghost use Rattle.states.specs.Search.{implies, all, any, least_where};
ghost use Rattle.states.specs.Sets.{capacity, words_in, has, bits_where};

use crate::iteration::States;
use crate::reversal::reversed;

pub mod entries;
pub mod iteration;
pub mod relations;
pub mod reversal;

// How many words a set has, and how many states it can hold: 64 to a word.
pub const SET_WORDS: usize = 1;

pub const CAPACITY: u32 = 64;

// The number of words of a relation with a row for each of these states.
pub const RELATION_WORDS: usize = SET_WORDS * CAPACITY as usize;

// How many bits word `part` of a set has over n states.
pub fn bits_in_word(n: usize, part: usize) -> usize
    ensures { result ≡ min 64 (n - 64 * part) }
{
    n.saturating_sub(part.saturating_mul(64)).min(64)
}

// A set of states: state s is at bit s, the lowest bit first.
#[derive(Clone, Copy)]
pub struct StateSet {
    bits: u64,
}

impl StateSet {
    pub fn empty() -> StateSet
        ensures { (s : ℕ) → has result s ≡ false }
    {
        StateSet { bits: 0 }
    }

    // The states below n; all that a set can hold if n is the capacity or more.
    pub fn below(n: u32) -> StateSet
        ensures { (s : ℕ) → has result s ≡ (ltb s capacity && ltb s n) }
    {
        if n < CAPACITY {
            StateSet { bits: (1 << n) - 1 }
        } else {
            StateSet {
                bits: 0xffff_ffff_ffff_ffff,
            }
        }
    }

    // The set of s alone; empty if a set cannot hold s.
    pub fn single(s: u32) -> StateSet
        ensures { (t : ℕ) → has result t ≡ (ltb t capacity && eqb s t) }
    {
        if s < CAPACITY {
            StateSet { bits: 1 << s }
        } else {
            StateSet { bits: 0 }
        }
    }

    pub fn meet(self, other: StateSet) -> StateSet
        ensures { (s : ℕ) → has result s ≡ (has self s && has other s) }
    {
        StateSet {
            bits: self.bits & other.bits,
        }
    }

    pub fn join(self, other: StateSet) -> StateSet
        ensures { (s : ℕ) → has result s ≡ (has self s || has other s) }
    {
        StateSet {
            bits: self.bits | other.bits,
        }
    }

    // The states of self without those of other.
    pub fn narrow(self, other: StateSet) -> StateSet
        ensures { (s : ℕ) → has result s ≡ (has self s && not (has other s)) }
    {
        StateSet {
            bits: self.bits ^ (self.bits & other.bits),
        }
    }

    // The least state of the set; CAPACITY if it is empty.
    pub fn least(self) -> u32
        ensures { result ≡ least_where capacity (has self) }
    {
        u64::trailing_zeros(self.bits)
    }

    // The set without its least state; empty if the set is.
    pub fn without_least(self) -> StateSet
        ensures { (s : ℕ) → has result s ≡ (has self s && any s (λ t. has self t)) }
    {
        if self.bits == 0 {
            self
        } else {
            StateSet {
                bits: self.bits & (self.bits - 1),
            }
        }
    }

    // The states of the set one after the other, the least first.
    pub fn states(self) -> States
        ensures { result.rest ≡ self }
    {
        States { rest: self }
    }

    pub fn holds_state(self, s: u32) -> bool
        ensures { result ≡ has self s }
    {
        if s < CAPACITY {
            (self.bits >> s) % 2 == 1
        } else {
            false
        }
    }

    pub fn included(self, other: StateSet) -> bool
        ensures { result ≡ all capacity (λ s. implies (has self s) (has other s)) }
    {
        self.bits & other.bits == self.bits
    }

    pub fn same(self, other: StateSet) -> bool
        ensures { result ≡ all capacity (λ s. beq (has self s) (has other s)) }
    {
        self.bits == other.bits
    }

    pub fn is_empty(self) -> bool
        ensures { result ≡ not (any capacity (λ s. has self s)) }
    {
        self.bits == 0
    }
    // Word `part` of the set; 0 past the last.
    fn word(self, part: usize) -> u64
        ensures { result ≡ get_or (words_in self) part 0 }
    {
        if part == 0 { self.bits } else { 0 }
    }

    // The bits of the states of word `part` that are below n, as a file has them: the first state at the most significant bit.
    pub fn bits_of(self, n: u32, part: usize) -> u64
        ensures { result ≡ bits_where (min 64 (n - 64 * part)) (λ k. has self (64 * part + k)) }
    {
        let count = bits_in_word(n as usize, part);
        if count == 0 {
            return 0;
        }
        reversed(self.word(part)) >> (64 - count)
    }
}
