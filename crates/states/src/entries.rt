// Sets stored one after the other in words, as entries: work words and the rows of a relation.
ghost use Rattle.std.specs.Prelude.{◌≡◌, ℕ, ◌*◌, drop};
ghost use Rattle.states.specs.Sets.{set_words, mem, has, entry_at, with_entry};

use crate::StateSet;

// The set of entry i; empty past the end.
pub fn entry_at(words: &[u64], i: usize) -> StateSet
    ensures { (s : ℕ) → has result s ≡ mem (entry_at words.now i) s }
{
    if i < words.len() {
        StateSet { bits: words[i] }
    } else {
        StateSet::empty()
    }
}

// The words from entry i on.
pub fn entries_from(words: &[u64], i: usize) -> &[u64]
    ensures { result.now ≡ drop (set_words * i) words.now }
{
    if i <= words.len() {
        &words[i..]
    } else {
        let end = words.len();
        &words[end..]
    }
}

// Stores a set as entry i; past the end nothing is stored.
pub fn put_entry(words: &mut [u64], i: usize, set: StateSet)
    ensures { words.new ≡ with_entry words.old i set }
{
    if i < words.len() {
        words[i] = set.bits;
    }
}
