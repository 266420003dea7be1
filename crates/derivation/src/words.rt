// The work words: a set for each set and for each row of a relation (docs/FORMAT.md, "Work words").
ghost use Rattle.std.specs.Prelude.{List, ◌≡◌, ℕ, ◌+◌, ◌-◌, ◌*◌, ◌/◌, ◌%◌, ◌^◌, ◌≤◌, ◌<◌};
ghost use Rattle.states.specs.Sets.{set_words, capacity};
ghost use Rattle.derivation.specs.Tables.{most_tables, word_at, set_word_at, table_word, work_words, are_tables, limited_word, written};

use super::header::{TABLES_FROM, row_cursor};
use super::{MOST_TABLES, WORK_WORDS};
use states::reversal::reversed;
use states::{CAPACITY, RELATION_WORDS, SET_WORDS, bits_in_word};

// How many rows a relation has, and the word at which the rows begin, after the sets.
const ROWS: usize = CAPACITY as usize;

const ROWS_FROM: usize = SET_WORDS * MOST_TABLES;

// The word that holds n bits of the file from a cursor on, the first of them the lowest.
fn word_at(src: &[u8], at: usize, n: usize) -> u64
    requires { n ≤ 64 }
    ensures { result ≡ word_at src.now at n }
{
    let word = reversed(bits::word(src, at));
    if n < 64 { word % (1 << n) } else { word }
}

// Word `part` of the set that n bits of the file from a cursor on hold.
#[tactic(auto, unfolding(crate::specs::Tables::set_word_at))]
fn set_word_at(src: &[u8], at: usize, n: usize, part: usize) -> u64
    requires { (at ≤ 2 ^ 20) × (part < set_words) }
    ensures { result ≡ set_word_at src.now at n part }
{
    word_at(src, at + 64 * part, bits_in_word(n, part))
}

// Work word j of a file with so many tables: a word of a set, of a row of a relation, or 0 where it has none.
fn table_word(src: &[u8], n: usize, sets: usize, relations: usize, j: usize) -> u64
    requires { (n ≤ capacity) × (sets ≤ most_tables) × (relations ≤ most_tables) }
    ensures { result ≡ table_word src.now n sets relations j }
{
    let entry = j / SET_WORDS;
    let part = j % SET_WORDS;
    if entry < MOST_TABLES {
        if entry < sets {
            return set_word_at(src, TABLES_FROM + n * entry, n, part);
        }
        return 0;
    }
    let row = entry - MOST_TABLES;
    let relation = row / ROWS;
    let state = row % ROWS;
    if relation >= relations || state >= n {
        return 0;
    }
    set_word_at(src, row_cursor(n, sets, relation, state), n, part)
}

// The next word after word j that a table may have: rows past the n states of a relation have none.
fn next_word(n: usize, j: usize) -> usize
    requires { (n ≤ capacity) × (j < work_words) }
    ensures { (j < result) × ((s : List ℕ) (sets relations i : ℕ) → j < i → i < result → table_word s n sets relations i ≡ 0) }
{
    let next = j + 1;
    if next < ROWS_FROM {
        return next;
    }
    let passed = (next - ROWS_FROM) % RELATION_WORDS;
    if passed < SET_WORDS * n {
        next
    } else {
        next + (RELATION_WORDS - passed)
    }
}

// Sets the work words to 0: those of a file with no tables.
pub fn clear(work: &mut [u64])
    ensures { work.new ≡ written (λ j. 0) work.old }
{
    let count = work.len().min(WORK_WORDS);
    work[..count].fill(0);
}

// Writes the tables of a file with so many sets and relations; a shorter buffer is written as far as it goes. Most words
// are of no table, so all are set to 0 first.
pub(crate) fn fill(src: &[u8], n: usize, sets: usize, relations: usize, work: &mut [u64])
    requires { (n ≤ capacity) × (sets ≤ most_tables) × (relations ≤ most_tables) }
    ensures { work.new ≡ written (table_word src.now n sets relations) work.old }
{
    clear(work);
    let used = work.len().min(SET_WORDS * (MOST_TABLES + ROWS * relations));
    let mut j = 0;
    // Not a `for`: rows that no relation has are passed over.
    while j < used {
        work[j] = table_word(src, n, sets, relations, j);
        j = next_word(n, j);
    }
}

// Whether there can be so many states, sets and relations.
#[tactic(auto, unfolding(crate::specs::Tables::are_tables))]
fn are_tables(n: u32, sets: u32, relations: u32) -> bool
    ensures { result ≡ are_tables n sets relations }
{
    (n <= CAPACITY) & (sets as usize <= MOST_TABLES) & (relations as usize <= MOST_TABLES)
}

// Writes the tables of a file over n states with so many sets and relations; 0 in all work words where there cannot be so many.
pub fn write_tables(src: &[u8], n: u32, sets: u32, relations: u32, work: &mut [u64])
    ensures { work.new ≡ written (limited_word src.now n sets relations) work.old }
{
    if are_tables(n, sets, relations) {
        fill(src, n as usize, sets as usize, relations as usize, work);
    } else {
        clear(work);
    }
}
