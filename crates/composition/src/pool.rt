// The tables of the result, by first mention: a table that is mentioned is looked up among those that are there, and added if it is new.
// Sets are kept in words of their own, relations in the words that are lent for them, laid out as the check lays them out.
// A set is one entry, and a relation as many rows as there are states, so mentions of the two differ in what they compare, store and ask.
ghost use Rattle.std.specs.Prelude.{List, ◌≡◌, ℕ, ◌+◌, ◌*◌, ◌≤◌, ◌<◌, eqb, length};
ghost use Rattle.states.specs.Sets.{set_words, capacity, has};
ghost use Rattle.states.specs.Relations.{rel};
ghost use Rattle.derivation.specs.Tables.{most_tables, work_words};
ghost use Rattle.rules.specs.Words.{word_set, word_relation};
ghost use Rattle.form.specs.Members.{set_where, relation_where};
ghost use Rattle.form.specs.Mentions.{place_in};
ghost use Rattle.composition.specs.Refinement.{sets_held, relations_held, RelationStored, Kept, Mentioned, ThreeMentioned, Merged};

use derivation::MOST_TABLES;
use rules::tables::{rows_of, same_set, set_at};
use states::entries::put_entry;
use states::relations::{row, same_members};
use states::{CAPACITY, StateSet};

// The place of a table that was mentioned, and how many tables there are then. More than 16 are counted, but not kept.
#[derive(Clone, Copy)]
pub(crate) struct Mention {
    pub place: usize,
    pub count: usize,
}

// The places of an R, a G and a Q that were mentioned, and how many relations there are then.
#[derive(Clone, Copy)]
pub(crate) struct Three {
    pub r: usize,
    pub g: usize,
    pub q: usize,
    pub count: usize,
}

// Whether set i of the pool is a set.
fn is_set(n: u32, pool: &[u64], i: u32, set: StateSet) -> bool
    ensures { result ≡ eqb (set_where n (word_set n pool.now i)) (set_where n (has set)) }
{
    same_set(n, set_at(n, pool, i), set)
}

// The place of a set among the first `count`; `count` if it is not there.
fn place_of_set(n: u32, pool: &[u64], count: usize, set: StateSet) -> usize
    requires { count ≤ most_tables }
    ensures { result ≡ place_in (sets_held n pool.now count) (set_where n (has set)) }
{
    (0..count)
        .find(|i| is_set(n, pool, *i as u32, set))
        .unwrap_or(count)
}

// A mention of a set.
pub(crate) fn mention_set(n: u32, pool: &mut [u64], count: usize, set: StateSet) -> Mention
    requires { (count ≤ most_tables) × (set_words * most_tables ≤ length pool.old) }
    ensures { Mentioned (sets_held n pool.old count) (sets_held n pool.new result.count) (set_where n (has set)) result }
{
    let place = place_of_set(n, &pool[..], count, set);
    if place < count {
        return Mention { place, count };
    }
    let more = Mention {
        place,
        count: count + 1,
    };
    if count == MOST_TABLES {
        return more;
    }
    put_entry(pool, count, set);
    more
}

// The mentions of the first `tables` sets of other words. The new name of a set is its place.
pub(crate) fn mention_sets(
    n: u32,
    pool: &mut [u64],
    count: usize,
    words: &[u64],
    tables: usize,
    names: &mut [u64],
) -> usize
    requires { (set_words * most_tables ≤ length pool.old) × (tables ≤ length names.old) × (tables ≤ most_tables) }
    ensures { (seen : List ℕ) → Kept (sets_held n pool.old count) count seen
        → Merged seen (sets_held n words.now tables) (sets_held n pool.new result) result names.new }
{
    if count > MOST_TABLES {
        return count;
    }
    let mut total = count;
    for i in 0..tables {
        let found = mention_set(n, pool, total, set_at(n, words, i as u32));
        if found.count > MOST_TABLES {
            return found.count;
        }
        names[i] = found.place as u64;
        total = found.count;
    }
    total
}

// Whether relation i of the pool has some rows.
fn is_relation(n: u32, pool: &[u64], i: u32, rows: &[u64]) -> bool
    ensures { result ≡ eqb (relation_where n (word_relation n pool.now i)) (relation_where n (rel n rows.now)) }
{
    same_members(n, rows_of(pool, i), rows)
}

// The place of a relation among the first `count`; `count` if it is not there.
fn place_of_relation(n: u32, pool: &[u64], count: usize, rows: &[u64]) -> usize
    requires { count ≤ most_tables }
    ensures { result ≡ place_in (relations_held n pool.now count) (relation_where n (rel n rows.now)) }
{
    (0..count)
        .find(|i| is_relation(n, pool, *i as u32, rows))
        .unwrap_or(count)
}

// Stores the rows of a relation as relation `index`.
fn store_relation(n: u32, pool: &mut [u64], index: usize, rows: &[u64])
    requires { (n ≤ capacity) × (index < most_tables) × (work_words ≤ length pool.old) }
    ensures { RelationStored n pool.old index (rel n rows.now) pool.new }
{
    let first = MOST_TABLES + CAPACITY as usize * index;
    for s in 0..n {
        put_entry(pool, first + s as usize, row(n, rows, s));
    }
}

// A mention of a relation.
pub(crate) fn mention_relation(n: u32, pool: &mut [u64], count: usize, rows: &[u64]) -> Mention
    requires { (n ≤ capacity) × (work_words ≤ length pool.old) }
    ensures { (seen : List ℕ) → Kept (relations_held n pool.old count) count seen
        → Mentioned seen (relations_held n pool.new result.count) (relation_where n (rel n rows.now)) result }
{
    if count > MOST_TABLES {
        return Mention { place: 0, count };
    }
    let place = place_of_relation(n, &pool[..], count, rows);
    if place < count {
        return Mention { place, count };
    }
    let more = Mention {
        place,
        count: count + 1,
    };
    if count == MOST_TABLES {
        return more;
    }
    store_relation(n, pool, count, rows);
    more
}

// The mentions of an R, a G and a Q.
pub(crate) fn mention_three(
    n: u32,
    pool: &mut [u64],
    count: usize,
    r: &[u64],
    g: &[u64],
    q: &[u64],
) -> Three
    requires { (n ≤ capacity) × (work_words ≤ length pool.old) }
    ensures { (seen : List ℕ) → Kept (relations_held n pool.old count) count seen
        → ThreeMentioned seen (relations_held n pool.new result.count) (relation_where n (rel n r.now))
        (relation_where n (rel n g.now)) (relation_where n (rel n q.now)) result }
{
    let first = mention_relation(n, pool, count, r);
    let second = mention_relation(n, pool, first.count, g);
    let third = mention_relation(n, pool, second.count, q);
    Three {
        r: first.place,
        g: second.place,
        q: third.place,
        count: third.count,
    }
}

// The mentions of the first `tables` relations of other words. The new name of a relation is its place.
pub(crate) fn mention_relations(
    n: u32,
    pool: &mut [u64],
    count: usize,
    words: &[u64],
    tables: usize,
    names: &mut [u64],
) -> usize
    requires { (n ≤ capacity) × (work_words ≤ length pool.old) × (tables ≤ length names.old) × (tables ≤ most_tables) }
    ensures { (seen : List ℕ) → Kept (relations_held n pool.old count) count seen
        → Merged seen (relations_held n words.now tables) (relations_held n pool.new result) result names.new }
{
    if count > MOST_TABLES {
        return count;
    }
    let mut total = count;
    for i in 0..tables {
        let found = mention_relation(n, pool, total, rows_of(words, i as u32));
        if found.count > MOST_TABLES {
            return found.count;
        }
        names[i] = found.place as u64;
        total = found.count;
    }
    total
}
