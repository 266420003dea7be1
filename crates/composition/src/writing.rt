// What the composition writes. Into the proof file: the tables that words hold, sets of n bits, state 0 first, and relations of n rows of n
// bits. The whole handler file: the parallel of two statements.
ghost use Rattle.std.specs.Prelude.{◌≡◌, ◌∷◌, ◌++◌, map, ◌+◌, ◌-◌, ◌*◌, ◌^◌, ◌≤◌, ◌<◌, length};
ghost use Rattle.states.specs.Sets.{capacity};
ghost use Rattle.rules.specs.Words.{word_relation};
ghost use Rattle.derivation.specs.Tables.{most_tables};
ghost use Rattle.pair.specs.Limits.{most_handler_bytes};
ghost use Rattle.writer.specs.Writing.{put_bits};
ghost use Rattle.writer.specs.Packing.{part, put_parts, bytes_for, packed};
ghost use Rattle.form.specs.Members.{relation_where};
ghost use Rattle.canonical.specs.Refinement.{Room};
ghost use Rattle.joint.specs.Joining.{handler_parts};
ghost use Rattle.joint.specs.Composing.{at_front};
ghost use Rattle.composition.specs.Refinement.{sets_held, relations_held};

use handler::PARALLEL;
use rules::tables::{row_at, set_at};
use writer::sets::put_set;
use writer::{clear, copy, put};

// The bits of the two counts, before the first set.
const HEAD_BITS: usize = 10;

// The bits that say which statement it is.
const CODE_BITS: usize = 3;

// Writes the first `count` sets of words.
fn write_sets(n: u32, words: &[u64], count: usize, out: &mut [u8], at: usize)
    requires { (1 ≤ n) × (n ≤ capacity) × (count ≤ most_tables) × Room out.old at (n * count) }
    ensures { out.new ≡ put_parts out.old at (map (part n) (sets_held n words.now count)) }
{
    let width = n as usize;
    for i in 0..count {
        let set = set_at(n, words, i as u32);
        put_set(out, at + width * i, n, set);
    }
}

// Writes the rows of relation r of words.
fn write_relation(n: u32, words: &[u64], r: u32, out: &mut [u8], at: usize)
    requires { (1 ≤ n) × (n ≤ capacity) × Room out.old at (n * n) }
    ensures { out.new ≡ put_bits out.old at (n * n) (relation_where n (word_relation n words.now r)) }
{
    let width = n as usize;
    for s in 0..n {
        let row = row_at(n, words, r, s);
        put_set(out, at + width * s as usize, n, row);
    }
}

// Writes the first `count` relations of words.
fn write_relations(n: u32, words: &[u64], count: usize, out: &mut [u8], at: usize)
    requires { (1 ≤ n) × (n ≤ capacity) × (count ≤ most_tables) × Room out.old at (n * n * count) }
    ensures { out.new ≡ put_parts out.old at (map (part (n * n)) (relations_held n words.now count)) }
{
    let width = n as usize * n as usize;
    for r in 0..count {
        write_relation(n, words, r as u32, out, at + width * r);
    }
}

// Writes a proof file up to its root: the counts, the first k sets of some words, and the first m relations of others.
pub(crate) fn write_tables(
    n: u32,
    sets: &[u64],
    k: usize,
    relations: &[u64],
    m: usize,
    out: &mut [u8],
)
    requires { (1 ≤ n) × (n ≤ capacity) × (k ≤ most_tables) × (m ≤ most_tables) × Room out.old 0 (10 + n * k + n * n * m) }
    ensures { out.new ≡ put_parts out.old 0 (part 5 k ∷ part 5 m
        ∷ (map (part n) (sets_held n sets.now k) ++ map (part (n * n)) (relations_held n relations.now m))) }
{
    let relations_from = HEAD_BITS + n as usize * k;
    put(out, 0, HEAD_BITS, k as u64 * 32 + m as u64);
    write_sets(n, sets, k, out, HEAD_BITS);
    write_relations(n, relations, m, out, relations_from);
}

// How many bytes so many bits take.
pub(crate) fn file_bytes(bits: usize) -> usize
    requires { bits < 2 ^ 63 }
    ensures { result ≡ bytes_for bits }
{
    (bits + 7) / 8
}

// Writes a handler file: the head of the first, whose statement has the bits from `at` to `end`, and the parallel of that statement with
// the one that the second file has from `from` to `to`.
pub(crate) fn write_handler(
    first: &[u8],
    at: usize,
    end: usize,
    second: &[u8],
    from: usize,
    to: usize,
    out: &mut [u8],
)
    requires { (at ≤ end) × (end ≤ 8 * most_handler_bytes) × (from ≤ to) × (to ≤ 8 * most_handler_bytes)
        × (bytes_for (at + 3 + (end - at) + (to - from)) ≤ length out.old) }
    ensures { out.new ≡ at_front (packed (handler_parts first.now at (end - at) second.now from (to - from)))
        out.old }
{
    let width = end - at;
    let second_width = to - from;
    let second_at = at + CODE_BITS + width;
    clear(out, file_bytes(second_at + second_width));
    copy(first, 0, out, 0, at);
    put(out, at, CODE_BITS, PARALLEL as u64);
    copy(first, at, out, at + CODE_BITS, width);
    copy(second, from, out, second_at, second_width);
}
