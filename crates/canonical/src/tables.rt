// Which tables of a proof file have equal members. Each table is read once for a mix of its words, and two tables are compared, a word at a
// time, only if their mixes are equal.
ghost use Rattle.std.specs.Prelude.{◌≡◌, ◌+◌, ◌*◌, ◌≤◌, ◌<◌, ◌^◌, eqb};
ghost use Rattle.bits.specs.Fields.{bits_at};
ghost use Rattle.states.specs.Sets.{capacity};
ghost use Rattle.derivation.specs.Tables.{most_tables};
ghost use Rattle.canonical.specs.Refinement.{set_run, relation_run, members_in, Within, Least, Leasts, mix_with, mix_at, Mixes};

use super::Run;
use derivation::MOST_TABLES;

// How many bits are compared or mixed at once.
const WORD: usize = 64;

// The counts at the head of a proof file take so many bits; its sets come after them, and then its relations.
pub(crate) const HEAD_BITS: usize = 10;

// The sets of a proof file over n states.
pub(crate) fn set_run(n: usize) -> Run
    ensures { result ≡ set_run n }
{
    Run {
        from: HEAD_BITS,
        width: n,
    }
}

// The relations of a proof file over n states with so many sets.
pub(crate) fn relation_run(n: usize, sets: usize) -> Run
    requires { (n ≤ capacity) × (sets ≤ most_tables) }
    ensures { result ≡ relation_run n sets }
{
    Run {
        from: HEAD_BITS + n * sets,
        width: n * n,
    }
}

// Whether the `width` bits from two cursors on are the same.
fn same_bits(src: &[u8], a: usize, b: usize, width: usize) -> bool
    requires { (a ≤ 2 ^ 21) × (b ≤ 2 ^ 21) × (width ≤ capacity * capacity) }
    ensures { result ≡ eqb (bits_at src.now a width) (bits_at src.now b width) }
{
    let mut done = 0;
    while width - done > WORD {
        if bits::number_at(src, a + done, WORD) != bits::number_at(src, b + done, WORD) {
            return false;
        }
        done += WORD;
    }
    let left = width - done;
    bits::number_at(src, a + done, left) == bits::number_at(src, b + done, left)
}

// The first bit of table i of a run.
pub(crate) fn table_cursor(run: Run, i: usize) -> usize
    requires { Within run × (i < most_tables) }
    ensures { (result ≡ run.from + run.width * i) × (result ≤ 2 ^ 21) }
{
    run.from + run.width * i
}

// A mix with one more word. The rotation keeps shifted rows apart: 5 is odd, so each of 64 words is rotated by another number of places.
fn mixed(mix: u64, word: u64) -> u64
    ensures { result ≡ mix_with mix word }
{
    ((mix << 5) | (mix >> 59)) ^ word
}

// The mix of the `width` bits from a cursor on: whole words first, then the bits that are left.
fn mix_of(src: &[u8], at: usize, width: usize) -> u64
    requires { (at ≤ 2 ^ 21) × (width ≤ capacity * capacity) }
    ensures { result ≡ mix_at src.now at width }
{
    let words = width / WORD;
    let mut mix = 0;
    for k in 0..words {
        mix = mixed(mix, bits::number_at(src, at + WORD * k, WORD));
    }
    mixed(mix, bits::number_at(src, at + WORD * words, width % WORD))
}

// Whether table j of a run has the members of a later table i. Tables with different mixes have different members.
fn same_tables(src: &[u8], run: Run, mixes: &[u64; MOST_TABLES], i: usize, j: usize) -> bool
    requires { Within run × (i < most_tables) × (j < i) × Mixes src.now run (i + 1) mixes.now }
    ensures { result ≡ eqb (members_in src.now run j) (members_in src.now run i) }
{
    if mixes[j] != mixes[i] {
        return false;
    }
    same_bits(src, table_cursor(run, j), table_cursor(run, i), run.width)
}

// The least table of a run with the members of table i.
fn least_equal(src: &[u8], run: Run, mixes: &[u64; MOST_TABLES], i: usize) -> usize
    requires { Within run × (i < most_tables) × Mixes src.now run (i + 1) mixes.now }
    ensures { Least (members_in src.now run) i result }
{
    (0..i)
        .find(|j| same_tables(src, run, mixes, i, *j))
        .unwrap_or(i)
}

// The least table with equal members for each of the first `count` tables of a run.
pub(crate) fn representatives(src: &[u8], run: Run, count: usize) -> [u64; MOST_TABLES]
    requires { Within run × (count ≤ most_tables) }
    ensures { Leasts (members_in src.now run) count result }
{
    let mut least = [0u64; MOST_TABLES];
    let mut mixes = [0u64; MOST_TABLES];
    for i in 0..count {
        mixes[i] = mix_of(src, table_cursor(run, i), run.width);
        least[i] = least_equal(src, run, &mixes, i) as u64;
    }
    least
}
