// The head of the proof file: its two counts, and whether its sets and relations are there in full.
ghost use Rattle.std.specs.Prelude.{◌≡◌, ◌≤◌};
ghost use Rattle.bits.specs.Fields.{field_or};
ghost use Rattle.states.specs.Sets.{capacity};
ghost use Rattle.derivation.specs.Tables.{most_tables, row_at, tables_there, is_count, relations_read, tables_at};

use super::codes::{PROOF_MISSING, TABLE_COUNT};
use super::{MOST_TABLES, TablesHead};
use bits::FileFault;
use states::CAPACITY;

// The bits of each of the two counts, and of both: the sets begin after these.
const TABLE_COUNT_BITS: usize = 5;

pub(crate) const TABLES_FROM: usize = 2 * TABLE_COUNT_BITS;

// Whether there can be so many sets or relations: 1 to 16.
fn is_count(k: u64) -> bool
    ensures { result ≡ is_count k }
{
    (1..=MOST_TABLES as u64).contains(&k)
}

// The first bit of a relation's row; the root node is where the first relation too many would be.
#[tactic(auto, unfolding(crate::specs::Tables::row_at))]
pub(crate) fn row_cursor(n: usize, sets: usize, relation: usize, state: usize) -> usize
    requires { (n ≤ capacity) × (sets ≤ most_tables) × (relation ≤ most_tables) × (state ≤ capacity) }
    ensures { result ≡ row_at n sets relation state }
{
    TABLES_FROM + n * (sets + n * relation + state)
}

// Whether every set and row is there in full.
fn are_there(src: &[u8], n: u32, sets: u32, relations: u32) -> bool
    requires { (sets ≤ most_tables) × (relations ≤ most_tables) }
    ensures { result ≡ tables_there src.now n sets relations }
{
    if !(1..=CAPACITY).contains(&n) {
        return false;
    }
    let end = row_cursor(n as usize, sets as usize, relations as usize, 0);
    bits::has_bits(src, 0, end)
}

// The number of relations, and then the tables of a file with so many sets.
#[tactic(auto, using(crate::proofs::Heads::passed_on, crate::proofs::Counts::count_range), unfolding(crate::specs::Tables::relations_read))]
fn read_relations(src: &[u8], n: u32, sets: u32) -> Result<TablesHead, FileFault>
    requires { sets ≤ most_tables }
    ensures { result ≡ relations_read src.now n sets (field_or src.now 5 5 20) }
{
    let (count, _) = bits::read_or(src, TABLE_COUNT_BITS, TABLE_COUNT_BITS, PROOF_MISSING)?;
    if !is_count(count) {
        return Err(FileFault {
            number: TABLE_COUNT,
            bit: TABLE_COUNT_BITS,
        });
    }
    let relations = count as u32;
    if !are_there(src, n, sets, relations) {
        return Err(FileFault {
            number: PROOF_MISSING,
            bit: bits::bit_length(src),
        });
    }
    let root = row_cursor(n as usize, sets as usize, relations as usize, 0);
    Ok(TablesHead {
        sets,
        relations,
        root,
    })
}

// The head of a proof file over n states, or its first fault.
#[tactic(auto, using(crate::proofs::Heads::passed_on, crate::proofs::Counts::count_range), unfolding(crate::specs::Tables::tables_at, crate::specs::Tables::sets_read))]
pub fn read_tables(src: &[u8], n: u32) -> Result<TablesHead, FileFault>
    ensures { result ≡ tables_at src.now n }
{
    let (sets, _) = bits::read_or(src, 0, TABLE_COUNT_BITS, PROOF_MISSING)?;
    if !is_count(sets) {
        return Err(FileFault {
            number: TABLE_COUNT,
            bit: 0,
        });
    }
    read_relations(src, n, sets as u32)
}
