// The nodes of the proof file, by their first bits: the head of one, and where the derivation at it ends.
ghost use Rattle.std.specs.Prelude.{◌≡◌, ◌&&◌, ℕ, ◌+◌, ◌*◌, ◌^◌, ◌≤◌, ◌<◌, ltb, set};
ghost use Rattle.std.proofs.lemmas.List.Edits.{sets as stored};
ghost use Rattle.semantics.specs.Derivations.{Derivation};
ghost use Rattle.derivation.specs.Tables.{most_tables};
ghost use Rattle.derivation.specs.Nodes.{HeadRead, named_table, on_named, loop_head, names_head, node_head, whole, node_at, whole_node, end_of};
ghost use Rattle.derivation.specs.NodeTable.{node_word, node_words};
ghost use Rattle.derivation.specs.Storing.{Fits, record_of};

use super::codes::{NO_TABLE, PROOF_MISSING, TOO_MANY_NODES, UNUSED_RULE};
use super::table::node_word;
use super::{IF, MOST_LEVELS, MOST_NODES, Node, NodeEnd, NodeHead, SEQUENCE, TablesHead, WHILE};
use bits::FileFault;
use semantics::Names;

// The code that is no rule.
const NO_RULE: u64 = 7;

// The bits of a node's rule, of a table that it names, and of P, R, G and Q together.
const RULE_BITS: usize = 3;

const NAME_BITS: usize = 4;

const FOUR_NAMES_BITS: usize = 4 * NAME_BITS;

// The table named at a bit, below its limit, and the bit after the name. The promise is over whatever is read after it.
fn name_at(src: &[u8], limit: u32, at: usize) -> Result<(u32, usize), FileFault>
    ensures { (f : ℕ → ℕ → HeadRead) → named_table src.now limit at (λ i. f i (at + 4)) ≡ on_named result f }
{
    let (i, next) = bits::read_or(src, at, NAME_BITS, PROOF_MISSING)?;
    if i >= limit as u64 {
        return Err(FileFault {
            number: NO_TABLE,
            bit: at,
        });
    }
    Ok((i as u32, next))
}

// K and W of a while, which are 0 at any other rule.
fn loop_head(
    src: &[u8],
    tables: TablesHead,
    rule: u32,
    names: Names,
    at: usize,
) -> Result<NodeHead, FileFault>
    ensures { result ≡ loop_head src.now tables.sets tables.relations rule names at }
{
    if rule != WHILE {
        return Ok(NodeHead {
            rule,
            names,
            k: 0,
            w: 0,
            next: at,
        });
    }
    let (k, after_k) = name_at(src, tables.sets, at)?;
    let (w, next) = name_at(src, tables.relations, after_k)?;
    Ok(NodeHead {
        rule,
        names,
        k,
        w,
        next,
    })
}

// The tables that a node of a rule names, from the bit after its rule, name by name: so that the first fault is met first.
fn names_in_turn(
    src: &[u8],
    tables: TablesHead,
    rule: u32,
    at: usize,
) -> Result<NodeHead, FileFault>
    ensures { result ≡ names_head src.now tables.sets tables.relations rule at }
{
    let (p, after_p) = name_at(src, tables.sets, at)?;
    let (r, after_r) = name_at(src, tables.relations, after_p)?;
    let (g, after_g) = name_at(src, tables.relations, after_r)?;
    let (q, next) = name_at(src, tables.relations, after_g)?;
    loop_head(src, tables, rule, Names { p, r, g, q }, next)
}

// Whether there are such tables.
fn all_there(tables: TablesHead, names: Names) -> bool
    ensures { result ≡ (ltb names.p tables.sets && ltb names.r tables.relations && ltb names.g tables.relations && ltb names.q tables.relations) }
{
    (names.p < tables.sets)
        & (names.r < tables.relations)
        & (names.g < tables.relations)
        & (names.q < tables.relations)
}

// The same tables, read at once where they are all there: four names of 4 bits, the first the highest.
fn names_head(src: &[u8], tables: TablesHead, rule: u32, at: usize) -> Result<NodeHead, FileFault>
    ensures { result ≡ names_head src.now tables.sets tables.relations rule at }
{
    let Some((four, next)) = bits::read(src, at, FOUR_NAMES_BITS) else {
        return names_in_turn(src, tables, rule, at);
    };
    let names = Names {
        p: (four / 4096 % 16) as u32,
        r: (four / 256 % 16) as u32,
        g: (four / 16 % 16) as u32,
        q: (four % 16) as u32,
    };
    if all_there(tables, names) {
        return loop_head(src, tables, rule, names, next);
    }
    names_in_turn(src, tables, rule, at)
}

// The head of a node with `before` nodes before it, where `below` levels are left below it.
#[tactic(auto, using(crate::proofs::Heads::passed_on), unfolding(crate::specs::Nodes::node_head, crate::specs::Nodes::rule_head))]
fn node_head_at(
    src: &[u8],
    tables: TablesHead,
    below: u32,
    before: u32,
    at: usize,
) -> Result<NodeHead, FileFault>
    ensures { result ≡ node_head src.now tables.sets tables.relations below before at }
{
    let (rule, next) = bits::read_or(src, at, RULE_BITS, PROOF_MISSING)?;
    if below == 0 || before >= MOST_NODES as u32 {
        return Err(FileFault {
            number: TOO_MANY_NODES,
            bit: at,
        });
    }
    if rule == NO_RULE {
        return Err(FileFault {
            number: UNUSED_RULE,
            bit: at,
        });
    }
    names_head(src, tables, rule as u32, next)
}

// Whether a rule has no child: skip and assignment.
fn has_no_child(rule: u32) -> bool
    ensures { result ≡ ltb rule 2 }
{
    rule < SEQUENCE
}

// Whether a rule that has a child has two: sequence and parallel.
fn has_two_children(rule: u32) -> bool
    ensures { result ≡ ltb rule 4 }
{
    rule < IF
}

// Stores node i, which begins at a bit, with the number of the node after its first child.
fn store_node(table: &mut [u64; MOST_NODES], i: u32, head: NodeHead, after: u32, bit: usize)
    requires { (i < 127) × Fits (record_of head after bit) × (bit < 2 ^ 30) }
    ensures { table.new ≡ set table.old i (node_word (record_of head after bit)) }
{
    table[i as usize] = node_word(Node {
        rule: head.rule,
        names: head.names,
        k: head.k,
        w: head.w,
        after,
        bit,
    });
}

// Where the derivation at a node ends, that of its children first; its nodes go into the table, each as soon as it is known
// where its first child ends.
fn node_walk(
    src: &[u8],
    tables: TablesHead,
    levels: u32,
    before: u32,
    at: usize,
    table: &mut [u64; MOST_NODES],
) -> Result<NodeEnd, FileFault>
    requires { (tables.sets ≤ most_tables) × (tables.relations ≤ most_tables) × (at ≤ 2 ^ 20 + 27 * before) }
    ensures ends { result ≡ end_of (node_at levels src.now tables.sets tables.relations before at) }
    ensures filled { (d : Derivation) (after next : ℕ) → node_at levels src.now tables.sets tables.relations before at ≡ whole d after next
        → table.new ≡ stored table.old before (node_words before at d) }
{
    if levels == 0 {
        return Err(FileFault {
            number: TOO_MANY_NODES,
            bit: at,
        });
    }
    let below = levels - 1;
    let head = node_head_at(src, tables, below, before, at)?;
    let first = before + 1;
    if has_no_child(head.rule) {
        store_node(table, before, head, first, at);
        return Ok(NodeEnd {
            nodes: first,
            levels: 1,
            next: head.next,
        });
    }
    let child = node_walk(src, tables, below, first, head.next, table)?;
    store_node(table, before, head, child.nodes, at);
    if !has_two_children(head.rule) {
        return Ok(NodeEnd {
            levels: child.levels + 1,
            ..child
        });
    }
    let second = node_walk(src, tables, below, child.nodes, child.next, table)?;
    Ok(NodeEnd {
        levels: child.levels.max(second.levels) + 1,
        ..second
    })
}

// Where the derivation at a root node ends; its nodes go into the table.
#[tactic(auto, unfolding(crate::specs::Nodes::whole_node))]
pub(crate) fn read_nodes(
    src: &[u8],
    tables: TablesHead,
    table: &mut [u64; MOST_NODES],
) -> Result<NodeEnd, FileFault>
    requires { (tables.sets ≤ most_tables) × (tables.relations ≤ most_tables) × (tables.root ≤ 2 ^ 20) }
    ensures ends { result ≡ end_of (whole_node src.now tables.sets tables.relations tables.root) }
    ensures filled { (d : Derivation) (after next : ℕ) → whole_node src.now tables.sets tables.relations tables.root ≡ whole d after next
        → table.new ≡ stored table.old 0 (node_words 0 tables.root d) }
{
    node_walk(src, tables, MOST_LEVELS + 1, 0, tables.root, table)
}
