// The tables by first mention: nodes in file order, and P, R, G, Q, K, W within a node.
ghost use Rattle.std.specs.Prelude.{◌≡◌, [], ◌∷◌, map, ℕ, ◌≤◌, ◌<◌, length, take, get_or};
ghost use Rattle.states.specs.Sets.{capacity};
ghost use Rattle.derivation.specs.Tables.{most_tables};
ghost use Rattle.form.specs.Mentions.{sets_of, relations_of, place_in};
ghost use Rattle.canonical.specs.Nodes.{name_in, held_in};
ghost use Rattle.canonical.specs.Refinement.{set_run, relation_run, members_in, Leasts, Listing, After, Read, Numbers};
ghost use Rattle.semantics.specs.Derivations.{Derivation};
ghost use Rattle.derivation.specs.Reading.{proof, read_proof};

use super::tables::{relation_run, representatives, set_run};
use super::{Counts, Naming, Numbering, Representatives};
use derivation::table::node_at;
use derivation::{MOST_TABLES, Node, ProofHead, WHILE};

// Entry i of a list of names; both are modulo 16, so that no bound is asked.
pub(crate) fn name_in(names: &[u64; MOST_TABLES], i: u32) -> u64
    ensures { result ≡ name_in names.now i }
{
    names[i as usize % MOST_TABLES] % MOST_TABLES as u64
}

// The place of x among the first `count` of a list; `count` if it is not there.
fn place_in(order: &[u64], count: usize, x: u64) -> usize
    requires { count ≤ length order.now }
    ensures { result ≡ place_in (take count order.now) x }
{
    order[..count].iter().position(|y| *y == x).unwrap_or(count)
}

// A mention of x: it is added after the first `count` entries, unless it is among them. The result is how many there are now.
fn mention(order: &mut [u64], count: usize, x: u64) -> usize
    requires { Listing order.old count × (x < most_tables) }
    ensures { After order.old count (x ∷ []) order.new result }
{
    let place = place_in(&order[..], count, x);
    if place < count {
        return count;
    }
    order[count] = x;
    count + 1
}

// The mention of a table by its representative.
fn mention_one(order: &mut [u64], count: usize, reps: &[u64; MOST_TABLES], i: u32) -> usize
    requires { Listing order.old count }
    ensures { After order.old count (name_in reps.now i ∷ []) order.new result }
{
    mention(order, count, name_in(reps, i))
}

// The mentions of two tables.
fn mention_two(order: &mut [u64], count: usize, reps: &[u64; MOST_TABLES], i: u32, j: u32) -> usize
    requires { Listing order.old count }
    ensures { After order.old count (name_in reps.now i ∷ name_in reps.now j ∷ []) order.new result }
{
    let after = mention_one(order, count, reps, i);
    mention_one(order, after, reps, j)
}

// The sets that a node mentions: P, and K of a while.
fn mention_sets(order: &mut [u64], count: usize, reps: &[u64; MOST_TABLES], node: Node) -> usize
    requires { Listing order.old count }
    ensures { After order.old count (map (name_in reps.now) (sets_of node)) order.new result }
{
    let names = node.names;
    if node.rule == WHILE {
        return mention_two(order, count, reps, names.p, node.k);
    }
    mention_one(order, count, reps, names.p)
}

// The relations that a node mentions: R, G, Q, and W of a while. No twin of `mention_sets`: other names are mentioned, and three, not one.
fn mention_relations(
    order: &mut [u64],
    count: usize,
    reps: &[u64; MOST_TABLES],
    node: Node,
) -> usize
    requires { Listing order.old count }
    ensures { After order.old count (map (name_in reps.now) (relations_of node)) order.new result }
{
    let names = node.names;
    let after = mention_two(order, count, reps, names.r, names.g);
    if node.rule == WHILE {
        return mention_two(order, after, reps, names.q, node.w);
    }
    mention_one(order, after, reps, names.q)
}

// The sets and the relations that the first `count` nodes of a table mention, by first mention and by their representatives.
fn mention_nodes(
    nodes: &[u64],
    count: usize,
    reps: Representatives,
    sets: &mut [u64],
    relations: &mut [u64],
) -> Counts
    requires { (count ≤ length nodes.now) × (most_tables ≤ length sets.old) × (most_tables ≤ length relations.old) }
    ensures sets { After sets.old 0 (map (name_in reps.sets) (held_in sets_of (take count nodes.now)))
        sets.new result.sets }
    ensures relations { After relations.old 0 (map (name_in reps.relations) (held_in relations_of (take count nodes.now)))
        relations.new result.relations }
{
    let set_reps = reps.sets;
    let relation_reps = reps.relations;
    let mut set_count = 0;
    let mut relation_count = 0;
    for i in 0..count {
        let node = node_at(nodes, i);
        set_count = mention_sets(sets, set_count, &set_reps, node);
        relation_count = mention_relations(relations, relation_count, &relation_reps, node);
    }
    Counts {
        sets: set_count,
        relations: relation_count,
    }
}

// The number in the form of each table: the place of its representative among those that are mentioned.
fn names_of(order: &[u64], count: usize, reps: &[u64; MOST_TABLES]) -> [u64; MOST_TABLES]
    requires { count ≤ length order.now }
    ensures { (i : ℕ) → i < most_tables → get_or result i 0 ≡ place_in (take count order.now) (name_in reps.now i) }
{
    let mut names = [0u64; MOST_TABLES];
    for i in 0..MOST_TABLES {
        names[i] = place_in(order, count, name_in(reps, i as u32)) as u64;
    }
    names
}

// The representatives of a file's sets and of its relations.
fn representatives_of(src: &[u8], n: usize, head: ProofHead) -> Representatives
    requires { (n ≤ capacity) × (head.sets ≤ most_tables) × (head.relations ≤ most_tables) }
    ensures sets { Leasts (members_in src.now (set_run n)) head.sets result.sets }
    ensures relations { Leasts (members_in src.now (relation_run n head.sets)) head.relations result.relations }
{
    let count = head.sets as usize;
    let sets = representatives(src, set_run(n), count);
    let relations = representatives(src, relation_run(n, count), head.relations as usize);
    Representatives { sets, relations }
}

// The tables of the form, and the number in it of each table of the file.
pub(crate) fn number(src: &[u8], n: usize, head: ProofHead, nodes: &[u64]) -> Numbering
    requires { Read src.now n head nodes.now }
    ensures { (d : Derivation) → read_proof src.now n ≡ proof head.sets head.relations head.root d
        → Numbers src.now n head.sets d result }
{
    let reps = representatives_of(src, n, head);
    let mut sets = [0u64; MOST_TABLES];
    let mut relations = [0u64; MOST_TABLES];
    let counts = mention_nodes(nodes, head.nodes as usize, reps, &mut sets, &mut relations);
    let set_reps = reps.sets;
    let set_names = names_of(&sets, counts.sets, &set_reps);
    let relation_reps = reps.relations;
    let relation_names = names_of(&relations, counts.relations, &relation_reps);
    Numbering {
        sets: Naming {
            count: counts.sets,
            order: sets,
            names: set_names,
        },
        relations: Naming {
            count: counts.relations,
            order: relations,
            names: relation_names,
        },
    }
}
