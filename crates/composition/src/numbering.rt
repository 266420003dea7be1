// The numbers of all tables in the result: the root's tables, then those of the left weaken node, of the first form, of the right weaken
// node and of the second form, each by its first mention.
ghost use Rattle.std.specs.Prelude.{List, [], ℕ, ◌*◌, ◌≤◌, length};
ghost use Rattle.states.specs.Sets.{set_words, capacity, has};
ghost use Rattle.states.specs.Relations.{rel};
ghost use Rattle.derivation.specs.Tables.{most_tables, work_words};
ghost use Rattle.rules.specs.Words.{word_relation};
ghost use Rattle.form.specs.Members.{set_where, relation_where};
ghost use Rattle.composition.specs.Refinement.{sets_held, relations_held, Kept, ThreeMentioned, SetsNumbered, SideNumbered, RelationsNumbered};

use crate::forms::Form;
use crate::pool::{Three, mention_relations, mention_set, mention_sets, mention_three};
use crate::tables::Roots;
use derivation::MOST_TABLES;
use rules::tables::rows_of;
use semantics::Names;
use states::{RELATION_WORDS, StateSet};

// How many sets the result has, and the numbers of those of both forms.
#[derive(Clone, Copy)]
pub(crate) struct SetNumbers {
    pub count: usize,
    pub first: [u64; MOST_TABLES],
    pub second: [u64; MOST_TABLES],
}

// The numbers of a weaken node's R, G and Q and of the relations of the form below it, and how many relations there are then.
#[derive(Clone, Copy)]
pub(crate) struct SideNumbers {
    pub node: Three,
    pub names: [u64; MOST_TABLES],
    pub count: usize,
}

// The numbers of the root's R, G and Q, and of both sides.
#[derive(Clone, Copy)]
pub(crate) struct RelationNumbers {
    pub root: Three,
    pub left: SideNumbers,
    pub right: SideNumbers,
}

// The sets: P is the first, and all three new nodes name it.
pub(crate) fn number_sets(
    n: u32,
    p: StateSet,
    first: &[u64],
    a: usize,
    second: &[u64],
    b: usize,
    pool: &mut [u64],
) -> SetNumbers
    requires { (set_words * most_tables ≤ length pool.old) × (a ≤ most_tables) × (b ≤ most_tables) }
    ensures { SetsNumbered (set_where n (has p)) (sets_held n first.now a) (sets_held n second.now b)
        (sets_held n pool.new result.count) result }
{
    let mut first_names = [0u64; MOST_TABLES];
    let mut second_names = [0u64; MOST_TABLES];
    let one = mention_set(n, pool, 0, p);
    let some = mention_sets(n, pool, one.count, first, a, &mut first_names);
    let count = mention_sets(n, pool, some, second, b, &mut second_names);
    SetNumbers {
        count,
        first: first_names,
        second: second_names,
    }
}

// The mentions of the root's R, G and Q.
fn mention_root(n: u32, pool: &mut [u64], roots: Roots) -> Three
    requires { (n ≤ capacity) × (work_words ≤ length pool.old) }
    ensures { ThreeMentioned [] (relations_held n pool.new result.count) (relation_where n (rel n roots.r)) (relation_where n (rel n roots.g))
        (relation_where n (rel n roots.q)) result }
{
    let r = roots.r;
    let g = roots.g;
    let q = roots.q;
    mention_three(n, pool, 0, &r, &g, &q)
}

// The mentions of a weaken node's R, and of the G and Q of its side.
fn mention_side(
    n: u32,
    pool: &mut [u64],
    count: usize,
    r: &[u64],
    words: &[u64],
    names: Names,
) -> Three
    requires { (n ≤ capacity) × (work_words ≤ length pool.old) }
    ensures { (seen : List ℕ) → Kept (relations_held n pool.old count) count seen
        → ThreeMentioned seen (relations_held n pool.new result.count) (relation_where n (rel n r.now))
        (relation_where n (word_relation n words.now names.g)) (relation_where n (word_relation n words.now names.q)) result }
{
    mention_three(
        n,
        pool,
        count,
        r,
        rows_of(words, names.g),
        rows_of(words, names.q),
    )
}

// The relations of one side.
fn number_side(
    n: u32,
    pool: &mut [u64],
    count: usize,
    r: [u64; RELATION_WORDS],
    words: &[u64],
    form: Form,
) -> SideNumbers
    requires { (n ≤ capacity) × (work_words ≤ length pool.old) × (form.head.relations ≤ most_tables) }
    ensures { (seen : List ℕ) → Kept (relations_held n pool.old count) count seen
        → SideNumbered seen (relation_where n (rel n r)) (relation_where n (word_relation n words.now form.names.g))
        (relation_where n (word_relation n words.now form.names.q)) (relations_held n words.now form.head.relations)
        (relations_held n pool.new result.count) result }
{
    let mut names = [0u64; MOST_TABLES];
    let node = mention_side(n, pool, count, &r, words, form.names);
    let head = form.head;
    let relations = head.relations as usize;
    let count = mention_relations(n, pool, node.count, words, relations, &mut names);
    SideNumbers { node, names, count }
}

// The relations. The G and Q of a weaken node are the side's own.
pub(crate) fn number_relations(
    n: u32,
    roots: Roots,
    first: &[u64],
    a: Form,
    second: &[u64],
    b: Form,
    pool: &mut [u64],
) -> RelationNumbers
    requires { (n ≤ capacity) × (work_words ≤ length pool.old) × (a.head.relations ≤ most_tables) × (b.head.relations ≤ most_tables) }
    ensures { RelationsNumbered (relation_where n (rel n roots.r)) (relation_where n (rel n roots.g)) (relation_where n (rel n roots.q))
        (relation_where n (rel n roots.left)) (relation_where n (word_relation n first.now a.names.g))
        (relation_where n (word_relation n first.now a.names.q)) (relations_held n first.now a.head.relations)
        (relation_where n (rel n roots.right)) (relation_where n (word_relation n second.now b.names.g))
        (relation_where n (word_relation n second.now b.names.q)) (relations_held n second.now b.head.relations)
        (relations_held n pool.new result.right.count) result }
{
    let root = mention_root(n, pool, roots);
    let left_r = roots.left;
    let left = number_side(n, pool, root.count, left_r, first, a);
    let right_r = roots.right;
    let right = number_side(n, pool, left.count, right_r, second, b);
    RelationNumbers { root, left, right }
}
