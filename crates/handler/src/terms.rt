// The expressions of a handler as a table of their nodes in file order, one word for each.
ghost use Rattle.std.specs.Prelude.{◌≡◌, set};
ghost use Rattle.handler.specs.Terms.{term_word, term_in};
ghost use Rattle.handler.specs.Refinement.{TermFits};

use crate::MOST_STATEMENTS;
use crate::expressions::MOST_EXPR_NODES;

// A handler has at most 63 expressions of at most 31 nodes.
pub const MOST_TERMS: usize = MOST_STATEMENTS * MOST_EXPR_NODES as usize;

// The tags, as in the file.
pub const INTEGER: u32 = 0;

pub const TRUTH: u32 = 1;

pub const VARIABLE: u32 = 2;

pub const OPERATION: u32 = 3;

// A node of an expression: its tag, what the tag holds (a constant in two's complement of 16 bits, a truth value, a variable or an
// operation's code), and the number of an operation's right operand. Its left operand is the next node.
#[derive(Clone, Copy)]
pub struct Term {
    pub tag: u32,
    pub value: u32,
    pub right: u32,
}

// A node as one word.
fn word_of(term: Term) -> u32
    requires { TermFits term }
    ensures { result ≡ term_word term }
{
    term.tag + 4 * (term.value + 65536 * term.right)
}

// Stores a node as number i of a table; past the end of the table nothing is stored.
pub(crate) fn store_term(table: &mut [u32], i: u32, term: Term)
    requires { TermFits term }
    ensures { table.new ≡ set table.old i (term_word term) }
{
    if (i as usize) < table.len() {
        table[i as usize] = word_of(term);
    }
}

// Node i of a table. Past the end the word is 0.
pub fn term_at(table: &[u32], i: usize) -> Term
    ensures { result ≡ term_in table.now i }
{
    let word = table.get(i).copied().unwrap_or(0);
    Term {
        tag: word % 4,
        value: word / 4 % 65536,
        right: word / 262144,
    }
}
