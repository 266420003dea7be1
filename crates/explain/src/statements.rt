// The text of the statement at hand. All of it is layout.
use crate::text::{put, put_if, put_number};
use checker::nodes::statement_of;
use derivation::MOST_NODES;
use handler::expressions::MOST_EXPR_NODES;
use handler::table::{Statement, statement_at};
use handler::terms::{INTEGER, TRUTH, VARIABLE, term_at};
use handler::{ASSIGNMENT, IF, MOST_STATEMENTS, NIL, PARALLEL, SEQUENCE};

// An expression has no more levels than nodes.
const LEVELS: u32 = MOST_EXPR_NODES;

fn put_operation(out: &mut [u8], at: usize, o: u32) -> usize {
    match o {
        0 => put(out, at, b" + "),
        1 => put(out, at, b" - "),
        2 => put(out, at, b" < "),
        3 => put(out, at, b" = "),
        4 => put(out, at, b" > "),
        5 => put(out, at, b" and "),
        _ => put(out, at, b" or "),
    }
}

// Puts an integer constant, given by its 16 bits in two's complement.
fn put_integer(out: &mut [u8], at: usize, value: u32) -> usize {
    if value < 32768 {
        return put_number(out, at, value as u64);
    }
    let at = put(out, at, b"-");
    put_number(out, at, (65536 - value % 65536) as u64)
}

fn put_truth(out: &mut [u8], at: usize, b: bool) -> usize {
    if b {
        put(out, at, b"true")
    } else {
        put(out, at, b"false")
    }
}

fn put_variable(out: &mut [u8], at: usize, v: u32) -> usize {
    let at = put(out, at, b"v");
    put_number(out, at, v as u64)
}

// Puts the expression whose first node is number i, and returns where its text ends. An operation is in brackets if they are wanted, and its
// operands are.
fn put_expr(
    exprs: &[u32],
    levels: u32,
    i: usize,
    brackets: bool,
    out: &mut [u8],
    at: usize,
) -> usize {
    if levels == 0 {
        return at;
    }
    let term = term_at(exprs, i);
    match term.tag {
        INTEGER => put_integer(out, at, term.value),
        TRUTH => put_truth(out, at, term.value == 1),
        VARIABLE => put_variable(out, at, term.value),
        _ => {
            let from = put_if(out, at, brackets, b"(");
            let left = i.wrapping_add(1);
            let middle = put_expr(exprs, levels - 1, left, true, out, from);
            let middle = put_operation(out, middle, term.value);
            let end = put_expr(exprs, levels - 1, term.right as usize, true, out, middle);
            put_if(out, end, brackets, b")")
        }
    }
}

// Puts a word, a test and a word, and the number of the body.
fn put_test(
    out: &mut [u8],
    at: usize,
    exprs: &[u32],
    expr: u32,
    word: &[u8],
    then: &[u8],
    body: u64,
) -> usize {
    let at = put(out, at, word);
    let end = put_expr(exprs, LEVELS, expr as usize, true, out, at);
    let at = put(out, end, then);
    put_number(out, at, body)
}

// Puts the numbers of the two parts of a statement.
fn put_parts(out: &mut [u8], at: usize, word: &[u8], first: u64, second: u32) -> usize {
    let at = put(out, at, word);
    let at = put_number(out, at, first);
    let at = put(out, at, b" and ");
    put_number(out, at, second as u64)
}

// Puts the text of statement j; its parts are given by their numbers.
fn put_text(out: &mut [u8], at: usize, exprs: &[u32], j: u32, s: Statement) -> usize {
    let body = j as u64 + 1;
    let expr = s.expr;
    match s.code {
        NIL => put(out, at, b"nil"),
        ASSIGNMENT => {
            let at = put_variable(out, at, s.target);
            let at = put(out, at, b" := ");
            put_expr(exprs, LEVELS, expr as usize, false, out, at)
        }
        SEQUENCE => put_parts(out, at, b"sequence of statements ", body, s.after),
        PARALLEL => put_parts(out, at, b"parallel of statements ", body, s.after),
        IF => put_test(out, at, exprs, expr, b"if ", b" then statement ", body),
        _ => put_test(out, at, exprs, expr, b"while ", b" do statement ", body),
    }
}

// Puts the line of the statement at hand for a node.
pub(crate) fn put_statement(
    out: &mut [u8],
    at: usize,
    exprs: &[u32],
    statements: &[u64; MOST_STATEMENTS],
    nodes: &[u64; MOST_NODES],
    node: u32,
) -> usize {
    let j = statement_of(nodes, node);
    let statement = statement_at(statements, j as usize);
    let at = put(out, at, b"statement ");
    let at = put_number(out, at, j as u64);
    let at = put(out, at, b": ");
    let at = put_text(out, at, exprs, j, statement);
    put(out, at, b"\n")
}
