// Expressions: reading a node, and the summary of a whole expression.
ghost use Rattle.std.specs.Prelude.{cond, ◌≡◌, ◌+◌, ◌≤◌, ◌<◌, Option, Some, Ok};
ghost use Rattle.std.specs.Int.Signed.{mag};
ghost use Rattle.bits.specs.Fields.{field_or};
ghost use Rattle.semantics.specs.Language.{same_kind};
ghost use Rattle.handler.specs.Expressions.{signed, integer_head, truth_head, variable_head, operation_head, payload_head, expr_head, bad, on_expr_head, expr_at, whole_expr};
ghost use Rattle.handler.specs.Shapes.{expr_shape};
ghost use Rattle.handler.specs.Terms.{bits16, TermsStored};
ghost use Rattle.handler.specs.Refinement.{TermFits, HeadFits, leaf_term};

use crate::codes::{MISSING, NO_VARIABLE, TOO_MANY, UNUSED};
use crate::terms;
use crate::terms::{Term, store_term};
use bits::FileFault;
use semantics::Kind;

// An expression has at most 31 nodes. One level more than that is read.
pub const MOST_EXPR_NODES: u32 = 31;

const EXPR_LEVELS: u32 = MOST_EXPR_NODES + 1;

// The widths in bits of a node's tag and of what follows each tag.
const TAG_BITS: usize = 2;

const INTEGER_BITS: usize = 8;

const TRUTH_BITS: usize = 1;

const VARIABLE_BITS: usize = 2;

const OPERATION_BITS: usize = 3;

// The tags. Tag 3, the last one, is an operation.
const INTEGER: u64 = 0;

const TRUTH: u64 = 1;

const VARIABLE: u64 = 2;

// The unused operation.
const NO_OPERATION: u64 = 7;

// What an expression's first bits hold: a constant, a variable or an operation, with the cursor after it.
#[derive(Clone, Copy)]
pub enum ExprHead {
    Integer(i64, usize),
    Truth(bool, usize),
    Variable(u32, usize),
    Operation(u32, usize),
}

// A summary of a whole expression: its kind error, which is the first bit of the first node whose result is not of the wanted kind, its
// E, the number of nodes so far and the cursor after it.
#[derive(Clone, Copy)]
pub struct ExprSummary {
    pub error: Option<usize>,
    pub e: u32,
    pub nodes: u32,
    pub next: usize,
}

// The value of 8 bits in two's complement.
#[tactic(auto, unfolding(crate::specs::Expressions::signed))]
fn signed_of(n: u64) -> i64
    requires { n < 256 }
    ensures { result ≡ signed n }
{
    (n as u8).cast_signed() as i64
}

// Reads an integer constant: 8 bits.
#[tactic(auto, using(crate::proofs::Heads::there_or), unfolding(crate::specs::Expressions::integer_head))]
fn integer_at(src: &[u8], at: usize) -> Result<ExprHead, FileFault>
    ensures { result ≡ integer_head (field_or src.now at 8 10) }
{
    let (n, next) = bits::read_or(src, at, INTEGER_BITS, MISSING)?;
    Ok(ExprHead::Integer(signed_of(n), next))
}

// Reads a truth constant: 1 bit.
#[tactic(auto, unfolding(crate::specs::Expressions::truth_head))]
fn truth_at(src: &[u8], at: usize) -> Result<ExprHead, FileFault>
    ensures { result ≡ truth_head (field_or src.now at 1 10) }
{
    let (n, next) = bits::read_or(src, at, TRUTH_BITS, MISSING)?;
    Ok(ExprHead::Truth(n == 1, next))
}

// Reads a variable: 2 bits.
#[tactic(auto, using(crate::proofs::Heads::there_or), unfolding(crate::specs::Expressions::variable_head))]
fn variable_at(src: &[u8], count: u32, at: usize) -> Result<ExprHead, FileFault>
    ensures { result ≡ variable_head count at (field_or src.now at 2 10) }
{
    let (v, next) = bits::read_or(src, at, VARIABLE_BITS, MISSING)?;
    if v < count as u64 {
        Ok(ExprHead::Variable(v as u32, next))
    } else {
        Err(FileFault {
            number: NO_VARIABLE,
            bit: at,
        })
    }
}

// Reads an operation: 3 bits.
#[tactic(auto, using(crate::proofs::Heads::there_or), unfolding(crate::specs::Expressions::operation_head))]
fn operation_at(src: &[u8], at: usize) -> Result<ExprHead, FileFault>
    ensures { result ≡ operation_head at (field_or src.now at 3 10) }
{
    let (o, next) = bits::read_or(src, at, OPERATION_BITS, MISSING)?;
    if o == NO_OPERATION {
        return Err(FileFault {
            number: UNUSED,
            bit: at,
        });
    }
    Ok(ExprHead::Operation(o as u32, next))
}

// Reads what follows a node's tag, at the cursor after the tag.
#[tactic(auto, unfolding(crate::specs::Expressions::payload_head))]
fn payload_at(src: &[u8], count: u32, at: usize, tag: u64) -> Result<ExprHead, FileFault>
    ensures { result ≡ payload_head src.now count at tag }
{
    match tag {
        INTEGER => integer_at(src, at),
        TRUTH => truth_at(src, at),
        VARIABLE => variable_at(src, count, at),
        _ => operation_at(src, at),
    }
}

// Reads the head of the node at a cursor, with `nodes` nodes of its expression before it.
#[tactic(auto, unfolding(crate::specs::Expressions::expr_head, crate::specs::Expressions::tag_head))]
pub(crate) fn expr_head_at(
    src: &[u8],
    count: u32,
    nodes: u32,
    at: usize,
) -> Result<ExprHead, FileFault>
    ensures { result ≡ expr_head src.now count nodes at }
{
    let (tag, next) = bits::read_or(src, at, TAG_BITS, MISSING)?;
    if nodes >= MOST_EXPR_NODES {
        return Err(FileFault {
            number: TOO_MANY,
            bit: at,
        });
    }
    payload_at(src, count, next, tag)
}

// The kind error of the node at `at`: its own if its result is not of the wanted kind, otherwise that of its operands.
fn wanted_of(res: Kind, wanted: Kind, at: usize, below: Option<usize>) -> Option<usize>
    ensures { result ≡ cond (same_kind res wanted) below (Some at) }
{
    if res == wanted { below } else { Some(at) }
}

// An integer as 16 bits in two's complement: the remainder, from 0 up, by 65,536.
#[tactic(auto, unfolding(crate::specs::Terms::bits16))]
fn bits_of(z: i64) -> u32
    requires { mag z < 32768 }
    ensures { result ≡ bits16 z }
{
    (z as i16).cast_unsigned() as u32
}

// The node of the table for a node without operands, from its head. That of an operation is not made here.
fn leaf_term(head: ExprHead) -> Term
    requires { HeadFits head }
    ensures { (result ≡ leaf_term head) × TermFits result }
{
    match head {
        ExprHead::Integer(z, _) => Term {
            tag: terms::INTEGER,
            value: bits_of(z),
            right: 0,
        },
        ExprHead::Truth(b, _) => Term {
            tag: terms::TRUTH,
            value: b as u32,
            right: 0,
        },
        ExprHead::Variable(v, _) => Term {
            tag: terms::VARIABLE,
            value: v,
            right: 0,
        },
        ExprHead::Operation(_, _) => Term {
            tag: 0,
            value: 0,
            right: 0,
        },
    }
}

// The summary of a node without operands, from its head. The operands of an operation are not read here.
fn leaf_of(head: ExprHead, wanted: Kind, nodes: u32, at: usize) -> Result<ExprSummary, FileFault>
    requires { nodes ≤ 31 }
    ensures { result ≡ expr_shape wanted at (on_expr_head (Ok head) nodes (λ _ place. bad 14 place)) }
{
    let (kind, e, next) = match head {
        ExprHead::Integer(_, next) => (Kind::Integer, 0, next),
        ExprHead::Truth(_, next) => (Kind::Truth, 0, next),
        ExprHead::Variable(_, next) => (Kind::Integer, 1, next),
        ExprHead::Operation(_, next) => return Err(FileFault {
            number: UNUSED,
            bit: next,
        }),
    };
    Ok(ExprSummary {
        error: wanted_of(kind, wanted, at, None),
        e,
        nodes: nodes + 1,
        next,
    })
}

// The summary of the expression at a cursor, with `levels` levels to read. Its nodes are stored in the table: the expression's first
// node as number `base`, and `nodes` of its nodes are stored before. An operation that was read always has a row.
fn expr_walk(
    src: &[u8],
    table: &mut [u32],
    count: u32,
    wanted: Kind,
    levels: u32,
    base: u32,
    nodes: u32,
    at: usize,
) -> Result<ExprSummary, FileFault>
    requires { (nodes ≤ 31) × (base ≤ 1953) }
    ensures value { result ≡ expr_shape wanted at (expr_at levels src.now count nodes at) }
    ensures terms_stored { TermsStored table.old table.new (base + nodes) (expr_at levels src.now count nodes at) }
{
    if levels == 0 {
        return Err(FileFault {
            number: TOO_MANY,
            bit: at,
        });
    }
    let head = expr_head_at(src, count, nodes, at)?;
    let ExprHead::Operation(o, next) = head else {
        store_term(table, base + nodes, leaf_term(head));
        return leaf_of(head, wanted, nodes, at);
    };
    let (a, b, result) = semantics::row_of(o as usize).ok_or(FileFault {
        number: UNUSED,
        bit: at,
    })?;
    let below = levels - 1;
    let left = expr_walk(src, table, count, a, below, base, nodes + 1, next)?;
    let term = Term {
        tag: terms::OPERATION,
        value: o,
        right: base + left.nodes,
    };
    store_term(table, base + nodes, term);
    let right = expr_walk(src, table, count, b, below, base, left.nodes, left.next)?;
    Ok(ExprSummary {
        error: wanted_of(result, wanted, at, left.error.or(right.error)),
        e: left.e + right.e + 1,
        nodes: right.nodes,
        next: right.next,
    })
}

// The summary of the whole expression at a cursor. Its nodes are stored in the table from number `base` on.
pub(crate) fn expr_shape(
    src: &[u8],
    table: &mut [u32],
    count: u32,
    wanted: Kind,
    base: u32,
    at: usize,
) -> Result<ExprSummary, FileFault>
    requires { base ≤ 1953 }
    ensures value { result ≡ expr_shape wanted at (whole_expr src.now count at) }
    ensures terms_stored { TermsStored table.old table.new base (whole_expr src.now count at) }
{
    expr_walk(src, table, count, wanted, EXPR_LEVELS, base, 0, at)
}
