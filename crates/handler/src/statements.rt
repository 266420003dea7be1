// Statements: reading a statement's head, and the summary of a whole statement.
ghost use Rattle.std.specs.Prelude.{◌≡◌, suc, ◌+◌, ◌*◌, ◌^◌, ◌≤◌, ◌<◌, min, max, length};
ghost use Rattle.bits.specs.Fields.{field_or};
ghost use Rattle.states.specs.Sets.{capacity};
ghost use Rattle.handler.specs.Shapes.{stmt_shape, nil_of, assigned_of, pair_of, test_steps, tested_of};
ghost use Rattle.handler.specs.Statements.{target_head, code_head, stmt_head, stmt_at};
ghost use Rattle.handler.specs.StatementTable.{StatementsStored};
ghost use Rattle.handler.specs.Terms.{ExprsStored};

use crate::codes::{MISSING, NO_VARIABLE, TOO_MANY, UNUSED};
use crate::expressions::{ExprSummary, expr_shape};
use crate::table::{Statement, store_statement};
use crate::{
    ASSIGNMENT, IF, MOST_STATEMENT_LEVELS, MOST_STATEMENTS, NIL, PARALLEL, SEQUENCE, StmtHead,
    StmtSummary, WHILE,
};
use bits::FileFault;
use semantics::Kind;

// A handler has at most 63 statements on at most 16 levels. One level more than that is read.
const MOST_COUNT: u32 = MOST_STATEMENTS as u32;

pub(crate) const STMT_LEVELS: u32 = MOST_STATEMENT_LEVELS + 1;

// The widths in bits of a statement's code and of an assignment's variable.
const CODE_BITS: usize = 3;

const TARGET_BITS: usize = 2;

// One past the limit of the step number. Sums are capped here.
const PAST: u64 = 4294967296;

// Reads an assignment's variable.
#[tactic(auto, using(crate::proofs::Heads::there_or), unfolding(crate::specs::Statements::target_head))]
fn target_at(src: &[u8], count: u32, at: usize) -> Result<StmtHead, FileFault>
    ensures { result ≡ target_head count at (field_or src.now at 2 10) }
{
    let (v, next) = bits::read_or(src, at, TARGET_BITS, MISSING)?;
    if v < count as u64 {
        Ok(StmtHead::Assign(v as u32, next))
    } else {
        Err(FileFault {
            number: NO_VARIABLE,
            bit: at,
        })
    }
}

// Reads what follows a statement's code, at the cursor after the code.
#[tactic(auto, unfolding(crate::specs::Statements::code_head))]
fn code_at(src: &[u8], count: u32, at: usize, code: u32, next: usize) -> Result<StmtHead, FileFault>
    ensures { result ≡ code_head src.now count at code next }
{
    match code {
        NIL => Ok(StmtHead::Nil(next)),
        ASSIGNMENT => target_at(src, count, next),
        SEQUENCE | PARALLEL => Ok(StmtHead::Pair(code, next)),
        IF | WHILE => Ok(StmtHead::Test(code, next)),
        _ => Err(FileFault {
            number: UNUSED,
            bit: at,
        }),
    }
}

// Reads the head of the statement at a cursor, with `before` statements before it and `below` levels left below it.
#[tactic(auto, using(crate::proofs::Heads::there_or), unfolding(crate::specs::Statements::stmt_head, crate::specs::Statements::mark_head))]
pub(crate) fn stmt_head_at(
    src: &[u8],
    count: u32,
    below: u32,
    before: u32,
    at: usize,
) -> Result<StmtHead, FileFault>
    ensures { result ≡ stmt_head src.now count below before at }
{
    let (code, next) = bits::read_or(src, at, CODE_BITS, MISSING)?;
    if below == 0 || before >= MOST_COUNT {
        return Err(FileFault {
            number: TOO_MANY,
            bit: at,
        });
    }
    code_at(src, count, at, code as u32, next)
}

// The summary of nil.
fn nil_of(statements: u32, terms: u32, next: usize) -> StmtSummary
    ensures { result ≡ nil_of statements terms next }
{
    StmtSummary {
        steps: 0,
        error: None,
        statements,
        terms,
        levels: 1,
        next,
    }
}

// The summary of an assignment, from that of its expression.
fn assigned_of(after: u32, terms: u32, expr: ExprSummary) -> StmtSummary
    requires { (terms ≤ 1953) × (expr.nodes ≤ 31) }
    ensures { result ≡ assigned_of after terms expr }
{
    StmtSummary {
        steps: expr.e as u64 + 1,
        error: expr.error,
        statements: after,
        terms: terms + expr.nodes,
        levels: 1,
        next: expr.next,
    }
}

// The step number of a sequence or parallel. Capping the parts first does not change the capped sum.
fn pair_steps(left: u64, right: u64) -> u64
    ensures { result ≡ min (left + right + 1) (2 ^ 32) }
{
    (left.min(PAST) + right.min(PAST) + 1).min(PAST)
}

// The summary of a sequence or parallel, from those of its sides. It has one level more than its higher side.
fn pair_of(left: StmtSummary, right: StmtSummary) -> StmtSummary
    requires { (left.levels + 1 < 2 ^ 32) × (right.levels + 1 < 2 ^ 32) }
    ensures { result ≡ pair_of left right }
{
    StmtSummary {
        steps: pair_steps(left.steps, right.steps),
        error: left.error.or(right.error),
        statements: right.statements,
        terms: right.terms,
        levels: left.levels.max(right.levels) + 1,
        next: right.next,
    }
}

// The step number of an if or while over n states, from the E of its test and the step number of its body, capped as in a pair.
fn test_steps(n: u32, code: u32, e: u32, body: u64) -> u64
    requires { (1 ≤ n) × (n ≤ capacity) }
    ensures { result ≡ min (test_steps n code e body) (2 ^ 32) }
{
    let part = body.min(PAST);
    let reads = e as u64;
    if code == IF {
        return (reads + 1 + part).min(PAST);
    }
    let states = n as u64;
    (states * (reads + 2) + (states - 1) * (part + 1)).min(PAST)
}

// The summary of an if or while, from those of its test and its body.
fn tested_of(n: u32, code: u32, test: ExprSummary, body: StmtSummary) -> StmtSummary
    requires { (1 ≤ n) × (n ≤ capacity) × (body.levels + 1 < 2 ^ 32) }
    ensures { result ≡ tested_of n code test body }
{
    StmtSummary {
        steps: test_steps(n, code, test.e, body.steps),
        error: test.error.or(body.error),
        statements: body.statements,
        terms: body.terms,
        levels: body.levels + 1,
        next: body.next,
    }
}

// The summary of the statement at a cursor over n states, with `levels` levels to read. There are `before` statements of at most 315
// bits each before it, with `terms` expression nodes. Its word and those of its parts are stored in the table of statements, and the
// nodes of its expressions in the other.
pub(crate) fn stmt_walk(
    src: &[u8],
    table: &mut [u64],
    exprs: &mut [u32],
    count: u32,
    n: u32,
    levels: u32,
    before: u32,
    terms: u32,
    at: usize,
) -> Result<StmtSummary, FileFault>
    requires { (1 ≤ n) × (n ≤ capacity) × (before ≤ 63) × (terms ≤ 31 * before) × (at ≤ 23 + 315 * before) × (63 ≤ length table.old) }
    ensures value { result ≡ stmt_shape n terms at (stmt_at levels src.now count before at) }
    ensures statements_stored { StatementsStored table.old table.new before at terms (stmt_at levels src.now count before at) }
    ensures exprs_stored { ExprsStored exprs.old exprs.new terms (stmt_at levels src.now count before at) }
{
    if levels == 0 {
        return Err(FileFault {
            number: TOO_MANY,
            bit: at,
        });
    }
    let below = levels - 1;
    let after = before + 1;
    let head = stmt_head_at(src, count, below, before, at)?;
    let mut own = Statement {
        code: NIL,
        target: 0,
        after,
        expr: 0,
        bit: at,
    };
    match head {
        StmtHead::Nil(next) => {
            store_statement(table, before, own);
            Ok(nil_of(after, terms, next))
        }
        StmtHead::Assign(v, next) => {
            own.code = ASSIGNMENT;
            own.target = v;
            own.expr = terms;
            store_statement(table, before, own);
            let expr = expr_shape(src, exprs, count, Kind::Integer, terms, next)?;
            Ok(assigned_of(after, terms, expr))
        }
        StmtHead::Pair(code, next) => {
            let left = stmt_walk(src, table, exprs, count, n, below, after, terms, next)?;
            own.code = code;
            own.after = left.statements;
            store_statement(table, before, own);
            let (then, used, next) = (left.statements, left.terms, left.next);
            let right = stmt_walk(src, table, exprs, count, n, below, then, used, next)?;
            Ok(pair_of(left, right))
        }
        StmtHead::Test(code, next) => {
            let test = expr_shape(src, exprs, count, Kind::Truth, terms, next)?;
            let inner = terms + test.nodes;
            let body = stmt_walk(src, table, exprs, count, n, below, after, inner, test.next)?;
            own.code = code;
            own.after = body.statements;
            own.expr = terms;
            store_statement(table, before, own);
            Ok(tested_of(n, code, test, body))
        }
    }
}
