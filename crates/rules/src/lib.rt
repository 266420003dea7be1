// The conditions of each rule, on the tables in the work words, each equal to its definition. A rule checks its conditions in their order,
// and the first that fails ends the check with its number. The states that it names are looked for afterwards, by the number, so an
// accepted pair does not pay for them.
#![tactic(auto)]

ghost use Rattle.std.specs.Prelude.{◌≡◌, Bool, cond, Ok, Err};
ghost use Rattle.rules.specs.Words.{word_spec};
ghost use Rattle.semantics.specs.Checking;
ghost use Rattle.semantics.specs.Checking.{first_broken};
ghost use Rattle.rules.specs.Asking.{asked, asked_all, states_for, fault_of};
ghost use Rattle.search.specs.Named.{naming};
ghost use Rattle.rules.specs.Obligations.{obligations_in};

use assignment::{assignment_fault, assignment_states};
use conditional::{if_fault, if_states};
use derivation::{ASSIGNMENT, IF, Node, PARALLEL, SEQUENCE, SKIP, WHILE};
use handler::head::{Head, states_in};
use handler::table::Statement;
use iteration::{while_fault, while_states};
use parallel::{parallel_fault, parallel_states};
use search::pairs::all_into;
use search::{Named, least_chain, least_pair};
use semantics::Names;
use sequence::{sequence_fault, sequence_states};
use skip::{skip_fault, skip_states};
use stability::stable_under_rely;
use tables::{rows_of, set_at};
use weaken::weaken_fault;

pub mod assignment;
pub mod conditional;
pub mod iteration;
pub mod moving;
pub mod parallel;
pub mod sequence;
pub mod skip;
pub mod stability;
pub mod tables;
pub mod weaken;

// The first of a node's conditions that failed: its number, and the states that it names.
#[derive(Clone, Copy)]
pub struct Broken {
    pub number: u32,
    pub states: Named,
}

// One condition, by its number and whether it holds.
pub fn require(number: u32, held: bool) -> Result<(), u32>
    ensures { result ≡ cond held (Ok tt) (Err number) }
{
    if held { Ok(()) } else { Err(number) }
}

// 31 to 33, which are checked at every node.
#[tactic(auto, unfolding(crate::specs::Asking::asked))]
pub fn require_stability(n: u32, work: &[u64], own: Names) -> Result<(), u32>
    ensures { result ≡ asked_all (Ok tt) (Checking.stability n (word_spec n work.now own)) }
{
    let held = stable_under_rely(n, work, own);
    require(31, held.pre)?;
    require(32, held.before)?;
    require(33, held.after)
}

// How every rule but assignment and if begins: 30 to 33.
#[tactic(auto, using(states::proofs::Search::holds_must), unfolding(crate::specs::Asking::asked))]
pub fn common(n: u32, work: &[u64], own: Names, fits: bool) -> Result<(), u32>
    ensures { result ≡ asked_all (Ok tt) (Checking.common n fits (word_spec n work.now own)) }
{
    require(30, fits)?;
    require_stability(n, work, own)
}

// The states that 31, 32 or 33 names, by its number. No other number has states here.
pub fn common_states(n: u32, work: &[u64], own: Names, number: u32) -> Named
    ensures { (fits : Bool) → result ≡ naming (states_for number (Checking.common n fits (word_spec n work.now own))) }
{
    let p = set_at(n, work, own.p);
    let r = rows_of(work, own.r);
    let q = rows_of(work, own.q);
    match number {
        31 => least_pair(n, p, r, &all_into(p)),
        32 => least_chain(n, p, r, q, q),
        33 => least_chain(n, p, q, r, q),
        _ => Named::Nothing,
    }
}

// The verdict of a node's conditions over a statement, by the node's rule. `first` and `second` are its children, as far as the rule
// has them; a weaken fits every statement.
#[tactic(auto, unfolding(crate::specs::Obligations::obligations_in))]
fn node_verdict(
    exprs: &[u32],
    head: Head,
    work: &[u64],
    node: Node,
    statement: Statement,
    first: Node,
    second: Node,
) -> Result<(), u32>
    ensures { result ≡ asked_all (Ok tt) (obligations_in exprs.now head work.now node statement first second) }
{
    let n = states_in(head);
    let own = node.names;
    let left = first.names;
    let right = second.names;
    let code = statement.code;
    let expr = statement.expr;
    let rule = node.rule;
    match rule {
        SKIP => skip_fault(n, work, own, code == SKIP),
        ASSIGNMENT => {
            assignment_fault(
                exprs,
                head,
                work,
                own,
                code == ASSIGNMENT,
                statement.target,
                expr,
            )
        }
        SEQUENCE => sequence_fault(n, work, own, left, right, code == SEQUENCE),
        PARALLEL => parallel_fault(n, work, own, left, right, code == PARALLEL),
        IF => if_fault(exprs, head, work, own, left, code == IF, expr),
        WHILE => while_fault(
            exprs,
            head,
            work,
            own,
            node.k,
            node.w,
            left,
            code == WHILE,
            expr,
        ),
        _ => weaken_fault(n, work, own, left),
    }
}

// The states that the condition with this number names, where it is the first of a node's conditions that failed; by the node's rule, as
// above. A weaken names none of its own.
#[tactic(auto, unfolding(crate::specs::Obligations::obligations_in))]
fn node_states(
    exprs: &[u32],
    head: Head,
    work: &[u64],
    node: Node,
    statement: Statement,
    first: Node,
    second: Node,
    number: u32,
) -> Named
    ensures { result ≡ naming (states_for number (obligations_in exprs.now head work.now node statement first second)) }
{
    let n = states_in(head);
    let own = node.names;
    let left = first.names;
    let right = second.names;
    let expr = statement.expr;
    let rule = node.rule;
    match rule {
        SKIP => skip_states(n, work, own, number),
        ASSIGNMENT => assignment_states(exprs, head, work, own, statement.target, expr, number),
        SEQUENCE => sequence_states(n, work, own, left, right, number),
        PARALLEL => parallel_states(n, work, own, left, right, number),
        IF => if_states(exprs, head, work, own, expr, number),
        WHILE => while_states(exprs, head, work, own, node.k, node.w, expr, number),
        _ => common_states(n, work, own, number),
    }
}

// The first of a node's conditions over a statement that failed, with the states that it names.
pub fn node_fault(
    exprs: &[u32],
    head: Head,
    work: &[u64],
    node: Node,
    statement: Statement,
    first: Node,
    second: Node,
) -> Result<(), Broken>
    ensures { result ≡ fault_of (first_broken (obligations_in exprs.now head work.now node statement first second)) }
{
    node_verdict(exprs, head, work, node, statement, first, second).map_err(|number| Broken {
        number,
        states: node_states(exprs, head, work, node, statement, first, second, number),
    })
}
