// The values of the expressions of a handler file at its states, and where stores lead. An expression is walked once for all
// states: each node gives a row, with a value for each state.
#![tactic(auto)]

mod pointwise;

ghost use Rattle.std.specs.Prelude.{◌≡◌, true, cond, ◌&&◌, ℕ, ◌+◌, ◌≤◌, ◌<◌, ltb, pos, get_or, Some};
ghost use Rattle.std.proofs.Math.Option.{none};
ghost use Rattle.std.specs.Int.Signed.{mag};
ghost use Rattle.states.specs.Sets.{capacity, mem, has, entry_at};
ghost use Rattle.semantics.specs.Language.{Expr, of_integers, of_truths, apply};
ghost use Rattle.semantics.specs.States.{both, weight, remainder};
ghost use Rattle.semantics.specs.Conditions.{is_true, is_false, after_store, occurrences};
ghost use Rattle.handler.specs.Header.{is_head, sizes_in, machine_in};
ghost use Rattle.handler.specs.Terms.{signed16, on_term, expr_from, expr_in};
ghost use Rattle.evaluation.specs.Values.{in_mask, leads_to, variable_in, value_by, is_small, agree_in};
ghost use Rattle.evaluation.specs.Refinement.{expr_levels, doubled, value_bound, integer_in, value_in, Applied, LeafRow, Walked, Evaluated, stored_by};

use handler::expressions::MOST_EXPR_NODES;
use handler::head::{Head, is_head, size_of, states_in};
use handler::terms;
use handler::terms::{Term, term_at};
use pointwise::{always, compared, states_with, sum_row, variable_row};
use states::entries::put_entry;
use states::{CAPACITY, RELATION_WORDS, StateSet};

// The levels to which an expression is walked, one more than the 31 nodes of an expression of a file.
const EXPR_LEVELS: u32 = MOST_EXPR_NODES + 1;

// The codes of the operations + − < = > ∧ ∨, from 0. Those below LESS give an integer, those from LESS to below AND compare two
// integers, and the last two take truth values.
const PLUS: u32 = 0;

const LESS: u32 = 2;

const EQUAL: u32 = 3;

const AND: u32 = 5;

const OR: u32 = 6;

// The value of an expression at each state. An expression whose operands are of the wrong kinds has none at any state.
#[derive(Clone, Copy)]
enum Values {
    Integers([i64; CAPACITY as usize]),
    Truths(StateSet),
}

// The states at which a test is true, and those at which it is false.
#[derive(Clone, Copy)]
pub struct Truths {
    pub holds: StateSet,
    pub fails: StateSet,
}

// A variable as it is encoded in a state's number: the number of states, the variable's weight, which is the product of the sizes
// of the later variables, and its size.
#[derive(Clone, Copy)]
pub struct Variable {
    pub states: u32,
    pub weight: u32,
    pub size: u32,
}

// The weight of variable v, the product of the sizes of the later variables: adding 1 to v's value adds this to the state's number.
fn weight_of(head: Head, v: u32) -> u32
    requires { is_head head ≡ true }
    ensures { result ≡ weight (sizes_in head) v }
{
    if v >= head.count {
        return 1;
    }
    let mut product = 1;
    for later in (v + 1..head.count).rev() {
        product *= size_of(head, later);
    }
    product
}

// Variable v of a head; with no states where the head is one that no file has.
#[tactic(auto, unfolding(crate::specs::Values::variable_in))]
pub fn variable_of(head: Head, v: u32) -> Variable
    ensures { result ≡ variable_in head v }
{
    if is_head(head) {
        Variable {
            states: head.states,
            weight: weight_of(head, v),
            size: size_of(head, v),
        }
    } else {
        Variable {
            states: 0,
            weight: 1,
            size: 1,
        }
    }
}

// The results of operation o on two integers, state by state.
fn of_integers(
    n: u32,
    o: u32,
    left: &[i64; CAPACITY as usize],
    right: &[i64; CAPACITY as usize],
) -> Option<Values>
    requires { (n ≤ capacity) × ((s : ℕ) → s < n → mag (get_or left.now s (pos 0)) + mag (get_or right.now s (pos 0)) < value_bound) }
    ensures { Applied n (λ s. get_or (of_integers (get_or left.now s (pos 0)) (get_or right.now s (pos 0))) o none)
        (Some (Values.Integers left.now)) (Some (Values.Integers right.now)) result }
{
    if o < LESS {
        Some(Values::Integers(sum_row(n, o, left, right)))
    } else if o < AND {
        Some(Values::Truths(compared(n, o, left, right)))
    } else {
        None
    }
}

// The results of operation o on two truth values, state by state.
fn of_truths(o: u32, left: StateSet, right: StateSet) -> Option<Values>
    ensures { (n : ℕ) → Applied n (λ s. get_or (of_truths (has left s) (has right s)) o none) (Some (Values.Truths left)) (Some (Values.Truths right)) result }
{
    match o {
        AND => Some(Values::Truths(left.meet(right))),
        OR => Some(Values::Truths(left.join(right))),
        _ => None,
    }
}

// The results of operation o on its operands, both of which have values.
fn apply_op(n: u32, o: u32, left: &Values, right: &Values) -> Option<Values>
    requires { (n ≤ capacity)
        × ((s : ℕ) → s < n → mag (integer_in (Some left.now) s) + mag (integer_in (Some right.now) s) < value_bound) }
    ensures { Applied n (λ s. both (apply o) (value_in (Some left.now) s) (value_in (Some right.now) s)) (Some left.now) (Some right.now) result }
{
    match (left, right) {
        (Values::Integers(a), Values::Integers(b)) => of_integers(n, o, a, b),
        (Values::Truths(a), Values::Truths(b)) => of_truths(o, *a, *b),
        _ => None,
    }
}

// The value of 16 bits in two's complement.
#[tactic(auto, using(std::proofs::lemmas::Int::ints), unfolding(handler::specs::Terms::signed16))]
fn signed_of(value: u32) -> i64
    requires { value < 65536 }
    ensures { result ≡ signed16 value }
{
    (value as u16).cast_signed() as i64
}

// The values at n states of a node without operands. It returns what the walk returns, and is not inlined: otherwise each level of the
// walk takes 2,936 bytes of the stack, and not 2,136.
#[inline(never)]
fn leaf_row(head: Head, n: u32, term: Term) -> Option<Values>
    requires { (n ≡ (machine_in head).states) × (term.tag < 3) × (term.value < 65536) }
    ensures { (a b : Expr) → LeafRow n (machine_in head) result (on_term term a b) }
{
    if term.tag == terms::INTEGER {
        return Some(Values::Integers([signed_of(term.value); CAPACITY as usize]));
    }
    if term.tag == terms::TRUTH {
        return Some(Values::Truths(always(term.value == 1)));
    }
    let x = variable_of(head, term.value);
    Some(Values::Integers(variable_row(n, x.weight, x.size)))
}

// The values at n states of the expression whose first node is number i of a table. A level adds at most one bit to the magnitude of
// an integer, so the sums fit. An operand without a value ends the walk, because then the whole expression has none either.
fn values_walk(exprs: &[u32], head: Head, n: u32, levels: u32, i: usize) -> Option<Values>
    requires { (n ≡ (machine_in head).states) × (levels ≤ expr_levels) }
    ensures { Walked n (machine_in head) levels result (expr_from levels exprs.now i) }
{
    if levels == 0 {
        return None;
    }
    let term = term_at(exprs, i);
    if term.tag < terms::OPERATION {
        return leaf_row(head, n, term);
    }
    let left = values_walk(exprs, head, n, levels - 1, i + 1)?;
    let right = values_walk(exprs, head, n, levels - 1, term.right as usize)?;
    apply_op(n, term.value, &left, &right)
}

// The values of a whole expression.
#[tactic(auto, using(crate::proofs::Walking::whole_row))]
fn values_at(exprs: &[u32], head: Head, expr: u32) -> Option<Values>
    ensures { Evaluated head exprs.now expr result }
{
    values_walk(exprs, head, states_in(head), EXPR_LEVELS, expr as usize)
}

// The states at which an expression is true, and those at which it is false.
pub fn truths_at(exprs: &[u32], head: Head, expr: u32) -> Truths
    ensures holding { (s : ℕ) → has result.holds s ≡ is_true (machine_in head) (expr_in exprs.now expr) s }
    ensures failing { (s : ℕ) → has result.fails s ≡ is_false (machine_in head) (expr_in exprs.now expr) s }
{
    let Some(Values::Truths(truths)) = values_at(exprs, head, expr) else {
        let none = StateSet::empty();
        return Truths {
            holds: none,
            fails: none,
        };
    };
    let n = states_in(head);
    let states = StateSet::below(n);
    Truths {
        holds: states.meet(truths),
        fails: states.narrow(truths),
    }
}

// 1 if variable v is in the mask, otherwise 0. A mask has 32 bits.
fn occurs_in(mask: u32, v: u32) -> u32
    ensures { result ≡ cond (in_mask mask v) 1 0 }
{
    mask.checked_shr(v).unwrap_or(0) % 2
}

// How many variable occurrences are of variables in a mask, in the expression whose first node is number i of a table. A level at
// most doubles their number.
fn occurrences_walk(exprs: &[u32], mask: u32, levels: u32, i: usize) -> u32
    requires { levels ≤ expr_levels }
    ensures { (result ≡ occurrences (in_mask mask) (expr_from levels exprs.now i)) × (result < doubled 1 levels) }
{
    if levels == 0 {
        return 0;
    }
    let term = term_at(exprs, i);
    if term.tag < terms::VARIABLE {
        return 0;
    }
    if term.tag == terms::VARIABLE {
        return occurs_in(mask, term.value);
    }
    let left = occurrences_walk(exprs, mask, levels - 1, i + 1);
    let right = occurrences_walk(exprs, mask, levels - 1, term.right as usize);
    left + right
}

// How many variable occurrences in an expression are of variables in a mask. R usually moves no variable, and then nothing is read.
#[tactic(auto, using(crate::proofs::Walking::none_occur), unfolding(handler::specs::Terms::expr_in))]
pub fn occurrences_at(exprs: &[u32], mask: u32, expr: u32) -> u32
    ensures { result ≡ occurrences (in_mask mask) (expr_in exprs.now expr) }
{
    if mask == 0 {
        return 0;
    }
    occurrences_walk(exprs, mask, EXPR_LEVELS, expr as usize)
}

// Whether there are no more states than a set can hold, and the weight and the size, by which states are divided, are not 0 and no
// larger.
#[tactic(auto, unfolding(crate::specs::Values::is_small))]
fn is_small(x: Variable) -> bool
    ensures { result ≡ is_small x }
{
    x.states <= CAPACITY && (1..=CAPACITY).contains(&x.weight) && (1..=CAPACITY).contains(&x.size)
}

// The states that agree with s in a variable; none where s is not a state. A caller that asks about many states makes the variable
// once.
pub fn agreeing(x: Variable, s: u32) -> StateSet
    ensures { (t : ℕ) → has result t ≡ agree_in x s t }
{
    if is_small(x) & (s < x.states) {
        states_with(x.states, x.weight, x.size, s / x.weight % x.size)
    } else {
        StateSet::empty()
    }
}

// The remainder, from 0 up, of a value by a size. Almost every value has 32 bits, and is then divided in less time.
fn wrapped(size: u32, z: i64) -> u32
    requires { (0 < size) × (size ≤ capacity) }
    ensures { result ≡ remainder z size }
{
    match i32::try_from(z) {
        Ok(short) => short.rem_euclid(size as i32) as u32,
        Err(_) => z.rem_euclid(size as i64) as u32,
    }
}

// The state after a store of z at state s, from the value that the variable has there.
fn store(x: Variable, s: u32, value: i64, z: i64) -> u32
    requires { (is_small x ≡ true) × (s < capacity) × (value ≡ pos (value_by x s)) }
    ensures { result ≡ stored_by x s z }
{
    s - value as u32 * x.weight + wrapped(x.size, z) * x.weight
}

// Where a store of an expression in variable v leads: row s holds the one state after the store at s, or none where
// the expression is no integer.
pub fn successors(exprs: &[u32], head: Head, v: u32, expr: u32) -> [u64; RELATION_WORDS]
    ensures { (s t : ℕ) → mem (entry_at result s) t
        ≡ (ltb s (machine_in head).states && leads_to (after_store (machine_in head) v (expr_in exprs.now expr) s) t) }
{
    let Some(Values::Integers(integers)) = values_at(exprs, head, expr) else {
        return [0; RELATION_WORDS];
    };
    let mut rows = [0u64; RELATION_WORDS];
    let x = variable_of(head, v);
    let present = variable_row(x.states, x.weight, x.size);
    for s in 0..x.states {
        let end = store(x, s, present[s as usize], integers[s as usize]);
        put_entry(&mut rows, s as usize, StateSet::single(end));
    }
    rows
}
