// The sentence that says what a number means.
ghost use Rattle.std.specs.Prelude.{◌≡◌};
ghost use Rattle.explain.specs.Text.{text_end, text_in};
ghost use Rattle.explain.specs.Sentences.{sentence_of, handler_on, proof_on, nodes_on, children_on, stores_on, loops_on, exits_on, parts_on, weakens_on};

use crate::text::put;

// Weaken, and the step number.
#[tactic(auto, unfolding(crate::specs::Sentences::weakens_on))]
fn weaken_sentence(number: u32, out: &mut [u8], at: usize) -> usize
    ensures end { result ≡ text_end out.old at (weakens_on number) }
    ensures bytes { out.new ≡ text_in out.old at (weakens_on number) }
{
    match number {
        70 => put(out, at, b"Weaken: P does not lie in the P of the child."),
        71 => put(out, at, b"Weaken: R does not lie in the R of the child."),
        72 => put(out, at, b"Weaken: the G of the child does not lie in G."),
        73 => put(out, at, b"Weaken: the Q of the child does not lie in Q."),
        80 => put(out, at, b"The step number is over 4,294,967,295."),
        _ => put(out, at, b""),
    }
}

// Sequence and parallel.
#[tactic(auto, unfolding(crate::specs::Sentences::parts_on))]
fn part_sentence(number: u32, out: &mut [u8], at: usize) -> usize
    ensures end { result ≡ text_end out.old at (parts_on number) }
    ensures bytes { out.new ≡ text_in out.old at (parts_on number) }
{
    match number {
        60 => put(
            out,
            at,
            b"Sequence: s is in P and (s,t) in the left Q, but t is not in the right P.",
        ),
        61 => put(
            out,
            at,
            b"Sequence: s is in P, (s,t) in the left Q and (t,u) in the right Q, but (s,u) is not in Q.",
        ),
        65 => put(out, at, b"Parallel: the G of a child does not lie in G."),
        66 => put(
            out,
            at,
            b"Parallel: s is in P, (s,t) in the Q of both children and t reached from s, but (s,t) is not in Q.",
        ),
        _ => weaken_sentence(number, out, at),
    }
}

// While: the rest.
#[tactic(auto, unfolding(crate::specs::Sentences::exits_on))]
fn exit_sentence(number: u32, out: &mut [u8], at: usize) -> usize
    ensures end { result ≡ text_end out.old at (exits_on number) }
    ensures bytes { out.new ≡ text_in out.old at (exits_on number) }
{
    match number {
        54 => put(
            out,
            at,
            b"While: s is in P, the test is false at s and (s,t) is in R, but the test is true at t.",
        ),
        55 => put(
            out,
            at,
            b"While: s is in P and (s,t) in R, but t is not s and (s,t) is not in W.",
        ),
        56 => put(
            out,
            at,
            b"While: s and t are in P, t is s or (s,t) is in W, and the test is false at t, but (s,t) is not in Q.",
        ),
        57 => put(
            out,
            at,
            b"While: (s,t) and (t,u) are in W, but (s,u) is not.",
        ),
        _ => part_sentence(number, out, at),
    }
}

// While: its test, and K and W.
#[tactic(auto, unfolding(crate::specs::Sentences::loops_on))]
fn loop_sentence(number: u32, out: &mut [u8], at: usize) -> usize
    ensures end { result ≡ text_end out.old at (loops_on number) }
    ensures bytes { out.new ≡ text_in out.old at (loops_on number) }
{
    match number {
        50 => put(
            out,
            at,
            b"While: the test has more than one occurrence of variables that R moves.",
        ),
        51 => put(out, at, b"While: W has the pair (s,s)."),
        52 => put(
            out,
            at,
            b"While: s is in P and the test is true at s, but s is not in K.",
        ),
        53 => put(
            out,
            at,
            b"While: s is in P and K, and (s,t) in R, but t is not in K.",
        ),
        _ => exit_sentence(number, out, at),
    }
}

// Assignment and if.
#[tactic(auto, unfolding(crate::specs::Sentences::stores_on))]
fn store_sentence(number: u32, out: &mut [u8], at: usize) -> usize
    ensures end { result ≡ text_end out.old at (stores_on number) }
    ensures bytes { out.new ≡ text_in out.old at (stores_on number) }
{
    match number {
        41 => put(
            out,
            at,
            b"Assignment: R moves a variable of the expression.",
        ),
        42 => put(
            out,
            at,
            b"Assignment: s is in P and the store leads to s', but (s,s') is not in Q.",
        ),
        43 => put(
            out,
            at,
            b"Assignment: s is in P and the store leads to another state s', but (s,s') is not in G.",
        ),
        45 => put(out, at, b"If: R moves a variable of the test."),
        46 => put(
            out,
            at,
            b"If: s is in P and the test is false at s, but (s,s) is not in Q.",
        ),
        _ => loop_sentence(number, out, at),
    }
}

// The tables of a child, and skip.
#[tactic(auto, unfolding(crate::specs::Sentences::children_on))]
fn child_sentence(number: u32, out: &mut [u8], at: usize) -> usize
    ensures end { result ≡ text_end out.old at (children_on number) }
    ensures bytes { out.new ≡ text_in out.old at (children_on number) }
{
    match number {
        34 => put(
            out,
            at,
            b"The P of a child is not the one that the rule gives it.",
        ),
        35 => put(out, at, b"Skip: s is in P, but (s,s) is not in Q."),
        36 => put(
            out,
            at,
            b"The R of a child is not the one that the rule gives it.",
        ),
        37 => put(
            out,
            at,
            b"The G of a child is not the one that the rule gives it.",
        ),
        38 => put(
            out,
            at,
            b"The Q of a child is not the one that the rule gives it.",
        ),
        _ => store_sentence(number, out, at),
    }
}

// Every node.
#[tactic(auto, unfolding(crate::specs::Sentences::nodes_on))]
fn node_sentence(number: u32, out: &mut [u8], at: usize) -> usize
    ensures end { result ≡ text_end out.old at (nodes_on number) }
    ensures bytes { out.new ≡ text_in out.old at (nodes_on number) }
{
    match number {
        30 => put(
            out,
            at,
            b"The node's rule is not that of the statement at hand.",
        ),
        31 => put(
            out,
            at,
            b"Others can leave P: s is in P and (s,t) in R, but t is not in P.",
        ),
        32 => put(
            out,
            at,
            b"Others act first and Q fails: s is in P, (s,t) in R and (t,u) in Q, but (s,u) is not in Q.",
        ),
        33 => put(
            out,
            at,
            b"Others act last and Q fails: s is in P, (s,t) in Q and (t,u) in R, but (s,u) is not in Q.",
        ),
        _ => child_sentence(number, out, at),
    }
}

// The proof file.
#[tactic(auto, unfolding(crate::specs::Sentences::proof_on))]
fn proof_sentence(number: u32, out: &mut [u8], at: usize) -> usize
    ensures end { result ≡ text_end out.old at (proof_on number) }
    ensures bytes { out.new ≡ text_in out.old at (proof_on number) }
{
    match number {
        20 => put(out, at, b"A field runs past the end of the proof file."),
        21 => put(
            out,
            at,
            b"The number of sets or of relations is not 1 to 16.",
        ),
        22 => put(out, at, b"The rule code is 7, which is unused."),
        23 => put(out, at, b"There is no set or relation with this number."),
        24 => put(
            out,
            at,
            b"The derivation has more than 127 nodes or 24 levels.",
        ),
        25 => put(
            out,
            at,
            b"A fill bit of the proof file is not 0, or a byte follows its last field.",
        ),
        _ => node_sentence(number, out, at),
    }
}

// The rest of the handler file.
#[tactic(auto, unfolding(crate::specs::Sentences::handler_on))]
fn handler_sentence(number: u32, out: &mut [u8], at: usize) -> usize
    ensures end { result ≡ text_end out.old at (handler_on number) }
    ensures bytes { out.new ≡ text_in out.old at (handler_on number) }
{
    match number {
        13 => put(
            out,
            at,
            b"With this size, N (the product of the sizes) is over 64.",
        ),
        14 => put(
            out,
            at,
            b"The code is unused: 6 or 7 of a statement, or 7 of an operation.",
        ),
        15 => put(out, at, b"There is no variable with this number."),
        16 => put(
            out,
            at,
            b"An integer is where a truth value is wanted, or the reverse.",
        ),
        17 => put(
            out,
            at,
            b"The handler has more than 63 statements, 16 levels, or 31 nodes in an expression.",
        ),
        18 => put(
            out,
            at,
            b"A fill bit of the handler file is not 0, or a byte follows its last field.",
        ),
        _ => proof_sentence(number, out, at),
    }
}

// Puts the sentence of a number into a buffer at a place, as far as there is room, and returns where it ends. A number that no
// check gives has none.
#[tactic(auto, unfolding(crate::specs::Sentences::sentence_of))]
pub fn sentence(number: u32, out: &mut [u8], at: usize) -> usize
    ensures end { result ≡ text_end out.old at (sentence_of number) }
    ensures bytes { out.new ≡ text_in out.old at (sentence_of number) }
{
    match number {
        1 => put(out, at, b"The host lent fewer than 1,040 work words."),
        2 => put(out, at, b"A file has more than 16,384 bytes."),
        10 => put(out, at, b"A field runs past the end of the handler file."),
        11 => put(out, at, b"The number of variables is not 1 to 4."),
        12 => put(out, at, b"The size of a variable is not 2 to 16."),
        _ => handler_sentence(number, out, at),
    }
}
