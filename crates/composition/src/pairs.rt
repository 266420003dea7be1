// Two accepted pairs: they are read again, their proof files are brought into their one form, and what both are asked together is tested.
ghost use Rattle.std.specs.Prelude.{◌≡◌, ◌+◌, length, Ok};
ghost use Rattle.pair.specs.Reading.{read_pair, pair_file};
ghost use Rattle.joint.specs.Composing.{side_of, composition, handler_after, proof_after, with_room};
ghost use Rattle.composition.specs.Answers.{composed};
ghost use Rattle.composition.specs.Refinement.{WasAccepted, SameStates, met_of};

use crate::asking::{ask_roots, same_sizes};
use crate::forms::load_form;
use crate::joining::{Handlers, join};
use crate::{Composed, refusal};
use checker::WORK_WORDS;
use pair::{PairFile, read_pair};

// The sizes differ.
const OTHER_SIZES: u32 = 90;

// Reads a pair that was accepted once more: it has no fault.
fn read_accepted(handler: &[u8], proof: &[u8]) -> PairFile
    requires { WasAccepted handler.now proof.now }
    ensures { Ok result ≡ pair_file (read_pair handler.now proof.now) }
{
    let Ok(file) = read_pair(handler, proof) else {
        unreachable!()
    };
    file
}

// Over the same variables: 91 to 93, and then the files.
fn compose_sides(
    n: u32,
    h1: &[u8],
    p1: &[u8],
    h2: &[u8],
    p2: &[u8],
    both: Handlers,
    hout: &mut [u8],
    pout: &mut [u8],
) -> Composed
    requires { SameStates n h1.now p1.now h2.now p2.now both }
    ensures answer { result ≡ composed (with_room (met_of n h1.now h2.now (side_of h1.now p1.now)
        (side_of h2.now p2.now) both.steps) (length hout.old) (length pout.old)) }
    ensures handler { hout.new ≡ handler_after (with_room (met_of n h1.now h2.now (side_of h1.now p1.now)
        (side_of h2.now p2.now) both.steps) (length hout.old) (length pout.old)) hout.old }
    ensures proof { pout.new ≡ proof_after (with_room (met_of n h1.now h2.now (side_of h1.now p1.now)
        (side_of h2.now p2.now) both.steps) (length hout.old) (length pout.old)) pout.old }
{
    let mut words = [0u64; WORK_WORDS];
    let mut others = [0u64; WORK_WORDS];
    let f = load_form(h1, p1, n, &mut words);
    let g = load_form(h2, p2, n, &mut others);
    ask_roots(n, &words, f.names, &others, g.names)?;
    let mut relations = [0u64; WORK_WORDS];
    join(
        n,
        h1,
        h2,
        both,
        f,
        &words,
        g,
        &others,
        &mut relations,
        hout,
        pout,
    )
}

// The result of two pairs that were accepted with these step numbers. Its buffers are not on the stack while the pairs are checked.
#[inline(never)]
pub(crate) fn compose_accepted(
    h1: &[u8],
    p1: &[u8],
    steps: u32,
    h2: &[u8],
    p2: &[u8],
    more: u32,
    hout: &mut [u8],
    pout: &mut [u8],
) -> Composed
    requires { WasAccepted h1.now p1.now × WasAccepted h2.now p2.now }
    ensures answer { result ≡ composed (with_room (composition h1.now h2.now (side_of h1.now p1.now)
        (side_of h2.now p2.now) (steps + more + 1)) (length hout.old) (length pout.old)) }
    ensures handler { hout.new ≡ handler_after (with_room (composition h1.now h2.now (side_of h1.now p1.now)
        (side_of h2.now p2.now) (steps + more + 1)) (length hout.old) (length pout.old)) hout.old }
    ensures proof { pout.new ≡ proof_after (with_room (composition h1.now h2.now (side_of h1.now p1.now)
        (side_of h2.now p2.now) (steps + more + 1)) (length hout.old) (length pout.old)) pout.old }
{
    let one = read_accepted(h1, p1);
    let two = read_accepted(h2, p2);
    if same_sizes(one.head, two.head) {
        let both = Handlers {
            first: one.read.handler,
            second: two.read.handler,
            steps: steps as u64 + more as u64 + 1,
        };
        compose_sides(one.head.states, h1, p1, h2, p2, both, hout, pout)
    } else {
        Err(refusal(0, OTHER_SIZES))
    }
}
