// The C interface for hosts (include/handover.h): the check of two files with the verdict as one number, the states that its refusal
// names, the root of two files, where a refusal is shown, the one form of a proof file, the composition of two pairs, and the admission of
// guests to a core.
#![tactic(auto)]

ghost use Rattle.std.specs.Prelude.{◌≡◌, eqb, length};
ghost use Rattle.pair.specs.Modes.{rows};
ghost use Rattle.checker.specs.Verdicts.{answer, work_after, AcceptedIsSound};
ghost use Rattle.report.specs.Code.{code_of, without_states, decoded};
ghost use Rattle.report.specs.States.{states_of, states_number, states_decoded};
ghost use Rattle.report.specs.Root.{root_of};
ghost use Rattle.viewer.specs.View.{view_of};
ghost use Rattle.canonical.specs.Canonical.{canonical, outcome, out_after};
ghost use Rattle.joint.specs.Composing.{compose_into, handler_after, proof_after};
ghost use Rattle.composition.specs.Answers.{composed, MadeIsAccepted};
ghost use Rattle.joint.specs.Composing as Composing;
ghost use Rattle.composition.specs.Coding.{number_of, of_number};
ghost use Rattle.composition.specs.Coding as Coding;
ghost use Rattle.frame.specs.Calls.{admit, released};
ghost use Rattle.frame.specs.Calls as Calls;
ghost use Rattle.frame.specs.Lent.{frame_in, numbers_after};
ghost use Rattle.frame.specs.Served.{ServedIf};

// The check of two files over the host's work words. The result is the verdict as one number, `code_of`: below 2 ^ 32 it is the step number
// of an accepted pair, else the fault's number, the kind of its place and the place. `decoded` of it is the verdict but for the states,
// for every pair of files, and what acceptance promises is promised of what is decoded.
#[unsafe(no_mangle)]
pub extern "C" fn handover_check(handler: &[u8], proof: &[u8], work: &mut [u64]) -> u64
    ensures number { result ≡ code_of (answer handler.now proof.now rows (length work.old)).verdict }
    ensures verdict { decoded result ≡ without_states (answer handler.now proof.now rows (length work.old)).verdict }
    ensures words { work.new ≡ work_after handler.now proof.now rows work.old }
    ensures promise { AcceptedIsSound handler.now proof.now rows (decoded result) }
{
    report::code_of(checker::check(handler, proof, pair::rows(), work))
}

// The check once more, for the states that its refusal names: how many, and then up to three of 8 bits each, `states_number`; 0 for an
// accepted pair and where none are named. `states_decoded` of it is the list of the states. The work words end as after `handover_check`.
#[unsafe(no_mangle)]
pub extern "C" fn handover_states(handler: &[u8], proof: &[u8], work: &mut [u64]) -> u64
    ensures number { result ≡ states_number (states_of (answer handler.now proof.now rows (length work.old)).verdict) }
    ensures states { states_decoded result ≡ states_of (answer handler.now proof.now rows (length work.old)).verdict }
    ensures words { work.new ≡ work_after handler.now proof.now rows work.old }
{
    report::states_code(checker::check(handler, proof, pair::rows(), work))
}

// N and the numbers of the root's P, R, G and Q, 8 bits each, or 0 where a file is too long or ill-formed: what a host must know of a pair
// that it accepted, because it is the host that keeps R.
#[unsafe(no_mangle)]
pub extern "C" fn handover_root(handler: &[u8], proof: &[u8]) -> u64
    ensures { result ≡ root_of handler.now proof.now }
{
    report::root::root_number(handler, proof)
}

// Where a refusal's number with its place is shown: the file, 0 the handler file and 1 the proof file, × 2 ^ 32, and the index of the first
// byte, which is the file's length where none of its bytes are shown. The kind of the place is 0 for a bit and 1 for a node.
#[unsafe(no_mangle)]
pub extern "C" fn handover_view(
    handler: &[u8],
    proof: &[u8],
    number: u32,
    kind: u32,
    place: u64,
) -> u64
    ensures { result ≡ view_of handler.now proof.now number kind place }
{
    viewer::view_number(handler, proof, number, kind, place)
}

// The proof file in its one form, at the start of the host's output buffer. The result is the length that was written, below 2 ^ 32, or
// the fault for which nothing was written, as one number (`code_of`); `decoded` of it is the outcome.
#[unsafe(no_mangle)]
pub extern "C" fn handover_canonical(handler: &[u8], proof: &[u8], out: &mut [u8]) -> u64
    ensures number { result ≡ code_of (outcome (canonical handler.now proof.now) (length out.old)) }
    ensures outcome { decoded result ≡ outcome (canonical handler.now proof.now) (length out.old) }
    ensures bytes { out.new ≡ out_after (canonical handler.now proof.now) out.old }
{
    canonical::form_number(handler, proof, out)
}

// The files of the parallel of two accepted pairs, at the start of the host's two output buffers, over the host's work words. The result is
// one number, `number_of`: the step number and the lengths of both files, or a refusal with the pair that it is about. `of_number` of it is the
// answer but for the states of a pair's own fault, and what it says was made is accepted by the check.
#[unsafe(no_mangle)]
pub extern "C" fn handover_compose(
    h1: &[u8],
    p1: &[u8],
    h2: &[u8],
    p2: &[u8],
    work: &mut [u64],
    hout: &mut [u8],
    pout: &mut [u8],
) -> u64
    ensures number { result ≡ number_of (composed (compose_into h1.now p1.now h2.now p2.now
        work.old hout.old pout.old)) }
    ensures answer { of_number result ≡ Coding.without_states (composed (compose_into h1.now p1.now h2.now p2.now
        work.old hout.old pout.old)) }
    ensures words { work.new ≡ Composing.work_after h1.now p1.now h2.now p2.now work.old }
    ensures handler { hout.new ≡ handler_after (compose_into h1.now p1.now h2.now p2.now
        work.old hout.old pout.old) hout.old }
    ensures proof { pout.new ≡ proof_after (compose_into h1.now p1.now h2.now p2.now
        work.old hout.old pout.old) pout.old }
    ensures accepted { MadeIsAccepted (of_number result) hout.new pout.new }
{
    composition::compose_number(h1, p1, h2, p2, work, hout, pout)
}

// The admission of a guest to a core whose record the host lends as 50 numbers, over the host's work words. The result is 0 if it was done,
// and else the fault as one number (`code_of`); `decoded` of it is the answer but for the states of the check's own fault. If the result is
// 0, the last slot of the record at exit serves the guest (`ServedIf`).
#[unsafe(no_mangle)]
pub extern "C" fn handover_admit(
    numbers: &mut [u32],
    place: u32,
    handler: &[u8],
    proof: &[u8],
    ticks: u32,
    work: &mut [u64],
) -> u64
    ensures number { result ≡ code_of (Calls.as_verdict (admit (frame_in numbers.old) place handler.now proof.now ticks (length work.old)).answer) }
    ensures answer { decoded result ≡ without_states (Calls.as_verdict (admit (frame_in numbers.old) place handler.now proof.now ticks (length work.old)).answer) }
    ensures record { numbers.new ≡ numbers_after (admit (frame_in numbers.old) place handler.now proof.now ticks (length work.old)) numbers.old }
    ensures words { work.new ≡ Calls.work_after (frame_in numbers.old) place handler.now proof.now ticks work.old }
    ensures served { ServedIf (eqb result 0) handler.now proof.now ticks (frame_in numbers.new) }
{
    admission::lent::admit_lent(numbers, place, handler, proof, ticks, work)
}

// The release of a guest, with the result as above.
#[unsafe(no_mangle)]
pub extern "C" fn handover_release(numbers: &mut [u32], place: u32) -> u64
    ensures number { result ≡ code_of (Calls.as_verdict (released (frame_in numbers.old) place).answer) }
    ensures answer { decoded result ≡ without_states (Calls.as_verdict (released (frame_in numbers.old) place).answer) }
    ensures record { numbers.new ≡ numbers_after (released (frame_in numbers.old) place) numbers.old }
{
    admission::lent::release_lent(numbers, place)
}
