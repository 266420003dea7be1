// The record as 50 numbers that a host lends: the frame's length, the count of slots, and place, first tick and length of each slot.
ghost use Rattle.std.specs.Prelude.{true, [], ◌∷◌, ◌≡◌, ◌+◌, ◌-◌, ◌*◌, ◌/◌, ◌<◌, min, eqb, length, get_or, is_ok};
ghost use Rattle.std.proofs.lemmas.List.Edits.{sets};
ghost use Rattle.report.specs.Code.{code_of, without_states, decoded};
ghost use Rattle.frame.specs.Slots.{places};
ghost use Rattle.frame.specs.Calls.{as_verdict, released, work_after};
ghost use Rattle.frame.specs.Calls as Calls;
ghost use Rattle.frame.specs.Served.{ServedIf};
ghost use Rattle.frame.specs.Lent.{slot_in, slots_in, frame_in, slot_numbers, numbers_of, numbers_after};

use super::{admit, release};
use checker::{Fault, Verdict};
use frame::{Frame, PLACES, Refusal, Slot};
use report::code_of;
use std::array;

// How many numbers a record is.
pub const RECORD_NUMBERS: usize = 50;

// Number i, and 0 where there is none.
fn number_at(numbers: &[u32], i: usize) -> u32
    ensures { result ≡ get_or numbers.now i 0 }
{
    numbers.get(i).copied().unwrap_or(0)
}

// Slot i of the numbers.
fn slot_in(numbers: &[u32], i: usize) -> Slot
    requires { i < places }
    ensures { result ≡ slot_in numbers.now i }
{
    Slot {
        place: number_at(numbers, 2 + 3 * i),
        first: number_at(numbers, 3 + 3 * i),
        length: number_at(numbers, 4 + 3 * i),
    }
}

// The 16 slots of the numbers.
fn slots_in(numbers: &[u32]) -> [Slot; PLACES]
    ensures { result ≡ slots_in numbers.now places }
{
    array::from_fn(|i| slot_in(numbers, i))
}

// How many of `count` slots so many numbers have in full.
fn in_full(count: u32, len: usize) -> u32
    ensures { result ≡ min count ((len - 2) / 3) }
{
    (count as usize).min(len.saturating_sub(2) / 3) as u32
}

// The record that numbers hold. One that is not 50 numbers has no frame, so that it is malformed.
fn frame_in(numbers: &[u32]) -> Frame
    ensures { result ≡ frame_in numbers.now }
{
    let slots = slots_in(numbers);
    let count = number_at(numbers, 1);
    if numbers.len() == RECORD_NUMBERS {
        return Frame {
            length: number_at(numbers, 0),
            count,
            slots,
        };
    }
    Frame {
        length: 0,
        count: in_full(count, numbers.len()),
        slots,
    }
}

// Writes slot i.
fn put_slot(numbers: &mut [u32], i: usize, slot: Slot)
    requires { (i < places) × (length numbers.old ≡ 50) }
    ensures { numbers.new ≡ sets numbers.old (2 + 3 * i) (slot_numbers (slot ∷ [])) }
{
    let at = 2 + 3 * i;
    numbers[at] = slot.place;
    numbers[at + 1] = slot.first;
    numbers[at + 2] = slot.length;
}

// Writes a record over the 50 numbers.
fn put_frame(numbers: &mut [u32], frame: Frame)
    requires { length numbers.old ≡ 50 }
    ensures numbers { numbers.new ≡ numbers_of frame }
    ensures read { frame_in numbers.new ≡ frame }
{
    numbers[0] = frame.length;
    numbers[1] = frame.count;
    // By index: slot i has three numbers from 2 + 3 * i on, and `put_slot` says so.
    for i in 0..PLACES {
        put_slot(numbers, i, frame.slots[i]);
    }
}

// The answer with its number.
pub fn verdict_of(answer: Result<(), Refusal>) -> Verdict
    ensures { result ≡ as_verdict answer }
{
    match answer {
        Ok(()) => Ok(0),
        Err(refusal) => Err(Fault::from(refusal)),
    }
}

// Writes the record of a call that was done over the numbers, and returns the answer as one number.
fn answered(numbers: &mut [u32], frame: Frame, answer: Result<(), Refusal>) -> u64
    requires { is_ok answer ≡ true → length numbers.old ≡ 50 }
    ensures number { result ≡ code_of (as_verdict answer) }
    ensures numbers { numbers.new ≡ numbers_after (record { frame = frame; answer = answer }) numbers.old }
    ensures read { is_ok answer ≡ true → frame_in numbers.new ≡ frame }
{
    if answer.is_ok() {
        put_frame(numbers, frame);
    }
    code_of(verdict_of(answer))
}

// An admission to the record in the numbers. The result is 0 if it was done, and else the fault as one number; then the numbers are as they
// were.
pub fn admit_lent(
    numbers: &mut [u32],
    place: u32,
    handler: &[u8],
    proof: &[u8],
    ticks: u32,
    work: &mut [u64],
) -> u64
    ensures number { result ≡ code_of (as_verdict (Calls.admit (frame_in numbers.old) place handler.now proof.now ticks (length work.old)).answer) }
    ensures answer { decoded result ≡ without_states (as_verdict (Calls.admit (frame_in numbers.old) place handler.now proof.now ticks (length work.old)).answer) }
    ensures record { numbers.new ≡ numbers_after (Calls.admit (frame_in numbers.old) place handler.now proof.now ticks (length work.old)) numbers.old }
    ensures words { work.new ≡ work_after (frame_in numbers.old) place handler.now proof.now ticks work.old }
    ensures served { ServedIf (eqb result 0) handler.now proof.now ticks (frame_in numbers.new) }
{
    let mut frame = frame_in(numbers);
    let answer = admit(&mut frame, place, handler, proof, ticks, work);
    answered(numbers, frame, answer)
}

// A release from the record in the numbers, with the result as above.
pub fn release_lent(numbers: &mut [u32], place: u32) -> u64
    ensures number { result ≡ code_of (as_verdict (released (frame_in numbers.old) place).answer) }
    ensures answer { decoded result ≡ without_states (as_verdict (released (frame_in numbers.old) place).answer) }
    ensures record { numbers.new ≡ numbers_after (released (frame_in numbers.old) place) numbers.old }
{
    let mut frame = frame_in(numbers);
    let answer = release(&mut frame, place);
    answered(numbers, frame, answer)
}
