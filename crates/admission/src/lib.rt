// Admission of guests to a core (docs/ADMISSION.md). A call that is turned away leaves the record as it was.
#![tactic(auto)]

ghost use Rattle.std.specs.Prelude.{true, false, ◌≡◌, ◌<◌, length, is_ok};
ghost use Rattle.frame.specs.Slots.{places, held, total, holds, well_formed, last_slot, left_over};
ghost use Rattle.frame.specs.Slots as Slots;
ghost use Rattle.frame.specs.Calls.{on_need, admit, released, work_after};
ghost use Rattle.frame.specs.Served.{ServedIf};

use checker::check;
use frame::{Frame, PLACES, Refusal, Slot};
use pair::rows;
use slots::{NO_SLOT, added, is_taken, laid, laid_without, no_slots};

pub mod lent;
mod slots;

// The last guest place, and the most ticks per step.
const LAST_PLACE: u32 = 15;

const MOST_TICKS: u32 = 1000;

// A frame of this length that has no slots.
pub fn bare(length: u32) -> Frame
    ensures { result ≡ Slots.bare length }
{
    no_slots(length)
}

// The slot that was added last.
pub fn last_slot(frame: Frame) -> Slot
    ensures { result ≡ last_slot frame }
{
    let last = (frame.count as usize).saturating_sub(1);
    frame.slots.get(last).copied().unwrap_or(NO_SLOT)
}

// The ticks after the last slot; a malformed record has none.
pub fn left_over(frame: Frame) -> u32
    ensures { result ≡ left_over frame }
{
    match laid(&frame) {
        Some(end) => frame.length - end,
        None => 0,
    }
}

// Gives a guest the slot from tick `end` on, where the last slot ends, if its need fits into the frame.
fn grant(frame: &mut Frame, place: u32, end: u32, need: u64) -> Result<(), Refusal>
    requires { (well_formed frame.old ≡ true) × (holds place (held frame.old) ≡ false) × (place < places) × (end ≡ total (held frame.old)) }
    ensures { record { frame = frame.new; answer = result } ≡ on_need frame.old place need }
{
    let room = frame.length - end;
    if need > room as u64 {
        return Err(Refusal::NoRoom);
    }
    let kept = laid_without(frame, place);
    *frame = added(
        kept,
        Slot {
            place,
            first: end,
            length: need as u32,
        },
    );
    Ok(())
}

// Admits the guest of two files at a place, with so many ticks per step. The work words end as the check leaves them, and are untouched if
// it is not reached. `ServedIf` is what is promised of a guest that is admitted.
pub fn admit(
    frame: &mut Frame,
    place: u32,
    handler: &[u8],
    proof: &[u8],
    ticks: u32,
    work: &mut [u64],
) -> Result<(), Refusal>
    ensures outcome { record { frame = frame.new; answer = result } ≡ admit frame.old place handler.now proof.now ticks (length work.old) }
    ensures words { work.new ≡ work_after frame.old place handler.now proof.now ticks work.old }
    ensures served { ServedIf (is_ok result) handler.now proof.now ticks frame.new }
{
    if place > LAST_PLACE {
        return Err(Refusal::NoSuchPlace);
    }
    if is_taken(frame, place) {
        return Err(Refusal::Taken);
    }
    let end = laid(frame).ok_or(Refusal::Malformed)?;
    if (ticks < 1) | (ticks > MOST_TICKS) {
        return Err(Refusal::WrongTicks);
    }
    match check(handler, proof, rows(), work) {
        Err(fault) => Err(Refusal::Check(fault)),
        Ok(steps) => grant(frame, place, end, steps as u64 * ticks as u64),
    }
}

// Releases the guest at a place, and closes the gap.
pub fn release(frame: &mut Frame, place: u32) -> Result<(), Refusal>
    ensures { record { frame = frame.new; answer = result } ≡ released frame.old place }
{
    if place > LAST_PLACE {
        return Err(Refusal::NoSuchPlace);
    }
    if !is_taken(frame, place) {
        return Err(Refusal::NotTaken);
    }
    if laid(frame).is_none() {
        return Err(Refusal::Malformed);
    }
    *frame = laid_without(frame, place);
    Ok(())
}
