// The slots of a record: whether one is at a place, whether they lie end to end, and how they are laid again when a guest goes.
ghost use Rattle.std.specs.Prelude.{cond, ◌&&◌, ◌≡◌, ◌+◌, ◌^◌, ◌≤◌, ◌<◌, leb, ltb, eqb};
ghost use Rattle.frame.specs.Slots.{places, held, total, holds, without, laid_from, laid_within, well_formed, frame_of, bare};
ghost use Rattle.admission.specs.Refinement.{laid_found, added_to};

use frame::{Frame, PLACES, Slot};

// The longest frame.
const MOST_LENGTH: u32 = 1000000;

// What is past the slots that are held.
pub(crate) const NO_SLOT: Slot = Slot {
    place: 0,
    first: 0,
    length: 0,
};

// A frame of this length that has no slots.
pub(crate) fn no_slots(length: u32) -> Frame
    ensures { result ≡ bare length }
{
    Frame {
        length,
        count: 0,
        slots: [NO_SLOT; PLACES],
    }
}

// The slots that are held.
#[tactic(auto, using(crate::proofs::Looking::take_shown))]
fn held(frame: &Frame) -> &[Slot]
    ensures { result.now ≡ held frame.now }
{
    let slots: &[Slot] = &frame.slots;
    &slots[..slots.len().min(frame.count as usize)]
}

// Whether one of the slots is at this place.
fn holds(slots: &[Slot], place: u32) -> bool
    ensures { result ≡ holds place slots.now }
{
    slots.iter().any(|slot| slot.place == place)
}

// Whether a slot is held at this place.
pub(crate) fn is_taken(frame: &Frame, place: u32) -> bool
    ensures { result ≡ holds place (held frame.now) }
{
    holds(held(frame), place)
}

// Whether a slot begins at this tick, ends within the frame and is at a place that there is.
fn lies_at(slot: Slot, tick: u32, length: u32) -> bool
    requires { tick ≤ length }
    ensures { result ≡ (eqb slot.first tick && leb (tick + slot.length) length && ltb slot.place places) }
{
    (slot.first == tick) & (slot.length <= length - tick) & (slot.place < PLACES as u32)
}

// The first tick after slots that lie end to end from tick 0 by the frame's end, each at a place of its own; none if they do not. One look at
// each slot, with the places of those after it: the index says where these begin.
fn laid_slots(slots: &[Slot], length: u32) -> Option<u32>
    ensures { result ≡ laid_found (laid_within length 0 slots.now) (total slots.now) }
{
    let mut tick = 0;
    for i in 0..slots.len() {
        let slot = slots[i];
        if !lies_at(slot, tick, length) {
            return None;
        }
        if holds(&slots[i + 1..], slot.place) {
            return None;
        }
        tick += slot.length;
    }
    Some(tick)
}

// The same, if the frame's length and the count are in range.
pub(crate) fn laid(frame: &Frame) -> Option<u32>
    ensures { result ≡ laid_found (well_formed frame.now) (total (held frame.now)) }
{
    if (frame.length < 1) | (frame.length > MOST_LENGTH) {
        return None;
    }
    if frame.count > PLACES as u32 {
        return None;
    }
    laid_slots(held(frame), frame.length)
}

// The record with one slot more.
pub(crate) fn added(frame: Frame, slot: Slot) -> Frame
    requires { frame.count < places }
    ensures { result ≡ added_to frame slot }
{
    let mut next = frame;
    let count = frame.count;
    next.slots[count as usize] = slot;
    next.count = count + 1;
    next
}

// The record with the slot of a guest that is laid from this tick on, unless the guest is at the place that is left out.
fn with_other(frame: Frame, slot: Slot, place: u32, tick: u32) -> Frame
    requires { frame.count < places }
    ensures { result ≡ cond (eqb slot.place place) frame (added_to frame (record { place = slot.place; first = tick; length = slot.length })) }
{
    if slot.place == place {
        return frame;
    }
    added(
        frame,
        Slot {
            place: slot.place,
            first: tick,
            length: slot.length,
        },
    )
}

// The tick at which the next slot begins.
fn tick_after(slot: Slot, place: u32, tick: u32) -> u32
    requires { tick + slot.length < 2 ^ 32 }
    ensures { result ≡ tick + cond (eqb slot.place place) 0 slot.length }
{
    if slot.place == place {
        return tick;
    }
    tick + slot.length
}

// The slots of all places but one, laid end to end from tick 0.
pub(crate) fn laid_without(frame: &Frame, place: u32) -> Frame
    requires { (frame.now.count ≤ places) × (total (held frame.now) ≤ frame.now.length) }
    ensures { result ≡ frame_of frame.now.length (laid_from 0 (without place (held frame.now))) }
{
    let slots = held(frame);
    let mut laid = no_slots(frame.length);
    let mut tick = 0;
    for slot in slots {
        laid = with_other(laid, *slot, place, tick);
        tick = tick_after(*slot, place, tick);
    }
    laid
}
