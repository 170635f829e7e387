//! Sorting squitters by timestamp: creating and freeing an order, and its input and output.
ghost use Rattle.std.specs.Prelude.{◌≡◌, ◌+◌, ◌*◌, ◌/◌, None};
ghost use Rattle.squitter_c.specs.OrderCalls.{HasGivenHeld, HasTakenInOrder, IsOrderCounted, IsOrderFlushed};
ghost use Rattle.squitter_c.specs.OrderCalls.{IsOrderGrown, IsOrderMade, IsOrderTaken, held_count, late_count};
ghost use Rattle.squitter_c.specs.Slots.{held_order};

use crate::faults::{Fault, NONE, Reason};
use crate::log_loop::Done;
use crate::order_slot::{OrderSlot, bytes_for, moved_to, order_in};
use sq_feed::{Order, Timed};
use sq_lent::{Lent, Room};

/// Returns the size in bytes of a block for an order that holds up to `room` squitters.
#[unsafe(no_mangle)]
pub extern "C" fn squitter_order_size(room: u32) -> usize
    ensures { result ≡ 512 + 24 * (room + room / 3 + 1) }
{
    bytes_for(room)
}

/// Creates an order that holds nothing. Squitters may come late by `reorder` milliseconds. The block belongs to the
/// order until the order is freed; it holds as many squitters as the block has room for. An existing order is freed
/// first. The fault is `Memory` if the block is smaller than [`squitter_order_size`] of 0; then there is no order.
#[unsafe(no_mangle)]
pub extern "C" fn squitter_order_new(order: &mut OrderSlot, block: Room, reorder: u64) -> Fault
    ensures { IsOrderMade reorder block.size (held_order order.new) result }
{
    squitter_order_free(order);
    match order_in(block, reorder) {
        Some(made) => {
            order.put(made);
            NONE
        }
        None => Fault::of(Reason::Memory),
    }
}

/// Moves the order to another block, with room for more. Its old block is the caller's again.
///
/// The faults are, in this order: `NoTracker` if there is no order; `Memory` if the block has no room for the
/// squitters that are held. After a fault the order stays where it is.
#[unsafe(no_mangle)]
pub extern "C" fn squitter_order_grow(order: &mut OrderSlot, block: Room) -> Fault
    ensures { IsOrderGrown (held_order order.old) (held_order order.new) result }
{
    match order.take() {
        Some(taken) => match moved_to(&taken, block) {
            Some(moved) => {
                order.put(moved);
                NONE
            }
            None => {
                order.put(taken);
                Fault::of(Reason::Memory)
            }
        },
        None => Fault::of(Reason::NoTracker),
    }
}

/// Frees the order. Its block is the caller's again. Safe to call twice, and on an order that was never created.
#[unsafe(no_mangle)]
pub extern "C" fn squitter_order_free(order: &mut OrderSlot)
    ensures { held_order order.new ≡ None }
{
    drop(order.take());
}

/// Takes squitters, by their timestamps (ms) and frames, and stores those that are due in the order of time, as many as
/// fit both arrays. `done` has the number of squitters taken, and of those stored. After code 0, if both arrays have
/// room for one more, all were taken, and none is due. Late squitters are taken, and counted.
///
/// The faults are `NoTracker` if there is no order, and nothing is changed then; `Memory` if the order is full, and
/// the next squitter was not taken.
#[unsafe(no_mangle)]
pub extern "C" fn squitter_order_take(
    order: &mut OrderSlot,
    moments: &[u64],
    frames: &[[u8; 14]],
    out_moments: &mut [u64],
    out_frames: &mut [[u8; 14]],
    done: &mut Done,
) -> Fault
    ensures { IsOrderTaken (held_order order.old) (held_order order.new) moments.now frames.now out_moments.old
        out_moments.new out_frames.old out_frames.new done.old done.new result }
{
    match order.take() {
        Some(mut taken) => {
            let (progress, is_full) = take_by(
                &mut taken.order,
                moments,
                frames,
                out_moments,
                out_frames,
            );
            *done = progress;
            order.put(taken);
            if is_full {
                Fault::of(Reason::Memory)
            } else {
                NONE
            }
        }
        None => Fault::of(Reason::NoTracker),
    }
}

/// Stores the squitters that are held in the order of time, as many as fit both arrays. `done` has the number stored.
/// If both arrays have room for one more, none is held any more.
///
/// The fault is `NoTracker` if there is no order; nothing is changed then.
#[unsafe(no_mangle)]
pub extern "C" fn squitter_order_flush(
    order: &mut OrderSlot,
    out_moments: &mut [u64],
    out_frames: &mut [[u8; 14]],
    done: &mut Done,
) -> Fault
    ensures { IsOrderFlushed (held_order order.old) (held_order order.new) out_moments.old out_moments.new
        out_frames.old out_frames.new done.old done.new result }
{
    match order.take() {
        Some(mut taken) => {
            *done = flush_by(&mut taken.order, out_moments, out_frames);
            order.put(taken);
            NONE
        }
        None => Fault::of(Reason::NoTracker),
    }
}

/// Writes how many squitters are held. The fault is `NoTracker` if there is no order.
#[unsafe(no_mangle)]
pub extern "C" fn squitter_order_held(order: &mut OrderSlot, out: &mut u64) -> Fault
    ensures counted { IsOrderCounted held_count (held_order order.old) out.old out.new result }
    ensures same { held_order order.new ≡ held_order order.old }
{
    match order.take() {
        Some(taken) => {
            let held = taken.order.held();
            order.put(taken);
            *out = held as u64;
            NONE
        }
        None => Fault::of(Reason::NoTracker),
    }
}

/// Writes how many squitters were late, and were dropped: up to 2^64 - 1. The fault is `NoTracker` if there is no
/// order.
#[unsafe(no_mangle)]
pub extern "C" fn squitter_order_late(order: &mut OrderSlot, out: &mut u64) -> Fault
    ensures counted { IsOrderCounted late_count (held_order order.old) out.old out.new result }
    ensures same { held_order order.new ≡ held_order order.old }
{
    match order.take() {
        Some(taken) => {
            let late = taken.order.late();
            order.put(taken);
            *out = late;
            NONE
        }
        None => Fault::of(Reason::NoTracker),
    }
}

// Takes squitters. Returns whether the order is full.
fn take_by(
    order: &mut Order<&'static Lent>,
    moments: &[u64],
    frames: &[[u8; 14]],
    out_moments: &mut [u64],
    out_frames: &mut [[u8; 14]],
) -> (Done, bool)
    ensures { HasTakenInOrder order.old order.new moments.now frames.now out_moments.old out_moments.new out_frames.old
        out_frames.new result.0 result.1 }
{
    let count = moments.len().min(frames.len());
    let room = out_moments.len().min(out_frames.len());
    let mut slot = Timed::default();
    let mut taken = 0;
    let mut written = 0;
    while written < room && (taken < count || order.is_due()) {
        if order.give_into(&mut slot) {
            out_moments[written] = slot.moment;
            out_frames[written] = slot.frame;
            written += 1;
        } else {
            let frame = frames[taken];
            let one = Timed {
                moment: moments[taken],
                frame,
            };
            match order.put(&one) {
                Ok(()) => taken += 1,
                Err(_) => return (Done { taken, written }, true),
            }
        }
    }
    (Done { taken, written }, false)
}

// Stores the squitters that are held.
fn flush_by(
    order: &mut Order<&'static Lent>,
    out_moments: &mut [u64],
    out_frames: &mut [[u8; 14]],
) -> Done
    ensures { HasGivenHeld order.old order.new out_moments.old out_moments.new out_frames.old out_frames.new result }
{
    let room = out_moments.len().min(out_frames.len());
    let mut slot = Timed::default();
    let mut written = 0;
    while written < room && order.flush_into(&mut slot) {
        out_moments[written] = slot.moment;
        out_frames[written] = slot.frame;
        written += 1;
    }
    Done { taken: 0, written }
}
