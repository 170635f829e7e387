//! Adding a frame to a tracker.
ghost use Rattle.squitter_c.specs.Faults.{Tells, fault_of};
ghost use Rattle.squitter_c.specs.Frames.{frame_of};
ghost use Rattle.squitter_c.specs.Heard.{IsPlainHeard};
ghost use Rattle.std.specs.Prelude.{◌≡◌, option_map};
ghost use Rattle.squitter_c.specs.Trackers.{IsHeardBy, IsTrackerHeard, of_tracker};
ghost use Rattle.squitter_c.specs.Slots.{held_listener};

use crate::faults::{Fault, NONE, Reason};
use crate::heard::{PlainHeard, plain_heard};
use crate::listener::Listener;
use crate::slot::Slot;
use sq_bits::Frame;
use sq_lent::Lent;
use sq_message::read_frame;
use sq_text::LineFault;
use sq_track::{Heard, TrackFault, Tracker};
use std::alloc::Allocator;

/// Adds a frame with its timestamp, and writes the result from this frame and all frames that the tracker accepted
/// before it. The faults are, in this order: `NoTracker`; `NotDf17` and `Parity` of the frame; `MomentBack` with the
/// last accepted timestamp, if `moment` is before it; `Full` if the frame carries a position and as many other
/// addresses as the limit are present; `Memory` if an allocation fails. After a fault the tracker is unchanged.
#[unsafe(no_mangle)]
pub extern "C" fn squitter_tracker_hear(
    tracker: &mut Slot,
    moment: u64,
    frame: &[u8; 14],
    out: &mut PlainHeard,
) -> Fault
    ensures { IsTrackerHeard moment (frame_of frame.now) (held_listener tracker.old) (held_listener tracker.new)
        out.old out.new result }
{
    let mut held = tracker.take();
    let fault = hear_in(&mut held, moment, frame, out);
    tracker.put_back(held);
    fault
}

// Adds a frame to the listener of a slot, if there is one.
#[inline(always)]
pub(crate) fn hear_in(
    held: &mut Option<Box<Listener, Lent>>,
    moment: u64,
    frame: &[u8; 14],
    out: &mut PlainHeard,
) -> Fault
    ensures { IsTrackerHeard moment (frame_of frame.now) (option_map (λ b. b.value) held.old)
        (option_map (λ b. b.value) held.new) out.old out.new result }
{
    match held {
        Some(taken) => hear_by(&mut taken.tracker, moment, &Frame(*frame), out),
        None => Fault::of(Reason::NoTracker),
    }
}

// Adds a frame to a tracker.
#[inline(always)]
fn hear_by<A: Allocator>(
    tracker: &mut Tracker<A>,
    moment: u64,
    frame: &Frame,
    out: &mut PlainHeard,
) -> Fault
    ensures { IsHeardBy moment frame.now tracker.old tracker.new out.old out.new result }
{
    match read_frame(frame) {
        Ok(squitter) => {
            let answer = tracker.hear(moment, &squitter);
            tell(&answer, out)
        }
        Err(fault) => Fault::of(Reason::Line(fault.into())),
    }
}

// Writes the result, or reports why there is none.
#[inline(always)]
fn tell(answer: &Result<Heard, TrackFault>, out: &mut PlainHeard) -> Fault
    ensures { Tells IsPlainHeard of_tracker answer.now out.old out.new result }
{
    match answer {
        Ok(heard) => {
            *out = plain_heard(heard);
            NONE
        }
        Err(fault) => fault_of_tracker(fault),
    }
}

// Returns why a tracker refuses a squitter, as a fault.
#[cold]
#[inline(never)]
pub(crate) fn fault_of_tracker(fault: &TrackFault) -> Fault
    ensures { result ≡ fault_of (of_tracker fault.now) }
{
    match fault {
        TrackFault::MomentBack(last) => Fault::of(Reason::Line(LineFault::MomentBack(*last))),
        TrackFault::Full => Fault::of(Reason::Line(LineFault::Full)),
        TrackFault::Memory => Fault::of(Reason::Memory),
        TrackFault::NoLimit => Fault::of(Reason::NoLimit),
    }
}
