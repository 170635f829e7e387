//! The lines of a feed's squitters, in the order of their timestamps.
ghost use Rattle.std.specs.Prelude.{◌≡◌, ◌++◌, ℕ, [], ◌∷◌, Some, false, length, IfErr, IfOk, OnErr, OnOk, take, true};
ghost use Rattle.sq_devices.specs.Calls.{HasPut};
ghost use Rattle.sq_devices.specs.Changes.{WroteLast, written_on};
ghost use Rattle.sq_devices.specs.Device.{WroteFront};
ghost use Rattle.sq_feed.specs.Feeds.{ear_at_end, lines_of, steps_left, told_at_end};
ghost use Rattle.sq_feed.specs.Readers.{HasEnded};
ghost use Rattle.sq_feed.specs.Units.{watched_all};
ghost use Rattle.sq_feed.specs.Orders.{given_all, given_now, is_due, settled, sorted_all};
ghost use Rattle.sq_commands.specs.Feed.{HasToldText, HasLined, HasPutLast, HasPutPart, HasPutSorted, HasStopped};
ghost use Rattle.sq_commands.specs.Feed.{IsSettled, WrotePart, end_by, end_of, order_with, waiting_in};

use crate::feed::FeedEnd;
use sq_devices::{Failed, Sink, put_all, put_last};
use sq_digits::TextBuffer;
use sq_feed::{Feed, LINE_LIMIT, Order, Timed, Units, push_log_line};
use sq_log::RunFault;
use std::alloc::Allocator;

// The size of the lines that are put at once.
const LINES: usize = 8192;

// The lines that are put at once.
pub(crate) type FeedText = TextBuffer<LINES>;

/// Returns the order of squitters that may come late by `reorder` milliseconds. With 0, none is needed.
pub(crate) fn order_of<A: Allocator>(alloc: A, reorder: u64) -> Option<Order<A>>
    ensures is { result ≡ order_with reorder }
    ensures settled { IsSettled result }
{
    if reorder == 0 {
        None
    } else {
        Some(Order::new(alloc, reorder))
    }
}

/// Feeds a piece that arrived at this moment (ms), and puts the lines of the squitters that were ready and of those in
/// it, or the lines that are due. Watches their timestamps.
pub(crate) fn put_piece<A: Allocator, K: Sink>(
    feed: &mut Feed,
    order: &mut Option<Order<A>>,
    units: &mut Units,
    piece: &[u8],
    arrival: u64,
    text: &mut FeedText,
    sink: &mut K,
) -> Result<(), RunFault>
    requires { IsSettled order.old }
    ensures put { OnOk result (HasToldText arrival feed.old piece.now feed.new
        (λ came. HasPutSorted order.old order.new came (HasPut K.Sink sink.old sink.new)
        × (units.new ≡ watched_all units.old came))) }
    ensures part { OnErr result ((count : ℕ) × HasToldText arrival feed.old (take count piece.now) feed.new
        (λ came. HasPutPart order.old came (WroteFront (K.written sink.old) (K.written sink.new)))) }
    ensures ended { OnOk result (length piece.now ≡ 0 → HasEnded feed.old.reader → HasEnded feed.new.reader) }
    ensures done { OnOk result (steps_left feed.new ≡ 0) }
    ensures stopped { IfErr result (HasStopped order.old (K.has_failed sink.new)) }
    ensures unfinished { K.finishes sink.new ≡ K.finishes sink.old }
{
    let mut slot = Timed::default();
    let mut at = 0;
    text.clear();
    while feed.goes_on(piece.len() - at) {
        let step = feed.step_into::<0>(&piece[at..], arrival, &mut slot);
        at += step.taken;
        if step.is_filled {
            units.hear_frame(&slot);
            match put_squitter(order, &slot, text, sink) {
                Ok(()) => {}
                Err(fault) => return Err(fault),
            }
        }
    }
    match put_all(sink, text.as_bytes()) {
        Ok(()) => Ok(()),
        Err(Failed) => Err(RunFault::Write),
    }
}

// Makes the line of a squitter, or sorts it and makes the lines of those that are due.
#[inline(always)]
fn put_squitter<A: Allocator, K: Sink>(
    order: &mut Option<Order<A>>,
    one: &Timed,
    text: &mut FeedText,
    sink: &mut K,
) -> Result<(), RunFault>
    requires { IsSettled order.old }
    ensures put { OnOk result (HasPutSorted order.old order.new (one.now ∷ [])
        (HasLined K.Sink sink.old sink.new text.old.bytes text.new.bytes)) }
    ensures part { OnErr result (HasPutPart order.old (one.now ∷ [])
        (λ lines. WroteFront (K.written sink.old) (K.written sink.new) (text.old.bytes ++ lines))) }
    ensures stopped { IfErr result (HasStopped order.old (K.has_failed sink.new)) }
    ensures unfinished { K.finishes sink.new ≡ K.finishes sink.old }
{
    match order {
        None => match put_line(one, text, sink) {
            Ok(()) => Ok(()),
            Err(Failed) => Err(RunFault::Write),
        },
        Some(order) => put_in_order(order, one, text, sink),
    }
}

/// Ends the source at this moment (ms): puts the lines of its last squitters and of those that wait, and finishes the
/// sink.
pub(crate) fn put_end<A: Allocator, K: Sink>(
    feed: &mut Feed,
    order: &mut Option<Order<A>>,
    units: &mut Units,
    is_live: bool,
    arrival: u64,
    text: &mut FeedText,
    sink: &mut K,
) -> Result<FeedEnd, RunFault>
    requires settled { IsSettled order.old }
    requires none { feed.old.ready ≡ [] }
    ensures ok { IfOk result (λ end. (end ≡ end_of is_live arrival units.old feed.old)
        × HasPutLast order.old (told_at_end arrival feed.old) (WroteLast (written_on K.Sink sink.old sink.new))) }
    ensures err { IfErr result (λ fault. HasStopped order.old (K.has_failed sink.new) fault
        × HasPutLast order.old (told_at_end arrival feed.old) (WrotePart (written_on K.Sink sink.old sink.new))) }
{
    feed.close();
    match put_last_squitters(feed, order, units, arrival, text, sink) {
        Ok(()) => Ok(end_now(feed, units, is_live)),
        Err(fault) => Err(fault),
    }
}

// Returns the end of a source after its last item.
fn end_now(feed: &Feed, units: &Units, is_live: bool) -> FeedEnd
    ensures { result ≡ end_by is_live units.now feed.now.ear }
{
    let is_dated = feed.is_dated();
    FeedEnd {
        counts: feed.counts(),
        stranger: feed.stranger(),
        is_dated,
        unit: units.unit(!is_dated, is_live),
        breaks: feed.breaks(),
        is_ahead: feed.is_ahead_of_arrivals(),
    }
}

// Puts the lines of the last squitters of a source that has ended and of those that wait, and finishes the sink.
fn put_last_squitters<A: Allocator, K: Sink>(
    feed: &mut Feed,
    order: &mut Option<Order<A>>,
    units: &mut Units,
    arrival: u64,
    text: &mut FeedText,
    sink: &mut K,
) -> Result<(), RunFault>
    requires ended { HasEnded feed.old.reader }
    requires settled { IsSettled order.old }
    requires none { feed.old.ready ≡ [] }
    ensures ok { OnOk result (HasPutLast order.old (told_at_end arrival feed.old)
        (WroteLast (written_on K.Sink sink.old sink.new))) }
    ensures heard { OnOk result (feed.new.ear ≡ ear_at_end arrival feed.old) }
    ensures watched { OnOk result (units.new ≡ watched_all units.old (told_at_end arrival feed.old)) }
    ensures err { IfErr result (λ fault. HasStopped order.old (K.has_failed sink.new) fault
        × HasPutLast order.old (told_at_end arrival feed.old) (WrotePart (written_on K.Sink sink.old sink.new))) }
{
    match put_last_items(feed, order, units, arrival, text, sink) {
        Ok(()) => {}
        Err(fault) => return Err(fault),
    }
    match put_waiting(order, text, sink) {
        Ok(()) => {}
        Err(Failed) => return Err(RunFault::Write),
    }
    match put_last(sink, &[]) {
        Ok(()) => Ok(()),
        Err(Failed) => Err(RunFault::Write),
    }
}

// Puts the lines of the last squitters of a source that has ended: those of its last items, and those of rows that
// waited for others to confirm their times.
fn put_last_items<A: Allocator, K: Sink>(
    feed: &mut Feed,
    order: &mut Option<Order<A>>,
    units: &mut Units,
    arrival: u64,
    text: &mut FeedText,
    sink: &mut K,
) -> Result<(), RunFault>
    requires ended { HasEnded feed.old.reader }
    requires settled { IsSettled order.old }
    requires none { feed.old.ready ≡ [] }
    ensures put { OnOk result (HasPutSorted order.old order.new (told_at_end arrival feed.old)
        (HasPut K.Sink sink.old sink.new)) }
    ensures heard { OnOk result (feed.new.ear ≡ ear_at_end arrival feed.old) }
    ensures watched { OnOk result (units.new ≡ watched_all units.old (told_at_end arrival feed.old)) }
    ensures part { OnErr result (HasPutPart order.old (told_at_end arrival feed.old)
        (WroteFront (K.written sink.old) (K.written sink.new))) }
    ensures stopped { IfErr result (HasStopped order.old (K.has_failed sink.new)) }
    ensures unfinished { K.finishes sink.new ≡ K.finishes sink.old }
{
    match put_piece(feed, order, units, b"", arrival, text, sink) {
        Ok(()) => {}
        Err(fault) => return Err(fault),
    }
    feed.settle();
    put_piece(feed, order, units, b"", arrival, text, sink)
}

// Sorts a squitter, and makes the lines of those that are due.
#[inline(never)]
fn put_in_order<A: Allocator, K: Sink>(
    order: &mut Order<A>,
    one: &Timed,
    text: &mut FeedText,
    sink: &mut K,
) -> Result<(), RunFault>
    ensures sorted { OnOk result (order.new ≡ sorted_all order.old (one.now ∷ [])) }
    ensures none { OnOk result (is_due order.new.reorder order.new.latest order.new.held ≡ false) }
    ensures put { OnOk result (HasLined K.Sink sink.old sink.new text.old.bytes text.new.bytes
        (lines_of (given_all order.old (one.now ∷ [])))) }
    ensures part { OnErr result (WroteFront (K.written sink.old) (K.written sink.new)
        (text.old.bytes ++ lines_of (given_all order.old (one.now ∷ [])))) }
    ensures stopped { IfErr result (HasStopped (Some order.old) (K.has_failed sink.new)) }
    ensures unfinished { K.finishes sink.new ≡ K.finishes sink.old }
{
    match put_due(order, text, sink) {
        Ok(()) => {}
        Err(Failed) => return Err(RunFault::Write),
    }
    match order.put(one) {
        Ok(()) => {}
        Err(_) => return Err(RunFault::Memory),
    }
    match put_due(order, text, sink) {
        Ok(()) => Ok(()),
        Err(Failed) => Err(RunFault::Write),
    }
}

// Makes the lines of the squitters that are due.
#[inline(always)]
fn put_due<A: Allocator, K: Sink>(
    order: &mut Order<A>,
    text: &mut FeedText,
    sink: &mut K,
) -> Result<(), Failed>
    ensures sorted { OnOk result (order.new ≡ settled order.old) }
    ensures none { OnOk result (is_due order.new.reorder order.new.latest order.new.held ≡ false) }
    ensures put { OnOk result (HasLined K.Sink sink.old sink.new text.old.bytes text.new.bytes
        (lines_of (given_now order.old))) }
    ensures part { OnErr result (WroteFront (K.written sink.old) (K.written sink.new)
        (text.old.bytes ++ lines_of (given_now order.old))) }
    ensures failed { OnErr result (K.has_failed sink.new ≡ true) }
    ensures unfinished { K.finishes sink.new ≡ K.finishes sink.old }
{
    let mut slot = Timed::default();
    while order.give_into(&mut slot) {
        put_line(&slot, text, sink)?;
    }
    Ok(())
}

// Appends the line of a squitter to the text. Puts the text first if it has no room for another line.
#[inline(always)]
fn put_line<K: Sink>(one: &Timed, text: &mut FeedText, sink: &mut K) -> Result<(), Failed>
    ensures put { OnOk result (HasLined K.Sink sink.old sink.new text.old.bytes text.new.bytes
        (lines_of (one.now ∷ []))) }
    ensures part { OnErr result (WroteFront (K.written sink.old) (K.written sink.new)
        (text.old.bytes ++ lines_of (one.now ∷ []))) }
    ensures failed { OnErr result (K.has_failed sink.new ≡ true) }
    ensures unfinished { K.finishes sink.new ≡ K.finishes sink.old }
{
    if text.len() + LINE_LIMIT > LINES {
        put_all(sink, text.as_bytes())?;
        text.clear();
    }
    push_log_line(text, one.moment, &one.frame);
    Ok(())
}

// Puts the lines of the squitters that wait.
fn put_waiting<A: Allocator, K: Sink>(
    order: &mut Option<Order<A>>,
    text: &mut FeedText,
    sink: &mut K,
) -> Result<(), Failed>
    ensures put { OnOk result (HasPut K.Sink sink.old sink.new (lines_of (waiting_in order.old))) }
    ensures part { OnErr result (WroteFront (K.written sink.old) (K.written sink.new)
        (lines_of (waiting_in order.old))) }
    ensures failed { OnErr result (K.has_failed sink.new ≡ true) }
    ensures unfinished { K.finishes sink.new ≡ K.finishes sink.old }
{
    match order {
        None => Ok(()),
        Some(order) => put_held(order, text, sink),
    }
}

// Puts the lines of the squitters that an order holds.
fn put_held<A: Allocator, K: Sink>(
    order: &mut Order<A>,
    text: &mut FeedText,
    sink: &mut K,
) -> Result<(), Failed>
    ensures put { OnOk result (HasPut K.Sink sink.old sink.new (lines_of order.old.held)) }
    ensures part { OnErr result (WroteFront (K.written sink.old) (K.written sink.new) (lines_of order.old.held)) }
    ensures failed { OnErr result (K.has_failed sink.new ≡ true) }
    ensures unfinished { K.finishes sink.new ≡ K.finishes sink.old }
{
    let mut slot = Timed::default();
    text.clear();
    while order.flush_into(&mut slot) {
        put_line(&slot, text, sink)?;
    }
    put_all(sink, text.as_bytes())
}
