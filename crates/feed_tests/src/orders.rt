//! Squitters in the order of their timestamps.
use sq_feed::{Order, Timed};

// What an order gave: timestamps, frames by the number that fills them, and the count, at most four.
#[derive(Drop)]
struct Given {
    moments: [u64; 4],
    numbers: [u8; 4],
    count: usize,
}

// Puts one squitter, with a frame of one number, and returns what is due. One that does not fit is 9 as a count.
fn push(order: &mut Order, moment: u64, number: u8) -> Given {
    let is_put = order.put(&timed(moment, number)).is_ok();
    let mut given = pull(order, false);
    if !is_put {
        given.count = 9;
    }
    given
}

// Returns what is due, or what is held.
fn pull(order: &mut Order, is_end: bool) -> Given {
    let mut given = Given {
        moments: [0; 4],
        numbers: [0; 4],
        count: 0,
    };
    let mut slot = Timed::default();
    for at in 0..4 {
        let is_filled = if is_end {
            order.flush_into(&mut slot)
        } else {
            order.give_into(&mut slot)
        };
        if is_filled {
            given.moments[at] = slot.moment;
            given.numbers[at] = slot.frame[13];
            given.count = at + 1;
        }
    }
    given
}

// Returns a squitter with a frame of one number.
fn timed(moment: u64, number: u8) -> Timed {
    Timed {
        moment,
        frame: [number; 14],
    }
}

#[test]
fn squitters_in_order(rt: HostRuntime) {
    let mut order = Order::new(rt.alloc(), 25);
    assert!(rt; push(&mut order, 30, 1).count == 0);
    assert!(rt; push(&mut order, 10, 2).count == 0);
    assert!(rt; push(&mut order, 30, 3).count == 0);
    assert!(rt; push(&mut order, 20, 4).count == 0);
    assert!(rt; order.held() == 4);
    assert!(rt; push(&mut order, 34, 5).count == 0);
    let one = push(&mut order, 35, 6);
    assert!(rt; one.count == 1 && one.moments == [10, 0, 0, 0] && one.numbers == [2, 0, 0, 0]);
    let three = push(&mut order, 55, 7);
    assert!(rt;
        three.count == 3 && three.moments == [20, 30, 30, 0] && three.numbers == [4, 1, 3, 0]
    );
    // one below the last timestamp given is late, and one at it is not
    assert!(rt; push(&mut order, 29, 8).count == 0 && order.late() == 1 && order.held() == 3);
    let same = push(&mut order, 30, 9);
    assert!(rt; same.count == 1 && same.moments == [30, 0, 0, 0] && same.numbers == [9, 0, 0, 0]);
    assert!(rt; pull(&mut order, false).count == 0 && order.late() == 1);
    let last = pull(&mut order, true);
    assert!(rt; last.count == 3 && last.moments == [34, 35, 55, 0] && last.numbers == [5, 6, 7, 0]);
    assert!(rt; order.held() == 0);
    assert!(rt; pull(&mut order, true).count == 0);
}

#[test]
fn without_a_delay_each_is_given(rt: HostRuntime) {
    let mut order = Order::new(rt.alloc(), 0);
    assert!(rt; push(&mut order, u64::MAX, 1).moments == [u64::MAX, 0, 0, 0]);
    assert!(rt; push(&mut order, u64::MAX, 2).numbers == [2, 0, 0, 0]);
    assert!(rt; push(&mut order, u64::MAX - 1, 3).count == 0);
    assert!(rt; order.held() == 0 && order.late() == 1);
}

#[test]
fn the_longest_delay(rt: HostRuntime) {
    let mut order = Order::new(rt.alloc(), u64::MAX);
    assert!(rt; push(&mut order, 1, 1).count == 0);
    assert!(rt; push(&mut order, 0, 2).count == 0);
    let first = push(&mut order, u64::MAX, 3);
    assert!(rt; first.count == 1 && first.moments == [0, 0, 0, 0] && first.numbers == [2, 0, 0, 0]);
    assert!(rt; order.held() == 2);
}

// An order that grows holds as many as come, and gives them in order. The longest delay holds them until a flush.
#[test]
fn an_order_grows(rt: HostRuntime) {
    let mut order = Order::new(rt.alloc(), u64::MAX);
    for number in 0..10_000u64 {
        assert!(rt; push(&mut order, 10_000 - number, 7).count == 0);
    }
    assert!(rt; order.held() == 10_000);
    let mut slot = Timed::default();
    for moment in 1..10_001u64 {
        assert!(rt; order.flush_into(&mut slot) && slot.moment == moment);
    }
    assert!(rt; order.held() == 0 && order.late() == 0 && !order.flush_into(&mut slot));
}

// A flush gives what is not due, as for a source that pauses. What comes below it is late.
#[test]
fn flushed_early(rt: HostRuntime) {
    let mut order = Order::new(rt.alloc(), 100);
    let mut slot = Timed::default();
    assert!(rt; push(&mut order, 50, 1).count == 0 && push(&mut order, 60, 2).count == 0);
    assert!(rt; order.flush_into(&mut slot) && slot.moment == 50);
    assert!(rt; push(&mut order, 49, 3).count == 0 && order.late() == 1 && order.held() == 1);
    assert!(rt; push(&mut order, 50, 4).count == 0 && order.late() == 1 && order.held() == 2);
    let last = pull(&mut order, true);
    assert!(rt; last.count == 2 && last.moments == [50, 60, 0, 0] && last.numbers == [4, 2, 0, 0]);
}

// A copy goes on where the order was: what it holds, what it gave, and how many were late.
#[test]
fn a_copy_goes_on(rt: HostRuntime) {
    let mut order = Order::new(rt.alloc(), 10);
    for moment in [20, 10, 31, 5, 25] {
        let _ = push(&mut order, moment, 1);
    }
    assert!(rt; order.held() == 2 && order.late() == 1);
    let Ok(mut copy) = order.copied_to(rt.alloc(), 3) else {
        return;
    };
    assert!(rt; copy.held() == 2 && copy.late() == 1);
    assert!(rt; push(&mut copy, 19, 2).count == 0 && copy.late() == 2);
    let one = push(&mut copy, 35, 3);
    assert!(rt; one.count == 1 && one.moments == [25, 0, 0, 0] && one.numbers == [1, 0, 0, 0]);
    assert!(rt; order.held() == 2 && order.late() == 1);
}

#[test]
fn a_slot_is_kept(rt: HostRuntime) {
    let mut order = Order::new(rt.alloc(), 10);
    let mut slot = timed(5, 9);
    assert!(rt; !order.is_due() && !order.give_into(&mut slot) && !order.flush_into(&mut slot));
    assert!(rt; push(&mut order, 1, 1).count == 0);
    assert!(rt; !order.give_into(&mut slot) && slot.moment == 5 && slot.frame == [9; 14]);
    // the first is due once a later one by the delay has come
    assert!(rt; order.put(&timed(11, 2)).is_ok());
    assert!(rt; order.is_due() && order.give_into(&mut slot));
    assert!(rt; slot.moment == 1 && slot.frame == [1; 14]);
    assert!(rt; !order.is_due() && !order.give_into(&mut slot) && slot.moment == 1);
    assert!(rt; order.held() == 1 && order.flush_into(&mut slot));
    assert!(rt; slot.moment == 11 && slot.frame == [2; 14]);
    assert!(rt; order.held() == 0 && !order.flush_into(&mut slot) && slot.moment == 11);
}

#[test]
fn many_squitters(rt: HostRuntime) {
    let mut order = Order::new(rt.alloc(), 1000);
    let mut total = 0usize;
    let mut last = 0u64;
    for number in 0..20_000u64 {
        // the numbers of each pair are swapped
        let given = push(&mut order, number ^ 1, 7);
        total = total.wrapping_add(given.count);
        for moment in given.moments {
            if moment > 0 {
                assert!(rt; moment - 1 == last);
                last = moment;
            }
        }
    }
    assert!(rt; total == 19_000 && last == 18_999);
    assert!(rt; order.held() == 1000);
}
