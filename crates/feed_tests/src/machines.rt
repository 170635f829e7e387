//! Machines, by the items that they return.
use sq_feed::{Avr, Beast, Columns, Found, Layout, RawFrame, Rows, Time};

// Returns the length of an item's frame and its time, or zeros for damage.
fn item(found: Option<Found>) -> Option<(usize, u64)> {
    match found {
        Some(Found::Whole(message)) => {
            let size = match message.frame {
                RawFrame::ModeAc(_) => 2,
                RawFrame::Short(_) => 7,
                RawFrame::Long(_) => 14,
            };
            let time = match message.time {
                Time::Unknown => 0,
                Time::Ticks(ticks) => ticks,
                Time::Millis(moment) => moment,
            };
            Some((size, time))
        }
        Some(Found::Foreign(_)) => Some((9, 9)),
        Some(Found::ReceiverId) => Some((8, 8)),
        Some(Found::Damage) => Some((0, 0)),
        None => None,
    }
}

#[test]
fn beast_in_pieces(rt: HostRuntime) {
    let mut beast = Beast::new();
    // the last clock byte is 26 (an escape), so it is doubled
    let (first, nothing) = beast.take(b"\x1a1\0\0\0\0\0\x1a");
    assert!(rt; first == 8);
    assert!(rt; item(nothing) == None);
    let (second, found) = beast.take(b"\x1a\x80\x20\x40\x1a3");
    assert!(rt; second == 4);
    assert!(rt; item(found) == Some((2, 26)));
    let (third, none) = beast.take(b"\x1a3");
    assert!(rt; third == 2);
    assert!(rt; item(none) == None);
    assert!(rt; item(beast.finish()) == Some((0, 0)));
}

#[test]
fn avr_in_pieces(rt: HostRuntime) {
    let mut avr = Avr::new();
    let (first, nothing) = avr.take(b"@00000000001A20");
    assert!(rt; first == 15);
    assert!(rt; item(nothing) == None);
    let (second, found) = avr.take(b"40;*");
    assert!(rt; second == 3);
    assert!(rt; item(found) == Some((2, 26)));
    let (third, none) = avr.take(b"*20");
    assert!(rt; third == 3);
    assert!(rt; item(none) == None);
    assert!(rt; item(avr.finish()) == Some((0, 0)));
}

#[test]
fn rows_in_pieces(rt: HostRuntime) {
    let mut log = Rows::new(Layout::Log);
    let (first, nothing) = log.take(b"26 20");
    assert!(rt; first == 5);
    assert!(rt; item(nothing) == None);
    let (second, found) = log.take(b"40\n7");
    assert!(rt; second == 3);
    assert!(rt; item(found) == Some((2, 26)));
    let mut table = Rows::new(Layout::Csv(Columns { time: 1, frame: 0 }));
    let (third, none) = table.take(b"5D4840D6F83D31,0.0269");
    assert!(rt; third == 21);
    assert!(rt; item(none) == None);
    assert!(rt; item(table.finish()) == Some((7, 26)));
}
