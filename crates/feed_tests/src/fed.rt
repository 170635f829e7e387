//! The lines of the squitters that a feed gives.
use sq_digits::TextBuffer;
use sq_feed::{Feed, LINE_LIMIT, Timed, push_log_line};

// Feeds a piece, and appends the lines of its squitters, as many as fit.
pub(crate) fn push_lines(feed: &mut Feed, piece: &[u8], arrival: u64, text: &mut TextBuffer<1024>) {
    let mut slot = Timed::default();
    let mut rest = piece;
    while feed.goes_on(rest.len()) {
        let step = feed.step_into::<0>(rest, arrival, &mut slot);
        rest = &rest[step.taken..];
        if step.is_filled && text.len() + LINE_LIMIT <= 1024 {
            push_log_line(text, slot.moment, &slot.frame);
        }
    }
}

// Ends the source, and appends the lines of its last squitters, with those of rows that waited.
pub(crate) fn push_last_lines(feed: &mut Feed, arrival: u64, text: &mut TextBuffer<1024>) {
    feed.close();
    push_lines(feed, b"", arrival, text);
    feed.settle();
    push_lines(feed, b"", arrival, text);
}
