//! The rows of `track`, in named columns.
ghost use Rattle.std.specs.Prelude.{◌≡◌, ◌+◌, ◌≤◌, ◌++◌, [], Ok, Err, length};
ghost use Rattle.sq_digits.specs.Buffer.{text_len};
ghost use Rattle.sq_angle.specs.Decimal.{DecimalWriter};
ghost use Rattle.sq_text.specs.Rows.{cells, room, row_text};
ghost use Rattle.sq_track.specs.declared.heard.Heard.TheVariants.{Fix};
ghost use Rattle.sq_commands.specs.Formats.{HasRoom, Writers};
ghost use Rattle.sq_commands.specs.Heard.{answer_word, blank_track, heard_row, place_columns, place_row, track_columns};

use crate::answers::HeardSquitter;
use crate::formats::RowForm;
use sq_log::LineText;
use sq_message::Place;
use sq_text::{
    Form, LineFault, kind_name, push_address, push_blank, push_degrees, push_end, push_fault_word,
    push_feet, push_line, push_number, push_word,
};
use sq_track::Heard;

/// Writes the row of a squitter that was heard into an empty text.
pub(crate) fn push_heard_row<R: RowForm>(text: &mut LineText, number: u64, found: &HeardSquitter)
    requires { text.old.bytes ≡ [] }
    ensures { (writers : Writers)
        → text.new.bytes ≡ row_text R.shape track_columns number (heard_row writers (Ok found.now)) }
{
    let form = R::form();
    let timed = &found.timed;
    let me = timed.squitter.me();
    push_line(text, form, number);
    push_number(text, form, "moment", timed.moment);
    push_word(text, form, "answer", answer_word(&found.heard));
    push_address(text, form, "address", timed.squitter.address());
    push_word(text, form, "kind", kind_name(&me));
    push_coordinates(text, form, &found.heard);
    push_feet(text, form, &me);
    push_end(text, form);
}

/// Writes the row of a refused line into an empty text.
pub(crate) fn push_refused_row<R: RowForm>(text: &mut LineText, number: u64, fault: LineFault)
    requires { text.old.bytes ≡ [] }
    ensures { (writers : Writers)
        → text.new.bytes ≡ row_text R.shape track_columns number (heard_row writers (Err fault)) }
{
    let form = R::form();
    push_line(text, form, number);
    push_blank(text, form, "moment");
    push_fault_word(text, form, "answer", fault);
    push_blank(text, form, "address");
    push_blank(text, form, "kind");
    push_no_coordinates(text, form);
    push_blank(text, form, "feet");
    push_end(text, form);
}

// Returns the answer in a word or two.
#[inline(always)]
fn answer_word(heard: &Heard) -> &'static str
    ensures text { result.now ≡ answer_word heard.now }
    ensures short { length result.now ≤ 11 }
{
    match heard {
        Heard::Fix(_) => "fix",
        Heard::Followed(_) => "followed",
        Heard::Waiting => "waiting",
        Heard::Split(_, _) => "split",
        Heard::Far => "far",
        Heard::NoSite => "no site",
        Heard::NotPosition => "no position",
    }
}

// Appends the coordinates of the place that was heard, or empty columns.
#[inline(always)]
fn push_coordinates(text: &mut LineText, form: Form, heard: &Heard)
    requires { HasRoom text.old place_columns }
    ensures bytes { (decimals : DecimalWriter)
        → text.new.bytes ≡ text.old.bytes ++ cells form place_columns (place_row decimals heard.now) }
    ensures len { text_len text.new ≤ text_len text.old + room place_columns }
{
    match heard {
        Heard::Fix(place) | Heard::Followed(place) => push_place(text, form, place),
        Heard::Waiting | Heard::Split(_, _) | Heard::Far | Heard::NoSite | Heard::NotPosition => {
            push_no_coordinates(text, form);
        }
    }
}

// Appends the coordinates of a place.
#[inline(always)]
fn push_place(text: &mut LineText, form: Form, place: &Place)
    requires { HasRoom text.old place_columns }
    ensures bytes { (decimals : DecimalWriter)
        → text.new.bytes ≡ text.old.bytes ++ cells form place_columns (place_row decimals (Fix place.now)) }
    ensures len { text_len text.new ≤ text_len text.old + room place_columns }
{
    let position = place.position();
    push_degrees(text, form, "lat", &position.lat());
    push_degrees(text, form, "lon", &position.lon());
}

// Appends empty columns for a place.
#[inline(always)]
fn push_no_coordinates(text: &mut LineText, form: Form)
    requires { HasRoom text.old place_columns }
    ensures bytes { text.new.bytes ≡ text.old.bytes ++ cells form place_columns blank_track }
    ensures len { text_len text.new ≤ text_len text.old + room place_columns }
{
    push_blank(text, form, "lat");
    push_blank(text, form, "lon");
}
