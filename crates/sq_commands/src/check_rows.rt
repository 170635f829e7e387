//! The rows of `check`: the fields of a frame, in named columns.
ghost use Rattle.std.specs.Prelude.{◌≡◌, ◌+◌, ◌≤◌, ◌++◌, [], Ok, Err, length};
ghost use Rattle.sq_digits.specs.Buffer.{text_len};
ghost use Rattle.sq_text.specs.Altitudes.{AltitudeReader};
ghost use Rattle.sq_text.specs.Rows.{cells, room, row_text};
ghost use Rattle.sq_text.specs.Show.{parity_name};
ghost use Rattle.sq_commands.specs.Formats.{HasRoom, Writers};
ghost use Rattle.sq_commands.specs.Squitters.{air_columns, air_row, blank_check, check_columns, ground_columns};
ghost use Rattle.sq_commands.specs.Squitters.{ground_row, message_columns, message_row, other_row, position_columns};
ghost use Rattle.sq_commands.specs.Squitters.{position_row, squitter_row};

use crate::formats::RowForm;
use sq_log::LineText;
use sq_message::{Airborne, Code, Me, Other, Parity, Squitter, Surface};
use sq_text::{
    Form, LineFault, push_address, push_airborne_feet, push_bit, push_blank, push_end,
    push_fault_word, push_hexadecimal_word, push_line, push_number, push_word,
};

/// Writes the row of a good frame into an empty text.
pub(crate) fn push_squitter<R: RowForm>(text: &mut LineText, number: u64, squitter: &Squitter)
    requires { text.old.bytes ≡ [] }
    ensures { (writers : Writers)
        → text.new.bytes ≡ row_text R.shape check_columns number (squitter_row writers (Ok squitter.now)) }
{
    let form = R::form();
    push_line(text, form, number);
    push_word(text, form, "answer", "ok");
    push_address(text, form, "address", squitter.address());
    push_number(text, form, "ca", u64::from(squitter.ca()));
    push_message::<R>(text, &squitter.me());
    push_end(text, form);
}

/// Writes the row of a refused line into an empty text.
pub(crate) fn push_refused_frame<R: RowForm>(text: &mut LineText, number: u64, fault: LineFault)
    requires { text.old.bytes ≡ [] }
    ensures { (writers : Writers)
        → text.new.bytes ≡ row_text R.shape check_columns number (squitter_row writers (Err fault)) }
{
    let form = R::form();
    push_line(text, form, number);
    push_fault_word(text, form, "answer", fault);
    push_blank(text, form, "address");
    push_blank(text, form, "ca");
    push_no_message(text, form);
    push_end(text, form);
}

// Appends the columns of a message.
#[inline(always)]
fn push_message<R: RowForm>(text: &mut LineText, me: &Me)
    requires { HasRoom text.old message_columns }
    ensures bytes { (altitudes : AltitudeReader)
        → text.new.bytes ≡ text.old.bytes ++ cells R.shape message_columns (message_row altitudes me.now) }
    ensures len { text_len text.new ≤ text_len text.old + room message_columns }
{
    match me {
        Me::Airborne(airborne) => push_airborne::<R>(text, airborne),
        Me::Surface(surface) => push_surface::<R>(text, surface),
        Me::Other(other) => push_other::<R>(text, other),
    }
}

// Appends the columns of an airborne position.
fn push_airborne<R: RowForm>(text: &mut LineText, airborne: &Airborne)
    requires { HasRoom text.old message_columns }
    ensures bytes { (altitudes : AltitudeReader)
        → text.new.bytes ≡ text.old.bytes ++ cells R.shape message_columns (air_row altitudes airborne.now) }
    ensures len { text_len text.new ≤ text_len text.old + room message_columns }
{
    let form = R::form();
    push_number(text, form, "type", u64::from(airborne.fields.type_code()));
    push_word(text, form, "kind", "air");
    push_code(
        text,
        form,
        airborne.parity,
        &airborne.code,
        airborne.fields.time(),
    );
    push_air_fields(text, form, airborne);
    push_no_ground_fields(text, form);
    push_blank(text, form, "me");
}

// Appends the columns of a surface position.
fn push_surface<R: RowForm>(text: &mut LineText, surface: &Surface)
    requires { HasRoom text.old message_columns }
    ensures bytes { text.new.bytes ≡ text.old.bytes ++ cells R.shape message_columns (ground_row surface.now) }
    ensures len { text_len text.new ≤ text_len text.old + room message_columns }
{
    let form = R::form();
    push_number(text, form, "type", u64::from(surface.fields.type_code()));
    push_word(text, form, "kind", "ground");
    push_code(
        text,
        form,
        surface.parity,
        &surface.code,
        surface.fields.time(),
    );
    push_no_air_fields(text, form);
    push_ground_fields(text, form, surface);
    push_blank(text, form, "me");
}

// Appends the columns of another message.
fn push_other<R: RowForm>(text: &mut LineText, other: &Other)
    requires { HasRoom text.old message_columns }
    ensures bytes { text.new.bytes ≡ text.old.bytes ++ cells R.shape message_columns (other_row other.now) }
    ensures len { text_len text.new ≤ text_len text.old + room message_columns }
{
    let form = R::form();
    push_number(text, form, "type", u64::from(other.type_code()));
    push_word(text, form, "kind", "other");
    push_no_code(text, form);
    push_no_air_fields(text, form);
    push_no_ground_fields(text, form);
    push_hexadecimal_word(text, form, "me", other.raw(), 14);
}

// Appends empty columns for a message.
#[inline(always)]
fn push_no_message(text: &mut LineText, form: Form)
    requires { HasRoom text.old message_columns }
    ensures bytes { text.new.bytes ≡ text.old.bytes ++ cells form message_columns blank_check }
    ensures len { text_len text.new ≤ text_len text.old + room message_columns }
{
    push_blank(text, form, "type");
    push_blank(text, form, "kind");
    push_no_code(text, form);
    push_no_air_fields(text, form);
    push_no_ground_fields(text, form);
    push_blank(text, form, "me");
}

// Appends the columns that both kinds of position have: the parity, the code and T.
#[inline(always)]
fn push_code(text: &mut LineText, form: Form, parity: Parity, code: &Code, time: bool)
    requires { HasRoom text.old position_columns }
    ensures bytes { text.new.bytes ≡ text.old.bytes ++ cells form position_columns (position_row parity code.now time) }
    ensures len { text_len text.new ≤ text_len text.old + room position_columns }
{
    push_word(text, form, "parity", parity_name(parity));
    push_number(text, form, "lat_code", u64::from(code.lat()));
    push_number(text, form, "lon_code", u64::from(code.lon()));
    push_bit(text, form, "time", time);
}

#[inline(always)]
fn parity_name(parity: Parity) -> &'static str
    ensures text { result.now ≡ parity_name parity }
    ensures short { length result.now ≤ 4 }
{
    match parity {
        Parity::Even => "even",
        Parity::Odd => "odd",
    }
}

// Appends empty columns for both kinds of position.
#[inline(always)]
fn push_no_code(text: &mut LineText, form: Form)
    requires { HasRoom text.old position_columns }
    ensures bytes { text.new.bytes ≡ text.old.bytes ++ cells form position_columns blank_check }
    ensures len { text_len text.new ≤ text_len text.old + room position_columns }
{
    push_blank(text, form, "parity");
    push_blank(text, form, "lat_code");
    push_blank(text, form, "lon_code");
    push_blank(text, form, "time");
}

// Appends the columns that only an airborne position has.
#[inline(always)]
fn push_air_fields(text: &mut LineText, form: Form, airborne: &Airborne)
    requires { HasRoom text.old air_columns }
    ensures bytes { (altitudes : AltitudeReader)
        → text.new.bytes ≡ text.old.bytes ++ cells form air_columns (air_row altitudes airborne.now) }
    ensures len { text_len text.new ≤ text_len text.old + room air_columns }
{
    let fields = airborne.fields;
    push_airborne_feet(text, form, airborne);
    push_hexadecimal_word(text, form, "altitude", u64::from(fields.altitude()), 3);
    push_number(text, form, "status", u64::from(fields.status()));
    push_bit(text, form, "flag", fields.flag());
}

// Appends empty columns for an airborne position.
#[inline(always)]
fn push_no_air_fields(text: &mut LineText, form: Form)
    requires { HasRoom text.old air_columns }
    ensures bytes { text.new.bytes ≡ text.old.bytes ++ cells form air_columns blank_check }
    ensures len { text_len text.new ≤ text_len text.old + room air_columns }
{
    push_blank(text, form, "feet");
    push_blank(text, form, "altitude");
    push_blank(text, form, "status");
    push_blank(text, form, "flag");
}

// Appends the columns that only a surface position has.
#[inline(always)]
fn push_ground_fields(text: &mut LineText, form: Form, surface: &Surface)
    requires { HasRoom text.old ground_columns }
    ensures bytes { text.new.bytes ≡ text.old.bytes ++ cells form ground_columns (ground_row surface.now) }
    ensures len { text_len text.new ≤ text_len text.old + room ground_columns }
{
    let fields = surface.fields;
    push_number(text, form, "movement", u64::from(fields.movement()));
    push_bit(text, form, "track_status", fields.track_status());
    push_number(text, form, "track", u64::from(fields.track()));
}

// Appends empty columns for a surface position.
#[inline(always)]
fn push_no_ground_fields(text: &mut LineText, form: Form)
    requires { HasRoom text.old ground_columns }
    ensures bytes { text.new.bytes ≡ text.old.bytes ++ cells form ground_columns blank_check }
    ensures len { text_len text.new ≤ text_len text.old + room ground_columns }
{
    push_blank(text, form, "movement");
    push_blank(text, form, "track_status");
    push_blank(text, form, "track");
}
