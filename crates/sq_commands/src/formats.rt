//! The formats of the answers of `check` and `track`.
ghost use Rattle.std.specs.Prelude.{◌≡◌, ◌≢◌, IfNone, IfSome};
ghost use Rattle.sq_commands.specs.Formats.{format_name, format_number};
ghost use Rattle.sq_commands.specs.Heard.{track_columns};
ghost use Rattle.sq_commands.specs.Squitters.{check_columns};
ghost use Rattle.sq_commands.specs.declared.formats.Format.{Format};
ghost use Rattle.sq_commands.specs.declared.formats.Format.TheVariants.{Lines, Rows};
ghost use Rattle.sq_text.specs.Rows.{header_text};
ghost use Rattle.sq_text.specs.declared.rows.Form.{Form};
ghost use Rattle.sq_text.specs.declared.rows.Form.TheVariants.{Csv, Json};

use sq_text::Form;

/// The format of answers.
#[derive(Clone, Copy)]
pub enum Format {
    /// A line of text for each answer: the line's number and the result.
    Lines,
    /// A row for each answer, in named columns; in CSV below a header.
    Rows(Form),
}

impl Format {
    /// Returns the format with this name: `lines`, `csv` or `json`.
    pub fn named(name: &str) -> Option<Format>
        ensures some { IfSome result (λ format. name.now ≡ format_name format) }
        ensures none { IfNone result ((format : Format) → name.now ≢ format_name format) }
    {
        match name {
            "lines" => Some(Format::Lines),
            "csv" => Some(Format::Rows(Form::Csv)),
            "json" => Some(Format::Rows(Form::Json)),
            _ => None,
        }
    }

    /// Returns the format with this number: 0 for lines, 1 for CSV and 2 for JSON.
    pub fn numbered(number: u32) -> Option<Format>
        ensures some { IfSome result (λ format. number ≡ format_number format) }
        ensures none { IfNone result ((format : Format) → number ≢ format_number format) }
    {
        match number {
            0 => Some(Format::Lines),
            1 => Some(Format::Rows(Form::Csv)),
            2 => Some(Format::Rows(Form::Json)),
            _ => None,
        }
    }
}

/// Returns the text before the first row of `check`.
pub(crate) fn check_header(form: Form) -> &'static str
    ensures { result.now ≡ header_text form check_columns }
{
    match form {
        Form::Csv => {
            "line,answer,address,ca,type,kind,parity,lat_code,lon_code,time,\
feet,altitude,status,flag,movement,track_status,track,me\n"
        }
        Form::Json => "",
    }
}

/// Returns the text before the first row of `track`.
pub(crate) fn track_header(form: Form) -> &'static str
    ensures { result.now ≡ header_text form track_columns }
{
    match form {
        Form::Csv => "line,moment,answer,address,kind,lat,lon,feet\n",
        Form::Json => "",
    }
}

/// Calls a function with a format as a type, in front of these arguments.
macro_rules! in_format {
    ($format:expr, $call:ident($($argument:expr),*)) => {
        match $format {
            Format::Lines => $call(&crate::formats::Numbered, $($argument),*),
            Format::Rows(form) => match form {
                Form::Csv => $call(&crate::formats::CsvRows, $($argument),*),
                Form::Json => $call(&crate::formats::JsonRows, $($argument),*),
            },
        }
    };
}

/// Calls a function with a form of rows as its type.
macro_rules! in_form {
    ($form:expr, $call:ident($($argument:expr),*)) => {
        match $form {
            Form::Csv => $call::<crate::formats::CsvRows>($($argument),*),
            Form::Json => $call::<crate::formats::JsonRows>($($argument),*),
        }
    };
}

pub(crate) use in_form;
pub(crate) use in_format;

/// A format as a type: the loop over a log is compiled once for each.
pub trait AnswerFormat {
    ghost chosen: { Format };

    /// Returns the format.
    fn format(&self) -> Format
        ensures { result ≡ chosen };
}

/// A line of text for each answer.
#[derive(Clone, Copy)]
pub struct Numbered;

/// A CSV record for each answer, below a header with the names of the columns.
#[derive(Clone, Copy)]
pub struct CsvRows;

/// A JSON object for each answer.
#[derive(Clone, Copy)]
pub struct JsonRows;

impl AnswerFormat for Numbered {
    ghost chosen = { Lines };

    #[inline(always)]
    fn format(&self) -> Format {
        Format::Lines
    }
}

impl AnswerFormat for CsvRows {
    ghost chosen = { Rows Csv };

    #[inline(always)]
    fn format(&self) -> Format {
        Format::Rows(Form::Csv)
    }
}

impl AnswerFormat for JsonRows {
    ghost chosen = { Rows Json };

    #[inline(always)]
    fn format(&self) -> Format {
        Format::Rows(Form::Json)
    }
}

/// A form of rows as a type. Functions that write rows are compiled once for each form, so names, commas and braces are
/// constants.
pub(crate) trait RowForm {
    ghost shape: { Form };

    /// Returns the form.
    fn form() -> Form
        ensures { result ≡ shape };
}

impl RowForm for CsvRows {
    ghost shape = { Csv };

    #[inline(always)]
    fn form() -> Form {
        Form::Csv
    }
}

impl RowForm for JsonRows {
    ghost shape = { Json };

    #[inline(always)]
    fn form() -> Form {
        Form::Json
    }
}
