//! The result for a line of a log, as plain numbers.
ghost use Rattle.std.specs.Prelude.{◌≡◌};
ghost use Rattle.sq_message.specs.Parts.{squitter_parts};
ghost use Rattle.squitter_c.specs.LogAnswers.{IsKindOf, IsPlainAnswer, IsPlainFound, IsRefusedLine, IsTold};
ghost use Rattle.squitter_c.specs.LogAnswers.{IsToldNowhere, IsToldPlace};

use crate::e7::{DegreesE7, both};
use crate::entry::as_given;
use crate::faults::{Fault, NONE, Reason};
use crate::fields::plain_altitude;
use crate::heard::PlainHeard;
use crate::plain::{PlainAngle, PlainPosition};
use sq_commands::HeardSquitter;
use sq_log::Answer;
use sq_message::{Me, Place, Squitter, altitude};
use sq_text::LineFault;
use sq_track::Heard;

/// The result for a line that is not empty. If the line was refused, all fields but `number` and `fault` are 0.
#[repr(C)]
#[derive(Clone, Copy)]
pub struct PlainAnswer {
    /// The line's number, from 1.
    pub number: u64,
    pub moment: u64,
    /// The result for the squitter. Its position is not in lowest terms.
    pub heard: PlainHeard,
    pub fault: Fault,
    /// The position in units of 10^-7 degree, or 0 and 0.
    pub degrees: DegreesE7,
    pub address: u32,
    pub feet: i32,
    /// 0 for other, 1 for air, 2 for ground.
    pub kind: u8,
    /// 0 for none, 1 for feet, 2 for a field in another form.
    pub altitude_form: u8,
}

// The result for a squitter.
#[derive(Clone, Copy)]
struct Told {
    heard: PlainHeard,
    degrees: DegreesE7,
}

// The fields of a squitter other than its address and position.
#[derive(Clone, Copy)]
struct Kind {
    kind: u8,
    altitude_form: u8,
    feet: i32,
}

// Returns the plain form of a result.
#[inline(always)]
pub(crate) fn plain_answer(answer: &Answer<HeardSquitter>) -> PlainAnswer
    ensures { IsPlainAnswer answer.now result }
{
    match &answer.verdict {
        Ok(found) => plain_found(answer.number, found),
        Err(fault) => refused(answer.number, *fault),
    }
}

// Returns the result for a good line.
#[inline(always)]
fn plain_found(number: u64, found: &HeardSquitter) -> PlainAnswer
    ensures { IsPlainFound number found.now result }
{
    let squitter = &found.timed.squitter;
    let kind = kind_of(squitter);
    let told = told_of(&found.heard);
    PlainAnswer {
        number,
        moment: found.timed.moment,
        heard: told.heard,
        fault: NONE,
        degrees: told.degrees,
        address: squitter.address(),
        feet: kind.feet,
        kind: kind.kind,
        altitude_form: kind.altitude_form,
    }
}

// Returns the result for a squitter. Its position is not in lowest terms; `degrees` has it in units of 10^-7 degree.
#[inline(always)]
fn told_of(heard: &Heard) -> Told
    ensures { IsTold heard.now result.heard result.degrees }
{
    match heard {
        Heard::Fix(place) => at_place(1, place),
        Heard::Followed(place) => at_place(2, place),
        Heard::Waiting => nowhere(3, 0, 0),
        Heard::Split(even, odd) => nowhere(4, *even, *odd),
        Heard::Far => nowhere(5, 0, 0),
        Heard::NoSite => nowhere(6, 0, 0),
        Heard::NotPosition => nowhere(7, 0, 0),
    }
}

// Returns a result with a position.
#[inline(always)]
fn at_place(what: u8, place: &Place) -> Told
    ensures { IsToldPlace what place.now result.heard result.degrees }
{
    let position = place.position();
    Told {
        heard: PlainHeard {
            position: as_given(&position),
            what,
            even: 0,
            odd: 0,
        },
        degrees: both(&position),
    }
}

// Returns a result without a position.
#[inline(always)]
fn nowhere(what: u8, even: u8, odd: u8) -> Told
    ensures { IsToldNowhere what even odd result.heard result.degrees }
{
    Told {
        heard: PlainHeard {
            position: PlainPosition {
                lat: PlainAngle { num: 0, den: 0 },
                lon: PlainAngle { num: 0, den: 0 },
            },
            what,
            even,
            odd,
        },
        degrees: DegreesE7 { lat: 0, lon: 0 },
    }
}

// Returns the kind of a squitter, and its altitude if it is airborne.
#[inline(always)]
fn kind_of(squitter: &Squitter) -> Kind
    ensures { IsKindOf (squitter_parts squitter.now).me result.kind result.altitude_form result.feet }
{
    match squitter.me() {
        Me::Airborne(airborne) => {
            let (altitude_form, feet) = plain_altitude(altitude(&airborne));
            Kind {
                kind: 1,
                altitude_form,
                feet,
            }
        }
        Me::Surface(_) => Kind {
            kind: 2,
            altitude_form: 0,
            feet: 0,
        },
        Me::Other(_) => Kind {
            kind: 0,
            altitude_form: 0,
            feet: 0,
        },
    }
}

// Returns the result for a refused line.
fn refused(number: u64, fault: LineFault) -> PlainAnswer
    ensures { IsRefusedLine number fault result }
{
    let told = nowhere(0, 0, 0);
    PlainAnswer {
        number,
        moment: 0,
        heard: told.heard,
        fault: Fault::of(Reason::Line(fault)),
        degrees: told.degrees,
        address: 0,
        feet: 0,
        kind: 0,
        altitude_form: 0,
    }
}
