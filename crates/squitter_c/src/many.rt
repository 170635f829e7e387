//! Many calls in one: each element gets the result of the single call.
//!
//! The shortest of the arrays counts, and is returned. Elements beyond it are unchanged.
ghost use Rattle.std.specs.Prelude.{◌≡◌, length, min};
ghost use Rattle.squitter_c.specs.Calls.{AreAnswered, shortest};
ghost use Rattle.squitter_c.specs.Many.{IsE7At, IsLocalAt, IsPairNear, IsPairThere, IsReadAt};

use crate::decode::{squitter_local, squitter_pair, squitter_pair_at};
use crate::e7::{DegreesE7, squitter_position_e7};
use crate::faults::Fault;
use crate::fields::PlainSquitter;
use crate::plain::PlainPosition;
use crate::read::squitter_read_frame;

/// Reads each frame as [`squitter_read_frame`] does, and returns the number of elements. `faults` has the fault of
/// each, or none; after a fault that element of `out` is unchanged.
#[unsafe(no_mangle)]
pub extern "C" fn squitter_read_many(
    frames: &[[u8; 14]],
    out: &mut [PlainSquitter],
    faults: &mut [Fault],
) -> usize
    ensures count { result ≡ shortest (length frames.now) (length out.old) (length faults.old) }
    ensures each { AreAnswered (IsReadAt frames.now) out.old out.new faults.old faults.new result }
{
    let count = frames.len().min(out.len().min(faults.len()));
    for at in 0..count {
        faults[at] = squitter_read_frame(&frames[at], &mut out[at]);
    }
    count
}

/// Decodes each frame near its reference as [`squitter_local`] does, and returns the number of elements. `faults` has
/// the fault of each, or none; after a fault that element of `out` is unchanged.
#[unsafe(no_mangle)]
pub extern "C" fn squitter_local_many(
    frames: &[[u8; 14]],
    references: &[PlainPosition],
    out: &mut [PlainPosition],
    faults: &mut [Fault],
) -> usize
    ensures count { result ≡ min (length frames.now)
        (shortest (length references.now) (length out.old) (length faults.old)) }
    ensures each { AreAnswered (IsLocalAt frames.now references.now) out.old out.new faults.old faults.new result }
{
    let count = frames
        .len()
        .min(references.len().min(out.len().min(faults.len())));
    for at in 0..count {
        faults[at] = squitter_local(&frames[at], &references[at], &mut out[at]);
    }
    count
}

/// Decodes each pair as [`squitter_pair`] does, and returns the number of elements. `faults` has the fault of each,
/// or none; after a fault that element of `out` is unchanged.
#[unsafe(no_mangle)]
pub extern "C" fn squitter_pair_many(
    older: &[[u8; 14]],
    newer: &[[u8; 14]],
    out: &mut [PlainPosition],
    faults: &mut [Fault],
) -> usize
    ensures count { result ≡ min (length older.now) (shortest (length newer.now) (length out.old) (length faults.old)) }
    ensures each { AreAnswered (IsPairThere older.now newer.now) out.old out.new faults.old faults.new result }
{
    let count = older
        .len()
        .min(newer.len().min(out.len().min(faults.len())));
    for at in 0..count {
        faults[at] = squitter_pair(&older[at], &newer[at], &mut out[at]);
    }
    count
}

/// Decodes each pair with one site as [`squitter_pair_at`] does, and returns the number of elements. `faults` has the
/// fault of each, or none; after a fault that element of `out` is unchanged.
#[unsafe(no_mangle)]
pub extern "C" fn squitter_pair_at_many(
    older: &[[u8; 14]],
    newer: &[[u8; 14]],
    site: &PlainPosition,
    out: &mut [PlainPosition],
    faults: &mut [Fault],
) -> usize
    ensures count { result ≡ min (length older.now) (shortest (length newer.now) (length out.old) (length faults.old)) }
    ensures each { AreAnswered (IsPairNear older.now newer.now site.now) out.old out.new faults.old faults.new result }
{
    let count = older
        .len()
        .min(newer.len().min(out.len().min(faults.len())));
    for at in 0..count {
        faults[at] = squitter_pair_at(&older[at], &newer[at], site, &mut out[at]);
    }
    count
}

/// Writes each position in units of 10^-7 degree as [`squitter_position_e7`] does, and returns the number of
/// elements. `faults` has the fault of each, or none; after a fault that element of `out` is unchanged.
#[unsafe(no_mangle)]
pub extern "C" fn squitter_position_e7_many(
    positions: &[PlainPosition],
    out: &mut [DegreesE7],
    faults: &mut [Fault],
) -> usize
    ensures count { result ≡ shortest (length positions.now) (length out.old) (length faults.old) }
    ensures each { AreAnswered (IsE7At positions.now) out.old out.new faults.old faults.new result }
{
    let count = positions.len().min(out.len().min(faults.len()));
    for at in 0..count {
        faults[at] = squitter_position_e7(&positions[at], &mut out[at]);
    }
    count
}
