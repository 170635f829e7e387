//! Grid indices: rounding an angle to the nearest index, and picking the index of a code. The picked index is nearest
//! to a reference or belongs to a close pair.
//!
//! All numbers are whole. The numerator and the denominator of a reference may be long. Each function that takes a
//! reference therefore multiplies, divides or subtracts once, so that the result clearly fits 128 bits. Near 0
//! degrees 64 bits are enough.
ghost use Rattle.std.specs.Prelude.{◌≡◌, ℕ, ◌*◌, ◌^◌, ◌<◌, ◌≤◌, ℤ, pos, ◌+ℤ◌, ◌-ℤ◌, ◌*ℤ◌, ◌≤ℤ◌, ◌<ℤ◌, neg_ℤ};
ghost use Rattle.std.specs.Prelude.{unsigned_abs};
ghost use Rattle.sq_angle.specs.Angle.{degrees};
ghost use Rattle.sq_angle.specs.Fraction.{IsWithin};
ghost use Rattle.sq_angle.specs.Nearest.{IsNearest};
ghost use Rattle.sq_angle.specs.Whole.{IsCongruent};
ghost use Rattle.sq_cpr.specs.Grid.{codes_of_zone, circle, step};
ghost use Rattle.sq_cpr.specs.Multiplied.{apart, LiesWithin, IsZoneIndex};

use crate::code::CODES_OF_ZONE;
use crate::grid::EVEN_LAT_ZONES;
use sq_angle::Angle;

// Returns the quotient, rounded down. A 64-bit division is faster, and only references with long fractions need more.
fn quotient_down(value: i128, divisor: u128) -> i128
    requires value_small { unsigned_abs value < 2 ^ 120 }
    requires divisor_some { 0 < divisor }
    requires divisor_small { divisor < 2 ^ 120 }
    ensures reached { (pos divisor *ℤ result) ≤ℤ value }
    ensures next { value <ℤ (pos divisor *ℤ result +ℤ pos divisor) }
    ensures small { unsigned_abs result ≤ unsigned_abs value }
{
    match (i64::try_from(value), i64::try_from(divisor)) {
        (Ok(value), Ok(divisor)) => i128::from(short_quotient(value, divisor)),
        _ => long_quotient(value, divisor as i128),
    }
}

// Returns the quotient of 64-bit numbers, rounded down.
fn short_quotient(value: i64, divisor: i64) -> i64
    requires { pos 0 <ℤ divisor }
    ensures reached { (divisor *ℤ result) ≤ℤ value }
    ensures next { value <ℤ (divisor *ℤ result +ℤ divisor) }
    ensures small { unsigned_abs result ≤ unsigned_abs value }
{
    value.div_euclid(divisor)
}

// Returns the quotient of 128-bit numbers, rounded down.
fn long_quotient(value: i128, divisor: i128) -> i128
    requires value_small { unsigned_abs value < 2 ^ 120 }
    requires divisor_some { pos 0 <ℤ divisor }
    ensures reached { (divisor *ℤ result) ≤ℤ value }
    ensures next { value <ℤ (divisor *ℤ result +ℤ divisor) }
    ensures small { unsigned_abs result ≤ unsigned_abs value }
{
    value.div_euclid(divisor)
}

// Returns the quotient, rounded down. It is rarely needed, and it is kept out of line so that its callers stay short.
#[cold]
#[inline(never)]
fn far_quotient(value: i128, divisor: u128) -> i128
    requires value_small { unsigned_abs value < 2 ^ 120 }
    requires divisor_some { 0 < divisor }
    requires divisor_small { divisor < 2 ^ 120 }
    ensures reached { (pos divisor *ℤ result) ≤ℤ value }
    ensures next { value <ℤ (pos divisor *ℤ result +ℤ pos divisor) }
    ensures small { unsigned_abs result ≤ unsigned_abs value }
{
    quotient_down(value, divisor)
}

// Returns the quotient of 64-bit numbers, rounded down. It is rarely needed, and it is kept out of line.
#[cold]
#[inline(never)]
fn rare_quotient(value: i64, divisor: u64) -> i64
    requires divisor_some { 0 < divisor }
    requires divisor_small { divisor < 2 ^ 62 }
    ensures reached { (pos divisor *ℤ result) ≤ℤ value }
    ensures next { value <ℤ (pos divisor *ℤ result +ℤ pos divisor) }
{
    short_quotient(value, divisor as i64)
}

// Returns how many times `2 * width` has to be subtracted from `2 * away` to bring it into (-width, width].
fn turns(away: i128, width: u128) -> i128
    requires away_small { unsigned_abs away < 2 ^ 100 }
    requires width_some { 0 < width }
    requires width_small { width < 2 ^ 100 }
    ensures above { neg_ℤ (pos width) <ℤ (pos 2 *ℤ away -ℤ pos (2 * width) *ℤ result) }
    ensures below { (pos 2 *ℤ away -ℤ pos (2 * width) *ℤ result) ≤ℤ pos width }
    ensures small { unsigned_abs result < 2 ^ 102 }
{
    let above = 2 * away + (width as i128 - 1);
    // Most indices are within the range already, and need no division.
    if 0 <= above && above < 2 * width as i128 {
        return 0;
    }
    far_quotient(above, 2 * width)
}

// Returns `factor * value`.
fn scaled(factor: u64, value: i128) -> i128
    requires { factor * unsigned_abs value < 2 ^ 127 }
    ensures { result ≡ pos factor *ℤ value }
{
    i128::from(factor) * value
}

// Returns how far the index lies above the reference, in a unit in which both are whole numbers.
fn distance(index: i128, zones: u8, span: u32, reference: &Angle) -> i128
    requires index_small { unsigned_abs index < 2 ^ 44 }
    requires zones_small { zones ≤ 60 }
    requires span_small { span ≤ 360 }
    ensures value { result ≡ apart span zones index (degrees reference.now) }
    ensures small { unsigned_abs result < 2 ^ 100 }
{
    let step = span as u64 * reference.den();
    let steps = zones as u64 * CODES_OF_ZONE;
    scaled(step, index) - scaled(steps, reference.num() as i128)
}

// Returns the index within half of `count` zones of 0 that differs from the base by a whole multiple of `count` zones.
fn index_at_zero(base: i64, count: u8) -> i64
    requires base_small { unsigned_abs base < 2 ^ 44 }
    requires some { 0 < count }
    requires count_small { count ≤ 60 }
    ensures congruent { IsCongruent (count * codes_of_zone) result base }
    ensures above { neg_ℤ (pos (count * codes_of_zone)) <ℤ (pos 2 *ℤ result) }
    ensures at_most { (pos 2 *ℤ result) ≤ℤ pos (count * codes_of_zone) }
{
    let period = count as u64 * CODES_OF_ZONE;
    let above = 2 * base + (period as i64 - 1);
    // Most indices are within the range already, and need no division.
    if 0 <= above && above < 2 * period as i64 {
        return base;
    }
    base - period as i64 * rare_quotient(above, 2 * period)
}

// Returns what [`index_within`] does, near any reference.
fn index_at(base: i128, count: u8, zones: u8, span: u32, reference: &Angle) -> i32
    requires base_small { unsigned_abs base < 2 ^ 44 }
    requires count { (0 < count) × (count ≤ 60) }
    requires zones_small { zones ≤ 60 }
    requires span { (0 < span) × (span ≤ 360) }
    requires reference_small { IsWithin 180 (degrees reference.now) }
    ensures congruent { IsCongruent (count * codes_of_zone) result base }
    ensures within { LiesWithin count span zones result (degrees reference.now) }
{
    let period = count as u64 * CODES_OF_ZONE;
    let width = period as u128 * (span as u64 * reference.den()) as u128;
    let turns = turns(distance(base, zones, span, reference), width);
    (base - scaled(period, turns)) as i32
}

/// Returns the index within half of `count` zones of the reference that differs from the base by a whole multiple of
/// `count` zones.
pub(crate) fn index_within(base: i64, count: u8, zones: u8, span: u32, reference: &Angle) -> i32
    requires base_small { unsigned_abs base < 2 ^ 44 }
    requires count { (0 < count) × (count ≤ 60) }
    requires zones_small { zones ≤ 60 }
    requires span { (0 < span) × (span ≤ 360) }
    requires reference_small { IsWithin 180 (degrees reference.now) }
    ensures congruent { IsCongruent (count * codes_of_zone) result base }
    ensures within { LiesWithin count span zones result (degrees reference.now) }
{
    // At 0 degrees, the reference of airborne pairs, the degrees of a step cancel.
    if reference.num() == 0 {
        return index_at_zero(base, count) as i32;
    }
    index_at(i128::from(base), count, zones, span, reference)
}

/// Returns how many zones the indices of a close pair lie above their codes.
pub(crate) fn pair_zone(even_zones: u8, odd_zones: u8, even: u32, odd: u32) -> i64
    requires even_zones_small { even_zones ≤ 60 }
    requires odd_zones_small { odd_zones ≤ 60 }
    requires even_small { even < codes_of_zone }
    requires odd_small { odd < codes_of_zone }
    ensures zone { IsZoneIndex even_zones odd_zones even odd result }
    ensures small { unsigned_abs result ≤ 120 }
{
    let above = odd_zones as u64 * even as u64;
    let below = even_zones as u64 * odd as u64;
    // Adding `more` zones makes the number non-negative, so that the division is a shift.
    let more = EVEN_LAT_ZONES as u64;
    let raised = above + (more * CODES_OF_ZONE + CODES_OF_ZONE / 2) - below;
    (raised / CODES_OF_ZONE) as i64 - more as i64
}

/// Returns the index of a code, `zone` zones up.
pub(crate) fn index_of(code: u32, zone: i64) -> i64
    requires code_small { code < codes_of_zone }
    requires zone_small { unsigned_abs zone ≤ 120 }
    ensures value { result ≡ pos code +ℤ pos codes_of_zone *ℤ zone }
    ensures small { unsigned_abs result < 2 ^ 44 }
{
    code as i64 + CODES_OF_ZONE as i64 * zone
}

// Returns the nearest whole number of steps. A span has `zones * 2^17` steps.
pub(crate) fn nearest_index(angle: &Angle, span: u32, zones: u8) -> i64
    requires span_some { 0 < span }
    requires span_small { span ≤ 360 }
    requires zones_small { zones ≤ 60 }
    ensures nearest { IsNearest (degrees angle.now) (step span zones) result }
    ensures small { unsigned_abs result < 2 ^ 40 }
{
    let half = angle.den() * u64::from(span);
    let steps = scaled(
        2 * (u64::from(zones) * CODES_OF_ZONE),
        i128::from(angle.num()),
    );
    quotient_down(steps + i128::from(half), 2 * u128::from(half)) as i64
}

// Reduces an index to the circle of longitude.
pub(crate) fn on_circle(index: i64, zones: u8, repeats: u32) -> u32
    requires some_zones { 0 < zones }
    requires small_zones { zones ≤ 59 }
    requires some_repeats { 0 < repeats }
    requires small_repeats { repeats ≤ 360 }
    ensures congruent { IsCongruent (circle zones repeats) (pos result) index }
    ensures below { result < circle zones repeats }
{
    let circle = (zones as u64 * CODES_OF_ZONE * repeats as u64) as i64;
    // Nearly every index is less than a circle away from the range, and needs no division.
    let turned = if index < 0 { index + circle } else { index };
    if 0 <= turned && turned < circle {
        return turned as u32;
    }
    index.rem_euclid(circle) as u32
}
