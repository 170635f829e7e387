//! The spans of degrees that the zones of a grid share.
ghost use Rattle.std.specs.Prelude.{◌≡◌, ◌<◌, ◌≤◌, ℕ, refl};
ghost use Rattle.sq_cpr.specs.Span.{Span, FitsCircle, air, ground};

/// A span of degrees that fits a whole number of times into the circle (RTCA DO-260B, appendix on compact position
/// reporting).
pub trait Span {
    /// The degrees that the zones share: 360 in the air, 90 on the ground.
    const DEGREES: u32;

    /// How many times the span fits into the circle.
    const REPEATS: u32;

    ghost DEGREES: { ℕ };

    ghost REPEATS: { ℕ };

    ghost span: { Span };

    ghost degrees: { DEGREES ≡ span.degrees };

    ghost repeats: { REPEATS ≡ span.repeats };

    ghost full_circle: { FitsCircle span };
}

/// The span of airborne positions: the whole circle.
#[derive(Clone, Copy, Debug, PartialEq, Eq)]
pub struct Air;

impl Span for Air {
    const DEGREES: u32 = 360;

    const REPEATS: u32 = 1;

    ghost DEGREES = { air.degrees };

    ghost REPEATS = { air.repeats };

    ghost span = { air };

    ghost degrees = { refl };

    ghost repeats = { refl };

    ghost full_circle = { refl };
}

/// The span of surface positions: a quarter of the circle.
#[derive(Clone, Copy, Debug, PartialEq, Eq)]
pub struct Ground;

impl Span for Ground {
    const DEGREES: u32 = 90;

    const REPEATS: u32 = 4;

    ghost DEGREES = { ground.degrees };

    ghost REPEATS = { ground.repeats };

    ghost span = { ground };

    ghost degrees = { refl };

    ghost repeats = { refl };

    ghost full_circle = { refl };
}

// Returns the degrees of the span.
pub(crate) fn degrees_of<S: Span>() -> u32
    ensures value { result ≡ S.span.degrees }
    ensures some { 0 < result }
    ensures small { result ≤ 360 }
{
    S::DEGREES
}

// Returns how many times the span fits into the circle.
pub(crate) fn repeats_of<S: Span>() -> u32
    ensures value { result ≡ S.span.repeats }
    ensures some { 0 < result }
    ensures small { result ≤ 360 }
{
    S::REPEATS
}
