//! Laws over the definitions that the contracts name.
ghost use Rattle.std.specs.Prelude.{◌≡◌, ◌↔◌, ◌<◌, ◌∷◌, [], List, ℕ};
ghost use Rattle.sq_devices.specs.Calls.{Calls};
ghost use Rattle.sq_devices.specs.Clocks.{Tells, times_of};

use crate::{Clock, Sink, Source};

/// No gets leave a source unchanged. Gets of two pieces are a get of the first and then a get of the second.
pub fn gets_in_turn<S: Source>()
    ensures none { (old new : S) → Calls S.Gave old new [] ↔ (new ≡ old) }
    ensures two { (old new : S) (x y : List ℕ) → Calls S.Gave old new (x ∷ y ∷ [])
        ↔ ((between : S) × S.Gave old x between × S.Gave between y new) }
{}

/// No puts leave a sink unchanged. Puts of two pieces are a put of the first and then a put of the second.
pub fn puts_in_turn<K: Sink>()
    ensures none { (old new : K) → Calls K.Took old new [] ↔ (new ≡ old) }
    ensures two { (old new : K) (x y : List ℕ) → Calls K.Took old new (x ∷ y ∷ [])
        ↔ ((between : K) × K.Took old x between × K.Took between y new) }
{}

/// No readings leave a clock unchanged. Two readings are a first one and then a second one. The record of a clock has
/// these readings, and whether the input is live.
pub fn told_in_turn<C: Clock>()
    ensures none { (old new : C) → Tells C.Told old new [] ↔ (new ≡ old) }
    ensures two { (old new : C) (x y : ℕ) → Tells C.Told old new (x ∷ y ∷ [])
        ↔ ((between : C) × C.Told old x between × C.Told between y new) }
    ensures shown { (old new : C) → (times_of C.Clock old new).is_live ≡ C.live old }
    ensures told { (old new : C) (moments : List ℕ) → (times_of C.Clock old new).told moments
        ↔ Tells C.Told old new moments }
{}
