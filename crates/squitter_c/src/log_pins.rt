//! Guards of the definitions: each has one value, some value or an exact condition, so none can be weakened unnoticed.
//! A function with an empty body does nothing: its contract is the statement.
ghost use Rattle.std.specs.Prelude.{◌≡◌, ◌↔◌, ◌⊎◌, ◌+◌, ◌*◌, ◌^◌, ◌<◌, ◌≤◌, [], List, ℕ, Some};
ghost use Rattle.sq_commands.specs.declared.formats.Format.{Format};
ghost use Rattle.sq_commands.specs.Formats.{format_number};
ghost use Rattle.sq_commands.specs.Heard.{heard_telling};
ghost use Rattle.squitter_c.specs.declared.faults.Fault.{Fault};
ghost use Rattle.squitter_c.specs.Faults.{none};
ghost use Rattle.squitter_c.specs.Seal.{Kept};
ghost use Rattle.squitter_c.specs.Sizes.{IsRoomFor};
ghost use Rattle.squitter_c.specs.declared.log_new.PlainTally.{PlainTally};
ghost use Rattle.squitter_c.specs.Angles.{StandsIn};
ghost use Rattle.squitter_c.specs.LogCalls.{IsTallied};
ghost use Rattle.squitter_c.specs.LogLaws.{OneAnswer};
ghost use Rattle.squitter_c.specs.LogTexts.{IsHeader, IsNoFormat};
ghost use Rattle.squitter_c.specs.Trackers.{IsMadeIn};

/// The number, fault, timestamp, address, kind and `what` of a plain result have one value.
pub fn one_answer()
    ensures { OneAnswer }
{}

/// The tally of a log, if there is one.
pub fn tallied_exactly()
    ensures { (k : Kept) (was is : PlainTally) (fault : Fault) → IsTallied (Some k) was is fault
        ↔ ((is.good ≡ k.log.tally.good) × (is.refused ≡ k.log.tally.refused) × (fault ≡ none)) }
{}

/// The header of each format, by its number. A number without a format has an empty one.
pub fn headers_exactly()
    ensures none { (number : ℕ) (out : List ℕ) → IsNoFormat number → IsHeader number out → StandsIn [] out }
    ensures some { (format : Format) (out : List ℕ) → StandsIn (heard_telling format).header out
        → IsHeader (format_number format) out }
{}

/// The size of a block; a smaller one is refused.
pub fn sizes_exactly()
    ensures size { (limit bytes : ℕ) → IsRoomFor limit bytes ↔ ((groups exponent : ℕ) × (groups ≡ 2 ^ exponent)
        × (2 * (limit + 1) ≤ 9 * groups) × ((exponent ≡ 0) ⊎ (9 * groups < 4 * (limit + 1)))
        × (bytes ≡ 1280 + groups * 2848 + (limit + 1) * 8)) }
    ensures made { (limit size : ℕ) (k : Kept) → IsMadeIn limit size (Some k)
        ↔ ((bytes : ℕ) × IsRoomFor limit bytes × (bytes ≤ size)) }
{}
