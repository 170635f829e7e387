//! Guards of the definitions: each has one value, some value or an exact condition, so none can be weakened unnoticed.
//! A function with an empty body does nothing: its contract is the statement.
ghost use Rattle.std.specs.Prelude.{◌≡◌, ◌↔◌, ◌+◌, ◌<◌, ◌≤◌, ℕ, List, length, slice_index_or};
ghost use Rattle.squitter_c.specs.Faults.{NoCodeIsZero, OneCode, OneReason};
ghost use Rattle.squitter_c.specs.Calls.{AreAnswered, IsBelow, Leads};
ghost use Rattle.squitter_c.specs.OneValues.{OneHeard, OneValue};

/// Two reasons have the same code exactly if they differ only in their numbers. A code with its numbers belongs to at
/// most one reason.
pub fn one_code()
    ensures codes { OneCode }
    ensures numbers { OneReason }
{}

/// No reason has code 0, whatever its numbers.
pub fn no_code_is_zero()
    ensures { NoCodeIsZero }
{}

/// A fraction is that of at most one angle, and two fractions are those of at most one position.
pub fn one_value()
    ensures { OneValue }
{}

/// A result has at most one plain form.
pub fn one_heard()
    ensures { OneHeard }
{}

/// Many calls write only below index `n`. From there on both arrays are unchanged, and so are their lengths.
pub fn below_exactly<B, C>()
    ensures long { (was is : List B) (before after : List C) (n : ℕ) → IsBelow was is before after n
        → (length is ≡ length was) × (length after ≡ length before) }
    ensures rest { (was is : List B) (before after : List C) (n k : ℕ) → IsBelow was is before after n → n ≤ k
        → (b : B) (c : C)
        → (slice_index_or is k b ≡ slice_index_or was k b) × (slice_index_or after k c ≡ slice_index_or before k c) }
{}

/// Many calls, each with its own result: each element below `n` is that result, and the rest is unchanged.
pub fn answered_exactly<B, C>()
    ensures { (out : ℕ → B → B) (fault : ℕ → C) (was is : List B) (before after : List C) (n : ℕ)
        → AreAnswered (λ k old new told. (new ≡ out k old) × (told ≡ fault k)) was is before after n
        ↔ (IsBelow was is before after n × ((k : ℕ) → k < n → (b : B) (c : C)
        → (slice_index_or is k b ≡ out k (slice_index_or was k b)) × (slice_index_or after k c ≡ fault k))) }
{}

/// Zero calls leave the state unchanged. With one more call, the last state comes from the state that the earlier
/// calls left.
pub fn led_exactly<S, B, C>()
    ensures none { (step : ℕ → S → S) (out : ℕ → S → B → B) (fault : ℕ → S → C) (first last : S) (was is : List B)
        (after : List C)
        → Leads (λ k s t old new told. (t ≡ step k s) × (new ≡ out k s old) × (told ≡ fault k s)) first was is after
        0 last
        ↔ (last ≡ first) }
    ensures more { (step : ℕ → S → S) (out : ℕ → S → B → B) (fault : ℕ → S → C) (first last : S) (was is : List B)
        (after : List C) (n : ℕ)
        → Leads (λ k s t old new told. (t ≡ step k s) × (new ≡ out k s old) × (told ≡ fault k s)) first was is after
        (n + 1) last
        ↔ ((left : S)
        × Leads (λ k s t old new told. (t ≡ step k s) × (new ≡ out k s old) × (told ≡ fault k s)) first was is after
        n left
        × ((b : B) (c : C) → (last ≡ step n left) × (slice_index_or is n b ≡ out n left (slice_index_or was n b))
        × (slice_index_or after n c ≡ fault n left))) }
{}
