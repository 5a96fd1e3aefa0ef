//! Which fault or limit comes first, as the contracts of functions that do nothing.

ghost use Rattle.std.specs.Prelude.{◌≡◌, ◌^◌, ◌<◌, ℕ, Bool, true, false, List, [], ◌∷◌, length, Option, Some, None, Err};
ghost use Rattle.ec_base.specs.declared.fault.FaultKind.TheVariants.{F4, F5, F7};
ghost use Rattle.ec_base.specs.declared.fault.LimitKind.TheVariants.{L2, L3, L6};
ghost use Rattle.ec_base.specs.declared.stop.Stop.TheVariants.{Refused, Limit};
ghost use Rattle.ec_language.specs.Tokens.{Part, numbered};
ghost use Rattle.ec_language.specs.First.{Violation, comes_before, IsFirst, IsAmong, first_of, stop_of, stop_at, violations_of, Reads, max_text};

/// The order of violations.
pub fn order_examples()
    ensures lesser_place { comes_before (record { place = 1; stop = Limit L3 })
        (record { place = 2; stop = Refused F7 (record { 0 = 1 }) }) ≡ true }
    ensures fault_before_limit { comes_before
        (record { place = 1; stop = Refused F7 (record { 0 = 1 }) })
        (record { place = 1; stop = Limit L3 }) ≡ true }
    ensures not_limit_before_fault { comes_before (record { place = 1; stop = Limit L3 })
        (record { place = 1; stop = Refused F7 (record { 0 = 1 }) }) ≡ false }
    ensures lower_number { comes_before (record { place = 1; stop = Refused F4 (record { 0 = 9 }) })
        (record { place = 1; stop = Refused F5 (record { 0 = 1 }) }) ≡ true }
    ensures not_itself { comes_before (record { place = 1; stop = Refused F4 (record { 0 = 1 }) })
        (record { place = 1; stop = Refused F4 (record { 0 = 1 }) }) ≡ false }
    ensures first { first_of
        (record { place = 2; stop = Refused F4 (record { 0 = 1 }) }
        ∷ record { place = 1; stop = Limit L2 } ∷ record
        { place = 1; stop = Refused F5 (record { 0 = 1 }) } ∷ [])
        ≡ Some (record { place = 1; stop = Refused F5 (record { 0 = 1 }) }) }
    ensures none { first_of [] ≡ None }
{}

/// The first of a list is one of them, and none comes before it.
pub fn first_is_first()
    ensures some { (vs : List Violation) (v : Violation) → first_of vs ≡ Some v
        → IsFirst (IsAmong vs) v }
    ensures none { (vs : List Violation) → first_of vs ≡ None → vs ≡ [] }
{}

/// Where parts have no tokens, the answer is their first violation.
pub fn tokens_stop_at_the_first()
    ensures first { (last : ℕ) (parts : List Part) → stop_of (numbered 0 last parts)
        ≡ stop_at (first_of (violations_of 0 parts)) }
{}

/// A text that is too long is refused for that, whatever stands in it.
pub fn too_long_comes_first(text: &[u8], written: bool)
    ensures { max_text < length text.now → Reads written text.now (Err (Limit L6)) }
{}
