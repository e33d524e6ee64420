//! Laws of the definitions.

ghost use Rattle.std.specs.Prelude.{◌≡◌, ℕ, ℤ, List};
ghost use Rattle.float_text.specs.FloatText.{Reads};

/// Proves that a text spells at most one floating point number.
pub fn one_float()
    ensures { (text : List ℕ) (a b : ℤ) → Reads text a → Reads text b → a ≡ b }
{}
