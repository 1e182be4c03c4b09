//! Laws of refusals, each the contract of a function that does nothing.
ghost use Rattle.std.specs.Prelude.{◌≡◌, ℕ, ◌+◌, ◌<◌, List, length};
ghost use Rattle.bd_base.specs.declared.limits.TheConstants.{IMAGE_SIZE};
ghost use Rattle.bd_image.specs.Rules.{Accepted, Broken, Length, rule_number};

/// An image that breaks a rule is not accepted.
pub fn refused_is_not_accepted()
    ensures { (b : List ℕ) → (number place : ℕ) → Broken b number place → ¬ Accepted b }
{}

/// An image that is longer than an image may be breaks the first rule, one byte past the limit.
pub fn long_images_are_refused()
    ensures { (b : List ℕ) → IMAGE_SIZE < length b
        → Broken b (rule_number Length) (IMAGE_SIZE + 1) }
{}

/// An image is refused with one number and one place.
pub fn one_refusal()
    ensures { (b : List ℕ) → (m p n q : ℕ) → Broken b m p → Broken b n q → (m ≡ n) × (p ≡ q) }
{}
