// Binary64 numbers cut to whole numbers. The theory of one rounding and of a chain of them is in proofs/.
#![tactic(auto)]

ghost use Rattle.std.specs.Prelude.{◌≡◌};
ghost use Rattle.std.specs.Float.Ieee.{to_signed};

// A float as a whole number, cut toward zero, as Rust's `as i64`: it stops at the ends of the range, and a NaN gives 0.
pub fn to_whole(s: f64) -> i64
    ensures { result ≡ to_signed 63 s }
{
    std::num::saturating_f64_to_i64(s)
}
