// A float as four bytes, the lowest first, whatever they are.
#![tactic(auto)]

ghost use Rattle.std.specs.Prelude.{◌≡◌, ◌+◌, ◌≤◌, length};
ghost use Rattle.number_float.specs.Float.{float_bytes, float_at};

use std::num::f32_from_bits_with_nan;

pub const FLOAT: usize = 4;

// The float of the four bytes from `at` on.
pub fn float_at(bytes: &[u8], at: usize) -> f32
    requires { at + float_bytes ≤ length bytes.now }
    ensures { result ≡ float_at bytes.now at }
{
    let bits = number_bytes::number(bytes, at, FLOAT) as u32;
    f32_from_bits_with_nan(bits)
}
