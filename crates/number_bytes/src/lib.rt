// Numbers from bytes, the lowest byte first, whatever the bytes are of.
#![tactic(auto)]

ghost use Rattle.std.specs.Prelude.{◌≡◌, ◌+◌, ◌^◌, ◌≤◌, ◌<◌, length};
ghost use Rattle.number_bytes.specs.Number.{number_at, signed_of};

// Sixteen bits as a signed number.
#[tactic(auto, using(crate::proofs::Sixteen::signed_is))]
pub fn signed(bits: u64) -> i16
    requires { bits < 2 ^ 16 }
    ensures { result ≡ signed_of bits }
{
    (bits as u16).cast_signed()
}

// The little-endian number of some bytes.
#[tactic(auto, using(crate::proofs::Numbers::number_bound, crate::proofs::Numbers::more_fits), unfolding(crate::specs::Number::number_at))]
pub fn number(bytes: &[u8], at: usize, wide: usize) -> u64
    requires { (at + wide ≤ length bytes.now) × (wide ≤ 8) }
    ensures value { result ≡ number_at bytes.now at wide }
    ensures upper_bound { result < 256 ^ wide }
{
    let mut value = 0;
    for byte in bytes[at..at + wide].iter().rev() {
        value = value * 256 + u64::from(*byte);
    }
    value
}
