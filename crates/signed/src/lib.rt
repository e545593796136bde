// Signed numbers: from a sign and a magnitude, and back.
#![tactic(auto)]

ghost use Rattle.std.specs.Prelude.{◌≡◌, nat_abs};
ghost use Rattle.signed.specs.Signed.{signed, sign_holds, sign_byte};

pub mod offset;

// The number of a magnitude, below zero if `negative`.
#[tactic(auto, unfolding(crate::specs::Signed::signed))]
pub fn with_sign(negative: bool, magnitude: u32) -> i64
    ensures { result ≡ signed negative magnitude }
{
    let z = i64::from(magnitude);
    if negative { -z } else { z }
}

// Whether a byte is one of two signs and a magnitude is within its limit, and no zero is below zero.
// The two signs are apart, as in the definition.
#[tactic(auto, unfolding(crate::specs::Signed::sign_holds))]
pub fn sign_holds(above: u8, below: u8, limit: u32, byte: u8, magnitude: u32) -> bool
    ensures { result ≡ sign_holds above below limit byte magnitude }
{
    ((byte == above) | (byte == below))
        & (magnitude <= limit)
        & !((magnitude == 0) & (byte == below))
}

// The magnitude of a number, whatever its sign.
pub fn magnitude(z: i32) -> u32
    ensures { result ≡ nat_abs z }
{
    z.unsigned_abs()
}

// The sign of a number, zero among those above.
pub fn sign_byte(above: u8, below: u8, z: i32) -> u8
    ensures { result ≡ sign_byte above below z }
{
    if z < 0 { below } else { above }
}
