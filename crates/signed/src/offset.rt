// A UTC offset as it is written.
ghost use Rattle.std.specs.Prelude.{◌≡◌};
ghost use Rattle.signed.specs.Offset.{offset_text};

// A sign, two digits, a colon, two digits.
pub type OffsetText = [u8; 6];

// The bytes of a UTC offset, from its sign on.
pub fn offset_text(offset: i16) -> OffsetText
    ensures { result ≡ offset_text offset }
{
    let magnitude = crate::magnitude(i32::from(offset));
    let [ten_hours, hours] = decimal::two_digits(magnitude / 60);
    let [ten_minutes, minutes] = decimal::two_digits(magnitude % 60);
    let sign = crate::sign_byte(b'+', b'-', i32::from(offset));
    [sign, ten_hours, hours, b':', ten_minutes, minutes]
}
