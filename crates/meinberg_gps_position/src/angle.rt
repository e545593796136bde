// An angle of a GPS string: its digits, what they say with its letter, and its bytes.
ghost use Rattle.std.specs.Prelude.{◌≡◌, true, ◌&&◌, ◌++◌, ◌≤◌, nat_eq, is_some, IfSome};
ghost use Rattle.decimal.specs.Decimal.{value};
ghost use Rattle.signed.specs.Signed.{signed, sign_holds};
ghost use Rattle.meinberg_gps_position.specs.Aligned.{are_digits, right_aligned, digits_or_blanks};
ghost use Rattle.meinberg_gps_position.specs.Position.{angle_bytes};

use crate::{digits, text};

// Three places before the point and four after it.
#[derive(Clone, Copy)]
pub(crate) struct AngleDigits {
    pub(crate) whole: [u8; 3],
    pub(crate) decimals: [u8; 4],
}

impl AngleDigits {
    // Whether digits and blanks stand where they must.
    pub(crate) fn stand(self) -> bool
        ensures { result ≡ (right_aligned self.whole && are_digits self.decimals) }
    {
        let [a, b, c] = self.whole;
        digits::are_aligned([b' ', a, b, c]) & digits::are_digits(self.decimals)
    }

    // The angle in ten-thousandths of a degree, whatever its sign.
    pub(crate) fn magnitude(self) -> u32
        requires { (digits_or_blanks self.whole ≡ true) × (digits_or_blanks self.decimals ≡ true) }
        ensures { result ≡ value (self.whole ++ self.decimals) }
    {
        let [a, b, c] = self.whole;
        10000 * digits::number([b' ', a, b, c]) + digits::number(self.decimals)
    }
}

// What is sent of an angle: its letter, and its magnitude in ten-thousandths of a degree.
#[derive(Clone, Copy)]
pub(crate) struct Angle {
    pub(crate) letter: u8,
    pub(crate) magnitude: u32,
}

// The letters of an angle from zero on and below zero, and the most that its magnitude may be.
#[derive(Clone, Copy)]
pub(crate) struct Hemispheres {
    pub(crate) above: u8,
    pub(crate) below: u8,
    pub(crate) limit: u32,
}

pub(crate) const LATITUDE: Hemispheres = Hemispheres {
    above: b'N',
    below: b'S',
    limit: 900000,
};

pub(crate) const LONGITUDE: Hemispheres = Hemispheres {
    above: b'E',
    below: b'W',
    limit: 1800000,
};

impl Hemispheres {
    // The angle with its sign, unless its letter or its magnitude is none.
    pub(crate) fn signed(self, angle: Angle) -> Option<i32>
        requires { self.limit ≤ 1800000 }
        ensures known { is_some result ≡ sign_holds self.above self.below self.limit angle.letter angle.magnitude }
        ensures value { IfSome result (λ z. z ≡ signed (nat_eq angle.letter self.below) angle.magnitude) }
    {
        let Hemispheres {
            above,
            below,
            limit,
        } = self;
        let Angle { letter, magnitude } = angle;
        if !signed::sign_holds(above, below, limit, letter, magnitude) {
            return None;
        }
        Some(signed::with_sign(letter == below, magnitude) as i32)
    }

    // An angle with three places before its point, and its letter.
    pub(crate) fn text(self, angle: i32) -> [u8; 9]
        ensures { result ≡ angle_bytes 3 self.above self.below angle }
    {
        let magnitude = signed::magnitude(angle);
        let [_, a, b, c] = text::aligned_text(magnitude / 10000);
        let [d, e, f, g] = text::decimals(magnitude);
        let letter = signed::sign_byte(self.above, self.below, angle);
        [a, b, c, b'.', d, e, f, g, letter]
    }
}
