// Parts of a line, and the bytes that a text stands for: `%hh`, with two hexadecimal digits, is a byte that can not be
// shown.
ghost use Rattle.std.specs.Prelude.{◌≤◌, length};
ghost use Rattle.std.specs.Iterator.{at_most};

// So many bytes of a text count.
pub const MOST_BYTES: usize = 256;

// The words of a line, up to a colon, and its text, which starts two bytes after the colon.
pub fn parts(line: &[u8]) -> (&[u8], &[u8]) {
    let mut parts = line.splitn(2, |b| *b == b':');
    let words = parts.next().unwrap_or(b"");
    let shown = parts.next().and_then(|shown| shown.get(1..));
    (words, shown.unwrap_or(b""))
}

// The first n, or all if they are fewer.
pub fn first<T>(s: &[T], n: usize) -> &[T] {
    s.get(..n).unwrap_or(s)
}

// What a hexadecimal digit stands for: its low four bits, and 9 more for a letter.
// Not `from_str_radix`: any byte is taken.
fn nibble(b: u8) -> u8
    ensures { result ≤ 15 }
{
    if b < b'a' { b % 16 } else { (b % 16 + 9) % 16 }
}

// The bytes that a text stands for. A digit that is missing at its end counts as 0.
#[derive(Drop)]
struct Decoded<'a>(&'a [u8]);

impl Iterator for Decoded<'_> {
    type Item = u8;

    ghost remaining = { λ d. at_most (length d.0.now) };

    fn next(&mut self) -> Option<u8> {
        let (byte, rest): (u8, &[u8]) = match self.0 {
            [] => return None,
            [b'%'] => (0, b""),
            [b'%', high] => (16 * nibble(*high), b""),
            [b'%', high, low, rest @ ..] => (16 * nibble(*high) + nibble(*low), rest),
            [byte, rest @ ..] => (*byte, rest),
        };
        self.0 = rest;
        Some(byte)
    }
}

// Puts the bytes that a text stands for, each less `base`, to the front of the space, as far as there is room, and
// answers these.
pub fn decode<'a>(shown: &[u8], base: u8, space: &'a mut [u8; MOST_BYTES]) -> &'a [u8] {
    let mut count = 0;
    for (i, (place, b)) in space.iter_mut().zip(Decoded(shown)).enumerate() {
        *place = b.wrapping_sub(base);
        count = i + 1;
    }
    first(space, count)
}
