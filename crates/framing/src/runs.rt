// Runs of bytes that end nothing and start nothing, taken at once.
ghost use Rattle.std.specs.Prelude.{◌≡◌, ℕ, true, ◌≤◌, ◌<◌, length, get_or, []};
ghost use Rattle.framing.specs.declared.Mode.TheVariants.{Inside};
ghost use Rattle.framing.specs.Run.{Taken, before};

use crate::{ETX, Framer, Mode, ROOM, STX};

// How many bytes of s stand before the first that is STX or `last`.
fn before(s: &[u8], last: u8) -> usize
    ensures within { result ≤ length s.now }
    ensures before { result ≡ before last s.now }
{
    s.iter()
        .position(|b| (*b == STX) | (*b == last))
        .unwrap_or(s.len())
}

// Of eight bytes side by side, bits 2 to 6 of each, and bit 7 of each.
const BITS_2_TO_6: u64 = 0x7c7c_7c7c_7c7c_7c7c;

const BIT_7: u64 = 0x8080_8080_8080_8080;

// True only if eight bytes are neither STX nor ETX: some bit of 2 to 6 is set in each, so that adding all of these to
// those sets bit 7.
fn are_plain(s: [u8; 8]) -> bool
    ensures { result ≡ true → before 3 s ≡ 8 }
{
    let bytes = bits::join_eight(s);
    ((bytes & BITS_2_TO_6) + BITS_2_TO_6) & BIT_7 == BIT_7
}

// How many eights of bytes stand before the first that may have STX or ETX.
fn plain_eights(eights: &[[u8; 8]]) -> usize
    ensures within { result ≤ length eights.now }
    ensures plain { (i : ℕ) → i < result → before 3 (get_or eights.now i []) ≡ 8 }
{
    eights
        .iter()
        .position(|eight| !are_plain(*eight))
        .unwrap_or(eights.len())
}

// How many bytes of s stand before the first STX or ETX, most of them counted eight at a time.
fn plain_run(s: &[u8]) -> usize
    ensures within { result ≤ length s.now }
    ensures before { result ≡ before 3 s.now }
{
    let (eights, _) = s.as_chunks::<8>();
    let n = 8 * plain_eights(eights);
    n + before(&s[n..], ETX)
}

impl Framer {
    // Keeps the bytes of s eight at a time, as long as eight are plain and there is room, and returns what is left of s.
    fn keep_eights<'a>(&mut self, s: &'a [u8]) -> &'a [u8]
        requires inside { self.old.mode ≡ Inside }
        requires few { self.old.count ≤ 66 }
        ensures taken { Taken self.old s.now self.new result.now }
        ensures inside { self.new.mode ≡ Inside }
        ensures few { self.new.count ≤ 66 }
    {
        let mut rest = s;
        while let Some((eight, after)) = rest.split_first_chunk::<8>() {
            if (ROOM - self.count < 8) || !are_plain(*eight) {
                break;
            }
            self.bytes[self.count..self.count + 8].copy_from_slice(eight);
            self.count += 8;
            rest = after;
        }
        rest
    }

    // Keeps the bytes of s before its first STX or ETX, as long as there is room, and returns what is left of s. They are
    // kept as they are looked at: a copy of a run whose length is not known is a call, which costs more than most runs.
    fn keep<'a>(&mut self, s: &'a [u8]) -> &'a [u8]
        requires inside { self.old.mode ≡ Inside }
        requires few { self.old.count ≤ 66 }
        ensures { Taken self.old s.now self.new result.now }
    {
        let mut rest = self.keep_eights(s);
        while let Some((b, after)) = rest.split_first() {
            if (self.count == ROOM) || (*b == STX) | (*b == ETX) {
                break;
            }
            self.bytes[self.count] = *b;
            self.count += 1;
            rest = after;
        }
        rest
    }

    // Takes the run at the start of s: outside a string up to STX, in one up to STX or ETX or as long as there is room.
    // Returns what is left of s.
    pub(crate) fn pass<'a>(&mut self, s: &'a [u8]) -> &'a [u8]
        ensures { Taken self.old s.now self.new result.now }
    {
        if ROOM < self.count {
            return &s[before(s, STX)..];
        }
        match self.mode {
            Mode::Outside => &s[before(s, STX)..],
            Mode::Inside => self.keep(s),
            Mode::Overlong => &s[plain_run(s)..],
        }
    }
}
