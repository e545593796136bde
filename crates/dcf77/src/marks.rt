// Marks as numbers.
ghost use Rattle.std.specs.Prelude.{◌≡◌, not, ◌+◌, ◌%◌, ◌≤◌, ◌<◌, eqb, length, is_some, IfSome};
ghost use Rattle.std.specs.Int.Count.{ones};
ghost use Rattle.dcf77.specs.Marks.{all_sure, sure_from, eight_sure, binary};
ghost use Rattle.dcf77.specs.Numbers.{Sure, four_bytes};

// A short mark, a long one, and a second without one. Every other number is a mark that is unsure.
// Bytes and no enum, since C lends marks as bytes.
pub const SHORT: u8 = 0;

pub const LONG: u8 = 1;

pub const GAP: u8 = 2;

// The first of the marks of a minute, of an hour and of a date, each with its parity.
const MINUTE: usize = 21;

const HOUR: usize = 29;

const DATE: usize = 36;

// The bits that none of eight short or long marks has.
const UNSURE_BITS: u64 = 0xfefe_fefe_fefe_fefe;

// The factor that brings the bits of four bytes side by side, and what the lowest of them then counts.
const GATHER: u64 = 0x0102_0408;

const GATHERED: u64 = 0x0100_0000;

// Whether eight marks are short or long: no bit but the lowest is set in any of the bytes.
fn eight_sure(m: &[u8], at: usize) -> bool
    requires { at + 8 ≤ length m.now }
    ensures { result ≡ sure_from 8 at m.now }
{
    let bytes = u64::from_le_bytes([
        m[at],
        m[at + 1],
        m[at + 2],
        m[at + 3],
        m[at + 4],
        m[at + 5],
        m[at + 6],
        m[at + 7],
    ]);
    bytes & UNSURE_BITS == 0
}

// Whether eight marks from a place on are there, and all of them are short or long.
#[tactic(auto, using(crate::proofs::MarkLaws::eight_past, crate::proofs::MarkLaws::eight_there))]
pub fn are_eight_sure(m: &[u8], at: usize) -> bool
    ensures { result ≡ eight_sure at m.now }
{
    if m.len() < 8 {
        return false;
    }
    if m.len() - 8 < at {
        return false;
    }
    eight_sure(m, at)
}

// Whether every mark of a run is short or long. The last eight are taken from the end, so that some are read twice.
fn all_sure(m: &[u8]) -> bool
    requires { (59 ≤ length m.now) × (length m.now ≤ 60) }
    ensures { result ≡ all_sure m.now }
{
    let mut sure = eight_sure(m, m.len() - 8);
    for i in 0..7 {
        sure &= eight_sure(m, 8 * i);
    }
    sure
}

// The four bytes from a place on as one number. A function of its own, in which the compiler makes a single load of
// them.
fn four_at(m: &[u8], at: usize) -> u64
    requires { at + 4 ≤ length m.now }
    ensures { (result < 4294967296) × (result ≡ four_bytes at m.now) }
{
    u64::from(u32::from_le_bytes([m[at], m[at + 1], m[at + 2], m[at + 3]]))
}

// A run of 59 or 60 marks, each of which is short or long.
#[derive(Clone, Copy)]
pub(crate) struct SureRun<'a> {
    pub(crate) marks: &'a [u8],
    ghost is_sure: { Sure marks.now },
    ghost is_short: { length marks.now ≤ 60 },
}

impl<'a> SureRun<'a> {
    // The run of the marks, if each is short or long.
    pub(crate) fn new(m: &'a [u8]) -> Option<SureRun<'a>>
        requires { (59 ≤ length m.now) × (length m.now ≤ 60) }
        ensures known { is_some result ≡ all_sure m.now }
        ensures same { IfSome result (λ r. r.marks.now ≡ m.now) }
    {
        if all_sure(m) {
            Some(SureRun { marks: m })
        } else {
            None
        }
    }

    // The number that eight marks stand for. The product has the bits of the sum side by side, as its bits 24 to 31.
    pub(crate) fn eight(&self, at: usize) -> u32
        requires { at + 8 ≤ length self.now.marks.now }
        ensures { result ≡ binary 8 at self.now.marks.now }
    {
        let m = self.marks;
        let low = four_at(m, at);
        let high = four_at(m, at + 4);
        ((low + 16 * high) * GATHER / GATHERED % 256) as u32
    }

    // The number that the marks 21 to 28 stand for.
    pub(crate) fn minute(&self) -> u32
        ensures { result ≡ binary 8 21 self.now.marks.now }
    {
        self.eight(MINUTE)
    }

    // The number that the marks 29 to 35 stand for.
    pub(crate) fn hour(&self) -> u32
        ensures { result ≡ binary 7 29 self.now.marks.now }
    {
        self.eight(HOUR) % 128
    }

    // The number that the marks 36 to 58 stand for. A run may end there, so the last seven are read from mark 51 on.
    pub(crate) fn date(&self) -> u32
        ensures { result ≡ binary 23 36 self.now.marks.now }
    {
        let low = self.eight(DATE);
        let middle = self.eight(DATE + 8);
        low + 256 * (middle + 256 * (self.eight(DATE + 15) / 2))
    }
}

// Whether an odd number of bits is set.
pub(crate) fn is_odd(n: u32) -> bool
    ensures { result ≡ not (eqb (ones n % 2) 0) }
{
    n.count_ones() % 2 != 0
}
