// The listing of the strings in a stream of bytes, line by line.
#![tactic(auto)]

ghost use Rattle.std.specs.Prelude.{◌≡◌, ◌+◌, ◌≤◌, length};
ghost use Rattle.std.proofs.Math.Seq.{paste};
ghost use Rattle.listing.specs.Listing.{start, listed_into, list_of};
ghost use Rattle.listing.specs.NextLine.{ListsNext};

use framing::Framer;
use listing_lines::Totals;

mod entry;

use entry::{LONGEST, Line};

// A line is made only if `out` has room for the longest.
const ROOM: usize = LONGEST;

// The state between two bytes.
#[derive(Clone, Copy, Debug, PartialEq, Eq)]
pub struct Listing {
    pub framer: Framer,
    pub totals: Totals,
}

// The state after the bytes taken, and the length of their text: the caller's memory is fixed, so it has no end of its
// own.
#[derive(Clone, Copy, Debug, PartialEq, Eq)]
pub struct Listed {
    pub listing: Listing,
    pub taken: usize,
    pub length: usize,
}

// The state after the bytes taken, and their line.
#[derive(Drop)]
struct LineResult {
    listing: Listing,
    line: Line,
    taken: usize,
}

// Puts the line into `out` from `at` on.
fn put_line(out: &mut [u8], at: usize, line: &[u8])
    requires { at + length line.now ≤ length out.old }
    ensures { out.new ≡ paste out.old at line.now (length line.now) }
{
    out[at..at + line.len()].copy_from_slice(line);
}

// Takes the bytes of s up to the first that ends a string.
fn next_line(listing: Listing, s: &[u8]) -> LineResult
    ensures { ListsNext listing s.now result }
{
    let fed = listing.framer.feed(s, s.len());
    let entry = entry::entry_at(&fed.framer.bytes, fed.event);
    let totals = entry::count(listing.totals, entry);
    LineResult {
        listing: Listing {
            framer: fed.framer,
            totals,
        },
        line: entry::entry_line(entry),
        taken: fed.taken,
    }
}

impl Listing {
    // The state before the first byte.
    pub fn new() -> Self
        ensures { result ≡ start }
    {
        let framer = Framer::new();
        let totals = Totals {
            frames: 0,
            refused: 0,
            dropped: 0,
        };
        Listing { framer, totals }
    }

    // Takes bytes of s as long as `out` has room for any line, 35 bytes, and puts their text to the front of `out`.
    pub fn list(self, s: &[u8], out: &mut [u8]) -> Listed
        ensures { listed_into result out.new ≡ list_of self s.now out.old }
    {
        let mut listing = self;
        let mut at = 0;
        let mut i = 0;
        // No step of one: a turn takes as many bytes as the feed did.
        while i < s.len() {
            if out.len() - at < ROOM {
                return Listed {
                    listing,
                    taken: i,
                    length: at,
                };
            }
            let result = next_line(listing, &s[i..]);
            listing = result.listing;
            let line = result.line.as_slice();
            put_line(out, at, line);
            at += line.len();
            i += result.taken;
        }
        Listed {
            listing,
            taken: i,
            length: at,
        }
    }
}
