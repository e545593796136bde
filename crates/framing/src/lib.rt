// Cuts the strings that STX and ETX enclose out of a stream of bytes.
#![tactic(auto)]

ghost use Rattle.std.specs.Prelude.{◌≡◌, take};
ghost use Rattle.framing.specs.Step.{start, step_of};
ghost use Rattle.framing.specs.Feed.{feed_of};

mod runs;
mod single;

// The bytes that begin and end a string, and how many bytes of one are kept.
const STX: u8 = 2;

const ETX: u8 = 3;

const ROOM: usize = 66;

// Where a state stands.
#[derive(Clone, Copy, Debug, PartialEq, Eq)]
pub enum Mode {
    Outside,
    Inside,
    Overlong,
}

// The state between two bytes: of a string that goes on, the first `count` of `bytes` are kept. A state that C lends
// may have a count above 66, so the count stands beside the bytes, with no bound.
#[derive(Clone, Copy, Debug, PartialEq, Eq)]
pub struct Framer {
    pub bytes: [u8; 66],
    pub count: usize,
    pub mode: Mode,
}

// What a byte ends: nothing yet, a kept string of so many bytes, or an overlong string.
// Nothing is a case and no Option: document 01 has these three answers, and `step_of` names them.
#[derive(Clone, Copy, PartialEq, Eq, Debug)]
pub enum Event {
    Nothing,
    Complete(usize),
    Dropped,
}

// The state after a byte, with the byte's event: a step takes a state by value and hands it back, as document 01 asks.
#[derive(Clone, Copy, Debug, PartialEq, Eq)]
pub struct StepResult {
    pub framer: Framer,
    pub event: Event,
}

// The state after the bytes taken of a slice, with the event of the last.
// By value, as `StepResult` is.
#[derive(Clone, Copy, Debug, PartialEq, Eq)]
pub struct FeedResult {
    pub framer: Framer,
    pub event: Event,
    pub taken: usize,
}

impl Framer {
    // The state before the first byte.
    pub fn new() -> Self
        ensures { result ≡ start }
    {
        Framer {
            bytes: [0; 66],
            count: 0,
            mode: Mode::Outside,
        }
    }

    // The state after the byte b, with what the byte ends.
    pub fn step(mut self, b: u8) -> StepResult
        ensures { result ≡ step_of self b }
    {
        let event = self.advance(b);
        StepResult {
            framer: self,
            event,
        }
    }

    // Takes bytes of s up to its end, to `limit` bytes, or to the first that ends a string.
    pub fn feed(mut self, s: &[u8], limit: usize) -> FeedResult
        ensures { result ≡ feed_of self (take limit s.now) }
    {
        let s = &s[..limit.min(s.len())];
        let mut rest = self.pass(s);
        while let Some((b, after)) = rest.split_first() {
            let event = self.advance(*b);
            if event != Event::Nothing {
                return FeedResult {
                    framer: self,
                    event,
                    taken: s.len() - after.len(),
                };
            }
            rest = self.pass(after);
        }
        FeedResult {
            framer: self,
            event: Event::Nothing,
            taken: s.len(),
        }
    }
}
