// The serial feed over a state of 68 bytes: 66 kept bytes, their count and the mode.
#![tactic(auto)]

ghost use Rattle.std.specs.Prelude.{◌≡◌, ◌++◌, ◌≤◌, length, drop};
ghost use Rattle.clock_time.specs.Exit.{exit};
ghost use Rattle.clock_time.specs.Reading.{answer_of};
ghost use Rattle.c_feed.specs.Feed.{mode_number, mode_of, framer_in, state_bytes, event_number, feed_state};

use clock_time::Error;
use framing::{Event, Framer, Mode};

// How many bytes a call took, and the number of what the last of them ended: C has the event as a number.
#[derive(Clone, Copy, Debug, PartialEq, Eq, Hash, Drop)]
pub struct Fed {
    pub taken: usize,
    pub event: u8,
}

// Not a From, as the next four are not: Mode, Event and Framer are of another crate, and a state is a slice.
fn mode_number(mode: Mode) -> u8
    ensures { result ≡ mode_number mode }
{
    mode as u8
}

#[tactic(auto, unfolding(crate::specs::Feed::mode_of))]
fn mode_of(n: u8) -> Mode
    ensures { result ≡ mode_of n }
{
    match n {
        1 => Mode::Inside,
        2 => Mode::Overlong,
        _ => Mode::Outside,
    }
}

fn event_number(event: Event) -> u8
    requires { event_number event ≤ 255 }
    ensures { result ≡ event_number event }
{
    match event {
        Event::Nothing => 0,
        Event::Complete(n) => n as u8,
        Event::Dropped => 255,
    }
}

fn load(state: &[u8]) -> Framer
    requires { 68 ≤ length state.now }
    ensures { result ≡ framer_in state.now }
{
    let mut bytes = [0u8; 66];
    bytes.copy_from_slice(&state[..66]);
    let count = state[66] as usize;
    let mode = mode_of(state[67]);
    Framer { bytes, count, mode }
}

fn store(framer: Framer, state: &mut [u8])
    requires { (68 ≤ length state.old) × (framer.count ≤ 255) }
    ensures { state.new ≡ state_bytes framer ++ drop 68 state.old }
{
    state[..66].copy_from_slice(&framer.bytes);
    state[66] = framer.count as u8;
    state[67] = mode_number(framer.mode);
}

// Takes bytes of `s` up to its end, to `limit` bytes, or to just after the first string, and leaves the state. Refuses
// with LentMemory (20) if the state has fewer than 68 bytes.
pub fn feed(state: &mut [u8], s: &[u8], limit: usize) -> Result<Fed, Error>
    ensures { exit (answer_of result) state.new ≡ feed_state state.old s.now limit }
{
    if state.len() < 68 {
        return Err(Error::LentMemory);
    }
    let fed = load(state).feed(s, limit);
    store(fed.framer, state);
    Ok(Fed {
        taken: fed.taken,
        event: event_number(fed.event),
    })
}
