// The serial feed over a state of 68 bytes.
ghost use Rattle.std.specs.Prelude.{◌≡◌};
ghost use Rattle.clock_time.specs.Called.{called, called_memory};
ghost use Rattle.clock_time.specs.Exit.{exit};
ghost use Rattle.clock_time.specs.Reading.{answer_of};
ghost use Rattle.c_feed.specs.Feed.{feed_memory, feed_into};

use clock_time::{Error, called};

fn feed_into(
    state: &mut [u8],
    s: &[u8],
    limit: usize,
    taken: &mut usize,
    event: &mut u8,
) -> Result<(), Error>
    ensures { exit (answer_of result) (feed_memory state.new taken.new event.new)
        ≡ feed_into (feed_memory state.old taken.old event.old) s.now limit }
{
    let fed = c_feed::feed(state, s, limit)?;
    *taken = fed.taken;
    *event = fed.event;
    Ok(())
}

// Takes bytes of `s` up to its end, to `limit` bytes, or to just after the first string, and leaves the state, how many
// it took and what the last of them ended. Refuses with LentMemory (20) if the state has fewer than 68 bytes.
pub fn radio_clock_feed(
    state: &mut [u8],
    s: &[u8],
    limit: usize,
    taken: &mut usize,
    event: &mut u8,
) -> u8
    ensures { called result (feed_memory state.new taken.new event.new)
        ≡ called_memory
        (feed_into (feed_memory state.old taken.old event.old) s.now limit) }
{
    called::status(feed_into(state, s, limit, taken, event))
}
