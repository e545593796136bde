// The serial feed and the listing of a stream, which refuse nothing.
ghost use Rattle.std.specs.Prelude.{◌≡◌};
ghost use Rattle.framing.specs.Step.{step_of};
ghost use Rattle.framing.specs.Steps.{BySteps};
ghost use Rattle.listing.specs.Listing.{listed_into, list_of};
ghost use Rattle.demands.specs.Streams.{FewBytes, Lists};

use framing::{FeedResult, Framer, StepResult};
use listing::{Listed, Listing};

fn step(f: Framer, b: u8) -> StepResult
    ensures step { result ≡ step_of f b }
    ensures few { FewBytes result.event }
{
    f.step(b)
}

fn feed(f: Framer, s: &[u8], limit: usize) -> FeedResult
    ensures steps { BySteps f s.now limit result }
    ensures few { FewBytes result.event }
{
    f.feed(s, limit)
}

fn list(l: Listing, s: &[u8], out: &mut [u8]) -> Listed
    ensures answer { listed_into result out.new ≡ list_of l s.now out.old }
    ensures lists { Lists l s.now out.old (listed_into result out.new) }
{
    l.list(s, out)
}
