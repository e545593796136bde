// One byte, with the state changed in place.
ghost use Rattle.std.specs.Prelude.{◌≡◌};
ghost use Rattle.framing.specs.Step.{effective_mode, step_of};

use crate::{ETX, Event, Framer, Mode, ROOM, STX};

impl Framer {
    // The mode by which a byte other than STX goes.
    #[tactic(auto, unfolding(crate::specs::Step::effective_mode))]
    fn effective_mode(&self) -> Mode
        ensures { result ≡ effective_mode self.now.count self.now.mode }
    {
        if ROOM < self.count {
            return Mode::Outside;
        }
        match self.mode {
            Mode::Inside if self.count == ROOM => Mode::Overlong,
            mode => mode,
        }
    }

    // The single step.
    #[tactic(auto, using(crate::proofs::StepLaws::inside_mode), unfolding(crate::specs::Step::step_of))]
    pub(crate) fn advance(&mut self, b: u8) -> Event
        ensures { record { framer = self.new; event = result } ≡ step_of self.old b }
    {
        if b == STX {
            self.bytes[0] = STX;
            self.count = 1;
            self.mode = Mode::Inside;
            return Event::Nothing;
        }
        match self.effective_mode() {
            Mode::Outside => Event::Nothing,
            Mode::Inside => {
                self.bytes[self.count] = b;
                self.count += 1;
                if b != ETX {
                    return Event::Nothing;
                }
                self.mode = Mode::Outside;
                Event::Complete(self.count)
            }
            Mode::Overlong => {
                if b != ETX {
                    self.mode = Mode::Overlong;
                    return Event::Nothing;
                }
                self.mode = Mode::Outside;
                Event::Dropped
            }
        }
    }
}
