// The info of a point: what it does, as the one number that C's rows hold.
ghost use Rattle.std.specs.Prelude.{◌≡◌, ◌<◌};
ghost use Rattle.board.specs.Points.{event_of, waits, command_of, target_of, InfoRule};

use crate::points::Point;

// An info that keeps its rule. The rows and the rule's own `info_at` give 0 where there is no point; here that is None.
#[derive(Clone, Copy)]
pub(crate) struct Info {
    pub(crate) number: u32,
    ghost rule: { InfoRule number },
    ghost some: { 0 < number },
}

impl Info {
    pub(crate) fn event(self) -> u8
        ensures { result ≡ event_of self.number }
    {
        (self.number % Point::WAIT) as u8
    }

    // Whether the point has the wait flag.
    #[tactic(auto, unfolding(crate::specs::Points::waits))]
    pub(crate) fn waits(self) -> bool
        ensures { result ≡ waits self.number }
    {
        self.number / Point::WAIT % 2 == 1
    }

    // The call that the point makes on its target, 0 for none.
    pub(crate) fn command(self) -> u8
        ensures { result ≡ command_of self.number }
    {
        (self.number / Point::COMMAND % 8) as u8
    }

    pub(crate) fn target(self) -> u8
        ensures { result ≡ target_of self.number }
    {
        (self.number / Point::TARGET) as u8
    }
}
