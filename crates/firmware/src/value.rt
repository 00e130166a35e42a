// The answers that the firmware gets as numbers.
ghost use Rattle.std.specs.Prelude.{◌≡◌};
ghost use Rattle.board.specs.Call.{advanced_said};
ghost use Rattle.firmware.specs.Numbers.{ending_said};

use board::call::Advanced;

// How an advance ended: the reason, with the ticks taken or, for a refusal, its number. Numbers, since C is given no enum.
#[repr(C)]
#[derive(Clone, Copy)]
pub struct Ending {
    pub reason: u32,
    pub number: u32,
}

impl Ending {
    pub const DONE: u32 = 0;

    pub const LOG_FULL: u32 = 1;

    pub const CLOCK_END: u32 = 2;

    pub const REFUSED: u32 = 3;
}

impl From<Advanced> for Ending {
    ghost from_gives = { λ a e. ending_said e ≡ advanced_said a };

    fn from(a: Advanced) -> Ending {
        match a {
            Advanced::Done(n) => Ending {
                reason: Ending::DONE,
                number: n.0,
            },
            Advanced::LogFull(n) => Ending {
                reason: Ending::LOG_FULL,
                number: n.0,
            },
            Advanced::ClockEnd(n) => Ending {
                reason: Ending::CLOCK_END,
                number: n.0,
            },
            Advanced::Refused(refusal) => Ending {
                reason: Ending::REFUSED,
                number: refusal as u32,
            },
        }
    }
}
