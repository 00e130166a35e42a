// Whether a tick of a playing track makes a step, and many ticks at once.
ghost use Rattle.std.specs.Prelude.{◌≡◌, ◌≤◌};
ghost use Rattle.track.specs.Rule.{clock_end};
ghost use Rattle.track.specs.Leap.{moves, steps_in, remainder_after, leap, ticks_before};

use crate::valid::{SoundTrack, ValidTrack};
use crate::{Ticks, Track};

// The steps that ticks make, and the remainder then.
#[derive(Clone, Copy)]
pub(crate) struct Made {
    pub(crate) steps: u32,
    remainder: u32,
    ghost few: { steps ≤ clock_end },
}

impl ValidTrack {
    // Whether a tick makes a step.
    #[tactic(auto, unfolding(crate::specs::Leap::moves))]
    pub fn moves(self) -> bool
        ensures { result ≡ moves self.track }
    {
        let t = self.track;
        u32::from(t.ticks) <= t.remainder + u32::from(t.steps)
    }

    // What n ticks make. At 1 in 1 nothing is divided.
    #[tactic(auto, unfolding(crate::specs::Leap::steps_in, crate::specs::Leap::remainder_after))]
    fn made(self, n: Ticks) -> Made
        requires { n.0 ≤ clock_end }
        ensures { (result.steps ≡ steps_in self.track n.0) × (result.remainder ≡ remainder_after self.track n.0) }
    {
        let t = self.track;
        if t.ticks == 1 {
            return Made {
                steps: n.0,
                remainder: 0,
            };
        }
        let sum = u64::from(t.remainder) + u64::from(n.0) * u64::from(t.steps);
        let ticks = u64::from(t.ticks);
        Made {
            steps: (sum / ticks) as u32,
            remainder: (sum % ticks) as u32,
        }
    }

    // The ticks before the one that makes the step behind so many, at most the clock's end.
    #[tactic(auto, unfolding(crate::specs::Leap::ticks_before))]
    pub fn ticks_before(self, steps: u32) -> Ticks
        requires { steps ≤ clock_end }
        ensures { result.0 ≡ ticks_before self.track steps }
    {
        let t = self.track;
        if t.ticks == 1 {
            return Ticks(steps);
        }
        let sum = (u64::from(steps) + 1) * u64::from(t.ticks) - u64::from(t.remainder) - 1;
        Ticks((sum / u64::from(t.steps)).min(u64::from(Ticks::END)) as u32)
    }
}

impl SoundTrack {
    // The track after n ticks, none of which stops it or makes it wait.
    #[tactic(auto, using(crate::proofs::Leaps::leaping), unfolding(crate::specs::Leap::leap))]
    pub fn leap(self, n: Ticks) -> Track
        requires { n.0 ≤ clock_end }
        ensures { result ≡ leap self.valid.track n.0 }
    {
        if n.0 == 0 {
            return self.valid.track;
        }
        let made = self.valid.made(n);
        Track {
            remainder: made.remainder,
            ..self.stride(made)
        }
    }
}
