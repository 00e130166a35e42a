// Whether a track keeps its ranges and rules.
ghost use Rattle.std.specs.Prelude.{◌≡◌};
ghost use Rattle.track.specs.Rule.{ordered_test, cells_test, rated_test, valid_test, sound_test};

use crate::{Coordinate, Ticks, Track};

// The rules of the action cells: none between equal modes. That they are sixteen bytes their type says.
#[tactic(auto, unfolding(crate::specs::Rule::cells_test, crate::specs::Rule::every))]
fn cells_kept(cells: [u8; Track::CELLS]) -> bool
    ensures { result ≡ cells_test cells }
{
    cells[0] == 0 && cells[5] == 0 && cells[10] == 0 && cells[15] == 0
}

impl Track {
    // The order of the coordinates.
    #[tactic(auto, unfolding(crate::specs::Rule::ordered_test, crate::specs::Rule::every))]
    fn ordered(self) -> bool
        ensures { result ≡ ordered_test self.min.0 self.max.0 self.start.0 self.end.0 self.position.0 }
    {
        self.min < self.max
            && self.max.0 <= Coordinate::LAST
            && self.min <= self.start
            && self.start < self.end
            && self.end <= self.max
            && self.start <= self.position
            && self.position <= self.end
    }

    // The rules of the rate and its remainder.
    #[tactic(auto, unfolding(crate::specs::Rule::rated_test, crate::specs::Rule::every))]
    fn rated(self) -> bool
        ensures { result ≡ rated_test self.steps self.ticks self.remainder self.mode }
    {
        self.steps != 0
            && self.steps <= self.ticks
            && u32::from(self.ticks) <= Track::RATE
            && self.remainder < u32::from(self.ticks)
            && (self.mode != Track::STOPPED || self.remainder == 0)
    }

    // Every range and rule of a track by itself.
    #[tactic(auto, unfolding(crate::specs::Rule::valid_test, crate::specs::Rule::every))]
    pub fn valid(self) -> bool
        ensures { result ≡ valid_test self }
    {
        self.ordered()
            && self.loops != 0
            && self.mode <= Track::WAITING
            && self.direction <= Track::BACKWARD
            && self.repeat <= Track::REPEATING
            && self.due <= Track::DUE
            && cells_kept(self.actions)
            && self.rated()
    }

    // Valid, and the passes are not above the clock.
    #[tactic(auto, unfolding(crate::specs::Rule::sound_test))]
    pub fn sound(self, clock: Ticks) -> bool
        ensures { result ≡ sound_test self clock }
    {
        self.valid() && self.passes.0 <= clock.0
    }
}
