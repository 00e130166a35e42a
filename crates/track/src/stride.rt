// Many steps at once, over any number of passes.
ghost use Rattle.std.specs.Prelude.{◌≡◌, ◌≤◌, ◌<◌};
ghost use Rattle.track.specs.Stride.{span, phase, place, next, stride, stop_step, running, steps_to};

use crate::rate::Made;
use crate::valid::{SoundTrack, ValidTrack};
use crate::{Coordinate, Passes, Ticks, Track};

impl Track {
    // How far a location of the span is from home.
    pub(crate) fn phase(self, l: Coordinate) -> u32
        requires { (self.start.0 ≤ l.0) × (l.0 ≤ self.end.0) }
        ensures { result ≡ phase self l.0 }
    {
        if self.direction == Track::BACKWARD {
            self.end.0 - l.0
        } else {
            l.0 - self.start.0
        }
    }
}

impl ValidTrack {
    // The number of locations of the span.
    pub fn span(self) -> u32
        ensures { result ≡ span self.track }
    {
        self.track.end.0 - self.track.start.0 + 1
    }

    // The location that is k from home.
    pub(crate) fn place(self, k: u32) -> Coordinate
        requires { k < span self.track }
        ensures { result.0 ≡ place self.track k }
    {
        let t = self.track;
        if t.direction == Track::BACKWARD {
            Coordinate(t.end.0 - k)
        } else {
            Coordinate(t.start.0 + k)
        }
    }

    // How far from home the next step arrives.
    #[tactic(auto, using(crate::proofs::Arrivals::arriving), unfolding(crate::specs::Stride::next))]
    pub fn next(self) -> u32
        ensures { result ≡ next self.track }
    {
        self.track.phase(self.arrival())
    }

    // The number of the step, counted from 1, that stops a track with repeat off.
    #[tactic(auto, using(crate::proofs::Arrivals::next_small), unfolding(crate::specs::Stride::stop_step))]
    fn stop_step(self) -> u64
        ensures { result ≡ stop_step self.track }
    {
        let t = self.track;
        let left = u32::from(t.loops).saturating_sub(t.passes.0).max(1);
        u64::from(left) * u64::from(self.span()) - u64::from(self.next())
    }

    // The steps before the one that stops the track, at most the clock's end.
    #[tactic(auto, using(crate::proofs::Strides::stopping), unfolding(crate::specs::Stride::running))]
    pub fn running(self) -> u32
        ensures { result ≡ running self.track }
    {
        if self.track.repeat == Track::REPEATING {
            return Ticks::END;
        }
        (self.stop_step() - 1).min(u64::from(Ticks::END)) as u32
    }

    // The steps before the first that reaches the location l of the span.
    #[tactic(auto, using(crate::proofs::Arrivals::next_small), unfolding(crate::specs::Stride::steps_to))]
    pub fn steps_to(self, l: Coordinate) -> u32
        requires { (self.track.start.0 ≤ l.0) × (l.0 ≤ self.track.end.0) }
        ensures { result ≡ steps_to self.track l.0 }
    {
        let next = self.next();
        let to = self.track.phase(l);
        if next <= to {
            to - next
        } else {
            to + self.span() - next
        }
    }
}

impl SoundTrack {
    // The track after the steps that ticks made, none of which stops it or makes it wait.
    #[tactic(auto, using(crate::proofs::Strides::striding), unfolding(crate::specs::Stride::stride))]
    pub(crate) fn stride(self, made: Made) -> Track
        ensures { result ≡ stride self.valid.track made.steps }
    {
        let t = self.valid.track;
        let steps = made.steps;
        if steps == 0 {
            return t;
        }
        let span = self.valid.span();
        let next = self.valid.next();
        let position = self.valid.place((next + (steps - 1)) % span);
        Track {
            position,
            passes: Passes(t.passes.0 + (next + steps) / span),
            due: Track::VISITED,
            ..t
        }
    }
}
