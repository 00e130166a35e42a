// One step of a PLAYING track.
ghost use Rattle.std.specs.Prelude.{◌≡◌, ◌≤◌};
ghost use Rattle.track.specs.Rule.{clock_end};
ghost use Rattle.track.specs.Walk.{arrival, passes_at, stops, step};

use crate::valid::{SoundTrack, ValidTrack};
use crate::{Coordinate, Passes, Track};

impl ValidTrack {
    // The location that the next step reaches.
    #[tactic(auto, unfolding(crate::specs::Walk::arrival))]
    pub fn arrival(self) -> Coordinate
        ensures { result.0 ≡ arrival self.track }
    {
        let t = self.track;
        if t.due == Track::DUE {
            t.position
        } else if t.position == t.far() {
            t.home()
        } else if t.direction == Track::BACKWARD {
            Coordinate(t.position.0 - 1)
        } else {
            Coordinate(t.position.0 + 1)
        }
    }
}

impl Track {
    // The passes after an arrival at l. It needs the limit of its passes alone and no valid track, so it is no method of `SoundTrack`.
    #[tactic(auto, unfolding(crate::specs::Walk::passes_at))]
    pub fn passes_at(self, l: Coordinate) -> Passes
        requires { self.passes.0 ≤ clock_end }
        ensures { result.0 ≡ passes_at self l.0 }
    {
        if l == self.far() {
            Passes(self.passes.0 + 1)
        } else {
            self.passes
        }
    }
}

impl SoundTrack {
    // Whether the next step stops the track.
    #[tactic(auto, unfolding(crate::specs::Walk::stops))]
    pub(crate) fn stops(self) -> bool
        ensures { result ≡ stops self.valid.track }
    {
        let t = self.valid.track;
        let l = self.valid.arrival();
        l == t.far() && t.repeat != Track::REPEATING && u32::from(t.loops) <= t.passes_at(l).0
    }

    // The track after one step, where wait says that the point at the location reached has a wait flag.
    #[tactic(auto, unfolding(crate::specs::Walk::step, crate::specs::Walk::visited))]
    pub fn step(self, wait: bool) -> Track
        ensures { result ≡ step self.valid.track wait }
    {
        let t = self.valid.track;
        if self.stops() {
            return t.stopped();
        }
        let position = self.valid.arrival();
        let visited = Track {
            position,
            passes: t.passes_at(position),
            due: Track::VISITED,
            ..t
        };
        if wait {
            return Track {
                mode: Track::WAITING,
                ..visited
            };
        }
        visited
    }
}
