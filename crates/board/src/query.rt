// What can be asked of a board.
ghost use Rattle.std.specs.Prelude.{◌-◌};
ghost use Rattle.board.specs.Call.{Leaves, clock_said, track_said, point_said, count_said};
ghost use Rattle.board.specs.declared.call.Call.TheVariants as call;

use crate::Board;
use crate::points::{Point, Points};
use track::number::clamped;
use track::refusal::Refusal;
use track::{Coordinate, Ticks, Track};

impl Board {
    // The clock, and the number of records held.
    pub fn clock_and_held(self) -> Result<(Ticks, u64), Refusal>
        ensures { Leaves call.Clock self (clock_said result) self }
    {
        self.checked()?;
        Ok((self.clock, self.held))
    }

    // A track, field by field.
    pub fn track(self, track: i64) -> Result<Track, Refusal>
        ensures { Leaves (call.Track track) self (track_said result) self }
    {
        self.checked()?;
        Ok(self.tracks[self.found(track)? as usize])
    }

    // The point of a track at a position.
    pub fn point(self, track: i64, position: i64) -> Result<Point, Refusal>
        ensures { Leaves (call.Point track position) self (point_said result) self }
    {
        self.checked()?;
        let i = self.found(track)?;
        let l = Coordinate::try_from(position).map_err(|_| Refusal::Point)?;
        let wanted = i * Points::STRIDE + l.0;
        let info = self.points.ordered().info_at(wanted);
        if info == 0 {
            return Err(Refusal::Point);
        }
        Ok(Point::of(wanted, info))
    }

    // How many points of a track stand from a position to another.
    pub fn point_count(self, track: i64, from: i64, to: i64) -> Result<u64, Refusal>
        ensures { Leaves (call.PointCount track from to) self (count_said result) self }
    {
        self.checked()?;
        let base = self.found(track)? * Points::STRIDE;
        let past = base + clamped(to);
        let low = base + clamped(from).saturating_sub(1);
        let count = self.points.ordered().count_between(low, past);
        Ok(count as u64)
    }
}
