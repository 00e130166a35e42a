// The calls that set a board up, and clear.
ghost use Rattle.std.specs.Prelude.{◌≡◌, ◌<◌};
ghost use Rattle.board.specs.Setup.{described_by};
ghost use Rattle.board.specs.Call.{LeavesAs};
ghost use Rattle.board.specs.declared.call.Call.TheVariants as call;

use crate::Board;
use crate::call::PointNumbers;
use crate::points::{Point, Points};
use crate::rules::with_track;
use track::number::in_range;
use track::refusal::Refusal;
use track::setup::{Change, settled};
use track::{Coordinate, Track};

impl Board {
    // A set-up change of a track: start, end, loops, repeat, direction, action, jump or rate.
    pub fn set_up(mut self, track: i64, change: Change) -> Result<Board, Refusal>
        ensures { LeavesAs (call.SetUp track change) self result }
    {
        self.checked()?;
        let at = self.found(track)? as usize;
        self.tracks[at] = self.tracks[at].changed(change)?;
        Ok(self)
    }

    // A new track.
    pub fn add_track(mut self, number: i64, min: i64, max: i64) -> Result<Board, Refusal>
        ensures { LeavesAs (call.AddTrack number min max) self result }
    {
        self.checked()?;
        let i = in_range(number, 0, Board::LAST).ok_or(Refusal::Track)?;
        if self.is_present(i) {
            return Err(Refusal::Present);
        }
        let low = Coordinate::try_from(min)?;
        let high = Coordinate::try_from(max)?;
        if high <= low {
            return Err(Refusal::Value);
        }
        self.tracks[i as usize] = Track::new(low, high);
        self.present = with_track(self.present, i);
        Ok(self)
    }

    // The point that the numbers of a call describe for a track.
    fn describe(&self, track: u8, owner: Track, given: PointNumbers) -> Option<Point>
        ensures { result ≡ described_by self.now.present track owner given }
    {
        let p = Point {
            track,
            position: Coordinate::between(given.position, owner.min, owner.max).ok()?,
            event: in_range(given.event, 1, Track::EVENT)? as u16,
            wait: in_range(given.wait, 0, 1)? as u8,
            command: in_range(given.command, 0, 4)? as u8,
            target: in_range(given.target, 0, Board::LAST)? as u8,
        };
        if self.allowed(p) { Some(p) } else { None }
    }

    // A point is set, or another in its place.
    pub fn set_point(mut self, track: i64, given: PointNumbers) -> Result<Board, Refusal>
        ensures { LeavesAs (call.SetPoint track given) self result }
    {
        self.checked()?;
        let i = self.found(track)?;
        let owner = self.tracks[i as usize];
        if !settled(owner.mode) {
            return Err(Refusal::Mode);
        }
        let p = self.describe(i as u8, owner, given).ok_or(Refusal::Value)?;
        self.points = self.points.stored(p.key(), p.info()).ok_or(Refusal::Full)?;
        Ok(self)
    }

    // The point at a position is dropped.
    pub fn drop_point(mut self, track: i64, position: i64) -> Result<Board, Refusal>
        ensures { LeavesAs (call.DropPoint track position) self result }
    {
        self.checked()?;
        let i = self.found(track)?;
        if !settled(self.tracks[i as usize].mode) {
            return Err(Refusal::Mode);
        }
        let l = Coordinate::try_from(position).map_err(|_| Refusal::Point)?;
        let dropped = self.points.dropped(i * Points::STRIDE + l.0);
        self.points = dropped.ok_or(Refusal::Point)?;
        Ok(self)
    }

    // Held becomes 0; the log's bytes stay.
    pub fn clear(mut self) -> Result<Board, Refusal>
        ensures { LeavesAs call.Clear self result }
    {
        self.checked()?;
        self.held = 0;
        Ok(self)
    }
}
