// A board: tracks side by side, their points, one clock and the number of records held in one log.
#![tactic(auto)]

ghost use Rattle.std.specs.Prelude.{◌≡◌};
ghost use Rattle.board.specs.Board.{fresh_board};

use crate::points::Points;
use track::{Coordinate, Ticks, Track};

pub mod advance;
pub mod apply;
pub mod call;
mod follow;
mod info;
pub mod lists;
pub mod log;
pub mod master;
mod members;
pub mod mode;
pub mod parts;
pub mod points;
pub mod query;
mod quiet;
pub mod row;
mod rules;
pub mod setup;
mod stage;
mod stay;
mod steady;
mod tick;

#[repr(C)]
#[derive(Clone, Copy)]
pub struct Board {
    pub tracks: [Track; Board::TRACKS],
    // Bit i says that track i is present.
    pub present: u16,
    pub points: Points,
    pub clock: Ticks,
    // Records held in the log.
    pub held: u64,
}

impl Board {
    pub const TRACKS: usize = 16;

    // The highest number of a track.
    pub const LAST: u32 = 15;

    // Fresh: no track, no point, clock 0, held 0.
    pub fn new() -> Self
        ensures { result ≡ fresh_board }
    {
        let absent = Track::new(Coordinate(0), Coordinate(0));
        let points = Points::new();
        Board {
            tracks: [absent; Board::TRACKS],
            present: 0,
            points,
            clock: Ticks(0),
            held: 0,
        }
    }
}
