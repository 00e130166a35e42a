// The mode calls, with the log: by number, on a board that is lent, by its parts and on one that is given; then play, pause, resume
// and stop.
ghost use Rattle.std.specs.Prelude.{◌≡◌, ◌<◌};
ghost use Rattle.board.specs.Board.{board_by};
ghost use Rattle.board.specs.Mode.{changed_by};
ghost use Rattle.board.specs.Points.{track_count};
ghost use Rattle.board.specs.Call.{GivesAs, does, mode_does, ChangesMode, world};
ghost use Rattle.board.specs.declared.call.Call.TheVariants.{Play, Pause, Resume, Stop};

use crate::Board;
use crate::log::{Record, put_record};
use crate::parts::Parts;
use crate::tick::change_record;
use track::Track;
use track::grid::grid;
use track::refusal::Refusal;
use track::valid::ValidTrack;

// What an accepted mode call comes to: the one track that it may change, and the number of records held.
#[derive(Clone, Copy)]
pub struct ModeChange {
    pub at: usize,
    pub track: Track,
    pub held: u64,
}

impl ModeChange {
    // The board after the call.
    pub fn store(&self, board: &mut Board)
        requires { self.now.at < track_count }
        ensures { board.new ≡ changed_by board.old self.now }
    {
        board.tracks[self.at] = self.track;
        board.held = self.held;
    }
}

impl Board {
    // The call on a board that stays as it is.
    pub fn change_mode(&self, track: i64, call: u8, log: &mut [u8]) -> Result<ModeChange, Refusal>
        ensures { ChangesMode call track self.now log.old result log.new }
    {
        self.checked()?;
        let held = self.held;
        let capacity = (log.len() / Record::WIDTH) as u64;
        if capacity < held {
            return Err(Refusal::Capacity);
        }
        let at = self.found(track)? as usize;
        let t = self.tracks[at];
        let mode = t.mode;
        let new = grid(mode, call).ok_or(Refusal::Mode)?;
        let after = t.entered(new);
        let valid = ValidTrack { track: t };
        let Some(r) = change_record(self.clock, at as u8, valid, new, t.position, t.passes) else {
            return Ok(ModeChange {
                at,
                track: after,
                held,
            });
        };
        if capacity <= held {
            return Err(Refusal::Room);
        }
        put_record(r, log, held as usize * Record::WIDTH);
        Ok(ModeChange {
            at,
            track: after,
            held: held + 1,
        })
    }
}

// The call on a board that is given by its parts. Rows of another length make a broken board.
pub fn change_mode(
    parts: Parts<'_>,
    track: i64,
    call: u8,
    log: &mut [u8],
) -> Result<ModeChange, Refusal>
    ensures { ChangesMode call track (board_by parts.entry) log.old result log.new }
{
    Board::try_from(parts)?.change_mode(track, call, log)
}

// The call on a board.
fn mode_call(mut b: Board, track: i64, call: u8, log: &mut [u8]) -> Result<Board, Refusal>
    ensures { GivesAs (mode_does call track (world b log.old)) b result log.new }
{
    b.change_mode(track, call, log)?.store(&mut b);
    Ok(b)
}

// The four calls of 01, each by its name.

// From STOPPED to PLAYING.
#[tactic(auto, unfolding(crate::specs::Call::mode_does, crate::specs::Call::run_count, crate::specs::Call::says_of, crate::specs::Call::makes_of))]
pub fn play(b: Board, track: i64, log: &mut [u8]) -> Result<Board, Refusal>
    ensures { GivesAs (does (Play track) (world b log.old)) b result log.new }
{
    mode_call(b, track, 1, log)
}

// From PLAYING or WAITING to PAUSED.
#[tactic(auto, unfolding(crate::specs::Call::mode_does, crate::specs::Call::run_count, crate::specs::Call::says_of, crate::specs::Call::makes_of))]
pub fn pause(b: Board, track: i64, log: &mut [u8]) -> Result<Board, Refusal>
    ensures { GivesAs (does (Pause track) (world b log.old)) b result log.new }
{
    mode_call(b, track, 2, log)
}

// From PAUSED or WAITING to PLAYING.
#[tactic(auto, unfolding(crate::specs::Call::mode_does, crate::specs::Call::run_count, crate::specs::Call::says_of, crate::specs::Call::makes_of))]
pub fn resume(b: Board, track: i64, log: &mut [u8]) -> Result<Board, Refusal>
    ensures { GivesAs (does (Resume track) (world b log.old)) b result log.new }
{
    mode_call(b, track, 3, log)
}

// From any mode to STOPPED, rewound.
#[tactic(auto, unfolding(crate::specs::Call::mode_does, crate::specs::Call::run_count, crate::specs::Call::says_of, crate::specs::Call::makes_of))]
pub fn stop(b: Board, track: i64, log: &mut [u8]) -> Result<Board, Refusal>
    ensures { GivesAs (does (Stop track) (world b log.old)) b result log.new }
{
    mode_call(b, track, 4, log)
}
