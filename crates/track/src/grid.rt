// The mode grid.
ghost use Rattle.std.specs.Prelude.{◌≡◌};
ghost use Rattle.track.specs.Grid.{grid_of};

use crate::Track;

// What a mode call or a command does in a mode: the mode to go to, or none where it is refused.
// One decision for each of the sixteen pairs of mode and call. Calls: 1 play, 2 pause, 3 resume, 4 stop.
// 01 names this form: nested matches on the mode and on the number of the call.
#[tactic(auto, unfolding(crate::specs::Grid::grid_of))]
pub fn grid(mode: u8, call: u8) -> Option<u8>
    ensures { result ≡ grid_of mode call }
{
    match mode {
        Track::STOPPED => match call {
            1 => Some(Track::PLAYING),
            2 => None,
            3 => None,
            4 => Some(Track::STOPPED),
            _ => None,
        },
        Track::PLAYING => match call {
            1 => None,
            2 => Some(Track::PAUSED),
            3 => None,
            4 => Some(Track::STOPPED),
            _ => None,
        },
        Track::PAUSED => match call {
            1 => None,
            2 => None,
            3 => Some(Track::PLAYING),
            4 => Some(Track::STOPPED),
            _ => None,
        },
        Track::WAITING => match call {
            1 => None,
            2 => Some(Track::PAUSED),
            3 => Some(Track::PLAYING),
            4 => Some(Track::STOPPED),
            _ => None,
        },
        _ => None,
    }
}
