// A board from its parts, as a caller may hold them: the rows of its points may have any length.
ghost use Rattle.std.specs.Prelude.{◌≡◌, cond, Ok, Err};
ghost use Rattle.board.specs.Board.{board_by, rows_whole};
ghost use Rattle.track.specs.declared.refusal.Refusal.TheVariants.{Value};

use crate::Board;
use crate::points::Points;
use track::refusal::Refusal;
use track::{Ticks, Track};

#[derive(Clone, Copy)]
pub struct Parts<'a> {
    pub tracks: [Track; Board::TRACKS],
    pub present: u16,
    pub clock: Ticks,
    pub keys: &'a [u32],
    pub infos: &'a [u32],
    // The points held.
    pub count: usize,
    // The records held.
    pub held: u64,
}

// Refused 3, as a broken board is, where a row has not 256 places.
impl<'a> TryFrom<Parts<'a>> for Board {
    type Error = Refusal;

    ghost try_from_gives = { λ p r. r ≡ cond (rows_whole p.keys.now p.infos.now)
        (Ok (board_by p)) (Err Value) };

    fn try_from(parts: Parts<'a>) -> Result<Board, Refusal> {
        let (Ok(keys), Ok(infos)) = (parts.keys.try_into(), parts.infos.try_into()) else {
            return Err(Refusal::Value);
        };
        Ok(Board {
            tracks: parts.tracks,
            present: parts.present,
            points: Points {
                keys,
                infos,
                count: parts.count,
            },
            clock: parts.clock,
            held: parts.held,
        })
    }
}
