// Calls and replies as rows of numbers, and a call done by its row.
ghost use Rattle.std.specs.Prelude.{◌≡◌, ◌+◌, ◌≤◌, length, take, ◌∷◌};
ghost use Rattle.board.specs.Row.{call_at, padded, track_numbers, point_numbers, numbers_of, row_does, reply_width};
ghost use Rattle.board.specs.Row.{pairs_in, master_in, plain_at, RowAnswered};
ghost use Rattle.board.specs.Log.{write_at};
ghost use Rattle.board.specs.Call.{track_values, point_values, reply_of, reply_by, Gives, world};

use crate::Board;
use crate::apply::{Applied, apply};
use crate::call::{Call, Pairs, PointNumbers, Told};
use crate::points::Point;
use track::Track;
use track::number::capped;
use track::refusal::{Numbered, Refusal};
use track::setup::Change;

// The code of a master call, which only a row has. C writes the rows: their codes are numbers.
const MASTER: i64 = 21;

// The pairs that a row has room for: one more than a track has thresholds.
const PAIRS: u32 = Track::THRESHOLDS as u32 + 1;

// Numbers of a call's row: the code, the track, the master and the number of pairs, then the pairs.
pub const CALL_WIDTH: usize = 4 + 2 * (Track::THRESHOLDS + 1);

// Numbers of any other call behind its code.
pub const CALL_NUMBERS: usize = 6;

// The call of a code and its numbers.
pub fn call_of(code: i64, numbers: [i64; CALL_NUMBERS]) -> Option<Call>
    ensures { result ≡ plain_at (code ∷ numbers) }
{
    let [a, b, c, d, e, f] = numbers;
    match code {
        1 => Some(Call::AddTrack(a, b, c)),
        2 => Some(Call::SetUp(a, Change::Start(b))),
        3 => Some(Call::SetUp(a, Change::End(b))),
        4 => Some(Call::SetUp(a, Change::Loops(b))),
        5 => Some(Call::SetUp(a, Change::Repeat(b))),
        6 => Some(Call::SetUp(a, Change::Direction(b))),
        7 => {
            let point = PointNumbers {
                position: b,
                event: c,
                wait: d,
                command: e,
                target: f,
            };
            Some(Call::SetPoint(a, point))
        }
        8 => Some(Call::DropPoint(a, b)),
        9 => Some(Call::SetUp(a, Change::Action(b, c, d))),
        10 => Some(Call::SetUp(a, Change::Jump(b))),
        11 => Some(Call::Play(a)),
        12 => Some(Call::Pause(a)),
        13 => Some(Call::Resume(a)),
        14 => Some(Call::Stop(a)),
        15 => Some(Call::Advance(a)),
        16 => Some(Call::Clear),
        17 => Some(Call::Clock),
        18 => Some(Call::Track(a)),
        19 => Some(Call::Point(a, b)),
        20 => Some(Call::PointCount(a, b, c)),
        22 => Some(Call::SetUp(a, Change::Rate(b, c))),
        _ => None,
    }
}

// So many of a row's five pairs; five or more are more than four.
fn pairs_of(row: [i64; CALL_WIDTH], n: u32) -> Pairs
    ensures { result ≡ pairs_in n row }
{
    let [_, _, _, _, a, b, c, d, e, f, g, h, i, j] = row;
    match n {
        0 => Pairs::Nothing,
        1 => Pairs::One(a, b),
        2 => Pairs::Two(a, b, c, d),
        3 => Pairs::Three(a, b, c, d, e, f),
        4 => Pairs::Four(a, b, c, d, e, f, g, h),
        _ => Pairs::More(a, b, c, d, e, f, g, h, i, j),
    }
}

// The master call of a row.
#[tactic(auto, using(crate::proofs::row::Encoding::master_none))]
fn master_of(row: [i64; CALL_WIDTH]) -> Option<Call>
    ensures { result ≡ master_in row }
{
    let [_, track, master, count, ..] = row;
    let n = capped(count, PAIRS)?;
    Some(Call::Master(track, master, pairs_of(row, n)))
}

// The call of a row.
fn call_at(row: &[i64; CALL_WIDTH]) -> Option<Call>
    ensures { result ≡ call_at row.now }
{
    let [code, a, b, c, d, e, f, ..] = *row;
    if code == MASTER {
        return master_of(*row);
    }
    call_of(code, [a, b, c, d, e, f])
}

// Numbers of a reply's row.
pub const REPLY_WIDTH: usize = 48;

// Where a track's action cells begin in its row, its master and band, its thresholds and their events.
const CELLS_AT: usize = 12;

const MASTER_AT: usize = CELLS_AT + Track::CELLS;

const THRESHOLDS_AT: usize = MASTER_AT + 2;

const EVENTS_AT: usize = THRESHOLDS_AT + Track::THRESHOLDS;

const RATE_AT: usize = EVENTS_AT + Track::THRESHOLDS;

// How many numbers of its row a track has, the kind among them.
pub const TRACK_WIDTH: usize = RATE_AT + 3;

// Numbers go to a place of a row where they fit.
#[tactic(auto, using(crate::proofs::log::Words::write_part))]
pub(crate) fn put_row(numbers: &[u64], row: &mut [u64], at: usize)
    requires { at + length numbers.now ≤ length row.old }
    ensures { row.new ≡ write_at row.old at numbers.now }
{
    row[at..at + numbers.len()].copy_from_slice(numbers);
}

// The row that begins with numbers, and is 0 behind them.
fn padded(numbers: &[u64]) -> [u64; REPLY_WIDTH]
    requires { length numbers.now ≤ reply_width }
    ensures { result ≡ padded numbers.now }
{
    let mut row = [0; REPLY_WIDTH];
    row[..numbers.len()].copy_from_slice(numbers);
    row
}

#[tactic(auto, using(crate::proofs::row::Encoding::coordinate_back))]
fn point_row(p: Point) -> [u64; REPLY_WIDTH]
    ensures { result ≡ padded (7 ∷ point_numbers (point_values p)) }
{
    padded(&[
        7,
        u64::from(p.track),
        u64::from(p.position.0),
        u64::from(p.event),
        u64::from(p.wait),
        u64::from(p.command),
        u64::from(p.target),
    ])
}

// A track's numbers before its action cells, the kind of the reply first.
#[tactic(auto, using(crate::proofs::row::Encoding::coordinate_back))]
fn track_head(t: Track) -> [u64; REPLY_WIDTH]
    ensures { result ≡ padded (6 ∷ take 11 (track_numbers (track_values t))) }
{
    padded(&[
        6,
        u64::from(t.min.0),
        u64::from(t.max.0),
        u64::from(t.start.0),
        u64::from(t.end.0),
        u64::from(t.position.0),
        u64::from(t.passes.0),
        u64::from(t.loops),
        u64::from(t.mode),
        u64::from(t.direction),
        u64::from(t.repeat),
        u64::from(t.due),
    ])
}

fn track_row(t: Track) -> [u64; REPLY_WIDTH]
    ensures { result ≡ padded (6 ∷ track_numbers (track_values t)) }
{
    let mut row = track_head(t);
    put_row(&t.actions.map(u64::from), &mut row, CELLS_AT);
    put_row(
        &[u64::from(t.master), u64::from(t.band)],
        &mut row,
        MASTER_AT,
    );
    put_row(&t.thresholds.map(u64::from), &mut row, THRESHOLDS_AT);
    put_row(&t.events.map(u64::from), &mut row, EVENTS_AT);
    let rate = [
        u64::from(t.steps),
        u64::from(t.ticks),
        u64::from(t.remainder),
    ];
    put_row(&rate, &mut row, RATE_AT);
    row
}

// The numbers of a reply, its kind first. C reads the rows: kinds are numbers.
pub fn reply_row<R: Numbered>(told: Result<Told, R>) -> [u64; REPLY_WIDTH]
    ensures { result ≡ numbers_of (reply_by R.number told) }
{
    match told {
        Err(refusal) => padded(&[1, u64::from(refusal.number())]),
        Ok(Told::Accepted) => padded(&[0]),
        Ok(Told::Done(n)) => padded(&[2, u64::from(n.0)]),
        Ok(Told::LogFull(n)) => padded(&[3, u64::from(n.0)]),
        Ok(Told::ClockEnd(n)) => padded(&[4, u64::from(n.0)]),
        Ok(Told::Clock(c, held)) => padded(&[5, u64::from(c.0), held]),
        Ok(Told::Track(track)) => track_row(track),
        Ok(Told::Point(p)) => point_row(p),
        Ok(Told::Count(n)) => padded(&[8, n]),
    }
}

// Does the call that a row is; a row that is no call is refused 9.
#[tactic(auto, unfolding(crate::specs::Row::row_does))]
pub fn answer(b: Board, row: Option<Call>, log: &mut [u8]) -> Applied
    ensures { Gives (row_does row (world b log.old)) (reply_of result.told) result.board log.new }
{
    match row {
        Some(c) => apply(b, c, log),
        None => Applied {
            told: Err(Refusal::Grammar),
            board: b,
        },
    }
}

// A row is done, and its reply written.
pub fn do_row(
    b: Board,
    row: &[i64; CALL_WIDTH],
    log: &mut [u8],
    reply: &mut [u64; REPLY_WIDTH],
) -> Board
    ensures { RowAnswered (call_at row.now) (world b log.old) result log.new reply.new }
{
    let r = answer(b, call_at(row), log);
    *reply = reply_row(r.told);
    r.board
}
