// One call on a board and its log.
ghost use Rattle.std.specs.Prelude.{◌≡◌};
ghost use Rattle.board.specs.Call.{Gives, does, world, answered, advanced_said, clock_said, track_said, point_said, count_said, reply_of, pair_numbers};
ghost use Rattle.board.specs.Apply.{Says, SaysBy};
ghost use Rattle.board.specs.Setup.{outcome, outcome_by, set_master};

use crate::Board;
use crate::advance::{Progress, advance};
use crate::call::{Advanced, Call, Pairs, Told};
use crate::mode::{pause, play, resume, stop};
use crate::points::Point;
use track::refusal::{Numbered, Refusal};
use track::{Ticks, Track};

// What a call tells, or why it is refused, and the board after it. A caller may have numbers of its own for refusals.
#[derive(Clone, Copy)]
pub struct Applied<R = Refusal> {
    pub told: Result<Told, R>,
    pub board: Board,
}

// A call that gives a board, or is refused and leaves the one that it was lent.
pub fn accepted<R: Numbered>(lent: Board, given: Result<Board, R>) -> Applied<R>
    ensures { SaysBy R.number (answered (outcome_by R.number lent given).answer) (outcome_by R.number lent given).board result }
{
    match given {
        Ok(board) => Applied {
            told: Ok(Told::Accepted),
            board,
        },
        Err(refusal) => Applied {
            told: Err(refusal),
            board: lent,
        },
    }
}

fn progress(p: Progress) -> Applied
    ensures { Says (advanced_said p.answer) p.board result }
{
    let told = match p.answer {
        Advanced::Done(n) => Ok(Told::Done(n)),
        Advanced::LogFull(n) => Ok(Told::LogFull(n)),
        Advanced::ClockEnd(n) => Ok(Told::ClockEnd(n)),
        Advanced::Refused(refusal) => Err(refusal),
    };
    Applied {
        told,
        board: p.board,
    }
}

// What is read, told. One line for each query, since each has its own definition of what it says: a generic one would take that as a closure and be no plainer.
fn clock(read: Result<(Ticks, u64), Refusal>, board: Board) -> Applied
    ensures { Says (clock_said read) board result }
{
    let told = read.map(|(clock, held)| Told::Clock(clock, held));
    Applied { told, board }
}

fn track(read: Result<Track, Refusal>, board: Board) -> Applied
    ensures { Says (track_said read) board result }
{
    let told = read.map(|track| Told::Track(track));
    Applied { told, board }
}

fn point(read: Result<Point, Refusal>, board: Board) -> Applied
    ensures { Says (point_said read) board result }
{
    let told = read.map(|point| Told::Point(point));
    Applied { told, board }
}

fn count(read: Result<u64, Refusal>, board: Board) -> Applied
    ensures { Says (count_said read) board result }
{
    let told = read.map(|count| Told::Count(count));
    Applied { told, board }
}

// A master call with its pairs as one row of numbers.
fn master(b: Board, i: i64, m: i64, pairs: Pairs) -> Result<Board, Refusal>
    ensures { outcome b result ≡ set_master b i m (pair_numbers pairs) }
{
    match pairs {
        Pairs::Nothing => b.set_master(i, m, &[]),
        Pairs::One(x1, e1) => b.set_master(i, m, &[x1, e1]),
        Pairs::Two(x1, e1, x2, e2) => b.set_master(i, m, &[x1, e1, x2, e2]),
        Pairs::Three(x1, e1, x2, e2, x3, e3) => b.set_master(i, m, &[x1, e1, x2, e2, x3, e3]),
        Pairs::Four(x1, e1, x2, e2, x3, e3, x4, e4) => {
            b.set_master(i, m, &[x1, e1, x2, e2, x3, e3, x4, e4])
        }
        Pairs::More(x1, e1, x2, e2, x3, e3, x4, e4, x5, e5) => {
            b.set_master(i, m, &[x1, e1, x2, e2, x3, e3, x4, e4, x5, e5])
        }
    }
}

// A call on a board and its log.
pub fn apply(b: Board, c: Call, log: &mut [u8]) -> Applied
    ensures { Gives (does c (world b log.old)) (reply_of result.told) result.board log.new }
{
    match c {
        Call::AddTrack(i, low, high) => accepted(b, b.add_track(i, low, high)),
        Call::SetUp(i, change) => accepted(b, b.set_up(i, change)),
        Call::SetPoint(i, p) => accepted(b, b.set_point(i, p)),
        Call::DropPoint(i, p) => accepted(b, b.drop_point(i, p)),
        Call::Play(i) => accepted(b, play(b, i, log)),
        Call::Pause(i) => accepted(b, pause(b, i, log)),
        Call::Resume(i) => accepted(b, resume(b, i, log)),
        Call::Stop(i) => accepted(b, stop(b, i, log)),
        Call::Advance(n) => progress(advance(b, n, log)),
        Call::Clear => accepted(b, b.clear()),
        Call::Clock => clock(b.clock_and_held(), b),
        Call::Track(i) => track(b.track(i), b),
        Call::Point(i, p) => point(b.point(i, p), b),
        Call::PointCount(i, from, to) => count(b.point_count(i, from, to), b),
        Call::Master(i, m, pairs) => accepted(b, master(b, i, m, pairs)),
    }
}
