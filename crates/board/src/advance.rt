// Advance: the ticks of a board that keeps its rules, and the call on any board, count and log.
ghost use Rattle.std.specs.Prelude.{◌≡◌, true, ◌≤◌, length};
ghost use Rattle.board.specs.Board.{unbroken_test, board_by};
ghost use Rattle.board.specs.Log.{capacity};
ghost use Rattle.board.specs.Call.{world, Gives, does, advanced_said};
ghost use Rattle.board.specs.Advance.{TakesTicks, Proceeds, board_left};
ghost use Rattle.board.specs.declared.call.Call.TheVariants as call;
ghost use Rattle.board.specs.declared.call.Advanced.TheVariants as advanced;

use crate::Board;
use crate::call::Advanced;
use crate::follow::{followers, judge_bands};
use crate::log::Record;
use crate::members::Members;
use crate::parts::Parts;
use crate::points::Points;
use crate::quiet::Playing;
use crate::stage::{Reached, Staged};
use crate::tick::{info_met, needs_more, playing, run_commands, step_member};
use track::number::in_range;
use track::refusal::Refusal;
use track::valid::{SoundTrack, ValidTrack};
use track::{Ticks, Track};

// Where ticks left off: what a tick changes of a board.
#[derive(Clone, Copy)]
pub struct Left {
    pub answer: Advanced,
    pub tracks: [Track; Board::TRACKS],
    pub clock: Ticks,
    pub held: usize,
}

impl Left {
    // The board after the ticks.
    pub fn store(&self, board: &mut Board)
        ensures { board.new ≡ board_left board.old self.now }
    {
        board.tracks = self.tracks;
        board.clock = self.clock;
        board.held = self.held as u64;
    }
}

// A refused advance leaves the board as it is.
fn declined(b: &Board, refusal: Refusal) -> Left
    ensures { result ≡ record { answer = advanced.Refused refusal; tracks = b.now.tracks; clock = b.now.clock; held = b.now.held } }
{
    Left {
        answer: Advanced::Refused(refusal),
        tracks: b.tracks,
        clock: b.clock,
        held: b.held as usize,
    }
}

// So many ticks of an unbroken board, unless the clock or the log ends them. Each turn leaps the quiet ticks
// ahead and works out the one behind them: the steps in one pass over the playing tracks, then the commands of the points reached,
// then the bands of the followers. Its records are staged apart from the log, and the tick is kept if they fit. After a tick with
// records the next is walked without looking for a leap.
#[tactic(auto, using(crate::proofs::tick::Bits::first_inside, crate::proofs::advance::Standing::leapable, crate::proofs::advance::Standing::pairs))]
fn run(b: &Board, count: Ticks, log: &mut [u8]) -> Left
    requires kept_value { unbroken_test b.now ≡ true }
    requires kept_bound { b.now.held ≤ capacity (length log.old) }
    ensures { TakesTicks b.now count.0 log.old result log.new }
{
    let points = b.points.ordered();
    let slots = log.len() / Record::WIDTH;
    let wanted = count.0;
    let mut tracks = b.tracks;
    // The tracks to go back to if a tick's records don't fit; set before every tick that might not fit.
    let mut back = b.tracks;
    let mut word = playing(&b.tracks, b.present);
    let led = followers(&b.tracks, b.present);
    let mut clock = b.clock.0;
    let mut held = b.held as usize;
    let mut taken: u32 = 0;
    let mut look = false;
    let mut stage = Staged::new();
    let mut reached = Reached::new();
    let mut answer = Advanced::Done(Ticks(0));
    // 01 names this form, a labelled loop left from the pass inside it; a turn takes as many ticks as it leaps.
    'ticks: while taken < wanted {
        if clock == Ticks::END {
            answer = Advanced::ClockEnd(Ticks(taken));
            break 'ticks;
        }
        let most = (wanted - taken).min(Ticks::END - clock);
        let players = Playing {
            tracks: &tracks,
            word,
        };
        let mut skipped: u32 = 0;
        if look {
            let stretch = players.quiet(led, points);
            skipped = stretch.0.min(most);
        }
        if skipped == most {
            tracks = players.leapt(Ticks(most));
            clock += most;
            taken += most;
            answer = Advanced::Done(Ticks(taken));
            continue 'ticks;
        }
        clock += skipped;
        taken += skipped;
        let room = slots - held;
        // Where this tick's records might not fit, `back` keeps the tracks as they stand before it. So the leap, if there is one, is
        // made here, and the pass has none to make.
        if room < Staged::MOST {
            if 0 < skipped {
                tracks = players.leapt(Ticks(skipped));
                skipped = 0;
            }
            back = tracks;
        }
        stage.clear();
        reached.clear();
        let mut more = false;
        // A track that stands is not asked.
        for i in Members(word) {
            let before = SoundTrack {
                valid: ValidTrack { track: tracks[i] },
            };
            let t = SoundTrack {
                valid: ValidTrack {
                    track: before.leap(Ticks(skipped)),
                },
            };
            let l = t.valid.arrival();
            let here = i as u32 * Points::STRIDE + l.0;
            let made = t.valid.moves();
            let met = info_met(made, here, points);
            let r = step_member(t, made, l, i as u8, Ticks(clock + 1), met, &mut stage);
            tracks[i].mode = r.mode;
            tracks[i].position.0 = r.position.0;
            tracks[i].passes.0 = r.passes.0;
            tracks[i].due = r.due;
            tracks[i].remainder = r.remainder;
            reached.note(met);
            more = needs_more(more, met, r.mode);
            if room < stage.count() {
                tracks = back;
                answer = Advanced::LogFull(Ticks(taken));
                break 'ticks;
            }
        }
        if more {
            word = run_commands(
                &mut tracks,
                b.present,
                Ticks(clock + 1),
                &reached,
                &mut stage,
            );
        }
        if led != 0 {
            judge_bands(&mut tracks, led, Ticks(clock + 1), &mut stage);
        }
        let total = stage.count();
        if room < total {
            tracks = back;
            answer = Advanced::LogFull(Ticks(taken));
            break 'ticks;
        }
        stage.commit(log, held * Record::WIDTH);
        held += total;
        look = total == 0;
        clock += 1;
        taken += 1;
        answer = Advanced::Done(Ticks(taken));
    }
    Left {
        answer,
        tracks,
        clock: Ticks(clock),
        held,
    }
}

// What an advance answers, and the board after it.
#[derive(Clone, Copy)]
pub struct Progress {
    pub answer: Advanced,
    pub board: Board,
}

// An advance of a board that is lent.
fn proceed_lent(b: &Board, count: i64, log: &mut [u8]) -> Left
    ensures { Proceeds count b.now log.old result log.new }
{
    if !b.unbroken() {
        return declined(b, Refusal::Value);
    }
    let capacity = (log.len() / Record::WIDTH) as u64;
    if capacity < b.held {
        return declined(b, Refusal::Capacity);
    }
    let Some(ticks) = in_range(count, 0, 4294967295) else {
        return declined(b, Refusal::Value);
    };
    run(b, Ticks(ticks), log)
}

impl Board {
    // Advances a board that is lent. The work is a function of this module, so that its proof stands with those of the ticks.
    pub fn proceed(&self, count: i64, log: &mut [u8]) -> Left
        ensures { Proceeds count self.now log.old result log.new }
    {
        proceed_lent(self, count, log)
    }
}

// Advances a board that is given by its parts. Rows of another length make a broken board.
pub fn proceed(parts: Parts<'_>, count: i64, log: &mut [u8]) -> Left
    ensures { Proceeds count (board_by parts.entry) log.old result log.new }
{
    match Board::try_from(parts) {
        Ok(b) => b.proceed(count, log),
        Err(refusal) => Left {
            answer: Advanced::Refused(refusal),
            tracks: parts.tracks,
            clock: parts.clock,
            held: parts.held as usize,
        },
    }
}

// Advances by a count of ticks, 0 to 4,294,967,295.
pub fn advance(mut board: Board, count: i64, log: &mut [u8]) -> Progress
    ensures { Gives (does (call.Advance count) (world board log.old)) (advanced_said result.answer) result.board log.new }
{
    let left = board.proceed(count, log);
    left.store(&mut board);
    Progress {
        answer: left.answer,
        board,
    }
}
