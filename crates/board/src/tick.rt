// The parts of a tick. Its records are staged apart from the log.
ghost use Rattle.std.specs.Prelude.{◌≡◌, Bool, cond, ◌||◌, [], ◌++◌, ◌+◌, ◌-◌, ◌≤◌, ◌<◌, eqb, length};
ghost use Rattle.std.specs.Fn.{FnReturnsAt};
ghost use Rattle.track.specs.Rule.{STOPPED, Valid, rate_most};
ghost use Rattle.track.specs.Grid.{grid_of};
ghost use Rattle.track.specs.Walk.{arrival};
ghost use Rattle.track.specs.Leap.{moves, played};
ghost use Rattle.board.specs.Log.{log_bytes};
ghost use Rattle.board.specs.Tick.{listed, Room, point_records, change_records, step_records, command_records, commanded, obeyed, obeyed_records, run_all};
ghost use Rattle.board.specs.Tick.{staged, stepped, info_number, needs_more, word_by, playing_word, TracksRule};
ghost use Rattle.board.specs.Points.{InfoRule, waits, command_of, info_at};

use crate::Board;
use crate::info::Info;
use crate::log::Record;
use crate::points::OrderedPoints;
use crate::stage::{Reached, Staged};
use track::grid::grid;
use track::valid::{SoundTrack, ValidTrack};
use track::{Coordinate, Passes, Ticks, Track};

// What a tick changes of its track.
#[derive(Clone, Copy)]
pub struct Stepped {
    pub mode: u8,
    pub position: Coordinate,
    pub passes: Passes,
    pub due: u8,
    pub remainder: u32,
}

// The word of the present tracks of which a test holds, the first track's bit the lowest.
pub(crate) fn word_of<F: Fn(&Track) -> bool>(
    tracks: &[Track; Board::TRACKS],
    present: u16,
    test: F,
) -> u16
    ghost holds: { Track → Bool }
    requires callable { F.IsAlwaysCallable test }
    requires tests { (t : Track) (r : Bool) → FnReturnsAt F.Fn test t r → r ≡ holds t }
    ensures { result ≡ word_by holds present tracks.now }
{
    let mut word = 0;
    for i in (0..Board::TRACKS).rev() {
        let bit = if test(&tracks[i]) {
            (present >> i) % 2
        } else {
            0
        };
        word = word * 2 + bit;
    }
    word
}

// The word of the tracks that are PLAYING.
pub(crate) fn playing(tracks: &[Track; Board::TRACKS], present: u16) -> u16
    ensures { result ≡ playing_word present tracks.now }
{
    word_of(tracks, present, |t| t.mode == Track::PLAYING)
}

// The record of a point that a track reached, if there is one.
fn point_record(
    clock: Ticks,
    track: u8,
    l: Coordinate,
    passes: Passes,
    met: Option<Info>,
) -> Option<Record>
    ensures { listed result ≡ point_records clock.0 track l.0 passes.0 (info_number met) }
{
    let d = met?;
    Some(Record {
        clock,
        track,
        kind: Record::POINT,
        event: d.event(),
        detail: d.command() * Record::DETAIL + d.target(),
        position: l,
        passes,
    })
}

// The record of a change of mode, if its action cell is not 0. Between equal modes it is always 0.
pub(crate) fn change_record(
    clock: Ticks,
    track: u8,
    t: ValidTrack,
    new: u8,
    l: Coordinate,
    passes: Passes,
) -> Option<Record>
    requires { new ≤ 3 }
    ensures { listed result ≡ change_records clock.0 track t.track new l.0 passes.0 }
{
    let mode = t.track.mode;
    // Most steps keep the mode: to look up no cell there spares each of them a copy of the cells.
    if mode == new {
        return None;
    }
    let event = t.track.action(mode, new);
    if event == 0 {
        return None;
    }
    Some(Record {
        clock,
        track,
        kind: Record::CHANGE,
        event,
        detail: mode * Record::DETAIL + new,
        position: l,
        passes,
    })
}

// What a playing track finds in a tick: the info of its point at the key, none if no step is made.
pub(crate) fn info_met<'a>(made: bool, here: u32, points: OrderedPoints<'a>) -> Option<Info>
    requires { InfoRule (cond made (info_at here points.keys.now points.infos.now) 0) }
    ensures { info_number result ≡ cond made (info_at here points.entry.keys.now points.entry.infos.now) 0 }
{
    if !made {
        return None;
    }
    let number = points.info_at(here);
    if number == 0 {
        return None;
    }
    Some(Info { number })
}

// Whether the point met, if there is one, has the wait flag.
#[tactic(auto, unfolding(crate::specs::Points::waits))]
fn waits(met: Option<Info>) -> bool
    ensures { result ≡ waits (info_number met) }
{
    met.is_some_and(|d| d.waits())
}

// The remainder that a step leaves, where the track is in this mode after it: rewinding leaves none.
fn remainder_left(remainder: u32, steps: u16, ticks: u16, mode: u8) -> u32
    requires remainder_lt_ticks { (remainder < ticks) × (steps ≤ ticks) }
    requires ticks_le_rate_most { (ticks ≤ rate_most) × (ticks ≤ remainder + steps) }
    ensures { result ≡ cond (eqb mode STOPPED) 0 (remainder + steps - ticks) }
{
    if mode == Track::STOPPED {
        0
    } else {
        remainder + u32::from(steps) - u32::from(ticks)
    }
}

// One tick of a playing track, whose step, if one is made, is to l, with the info that it finds there: its point's record, then its
// mode-change record.
pub(crate) fn step_member(
    t: SoundTrack,
    made: bool,
    l: Coordinate,
    track: u8,
    clock: Ticks,
    met: Option<Info>,
    stage: &mut Staged,
) -> Stepped
    requires room { Room 2 stage.old }
    requires l_value { l.0 ≡ arrival t.valid.track }
    requires made_value { made ≡ moves t.valid.track }
    ensures stepped { result ≡ stepped (played t.valid.track (waits (info_number met))) }
    ensures records { stage.new ≡ stage.old ++ log_bytes (step_records clock.0 track t.valid.track (info_number met)) }
{
    let before = t.valid.track;
    if !made {
        return Stepped {
            mode: before.mode,
            position: before.position,
            passes: before.passes,
            due: before.due,
            remainder: before.remainder + u32::from(before.steps),
        };
    }
    stage.put(point_record(clock, track, l, before.passes, met));
    let passes = before.passes_at(l);
    let after = t.step(waits(met));
    stage.put(change_record(clock, track, t.valid, after.mode, l, passes));
    Stepped {
        mode: after.mode,
        position: after.position,
        passes: after.passes,
        due: after.due,
        remainder: remainder_left(before.remainder, before.steps, before.ticks, after.mode),
    }
}

// Whether the tick so far needs more than its steps: a point reached has a command to run, or a track plays no longer, so that the
// word of playing tracks changes. `more` says so of the steps before this one.
pub(crate) fn needs_more(more: bool, met: Option<Info>, mode: u8) -> bool
    ensures { result ≡ (more || needs_more (info_number met) mode) }
{
    more || met.is_some_and(|d| d.command() != 0) || mode != Track::PLAYING
}

// The command of a point on its target: the track after it.
fn command(t: ValidTrack, clock: Ticks, d: Info, stage: &mut Staged) -> Track
    requires { Room 1 stage.old }
    ensures track { result ≡ commanded t.track (grid_of t.track.mode (command_of d.number)) }
    ensures records { stage.new ≡ stage.old ++ log_bytes (command_records clock.0 d.number t.track (grid_of t.track.mode (command_of d.number))) }
{
    let before = t.track;
    let mode = before.mode;
    let call = d.command();
    let target = d.target();
    match grid(mode, call) {
        Some(new) => {
            stage.put(change_record(clock, target, t, new, before.position, before.passes));
            before.entered(new)
        }
        None => {
            stage.put(Some(Record {
                clock,
                track: target,
                kind: Record::REFUSAL,
                event: d.event(),
                detail: call * Record::DETAIL + mode,
                position: before.position,
                passes: before.passes,
            }));
            before
        }
    }
}

// The same, if the point has a command.
fn obey(t: Track, clock: Ticks, d: Info, stage: &mut Staged) -> Track
    requires valid { (command_of d.number ≡ 0 → ⊥) → Valid t }
    requires room { Room 1 stage.old }
    ensures track { result ≡ obeyed d.number t }
    ensures records { stage.new ≡ stage.old ++ log_bytes (obeyed_records clock.0 d.number t) }
{
    if d.command() == 0 {
        return t;
    }
    command(ValidTrack { track: t }, clock, d, stage)
}

// The commands of the points reached, in their order; the word of the tracks that play after them. Never inlined: the tick loop's pass
// keeps its registers, so that advances are faster.
#[inline(never)]
pub(crate) fn run_commands(
    tracks: &mut [Track; Board::TRACKS],
    present: u16,
    clock: Ticks,
    reached: &Reached,
    stage: &mut Staged,
) -> u16
    requires tracks_rule { TracksRule present tracks.old reached.now }
    requires room { Room (length reached.now) stage.old }
    ensures tracks { tracks.new ≡ (run_all clock.0 reached.now (staged tracks.old [] [])).tracks }
    ensures records { stage.new ≡ stage.old ++ log_bytes (run_all clock.0 reached.now (staged tracks.old [] [])).records }
    ensures word { result ≡ playing_word present tracks.new }
{
    for d in reached.infos() {
        let at = d.target() as usize;
        tracks[at] = obey(tracks[at], clock, *d, stage);
    }
    playing(tracks, present)
}
