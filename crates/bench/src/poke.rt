// One field of a board set by force, whether or not the board's rules are kept.
ghost use Rattle.std.specs.Prelude.{◌≤◌};

use board::Board;
use track::Track;

// A field of a board that lines set.
#[derive(Clone, Copy)]
pub enum Field {
    Clock,
    Held,
    Present,
    // The number of points.
    Count,
    // The key and the info of a point.
    Key,
    Info,
    Track(TrackField),
}

// A field of a track.
#[derive(Clone, Copy)]
pub enum TrackField {
    Min,
    Max,
    Start,
    End,
    Position,
    Passes,
    Loops,
    Mode,
    // An action cell.
    Action,
    Direction,
    Repeat,
    Due,
    Master,
    Band,
    // A threshold, and an event beside one.
    Threshold,
    Event,
    // The rate's steps and ticks, and the remainder.
    Steps,
    Ticks,
    Remainder,
}

// A code that names no field.
#[derive(Clone, Copy)]
pub struct NoField;

// The number, or `most` where it is negative or above that.
pub fn limited(n: i64, most: u32) -> u32
    ensures { result ≤ most }
{
    u32::try_from(n).unwrap_or(most).min(most)
}

// The number, or the most of all where it is negative or above what 32 bits hold.
fn long(n: i64) -> u64 {
    u32::try_from(n).map_or(u64::MAX, u64::from)
}

// A value put at a place; where there is none, nothing.
fn put<T: Copy>(places: &mut [T], at: usize, value: T) {
    if let Some(place) = places.get_mut(at) {
        *place = value;
    }
}

impl TryFrom<i64> for Field {
    type Error = NoField;

    fn try_from(code: i64) -> Result<Self, NoField> {
        match code {
            30 => Ok(Field::Clock),
            31 => Ok(Field::Held),
            32 => Ok(Field::Present),
            33 => Ok(Field::Count),
            34 => Ok(Field::Key),
            35 => Ok(Field::Info),
            _ => TrackField::try_from(code).map(Field::Track),
        }
    }
}

impl Field {
    // Sets it by the numbers of a line: of the board, x; else at place x, y. With a place that there is not, nothing.
    pub fn set(self, board: &mut Board, x: i64, y: i64, z: i64) {
        let at = limited(x, 256) as usize;
        let n = limited(y, u32::MAX);
        match self {
            Field::Clock => board.clock.0 = limited(x, u32::MAX),
            Field::Held => board.held = long(x),
            Field::Present => board.present = limited(x, 65535) as u16,
            Field::Count => board.points.count = long(x) as usize,
            Field::Key => put(&mut board.points.keys, at, n),
            Field::Info => put(&mut board.points.infos, at, n),
            Field::Track(field) => {
                if let Some(track) = board.tracks.get_mut(at) {
                    field.set(track, n, limited(z, 16) as usize);
                }
            }
        }
    }
}

impl TryFrom<i64> for TrackField {
    type Error = NoField;

    fn try_from(code: i64) -> Result<Self, NoField> {
        Ok(match code {
            36 => TrackField::Min,
            37 => TrackField::Max,
            38 => TrackField::Start,
            39 => TrackField::End,
            40 => TrackField::Position,
            41 => TrackField::Passes,
            42 => TrackField::Loops,
            43 => TrackField::Mode,
            44 => TrackField::Action,
            45 => TrackField::Direction,
            46 => TrackField::Repeat,
            47 => TrackField::Due,
            53 => TrackField::Master,
            54 => TrackField::Band,
            55 => TrackField::Threshold,
            56 => TrackField::Event,
            57 => TrackField::Steps,
            58 => TrackField::Ticks,
            59 => TrackField::Remainder,
            _ => return Err(NoField),
        })
    }
}

impl TrackField {
    // How many places a line may name with it, also where the field is one number.
    fn places(self) -> usize {
        match self {
            TrackField::Passes
            | TrackField::Loops
            | TrackField::Mode
            | TrackField::Action
            | TrackField::Direction
            | TrackField::Repeat
            | TrackField::Due => Track::CELLS,
            TrackField::Master | TrackField::Band | TrackField::Threshold | TrackField::Event => {
                Track::THRESHOLDS
            }
            _ => usize::MAX,
        }
    }

    // Sets it to the number, or to what the field can hold of it.
    fn set(self, track: &mut Track, n: u32, place: usize) {
        if self.places() <= place {
            return;
        }
        let byte = (n % 256) as u8;
        let word = (n % 65536) as u16;
        match self {
            TrackField::Min => track.min.0 = n,
            TrackField::Max => track.max.0 = n,
            TrackField::Start => track.start.0 = n,
            TrackField::End => track.end.0 = n,
            TrackField::Position => track.position.0 = n,
            TrackField::Passes => track.passes.0 = n,
            TrackField::Loops => track.loops = word,
            TrackField::Mode => track.mode = byte,
            TrackField::Action => put(&mut track.actions, place, byte),
            TrackField::Direction => track.direction = byte,
            TrackField::Repeat => track.repeat = byte,
            TrackField::Due => track.due = byte,
            TrackField::Master => track.master = byte,
            TrackField::Band => track.band = byte,
            TrackField::Threshold => put(&mut track.thresholds, place, n),
            TrackField::Event => put(&mut track.events, place, word),
            TrackField::Steps => track.steps = word,
            TrackField::Ticks => track.ticks = word,
            TrackField::Remainder => track.remainder = n,
        }
    }
}
