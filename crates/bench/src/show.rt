// What is printed: replies as their numbers, and a log's records.
ghost use Rattle.std.specs.Prelude.{◌≤◌};
ghost use Rattle.board.specs.Row.{reply_width};

use board::log::{Record, pack, unpack};
use board::row::{REPLY_WIDTH, TRACK_WIDTH};
use std::fmt;
use track::{Coordinate, Passes, Ticks};

// What a reply tells, by the number of its kind.
#[derive(Clone, Copy)]
enum Kind {
    Accepted,
    Refused,
    Clock,
    Track,
    Point,
    // Ticks made, or how many points.
    Number,
}

impl From<u64> for Kind {
    fn from(number: u64) -> Kind {
        match number {
            0 => Kind::Accepted,
            1 => Kind::Refused,
            5 => Kind::Clock,
            6 => Kind::Track,
            7 => Kind::Point,
            _ => Kind::Number,
        }
    }
}

impl Kind {
    // How many numbers such a reply has.
    fn width(self) -> usize
        ensures { result ≤ reply_width }
    {
        match self {
            Kind::Accepted => 1,
            Kind::Refused | Kind::Number => 2,
            Kind::Clock => 3,
            Kind::Track => TRACK_WIDTH,
            Kind::Point => 7,
        }
    }

    // Whether number k is a coordinate: a track's first five, a point's second.
    fn is_place(self, k: usize) -> bool {
        match self {
            Kind::Track => k < 6,
            Kind::Point => k == 2,
            _ => false,
        }
    }
}

// A coordinate, printed as its position: the sign and the size, since a reply's number may be above an `i64`.
#[derive(Clone, Copy)]
struct Position(u64);

impl fmt::Display for Position {
    fn fmt<W: fmt::Write>(&self, f: &mut fmt::Formatter<W>) -> fmt::Result {
        let zero = Coordinate::BIAS as u64;
        let sign = if self.0 < zero { "-" } else { "" };
        write!(f, "{sign}{}", self.0.abs_diff(zero))
    }
}

// A reply: its numbers, the kind first.
#[derive(Clone, Copy)]
pub struct Reply(pub [u64; REPLY_WIDTH]);

impl Reply {
    // The number that it refuses with.
    pub fn refusal(&self) -> Option<u64> {
        match Kind::from(self.0[0]) {
            Kind::Refused => Some(self.0[1]),
            _ => None,
        }
    }
}

impl fmt::Display for Reply {
    fn fmt<W: fmt::Write>(&self, f: &mut fmt::Formatter<W>) -> fmt::Result {
        let kind = Kind::from(self.0[0]);
        write!(f, "{}", self.0[0])?;
        for (k, n) in self.0.iter().enumerate().take(kind.width()).skip(1) {
            if kind.is_place(k) {
                write!(f, ",{}", Position(*n))?;
            } else {
                write!(f, ",{n}")?;
            }
        }
        Ok(())
    }
}

// The bytes of one record, as the record: clock, track, kind, event, detail, position, passes.
#[derive(Drop)]
pub struct Held<'a>(pub &'a [u8]);

impl fmt::Display for Held<'_> {
    fn fmt<W: fmt::Write>(&self, f: &mut fmt::Formatter<W>) -> fmt::Result {
        match unpack(self.0) {
            Ok(r) => write!(
                f,
                "{},{},{},{},{},{},{}",
                r.clock.0,
                r.track,
                r.kind,
                r.event,
                r.detail,
                Position(u64::from(r.position.0)),
                r.passes.0
            ),
            Err(_) => write!(f, "no record"),
        }
    }
}

// A title as it is.
pub fn title(rt: &impl Print, line: &[u8]) {
    let _ = rt.write_all(line);
    let _ = println!(rt);
}

// Code 51: a record of a kind is packed at a place of the log. The refusal's number, 0 accepted, then the log's bytes.
pub fn pack_line(rt: &impl Print, kind: u8, at: usize, log: &mut [u8]) {
    let r = Record {
        clock: Ticks(16909060),
        track: 9,
        kind,
        event: 10,
        detail: 11,
        position: Coordinate(0),
        passes: Passes(84281096),
    };
    let _ = match pack(r, log, at) {
        Ok(()) => print!(rt; "0"),
        Err(refusal) => print!(rt; "{}", u8::from(refusal)),
    };
    for byte in log.iter() {
        let _ = print!(rt; ",{byte}");
    }
    let _ = println!(rt);
}
