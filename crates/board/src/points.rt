// The board's points: keys strictly ascending, and beside each key what the point does.
ghost use Rattle.std.specs.Prelude.{◌≡◌, ◌+◌, ◌*◌, ◌≤◌, ◌<◌, length};
ghost use Rattle.track.specs.Rule.{coordinate_last};
ghost use Rattle.board.specs.Points.{point_most, stride, keys_of, infos_of, key_of, info_of, point_of, PointsRule, RowsRule};
ghost use Rattle.board.specs.Points.{first_from, insert_row, remove_row, info_at, stored_as, stored_in};
ghost use Rattle.board.specs.Points.{dropped_from, count_of, between, find_first, find_last, nearest, key, no_points, track_count, key_end, info_end};

use track::Coordinate;

// A reference point (000, section 2), as calls and queries exchange it.
#[repr(C)]
#[derive(Clone, Copy)]
pub struct Point {
    pub track: u8,
    pub position: Coordinate,
    pub event: u16,
    pub wait: u8,
    pub command: u8,
    pub target: u8,
}

// Two rows and a count by C's layout; an info is never 0, so that 0 stands for no point.
#[repr(C)]
#[derive(Clone, Copy)]
pub struct Points {
    pub keys: [u32; Points::MOST],
    pub infos: [u32; Points::MOST],
    pub count: usize,
}

// What stands at a position, 0 for nothing, and the nearest point further on. The info is the number that C's rows hold, and the rule's own `info_at`
// gives 0 for no point.
#[derive(Clone, Copy)]
pub struct Lookup {
    pub info: u32,
    pub near: Option<Coordinate>,
}

// The points of a board that keeps its rules, lent, so that no lookup copies them: the keys held, and the info beside each.
#[derive(Clone, Copy)]
pub(crate) struct OrderedPoints<'a> {
    keys: &'a [u32],
    infos: &'a [u32],
    ghost rule: { RowsRule keys.now infos.now },
}

// The points of a board, lent, and the track of which they are asked.
#[derive(Clone, Copy)]
pub(crate) struct TrackPoints<'a> {
    pub(crate) points: OrderedPoints<'a>,
    pub(crate) track: u32,
    ghost one: { track < track_count },
}

impl Points {
    // At most so many on a board.
    pub const MOST: usize = 256;

    // What the keys of two tracks are apart.
    pub const STRIDE: u32 = 2097152;

    // Every key is below this one.
    pub const END: u32 = 33554432;

    // No point.
    #[tactic(auto, unfolding(crate::specs::Points::no_points))]
    pub fn new() -> Self
        ensures { result ≡ no_points }
    {
        Points {
            keys: [0u32; Points::MOST],
            infos: [0u32; Points::MOST],
            count: 0,
        }
    }

    // Puts `v` at `at`, and moves what stood from there to `n` one place up.
    fn insert_at(row: &mut [u32; Points::MOST], n: usize, at: usize, v: u32)
        requires { (at ≤ n) × (n < point_most) × (length row.old ≡ point_most) }
        ensures row_len { length row.new ≡ point_most }
        ensures row_after { row.new ≡ insert_row n at v row.old }
    {
        row.copy_within(at..n, at + 1);
        row[at] = v;
    }

    // Takes out what stands at `at`, and moves what stood above it, up to `n`, one place down.
    fn remove_at(row: &mut [u32; Points::MOST], n: usize, at: usize)
        requires { (at < n) × (n ≤ point_most) × (length row.old ≡ point_most) }
        ensures row_len { length row.new ≡ point_most }
        ensures row_after { row.new ≡ remove_row n at row.old }
    {
        row.copy_within(at + 1..n, at);
    }

    // The points held, lent.
    pub(crate) fn ordered<'a>(&'a self) -> OrderedPoints<'a>
        requires rule { PointsRule self.now }
        ensures keys { result.keys.now ≡ keys_of self.entry.now }
        ensures infos { result.infos.now ≡ infos_of self.entry.now }
    {
        OrderedPoints {
            keys: &self.keys[..self.count],
            infos: &self.infos[..self.count],
        }
    }

    // Stores a point, or another info at its key; none where there is no room for one more.
    pub(crate) fn stored(mut self, wanted: u32, info: u32) -> Option<Points>
        requires rule { PointsRule self }
        ensures { stored_as self result ≡ stored_in self wanted info }
    {
        let n = self.count;
        match self.keys[..n].binary_search(&wanted) {
            Ok(i) => {
                self.infos[i] = info;
                Some(self)
            }
            Err(_) if Points::MOST <= n => None,
            Err(i) => {
                Points::insert_at(&mut self.keys, n, i, wanted);
                Points::insert_at(&mut self.infos, n, i, info);
                self.count = n + 1;
                Some(self)
            }
        }
    }

    // Drops the point with a key; none where there is no such point.
    pub(crate) fn dropped(mut self, wanted: u32) -> Option<Points>
        requires rule { PointsRule self }
        ensures { stored_as self result ≡ dropped_from self wanted }
    {
        let n = self.count;
        let Ok(i) = self.keys[..n].binary_search(&wanted) else {
            return None;
        };
        Points::remove_at(&mut self.keys, n, i);
        Points::remove_at(&mut self.infos, n, i);
        self.count = n - 1;
        Some(self)
    }
}

impl<'a> OrderedPoints<'a> {
    // The index of the first key that is at least `wanted`, or the count where there is none.
    fn first_from(self, wanted: u32) -> usize
        ensures { result ≡ first_from self.entry.keys.now wanted }
    {
        // By hand: the library's searches, `partition_point` and `binary_search`, made advances on boards full of points take half as long again.
        let mut low: usize = 0;
        let mut high = self.keys.len();
        while low < high {
            let middle = low + (high - low) / 2;
            if self.keys[middle] < wanted {
                low = middle + 1;
            } else {
                high = middle;
            }
        }
        low
    }

    // The info beside a key, 0 where there is none.
    pub(crate) fn info_at(self, wanted: u32) -> u32
        ensures { result ≡ info_at wanted self.entry.keys.now self.entry.infos.now }
    {
        let i = self.first_from(wanted);
        let Some(found) = self.keys.get(i) else {
            return 0;
        };
        if *found != wanted {
            return 0;
        }
        self.infos[i]
    }

    // How many keys stand from `from` on and below `past`.
    pub(crate) fn count_between(self, from: u32, past: u32) -> usize
        ensures { result ≡ count_of (between from past) self.entry.keys.now }
    {
        if past <= from {
            return 0;
        }
        let i = self.first_from(from);
        let j = self.first_from(past);
        j - i
    }
}

impl<'a> TrackPoints<'a> {
    // The first key from `from` on and below `past`, as a coordinate of the track. It and the next look to either side of `first_from`, so that one
    // function for both would ask the side at each step.
    fn first_between(self, from: u32, past: u32) -> Option<Coordinate>
        requires stride_bound { self.track * stride ≤ from }
        ensures { result ≡ find_first (between from past) self.entry.track self.entry.points.keys.now }
    {
        let i = self.points.first_from(from);
        let k = *self.points.keys.get(i)?;
        if past <= k {
            return None;
        }
        Some(Coordinate(k - self.track * Points::STRIDE))
    }

    // The last key from `from` on and below `past`, as a coordinate of the track.
    fn last_between(self, from: u32, past: u32) -> Option<Coordinate>
        requires stride_bound { self.track * stride ≤ from }
        ensures { result ≡ find_last (between from past) self.entry.track self.entry.points.keys.now }
    {
        let i = self.points.first_from(past);
        let k = *self.points.keys[..i].last()?;
        if k < from {
            return None;
        }
        Some(Coordinate(k - self.track * Points::STRIDE))
    }

    // What stands at a position, and the nearest point strictly further on in a direction, within start to end.
    pub(crate) fn look_up(
        self,
        position: Coordinate,
        backward: bool,
        start: Coordinate,
        end: Coordinate,
    ) -> Lookup
        requires inside { (position.0 ≤ coordinate_last) × (start.0 ≤ coordinate_last) × (end.0 ≤ coordinate_last) }
        ensures info { result.info ≡ info_at (key self.entry.track position.0) self.entry.points.keys.now self.entry.points.infos.now }
        ensures near { result.near ≡ nearest backward self.entry.track position.0 start.0 end.0 self.entry.points.keys.now }
    {
        let base = self.track * Points::STRIDE;
        let here = base + position.0;
        let info = self.points.info_at(here);
        let near = if backward {
            self.last_between(base + start.0, here)
        } else {
            self.first_between(here + 1, base + end.0 + 1)
        };
        Lookup { info, near }
    }
}

impl Point {
    // The highest event.
    pub const EVENT: u16 = 255;

    // An info is event + WAIT * wait + COMMAND * command + TARGET * target; it is never 0, so that 0 says that there is no point.
    pub const WAIT: u32 = 65536;

    pub const COMMAND: u32 = 131072;

    pub const TARGET: u32 = 1048576;

    // Every info is below this one.
    pub const END: u32 = 16777216;

    // The key of a point.
    #[tactic(auto, unfolding(crate::specs::Points::key_of))]
    pub(crate) fn key(self) -> u32
        requires { (self.track < track_count) × (self.position.0 ≤ coordinate_last) }
        ensures { result ≡ key_of self }
    {
        u32::from(self.track) * Points::STRIDE + self.position.0
    }

    // What else a point has, as one number.
    #[tactic(auto, unfolding(crate::specs::Points::info_of))]
    pub(crate) fn info(self) -> u32
        requires { (self.wait ≤ 1) × (self.command ≤ 4) × (self.target < track_count) }
        ensures { result ≡ info_of self }
    {
        let flag = u32::from(self.wait) * Point::WAIT;
        let rest = u32::from(self.command) * Point::COMMAND
            + u32::from(self.target) * Point::TARGET;
        u32::from(self.event) + flag + rest
    }

    // A point from its two numbers.
    #[tactic(auto, unfolding(crate::specs::Points::point_of))]
    pub(crate) fn of(wanted: u32, info: u32) -> Point
        requires { (wanted < key_end) × (info < info_end) }
        ensures { result ≡ point_of wanted info }
    {
        Point {
            track: (wanted / Points::STRIDE) as u8,
            position: Coordinate(wanted % Points::STRIDE),
            event: (info % Point::WAIT) as u16,
            wait: (info / Point::WAIT % 2) as u8,
            command: (info / Point::COMMAND % 8) as u8,
            target: (info / Point::TARGET) as u8,
        }
    }
}
