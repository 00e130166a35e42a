// A track: PREMO's synchronizable object (000, section 2; 001, section 4.1) with a span, a walk, a mode
// grid and sixteen action cells. It knows nothing of boards.
#![tactic(auto)]

ghost use Rattle.std.specs.Prelude.{◌≡◌, ◌≤◌};
ghost use Rattle.track.specs.Rule.{new_track, home, far, rewound, stopped, entered, action_cell};

mod check;
pub mod follow;
pub mod grid;
pub mod number;
mod rate;
pub mod refusal;
pub mod setup;
mod stride;
pub mod valid;
mod walk;

// A position of 01, PREMO's coordinate C, kept as position + 1,000,000 so that it has no sign inside.
#[repr(C)]
#[derive(Clone, Copy, PartialEq, Eq, PartialOrd, Ord)]
pub struct Coordinate(pub u32);

// Ticks of the board's clock, PREMO's Time.
#[repr(C)]
#[derive(Clone, Copy, PartialEq, Eq, PartialOrd, Ord)]
pub struct Ticks(pub u32);

// Arrivals at the far position, PREMO's visit number.
#[repr(C)]
#[derive(Clone, Copy, PartialEq, Eq, PartialOrd, Ord)]
pub struct Passes(pub u32);

// C lends it with any bytes and by this layout. So its rules stand in `Valid` and in no invariant of it: a `ValidTrack` carries them;
// a mode, a direction or a flag is a byte with names and no enum; and thresholds and events are two rows, not one of pairs.
#[repr(C)]
#[derive(Clone, Copy)]
pub struct Track {
    pub min: Coordinate,
    pub max: Coordinate,
    pub start: Coordinate,
    pub end: Coordinate,
    pub position: Coordinate,
    pub passes: Passes,
    pub loops: u16,
    pub mode: u8,
    // 0 forward, 1 backward.
    pub direction: u8,
    // 0 or 1.
    pub repeat: u8,
    // The position is not yet visited.
    pub due: u8,
    // The event of a change from mode a to mode b stands at a * 4 + b; 0 means none.
    pub actions: [u8; Track::CELLS],
    // The track that it follows; 0 where it follows none.
    pub master: u8,
    // The band held: 0 is none, k the k-th threshold.
    pub band: u8,
    // Strictly rising; 0 stands for none, and behind a 0 there are only 0.
    pub thresholds: [u32; Track::THRESHOLDS],
    // Beside each threshold its event; 0 beside none.
    pub events: [u16; Track::THRESHOLDS],
    // The rate: so many steps in so many ticks.
    pub steps: u16,
    pub ticks: u16,
    // What the ticks have added up to beyond the last step. Its width fills the track up to a multiple of 16 bytes.
    pub remainder: u32,
}

impl Coordinate {
    // What a coordinate is above its position.
    pub const BIAS: i64 = 1000000;

    // The coordinate of position 1,000,000, the last one.
    pub const LAST: u32 = 2000000;
}

impl Ticks {
    // The clock's end.
    pub const END: u32 = 1000000000;
}

impl Track {
    pub const STOPPED: u8 = 0;

    pub const PLAYING: u8 = 1;

    pub const PAUSED: u8 = 2;

    pub const WAITING: u8 = 3;

    pub const FORWARD: u8 = 0;

    pub const BACKWARD: u8 = 1;

    pub const REPEATING: u8 = 1;

    pub const VISITED: u8 = 0;

    pub const DUE: u8 = 1;

    pub const CELLS: usize = 16;

    pub const LOOPS: u32 = 65535;

    pub const EVENT: u32 = 255;

    pub const THRESHOLDS: usize = 4;

    // The numbers of as many pairs of a threshold and its event.
    pub const PAIRED: usize = 2 * Track::THRESHOLDS;

    // The greatest threshold.
    pub const THRESHOLD: u32 = 1000000;

    // The greatest number of a rate.
    pub const RATE: u32 = 1000;

    // A new track: start = min, end = max, forward, repeat off, loops 1, all actions 0, STOPPED, rewound, no master, 1 in 1.
    #[tactic(auto, unfolding(crate::specs::Rule::new_track))]
    pub fn new(min: Coordinate, max: Coordinate) -> Self
        ensures { result ≡ new_track min max }
    {
        Self {
            min,
            max,
            start: min,
            end: max,
            position: min,
            passes: Passes(0),
            loops: 1,
            mode: Self::STOPPED,
            direction: Self::FORWARD,
            repeat: 0,
            due: Self::DUE,
            actions: [0u8; Self::CELLS],
            master: 0,
            band: 0,
            thresholds: [0u32; Self::THRESHOLDS],
            events: [0u16; Self::THRESHOLDS],
            steps: 1,
            ticks: 1,
            remainder: 0,
        }
    }

    // The home position: start when forward, end when backward.
    pub fn home(self) -> Coordinate
        ensures { result.0 ≡ home self }
    {
        if self.direction == Track::BACKWARD {
            self.end
        } else {
            self.start
        }
    }

    // The far position: the other.
    pub fn far(self) -> Coordinate
        ensures { result.0 ≡ far self }
    {
        if self.direction == Track::BACKWARD {
            self.start
        } else {
            self.end
        }
    }

    // Rewound: position home, due set, passes 0, remainder 0.
    fn rewound(self) -> Track
        ensures { result ≡ rewound self }
    {
        Track {
            position: self.home(),
            passes: Passes(0),
            due: Track::DUE,
            remainder: 0,
            ..self
        }
    }

    // STOPPED and rewound.
    fn stopped(self) -> Track
        ensures { result ≡ stopped self }
    {
        Track {
            mode: Track::STOPPED,
            ..self.rewound()
        }
    }

    // The track as a call or a command that goes to this mode leaves it: STOPPED rewinds.
    #[tactic(auto, unfolding(crate::specs::Rule::entered))]
    pub fn entered(self, mode: u8) -> Track
        ensures { result ≡ entered self mode }
    {
        if mode == Track::STOPPED {
            return self.stopped();
        }
        Track { mode, ..self }
    }

    // The event of a change of mode, 0 for none.
    pub fn action(self, from: u8, to: u8) -> u8
        requires { (from ≤ 3) × (to ≤ 3) }
        ensures { result ≡ action_cell self from to }
    {
        self.actions[usize::from(from * 4 + to)]
    }
}
