// How long the band of a follower stays while neither it nor its master reaches a point or stops.
ghost use Rattle.std.specs.Prelude.{◌≡◌, ◌⊎◌, true, cond, ◌+◌, ◌*◌, ◌≤◌, ◌<◌, length};
ghost use Rattle.track.specs.Rule.{STOPPED, clock_end, coordinate_last, rate_most, threshold_most};
ghost use Rattle.track.specs.Leap.{ticks_before};
ghost use Rattle.track.specs.Follow.{up_to_zero, thresholds_of, low_of, high_of, pairs_test};
ghost use Rattle.board.specs.Stay.{Together};
ghost use Rattle.board.specs.Steady.{BandRow, is_playing, straight, still, fine, fine_most, pace, least, width, Drifts, Holds, Steadies};

use crate::stay::{Range, rounds, stay};
use track::follow::apart;
use track::valid::ValidTrack;
use track::{Coordinate, Ticks, Track};

// How many ticks the band of a follower of this master stays, whatever it holds now.
pub(crate) fn steady(follower: ValidTrack, master: ValidTrack) -> Ticks
    requires events_value { pairs_test 0 follower.track.thresholds follower.track.events ≡ true }
    requires band_in_bounds { follower.track.band ≤ length (thresholds_of follower.track) }
    ensures { Steadies follower.track master.track result.0 }
{
    let t = follower.track;
    let m = master.track;
    if t.mode == Track::STOPPED || m.mode == Track::STOPPED {
        return stopped_pair(t, m);
    }
    let band = BandDrifts::new(t.thresholds, t.band);
    Pair { follower, master }.within(band)
}

// Either is STOPPED: the band is none in the next tick.
fn stopped_pair(t: Track, m: Track) -> Ticks
    requires { (t.mode ≡ STOPPED) ⊎ (m.mode ≡ STOPPED) }
    ensures { Steadies t m result.0 }
{
    if t.band == 0 {
        Ticks(Ticks::END)
    } else {
        Ticks(0)
    }
}

// The drifts of a band, from the least to the greatest.
#[derive(Clone, Copy)]
struct BandDrifts {
    least: u32,
    greatest: u32,
    ghost low: { least ≤ threshold_most + 1 },
    ghost high: { greatest ≤ coordinate_last },
}

impl BandDrifts {
    // Those of a band of these thresholds.
    fn new(thresholds: [u32; Track::THRESHOLDS], band: u8) -> Self
        requires { BandRow thresholds band }
        ensures { (result.least ≡ low_of (up_to_zero thresholds) band) × (result.greatest ≡ high_of (up_to_zero thresholds) band) }
    {
        let k = usize::from(band);
        let least = if k == 0 { 0 } else { thresholds[k - 1] + 1 };
        let greatest = if k == Track::THRESHOLDS || thresholds[k] == 0 {
            Coordinate::LAST
        } else {
            thresholds[k]
        };
        BandDrifts { least, greatest }
    }

    // In parts of a location.
    fn scaled(self, parts: u64) -> Range
        requires { parts ≤ rate_most * rate_most }
        ensures { result ≡ record { least = self.least * parts; greatest = self.greatest * parts } }
    {
        Range {
            least: u64::from(self.least) * parts,
            greatest: u64::from(self.greatest) * parts,
        }
    }
}

// Where a track may be, in so many parts to a location: its distance is from `at` to `at + width`, and with each tick both ends grow
// by the pace, for so many ticks.
#[derive(Clone, Copy)]
struct Path {
    at: u64,
    width: u64,
    pace: u64,
    parts: u64,
    ticks: Ticks,
    ghost near: { at ≤ fine_most },
    ghost narrow: { width ≤ coordinate_last },
    ghost slow: { pace ≤ parts },
    ghost some: { 0 < parts },
    ghost few: { parts ≤ rate_most },
}

impl Path {
    // A track that goes on evenly in parts of a location, as many as its rate has ticks, or stands.
    fn line(t: ValidTrack) -> Self
        ensures place { (result.at ≡ fine t.track) × (result.width ≡ 0) }
        ensures pace { (result.pace ≡ pace t.track) × (result.parts ≡ t.track.ticks) }
        ensures ticks { result.ticks.0 ≡ straight t.track }
    {
        Path {
            at: fine(t),
            width: 0,
            pace: pace(t),
            parts: u64::from(t.track.ticks),
            ticks: straight(t),
        }
    }

    // A track that is somewhere on its span, or stands.
    fn anywhere(t: ValidTrack) -> Self
        ensures place { (result.at ≡ least t.track) × (result.width ≡ width t.track) }
        ensures pace { (result.pace ≡ 0) × (result.parts ≡ 1) }
        ensures ticks { result.ticks.0 ≡ clock_end }
    {
        Path {
            at: least(t),
            width: width(t),
            pace: 0,
            parts: 1,
            ticks: Ticks(Ticks::END),
        }
    }
}

// How many ticks the drift of two on their paths is known to be one of the band's.
fn together(a: Path, b: Path, band: BandDrifts) -> Ticks
    ensures { Together (a.at * b.parts) ((b.at + b.width) * a.parts) (a.width * b.parts + b.width * a.parts)
        (a.pace * b.parts) (b.pace * a.parts) (band.least * (a.parts * b.parts)) (band.greatest * (a.parts * b.parts))
        a.ticks.0 b.ticks.0 result.0 }
{
    let ticks = stay(
        a.at * b.parts,
        (b.at + b.width) * a.parts,
        a.width * b.parts + b.width * a.parts,
        a.pace * b.parts,
        b.pace * a.parts,
        band.scaled(a.parts * b.parts),
    );
    Ticks(ticks.0.min(a.ticks.0).min(b.ticks.0))
}

// A follower and its master.
#[derive(Clone, Copy)]
struct Pair {
    follower: ValidTrack,
    master: ValidTrack,
}

impl Pair {
    // How many ticks the drift is one of the band's: the longest of the stretches. Anywhere is asked first: it needs no line, and
    // where it holds up to the clock's end nothing else is worked out.
    fn within(self, band: BandDrifts) -> Ticks
        ensures { Holds band.least band.greatest self.follower.track self.master.track result.0 }
    {
        let follower = Path::anywhere(self.follower);
        let master = Path::anywhere(self.master);
        let any = together(follower, master, band);
        if any.0 == Ticks::END {
            return any;
        }
        let follower_line = Path::line(self.follower);
        let master_line = Path::line(self.master);
        let lines = together(follower_line, master_line, band);
        let first = together(follower_line, master, band);
        let second = together(master_line, follower, band);
        let round = self.in_step(band);
        let rest = self.unmoved(band);
        Ticks(lines.0.max(first.0).max(second.0).max(round.0).max(rest.0))
    }

    // Both go round their spans, equally fast.
    fn in_step(self, band: BandDrifts) -> Ticks
        ensures { Drifts band.least band.greatest self.follower.track self.master.track result.0 }
    {
        let t = self.follower.track;
        let m = self.master.track;
        let q = u64::from(t.ticks);
        let k = u64::from(m.ticks);
        if t.mode != Track::PLAYING
            || m.mode != Track::PLAYING
            || t.due == Track::DUE
            || m.due == Track::DUE
            || u64::from(t.steps) * k != u64::from(m.steps) * q
        {
            return Ticks(0);
        }
        let parts = q * k;
        rounds(
            fine(self.follower) * k,
            fine(self.master) * q,
            u64::from(self.follower.span()) * parts,
            u64::from(self.master.span()) * parts,
            band.scaled(parts),
        )
    }

    // Neither makes a step.
    fn unmoved(self, band: BandDrifts) -> Ticks
        ensures { Drifts band.least band.greatest self.follower.track self.master.track result.0 }
    {
        let drift = apart(self.follower.distance(), self.master.distance());
        if drift < band.least || band.greatest < drift {
            return Ticks(0);
        }
        Ticks(still(self.follower).0.min(still(self.master).0))
    }
}

// The ticks in which each step that a track makes goes one further from home; all of them where it stands.
#[tactic(auto, unfolding(crate::specs::Steady::straight, crate::specs::Steady::straight_steps))]
fn straight(t: ValidTrack) -> Ticks
    ensures { result.0 ≡ straight t.track }
{
    let steps = if t.track.due == Track::DUE {
        0
    } else {
        t.span() - 1 - t.distance()
    };
    ticks_till(t, steps)
}

// The ticks before the next one that makes a step of the track; all of them where it stands.
#[tactic(auto, unfolding(crate::specs::Steady::still))]
fn still(t: ValidTrack) -> Ticks
    ensures { result.0 ≡ still t.track }
{
    ticks_till(t, 0)
}

// The ticks before the one that makes the step behind so many; all of them where it stands.
fn ticks_till(t: ValidTrack, steps: u32) -> Ticks
    requires { steps ≤ clock_end }
    ensures { result.0 ≡ cond (is_playing t.track) (ticks_before t.track steps) clock_end }
{
    if t.track.mode == Track::PLAYING {
        t.ticks_before(steps)
    } else {
        Ticks(Ticks::END)
    }
}

// A track's distance in parts of a location, as many as its rate has ticks.
#[tactic(auto, unfolding(crate::specs::Steady::fine))]
fn fine(t: ValidTrack) -> u64
    ensures { (result ≡ fine t.track) × (result ≤ fine_most) }
{
    let whole = u64::from(t.distance()) * u64::from(t.track.ticks);
    if t.track.mode == Track::PLAYING {
        whole + u64::from(t.track.remainder)
    } else {
        whole
    }
}

// How many of these parts the track goes in each tick of a line.
#[tactic(auto, unfolding(crate::specs::Steady::pace))]
fn pace(t: ValidTrack) -> u64
    ensures { (result ≡ pace t.track) × (result ≤ t.track.ticks) }
{
    if t.track.mode == Track::PLAYING {
        u64::from(t.track.steps)
    } else {
        0
    }
}

// The distances that a track can have: the least one.
#[tactic(auto, unfolding(crate::specs::Steady::least))]
fn least(t: ValidTrack) -> u64
    ensures { (result ≡ least t.track) × (result ≤ coordinate_last) }
{
    if t.track.mode == Track::PLAYING {
        0
    } else {
        u64::from(t.distance())
    }
}

// And how far they go beyond it.
#[tactic(auto, unfolding(crate::specs::Steady::width))]
fn width(t: ValidTrack) -> u64
    ensures { (result ≡ width t.track) × (result ≤ coordinate_last) }
{
    if t.track.mode == Track::PLAYING {
        u64::from(t.span() - 1)
    } else {
        0
    }
}
