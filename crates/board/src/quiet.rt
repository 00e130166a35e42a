// The quiet stretch of a board: ticks in which no playing track reaches a point of its own or stops and no follower's band changes,
// taken at once.
ghost use Rattle.std.specs.Prelude.{[], ◌≡◌, ◌≤◌, ◌<◌};
ghost use Rattle.track.specs.Rule.{clock_end};
ghost use Rattle.board.specs.Tick.{members};
ghost use Rattle.board.specs.Replay.{Each};
ghost use Rattle.board.specs.Quiet.{ToPoint, QuietSteps, QuietTicks, Leapable, Leapable-prop, WithMaster, Fewest, leap_into};

use crate::Board;
use crate::members::Members;
use crate::points::{OrderedPoints, TrackPoints};
use crate::steady::steady;
use track::valid::{SoundTrack, ValidTrack};
use track::{Ticks, Track};

// A track, and the points of its board, asked for its number.
#[derive(Clone, Copy)]
struct Player<'a> {
    valid: ValidTrack,
    points: TrackPoints<'a>,
}

impl<'a> Player<'a> {
    // The steps before the first that reaches a point of the track, or the clock's end where its span has none: the point
    // at the next location or the nearest further on, else the one on home or the nearest further on from there.
    fn to_point(self) -> u32
        ensures { ToPoint self.entry.points.points.keys.now self.entry.points.track self.entry.valid.track result }
    {
        let t = self.valid.track;
        let backward = t.direction == Track::BACKWARD;
        let l = self.valid.arrival();
        let here = self.points.look_up(l, backward, t.start, t.end);
        if here.info != 0 {
            return 0;
        }
        if let Some(c) = here.near {
            return self.valid.steps_to(c);
        }
        let home = t.home();
        let again = self.points.look_up(home, backward, t.start, t.end);
        if again.info != 0 {
            return self.valid.steps_to(home);
        }
        match again.near {
            Some(c) => self.valid.steps_to(c),
            None => Ticks::END,
        }
    }

    // The steps before the first that reaches a point or stops the track, at most the clock's end.
    fn quiet_steps(self) -> u32
        ensures { QuietSteps self.entry.points.points.keys.now self.entry.points.track self.entry.valid.track result }
    {
        let point = self.to_point();
        self.valid.running().min(point)
    }

    // The ticks before the one that makes such a step, at most the clock's end.
    fn quiet_ticks(self) -> Ticks
        ensures { QuietTicks self.entry.points.points.keys.now self.entry.points.track self.entry.valid.track result.0 }
    {
        self.valid.ticks_before(self.quiet_steps())
    }
}

// The fewest ticks in which the followers in the word keep their bands, at most so many.
#[tactic(auto, using(crate::proofs::tick::Bits::first_inside))]
fn steady_followers(tracks: &[Track; Board::TRACKS], led: u16, most: Ticks) -> Ticks
    requires each { Each (WithMaster tracks.now) (members led) }
    requires most_le_clock_end { most.0 ≤ clock_end }
    ensures { Fewest [] tracks.now [] (members led) most.0 result.0 }
{
    let mut fewest = most.0;
    for i in Members(led) {
        let t = tracks[i];
        let follower = ValidTrack { track: t };
        let master = ValidTrack {
            track: tracks[usize::from(t.master)],
        };
        fewest = fewest.min(steady(follower, master).0);
    }
    Ticks(fewest)
}

// The tracks of a board, lent, and the word of those that play: each of these can be leapt.
#[derive(Clone, Copy)]
pub(crate) struct Playing<'a> {
    pub(crate) tracks: &'a [Track; Board::TRACKS],
    pub(crate) word: u16,
    ghost leapable: { Leapable tracks.now (members word) } by { Leapable-prop tracks.now (members word) },
}

impl<'a> Playing<'a> {
    // The fewest ticks before one of them reaches a point or stops, at most the clock's end.
    #[tactic(auto, using(crate::proofs::tick::Bits::first_inside))]
    fn fewest(self, points: OrderedPoints<'a>) -> Ticks
        ensures { Fewest points.entry.keys.now self.entry.tracks.now (members self.entry.word) [] clock_end result.0 }
    {
        let mut fewest: u32 = Ticks::END;
        for i in Members(self.word) {
            let player = Player {
                valid: ValidTrack {
                    track: self.tracks[i],
                },
                points: TrackPoints {
                    points,
                    track: i as u32,
                },
            };
            fewest = fewest.min(player.quiet_ticks().0);
        }
        Ticks(fewest)
    }

    // The quiet ticks of a board on which the tracks in `led` follow, at most the clock's end.
    pub(crate) fn quiet(self, led: u16, points: OrderedPoints<'a>) -> Ticks
        requires { Each (WithMaster self.tracks.now) (members led) }
        ensures { Fewest points.entry.keys.now self.entry.tracks.now (members self.entry.word) (members led) clock_end result.0 }
    {
        let stretch = self.fewest(points);
        if led == 0 {
            return stretch;
        }
        steady_followers(self.tracks, led, stretch)
    }

    // All tracks, of which these are k ticks on.
    #[tactic(auto, using(crate::proofs::tick::Bits::first_inside))]
    pub(crate) fn leapt(self, k: Ticks) -> [Track; Board::TRACKS]
        requires { k.0 ≤ clock_end }
        ensures { result ≡ leap_into k.0 self.entry.tracks.now (members self.entry.word) self.entry.tracks.now }
    {
        let mut next = *self.tracks;
        for i in Members(self.word) {
            let sound = SoundTrack {
                valid: ValidTrack {
                    track: self.tracks[i],
                },
            };
            next[i] = sound.leap(k);
        }
        next
    }
}
