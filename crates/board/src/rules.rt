// What makes a lent board broken.
ghost use Rattle.std.specs.Prelude.{cond, Ok, Err, ok_or, ◌≡◌, ◌+◌, ◌^◌, ◌≤◌, ◌<◌, false, ◌||◌};
ghost use Rattle.board.specs.Points.{track_count, point_most, keys_of, infos_of};
ghost use Rattle.board.specs.Board.{is_present, master_test, track_test, tracks_test, place_test, allowed_test, point_test, points_test, unbroken_test, found_in};
ghost use Rattle.track.specs.declared.refusal.Refusal.TheVariants as refusal;

use crate::Board;
use crate::points::{Point, Points};
use track::number::in_range;
use track::refusal::Refusal;
use track::{Ticks, Track};

// The word of the present tracks with one more.
pub(crate) fn with_track(present: u16, track: u32) -> u16
    requires track_value { is_present present track ≡ false }
    requires track_lt_track_count { track < track_count }
    ensures { result ≡ present + 2 ^ track }
{
    present + (1u16 << track)
}

impl Board {
    // Whether a track is present.
    pub(crate) fn is_present(&self, track: u32) -> bool
        ensures { result ≡ is_present self.now.present track }
    {
        track <= Board::LAST && (self.present >> track) % 2 == 1
    }

    // The number of a present track.
    #[tactic(auto, unfolding(crate::specs::Board::found_in))]
    pub(crate) fn found(&self, track: i64) -> Result<u32, Refusal>
        ensures { result ≡ ok_or (found_in self.now.present track) refusal.Track }
    {
        let i = in_range(track, 0, Board::LAST).ok_or(Refusal::Track)?;
        if self.is_present(i) {
            Ok(i)
        } else {
            Err(Refusal::Track)
        }
    }

    // Whether a track's master is another that is present, or 0 where it follows none.
    #[tactic(auto, unfolding(crate::specs::Board::master_test))]
    fn master_kept(&self, track: u32, t: Track) -> bool
        ensures { result ≡ master_test self.now.present track t }
    {
        let master = u32::from(t.master);
        if t.thresholds[0] == 0 {
            return master == 0;
        }
        self.is_present(master) && master != track
    }

    // Whether a present track keeps its rules.
    #[tactic(auto, unfolding(crate::specs::Board::track_test))]
    fn track_kept(&self, track: u32, t: Track) -> bool
        ensures { result ≡ track_test self.now.present track t self.now.clock }
    {
        t.sound(self.clock) && t.follower_kept(self.clock) && self.master_kept(track, t)
    }

    // Whether the present tracks keep their rules.
    fn tracks_kept(&self) -> bool
        ensures value { result ≡ tracks_test self.now.present self.now.present 0 self.now.tracks self.now.clock }
        ensures word { self.now.present < 2 ^ track_count }
    {
        // The word is halved from turn to turn, so no `all`.
        let mut word = self.present;
        for (i, t) in self.tracks.iter().enumerate() {
            if word % 2 == 1 && !self.track_kept(i as u32, *t) {
                return false;
            }
            word /= 2;
        }
        true
    }

    // Whether a point's event, command and target are what they may be.
    #[tactic(auto, unfolding(crate::specs::Board::allowed_test))]
    pub(crate) fn allowed(&self, p: Point) -> bool
        ensures { result ≡ allowed_test self.now.present p }
    {
        let aimed = if p.command == 0 {
            p.target == 0
        } else {
            self.is_present(u32::from(p.target))
        };
        1 <= p.event && p.event <= Point::EVENT && p.wait <= 1 && p.command <= 4 && aimed
    }

    // Whether a point's place is on its track, within the bounds.
    #[tactic(auto, unfolding(crate::specs::Board::place_test))]
    fn placed(&self, owner: Track, p: Point) -> bool
        ensures { result ≡ place_test self.now.present owner p }
    {
        self.is_present(u32::from(p.track)) && owner.min <= p.position && p.position <= owner.max
    }

    // Whether a key and an info below their ends are those of a point that keeps its rules.
    fn point_kept(&self, key: u32, info: u32) -> bool
        ensures { result ≡ point_test self.now.present self.now.tracks key info }
    {
        if Points::END <= key || Point::END <= info {
            return false;
        }
        let p = Point::of(key, info);
        self.placed(self.tracks[usize::from(p.track)], p) && self.allowed(p)
    }

    // Whether the points ascend, and each keeps its rules. By index: the two rows are C's.
    fn points_kept(&self) -> bool
        requires { self.now.points.count ≤ point_most }
        ensures { result ≡ points_test self.now.present self.now.tracks 0 (keys_of self.now.points) (infos_of self.now.points) }
    {
        let mut low: u32 = 0;
        for i in 0..self.points.count {
            let key = self.points.keys[i];
            if key < low || !self.point_kept(key, self.points.infos[i]) {
                return false;
            }
            low = key + 1;
        }
        true
    }

    // Whether the board keeps every range and rule of its tracks, points and clock.
    pub(crate) fn unbroken(&self) -> bool
        ensures { result ≡ unbroken_test self.now }
    {
        self.clock.0 <= Ticks::END
            && self.points.count <= Points::MOST
            && self.tracks_kept()
            && self.points_kept()
    }

    // Any call lent a broken board refuses it.
    pub(crate) fn checked(&self) -> Result<(), Refusal>
        ensures { result ≡ cond (unbroken_test self.now) (Ok tt) (Err refusal.Value) }
    {
        if self.unbroken() {
            Ok(())
        } else {
            Err(Refusal::Value)
        }
    }
}
