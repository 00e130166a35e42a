// A follower: how far it is from home, the band that its drift from the master lies in, and its rules.
ghost use Rattle.std.specs.Prelude.{◌≡◌, ◌==◌, ◌&&◌, ◌≤◌, leb, ltb, drop, length};
ghost use Rattle.std.specs.List.{list_all};
ghost use Rattle.track.specs.Rule.{coordinate_last, threshold_most, event_most};
ghost use Rattle.track.specs.Follow.{thresholds_of, distance, apart, band_of, judged, following, pairs_test, follower_test};

use crate::valid::ValidTrack;
use crate::{Ticks, Track};

// The drift: the absolute difference between two distances.
pub fn apart(x: u32, y: u32) -> u32
    ensures { result ≡ apart x y }
{
    x.abs_diff(y)
}

// Whether a threshold is above the one before it and in its range, and its event in its own.
fn pair_kept(low: u32, threshold: u32, event: u16) -> bool
    ensures { result ≡ (ltb low threshold && (leb threshold threshold_most && (leb 1 event && leb event event_most))) }
{
    low < threshold
        && threshold <= Track::THRESHOLD
        && 1 <= event
        && u32::from(event) <= Track::EVENT
}

// Whether thresholds and events have only 0 from a place on.
fn zeros_from(
    thresholds: [u32; Track::THRESHOLDS],
    events: [u16; Track::THRESHOLDS],
    from: usize,
) -> bool
    ensures { result ≡ (list_all (λ x. x == 0) (drop from thresholds) && list_all (λ e. e == 0) (drop from events)) }
{
    thresholds.iter().skip(from).all(|x| *x == 0) && events.iter().skip(from).all(|e| *e == 0)
}

// Whether thresholds and events keep their rules.
#[tactic(auto, using(crate::proofs::Follows::pairing))]
pub fn pairs_kept(thresholds: [u32; Track::THRESHOLDS], events: [u16; Track::THRESHOLDS]) -> bool
    ensures { result ≡ pairs_test 0 thresholds events }
{
    // By index: the two rows are C's, and each threshold is compared with the one before it.
    let mut low = 0;
    for k in 0..Track::THRESHOLDS {
        if thresholds[k] == 0 {
            return zeros_from(thresholds, events, k);
        }
        if !pair_kept(low, thresholds[k], events[k]) {
            return false;
        }
        low = thresholds[k];
    }
    true
}

impl Track {
    // How many thresholds it has: those before the first 0.
    fn count(self) -> usize
        ensures { result ≡ length (thresholds_of self) }
    {
        self.thresholds.iter().take_while(|x| **x != 0).count()
    }

    // Every range and rule of a follower by itself: its pairs, and a band that is none or one of them, none at clock 0.
    #[tactic(auto, unfolding(crate::specs::Follow::follower_test, crate::specs::Rule::every))]
    pub fn follower_kept(self, clock: Ticks) -> bool
        ensures { result ≡ follower_test self clock }
    {
        pairs_kept(self.thresholds, self.events)
            && usize::from(self.band) <= self.count()
            && (clock.0 != 0 || self.band == 0)
    }

    // The track with another master, other thresholds and their events; the band is none.
    pub fn following(
        self,
        master: u8,
        thresholds: [u32; Track::THRESHOLDS],
        events: [u16; Track::THRESHOLDS],
    ) -> Track
        ensures { result ≡ following self master thresholds events }
    {
        Track {
            master,
            band: 0,
            thresholds,
            events,
            ..self
        }
    }

    // The band of a drift: the highest threshold that it exceeds.
    pub fn band_at(self, drift: u32) -> u8
        ensures { result ≡ band_of (thresholds_of self) drift }
    {
        self.thresholds
            .iter()
            .take_while(|x| **x != 0 && **x < drift)
            .count() as u8
    }
}

impl ValidTrack {
    // How far it is from home.
    pub fn distance(self) -> u32
        ensures { (result ≡ distance self.track) × (result ≤ coordinate_last) }
    {
        self.track.phase(self.track.position)
    }

    // The band of a follower of this master: none if either is STOPPED.
    #[tactic(auto, unfolding(crate::specs::Follow::judged))]
    pub fn judged(self, master: ValidTrack) -> u8
        ensures { result ≡ judged self.track master.track }
    {
        if self.track.mode == Track::STOPPED || master.track.mode == Track::STOPPED {
            return 0;
        }
        self.track
            .band_at(apart(self.distance(), master.distance()))
    }
}
