// A track gets a master, with thresholds of their drift and an event for each.
ghost use Rattle.std.specs.Prelude.{◌≡◌, ◌∷◌, [], ◌<◌};
ghost use Rattle.track.specs.Rule.{threshold_most, event_most};
ghost use Rattle.board.specs.Points.{track_count};
ghost use Rattle.board.specs.Setup.{number_at, ranged_test, master_named, outcome, put_master, set_master};

use crate::Board;
use track::Track;
use track::follow::pairs_kept;
use track::number::in_range;
use track::refusal::Refusal;

// The number in a place of the pairs, if it is from 1 to the most; 0 where it is not, and where there is none: that 0 is what a track's row of four holds
// (C's layout).
fn number_at(pairs: &[i64], at: usize, most: u32) -> u32
    ensures { result ≡ number_at pairs.now at most }
{
    let n = pairs.get(at).copied().unwrap_or(0);
    in_range(n, 1, most).unwrap_or(0)
}

// Whether a threshold and its event are in their ranges.
#[tactic(auto, unfolding(crate::specs::Setup::ranged_test))]
fn pair_ranged(pair: [i64; 2]) -> bool
    ensures { result ≡ ranged_test pair }
{
    let [threshold, event] = pair;
    in_range(threshold, 1, Track::THRESHOLD).is_some() && in_range(event, 1, Track::EVENT).is_some()
}

// Whether every threshold has an event, and both are in their ranges.
fn ranged(pairs: &[i64]) -> bool
    ensures { result ≡ ranged_test pairs.now }
{
    let (whole, rest) = pairs.as_chunks();
    rest.is_empty() && whole.iter().all(|pair| pair_ranged(*pair))
}

// The event in a place of the pairs.
#[tactic(auto, using(crate::proofs::master::Pairs::in_most))]
fn event_at(pairs: &[i64], at: usize) -> u16
    ensures { result ≡ number_at pairs.now at event_most }
{
    number_at(pairs, at, Track::EVENT) as u16
}

// The thresholds: every second number, from the first on.
fn thresholds_of(pairs: &[i64]) -> [u32; Track::THRESHOLDS]
    ensures { result ≡ number_at pairs.now 0 threshold_most ∷ number_at pairs.now 2 threshold_most
        ∷ number_at pairs.now 4 threshold_most ∷ number_at pairs.now 6 threshold_most ∷ [] }
{
    [0, 2, 4, 6].map(|at| number_at(pairs, at, Track::THRESHOLD))
}

// Their events: the numbers between.
fn events_of(pairs: &[i64]) -> [u16; Track::THRESHOLDS]
    ensures { result ≡ number_at pairs.now 1 event_most ∷ number_at pairs.now 3 event_most
        ∷ number_at pairs.now 5 event_most ∷ number_at pairs.now 7 event_most ∷ [] }
{
    [1, 3, 5, 7].map(|at| event_at(pairs, at))
}

// The master that is kept: 0 where there are no pairs.
fn master_named(master: u32, pairs: &[i64]) -> u8
    requires { master < track_count }
    ensures { result ≡ master_named master pairs.now }
{
    if pairs.is_empty() { 0 } else { master as u8 }
}

// The master of a present track is set to another present one.
#[tactic(auto, using(crate::proofs::master::Pairs::putting), unfolding(crate::specs::Setup::put_master))]
fn put_master(mut board: Board, track: u32, master: u32, pairs: &[i64]) -> Result<Board, Refusal>
    requires { (track < track_count) × (master < track_count) }
    ensures { outcome board result ≡ put_master board track master pairs.now }
{
    let at = track as usize;
    if board.tracks[at].mode != Track::STOPPED {
        return Err(Refusal::Mode);
    }
    if track == master || !ranged(pairs) {
        return Err(Refusal::Value);
    }
    if Track::PAIRED < pairs.len() {
        return Err(Refusal::Rising);
    }
    let thresholds = thresholds_of(pairs);
    let events = events_of(pairs);
    if !pairs_kept(thresholds, events) {
        return Err(Refusal::Rising);
    }
    let master = master_named(master, pairs);
    board.tracks[at] = board.tracks[at].following(master, thresholds, events);
    Ok(board)
}

impl Board {
    // A track gets a master, or none where there are no pairs, which are a threshold and its event in turn.
    pub fn set_master(self, track: i64, master: i64, pairs: &[i64]) -> Result<Board, Refusal>
        ensures { outcome self result ≡ set_master self track master pairs.now }
    {
        self.checked()?;
        let i = self.found(track)?;
        let m = self.found(master)?;
        put_master(self, i, m, pairs)
    }
}
