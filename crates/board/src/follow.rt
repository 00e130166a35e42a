// The third part of a tick: each follower's band, judged after the tick's commands.
ghost use Rattle.std.specs.Prelude.{◌≡◌, ◌≤◌, ℕ, [], ◌++◌, get_or};
ghost use Rattle.track.specs.Rule.{event_most};
ghost use Rattle.track.specs.Follow.{judged};
ghost use Rattle.board.specs.Points.{track_count};
ghost use Rattle.board.specs.Log.{log_bytes};
ghost use Rattle.board.specs.Tick.{Room, members, staged, follow_word, band_records, follow_all, FollowRules};

use crate::Board;
use crate::log::Record;
use crate::members::Members;
use crate::stage::Staged;
use crate::tick::word_of;
use track::valid::ValidTrack;
use track::{Ticks, Track};

// The word of the tracks that follow another: those with a threshold.
pub(crate) fn followers(tracks: &[Track; Board::TRACKS], present: u16) -> u16
    ensures { result ≡ follow_word present tracks.now }
{
    word_of(tracks, present, |t| t.thresholds[0] != 0)
}

// The band that the follower is in now; its record, if the band is another than the one held, and not none.
fn judge_band(
    follower: ValidTrack,
    master: ValidTrack,
    track: u8,
    clock: Ticks,
    stage: &mut Staged,
) -> u8
    requires events { (j : ℕ) → get_or follower.track.events j 0 ≤ event_most }
    requires room { Room 1 stage.old }
    ensures band { result ≡ judged follower.track master.track }
    ensures records { stage.new ≡ stage.old ++ log_bytes (band_records clock.0 track follower.track (judged follower.track master.track)) }
{
    let t = follower.track;
    let band = follower.judged(master);
    if band == t.band || band == 0 {
        return band;
    }
    stage.put(Some(Record {
        clock,
        track,
        kind: Record::BAND,
        event: t.events[(band - 1) as usize] as u8,
        detail: t.master,
        position: t.position,
        passes: t.passes,
    }));
    band
}

// The bands of the followers in the word, judged in ascending order. Never inlined, as `run_commands` (tick.rt).
#[tactic(auto, using(crate::proofs::tick::Bits::first_inside))]
#[inline(never)]
pub(crate) fn judge_bands(
    tracks: &mut [Track; Board::TRACKS],
    led: u16,
    clock: Ticks,
    stage: &mut Staged,
)
    requires follow_rules { FollowRules tracks.old (members led) }
    requires room { Room track_count stage.old }
    ensures tracks { tracks.new ≡ (follow_all clock.0 (members led) (staged tracks.old [] [])).tracks }
    ensures records { stage.new ≡ stage.old ++ log_bytes (follow_all clock.0 (members led) (staged tracks.old [] [])).records }
{
    for i in Members(led) {
        let t = tracks[i];
        let follower = ValidTrack { track: t };
        let master = ValidTrack {
            track: tracks[t.master as usize],
        };
        tracks[i].band = judge_band(follower, master, i as u8, clock, stage);
    }
}
