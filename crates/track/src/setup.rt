// The set-up changes of a track, as far as the track alone decides them.
ghost use Rattle.std.specs.Prelude.{◌≡◌};
ghost use Rattle.track.specs.Setup.{settled, permits, after, span_set, start_set, end_set, loops_set, repeat_set};
ghost use Rattle.track.specs.Setup.{closes, turned_to, direction_set, action_set, jump_to, rate_set, changed_by};

use crate::number::in_range;
use crate::refusal::Refusal;
use crate::{Coordinate, Track};

// A set-up change with the numbers of its call.
#[derive(Clone, Copy)]
pub enum Change {
    Start(i64),
    End(i64),
    Loops(i64),
    Repeat(i64),
    Direction(i64),
    // From, to, event.
    Action(i64, i64, i64),
    Jump(i64),
    // Steps, ticks.
    Rate(i64, i64),
}

// STOPPED or PAUSED.
#[tactic(auto, unfolding(crate::specs::Setup::settled))]
pub fn settled(mode: u8) -> bool
    ensures { result ≡ settled mode }
{
    matches!(mode, Track::STOPPED | Track::PAUSED)
}

// Whether a mode allows a change.
#[tactic(auto, unfolding(crate::specs::Setup::permits))]
fn permits(change: Change, mode: u8) -> bool
    ensures { result ≡ permits change mode }
{
    match change {
        Change::Start(_) | Change::End(_) | Change::Rate(_, _) => mode == Track::STOPPED,
        Change::Loops(_)
        | Change::Repeat(_)
        | Change::Direction(_)
        | Change::Action(_, _, _)
        | Change::Jump(_) => settled(mode),
    }
}

impl Track {
    // The span is set, where its start is below its end, and the track rewinds.
    fn spanned(self, start: Coordinate, end: Coordinate) -> Result<Track, Refusal>
        ensures { after self result ≡ span_set self start end }
    {
        if end <= start {
            return Err(Refusal::Value);
        }
        Ok(Track { start, end, ..self }.rewound())
    }

    #[tactic(auto, unfolding(crate::specs::Setup::start_set))]
    fn set_start(self, p: i64) -> Result<Track, Refusal>
        ensures { after self result ≡ start_set self p }
    {
        self.spanned(Coordinate::between(p, self.min, self.max)?, self.end)
    }

    #[tactic(auto, unfolding(crate::specs::Setup::end_set))]
    fn set_end(self, p: i64) -> Result<Track, Refusal>
        ensures { after self result ≡ end_set self p }
    {
        self.spanned(self.start, Coordinate::between(p, self.min, self.max)?)
    }

    #[tactic(auto, using(crate::proofs::Numbers::natural_cases), unfolding(crate::specs::Setup::loops_set))]
    fn set_loops(self, n: i64) -> Result<Track, Refusal>
        ensures { after self result ≡ loops_set self n }
    {
        let loops = in_range(n, 1, Track::LOOPS).ok_or(Refusal::Value)? as u16;
        Ok(Track { loops, ..self })
    }

    #[tactic(auto, using(crate::proofs::Numbers::natural_cases), unfolding(crate::specs::Setup::repeat_set))]
    fn set_repeat(self, f: i64) -> Result<Track, Refusal>
        ensures { after self result ≡ repeat_set self f }
    {
        let repeat = in_range(f, 0, 1).ok_or(Refusal::Value)? as u8;
        Ok(Track { repeat, ..self })
    }

    // Whether turning it so flips a PAUSED, visited track that stands on its new far position: its next arrival then closes a pass there.
    #[tactic(auto, unfolding(crate::specs::Setup::closes))]
    fn closes(self, direction: u8) -> bool
        ensures { result ≡ closes self direction }
    {
        direction != self.direction
            && self.mode == Track::PAUSED
            && self.due == Track::VISITED
            && self.position == Track { direction, ..self }.far()
    }

    // The track turned: a STOPPED one rewinds by the new direction, a PAUSED one that `closes` becomes due.
    #[tactic(auto, unfolding(crate::specs::Setup::turned_to))]
    fn turned_to(self, direction: u8) -> Track
        ensures { result ≡ turned_to self direction }
    {
        let turned = Track { direction, ..self };
        if self.mode == Track::STOPPED {
            return turned.rewound();
        }
        if self.closes(direction) {
            return Track {
                due: Track::DUE,
                ..turned
            };
        }
        turned
    }

    #[tactic(auto, using(crate::proofs::Numbers::natural_cases), unfolding(crate::specs::Setup::direction_set))]
    fn set_direction(self, d: i64) -> Result<Track, Refusal>
        ensures { after self result ≡ direction_set self d }
    {
        let direction = in_range(d, 0, 1).ok_or(Refusal::Value)?;
        Ok(self.turned_to(direction as u8))
    }

    // The event of a change from one mode to another is set; 0 clears it.
    #[tactic(auto, using(crate::proofs::Numbers::natural_cases), unfolding(crate::specs::Setup::action_set))]
    fn set_action(mut self, from: i64, to: i64, event: i64) -> Result<Track, Refusal>
        ensures { after self result ≡ action_set self from to event }
    {
        let a = in_range(from, 0, 3).ok_or(Refusal::Value)?;
        let b = in_range(to, 0, 3).ok_or(Refusal::Value)?;
        let e = in_range(event, 0, Track::EVENT).ok_or(Refusal::Value)?;
        if a == b {
            return Err(Refusal::Value);
        }
        self.actions[(a * 4 + b) as usize] = e as u8;
        Ok(self)
    }

    // The position is set, and is not yet visited.
    #[tactic(auto, unfolding(crate::specs::Setup::jump_to))]
    fn jump(self, p: i64) -> Result<Track, Refusal>
        ensures { after self result ≡ jump_to self p }
    {
        let position = Coordinate::between(p, self.start, self.end)?;
        Ok(Track {
            position,
            due: Track::DUE,
            ..self
        })
    }

    // A rate of p steps in q ticks. It does not rewind.
    #[tactic(auto, using(crate::proofs::Numbers::natural_cases), unfolding(crate::specs::Setup::rate_set))]
    fn set_rate(self, p: i64, q: i64) -> Result<Track, Refusal>
        ensures { after self result ≡ rate_set self p q }
    {
        let steps = in_range(p, 1, Track::RATE).ok_or(Refusal::Rate)?;
        let ticks = in_range(q, 1, Track::RATE).ok_or(Refusal::Rate)?;
        if ticks < steps {
            return Err(Refusal::Rate);
        }
        Ok(Track {
            steps: steps as u16,
            ticks: ticks as u16,
            ..self
        })
    }

    // A set-up change: refused 2 where the mode does not allow it, then 3 for its value, or 11 for a rate.
    #[tactic(auto, unfolding(crate::specs::Setup::changed_by, crate::specs::Setup::set_by))]
    pub fn changed(self, change: Change) -> Result<Track, Refusal>
        ensures { after self result ≡ changed_by self change }
    {
        if !permits(change, self.mode) {
            return Err(Refusal::Mode);
        }
        match change {
            Change::Start(p) => self.set_start(p),
            Change::End(p) => self.set_end(p),
            Change::Loops(n) => self.set_loops(n),
            Change::Repeat(f) => self.set_repeat(f),
            Change::Direction(d) => self.set_direction(d),
            Change::Action(from, to, event) => self.set_action(from, to, event),
            Change::Jump(p) => self.jump(p),
            Change::Rate(p, q) => self.set_rate(p, q),
        }
    }
}
