// A track with the rules that it is known to keep. `Track` itself has none, since C lends it with any bytes.
ghost use Rattle.std.specs.Prelude.{◌≤◌};
ghost use Rattle.track.specs.Rule.{Valid, clock_end};

use crate::Track;

// A track that keeps its rules.
#[derive(Clone, Copy)]
pub struct ValidTrack {
    pub track: Track,
    ghost valid: { Valid track },
}

// A valid track whose passes are not above the clock's end, so that its next pass can be counted.
#[derive(Clone, Copy)]
pub struct SoundTrack {
    pub valid: ValidTrack,
    ghost counted: { valid.track.passes.0 ≤ clock_end },
}
