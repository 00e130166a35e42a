// The refusals of calls, and their numbers (01, "Turned down").
ghost use Rattle.std.specs.Prelude.{◌≡◌, ℕ};

// Why a call is refused, by 01's number.
#[derive(Clone, Copy, Debug, PartialEq, Eq)]
pub enum Refusal {
    // Number not 0 to 15 or, but for add track, track absent.
    Track = 1,
    // Mode does not allow the call.
    Mode = 2,
    // A value outside its stated range or rule.
    Value = 3,
    // Drop or query of a point that isn't there.
    Point = 4,
    // A 257th point.
    Full = 5,
    // Track already present.
    Present = 6,
    // Capacity below held.
    Capacity = 7,
    // The mode call's record doesn't fit.
    Room = 8,
    // Line not in the grammar.
    Grammar = 9,
    // Thresholds that do not rise, or more than four.
    Rising = 10,
    // A rate outside its range (02, 2.4).
    Rate = 11,
}

impl From<Refusal> for u8 {
    ghost use Rattle.track.specs.Refusal.{number_of};

    ghost from_gives = { λ r n. n ≡ number_of r };

    fn from(refusal: Refusal) -> u8 {
        refusal as u8
    }
}

// What stands for a refusal where one is told: a `Refusal`, or any number, since the enum alone would ask more of callers.
pub trait Numbered: Copy {
    ghost number: { Self → ℕ };

    fn number(self) -> u8
        ensures { result ≡ number self };
}

impl Numbered for Refusal {
    ghost use Rattle.track.specs.Refusal.{number_of};

    ghost number = { number_of };

    fn number(self) -> u8 {
        u8::from(self)
    }
}

impl Numbered for u8 {
    ghost number = { λ n. n };

    fn number(self) -> u8 {
        self
    }
}
