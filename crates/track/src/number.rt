// The numbers of a call, from i64 to what a track keeps: only here are a call's signed numbers worked on.
ghost use Rattle.std.specs.Prelude.{◌≡◌, ok_or};
ghost use Rattle.track.specs.Number.{natural_of, capped_of, coordinate_of, within, value_of, clamped_of};
ghost use Rattle.track.specs.declared.refusal.Refusal.TheVariants.{Value};

use crate::Coordinate;
use crate::refusal::Refusal;

// The number, if it is from least to most.
#[tactic(auto, unfolding(crate::specs::Number::natural_of))]
pub fn in_range(n: i64, least: u32, most: u32) -> Option<u32>
    ensures { result ≡ natural_of n least most }
{
    let k = u32::try_from(n).ok()?;
    (least..=most).contains(&k).then_some(k)
}

// The number, brought down to the most if it is above; none if it is negative.
#[tactic(auto, unfolding(crate::specs::Number::capped_of))]
pub fn capped(n: i64, most: u32) -> Option<u32>
    ensures { result ≡ capped_of n most }
{
    let k = u64::try_from(n).ok()?;
    Some(k.min(u64::from(most)) as u32)
}

// A bound of a range of positions, brought to just beside the least or the greatest position if it
// lies beyond, and counted from -1,000,001.
#[tactic(auto, unfolding(crate::specs::Number::clamped_of))]
pub fn clamped(n: i64) -> u32
    ensures { result ≡ clamped_of n }
{
    (n.clamp(-1000001, 1000001) + 1000001) as u32
}

// The coordinate of a position, if it is from -1,000,000 to 1,000,000.
impl TryFrom<i64> for Coordinate {
    type Error = Refusal;

    ghost try_from_gives = { λ n r. r ≡ ok_or (coordinate_of n) Value };

    #[tactic(auto, unfolding(crate::specs::Number::coordinate_of))]
    fn try_from(n: i64) -> Result<Coordinate, Refusal> {
        if !(-1000000..=1000000).contains(&n) {
            return Err(Refusal::Value);
        }
        Ok(Coordinate((n + Coordinate::BIAS) as u32))
    }
}

// The position of a coordinate.
impl From<Coordinate> for i64 {
    ghost from_gives = { λ c n. n ≡ value_of c };

    #[tactic(auto, unfolding(crate::specs::Number::value_of))]
    fn from(c: Coordinate) -> i64 {
        i64::from(c.0) - Coordinate::BIAS
    }
}

impl Coordinate {
    // The coordinate of a position, if it is from low to high.
    #[tactic(auto, unfolding(crate::specs::Number::within))]
    pub fn between(n: i64, low: Coordinate, high: Coordinate) -> Result<Coordinate, Refusal>
        ensures { result ≡ ok_or (within low.0 high.0 (coordinate_of n)) Value }
    {
        let c = Coordinate::try_from(n)?;
        if !(low..=high).contains(&c) {
            return Err(Refusal::Value);
        }
        Ok(c)
    }
}
