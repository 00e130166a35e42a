// How long two numbers stay in a range of drifts: two that move evenly, or that go round.
ghost use Rattle.std.specs.Prelude.{◌≡◌, ◌⊎◌, ◌+◌, ◌≤◌, ◌<◌, min};
ghost use Rattle.track.specs.Rule.{clock_end};
ghost use Rattle.board.specs.Stay.{Asked, Stays, Divisor, Covers, Rounds, asked_most, sum_most};

use track::Ticks;

// The numbers from the least to the greatest.
#[derive(Clone, Copy)]
pub(crate) struct Range {
    pub(crate) least: u64,
    pub(crate) greatest: u64,
}

// The least of a number and the clock's end.
fn at_most_end(n: u64) -> Ticks
    ensures { result.0 ≡ min n clock_end }
{
    Ticks(n.min(Ticks::END as u64) as u32)
}

// How many ticks two numbers that move by g and by h stay apart by one of the range. They are known to w (`Known`).
pub(crate) fn stay(x: u64, y: u64, w: u64, g: u64, h: u64, range: Range) -> Ticks
    requires asked { Asked asked_most x y w g range.least range.greatest }
    requires asked_2 { Asked asked_most x y w h range.least range.greatest }
    ensures { Stays x y w g h range.least range.greatest result.0 }
{
    if g < h {
        gaining(y, x + w, w, h - g, range)
    } else {
        gaining(x, y, w, g - h, range)
    }
}

// The first number gains v on the second in each tick. The numbers stay by themselves: `stay` passes on others, and a struct of them
// would be taken apart in every line below.
fn gaining(x: u64, y: u64, w: u64, v: u64, range: Range) -> Ticks
    requires { Asked sum_most x y w v range.least range.greatest }
    ensures { Stays x y w v 0 range.least range.greatest result.0 }
{
    let first = x + v;
    if y > first + range.greatest {
        return Ticks(0);
    }
    if range.least == 0 || y + range.least <= first {
        return leading(x, y, w, v, range);
    }
    if y < first + w + range.least {
        return Ticks(0);
    }
    if v == 0 {
        return Ticks(Ticks::END);
    }
    at_most_end((y - w - range.least - x) / v)
}

// The same where the first is ahead, or may be anywhere.
fn leading(x: u64, y: u64, w: u64, v: u64, range: Range) -> Ticks
    requires asked { Asked sum_most x y w v range.least range.greatest }
    requires y_bound { y ≤ x + v + range.greatest }
    requires fact { (range.least ≡ 0) ⊎ (y + range.least ≤ x + v) }
    ensures { Stays x y w v 0 range.least range.greatest result.0 }
{
    if y + range.greatest < x + v + w {
        return Ticks(0);
    }
    if v == 0 {
        return Ticks(Ticks::END);
    }
    at_most_end((y + range.greatest - w - x) / v)
}

// The greatest number that divides both, by Euclid.
fn divisor(a: u64, b: u64) -> u64
    requires { 0 < a }
    ensures { Divisor a b result }
{
    let mut x = a;
    let mut y = b;
    // No `for`: Euclid's turns are not known beforehand.
    while 0 < y {
        let rest = x % y;
        x = y;
        y = rest;
    }
    x
}

// Two that go round l places from p and round k places from q: the clock's end if they never leave the range, else 0.
// Modulo the greatest divisor g of l and k the first is always c ahead, and the second d: c + d is g, or both are 0. So
// where the first is ahead, it is so by c to l - g + c, and the second by d to k - g + d.
pub(crate) fn rounds(p: u64, q: u64, l: u64, k: u64, range: Range) -> Ticks
    requires l_nonzero { (0 < l) × (l ≤ asked_most) }
    requires k_nonzero { (0 < k) × (k ≤ asked_most) }
    ensures { Rounds p q l k range.least range.greatest result.0 }
{
    let g = divisor(l, k);
    let a = p % g;
    let b = q % g;
    let (c, d) = if b < a {
        (a - b, g - (a - b))
    } else if a < b {
        (g - (b - a), b - a)
    } else {
        (0, 0)
    };
    ends(c, l - g, d, k - g, range)
}

// The clock's end if the numbers from c to c + v and from d to d + w are all in the range, else 0.
fn ends(c: u64, v: u64, d: u64, w: u64, range: Range) -> Ticks
    requires c_le_asked_most { (c ≤ asked_most) × (v ≤ asked_most) }
    requires d_le_asked_most { (d ≤ asked_most) × (w ≤ asked_most) }
    ensures { Covers c v d w range.least range.greatest result.0 }
{
    if range.least <= c && range.least <= d && v + c <= range.greatest && w + d <= range.greatest {
        Ticks(Ticks::END)
    } else {
        Ticks(0)
    }
}
