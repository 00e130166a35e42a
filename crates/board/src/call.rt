// A call as a value, with its numbers, and what it answers.
use crate::points::Point;
use track::refusal::Refusal;
use track::setup::Change;
use track::{Ticks, Track};

// The numbers that a call gives for a point, before any is held to its range.
#[derive(Clone, Copy)]
pub struct PointNumbers {
    pub position: i64,
    pub event: i64,
    pub wait: i64,
    pub command: i64,
    pub target: i64,
}

#[derive(Clone, Copy)]
pub enum Call {
    // Number, min, max.
    AddTrack(i64, i64, i64),
    SetUp(i64, Change),
    SetPoint(i64, PointNumbers),
    DropPoint(i64, i64),
    Play(i64),
    Pause(i64),
    Resume(i64),
    Stop(i64),
    Advance(i64),
    Clear,
    Clock,
    Track(i64),
    Point(i64, i64),
    // Track, from, to.
    PointCount(i64, i64, i64),
    // Track, master, thresholds with their events.
    Master(i64, i64, Pairs),
}

// Thresholds, each with its event behind it; more than four are refused whatever they are, so that five stand for any
// greater number. Each holds the numbers that it means and no others: with a count beside an array of ten, calls of one
// meaning would differ in what is behind the count, and `pairs-own` (proofs/call/Enough) would not hold.
#[derive(Clone, Copy)]
pub enum Pairs {
    Nothing,
    One(i64, i64),
    Two(i64, i64, i64, i64),
    Three(i64, i64, i64, i64, i64, i64),
    Four(i64, i64, i64, i64, i64, i64, i64, i64),
    More(i64, i64, i64, i64, i64, i64, i64, i64, i64, i64),
}

// What an advance answers: why it ended, with the ticks taken, or why it is refused. One enum of four, as 01 names it.
#[derive(Clone, Copy)]
pub enum Advanced {
    Done(Ticks),
    LogFull(Ticks),
    ClockEnd(Ticks),
    Refused(Refusal),
}

// What a call tells.
#[derive(Clone, Copy)]
pub enum Told {
    Accepted,
    Done(Ticks),
    LogFull(Ticks),
    ClockEnd(Ticks),
    // Clock and held.
    Clock(Ticks, u64),
    Track(Track),
    Point(Point),
    Count(u64),
}
