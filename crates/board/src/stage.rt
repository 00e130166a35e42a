// What a tick gathers apart from the log and the board: the records that it writes, and the infos of the points that it reaches.
ghost use Rattle.std.specs.Prelude.{◌≡◌, ℕ, ◌+◌, ◌*◌, ◌≤◌, ◌<◌, List, [], ◌++◌, length, map, take};
ghost use Rattle.board.specs.Log.{write_at, log_bytes, record_width};
ghost use Rattle.board.specs.Tick.{listed, info_number, reached_by, tick_most, Room};
ghost use Rattle.board.specs.Points.{track_count};

use crate::Board;
use crate::info::Info;
use crate::log::{Record, put_record};
use std::marker::Model;

// The records of a tick, as bytes behind one another. With the kit's `ArrayVec`, of bytes, rows or records, a dense board took up to 1.8 times as long.
#[derive(Drop)]
pub struct Staged {
    count: usize,
    bytes: [u8; Staged::BYTES],
}

// Clauses see the bytes of the records staged.
impl Model for Staged {
    ghost Value = { List ℕ };

    ghost view = { λ s. take (s.count * record_width) s.bytes };

    ghost invariant = { λ s. s.count ≤ tick_most };
}

impl Staged {
    // The most records of a tick, and their bytes.
    pub const MOST: usize = 64;

    pub const BYTES: usize = Staged::MOST * Record::WIDTH;

    pub(crate) fn new() -> Self
        ensures { result ≡ [] }
    {
        Staged {
            count: 0,
            bytes: [0; Staged::BYTES],
        }
    }

    pub(crate) fn clear(&mut self)
        ensures { self.new ≡ [] }
    {
        self.count = 0;
    }

    // The number of records.
    pub(crate) fn count(&self) -> usize
        ensures { length self.now ≡ result * record_width }
    {
        self.count
    }

    // A record, if there is one, goes behind the others. How much room a part of a tick needs is a clause of it and no field of the stage,
    // which changes while it is lent.
    pub(crate) fn put(&mut self, noted: Option<Record>)
        requires { Room 1 self.old }
        ensures { self.new ≡ self.old ++ log_bytes (listed noted) }
    {
        if let Some(r) = noted {
            put_record(r, &mut self.bytes, self.count * Record::WIDTH);
            self.count += 1;
        }
    }

    // The records go to a place of the log.
    pub(crate) fn commit(&self, log: &mut [u8], at: usize)
        requires { at + length self.now ≤ length log.old }
        ensures { log.new ≡ write_at log.old at self.now }
    {
        let n = self.count * Record::WIDTH;
        log[at..at + n].copy_from_slice(&self.bytes[..n]);
    }
}

// The infos of the points that a tick's steps reach, in their order: at most one for each track. No `ArrayVec`: its unused places
// want a default, and no info is one.
#[derive(Drop)]
pub struct Reached {
    count: usize,
    infos: [Info; Board::TRACKS],
}

// Clauses see their numbers.
impl Model for Reached {
    ghost Value = { List ℕ };

    ghost view = { λ r. map (λ d. d.number) (take r.count r.infos) };

    ghost invariant = { λ r. r.count ≤ track_count };
}

impl Reached {
    pub(crate) fn new() -> Self
        ensures { result ≡ [] }
    {
        // Past the count any info may stand.
        let any = Info { number: 1 };
        Reached {
            count: 0,
            infos: [any; Board::TRACKS],
        }
    }

    pub(crate) fn clear(&mut self)
        ensures { self.new ≡ [] }
    {
        self.count = 0;
    }

    // One more info, if there is one.
    pub(crate) fn note(&mut self, noted: Option<Info>)
        requires { length self.old < track_count }
        ensures { self.new ≡ self.old ++ reached_by (info_number noted) }
    {
        if let Some(d) = noted {
            self.infos[self.count] = d;
            self.count += 1;
        }
    }

    pub(crate) fn infos(&self) -> &[Info]
        ensures { map (λ d. d.number) result.now ≡ self.now }
    {
        &self.infos[..self.count]
    }
}
