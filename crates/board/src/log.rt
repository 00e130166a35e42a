// The log's record: its bytes, packing and unpacking.
ghost use Rattle.std.specs.Prelude.{◌≡◌, ◌+◌, ◌≤◌, length};
ghost use Rattle.board.specs.Log.{write_at, kind_test, twos_of, signed_of, position_of, record_bytes, record_width};
ghost use Rattle.board.specs.Log.{record_values, spelled};
ghost use Rattle.board.specs.Log.{pack_said, pack_answer, pack_bytes, unpack_said, unpack_of};

use track::refusal::Refusal;
use track::{Coordinate, Passes, Ticks};

#[derive(Clone, Copy)]
pub struct Record {
    // The clock after the tick, or as it is at a mode call.
    pub clock: Ticks,
    pub track: u8,
    // 1 point, 2 mode change, 3 refused command, 4 band entered. A number: `pack` takes and refuses any other, and an enum would ask more of callers.
    pub kind: u8,
    pub event: u8,
    pub detail: u8,
    // Any position of 4 bytes in two's complement, kept as a coordinate that wraps.
    pub position: Coordinate,
    pub passes: Passes,
}

impl Record {
    // Bytes of a record in the log.
    pub const WIDTH: usize = 16;

    // A detail is one number times this, and another.
    pub const DETAIL: u8 = 16;

    pub const POINT: u8 = 1;

    pub const CHANGE: u8 = 2;

    pub const REFUSAL: u8 = 3;

    pub const BAND: u8 = 4;
}

// Its bytes, the lowest of each number first.
impl From<Record> for [u8; Record::WIDTH] {
    ghost from_gives = { λ r bytes. bytes ≡ record_bytes r };

    fn from(r: Record) -> Self {
        let [c0, c1, c2, c3] = r.clock.0.to_le_bytes();
        let [w0, w1, w2, w3] = twos(r.position).to_le_bytes();
        let [p0, p1, p2, p3] = r.passes.0.to_le_bytes();
        [
            c0, c1, c2, c3, r.track, r.kind, r.event, r.detail, w0, w1, w2, w3, p0, p1, p2, p3,
        ]
    }
}

// The record that 16 bytes spell.
impl From<[u8; Record::WIDTH]> for Record {
    ghost from_gives = { λ bytes r. record_values r ≡ spelled bytes };

    fn from(bytes: [u8; Record::WIDTH]) -> Self {
        let [
            c0,
            c1,
            c2,
            c3,
            track,
            kind,
            event,
            detail,
            w0,
            w1,
            w2,
            w3,
            p0,
            p1,
            p2,
            p3,
        ] = bytes;
        Record {
            clock: Ticks(u32::from_le_bytes([c0, c1, c2, c3])),
            track,
            kind,
            event,
            detail,
            position: coordinate_of(u32::from_le_bytes([w0, w1, w2, w3])),
            passes: Passes(u32::from_le_bytes([p0, p1, p2, p3])),
        }
    }
}

// The position of a coordinate in two's complement.
#[tactic(auto, using(crate::proofs::log::Records::twos_wrapped))]
fn twos(c: Coordinate) -> u32
    ensures { result ≡ twos_of (position_of c) }
{
    c.0.wrapping_sub(1000000)
}

// The coordinate of a position in two's complement.
#[tactic(auto, using(crate::proofs::log::Records::coordinate_wrapped))]
fn coordinate_of(w: u32) -> Coordinate
    ensures { position_of result ≡ signed_of w }
{
    Coordinate(w.wrapping_add(1000000))
}

// A record is written at a place where it fits.
#[tactic(auto, using(crate::proofs::log::Words::write_part, crate::proofs::log::Records::length_record))]
pub(crate) fn put_record(r: Record, log: &mut [u8], at: usize)
    requires { at + record_width ≤ length log.old }
    ensures { log.new ≡ write_at log.old at (record_bytes r) }
{
    log[at..at + Record::WIDTH].copy_from_slice(&<[u8; Record::WIDTH]>::from(r));
}

// Whether a kind is 1 to 4.
#[tactic(auto, unfolding(crate::specs::Log::kind_test))]
fn kind_known(kind: u8) -> bool
    ensures { result ≡ kind_test kind }
{
    matches!(kind, Record::POINT..=Record::BAND)
}

// Packs a record at a place: refused 3 for another kind, or where its bytes do not fit there.
#[tactic(auto, unfolding(crate::specs::Log::pack_answer, crate::specs::Log::pack_bytes))]
pub fn pack(r: Record, bytes: &mut [u8], at: usize) -> Result<(), Refusal>
    ensures answer { pack_said result ≡ pack_answer r bytes.old at }
    ensures bytes { bytes.new ≡ pack_bytes r bytes.old at }
{
    if !kind_known(r.kind) || bytes.len().saturating_sub(at) < Record::WIDTH {
        return Err(Refusal::Value);
    }
    put_record(r, bytes, at);
    Ok(())
}

// Unpacks a record: refused 3 for another length than 16, or another kind.
pub fn unpack(s: &[u8]) -> Result<Record, Refusal>
    ensures { unpack_said result ≡ unpack_of s.now }
{
    let Ok(bytes) = <[u8; Record::WIDTH]>::try_from(s) else {
        return Err(Refusal::Value);
    };
    let r = Record::from(bytes);
    if !kind_known(r.kind) {
        return Err(Refusal::Value);
    }
    Ok(r)
}
