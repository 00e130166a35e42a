// The lines that the runner prints (01, "Script lines").
ghost use Rattle.std.specs.Prelude.{◌≡◌};
ghost use Rattle.board.specs.Call.{reply_by};
ghost use Rattle.script.specs.Output.{refused_line, short_line, end_line, record_line, note_of, unpacked_line, Shows};
ghost use Rattle.script.specs.Text.{text_of};
ghost use Rattle.board.specs.Log.{record_values, unpack_of};

use crate::text::Out;
use board::call::Told;
use board::log::{Record, unpack};
use track::Ticks;
use track::refusal::Numbered;

// The number of a refusal stays a `u8`: a `Refusal` would ask more of callers.
pub fn refused_line(line: u64, number: u8) -> Out
    ensures { text_of result ≡ refused_line line number }
{
    let mut o = Out::new();
    o.push("refused,");
    o.number(line, ",");
    o.number(u64::from(number), "\n");
    o
}

// Why an advance stopped short, as its line tells it; numbers, since an enum would ask more of callers.
const LOG_FULL: u8 = 1;

const CLOCK_END: u8 = 2;

pub fn short_line(line: u64, taken: Ticks, reason: u8) -> Out
    ensures { text_of result ≡ short_line line taken.0 reason }
{
    let mut o = Out::new();
    o.push("short,");
    o.number(line, ",");
    o.number(u64::from(taken.0), ",");
    o.number(u64::from(reason), "\n");
    o
}

pub fn end_line(clock: Ticks, held: u64) -> Out
    ensures { text_of result ≡ end_line clock.0 held }
{
    let mut o = Out::new();
    o.push("end,");
    o.number(u64::from(clock.0), ",");
    o.number(held, "\n");
    o
}

pub fn record_line(r: Record) -> Out
    ensures { text_of result ≡ record_line (record_values r) }
{
    let mut o = Out::new();
    o.number(u64::from(r.clock.0), ",");
    o.number(u64::from(r.track), ",");
    o.number(u64::from(r.kind), ",");
    o.number(u64::from(r.event), ",");
    o.number(u64::from(r.detail), ",");
    o.position(r.position, ",");
    o.number(u64::from(r.passes.0), "\n");
    o
}

// What is printed of a line's answer: a refusal, or an advance that stopped short.
pub fn note<R: Numbered>(line: u64, told: Result<Told, R>) -> Out
    ensures { text_of result ≡ note_of line (reply_by R.number told) }
{
    match told {
        Err(refusal) => refused_line(line, refusal.number()),
        Ok(Told::LogFull(n)) => short_line(line, n, LOG_FULL),
        Ok(Told::ClockEnd(n)) => short_line(line, n, CLOCK_END),
        Ok(_) => Out::new(),
    }
}

// The held records, printed: where the records stand that are still to be written, how many they are, and the bytes of the buffer that are used.
#[derive(Clone, Copy)]
pub struct Shown {
    pub at: usize,
    pub left: u64,
    pub used: usize,
}

// Bytes that are a record, as a line.
fn unpacked_line(bytes: &[u8]) -> Out
    ensures { text_of result ≡ unpacked_line (unpack_of bytes.now) }
{
    match unpack(bytes) {
        Ok(r) => record_line(r),
        Err(_) => Out::new(),
    }
}

// So many records from a place of the log on are written as long as the buffer has room for a line.
#[tactic(auto, using(crate::proofs::output::Showing::showing))]
pub fn show(log: &[u8], from: usize, count: u64, out: &mut [u8]) -> Shown
    ensures { Shows log.now from count result out.old out.new }
{
    // No `for`: the room of the buffer ends this too, and the count may go past the log.
    let mut at = from.min(log.len());
    let mut left = count;
    let mut used = 0;
    while 0 < left && Out::ROOM <= out.len() - used {
        let end = (at + Record::WIDTH).min(log.len());
        used = unpacked_line(&log[at..end]).write(out, used);
        at = end;
        left -= 1;
    }
    Shown { at, left, used }
}
