// A bench for boards: lines of numbers are calls, done one after another, and their replies are printed as
// numbers. `#` begins a title. Codes 1 to 22 are the calls (board, row.rt). Other codes:
//   0 L          a fresh board, and a log of L bytes, each 165
//   30 to 47     a field set by force (poke.rt), and 53 to 59
//   50           the held records, then end,clock,held
//   51 k p       a record of kind k packed at place p of the log: 0 accepted or the refusal's number, then the log
//   52 a b       calls a to b of those since code 0 on the board at hand: the number of each, 0 accepted; an
//                accepted one is undone
// What can't be printed is lost.
#![tactic(auto)]

ghost use Rattle.std.specs.Prelude.{◌<◌, ◌≤◌, length};
ghost use Rattle.bench.specs.declared.TheConstants.{LOG, ROWS};

use crate::poke::{Field, limited};
use crate::read::numbers;
use crate::show::{Held, Reply, pack_line, title};
use board::Board;
use board::log::Record;
use board::row::{CALL_WIDTH, REPLY_WIDTH, do_row};
use std::io::Read;

mod poke;
mod read;
mod show;

// Bytes of the input that are read, and of the log.
const INPUT: usize = 65536;

const LOG: usize = 4096;

// Rows that are kept since code 0; those after them take the last one's place.
const ROWS: usize = 320;

// What each byte of a fresh log is.
const FILL: u8 = 165;

// What a line asks for.
#[derive(Clone, Copy)]
enum Step {
    Fresh,
    Call,
    Poke(Field),
    Records,
    Pack,
    Tries,
}

// By the line's code.
impl From<i64> for Step {
    fn from(code: i64) -> Step {
        match code {
            0 => Step::Fresh,
            50 => Step::Records,
            51 => Step::Pack,
            52 => Step::Tries,
            _ => Field::try_from(code).map_or(Step::Call, Step::Poke),
        }
    }
}

// The numbers of a line, and the reply where they are a call.
#[derive(Clone, Copy)]
struct Row {
    numbers: [i64; CALL_WIDTH],
    reply: Reply,
}

impl Row {
    // Does the call; the board after it.
    fn act(&mut self, board: Board, log: &mut [u8]) -> Board {
        do_row(board, &self.numbers, log, &mut self.reply.0)
    }
}

#[derive(Drop)]
struct Bench {
    board: Board,
    // There is no heap, so the log is as long as any, and calls have so many bytes of it.
    log: [u8; LOG],
    room: usize,
    rows: [Row; ROWS],
    // The row of the line at hand.
    at: usize,
    ghost room_in: { room ≤ LOG },
    ghost at_in: { at < ROWS },
}

impl Bench {
    fn new() -> Self {
        let row = Row {
            numbers: [0; CALL_WIDTH],
            reply: Reply([0; REPLY_WIDTH]),
        };
        Bench {
            board: Board::new(),
            log: [FILL; LOG],
            room: 0,
            rows: [row; ROWS],
            at: 0,
        }
    }

    // Code 0: the rows stay as they are.
    fn clear(&mut self, room: i64) {
        self.board = Board::new();
        self.log = [FILL; LOG];
        self.room = limited(room, LOG as u32) as usize;
        self.at = 0;
    }

    // A call, printed and kept.
    fn call(&mut self, rt: &impl Print) {
        let log: &mut [u8] = &mut self.log;
        let row = &mut self.rows[self.at];
        self.board = row.act(self.board, &mut log[..self.room]);
        let _ = println!(rt; "{}", row.reply);
        self.at = (self.at + 1).min(ROWS - 1);
    }

    // Code 50.
    fn records(&self, rt: &impl Print) {
        let log = &self.log[..self.room];
        for record in log
            .chunks_exact(Record::WIDTH)
            .take(self.board.held as usize)
        {
            let _ = println!(rt; "{}", Held(record));
        }
        let _ = println!(rt; "end,{},{}", self.board.clock.0, self.board.held);
    }

    // Code 51.
    fn pack(&mut self, rt: &impl Print, kind: i64, at: i64) {
        let kind = limited(kind, 255) as u8;
        let at = limited(at, LOG as u32) as usize;
        let log: &mut [u8] = &mut self.log;
        pack_line(rt, kind, at, &mut log[..self.room]);
    }

    // Code 52: what is refused leaves its board.
    fn tries(&mut self, rt: &impl Print, from: i64, to: i64) {
        let from = limited(from, ROWS as u32) as usize;
        let to = limited(to, ROWS as u32) as usize;
        let log: &mut [u8] = &mut self.log;
        let log = &mut log[..self.room];
        let mut board = self.board;
        let _ = print!(rt; "tried");
        for row in self.rows.iter_mut().take(to).skip(from) {
            let after = row.act(board, log);
            let refusal = row.reply.refusal();
            let _ = print!(rt; ",{}", refusal.unwrap_or(0));
            if refusal.is_some() {
                board = after;
            }
        }
        let _ = println!(rt);
        self.board = board;
    }

    // A line that is no title.
    fn step(&mut self, rt: &impl Print, line: &[u8]) {
        let row = numbers(line);
        let [code, x, y, z, ..] = row;
        self.rows[self.at].numbers = row;
        match Step::from(code) {
            Step::Fresh => self.clear(x),
            Step::Call => self.call(rt),
            Step::Poke(field) => field.set(&mut self.board, x, y, z),
            Step::Records => self.records(rt),
            Step::Pack => self.pack(rt, x, y),
            Step::Tries => self.tries(rt, x, y),
        }
    }
}

// All lines. What stands behind the last line end is a line too: an empty one, code 0, prints nothing.
fn lines(rt: &impl Print, input: &[u8]) {
    let mut bench = Bench::new();
    for line in input.split(|byte| *byte == b'\n') {
        if line.starts_with(b"#") {
            title(rt, line);
        } else {
            bench.step(rt, line);
        }
    }
}

// Reads until the buffer is full, the input ends or a read fails; how many bytes were read. A `while`, since std's
// read_exact doesn't tell how many where the input is shorter, and read_to_end needs the heap.
fn read_full(reader: &mut impl Read, input: &mut [u8]) -> usize
    ensures { result ≤ length input.new }
{
    let mut done: usize = 0;
    while done < input.len() {
        let n = reader.read(&mut input[done..]).unwrap_or(0);
        if n == 0 {
            return done;
        }
        done += n;
    }
    done
}

fn main(rt: HostRuntime) {
    let mut input = [0u8; INPUT];
    let n = read_full(&mut rt.reader(), &mut input);
    lines(&rt, &input[..n]);
}
