// The runner: a script comes in on standard input, and what it prints goes out on standard output (01, "Script lines").
// A read that fails ends the input; what was read of it is done.
#![tactic(auto)]

ghost use Rattle.std.specs.Prelude.{◌≤◌, [], length};
ghost use Rattle.script.specs.Run.{Went};

use script::output::{Shown, end_line, show};
use script::run::Session;
use script::text::Out;
use std::io::Read;

// Bytes of the log: it has 4,096 records.
const LOG: usize = 65536;

// Bytes of a piece of the input, and of what is printed at once.
const PIECE: usize = 65536;

// Where lines are printed, and the buffer that they are written into.
#[derive(Drop)]
struct Printer<'a, P> {
    rt: &'a P,
    buffer: [u8; PIECE],
}

impl<P: Print> Printer<'_, P> {
    // Prints the first bytes of the buffer. What can't be written is lost.
    fn print(&self, used: usize)
        requires { used ≤ length self.now.buffer }
    {
        let _written = self.rt.write_all(&self.buffer[..used]).is_ok();
    }

    // Prints a line.
    fn print_line(&mut self, o: Out) {
        let used = o.write(&mut self.buffer, 0);
        self.print(used);
    }

    // Takes in a piece of the input; what it prints is printed before the next is read.
    fn take_in(&mut self, session: &mut Session, piece: &[u8], log: &mut [u8])
        ensures { Went session.old piece.now log.old session.new [] log.new }
    {
        // No `for`: each turn goes on where `feed` stopped.
        let mut at: usize = 0;
        while at < piece.len() {
            let fed = session.feed(piece, at, log, &mut self.buffer);
            self.print(fed.used);
            at = fed.next;
        }
    }

    // Reads the input to its end: 64 bits count more pieces than any input has.
    fn take_all(&mut self, reader: &mut impl Read, piece: &mut [u8], log: &mut [u8]) -> Session {
        let mut session = Session::new();
        for _ in 0..u64::MAX {
            let count = reader.read(piece).unwrap_or(0);
            if count == 0 {
                return session;
            }
            self.take_in(&mut session, &piece[..count], log);
        }
        session
    }

    // Prints the held records.
    fn print_records(&mut self, held: u64, log: &[u8]) {
        // No `for`: each turn goes on where `show` stopped.
        let mut shown = Shown {
            at: 0,
            left: held,
            used: 0,
        };
        while 0 < shown.left {
            shown = show(log, shown.at, shown.left, &mut self.buffer);
            self.print(shown.used);
        }
    }
}

fn main(rt: HostRuntime) {
    let mut log = [0u8; LOG];
    let mut piece = [0u8; PIECE];
    let mut reader = rt.reader();
    let mut printer = Printer {
        rt: &rt,
        buffer: [0u8; PIECE],
    };
    let session = printer.take_all(&mut reader, &mut piece, &mut log);
    let ended = session.finish(&mut log);
    printer.print_line(ended.note);
    printer.print_records(ended.board.held, &log);
    printer.print_line(end_line(ended.board.clock, ended.board.held));
}
