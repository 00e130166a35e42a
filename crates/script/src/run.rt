// Scripts on a board and its log: a line, a piece of the input, and its end.
ghost use Rattle.board.specs.Call.{Gives, world, reply_of};
ghost use Rattle.board.specs.Row.{row_does};
ghost use Rattle.script.specs.Grammar.{line_call};
ghost use Rattle.script.specs.Run.{Starts, EndsLine, Feeds, Ends};

use crate::grammar::parse;
use crate::lines::Reader;
use crate::output::note;
use crate::text::Out;
use board::Board;
use board::apply::Applied;
use board::row::answer;

// A line is done; a line that is no call is refused 9 and changes nothing.
pub fn do_line(b: Board, line: &[u8], log: &mut [u8]) -> Applied
    ensures { Gives (row_does (line_call line.now) (world b log.old)) (reply_of result.told) result.board log.new }
{
    answer(b, parse(line), log)
}

// A board on which a script is executed, and the line that is being read.
#[derive(Clone, Copy)]
pub struct Session {
    pub reader: Reader,
    pub board: Board,
}

impl Session {
    // A fresh board, before the first line.
    pub fn new() -> Session
        ensures { Starts result }
    {
        let reader = Reader::new();
        let board = Board::new();
        Session { reader, board }
    }

    // The line that is kept is done, and what it prints is given; the next line comes.
    fn end_line(&mut self, log: &mut [u8]) -> Out
        ensures { EndsLine self.old log.old result self.new log.new }
    {
        let a = do_line(self.board, self.reader.kept(), log);
        self.board = a.board;
        let printed = note(self.reader.line, a.told);
        self.reader.next_line();
        printed
    }

    // Takes in a piece of the input from `at` on, as long as the buffer has room for what a line prints.
    pub fn feed(&mut self, piece: &[u8], at: usize, log: &mut [u8], out: &mut [u8]) -> Fed
        ensures { Feeds self.old piece.now at log.old out.old result self.new log.new out.new }
    {
        let mut next = at;
        let mut used: usize = 0;
        // No `for`: the room of the buffer ends this, and each turn goes on where the line before it ended.
        while Out::ROOM <= out.len() - used {
            let Some(end) = self.reader.read_on(piece, next) else {
                return Fed {
                    next: piece.len(),
                    used,
                };
            };
            next = end;
            used = self.end_line(log).write(out, used);
        }
        Fed { next, used }
    }

    // The input has ended: a line that lacks its LF is done too, which is to refuse it 9.
    pub fn finish(mut self, log: &mut [u8]) -> Ended
        ensures { Ends self log.old result log.new }
    {
        let note = if self.reader.kept().is_empty() {
            Out::new()
        } else {
            self.end_line(log)
        };
        Ended {
            board: self.board,
            note,
        }
    }
}

// The place in a piece behind what was taken in, and the bytes of the buffer that are used.
#[derive(Clone, Copy)]
pub struct Fed {
    pub next: usize,
    pub used: usize,
}

// What the end of an input leaves: the board, and what is printed of a line that lacks its LF.
#[derive(Clone, Copy)]
pub struct Ended {
    pub board: Board,
    pub note: Out,
}
