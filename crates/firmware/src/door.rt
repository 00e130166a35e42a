// One door for every call and query but master by its row of numbers, one for master, and one for an encoded list of calls.
ghost use Rattle.board.specs.Call.{world};
ghost use Rattle.board.specs.Row.{call_of, row_does};
ghost use Rattle.board.specs.Lists.{Executed};
ghost use Rattle.firmware.specs.Door.{RowGives, MasterGives};

use board::Board;
use board::apply::accepted;
use board::lists::run_calls;
use board::row::{REPLY_WIDTH, answer, call_of, reply_row};

// The board after a call, and the numbers of its reply.
#[repr(C)]
#[derive(Clone, Copy)]
pub struct Replied {
    pub board: Board,
    pub reply: [u64; REPLY_WIDTH],
}

// A call by its code and six numbers.
#[unsafe(no_mangle)]
pub extern "C" fn gridstep_call(
    b: Board,
    code: i64,
    x1: i64,
    x2: i64,
    x3: i64,
    x4: i64,
    x5: i64,
    x6: i64,
    log: &mut [u8],
) -> Replied
    ensures { RowGives (row_does (call_of code x1 x2 x3 x4 x5 x6) (world b log.old)) result log.new }
{
    let r = answer(b, call_of(code, [x1, x2, x3, x4, x5, x6]), log);
    Replied {
        board: r.board,
        reply: reply_row(r.told),
    }
}

// A master call with any number of thresholds, each with its event behind it; a set-up call, so it takes no log.
#[unsafe(no_mangle)]
pub extern "C" fn gridstep_master(b: Board, track: i64, master: i64, pairs: &[i64]) -> Replied
    ensures { MasterGives track master pairs.now b result }
{
    let r = accepted(b, b.set_master(track, master, pairs));
    Replied {
        board: r.board,
        reply: reply_row(r.told),
    }
}

// An encoded list of calls from a fresh board: the board that it ends with.
#[unsafe(no_mangle)]
pub extern "C" fn gridstep_run(calls: &[i64], log: &mut [u8], replies: &mut [u64]) -> Board
    ensures { Executed calls.now log.old replies.old result log.new replies.new }
{
    run_calls(calls, log, replies)
}
