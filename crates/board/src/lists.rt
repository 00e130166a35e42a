// Lists of calls: an encoded list, executed. Demand 3 is in proofs/lists/Replayed.
ghost use Rattle.board.specs.Lists.{Executed};

use crate::Board;
use crate::row::{REPLY_WIDTH, do_row, put_row};

// Executes an encoded list of calls from a fresh board; each call's reply goes to its row of `replies`.
pub fn run_calls(calls: &[i64], log: &mut [u8], replies: &mut [u64]) -> Board
    ensures { Executed calls.now log.old replies.old result log.new replies.new }
{
    let (rows, _) = calls.as_chunks();
    // As many rows as there are whole calls, and whole replies for them.
    let count = rows.len().min(replies.len() / REPLY_WIDTH);
    let mut b = Board::new();
    // Not zipped with `chunks_exact_mut`: no clause of it says what the replies end as.
    for (i, row) in rows[..count].iter().enumerate() {
        let mut reply = [0; REPLY_WIDTH];
        b = do_row(b, row, log, &mut reply);
        put_row(&reply, replies, i * REPLY_WIDTH);
    }
    b
}
