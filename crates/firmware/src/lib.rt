// The mode calls and advance over the one board that the firmware keeps and lends to every call, exported for C and Rust. There a
// board is passed as a pointer, and a log as a pointer and a length.
#![tactic(auto)]

ghost use Rattle.std.specs.Prelude.{◌≡◌};
ghost use Rattle.board.specs.Board.{fresh_board};
ghost use Rattle.board.specs.Call.{Gives, does, mode_does, world};
ghost use Rattle.board.specs.declared.call.Call.TheVariants as call;
ghost use Rattle.firmware.specs.Numbers.{number_said, ending_said};

use board::Board;
use value::Ending;

pub mod door;
pub mod value;

// A fresh board, for the firmware to keep.
#[unsafe(no_mangle)]
pub extern "C" fn gridstep_new() -> Board
    ensures { result ≡ fresh_board }
{
    Board::new()
}

// A mode call by its number, 1 play, 2 pause, 3 resume, 4 stop: 0 if it is accepted, else the refusal's number.
fn mode_call(b: &mut Board, track: i64, call: u8, log: &mut [u8]) -> u32
    ensures { Gives (mode_does call track (world b.old log.old)) (number_said result) b.new log.new }
{
    match b.change_mode(track, call, log) {
        Ok(change) => {
            change.store(b);
            0
        }
        Err(refusal) => refusal as u32,
    }
}

// Each mode call answers 0 if it is accepted, else the refusal's number.
#[tactic(auto, unfolding(board::specs::Call::mode_does, board::specs::Call::run_count, board::specs::Call::says_of, board::specs::Call::makes_of))]
#[unsafe(no_mangle)]
pub extern "C" fn gridstep_play(b: &mut Board, track: i64, log: &mut [u8]) -> u32
    ensures { Gives (does (call.Play track) (world b.old log.old)) (number_said result) b.new log.new }
{
    mode_call(b, track, 1, log)
}

#[tactic(auto, unfolding(board::specs::Call::mode_does, board::specs::Call::run_count, board::specs::Call::says_of, board::specs::Call::makes_of))]
#[unsafe(no_mangle)]
pub extern "C" fn gridstep_pause(b: &mut Board, track: i64, log: &mut [u8]) -> u32
    ensures { Gives (does (call.Pause track) (world b.old log.old)) (number_said result) b.new log.new }
{
    mode_call(b, track, 2, log)
}

#[tactic(auto, unfolding(board::specs::Call::mode_does, board::specs::Call::run_count, board::specs::Call::says_of, board::specs::Call::makes_of))]
#[unsafe(no_mangle)]
pub extern "C" fn gridstep_resume(b: &mut Board, track: i64, log: &mut [u8]) -> u32
    ensures { Gives (does (call.Resume track) (world b.old log.old)) (number_said result) b.new log.new }
{
    mode_call(b, track, 3, log)
}

#[tactic(auto, unfolding(board::specs::Call::mode_does, board::specs::Call::run_count, board::specs::Call::says_of, board::specs::Call::makes_of))]
#[unsafe(no_mangle)]
pub extern "C" fn gridstep_stop(b: &mut Board, track: i64, log: &mut [u8]) -> u32
    ensures { Gives (does (call.Stop track) (world b.old log.old)) (number_said result) b.new log.new }
{
    mode_call(b, track, 4, log)
}

#[unsafe(no_mangle)]
pub extern "C" fn gridstep_advance(b: &mut Board, count: i64, log: &mut [u8]) -> Ending
    ensures { Gives (does (call.Advance count) (world b.old log.old)) (ending_said result) b.new log.new }
{
    let left = b.proceed(count, log);
    left.store(b);
    Ending::from(left.answer)
}
