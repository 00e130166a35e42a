// Script lines: the call that the bytes of a line are (01, "Script lines").
ghost use Rattle.std.specs.Prelude.{◌≡◌, ◌≤◌, ◌∷◌, pos, IfSome};
ghost use Rattle.board.specs.Row.{plain_at};
ghost use Rattle.script.specs.Grammar.{fields_of, fields_row, fields_call, line_call};

use crate::lines::LINE;
use crate::number::read_number;
use crate::word::form_of;
use board::call::Call;
use board::row::{CALL_NUMBERS, call_of};

// A call's code, its numbers, and zeros behind them.
#[derive(Clone, Copy)]
pub struct Row {
    pub code: usize,
    pub numbers: [i64; CALL_NUMBERS],
}

// The row of a text: a word, and just as many numbers as its form has.
fn read_row(text: &[u8]) -> Option<Row>
    ensures row { result ≡ fields_row (fields_of text.now) }
    ensures code { IfSome result (λ r. r.code ≤ 16) }
{
    let mut fields = text.split(|byte| *byte == b',');
    let form = form_of(fields.next()?)?;
    let mut numbers = [0; CALL_NUMBERS];
    for number in &mut numbers[..form.count] {
        *number = read_number(fields.next()?)?;
    }
    if fields.next().is_some() {
        return None;
    }
    Some(Row {
        code: form.code,
        numbers,
    })
}

// The call of a row.
fn call_row(read: Row) -> Option<Call>
    requires { read.code ≤ 16 }
    ensures { result ≡ plain_at (pos read.code ∷ read.numbers) }
{
    call_of(read.code as i64, read.numbers)
}

// The call of a line without its LF.
fn parse_text(text: &[u8]) -> Option<Call>
    ensures { result ≡ fields_call (fields_of text.now) }
{
    call_row(read_row(text)?)
}

// The call of a line, its LF with it.
#[tactic(auto, using(crate::proofs::grammar::Rows::whole_line))]
pub fn parse(line: &[u8]) -> Option<Call>
    ensures { result ≡ line_call line.now }
{
    if LINE < line.len() {
        return None;
    }
    parse_text(line.strip_suffix(b"\n")?)
}
