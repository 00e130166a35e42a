// The numbers of a line.
use board::row::CALL_WIDTH;

// A word's number: that of its digits, below 0 behind a `-`; 0 where it has none, and the least or the most
// where it is beyond these.
fn number(word: &[u8]) -> i64 {
    let size = word
        .iter()
        .filter_map(|byte| char::from(*byte).to_digit(10))
        .fold(0u64, |size, digit| {
            size.saturating_mul(10).saturating_add(u64::from(digit))
        });
    if word.starts_with(b"-") {
        0i64.saturating_sub_unsigned(size)
    } else {
        0i64.saturating_add_unsigned(size)
    }
}

// The numbers of a line, parted by single blanks; missing ones are 0.
pub fn numbers(line: &[u8]) -> [i64; CALL_WIDTH] {
    let mut row = [0; CALL_WIDTH];
    for (cell, word) in row.iter_mut().zip(line.split(|byte| *byte == b' ')) {
        *cell = number(word);
    }
    row
}
