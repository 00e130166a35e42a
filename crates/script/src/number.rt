// A number of a script line.
ghost use Rattle.std.specs.Prelude.{◌≡◌};
ghost use Rattle.script.specs.Number.{size_of, number_of};

// The number without sign that digits are.
#[tactic(auto, using(crate::proofs::number::Digits::reading))]
fn read_size(digits: &[u8]) -> Option<u32>
    ensures { result ≡ size_of digits.now }
{
    let first = *digits.first()?;
    if first == b'0' && 1 < digits.len() {
        return None;
    }
    let mut size: u32 = 0;
    for digit in digits {
        if !digit.is_ascii_digit() {
            return None;
        }
        size = size.checked_mul(10)?.checked_add(u32::from(*digit - b'0'))?;
    }
    Some(size)
}

// The number that a field is.
pub(crate) fn read_number(field: &[u8]) -> Option<i64>
    ensures { result ≡ number_of field.now }
{
    let Some(digits) = field.strip_prefix(b"-") else {
        return Some(i64::from(read_size(field)?));
    };
    let size = read_size(digits)?;
    if size == 0 {
        None
    } else {
        Some(-i64::from(size))
    }
}
