// A field of a line as a number: an optional minus and digits.
ghost use Rattle.std.specs.Prelude.{◌≡◌};
ghost use Rattle.text.specs.Decimal.{field};
ghost use Rattle.text.specs.Scanning.{magnitude};

// A tenth of 2^63. What has more before its last digit is beyond 64 signed bits.
const TENTH: u64 = 922337203685477580;

// The number that digits stand for, where there is one at least, all are digits, and it is at most 2^63, or one more. By `parse`, which reads text, the
// clip program took up to 2.8 times the time.
fn magnitude(digits: &[u8]) -> Option<u64>
    ensures { result ≡ magnitude digits.now }
{
    if digits.is_empty() {
        return None;
    }
    let mut value: u64 = 0;
    for b in digits {
        if !b.is_ascii_digit() {
            return None;
        }
        if TENTH < value {
            return None;
        }
        value = 10 * value + u64::from(*b - b'0');
    }
    Some(value)
}

// The field's number, where it is one that 64 signed bits hold.
pub(crate) fn number(bytes: &[u8]) -> Option<i64>
    ensures { result ≡ field bytes.now }
{
    match bytes.strip_prefix(b"-") {
        Some(digits) => i64::try_from(-i128::from(magnitude(digits)?)).ok(),
        None => i64::try_from(magnitude(bytes)?).ok(),
    }
}
