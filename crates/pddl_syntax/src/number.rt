// Whole numbers.
ghost use Rattle.std.specs.Prelude.{◌≡◌};
ghost use Rattle.pddl_syntax.specs.Words.{number_of};

/// The largest number.
pub(crate) const LARGEST: u64 = 2_147_483_647;

/// The number that the digits write, unless it is too large.
pub(crate) fn number_of(digits: &[u8]) -> Option<u64>
    ensures { result ≡ number_of digits.now }
{
    let mut number = 0;
    for digit in digits {
        number = number * 10 + u64::from(digit.saturating_sub(b'0'));
        if number > LARGEST {
            return None;
        }
    }
    Some(number)
}
