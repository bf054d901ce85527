//! Decimal numbers.
ghost use Rattle.std.specs.Prelude.{◌≡◌, Some, None, if◌then◌else◌};
ghost use Rattle.std.specs.List.{list_all};
ghost use Rattle.std.specs.Char.{is_ascii_digit};
ghost use Rattle.lexical.specs.Numbers.{is_decimal, capped_value};

/// The number that digits make, or the greatest `u64` where it is greater.
pub fn capped_number(digits: &[u8]) -> u64
    ensures { result ≡ capped_value digits.now }
{
    let mut number: u64 = 0;
    for b in digits {
        number = number
            .saturating_mul(10)
            .saturating_add(u64::from(b.saturating_sub(b'0')));
    }
    number
}

fn is_all_digits(bytes: &[u8]) -> bool
    ensures { result ≡ list_all is_ascii_digit bytes.now }
{
    bytes.iter().all(|b| b.is_ascii_digit())
}

/// The number that one or more digits make, or the greatest `u64` where it is greater.
pub fn decimal(word: &[u8]) -> Option<u64>
    ensures { result ≡ (if is_decimal word.now then Some (capped_value word.now) else None) }
{
    if !word.is_empty() && is_all_digits(word) {
        Some(capped_number(word))
    } else {
        None
    }
}
