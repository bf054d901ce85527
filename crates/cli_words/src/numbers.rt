// The numbers of words.
ghost use Rattle.std.specs.Prelude.{◌≡◌, IfSome};
ghost use Rattle.cli_words.specs.Ranges.{IsBetween};
ghost use Rattle.cli_words.specs.Words.{exact_of, number_of};

use lexical::decimal;

// The number that digits make, where it is at most the greatest u64.
fn exact_number(digits: &[u8]) -> Option<u64>
    ensures { result ≡ exact_of digits.now }
{
    let mut number: u64 = 0;
    for b in digits {
        let tens = number.checked_mul(10)?;
        number = tens.checked_add(u64::from(b.saturating_sub(b'0')))?;
    }
    Some(number)
}

/// The number of a word of digits, where it is from `least` to `most`.
pub fn number_in(word: &[u8], least: u64, most: u64) -> Option<u64>
    ensures number { result ≡ number_of least most word.now }
    ensures within { IfSome result (IsBetween least most) }
{
    let _capped = decimal(word)?;
    let number = exact_number(word)?;
    if least <= number && number <= most {
        Some(number)
    } else {
        None
    }
}
