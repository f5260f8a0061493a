//! Numbers in decimal digits, as programs read them.
#![tactic(auto)]

ghost use Rattle.std.specs.Prelude.{◌≡◌, true};
ghost use Rattle.std.specs.List.{list_all};
ghost use Rattle.std.specs.Char.{is_ascii_digit};
ghost use Rattle.std.specs.Str.Parse.{digits_value};
ghost use Rattle.decimals.specs.Decimal.{read_number, below_limit};
ghost use Rattle.decimals.specs.Decimal as spec;

/// Returns the number that the word is, or `None` if the word is not decimal digits, at least one,
/// or the number is not less than 2^64.
///
/// Cost: reads each byte.
pub fn number_of(word: &[u8]) -> Option<u64>
    ensures { result ≡ read_number word.now }
{
    if is_numeral(word) {
        value_of(word)
    } else {
        None
    }
}

/// Returns `true` if the word is decimal digits, at least one.
fn is_numeral(word: &[u8]) -> bool
    ensures { result ≡ spec.is_numeral word.now }
{
    if word.is_empty() {
        false
    } else {
        is_all_digits(word)
    }
}

/// Returns `true` if each byte is a decimal digit.
fn is_all_digits(word: &[u8]) -> bool
    ensures { result ≡ list_all is_ascii_digit word.now }
{
    word.iter().all(|byte| byte.is_ascii_digit())
}

/// Returns the value of the digits, if it is less than 2^64.
fn value_of(digits: &[u8]) -> Option<u64>
    requires { spec.is_numeral digits.now ≡ true }
    ensures { result ≡ below_limit (digits_value 10 digits.now) }
{
    match str::from_utf8(digits) {
        Ok(text) => text.parse().ok(),
        Err(_) => unreachable!(),
    }
}
