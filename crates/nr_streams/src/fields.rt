//! Reads the fields of a record.

ghost use Rattle.std.specs.Prelude.{◌≡◌, ◌<◌, ◌≤◌, ◌^◌, IfSome, length, true};
ghost use Rattle.std.specs.{Char.is_ascii_digit, List.list_all, Str.Parse.digits_value};
ghost use Rattle.nr_streams.specs.Fields.{from_first_mark, is_blank, numeral, short_number, text_of_field, to_last_mark};

/// Returns a field without the spaces and tabs at its ends.
pub fn stripped(field: &[u8]) -> &[u8]
    ensures { result.now ≡ text_of_field field.now }
{
    to_last_mark(from_first_mark(field))
}

/// Returns the number that a text of 1 to `most` decimal digits writes, leading zeros included, or `None` for any other
/// text. The result is wide because twenty digits can write a number of more than 64 bits.
#[tactic(auto, unfolding(crate::specs::Fields::numeral))]
pub fn numeral(most: usize, text: &[u8]) -> Option<u128>
    requires { most ≤ 20 }
    ensures value { result ≡ numeral most text.now }
    ensures below { IfSome result (λ n. n < 10 ^ most) }
{
    if (1..=most).contains(&text.len()) && all_digits(text) {
        Some(value_of(text))
    } else {
        None
    }
}

/// Returns the number that a text of 1 to 10 decimal digits writes, or `None` for any other text.
pub fn short_number(text: &[u8]) -> Option<u64>
    ensures { result ≡ short_number text.now }
{
    match numeral(10, text) {
        Some(number) => Some(number as u64),
        None => None,
    }
}

// Whether the octet is a space or a tab.
fn is_blank(octet: u8) -> bool
    ensures { result ≡ is_blank octet }
{
    octet == b' ' || octet == b'\t'
}

// The field without the blanks at its start.
fn from_first_mark(mut field: &[u8]) -> &[u8]
    ensures { result.now ≡ from_first_mark field.now }
{
    loop {
        match field.split_first() {
            Some((first, rest)) if is_blank(*first) => field = rest,
            _ => return field,
        }
    }
}

// The field without the blanks at its end.
fn to_last_mark(mut field: &[u8]) -> &[u8]
    ensures { result.now ≡ to_last_mark field.now }
{
    loop {
        match field.split_last() {
            Some((last, rest)) if is_blank(*last) => field = rest,
            _ => return field,
        }
    }
}

// Whether each octet is a decimal digit.
fn all_digits(text: &[u8]) -> bool
    ensures { result ≡ list_all is_ascii_digit text.now }
{
    text.iter().all(|octet| octet.is_ascii_digit())
}

// The number that at most 20 decimal digits write.
fn value_of(digits: &[u8]) -> u128
    requires digits { list_all is_ascii_digit digits.now ≡ true }
    requires few { length digits.now ≤ 20 }
    ensures { result ≡ digits_value 10 digits.now }
{
    let mut value = 0;
    for digit in digits {
        value = value * 10 + u128::from(*digit - b'0');
    }
    value
}
