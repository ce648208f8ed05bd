//! Words that are names or numbers.
ghost use Rattle.std.specs.Prelude.{◌≡◌, Some, None, if◌then◌else◌};
ghost use Rattle.std.specs.List.{list_all};
ghost use Rattle.std.specs.Char.{is_ascii_digit};
ghost use Rattle.std.specs.Io.Iter.{u64_saturate};
ghost use Rattle.line_text.specs.Names.{is_name, is_name_byte, is_number, written_number, is_number_in};

fn is_name_byte(byte: u8) -> bool
    ensures { result ≡ is_name_byte byte }
{
    byte.is_ascii_lowercase() || byte.is_ascii_digit() || byte == b'_'
}

fn all_name_bytes(word: &[u8]) -> bool
    ensures { result ≡ list_all is_name_byte word.now }
{
    word.iter().all(|byte| is_name_byte(*byte))
}

/// Whether a word is a name.
pub fn is_name(word: &[u8]) -> bool
    ensures { result ≡ is_name word.now }
{
    match word.split_first() {
        None => false,
        Some((first, others)) => {
            first.is_ascii_lowercase()
                && all_name_bytes(others)
                && others.len() <= 31
                && word != b"key".as_slice()
        }
    }
}

/// Whether all bytes of a word are digits.
pub fn all_digits(word: &[u8]) -> bool
    ensures { result ≡ list_all is_ascii_digit word.now }
{
    word.iter().all(|byte| byte.is_ascii_digit())
}

/// Whether a word is a number: `0`, or up to ten digits that don't begin with 0.
fn is_number(word: &[u8]) -> bool
    ensures { result ≡ is_number word.now }
{
    all_digits(word)
        && !word.is_empty()
        && word.len() <= 10
        && !(word.starts_with(b"0") && word.len() > 1)
}

/// The number that digits write, or the largest `u64` where it is larger.
pub fn read_number(digits: &[u8]) -> u64
    ensures { result ≡ u64_saturate (written_number digits.now) }
{
    let mut number = 0u64;
    for digit in digits {
        let units = u64::from(digit.saturating_sub(b'0'));
        number = number.saturating_mul(10).saturating_add(units);
    }
    number
}

/// The number that a word is, where it is one from `low` on and below `end`.
pub fn number_in(low: u64, end: u64, word: &[u8]) -> Option<u64>
    ensures { result ≡ (if is_number_in low end word.now then Some (written_number word.now) else None) }
{
    if !is_number(word) {
        return None;
    }
    let number = read_number(word);
    if low <= number && number < end {
        Some(number)
    } else {
        None
    }
}
