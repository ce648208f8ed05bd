// Reading a list of values.
ghost use Rattle.std.specs.Prelude.{◌≡◌, map, length, nat_le, IfOk, position, Err, Ok};
ghost use Rattle.std.specs.Io.Iter.{u64_saturate};
ghost use Rattle.script_text.specs.Reading.{values_of, numbers, is_blank, first_stray, first_surplus, earlier};
ghost use Rattle.script_text.specs.declared.faults.ValuePlace.{ValuePlace};
ghost use Rattle.script_text.specs.declared.faults.ValueFault.TheVariants as fault;

use crate::faults::{ValueFault, ValuePlace};
use crate::limits::MAX_VALUES_BYTES;
use line_text::{all_digits, read_number};
use std::alloc::{AllocError, Global};

const MOST_DIGITS: usize = 20;

/// The `n` values of the text, each below `t`: decimal numbers of at most twenty digits, between
/// blanks (space, tab, carriage return, line feed). The values that are missing are 0. Of several
/// faults the first is told, in this order: too long, bad text, too many values, a value too large.
pub fn read_values(alloc: Global, text: &[u8], n: usize, t: u64) -> Result<Vec<u64>, ValueFault>
    ensures values { IfOk result (λ values. values_of text.now n t ≡ Ok values.items) }
    ensures bad { (place : ValuePlace) → result ≡ Err (fault.Bad place) → values_of text.now n t ≡ Err place }
{
    if text.len() > MAX_VALUES_BYTES {
        return Err(ValueFault::Bad(ValuePlace::TooLong));
    }
    if let Some(at) = first_bad(text) {
        return Err(ValueFault::Bad(ValuePlace::BadText(at as u64)));
    }
    if count_numbers(text) > n {
        return Err(ValueFault::Bad(ValuePlace::TooMany));
    }
    let mut values = read_numbers(alloc, text)?;
    if let Some(index) = first_too_large(&values, t) {
        return Err(ValueFault::Bad(ValuePlace::TooLarge(index as u64)));
    }
    values.resize(n, 0)?;
    Ok(values)
}

/// The place of the first byte that can't stand where it does.
fn first_bad(text: &[u8]) -> Option<usize>
    ensures { result ≡ earlier (first_stray text.now) (first_surplus text.now) }
{
    match (first_stray(text), first_surplus(text)) {
        (Some(stray), Some(surplus)) => Some(stray.min(surplus)),
        (stray, surplus) => stray.or(surplus),
    }
}

fn first_stray(text: &[u8]) -> Option<usize>
    ensures { result ≡ first_stray text.now }
{
    text.iter()
        .position(|byte| !(byte.is_ascii_digit() || is_blank(*byte)))
}

fn first_surplus(text: &[u8]) -> Option<usize>
    ensures { result ≡ first_surplus text.now }
{
    let start = text
        .windows(MOST_DIGITS + 1)
        .position(|stretch| all_digits(stretch))?;
    Some(start + MOST_DIGITS)
}

fn is_blank(byte: u8) -> bool
    ensures { result ≡ is_blank byte }
{
    matches!(byte, b' ' | b'\t' | b'\r' | b'\n')
}

fn count_numbers(text: &[u8]) -> usize
    ensures { result ≡ length (numbers text.now) }
{
    text.split(|byte| is_blank(*byte))
        .filter(|word| !word.is_empty())
        .count()
}

/// The numbers of the text, with the largest `u64` for each that is larger.
fn read_numbers(alloc: Global, text: &[u8]) -> Result<Vec<u64>, AllocError>
    ensures { IfOk result (λ values. values.items ≡ map u64_saturate (numbers text.now)) }
{
    text.split(|byte| is_blank(*byte))
        .filter(|word| !word.is_empty())
        .map(|digits| read_number(digits))
        .collect(alloc)
}

/// The place of the first value that isn't below `t`.
fn first_too_large(values: &[u64], t: u64) -> Option<usize>
    ensures { result ≡ position (λ value. nat_le t value) values.now }
{
    values.iter().position(|value| *value >= t)
}

#[cfg(test)]
mod tests {
    use super::*;
    use std::test::Fail;

    #[test]
    fn reads_values_or_tells_the_fault(rt: HostRuntime) -> Result<(), Fail> {
        let rows: [(&[u8], usize, u64, Result<&[u64], ValuePlace>); 18] = [
            (b"", 4, 257, Ok(&[0, 0, 0, 0])),
            (b"", 0, 257, Ok(&[])),
            (b"\t5\r\n 256 ", 3, 257, Ok(&[5, 256, 0])),
            (b"00000000000000000007 8", 2, 257, Ok(&[7, 8])),
            (b"1 2 3 257", 16, 257, Err(ValuePlace::TooLarge(3))),
            (
                b"1 1 1 1 1 1 1 1 1 1 1 1 1 1 1 1 1",
                16,
                257,
                Err(ValuePlace::TooMany),
            ),
            (b"1 x", 16, 257, Err(ValuePlace::BadText(2))),
            (b"1,2", 16, 257, Err(ValuePlace::BadText(1))),
            (b"-1", 16, 257, Err(ValuePlace::BadText(0))),
            (
                b"000000000000000000001",
                16,
                257,
                Err(ValuePlace::BadText(20)),
            ),
            (
                b"1 1234567890123456789012x",
                16,
                257,
                Err(ValuePlace::BadText(22)),
            ),
            (
                b"1 x 123456789012345678901",
                16,
                257,
                Err(ValuePlace::BadText(2)),
            ),
            (b"300 1 2", 2, 257, Err(ValuePlace::TooMany)),
            (b"300 1 x", 1, 257, Err(ValuePlace::BadText(6))),
            (
                b"18446744073709551614",
                1,
                u64::MAX,
                Ok(&[18446744073709551614]),
            ),
            (
                b"18446744073709551615",
                1,
                u64::MAX,
                Err(ValuePlace::TooLarge(0)),
            ),
            (
                b"18446744073709551616",
                1,
                u64::MAX,
                Err(ValuePlace::TooLarge(0)),
            ),
            (
                b"1 99999999999999999999",
                2,
                u64::MAX,
                Err(ValuePlace::TooLarge(1)),
            ),
        ];
        for (i, (text, n, t, want)) in rows.iter().enumerate() {
            let found = read_values(rt.alloc(), text, *n, *t);
            match want {
                Ok(values) => assert_eq!(rt; found?.as_slice(), *values, "in row {i}"),
                Err(place) => assert_eq!(rt;
                    found.err(),
                    Some(ValueFault::Bad(*place)),
                    "in row {i}"
                ),
            }
        }
        Ok(())
    }

    #[test]
    fn refuses_a_long_text(rt: HostRuntime) -> Result<(), Fail> {
        let mut text = vec![in rt.alloc(); b'\n'; MAX_VALUES_BYTES]?;
        assert_eq!(rt;
            read_values(rt.alloc(), &text, 1, 257)?.as_slice(),
            [0].as_slice()
        );
        text.push(b'x')?;
        let too_long = ValueFault::Bad(ValuePlace::TooLong);
        assert_eq!(rt;
            read_values(rt.alloc(), &text, 1, 257).err(),
            Some(too_long)
        );
        Ok(())
    }
}
