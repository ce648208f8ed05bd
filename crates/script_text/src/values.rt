// The text of a list of values.
ghost use Rattle.std.specs.Prelude.{◌≡◌, ◌++◌, ◌∷◌, IfOk, OnOk, decimal, map};
ghost use Rattle.std.specs.List.{join_with_byte};
ghost use Rattle.script_text.specs.Values.{printed_values, printed_row};

use itoa::Buffer;
use std::alloc::{AllocError, Global};

/// The values as text: the first half on one line and the others on a second, in decimal without
/// leading zeros, one space between two values and a line feed after each line.
pub fn print_values(alloc: Global, values: &[u64]) -> Result<Vec<u8>, AllocError>
    ensures { IfOk result (λ text. text.items ≡ printed_values values.now) }
{
    let (first_row, second_row) = values.split_at(values.len() / 2);
    let mut text = Vec::new(alloc);
    push_row(&mut text, first_row)?;
    push_row(&mut text, second_row)?;
    Ok(text)
}

fn push_row(text: &mut Vec<u8>, row: &[u64]) -> Result<(), AllocError>
    ensures { OnOk result (text.new.items ≡ text.old.items ++ printed_row row.now) }
{
    push_numbers(text, row)?;
    text.push(b'\n')?;
    Ok(())
}

fn push_numbers(text: &mut Vec<u8>, row: &[u64]) -> Result<(), AllocError>
    ensures { OnOk result (text.new.items ≡ text.old.items ++ join_with_byte 32 (map decimal row.now)) }
{
    let Some((first, others)) = row.split_first() else {
        return Ok(());
    };
    push_number(text, *first)?;
    'others: for value in others {
        text.push(b' ')?;
        push_number(text, *value)?;
    }
    Ok(())
}

/// The number in decimal at the end of a text.
pub fn push_number(text: &mut Vec<u8>, number: u64) -> Result<(), AllocError>
    ensures { OnOk result (text.new.items ≡ text.old.items ++ decimal number) }
{
    let mut buffer = Buffer::new();
    text.extend_from_slice(buffer.format(number).as_bytes())?;
    Ok(())
}
