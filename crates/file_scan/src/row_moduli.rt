// The moduli of the rows of a file, which come in turn.
ghost use Rattle.std.specs.Prelude.{◌≡◌, ◌%◌, length, slice_index};
ghost use Rattle.set_table.specs.Sets.{data_of, key_of};
ghost use Rattle.file_model.specs.FileText.{row_moduli};

use file_model::FileKind;
use set_table::SetName;

/// The modulus of a row of a file of this kind and set, counted from 0 after the head. For a secret
/// it is 3.
pub fn row_modulus(kind: FileKind, set: SetName, row: u64) -> u64
    ensures { result ≡ slice_index (row_moduli kind set) (row % length (row_moduli kind set)) }
{
    match kind {
        FileKind::Secret => 3,
        FileKind::SwitchKey(_) => key_modulus(set, row),
        FileKind::PublicKey | FileKind::Cipher => data_modulus(set, row),
    }
}

fn data_modulus(set: SetName, row: u64) -> u64
    ensures { result ≡ slice_index (data_of set) (row % length (data_of set)) }
{
    set.data_modulus((row % set.data_count() as u64) as usize)
}

/// Of the moduli of a switching key the special one comes last.
fn key_modulus(set: SetName, row: u64) -> u64
    ensures { result ≡ slice_index (key_of set) (row % length (key_of set)) }
{
    let data = set.data_count() as u64;
    match set.special() {
        None => data_modulus(set, row),
        Some(special) => {
            let place = row % (data + 1);
            if place < data {
                set.data_modulus(place as usize)
            } else {
                special
            }
        }
    }
}
