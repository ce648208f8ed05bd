// The command `relin`.
ghost use Rattle.std.specs.Prelude.{◌≡◌, length, map, Some, None};
ghost use Rattle.std.specs.String.{string_bytes};
ghost use Rattle.command_words.specs.Form.{form_of};
ghost use Rattle.command_words.specs.declared.form.Form.TheVariants as form;
ghost use Rattle.command_model.specs.Commanded.{Commanded};

use crate::switching::{KeyDraw, need_special, write_drawn};
use cipher_files::Wanted;
use command_stages::{name_of, read_seed, scan_operand};
use command_words::Status;
use outer_io::Store;
use set_table::KeyKind;
use std::alloc::Global;

/// Does `relin SEC SEEDFILE OUT`.
pub fn relin<S: Store>(alloc: Global, words: &[String], store: &mut S) -> Result<(), Status>
    requires form { form_of (map string_bytes words.now) ≡ Some form.Relin }
    requires count { length words.now ≡ 4 }
    ensures { Commanded (map string_bytes words.now) (λ _. None) (S.state store.old) (S.state store.new) result }
{
    let secret = scan_operand(store, words, Wanted::Secret, 1)?;
    need_special(secret.set)?;
    let seed = read_seed(store, words, 2)?;
    let draw = KeyDraw {
        kind: KeyKind::Relin,
        element: 0,
        seed,
    };
    write_drawn(alloc, words, store, &secret, &draw, name_of(words, 3))
}
