// The command `check`.
ghost use Rattle.std.specs.Prelude.{◌≡◌, length, map, Some};
ghost use Rattle.std.specs.String.{string_bytes};
ghost use Rattle.command_words.specs.Form.{form_of};
ghost use Rattle.command_words.specs.declared.form.Form.TheVariants as form;
ghost use Rattle.command_model.specs.Commanded.{Commanded};

use crate::judge::{bound_of_output, judge_fresh};
use command_stages::read_script;
use command_words::{Status, accepted_line};
use outer_io::Store;
use std::alloc::Global;

/// The line that `check SCRIPT` prints. Only files are read.
pub fn check<S: Store>(alloc: Global, words: &[String], store: &mut S) -> Result<Vec<u8>, Status>
    requires form { form_of (map string_bytes words.now) ≡ Some form.Check }
    requires count { length words.now ≡ 2 }
    ensures { Commanded (map string_bytes words.now) (λ line. Some line.items) (S.state store.old) (S.state store.new) result }
{
    let script = read_script(alloc, store, words, 1)?;
    let bounds = judge_fresh(alloc, &script)?;
    match accepted_line(alloc, bound_of_output(&script, &bounds)) {
        Ok(line) => Ok(line),
        Err(_) => Err(Status::Memory),
    }
}
