//! Names.
ghost use Rattle.std.specs.Prelude.{◌≡◌, IfOk, IsTrue};
ghost use Rattle.std.specs.Str.{bytes_eq};
ghost use Rattle.line_text.specs.Names.{is_name};

use std::alloc::{AllocError, Global};
use std::marker::Model;

/// A name: a lower-case letter and up to 31 lower-case letters, digits or `_`, but not `key`.
#[derive(Drop)]
pub struct Name {
    text: String,
}

impl Model for Name {
    ghost use Rattle.std.specs.Prelude.{ℕ, List, IsTrue};

    ghost Value = { List ℕ };

    ghost use Rattle.std.specs.String.{string_bytes};
    ghost use Rattle.line_text.specs.Names.{is_name};

    ghost view = { λ n. string_bytes n.text };

    ghost invariant = { λ n. IsTrue (is_name (string_bytes n.text)) };
}

impl Name {
    /// The name that a word is.
    pub fn new(alloc: Global, word: &[u8]) -> Result<Name, AllocError>
        requires { IsTrue (is_name word.now) }
        ensures { IfOk result (λ name. name ≡ word.now) }
    {
        let text = str::from_utf8(word).unwrap();
        Ok(Name {
            text: String::from_str(alloc, text)?,
        })
    }

    pub fn as_str(&self) -> &str
        ensures { result.now ≡ self.now }
    {
        self.text.as_str()
    }

    pub fn is(&self, word: &[u8]) -> bool
        ensures { result ≡ bytes_eq self.now word.now }
    {
        self.text.as_bytes() == word
    }
}
