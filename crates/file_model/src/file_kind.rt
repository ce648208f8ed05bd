//! The kinds of files.
ghost use Rattle.std.specs.Prelude.{◌≡◌, ◌≤◌, IfSome};
ghost use Rattle.file_model.specs.FileText as text;
ghost use Rattle.file_model.specs.Scan.{kind_of_number};

use set_table::{KeyKind, SetName};

/// What a file holds. Its number in a file's head is given by the definition `number_of_kind`.
#[derive(Clone, Copy, PartialEq, Eq, Debug)]
pub enum FileKind {
    Secret,
    PublicKey,
    SwitchKey(KeyKind),
    Cipher,
}

impl FileKind {
    /// The number of the kind in files.
    pub fn number(self) -> u8
        ensures { result ≡ text.number_of_kind self }
    {
        match self {
            FileKind::Secret => 1,
            FileKind::PublicKey => 2,
            FileKind::SwitchKey(KeyKind::Relin) => 3,
            FileKind::SwitchKey(KeyKind::Turn) => 4,
            FileKind::Cipher => 5,
        }
    }

    /// The kind of this number.
    pub fn from_number(number: u8) -> Option<FileKind>
        ensures kind { result ≡ kind_of_number number }
        ensures number { IfSome result (λ kind. text.number_of_kind kind ≡ number) }
    {
        match number {
            1 => Some(FileKind::Secret),
            2 => Some(FileKind::PublicKey),
            3 => Some(FileKind::SwitchKey(KeyKind::Relin)),
            4 => Some(FileKind::SwitchKey(KeyKind::Turn)),
            5 => Some(FileKind::Cipher),
            _ => None,
        }
    }

    /// How many rows of n words a file of this kind has; `parts` is that of a cipher.
    pub fn row_count(self, set: SetName, parts: u8) -> u64
        ensures value { result ≡ text.row_count self set parts }
        ensures few { result ≤ 2040 }
    {
        let data = set.data_count() as u64;
        match self {
            FileKind::Secret => 1,
            FileKind::PublicKey => 2 * data,
            FileKind::SwitchKey(_) => 2 * data * (data + 1),
            FileKind::Cipher => parts as u64 * data,
        }
    }
}
