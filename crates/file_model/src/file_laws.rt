//! The laws of files.
ghost use Rattle.std.specs.Prelude.{◌≡◌, ◌+◌, ◌*◌, ◌↔◌, ℕ, List, length, Ok, true};
ghost use Rattle.file_model.specs.Bytes.{IsBytes};
ghost use Rattle.file_model.specs.FileText.{FileContent, IsFile};
ghost use Rattle.file_model.specs.Heads.{wants};
ghost use Rattle.file_model.specs.Scan.{scanned};

use crate::Wanted;

/// Bytes pass all tests exactly where they are the text of a file of a wanted kind, whose content
/// is then what the tests give. A file has one content, and its length tells how many words it has.
pub fn law_of_files(wanted: Wanted)
    ensures read { (bytes : List ℕ) (content : FileContent) → IsBytes bytes
        → (scanned wanted bytes ≡ Ok content)
        ↔ (IsFile bytes content × (wants wanted content.kind ≡ true)) }
    ensures one_content { (bytes : List ℕ) (content other : FileContent) → IsFile bytes content
        → IsFile bytes other → content ≡ other }
    ensures size { (bytes : List ℕ) (content : FileContent) → IsFile bytes content
        → length bytes ≡ 96 + 8 * length content.words }
{}
