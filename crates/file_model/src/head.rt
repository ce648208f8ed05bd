// The heads of files.
ghost use Rattle.std.specs.Prelude.{◌≡◌, IsTrue};
ghost use Rattle.file_model.specs.FileText.{set_fits, parts_fit, element_fits, bound_fits};
ghost use Rattle.file_model.specs.Heads.{made_head, no_bound, HeadKeepsRules};

use crate::FileKind;
use bound_num::Bound;
use set_table::{KeyKind, SetName};

/// What the first 64 bytes of a file say.
#[derive(Clone, Copy, Debug, PartialEq, Eq)]
pub struct Head {
    pub kind: FileKind,
    pub set: SetName,
    /// How many parts a cipher has; 0 for keys.
    pub parts: u8,
    /// The Galois element of a turn key; else 0.
    pub element: u32,
    /// The id of the secret to which the file belongs.
    pub id: [u8; 16],
    /// The bound on the noise of a cipher; 0 for keys.
    pub bound: Bound,
    /// How many words of eight bytes follow.
    pub words: u64,
}

/// The bound of a file that has no noise.
const NO_BOUND: Bound = Bound { m: 0, e: 0 };

impl Head {
    /// The head of the file of a secret.
    pub fn of_secret(set: SetName, id: [u8; 16]) -> Head
        ensures is { result ≡ made_head FileKind.Secret set 0 0 id no_bound }
        ensures rules { HeadKeepsRules result }
    {
        head_of(FileKind::Secret, set, 0, 0, id, NO_BOUND)
    }

    /// The head of the file of a public key to the secret of this id.
    pub fn of_public(set: SetName, id: [u8; 16]) -> Head
        ensures is { result ≡ made_head FileKind.PublicKey set 0 0 id no_bound }
        ensures rules { HeadKeepsRules result }
    {
        head_of(FileKind::PublicKey, set, 0, 0, id, NO_BOUND)
    }

    /// The head of the file of a switching key to the secret of this id. The element is the Galois
    /// element of a turn key, and 0 for the key of relinearisation.
    pub fn of_switch_key(kind: KeyKind, set: SetName, element: u32, id: [u8; 16]) -> Head
        requires set { IsTrue (set_fits (FileKind.SwitchKey kind) set) }
        requires element { IsTrue (element_fits (FileKind.SwitchKey kind) set element) }
        ensures is { result ≡ made_head (FileKind.SwitchKey kind) set 0 element id no_bound }
        ensures rules { HeadKeepsRules result }
    {
        head_of(FileKind::SwitchKey(kind), set, 0, element, id, NO_BOUND)
    }

    /// The head of the file of a cipher under the secret of this id. It has two or three parts, and
    /// states this bound on its noise.
    pub fn of_cipher(set: SetName, parts: u8, id: [u8; 16], bound: Bound) -> Head
        requires parts { IsTrue (parts_fit FileKind.Cipher parts) }
        requires bound { IsTrue (bound_fits FileKind.Cipher set bound.m bound.e) }
        ensures is { result ≡ made_head FileKind.Cipher set parts 0 id bound }
        ensures rules { HeadKeepsRules result }
    {
        head_of(FileKind::Cipher, set, parts, 0, id, bound)
    }
}

/// The head with as many words as the kind asks for.
fn head_of(
    kind: FileKind,
    set: SetName,
    parts: u8,
    element: u32,
    id: [u8; 16],
    bound: Bound,
) -> Head
    ensures { result ≡ made_head kind set parts element id bound }
{
    Head {
        kind,
        set,
        parts,
        element,
        id,
        bound,
        words: kind.row_count(set, parts) * set.degree() as u64,
    }
}

/// Which files a reader takes.
#[derive(Clone, Copy, Debug, PartialEq, Eq)]
pub enum Wanted {
    Secret,
    Public,
    Cipher,
    /// A switching key of either kind.
    Key,
}
