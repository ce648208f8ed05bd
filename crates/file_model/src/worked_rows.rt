//! The definitions read on ciphers that were worked out by hand.
ghost use Rattle.std.specs.Prelude.{◌≡◌, ℕ, ℤ, ◌++◌, take};
ghost use Rattle.file_model.specs.Bytes.{word_bytes};
ghost use Rattle.file_model.specs.FileText.{KeepsRules, head_text};
ghost use Rattle.file_model.specs.WorkedRows.{one16_cipher, one16_front, toy16_cipher, HoldsInEachSlot};

/// The worked ciphers keep the rules of a file, and hold 5 in each slot under every secret. The
/// file of the first begins with these bytes.
pub fn law_of_worked_rows()
    ensures one16_begins { take 72 (head_text one16_cipher ++ word_bytes one16_cipher.words) ≡ one16_front }
    ensures one16_rules { KeepsRules one16_cipher }
    ensures one16_holds { (secret : ℕ → ℤ) → HoldsInEachSlot one16_cipher 5 secret }
    ensures toy16_rules { KeepsRules toy16_cipher }
    ensures toy16_holds { (secret : ℕ → ℤ) → HoldsInEachSlot toy16_cipher 5 secret }
{}
