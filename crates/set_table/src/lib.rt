//! The five parameter sets, each a row of one table: degree, plaintext modulus, data moduli,
//! special modulus and auxiliary base. Neither secrecy nor agreement with a published table is
//! claimed for these numbers.
#![tactic(auto)]

ghost use Rattle.std.specs.Prelude.{◌≡◌, ◌<◌, ◌↔◌, length, slice_index, Some, IsNone, ◌≢◌};
ghost use Rattle.set_table.specs.declared.SetName.{SetName};
ghost use Rattle.set_table.specs.Sets.{name_of, set_named, number_of, set_numbered, sets, degree_of, plain_of, data_of, special_of, aux_count_of, aux_of, m_sk, gamma};

/// A parameter set. Its degree is the number of coefficients of a ring element, and its data
/// moduli are the moduli of a ciphertext's rows.
#[derive(Clone, Copy, PartialEq, Eq, Debug)]
pub enum SetName {
    One16,
    Toy16,
    S4096,
    S8192,
    S16384,
}

/// All sets, in the order of their numbers.
pub const SETS: [SetName; 5] = [
    SetName::One16,
    SetName::Toy16,
    SetName::S4096,
    SetName::S8192,
    SetName::S16384,
];

/// What a switching key is for: `Relin` takes a ciphertext of three parts to one of two, and
/// `Turn` brings the turned ciphertext back under the secret.
#[derive(Clone, Copy, PartialEq, Eq, Debug)]
pub enum KeyKind {
    Relin,
    Turn,
}

/// The modulus beside the auxiliary base with which a number is brought back to the data moduli
/// exactly (`m_sk` in Bajard, Eynard, Hasan and Zucca 2016). It is the same for all sets.
pub const M_SK: u64 = 0x7f_ffff_fef0_0001;

/// The modulus beside the plaintext modulus with which decryption rounds (`γ` in Bajard, Eynard,
/// Hasan and Zucca 2016). It is the same for all sets.
pub const GAMMA: u64 = 0xff_ffff_fff7_0001;

const ONE16_DATA: [u64; 1] = [0x7f_ffff_ffe9_0001];

const TOY16_DATA: [u64; 2] = [0x7ff_fffd_8001, 0x7ff_fffc_8001];

const S4096_DATA: [u64; 2] = [0xf_fffe_e001, 0xf_fffc_4001];

const S8192_DATA: [u64; 4] = [
    0x7ff_fffd_8001,
    0x7ff_fffc_8001,
    0xfff_ffff_c001,
    0xfff_fff6_c001,
];

const S16384_DATA: [u64; 8] = [
    0xffff_fffd_8001,
    0xffff_fffa_0001,
    0xffff_fff0_0001,
    0x1_ffff_fff6_8001,
    0x1_ffff_fff5_0001,
    0x1_ffff_ffee_8001,
    0x1_ffff_ffea_0001,
    0x1_ffff_ffe8_8001,
];

const AUXILIARY: [u64; 7] = [
    0x7f_ffff_ffbf_0001,
    0x7f_ffff_ffbd_0001,
    0x7f_ffff_ffba_0001,
    0x7f_ffff_ffaa_0001,
    0x7f_ffff_ffa5_0001,
    0x7f_ffff_ff9f_0001,
    0x7f_ffff_ff7e_0001,
];

impl SetName {
    /// The set of this name in scripts, commands and printed lines.
    pub fn from_text(text: &str) -> Option<SetName>
        ensures some { (set : SetName) → (result ≡ Some set) ↔ (text.now ≡ name_of set) }
        ensures none { IsNone result ↔ ((set : SetName) → text.now ≢ name_of set) }
        ensures named { result ≡ set_named text.now }
    {
        match text {
            "one16" => Some(SetName::One16),
            "toy16" => Some(SetName::Toy16),
            "s4096" => Some(SetName::S4096),
            "s8192" => Some(SetName::S8192),
            "s16384" => Some(SetName::S16384),
            _ => None,
        }
    }

    /// The set of this name, which is given by its bytes.
    pub fn from_bytes(name: &[u8]) -> Option<SetName>
        ensures { result ≡ set_named name.now }
    {
        SETS.iter()
            .find(|set| name == set.text().as_bytes())
            .copied()
    }

    pub fn text(self) -> &'static str
        ensures { result.now ≡ name_of self }
    {
        match self {
            SetName::One16 => "one16",
            SetName::Toy16 => "toy16",
            SetName::S4096 => "s4096",
            SetName::S8192 => "s8192",
            SetName::S16384 => "s16384",
        }
    }

    /// The set of this number in files.
    pub fn from_number(number: u8) -> Option<SetName>
        ensures some { (set : SetName) → (result ≡ Some set) ↔ (number ≡ number_of set) }
        ensures none { IsNone result ↔ (4 < number) }
        ensures numbered { result ≡ set_numbered number }
    {
        match number {
            0 => Some(SetName::One16),
            1 => Some(SetName::Toy16),
            2 => Some(SetName::S4096),
            3 => Some(SetName::S8192),
            4 => Some(SetName::S16384),
            _ => None,
        }
    }

    pub fn number(self) -> u8
        ensures { result ≡ number_of self }
    {
        match self {
            SetName::One16 => 0,
            SetName::Toy16 => 1,
            SetName::S4096 => 2,
            SetName::S8192 => 3,
            SetName::S16384 => 4,
        }
    }

    /// The number n of coefficients, a power of two.
    pub fn degree(self) -> usize
        ensures { result ≡ degree_of self }
    {
        match self {
            SetName::One16 | SetName::Toy16 => 16,
            SetName::S4096 => 4096,
            SetName::S8192 => 8192,
            SetName::S16384 => 16384,
        }
    }

    /// The plaintext modulus t.
    pub fn plain(self) -> u64
        ensures { result ≡ plain_of self }
    {
        match self {
            SetName::One16 | SetName::Toy16 => 257,
            SetName::S4096 | SetName::S8192 | SetName::S16384 => 65537,
        }
    }

    pub fn data_count(self) -> usize
        ensures { result ≡ length (data_of self) }
    {
        self.data().len()
    }

    /// The number of moduli of the auxiliary base, without `M_SK`.
    pub fn aux_count(self) -> usize
        ensures count { result ≡ aux_count_of self }
        ensures listed { result ≡ length (aux_of self) }
    {
        match self {
            SetName::One16 | SetName::Toy16 | SetName::S4096 => 1,
            SetName::S8192 => 3,
            SetName::S16384 => 7,
        }
    }

    pub fn data_modulus(self, i: usize) -> u64
        requires { i < length (data_of self) }
        ensures { result ≡ slice_index (data_of self) i }
    {
        self.data()[i]
    }

    pub fn aux_modulus(self, i: usize) -> u64
        requires { i < length (aux_of self) }
        ensures { result ≡ slice_index (aux_of self) i }
    {
        AUXILIARY[i]
    }

    /// The special modulus P of key switching. A set without one has no switching keys.
    pub fn special(self) -> Option<u64>
        ensures { result ≡ special_of self }
    {
        match self {
            SetName::One16 => None,
            SetName::Toy16 | SetName::S8192 => Some(0xfff_ffeb_c001),
            SetName::S4096 => Some(0x1f_fffe_0001),
            SetName::S16384 => Some(0x1_ffff_ffe4_8001),
        }
    }

    fn data(self) -> &'static [u64]
        ensures { result.now ≡ data_of self }
    {
        match self {
            SetName::One16 => &ONE16_DATA,
            SetName::Toy16 => &TOY16_DATA,
            SetName::S4096 => &S4096_DATA,
            SetName::S8192 => &S8192_DATA,
            SetName::S16384 => &S16384_DATA,
        }
    }
}

/// The constants are the table's entries.
pub fn constants_are_listed()
    ensures m_sk { M_SK ≡ m_sk }
    ensures gamma { GAMMA ≡ gamma }
    ensures sets { SETS ≡ sets }
{}

#[cfg(test)]
mod tests {
    use super::*;

    /// A row of the table with its moduli in decimal digits, so that a slip in the hexadecimal
    /// digits shows.
    struct Row {
        set: SetName,
        text: &'static str,
        degree: usize,
        plain: u64,
        data_moduli: &'static [u64],
        special: Option<u64>,
        aux_count: usize,
    }

    const ROWS: [Row; 5] = [
        Row {
            set: SetName::One16,
            text: "one16",
            degree: 16,
            plain: 257,
            data_moduli: &[36028797017456641],
            special: None,
            aux_count: 1,
        },
        Row {
            set: SetName::Toy16,
            text: "toy16",
            degree: 16,
            plain: 257,
            data_moduli: &[8796092858369, 8796092792833],
            special: Some(17592184717313),
            aux_count: 1,
        },
        Row {
            set: SetName::S4096,
            text: "s4096",
            degree: 4096,
            plain: 65537,
            data_moduli: &[68719403009, 68719230977],
            special: Some(137438822401),
            aux_count: 1,
        },
        Row {
            set: SetName::S8192,
            text: "s8192",
            degree: 8192,
            plain: 65537,
            data_moduli: &[8796092858369, 8796092792833, 17592186028033, 17592185438209],
            special: Some(17592184717313),
            aux_count: 3,
        },
        Row {
            set: SetName::S16384,
            text: "s16384",
            degree: 16384,
            plain: 65537,
            data_moduli: &[
                281474976546817,
                281474976317441,
                281474975662081,
                562949952798721,
                562949952700417,
                562949952274433,
                562949951979521,
                562949951881217,
            ],
            special: Some(562949951619073),
            aux_count: 7,
        },
    ];

    const AUXILIARY_DECIMAL: [u64; 7] = [
        36028797014704129,
        36028797014573057,
        36028797014376449,
        36028797013327873,
        36028797013000193,
        36028797012606977,
        36028797010444289,
    ];

    #[test]
    fn each_call_gives_the_table(rt: HostRuntime) {
        for (number, row) in ROWS.iter().enumerate() {
            let set = row.set;
            assert_eq!(rt; SetName::from_text(row.text), Some(set));
            assert_eq!(rt; set.text(), row.text);
            assert_eq!(rt; set.number() as usize, number);
            assert_eq!(rt; SetName::from_number(set.number()), Some(set));
            assert_eq!(rt; SetName::from_bytes(row.text.as_bytes()), Some(set));
            assert_eq!(rt; SETS[number], set);
            assert_eq!(rt; set.degree(), row.degree);
            assert_eq!(rt; set.plain(), row.plain);
            assert_eq!(rt; set.special(), row.special);
            assert_eq!(rt; set.data_count(), row.data_moduli.len());
            assert_eq!(rt; set.aux_count(), row.aux_count);
            for i in 0..set.data_count() {
                assert_eq!(rt; set.data_modulus(i), row.data_moduli[i]);
            }
            for i in 0..set.aux_count() {
                assert_eq!(rt; set.aux_modulus(i), AUXILIARY_DECIMAL[i]);
            }
        }
        assert_eq!(rt; M_SK, 36028797001138177);
        assert_eq!(rt; GAMMA, 72057594037338113);
        assert_eq!(rt; SetName::from_text("S4096"), None);
        assert_eq!(rt; SetName::from_number(5), None);
    }
}
