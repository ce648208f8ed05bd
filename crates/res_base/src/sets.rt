//! The roots of the parameter sets, and the proof that the numbers of each set fit together.

ghost use Rattle.std.specs.Prelude.{◌≡◌, ◌-◌, ◌%◌, ◌^◌, ◌<◌, ◌↔◌, Contains, IsSome, IfSome, find, ◌==◌};
ghost use Rattle.std.specs.Option.{option_map};
ghost use Rattle.set_table.specs.Sets.{degree_of, transform_moduli_of};
ghost use Rattle.set_table.specs.Roots.{root_of, roots_of};
ghost use Rattle.res_base.specs.Sizes.{FitTogether};

use set_table::SetName;
use std::marker::Model;

const ONE16_ROOTS: [(u64, u64); 4] = [
    (0x7f_ffff_ffe9_0001, 0x18_d38c_d151_ea0c),
    (0x7f_ffff_ffbf_0001, 0x6_b952_fe8b_fe4d),
    (0x7f_ffff_fef0_0001, 0x29_0256_4ad6_ce25),
    (257, 136),
];

const TOY16_ROOTS: [(u64, u64); 6] = [
    (0x7ff_fffd_8001, 0x27f_5751_698c),
    (0x7ff_fffc_8001, 0x4dd_4b8c_7bae),
    (0xfff_ffeb_c001, 0xde7_589a_195d),
    (0x7f_ffff_ffbf_0001, 0x6_b952_fe8b_fe4d),
    (0x7f_ffff_fef0_0001, 0x29_0256_4ad6_ce25),
    (257, 136),
];

const S4096_ROOTS: [(u64, u64); 6] = [
    (0xf_fffe_e001, 0x1_4aa0_5dac),
    (0xf_fffc_4001, 0x9_8ced_3375),
    (0x1f_fffe_0001, 0xe_4c43_dbc9),
    (0x7f_ffff_ffbf_0001, 0x1d_b554_0f92_12fe),
    (0x7f_ffff_fef0_0001, 0x69_1e28_8121_4e96),
    (65537, 6561),
];

const S8192_ROOTS: [(u64, u64); 10] = [
    (0x7ff_fffd_8001, 0x44d_c5f9_ed7f),
    (0x7ff_fffc_8001, 0x37c_875f_69e1),
    (0xfff_ffff_c001, 0xc15_4e8b_017b),
    (0xfff_fff6_c001, 0x47f_225a_d4f7),
    (0xfff_ffeb_c001, 0xd76_fb93_868a),
    (0x7f_ffff_ffbf_0001, 0x71_6beb_078b_3eb9),
    (0x7f_ffff_ffbd_0001, 0x79_c074_ad30_7d6a),
    (0x7f_ffff_ffba_0001, 0x1_4b71_e819_7469),
    (0x7f_ffff_fef0_0001, 0x6_f977_d236_90b6),
    (65537, 81),
];

const S16384_ROOTS: [(u64, u64); 18] = [
    (0xffff_fffd_8001, 0x2cd9_a219_5246),
    (0xffff_fffa_0001, 0xb53b_a2d6_a9f8),
    (0xffff_fff0_0001, 0x7232_b23d_32da),
    (0x1_ffff_fff6_8001, 0x204a_2b25_151f),
    (0x1_ffff_fff5_0001, 0x1_ab70_bea2_a381),
    (0x1_ffff_ffee_8001, 0xae4a_d9c2_ccf3),
    (0x1_ffff_ffea_0001, 0xced8_f0d9_3cb8),
    (0x1_ffff_ffe8_8001, 0x1914_4e8a_09ea),
    (0x1_ffff_ffe4_8001, 0x1_03ad_cf27_ae5c),
    (0x7f_ffff_ffbf_0001, 0x54_3d45_51b3_758b),
    (0x7f_ffff_ffbd_0001, 0x10_3630_23c3_2356),
    (0x7f_ffff_ffba_0001, 0x16_8fb3_cc02_c9e6),
    (0x7f_ffff_ffaa_0001, 0x21_8fce_e783_18d5),
    (0x7f_ffff_ffa5_0001, 0x77_d4cd_a4ca_61ec),
    (0x7f_ffff_ff9f_0001, 0x5_5a8f_972d_52ea),
    (0x7f_ffff_ff7e_0001, 0x4c_ece2_a44c_acee),
    (0x7f_ffff_fef0_0001, 0xd_8da8_faa6_cc52),
    (65537, 9),
];

/// The roots of a parameter set. For a set of degree n, the root of a modulus p is a number whose
/// n-th power is -1 modulo p.
#[derive(Clone, Copy)]
pub struct SetTable {
    set: SetName,
}

impl Model for SetTable {
    ghost use Rattle.set_table.specs.declared.SetName.{SetName};

    ghost Value = { SetName };

    ghost view = { λ t. t.set };

    ghost inverse = { λ s. record { set = s } };
}

/// The table of a set, whose numbers fit together.
pub fn table(set: SetName) -> SetTable
    ensures value { result ≡ set }
    ensures sizes { FitTogether set }
{
    SetTable { set }
}

impl SetTable {
    /// The listed root of `q`, which is None for a number that is no data modulus, special
    /// modulus, modulus of the auxiliary base, `M_SK` or plaintext modulus of the set.
    pub fn root(&self, q: u64) -> Option<u64>
        ensures value { result ≡ root_of self.now q }
        ensures listed { IsSome result ↔ Contains (transform_moduli_of self.now) q }
        ensures power { IfSome result (λ psi. psi ^ degree_of self.now % q ≡ q - 1) }
        ensures below { IfSome result (λ psi. psi < q) }
    {
        find_root(self.roots(), q)
    }

    fn roots(&self) -> &'static [(u64, u64)]
        ensures { result.now ≡ roots_of self.now }
    {
        match self.set {
            SetName::One16 => &ONE16_ROOTS,
            SetName::Toy16 => &TOY16_ROOTS,
            SetName::S4096 => &S4096_ROOTS,
            SetName::S8192 => &S8192_ROOTS,
            SetName::S16384 => &S16384_ROOTS,
        }
    }
}

fn find_root(roots: &[(u64, u64)], q: u64) -> Option<u64>
    ensures { result ≡ option_map (λ e. e.1) (find (λ e. e.0 == q) roots.now) }
{
    roots.iter().find(|(p, _)| *p == q).map(|(_, psi)| *psi)
}

#[cfg(test)]
mod tests {
    use super::*;
    use set_table::M_SK;
    use std::process::Abort;
    use std::test::Fail;
    use word_mod::Modulus;

    /// The first of x^((p - 1) / (2n)) modulo p, for x = 2, 3, 4 and so on, whose n-th power is
    /// p - 1.
    fn root_by_rule(rt: &impl Abort, p: u64, n: u64) -> Result<u64, Fail> {
        let m = Modulus::new(p)?;
        assert!(rt; n > 0);
        assert!(rt; m.value() > 100);
        let exponent = (m.value() - 1) / n / 2;
        for x in 2..100 {
            let psi = m.pow(x, exponent);
            if m.pow(psi, n) == m.value() - 1 {
                return Ok(psi);
            }
        }
        Err("no root by the rule")?
    }

    fn has_root_by_rule(rt: &impl Abort, set: SetName, p: u64) -> Result<(), Fail> {
        let by_rule = root_by_rule(rt, p, set.degree() as u64)?;
        assert_eq!(rt; table(set).root(p), Some(by_rule), "of {p}");
        Ok(())
    }

    #[test]
    fn listed_roots_follow_the_rule(rt: HostRuntime) -> Result<(), Fail> {
        for set in [
            SetName::One16,
            SetName::Toy16,
            SetName::S4096,
            SetName::S8192,
            SetName::S16384,
        ] {
            for i in 0..set.data_count() {
                has_root_by_rule(&rt, set, set.data_modulus(i))?;
            }
            if let Some(p) = set.special() {
                has_root_by_rule(&rt, set, p)?;
            }
            for i in 0..set.aux_count() {
                has_root_by_rule(&rt, set, set.aux_modulus(i))?;
            }
            has_root_by_rule(&rt, set, M_SK)?;
            has_root_by_rule(&rt, set, set.plain())?;
        }
        Ok(())
    }

    #[test]
    fn roots_of_plaintext_moduli(rt: HostRuntime) {
        for (set, root) in [
            (SetName::One16, 136),
            (SetName::S4096, 6561),
            (SetName::S8192, 81),
            (SetName::S16384, 9),
        ] {
            assert_eq!(rt; table(set).root(set.plain()), Some(root));
            assert_eq!(rt; table(set).root(7), None);
        }
    }
}
