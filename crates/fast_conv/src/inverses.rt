//! Inverses of what a conversion divides by.

ghost use Rattle.std.specs.Prelude.{◌≡◌, ◌*◌, ◌%◌, ◌<◌};
ghost use Rattle.std.specs.Int.{IsGcd};
ghost use Rattle.set_table.specs.Sets.{m_tilde};
ghost use Rattle.ring_law.specs.Moduli.{product};

use res_base::Base;
use word_mod::Modulus;

/// The modulus of the Montgomery lift beside those of its bases (`m~` of Bajard, Eynard, Hasan and
/// Zucca 2016).
pub const M_TILDE: u64 = 1 << 32;

/// The inverse modulo `p` of the base's product.
pub fn inverse_of_product(base: &Base, p: &Modulus) -> u64
    requires { IsGcd (product base.now) p.now 1 }
    ensures value { result * product base.now % p.now ≡ 1 }
    ensures below { result < p.now }
{
    p.inverse(base.product_mod(p)).unwrap()
}

/// The inverse modulo `p` of `M_TILDE`.
pub fn inverse_of_m_tilde(p: Modulus) -> u64
    ensures value { result * m_tilde % p ≡ 1 }
    ensures below { result < p }
{
    p.inverse(M_TILDE).unwrap()
}
