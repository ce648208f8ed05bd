//! The factors of a product, lifted and transformed.

ghost use Rattle.std.specs.Prelude.{◌≡◌, ℕ, ◌+◌, ◌*◌, ◌≤◌, ℤ, length};
ghost use Rattle.set_table.specs.Sets.{data_of, degree_of, m_tilde};
ghost use Rattle.ring_law.specs.Rows.{Represents};
ghost use Rattle.rns_poly.specs.Rows.{AreReduced};
ghost use Rattle.rns_poly.specs.Transforms.{AreTransforms};
ghost use Rattle.bfv_model.specs.Conversions.{IsMontgomeryLift};
ghost use Rattle.bfv_model.specs.Holds.{listed_word};
ghost use Rattle.bfv_params.specs.Ciphers.{IsCipherOf};
ghost use Rattle.bfv_params.specs.Contexts.{data_in, modulus_in};
ghost use Rattle.bfv_params.specs.Kept.{IsCipher};
ghost use Rattle.bfv_params.specs.Rows.{ReducedInTurn};
ghost use Rattle.bfv_tensor.specs.Rows.{AreLiftedParts, part_rows, product_moduli, product_transforms};

use bfv_params::{Cipher, Context, transform_into};
use rns_poly::{View, ViewMut, forward_all, split};

/// The number of rows of a part: one for each data modulus and for each auxiliary modulus.
pub fn rows_of_part<const N: usize>(ctx: &Context<N>) -> usize
    ensures value { result ≡ part_rows (ctx.now) }
    ensures within { (ctx.now).level ≤ length (data_of (ctx.now).set) }
    ensures degree { N ≡ degree_of (ctx.now).set }
    ensures limit { N ≤ 32768 }
{
    ctx.data_moduli().len() + ctx.aux_moduli().len()
}

/// Writes the transforms of the lifted first two parts of a ciphertext, the rows of one part after those of the other.
pub fn transform_parts<const N: usize>(ctx: &Context<N>, cipher: &Cipher<N>, out: ViewMut<'_, N>)
    requires cipher_of { IsCipherOf (ctx.now) (cipher.now) }
    requires count { length out.old ≡ 2 * part_rows (ctx.now) }
    ensures lifted { AreLiftedParts N (ctx.now) (listed_word (ctx.now).level (cipher.now).rows) out.new }
    ensures reduced { ReducedInTurn N (part_rows (ctx.now)) (product_moduli (ctx.now)) out.new }
    ensures kept { IsCipher N (cipher.now).set (cipher.now).room (cipher.now).level (cipher.now).parts (cipher.now).rows }
{
    let (first, second) = split(out, rows_of_part(ctx));
    transform_part(ctx, cipher.part(0), first);
    transform_part(ctx, cipher.part(1), second);
}

/// Writes the transforms of a lifted part, first those modulo the data moduli.
fn transform_part<const N: usize>(ctx: &Context<N>, part: View<'_, N>, out: ViewMut<'_, N>)
    requires part_count { length part.rows.now ≡ (ctx.now).level }
    requires part_reduced { AreReduced N (data_in (ctx.now)) part.rows.now }
    requires count { length out.old ≡ part_rows (ctx.now) }
    ensures lifted { (x : ℕ → ℤ) → Represents N (data_in (ctx.now)) part.entry.rows.now x → (y : ℕ → ℤ)
        × IsMontgomeryLift N (modulus_in (ctx.now)) m_tilde (length (data_in (ctx.now))) x y
        × AreTransforms (product_transforms (ctx.now)) out.new (λ i. y) }
    ensures reduced { AreReduced N (product_moduli (ctx.now)) out.new }
{
    let (data, wide) = split(out, ctx.data_moduli().len());
    ctx.lift_conv().lift(part.slice(), &mut *wide);
    forward_all(ctx.aux_transforms(), wide);
    transform_into(ctx, part, data);
}
