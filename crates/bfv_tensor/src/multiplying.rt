//! Products of ciphertexts.

ghost use Rattle.std.specs.Prelude.{◌≡◌, ℕ, ◌+◌, ◌*◌, ◌≤◌, ℤ, length};
ghost use Rattle.set_table.specs.Sets.{plain_of};
ghost use Rattle.ring_law.specs.Polynomials.{AllWithin};
ghost use Rattle.bfv_model.specs.NoiseBounds.{product_bound};
ghost use Rattle.bfv_model.specs.Plaintexts.{plain_product};
ghost use Rattle.bfv_params.specs.Ciphers.{HoldsIn, IsCipherOf};
ghost use Rattle.bfv_params.specs.Contexts.{modulus_in, scratch_rows_in};
ghost use Rattle.bfv_tensor.specs.Products.{IsProductIn};

use crate::factors::{rows_of_part, transform_parts};
use crate::row_products::multiply_parts;
use crate::scaling::write_parts;
use bfv_params::{Cipher, Context};
use rns_poly::{PolyBuf, View, split};

/// Writes the product of two ciphertexts of two parts, which has three. It holds the product of their plaintexts under
/// each ternary secret under which the noise of both is at most a quarter of q. It works in the first rows of `scratch`,
/// and what these hold afterwards isn't said.
pub fn multiply<const N: usize>(
    ctx: &Context<N>,
    a: &Cipher<N>,
    b: &Cipher<N>,
    out: &mut Cipher<N>,
    scratch: &mut PolyBuf<N>,
)
    requires a_of { IsCipherOf (ctx.now) (a.now) }
    requires b_of { IsCipherOf (ctx.now) (b.now) }
    requires out_of { IsCipherOf (ctx.now) (out.old) }
    requires a_parts { (a.now).parts ≡ 2 }
    requires b_parts { (b.now).parts ≡ 2 }
    requires scratch_rows { scratch_rows_in (ctx.now) ≤ length scratch.old }
    ensures of_context { IsCipherOf (ctx.now) (out.new) }
    ensures room { (out.new).room ≡ (out.old).room }
    ensures parts { (out.new).parts ≡ 3 }
    ensures words { IsProductIn N (ctx.now) (a.now) (b.now) (out.new) }
    ensures product { (s : ℕ → ℤ) (m other : ℕ → ℕ) (bound more : ℕ) → AllWithin N 1 s →
        HoldsIn N (ctx.now) (a.now) s m bound → 4 * bound ≤ modulus_in (ctx.now) →
        HoldsIn N (ctx.now) (b.now) s other more → 4 * more ≤ modulus_in (ctx.now) →
        HoldsIn N (ctx.now) (out.new) s (plain_product N (plain_of (ctx.now).set) m other)
        (product_bound N (plain_of (ctx.now).set) (ctx.now).level bound more) }
    ensures scratch_rows { length scratch.new ≡ length scratch.old }
{
    let count = rows_of_part(ctx);
    let (products, rest) = split(scratch.view_mut(), 3 * count);
    let (first, rest) = split(rest, 2 * count);
    let (second, _) = split(rest, 2 * count);
    transform_parts(ctx, a, &mut *first);
    transform_parts(ctx, b, &mut *second);
    multiply_parts(
        ctx,
        View { rows: first },
        View { rows: second },
        &mut *products,
    );
    write_parts(ctx, products, out);
}

/// Writes the product of a ciphertext of two parts with itself, as `multiply` does. Its parts are lifted and transformed once.
pub fn square<const N: usize>(
    ctx: &Context<N>,
    a: &Cipher<N>,
    out: &mut Cipher<N>,
    scratch: &mut PolyBuf<N>,
)
    requires a_of { IsCipherOf (ctx.now) (a.now) }
    requires out_of { IsCipherOf (ctx.now) (out.old) }
    requires a_parts { (a.now).parts ≡ 2 }
    requires scratch_rows { scratch_rows_in (ctx.now) ≤ length scratch.old }
    ensures of_context { IsCipherOf (ctx.now) (out.new) }
    ensures room { (out.new).room ≡ (out.old).room }
    ensures parts { (out.new).parts ≡ 3 }
    ensures words { IsProductIn N (ctx.now) (a.now) (a.now) (out.new) }
    ensures product { (s : ℕ → ℤ) (m : ℕ → ℕ) (bound : ℕ) → AllWithin N 1 s →
        HoldsIn N (ctx.now) (a.now) s m bound → 4 * bound ≤ modulus_in (ctx.now) →
        HoldsIn N (ctx.now) (out.new) s (plain_product N (plain_of (ctx.now).set) m m)
        (product_bound N (plain_of (ctx.now).set) (ctx.now).level bound bound) }
    ensures scratch_rows { length scratch.new ≡ length scratch.old }
{
    let count = rows_of_part(ctx);
    let (products, rest) = split(scratch.view_mut(), 3 * count);
    let (factor, _) = split(rest, 2 * count);
    transform_parts(ctx, a, &mut *factor);
    let factor = View { rows: factor };
    multiply_parts(ctx, factor, factor, &mut *products);
    write_parts(ctx, products, out);
}
