//! The products of a cipher's parts, scaled by t/q and brought back to the data moduli.

ghost use Rattle.std.specs.Prelude.{◌≡◌, ◌⊎◌, ℕ, ◌+◌, ◌*◌, ◌<◌, ◌≤◌, [], length, slice_index_or};
ghost use Rattle.bfv_params.specs.Ciphers.{IsCipherOf};
ghost use Rattle.bfv_tensor.specs.Rows.{AreSmallParts, IsScaledPart, IsSmallPart, part_rows};

use crate::factors::rows_of_part;
use bfv_params::{Cipher, Context};
use rns_poly::{View, ViewMut, split};

/// Writes the three parts of a ciphertext: t/q times the polynomials that the rows represent, those of one part after those
/// of another.
pub fn write_parts<const N: usize>(ctx: &Context<N>, rows: ViewMut<'_, N>, out: &mut Cipher<N>)
    requires out_of { IsCipherOf (ctx.now) (out.old) }
    requires count { length rows.old ≡ 3 * part_rows (ctx.now) }
    requires small { AreSmallParts N (ctx.now) rows.old }
    ensures of_context { IsCipherOf (ctx.now) (out.new) }
    ensures room { (out.new).room ≡ (out.old).room }
    ensures parts { (out.new).parts ≡ 3 }
    ensures words { (d : AreSmallParts N (ctx.now) rows.old) → (j : ℕ) → j < 3 → IsScaledPart N (ctx.now) (out.new) j (d.part j) }
{
    let count = rows_of_part(ctx);
    out.set_parts(3);
    for j in 0..3 {
        write_part(ctx, j, &mut rows[j * count..(j + 1) * count], &mut *out);
    }
}

/// Writes one part.
fn write_part<const N: usize>(ctx: &Context<N>, j: usize, rows: ViewMut<'_, N>, out: &mut Cipher<N>)
    requires out_of { IsCipherOf (ctx.now) (out.old) }
    requires out_parts { (out.old).parts ≡ 3 }
    requires place { j < 3 }
    requires count { length rows.old ≡ part_rows (ctx.now) }
    requires small { IsSmallPart N (ctx.now) rows.old }
    ensures of_context { IsCipherOf (ctx.now) (out.new) }
    ensures room { (out.new).room ≡ (out.old).room }
    ensures parts { (out.new).parts ≡ 3 }
    ensures words { (d : IsSmallPart N (ctx.now) rows.old) → IsScaledPart N (ctx.now) (out.new) j d.part }
    ensures others { (i : ℕ) → (i < j * (ctx.now).level) ⊎ (j * (ctx.now).level + (ctx.now).level ≤ i) →
        slice_index_or (out.new).rows i [] ≡ slice_index_or (out.old).rows i [] }
{
    let (data, wide) = split(rows, ctx.data_moduli().len());
    ctx.floor_conv().floor(data, &mut *wide);
    ctx.back_conv().back(wide, &mut *data);
    out.set_part(j, View { rows: data });
}
