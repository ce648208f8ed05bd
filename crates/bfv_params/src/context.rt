//! All that the calls of the scheme need of a set.

ghost use Rattle.std.specs.Prelude.{◌≡◌, ◌+◌, ◌*◌, ◌<◌, ◌≤◌, length, map, slice_index, slice_index_or, [], Some, IsSome, IfOk};
ghost use Rattle.set_table.specs.Sets.{degree_of, data_of, plain_of, special_of, gamma};
ghost use Rattle.ring_law.specs.Moduli.{product};
ghost use Rattle.ring_law.specs.Rows.{IsReduced, Represents, RowRepresents, natural_polynomial};
ghost use Rattle.rns_poly.specs.Rows.{AreReduced};
ghost use Rattle.rns_poly.specs.Transforms.{moduli_of};
ghost use Rattle.bfv_model.specs.Plaintexts.{scaled_plain};
ghost use Rattle.bfv_params.specs.Contexts.{data_in, transforms_in, modulus_in, scratch_rows_in};
ghost use Rattle.bfv_params.specs.Moduli.{key_at, wide_of};
ghost use Rattle.bfv_params.specs.Transforms.{transform_of};
ghost use Rattle.bfv_params.specs.Converters.{lift_at, floor_at, back_at, plain_at};

use crate::converters::Converters;
use crate::moduli::Moduli;
use crate::scaled::{scale_row, scale_rows};
use crate::transforms::Transforms;
use fast_conv::{DropLast, FastConv, FastFloor, MontLift, SkBack};
use neg_ntt::Transform;
use res_base::Base;
use rns_poly::ViewMut;
use set_table::SetName;
use std::alloc::{AllocError, Global};
use std::marker::Model;
use word_mod::Modulus;

/// The moduli of a set, with the transforms modulo them and the conversions between them. The
/// level is the number of data moduli in use.
#[derive(Drop)]
pub struct Context<const N: usize> {
    set: SetName,
    moduli: Moduli,
    transforms: Transforms<N>,
    converters: Converters,
}

impl<const N: usize> Model for Context<N> {
    ghost use Rattle.std.specs.Prelude.{◌≡◌, length};
    ghost use Rattle.set_table.specs.Sets.{degree_of};
    ghost use Rattle.bfv_params.specs.Values.{ContextValue};

    ghost Value = { ContextValue };

    ghost use Rattle.bfv_params.specs.ContextKept.{HasConverters, HasModuli, HasTransforms};

    ghost view = { λ c. record { set = c.set; level = length c.moduli.base } };

    ghost invariant = { λ c. (N ≡ degree_of c.set) × HasModuli c.set (length c.moduli.base) c.moduli
        × HasTransforms c.set (length c.moduli.base) c.transforms.keys.items c.transforms.wide.items c.transforms.plain
        × HasConverters c.set (length c.moduli.base) c.converters };
}

impl<const N: usize> Context<N> {
    /// The context of a set, with all its data moduli. The error is want of memory.
    pub fn new(alloc: Global, set: SetName) -> Result<Context<N>, AllocError>
        requires { N ≡ degree_of set }
        ensures { IfOk result (λ c. c ≡ record { set = set; level = length (data_of set) }) }
    {
        Context::at_level(alloc, set, set.data_count())
    }

    /// The context of a set with the first of its data moduli.
    fn at_level(alloc: Global, set: SetName, level: usize) -> Result<Context<N>, AllocError>
        requires degree { N ≡ degree_of set }
        requires some { 0 < level }
        requires within { level ≤ length (data_of set) }
        ensures { IfOk result (λ c. c ≡ record { set = set; level = level }) }
    {
        let moduli = Moduli::new(alloc, set, level)?;
        Ok(Context {
            set,
            transforms: Transforms::new(alloc, set, &moduli)?,
            converters: Converters::new(alloc, set, &moduli)?,
            moduli,
        })
    }

    pub fn set(&self) -> SetName
        ensures value { result ≡ (self.now).set }
        ensures degree { N ≡ degree_of (self.now).set }
    {
        self.set
    }

    /// The number of rows that each call of the scheme finds enough to work in.
    pub fn scratch_rows(&self) -> usize
        ensures value { result ≡ scratch_rows_in (self.now) }
        ensures degree { N ≡ degree_of (self.now).set }
    {
        8 * (self.moduli.base.len() + self.set.aux_count() + 2)
    }

    /// The data moduli, whose product is q.
    pub fn data_moduli(&self) -> &[Modulus]
        ensures value { result.now ≡ data_in (self.now) }
        ensures count { length result.now ≡ (self.now).level }
        ensures some { 0 < (self.now).level }
        ensures within { (self.now).level ≤ length (data_of (self.now).set) }
        ensures degree { N ≡ degree_of (self.now).set }
        ensures limit { N ≤ 32768 }
    {
        &self.moduli.keys[..self.moduli.base.len()]
    }

    /// The data moduli, and then the special modulus where the set has one.
    pub fn key_moduli(&self) -> &[Modulus]
        ensures { result.now ≡ key_at (self.now).set (self.now).level }
    {
        &self.moduli.keys
    }

    /// The auxiliary base B, and then the modulus beside it with which a number is brought back.
    pub fn aux_moduli(&self) -> &[Modulus]
        ensures { result.now ≡ wide_of (self.now).set }
    {
        &self.moduli.wide
    }

    /// The plaintext modulus t.
    pub fn plain_modulus(&self) -> &Modulus
        ensures { result.now ≡ plain_of (self.now).set }
    {
        &self.moduli.plain
    }

    /// The modulus by which decryption rounds.
    pub fn gamma(&self) -> &Modulus
        ensures { result.now ≡ gamma }
    {
        &self.moduli.gamma
    }

    /// The base of the data moduli.
    pub fn data_base(&self) -> &Base
        ensures { result.now ≡ data_in (self.now) }
    {
        &self.moduli.base
    }

    /// The transforms modulo each data modulus.
    pub fn data_transforms(&self) -> &[Transform<N>]
        ensures value { result.now ≡ transforms_in (self.now) }
        ensures count { length result.now ≡ (self.now).level }
        ensures moduli { moduli_of result.now ≡ data_in (self.now) }
        ensures degree { N ≡ degree_of (self.now).set }
        ensures limit { N ≤ 32768 }
    {
        &self.transforms.keys[..self.moduli.base.len()]
    }

    /// The transforms modulo each of the moduli of switching keys.
    pub fn key_transforms(&self) -> &[Transform<N>]
        ensures { result.now ≡ map (transform_of (self.now).set) (key_at (self.now).set (self.now).level) }
    {
        &self.transforms.keys
    }

    /// The transforms modulo each auxiliary modulus.
    pub fn aux_transforms(&self) -> &[Transform<N>]
        ensures { result.now ≡ map (transform_of (self.now).set) (wide_of (self.now).set) }
    {
        &self.transforms.wide
    }

    /// The transform modulo the plaintext modulus.
    pub fn plain_transform(&self) -> &Transform<N>
        ensures value { result.now ≡ transform_of (self.now).set (plain_of (self.now).set) }
        ensures degree { N ≡ degree_of (self.now).set }
    {
        &self.transforms.plain
    }

    /// The lift from the data moduli to the auxiliary moduli.
    pub fn lift_conv(&self) -> &MontLift
        ensures { result.now ≡ lift_at (self.now).set (self.now).level }
    {
        &self.converters.lift
    }

    /// The division of t times a number by q, from the data moduli to the auxiliary moduli.
    pub fn floor_conv(&self) -> &FastFloor
        ensures { result.now ≡ floor_at (self.now).set (self.now).level }
    {
        &self.converters.floor
    }

    /// The way back from the auxiliary moduli to the data moduli.
    pub fn back_conv(&self) -> &SkBack
        ensures { result.now ≡ back_at (self.now).set (self.now).level }
    {
        &self.converters.back
    }

    /// The conversion from the data moduli to t and the modulus by which decryption rounds.
    pub fn plain_conv(&self) -> &FastConv
        ensures { result.now ≡ plain_at (self.now).set (self.now).level }
    {
        &self.converters.plain
    }

    /// The division of rows under the moduli of switching keys by the special modulus.
    pub fn drop_conv(&self) -> &DropLast
        requires { IsSome (special_of (self.now).set) }
        ensures kept { (result.now).kept ≡ data_in (self.now) }
        ensures dropped { special_of (self.now).set ≡ Some (result.now).dropped }
    {
        match &self.converters.special {
            Some(drop) => drop,
            None => unreachable!(),
        }
    }

    /// Writes the rows of the scaled plaintext: for each coefficient m the whole number nearest to
    /// `q * m / t` (Fan and Vercauteren 2012).
    pub fn scaled_into(&self, plain: &[u64; N], out: ViewMut<'_, N>)
        requires below { IsReduced N (plain_of (self.now).set) plain.now }
        requires rows { length out.old ≡ (self.now).level }
        ensures represents { Represents N (data_in (self.now)) out.new
            (natural_polynomial (λ k. scaled_plain (modulus_in (self.now)) (plain_of (self.now).set) (slice_index plain.now k))) }
        ensures reduced { AreReduced N (data_in (self.now)) out.new }
    {
        scale_rows(&self.moduli.base, &self.moduli.plain, plain, out);
    }

    /// Writes the row of the scaled plaintext under data modulus i alone.
    pub fn scaled_row_into(&self, i: usize, plain: &[u64; N], out: ViewMut<'_, N>)
        requires place { i < (self.now).level }
        requires below { IsReduced N (plain_of (self.now).set) plain.now }
        requires one { length out.old ≡ 1 }
        ensures represents { RowRepresents N (slice_index (data_in (self.now)) i) (slice_index_or out.new 0 [])
            (natural_polynomial (λ k. scaled_plain (modulus_in (self.now)) (plain_of (self.now).set) (slice_index plain.now k))) }
        ensures reduced { IsReduced N (slice_index (data_in (self.now)) i) (slice_index_or out.new 0 []) }
    {
        scale_row(&self.moduli.base, i, &self.moduli.plain, plain, &mut out[0]);
    }
}
