//! The transform of rows of residues, and the way back.

ghost use Rattle.std.specs.Prelude.{◌≡◌, ℕ, ℤ, ◌+◌, ◌-◌, ◌*◌, ◌%◌, ◌^◌, ◌<◌, ◌≤◌, ◌≢◌, ◌↔◌, List, length, slice_index, IfOk, Err};
ghost use Rattle.ring_law.specs.Rows.{IsReduced, RowRepresents, row_polynomial};
ghost use Rattle.lane_rows.specs.Rows.{RowBelow};
ghost use Rattle.neg_ntt.specs.Butterflies.{ByMiddleRow};
ghost use Rattle.neg_ntt.specs.Layers.{AreLayerRoots, IsJoined, IsJoinedLast, IsSplit};
ghost use Rattle.neg_ntt.specs.Parameters.{AreParameters, IsDegree, IsTransformBy, layer_half};

use crate::layers::{
    forward_layer, forward_two_layers, inverse_last_layer, inverse_last_two_layers,
    inverse_two_layers,
};
use crate::roots::{layer_factors, powers_reversed};
use lane_rows::fold_row;
use std::alloc::{AllocError, Global};
use std::marker::Model;
use thiserror::Error;
use word_mod::{Factor, Modulus};

/// Why there is no transform.
#[derive(Debug, Drop, PartialEq, Eq, Error)]
pub enum TransformFault {
    /// The power of the root with the degree as exponent is not -1.
    #[error("no root")]
    NoRoot,
    #[error("memory")]
    Memory,
}

/// The transform of degree N modulo q: its table of powers of the root, in the order in which the layers take them, the inverse
/// of N, and the product of that with the root of the last layer back. The way back takes the same table from its end, as the
/// inverses of a layer's roots are their negatives in that order.
#[derive(Drop)]
pub struct Transform<const N: usize> {
    modulus: Modulus,
    root: u64,
    log_degree: u32,
    roots: Vec<Factor>,
    inverse_degree: Factor,
    scaled_root: Factor,
}

impl<const N: usize> Model for Transform<N> {
    ghost use Rattle.neg_ntt.specs.Parameters.{Parameters};

    ghost Value = { Parameters };

    ghost use Rattle.neg_ntt.specs.Tables.{AreTables};

    ghost view = { λ t. record { modulus = t.modulus; root = t.root; log_degree = t.log_degree } };

    ghost invariant = { λ t. AreTables N (record { modulus = t.modulus; root = t.root; log_degree = t.log_degree })
        t.roots.items t.inverse_degree t.scaled_root };
}

impl<const N: usize> Transform<N> {
    /// The transform of degree N modulo q, the value of `m`, with the root `psi`. The fault is NoRoot where `psi^N` is not -1
    /// modulo q. No modulus has to be prime.
    pub fn new(alloc: Global, m: &Modulus, psi: u64) -> Result<Transform<N>, TransformFault>
        requires degree { IsDegree N }
        requires root_below { psi < m.now }
        ensures modulus { IfOk result (λ t. t.modulus ≡ m.now) }
        ensures root { IfOk result (λ t. t.root ≡ psi) }
        ensures power { IfOk result (λ t. N ≡ 2 ^ t.log_degree) }
        ensures no_root { (result ≡ Err TransformFault.NoRoot) ↔ (psi ^ N % m.now ≢ m.now - 1) }
    {
        if m.pow(psi, N as u64) != m.neg(m.reduce(1)) {
            return Err(TransformFault::NoRoot);
        }
        match Self::with_root(alloc, m, psi) {
            Ok(transform) => Ok(transform),
            Err(_) => Err(TransformFault::Memory),
        }
    }

    /// The tables of a root whose power is -1.
    fn with_root(alloc: Global, m: &Modulus, psi: u64) -> Result<Transform<N>, AllocError>
        requires degree { IsDegree N }
        requires root_below { psi < m.now }
        requires minus_one { psi ^ N % m.now ≡ m.now - 1 }
        ensures modulus { IfOk result (λ t. t.modulus ≡ m.now) }
        ensures root { IfOk result (λ t. t.root ≡ psi) }
        ensures power { IfOk result (λ t. N ≡ 2 ^ t.log_degree) }
    {
        let log_degree = log_of(N);
        let inverse_root = m.pow(psi, 2 * N as u64 - 1);
        let half = m.value() / 2 + 1;
        let inverse_degree = m.pow(half, log_degree as u64);
        let last_root = m.pow(inverse_root, 1 << (log_degree - 1));
        Ok(Transform {
            modulus: *m,
            root: psi,
            log_degree,
            roots: powers_reversed(alloc, m, log_degree, psi)?,
            inverse_degree: m.factor(inverse_degree),
            scaled_root: m.factor(m.mul(inverse_degree, last_root)),
        })
    }

    /// The modulus q of the rows. Whoever asks for it learns what the root and the degree are known to be.
    pub fn modulus(&self) -> &Modulus
        ensures value { result.now ≡ self.now.modulus }
        ensures parameters { AreParameters N self.now }
    {
        &self.modulus
    }

    /// Replaces the N coefficients of a polynomial, residues modulo q, by its transform: the values at the odd powers of the
    /// root, in bit-reversed order. Layer by layer each block of the row becomes two (Cooley and Tukey 1965).
    pub fn forward(&self, row: &mut [u64; N])
        requires { IsReduced N self.now.modulus row.old }
        ensures transform { (a : ℕ → ℤ) → RowRepresents N self.now.modulus row.old a → IsTransformBy self.now row.new a }
        ensures reduced { IsReduced N self.now.modulus row.new }
    {
        let mut s = 0;
        while s < self.log_degree {
            if (self.log_degree - s) % 2 == 1 {
                self.split_blocks(s, row);
                s += 1;
            } else {
                self.split_twice(s, row);
                s += 2;
            }
        }
        fold_row(self.modulus.value(), row);
    }

    /// Replaces a transform, N residues modulo q in bit-reversed order, by the coefficients of the one polynomial modulo q
    /// that has it (Gentleman and Sande 1966).
    pub fn inverse(&self, row: &mut [u64; N])
        requires { IsReduced N self.now.modulus row.old }
        ensures transform { IsTransformBy self.now row.old (row_polynomial row.new) }
        ensures unique { (a : ℕ → ℤ) → IsTransformBy self.now row.old a → RowRepresents N self.now.modulus row.new a }
        ensures reduced { IsReduced N self.now.modulus row.new }
    {
        let mut s = self.log_degree;
        while s > 2 {
            s -= 2;
            self.join_twice(s, row);
        }
        if s == 2 {
            self.join_last_twice(row);
        } else {
            self.join_last(row);
        }
    }

    /// The layer that makes two blocks of each of `2^s`.
    fn split_blocks(&self, s: u32, row: &mut [u64])
        requires layer { s < self.now.log_degree }
        requires len { length row.old ≡ N }
        requires below { RowBelow (4 * self.now.modulus) row.old }
        ensures pairs { IsSplit self.now s row.old row.new }
        ensures below { RowBelow (4 * self.now.modulus) row.new }
    {
        let q = self.modulus().value();
        forward_layer(q, self.layer_roots(s), self.layer_half(s), row);
    }

    /// The two layers that make four blocks of each of `2^s`.
    fn split_twice(&self, s: u32, row: &mut [u64])
        requires layers { s + 1 < self.now.log_degree }
        requires len { length row.old ≡ N }
        requires below { RowBelow (4 * self.now.modulus) row.old }
        ensures layers { ByMiddleRow (IsSplit self.now s) (IsSplit self.now (s + 1)) row.old row.new }
        ensures below { RowBelow (4 * self.now.modulus) row.new }
    {
        let q = self.modulus().value();
        let next = s + 1;
        let (outer, inner) = (self.layer_roots(s), self.layer_roots(next));
        forward_two_layers(q, outer, inner, self.layer_half(next), row);
    }

    /// The two layers that make `2^s` blocks, each of four.
    fn join_twice(&self, s: u32, row: &mut [u64])
        requires layers { s + 1 < self.now.log_degree }
        requires len { length row.old ≡ N }
        requires below { RowBelow (2 * self.now.modulus) row.old }
        ensures layers { ByMiddleRow (IsJoined N self.now (s + 1)) (IsJoined N self.now s) row.old row.new }
        ensures below { RowBelow (2 * self.now.modulus) row.new }
    {
        let q = self.modulus().value();
        let next = s + 1;
        let (outer, inner) = (self.layer_roots(s), self.layer_roots(next));
        inverse_two_layers(q, outer, inner, self.layer_half(next), row);
    }

    /// The last layer back, with the scaling by the inverse of N. The words are reduced.
    fn join_last(&self, row: &mut [u64])
        requires len { length row.old ≡ N }
        requires below { RowBelow (2 * self.now.modulus) row.old }
        ensures joined { IsJoinedLast N self.now row.old row.new }
        ensures reduced { RowBelow self.now.modulus row.new }
    {
        let q = self.modulus.value();
        inverse_last_layer(
            q,
            &self.inverse_degree,
            &self.scaled_root,
            self.layer_half(0),
            row,
        );
    }

    /// The last two layers back, with the scaling by the inverse of N. The words are reduced.
    fn join_last_twice(&self, row: &mut [u64])
        requires len { length row.old ≡ N }
        requires below { RowBelow (2 * self.now.modulus) row.old }
        ensures layers { ByMiddleRow (IsJoined N self.now 1) (IsJoinedLast N self.now) row.old row.new }
        ensures reduced { RowBelow self.now.modulus row.new }
    {
        let q = self.modulus.value();
        let inner = self.layer_roots(1);
        inverse_last_two_layers(
            q,
            &self.inverse_degree,
            &self.scaled_root,
            inner,
            self.layer_half(1),
            row,
        );
    }

    /// The roots of the layer with `2^s` blocks.
    fn layer_roots(&self, s: u32) -> &[Factor]
        requires layer { s < self.now.log_degree }
        ensures { AreLayerRoots self.now self.now.root s result.now }
    {
        layer_factors(&self.roots, s)
    }

    /// Half the length of a block where there are `2^s`.
    fn layer_half(&self, s: u32) -> usize
        requires layer { s < self.now.log_degree }
        ensures { result ≡ layer_half self.now s }
    {
        let digits = self.log_degree - (s + 1);
        1 << digits
    }
}

/// The logarithm of a power of two.
fn log_of(n: usize) -> u32
    requires { IsDegree n }
    ensures power { n ≡ 2 ^ result }
    ensures from_two { 2 ≤ result }
    ensures to_limit { result ≤ 15 }
{
    let mut log = 2;
    while 1 << log < n {
        log += 1;
    }
    log
}
