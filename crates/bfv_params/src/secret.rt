//! Secrets.

ghost use Rattle.std.specs.Prelude.{◌≡◌, IfOk};
ghost use Rattle.ring_law.specs.Polynomials.{AllWithin};
ghost use Rattle.ring_law.specs.Rows.{listed_polynomial};
ghost use Rattle.set_table.specs.Sets.{degree_of};
ghost use Rattle.bfv_params.specs.Kept.{IsSecret};
ghost use Rattle.bfv_params.specs.Values.{zero_secret};

use crate::context::Context;
use set_table::SetName;
use std::alloc::{AllocError, Global};
use std::marker::Model;

/// A secret: a polynomial whose N coefficients are -1, 0 or 1.
#[derive(Drop)]
pub struct Secret<const N: usize> {
    set: SetName,
    small: Box<[i8; N]>,
}

impl<const N: usize> Model for Secret<N> {
    ghost use Rattle.bfv_params.specs.Values.{SecretValue};

    ghost Value = { SecretValue };

    ghost use Rattle.bfv_params.specs.Kept.{IsSecret};

    ghost view = { λ s. record { set = s.set; small = s.small.value } };

    ghost invariant = { λ s. IsSecret N s.set s.small.value };
}

impl<const N: usize> Secret<N> {
    /// The secret whose coefficients are all 0. The error is want of memory.
    pub fn new(alloc: Global, ctx: &Context<N>) -> Result<Secret<N>, AllocError>
        ensures value { IfOk result (λ s. s ≡ zero_secret N (ctx.now).set) }
        ensures degree { N ≡ degree_of (ctx.now).set }
    {
        Ok(Secret {
            set: ctx.set(),
            small: Box::new(alloc, [0; N])?,
        })
    }

    /// The coefficients, from the constant one on.
    pub fn small(&self) -> &[i8; N]
        ensures value { result.now ≡ (self.now).small }
        ensures kept { IsSecret N (self.now).set (self.now).small }
    {
        &self.small
    }

    /// Replaces the coefficients.
    pub fn set(&mut self, small: &[i8; N])
        requires { AllWithin N 1 (listed_polynomial small.now) }
        ensures { self.new ≡ record (self.old) { small = small.now } }
    {
        *self.small = *small;
    }
}
