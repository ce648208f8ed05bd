//! Public keys.

ghost use Rattle.std.specs.Prelude.{◌≡◌, ℕ, ℤ, ◌+◌, ◌*◌, ◌%◌, ◌<◌, length, slice_index, slice_range, slice_set, IfOk};
ghost use Rattle.set_table.specs.Sets.{degree_of, data_of};
ghost use Rattle.ring_law.specs.Rows.{IsReduced, Represents, WordsRepresent};
ghost use Rattle.rns_poly.specs.Rows.{AreReduced};
ghost use Rattle.bfv_model.specs.Holds.{listed_word};
ghost use Rattle.bfv_params.specs.Kept.{IsPublic};
ghost use Rattle.bfv_params.specs.Rows.{ArePartlyWritten};
ghost use Rattle.bfv_params.specs.Values.{zero_public};

use crate::context::Context;
use crate::rows::new_rows;
use rns_poly::View;
use set_table::SetName;
use std::alloc::{AllocError, Global};
use std::marker::Model;

/// A public key of two parts, each with a row for each data modulus of the set, in coefficient
/// form.
#[derive(Drop)]
pub struct Public<const N: usize> {
    set: SetName,
    rows: Vec<[u64; N]>,
}

impl<const N: usize> Model for Public<N> {
    ghost use Rattle.bfv_params.specs.Values.{PublicValue};

    ghost Value = { PublicValue };

    ghost use Rattle.bfv_params.specs.Kept.{IsPublic};

    ghost view = { λ p. record { set = p.set; rows = p.rows.items } };

    ghost invariant = { λ p. IsPublic N p.set p.rows.items };
}

impl<const N: usize> Public<N> {
    /// The key of two zero parts. The error is want of memory.
    pub fn new(alloc: Global, ctx: &Context<N>) -> Result<Public<N>, AllocError>
        ensures value { IfOk result (λ p. p ≡ zero_public N (ctx.now).set) }
        ensures degree { N ≡ degree_of (ctx.now).set }
    {
        let set = ctx.set();
        Ok(Public {
            set,
            rows: new_rows(alloc, 2 * set.data_count())?,
        })
    }

    /// The rows of the two parts, one part after the other.
    pub fn view(&self) -> View<'_, N>
        ensures value { result.rows.now ≡ (self.now).rows }
        ensures kept { IsPublic N (self.now).set (self.now).rows }
    {
        View { rows: &self.rows }
    }

    /// The rows of part j.
    pub fn part(&self, j: usize) -> View<'_, N>
        requires { j < 2 }
        ensures value { result.rows.now ≡ slice_range (self.now).rows (j * length (data_of (self.now).set))
            (j * length (data_of (self.now).set) + length (data_of (self.now).set)) }
        ensures count { length result.rows.now ≡ length (data_of (self.now).set) }
        ensures reduced { AreReduced N (data_of (self.now).set) result.rows.now }
        ensures represents { (x : ℕ → ℤ) →
            WordsRepresent N (data_of (self.now).set) (listed_word (length (data_of (self.now).set)) (self.now).rows j) x →
            Represents N (data_of (self.now).set) result.rows.now x }
        ensures kept { IsPublic N (self.now).set (self.now).rows }
    {
        let count = self.set.data_count();
        self.view().rows_from_to(j * count, j * count + count)
    }

    /// Writes the rows of part j.
    pub fn set_part(&mut self, j: usize, rows: View<'_, N>)
        requires place { j < 2 }
        requires count { length rows.rows.now ≡ length (data_of (self.old).set) }
        requires reduced { AreReduced N (data_of (self.old).set) rows.rows.now }
        ensures set { (self.new).set ≡ (self.old).set }
        ensures written { ArePartlyWritten (j * length (data_of (self.old).set)) (length (data_of (self.old).set))
            rows.entry.rows.now (self.old).rows (self.new).rows }
    {
        let count = self.set.data_count();
        let start = j * count;
        for i in 0..count {
            self.set_row(start + i, rows.row(i));
        }
    }

    /// Writes row i, which is under data modulus i modulo their number.
    pub fn set_row(&mut self, i: usize, row: &[u64; N])
        requires in_range { i < 2 * length (data_of (self.old).set) }
        requires reduced { IsReduced N (slice_index (data_of (self.old).set) (i % length (data_of (self.old).set))) row.now }
        ensures { self.new ≡ record (self.old) { rows = slice_set (self.old).rows i row.now } }
    {
        self.rows[i] = *row;
    }
}
