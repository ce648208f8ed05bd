//! Ciphertexts.

ghost use Rattle.std.specs.Prelude.{◌≡◌, ℕ, ℤ, ◌+◌, ◌*◌, ◌%◌, ◌<◌, ◌⊎◌, length, slice_index, slice_index_or, slice_range, slice_set, [], IfOk};
ghost use Rattle.ring_law.specs.Rows.{IsReduced, Represents, WordsRepresent};
ghost use Rattle.rns_poly.specs.Rows.{AreReduced};
ghost use Rattle.bfv_model.specs.Holds.{listed_word};
ghost use Rattle.set_table.specs.Sets.{degree_of};
ghost use Rattle.bfv_params.specs.Moduli.{data_at};
ghost use Rattle.bfv_params.specs.Kept.{IsCipher};
ghost use Rattle.bfv_params.specs.Rows.{ArePartlyWritten};
ghost use Rattle.bfv_params.specs.Values.{zero_cipher};

use crate::context::Context;
use crate::rows::{clear_from, new_rows};
use rns_poly::View;
use set_table::SetName;
use std::alloc::{AllocError, Global};
use std::marker::Model;

/// A ciphertext of two or three parts, each with a row for each data modulus, in coefficient form.
/// The rows of a third part that isn't there are zero.
#[derive(Drop)]
pub struct Cipher<const N: usize> {
    set: SetName,
    room: usize,
    level: usize,
    parts: u8,
    rows: Vec<[u64; N]>,
}

impl<const N: usize> Model for Cipher<N> {
    ghost use Rattle.std.specs.Prelude.{◌≡◌, ◌*◌, take, length};
    ghost use Rattle.bfv_params.specs.Values.{CipherValue};

    ghost Value = { CipherValue };

    ghost use Rattle.bfv_params.specs.Kept.{IsCipher};

    ghost view = { λ c. record { set = c.set; room = c.room; level = c.level; parts = c.parts; rows = take (3 * c.level) c.rows.items } };

    ghost invariant = { λ c. (length c.rows.items ≡ 3 * c.room) × IsCipher N c.set c.room c.level c.parts (take (3 * c.level) c.rows.items) };
}

impl<const N: usize> Cipher<N> {
    /// The ciphertext of two zero parts at the level of the context. The error is want of memory.
    pub fn new(alloc: Global, ctx: &Context<N>) -> Result<Cipher<N>, AllocError>
        ensures value { IfOk result (λ c. c ≡ zero_cipher N (ctx.now).set (ctx.now).level) }
        ensures degree { N ≡ degree_of (ctx.now).set }
    {
        let set = ctx.set();
        let level = ctx.data_moduli().len();
        Ok(Cipher {
            set,
            room: level,
            level,
            parts: 2,
            rows: new_rows(alloc, 3 * level)?,
        })
    }

    pub fn parts(&self) -> u8
        ensures value { result ≡ (self.now).parts }
        ensures kept { IsCipher N (self.now).set (self.now).room (self.now).level (self.now).parts (self.now).rows }
    {
        self.parts
    }

    /// The rows of three parts, one part after another.
    pub fn view(&self) -> View<'_, N>
        ensures value { result.rows.now ≡ (self.now).rows }
        ensures kept { IsCipher N (self.now).set (self.now).room (self.now).level (self.now).parts (self.now).rows }
    {
        View {
            rows: &self.rows[..3 * self.level],
        }
    }

    /// The rows of part j, which are zero where it isn't there.
    pub fn part(&self, j: usize) -> View<'_, N>
        requires { j < 3 }
        ensures value { result.rows.now ≡ slice_range (self.now).rows (j * (self.now).level) (j * (self.now).level + (self.now).level) }
        ensures count { length result.rows.now ≡ (self.now).level }
        ensures reduced { AreReduced N (data_at (self.now).set (self.now).level) result.rows.now }
        ensures represents { (x : ℕ → ℤ) →
            WordsRepresent N (data_at (self.now).set (self.now).level) (listed_word (self.now).level (self.now).rows j) x →
            Represents N (data_at (self.now).set (self.now).level) result.rows.now x }
        ensures kept { IsCipher N (self.now).set (self.now).room (self.now).level (self.now).parts (self.now).rows }
    {
        let start = j * self.level;
        self.view().rows_from_to(start, start + self.level)
    }

    /// Writes the rows of part j.
    pub fn set_part(&mut self, j: usize, rows: View<'_, N>)
        requires place { j < (self.old).parts }
        requires count { length rows.rows.now ≡ (self.old).level }
        requires reduced { AreReduced N (data_at (self.old).set (self.old).level) rows.rows.now }
        ensures set { (self.new).set ≡ (self.old).set }
        ensures room { (self.new).room ≡ (self.old).room }
        ensures level { (self.new).level ≡ (self.old).level }
        ensures parts { (self.new).parts ≡ (self.old).parts }
        ensures written { ArePartlyWritten (j * (self.old).level) (self.old).level
            rows.entry.rows.now (self.old).rows (self.new).rows }
    {
        let level = self.level;
        let start = j * level;
        for i in 0..level {
            self.set_row(start + i, rows.row(i));
        }
    }

    /// Says how many parts there are. With two it makes the third part zero.
    pub fn set_parts(&mut self, parts: u8)
        requires { (parts ≡ 2) ⊎ (parts ≡ 3) }
        ensures set { (self.new).set ≡ (self.old).set }
        ensures room { (self.new).room ≡ (self.old).room }
        ensures level { (self.new).level ≡ (self.old).level }
        ensures parts { (self.new).parts ≡ parts }
        ensures before { (i : ℕ) → i < parts * (self.old).level → slice_index_or (self.new).rows i [] ≡ slice_index_or (self.old).rows i [] }
        ensures kept { IsCipher N (self.new).set (self.new).room (self.new).level (self.new).parts (self.new).rows }
    {
        let start = parts as usize * self.level;
        clear_from(&mut self.rows, start);
        self.parts = parts;
    }

    /// Writes row i, which is under data modulus i modulo their number.
    pub fn set_row(&mut self, i: usize, row: &[u64; N])
        requires in_range { i < (self.old).parts * (self.old).level }
        requires reduced { IsReduced N (slice_index (data_at (self.old).set (self.old).level) (i % (self.old).level)) row.now }
        ensures { self.new ≡ record (self.old) { rows = slice_set (self.old).rows i row.now } }
    {
        self.rows[i] = *row;
    }
}
