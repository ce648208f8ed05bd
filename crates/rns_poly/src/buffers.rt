//! Rows that are owned.

ghost use Rattle.std.specs.Prelude.{◌≡◌, ℕ, ◌≤◌, List, length, replicate, IfOk};
ghost use Rattle.std.specs.Borrow.{sem, Lends, Array, u64};
ghost use Rattle.rns_poly.specs.Rows.{written_over};
ghost use Rattle.rns_poly.specs.contracts.buffers.PolyBuf.{the_row};

use crate::{View, ViewMut};
use std::alloc::{AllocError, Global};
use std::marker::Model;

/// Rows of N words each, one after another, for the caller to lend whole or in parts.
#[derive(Drop)]
pub struct PolyBuf<const N: usize> {
    rows: Vec<[u64; N]>,
}

impl<const N: usize> Model for PolyBuf<N> {
    ghost use Rattle.std.specs.Prelude.{ℕ, List};

    ghost Value = { List (List ℕ) };

    ghost view = { λ b. b.rows.items };
}

impl<const N: usize> PolyBuf<N> {
    /// This many rows of zeros. The error is want of memory.
    pub fn new(alloc: Global, rows: usize) -> Result<PolyBuf<N>, AllocError>
        requires { N ≤ 32768 }
        ensures { IfOk result (λ buffer. buffer ≡ replicate rows (replicate N 0)) }
    {
        Ok(PolyBuf {
            rows: vec![in alloc; [0; N]; rows]?,
        })
    }

    /// The number of rows.
    pub fn rows(&self) -> usize
        ensures { result ≡ length self.now }
    {
        self.rows.len()
    }

    /// All rows, to read.
    pub fn view(&self) -> View<'_, N>
        ensures { result.rows.now ≡ self.now }
    {
        View { rows: &self.rows }
    }

    /// All rows, to write. What is written through them is then in the buffer.
    pub fn view_mut(&mut self) -> ViewMut<'_, N>
        ensures* writes_back { sem 𝓛 (Lends (the_row N.row) (Array (Array u64 N) 0) self.entry result (written_over self.old)) }
        ensures value { result.now ≡ self.old }
        ensures same_length { (w : List (List ℕ)) → length w ≡ length self.old → written_over self.old w ≡ w }
    {
        &mut self.rows
    }
}
