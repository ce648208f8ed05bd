//! Rows that a type owns.

ghost use Rattle.std.specs.Prelude.{◌≡◌, ℕ, ◌<◌, ◌≤◌, length, slice_index_or, [], IfOk};
ghost use Rattle.bfv_params.specs.Rows.{ZeroFrom};
ghost use Rattle.bfv_params.specs.Values.{zero_rows};

use std::alloc::{AllocError, Global};

pub fn new_rows<const N: usize>(alloc: Global, count: usize) -> Result<Vec<[u64; N]>, AllocError>
    requires { N ≤ 32768 }
    ensures { IfOk result (λ rows. rows.items ≡ zero_rows N count) }
{
    vec![in alloc; [0; N]; count]
}

/// Makes the rows from a place on zero.
pub fn clear_from<const N: usize>(rows: &mut [[u64; N]], start: usize)
    requires degree { N ≤ 32768 }
    requires within { start ≤ length rows.old }
    ensures count { length rows.new ≡ length rows.old }
    ensures before { (i : ℕ) → i < start → slice_index_or rows.new i [] ≡ slice_index_or rows.old i [] }
    ensures zero { ZeroFrom N start rows.new }
{
    for i in start..rows.len() {
        rows[i] = [0; N];
    }
}
