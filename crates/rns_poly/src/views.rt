//! Rows that are borrowed, to read or to write.

ghost use Rattle.std.specs.Prelude.{◌≡◌, ◌<◌, ◌≤◌, ◌++◌, length, take, drop, Some, slice_get, slice_range, slice_set};
ghost use Rattle.std.specs.Borrow.{sem, Lends, LendsBoth, Array, u64};

/// Rows to read, of N words each: the coefficients of a polynomial from the constant one on, or the entries of its
/// transform.
#[derive(Clone, Copy)]
pub struct View<'a, const N: usize> {
    pub rows: &'a [[u64; N]],
}

/// Rows to write, of the same form.
pub type ViewMut<'a, const N: usize> = &'a mut [[u64; N]];

impl<'a, const N: usize> View<'a, N> {
    /// The rows themselves.
    pub fn slice(self) -> &'a [[u64; N]]
        ensures { result.now ≡ self.entry.rows.now }
    {
        self.rows
    }

    /// The number of rows.
    pub fn rows(&self) -> usize
        ensures { result ≡ length self.now.rows.now }
    {
        self.rows.len()
    }

    /// Row i, to read.
    pub fn row(&self, i: usize) -> &[u64; N]
        requires { i < length self.now.rows.now }
        ensures { slice_get self.now.rows.now i ≡ Some result.now }
    {
        &self.rows[i]
    }

    /// The rows at places from `from` to below `to`.
    pub fn rows_from_to(self, from: usize, to: usize) -> View<'a, N>
        requires ordered { from ≤ to }
        requires within { to ≤ length self.rows.now }
        ensures { result.rows.now ≡ slice_range self.entry.rows.now from to }
    {
        View {
            rows: &self.rows[from..to],
        }
    }
}

/// Row i, to write.
pub fn row_mut<const N: usize>(rows: ViewMut<'_, N>, i: usize) -> &mut [u64; N]
    requires { i < length rows.old }
    ensures* writes_back { sem 𝓛 (Lends (Array (Array u64 N) 0) (Array u64 N) rows.entry result (λ w. slice_set rows.old i w)) }
    ensures value { slice_get rows.old i ≡ Some result.now }
{
    &mut rows[i]
}

/// The first `at` rows and the rest: two parts that no row is in both of.
pub fn split<const N: usize>(rows: ViewMut<'_, N>, at: usize) -> (ViewMut<'_, N>, ViewMut<'_, N>)
    requires { at ≤ length rows.old }
    ensures* writes_back { sem 𝓛 (LendsBoth (Array (Array u64 N) 0) (Array (Array u64 N) 0) (Array (Array u64 N) 0) rows.entry result ◌++◌) }
    ensures first { result.0.now ≡ take at rows.old }
    ensures second { result.1.now ≡ drop at rows.old }
{
    rows.split_at_mut(at)
}
