//! Arrays have as many elements as their types say.
ghost use Rattle.std.specs.Prelude.{◌≡◌, ◌≤◌, length};

pub fn has_its_length<T, const N: usize>(array: &[T; N])
    requires { N ≤ 32768 }
    ensures { length array.now ≡ N }
{
    let _length = array.len();
}
