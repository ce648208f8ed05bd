//! The files that a store in memory holds.
ghost use Rattle.std.specs.Prelude.{◌≡◌, ◌+◌, ◌-◌, ◌<◌, ◌≤◌, None, IfSome, IfNone, min, ◌++◌, length, take, drop, vec_capacity};
ghost use Rattle.std.specs.Option.{option_copied};
ghost use Rattle.std.specs.FinMap as map;
ghost use Rattle.std.specs.String.{string_bytes};
ghost use Rattle.outer_io.specs.Held.{files_of, IsFirst};
ghost use Rattle.outer_io.specs.Store.{file, IsBytes};

#[derive(Drop)]
pub struct HeldFile {
    pub name: String,
    pub bytes: Vec<u8>,
}

fn place_of(files: &[HeldFile], name: &str) -> Option<usize>
    ensures found { IfSome result (λ i. IsFirst files.now name.now i) }
    ensures none { IfNone result (file (files_of files.now) name.now ≡ None) }
{
    for i in 0..files.len() {
        if files[i].name.as_str() == name {
            return Some(i);
        }
    }
    None
}

pub fn bytes_of<'a>(files: &'a [HeldFile], name: &str) -> Option<&'a [u8]>
    ensures found { option_copied result ≡ file (files_of files.now) name.now }
    ensures bytes { IfSome result (λ b. IsBytes b.now) }
{
    match place_of(files, name) {
        Some(i) => {
            let bytes = files[i].bytes.as_slice();
            Some(bytes)
        }
        None => None,
    }
}

/// Sets a file among the others, in the place of the one of its name or at the end.
pub fn set_file(files: &mut Vec<HeldFile>, file: HeldFile)
    requires { length files.old.items < vec_capacity files.old }
    ensures files { files_of files.new.items
        ≡ map.insert (files_of files.old.items) (string_bytes file.name) file.bytes.items }
    ensures grown { length files.new.items ≤ length files.old.items + 1 }
    ensures capacity { vec_capacity files.old ≤ vec_capacity files.new }
{
    match place_of(files, file.name.as_str()) {
        Some(i) => files[i] = file,
        None => files.push(file).unwrap(),
    }
}

/// Copies the bytes from `at` on to the front of the buffer, as many as there are and as fit.
pub fn copy_from(bytes: &[u8], at: u64, buf: &mut [u8]) -> usize
    ensures count { result ≡ min (length buf.old) (length bytes.now - at) }
    ensures copied { buf.new ≡ take result (drop at bytes.now) ++ drop result buf.old }
{
    let len = bytes.len() as u64;
    if at >= len {
        return 0;
    }
    let rest = &bytes[at as usize..];
    let n = rest.len().min(buf.len());
    buf[..n].copy_from_slice(&rest[..n]);
    n
}
