//! What no clause says: that calls succeed with ample memory, and what reaches the real outside.
use super::*;
use crate::transfers::{fill, put_whole};
use std::cell::RefCell;
use std::fmt::Display;
use std::fs::Permissions;
use std::io::{ErrorKind, Read, Write};
use std::os::fd::AsRawFd;
use std::os::unix::fs::PermissionsExt;
use std::rt::Files;
use std::test::Fail;
use std::{fs, io};

#[test]
fn memory_is_read(rt: HostRuntime) -> Result<(), Fail> {
    let mut store = MemStore::new(rt.alloc());
    store.put_file("a", b"seven bytes")?;
    let front = read_front(rt.alloc(), &mut store, "a", 5)?;
    assert_eq!(rt; front.as_slice(), b"seven".as_slice());
    let mut buf = [b'.'; 8];
    assert_eq!(rt; read_piece(&mut store, "a", 6, &mut buf), Ok(5));
    assert_eq!(rt; &buf, b"bytes...");
    Ok(())
}

#[test]
fn memory_is_written(rt: HostRuntime) -> Result<(), Fail> {
    let mut store = MemStore::new(rt.alloc());
    store.fail_at(3)?;
    write_file(&mut store, "a", b"bytes")?;
    assert_eq!(rt; store.begin("b"), Err(StoreFault::Failed));
    assert_eq!(rt; store.file("a"), Some(b"bytes".as_slice()));
    Ok(())
}

#[test]
fn pieces_are_put(rt: HostRuntime) -> Result<(), Fail> {
    let mut out = MemSink::new(rt.alloc());
    out.fail_at(9)?;
    put_two(&mut out, b"a", b"b")?;
    put_three(&mut out, b"c", b"d", b"e")?;
    put_four(&mut out, b"f", b"g", b"h", b"i")?;
    assert_eq!(rt; out.put(b"j"), Err(SinkFault::Failed));
    assert_eq!(rt; out.text(), b"abcdefghi".as_slice());
    Ok(())
}

/// A reader that gives a byte at a time, and is interrupted before each.
#[derive(Drop)]
struct Dripping<'a> {
    left: &'a [u8],
    interrupted: bool,
}

impl Read for Dripping<'_> {
    fn read(&mut self, buf: &mut [u8]) -> io::Result<usize> {
        self.interrupted = !self.interrupted;
        if self.interrupted {
            return Err(io::Error::from(ErrorKind::Interrupted));
        }
        let n = self.left.len().min(buf.len()).min(1);
        buf[..n].copy_from_slice(&self.left[..n]);
        self.left = &self.left[n..];
        Ok(n)
    }
}

/// A writer that takes a byte at a time, and is interrupted before each.
#[derive(Drop)]
struct Sipping {
    taken: Vec<u8>,
    interrupted: bool,
}

impl Write for Sipping {
    fn write(&mut self, buf: &[u8]) -> io::Result<usize> {
        self.interrupted = !self.interrupted;
        if self.interrupted {
            return Err(io::Error::from(ErrorKind::Interrupted));
        }
        let n = buf.len().min(1);
        self.taken.extend_from_slice(&buf[..n])?;
        Ok(n)
    }

    fn flush(&mut self) -> io::Result<()> {
        Ok(())
    }
}

#[test]
fn single_bytes_add_up(rt: HostRuntime) -> Result<(), Fail> {
    let mut reader = Dripping {
        left: b"seven bytes",
        interrupted: false,
    };
    let mut buf = [b'.'; 8];
    for (count, bytes) in [(8, b"seven by"), (3, b"tesen by"), (0, b"tesen by")] {
        assert_eq!(rt; fill(&mut reader, &mut buf)?, count);
        assert_eq!(rt; &buf, bytes);
    }
    let mut writer = Sipping {
        taken: Vec::new(rt.alloc()),
        interrupted: false,
    };
    put_whole(&mut writer, b"seven bytes")?;
    assert_eq!(rt; writer.taken.as_slice(), b"seven bytes".as_slice());
    Ok(())
}

/// A standard output in memory, which takes three bytes at a time and refuses the tenth.
struct Screen {
    shown: RefCell<Vec<u8>>,
}

impl Print for Screen {
    fn print<D: Display + Drop>(&self, _: D) -> io::Result<()> {
        Err(io::Error::from(ErrorKind::Unsupported))
    }

    fn println<D: Display + Drop>(&self, _: D) -> io::Result<()> {
        Err(io::Error::from(ErrorKind::Unsupported))
    }

    fn write_all(&self, _: &[u8]) -> io::Result<()> {
        Err(io::Error::from(ErrorKind::Unsupported))
    }

    fn write_some(&self, bytes: &[u8]) -> io::Result<usize> {
        let Ok(mut shown) = self.shown.try_borrow_mut() else {
            return Err(io::Error::from(ErrorKind::ResourceBusy));
        };
        if shown.len() > 8 {
            return Err(io::Error::from(ErrorKind::BrokenPipe));
        }
        let n = bytes.len().min(3);
        shown.extend_from_slice(&bytes[..n])?;
        Ok(n)
    }
}

#[test]
fn standard_output_shows_what_is_put(rt: HostRuntime) -> Result<(), Fail> {
    let screen = Screen {
        shown: RefCell::new(Vec::new(rt.alloc())),
    };
    let mut out = StdSink::new(&screen);
    assert_eq!(rt; out.put(b"seven "), Ok(()));
    assert_eq!(rt; out.put(b"bytes"), Err(SinkFault::Failed));
    let Screen { shown } = screen;
    assert_eq!(rt; shown.into_inner().as_slice(), b"seven byt".as_slice());
    assert_eq!(rt; StdSink::new(&rt).put(b"put\n"), Ok(()));
    Ok(())
}

#[test]
fn real_file_is_replaced(rt: HostRuntime) -> Result<(), Fail> {
    let name = "outer_io_test.bin";
    fs::write(&rt, name, b"the first text")?;
    rt.set_permissions(name, Permissions::from_mode(0o640))?;
    let mut store = FileStore::new(&rt, rt.alloc());
    let mut buf = [b'.'; 8];
    assert_eq!(rt; store.read_at(name, 10, &mut buf), Ok(4));
    assert_eq!(rt; &buf, b"text....");
    store.begin(name)?;
    store.append(b"the second ")?;
    store.append(b"text, which is longer")?;
    assert_eq!(rt; store.size(name), Ok(14));
    assert_eq!(rt; store.read_at(name, 4, &mut buf), Ok(8));
    assert_eq!(rt; &buf, b"first te");
    store.commit()?;
    assert_eq!(rt; store.read_at(name, 4, &mut buf), Ok(8));
    assert_eq!(rt; &buf, b"second t");
    let read = fs::read(&rt, name)?;
    assert_eq!(rt;
        read.as_slice(),
        b"the second text, which is longer".as_slice()
    );
    assert_eq!(rt; rt.metadata(name)?.permissions().mode() & 0o777, 0o640);
    fs::remove_file(&rt, name)?;
    Ok(())
}

#[test]
fn symlink_is_followed(rt: HostRuntime) -> Result<(), Fail> {
    let (link, end) = ("outer_io_test.link", "outer_io_test.end");
    fs::write(&rt, end, b"before")?;
    rt.symlink(end, link)?;
    let mut store = FileStore::new(&rt, rt.alloc());
    write_file(&mut store, link, b"afterwards")?;
    assert!(rt; rt.symlink_metadata(link)?.is_symlink());
    let read = fs::read(&rt, end)?;
    assert_eq!(rt; read.as_slice(), b"afterwards".as_slice());
    fs::remove_file(&rt, end)?;
    assert_eq!(rt; store.begin(link), Err(StoreFault::Failed));
    fs::remove_file(&rt, link)?;
    Ok(())
}

#[test]
fn parts_are_taken_away(rt: HostRuntime) -> Result<(), Fail> {
    let part = "outer_io_test.a.part";
    fs::write(&rt, part, b"of an earlier run")?;
    let mut store = FileStore::new(&rt, rt.alloc());
    store.begin("outer_io_test.a")?;
    store.append(b"never in its place")?;
    assert_eq!(rt; rt.metadata(part)?.len(), 18);
    store.begin("outer_io_test.b")?;
    assert_eq!(rt; store.size(part), Err(StoreFault::Missing));
    store.commit()?;
    assert_eq!(rt; store.size("outer_io_test.b"), Ok(0));
    assert_eq!(rt;
        store.size("outer_io_test.b.part"),
        Err(StoreFault::Missing)
    );
    fs::remove_file(&rt, "outer_io_test.b")?;
    Ok(())
}

#[test]
fn only_regular_files_have_a_size(rt: HostRuntime) -> Result<(), Fail> {
    let mut store = FileStore::new(&rt, rt.alloc());
    let (pipe, _to_it) = rt.pipe()?;
    let pipe_name = format!(in rt.alloc(); "/proc/self/fd/{}", pipe.as_raw_fd())?;
    let names = [
        ("outer_io_test.none", StoreFault::Missing),
        (".", StoreFault::Failed),
        ("/dev/zero", StoreFault::Failed),
        (pipe_name.as_str(), StoreFault::Failed),
    ];
    for (name, fault) in names {
        assert_eq!(rt; store.size(name), Err(fault), "{name}");
    }
    Ok(())
}

#[test]
fn only_regular_files_are_replaced(rt: HostRuntime) -> Result<(), Fail> {
    let mut store = FileStore::new(&rt, rt.alloc());
    let (pipe, _to_it) = rt.pipe()?;
    let pipe_name = format!(in rt.alloc(); "/proc/self/fd/{}", pipe.as_raw_fd())?;
    for name in [".", "outer_io_test.none/a", pipe_name.as_str()] {
        assert_eq!(rt; store.begin(name), Err(StoreFault::Failed), "{name}");
    }
    fs::create_dir(&rt, "outer_io_test.c.part")?;
    assert_eq!(rt; store.begin("outer_io_test.c"), Err(StoreFault::Failed));
    fs::remove_dir(&rt, "outer_io_test.c.part")?;
    Ok(())
}

#[test]
fn pipes_and_devices_are_read_from_the_front(rt: HostRuntime) -> Result<(), Fail> {
    let mut store = FileStore::new(&rt, rt.alloc());
    let mut buf = [b'.'; 8];
    assert_eq!(rt; store.read_at("/dev/zero", 0, &mut buf), Ok(8));
    assert_eq!(rt; &buf, &[0; 8]);
    let (pipe, mut to_it) = rt.pipe()?;
    let name = format!(in rt.alloc(); "/proc/self/fd/{}", pipe.as_raw_fd())?;
    to_it.write_all(b"eleven bytes")?;
    drop(to_it);
    assert_eq!(rt; store.read_at(&name, 0, &mut buf), Ok(8));
    assert_eq!(rt; &buf, b"eleven b");
    assert_eq!(rt; store.read_at(&name, 8, &mut buf), Ok(4));
    assert_eq!(rt; &buf, b"ytesen b");
    assert_eq!(rt; store.read_at(&name, 12, &mut buf), Ok(0));
    assert_eq!(rt; store.read_at(&name, 0, &mut buf), Err(StoreFault::Failed));
    Ok(())
}
