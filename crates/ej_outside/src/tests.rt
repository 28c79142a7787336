//! Each public call on its happy path, the rules of a listed put and of the room, and faults in mid-stream.

ghost use Rattle.std.specs.Prelude.{◌≤◌, IfOk};

use crate::file_shelf::{read_all, write_all};
use crate::{Failed, FileShelf, Got, MemShelf, MemSink, Shelf, ShelfFault, Sink, StdSink};
use std::alloc::{AllocError, Global};
use std::io::{ErrorKind, Read, Write};
use std::test::Fail;
use std::{fs, io};

/// A shelf with the file `a` of three bytes.
fn shelf(alloc: Global, room: usize, fails: &[u64]) -> Result<MemShelf, AllocError> {
    let mut files = Vec::new(alloc);
    files.push((
        String::from_str(alloc, "a")?,
        Vec::from_slice(alloc, b"abc")?,
    ))?;
    MemShelf::new(alloc, files, room, Vec::from_slice(alloc, fails)?)
}

fn is_bytes(got: &Got, bytes: &[u8]) -> bool {
    match got {
        Got::Bytes(found) => found.as_slice() == bytes,
        Got::Absent | Got::Longer => false,
    }
}

fn is_under(shelf: &MemShelf, name: &str, bytes: &[u8]) -> bool {
    match shelf.held(name) {
        Some(found) => found == bytes,
        None => false,
    }
}

#[test]
fn a_shelf_in_memory_gets_and_puts(rt: HostRuntime) -> Result<(), Fail> {
    let mut shelf = shelf(rt.alloc(), 100, &[1])?;
    assert!(rt; is_bytes(&shelf.get(rt.alloc(), "a", 3)?, b"abc"));
    let listed = shelf.get(rt.alloc(), "a", 3);
    assert!(rt; matches!(listed, Err(ShelfFault::Failed)));
    assert!(rt; matches!(shelf.get(rt.alloc(), "a", 2)?, Got::Longer));
    assert!(rt; matches!(shelf.get(rt.alloc(), "b", 9)?, Got::Absent));
    assert_eq!(rt; shelf.put("b", b"new"), Ok(()));
    assert_eq!(rt; shelf.put("a", b"other"), Ok(()));
    assert!(rt; is_under(&shelf, "b", b"new"));
    assert!(rt; is_under(&shelf, "a", b"other"));
    assert!(rt; shelf.held("c").is_none());
    Ok(())
}

#[test]
fn a_listed_put_keeps_half(rt: HostRuntime) -> Result<(), Fail> {
    // Half takes 1 + 2 + 16 bytes of the room, so that 20 are left: exactly what the last put takes.
    let mut shelf = shelf(rt.alloc(), 39, &[0])?;
    assert_eq!(rt; shelf.put("n", b"abcde"), Err(Failed));
    assert!(rt; is_under(&shelf, "n", b"ab"));
    assert_eq!(rt; shelf.put("n", b"abcd"), Err(Failed));
    assert!(rt; is_under(&shelf, "n", b"ab"));
    assert_eq!(rt; shelf.put("n", b"xyz"), Ok(()));
    assert!(rt; is_under(&shelf, "n", b"xyz"));
    assert_eq!(rt; shelf.put("", b""), Err(Failed));
    Ok(())
}

#[test]
fn a_sink_in_memory_takes_whole_pieces(rt: HostRuntime) -> Result<(), Fail> {
    let mut sink = MemSink::new(rt.alloc(), 5, Vec::from_slice(rt.alloc(), &[1])?)?;
    assert_eq!(rt; sink.write(b"abc"), Ok(3));
    assert_eq!(rt; sink.write(b"d"), Err(Failed));
    assert_eq!(rt; sink.write(b"def"), Err(Failed));
    assert_eq!(rt; sink.write(b"de"), Ok(2));
    assert_eq!(rt; sink.write(b""), Ok(0));
    assert_eq!(rt; sink.write(b"f"), Err(Failed));
    assert!(rt; sink.taken() == b"abcde".as_slice());
    let other = MemSink::new(rt.alloc(), 100, Vec::new(rt.alloc()))?;
    assert!(rt; other.taken().is_empty());
    Ok(())
}

#[test]
fn files_and_streams(rt: HostRuntime) -> Result<(), Fail> {
    let path = "ej_outside_test_of_files_and_streams.tmp";
    let mut shelf = FileShelf::new(&rt);
    assert_eq!(rt; shelf.put(path, b"hello"), Ok(()));
    assert!(rt; is_bytes(&shelf.get(rt.alloc(), path, 5)?, b"hello"));
    assert!(rt; matches!(shelf.get(rt.alloc(), path, 4)?, Got::Longer));
    let mut sink = StdSink::new(fs::create(&rt, path)?);
    assert_eq!(rt; sink.write(b"over"), Ok(4));
    assert!(rt; is_bytes(&shelf.get(rt.alloc(), path, 5)?, b"over"));
    fs::remove_file(&rt, path)?;
    assert!(rt; matches!(shelf.get(rt.alloc(), path, 5)?, Got::Absent));
    assert_eq!(rt; shelf.put("ej_outside_no_such_folder/x", b""), Err(Failed));
    assert!(rt; matches!(shelf.get(rt.alloc(), ".", 5), Err(ShelfFault::Failed)));
    Ok(())
}

/// A stream that gives or takes `left` bytes, two at a time, and then fails.
#[derive(Drop)]
struct Breaking {
    left: usize,
}

impl Breaking {
    fn step(&mut self, wanted: usize) -> io::Result<usize>
        ensures { IfOk result (λ n. n ≤ wanted) }
    {
        if self.left == 0 {
            return Err(io::Error::from(ErrorKind::BrokenPipe));
        }
        let count = wanted.min(2).min(self.left);
        self.left -= count;
        Ok(count)
    }
}

impl Read for Breaking {
    fn read(&mut self, buf: &mut [u8]) -> io::Result<usize> {
        self.step(buf.len())
    }
}

impl Write for Breaking {
    fn write(&mut self, buf: &[u8]) -> io::Result<usize> {
        self.step(buf.len())
    }

    fn flush(&mut self) -> io::Result<()> {
        Ok(())
    }
}

#[test]
fn a_fault_in_mid_stream_is_answered(rt: HostRuntime) -> Result<(), Fail> {
    let read = read_all(&mut Breaking { left: 4 }, rt.alloc(), 9);
    assert!(rt; matches!(read, Err(ShelfFault::Failed)), "{read:?}");
    assert_eq!(rt; write_all(&mut Breaking { left: 4 }, b"abcd"), Ok(()));
    assert_eq!(rt; write_all(&mut Breaking { left: 4 }, b"abcde"), Err(Failed));
    let mut sink = StdSink::new(Breaking { left: 2 });
    assert_eq!(rt; sink.write(b"abc"), Ok(2));
    assert_eq!(rt; sink.write(b"c"), Err(Failed));
    Ok(())
}
