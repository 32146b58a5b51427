//! Tests of the two ends that touch the system, whose octets no clause knows. What is written to the standard streams the stored runs of
//! the programs show; shelves and sinks in memory are what the rows of `tor_rows` run over (`octets-a-read`, `read-fails-at`,
//! `out-takes`, `write-fails-at`), and their clauses say what each call of them reads and writes.
use std::alloc::{Allocator, Global};
use std::fs::{Files, Metadata, OpenFile, OpenOptions};
use std::io::{ErrorKind, Read, Seek, SeekFrom, Write};
use std::{fs, io};
use tor_io::{FileShelf, OpenRefused, Shelf, Sink, StdSink, write_all};

/// A writer that takes one octet a call.
#[derive(Drop)]
struct Slow {
    taken: Vec<u8>,
}

impl Write for Slow {
    fn write(&mut self, buf: &[u8]) -> io::Result<usize> {
        let count = buf.len().min(1);
        self.taken.extend_from_slice(&buf[..count])?;
        Ok(count)
    }

    fn flush(&mut self) -> io::Result<()> {
        Ok(())
    }
}

#[test]
fn writes_on_after_a_short_write(rt: HostRuntime) {
    let mut slow = Slow {
        taken: Vec::new(rt.alloc()),
    };
    let is_written = write_all(&mut StdSink::new(&mut slow), b"some").is_ok();
    assert!(rt; is_written && slow.taken.as_slice() == b"some".as_slice());
}

/// Writes a file of 65,536 times 'a', and "bc".
fn is_long_file_written(rt: &HostRuntime) -> bool {
    let Ok(mut bytes) = vec![in rt.alloc(); b'a'; 65536] else {
        return false;
    };
    bytes.extend_from_slice(b"bc").is_ok() && fs::write(rt, "long", bytes.as_slice()).is_ok()
}

/// Whether a read into a buffer of so many octets gives these.
fn gives<H: Shelf>(shelf: &mut H, room: usize, octets: &[u8]) -> bool {
    let mut buf = [0; 4];
    match buf.get_mut(..room) {
        Some(part) => {
            shelf.read(part) == Ok(octets.len()) && buf.get(..octets.len()) == Some(octets)
        }
        None => false,
    }
}

/// Whether of an open file of 65,536 times 'a', and "bc", all is read: 65,534 octets at once, then what is left of those that a buffer
/// holds, then the rest, and nothing behind that.
fn is_given_whole<H: Shelf>(alloc: Global, shelf: &mut H) -> bool {
    let Ok(mut large) = vec![in alloc; 0; 65534] else {
        return false;
    };
    let is_begun = shelf.read(large.as_mut_slice()) == Ok(65534);
    drop(large);
    is_begun
        && gives(shelf, 3, b"aa")
        && gives(shelf, 1, b"b")
        && gives(shelf, 3, b"c")
        && gives(shelf, 3, b"")
}

/// Whether a file of that name is opened.
fn opens<H: Shelf>(shelf: &mut H, name: &str) -> bool {
    shelf.open_file(name).is_ok()
}

/// Whether nothing of a file that is begun is read behind an open that fails.
fn is_left_behind<H: Shelf>(shelf: &mut H) -> bool {
    opens(shelf, "long")
        && gives(shelf, 3, b"aaa")
        && shelf.open_file("absent") == Err(OpenRefused::Failed)
        && gives(shelf, 3, b"")
}

/// Whether nothing is read where no file is open, and none is where a name isn't there or is a folder's; and whether a file is read from
/// its start also where another one was begun.
fn is_read_right<H: Shelf>(alloc: Global, shelf: &mut H) -> bool {
    gives(shelf, 3, b"")
        && is_left_behind(shelf)
        && opens(shelf, "long")
        && gives(shelf, 3, b"aaa")
        && opens(shelf, "long")
        && is_given_whole(alloc, shelf)
        && (!opens(shelf, ".") || shelf.read(&mut [0; 4]).is_err())
}

#[test]
fn reads_a_file_that_is_larger_than_the_buffer_and_no_folder(rt: HostRuntime) {
    let is_written = is_long_file_written(&rt);
    let mut shelf = FileShelf::new(rt);
    assert!(rt; is_written && is_read_right(rt.alloc(), &mut shelf));
}

/// A writer whose calls are interrupted as often as it says, and then fail.
#[derive(Drop)]
struct Failing {
    interrupted: u32,
}

/// Why a call fails: it is interrupted as often as this says, and then refused.
fn reason(interrupted: &mut u32) -> io::Error {
    if *interrupted == 0 {
        return io::Error::from(ErrorKind::StorageFull);
    }
    *interrupted -= 1;
    io::Error::from(ErrorKind::Interrupted)
}

impl Write for Failing {
    fn write(&mut self, _buf: &[u8]) -> io::Result<usize> {
        Err(reason(&mut self.interrupted))
    }

    fn flush(&mut self) -> io::Result<()> {
        Ok(())
    }
}

#[test]
fn a_failed_write_takes_nothing(rt: HostRuntime) {
    let is_failed = StdSink::new(Failing { interrupted: 1 })
        .write(b"some")
        .is_err();
    assert!(rt; is_failed);
}

/// A file of the octets "abc" that gives one a call, is interrupted once before the second, and fails after the third.
#[derive(Drop)]
struct Trickle {
    given: usize,
    interrupted: u32,
}

impl Read for Trickle {
    fn read(&mut self, buf: &mut [u8]) -> io::Result<usize> {
        if self.given == 1 && self.interrupted == 1 {
            return Err(reason(&mut self.interrupted));
        }
        let Some(octet) = b"abc".get(self.given) else {
            return Err(reason(&mut self.interrupted));
        };
        let Some(first) = buf.first_mut() else {
            return Ok(0);
        };
        *first = *octet;
        self.given = self.given.saturating_add(1);
        Ok(1)
    }
}

impl Write for Trickle {
    fn write(&mut self, _buf: &[u8]) -> io::Result<usize> {
        Err(io::Error::from(ErrorKind::Unsupported))
    }

    fn flush(&mut self) -> io::Result<()> {
        Ok(())
    }
}

impl Seek for Trickle {
    fn seek(&mut self, _to: SeekFrom) -> io::Result<u64> {
        Err(io::Error::from(ErrorKind::Unsupported))
    }
}

impl OpenFile for Trickle {
    fn metadata(&self) -> io::Result<Metadata> {
        Err(io::Error::from(ErrorKind::Unsupported))
    }

    fn set_len(&self, _size: u64) -> io::Result<()> {
        Err(io::Error::from(ErrorKind::Unsupported))
    }

    fn sync_all(&self) -> io::Result<()> {
        Ok(())
    }

    fn sync_data(&self) -> io::Result<()> {
        Ok(())
    }
}

/// A system whose files all are such.
#[derive(Drop)]
struct Slowly;

impl Files for Slowly {
    type File = Trickle;

    type Dir = Trickle;

    fn open_file(&self, _how: &OpenOptions, _path: &str) -> io::Result<Trickle> {
        Ok(Trickle {
            given: 0,
            interrupted: 1,
        })
    }

    fn open_dir(&self, _path: &str) -> io::Result<Trickle> {
        Err(io::Error::from(ErrorKind::Unsupported))
    }

    fn metadata(&self, _path: &str) -> io::Result<Metadata> {
        Err(io::Error::from(ErrorKind::Unsupported))
    }

    fn symlink_metadata(&self, _path: &str) -> io::Result<Metadata> {
        Err(io::Error::from(ErrorKind::Unsupported))
    }

    fn copy(&self, _from: &str, _to: &str) -> io::Result<u64> {
        Err(io::Error::from(ErrorKind::Unsupported))
    }

    fn rename(&self, _from: &str, _to: &str) -> io::Result<()> {
        Err(io::Error::from(ErrorKind::Unsupported))
    }

    fn remove_file(&self, _path: &str) -> io::Result<()> {
        Err(io::Error::from(ErrorKind::Unsupported))
    }

    fn create_dir(&self, _path: &str) -> io::Result<()> {
        Err(io::Error::from(ErrorKind::Unsupported))
    }

    fn remove_dir(&self, _path: &str) -> io::Result<()> {
        Err(io::Error::from(ErrorKind::Unsupported))
    }

    fn remove_dir_all<B: Allocator>(&self, _alloc: B, _path: &str) -> io::Result<()> {
        Err(io::Error::from(ErrorKind::Unsupported))
    }
}

/// Whether each octet comes once, also after the interrupted call, and a failed read is not the end of the file.
fn is_read_to_the_fault<H: Shelf>(shelf: &mut H) -> bool {
    opens(shelf, "any")
        && gives(shelf, 3, b"a")
        && gives(shelf, 3, b"b")
        && gives(shelf, 3, b"c")
        && shelf.read(&mut [0; 4]).is_err()
}

#[test]
fn an_interrupted_read_goes_on_and_a_failed_one_is_no_end(rt: HostRuntime) {
    let is_read = is_read_to_the_fault(&mut FileShelf::new((Slowly, rt.alloc())));
    assert!(rt; is_read);
}
