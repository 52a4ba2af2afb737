ghost use Rattle.std.specs.Prelude.{◌≡◌, ◌<◌};

use super::*;
use qml_base::Steps;
use std::alloc::AllocError;
use std::io::Write;
use std::marker::Brand;
use std::sync::ledger::{Blank, Ledger};
use std::test::Fail;
use std::{fs, io};

/// Two files of one name, and another.
fn files(alloc: Global) -> Result<Vec<(String, Vec<u8>)>, AllocError> {
    let mut files = Vec::new(alloc);
    files.push((
        String::from_str(alloc, "a")?,
        Vec::from_slice(alloc, b"first")?,
    ))?;
    files.push((
        String::from_str(alloc, "a")?,
        Vec::from_slice(alloc, b"second")?,
    ))?;
    files.push((String::from_str(alloc, "b")?, Vec::new(alloc)))?;
    Ok(files)
}

#[test]
fn sure_files_are_read(rt: HostRuntime) -> Result<(), Fail> {
    let mut files = SureFiles::new(files(rt.alloc())?);
    let found = files.read(rt.alloc(), "a")?;
    assert_eq!(rt; found.ok_or("a")?.as_slice(), b"first".as_slice());
    assert!(rt; files.read(rt.alloc(), "c")?.is_none());
    Ok(())
}

#[test]
fn memory_fails_where_it_is_told_to(rt: HostRuntime) -> Result<(), Fail> {
    let failing = Vec::from_slice(rt.alloc(), &[2])?;
    let mut files = MemFiles::new(rt.alloc(), files(rt.alloc())?, failing);
    assert!(rt; files.read(rt.alloc(), "b").is_ok());
    assert!(rt; files.read(rt.alloc(), "b") == Err(ReadFault::Failed));
    let found = files.read(rt.alloc(), "a")?;
    assert_eq!(rt; found.ok_or("a")?.as_slice(), b"first".as_slice());

    let failing = Vec::from_slice(rt.alloc(), &[2])?;
    let mut sink = MemSink::new(rt.alloc(), failing);
    assert_eq!(rt; sink.write(b"one"), Ok(()));
    assert_eq!(rt; sink.write(b"two"), Err(SinkFault::Failed));
    assert_eq!(rt; sink.write(b"three"), Ok(()));
    assert_eq!(rt; sink.bytes(), b"onethree".as_slice());
    Ok(())
}

#[test]
fn a_sure_sink_is_written(rt: HostRuntime) -> Result<(), Fail> {
    let mut sink = SureSink::new(rt.alloc());
    assert_eq!(rt; sink.write(b"one"), Ok(()));
    assert_eq!(rt; sink.bytes(), b"one".as_slice());
    Ok(())
}

/// Three readings of a clock that has two.
fn three_readings<L: Ledger>(alloc: Global, blank: Blank) -> Result<[u64; 3], AllocError>
    requires name { blank.name ≡ L.name }
    requires parts { blank.parts ≡ L.parts }
    requires some { 0 < L.parts }
{
    let readings = Vec::from_slice(alloc, &[5, 9])?;
    let mut clock = MemClock::new(readings, Steps::<L>::new(blank));
    Ok([clock.now(), clock.now(), clock.now()])
}

#[test]
fn a_clock_in_memory_repeats_its_last_reading(rt: HostRuntime) -> Result<(), Fail> {
    let readings = three_readings::<Brand>(rt.alloc(), Blank::new(1))?;
    assert_eq!(rt; readings, [5, 9, 9]);
    Ok(())
}

#[test]
fn files_of_the_machine_are_read(rt: HostRuntime) -> Result<(), Fail> {
    let mut files = RealFiles::new(rt.alloc(), &rt);
    fs::write(&rt, "qml_outside.txt", b"bytes")?;
    let found = files.read(rt.alloc(), "qml_outside.txt")?;
    assert_eq!(rt; found.ok_or("a file")?.as_slice(), b"bytes".as_slice());
    assert!(rt; files.read(rt.alloc(), "qml_outside.txt/below")?.is_none());
    fs::remove_file(&rt, "qml_outside.txt")?;
    assert!(rt; files.read(rt.alloc(), "qml_outside.txt")?.is_none());
    assert!(rt; files.read(rt.alloc(), ".")?.is_none());
    Ok(())
}

/// A writer that takes a byte at a time, is interrupted before each, and takes no more than its room.
#[derive(Drop)]
struct Slow {
    bytes: Vec<u8>,
    room: usize,
    ready: bool,
}

impl Write for Slow {
    fn write(&mut self, buf: &[u8]) -> io::Result<usize> {
        self.ready = !self.ready;
        if !self.ready {
            return Err(io::Error::from(io::ErrorKind::Interrupted));
        }
        if self.bytes.len() >= self.room || buf.is_empty() {
            return Ok(0);
        }
        self.bytes.extend_from_slice(&buf[..1])?;
        Ok(1)
    }

    fn flush(&mut self) -> io::Result<()> {
        Ok(())
    }
}

#[test]
fn a_writer_is_a_sink(rt: HostRuntime) -> Result<(), Fail> {
    let mut slow = Slow {
        bytes: Vec::new(rt.alloc()),
        room: 4,
        ready: true,
    };
    {
        let mut sink = OutSink::new(&mut slow);
        assert_eq!(rt; sink.write(b"one"), Ok(()));
        assert_eq!(rt; sink.write(b"two"), Err(SinkFault::Failed));
    }
    assert_eq!(rt; slow.bytes.as_slice(), b"onet".as_slice());
    Ok(())
}

#[test]
fn the_clock_of_the_machine_is_past_2023(rt: HostRuntime) {
    let reading = WallClock::new(&rt).now();
    assert!(rt; reading > 1_700_000_000_000);
}
