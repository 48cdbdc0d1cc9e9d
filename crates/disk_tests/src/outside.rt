use fh_model::LAST_SECOND;
use fh_world::{
    Clock, Disk, Failed, FakeClock, FileDisk, FileNo, FuseDisk, MemDisk, MemSink, MemSource,
    RealClock, Sink, Source, StdSink, StdSource, extend_ahead,
};
use std::alloc::Global;
use std::fs;
use std::io::{self, Write};
use std::test::Fail;

/// Writes the bytes behind a file's last byte, and answers the length from before.
fn put<D: Disk>(disk: &mut D, file: FileNo, bytes: &[u8]) -> Result<u64, Failed> {
    let end = disk.len(file)?;
    disk.write_at(file, end, bytes)?;
    Ok(end)
}

/// Whether the file is these bytes.
fn reads<D: Disk>(disk: &mut D, file: FileNo, bytes: &[u8]) -> Result<bool, Failed> {
    let mut buf = [0u8; 8];
    if disk.len(file)? != bytes.len() as u64 || bytes.len() > 8 {
        return Ok(false);
    }
    disk.read_at(file, 0, &mut buf[..bytes.len()])?;
    Ok(&buf[..bytes.len()] == bytes)
}

#[test]
fn a_disk_in_memory_reads_what_was_written(rt: HostRuntime) -> Result<(), Fail> {
    let alloc = rt.alloc();
    let mut disk = MemDisk::with(alloc, b"head", b"", b"slot", b"")?;
    let end = put(&mut disk, FileNo::SlotB, b" b")?;
    assert!(rt; end == 4);
    let same = reads(&mut disk, FileNo::SlotB, b"slot b")?;
    assert!(rt; same);
    assert!(rt; disk.bytes(FileNo::Head) == b"head".as_slice());
    assert!(rt; disk.bytes(FileNo::Blocks).is_empty());
    Ok(())
}

/// How many bytes come behind the end of the first slot, and how long it is extended to.
static EXTENDED: [(usize, usize); 4] = [
    (511, 0),
    (512, 65_536),
    (65_535, 65_536),
    (65_536, 131_072),
];

#[test]
fn a_file_is_extended_where_it_reaches_a_step(rt: HostRuntime) -> Result<(), Fail> {
    let mut disk = MemDisk::new(rt.alloc())?;
    for (count, len) in &EXTENDED {
        let end = disk.bytes(FileNo::SlotA).len() as u64;
        extend_ahead(&mut disk, FileNo::SlotA, end, *count)?;
        assert!(rt; disk.bytes(FileNo::SlotA).len() == *len);
    }
    assert!(rt; disk.bytes(FileNo::SlotB).is_empty());
    Ok(())
}

/// Writes the block file, the first half of which is synced.
fn sync_half(disk: &mut MemDisk) -> Result<(), Failed> {
    put(disk, FileNo::Blocks, b"kept")?;
    disk.sync(FileNo::Blocks)?;
    put(disk, FileNo::Blocks, b"more")?;
    Ok(())
}

/// Choices, and what crashes by them leave of the block file.
static FATES: [(u64, &[u8]); 4] = [
    (0, b"kept"),
    (1, b"keptmore"),
    (2, b"keptmo"),
    (3, b"keptmor"),
];

/// The first choice by which a crash leaves anything else, if there is one.
fn first_other(disk: &MemDisk) -> Result<Option<u64>, Fail> {
    for (fate, left) in &FATES {
        let after = disk.crashed(*fate)?;
        if after.bytes(FileNo::Blocks) != *left {
            return Ok(Some(*fate));
        }
    }
    Ok(None)
}

#[test]
fn a_crash_may_lose_or_cut_what_was_not_synced(rt: HostRuntime) -> Result<(), Fail> {
    let mut disk = MemDisk::new(rt.alloc())?;
    sync_half(&mut disk)?;
    let other = first_other(&disk)?;
    assert!(rt; other == None, "of {other:?}");
    Ok(())
}

/// Whether the first and the third call of a disk fail.
fn disk_fails(alloc: Global) -> Result<bool, Fail> {
    let mut disk = MemDisk::new(alloc)?;
    disk.fail_calls(&[1, 3])?;
    let first = disk.len(FileNo::Head).is_err() && disk.len(FileNo::Head).is_ok();
    Ok(first && disk.len(FileNo::Head).is_err() && disk.len(FileNo::Head).is_ok())
}

/// What five reads give of five bytes in pieces of two, the second of which fails.
static GIVEN: [Result<usize, Failed>; 5] = [Ok(2), Err(Failed), Ok(2), Ok(1), Ok(0)];

/// Whether the reads of a source give this, and the last byte at last.
fn gives(source: &mut MemSource, given: &[Result<usize, Failed>]) -> bool {
    let mut buf = [0u8; 4];
    for count in given {
        if source.read(&mut buf) != *count {
            return false;
        }
    }
    buf[0] == b'e'
}

/// Whether the second read of a source fails, and loses no byte.
fn source_fails(alloc: Global) -> Result<bool, Fail> {
    let mut source = MemSource::new(Vec::from_slice(alloc, b"abcde")?, 2);
    source.fail_calls(&[2])?;
    Ok(gives(&mut source, &GIVEN))
}

/// Whether the first write to a sink fails, and holds nothing.
fn sink_fails(alloc: Global) -> Result<bool, Fail> {
    let mut sink = MemSink::new(alloc);
    sink.fail_calls(&[1])?;
    let is_held = sink.write(b"lost").is_err() && sink.write(b"held").is_ok();
    Ok(is_held && sink.bytes() == b"held".as_slice())
}

#[test]
fn the_calls_with_these_numbers_fail(rt: HostRuntime) -> Result<(), Fail> {
    assert!(rt; disk_fails(rt.alloc())?);
    assert!(rt; source_fails(rt.alloc())?);
    assert!(rt; sink_fails(rt.alloc())?);
    Ok(())
}

/// Whether a byte is put and synced, and then each call fails.
fn blows_behind_sync(fuse: &mut FuseDisk<MemDisk>) -> Result<bool, Failed> {
    put(fuse, FileNo::Head, b"a")?;
    fuse.sync(FileNo::Head)?;
    Ok(fuse.len(FileNo::Head).is_err() && fuse.sync(FileNo::Head).is_err())
}

#[test]
fn a_fuse_passes_its_calls_and_then_fails(rt: HostRuntime) -> Result<(), Fail> {
    let mut fuse = FuseDisk::new(MemDisk::new(rt.alloc())?, 3);
    assert!(rt; blows_behind_sync(&mut fuse)?);
    let mut disk = fuse.into_inner();
    let same = reads(&mut disk, FileNo::Head, b"a")?;
    assert!(rt; same);
    Ok(())
}

/// Whether a byte is put into the head and read again.
fn keeps_a_byte<D: Disk>(disk: &mut D) -> Result<bool, Failed> {
    put(disk, FileNo::Head, b"a")?;
    reads(disk, FileNo::Head, b"a")
}

/// Whether each call at the head fails.
fn fails_at_each(disk: &mut FuseDisk<MemDisk>) -> bool {
    disk.read_at(FileNo::Head, 0, &mut []).is_err()
        && disk.write_at(FileNo::Head, 0, b"b").is_err()
        && disk.len(FileNo::Head).is_err()
        && disk.sync(FileNo::Head).is_err()
}

/// What a disk holds on which a byte was put and read before the fuse blew, and each call failed then.
fn blown(alloc: Global) -> Result<MemDisk, Fail> {
    let mut fuse = FuseDisk::new(MemDisk::new(alloc)?, 4);
    if !keeps_a_byte(&mut fuse)? || !fails_at_each(&mut fuse) {
        return Err("no fault, or one too early".into());
    }
    Ok(fuse.into_inner())
}

#[test]
fn a_blown_fuse_passes_no_call_on(rt: HostRuntime) -> Result<(), Fail> {
    let disk = blown(rt.alloc())?;
    assert!(rt; disk.bytes(FileNo::Head) == b"a".as_slice());
    let left = disk.crashed(0)?;
    assert!(rt; left.bytes(FileNo::Head).is_empty());
    Ok(())
}

/// Writes slot A in the folder, and syncs it.
fn write_slot(rt: HostRuntime, folder: &str) -> Result<(), Failed> {
    let mut disk = FileDisk::open(&rt, folder);
    put(&mut disk, FileNo::SlotA, b"slot a")?;
    disk.sync(FileNo::SlotA)
}

/// Whether the folder has the slot that was written, and nothing else in it is read or written past the last place.
fn has_slot(rt: HostRuntime, folder: &str) -> Result<bool, Failed> {
    let mut disk = FileDisk::open(&rt, folder);
    let same = reads(&mut disk, FileNo::SlotA, b"slot a")?;
    let is_empty = disk.len(FileNo::Head)? == 0;
    let mut buf = [0u8; 1];
    let is_read = disk.read_at(FileNo::Blocks, 0, &mut buf).is_ok();
    let is_written = disk.write_at(FileNo::Blocks, 1 << 62, &[1]).is_ok();
    Ok(same && is_empty && !is_read && !is_written)
}

/// Whether the calls fail where there is no such folder.
fn is_nowhere(rt: HostRuntime, folder: &str) -> bool {
    let mut disk = FileDisk::open(&rt, folder);
    disk.len(FileNo::Head).is_err() && disk.sync(FileNo::SlotB).is_err()
}

#[test]
fn a_folder_keeps_what_was_written(rt: HostRuntime) -> Result<(), Fail> {
    fs::create_dir(&rt, "outside")?;
    write_slot(rt, "outside")?;
    assert!(rt; has_slot(rt, "outside")?);
    assert!(rt; is_nowhere(rt, "nowhere"));
    Ok(())
}

/// A writer that takes nothing.
#[derive(Drop)]
struct Full;

impl Write for Full {
    fn write(&mut self, _: &[u8]) -> io::Result<usize> {
        Ok(0)
    }

    fn flush(&mut self) -> io::Result<()> {
        Ok(())
    }
}

#[test]
fn a_reader_serves_as_a_source(rt: HostRuntime) -> Result<(), Fail> {
    let mut source = StdSource::new(b"abc".as_slice());
    let mut buf = [0u8; 4];
    let count = source.read(&mut buf)?;
    assert!(rt; count == 3 && &buf[..3] == b"abc".as_slice());
    Ok(())
}

#[test]
fn a_writer_serves_as_a_sink(rt: HostRuntime) -> Result<(), Fail> {
    let mut sink = StdSink::new(Vec::new(rt.alloc()));
    sink.write(b"abc")?;
    let mut full = StdSink::new(Full);
    assert!(rt; full.write(b"abc").is_err());
    Ok(())
}

#[test]
fn clocks_tell_the_second(rt: HostRuntime) {
    let mut fake = FakeClock::new(LAST_SECOND - 2);
    fake.advance(2);
    assert!(rt; fake.seconds() == LAST_SECOND);
    let mut real = RealClock::new(&rt);
    let first = real.seconds();
    assert!(rt; first > 1_600_000_000 && real.seconds() >= first);
}
