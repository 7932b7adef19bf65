use fts_disk::{Call, Disk, Failed, Kind, MemDisk};
use std::alloc::Global;
use std::test::Fail;

fn takes_send<T: Send>(_disk: &T) {}

// A device after two writes, a cut and a sync.
fn changed(alloc: Global) -> Result<MemDisk, Fail> {
    let files = vec![in alloc; b"abcdef".to_vec(alloc)?]?;
    let mut disk = MemDisk::from_files(alloc, files, Vec::new(alloc))?;
    if disk.file(0).len() != 6 {
        return Err(Failed.into());
    }
    disk.write_at(0, 4, b"XYZ")?;
    disk.write_at(15, 0, b"new")?;
    if disk.file(0).len() != 7 {
        return Err(Failed.into());
    }
    disk.cut(0, 6)?;
    disk.sync()?;
    Ok(disk)
}

// The three bytes of file 0 from place 3 on.
fn middle(disk: &mut MemDisk) -> Result<[u8; 3], Fail> {
    let mut middle = [0; 3];
    if disk.file(0).len() != 6 {
        return Err(Failed.into());
    }
    disk.read_at(0, 3, &mut middle)?;
    Ok(middle)
}

fn is_changed(disk: &mut MemDisk) -> Result<bool, Fail> {
    let lens = [disk.len(0)?, disk.len(7)?];
    let middle = middle(disk)?;
    Ok(
        disk.file(0) == b"abcdXY".as_slice()
            && disk.file(15) == b"new".as_slice()
            && lens == [6, 0]
            && middle == *b"dXY"
            && (disk.faults(), disk.refused()) == (0, 0),
    )
}

#[test]
fn a_device_is_written_read_and_cut(rt: HostRuntime) -> Result<(), Fail> {
    let mut disk = changed(rt.alloc())?;
    takes_send(&disk);
    assert!(rt; is_changed(&mut disk)?);
    Ok(())
}

// A write that was done.
fn write(alloc: Global, file: u32, at: u64, bytes: &[u8]) -> Result<Call, Fail> {
    let bytes = bytes.to_vec(alloc)?;
    Ok(Call::Write {
        file,
        at,
        bytes,
        done: true,
    })
}

fn are_recorded(alloc: Global, disk: &MemDisk) -> Result<bool, Fail> {
    let calls = [
        write(alloc, 0, 4, b"XYZ")?,
        write(alloc, 15, 0, b"new")?,
        Call::Cut {
            file: 0,
            len: 6,
            done: true,
        },
        Call::Sync { done: true },
        Call::Len {
            file: 7,
            done: true,
        },
        Call::Read {
            file: 0,
            at: 3,
            length: 3,
            done: true,
        },
    ];
    Ok(disk.calls() == calls.as_slice())
}

#[test]
fn each_call_enters_the_record(rt: HostRuntime) -> Result<(), Fail> {
    let mut disk = changed(rt.alloc())?;
    disk.len(7)?;
    middle(&mut disk)?;
    assert!(rt; are_recorded(rt.alloc(), &disk)?);
    Ok(())
}

// The second and the fourth write are to fail, and the first sync.
fn fails_as_named(alloc: Global) -> Result<bool, Fail> {
    let fails = vec![in alloc; (Kind::Write, 2), (Kind::Sync, 1), (Kind::Write, 4)]?;
    let mut disk = MemDisk::from_files(alloc, Vec::new(alloc), fails)?;
    for (byte, good) in [
        (b'a', true),
        (b'b', false),
        (b'c', true),
        (b'd', false),
        (b'e', true),
    ] {
        if disk.write_at(1, 0, &[byte]).is_ok() != good {
            return Ok(false);
        }
    }
    let synced = [disk.sync(), disk.sync()];
    Ok(
        synced == [Err(Failed), Ok(())]
            && disk.file(1) == b"e".as_slice()
            && (disk.faults(), disk.refused()) == (3, 0),
    )
}

#[test]
fn a_named_call_fails_and_changes_nothing(rt: HostRuntime) -> Result<(), Fail> {
    assert!(rt; fails_as_named(rt.alloc())?);
    Ok(())
}

// What a stop in a write of XYZ at place 4 of abcdef leaves, by its number.
const TORN: [&[u8]; 16] = [
    b"abcdef",
    b"abcdXf",
    b"abcdXY",
    b"abcdXYZ",
    b"abcd\x00\x00\x00",
    b"abcdX\x00\x00",
    b"abcdXY\x00",
    b"abcdXYZ",
    b"abcd\x01\x01\x01",
    b"abcdX\x01\x01",
    b"abcdXY\x01",
    b"abcdXYZ",
    b"abcd\xff\xff\xff",
    b"abcdX\xff\xff",
    b"abcdXY\xff",
    b"abcdXYZ",
];

fn is_torn(alloc: Global) -> Result<bool, Fail> {
    let files = vec![in alloc; b"abcdef".to_vec(alloc)?]?;
    let mut disk = MemDisk::from_files(alloc, files, Vec::new(alloc))?;
    if disk.file(0).len() != 6 {
        return Ok(false);
    }
    disk.write_at(0, 4, b"XYZ")?;
    disk.sync()?;
    Ok(leaves_torn(&disk, 0)? && leaves_torn(&disk, 1)?)
}

// A stop in this call of two leaves each of them.
fn leaves_torn(disk: &MemDisk, call: usize) -> Result<bool, Fail> {
    if call >= disk.calls().len() || disk.calls().len() != 2 {
        return Ok(false);
    }
    for (choice, want) in TORN.iter().enumerate() {
        let image = disk.pick_image(call, choice as u64)?;
        if image.file(0) != *want {
            return Ok(false);
        }
    }
    Ok(true)
}

#[test]
fn a_stop_in_a_write_leaves_it_torn_as_a_number_says(rt: HostRuntime) -> Result<(), Fail> {
    assert!(rt; is_torn(rt.alloc())?);
    Ok(())
}

// A device after a write and a sync, a cut and a sync that failed, and a write.
fn stopped(alloc: Global) -> Result<MemDisk, Fail> {
    let fails = vec![in alloc; (Kind::Sync, 2)]?;
    let mut disk = MemDisk::from_files(alloc, Vec::new(alloc), fails)?;
    disk.write_at(2, 0, b"abcdef")?;
    disk.sync()?;
    if disk.file(2).len() != 6 {
        return Err(Failed.into());
    }
    disk.cut(2, 2)?;
    if disk.sync() != Err(Failed) || disk.file(2).len() != 2 {
        return Err(Failed.into());
    }
    disk.write_at(2, 1, b"xyz")?;
    Ok(disk)
}

// A stop in this call of five leaves this of the file.
fn leaves(disk: &MemDisk, call: usize, choice: u64, want: &[u8]) -> Result<bool, Fail> {
    if call >= disk.calls().len() || disk.calls().len() != 5 {
        return Ok(false);
    }
    let image = disk.pick_image(call, choice)?;
    Ok(image.file(2) == want)
}

#[test]
fn a_stop_leaves_what_was_synced_and_some_of_the_rest(rt: HostRuntime) -> Result<(), Fail> {
    let disk = stopped(rt.alloc())?;
    assert!(rt; leaves(&disk, 1, 0x0, b"")?);
    assert!(rt; leaves(&disk, 2, 0x0, b"abcdef")?);
    assert!(rt; leaves(&disk, 2, 0x1, b"abcd")?);
    assert!(rt; leaves(&disk, 3, 0x2, b"abc")?);
    assert!(rt; leaves(&disk, 3, 0x3, b"ab")?);
    assert!(rt; leaves(&disk, 4, 0x30, b"axyzef")?);
    assert!(rt; leaves(&disk, 4, 0x13, b"ax")?);
    assert!(rt; leaves(&disk, 4, 0x73, b"axyz")?);
    Ok(())
}
