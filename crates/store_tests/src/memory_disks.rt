//! The disk in memory, on which a trial keeps its office.

use memory_disk::MemoryDisk;
use sqlite_disk::Disk;
use std::test::Fail;

/// A write behind the end fills what lies between with zeros. A file can be made shorter and longer again. Nothing is
/// read beyond its end.
#[test]
fn what_is_written_is_read(rt: HostRuntime) -> Result<(), Fail> {
    let mut disk = MemoryDisk::new(rt.alloc());
    let mut read = [b'x'; 5];
    disk.write_at(2, b"abc")?;
    disk.sync()?;
    disk.read_at(0, &mut read)?;
    assert_eq!(rt; &read, b"\0\0abc");
    disk.write_at(1, b"de")?;
    disk.set_len(4)?;
    assert_eq!(rt; disk.len()?, 4);
    assert!(rt; disk.read_at(0, &mut read).is_err());
    disk.set_len(5)?;
    disk.read_at(0, &mut read)?;
    assert_eq!(rt; &read, b"\0deb\0");
    Ok(())
}
