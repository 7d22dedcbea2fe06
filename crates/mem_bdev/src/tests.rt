ghost use Rattle.std.specs.Prelude.{◌≡◌, ◌*◌, ◌^◌, length};
ghost use Rattle.mem_bdev.specs.Blocks.{IsShape};
ghost use Rattle.mem_bdev.specs.Texts.{HasRoom, appended};

use super::*;
use std::alloc::Global;
use std::process::Abort;
use std::test::Fail;

#[test]
fn holds_what_was_written_and_zeroed(rt: HostRuntime) -> Result<(), Fail> {
    let mut disk = Disk::new(rt.alloc(), 9, 4)?;
    assert_eq!(rt; disk.blocks(), 4);
    assert_eq!(rt; disk.block_size(), 512);
    let mut from = [7; 1024];
    from[512] = 9;
    disk.write(1, &from);
    disk.zero(1, 1);
    let mut to = [1; 2048];
    disk.read(0, &mut to);
    assert_eq!(rt; &to[..1024], [0; 1024].as_slice());
    assert_eq!(rt; to[1024], 9);
    assert_eq!(rt; &to[1025..1536], [7; 511].as_slice());
    assert_eq!(rt; &to[1536..], [0; 512].as_slice());
    let mut text = Buffer::with_room(rt.alloc(), 1024)?;
    disk.append(1, 2, &mut text);
    assert_eq!(rt; text.bytes(), &to[512..1536]);
    Ok(())
}

// The largest transfer, from a disk of exactly its size to a buffer of exactly its room.
fn read_whole(rt: &impl Abort, alloc: Global, shift: u8, blocks: u64) -> Result<(), Fail>
    requires shape { IsShape shift blocks }
    requires size { blocks * 2 ^ shift ≡ MAX_TRANSFER }
{
    let disk = Disk::new(alloc, shift, blocks)?;
    let mut to = Buffer::with_room(alloc, MAX_TRANSFER)?;
    disk.append(0, blocks, &mut to);
    let bytes = to.bytes();
    assert_eq!(rt; bytes.len(), MAX_TRANSFER);
    assert_eq!(rt; bytes[0], 0);
    assert_eq!(rt; bytes[131_071], 0);
    Ok(())
}

#[test]
fn the_largest_transfer_fills_its_room(rt: HostRuntime) -> Result<(), Fail> {
    read_whole(&rt, rt.alloc(), 9, 256)?;
    read_whole(&rt, rt.alloc(), 12, 32)
}

#[test]
fn a_buffer_takes_its_last_byte(rt: HostRuntime) -> Result<(), Fail> {
    let mut disk = Disk::new(rt.alloc(), 12, 2)?;
    disk.write(1, &[5; 4096]);
    let mut to = Buffer::with_room(rt.alloc(), 8196)?;
    to.put(b"abc");
    disk.append(0, 2, &mut to);
    to.put(b"z");
    assert_eq!(rt; to.len(), 8196);
    to.write_at(1, b"yz");
    let bytes = to.bytes();
    assert_eq!(rt; bytes.len(), 8196);
    assert_eq!(rt; &bytes[..3], b"ayz".as_slice());
    assert_eq!(rt; bytes[3 + 4095], 0);
    assert_eq!(rt; bytes[3 + 4096], 5);
    assert_eq!(rt; bytes[3 + 8191], 5);
    assert_eq!(rt; bytes[8195], b'z');
    to.clear();
    assert!(rt; to.bytes().is_empty());
    to.put(&[1; 8196]);
    assert_eq!(rt; to.bytes(), [1; 8196].as_slice());
    Ok(())
}

// Writes a page of these bytes in place, after what stands.
fn put_page(to: &mut Buffer, page: &[u8])
    requires { HasRoom to.old (length page.now) }
    ensures { to.new ≡ appended to.old page.now }
{
    let at = to.len();
    let bytes = to.fill(page.len());
    bytes[at..].copy_from_slice(page);
}

#[test]
fn pages_are_written_in_place(rt: HostRuntime) -> Result<(), Fail> {
    let mut to = Buffer::with_room(rt.alloc(), 8)?;
    to.put(b"head");
    put_page(&mut to, b"page");
    assert_eq!(rt; to.bytes(), b"headpage".as_slice());
    Ok(())
}

#[test]
fn names_and_shapes(rt: HostRuntime) -> Result<(), Fail> {
    for (shift, blocks, want) in [
        (9, 1, true),
        (9, 32_768, true),
        (9, 32_769, false),
        (9, 0, false),
        (12, 4_096, true),
        (12, 4_097, false),
        (10, 1, false),
    ] {
        let path = Name::copied(rt.alloc(), b"/dev/ram0")?;
        assert_eq!(rt; path.as_text(), Some("/dev/ram0"));
        let line = DiskLine {
            path,
            shift,
            blocks,
        };
        assert_eq!(rt;
            line.is_shape(),
            want,
            "{blocks} blocks of 2 ^ {shift} bytes"
        );
    }
    let bytes = Name::copied(rt.alloc(), b"q1")?.into_vec();
    assert_eq!(rt; Name::from_vec(bytes).as_bytes(), b"q1".as_slice());
    Ok(())
}
