//! The calls that read, write and link objects, over worked texts that the linker didn't make.

ghost use Rattle.std.specs.Prelude.{◌↔◌, All, IsTrue};
ghost use Rattle.m88_link.specs.Sound.{IsSound};

use m88_base::Image;
use m88_link::{Object, is_sound, link, object_text, read_objects};
use std::alloc::Global;
use std::process::Abort;
use std::test::Fail;

/// Whether all objects are sound.
fn are_sound(objects: &[Object]) -> bool
    ensures { IsTrue result ↔ All IsSound objects.now }
{
    objects.iter().all(|object| is_sound(object))
}

/// The image of objects that are sound and not refused.
fn linked(rt: &impl Abort, alloc: Global, objects: &[Object]) -> Image {
    assert!(rt; are_sound(objects));
    match link(alloc, objects) {
        Ok(image) => image,
        Err(_) => panic!(rt; "refused"),
    }
}

/// A `br.n` to itself, a load of the lower half of the address of `x`, and `x` in data.
const WORKED: &[u8] = b"object main\n\
text 00000008 1\n\
=C400000014400000\n\
data 00000004 1\n\
=00000001\n\
symbol _start g 0 00000000 1 1\n\
symbol x l 1 00000000 4 1\n\
reloc pc26 0 00000000 _start 00000000 1 14\n\
reloc lo16 0 00000004 x 00000000 2 23\n\
end\n";

#[test]
fn a_text_is_read_written_and_linked(rt: HostRuntime) -> Result<(), Fail> {
    let alloc = rt.alloc();
    let objects = read_objects(alloc, WORKED).map_err(|_| "the text is read")?;
    let text = object_text(alloc, &objects).map_err(|_| "memory")?;
    assert!(rt; text.as_slice() == WORKED);
    let image = linked(&rt, alloc, &objects);
    assert!(rt; image.len() == 12 && image.start() == 0x1000);
    for (at, byte) in [
        (0x1000, 0xC4),
        (0x1003, 0x00),
        (0x1004, 0x14),
        (0x1005, 0x40),
        (0x1006, 0x20),
        (0x1007, 0x00),
        (0x2003, 0x01),
    ] {
        assert_eq!(rt; image.byte(at), Some(byte), "{at:08X}");
    }
    Ok(())
}

#[test]
fn objects_follow_one_another(rt: HostRuntime) -> Result<(), Fail> {
    let text = b"object a\ntext 00000000 0\ndata 00000000 4294967295\nend\n\
object .\ntext 00000021 7\n=000102030405060708090A0B0C0D0E0F101112131415161718191A1B1C1D1E1F\n=20\n\
data 00000000 7\nat FFFFFFFF 00000001 9\n=FF\nsymbol k l abs FFFFFFFF 3 6\n\
reloc abs32 0 0000001C k 00000001 7 9\nend\n"
        .as_slice();
    let objects = read_objects(rt.alloc(), text).map_err(|_| "the text is read")?;
    assert!(rt; objects.len() == 2);
    let again = object_text(rt.alloc(), &objects).map_err(|_| "memory")?;
    assert!(rt; again.as_slice() == text);
    Ok(())
}

#[test]
fn a_list_without_objects_has_no_text_and_an_empty_image(rt: HostRuntime) -> Result<(), Fail> {
    let objects = Vec::new(rt.alloc());
    let text = object_text(rt.alloc(), &objects).map_err(|_| "memory")?;
    assert!(rt; text.is_empty());
    let image = linked(&rt, rt.alloc(), &objects);
    assert!(rt; image.len() == 0 && image.start() == 0x1000);
    Ok(())
}
