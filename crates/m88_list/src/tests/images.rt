//! Images as they are made, part by part, and a choice of absent pages: what joins, what is refused, what is copied,
//! and what is written over a room.

use arrayvec::ArrayVec;
use m88_base::{Absent, Image, ImageFault};

#[test]
fn an_image_joins_what_touches_and_refuses_what_overlaps(rt: HostRuntime) {
    let mut image = Image::new(rt.alloc());
    assert!(rt; image.is_empty());
    let many = [0u8; 1024];
    for (at, bytes, want, len, parts) in [
        (0x1000, b"abcd".as_slice(), Ok(()), 4, 1),
        (0x1008, b"j", Ok(()), 5, 2),
        (0x0FFE, b"xy", Ok(()), 7, 2),
        (0x1004, b"ef", Ok(()), 9, 2),
        (0x0FFD, b"ab", Err(ImageFault::Overlap(0x0FFE)), 9, 2),
        (0x1006, b"ghi", Err(ImageFault::Overlap(0x1008)), 9, 2),
        (0x1002, b"c", Err(ImageFault::Overlap(0x1002)), 9, 2),
        (0xFFFF_FFFF, b"yz", Err(ImageFault::TooLarge), 9, 2),
        (0x1006, b"gh", Ok(()), 11, 1),
        (0xFFFF_FFFF, b"z", Ok(()), 12, 2),
        (0x2000, b"", Ok(()), 12, 2),
    ] {
        assert_eq!(rt; image.add(at, bytes), want, "at {at}");
        assert_eq!(rt; (image.len(), image.part_count()), (len, parts), "at {at}");
    }
    assert!(rt; image.part_count() == 2);
    assert_eq!(rt; image.part(0), (0x0FFE, b"xyabcdefghj".as_slice()));
    assert_eq!(rt;
        (image.byte(0x1007), image.byte(0x0FFD)),
        (Some(b'h'), None)
    );
    for block in 0..1023u32 {
        assert_eq!(rt;
            image.add(0x10_0000 + block * 1024, &many),
            Ok(()),
            "block {block}"
        );
    }
    assert_eq!(rt; image.add(0x20_0000, &many), Err(ImageFault::TooLarge));
    assert_eq!(rt; (image.len(), image.part_count()), (1_047_564, 3));
}

#[test]
fn parts_of_many_blocks_become_one_in_either_order(rt: HostRuntime) {
    for falling in [false, true] {
        let mut image = Image::new(rt.alloc());
        for (first, parts, gap) in [(0u32, 3000, None), (1, 1, Some(b'm'))] {
            for turn in 0..3000u32 {
                let place = if falling { 2999 - turn } else { turn };
                assert_eq!(rt;
                    image.add(0x1000 + first + 2 * place, b"m"),
                    Ok(()),
                    "{first} {place}"
                );
            }
            assert_eq!(rt; image.part_count(), parts, "{falling}");
            assert_eq!(rt; (image.byte(0x1D48), image.byte(0x1D49)), (Some(b'm'), gap));
        }
    }
}

#[test]
fn a_room_takes_the_bytes_of_each_part(rt: HostRuntime) {
    let mut image = Image::new(rt.alloc());
    for place in 0..600u32 {
        assert_eq!(rt; image.add(0x1000 + 2 * place, b"m"), Ok(()), "{place}");
    }
    assert_eq!(rt; image.add(0x1800, b"abcdefgh"), Ok(()));
    for (at, want) in [
        (0x0FFD, b"...m"),
        (0x1000, b"m.m."),
        (0x11FF, b".m.m"),
        (0x14AE, b"m..."),
        (0x17FE, b"..ab"),
        (0x1802, b"cdef"),
        (0x1806, b"gh.."),
        (0xFFFF_FFFE, b"...."),
    ] {
        let mut room = *b"....";
        image.fill(at, &mut room);
        assert_eq!(rt; room, *want, "at {at}");
    }
}

#[test]
fn a_choice_of_absent_pages_is_copied(rt: HostRuntime) {
    let mut pages = ArrayVec::new();
    for page in [5, 0xF_FFFF, 5] {
        if !pages.is_full() {
            pages.push(page);
        }
    }
    let copied = match Absent::Pages(pages).copy() {
        Absent::Pages(pages) => pages.as_slice() == [5, 0xF_FFFF, 5].as_slice(),
        _ => false,
    };
    assert!(rt; copied);
    assert!(rt; matches!(Absent::None.copy(), Absent::None));
    assert!(rt; matches!(Absent::All.copy(), Absent::All));
}
