//! The calls that read and write whole S-record texts, over worked ones whose bytes and sums weren't made here.

use m88_base::Image;
use m88_srec::{read_srec, write_srec};
use std::test::Fail;

/// Two instructions at the default start.
pub const PROGRAM: [u8; 8] = [0x58, 0x40, 0x00, 0x41, 0xF0, 0x00, 0xD1, 0xF0];

const PROGRAM_TEXT: &[u8] = b"S00600004D38383C\nS30D0000100058400041F000D1F058\nS70500001000EA\n";

/// A text that is widely given as an example of the format: a program and its greeting, in records of type 1 with a
/// count record.
const GREETING: &[u8] = b"S00F000068656C6C6F202020202000003C\r\n\
S11F00007C0802A6900100049421FFF07C6C1B787C8C23783C6000003863000026\r\n\
S11F001C4BFFFFE5398000007D83637880010014382100107C0803A64E800020E9\r\n\
S111003848656C6C6F20776F726C642E0A0042\r\n\
S5030003F9\r\n\
S9030000FC";

#[test]
fn an_image_is_written_as_the_format_has_it(rt: HostRuntime) -> Result<(), Fail> {
    let mut image = Image::new(rt.alloc());
    image
        .add(0x1000, &PROGRAM)
        .map_err(|_| "an image has room")?;
    let text = write_srec(rt.alloc(), &image).map_err(|_| "memory")?;
    assert!(rt; text.as_slice() == PROGRAM_TEXT);
    Ok(())
}

#[test]
fn texts_of_other_programs_are_read(rt: HostRuntime) -> Result<(), Fail> {
    let image = read_srec(rt.alloc(), GREETING).map_err(|_| "the text is accepted")?;
    assert!(rt; image.len() == 70 && image.start() == 0 && image.part_count() == 1);
    let (at, bytes) = image.part(0);
    assert!(rt; at == 0 && bytes.ends_with(b"Hello world.\n\0"));
    Ok(())
}
