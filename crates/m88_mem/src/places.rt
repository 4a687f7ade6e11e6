//! The word of the image at an address, and the bytes of a page.
#![tactic(auto, unfolding(crate::specs::DataBus::image_bytes, m88_isa::specs::Bus::in_words))]

ghost use Rattle.std.specs.Prelude.{◌≡◌, ◌+◌, ◌*◌, ◌%◌, ◌<◌, option_map, replicate, slice_index_or};
ghost use Rattle.std.specs.Int.{to_be_bytes, w32};
ghost use Rattle.m88_base.specs.Found.{filled};
ghost use Rattle.m88_base.specs.Image.{byte_at};
ghost use Rattle.m88_base.specs.Pages.{IsPage, page_bytes};
ghost use Rattle.m88_isa.specs.Bus.{in_words};
ghost use Rattle.m88_isa.specs.Machine.{four_bytes};
ghost use Rattle.m88_mem.specs.DataBus.{image_bus, image_bytes, page_words};

use byteorder::{BigEndian, ByteOrder};
use m88_base::{Image, PAGE_BYTES};

/// The word at an address, where all its four bytes are there.
pub(crate) fn fetched(image: &Image, addr: u32) -> Option<u32>
    requires { addr % 4 ≡ 0 }
    ensures { option_map (λ word. to_be_bytes w32 word) result
        ≡ four_bytes (byte_at image.now) addr }
{
    match image.rest(addr) {
        [first, second, third, fourth, ..] => {
            Some(BigEndian::read_u32(&[*first, *second, *third, *fourth]))
        }
        _ => None,
    }
}

/// The word at an address, with zeros for the bytes that are missing. Of the bytes from an address on it is known where
/// they end, so that a byte is looked up by itself only behind one that is missing; where all four are, that is found
/// at once.
pub(crate) fn image_word(image: &Image, addr: u32) -> u32
    requires { addr % 4 ≡ 0 }
    ensures { result ≡ image_bus image.now addr }
{
    match image.rest(addr) {
        [first, second, third, fourth, ..] => {
            BigEndian::read_u32(&[*first, *second, *third, *fourth])
        }
        [first, second, third] => BigEndian::read_u32(&[*first, *second, *third, 0]),
        [first, second] => {
            BigEndian::read_u32(&[*first, *second, 0, byte_or_zero(image, addr + 3)])
        }
        [first] => {
            let (third, fourth) = pair_at(image, addr + 2);
            BigEndian::read_u32(&[*first, 0, third, fourth])
        }
        [] => match image.first_taken(addr, 4) {
            None => 0,
            Some(_) => {
                let (third, fourth) = pair_at(image, addr + 2);
                BigEndian::read_u32(&[0, byte_or_zero(image, addr + 1), third, fourth])
            }
        },
    }
}

/// The two bytes from an even address on, with 0 for one that is missing.
fn pair_at(image: &Image, addr: u32) -> (u8, u8)
    requires { addr % 2 ≡ 0 }
    ensures { result ≡ (image_bytes image.now addr, image_bytes image.now (addr + 1)) }
{
    match image.rest(addr) {
        [first, second, ..] => (*first, *second),
        [first] => (*first, 0),
        [] => (0, byte_or_zero(image, addr + 1)),
    }
}

/// The bytes at the addresses of a page, with zeros for those that are missing.
pub(crate) fn image_page(image: &Image, page: u32) -> [u8; PAGE_BYTES as usize]
    requires { IsPage page }
    ensures { result ≡ filled (byte_at image.now) (page * page_bytes) (replicate page_bytes 0) }
{
    let mut bytes = [0; PAGE_BYTES as usize];
    image.fill(page * PAGE_BYTES, &mut bytes);
    bytes
}

/// The word at a place among the bytes of a page.
pub(crate) fn page_word(bytes: &[u8; PAGE_BYTES as usize], place: u32) -> u32
    requires { place < page_words }
    ensures { result ≡ in_words (λ a. slice_index_or bytes.now a 0) (place * 4) }
{
    BigEndian::read_u32(&bytes[place as usize * 4..])
}

/// The byte at an address, or 0 where there is none.
fn byte_or_zero(image: &Image, addr: u32) -> u8
    ensures { result ≡ image_bytes image.now addr }
{
    image.byte(addr).unwrap_or(0)
}
