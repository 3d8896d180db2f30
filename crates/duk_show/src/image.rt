//! The command `show image`.

ghost use Rattle.std.specs.Prelude.{◌≡◌, ◌≢◌, ◌<◌, ◌≤◌, ◌+◌, ◌++◌, IfErr, IfOk, MatchBool, decimal, flat_map, length, slice_index};
ghost use Rattle.arrayvec.specs.ArrayVec.{array_vec_len};
ghost use Rattle.duk_commands.specs.Lines.{text_line};
ghost use Rattle.duk_regs.specs.Image.{IsImage, registers_in, set_in};
ghost use Rattle.duk_show.specs.Image.{IsImageFault, IsImageRefused, IsImageText, MeetsImage, as_version_1, image_lines, next_line, past_line, register_line, register_lines, register_words};
ghost use Rattle.duk_show.specs.ImageFault.{image_place, image_size};
ghost use Rattle.duk_show.specs.inner.Image.{AreImageBytes};

use crate::decimal::{push_decimal, push_number_line};
use crate::fault::ShowFault;
use crate::hexadecimal::{HexFault, decode};
use crate::image_fault::ImageFault;
use byteorder::{BigEndian, ByteOrder};
use duk_commands::{LINES_ROOM, Lines, push_end, push_line, push_text, push_text_line};
use duk_io::append_hex;
use duk_regs::{IMAGE_LENGTH, IMAGE_LENGTH_OF_VERSION_1, Registers};
use duk_tdes::array_of;
use duk_tree::{Ksn, usable};
use std::alloc::Global;

/// The counter of a terminal that has used all its numbers.
const SPENT: u32 = 1 << 21;

/// The registers of a terminal.
const PLACES: usize = 21;

/// Where the registers begin in an image, and how long each is.
const REGISTERS: usize = 14;

const REGISTER_LENGTH: usize = 16;

/// Where an image of version 2 says how many numbers are past, and where these begin.
const PAST: usize = 350;

const FIRST_PAST: usize = 351;

/// The bytes of a key serial number.
const SERIAL_LENGTH: usize = 10;

/// The lines of a terminal's image in hexadecimal: its version, its initial key serial number, the
/// number that it uses next, each register as empty or filled, or with `show` its key, and the
/// initial key serial numbers that it had before.
///
/// Refused with `ImageRefused`, where the text is no image: with `Hex` and the first character that
/// is no digit, or with the first wrong field and the byte at which it begins. Memory for the bytes
/// may be refused.
pub fn image_lines(alloc: Global, text: &str, show: bool) -> Result<Lines, ShowFault>
    ensures lines { IfOk result (λ lines. IsImageText text.now show lines.items) }
    ensures refused { IfErr result (IsImageRefused text.now) }
{
    let bytes = match decode(alloc, text) {
        Ok(bytes) => bytes,
        Err(HexFault::OutOfMemory) => return Err(ShowFault::OutOfMemory),
        Err(HexFault::At(place)) => {
            let why = ImageFault::Hex;
            return Err(ShowFault::ImageRefused { place, why });
        }
    };
    let image = bytes.as_slice();
    match lines_of_bytes(image, show) {
        Ok(lines) => Ok(lines),
        Err(why) => {
            let place = place_of(image, why);
            Err(ShowFault::ImageRefused { place, why })
        }
    }
}

/// The lines of the image that the bytes are, or their first wrong field.
fn lines_of_bytes(bytes: &[u8], show: bool) -> Result<Lines, ImageFault>
    ensures lines { IfOk result (λ lines. IsImage bytes.now
        × (lines.items ≡ image_lines show (slice_index bytes.now 0) (set_in bytes.now))) }
    ensures wrong { IfErr result (IsImageFault bytes.now) }
    ensures not_hex { IfErr result (λ why. why ≢ ImageFault.Hex) }
    ensures no_image { IfErr result (λ _. ¬ IsImage bytes.now) }
{
    duk_regs::laws::images();
    match Registers::from_image(bytes) {
        Some(registers) => Ok(lines_of_image(bytes, &registers, show)),
        None => Err(first_wrong(bytes)),
    }
}

/// Where the field of a fault begins.
fn place_of(bytes: &[u8], why: ImageFault) -> usize
    ensures { result ≡ image_place bytes.now why }
{
    match why {
        ImageFault::Hex | ImageFault::Version => 0,
        ImageFault::Length => bytes.len().min(size_of_version(bytes)),
        ImageFault::Iksn => 1,
        ImageFault::Counter => 11,
        ImageFault::Registers => REGISTERS,
        ImageFault::Past => PAST,
    }
}

/// The bytes of an image of the version that these begin with.
fn size_of_version(bytes: &[u8]) -> usize
    ensures { result ≡ image_size bytes.now }
{
    match bytes.first() {
        Some(1) => IMAGE_LENGTH_OF_VERSION_1,
        _ => IMAGE_LENGTH,
    }
}

/// The first wrong field of bytes that are no image.
fn first_wrong(bytes: &[u8]) -> ImageFault
    requires { ¬ IsImage bytes.now }
    ensures wrong { IsImageFault bytes.now result }
    ensures not_hex { result ≢ ImageFault.Hex }
{
    if !has_version(bytes) {
        ImageFault::Version
    } else if bytes.len() != size_of_version(bytes) {
        ImageFault::Length
    } else if !has_iksn(bytes) {
        ImageFault::Iksn
    } else if !has_counter(bytes) {
        ImageFault::Counter
    } else if !has_registers(bytes) {
        ImageFault::Registers
    } else {
        ImageFault::Past
    }
}

/// Whether the bytes begin with a known version.
fn has_version(bytes: &[u8]) -> bool
    ensures { MatchBool result (MeetsImage bytes.now ImageFault.Version)
        (¬ MeetsImage bytes.now ImageFault.Version) }
{
    matches!(bytes.first(), Some(1 | 2))
}

/// Whether the counter bits of the initial key serial number are zero.
fn has_iksn(bytes: &[u8]) -> bool
    requires { 350 ≤ length bytes.now }
    ensures { MatchBool result (MeetsImage bytes.now ImageFault.Iksn)
        (¬ MeetsImage bytes.now ImageFault.Iksn) }
{
    Ksn::from_bytes(array_of(&bytes[1..11])).counter() == 0
}

/// Whether the next counter is one.
fn has_counter(bytes: &[u8]) -> bool
    requires { 350 ≤ length bytes.now }
    ensures { MatchBool result (MeetsImage bytes.now ImageFault.Counter)
        (¬ MeetsImage bytes.now ImageFault.Counter) }
{
    let counter = BigEndian::read_u24(&bytes[11..14]);
    counter == SPENT || usable(counter)
}

/// Whether the registers are those of an image.
fn has_registers(bytes: &[u8]) -> bool
    requires { 350 ≤ length bytes.now }
    ensures { MatchBool result (MeetsImage bytes.now ImageFault.Registers)
        (¬ MeetsImage bytes.now ImageFault.Registers) }
{
    Registers::from_image(&as_version_1(bytes)).is_some()
}

/// The bytes as an image of version 1.
fn as_version_1(bytes: &[u8]) -> [u8; IMAGE_LENGTH_OF_VERSION_1]
    requires { 350 ≤ length bytes.now }
    ensures { result ≡ as_version_1 bytes.now }
{
    let mut image = [1; IMAGE_LENGTH_OF_VERSION_1];
    image[1..].copy_from_slice(&bytes[1..IMAGE_LENGTH_OF_VERSION_1]);
    image
}

/// The lines of an image.
fn lines_of_image(bytes: &[u8], registers: &Registers, show: bool) -> Lines
    requires image { AreImageBytes bytes.now }
    requires registers { registers.now ≡ set_in bytes.now }
    ensures { result.items ≡ image_lines show (slice_index bytes.now 0) (set_in bytes.now) }
{
    let mut lines = Lines::new();
    push_number_line(&mut lines, b"version", usize::from(bytes[0]));
    push_line(
        &mut lines,
        b"iksn",
        &Ksn::from_bytes(array_of(&bytes[1..11])).iksn().bytes(),
    );
    push_next(&mut lines, registers);
    push_registers(&mut lines, bytes, show);
    push_past(&mut lines, bytes);
    lines
}

/// Appends the line of the number that the terminal uses next.
fn push_next(lines: &mut Lines, registers: &Registers)
    requires room { array_vec_len lines.old + 30 ≤ LINES_ROOM }
    ensures line { lines.new.items ≡ lines.old.items ++ next_line registers.now }
    ensures len { array_vec_len lines.new ≤ array_vec_len lines.old + 30 }
{
    match registers.ksn() {
        Some(ksn) => push_line(lines, b"next", &ksn.bytes()),
        None => push_text_line(lines, b"next", b"spent"),
    }
}

/// Appends the lines of the registers.
fn push_registers(lines: &mut Lines, bytes: &[u8], show: bool)
    requires size { 350 ≤ length bytes.now }
    requires room { array_vec_len lines.old + 2100 ≤ LINES_ROOM }
    ensures lines { lines.new.items
        ≡ lines.old.items ++ register_lines show (registers_in bytes.now) 21 }
    ensures len { array_vec_len lines.new ≤ array_vec_len lines.old + 2100 }
{
    for place in 0..PLACES {
        let start = REGISTERS + REGISTER_LENGTH * place;
        let register = array_of(&bytes[start..start + REGISTER_LENGTH]);
        push_register(lines, place, register, show);
    }
}

/// Appends the line of a register.
fn push_register(lines: &mut Lines, place: usize, register: [u8; REGISTER_LENGTH], show: bool)
    requires place { place < 21 }
    requires room { array_vec_len lines.old + 100 ≤ LINES_ROOM }
    ensures line { lines.new.items ≡ lines.old.items ++ register_line show place register }
    ensures len { array_vec_len lines.new ≤ array_vec_len lines.old + 100 }
{
    push_text(lines, b"register ");
    push_decimal(lines, place);
    push_text(lines, b" ");
    push_decimal(lines, PLACES - place);
    push_text(lines, b" ");
    push_key(lines, register, show);
    push_end(lines);
}

/// Appends what is shown of a register.
fn push_key(lines: &mut Lines, register: [u8; REGISTER_LENGTH], show: bool)
    requires room { array_vec_len lines.old + 32 ≤ LINES_ROOM }
    ensures words { lines.new.items ≡ lines.old.items ++ register_words show register }
    ensures len { array_vec_len lines.new ≤ array_vec_len lines.old + 32 }
{
    if register == [0; REGISTER_LENGTH] {
        push_text(lines, b"empty");
    } else if show {
        append_hex(lines, &register);
    } else {
        push_text(lines, b"filled");
    }
}

/// Appends the lines of the initial key serial numbers that the terminal had before.
fn push_past(lines: &mut Lines, bytes: &[u8])
    requires image { AreImageBytes bytes.now }
    requires room { array_vec_len lines.old + 400 ≤ LINES_ROOM }
    ensures { lines.new.items ≡ lines.old.items ++ flat_map past_line (set_in bytes.now).past }
{
    if bytes[0] == 1 {
        return;
    }
    let count = usize::from(bytes[PAST]);
    for place in 0..count {
        let start = FIRST_PAST + SERIAL_LENGTH * place;
        let ksn = Ksn::from_bytes(array_of(&bytes[start..start + SERIAL_LENGTH]));
        push_line(lines, b"past", &ksn.iksn().bytes());
    }
}
