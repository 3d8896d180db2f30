//! The bytes that a terminal keeps in its cell.

ghost use Rattle.std.specs.Prelude.{◌≡◌, ◌↔◌, ◌++◌, IsSome, IfSome};
ghost use Rattle.duk_regs.specs.Registers.{HaveSixteenBytes, IsRegisterSet};
ghost use Rattle.duk_term.specs.Body.{IsTerminalBody, KeepsRegisters, body_bytes, image_length, set_of_body};

use duk_regs::{IMAGE_LENGTH, IMAGE_LENGTH_OF_VERSION_1, Registers, are_zeros};
use duk_store::{BODY_LENGTH, Body};

/// The body of these registers: their image, with zero bytes after it.
pub(crate) fn body_of(registers: &Registers) -> Body
    ensures body { result ≡ body_bytes registers.now }
    ensures set { IsRegisterSet registers.now }
    ensures sixteen { HaveSixteenBytes registers.now.registers }
{
    let mut body = [0; BODY_LENGTH];
    body[..IMAGE_LENGTH].copy_from_slice(&registers.image());
    body
}

/// The registers of a body, where these bytes are one: an image of either version, with zero bytes
/// after it.
pub(crate) fn registers_in(body: &Body) -> Option<Registers>
    ensures found { IsSome result ↔ IsTerminalBody body.now }
    ensures set { IfSome result (λ registers. registers ≡ set_of_body body.now) }
    ensures keeps { IfSome result (KeepsRegisters body.now) }
{
    duk_regs::laws::images();
    let (image, rest) = body.split_at(length_of_image(body));
    if !are_zeros(rest) {
        return None;
    }
    Registers::from_image(image)
}

/// The bytes of the image in a body, by its version.
fn length_of_image(body: &Body) -> usize
    ensures { result ≡ image_length body.now }
{
    if body[0] == 1 {
        IMAGE_LENGTH_OF_VERSION_1
    } else {
        IMAGE_LENGTH
    }
}
