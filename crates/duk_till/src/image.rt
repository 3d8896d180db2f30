//! The bytes that the book keeps.

ghost use Rattle.std.specs.Prelude.{◌≡◌, ◌≢◌, ◌≤◌, ◌+◌, ◌++◌, IfOk, IfErr, IfSome, Some, length, replicate};
ghost use Rattle.arrayvec.specs.ArrayVec.{array_vec_len};
ghost use Rattle.duk_frame.specs.declared.code.Code.TheVariants.{Approved};
ghost use Rattle.duk_till.specs.Image.{IsLastBody, amount_in, code_byte, decline_byte, head_bytes, kept_of, last_bytes, state_byte};
ghost use Rattle.duk_till.specs.Last.{AreLastFields, number_of};
ghost use Rattle.duk_till.specs.inner.Till.{IsNoLast};

use crate::fault::TillFault;
use crate::last::Last;
use arrayvec::ArrayVec;
use byteorder::{BigEndian, ByteOrder};
use duk_frame::Code;
use duk_store::{BODY_LENGTH, Body, StoreFault};
use duk_tdes::array_of;
use duk_tree::Ksn;

/// The first byte. No image of a terminal begins with it.
const MARK: u8 = 0x81;

/// The bytes of the states.
const OPEN: u8 = 1;

const APPROVED: u8 = 2;

const DECLINED: u8 = 3;

const UNDONE: u8 = 4;

/// Where the number, the amount and the code begin.
const NUMBER: usize = 2;

const AMOUNT: usize = 12;

const CODE: usize = 16;

/// The bytes in front of the zeros.
const HEAD_LENGTH: usize = 17;

/// What stands in front of the zeros.
type Head = ArrayVec<u8, HEAD_LENGTH>;

/// The body of a last purchase.
pub(crate) fn body_of(last: &Last) -> Body
    ensures { result ≡ last_bytes last.now }
{
    with_zeros(&head_in(last))
}

/// What stands in front of the zeros in it.
fn head_in(last: &Last) -> Head
    ensures bytes { result.items ≡ head_bytes (state_byte last.now) (number_of last.now)
        (amount_in last.now) (decline_byte last.now) }
    ensures len { array_vec_len result ≡ 17 }
{
    match last {
        Last::Open { ksn, amount } => head_of(OPEN, *ksn, *amount, 0),
        Last::Approved { ksn, amount } => head_of(APPROVED, *ksn, *amount, 0),
        Last::Declined { ksn, why } => head_of(DECLINED, *ksn, 0, code_number(*why)),
        Last::Undone { ksn } => head_of(UNDONE, *ksn, 0, 0),
    }
}

/// These bytes, with zeros after them.
fn with_zeros(head: &Head) -> Body
    requires { array_vec_len head.now ≡ 17 }
    ensures { result ≡ head.now.items ++ replicate 486 0 }
{
    let mut body = [0; BODY_LENGTH];
    body[..HEAD_LENGTH].copy_from_slice(head.as_slice());
    body
}

/// These parts of a body in their turn.
fn head_of(state: u8, ksn: Ksn, amount: u32, code: u8) -> Head
    ensures bytes { result.items ≡ head_bytes state ksn amount code }
    ensures len { array_vec_len result ≡ 17 }
{
    let mut head = Head::new();
    append(&mut head, &[MARK, state]);
    append(&mut head, &ksn.bytes());
    append(&mut head, &amount.to_be_bytes());
    append(&mut head, &[code]);
    head
}

/// Appends bytes that there is room for.
fn append(head: &mut Head, bytes: &[u8])
    requires { array_vec_len head.old + length bytes.now ≤ HEAD_LENGTH }
    ensures bytes { head.new.items ≡ head.old.items ++ bytes.now }
    ensures len { array_vec_len head.new ≡ array_vec_len head.old + length bytes.now }
{
    head.try_extend_from_slice(bytes).unwrap();
}

/// A code as a number.
fn code_number(code: Code) -> u8
    ensures { result ≡ code_byte code }
{
    match code {
        Code::Approved => 0,
        Code::NoCard => 14,
        Code::WrongPin => 55,
        Code::OverLimit => 51,
        Code::Unreadable => 30,
    }
}

/// The code of a declined purchase by its number.
fn decline_of_number(number: u8) -> Option<Code>
    ensures found { IfSome result (λ code. code ≢ Approved) }
    ensures every { (code : Code) → code ≢ Approved → code_byte code ≡ number
        → result ≡ Some code }
{
    match number {
        14 => Some(Code::NoCard),
        55 => Some(Code::WrongPin),
        51 => Some(Code::OverLimit),
        30 => Some(Code::Unreadable),
        _ => None,
    }
}

/// The last purchase that a book keeps. Refused with `Store` of `Damaged` where its bytes are no
/// body of one.
pub(crate) fn last_of(kept: &Option<Body>) -> Result<Option<Last>, TillFault>
    ensures found { IfOk result (λ last. kept.now ≡ kept_of last) }
    ensures fields { IfOk result (λ last. IfSome last AreLastFields) }
    ensures refused { IfErr result (IsNoLast kept.now) }
{
    match kept {
        None => Ok(None),
        Some(body) => match last_in(body) {
            Some(last) => Ok(Some(last)),
            None => Err(TillFault::Store(StoreFault::Damaged)),
        },
    }
}

/// The last purchase of a body, where these bytes are one.
fn last_in(body: &Body) -> Option<Last>
    ensures found { IfSome result (IsLastBody body.now) }
    ensures every { (last : Last) → IsLastBody body.now last → result ≡ Some last }
{
    let last = at_its_places(body)?;
    if body_of(&last) == *body {
        Some(last)
    } else {
        None
    }
}

/// What stands where a body has its parts.
fn at_its_places(body: &Body) -> Option<Last>
    ensures fields { IfSome result AreLastFields }
    ensures every { (last : Last) → IsLastBody body.now last → result ≡ Some last }
{
    duk_tree::laws::serials();
    let ksn = Ksn::from_bytes(array_of(&body[NUMBER..AMOUNT]));
    let amount = BigEndian::read_u32(&body[AMOUNT..CODE]);
    match body[1] {
        OPEN => Some(Last::Open { ksn, amount }),
        APPROVED => Some(Last::Approved { ksn, amount }),
        DECLINED => Some(Last::Declined {
            ksn,
            why: decline_of_number(body[CODE])?,
        }),
        UNDONE => Some(Last::Undone { ksn }),
        _ => None,
    }
}
