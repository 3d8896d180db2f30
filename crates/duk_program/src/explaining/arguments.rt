//! Arguments that are refused, by their names.

use crate::explaining::paths::File;
use crate::explaining::seen::{Found, Seen};
use crate::explaining::texts::{About, Kind, measured, takes};
use crate::message::{Message, message_of};
use duk_commands::read_decimal;
use duk_tree::{Iksn, Ksn};

/// What is wanted of a key of 16 bytes.
pub(crate) const DOUBLE: &str = "32 hexadecimal digits";

/// What is wanted of a key of 16 or 24 bytes.
pub(crate) const DOUBLE_OR_TRIPLE: &str = "32 or 48 hexadecimal digits";

/// What is wanted of bytes.
pub(crate) const PAIRS: &str = "pairs of hexadecimal digits";

/// The greatest COUNT and K of `walk`.
const MOST_NUMBERS: u32 = 1_048_576;

/// How many initial key serial numbers a key set has.
const KEY_SET_SIZE: u32 = 524_288;

/// What is told of the argument with this name, which is refused.
pub(crate) fn refused(about: About<'_, '_>, name: &'static str) -> Seen {
    about.seen(name, kind_of(about, name), wanted_of(about, name))
}

/// A TEXT. Of one that refers to other bytes these are not told.
pub(crate) fn text(about: About<'_, '_>) -> Seen {
    let wanted = wanted_of(about, "TEXT");
    match message_of(about.text("TEXT", 0)) {
        Message::Own(text) => {
            Seen::new("TEXT", measured(kind_of(about, "TEXT"), text)).wanted(wanted)
        }
        Message::File(_) | Message::Input => {
            Seen::new("TEXT", Found::Words("other bytes"))
                .of(File::Reference)
                .wanted(wanted)
        }
    }
}

/// Which bytes are wanted of an argument.
fn kind_of(about: About<'_, '_>, name: &str) -> Kind {
    let has = |option: &str| about.request.flag(option);
    match name {
        "AMOUNT" | "COUNT" | "K" | "N" | "PAN" | "PIN" | "RECORDS" => Kind::Decimal,
        "FIELDS" | "KIND" => Kind::Any,
        "TEXT" if !(has("hex") || has("decipher")) => Kind::Any,
        _ => Kind::Hexadecimal,
    }
}

/// What is wanted of an argument.
fn wanted_of(about: About<'_, '_>, name: &str) -> &'static str {
    let has = |option: &str| about.request.flag(option);
    let enciphers = takes(about.request.command(), "iv");
    match name {
        "AMOUNT" => "a number up to 4294967295",
        "ANSWER" => "the frame of a reply or of a refusal; show frame tells its fields",
        "COUNT" | "K" => "a number up to 1048576",
        "FIELDS" => "7 bytes",
        "IKSN" => "20 hexadecimal digits, the last 21 bits zeros",
        "KBPK" | "LOADING" | "ZONE" => DOUBLE_OR_TRIPLE,
        "KCV" => "6 hexadecimal digits",
        "KEY" if enciphers || wraps(about) => DOUBLE_OR_TRIPLE,
        "KEY" if has("cmac") => DOUBLE_OR_TRIPLE,
        "BDK" | "KEY" => DOUBLE,
        "KIND" => "frame, block, image, log, journal or ledger",
        "KSN" | "NUMBER" => "20 hexadecimal digits",
        "N" => "1 to 100000",
        "PAN" => "12 to 19 decimal digits",
        "PIN" => "4 to 12 decimal digits",
        "RECORDS" => "1 to 1000000000",
        "REQUEST" => {
            "the frame of a request or a reversal whose number is usable; \
            show frame tells its fields"
        }
        "TEXT" if enciphers && (has("hex") || has("decipher")) => {
            "16 hexadecimal digits for each of 1 to 255 blocks"
        }
        "TEXT" if enciphers => "8 bytes for each of 1 to 255 blocks",
        "TEXT" if !has("hex") => "one byte or more",
        "TEXT" | "PAD" => PAIRS,
        "WHAT" if !(has("text") || has("pan") || has("clear")) => {
            "the frame of a request, a reversal or a reply, which has a MAC; \
            show frame tells its fields"
        }
        _ => "16 hexadecimal digits",
    }
}

/// Whether a key is wrapped in a key block.
pub(crate) fn wraps(about: About<'_, '_>) -> bool {
    about.request.flag("FIELDS") || about.request.flag("fields")
}

/// A key; of several the first that is none, or else the first whose length is not that of KEY 1.
pub(crate) fn key(about: About<'_, '_>) -> Seen {
    if !takes(about.request.command(), "components") {
        return refused(about, "KEY");
    }
    let count = about.request.count("KEY");
    let length = about.text("KEY", 0).len();
    let none = (0..count).find(|place| !is_key(about.text("KEY", *place)));
    let other = (0..count).find(|place| about.text("KEY", *place).len() != length);
    let (place, wanted) = match none {
        Some(place) => (place, DOUBLE_OR_TRIPLE),
        None => (other.unwrap_or(0), "as many digits as KEY 1"),
    };
    let seen = about.seen_at("KEY", place, Kind::Hexadecimal);
    seen.wanted(wanted)
}

/// Whether a text is a key of 16 or 24 bytes.
fn is_key(text: &str) -> bool {
    matches!(
        measured(Kind::Hexadecimal, text),
        Found::Text(32 | 48, None)
    )
}

/// An initial key serial number: a byte is wrong that is no hexadecimal digit, and in 20 digits the
/// first that has a one bit of the counter, which are the last 21 bits.
pub(crate) fn iksn(about: About<'_, '_>) -> Seen {
    let counter = Ksn::parse(about.text("IKSN", 0)).map(|ksn| ksn.counter());
    let wrong = counter.map(|counter| 12 + counter.leading_zeros() as usize / 4);
    refused(about, "IKSN").with(wrong.map(|wrong| Found::Text(20, Some(wrong))))
}

/// A key serial number whose counter numbers no transaction.
pub(crate) fn counter(about: About<'_, '_>) -> Seen {
    let ksn = Ksn::parse(about.text("KSN", 0));
    let ones = ksn.map_or(0, |ksn| ksn.counter().count_ones());
    let wanted = "1 to 10; walk prints the numbers that a terminal uses";
    Seen::new("KSN", Found::Ones(ones)).wanted(wanted)
}

/// COUNT of `walk`, or its K.
pub(crate) fn walk_count(about: About<'_, '_>) -> Seen {
    match read_decimal(about.text("COUNT", 0), MOST_NUMBERS) {
        Some(_) => refused(about, "K"),
        None => refused(about, "COUNT"),
    }
}

/// COUNT of `issue`: the number itself, where it has at most 20 digits.
pub(crate) fn issue_count(about: About<'_, '_>) -> Seen {
    let mut seen = about.seen(
        "COUNT",
        Kind::Decimal,
        "as many as are left in IKSN's key set",
    );
    if let (Found::Text(1..=20, None), Ok(number)) = (seen.found, about.text("COUNT", 0).parse()) {
        seen.found = Found::Count(number, about.text("COUNT", 0).len());
    }
    seen.left = Iksn::parse(about.text("IKSN", 0)).map(numbers_left);
    seen
}

/// How many initial key serial numbers are left in the key set of one, from that on.
fn numbers_left(first: Iksn) -> u32 {
    let place = (first.number() >> 21) % u128::from(KEY_SET_SIZE);
    KEY_SET_SIZE - place as u32
}
