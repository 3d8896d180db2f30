//! The format of a ledger's disk: a header, and records of 32 bytes with check sums.

ghost use Rattle.std.specs.Prelude.{◌≡◌, ◌≤◌, ◌+◌, ◌++◌, IfSome, length, replicate};
ghost use Rattle.arrayvec.specs.ArrayVec.{array_vec_len};
ghost use Rattle.duk_journal.specs.CheckedFormat.{check_bytes};
ghost use Rattle.duk_ledger.specs.Issued.{AreFields, AreMadeFields};
ghost use Rattle.duk_ledger.specs.IssuedFormat.{issued_format, kind_of, made_bytes, said_by};
ghost use Rattle.duk_ledger.specs.inner.IssuedFormat.{issued_in, made_in};

use crate::issued::{Issued, Made};
use crate::ledger::is_ledger_header;
use arrayvec::ArrayVec;
use byteorder::{BigEndian, ByteOrder};
use duk_journal::{ContentsBytes, RECORD_LENGTH, append, identity_in, with_check};
use duk_store::Format;
use duk_tree::Ksn;

/// The kind of a record whose key was issued.
const ISSUED: u8 = 1;

/// The kind of a record whose number was copied from a ledger in the form of a log.
const COPIED: u8 = 2;

/// The format of a ledger's records: each has one number, and is a group of its own. Its check sum is
/// over the identity of its file, its place, and what it says.
#[derive(Drop)]
pub struct IssuedFormat {}

impl Format for IssuedFormat {
    type Item = Issued;

    ghost meaning = { λ _. issued_format };

    fn laws(&self) {
        duk_tree::laws::serials();
    }

    fn record_length(&self) -> usize {
        RECORD_LENGTH
    }

    fn headers(&self) -> u64 {
        1
    }

    fn is_header(&self, record: &[u8]) -> bool {
        is_ledger_header(record)
    }

    fn identity(&self, header: &[u8]) -> u64 {
        identity_in(header)
    }

    fn write(
        &self,
        identity: u64,
        place: u64,
        _followers: u16,
        item: &Issued,
        contents: &mut [u8],
    ) {
        contents.copy_from_slice(contents_of(identity, place, item).as_slice());
    }

    fn read(&self, identity: u64, place: u64, contents: &[u8]) -> Option<(u16, Issued)> {
        duk_tree::laws::serials();
        let issued = at_its_places(contents);
        let written = contents_of(identity, place, &issued);
        if contents == written.as_slice() {
            Some((0, issued))
        } else {
            None
        }
    }
}

/// The contents of the record at a place with this issue, on the disk of an identity.
fn contents_of(identity: u64, place: u64, issued: &Issued) -> ContentsBytes
    ensures bytes { result.items
        ≡ said_by issued.now ++ check_bytes identity place (said_by issued.now) }
    ensures length { length result.items ≡ 31 }
    ensures fields { AreFields issued.now }
{
    duk_tree::laws::serials();
    with_check(identity, place, plain(issued).as_slice())
}

/// Contents with zeros in the place of their check sum.
#[tactic(auto, unfolding(crate::specs::IssuedFormat::said_by))]
fn plain(issued: &Issued) -> ContentsBytes
    ensures bytes { result.items ≡ said_by issued.now ++ replicate 5 0 }
    ensures length { length result.items ≡ 31 }
    ensures fields { AreFields issued.now }
{
    let mut bytes = ArrayVec::new();
    append(&mut bytes, &[kind_of(issued.made), 0, 0]);
    append(&mut bytes, &issued.number.bytes());
    append_made(&mut bytes, issued.made);
    append(&mut bytes, &[0; 8]);
    bytes
}

/// The kind of a record.
fn kind_of(made: Option<Made>) -> u8
    ensures { result ≡ kind_of made }
{
    match made {
        Some(_) => ISSUED,
        None => COPIED,
    }
}

/// Appends what a record says of how a key was made.
fn append_made(bytes: &mut ContentsBytes, made: Option<Made>)
    requires { array_vec_len bytes.old ≤ 21 }
    ensures bytes { bytes.new.items ≡ bytes.old.items ++ made_bytes made }
    ensures len { array_vec_len bytes.new ≡ array_vec_len bytes.old + 10 }
    ensures fields { IfSome made AreMadeFields }
{
    match made {
        Some(made) => {
            append(bytes, &made.key);
            append(bytes, &made.key_set);
            append(bytes, &made.run.to_be_bytes());
        }
        None => append(bytes, &[0; 10]),
    }
}

/// What stands where contents have an issue.
fn at_its_places(contents: &[u8]) -> Issued
    requires { length contents.now ≡ 31 }
    ensures { result ≡ issued_in contents.now }
{
    let mut number = [0; 10];
    number.copy_from_slice(&contents[3..13]);
    Issued {
        number: Ksn::from_bytes(number).iksn(),
        made: if contents[0] == ISSUED {
            Some(made_at_its_places(contents))
        } else {
            None
        },
    }
}

/// What stands where contents say how a key was made.
fn made_at_its_places(contents: &[u8]) -> Made
    requires { length contents.now ≡ 31 }
    ensures { result ≡ made_in contents.now }
{
    let mut key = [0; 3];
    key.copy_from_slice(&contents[13..16]);
    let mut key_set = [0; 3];
    key_set.copy_from_slice(&contents[16..19]);
    Made {
        key,
        key_set,
        run: BigEndian::read_u32(&contents[19..]),
    }
}
