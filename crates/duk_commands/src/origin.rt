//! Where something comes from: a key of a number, and what is done under it.

ghost use Rattle.std.specs.Prelude.{◌≡◌, ◌<◌, ◌≤◌, length};
ghost use Rattle.duk_commands.specs.Origin.{key_for, use_name, use_rank, way_text};

use duk_data::{request_data_key, response_data_key};
use duk_tdes::Key;
use duk_tree::{pin_key, request_key, response_key};

/// A key of a number.
#[derive(Clone, Copy)]
pub(crate) enum KeyUse {
    /// The transaction key itself.
    Transaction,
    /// Its variant for PINs.
    Pin,
    /// Its variant for the MACs of requests.
    RequestMac,
    /// Its variant for the MACs of responses.
    ResponseMac,
    /// The key for the data of requests.
    RequestData,
    /// The key for the data of responses.
    ResponseData,
}

/// What is done under a key.
#[derive(Clone, Copy)]
pub(crate) enum Way {
    /// The retail MAC (ANSI X9.19).
    Retail,
    /// The CMAC (NIST SP 800-38B).
    Cmac,
    /// A block is enciphered by TDES.
    Cipher,
}

/// Where something comes from.
#[derive(Clone, Copy)]
pub(crate) struct Origin {
    /// The key.
    pub(crate) key: KeyUse,
    /// What is done under it.
    pub(crate) way: Way,
}

/// How many keys a number has.
pub(crate) const USES: u8 = 6;

impl KeyUse {
    /// The use at a place, from 0, in the order in which the keys are tried.
    pub(crate) fn at(place: u8) -> KeyUse
        requires { place < USES }
        ensures { use_rank result ≡ place }
    {
        match place {
            0 => KeyUse::Transaction,
            1 => KeyUse::Pin,
            2 => KeyUse::RequestMac,
            3 => KeyUse::ResponseMac,
            4 => KeyUse::RequestData,
            _ => KeyUse::ResponseData,
        }
    }

    /// The key for this use, of a transaction key.
    pub(crate) fn key(self, key: &Key<16>) -> Key<16>
        ensures { result ≡ key_for self key.now }
    {
        match self {
            KeyUse::Transaction => *key,
            KeyUse::Pin => pin_key(key),
            KeyUse::RequestMac => request_key(key),
            KeyUse::ResponseMac => response_key(key),
            KeyUse::RequestData => request_data_key(key),
            KeyUse::ResponseData => response_data_key(key),
        }
    }

    /// The name of the use.
    pub(crate) fn name(self) -> &'static str
        ensures name { result.now ≡ use_name self }
        ensures short { length result.now ≤ 13 }
    {
        match self {
            KeyUse::Transaction => "key",
            KeyUse::Pin => "pin",
            KeyUse::RequestMac => "request-mac",
            KeyUse::ResponseMac => "response-mac",
            KeyUse::RequestData => "request-data",
            KeyUse::ResponseData => "response-data",
        }
    }
}

impl Way {
    /// What stands behind the key's name: a space and the MAC, or nothing of a cipher.
    pub(crate) fn text(self) -> &'static str
        ensures text { result.now ≡ way_text self }
        ensures short { length result.now ≤ 7 }
    {
        match self {
            Way::Retail => " retail",
            Way::Cmac => " cmac",
            Way::Cipher => "",
        }
    }
}
