//! MACs and enciphered bytes: each message is made of the answer before it, so that none can be
//! left out.
ghost use Rattle.std.specs.Prelude.{◌≡◌, ◌≤◌, ◌%◌, length};

use duk_mac::{cmac, retail};
use duk_tdes::{Key, cbc_decrypt, cbc_encrypt};

const KEY: u128 = 0x4CF15134_A2850DD5_8A3D10BA_80570D38;

/// What is done with a message.
#[derive(Clone, Copy)]
pub enum Work {
    /// Its CMAC takes the place of its first block.
    Cmac,
    /// Its retail MAC takes that place.
    Retail,
    /// It is enciphered in place.
    Encrypt,
    /// It is deciphered in place.
    Decrypt,
}

impl Work {
    /// The work of this name.
    pub fn named(name: &str) -> Option<Work> {
        match name {
            "cmac" => Some(Work::Cmac),
            "retail" => Some(Work::Retail),
            "cbc-encrypt" => Some(Work::Encrypt),
            "cbc-decrypt" => Some(Work::Decrypt),
            _ => None,
        }
    }

    /// Does it so many times with a message, where this has whole blocks.
    pub fn repeat(self, count: u32, message: &mut [u8]) {
        let key = Key::new(KEY.to_be_bytes());
        for _ in 0..count {
            if message.len() >= 8 && message.len() % 8 == 0 {
                self.once(&key, message);
            }
        }
    }

    /// Does it once.
    fn once(self, key: &Key<16>, message: &mut [u8])
        requires some { 8 ≤ length message.old }
        requires whole { length message.old % 8 ≡ 0 }
    {
        match self {
            Work::Cmac => {
                let mac = cmac(key, message);
                message[..8].copy_from_slice(&mac);
            }
            Work::Retail => {
                let mac = retail(key, message);
                message[..8].copy_from_slice(&mac);
            }
            Work::Encrypt => cbc_encrypt(key, [0; 8], message),
            Work::Decrypt => cbc_decrypt(key, [0; 8], message),
        }
    }
}
