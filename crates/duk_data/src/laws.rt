//! Laws of data keys, each the contract of a function that does nothing.

ghost use Rattle.std.specs.Prelude.{◌≡◌, ℕ, List};
ghost use Rattle.duk_data.specs.DataKeys.{request_data_key_of, response_data_key_of};
ghost use Rattle.duk_des.specs.Block.{IsBlock};
ghost use Rattle.duk_tdes.specs.Cbc.{AreWholeBlocks, cbc_decrypted, cbc_encrypted};
ghost use Rattle.duk_tdes.specs.Key.{IsKey};

/// The data keys of any bytes are keys of sixteen bytes.
pub fn keys()
    ensures request { (key : List ℕ) → IsKey 16 (request_data_key_of key) }
    ensures response { (key : List ℕ) → IsKey 16 (response_data_key_of key) }
{
    duk_tdes::laws::blocks();
    duk_tdes::laws::keys();
}

/// Whole blocks of data that are enciphered under a data key, from any initial vector, are found
/// again by deciphering under the same key from the same vector.
pub fn inverse()
    ensures request { (key initial_vector bytes : List ℕ)
        → IsBlock initial_vector → AreWholeBlocks bytes
        → cbc_decrypted (request_data_key_of key) initial_vector
        (cbc_encrypted (request_data_key_of key) initial_vector bytes) ≡ bytes }
    ensures response { (key initial_vector bytes : List ℕ)
        → IsBlock initial_vector → AreWholeBlocks bytes
        → cbc_decrypted (response_data_key_of key) initial_vector
        (cbc_encrypted (response_data_key_of key) initial_vector bytes) ≡ bytes }
{
    keys();
    duk_tdes::laws::keys();
    duk_tdes::laws::cbc_inverse();
}
