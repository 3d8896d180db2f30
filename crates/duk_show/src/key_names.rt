//! What the characters of a key block's header mean.

ghost use Rattle.std.specs.List.{list_all};
ghost use Rattle.std.specs.Prelude.{◌≡◌, ◌≤◌, true, length, map, nat_le};
ghost use Rattle.duk_show.specs.KeyNames.{algorithm_name, exportability_name, mode_name, name_in, usage_name};

/// The most characters of a name.
pub(crate) const MOST_NAME: usize = 80;

/// A value of a field, and its name.
type Name = (&'static [u8], &'static str);

/// Key usages.
const USAGES: [Name; 43] = [
    (b"B0", "base derivation key"),
    (b"B1", "initial DUKPT key"),
    (b"B2", "base key variant key"),
    (b"B3", "key derivation key, not ANSI X9.24"),
    (b"C0", "card verification key"),
    (b"D0", "symmetric key for data encryption"),
    (b"D1", "asymmetric key for data encryption"),
    (b"D2", "data encryption key for a decimalization table"),
    (b"D3", "data encryption key for sensitive data"),
    (b"E0", "EMV issuer master key, application cryptograms"),
    (
        b"E1",
        "EMV issuer master key, secure messaging for confidentiality",
    ),
    (
        b"E2",
        "EMV issuer master key, secure messaging for integrity",
    ),
    (b"E3", "EMV issuer master key, data authentication code"),
    (b"E4", "EMV issuer master key, dynamic numbers"),
    (b"E5", "EMV issuer master key, card personalization"),
    (b"E6", "EMV issuer master key, other"),
    (b"E7", "EMV asymmetric key pair for PIN block encryption"),
    (b"I0", "initialization vector"),
    (b"K0", "key encryption or wrapping"),
    (b"K1", "TR-31 key block protection key"),
    (b"K2", "TR-34 asymmetric key"),
    (b"K3", "asymmetric key for key agreement or key wrapping"),
    (b"K4", "ISO 20038 key block protection key"),
    (b"M0", "ISO 16609 MAC algorithm 1, using TDEA"),
    (b"M1", "ISO 9797-1 MAC algorithm 1"),
    (b"M2", "ISO 9797-1 MAC algorithm 2"),
    (b"M3", "ISO 9797-1 MAC algorithm 3"),
    (b"M4", "ISO 9797-1 MAC algorithm 4"),
    (b"M5", "ISO 9797-1:1999 MAC algorithm 5"),
    (b"M6", "ISO 9797-1:2011 MAC algorithm 5, CMAC"),
    (b"M7", "HMAC"),
    (b"M8", "ISO 9797-1:2011 MAC algorithm 6"),
    (b"P0", "PIN encryption"),
    (b"P1", "PIN generation"),
    (b"S0", "asymmetric key pair for digital signature"),
    (b"S1", "asymmetric key pair, CA key"),
    (b"S2", "asymmetric key pair, not ANSI X9.24"),
    (b"V0", "PIN verification, other algorithm"),
    (b"V1", "PIN verification, IBM 3624"),
    (b"V2", "PIN verification, VISA PVV"),
    (b"V3", "PIN verification, ANSI X9.132 algorithm 1"),
    (b"V4", "PIN verification, ANSI X9.132 algorithm 2"),
    (b"V5", "PIN verification, ANSI X9.132 algorithm 3"),
];

/// Algorithms.
const ALGORITHMS: [Name; 7] = [
    (b"A", "AES"),
    (b"D", "DEA"),
    (b"E", "elliptic curve"),
    (b"H", "HMAC"),
    (b"R", "RSA"),
    (b"S", "DSA"),
    (b"T", "TDEA"),
];

/// Modes of use.
const MODES: [Name; 11] = [
    (b"B", "both encrypt and decrypt, or wrap and unwrap"),
    (b"C", "both generate and verify"),
    (b"D", "decrypt or unwrap only"),
    (b"E", "encrypt or wrap only"),
    (b"G", "generate only"),
    (b"N", "no special restrictions"),
    (b"S", "signature only"),
    (b"T", "both sign and decrypt"),
    (b"V", "verify only"),
    (b"X", "derive other keys"),
    (b"Y", "create key variants"),
];

/// Exportabilities.
const EXPORTABILITIES: [Name; 3] = [
    (
        b"E",
        "exportable under a trusted key, in a form of ANSI X9.24",
    ),
    (b"N", "not exportable"),
    (b"S", "sensitive, exportable under a key in another form"),
];

/// A key usage in words.
#[tactic(auto, unfolding(crate::specs::KeyNames::usage_name))]
pub(crate) fn usage_name(usage: [u8; 2]) -> &'static str
    ensures name { result.now ≡ usage_name usage }
    ensures short { length result.now ≤ MOST_NAME }
{
    name_in(&USAGES, &usage)
}

/// An algorithm in words.
#[tactic(auto, unfolding(crate::specs::KeyNames::algorithm_name))]
pub(crate) fn algorithm_name(algorithm: u8) -> &'static str
    ensures name { result.now ≡ algorithm_name algorithm }
    ensures short { length result.now ≤ MOST_NAME }
{
    name_in(&ALGORITHMS, &[algorithm])
}

/// A mode of use in words.
#[tactic(auto, unfolding(crate::specs::KeyNames::mode_name))]
pub(crate) fn mode_name(mode: u8) -> &'static str
    ensures name { result.now ≡ mode_name mode }
    ensures short { length result.now ≤ MOST_NAME }
{
    name_in(&MODES, &[mode])
}

/// An exportability in words.
#[tactic(auto, unfolding(crate::specs::KeyNames::exportability_name))]
pub(crate) fn exportability_name(exportability: u8) -> &'static str
    ensures name { result.now ≡ exportability_name exportability }
    ensures short { length result.now ≤ MOST_NAME }
{
    name_in(&EXPORTABILITIES, &[exportability])
}

/// The name of a value in a table.
fn name_in(table: &[Name], value: &[u8]) -> &'static str
    requires { list_all (λ entry. nat_le (length entry.1.now) MOST_NAME) table.now ≡ true }
    ensures name { result.now
        ≡ name_in (map (λ entry. (entry.0.now, entry.1.now)) table.now) value.now }
    ensures short { length result.now ≤ MOST_NAME }
{
    let mut rest = table;
    while let [entry, later @ ..] = rest {
        if entry.0 == value {
            return entry.1;
        }
        rest = later;
    }
    "unknown"
}
