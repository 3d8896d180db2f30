//! How MACs are compared.

ghost use Rattle.std.specs.Prelude.{◌≡◌, ◌↔◌, IsTrue};

/// Whether two MACs of 8 bytes are the same. They are compared as one number: no byte is looked at
/// before another, so that the time does not tell where they differ.
pub fn same_mac(one: &[u8; 8], other: &[u8; 8]) -> bool
    ensures { IsTrue result ↔ (one.now ≡ other.now) }
{
    u64::from_be_bytes(*one) == u64::from_be_bytes(*other)
}
