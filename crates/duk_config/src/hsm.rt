//! The host security module of a configuration.

ghost use Rattle.std.specs.Prelude.{◌≡◌, ◌<◌, Some, None, IfOk, IsOk, length};
ghost use Rattle.duk_tdes.specs.Tdes.{IsTdesLength};
ghost use Rattle.duk_block.specs.KeyUse.{header_for};
ghost use Rattle.duk_block.specs.declared.key_use.KeyUse.{KeyUse};
ghost use Rattle.duk_tdes.specs.KeyBytes.{bytes_of};
ghost use Rattle.duk_hsm.specs.Keys.{key_set_of};
ghost use Rattle.duk_hsm.specs.Load.{with_key_set};
ghost use Rattle.duk_config.specs.BaseKeys.{bdk_key_of, bdk_prefix_of};
ghost use Rattle.duk_config.specs.Opened.{keys_for};
ghost use Rattle.duk_config.specs.inner.Opened.{WrapsAlone};

use crate::config::Config;
use duk_block::{BlockText, KeyUse, ZERO_PADDING, wrap};
use duk_hsm::{Hsm, HsmFault};
use duk_tdes::{Key, KeyBytes};

/// A host security module that holds a configuration's base derivation keys, in their order, and
/// its zone key. Each is wrapped under the local master key of `N` bytes (16 or 24) with zeros as
/// padding, and loaded.
///
/// Every configuration is loaded: no key of it is refused.
pub fn open_hsm<const N: usize>(lmk: &Key<N>, config: &Config) -> Result<Hsm<N>, HsmFault>
    requires { IsTdesLength N }
    ensures ok { IsOk result }
    ensures keys { IfOk result (λ hsm. hsm ≡ keys_for lmk.now config.now) }
{
    let mut hsm = Hsm::new(*lmk);
    for bdk in &config.bdks {
        load_base_key(&mut hsm, lmk, bdk)?;
    }
    load_zone_key(&mut hsm, lmk, &config.zone)?;
    Ok(hsm)
}

/// Wraps a base derivation key and loads it, where a slot is free and the prefix is not taken.
fn load_base_key<const N: usize>(
    hsm: &mut Hsm<N>,
    lmk: &Key<N>,
    bdk: &([u8; 5], Key<16>),
) -> Result<(), HsmFault>
    requires length { IsTdesLength N }
    requires lmk { hsm.old.lmk ≡ lmk.now }
    requires prefix { key_set_of hsm.old (bdk_prefix_of bdk.now) ≡ None }
    requires slot { length hsm.old.key_sets < 8 }
    ensures ok { IsOk result }
    ensures keys { hsm.new ≡ with_key_set hsm.old (bdk_prefix_of bdk.now) (bdk_key_of bdk.now) }
{
    let block = wrap_key(lmk, KeyUse::BaseDerivationKey, &bdk.1);
    hsm.load_bdk(bdk.0, block.as_slice())
}

/// Wraps a zone key and loads it, where none is held.
fn load_zone_key<const N: usize>(
    hsm: &mut Hsm<N>,
    lmk: &Key<N>,
    zone: &KeyBytes,
) -> Result<(), HsmFault>
    requires length { IsTdesLength N }
    requires lmk { hsm.old.lmk ≡ lmk.now }
    requires zone { hsm.old.zone ≡ None }
    ensures ok { IsOk result }
    ensures keys { hsm.new ≡ record hsm.old { zone = Some (bytes_of zone.now) } }
{
    let block = wrap_zone_key(lmk, zone);
    hsm.load_zone(block.as_slice())
}

/// Wraps a zone key of either length.
fn wrap_zone_key<const N: usize>(lmk: &Key<N>, zone: &KeyBytes) -> BlockText
    requires { IsTdesLength N }
    ensures { WrapsAlone lmk.now result.items (header_for KeyUse.PinEncryption)
        (bytes_of zone.now) }
{
    match zone {
        KeyBytes::Double(key) => wrap_key(lmk, KeyUse::PinEncryption, key),
        KeyBytes::Triple(key) => wrap_key(lmk, KeyUse::PinEncryption, key),
    }
}

/// Wraps a key for a use under the local master key with zeros as padding. The block is read, and
/// as this key alone.
fn wrap_key<const N: usize, const M: usize>(
    lmk: &Key<N>,
    key_use: KeyUse,
    key: &Key<M>,
) -> BlockText
    requires protection_key { IsTdesLength N }
    requires key { IsTdesLength M }
    ensures size { length key.now ≡ M }
    ensures wraps { WrapsAlone lmk.now result.items (header_for key_use) key.now }
{
    duk_tdes::laws::tdes_key(lmk);
    duk_tdes::laws::tdes_key(key);
    duk_block::laws::one_reading();
    duk_block::laws::no_fault();
    wrap(lmk, &key_use.header(), key, &ZERO_PADDING).unwrap()
}
