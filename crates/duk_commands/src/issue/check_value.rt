//! The check value of a base derivation key, and that which it is to have.

ghost use Rattle.std.specs.Prelude.{◌≡◌, IfErr, OnOk};
ghost use Rattle.std.specs.Option.{option_copied};
ghost use Rattle.duk_commands.specs.Order.{HasCheckValue};
ghost use Rattle.duk_commands.specs.inner.CheckValue.{IsCheckValueRefused};
ghost use Rattle.duk_mac.specs.CheckValue.{check_value_of};

use crate::issue::fault::IssueFault;
use duk_group::{WIDTH, check_values};
use duk_tdes::Key;
use hex::FromHex;

/// Tests that a base derivation key has the check value that a text of 6 hexadecimal digits writes,
/// where there is a text.
pub(crate) fn test_check_value(bdk: &Key<16>, kcv: Option<&str>) -> Result<(), IssueFault>
    ensures has { OnOk result (HasCheckValue (option_copied kcv.entry) bdk.now) }
    ensures refused { IfErr result (IsCheckValueRefused (option_copied kcv.entry) bdk.now) }
{
    let Some(text) = kcv else {
        return Ok(());
    };
    let Ok(wanted) = <[u8; 3] as FromHex>::from_hex(text) else {
        return Err(IssueFault::KcvRefused);
    };
    if wanted == key_set_value(bdk) {
        Ok(())
    } else {
        Err(IssueFault::KcvDiffers)
    }
}

/// The check value of a base derivation key.
pub(crate) fn key_set_value(bdk: &Key<16>) -> [u8; 3]
    ensures { result ≡ check_value_of bdk.now }
{
    check_values(&[*bdk; WIDTH])[0]
}
