//! What the arguments of `issue` ask for.

ghost use Rattle.std.specs.Prelude.{◌≡◌, ◌<◌, ℕ, IfErr, IfOk};
ghost use Rattle.std.specs.Option.{option_copied};
ghost use Rattle.duk_commands.specs.Numbers.{FitsFrom, iksn_at, key_set};

use crate::issue::check_value::test_check_value;
use crate::issue::count::read_count;
use crate::issue::fault::IssueFault;
use duk_tdes::{Key, KeyBytes};
use duk_tree::Iksn;

/// The bytes of padding in the key block of one terminal.
pub const PADDING_LENGTH: usize = 6;

/// What the arguments of `issue` ask for: the initial keys of so many terminals, from the first
/// number on, each in a key block under the protection key `loading`.
#[derive(Clone, Copy)]
pub struct Order {
    pub bdk: Key<16>,
    pub loading: KeyBytes,
    pub first: Iksn,
    pub count: u32,
    pub ghost fits: { FitsFrom first count },
}

impl Order {
    ghost use Rattle.duk_commands.specs.Order.{IsOrderOf, IsOrderRefused, order_arguments};

    /// Reads the arguments: a base derivation key of 32 hexadecimal digits of either case; the key
    /// block protection key, 32 or 48; an initial key serial number, 20, with a counter of zero;
    /// for how many terminals, in decimal digits: 1 to 524,288, where leading zeros are allowed,
    /// and no more than there are numbers left with the prefix of the first; and the check value
    /// that the base derivation key is to have, 6 hexadecimal digits, if one is given.
    ///
    /// The faults, in this order: `BdkRefused`, `LoadingRefused`, `IksnRefused`, `CountRefused`,
    /// `KcvRefused`, `KcvDiffers`.
    pub fn read(
        bdk: &str,
        loading: &str,
        iksn: &str,
        count: &str,
        kcv: Option<&str>,
    ) -> Result<Order, IssueFault>
        ensures read { IfOk result (IsOrderOf
            (order_arguments bdk.now loading.now iksn.now count.now (option_copied kcv.entry))) }
        ensures one_set { IfOk result (λ order. (place : ℕ) → place < order.count
            → key_set (iksn_at order.first place) ≡ key_set order.first) }
        ensures refused { IfErr result (IsOrderRefused
            (order_arguments bdk.now loading.now iksn.now count.now (option_copied kcv.entry))) }
    {
        let bdk = Key::<16>::parse(bdk).ok_or(IssueFault::BdkRefused)?;
        let loading = KeyBytes::parse(loading).ok_or(IssueFault::LoadingRefused)?;
        let first = Iksn::parse(iksn).ok_or(IssueFault::IksnRefused)?;
        let count = read_count(first, count).ok_or(IssueFault::CountRefused)?;
        test_check_value(&bdk, kcv)?;
        Ok(Order {
            bdk,
            loading,
            first,
            count,
        })
    }
}
