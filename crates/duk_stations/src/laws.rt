//! What is known of registers and of keys, each as the contract of a function that does nothing.

ghost use Rattle.duk_stations.specs.Keys.{KeyLaws};
ghost use Rattle.duk_stations.specs.Registers.{RegisterLaws};

use duk_store::Cell;

/// What the laws of terminals, registers and counters say of registers from which numbers are taken.
pub fn registers()
    ensures { RegisterLaws }
{
    duk_term::laws::found_again();
    duk_regs::laws::transactions();
    duk_tree::laws::bits();
}

/// What the laws of registers, keys and PIN blocks say of the key that registers give.
pub fn keys<C: Cell>()
    ensures { KeyLaws C.meaning }
{
    duk_regs::laws::transactions();
    duk_term::laws::requests::<C>();
    duk_tree::laws::keys();
    duk_tree::laws::prefixes();
    duk_pin::laws::eight_bytes();
    duk_tdes::laws::inverse();
}
