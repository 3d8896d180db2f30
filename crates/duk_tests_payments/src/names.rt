//! What the faults print.

use duk_block::BlockFault;
use duk_host::HostFault;
use duk_hsm::HsmFault;
use duk_net::NetFault;
use duk_store::StoreFault;
use duk_tests_support::printed::misprinted;

static OF_SECURITY_MODULES: [(HsmFault, &str); 10] = [
    (HsmFault::Block(BlockFault::PadLength), "Block PadLength"),
    (HsmFault::WrongUse, "WrongUse"),
    (HsmFault::PrefixTaken, "PrefixTaken"),
    (HsmFault::SlotsFull, "SlotsFull"),
    (HsmFault::ZoneTaken, "ZoneTaken"),
    (HsmFault::NoKeySet, "NoKeySet"),
    (HsmFault::NoZone, "NoZone"),
    (HsmFault::BadCounter, "BadCounter"),
    (HsmFault::BadMac, "BadMac"),
    (HsmFault::BadPinBlock, "BadPinBlock"),
];

static OF_HOSTS: [(HostFault, &str); 7] = [
    (HostFault::NoMemory, "NoMemory"),
    (HostFault::Store(StoreFault::Damaged), "Store Damaged"),
    (HostFault::Stopped, "Stopped"),
    (HostFault::Read, "Read"),
    (HostFault::Write, "Write"),
    (HostFault::Truncated, "Truncated"),
    (HostFault::TooLong, "TooLong"),
];

static OF_NETWORKS: [(NetFault, &str); 1] = [(NetFault::NoMemory { done: 2 }, "NoMemory after 2")];

#[test]
fn of_faults(rt: HostRuntime) {
    assert_eq!(rt; misprinted(rt.alloc(), &OF_SECURITY_MODULES), Ok(None));
    assert_eq!(rt; misprinted(rt.alloc(), &OF_HOSTS), Ok(None));
    assert_eq!(rt; misprinted(rt.alloc(), &OF_NETWORKS), Ok(None));
}
