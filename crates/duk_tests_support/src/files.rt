//! A configuration, a script, and the lines that it writes under that configuration.

/// Two terminals, a log for a hundred numbers, one base derivation key and one card.
pub const BANK: &str = r#"lmk = "DD7515F2BFC17F85CE48F3CA25CB21F6"
loading = "4CF15134A2850DD58A3D10BA80570D38"
zone = "3F419E1CB7079442AA37474C2EFBF8B8"
terminals = 2
log = 100
[[bdk]]
prefix = "FFFF987654"
key = "0123456789ABCDEFFEDCBA9876543210"
[[card]]
pan = "4012345678909"
pin = "1234"
limit = 10000
"#;

/// A payment, and what may go wrong with it.
pub const SCRIPT: &str = "begin t1 4012345678909 1234 500
load t1 FFFF9876543210E00000
load t1 FFFF9876543210E00000
load t2 FFFF9876543210E00000
load t2 00000000000000000000
begin t1 4012345678909 1234 500
up 1
up 1
down 2 t1
down 1 t2
down 1 t1
down 1 t1
up 2
down 1 t9
";

pub const LINES: &str = "t1 fault NotLoaded
t1 loaded FFFF9876543210E00000
t1 fault IksnSpent
t2 IKSN elsewhere
t2 no key set
t1 sent 1 FFFF9876543210E00001
answer 1 accepted FFFF9876543210E00001 00
answer 2 repeated FFFF9876543210E00001 00
t1 done FFFF9876543210E00001 00
t2 fault NotPending
t1 fault NotPending
t1 fault NotPending
no such frame
no such terminal
";
