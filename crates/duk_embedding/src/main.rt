//! An example of the crates with parts of one's own: an issuer, and a cell for the terminal's image.
//! It plays payments of one terminal, and prints what becomes of each.
#![tactic(auto)]

pub mod counted;
pub mod limits;

ghost use Rattle.std.specs.Prelude.{IfOk, IsSome};

use anyhow::{Context, Result};
use counted::CountedCell;
use duk_host::Host;
use duk_hsm::Hsm;
use duk_pin::{Pan, Pin};
use duk_store::{MemCell, MemLog};
use duk_tdes::Key;
use duk_term::{Answer, Purchase, Terminal};
use duk_tree::Iksn;
use limits::{LimitIssuer, LimitedCard};
use std::alloc::Global;

/// The local master key of the security module. Like each key here it is a test key: a real one
/// stands in no program.
const LMK: &str = "DD7515F2BFC17F85CE48F3CA25CB21F6";

/// The base derivation key and the zone key, as they come to the host: in key blocks under the
/// local master key.
const BDK_BLOCK: &str =
    "B0080B0TX00N0000C6377ED1BC5162E0F2AB817A3B4E847BA57024908B4DE2D2539DD4EE158D40D1";

const ZONE_BLOCK: &str =
    "B0080P0TE00E0000E7EA8C782E7641E7CE775995E04329A4A0870CA20BF8F6E92E580F2E81EC0BA5";

/// The key serial numbers of that base derivation key begin so.
const PREFIX: [u8; 5] = [0xFF, 0xFF, 0x98, 0x76, 0x54];

/// The terminal's initial key serial number, the key under which its initial key is loaded, and the
/// padding of that key block. Real padding is random.
const IKSN: &str = "FFFF9876543210E00000";

const LOADING: &str = "4CF15134A2850DD58A3D10BA80570D38";

const PAD: [u8; 6] = [0xA5; 6];

/// The payments: a PAN, and an amount in the smallest unit of the currency.
const PAYMENTS: [(&str, u32); 3] = [
    ("4012345678909", 500),
    ("4012345678909", 20_000),
    ("4012345678917", 500),
];

/// A terminal over a cell in memory that counts what is put into it.
type CountingTerminal = Terminal<CountedCell<MemCell>>;

/// A host over a log in memory, that asks the issuer of this example.
type SmallHost = Host<16, MemLog, LimitIssuer>;

/// Makes both ends, lets them pay, and prints what comes of it.
fn main(rt: HostRuntime) -> Result<()> {
    let hsm = security_module()?;
    let mut terminal = loaded_terminal(&hsm)?;
    let mut host = running_host(rt.alloc(), hsm)?;
    for (pan, amount) in PAYMENTS {
        let answer = pay(&mut terminal, &mut host, &purchase(pan, amount)?)?;
        println!(rt; "{pan} {amount} {answer:?}")?;
    }
    let puts = terminal.into_cell().puts();
    println!(rt; "images kept {puts}")?;
    Ok(())
}

/// The security module: it takes its keys in key blocks, and gives none of them back.
fn security_module() -> Result<Hsm<16>>
    ensures { IfOk result (λ hsm. IsSome hsm.zone) }
{
    let mut hsm = Hsm::new(Key::parse(LMK).context("LMK")?);
    hsm.load_bdk(PREFIX, BDK_BLOCK.as_bytes())?;
    hsm.load_zone(ZONE_BLOCK.as_bytes())?;
    Ok(hsm)
}

/// A terminal with its initial key. The module writes the loading block. The terminal keeps the
/// image of its registers in the cell, here and before each request.
fn loaded_terminal(hsm: &Hsm<16>) -> Result<CountingTerminal> {
    let iksn = Iksn::parse(IKSN).context("IKSN")?;
    let loading = Key::parse(LOADING).context("LOADING")?;
    let block = hsm.issue(iksn, &loading, PAD.as_slice())?;
    let mut terminal = Terminal::new(CountedCell::new(MemCell::new()));
    terminal.restart()?;
    terminal.load(&loading, block.as_slice(), iksn)?;
    Ok(terminal)
}

/// A host that is brought up: it has read the used numbers from its log.
fn running_host(alloc: Global, hsm: Hsm<16>) -> Result<SmallHost>
    requires { IsSome hsm.zone }
{
    let log = MemLog::new(alloc, 100)?;
    let mut host = Host::new(alloc, hsm, issuer(alloc)?, log);
    host.restart()?;
    Ok(host)
}

/// The issuer of one card.
fn issuer(alloc: Global) -> Result<LimitIssuer> {
    let card = LimitedCard {
        pan: Pan::parse("4012345678909")?,
        limit: 10_000,
    };
    Ok(LimitIssuer::new(vec![in alloc; card]?))
}

/// What a customer pays, with the PIN 1234.
fn purchase(pan: &str, amount: u32) -> Result<Purchase> {
    Ok(Purchase {
        pan: Pan::parse(pan)?,
        pin: Pin::parse("1234")?,
        amount,
    })
}

/// One payment. Frames are bytes: how they go from one end to the other is the program's own work.
fn pay(
    terminal: &mut CountingTerminal,
    host: &mut SmallHost,
    purchase: &Purchase,
) -> Result<Answer> {
    let request = terminal.begin(purchase)?;
    let answer = host.handle(request.as_slice())?;
    Ok(terminal.reply(answer.as_slice())?)
}
