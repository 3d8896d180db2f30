//! The host of a configuration.

ghost use Rattle.std.specs.Prelude.{◌≡◌, IfOk};
ghost use Rattle.duk_config.specs.NewHost.{new_host_of};
ghost use Rattle.duk_tdes.specs.KeyBytes.{bytes_of};
ghost use Rattle.duk_tdes.specs.Tdes.{IsTdesLength};

use crate::config::Config;
use crate::hsm::open_hsm;
use duk_host::{Host, TableIssuer};
use duk_store::UsedLog;
use duk_tdes::Key;
use std::alloc::{AllocError, Global};

/// The host of a configuration over a log, as it is made: stopped, with the security module and the
/// cards of the configuration. `lmk` is the configuration's local master key.
pub fn new_host<const N: usize, L: UsedLog>(
    alloc: Global,
    lmk: &Key<N>,
    config: &Config,
    log: L,
) -> Result<Host<N, L, TableIssuer>, AllocError>
    requires length { IsTdesLength N }
    requires lmk { lmk.now ≡ bytes_of config.now.lmk }
    ensures { IfOk result (λ host. host ≡ new_host_of config.now log) }
{
    let hsm = open_hsm(lmk, config).unwrap();
    let cards = config.cards.clone()?;
    let issuer = TableIssuer::new(config.zone, cards);
    Ok(Host::new(alloc, hsm, issuer, log))
}
