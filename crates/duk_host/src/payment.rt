//! A request whose key serial number is opened.

use duk_frame::Request;
use duk_hsm::Transaction;

/// A request, and the transaction that its key serial number was opened to.
#[derive(Drop)]
pub struct Payment {
    /// The request.
    pub request: Request,
    /// What its key serial number was opened to.
    pub transaction: Transaction,
}
