//! The calls of `duk_calls` for C, and for each language that calls C. Built for WebAssembly with
//! memory of 64-bit addresses, it is the module of the page.
//!
//! A slice is a pointer and then a length. Each export but `dukpt_version` gives a status: 0, or
//! the number of a fault, and then nothing was written. No slice overlaps another.
//!
//! Made of library/calls.toml by `tools/library --make`.
#![tactic(auto)]

ghost use Rattle.std.specs.Prelude.{◌≡◌};
ghost use Rattle.duk_data.specs.DataKeys.{request_data_key_of, response_data_key_of};
ghost use Rattle.duk_mac.specs.CheckValue.{check_value_of, cmac_check_value_of};
ghost use Rattle.duk_tdes.specs.Cbc.{cbc_decrypted, cbc_encrypted};
ghost use Rattle.duk_tdes.specs.Tdes.{tdes_decrypted, tdes_encrypted};
ghost use Rattle.duk_tree.specs.Derivation.{pin_key_of, request_key_of, response_key_of};
ghost use Rattle.duk_calls.specs.Answer.{Reports, buffer};
ghost use Rattle.duk_calls.specs.Keys.{DeriveAnswers, DeriveFromInitialAnswers, DeriveManyAnswers, InitialKeyAnswers, VariantAnswers};
ghost use Rattle.duk_calls.specs.Numbers.{CheckUsableAnswers, NextNumberAnswers};
ghost use Rattle.duk_calls.specs.Macs.{CheckValueAnswers, CmacAnswers, RetailMacAnswers};
ghost use Rattle.duk_calls.specs.Registers.{RegistersAtAnswers, RegistersLoadAnswers, RegistersNextAnswers, RegistersNumberAnswers, RegistersReloadAnswers, next_parts};
ghost use Rattle.duk_calls.specs.Ciphers.{BlockAnswers, ChainAnswers};
ghost use Rattle.duk_calls.specs.Pins.{PinBlockAnswers, PinOfBlockAnswers};
ghost use Rattle.duk_calls.specs.Blocks.{UnwrapAnswers, UnwrapForAnswers, UnwrapOptionalAnswers, WrapAnswers, WrapWithAnswers, unwrapped, wanting, wrapping, wrapping_with};
ghost use Rattle.duk_calls.specs.Requests.{CheckRequestAnswers, CheckRequestsAnswers, PaymentRequestAnswers, ReadRequestAnswers, RequestPinAnswers, payment, request_parts};
ghost use Rattle.duk_calls.specs.Replies.{CheckReplyAnswers, ReadRefusalAnswers, ReadReplyAnswers, RequestRefusalAnswers, RequestReplyAnswers, refusal_parts, reply_parts};
ghost use Rattle.duk_calls.specs.Reversals.{CheckReversalAnswers, CheckReversalReplyAnswers, ReadReversalAnswers, ReadReversalReplyAnswers, ReversalReplyAnswers, ReversalRequestAnswers, reversal_parts, reversal_reply_parts, reversing};
ghost use Rattle.duk_calls.specs.Modules.{ModuleLoadBdkAnswers, ModuleLoadZoneAnswers, ModuleNewAnswers};
ghost use Rattle.duk_calls.specs.Hosts.{HostAnswerAnswers, HostJudgeAnswers};
ghost use Rattle.duk_calls.specs.Frames.{FrameLengthAnswers};

use duk_calls::status;

/// The version of the calls: major, minor and patch, a byte each, from the third byte down.
#[unsafe(no_mangle)]
pub extern "C" fn dukpt_version() -> u32
    ensures { result ≡ 0x0001_00 }
{
    duk_calls::version()
}

/// Writes the initial key (IPEK) of an initial key serial number.
#[unsafe(no_mangle)]
pub extern "C" fn dukpt_initial_key(bdk: &[u8], iksn: &[u8], key: &mut [u8]) -> u32
    ensures { Reports result (InitialKeyAnswers bdk.now iksn.now key.old key.new) }
{
    status(duk_calls::initial_key(bdk, iksn, key))
}

/// Writes the transaction key of a key serial number under the base derivation key. The counter may
/// be any: zero gives the initial key. `check_usable` tells whether it numbers a transaction.
#[unsafe(no_mangle)]
pub extern "C" fn dukpt_derive(bdk: &[u8], ksn: &[u8], key: &mut [u8]) -> u32
    ensures { Reports result (DeriveAnswers bdk.now ksn.now key.old key.new) }
{
    status(duk_calls::derive(bdk, ksn, key))
}

/// Writes the transaction keys of key serial numbers under one base derivation key, each at the
/// place of its number. The counters may be any, as those of `derive`: this gives the same keys,
/// and makes many of them in less time.
#[unsafe(no_mangle)]
pub extern "C" fn dukpt_derive_many(bdk: &[u8], ksns: &[u8], keys: &mut [u8]) -> u32
    ensures { Reports result (DeriveManyAnswers bdk.now ksns.now keys.old keys.new) }
{
    status(duk_calls::derive_many(bdk, ksns, keys))
}

/// Writes the transaction key of a key serial number under the initial key of its terminal. The
/// counter may be any: zero gives the initial key.
#[unsafe(no_mangle)]
pub extern "C" fn dukpt_derive_from_initial(initial: &[u8], ksn: &[u8], key: &mut [u8]) -> u32
    ensures { Reports result (DeriveFromInitialAnswers initial.now ksn.now key.old key.new) }
{
    status(duk_calls::derive_from_initial(initial, ksn, key))
}

/// Writes the variant of a transaction key that enciphers PIN blocks.
#[unsafe(no_mangle)]
pub extern "C" fn dukpt_pin_key(key: &[u8], variant: &mut [u8]) -> u32
    ensures { Reports result (VariantAnswers pin_key_of key.now variant.old variant.new) }
{
    status(duk_calls::pin_key(key, variant))
}

/// Writes the variant of a transaction key that makes the MACs of requests.
#[unsafe(no_mangle)]
pub extern "C" fn dukpt_request_key(key: &[u8], variant: &mut [u8]) -> u32
    ensures { Reports result (VariantAnswers request_key_of key.now variant.old variant.new) }
{
    status(duk_calls::request_key(key, variant))
}

/// Writes the variant of a transaction key that makes the MACs of replies.
#[unsafe(no_mangle)]
pub extern "C" fn dukpt_response_key(key: &[u8], variant: &mut [u8]) -> u32
    ensures { Reports result (VariantAnswers response_key_of key.now variant.old variant.new) }
{
    status(duk_calls::response_key(key, variant))
}

/// Writes the key of a transaction that enciphers the data of its request, or of both ways (ANSI
/// X9.24-1:2009 annex A.4.1).
#[unsafe(no_mangle)]
pub extern "C" fn dukpt_request_data_key(key: &[u8], variant: &mut [u8]) -> u32
    ensures { Reports result (VariantAnswers request_data_key_of key.now variant.old variant.new) }
{
    status(duk_calls::request_data_key(key, variant))
}

/// Writes the key of a transaction that enciphers the data of its reply (ANSI X9.24-1:2009 annex
/// A.4.1).
#[unsafe(no_mangle)]
pub extern "C" fn dukpt_response_data_key(key: &[u8], variant: &mut [u8]) -> u32
    ensures { Reports result (VariantAnswers response_data_key_of key.now variant.old variant.new) }
{
    status(duk_calls::response_data_key(key, variant))
}

/// Tells whether a key serial number numbers a transaction: its counter has one to ten one bits. It
/// writes nothing.
#[unsafe(no_mangle)]
pub extern "C" fn dukpt_check_usable(ksn: &[u8]) -> u32
    ensures { Reports result (CheckUsableAnswers ksn.now) }
{
    status(duk_calls::check_usable(ksn))
}

/// Writes the key serial number that a terminal uses after this one: that with the least usable
/// counter above its own. The counter may be any.
#[unsafe(no_mangle)]
pub extern "C" fn dukpt_next_number(ksn: &[u8], next: &mut [u8]) -> u32
    ensures { Reports result (NextNumberAnswers ksn.now next.old next.new) }
{
    status(duk_calls::next_number(ksn, next))
}

/// Writes the check value (KCV) of a key: the first bytes of a block of zeros, enciphered.
#[unsafe(no_mangle)]
pub extern "C" fn dukpt_check_value(key: &[u8], value: &mut [u8]) -> u32
    ensures { Reports result (CheckValueAnswers check_value_of 3 key.now value.old value.new) }
{
    status(duk_calls::check_value(key, value))
}

/// Writes the check value by CMAC of a key: the first bytes of the CMAC of a block of zeros.
#[unsafe(no_mangle)]
pub extern "C" fn dukpt_cmac_check_value(key: &[u8], value: &mut [u8]) -> u32
    ensures { Reports result (CheckValueAnswers cmac_check_value_of 5 key.now value.old value.new) }
{
    status(duk_calls::cmac_check_value(key, value))
}

/// Writes the image of a terminal that has used no number yet.
#[unsafe(no_mangle)]
pub extern "C" fn dukpt_registers_load(initial: &[u8], iksn: &[u8], image: &mut [u8]) -> u32
    ensures { Reports result (RegistersLoadAnswers initial.now iksn.now image.old image.new) }
{
    status(duk_calls::registers_load(initial, iksn, image))
}

/// Writes the image of a terminal whose next key serial number is this one: what `registers_load`
/// and then `registers_next` for each number before it leave.
#[unsafe(no_mangle)]
pub extern "C" fn dukpt_registers_at(initial: &[u8], ksn: &[u8], image: &mut [u8]) -> u32
    ensures { Reports result (RegistersAtAnswers initial.now ksn.now image.old image.new) }
{
    status(duk_calls::registers_at(initial, ksn, image))
}

/// Writes the key serial number that a terminal with this image uses next.
#[unsafe(no_mangle)]
pub extern "C" fn dukpt_registers_number(image: &[u8], ksn: &mut [u8]) -> u32
    ensures { Reports result (RegistersNumberAnswers image.now ksn.old ksn.new) }
{
    status(duk_calls::registers_number(image, ksn))
}

/// Uses the next number of a terminal. The next image is to be stored before the key is used, so
/// that no stop brings the key back. The next image does not overlap the image: copy it afterwards.
#[unsafe(no_mangle)]
pub extern "C" fn dukpt_registers_next(
    image: &[u8],
    next_image: &mut [u8],
    key: &mut [u8],
    ksn: &mut [u8],
) -> u32
    ensures { Reports result (RegistersNextAnswers image.now
        (next_parts next_image.old key.old ksn.old)
        (next_parts next_image.new key.new ksn.new)) }
{
    status(duk_calls::registers_next(image, next_image, key, ksn))
}

/// Gives a terminal another initial key under another initial key serial number. The image keeps up
/// to eight earlier ones, and none of them comes again.
#[unsafe(no_mangle)]
pub extern "C" fn dukpt_registers_reload(
    image: &[u8],
    initial: &[u8],
    iksn: &[u8],
    next_image: &mut [u8],
) -> u32
    ensures { Reports result (RegistersReloadAnswers image.now initial.now iksn.now next_image.old
        next_image.new) }
{
    status(duk_calls::registers_reload(image, initial, iksn, next_image))
}

/// Enciphers a block in place.
#[unsafe(no_mangle)]
pub extern "C" fn dukpt_tdes_encrypt(key: &[u8], block: &mut [u8]) -> u32
    ensures { Reports result (BlockAnswers tdes_encrypted key.now block.old block.new) }
{
    status(duk_calls::tdes_encrypt(key, block))
}

/// Deciphers a block in place.
#[unsafe(no_mangle)]
pub extern "C" fn dukpt_tdes_decrypt(key: &[u8], block: &mut [u8]) -> u32
    ensures { Reports result (BlockAnswers tdes_decrypted key.now block.old block.new) }
{
    status(duk_calls::tdes_decrypt(key, block))
}

/// Enciphers whole blocks in place by CBC.
#[unsafe(no_mangle)]
pub extern "C" fn dukpt_cbc_encrypt(key: &[u8], iv: &[u8], bytes: &mut [u8]) -> u32
    ensures { Reports result (ChainAnswers cbc_encrypted key.now iv.now bytes.old bytes.new) }
{
    status(duk_calls::cbc_encrypt(key, iv, bytes))
}

/// Deciphers whole blocks in place by CBC.
#[unsafe(no_mangle)]
pub extern "C" fn dukpt_cbc_decrypt(key: &[u8], iv: &[u8], bytes: &mut [u8]) -> u32
    ensures { Reports result (ChainAnswers cbc_decrypted key.now iv.now bytes.old bytes.new) }
{
    status(duk_calls::cbc_decrypt(key, iv, bytes))
}

/// Writes the CMAC of a message.
#[unsafe(no_mangle)]
pub extern "C" fn dukpt_cmac(key: &[u8], message: &[u8], mac: &mut [u8]) -> u32
    ensures { Reports result (CmacAnswers key.now message.now mac.old mac.new) }
{
    status(duk_calls::cmac(key, message, mac))
}

/// Writes the retail MAC of a message, which is filled with zero bytes to whole blocks.
#[unsafe(no_mangle)]
pub extern "C" fn dukpt_retail_mac(key: &[u8], message: &[u8], mac: &mut [u8]) -> u32
    ensures { Reports result (RetailMacAnswers key.now message.now mac.old mac.new) }
{
    status(duk_calls::retail_mac(key, message, mac))
}

/// Writes the PIN block of a PIN and a PAN, in clear.
#[unsafe(no_mangle)]
pub extern "C" fn dukpt_pin_block(pin: &[u8], pan: &[u8], block: &mut [u8]) -> u32
    ensures { Reports result (PinBlockAnswers pin.now pan.now block.old block.new) }
{
    status(duk_calls::pin_block(pin, pan, block))
}

/// Writes the PIN of a PIN block in clear, under a PAN.
#[unsafe(no_mangle)]
pub extern "C" fn dukpt_pin_of_block(
    block: &[u8],
    pan: &[u8],
    pin: &mut [u8],
    pin_length: &mut u32,
) -> u32
    ensures { Reports result (PinOfBlockAnswers block.now pan.now
        (buffer pin.old pin_length.old)
        (buffer pin.new pin_length.new)) }
{
    status(duk_calls::pin_of_block(block, pan, pin, pin_length))
}

/// Writes the key block of a key, without optional blocks. The text does not end with a zero byte.
/// Take random padding, anew each time, of the system's generator: `wrap` has none. With zeros or
/// other fixed bytes equal keys have equal texts, and whoever sees two texts can tell.
#[unsafe(no_mangle)]
pub extern "C" fn dukpt_wrap(
    kbpk: &[u8],
    header: &[u8],
    key: &[u8],
    padding: &[u8],
    text: &mut [u8],
    text_length: &mut u32,
) -> u32
    ensures { Reports result (WrapAnswers
        (wrapping kbpk.now header.now key.now padding.now)
        (buffer text.old text_length.old)
        (buffer text.new text_length.new)) }
{
    status(duk_calls::wrap(kbpk, header, key, padding, text, text_length))
}

/// Writes the key block of a key, with optional blocks as they stand in the text: an id of two
/// characters, the length in two hexadecimal digits, with these four characters, and the content.
/// Those are `BlockOptionalBlock` that are more than 99, are no multiple of 8 in all, or have a
/// character that cannot be printed. The padding is random, as that of `wrap`. The text does not
/// end with a zero byte.
#[unsafe(no_mangle)]
pub extern "C" fn dukpt_wrap_with(
    kbpk: &[u8],
    header: &[u8],
    optional: &[u8],
    key: &[u8],
    padding: &[u8],
    text: &mut [u8],
    text_length: &mut u32,
) -> u32
    ensures { Reports result (WrapWithAnswers
        (wrapping_with kbpk.now header.now optional.now key.now padding.now)
        (buffer text.old text_length.old)
        (buffer text.new text_length.new)) }
{
    status(duk_calls::wrap_with(kbpk, header, optional, key, padding, text, text_length))
}

/// Writes the header and the key of a key block. Optional blocks are passed over.
#[unsafe(no_mangle)]
pub extern "C" fn dukpt_unwrap(
    kbpk: &[u8],
    text: &[u8],
    header: &mut [u8],
    key: &mut [u8],
    key_length: &mut u32,
) -> u32
    ensures { Reports result (UnwrapAnswers kbpk.now text.now
        (unwrapped header.old (buffer key.old key_length.old))
        (unwrapped header.new (buffer key.new key_length.new))) }
{
    status(duk_calls::unwrap(kbpk, text, header, key, key_length))
}

/// Writes the key of a key block that is for one usage, is a TDES key (algorithm T), and has one
/// length. The mode of use is not compared: the header tells it, which `unwrap` writes. Optional
/// blocks are passed over.
#[unsafe(no_mangle)]
pub extern "C" fn dukpt_unwrap_for(
    kbpk: &[u8],
    usage: &[u8],
    wanted: u32,
    text: &[u8],
    key: &mut [u8],
) -> u32
    ensures { Reports result (UnwrapForAnswers
        (wanting kbpk.now usage.now wanted text.now)
        key.old key.new) }
{
    status(duk_calls::unwrap_for(kbpk, usage, wanted, text, key))
}

/// Writes the content of an optional block of a key block whose MAC is right: of the first one with
/// this id.
#[unsafe(no_mangle)]
pub extern "C" fn dukpt_unwrap_optional(
    kbpk: &[u8],
    text: &[u8],
    id: &[u8],
    content: &mut [u8],
    content_length: &mut u32,
) -> u32
    ensures { Reports result (UnwrapOptionalAnswers kbpk.now text.now id.now
        (buffer content.old content_length.old)
        (buffer content.new content_length.new)) }
{
    status(duk_calls::unwrap_optional(kbpk, text, id, content, content_length))
}

/// Writes the request of a payment.
#[unsafe(no_mangle)]
pub extern "C" fn dukpt_payment_request(
    key: &[u8],
    ksn: &[u8],
    pan: &[u8],
    pin: &[u8],
    amount: u32,
    frame: &mut [u8],
    frame_length: &mut u32,
) -> u32
    ensures { Reports result (PaymentRequestAnswers
        (payment key.now ksn.now pan.now pin.now amount)
        (buffer frame.old frame_length.old)
        (buffer frame.new frame_length.new)) }
{
    status(duk_calls::payment_request(key, ksn, pan, pin, amount, frame, frame_length))
}

/// Writes the fields of a request. The MAC is not compared: `check_request` does that.
#[unsafe(no_mangle)]
pub extern "C" fn dukpt_read_request(
    frame: &[u8],
    ksn: &mut [u8],
    pan: &mut [u8],
    pan_length: &mut u32,
    amount: &mut u32,
    block: &mut [u8],
    mac: &mut [u8],
) -> u32
    ensures { Reports result (ReadRequestAnswers frame.now
        (request_parts ksn.old (buffer pan.old pan_length.old) amount.old block.old mac.old)
        (request_parts ksn.new (buffer pan.new pan_length.new) amount.new block.new mac.new)) }
{
    status(duk_calls::read_request(frame, ksn, pan, pan_length, amount, block, mac))
}

/// Tells whether a request has its MAC under the transaction key. It writes nothing.
#[unsafe(no_mangle)]
pub extern "C" fn dukpt_check_request(key: &[u8], frame: &[u8]) -> u32
    ensures { Reports result (CheckRequestAnswers key.now frame.now) }
{
    status(duk_calls::check_request(key, frame))
}

/// Writes what is told of frames: 0 for a request with its MAC under the transaction key of its own
/// key serial number, which is derived of the base derivation key, and else the number of its first
/// fault: `NotARequest`; `NotUsable`; `BadMac`. Each frame stands at the begin of 64 bytes, and
/// what is behind it is not looked at. It checks many of them in less time than `derive` and
/// `check_request`.
#[unsafe(no_mangle)]
pub extern "C" fn dukpt_check_requests(bdk: &[u8], frames: &[u8], results: &mut [u8]) -> u32
    ensures { Reports result (CheckRequestsAnswers bdk.now frames.now results.old results.new) }
{
    status(duk_calls::check_requests(bdk, frames, results))
}

/// Writes the PIN of a request under the transaction key. The MAC is not compared: `check_request`
/// does that.
#[unsafe(no_mangle)]
pub extern "C" fn dukpt_request_pin(
    key: &[u8],
    frame: &[u8],
    pin: &mut [u8],
    pin_length: &mut u32,
) -> u32
    ensures { Reports result (RequestPinAnswers key.now frame.now
        (buffer pin.old pin_length.old)
        (buffer pin.new pin_length.new)) }
{
    status(duk_calls::request_pin(key, frame, pin, pin_length))
}

/// Writes the accepted reply to a request.
#[unsafe(no_mangle)]
pub extern "C" fn dukpt_request_reply(
    key: &[u8],
    ksn: &[u8],
    code: &[u8],
    frame: &mut [u8],
    frame_length: &mut u32,
) -> u32
    ensures { Reports result (RequestReplyAnswers key.now ksn.now code.now
        (buffer frame.old frame_length.old)
        (buffer frame.new frame_length.new)) }
{
    status(duk_calls::request_reply(key, ksn, code, frame, frame_length))
}

/// Writes the refusal of a request. It has no MAC.
#[unsafe(no_mangle)]
pub extern "C" fn dukpt_request_refusal(
    ksn: &[u8],
    reason: u32,
    frame: &mut [u8],
    frame_length: &mut u32,
) -> u32
    ensures { Reports result (RequestRefusalAnswers ksn.now reason
        (buffer frame.old frame_length.old)
        (buffer frame.new frame_length.new)) }
{
    status(duk_calls::request_refusal(ksn, reason, frame, frame_length))
}

/// Writes the fields of an accepted reply. The MAC is not compared: `check_reply` does that.
#[unsafe(no_mangle)]
pub extern "C" fn dukpt_read_reply(frame: &[u8], ksn: &mut [u8], code: &mut [u8]) -> u32
    ensures { Reports result (ReadReplyAnswers frame.now
        (reply_parts ksn.old code.old)
        (reply_parts ksn.new code.new)) }
{
    status(duk_calls::read_reply(frame, ksn, code))
}

/// Writes the fields of a refusal.
#[unsafe(no_mangle)]
pub extern "C" fn dukpt_read_refusal(frame: &[u8], ksn: &mut [u8], reason: &mut u32) -> u32
    ensures { Reports result (ReadRefusalAnswers frame.now
        (refusal_parts ksn.old reason.old)
        (refusal_parts ksn.new reason.new)) }
{
    status(duk_calls::read_refusal(frame, ksn, reason))
}

/// Tells whether a frame is the accepted reply of the payment with this transaction key and key
/// serial number. It writes nothing.
#[unsafe(no_mangle)]
pub extern "C" fn dukpt_check_reply(key: &[u8], ksn: &[u8], frame: &[u8]) -> u32
    ensures { Reports result (CheckReplyAnswers key.now ksn.now frame.now) }
{
    status(duk_calls::check_reply(key, ksn, frame))
}

/// Writes the request that reverses a payment. The reversal's own key serial number may be any:
/// `check_usable` tells whether it numbers a transaction.
#[unsafe(no_mangle)]
pub extern "C" fn dukpt_reversal_request(
    key: &[u8],
    ksn: &[u8],
    reversed: &[u8],
    frame: &mut [u8],
    frame_length: &mut u32,
) -> u32
    ensures { Reports result (ReversalRequestAnswers
        (reversing key.now ksn.now reversed.now)
        (buffer frame.old frame_length.old)
        (buffer frame.new frame_length.new)) }
{
    status(duk_calls::reversal_request(key, ksn, reversed, frame, frame_length))
}

/// Writes the fields of a reversal. The MAC is not compared: `check_reversal` does that.
#[unsafe(no_mangle)]
pub extern "C" fn dukpt_read_reversal(
    frame: &[u8],
    ksn: &mut [u8],
    reversed: &mut [u8],
    mac: &mut [u8],
) -> u32
    ensures { Reports result (ReadReversalAnswers frame.now
        (reversal_parts ksn.old reversed.old mac.old)
        (reversal_parts ksn.new reversed.new mac.new)) }
{
    status(duk_calls::read_reversal(frame, ksn, reversed, mac))
}

/// Tells whether a reversal has its MAC under the transaction key. It writes nothing. The
/// reversal's own key serial number may be any: a host asks `check_usable` about it before it
/// answers.
#[unsafe(no_mangle)]
pub extern "C" fn dukpt_check_reversal(key: &[u8], frame: &[u8]) -> u32
    ensures { Reports result (CheckReversalAnswers key.now frame.now) }
{
    status(duk_calls::check_reversal(key, frame))
}

/// Writes the reply to a reversal.
#[unsafe(no_mangle)]
pub extern "C" fn dukpt_reversal_reply(
    key: &[u8],
    ksn: &[u8],
    reversed: &[u8],
    state: u32,
    frame: &mut [u8],
    frame_length: &mut u32,
) -> u32
    ensures { Reports result (ReversalReplyAnswers
        (reversing key.now ksn.now reversed.now)
        state
        (buffer frame.old frame_length.old)
        (buffer frame.new frame_length.new)) }
{
    status(duk_calls::reversal_reply(key, ksn, reversed, state, frame, frame_length))
}

/// Writes the fields of the reply to a reversal. The MAC is not compared: `check_reversal_reply`
/// does that.
#[unsafe(no_mangle)]
pub extern "C" fn dukpt_read_reversal_reply(
    frame: &[u8],
    ksn: &mut [u8],
    reversed: &mut [u8],
    state: &mut u32,
) -> u32
    ensures { Reports result (ReadReversalReplyAnswers frame.now
        (reversal_reply_parts ksn.old reversed.old state.old)
        (reversal_reply_parts ksn.new reversed.new state.new)) }
{
    status(duk_calls::read_reversal_reply(frame, ksn, reversed, state))
}

/// Tells whether a frame is the reply to the reversal with this transaction key and these key
/// serial numbers. It writes nothing.
#[unsafe(no_mangle)]
pub extern "C" fn dukpt_check_reversal_reply(
    key: &[u8],
    ksn: &[u8],
    reversed: &[u8],
    frame: &[u8],
) -> u32
    ensures { Reports result (CheckReversalReplyAnswers
        (reversing key.now ksn.now reversed.now)
        frame.now) }
{
    status(duk_calls::check_reversal_reply(key, ksn, reversed, frame))
}

/// Writes the image of a security module that has its local master key alone.
#[unsafe(no_mangle)]
pub extern "C" fn dukpt_module_new(lmk: &[u8], image: &mut [u8]) -> u32
    ensures { Reports result (ModuleNewAnswers lmk.now image.old image.new) }
{
    status(duk_calls::module_new(lmk, image))
}

/// Loads a base derivation key, for the key serial numbers that begin with a prefix.
#[unsafe(no_mangle)]
pub extern "C" fn dukpt_module_load_bdk(prefix: &[u8], block: &[u8], image: &mut [u8]) -> u32
    ensures { Reports result (ModuleLoadBdkAnswers prefix.now block.now image.old image.new) }
{
    status(duk_calls::module_load_bdk(prefix, block, image))
}

/// Loads the zone key, under which PIN blocks come to the issuer.
#[unsafe(no_mangle)]
pub extern "C" fn dukpt_module_load_zone(block: &[u8], image: &mut [u8]) -> u32
    ensures { Reports result (ModuleLoadZoneAnswers block.now image.old image.new) }
{
    status(duk_calls::module_load_zone(block, image))
}

/// Writes what frames are judged to be: 64 bytes for each, which end with zeros. They are the frame
/// of a refusal, which begins with a zero, for reason 1 to 4. Or they are a payment: 1, 0, its key
/// serial number (10), amount (4, the highest first), code (2) and MAC (8). Or they are a reversal:
/// 2, 0, its own key serial number (10), that of the payment (10) and its MAC (8). The code of a
/// payment is what the issuer says by a table of cards. Each card has 37 bytes: the number of its
/// PAN's digits, room for 19 of them, the number of its PIN's digits, room for 12, and its limit
/// (4, the highest first). Of two cards with one PAN the first counts. Each frame stands at the
/// begin of 64 bytes.
#[unsafe(no_mangle)]
pub extern "C" fn dukpt_host_judge(
    image: &[u8],
    cards: &[u8],
    frames: &[u8],
    judged: &mut [u8],
) -> u32
    ensures { Reports result (HostJudgeAnswers image.now cards.now frames.now judged.old judged.new) }
{
    status(duk_calls::host_judge(image, cards, frames, judged))
}

/// Writes the answers to what was settled, 64 bytes for each: the frame, which begins with a zero,
/// and zeros behind it; or the number of a fault, and zeros behind it: `NotSettled`; `NoKeySet`;
/// `NotUsable`. No fault comes of what `host_judge` wrote with what became of it in the second
/// byte: 1 where it is kept from now on, 2 where the same was kept before, 3 where its key serial
/// number is used, and 4 where there is no room. The code of a payment that was kept before is the
/// one that was kept. Behind the fields of a reversal that is kept, or was, stands its state: 1
/// where the payment is undone, and 0 where none stands.
#[unsafe(no_mangle)]
pub extern "C" fn dukpt_host_answer(image: &[u8], settled: &[u8], answers: &mut [u8]) -> u32
    ensures { Reports result (HostAnswerAnswers image.now settled.now answers.old answers.new) }
{
    status(duk_calls::host_answer(image, settled, answers))
}

/// Writes how many bytes the frame has with which these begin, the two of its length counted.
#[unsafe(no_mangle)]
pub extern "C" fn dukpt_frame_length(bytes: &[u8], count: &mut u32) -> u32
    ensures { Reports result (FrameLengthAnswers bytes.now count.old count.new) }
{
    status(duk_calls::frame_length(bytes, count))
}
