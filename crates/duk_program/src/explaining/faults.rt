//! What is told of each fault, before any file is asked.

use crate::explaining::arguments::{
    counter, iksn, issue_count, key, refused, text, walk_count, wraps,
};
use crate::explaining::files::{
    failed, longer, memory, name_of, new_version, of_script, of_serve, old_version, output, under,
    ungrown, unmade, unopened, unread,
};
use crate::explaining::paths::File;
use crate::explaining::seen::{Found, Seen, words};
use crate::explaining::shown::{block_shown, frame_shown, image_shown};
use crate::explaining::texts::{About, Kind};
use crate::fault::Fault;
use crate::random::{IdentityFault, RANDOM};
use crate::secrets::{SecretFault, Unread};
use duk_block::BlockFault;
use duk_commands::issue::IssueFault;
use duk_commands::{BatchFault, Fault as CommandFault, FindFault};
use duk_components::ComponentFault;
use duk_pin::PinFault;
use duk_service::copy_journal::CopyJournalFault;
use duk_service::copy_ledger::CopyLedgerFault;
use duk_service::grow_journal::GrowJournalFault;
use duk_service::new_file::NewFileFault;
use duk_service::{FileFault, Reason, RecordFormat};
use duk_show::ShowFault;

/// A fault of a request.
pub(crate) fn of_fault(about: About<'_, '_>, why: &Fault) -> Seen {
    match why {
        Fault::Command(why) => of_command(about, *why),
        Fault::Find(why) => of_find(about, *why),
        Fault::Show(why) => of_show(about, *why),
        Fault::Lmk(why) => of_lmk(about, *why),
        Fault::Issue(why) => of_issue(about, *why),
        Fault::Batch(BatchFault::ItemsRefused) => words("input", "lines that are refused").wanted(
            "one item a line; the fault of each stands in its place",
        ),
        Fault::Batch(BatchFault::ReadFailed) => words("input", "a read failed").wanted(
            "one item a line",
        ),
        Fault::Batch(BatchFault::WriteFailed) => output(),
        Fault::Secret(why) => of_secret(about, *why),
        Fault::Text(why) => of_text(*why),
        Fault::ConfigUnread => unread("CONFIG"),
        Fault::Script(why) => of_script(why),
        Fault::Serve(why) => of_serve(*why),
        Fault::Identity(IdentityFault::Unread) => random_device(),
        Fault::NewFile(_, NewFileFault::RecordsRefused) => refused(about, "RECORDS"),
        Fault::NewFile(format, NewFileFault::Unmade) => unmade("FILE", name_of(*format)),
        Fault::GrowJournal(GrowJournalFault::RecordsRefused) => refused(about, "RECORDS"),
        Fault::GrowJournal(GrowJournalFault::Unopened) => {
            unopened("FILE", "journal", RecordFormat::Journal)
        }
        Fault::GrowJournal(GrowJournalFault::Failed) => failed("FILE", RecordFormat::Journal),
        Fault::GrowJournal(GrowJournalFault::OldVersion) => {
            old_version("FILE", RecordFormat::Journal)
        }
        Fault::GrowJournal(GrowJournalFault::Ungrown) => ungrown(),
        Fault::CopyJournal(CopyJournalFault::Unopened) => {
            unopened("OLD", "journal", RecordFormat::Journal)
        }
        Fault::CopyJournal(CopyJournalFault::Failed) => failed("OLD", RecordFormat::Journal),
        Fault::CopyJournal(CopyJournalFault::Unmade) => unmade("NEW", "journal"),
        Fault::CopyLedger(CopyLedgerFault::Unopened) => {
            unopened("OLD", "ledger", RecordFormat::Ledger).wanted(
                "a ledger of version 1 that no other uses",
            )
        }
        Fault::CopyLedger(CopyLedgerFault::NewVersion) => new_version("OLD"),
        Fault::CopyLedger(CopyLedgerFault::Failed) => failed("OLD", RecordFormat::Ledger),
        Fault::CopyLedger(CopyLedgerFault::Unmade) => unmade("NEW", "ledger"),
        Fault::Identity(IdentityFault::OutOfMemory)
        | Fault::NewFile(_, NewFileFault::OutOfMemory)
        | Fault::CopyJournal(CopyJournalFault::OutOfMemory)
        | Fault::CopyLedger(CopyLedgerFault::OutOfMemory) => memory(),
    }
}

/// A secret that is given by reference. Those of several with one name are all that a command has.
fn of_secret(about: About<'_, '_>, why: SecretFault) -> Seen {
    let SecretFault::Unread(secret, why) = why else {
        return memory();
    };
    let (found, wanted) = match why {
        Unread::CannotRead => (Found::Unread(Reason::Other), "a file that can be read"),
        Unread::TooLong => (Found::Words("a longer line"), "at most 4096 bytes"),
        Unread::NotUtf8 => (Found::Words("other bytes"), "a line of UTF-8"),
    };
    let seen = Seen::new(secret.name, found)
        .of(File::Reference)
        .wanted(wanted);
    about.placed(seen, secret.place)
}

/// A TEXT whose bytes are not read.
fn of_text(why: FileFault) -> Seen {
    let (found, wanted) = match why {
        FileFault::CannotRead => (Found::Unread(Reason::Other), "a file that can be read"),
        FileFault::TooLong => (Found::Words("more bytes"), "at most 16777216 bytes"),
        FileFault::NoMemory => return memory(),
    };
    Seen::new("TEXT", found).of(File::Reference).wanted(wanted)
}

/// A command over keys, MACs, PINs, key blocks and frames.
pub(crate) fn of_command(about: About<'_, '_>, why: CommandFault) -> Seen {
    match why {
        CommandFault::BdkRefused | CommandFault::InitialRefused => refused(about, "BDK"),
        CommandFault::KsnRefused => refused(about, "KSN"),
        CommandFault::IksnRefused => iksn(about),
        CommandFault::CountRefused => walk_count(about),
        CommandFault::CounterRefused => counter(about),
        CommandFault::KbpkRefused => refused(about, "KBPK"),
        CommandFault::FieldsRefused => refused(about, "FIELDS"),
        CommandFault::KeyRefused => key(about),
        CommandFault::PadRefused => refused(about, "PAD"),
        CommandFault::PinBlockRefused => refused(about, "BLOCK"),
        CommandFault::ZoneRefused => refused(about, "ZONE"),
        CommandFault::TextRefused => text(about),
        CommandFault::AmountRefused => refused(about, "AMOUNT"),
        CommandFault::NumberRefused => refused(about, "NUMBER"),
        CommandFault::RequestRefused => refused(about, "REQUEST"),
        CommandFault::AnswerRefused => refused(about, "ANSWER"),
        CommandFault::PinRefused(PinFault::PinLength | PinFault::PinDigit) => refused(about, "PIN"),
        CommandFault::PinRefused(PinFault::PanLength | PinFault::PanDigit) => refused(about, "PAN"),
        CommandFault::BlockRefused(why) => of_key_block(about, why),
        CommandFault::OtherIksn => words("NUMBER", "another IKSN").wanted("that of KSN"),
        CommandFault::SameNumber => words("NUMBER", "KSN itself").wanted(
            "the number of the payment",
        ),
        CommandFault::NotUsable => words("NUMBER", "the counter of no payment").wanted(
            "1 to 10 one bits in its counter",
        ),
        CommandFault::NotAPinBlock => words("BLOCK", "no PIN of this PAN").wanted(
            "the PAN and the key that it was made with",
        ),
        CommandFault::NotMine => words("ANSWER", "another number or kind").wanted(
            "the answer to REQUEST",
        ),
        CommandFault::BadMac => words("ANSWER", "another MAC").wanted(
            "the answer as it was sent, and the key of its terminal",
        ),
        CommandFault::OutOfMemory => memory(),
        CommandFault::WriteFailed => output(),
    }
}

/// A key block, or a key that is wrapped in one.
fn of_key_block(about: About<'_, '_>, why: BlockFault) -> Seen {
    match why {
        BlockFault::HeaderField if wraps(about) => {
            about.seen("FIELDS", Kind::Printable, "printable characters")
        }
        BlockFault::Length
        | BlockFault::Version
        | BlockFault::HeaderField
        | BlockFault::OptionalBlock
        | BlockFault::Hex => {
            let wanted = "a key block of version B; show block tells the place";
            about.seen("BLOCK", Kind::Any, wanted)
        }
        BlockFault::Mac => words("BLOCK", "another MAC").wanted(
            "the key block as it was made, and its KBPK",
        ),
        BlockFault::Payload => words("BLOCK", "no such key").wanted("a key of 16 or 24 bytes"),
        BlockFault::PadLength => refused(about, "PAD").wanted(
            "12 hexadecimal digits, and 16 for each further block",
        ),
    }
}

/// A search.
fn of_find(about: About<'_, '_>, why: FindFault) -> Seen {
    match why {
        FindFault::BdkRefused | FindFault::InitialRefused => refused(about, "BDK"),
        FindFault::WhatRefused => refused(about, "WHAT"),
        FindFault::TextRefused => text(about),
        FindFault::PanRefused => refused(about, "PAN"),
        FindFault::BlockRefused => refused(about, "BLOCK"),
        FindFault::KsnRefused => refused(about, "KSN"),
        FindFault::WindowRefused => refused(about, "N"),
        FindFault::NotFound => words("WHAT", "made by no key that was tried").wanted(
            "its key, and its number among those that are tried; \
            --from and --window choose the numbers",
        ),
        FindFault::OutOfMemory => memory(),
        FindFault::WriteFailed => output(),
    }
}

/// What is shown.
pub(crate) fn of_show(about: About<'_, '_>, why: ShowFault) -> Seen {
    match why {
        ShowFault::KindRefused => refused(about, "KIND"),
        ShowFault::BdkRefused | ShowFault::InitialRefused => refused(about, "BDK"),
        ShowFault::KsnRefused => {
            let wanted = "a frame whose number is usable; without --key its fields are told";
            about.seen("WHAT", Kind::Any, wanted)
        }
        ShowFault::FrameRefused { place, why } => frame_shown(about, place, why),
        ShowFault::BlockRefused { place, why } => block_shown(about, place, why),
        ShowFault::ImageRefused { place, why } => image_shown(about, place, why),
        ShowFault::LogUnread | ShowFault::JournalUnread | ShowFault::LedgerUnread => unread("WHAT"),
        ShowFault::LogTooLong | ShowFault::JournalTooLong | ShowFault::LedgerTooLong => {
            longer("WHAT").wanted("at most 1073741824 bytes")
        }
        ShowFault::LogRefused { place } => {
            shown_record(place).wanted("16 zero bytes, or a record as FORMATS has it")
        }
        ShowFault::JournalRefused { place } => {
            shown_record(place).wanted("32 zero bytes, or a payment as FORMATS has it")
        }
        ShowFault::LedgerRefused { place } => {
            shown_record(place).wanted("32 zero bytes, a header, or an issue as FORMATS has it")
        }
        ShowFault::OutOfMemory => memory(),
    }
}

/// A log, a journal or a ledger that is shown.
fn shown_record(place: usize) -> Seen {
    under("WHAT", "WHAT", Found::Record(place as u64))
}

/// Components of a local master key.
fn of_lmk(about: About<'_, '_>, why: ComponentFault) -> Seen {
    match why {
        ComponentFault::Number => words("COMPONENT", "too few or too many").wanted("2 to 9 lines"),
        ComponentFault::Component(place) => {
            let wanted = "32 or 48 digits as those before it, a space, and their check value";
            let place = place.saturating_sub(1);
            let length = about.text("COMPONENT", place).len();
            about
                .placed(Seen::new("COMPONENT", Found::Text(length, None)), place)
                .wanted(wanted)
        }
        ComponentFault::Weak => words("COMPONENT", "components of a weak key").wanted(
            "components of a key that kcv does not call weak",
        ),
        ComponentFault::Random => {
            let wanted = "one text of 32 or 48 random digits, of a key that kcv does not call weak";
            about.seen("COMPONENT", Kind::Hexadecimal, wanted)
        }
        ComponentFault::Wrap(why) => of_command(about, why),
    }
}

/// The system's random device, which gives nothing.
fn random_device() -> Seen {
    Seen::new(RANDOM, Found::Unread(Reason::Other)).wanted("a device that can be read")
}

/// Keys that are issued.
fn of_issue(about: About<'_, '_>, why: IssueFault) -> Seen {
    match why {
        IssueFault::BdkRefused => refused(about, "BDK"),
        IssueFault::LoadingRefused => refused(about, "LOADING"),
        IssueFault::IksnRefused => iksn(about),
        IssueFault::CountRefused => issue_count(about),
        IssueFault::KcvRefused => refused(about, "KCV"),
        IssueFault::KcvDiffers => words("BDK", "another check value").wanted(
            "a key with the check value KCV; kcv prints that of a key",
        ),
        IssueFault::PaddingUnread => random_device(),
        IssueFault::LedgerUnopened => unopened("ledger", "ledger", RecordFormat::Ledger),
        IssueFault::OutUnmade => unmade("out", "out"),
        IssueFault::LedgerFailed => ledger(Found::Words("a step of its device failed")).wanted(
            "a device that works; the next number may stand in it",
        ),
        IssueFault::LedgerOldVersion => old_version("ledger", RecordFormat::Ledger),
        IssueFault::LedgerDamaged => {
            ledger(Found::Records(RecordFormat::Ledger, "records that no ledger has")).wanted(
                "a ledger as it was kept",
            )
        }
        IssueFault::Issued(first) => {
            Seen::new(
                "IKSN",
                Found::Number(first.bytes(), " stands in the ledger"),
            )
            .wanted("numbers that do not; --skip-issued passes over them")
        }
        IssueFault::NotIssued(first) => {
            Seen::new(
                "IKSN",
                Found::Number(first.bytes(), " does not stand in the ledger"),
            )
            .wanted("numbers that do; without --again it is issued")
        }
        IssueFault::LedgerFull => {
            ledger(Found::Words("too little room, or the largest run is 4294967295")).wanted(
                "32 bytes of zeros for each number, and a largest run below 4294967295",
            )
        }
        IssueFault::OutOfMemory => memory(),
        IssueFault::WriteFailed => output().of(File::Under("out")),
    }
}

/// A ledger.
fn ledger(found: Found) -> Seen {
    under("ledger", "ledger", found)
}
