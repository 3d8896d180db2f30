//! Whether the bytes of a disk are such as a log, a journal or a ledger of ours leaves in its file.

ghost use Rattle.std.specs.Prelude.{◌≡◌, ◌+◌, ◌*◌, ◌<◌, ◌≤◌, ◌^◌, ◌↔◌, ℕ, IsFalse, IsTrue, IfErr, IfOk, OnOk, length};
ghost use Rattle.duk_store.specs.Disk.{HasFailed, PreservesBytes, PreservesDisk, StaysArmed};
ghost use Rattle.duk_journal_copy.specs.declared.version.Version.TheVariants.{Two as VersionTwo};
ghost use Rattle.duk_service.specs.declared.left_records.Layout.TheVariants.{Ledger as LedgerLayout};
ghost use Rattle.duk_service.specs.LeftRecords.{HasFront, IsFront, IsLedgerFront, layout_in, most_of_group, record_length};
ghost use Rattle.duk_service.specs.inner.GrowJournal.{IsPartSeen};
ghost use Rattle.duk_service.specs.inner.LeftRecords.{AreFollowersRead, AreKeptCounted, HasMark, IsBefore, IsFrontSeen, IsLastIn, IsLastOn, IsSeen, LacksMark, MayStand};

use duk_journal::{OPEN, RECORD_LENGTH, contents_of_record, is_journal_header};
use duk_journal_copy::Version;
use duk_ledger::is_ledger_header;
use duk_store::{Disk, StoreFault};

/// The bytes of a piece, of which a disk is read at once.
const PIECE_LENGTH: usize = 65_536;

/// What a file of records is of.
#[derive(Clone, Copy, Debug, PartialEq, Eq)]
pub enum RecordFormat {
    /// A log of numbers.
    Log,
    /// A journal.
    Journal,
    /// A ledger.
    Ledger,
}

impl RecordFormat {
    /// How the files of a version are laid out. Those of version 2 are written.
    pub(crate) fn layout_in(self, version: Version) -> Layout
        ensures { result ≡ layout_in self version }
    {
        match self {
            RecordFormat::Log => Layout::Log,
            RecordFormat::Journal => Layout::Journal(version),
            RecordFormat::Ledger => Layout::Ledger(version),
        }
    }
}

/// How the records of a file are laid out.
#[derive(Clone, Copy, Debug, PartialEq, Eq)]
pub enum Layout {
    /// Records of 16 bytes, each a group by itself.
    Log,
    /// Those of a journal of a version: records of 32 bytes, in groups of at most 4,096. In version 2
    /// a header stands in front of them.
    Journal(Version),
    /// Those of a ledger of a version, each a group by itself: in version 1 they are those of a log, of
    /// which an open one has a number; in version 2 they have 32 bytes, and a header stands in front of
    /// them.
    Ledger(Version),
}

impl Layout {
    /// The bytes of a record.
    pub(crate) fn record_length(self) -> usize
        ensures { result ≡ record_length self }
    {
        match self {
            Layout::Log | Layout::Ledger(Version::One) => 16,
            Layout::Journal(_) | Layout::Ledger(Version::Two) => 32,
        }
    }

    /// The records of a piece, of which a disk is read at once: it has 65,536 bytes.
    fn piece_records(self) -> u64
        ensures { record_length self * result ≡ 65536 }
    {
        match self {
            Layout::Log | Layout::Ledger(Version::One) => 4096,
            Layout::Journal(_) | Layout::Ledger(Version::Two) => 2048,
        }
    }

    /// The most records of a group.
    fn most_of_group(self) -> u64
        ensures { result ≡ most_of_group self }
    {
        match self {
            Layout::Log | Layout::Ledger(_) => 1,
            Layout::Journal(_) => 4096,
        }
    }
}

/// What a record is looked for by.
#[derive(Clone, Copy)]
enum Mark {
    /// One of its bytes is not zero.
    Used,
    /// Its gate is not zero.
    Gated,
    /// It is open.
    Open,
}

impl Mark {
    /// Whether a record has it.
    fn is_of(self, bytes: &[u8]) -> bool
        requires { 0 < length bytes.now }
        ensures has { IsTrue result → HasMark self bytes.now }
        ensures lacks { IsFalse result → LacksMark self bytes.now }
    {
        match self {
            Mark::Used => !bytes.iter().all(|byte| *byte == 0),
            Mark::Gated => bytes[0] != 0,
            Mark::Open => bytes[0] == 1,
        }
    }
}

/// What the bytes of a disk are seen to be.
#[derive(Clone, Copy)]
pub enum Seen {
    /// Such as a file of the layout is left.
    Left,
    /// None at all.
    Empty,
    /// Not whole records.
    Cut,
    /// Whole records, of which the first is not such as the layout begins with.
    OtherFront,
    /// Such as none is left: the record at this place, from 0, is neither open nor zero.
    Foreign(u64),
}

/// Looks whether the bytes of a disk are such as a log, a journal or a ledger leaves. All behind the last open
/// record is read, from the end on, and little before it.
///
/// Refused with `Device` where a device step failed.
pub fn look_at<D: Disk>(disk: &mut D, layout: Layout) -> Result<Seen, StoreFault>
    ensures seen { IfOk result (IsSeen layout (D.meaning.state_of disk.new)) }
    ensures nature { PreservesDisk (D.meaning.state_of disk.old) (D.meaning.state_of disk.new) }
    ensures arming { StaysArmed (D.meaning.state_of disk.old) (D.meaning.state_of disk.new) }
    ensures bytes { PreservesBytes (D.meaning.state_of disk.old) (D.meaning.state_of disk.new) }
    ensures no_failure { OnOk result
        ((D.meaning.state_of disk.new).failures ≡ (D.meaning.state_of disk.old).failures) }
    ensures failed { IfErr result
        (HasFailed (D.meaning.state_of disk.old) (D.meaning.state_of disk.new)) }
{
    let length = layout.record_length() as u64;
    let size = disk.size();
    if size == 0 {
        return Ok(Seen::Empty);
    }
    if size % length != 0 {
        return Ok(Seen::Cut);
    }
    if !has_front(disk, layout)? {
        return Ok(Seen::OtherFront);
    }
    look_at_records(disk, layout, size / length)
}

/// Whether the first record of a disk is such as the layout begins with.
pub(crate) fn has_front<D: Disk>(disk: &mut D, layout: Layout) -> Result<bool, StoreFault>
    requires inside { record_length layout ≤ (D.meaning.state_of disk.old).size }
    ensures seen { IfOk result (IsFrontSeen layout (D.meaning.state_of disk.new)) }
    ensures nature { PreservesDisk (D.meaning.state_of disk.old) (D.meaning.state_of disk.new) }
    ensures arming { StaysArmed (D.meaning.state_of disk.old) (D.meaning.state_of disk.new) }
    ensures bytes { PreservesBytes (D.meaning.state_of disk.old) (D.meaning.state_of disk.new) }
    ensures no_failure { OnOk result
        ((D.meaning.state_of disk.new).failures ≡ (D.meaning.state_of disk.old).failures) }
    ensures failed { IfErr result
        (HasFailed (D.meaning.state_of disk.old) (D.meaning.state_of disk.new)) }
{
    match layout {
        Layout::Log => Ok(true),
        Layout::Journal(version) => {
            let mut first = [0; RECORD_LENGTH];
            disk.read_at(0, &mut first)?;
            Ok(is_front(version, &first))
        }
        Layout::Ledger(version) => {
            let mut bytes = [0; RECORD_LENGTH];
            let first = &mut bytes[..layout.record_length()];
            disk.read_at(0, first)?;
            Ok(is_ledger_front(version, first))
        }
    }
}

/// Whether the first record of a journal of a version is such: in version 2 it is a header; in version
/// 1 it is closed, or has contents.
fn is_front(version: Version, first: &[u8]) -> bool
    requires { length first.now ≡ 32 }
    ensures { IsTrue result ↔ IsFront version first.now }
{
    match version {
        Version::One => first[0] != OPEN || contents_of_record(first).is_some(),
        Version::Two => is_journal_header(first),
    }
}

/// Whether the first record of a ledger of a version is such: in version 2 it is a header; in version 1
/// it is closed, or has a number.
fn is_ledger_front(version: Version, first: &[u8]) -> bool
    requires { length first.now ≡ record_length (LedgerLayout version) }
    ensures { IsTrue result ↔ IsLedgerFront version first.now }
{
    match version {
        Version::One => first[0] != OPEN || first[11..].iter().all(|byte| *byte == 0),
        Version::Two => is_ledger_header(first),
    }
}

/// What so many records in front of a disk are seen to be, where all behind them are zeros. The first
/// is such as the layout begins with.
pub(crate) fn look_at_records<D: Disk>(
    disk: &mut D,
    layout: Layout,
    records: u64,
) -> Result<Seen, StoreFault>
    requires some { 1 ≤ records }
    requires front { (D.meaning.state_of disk.old).honest
        → HasFront layout (D.meaning.state_of disk.old).reads }
    requires size { record_length layout * records ≤ (D.meaning.state_of disk.old).size }
    requires fits { (D.meaning.state_of disk.old).size < 2 ^ 64 }
    ensures seen { IfOk result (IsPartSeen layout records (D.meaning.state_of disk.new)) }
    ensures nature { PreservesDisk (D.meaning.state_of disk.old) (D.meaning.state_of disk.new) }
    ensures arming { StaysArmed (D.meaning.state_of disk.old) (D.meaning.state_of disk.new) }
    ensures bytes { PreservesBytes (D.meaning.state_of disk.old) (D.meaning.state_of disk.new) }
    ensures no_failure { OnOk result
        ((D.meaning.state_of disk.new).failures ≡ (D.meaning.state_of disk.old).failures) }
    ensures failed { IfErr result
        (HasFailed (D.meaning.state_of disk.old) (D.meaning.state_of disk.new)) }
{
    let last = match find_last(disk, layout, Mark::Used, records)? {
        None => return Ok(Seen::Left),
        Some(last) => last,
    };
    let kept = count_kept(disk, layout, last + 1)?;
    let gated = find_last(disk, layout, Mark::Gated, last + 1)?;
    if last < kept + layout.most_of_group() && may_stand(gated, kept, records) {
        Ok(Seen::Left)
    } else {
        Ok(Seen::Foreign(last))
    }
}

/// Whether the last record with a gate may stand where it does, behind so many that are in groups, in
/// a file of so many: it is at most the one behind them, and a record that is used, in a file of one
/// record, is in a group.
fn may_stand(gated: Option<u64>, kept: u64, records: u64) -> bool
    ensures { IsTrue result ↔ MayStand gated kept records }
{
    match gated {
        None => records > 1 || kept > 0,
        Some(place) => place <= kept && (records > 1 || kept > 0),
    }
}

/// How many records are in groups, where none is open from a place on.
fn count_kept<D: Disk>(disk: &mut D, layout: Layout, below: u64) -> Result<u64, StoreFault>
    requires inside { record_length layout * below ≤ (D.meaning.state_of disk.old).size }
    requires fits { (D.meaning.state_of disk.old).size < 2 ^ 64 }
    ensures counted { IfOk result (AreKeptCounted layout below (D.meaning.state_of disk.new)) }
    ensures fits { IfOk result (λ kept. kept < 2 ^ 61) }
    ensures nature { PreservesDisk (D.meaning.state_of disk.old) (D.meaning.state_of disk.new) }
    ensures arming { StaysArmed (D.meaning.state_of disk.old) (D.meaning.state_of disk.new) }
    ensures bytes { PreservesBytes (D.meaning.state_of disk.old) (D.meaning.state_of disk.new) }
    ensures no_failure { OnOk result
        ((D.meaning.state_of disk.new).failures ≡ (D.meaning.state_of disk.old).failures) }
    ensures failed { IfErr result
        (HasFailed (D.meaning.state_of disk.old) (D.meaning.state_of disk.new)) }
{
    match find_last(disk, layout, Mark::Open, below)? {
        None => Ok(0),
        Some(first) => {
            let followers = read_followers(disk, layout, first)?;
            Ok(first + 1 + u64::from(followers))
        }
    }
}

/// How many records that at a place says to follow. A header says that none does.
fn read_followers<D: Disk>(disk: &mut D, layout: Layout, place: u64) -> Result<u16, StoreFault>
    requires inside { record_length layout * (place + 1) ≤ (D.meaning.state_of disk.old).size }
    requires fits { (D.meaning.state_of disk.old).size < 2 ^ 64 }
    ensures read { IfOk result (AreFollowersRead layout place (D.meaning.state_of disk.new)) }
    ensures nature { PreservesDisk (D.meaning.state_of disk.old) (D.meaning.state_of disk.new) }
    ensures arming { StaysArmed (D.meaning.state_of disk.old) (D.meaning.state_of disk.new) }
    ensures bytes { PreservesBytes (D.meaning.state_of disk.old) (D.meaning.state_of disk.new) }
    ensures no_failure { OnOk result
        ((D.meaning.state_of disk.new).failures ≡ (D.meaning.state_of disk.old).failures) }
    ensures failed { IfErr result
        (HasFailed (D.meaning.state_of disk.old) (D.meaning.state_of disk.new)) }
{
    match layout {
        Layout::Log | Layout::Ledger(_) => Ok(0),
        Layout::Journal(version) => {
            if is_header(version, place) {
                return Ok(0);
            }
            let mut bytes = [0; 2];
            disk.read_at(32 * place + 2, &mut bytes)?;
            Ok(u16::from_be_bytes(bytes))
        }
    }
}

/// Whether the record at a place of a journal of a version is its header.
fn is_header(version: Version, place: u64) -> bool
    ensures { IsTrue result ↔ (version ≡ VersionTwo) × (place ≡ 0) }
{
    match version {
        Version::One => false,
        Version::Two => place == 0,
    }
}

/// The last record before a place that has a mark. The disk is read by pieces, from that place on to
/// its front.
fn find_last<D: Disk>(
    disk: &mut D,
    layout: Layout,
    mark: Mark,
    below: u64,
) -> Result<Option<u64>, StoreFault>
    requires inside { record_length layout * below ≤ (D.meaning.state_of disk.old).size }
    requires fits { (D.meaning.state_of disk.old).size < 2 ^ 64 }
    ensures found { IfOk result (IsLastOn layout mark 0 below (D.meaning.state_of disk.new)) }
    ensures before { IfOk result (IsBefore below) }
    ensures nature { PreservesDisk (D.meaning.state_of disk.old) (D.meaning.state_of disk.new) }
    ensures arming { StaysArmed (D.meaning.state_of disk.old) (D.meaning.state_of disk.new) }
    ensures bytes { PreservesBytes (D.meaning.state_of disk.old) (D.meaning.state_of disk.new) }
    ensures no_failure { OnOk result
        ((D.meaning.state_of disk.new).failures ≡ (D.meaning.state_of disk.old).failures) }
    ensures failed { IfErr result
        (HasFailed (D.meaning.state_of disk.old) (D.meaning.state_of disk.new)) }
{
    let length = layout.record_length();
    let mut piece = [0; PIECE_LENGTH];
    let mut end = below;
    while end > 0 {
        let count = end.min(layout.piece_records());
        let start = end - count;
        let bytes = &mut piece[..length * count as usize];
        let found = find_in_piece(disk, layout, mark, start, count, bytes)?;
        if found.is_some() {
            return Ok(found);
        }
        end = start;
    }
    Ok(None)
}

/// Reads so many records from a place on into a piece, and finds the last of them that has a mark.
fn find_in_piece<D: Disk>(
    disk: &mut D,
    layout: Layout,
    mark: Mark,
    start: u64,
    count: u64,
    piece: &mut [u8],
) -> Result<Option<u64>, StoreFault>
    requires whole { length piece.old ≡ record_length layout * count }
    requires most { length piece.old ≤ 65536 }
    requires inside { record_length layout * (start + count) ≤ (D.meaning.state_of disk.old).size }
    requires fits { (D.meaning.state_of disk.old).size < 2 ^ 64 }
    ensures found { IfOk result
        (IsLastOn layout mark start (start + count) (D.meaning.state_of disk.new)) }
    ensures before { IfOk result (IsBefore (start + count)) }
    ensures length { length piece.new ≡ length piece.old }
    ensures nature { PreservesDisk (D.meaning.state_of disk.old) (D.meaning.state_of disk.new) }
    ensures arming { StaysArmed (D.meaning.state_of disk.old) (D.meaning.state_of disk.new) }
    ensures bytes { PreservesBytes (D.meaning.state_of disk.old) (D.meaning.state_of disk.new) }
    ensures no_failure { OnOk result
        ((D.meaning.state_of disk.new).failures ≡ (D.meaning.state_of disk.old).failures) }
    ensures failed { IfErr result
        (HasFailed (D.meaning.state_of disk.old) (D.meaning.state_of disk.new)) }
{
    disk.read_at(layout.record_length() as u64 * start, piece)?;
    match last_in(layout, mark, count as usize, piece) {
        None => Ok(None),
        Some(place) => Ok(Some(start + place as u64)),
    }
}

/// The last of so many records, which are a piece, that has a mark.
fn last_in(layout: Layout, mark: Mark, count: usize, piece: &[u8]) -> Option<usize>
    requires whole { length piece.now ≡ record_length layout * count }
    requires most { length piece.now ≤ 65536 }
    ensures found { IsLastIn layout mark 0 count piece.now result }
    ensures before { IsBefore count result }
{
    let length = layout.record_length();
    let mut end = count;
    while end > 0 {
        end -= 1;
        let at = length * end;
        if mark.is_of(&piece[at..at + length]) {
            return Some(end);
        }
    }
    None
}
