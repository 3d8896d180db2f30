//! The numbers that the entries of a host use.

ghost use Rattle.std.specs.Prelude.{◌≡◌, [], true, IfOk, OnOk};
ghost use Rattle.std.specs.Bool.{MatchBool};
ghost use Rattle.duk_host.specs.Used.{IsOneMore, IsUsed};
ghost use Rattle.duk_journal.specs.Entry.{MayStandUnder, reversed_by};
ghost use Rattle.duk_tree.specs.Path.{IsUsable};
ghost use Rattle.duk_journal_host.specs.inner.Index.{IsNoted, IsOneMoreWhere, IsPaymentNoted, IsReversalNoted, IsWider, TakesSets};

use duk_frame::Code;
use duk_host::UsedNumbers;
use duk_journal::{Decided, Entry};
use duk_tree::Ksn;
use std::alloc::{AllocError, Global};

/// The used numbers; those of them under which no approved payment is kept, which are the numbers of
/// declined payments and of reversals, and reversed ones that no payment had; and those that were
/// reversed. So an approved payment takes no memory but for its number.
#[derive(Drop)]
pub(crate) struct NumberSets {
    pub(crate) used: UsedNumbers,
    pub(crate) others: UsedNumbers,
    pub(crate) reversed: UsedNumbers,
}

impl NumberSets {
    /// No number is used. This takes no memory.
    pub(crate) fn new(alloc: Global) -> Self
        ensures used { result.used ≡ [] }
        ensures others { result.others ≡ [] }
        ensures reversed { result.reversed ≡ [] }
    {
        NumberSets {
            used: UsedNumbers::new(alloc),
            others: UsedNumbers::new(alloc),
            reversed: UsedNumbers::new(alloc),
        }
    }

    /// Takes the numbers of an entry, and reports whether its own was not used before. Where it was,
    /// or where memory is refused, the sets are no longer those of a list of entries.
    pub(crate) fn take(&mut self, entry: &Entry) -> Result<bool, AllocError>
        requires usable { IsUsable entry.now.number.counter }
        requires stands { MayStandUnder entry.now.number entry.now.decided }
        ensures wider { IsWider self.old.used self.new.used }
        ensures used { OnOk result (IsUsed self.new.used entry.now.number) }
        ensures fresh { IfOk result (λ fresh. MatchBool fresh
            (¬ IsUsed self.old.used entry.now.number) (IsUsed self.old.used entry.now.number)) }
        ensures taken { IfOk result
            (λ fresh. fresh ≡ true → TakesSets self.old self.new entry.now) }
    {
        if !insert(&mut self.used, entry.number)? {
            return Ok(false);
        }
        self.note(entry)?;
        Ok(true)
    }

    /// Notes what was decided under a number that was not used before.
    fn note(&mut self, entry: &Entry) -> Result<(), AllocError>
        requires usable { IsUsable entry.now.number.counter }
        requires stands { MayStandUnder entry.now.number entry.now.decided }
        ensures wider { IsWider self.old.used self.new.used }
        ensures noted { OnOk result
            (IsNoted self.old self.new entry.now.number entry.now.decided) }
    {
        match entry.decided {
            Decided::Payment { code, .. } => self.note_payment(entry.number, code),
            Decided::Reversal { counter, .. } => self.note_reversal(entry.number, counter),
        }
    }

    /// Notes a payment of a number: no approved one is kept under it where it was declined.
    fn note_payment(&mut self, number: Ksn, code: Code) -> Result<(), AllocError>
        requires { IsUsable number.counter }
        ensures same { self.new.used ≡ self.old.used }
        ensures noted { OnOk result (IsPaymentNoted self.old self.new number code) }
    {
        if let Code::Approved = code {
            return Ok(());
        }
        self.others.insert(number)?;
        Ok(())
    }

    /// Notes a reversal under a number, of that with this counter.
    fn note_reversal(&mut self, own: Ksn, counter: u32) -> Result<(), AllocError>
        requires own { IsUsable own.counter }
        requires reversed { IsUsable counter }
        ensures wider { IsWider self.old.used self.new.used }
        ensures noted { OnOk result
            (IsReversalNoted self.old self.new own (reversed_by own counter)) }
    {
        duk_tree::laws::paths();
        let reversed = own.with_counter(counter);
        self.others.insert(own)?;
        self.use_up(reversed)?;
        self.reversed.insert(reversed)?;
        Ok(())
    }

    /// Makes a reversed number used, under which no payment is kept where it was not.
    fn use_up(&mut self, reversed: Ksn) -> Result<(), AllocError>
        requires { IsUsable reversed.counter }
        ensures wider { IsWider self.old.used self.new.used }
        ensures used { OnOk result (IsOneMore self.old.used reversed self.new.used) }
        ensures others { OnOk result (IsOneMoreWhere (¬ IsUsed self.old.used reversed)
            self.old.others reversed self.new.others) }
        ensures same { self.new.reversed ≡ self.old.reversed }
    {
        if !insert(&mut self.used, reversed)? {
            return Ok(());
        }
        self.others.insert(reversed)?;
        Ok(())
    }
}

/// Adds a usable number to the used ones, and reports whether it was not one of them.
fn insert(used: &mut UsedNumbers, number: Ksn) -> Result<bool, AllocError>
    requires { IsUsable number.counter }
    ensures wider { IsWider used.old used.new }
    ensures added { IfOk result (λ _. IsOneMore used.old number used.new) }
    ensures fresh { IfOk result
        (λ fresh. MatchBool fresh (¬ IsUsed used.old number) (IsUsed used.old number)) }
{
    used.insert(number)
}
