//! Laws of issuing, each the contract of a function that does nothing.

ghost use Rattle.std.specs.Prelude.{◌≡◌, ◌<◌, ℕ, List, All, Contains};
ghost use Rattle.std.specs.List.{concat};
ghost use Rattle.duk_ledger.specs.Issued.{Issues, run_of};
ghost use Rattle.duk_ledger.specs.Ledger.{LedgerOf, ledger_meaning};
ghost use Rattle.duk_ledger.specs.declared.issued.Issued.{Issued};
ghost use Rattle.duk_commands.specs.Issue.{Ends, HasIssued, IssueFailed, Job, begun_places, iksns_of};
ghost use Rattle.duk_commands.specs.Ledger.{IsIssued, next_run};
ghost use Rattle.duk_commands.specs.Lifetime.{ArePrintedOnce, IsLifetime, IsRun, StandInEach};
ghost use Rattle.duk_commands.specs.Numbers.{key_set};
ghost use Rattle.duk_commands.specs.declared.issue.fault.IssueFault.{IssueFault};

use duk_store::Disk;

/// All that runs over one ledger print, one after the other, each over what the one before may have
/// left. No initial key serial number is printed twice, by one run or by two. Each that is printed
/// stands in every list that a restart may find afterwards. And none is printed that stood in every
/// list before.
pub fn lifetimes<D: Disk>()
    ensures once { (first last : LedgerOf D) (runs : List (List ℕ))
        → IsLifetime (ledger_meaning D.meaning) first runs last → ArePrintedOnce (concat runs) }
    ensures kept { (first last : LedgerOf D) (runs : List (List ℕ))
        → IsLifetime (ledger_meaning D.meaning) first runs last
        → StandInEach ((ledger_meaning D.meaning).state_of last).found (concat runs) }
    ensures never_again { (first last : LedgerOf D) (runs : List (List ℕ)) (iksn : ℕ)
        → IsLifetime (ledger_meaning D.meaning) first runs last
        → ((issues : Issues) → ((ledger_meaning D.meaning).state_of first).found issues → IsIssued issues iksn)
        → ¬ Contains (concat runs) iksn }
{}

/// What `issue` does is a run, however it ends. It prints the numbers of the places whose lines it
/// wrote, the last of them cut where a write failed.
pub fn each_run<D: Disk>()
    ensures issued { (job : Job) (old new : Ends (LedgerOf D)) → (has : HasIssued (ledger_meaning D.meaning) job old new)
        → IsRun (ledger_meaning D.meaning) old.ledger (iksns_of job has.places) new.ledger }
    ensures failed { (job : Job) (old new : Ends (LedgerOf D)) (why : IssueFault)
        → (failed : IssueFailed (ledger_meaning D.meaning) job old new why)
        → IsRun (ledger_meaning D.meaning) old.ledger
        (iksns_of job (begun_places (ledger_meaning D.meaning) job old new why failed)) new.ledger }
{}

/// All initial key serial numbers that `issue` prints are of one key set, that of the first, however
/// it ends and whatever its ledger is: none belongs to another base derivation key.
pub fn one_key_set<D: Disk>()
    ensures issued { (job : Job) (old new : Ends (LedgerOf D)) → (has : HasIssued (ledger_meaning D.meaning) job old new)
        → All (λ iksn. key_set iksn ≡ key_set job.order.first) (iksns_of job has.places) }
    ensures failed { (job : Job) (old new : Ends (LedgerOf D)) (why : IssueFault)
        → (failed : IssueFailed (ledger_meaning D.meaning) job old new why)
        → All (λ iksn. key_set iksn ≡ key_set job.order.first)
        (iksns_of job (begun_places (ledger_meaning D.meaning) job old new why failed)) }
{}

/// A run has a larger number than each before it, as far as these are known: than each that issued a
/// key of the list that it finds.
pub fn later_runs()
    ensures { (issues : Issues)
        → All (λ (issued : Issued). run_of issued.made < next_run issues) issues }
{}
