//! Laws of scripts and of lines, each the contract of a function that does nothing.

ghost use Rattle.std.specs.Prelude.{◌≡◌, ◌+◌, ◌<◌, ◌≤◌, ◌++◌, ℕ, List, All, get_or, length, take};
ghost use Rattle.std.specs.List.{flat_map};
ghost use Rattle.duk_io.specs.Known.{Known};
ghost use Rattle.duk_io.specs.Sink.{IsCut, IsWritten};
ghost use Rattle.duk_net.specs.Calm.{FailsOnceArmed, ReportsNoDamage};
ghost use Rattle.duk_net.specs.World.{WorldOf, meanings_of};
ghost use Rattle.duk_net.specs.declared.event.End.{End};
ghost use Rattle.duk_net.specs.declared.event.Event.{Event};
ghost use Rattle.duk_net.specs.declared.outcome.Outcome.{Outcome};
ghost use Rattle.duk_script.specs.Play.{ArePlayedIn};

use duk_host::Issuer;
use duk_store::{Cell, UsedLog};

/// What is printed of a script's events reports of no end that its store is damaged, and of none
/// that a device step of its store failed before that store was armed.
pub fn printed_faults<C: Cell, L: UsedLog, I: Issuer>()
    ensures no_damage { (first : WorldOf C L I) (events : List Event) (outcomes : List Outcome)
        → ArePlayedIn (meanings_of C.meaning L.meaning I.decides) first events outcomes
        → All ReportsNoDamage outcomes }
    ensures once_armed { (end : End) (first : WorldOf C L I) (events : List Event)
        → (outcomes : List Outcome)
        → ArePlayedIn (meanings_of C.meaning L.meaning I.decides) first events outcomes
        → FailsOnceArmed end outcomes }
{
    duk_net::laws::calm_restarts::<C, L, I>();
    duk_net::laws::calm_stores::<C, L, I>();
    duk_net::laws::what_stays::<C, L, I>();
}

/// What of the lines of a list is held back and what is written, while they are written one after
/// another: `more`, where one line more is held back; `cut`, where a write fails; `all`, behind the
/// last.
pub fn lines_in_turn<T>()
    ensures more { (line_of : T → List ℕ) (things : List T) (place : ℕ) (thing : T)
        → (written held front left pushed : List ℕ)
        → place < length things
        → thing ≡ get_or things place thing
        → flat_map line_of (take place things) ≡ written ++ held
        → held ≡ front ++ left
        → pushed ≡ left ++ line_of thing
        → flat_map line_of (take (place + 1) things) ≡ (written ++ front) ++ pushed }
    ensures cut { (line_of : T → List ℕ) (before after : Known) (things : List T) (place : ℕ)
        → (text : List ℕ)
        → flat_map line_of (take place things) ≡ text
        → IsCut before after text → IsCut before after (flat_map line_of things) }
    ensures all { (line_of : T → List ℕ) (before after : Known) (things : List T) (place : ℕ)
        → (text : List ℕ)
        → length things ≤ place
        → flat_map line_of (take place things) ≡ text
        → IsWritten before after text → IsWritten before after (flat_map line_of things) }
{}
