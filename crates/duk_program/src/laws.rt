//! Laws of the command line, each the contract of a function that does nothing.

ghost use Rattle.std.specs.Prelude.{◌≡◌, ◌∷◌, [], codes};
ghost use Rattle.clap.specs.Words.{Text, fault_of};
ghost use Rattle.clap.specs.declared.error.kind.ErrorKind.TheVariants as kind;
ghost use Rattle.duk_program.specs.Asked.{Asks};
ghost use Rattle.duk_program.specs.CommandLine.{command_line};
ghost use Rattle.duk_arguments.specs.Request.{Written};
ghost use Rattle.duk_program.specs.Written.{IsInForm, arguments_of};

/// A request that is written after any name of the program, in the form of its command's row and with
/// no text that begins with a hyphen, is the one that these arguments make, and no other is.
pub fn written_requests()
    ensures taken { (program : Text) (request : Written) → IsInForm request
        → fault_of command_line (program ∷ arguments_of request) ≡ [] }
    ensures asks { (program : Text) (request : Written) → IsInForm request
        → Asks (program ∷ arguments_of request) request }
    ensures only { (program : Text) (request other : Written) → IsInForm request
        → Asks (program ∷ arguments_of request) other → other ≡ request }
{}

/// After any name of the program, no argument at all is a mistake that is answered with help. The
/// arguments `--version` and `-V` ask for the version, and `--help` and `-h` for help.
pub fn arguments_without_a_command()
    ensures none { (program : Text) → fault_of command_line (program ∷ [])
        ≡ kind.DisplayHelpOnMissingArgumentOrSubcommand ∷ [] }
    ensures version { (program : Text) → fault_of command_line (program ∷ codes "--version" ∷ [])
        ≡ kind.DisplayVersion ∷ [] }
    ensures version_letter { (program : Text) → fault_of command_line (program ∷ codes "-V" ∷ [])
        ≡ kind.DisplayVersion ∷ [] }
    ensures help { (program : Text) → fault_of command_line (program ∷ codes "--help" ∷ [])
        ≡ kind.DisplayHelp ∷ [] }
    ensures help_letter { (program : Text) → fault_of command_line (program ∷ codes "-h" ∷ [])
        ≡ kind.DisplayHelp ∷ [] }
{}
