//! The names of lines.

ghost use Rattle.std.specs.Prelude.{◌≡◌};
ghost use Rattle.dukpt.specs.inner.Answer.{IsNamed, may_come_again};

/// The name of a line, and what stands behind it and a space. The name is the first word, but for
/// the one that has two.
pub(crate) fn named(line: &str) -> (&str, &str)
    ensures { IsNamed line.now result.0.now result.1.now }
{
    if let Some(number) = line.strip_prefix("none stands ") {
        return ("none stands", number);
    }
    match line.split_once(' ') {
        Some(parts) => parts,
        None => (line, ""),
    }
}

/// Whether one answer may have many lines of this name: the member is an array, also of one.
pub(crate) fn may_come_again(name: &str) -> bool
    ensures { result ≡ may_come_again name.now }
{
    match name {
        "step"
        | "register"
        | "past"
        | "optional-block"
        | "terminal"
        | "payment"
        | "reversal"
        | "issued"
        | "component"
        | "component-kcv"
        | "component-cmac" => true,
        _ => false,
    }
}
