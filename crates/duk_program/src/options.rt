//! The options that every command takes, as `--explain`.

ghost use Rattle.std.specs.Prelude.{◌≡◌, position, string_bytes};
ghost use Rattle.std.specs.Str.{bytes_eq};
ghost use Rattle.duk_program.specs.Asked.{texts_of};
ghost use Rattle.duk_program.specs.Options.{before_end, is_end, is_given, option_place, without_option};

/// Takes an option out of the arguments, and tells whether it was there: behind the program's name,
/// and before a `--`. A second one stays, and is refused as an option that is not known.
pub fn take_option(arguments: &mut Vec<String>, option: &str) -> bool
    ensures told { result ≡ is_given option.now (texts_of arguments.old.items) }
    ensures others { texts_of arguments.new.items
        ≡ without_option option.now (texts_of arguments.old.items) }
{
    match option_place(arguments.as_slice(), option) {
        Some(place) => {
            arguments.remove(place);
            true
        }
        None => false,
    }
}

/// The place of an option among the arguments.
fn option_place(arguments: &[String], option: &str) -> Option<usize>
    ensures { result ≡ option_place option.now (texts_of arguments.now) }
{
    let (_, words) = arguments.split_first()?;
    let place = place_among(before_end(words), option)?;
    Some(place + 1)
}

/// The words before the first `--`, behind which there are no options.
fn before_end(words: &[String]) -> &[String]
    ensures { texts_of result.now ≡ before_end (texts_of words.now) }
{
    let end = place_of_end(words).unwrap_or(words.len());
    &words[..end]
}

/// The place of the first `--` among words.
fn place_of_end(words: &[String]) -> Option<usize>
    ensures { result ≡ position (λ word. is_end (string_bytes word)) words.now }
{
    words.iter().position(|word| is_end(word))
}

/// The place of an option among words.
fn place_among(words: &[String], option: &str) -> Option<usize>
    ensures { result ≡ position (λ word. bytes_eq (string_bytes word) option.now) words.now }
{
    words.iter().position(|word| word.as_str() == option)
}

/// Whether a word is `--`.
fn is_end(word: &String) -> bool
    ensures { result ≡ is_end (string_bytes word.now) }
{
    word.as_str() == "--"
}
