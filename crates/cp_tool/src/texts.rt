//! The texts that `clap` matches.
ghost use Rattle.std.specs.Prelude.{◌≡◌, option_map};
ghost use Rattle.clap.specs.Words.{first_of, found_of, rows_of};
ghost use Rattle.cp_tool.specs.Options.{is_asked};

use clap::ArgMatches;

/// The text of an option, if the words have one.
pub fn text_of<'a>(matches: &ArgMatches<'a>, name: &str) -> Option<&'a str>
    ensures { option_map (λ s. s.now) result ≡ first_of name.now (rows_of (found_of matches.now)) }
{
    matches.get_str(name)
}

/// Whether the text of a flag says that it was given.
pub fn is_asked(text: Option<&str>) -> bool
    ensures { result ≡ is_asked (option_map (λ s. s.now) text.entry) }
{
    text == Some("true")
}
