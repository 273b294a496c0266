//! What a command makes of the words.
ghost use Rattle.std.specs.Prelude.{◌≡◌, IfOk, map, true, option_map, Some, None, MatchOption};
ghost use Rattle.std.specs.String.{string_bytes};
ghost use Rattle.clap.specs.Words.{app_of, rows_of, found_of, first_of, is_simple, is_simple_and_free};
ghost use Rattle.ipg_app_words.specs.Commands.{taken};

use clap::error::ErrorKind;
use clap::{ArgMatches, Command};
use std::alloc::AllocError;

/// What the command finds in the words, its name first; nothing where it refuses them.
pub fn taken<'a>(
    command: Command<'a>,
    words: &'a [String],
) -> Result<Option<ArgMatches<'a>>, AllocError>
    requires { is_simple_and_free (app_of command) ≡ true }
    ensures { IfOk result (λ found. option_map (λ m. rows_of (found_of m)) found ≡ taken (app_of command.entry) (map string_bytes words.now)) }
{
    match command.try_get_matches_from(words) {
        Ok(matches) => Ok(Some(matches)),
        Err(error) => {
            if error.kind() == ErrorKind::OutOfMemory {
                return Err(AllocError);
            }
            Ok(None)
        }
    }
}

/// The value of an argument.
pub fn value<'a>(matches: &ArgMatches<'a>, id: &str) -> Option<&'a str>
    ensures { option_map (λ text. text.now) result ≡ first_of id.now (rows_of (found_of matches.now)) }
{
    matches.get_str(id)
}
