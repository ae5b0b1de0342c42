//! The operands of `hsms compare`: the logs of both ends.

ghost use Rattle.std.specs.Prelude.{◌≡◌};
ghost use Rattle.clap.specs.Words.{found_of, rows_of};
ghost use Rattle.cli_options.specs.CompareOptions.{has_two_files};

use crate::option_tables::FILE;
use clap::ArgMatches;

/// Returns whether two files are named.
pub fn names_two_files(options: &ArgMatches<'_>) -> bool
    ensures { result ≡ has_two_files (rows_of (found_of options.now)) }
{
    match options.get_raw(FILE) {
        Some(names) => names.len() == 2,
        None => false,
    }
}
