//! The values of options, as `clap` gives them.

ghost use Rattle.std.specs.Prelude.{◌≡◌, ◌≤◌, ◌&&◌, IfSome, Some, None, if◌then◌else◌, nat_le, option_map, unwrap_or};
ghost use Rattle.clap.specs.Words.{first_of, found_of, rows_of};
ghost use Rattle.cli_options.specs.OptionValues.{IsFlag, depth_number, number_in};
ghost use Rattle.cli_options.specs.InnerOptionValues.{IsOf, described_number};

use crate::option_tables::{DEPTH, Numbered};
use clap::ArgMatches;

/// Returns the number of `--depth`, if it is from 1 to 100.
pub fn depth_of(options: &ArgMatches<'_>) -> Option<u8>
    ensures value { result ≡ number_in depth_number (rows_of (found_of options.now)) }
    ensures within { IfSome result (λ depth. (1 ≤ depth) × (depth ≤ 100)) }
{
    Some(number_of(options, DEPTH)? as u8)
}

/// Returns the number of an option with 16-bit numbers, as [`number_of`] does.
pub fn short_of(options: &ArgMatches<'_>, number: Numbered) -> Option<u16>
    requires short { (described_number number).greatest ≤ 65535 }
    requires left_out { IfSome (described_number number).left_out (IsOf (described_number number)) }
    ensures value { result ≡ number_in (described_number number) (rows_of (found_of options.now)) }
    ensures within { IfSome result (IsOf (described_number number)) }
{
    Some(number_of(options, number)? as u16)
}

/// Returns the number of an option, if it is from the minimum to the maximum. Returns the default if the option is not
/// given.
pub fn number_of(options: &ArgMatches<'_>, number: Numbered) -> Option<u32>
    requires { IfSome (described_number number).left_out (IsOf (described_number number)) }
    ensures value { result ≡ number_in (described_number number) (rows_of (found_of options.now)) }
    ensures within { IfSome result (IsOf (described_number number)) }
{
    let Numbered(name, least, greatest, left_out) = number;
    match options.try_get_one::<u32>(name) {
        Ok(Some(number)) => within(number, least, greatest),
        Ok(None) => left_out,
        Err(_) => None,
    }
}

fn within(number: u32, least: u32, greatest: u32) -> Option<u32>
    ensures { result ≡ (if nat_le least number && nat_le number greatest then Some number else None) }
{
    (least <= number && number <= greatest).then_some(number)
}

/// Returns true if a flag is given.
pub fn flag_of(options: &ArgMatches<'_>, name: &str) -> bool
    ensures { IsFlag name.now (rows_of (found_of options.now)) result }
{
    text_of(options, name) == Some("true")
}

/// Returns the text of an option, or `left_out` if it is not given.
pub fn text_or<'a>(options: &ArgMatches<'a>, name: &str, left_out: &'a str) -> &'a str
    ensures { result.now ≡ unwrap_or (first_of name.now (rows_of (found_of options.now))) left_out.entry.now }
{
    text_of(options, name).unwrap_or(left_out)
}

/// Returns the text of an option, if it is given.
pub fn text_of<'a>(options: &ArgMatches<'a>, name: &str) -> Option<&'a str>
    ensures { option_map (λ text. text.now) result ≡ first_of name.now (rows_of (found_of options.now)) }
{
    options.get_str(name)
}
