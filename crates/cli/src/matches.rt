//! The values that matches have for arguments.

ghost use Rattle.std.specs.Prelude.{◌≡◌, if◌then◌else◌, map, option_map};
ghost use Rattle.clap.specs.Words.{all_of, first_of};
ghost use Rattle.cli.specs.Given.{given_by, is_given};

use clap::ArgMatches;

/// The value of an argument.
pub(crate) fn argument<'a>(matches: &ArgMatches<'a>, id: &str) -> Option<&'a str>
    ensures { option_map (λ value. value.now) result ≡ first_of id.now (given_by matches.now) }
{
    matches.get_str(id)
}

/// The values of an argument, of all its uses.
pub(crate) fn arguments<'m, 'a>(matches: &'m ArgMatches<'a>, id: &str) -> Option<&'m [&'a str]>
    ensures { option_map (λ values. map (λ value. value.now) values.now) result
        ≡ all_of id.now (given_by matches.now) }
{
    matches.get_raw(id)
}

/// Whether a flag is given.
pub(crate) fn is_given(matches: &ArgMatches<'_>, flag: &str) -> bool
    ensures { result ≡ is_given flag.now (given_by matches.now) }
{
    match argument(matches, flag) {
        Some("true") => true,
        _ => false,
    }
}

/// One of two, by whether a flag is given.
pub(crate) fn by_flag<T: Copy>(matches: &ArgMatches<'_>, flag: &str, given: T, other: T) -> T
    ensures { result ≡ (if is_given flag.now (given_by matches.now) then given else other) }
{
    if is_given(matches, flag) {
        given
    } else {
        other
    }
}
