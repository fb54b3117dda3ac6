//! The options that take numbers.
ghost use Rattle.std.specs.Prelude.{◌≡◌, false};
ghost use Rattle.clap.specs.Words.{rule_of};
ghost use Rattle.cli.specs.Options.{generations_option, number_option, slots_option};

use clap::{Arg, ArgAction};
use std::alloc::Global;

/// An option that takes a whole number from 1 to `most`, and has a default.
pub fn number_option<'a>(
    alloc: Global,
    name: &'a str,
    most: u32,
    default: &'a str,
    help: &'a str,
) -> Arg<'a>
    ensures rule { rule_of result ≡ number_option name.entry.now most default.entry.now }
    ensures own { result.global ≡ false }
{
    let range = clap::value_parser!(u32).range(1..=i64::from(most));
    Arg::new(alloc, name)
        .long(name)
        .action(ArgAction::Set)
        .value_name("N")
        .value_parser(range)
        .default_value(default)
        .help(help)
}

/// The option `--slots`.
pub fn slots_option<'a>(alloc: Global) -> Arg<'a>
    ensures rule { rule_of result ≡ slots_option }
    ensures own { result.global ≡ false }
{
    number_option(
        alloc,
        "slots",
        u32::MAX,
        "4294967295",
        "How many slots may be made",
    )
}

/// The option `--generations`.
pub fn generations_option<'a>(alloc: Global) -> Arg<'a>
    ensures rule { rule_of result ≡ generations_option }
    ensures own { result.global ≡ false }
{
    number_option(
        alloc,
        "generations",
        (1 << 31) - 1,
        "2147483647",
        "The last generation of a slot",
    )
}
