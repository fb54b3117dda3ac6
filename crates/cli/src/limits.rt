//! The limits that two options give.
ghost use Rattle.std.specs.Prelude.{◌≡◌, Some, codes};
ghost use Rattle.ent_alloc.specs.Limits.{AreLimits};
ghost use Rattle.cli.specs.Options.{HasNumber, given, option_number};

use clap::ArgMatches;
use ent_alloc::Limits;

/// The limits that the two options give.
pub fn limits_of(options: &ArgMatches<'_>) -> Limits
    requires slots { HasNumber (codes "slots") 4294967295 (given options.now) }
    requires generations { HasNumber (codes "generations") 2147483647 (given options.now) }
    ensures slots { option_number (codes "slots") (given options.now) ≡ Some result.slots }
    ensures generations { option_number (codes "generations") (given options.now)
        ≡ Some result.generations }
    ensures within { AreLimits result }
{
    let slots = options.get_one::<u32>("slots").unwrap();
    let generations = options.get_one::<u32>("generations").unwrap();
    Limits::new(slots, generations).unwrap()
}
