ghost use Rattle.std.specs.Prelude.{◌≡◌};
ghost use Rattle.clap.specs.Words.{found_of, rows_of};
ghost use Rattle.fts_args.specs.Options.{flag_in, number_in};

use clap::ArgMatches;

/// The value of a flag.
pub(crate) fn flag(options: &ArgMatches, name: &str) -> Option<bool>
    ensures { result ≡ flag_in name.now (rows_of (found_of options.now)) }
{
    options.get_one(name)
}

/// The number of an option, as one of 8 bits.
pub(crate) fn byte(options: &ArgMatches, name: &str) -> Option<u8>
    ensures { result ≡ number_in 8 name.now (rows_of (found_of options.now)) }
{
    options.get_one(name)
}

/// The number of an option, as one of 16 bits.
pub(crate) fn short(options: &ArgMatches, name: &str) -> Option<u16>
    ensures { result ≡ number_in 16 name.now (rows_of (found_of options.now)) }
{
    options.get_one(name)
}

/// The number of an option, as one of 32 bits.
pub(crate) fn number(options: &ArgMatches, name: &str) -> Option<u32>
    ensures { result ≡ number_in 32 name.now (rows_of (found_of options.now)) }
{
    options.get_one(name)
}
