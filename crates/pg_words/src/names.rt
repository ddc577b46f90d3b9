//! Which arguments can be names.
ghost use Rattle.std.specs.Prelude.{◌≡◌};
ghost use Rattle.pg_words.specs.AcceptedNames.{is_name as is_name_of};

/// Whether an argument can be a name: it is not empty and does not begin with two dashes.
pub fn is_name(argument: &str) -> bool
    ensures { result ≡ is_name_of argument.now }
{
    !argument.is_empty() && !argument.as_bytes().starts_with(b"--")
}
