//! The version of the program.
ghost use Rattle.std.specs.Prelude.{◌≡◌};
ghost use Rattle.command_line.specs.Version.{version_text, version_line as line_of_version};

/// The version of the program, of three numbers.
pub fn program_version<'a>() -> &'a str
    ensures version { result.now ≡ version_text }
{
    "0.2.0"
}

/// The line of the version, with its line feed.
pub fn version_line<'a>() -> &'a str
    ensures line { result.now ≡ line_of_version }
{
    "desk 0.2.0\n"
}
