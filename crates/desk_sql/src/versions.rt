//! The versions of the tables: the seven tables of old files, and the nine that are created and written today.

ghost use Rattle.std.specs.Prelude.{◌≡◌, ◌↔◌, Some};
ghost use Rattle.desk_sql.specs.Versions.{number_of};

/// A version of the desk's tables.
#[derive(Clone, Copy, Debug, PartialEq, Eq)]
pub enum Version {
    /// The items are in `entry`, and no save-point is taken at run time.
    One,
    /// The items are in `entry2`, and save-points that were taken at run time in `mark`.
    Two,
}

impl Version {
    /// The version with a number, 1 or 2.
    pub fn from_number(number: u64) -> Option<Version>
        ensures { (v : Version) → (result ≡ Some v ↔ number ≡ number_of v) }
    {
        match number {
            1 => Some(Version::One),
            2 => Some(Version::Two),
            _ => None,
        }
    }
}
