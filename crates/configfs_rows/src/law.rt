// Laws of the rows' definitions, each the contract of a function that does nothing.
ghost use Rattle.configfs_rows.specs.Places.{LowestIsFree};
ghost use Rattle.configfs_rows.specs.Values.{GroupNamesAgain};

/// The lowest free position among so many: all lower ones are taken, and where it is one of
/// them, it is free.
pub fn lowest_is_free()
    ensures { LowestIsFree }
{}

/// A text names an ANA group exactly where it is the decimal text of a number from 1 to 128, as
/// `{}` writes it.
pub fn group_names_again(_value: &[u8], _group: u8)
    ensures { GroupNamesAgain _value.now _group }
{}
