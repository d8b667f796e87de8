ghost use Rattle.std.specs.Prelude.{◌≡◌, ◌≤◌, length};
ghost use Rattle.named_value.specs.Names.{Names, value_named, longest, AreApart, AreWords};

/// A type whose values have names, by which texts have them.
pub trait Named: Copy + 'static {
    /// The table: all values in order, and a name for each.
    ghost names: { Names Self };

    /// All values, in the order of the table.
    fn values() -> &'static [Self]
        ensures { result.now ≡ names.values };

    fn name(self) -> &'static str
        ensures name { result.now ≡ names.name self }
        ensures len { length result.now ≤ longest names };

    /// The value of a name, `None` where it is no name.
    final fn named(word: &[u8]) -> Option<Self>
        ensures { result ≡ value_named names word.now }
    {
        Self::values()
            .iter()
            .copied()
            .find(|value| word == value.name().as_bytes())
    }

    /// A name tells its value: the table has each value, and no two have one name.
    ghost apart: { AreApart names };

    /// A name is a word of a line: it is not empty, and has no blank.
    ghost words: { AreWords names };
}
