ghost use Rattle.std.specs.Fmt.{decimal};
ghost use Rattle.msp_asm.specs.ItemText.{word_text};
ghost use Rattle.text_round_trip.specs.ReadBack.{AreNumerals};

/// Numbers may be written in decimal.
pub fn decimals_are_numerals()
    ensures { AreNumerals decimal }
{}

/// Numbers may be written as `0x` and four hexadecimal digits.
pub fn hexadecimals_are_numerals()
    ensures { AreNumerals word_text }
{}
