ghost use Rattle.std.specs.Prelude.{◌≡◌, length};
ghost use Rattle.printed_lines.specs.Line.{flag_digit};

/// A flag as it is printed.
pub fn flag_digit(flag: bool) -> &'static [u8]
    ensures digit { result.now ≡ flag_digit flag }
    ensures len { length result.now ≡ 1 }
{
    if flag { b"1" } else { b"0" }
}
