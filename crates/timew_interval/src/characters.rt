// Characters that a line sets apart.
ghost use Rattle.std.specs.Prelude.{◌≡◌, ◌==◌, ◌||◌, nat_lt};
ghost use Rattle.timew_interval.specs.Line.{is_special, is_escaped};

/// A space, a quotation mark, a backslash or the sign of a number.
pub fn is_special(byte: u8) -> bool
    ensures { result ≡ is_special byte }
{
    byte == b' ' || byte == b'"' || byte == b'\\' || byte == b'#'
}

/// A quotation mark or a backslash.
pub fn is_escaped(byte: u8) -> bool
    ensures { result ≡ is_escaped byte }
{
    byte == b'"' || byte == b'\\'
}

/// A control character of ASCII.
pub fn is_control(byte: u8) -> bool
    ensures { result ≡ (nat_lt byte 32 || (byte == 127)) }
{
    byte < b' ' || byte == 127
}
