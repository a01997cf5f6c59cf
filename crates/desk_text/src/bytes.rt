//! Tests of bytes and of digits that several kinds of text share.

ghost use Rattle.std.specs.Prelude.{◌≡◌};
ghost use Rattle.desk_text.specs.Bytes.{first_non_blank, has_leading_zero, is_blank, is_digits, is_ipv6, read_decimal};

/// Tests whether a byte is a blank: a space or a tab. Every other byte, NUL and form feed too, is an ordinary one.
pub fn is_blank(b: u8) -> bool
    ensures { result ≡ is_blank b }
{
    b == b' ' || b == b'\t'
}

/// Finds the first byte of a text that is not a blank.
pub fn first_non_blank(text: &str) -> Option<u8>
    ensures { result ≡ first_non_blank text.now }
{
    text.bytes().find(|b| !is_blank(*b))
}

/// Tests whether a text is one or more ASCII digits and nothing else.
pub fn is_digits(text: &str) -> bool
    ensures { result ≡ is_digits text.now }
{
    !text.is_empty() && text.as_bytes().iter().all(|b| b.is_ascii_digit())
}

/// Tests whether a text begins with `0` and goes on: such a text is not a decimal.
pub fn has_leading_zero(text: &str) -> bool
    ensures { result ≡ has_leading_zero text.now }
{
    text.len() > 1 && text.as_bytes()[0] == b'0'
}

/// Tests whether an address is one of IPv6: it has a `:`.
pub fn is_ipv6(address: &str) -> bool
    ensures { result ≡ is_ipv6 address.now }
{
    address.as_bytes().contains(&b':')
}

/// Reads a decimal without a leading zero, of any number up to `most`.
pub fn read_decimal(text: &str, most: u32) -> Option<u32>
    ensures { result ≡ read_decimal most text.now }
{
    if !is_digits(text) || has_leading_zero(text) {
        return None;
    }
    match text.parse::<u32>() {
        Ok(number) if number <= most => Some(number),
        _ => None,
    }
}
