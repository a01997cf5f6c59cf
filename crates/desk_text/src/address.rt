//! IPv4 addresses, in a strict form: inet(3) also reads octal and hexadecimal numbers and fewer than four of them, so that
//! one text can be two addresses to two programs. None of these is accepted here.

ghost use Rattle.std.specs.Prelude.{◌≡◌, ℕ, ◌<◌, ◌≤◌, ◌^◌, ◌*◌, ◌-◌, Some, IfOk, length};
ghost use Rattle.std.specs.Result.{result_map_both};
ghost use Rattle.desk_text.specs.Address.{addr_fault_number, addr_text, dotted_parts, is_dotted, number_of, read_addr, read_parts, read_short};
ghost use Rattle.desk_text.specs.PrivateAddress.{first_fault, read_octet, with_octet};

use std::fmt;
use thiserror::Error;

/// An IPv4 address. Its order is that of its numbers.
#[derive(Clone, Copy, Debug, PartialEq, Eq, PartialOrd, Ord, Hash)]
pub struct Addr {
    number: u32,
}

/// Why a text is not an address, or not a network. Of several faults the first in this order is reported.
#[derive(Clone, Copy, Debug, PartialEq, Eq, Error)]
pub enum AddrFault {
    #[error("an address is four numbers separated by dots")]
    Parts,
    #[error("an octet is empty or has a character that is not a digit")]
    Digits,
    #[error("an octet is greater than 255")]
    Range,
    #[error("an octet has a leading zero")]
    LeadingZero,
    #[error("the prefix is not a number from 0 to 32")]
    Prefix,
}

impl AddrFault {
    /// Returns the number of the fault, from 1.
    pub fn number(self) -> u32
        ensures { result ≡ addr_fault_number self }
    {
        self as u32 + 1
    }
}

impl Addr {
    /// Makes the address with this number, of which the first octet is the highest byte.
    pub fn from_number(number: u32) -> Addr
        ensures { number_of result ≡ number }
    {
        Addr { number }
    }

    /// Returns the number of the address, of which the first octet is the highest byte.
    pub fn number(self) -> u32
        ensures { result ≡ number_of self }
    {
        self.number
    }

    /// Reads four decimals of 0 to 255 with dots between them. Each fault is asked of all four before the next one.
    pub fn read(text: &str) -> Result<Addr, AddrFault>
        ensures { result_map_both number_of (λ fault. fault) result ≡ read_addr text.now }
    {
        let parts = read_parts(text);
        if parts.count != 4 {
            return Err(AddrFault::Parts);
        }
        let number = parts.number?;
        Ok(Addr { number })
    }

    /// Reads one to four decimals of 0 to 255 with dots between them; those left out at the end are 0. Here `Parts` means
    /// more than four. (networks(5))
    pub fn read_short(text: &str) -> Result<Addr, AddrFault>
        ensures { result_map_both number_of (λ fault. fault) result ≡ read_short text.now }
    {
        let parts = read_parts(text);
        if parts.count > 4 {
            return Err(AddrFault::Parts);
        }
        let number = filled(parts.number?, parts.count);
        Ok(Addr { number })
    }
}

/// Returns the number of an address whose first parts write this number and whose others are 0.
fn filled(number: u32, count: usize) -> u32
    requires some { 0 < count }
    requires few { count ≤ 4 }
    requires small { number < 256 ^ count }
    ensures { result ≡ number * 256 ^ (4 - count) }
{
    match count {
        1 => number * 0x100_0000,
        2 => number * 0x1_0000,
        3 => number * 0x100,
        _ => number,
    }
}

/// What the parts of a text between its dots come to: how many there are, and the number that they write or their first
/// fault. The number is that of the last four.
#[derive(Clone, Copy)]
struct DottedParts {
    count: usize,
    number: Result<u32, AddrFault>,
}

/// Reads the parts of a text between its dots, in one walk.
fn read_parts(text: &str) -> DottedParts
    ensures count { result.count ≡ length (dotted_parts text.now) }
    ensures number { result.count ≤ 4 → result.number ≡ read_parts (dotted_parts text.now) }
    ensures small { result.count ≤ 4 → IfOk result.number (λ number. number < 256 ^ result.count) }
{
    let mut count = 0;
    let mut number = Ok(0);
    for part in text.as_bytes().split(|b| *b == b'.') {
        number = with_octet(number, read_octet(part));
        count += 1;
    }
    DottedParts { count, number }
}

/// Adds one more octet to a number. Of two faults the first is kept, in the order in which they are reported.
fn with_octet(
    number: Result<u32, AddrFault>,
    octet: Result<u32, AddrFault>,
) -> Result<u32, AddrFault>
    ensures { result ≡ with_octet number octet }
{
    match (number, octet) {
        (Ok(number), Ok(octet)) => Ok(number.wrapping_mul(256).wrapping_add(octet)),
        (Ok(_), Err(fault)) | (Err(fault), Ok(_)) => Err(fault),
        (Err(fault), Err(other)) => Err(first_fault(fault, other)),
    }
}

/// Returns that of two faults which is reported.
fn first_fault(fault: AddrFault, other: AddrFault) -> AddrFault
    ensures { result ≡ first_fault fault other }
{
    if fault.number() <= other.number() {
        fault
    } else {
        other
    }
}

/// Reads a decimal of 0 to 255. The digits are counted up to 256 only, so that any number of them fits.
fn read_octet(part: &[u8]) -> Result<u32, AddrFault>
    ensures value { result ≡ read_octet part.now }
    ensures small { IfOk result (λ octet. octet < 256) }
{
    let mut value = 0;
    for b in part {
        if !b.is_ascii_digit() {
            return Err(AddrFault::Digits);
        }
        value = (value * 10 + u32::from(*b - b'0')).min(256);
    }
    if part.is_empty() {
        Err(AddrFault::Digits)
    } else if value > 255 {
        Err(AddrFault::Range)
    } else if part.len() > 1 && part[0] == b'0' {
        Err(AddrFault::LeadingZero)
    } else {
        Ok(value)
    }
}

/// Tests whether a text has only digits and dots. The empty text has, too.
pub fn is_dotted(text: &str) -> bool
    ensures { result ≡ is_dotted text.now }
{
    text.as_bytes()
        .iter()
        .all(|b| b.is_ascii_digit() || *b == b'.')
}

impl fmt::Display for Addr {
    ghost use Rattle.std.specs.Prelude.{Some};
    ghost use Rattle.desk_text.specs.Address.{addr_text, number_of};

    ghost output = { λ a. Some (addr_text (number_of a)) };

    fn fmt<W: fmt::Write>(&self, f: &mut fmt::Formatter<W>) -> fmt::Result {
        let [a, b, c, d] = self.number.to_be_bytes();
        write!(f, "{a}.{b}.{c}.{d}")
    }
}
