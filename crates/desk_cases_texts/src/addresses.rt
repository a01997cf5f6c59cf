//! Questions on addresses.

use crate::answers::{Asked, number, say_found, say_whether};
use desk_text::{Addr, AddrFault, is_dotted};

/// Answers a question on an address.
pub fn answer(out: &mut String, question: &str, text: &str) -> Asked {
    match question {
        "address" => say_read(out, Addr::read(text)),
        "short_address" => say_read(out, Addr::read_short(text)),
        "address_of_number" => of_number(out, text),
        "is_dotted" => say_whether(out, is_dotted(text)),
        _ => Ok(false),
    }
}

/// `address TEXT`, and `short_address TEXT` of a text with one to four parts: the address and its number, or the fault.
fn say_read(out: &mut String, read: Result<Addr, AddrFault>) -> Asked {
    match read {
        Ok(address) => {
            let number = address.number();
            write!(out, "{address} {number}")?;
            Ok(true)
        }
        Err(fault) => say_fault(out, fault),
    }
}

/// Answers with a fault by its name: `fault Parts`.
pub fn say_fault(out: &mut String, fault: AddrFault) -> Asked {
    write!(out, "fault {fault:?}")?;
    Ok(true)
}

/// `address_of_number NUMBER`: the address.
fn of_number(out: &mut String, text: &str) -> Asked {
    match number(text) {
        Some(number) => say_found(out, Some(Addr::from_number(number))),
        None => Ok(false),
    }
}
