//! The first rule that a file breaks, as C gets it.
ghost use Rattle.std.specs.Prelude.{◌≡◌};
ghost use Rattle.igvm_c.specs.Faults.{told_fault};

use crate::rules::{number_named, rule_number};
use igvm_headers::ReadFault;

/// `struct igvm_fault`.
#[repr(C)]
#[derive(Clone, Copy, Debug, PartialEq, Eq)]
pub struct Fault {
    /// The file offset where the file breaks it, in bytes.
    pub at: u64,
    /// The rule's number, from 1 on.
    pub rule: u32,
    /// What the rule names: the unknown type, or the flag's bit; 0 of all others.
    pub number: u32,
}

/// A fault as C gets it.
pub(crate) fn told_fault(fault: ReadFault) -> Fault
    ensures { result ≡ told_fault fault }
{
    Fault {
        at: fault.at as u64,
        rule: rule_number(fault.what),
        number: number_named(fault.what),
    }
}
