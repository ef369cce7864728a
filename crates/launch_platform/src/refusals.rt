//! Why a launch doesn't begin, or doesn't end well (SEV-SNP Firmware ABI, SNP_LAUNCH_FINISH, BAD_MEASUREMENT).

use igvm_headers::Digest;

/// Why a launch doesn't begin. After each the machine is as before.
#[derive(Clone, Copy, Debug, PartialEq, Eq)]
pub enum StartRefusal {
    /// Want of memory.
    Memory,
    /// A counted fault of the machine.
    Failed,
}

/// Why a launch doesn't end well.
#[derive(Clone, Copy, Debug, PartialEq, Eq)]
pub enum FinishRefusal {
    /// Another digest was wanted. The launch is refused, and has this one.
    BadDigest { found: Digest },
    /// A counted fault of the machine, which is as before.
    Failed,
}
