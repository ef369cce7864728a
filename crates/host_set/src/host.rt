//! The values that a host hands to a guest.
ghost use Rattle.std.specs.Prelude.{◌≡◌, ◌≢◌, ◌≤◌, length, IfOk, OnOk, OnErr};
ghost use Rattle.igvm_headers.specs.declared.param_kind.ParamKind.{ParamKind};
ghost use Rattle.host_set.specs.Hosts.{no_values, value_of, with_value, with_secrets, with_cpuid};

use igvm_headers::{Memory, ParamKind};
use std::alloc::Global;
use std::marker::Model;

/// The bytes of each parameter, 1,048,576 at most, and the bytes that the pages of secrets and of
/// CPUID begin with, 4,096 at most. What was not set is empty.
#[derive(Drop)]
pub struct HostSet {
    alloc: Global,
    values: [Vec<u8>; 10],
    secrets: Vec<u8>,
    cpuid: Vec<u8>,
}

impl Model for HostSet {
    ghost use Rattle.host_set.specs.Hosts.{HostValues};

    ghost Value = { HostValues };

    ghost use Rattle.host_set.specs.HostViews.{view_of};
    ghost use Rattle.host_set.specs.Hosts.{AreWithin};

    ghost view = { view_of };

    ghost invariant = { λ h. AreWithin (view_of h) };
}

impl HostSet {
    /// No values. It takes no memory.
    pub fn empty(alloc: Global) -> HostSet
        ensures { result ≡ no_values }
    {
        HostSet {
            alloc,
            values: [
                Vec::new(alloc),
                Vec::new(alloc),
                Vec::new(alloc),
                Vec::new(alloc),
                Vec::new(alloc),
                Vec::new(alloc),
                Vec::new(alloc),
                Vec::new(alloc),
                Vec::new(alloc),
                Vec::new(alloc),
            ],
            secrets: Vec::new(alloc),
            cpuid: Vec::new(alloc),
        }
    }

    /// Gives a parameter these bytes.
    pub fn set(&mut self, kind: ParamKind, value: &[u8]) -> Result<(), Memory>
        requires { length value.now ≤ 1048576 }
        ensures set { OnOk result (value_of self.new kind ≡ value.now) }
        ensures others { OnOk result ((other : ParamKind) → other ≢ kind
            → value_of self.new other ≡ value_of self.old other) }
        ensures changed { OnOk result (self.new ≡ with_value kind value.now self.old) }
        ensures kept { OnErr result (self.new ≡ self.old) }
    {
        let bytes = copied(self.alloc, value)?;
        self.put(kind, bytes);
        Ok(())
    }

    /// Gives the pages of secrets these bytes, which zeros follow.
    pub fn set_secrets(&mut self, value: &[u8]) -> Result<(), Memory>
        requires { length value.now ≤ 4096 }
        ensures changed { OnOk result (self.new ≡ with_secrets value.now self.old) }
        ensures kept { OnErr result (self.new ≡ self.old) }
    {
        let bytes = copied(self.alloc, value)?;
        self.put_secrets(bytes);
        Ok(())
    }

    /// Gives the pages of CPUID these bytes, which zeros follow.
    pub fn set_cpuid(&mut self, value: &[u8]) -> Result<(), Memory>
        requires { length value.now ≤ 4096 }
        ensures changed { OnOk result (self.new ≡ with_cpuid value.now self.old) }
        ensures kept { OnErr result (self.new ≡ self.old) }
    {
        let bytes = copied(self.alloc, value)?;
        self.put_cpuid(bytes);
        Ok(())
    }

    /// The bytes of a parameter.
    pub fn value(&self, kind: ParamKind) -> &[u8]
        ensures value { result.now ≡ value_of self.now kind }
        ensures size { length result.now ≤ 1048576 }
    {
        self.values[kind.number()].as_slice()
    }

    /// What the pages of secrets begin with.
    pub fn secrets(&self) -> &[u8]
        ensures value { result.now ≡ self.now.secrets }
        ensures size { length result.now ≤ 4096 }
    {
        self.secrets.as_slice()
    }

    /// What the pages of CPUID begin with.
    pub fn cpuid(&self) -> &[u8]
        ensures value { result.now ≡ self.now.cpuid }
        ensures size { length result.now ≤ 4096 }
    {
        self.cpuid.as_slice()
    }

    /// Gives a parameter these bytes, without a copy.
    pub(crate) fn put(&mut self, kind: ParamKind, value: Vec<u8>)
        requires { length value.items ≤ 1048576 }
        ensures put { value_of self.new kind ≡ value.items }
        ensures others { (other : ParamKind) → other ≢ kind
            → value_of self.new other ≡ value_of self.old other }
        ensures changed { self.new ≡ with_value kind value.items self.old }
    {
        let number = kind.number();
        self.values[number] = value;
    }

    /// Gives the pages of secrets these bytes, without a copy.
    pub(crate) fn put_secrets(&mut self, value: Vec<u8>)
        requires { length value.items ≤ 4096 }
        ensures { self.new ≡ with_secrets value.items self.old }
    {
        self.secrets = value;
    }

    /// Gives the pages of CPUID these bytes, without a copy.
    pub(crate) fn put_cpuid(&mut self, value: Vec<u8>)
        requires { length value.items ≤ 4096 }
        ensures { self.new ≡ with_cpuid value.items self.old }
    {
        self.cpuid = value;
    }
}

/// A copy of these bytes.
fn copied(alloc: Global, bytes: &[u8]) -> Result<Vec<u8>, Memory>
    ensures { IfOk result (λ copy. copy.items ≡ bytes.now) }
{
    let mut copy = Vec::new(alloc);
    match copy.extend_from_slice(bytes) {
        Ok(()) => Ok(copy),
        Err(_) => Err(Memory),
    }
}
