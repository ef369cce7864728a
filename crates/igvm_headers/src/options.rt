//! What a measurement or a load may be asked to do otherwise.
ghost use Rattle.std.specs.Prelude.{◌≡◌, false};

/// The options of a measurement.
#[derive(Clone, Copy, Debug, PartialEq, Eq)]
pub struct Options {
    /// On SEV-SNP a measured page at file offset 0 is a page of zeros to the firmware.
    pub native_zero: bool,
}

impl Options {
    /// No option set.
    pub fn plain() -> Options
        ensures { result.native_zero ≡ false }
    {
        Options { native_zero: false }
    }
}

#[cfg(test)]
mod tests {
    use super::*;

    #[test]
    fn plain_is_one_value(rt: HostRuntime) {
        assert_eq!(rt; Options::plain(), Options { native_zero: false });
    }
}
