use device_types::Access;

/// Which steps a row goes over, by the accesses of processor or ROM and of the DMA.
pub trait Quiet {
    ghost use Rattle.std.specs.Prelude.{◌≡◌, Bool, Option as Maybe};
    ghost use Rattle.device_types.specs.declared.access.Access.{Access as Made};

    ghost quiet: { Self → Maybe Made → Maybe Made → Bool };

    fn is_quiet(&self, cpu: Option<Access>, dma: Option<Access>) -> bool
        ensures { result ≡ quiet self.now cpu dma };
}

/// Over each.
#[derive(Clone, Copy, Debug)]
pub struct AllQuiet;

impl Quiet for AllQuiet {
    ghost use Rattle.std.specs.Prelude.{true};

    ghost quiet = { λ all cpu dma. true };

    #[inline(always)]
    fn is_quiet(&self, _cpu: Option<Access>, _dma: Option<Access>) -> bool {
        true
    }
}

/// Over none.
#[derive(Clone, Copy, Debug)]
pub struct NoneQuiet;

impl Quiet for NoneQuiet {
    ghost use Rattle.std.specs.Prelude.{false};

    ghost quiet = { λ none cpu dma. false };

    #[inline(always)]
    fn is_quiet(&self, _cpu: Option<Access>, _dma: Option<Access>) -> bool {
        false
    }
}
