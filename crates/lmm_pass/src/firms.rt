//! Sets of firms.
ghost use Rattle.std.specs.Prelude.{◌≡◌, ℕ, ◌==◌, ◌&&◌, ◌||◌, ◌↔◌, IsTrue, not, false, nat_lt};
ghost use Rattle.gx_base.specs.declared.limits.TheConstants.{MOST_FIRMS};
ghost use Rattle.lmm_pass.specs.FirmSets.{has_firm};

use gx_base::MOST_FIRMS;

/// Some firms: bit `f` is 1 exactly where firm `f` is one of them. A number that no firm can have is in no set.
#[derive(Clone, Copy)]
pub(crate) struct FirmSet {
    bits: u64,
}

impl FirmSet {
    /// No firm.
    pub(crate) fn none() -> FirmSet
        ensures { (f : ℕ) → has_firm result f ≡ false }
    {
        FirmSet { bits: 0 }
    }

    /// Whether no firm is in the set.
    pub(crate) fn is_empty(self) -> bool
        ensures { IsTrue result ↔ self.bits ≡ 0 }
    {
        self.bits == 0
    }

    /// Whether a firm is in the set.
    pub(crate) fn has(self, firm: u8) -> bool
        ensures { result ≡ has_firm self firm }
    {
        if usize::from(firm) >= MOST_FIRMS {
            return false;
        }
        (self.bits >> firm) & 1 == 1
    }

    /// The set with a firm.
    pub(crate) fn with(self, firm: u8) -> FirmSet
        ensures { (f : ℕ) → has_firm result f ≡ (has_firm self f || ((firm == f) && nat_lt f MOST_FIRMS)) }
    {
        if usize::from(firm) >= MOST_FIRMS {
            return self;
        }
        FirmSet {
            bits: self.bits | (1 << firm),
        }
    }

    /// The set without a firm.
    pub(crate) fn without(self, firm: u8) -> FirmSet
        ensures { (f : ℕ) → has_firm result f ≡ (has_firm self f && not (firm == f)) }
    {
        if usize::from(firm) >= MOST_FIRMS {
            return self;
        }
        FirmSet {
            bits: self.bits & !(1 << firm),
        }
    }
}
