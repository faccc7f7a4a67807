// Masks: each a type with names for its bits; `Mask` gives each an empty mask and a join (01, 7.7).
#![tactic(auto, unfolding(definitions::specs::Codes::join, definitions::specs::Codes::meets))]

ghost use Rattle.std.specs.Prelude.{◌≡◌, ℕ};
ghost use Rattle.definitions.specs.Codes.{join, meets};
ghost use Rattle.vocabulary.specs.Said.{may_return_said, may_kill_said};

// A set of at most eight bits. Whatever is said of masks is said here, once for all types of them.
pub trait Mask: Copy {
    ghost mask: { Self → ℕ };

    fn of(bits: u8) -> Self
        ensures { mask result ≡ bits };

    fn bits(self) -> u8
        ensures { result ≡ mask self };

    final fn empty() -> Self
        ensures { mask result ≡ 0 }
    {
        Self::of(0)
    }

    final fn join(self, other: Self) -> Self
        ensures { mask result ≡ join (mask self) (mask other) }
    {
        Self::of(self.bits() | other.bits())
    }

    final fn intersects(self, other: Self) -> bool
        ensures { result ≡ meets (mask self) (mask other) }
    {
        self.bits() & other.bits() != 0
    }
}

// How a global is used (01, 7.3).
#[derive(Clone, Copy, Debug, PartialEq, Eq)]
pub struct GlobalUse(pub u8);

impl GlobalUse {
    pub const READ: GlobalUse = GlobalUse(1);

    pub const WRITE: GlobalUse = GlobalUse(2);

    pub const QUERY: GlobalUse = GlobalUse(4);

    pub const ATOMIC: GlobalUse = GlobalUse(8);
}

impl Mask for GlobalUse {
    ghost mask = { λ x. x.0 };

    fn of(bits: u8) -> Self {
        GlobalUse(bits)
    }

    fn bits(self) -> u8 {
        self.0
    }
}

// What wants uniform control flow (01, 3.6).
#[derive(Clone, Copy, Debug, PartialEq, Eq)]
pub struct UniformityRequirements(pub u8);

impl UniformityRequirements {
    pub const WORK_GROUP_BARRIER: UniformityRequirements = UniformityRequirements(1);

    pub const DERIVATIVE: UniformityRequirements = UniformityRequirements(2);

    pub const IMPLICIT_LEVEL: UniformityRequirements = UniformityRequirements(4);

    pub const COOP_OPS: UniformityRequirements = UniformityRequirements(8);
}

impl Mask for UniformityRequirements {
    ghost mask = { λ x. x.0 };

    fn of(bits: u8) -> Self {
        UniformityRequirements(bits)
    }

    fn bits(self) -> u8 {
        self.0
    }
}

// How control may leave a statement (01, 5.1): two bits, which the definitions have as two truths.
#[derive(Clone, Copy, Debug, PartialEq, Eq)]
pub struct ExitFlags(pub u8);

impl ExitFlags {
    pub const MAY_RETURN: ExitFlags = ExitFlags(1);

    pub const MAY_KILL: ExitFlags = ExitFlags(2);

    pub fn may_return(self) -> bool
        ensures { result ≡ may_return_said self.0 }
    {
        self.intersects(ExitFlags::MAY_RETURN)
    }

    pub fn may_kill(self) -> bool
        ensures { result ≡ may_kill_said self.0 }
    {
        self.intersects(ExitFlags::MAY_KILL)
    }
}

impl Mask for ExitFlags {
    ghost mask = { λ x. x.0 };

    fn of(bits: u8) -> Self {
        ExitFlags(bits)
    }

    fn bits(self) -> u8 {
        self.0
    }
}
