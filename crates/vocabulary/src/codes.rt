// The codes of a module file that are no kinds (01, 1.8): space bytes, argument bytes and capability bits. Like kinds
// they are named numbers and no enums: `module::space` and `argument` promise the byte of any file, `is_uniform` and
// `is_buffer` take any.
#![tactic(auto, unfolding(definitions::specs::Codes::uniform_space, definitions::specs::Codes::buffer_space))]

ghost use Rattle.std.specs.Prelude.{◌≡◌};
ghost use Rattle.definitions.specs.Codes.{uniform_space, buffer_space};

use crate::flags::Mask;

// The address space of a global.
#[derive(Clone, Copy)]
pub struct AddressSpace(pub u8);

impl AddressSpace {
    pub const FUNCTION: u8 = 0;

    pub const PRIVATE: u8 = 1;

    pub const RAY_PAYLOAD: u8 = 2;

    pub const INCOMING_RAY_PAYLOAD: u8 = 3;

    pub const WORK_GROUP: u8 = 4;

    pub const TASK_PAYLOAD: u8 = 5;

    pub const UNIFORM: u8 = 6;

    pub const IMMEDIATE: u8 = 7;

    pub const STORAGE: u8 = 8;

    // Storage with STORE.
    pub const STORAGE_STORE: u8 = 9;

    pub const HANDLE: u8 = 10;

    pub const LAST: u8 = 10;

    // What is read there is the same in every invocation.
    pub fn is_uniform(space: u8) -> bool
        ensures { result ≡ uniform_space space }
    {
        AddressSpace::WORK_GROUP <= space && space <= AddressSpace::STORAGE
    }

    // Uniform or Storage.
    pub fn is_buffer(space: u8) -> bool
        ensures { result ≡ buffer_space space }
    {
        matches!(
            space,
            AddressSpace::UNIFORM | AddressSpace::STORAGE | AddressSpace::STORAGE_STORE
        )
    }
}

// An argument's built-in. All but OTHER are uniform.
#[derive(Clone, Copy)]
pub struct BuiltIn(pub u8);

impl BuiltIn {
    pub const OTHER: u8 = 0;

    pub const WORK_GROUP_ID: u8 = 1;

    pub const WORK_GROUP_SIZE: u8 = 2;

    pub const NUM_WORK_GROUPS: u8 = 3;

    pub const LAST: u8 = 3;
}

// What non-uniform indexing a module may use, a mask.
#[derive(Clone, Copy, Debug, PartialEq, Eq)]
pub struct Capabilities(pub u8);

impl Capabilities {
    pub const SAMPLED: Capabilities = Capabilities(1);

    pub const STORAGE_IMAGES: Capabilities = Capabilities(2);

    pub const UNIFORM_BUFFERS: Capabilities = Capabilities(4);

    pub const STORAGE_BUFFERS: Capabilities = Capabilities(8);

    pub const ALL: Capabilities = Capabilities(15);
}

impl Mask for Capabilities {
    ghost mask = { λ x. x.0 };

    fn of(bits: u8) -> Self {
        Capabilities(bits)
    }

    fn bits(self) -> u8 {
        self.0
    }
}
