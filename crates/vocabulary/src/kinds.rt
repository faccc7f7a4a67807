// The kinds of records by name (01, 4.1 and 5.2), with the questions that code asks of them. Files have kinds as
// numbers, and so has the code: a `match` names them. These are no enums: a file's byte may be any,
// `module::expression_at` and `statement_at` promise it as it is, `is_leaf`, `holds_others`, `holds_arms` and
// `rules::requirements` answer for each. Tried for the rules alone, where the form is checked: two names for each kind,
// a case that can't occur, no match that names all, and 1 in 100 more instructions.
#![tactic(auto, unfolding(definitions::specs::Form::holds_others, definitions::specs::Form::holds_arms))]

ghost use Rattle.std.specs.Prelude.{◌≡◌, leb};
ghost use Rattle.definitions.specs.Form.{holds_others, holds_arms};

#[derive(Clone, Copy)]
pub struct ExpressionKind(pub u8);

impl ExpressionKind {
    pub const LITERAL: u8 = 0;

    pub const FUNCTION_ARGUMENT: u8 = 1;

    pub const GLOBAL_VARIABLE: u8 = 2;

    pub const LOCAL_VARIABLE: u8 = 3;

    pub const CALL_RESULT: u8 = 4;

    pub const ACCESS: u8 = 5;

    pub const ACCESS_INDEX: u8 = 6;

    // Splat, Swizzle, Unary, Relational, As, Load, both ray query getters.
    pub const UNARY: u8 = 7;

    pub const DERIVATIVE: u8 = 8;

    pub const BINARY: u8 = 9;

    pub const SELECT: u8 = 10;

    pub const COMPOSE: u8 = 11;

    pub const MATH: u8 = 12;

    pub const IMAGE_SAMPLE: u8 = 13;

    pub const IMAGE_LOAD: u8 = 14;

    pub const IMAGE_QUERY: u8 = 15;

    pub const ARRAY_LENGTH: u8 = 16;

    pub const COOPERATIVE_LOAD: u8 = 17;

    pub const COOPERATIVE_MULTIPLY_ADD: u8 = 18;

    pub const LAST: u8 = 18;

    // It has no operands.
    pub fn is_leaf(kind: u8) -> bool
        ensures { result ≡ leb kind 4 }
    {
        kind <= ExpressionKind::CALL_RESULT
    }
}

#[derive(Clone, Copy)]
pub struct StatementKind(pub u8);

impl StatementKind {
    pub const EMIT: u8 = 0;

    // Break and Continue.
    pub const BREAK: u8 = 1;

    pub const KILL: u8 = 2;

    pub const BARRIER: u8 = 3;

    pub const RETURN: u8 = 4;

    pub const STORE: u8 = 5;

    pub const CALL: u8 = 6;

    pub const BLOCK: u8 = 7;

    pub const IF: u8 = 8;

    pub const SWITCH: u8 = 9;

    pub const LOOP: u8 = 10;

    pub const ARM: u8 = 11;

    pub const LAST: u8 = 11;

    // `sub` of an Arm of a Switch that falls through into the next.
    pub const FALLS_THROUGH: u8 = 1;

    // Block, If, Switch, Loop and Arm.
    pub fn holds_others(kind: u8) -> bool
        ensures { result ≡ holds_others kind }
    {
        StatementKind::BLOCK <= kind
    }

    // If, Switch and Loop hold arms, and nothing else.
    pub fn holds_arms(kind: u8) -> bool
        ensures { result ≡ holds_arms kind }
    {
        matches!(
            kind,
            StatementKind::IF | StatementKind::SWITCH | StatementKind::LOOP
        )
    }
}

// What the base of an Access is: its `sub` (01, 4.1), a number for the same reason: a file's byte may be any.
#[derive(Clone, Copy)]
pub struct BindingArray(pub u8);

impl BindingArray {
    pub const NOT: u8 = 0;

    pub const STORAGE_IMAGES: u8 = 1;

    // Other images, or samplers.
    pub const SAMPLED: u8 = 2;

    pub const BUFFERS: u8 = 3;
}

// The level of an ImageSample: its `sub` (01, 4.2), a number for the same reason.
#[derive(Clone, Copy)]
pub struct SampleLevel(pub u8);

impl SampleLevel {
    pub const AUTO: u8 = 0;

    pub const ZERO: u8 = 1;

    pub const EXACT: u8 = 2;

    pub const BIAS: u8 = 3;

    pub const GRADIENT: u8 = 4;
}
