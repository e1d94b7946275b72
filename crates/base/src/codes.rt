// Paper 01's codes. The numbers stand in specs/Codes.antt, beside what each says.
ghost use Rattle.std.specs.Prelude.{◌≡◌};
ghost use Rattle.base.specs.Codes.{number, stop_number};

// The codes of refusals, in the order of their numbers.
#[derive(Clone, Copy, Debug, PartialEq, Eq)]
pub enum Code {
    // Of a table's frame: under 32 bytes; format or address width; a count; an offset or the length.
    TooShort,
    Format,
    Count,
    Length,
    // Of a record.
    Variable,
    Expression,
    Statement,
    // Of the forest: a use count that is not 1, depth, nesting, let scope.
    Uses,
    Depth,
    Nesting,
    Scope,
    // Of types, and of seals.
    ExpressionType,
    StatementType,
    ExpressionSeal,
    StatementSeal,
    // Of a start: its lengths and numbers, an entry of its log, a pair of its state.
    Start,
    Entry,
    Pair,
}

// The codes of a run's stops: an unknown guard, an unknown jump, a byte to append where the log is full, a tick needed where none is
// left, a let that would put a 65th binding in force.
#[derive(Clone, Copy, Debug, PartialEq, Eq)]
pub enum Stop {
    GuardUnknown,
    JumpUnknown,
    LogFull,
    NoTick,
    TooManyBindings,
}

impl Code {
    pub fn number(self) -> u32
        ensures { result ≡ number self }
    {
        match self {
            Code::TooShort => 1,
            Code::Format => 2,
            Code::Count => 3,
            Code::Length => 4,
            Code::Variable => 5,
            Code::Expression => 6,
            Code::Statement => 7,
            Code::Uses => 8,
            Code::Depth => 9,
            Code::Nesting => 10,
            Code::Scope => 11,
            Code::ExpressionType => 12,
            Code::StatementType => 13,
            Code::ExpressionSeal => 14,
            Code::StatementSeal => 15,
            Code::Start => 16,
            Code::Entry => 17,
            Code::Pair => 18,
        }
    }
}

impl Stop {
    pub fn number(self) -> u32
        ensures { result ≡ stop_number self }
    {
        match self {
            Stop::GuardUnknown => 32,
            Stop::JumpUnknown => 33,
            Stop::LogFull => 34,
            Stop::NoTick => 35,
            Stop::TooManyBindings => 36,
        }
    }
}
