// The limits of a kernel's tables, and the kinds of their rows by number (R66 to R68). Each is named here once; the definitions hold them to the rules.
ghost use Rattle.kernels.specs.Promise.{AnswersStatementKind, AnswersExpressionKind, AnswersRefusalNumber, AnswersRefusalPlace};

#[derive(Clone, Copy)]
pub struct Kernel;

impl Kernel {
    // a kernel has at most so many statements
    pub const STATEMENTS: usize = 256;
    // and at most so many expressions
    pub const EXPRESSIONS: usize = 256;
    // and 1 to so many lanes
    pub const LANES: u32 = 32;
    // cells are below this
    pub const CELLS: usize = 64;
}

// The kinds of a statement.
#[derive(Clone, Copy, PartialEq, Eq)]
pub enum StatementKind {
    Skip,
    Assign,
    If,
    While,
    Break,
    Call,
    Return,
}

impl StatementKind {
    // The kind that a number stands for, if there is one.
    // No TryFrom: an Option needs no error type, and the contract has a name.
    #[tactic(auto, unfolding(crate::specs::Rows::statement_kind))]
    pub fn of(number: u32) -> Option<Self>
        ensures { AnswersStatementKind number result }
    {
        match number {
            0 => Some(StatementKind::Skip),
            1 => Some(StatementKind::Assign),
            2 => Some(StatementKind::If),
            3 => Some(StatementKind::While),
            4 => Some(StatementKind::Break),
            5 => Some(StatementKind::Call),
            6 => Some(StatementKind::Return),
            _ => None,
        }
    }
}

// The kinds of an expression.
#[derive(Clone, Copy, PartialEq, Eq)]
pub enum ExpressionKind {
    Number,
    Cell,
    Lane,
    Sum,
    Difference,
    Less,
}

impl ExpressionKind {
    // The kind that a number stands for, if there is one.
    #[tactic(auto, unfolding(crate::specs::Rows::expression_kind))]
    pub fn of(number: u32) -> Option<Self>
        ensures { AnswersExpressionKind number result }
    {
        match number {
            0 => Some(ExpressionKind::Number),
            1 => Some(ExpressionKind::Cell),
            2 => Some(ExpressionKind::Lane),
            3 => Some(ExpressionKind::Sum),
            4 => Some(ExpressionKind::Difference),
            5 => Some(ExpressionKind::Less),
            _ => None,
        }
    }
}

// Why a kernel is refused, and at which row.
#[derive(Clone, Copy, PartialEq, Eq)]
pub enum KernelRefusal {
    Malformed(usize),
    StrayBreak(usize),
}

impl KernelRefusal {
    // Its number.
    pub fn number(self) -> u32
        ensures { AnswersRefusalNumber self result }
    {
        match self {
            KernelRefusal::Malformed(_) => 17,
            KernelRefusal::StrayBreak(_) => 18,
        }
    }

    // The row.
    pub fn place(self) -> usize
        ensures { AnswersRefusalPlace self result }
    {
        match self {
            KernelRefusal::Malformed(place) => place,
            KernelRefusal::StrayBreak(place) => place,
        }
    }
}
