//! What a line of a journal asks for.

/// How many exchanges a register serves.
#[derive(Clone, Copy, PartialEq, Eq, Debug)]
pub enum Exchanges {
    One,
    Several,
}

/// Which store a register stands above.
#[derive(Clone, Copy, PartialEq, Eq, Debug)]
pub enum StoreKind {
    Rows,
    Tree,
}

/// A visitor register as it is started.
#[derive(Clone, Copy, PartialEq, Eq, Debug)]
pub struct Visitor {
    pub exchanges: Exchanges,
    /// The last dialogue number that was used.
    pub last: u32,
    pub store: StoreKind,
    pub room: usize,
}

/// What becomes of a kept invoke.
#[derive(Clone, Copy, PartialEq, Eq, Debug)]
pub enum Spending {
    Send,
    Withdraw,
}

/// A call that a line asks for.
#[derive(Drop)]
pub enum Call {
    /// A new visitor register.
    Visitor(Visitor),
    /// An event in bytes, with an answer area of its own.
    Event(Vec<u8>),
    /// The same event in the direct form.
    Direct(Vec<u8>),
    /// Spending the kept invoke of a dialogue.
    Spend(Spending, u32),
    /// The register as it stands.
    Show,
}
