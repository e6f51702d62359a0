//! Intrinsic functions.

/// A function of integers that gives an integer (X3.9-1978, 15.10).
#[derive(Clone, Copy, Debug, PartialEq, Eq)]
pub enum PureFunction {
    /// ABS and IABS.
    AbsoluteValue,
    /// MOD.
    Remainder,
    /// SIGN and ISIGN: the absolute value of the first argument with the sign of the second.
    TransferOfSign,
    /// DIM and IDIM.
    PositiveDifference,
    /// MAX and MAX0.
    Largest,
    /// MIN and MIN0.
    Smallest,
}

/// A function of an asynchronous scalar or element (`docs/LANGUAGE.md`).
#[derive(Clone, Copy, Debug, PartialEq, Eq)]
pub enum StateFunction {
    /// FULL: whether the variable is full.
    IsFull,
    /// EMPTY: whether the variable is empty.
    IsEmpty,
    /// VALUE: the value of the variable, full or empty.
    ValueOf,
    /// SETE: the value of the variable, which becomes empty.
    SetEmpty,
    /// WAITF: the value of the variable. The process waits until the variable is full.
    WaitFull,
}
