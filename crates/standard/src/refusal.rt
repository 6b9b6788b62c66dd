// The refusals of the format (docs/FORMAT.md, 5).
ghost use Rattle.std.specs.Prelude.{◌≡◌};
ghost use Rattle.standard.specs.InCode.{reason_is};

/// Why something was refused.
#[derive(Clone, Copy, Debug, PartialEq, Eq)]
pub enum Reason {
    // A row is missing, or rows are left.
    RowsAmiss = 1,
    KindUnknown,
    TooDeep,
    ElementUnfit,
    NumberOutside,
    // The text is too short or bad, or some is left.
    TextAmiss,
    TooLong,
    OutputShort,
    InputShort,
    CodeUnknown,
    PayloadBad,
    // A size is too small or too large for what it counts, or a map's count is odd.
    SizeAmiss,
    RowsShort,
    TextShort,
    // The level limit is 0 or more than 32.
    LimitOutside,
}

impl Reason {
    /// Its number in docs/FORMAT.md, 5.1.
    pub fn number(self) -> u64
        ensures { result ≡ reason_is self }
    {
        self as u64
    }
}

/// Why something was refused, and where: at a row in writing, at an offset in reading.
#[derive(Clone, Copy, Debug, PartialEq, Eq)]
pub struct Refusal {
    pub reason: Reason,
    pub place: usize,
}
