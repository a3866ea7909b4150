use sk_base::Trap;

/// How the run of a compiled program ends.
#[derive(Clone, Copy, PartialEq, Eq, Debug)]
pub enum Outcome {
    /// Main ended, or returned.
    End,
    /// A trap, with the line of its statement of main and its element.
    Trapped { trap: Trap, line: u32, element: u32 },
    /// More statements were needed than may be executed.
    Bound,
    /// A put on the sink failed.
    SinkFault,
    /// Memory was wanting.
    Memory,
}
