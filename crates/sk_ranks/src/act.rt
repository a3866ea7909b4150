/// One step of a phase.
#[derive(Clone, Copy, PartialEq, Eq, Debug)]
pub enum Act {
    /// The message with this number is sent.
    Send(u32),
    /// The message with this number is delivered.
    Deliver(u32),
    /// The job with this number runs.
    Run(u32),
}

/// What has come of a message so far.
#[derive(Clone, Copy, PartialEq, Eq, Debug)]
pub enum MessageState {
    Unsent,
    InFlight,
    Delivered,
}
