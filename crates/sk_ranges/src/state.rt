ghost use Rattle.std.specs.Prelude.{◌≡◌};
ghost use Rattle.sk_ranges.specs.States.{filled};

/// What a copy holds at one index of its store.
#[derive(Clone, Copy, PartialEq, Eq, Debug)]
pub enum State {
    /// Nothing that may be read.
    Stale,
    /// The owner's cell.
    Valid,
    /// The cell that was written last, from which other copies are filled.
    Owner,
}

impl State {
    /// The state of an index that is filled if it is stale.
    pub(crate) fn filled(self) -> State
        ensures { result ≡ filled self }
    {
        match self {
            State::Stale => State::Valid,
            State::Valid => State::Valid,
            State::Owner => State::Owner,
        }
    }
}
