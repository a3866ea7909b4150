use sk_copies::Transfer;

/// Cells to be sent from one copy to another, once the job `after` is done, if there is one.
#[derive(Clone, Copy, PartialEq, Eq, Debug)]
pub struct Message {
    pub transfer: Transfer,
    pub after: Option<u32>,
}

/// Work of one rank, to be run once its messages are delivered and the jobs `after` are done.
#[derive(Debug, Drop)]
pub struct Job {
    pub rank: u32,
    pub messages: Vec<u32>,
    pub after: Vec<u32>,
}
