// What a run of the machine tells when it ends.

// Why a run ended.
#[derive(Clone, Copy)]
pub enum Ended {
    // No message is pending: the machine has come to its end.
    NothingPending,
    // The log has no place for another line.
    LogFull,
    // The memory for pending messages has no free place, and a step may need one.
    PendingFull,
}

#[derive(Clone, Copy)]
pub struct Outcome {
    pub ended: Ended,
    // How many messages were taken, each a line of the log.
    pub steps: usize,
    // How many messages are pending.
    pub pending: usize,
}
