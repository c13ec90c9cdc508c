// What a running bench can be asked to do.
// Not one generic enum with the call of a schedule: to the definitions both would be one type, and a schedule's call
// whose lines were not cut to what the bench commits at once could pass for one of the bench.
#[derive(Clone, Copy)]
pub enum Call {
    // A message from outside, a stimulus, joins transit.
    Offer {
        time: u32,
        destination: u8,
        kind: u8,
        payload: u32,
    },
    // An item in transit goes to its destination.
    Deliver {
        index: usize,
    },
    // A board reacts to its first open message.
    Run {
        board: u8,
    },
    // What is the least message outstanding?
    Outlook,
    // Final lines are written to the log, at most so many.
    Commit {
        most: usize,
    },
}
