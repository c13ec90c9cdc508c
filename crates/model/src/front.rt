// A board, and the first message that stands there: what a commit looks at to find its next line.
use bus::Message;

#[derive(Clone, Copy)]
pub struct Front {
    pub board: usize,
    pub message: Message,
}
