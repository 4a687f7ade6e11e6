//! What an event of a shared run did.

use crate::shared::Switch;
use m88_event::Happened;

/// What one event did. `Own` comes at a letter of the program that runs, and only there.
#[derive(Clone, Copy, PartialEq, Eq, Debug)]
pub enum Turned {
    /// The program that runs took its letter.
    Own(Happened),
    /// The next program runs from now on.
    Switched(Switch),
    /// So many transactions are pending, 1 to 3, and nothing changed.
    Held(u8),
    /// Every other program is over, and nothing changed.
    Alone,
}
