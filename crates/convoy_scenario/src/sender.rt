/// Who sends a message.
#[derive(Clone, Copy, PartialEq, Eq)]
pub enum Sender {
    /// A client, apart from all groups: at the place of that number, from 1, or at none that has a name, where it is 0.
    Client(usize),
    /// The group of that number.
    Group(usize),
}
