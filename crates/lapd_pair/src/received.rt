/// A message as layer 3 received it.
#[derive(Debug, PartialEq, Eq, Drop)]
pub struct Received {
    /// The octets of the message.
    pub octets: Vec<u8>,
    /// The number of the receiver's establishment in which the message arrived, from 1.
    pub establishment: u64,
}
