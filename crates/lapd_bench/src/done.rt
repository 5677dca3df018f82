/// How many messages were submitted, received and acknowledged. For other work: how often it was
/// done, and its results.
#[derive(Clone, Copy)]
pub struct Done {
    pub given: u64,
    pub received: u64,
    pub acknowledged: u64,
}
