//! The I queue of one data link, after ITU-T Q.921 (09/97), clauses 5.5 and 5.6: the messages of
//! layer 3's DL-DATA requests that are neither acknowledged nor discarded, in the order of the
//! requests.
//!
//! Begin with [`IQueue`], the only type. The messages at its front have been sent in I frames and
//! are not yet acknowledged; the others are not sent yet. The queue allocates all of its room when
//! it is made. Only [`IQueue::new_message`] allocates later, if no acknowledged message left enough
//! room. The cost of an acknowledgement depends on the number of acknowledged messages, not on the
//! length of the queue.
#![tactic(auto)]

mod queue;

pub use queue::IQueue;
