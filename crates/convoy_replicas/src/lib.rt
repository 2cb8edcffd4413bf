//! Replicas: how many ticks of a scenario a packet takes between the leader of a group and its replicas, where that is
//! asked beside a text.
#![tactic(auto)]

pub use replicas::{ReplicaFault, replica_ticks, replicas_of};

mod replicas;
