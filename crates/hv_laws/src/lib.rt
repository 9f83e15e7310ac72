//! The laws of every run of the hypervisor, from the rules of its queues, VCPUs and harts.
//!
//! Terminals may make any step to which the components agree: the laws hold whatever terminals do.
#![tactic(auto)]

mod laws;

pub use laws::{
    a_vcpu_runs_on_one_hart, example_runs, harts_are_within_their_slices,
    legal_histories_keep_the_laws, no_dispatch_is_refused, ready_vcpus_are_queued,
    running_vcpus_are_current, steps_are_of_the_current_vcpu,
};
