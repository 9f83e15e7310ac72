//! Any number of logs, merged in pairs.
ghost use Rattle.std.specs.Prelude.{◌≡◌, length, map, IfOk};
ghost use Rattle.std.specs.List.{sum_by};
ghost use Rattle.hv_merge.specs.Merging.{AreLogs, IsMergeOf};

use crate::pair::merge_two;
use hv_event::Event;
use std::alloc::{AllocError, Global};

/// Gives the events of all logs as one list. Each half of the logs is merged for itself, so that
/// each event is moved about as often as the number of logs can be halved.
pub fn merge(alloc: Global, logs: Vec<Vec<Event>>) -> Result<Vec<Event>, AllocError>
    requires { AreLogs (map (λ log. log.items) logs.items) }
    ensures merged { IfOk result (λ all. IsMergeOf (map (λ log. log.items) logs.items) all.items) }
    ensures len { IfOk result
        (λ all. length all.items ≡ sum_by (λ log. length log.items) logs.items) }
{
    let mut logs = logs;
    let half = logs.len() / 2;
    if half == 0 {
        return match logs.pop() {
            Some(log) => Ok(log),
            None => Ok(Vec::new(alloc)),
        };
    }
    let others = logs.split_off(half)?;
    let one = merge(alloc, logs)?;
    let other = merge(alloc, others)?;
    merge_two(alloc, one, other)
}
