//! The order of events: by stamp, and at the same stamp by the actor's rank.
ghost use Rattle.std.specs.Prelude.{◌≡◌, ◌≢◌, ◌<◌, true, false};
ghost use Rattle.hv_merge.specs.Merging.{rank_of, IsBefore};

use hv_event::{ActorId, Event};

/// Whether the one of two actors has the lower rank.
fn ranks_lower(one: ActorId, other: ActorId) -> bool
    requires { one ≢ other }
    ensures yes { result ≡ true → rank_of one < rank_of other }
    ensures no { result ≡ false → rank_of other < rank_of one }
{
    match one {
        ActorId::Hart(number) => match other {
            ActorId::Hart(second) => number < second,
            ActorId::Terminal(_) => true,
        },
        ActorId::Terminal(number) => match other {
            ActorId::Hart(_) => false,
            ActorId::Terminal(second) => number < second,
        },
    }
}

/// Whether the one of two events stands before the other.
pub fn is_before(one: &Event, other: &Event) -> bool
    requires { one.now.actor ≢ other.now.actor }
    ensures yes { result ≡ true → IsBefore one.now other.now }
    ensures no { result ≡ false → IsBefore other.now one.now }
{
    if one.stamp == other.stamp {
        return ranks_lower(one.actor, other.actor);
    }
    one.stamp < other.stamp
}
