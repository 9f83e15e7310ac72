//! How a reader goes from symbol to symbol.
ghost use Rattle.std.specs.Prelude.{◌≡◌, ◌<◌, ◌≤◌, ◌^◌, ◌+◌, IfSome};
ghost use Rattle.hv_dtgram.specs.Steps.{step, heading_step};

use crate::symbol::{State, Symbol};

fn body_step(depth: usize, symbol: Symbol) -> Option<(State, usize)>
    ensures next { result ≡ step State.Body depth symbol }
    ensures deeper { IfSome result (λ next. next.1 ≤ depth + 1) }
{
    match symbol {
        Symbol::Label => Some((State::BodyLabel, depth)),
        Symbol::PropName => Some((State::PropName, depth)),
        Symbol::NodeName => Some((State::NodeName, depth)),
        Symbol::EitherName => Some((State::EitherName, depth)),
        Symbol::NodeClose => Some((State::NodeClose, depth)),
        _ => None,
    }
}

fn label_step(depth: usize, symbol: Symbol) -> Option<(State, usize)>
    ensures next { result ≡ step State.BodyLabel depth symbol }
    ensures deeper { IfSome result (λ next. next.1 ≤ depth + 1) }
{
    match symbol {
        Symbol::Label => Some((State::BodyLabel, depth)),
        Symbol::PropName => Some((State::PropName, depth)),
        Symbol::NodeName => Some((State::NodeName, depth)),
        Symbol::EitherName => Some((State::EitherName, depth)),
        _ => None,
    }
}

fn nodes_step(depth: usize, symbol: Symbol) -> Option<(State, usize)>
    ensures next { result ≡ step State.Nodes depth symbol }
    ensures deeper { IfSome result (λ next. next.1 ≤ depth + 1) }
{
    match symbol {
        Symbol::Label => Some((State::NodeLabel, depth)),
        Symbol::NodeName => Some((State::NodeName, depth)),
        Symbol::EitherName => Some((State::NodeName, depth)),
        Symbol::NodeClose => Some((State::NodeClose, depth)),
        _ => None,
    }
}

fn node_label_step(depth: usize, symbol: Symbol) -> Option<(State, usize)>
    ensures next { result ≡ step State.NodeLabel depth symbol }
    ensures deeper { IfSome result (λ next. next.1 ≤ depth + 1) }
{
    match symbol {
        Symbol::Label => Some((State::NodeLabel, depth)),
        Symbol::NodeName => Some((State::NodeName, depth)),
        Symbol::EitherName => Some((State::NodeName, depth)),
        _ => None,
    }
}

fn prop_step(depth: usize, symbol: Symbol) -> Option<(State, usize)>
    ensures next { result ≡ step State.PropName depth symbol }
    ensures deeper { IfSome result (λ next. next.1 ≤ depth + 1) }
{
    match symbol {
        Symbol::Equals => Some((State::ValueMark, depth)),
        Symbol::Semicolon => Some((State::Body, depth)),
        _ => None,
    }
}

fn either_step(depth: usize, symbol: Symbol) -> Option<(State, usize)>
    requires { depth + 1 < 2 ^ 64 }
    ensures next { result ≡ step State.EitherName depth symbol }
    ensures deeper { IfSome result (λ next. next.1 ≤ depth + 1) }
{
    match symbol {
        Symbol::Equals => Some((State::ValueMark, depth)),
        Symbol::Semicolon => Some((State::Body, depth)),
        Symbol::NodeOpen => Some((State::Body, depth + 1)),
        _ => None,
    }
}

fn value_step(depth: usize, symbol: Symbol) -> Option<(State, usize)>
    ensures next { result ≡ step State.ValueMark depth symbol }
    ensures deeper { IfSome result (λ next. next.1 ≤ depth + 1) }
{
    match symbol {
        Symbol::CellsOpen => Some((State::Cells, depth)),
        Symbol::Text => Some((State::ValueEnd, depth)),
        Symbol::BytesOpen => Some((State::Bytes, depth)),
        Symbol::Reference => Some((State::ValueEnd, depth)),
        _ => None,
    }
}

fn cells_step(depth: usize, symbol: Symbol) -> Option<(State, usize)>
    ensures next { result ≡ step State.Cells depth symbol }
    ensures deeper { IfSome result (λ next. next.1 ≤ depth + 1) }
{
    match symbol {
        Symbol::Number => Some((State::Cells, depth)),
        Symbol::Reference => Some((State::Cells, depth)),
        Symbol::CellsClose => Some((State::ValueEnd, depth)),
        _ => None,
    }
}

fn bytes_step(depth: usize, symbol: Symbol) -> Option<(State, usize)>
    ensures next { result ≡ step State.Bytes depth symbol }
    ensures deeper { IfSome result (λ next. next.1 ≤ depth + 1) }
{
    match symbol {
        Symbol::Pair => Some((State::Bytes, depth)),
        Symbol::BytesClose => Some((State::ValueEnd, depth)),
        _ => None,
    }
}

fn value_end_step(depth: usize, symbol: Symbol) -> Option<(State, usize)>
    ensures next { result ≡ step State.ValueEnd depth symbol }
    ensures deeper { IfSome result (λ next. next.1 ≤ depth + 1) }
{
    match symbol {
        Symbol::Comma => Some((State::ValueMark, depth)),
        Symbol::Semicolon => Some((State::Body, depth)),
        _ => None,
    }
}

fn node_close_step(depth: usize, symbol: Symbol) -> Option<(State, usize)>
    ensures next { result ≡ step State.NodeClose depth symbol }
    ensures deeper { IfSome result (λ next. next.1 ≤ depth + 1) }
{
    match symbol {
        Symbol::Semicolon => {
            if depth == 0 {
                return Some((State::All, 0));
            }
            Some((State::Nodes, depth - 1))
        }
        _ => None,
    }
}

fn heading_step(state: State, depth: usize, symbol: Symbol) -> Option<(State, usize)>
    requires { depth + 1 < 2 ^ 64 }
    ensures next { result ≡ heading_step state depth symbol }
    ensures deeper { IfSome result (λ next. next.1 ≤ depth + 1) }
{
    match state {
        State::Nothing => match symbol {
            Symbol::Version => Some((State::Version, depth)),
            _ => None,
        },
        State::Version => match symbol {
            Symbol::Semicolon => Some((State::VersionEnd, depth)),
            _ => None,
        },
        State::VersionEnd => match symbol {
            Symbol::Root => Some((State::Root, depth)),
            _ => None,
        },
        State::Root => match symbol {
            Symbol::NodeOpen => Some((State::Body, depth)),
            _ => None,
        },
        State::NodeName => match symbol {
            Symbol::NodeOpen => Some((State::Body, depth + 1)),
            _ => None,
        },
        _ => None,
    }
}

/// What is waited for next, and in how many nodes below the root, where the symbol may stand.
pub fn step(state: State, depth: usize, symbol: Symbol) -> Option<(State, usize)>
    requires { depth + 1 < 2 ^ 64 }
    ensures next { result ≡ step state depth symbol }
    ensures deeper { IfSome result (λ next. next.1 ≤ depth + 1) }
{
    match state {
        State::Body => body_step(depth, symbol),
        State::Nodes => nodes_step(depth, symbol),
        State::BodyLabel => label_step(depth, symbol),
        State::NodeLabel => node_label_step(depth, symbol),
        State::PropName => prop_step(depth, symbol),
        State::EitherName => either_step(depth, symbol),
        State::ValueMark => value_step(depth, symbol),
        State::Cells => cells_step(depth, symbol),
        State::Bytes => bytes_step(depth, symbol),
        State::ValueEnd => value_end_step(depth, symbol),
        State::NodeClose => node_close_step(depth, symbol),
        State::Nothing => heading_step(State::Nothing, depth, symbol),
        State::Version => heading_step(State::Version, depth, symbol),
        State::VersionEnd => heading_step(State::VersionEnd, depth, symbol),
        State::Root => heading_step(State::Root, depth, symbol),
        State::NodeName => heading_step(State::NodeName, depth, symbol),
        State::All => None,
    }
}
