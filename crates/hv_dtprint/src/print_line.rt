//! Lines of printed source.
ghost use Rattle.std.specs.Prelude.{◌≡◌, ◌++◌, ◌<◌, ◌+◌, ◌^◌, replicate, All, OnOk};
ghost use Rattle.hv_dtprint.specs.Printed.{hex_digit, hex_pair, value_text, prop_text, shown_name, head_text, foot_text};
ghost use Rattle.hv_dtprint.specs.Values.{HasBytes};
ghost use Rattle.hv_dtree.specs.Nodes.{name_of, props_of};

use hv_dtree::{Node, Prop};
use std::alloc::AllocError;

fn hex_digit(value: u8) -> u8
    requires { value < 16 }
    ensures { result ≡ hex_digit value }
{
    if value < 10 { value + 48 } else { value + 87 }
}

fn hex_pair(byte: u8) -> [u8; 2]
    ensures { result ≡ hex_pair byte }
{
    [hex_digit(byte / 16), hex_digit(byte % 16)]
}

fn push_tabs(out: &mut Vec<u8>, depth: usize) -> Result<(), AllocError>
    ensures { OnOk result (out.new.items ≡ out.old.items ++ replicate depth 9) }
{
    'tabs: for _tab in 0..depth {
        out.push(b'\t')?;
    }
    Ok(())
}

#[tactic(auto, unfolding(crate::specs::Printed::value_text))]
fn push_value(out: &mut Vec<u8>, value: &[u8]) -> Result<(), AllocError>
    ensures text { OnOk result (out.new.items ≡ out.old.items ++ value_text value.now) }
    ensures bytes { OnOk result (All (λ byte. byte < 256) value.now) }
{
    let Some((first, rest)) = value.split_first() else {
        out.extend_from_slice(b";\n")?;
        return Ok(());
    };
    out.extend_from_slice(b" = [")?;
    out.extend_from_slice(&hex_pair(*first))?;
    for byte in rest {
        out.push(b' ')?;
        out.extend_from_slice(&hex_pair(*byte))?;
    }
    out.extend_from_slice(b"];\n")?;
    Ok(())
}

fn push_prop(out: &mut Vec<u8>, depth: usize, prop: &Prop) -> Result<(), AllocError>
    ensures text { OnOk result (out.new.items ≡ out.old.items ++ prop_text depth prop.now) }
    ensures bytes { OnOk result (All (λ byte. byte < 256) prop.now.value) }
{
    push_tabs(out, depth)?;
    out.extend_from_slice(prop.name.as_slice())?;
    push_value(out, prop.value.as_slice())
}

fn push_name(out: &mut Vec<u8>, name: &[u8]) -> Result<(), AllocError>
    ensures { OnOk result (out.new.items ≡ out.old.items ++ shown_name name.now) }
{
    if name.is_empty() {
        out.extend_from_slice(b"/")?;
        return Ok(());
    }
    out.extend_from_slice(name)?;
    Ok(())
}

/// The first line of a node, and its properties.
#[tactic(auto, unfolding(crate::specs::Printed::head_text))]
pub fn push_head(out: &mut Vec<u8>, depth: usize, node: &Node) -> Result<(), AllocError>
    requires { depth + 1 < 2 ^ 64 }
    ensures text { OnOk result (out.new.items
        ≡ out.old.items ++ head_text depth (name_of node.now) (props_of node.now)) }

    // The values of the node were bytes.
    ensures bytes { OnOk result (HasBytes node.now) }
{
    push_tabs(out, depth)?;
    push_name(out, node.name.as_slice())?;
    out.extend_from_slice(b" {\n")?;
    for prop in node.props.as_slice() {
        push_prop(out, depth + 1, prop)?;
    }
    Ok(())
}

/// The last line of a node.
#[tactic(auto, unfolding(crate::specs::Printed::foot_text))]
pub fn push_foot(out: &mut Vec<u8>, depth: usize) -> Result<(), AllocError>
    ensures { OnOk result (out.new.items ≡ out.old.items ++ foot_text depth) }
{
    push_tabs(out, depth)?;
    out.extend_from_slice(b"};\n")?;
    Ok(())
}
