//! Components of paths.
ghost use Rattle.std.specs.Prelude.{◌≡◌, ◌∷◌, [], IfOk};
ghost use Rattle.pt_bind.specs.pr_base.Paths.{IsComponent, component_of, components_of};
ghost use Rattle.pt_canon.specs.Components.{component_data, straight};

use crate::guest::Guest;
use pt_bind::below::pr_base::{NoMemory, components};
use std::alloc::Global;

/// A component of a path.
#[derive(Clone, Copy)]
pub(crate) enum Component<'a> {
    Dot,
    DotDot,
    Name(&'a [u8]),
}

/// What the bytes between two slashes are.
pub(crate) fn component_of(bytes: &[u8]) -> Component<'_>
    ensures { component_data result ≡ component_of bytes.now }
{
    if bytes == b".".as_slice() {
        Component::Dot
    } else if bytes == b"..".as_slice() {
        Component::DotDot
    } else {
        Component::Name(bytes)
    }
}

/// The guest text to which a path leads from another one where no link stands on the way.
pub(crate) fn straight(alloc: Global, from: &Guest, path: &[u8]) -> Result<Guest, NoMemory>
    ensures { IfOk result (λ text. text ≡ straight from.now (components_of path.now)) }
{
    let mut text = Guest::of(alloc, from.text())?;
    for part in components(path) {
        text = beyond(text, component_of(part))?;
    }
    Ok(text)
}

/// The guest text to which a component leads where it is no link.
fn beyond(at: Guest, component: Component<'_>) -> Result<Guest, NoMemory>
    requires { IsComponent (component_data component) }
    ensures { IfOk result (λ text. text ≡ straight at (component_data component.entry ∷ [])) }
{
    match component {
        Component::Dot => Ok(at),
        Component::DotDot => Ok(at.above()),
        Component::Name(name) => at.child(name),
    }
}
