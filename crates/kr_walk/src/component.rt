//! Components of paths.
ghost use Rattle.std.specs.Prelude.{◌≡◌};
ghost use Rattle.kr_view.specs.kr_tree.pr_base.Paths.{component_of, kind_of};
ghost use Rattle.kr_walk.specs.Components.{component_data};
ghost use Rattle.kr_view.specs.kr_tree.pr_base.WalkFrame.{name_of};

use kr_view::below::pr_base::Last;

/// A component of a path.
#[derive(Clone, Copy)]
pub(crate) enum Component<'a> {
    Dot,
    DotDot,
    Name(&'a [u8]),
}

/// What the bytes between two slashes are.
pub(crate) fn component_of(bytes: &[u8]) -> Component<'_>
    ensures { component_data result ≡ component_of bytes.now }
{
    if bytes == b".".as_slice() {
        Component::Dot
    } else if bytes == b"..".as_slice() {
        Component::DotDot
    } else {
        Component::Name(bytes)
    }
}

/// The kind of a component.
pub(crate) fn kind_of(component: &Component<'_>) -> Last
    ensures { result ≡ kind_of (component_data component.now) }
{
    match component {
        Component::Dot => Last::Dot,
        Component::DotDot => Last::DotDot,
        Component::Name(_) => Last::Name,
    }
}

/// The name that a component is; empty for `.` and `..`.
pub(crate) fn name_of<'a>(component: &Component<'a>) -> &'a [u8]
    ensures { result.now ≡ name_of (component_data component.now) }
{
    match component {
        Component::Dot | Component::DotDot => b"",
        Component::Name(name) => name,
    }
}
