// The interfaces of this machine.

ghost use Rattle.std.specs.Prelude.{◌≡◌};
ghost use Rattle.he_host.specs.Interfaces.{link_of, link_at, loopback_of};

use he_kernel::link::Link;
use he_kernel::parts::field;

/// An interface with its name.
#[derive(Clone, Copy, Debug)]
pub struct Interface<'t> {
    pub name: &'t [u8],
    pub link: Link,
}

/// The first interface with this name that is up and has an index.
pub fn find_link(interfaces: &[Interface<'_>], name: &[u8]) -> Option<Link>
    ensures { result ≡ link_of name.now interfaces.now }
{
    for interface in interfaces {
        if interface.name == name && interface.link.up && interface.link.number != 0 {
            return Some(interface.link);
        }
    }
    None
}

/// The link of the interface named in the field of the line at this place.
#[tactic(auto, unfolding(crate::specs::Interfaces::link_at))]
pub fn read_link(interfaces: &[Interface<'_>], line: &[u8], place: usize) -> Option<Link>
    ensures { result ≡ link_at interfaces.now place line.now }
{
    find_link(interfaces, field(line, place)?)
}

/// The first loopback interface that is up and has an index.
pub fn find_loopback(interfaces: &[Interface<'_>]) -> Option<Link>
    ensures { result ≡ loopback_of interfaces.now }
{
    for interface in interfaces {
        if interface.link.loopback && interface.link.up && interface.link.number != 0 {
            return Some(interface.link);
        }
    }
    None
}
