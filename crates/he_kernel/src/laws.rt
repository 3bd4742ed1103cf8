// Laws of the lines for destinations.

ghost use Rattle.he_kernel.specs.OwnInterfaces.{OwnInterfaceDecides};

/// A source that is alone on the interface of the destination's route is the destination's source, whatever rules 6
/// to 8 of RFC 6724 section 5 prefer, unless one of rules 1 to 3 prefers another.
pub fn own_interface_decides()
    ensures { OwnInterfaceDecides }
{}
