// Laws of the definitions. Each is the contract of a function that does nothing.

ghost use Rattle.he_sessions.specs.Laws.{NoRefusalSucceeds};

/// No octets that refuse a client begin with octets that report an open tunnel, by any protocol.
pub fn no_refusal_succeeds()
    ensures { NoRefusalSucceeds }
{}
