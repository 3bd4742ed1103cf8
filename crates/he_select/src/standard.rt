// The class of an address in the standard policy table (RFC 6724 section 2.1), found by the address's first bits.

ghost use Rattle.std.specs.Prelude.{◌≡◌, ◌<◌, ◌^◌, None};
ghost use Rattle.he_addr.specs.Bits.{agrees};
ghost use Rattle.he_select.specs.LookUps.{class_of};
ghost use Rattle.he_select.specs.Standard.{standard_rows};
ghost use Rattle.he_select.specs.Tables.{is_longer_row};
ghost use Rattle.he_select.specs.Walking.{walk_fitting};

/// The precedence and the label that a policy table gives an address.
#[derive(Clone, Copy)]
pub(crate) struct Class {
    pub(crate) precedence: u16,
    pub(crate) label: u16,
}

/// `::1`.
pub(crate) const LOOPBACK: Class = Class {
    precedence: 50,
    label: 0,
};

/// `::/0`.
pub(crate) const ANY: Class = Class {
    precedence: 40,
    label: 1,
};

/// `::ffff:0:0/96`.
pub(crate) const IPV4: Class = Class {
    precedence: 35,
    label: 4,
};

/// `2002::/16`.
pub(crate) const SIX_TO_FOUR: Class = Class {
    precedence: 30,
    label: 2,
};

/// `2001::/32`.
pub(crate) const TEREDO: Class = Class {
    precedence: 5,
    label: 5,
};

/// `fc00::/7`.
pub(crate) const UNIQUE_LOCAL: Class = Class {
    precedence: 3,
    label: 13,
};

/// `::/96`.
pub(crate) const IPV4_COMPATIBLE: Class = Class {
    precedence: 1,
    label: 3,
};

/// `fec0::/10`.
pub(crate) const SITE_LOCAL: Class = Class {
    precedence: 1,
    label: 11,
};

/// `3ffe::/16`.
pub(crate) const SIX_BONE: Class = Class {
    precedence: 1,
    label: 12,
};

/// The class of an address for which a table has no row.
pub(crate) const NO_CLASS: Class = Class {
    precedence: 0,
    label: 0,
};

/// The class of the address with this number in the standard table.
pub(crate) fn standard_class(number: u128) -> Class
    ensures { result ≡ class_of
        (walk_fitting (λ row. agrees 128 number row.prefix.bits row.prefix.len) is_longer_row None standard_rows) }
{
    match number >> 112 {
        0 => zeros_class(number),
        0x2001 if number >> 96 == 0x2001_0000 => TEREDO,
        0x2002 => SIX_TO_FOUR,
        0x3ffe => SIX_BONE,
        0xfc00..=0xfdff => UNIQUE_LOCAL,
        0xfec0..=0xfeff => SITE_LOCAL,
        _ => ANY,
    }
}

/// The class of a number whose first 16 bits are zero.
fn zeros_class(number: u128) -> Class
    requires { number < 2 ^ 112 }
    ensures { result ≡ class_of
        (walk_fitting (λ row. agrees 128 number row.prefix.bits row.prefix.len) is_longer_row None standard_rows) }
{
    match number >> 32 {
        0 if number == 1 => LOOPBACK,
        0 => IPV4_COMPATIBLE,
        0xffff => IPV4,
        _ => ANY,
    }
}
