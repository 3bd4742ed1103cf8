// The vectors of RFC 6052 section 2.4, and networks as their name servers show them.

use he_nat64::discovery::{FIRST_KNOWN, SECOND_KNOWN, discover};
use he_nat64::length::Length;
use he_nat64::prefix::Prefix64;
use he_nat64::synthesis::synthesize;
use std::net::Ipv6Addr;
use std::test::Fail;

const HOST: u32 = 0xc000_0221;

const LENGTHS: [Length; 6] = [
    Length::Bits32,
    Length::Bits40,
    Length::Bits48,
    Length::Bits56,
    Length::Bits64,
    Length::Bits96,
];

fn bits_of(text: &str) -> Result<u128, Fail> {
    Ok(text.parse::<Ipv6Addr>()?.to_bits())
}

#[test]
fn embeds_the_vectors(rt: HostRuntime) -> Result<(), Fail> {
    for (length, prefix, embedded) in [
        (Length::Bits32, "2001:db8::", "2001:db8:c000:221::"),
        (Length::Bits40, "2001:db8:100::", "2001:db8:1c0:2:21::"),
        (
            Length::Bits48,
            "2001:db8:122::",
            "2001:db8:122:c000:2:2100::",
        ),
        (
            Length::Bits56,
            "2001:db8:122:300::",
            "2001:db8:122:3c0:0:221::",
        ),
        (
            Length::Bits64,
            "2001:db8:122:344::",
            "2001:db8:122:344:c0:2:2100::",
        ),
        (
            Length::Bits96,
            "2001:db8:122:344::",
            "2001:db8:122:344::192.0.2.33",
        ),
        (Length::Bits96, "64:ff9b::", "64:ff9b::192.0.2.33"),
    ] {
        let prefix = Prefix64::of(bits_of(prefix)?, length);
        let embedded = bits_of(embedded)?;
        assert_eq!(rt; prefix.embed(HOST), embedded);
        assert_eq!(rt; prefix.extract(embedded), Some(HOST));
        assert_eq!(rt; Prefix64::of(embedded, length), prefix);
    }
    Ok(())
}

#[test]
fn discovers_each_length(rt: HostRuntime) -> Result<(), Fail> {
    let bits = bits_of("2001:db8:122:344::")?;
    for length in LENGTHS {
        let prefix = Prefix64::of(bits, length);
        let answers = [prefix.embed(FIRST_KNOWN), prefix.embed(SECOND_KNOWN)];
        let found = discover(rt.alloc(), &answers)?;
        assert_eq!(rt; found.as_slice(), [prefix].as_slice());
    }
    Ok(())
}

// Addresses of no NAT64, and a prefix that has a known address itself.
#[test]
fn passes_over_what_is_none(rt: HostRuntime) -> Result<(), Fail> {
    for text in [
        "2001:db8::1",
        "2001:db8:c000:aa:0:0:c000:aa",
        "2001:db8:c000:aa:100::",
    ] {
        let found = discover(rt.alloc(), &[bits_of(text)?])?;
        assert_eq!(rt; found.len(), 0, "{text}");
    }
    let prefix = Prefix64::of(bits_of("2001:db8:c000:aa::")?, Length::Bits96);
    let answers = [prefix.embed(FIRST_KNOWN), prefix.embed(SECOND_KNOWN)];
    let found = discover(rt.alloc(), &answers)?;
    assert_eq!(rt; found.as_slice(), [prefix].as_slice());
    Ok(())
}

fn prefix_of(text: &str, length: Length) -> Result<Prefix64, Fail> {
    Ok(Prefix64::of(bits_of(text)?, length))
}

// The second known address alone, octets after the host, and two prefixes.
#[test]
fn discovers_other_answers(rt: HostRuntime) -> Result<(), Fail> {
    let well_known = prefix_of("64:ff9b::", Length::Bits96)?;
    let own = prefix_of("2001:db8:122:344::", Length::Bits64)?;
    let found = discover(rt.alloc(), &[bits_of("64:ff9b::192.0.0.171")?])?;
    assert_eq!(rt; found.as_slice(), [well_known].as_slice());
    let found = discover(rt.alloc(), &[bits_of("2001:db8:122:344:c0:0:aa00:1")?])?;
    assert_eq!(rt; found.as_slice(), [own].as_slice());
    let answers = [
        bits_of("64:ff9b::192.0.0.171")?,
        bits_of("2001:db8:122:344:c0:0:ab00:0")?,
        bits_of("64:ff9b::192.0.0.170")?,
        bits_of("2001:db8:122:344:c0:0:aa00:0")?,
    ];
    let found = discover(rt.alloc(), &answers)?;
    assert_eq!(rt; found.as_slice(), [well_known, own].as_slice());
    Ok(())
}

#[test]
fn extracts_by_its_prefix_only(rt: HostRuntime) -> Result<(), Fail> {
    let own = prefix_of("2001:db8:122:344::", Length::Bits64)?;
    for (text, host) in [
        ("2001:db8:122:344:c0:2:2100::", Some(HOST)),
        ("2001:db8:122:345:c0:2:2100::", None),
        ("2001:db8:122:344:1c0:2:2100::", None),
    ] {
        assert_eq!(rt; own.extract(bits_of(text)?), host, "{text}");
    }
    Ok(())
}

// 203.0.113.80, the private 10.9.8.7 and loopback, by a prefix of the network's own and by 64:ff9b::/96.
#[test]
fn synthesizes_what_it_may(rt: HostRuntime) -> Result<(), Fail> {
    let prefixes = [
        prefix_of("2001:db8:122:344::", Length::Bits64)?,
        prefix_of("64:ff9b::", Length::Bits96)?,
    ];
    let made = synthesize(
        rt.alloc(),
        &prefixes,
        &[0xcb00_7150, 0x0a09_0807, 0x7f00_0001],
    )?;
    let wanted = [
        bits_of("2001:db8:122:344:cb:71:5000:0")?,
        bits_of("2001:db8:122:344:a:908:700:0")?,
        bits_of("64:ff9b::203.0.113.80")?,
    ];
    assert_eq!(rt; made.as_slice(), wanted.as_slice());
    Ok(())
}
