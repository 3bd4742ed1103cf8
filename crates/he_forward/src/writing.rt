//! The octets of a head that goes on.

ghost use Rattle.std.specs.Prelude.{◌≡◌, ◌++◌, ◌∷◌, ◌≤◌, [], All, OnOk, IfOk, codes, length};
ghost use Rattle.httparse.specs.Grammar.{print_field, print_request};
ghost use Rattle.httparse.specs.Spans.{IsHeaderWithin};
ghost use Rattle.he_forward.specs.Forwards.{forwarded, line, origin, version_text, via};
ghost use Rattle.he_forward.specs.Written.{kept_text};

use crate::fields::stays;
use httparse::spans::HeaderSpan;
use std::alloc::{AllocError, Allocator};

// The request line and the fields, with the empty line that ends them.
pub(crate) fn write_head<A: Allocator + Copy>(
    alloc: A,
    octets: &[u8],
    fields: &[HeaderSpan],
    method: &[u8],
    authority: &[u8],
    path: &[u8],
    version: u8,
) -> Result<Vec<u8, A>, AllocError>
    requires within { All (IsHeaderWithin (length octets.now)) fields.now }
    requires known { version ≤ 1 }
    ensures { IfOk result (λ head. head.items
        ≡ print_request (forwarded octets.now fields.now method.now authority.now (origin method.now path.now)
        version)) }
{
    let mut out = Vec::new(alloc);
    write_lines(octets, fields, method, authority, path, version, &mut out)?;
    Ok(out)
}

fn write_lines<A: Allocator>(
    octets: &[u8],
    fields: &[HeaderSpan],
    method: &[u8],
    authority: &[u8],
    path: &[u8],
    version: u8,
    out: &mut Vec<u8, A>,
) -> Result<(), AllocError>
    requires within { All (IsHeaderWithin (length octets.now)) fields.now }
    requires known { version ≤ 1 }
    ensures { OnOk result (out.new.items
        ≡ out.old.items ++ method.now ++ codes " " ++ origin method.now path.now ++ version_text version
        ++ print_field (line (codes "Host") authority.now) ++ kept_text octets.now fields.now fields.now
        ++ print_field (line (codes "Via") (via version)) ++ print_field (line (codes "Connection") (codes "close"))
        ++ 13 ∷ 10 ∷ []) }
{
    out.extend_from_slice(method)?;
    out.extend_from_slice(b" ")?;
    write_origin(method, path, out)?;
    out.extend_from_slice(version_text(version))?;
    write_line(b"Host", authority, out)?;
    write_kept(octets, fields, out)?;
    write_line(b"Via", via(version), out)?;
    write_line(b"Connection", b"close", out)?;
    out.extend_from_slice(b"\r\n")?;
    Ok(())
}

/// The value of a field Via for a message of this minor version (RFC 9110 section 7.6.3).
pub fn via(version: u8) -> &'static [u8]
    requires { version ≤ 1 }
    ensures { result.now ≡ via version }
{
    match version {
        0 => b"1.0 he",
        _ => b"1.1 he",
    }
}

// The end of the request line.
fn version_text(version: u8) -> &'static [u8]
    requires { version ≤ 1 }
    ensures { result.now ≡ version_text version }
{
    match version {
        0 => b" HTTP/1.0\r\n",
        _ => b" HTTP/1.1\r\n",
    }
}

fn write_origin<A: Allocator>(
    method: &[u8],
    path: &[u8],
    out: &mut Vec<u8, A>,
) -> Result<(), AllocError>
    ensures { OnOk result (out.new.items ≡ out.old.items ++ origin method.now path.now) }
{
    if path.first() == Some(&b'/') {
        out.extend_from_slice(path)
    } else if path.is_empty() && method == b"OPTIONS".as_slice() {
        out.extend_from_slice(b"*")
    } else {
        out.extend_from_slice(b"/")?;
        out.extend_from_slice(path)
    }
}

/// Appends a field with this name and this value.
///
/// # Errors
///
/// `AllocError` if an allocation failed.
pub fn write_line<A: Allocator>(
    name: &[u8],
    value: &[u8],
    out: &mut Vec<u8, A>,
) -> Result<(), AllocError>
    ensures { OnOk result (out.new.items ≡ out.old.items ++ print_field (line name.now value.now)) }
{
    out.extend_from_slice(name)?;
    out.extend_from_slice(b": ")?;
    out.extend_from_slice(value)?;
    out.extend_from_slice(b"\r\n")?;
    Ok(())
}

// The fields that stay.
fn write_kept<A: Allocator>(
    octets: &[u8],
    fields: &[HeaderSpan],
    out: &mut Vec<u8, A>,
) -> Result<(), AllocError>
    requires { All (IsHeaderWithin (length octets.now)) fields.now }
    ensures { OnOk result (out.new.items ≡ out.old.items ++ kept_text octets.now fields.now fields.now) }
{
    for field in fields {
        if stays(octets, fields, *field) {
            write_line(field.name.of(octets), field.value.of(octets), out)?;
        }
    }
    Ok(())
}
