// The octets for the client.

ghost use Rattle.std.specs.Prelude.{◌≡◌, ◌++◌, ◌<◌, ◌≤◌, All, OnOk, IfOk, length};
ghost use Rattle.httparse.specs.Grammar.{print_response};
ghost use Rattle.httparse.specs.Spans.{IsHeaderWithin, IsWithin};
ghost use Rattle.he_response.specs.Heads.{digits_of, returned};
ghost use Rattle.he_response.specs.Written.{closing_text, kept_text, status_text};

use crate::fields::stays;
use he_forward::writing::{via, write_line};
use httparse::spans::{HeaderSpan, ResponseSpans};
use std::alloc::{AllocError, Global};

// The status line and the fields, with the empty line that ends them.
pub(crate) fn write_head(
    alloc: Global,
    octets: &[u8],
    fields: &[HeaderSpan],
    spans: &ResponseSpans,
) -> Result<Vec<u8>, AllocError>
    requires within { All (IsHeaderWithin (length octets.now)) fields.now }
    requires reason { IsWithin (length octets.now) spans.now.reason }
    requires code { spans.now.code < 1000 }
    requires known { spans.now.version ≤ 1 }
    ensures { IfOk result (λ head. head.items ≡ print_response (returned octets.now fields.now spans.now)) }
{
    let mut out = status_line(alloc, spans.code, spans.reason.of(octets))?;
    write_kept(octets, fields, &mut out)?;
    write_line(b"Via", via(spans.version), &mut out)?;
    write_closing(spans.code, &mut out)?;
    out.extend_from_slice(b"\r\n")?;
    Ok(out)
}

fn status_line(alloc: Global, code: u16, reason: &[u8]) -> Result<Vec<u8>, AllocError>
    requires { code < 1000 }
    ensures { IfOk result (λ line. line.items ≡ status_text code reason.now) }
{
    let mut out = Vec::new(alloc);
    out.extend_from_slice(b"HTTP/1.1 ")?;
    out.extend_from_slice(&digits_of(code))?;
    out.extend_from_slice(b" ")?;
    out.extend_from_slice(reason)?;
    out.extend_from_slice(b"\r\n")?;
    Ok(out)
}

fn digits_of(code: u16) -> [u8; 3]
    requires { code < 1000 }
    ensures { result ≡ digits_of code }
{
    [
        b'0' + (code / 100) as u8,
        b'0' + (code / 10 % 10) as u8,
        b'0' + (code % 10) as u8,
    ]
}

// The fields that stay.
fn write_kept(octets: &[u8], fields: &[HeaderSpan], out: &mut Vec<u8>) -> Result<(), AllocError>
    requires { All (IsHeaderWithin (length octets.now)) fields.now }
    ensures { OnOk result (out.new.items ≡ out.old.items ++ kept_text octets.now fields.now fields.now) }
{
    for field in fields {
        if stays(octets, fields, *field) {
            write_line(field.name.of(octets), field.value.of(octets), out)?;
        }
    }
    Ok(())
}

// That a final response is the connection's last (RFC 9112 section 9.6).
fn write_closing(code: u16, out: &mut Vec<u8>) -> Result<(), AllocError>
    ensures { OnOk result (out.new.items ≡ out.old.items ++ closing_text code) }
{
    if code >= 200 {
        write_line(b"Connection", b"close", out)
    } else {
        Ok(())
    }
}
