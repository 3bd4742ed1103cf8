// The proxy's own pages.

ghost use Rattle.std.specs.Prelude.{◌≡◌, ◌↔◌, IfNone, IfSome, IsTrue, None, Some};
ghost use Rattle.he_front.specs.Pages.{Asks, AsksNone, IsConfigPath, IsOwn, IsOwnHost, IsOwnIp, IsPath, SpellsOwn, host_of};
ghost use Rattle.he_front.specs.declared.pages.Page.{Page};

use crate::authority::read_authority;
use he_addr::{Ip, read_ip};

/// A page of the proxy itself.
#[derive(Clone, Copy, Debug, PartialEq, Eq)]
pub enum Page {
    /// `/proxy.pac` or `/wpad.dat`: the proxy auto-config text that [`write_config`](crate::write_config) writes.
    Config,
    /// `/`: the last races.
    Races,
    /// `/metrics`: the counts of the proxy, as OpenMetrics text.
    Metrics,
    /// `/healthz`: that the proxy serves.
    Health,
}

const LOOPBACK_V4: Ip = Ip::V4(0x7f00_0001);

const LOOPBACK_V6: Ip = Ip::V6(1);

/// The page that a GET requests of the proxy itself, by its target in origin form and the value of its field Host.
/// The field must name the proxy: its listening port, and `localhost`, 127.0.0.1, ::1 or the address that the client
/// reached. None for every other request, so that a foreign name that leads to this machine (DNS rebinding) gets no
/// page.
pub fn page_asked(target: &[u8], host: Option<&[u8]>, own: Ip, port: u16) -> Option<Page>
    ensures found { IfSome result (Asks own port target.now (host_of host.entry)) }
    ensures none { IfNone result (AsksNone own port target.now (host_of host.entry)) }
{
    let page = page_at(target)?;
    if is_own(host?, own, port) {
        Some(page)
    } else {
        None
    }
}

fn page_at(target: &[u8]) -> Option<Page>
    ensures found { IfSome result (λ page. IsPath page target.now) }
    ensures none { IfNone result ((page : Page) → IsPath page target.now → ⊥) }
{
    if is_config_path(target) {
        Some(Page::Config)
    } else if target == b"/".as_slice() {
        Some(Page::Races)
    } else if target == b"/metrics".as_slice() {
        Some(Page::Metrics)
    } else if target == b"/healthz".as_slice() {
        Some(Page::Health)
    } else {
        None
    }
}

fn is_config_path(target: &[u8]) -> bool
    ensures { IsTrue result ↔ IsConfigPath target.now }
{
    target == b"/proxy.pac".as_slice() || target == b"/wpad.dat".as_slice()
}

fn is_own(value: &[u8], own: Ip, port: u16) -> bool
    ensures yes { IsTrue result → IsOwn own port value.now }
    ensures no { IsOwn own port value.now → IsTrue result }
{
    match read_authority(value) {
        Some((host, given)) => given == port && is_own_host(host, own),
        None => false,
    }
}

fn is_own_host(host: &[u8], own: Ip) -> bool
    ensures yes { IsTrue result → IsOwnHost own host.now }
    ensures no { IsOwnHost own host.now → IsTrue result }
{
    host.eq_ignore_ascii_case(b"localhost") || is_own_address(host, own)
}

fn is_own_address(host: &[u8], own: Ip) -> bool
    ensures yes { IsTrue result → SpellsOwn own host.now }
    ensures no { SpellsOwn own host.now → IsTrue result }
{
    match read_ip(host) {
        Some(ip) => is_own_ip(ip, own),
        None => false,
    }
}

fn is_own_ip(ip: Ip, own: Ip) -> bool
    ensures { IsTrue result ↔ IsOwnIp own ip }
{
    ip == own || ip == LOOPBACK_V4 || ip == LOOPBACK_V6
}
