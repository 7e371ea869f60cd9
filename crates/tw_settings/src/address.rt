// The addresses of servers: taskrc(5), under "SYNC".
ghost use Rattle.std.specs.Prelude.{◌≡◌, option_map, IfOk};
ghost use Rattle.std.specs.Option.{option_copied};
ghost use Rattle.std.specs.List.{list_all};
ghost use Rattle.tw_text.specs.Natural.{natural};
ghost use Rattle.tw_settings.specs.Address.{is_host_byte, is_host, port_of, authority_in, unslashed, parts_in, address_of, address_at};
ghost use Rattle.tw_settings.specs.Servers.{address_set};

use crate::settings::Settings;
use std::alloc::Global;
use tw_text::read_u64;
use tw_world::{Memory, Text};

/// Where a server listens.
#[derive(Drop)]
pub struct Address {
    /// 1 to 253 ASCII letters, digits, `.` and `-`: a name, or an address of four numbers.
    pub host: Text,
    /// The port, which is not 0.
    pub port: u16,
}

fn is_host_byte(byte: u8) -> bool
    ensures { result ≡ is_host_byte byte }
{
    byte.is_ascii_alphanumeric() || byte == b'.' || byte == b'-'
}

fn are_host_bytes(text: &[u8]) -> bool
    ensures { result ≡ list_all is_host_byte text.now }
{
    text.iter().all(|b| is_host_byte(*b))
}

fn is_host(text: &str) -> bool
    ensures { result ≡ is_host text.now }
{
    let few = !text.is_empty() && text.len() <= 253;
    few && are_host_bytes(text.as_bytes())
}

// A number from 1 to 65,535 without a zero at its front.
fn port_in(text: &str) -> Option<u16>
    ensures { result ≡ port_of (natural text.now) }
{
    match read_u64(text) {
        Some(port) if port >= 1 && port <= 65_535 => Some(port as u16),
        _ => None,
    }
}

fn authority_in(text: &str) -> Option<(&str, u16)>
    ensures { option_map (λ x. (x.0.now, x.1)) result ≡ authority_in text.now }
{
    let (host, port) = text.split_once(':')?;
    let port = port_in(port)?;
    if is_host(host) {
        Some((host, port))
    } else {
        None
    }
}

fn unslashed(text: &str) -> &str
    ensures { result.now ≡ unslashed text.now }
{
    match text.strip_suffix('/') {
        Some(front) => front,
        None => text,
    }
}

/// The host and the port that a url names.
pub(crate) fn parts_in(url: &str) -> Option<(&str, u16)>
    ensures { option_map (λ x. (x.0.now, x.1)) result ≡ parts_in url.now }
{
    authority_in(unslashed(url.strip_prefix("http://")?))
}

fn address_of(alloc: Global, parts: Option<(&str, u16)>) -> Result<Option<Address>, Memory>
    ensures { IfOk result (λ address. address ≡ address_of (option_map (λ x. (x.0.now, x.1)) parts.entry)) }
{
    match parts {
        Some((host, port)) => {
            let host = Text::from_str(alloc, host)?;
            Ok(Some(Address { host, port }))
        }
        None => Ok(None),
    }
}

fn address_at(alloc: Global, url: Option<&str>) -> Result<Option<Address>, Memory>
    ensures { IfOk result (λ address. address ≡ address_at (option_copied url.entry)) }
{
    match url {
        Some(url) => address_of(alloc, parts_in(url)),
        None => Ok(None),
    }
}

impl Settings {
    /// The address of the sync server, where the settings name one.
    pub fn address(&self, alloc: Global) -> Result<Option<Address>, Memory>
        ensures { IfOk result (λ address. address ≡ address_set self.now) }
    {
        address_at(alloc, self.get("sync.server.url"))
    }
}
