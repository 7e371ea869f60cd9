// The sync server that settings name: taskrc(5), under "SYNC".
ghost use Rattle.std.specs.Prelude.{◌≡◌, IfOk, option_map, codes};
ghost use Rattle.std.specs.Option.{option_copied};
ghost use Rattle.uuid.specs.Text.{parsed};
ghost use Rattle.tw_settings.specs.Address.{parts_in};
ghost use Rattle.tw_settings.specs.Servers.{host_text, server_of, read_by, server_set};

use crate::address::parts_in;
use crate::settings::Settings;
use std::alloc::Global;
use tw_urgency::read_uuid;
use tw_world::{Memory, Text};
use uuid::Uuid;

/// A sync server, and the client that talks to it.
#[derive(Drop)]
pub struct ServerSettings {
    pub client: Uuid,
    /// Its host, a colon and its port.
    pub host: Text,
}

fn host_text(alloc: Global, host: &str, port: u16) -> Result<Text, Memory>
    ensures { IfOk result (λ text. text ≡ host_text host.now port) }
{
    let number = format!(in alloc; "{}", port)?;
    let mut text = String::from_str(alloc, host)?;
    text.push_str(":")?;
    text.push_str(number.as_str())?;
    Text::from_str(alloc, text.as_str())
}

fn server_of(
    alloc: Global,
    parts: Option<(&str, u16)>,
    client: Option<Uuid>,
) -> Result<Option<ServerSettings>, Memory>
    ensures { IfOk result (λ server. server ≡ server_of (option_map (λ x. (x.0.now, x.1)) parts.entry) client) }
{
    match (parts, client) {
        (Some((host, port)), Some(client)) => {
            let host = host_text(alloc, host, port)?;
            Ok(Some(ServerSettings { client, host }))
        }
        _ => Ok(None),
    }
}

fn parts_at(url: Option<&str>) -> Option<(&str, u16)>
    ensures { option_map (λ x. (x.0.now, x.1)) result ≡ read_by parts_in (option_copied url.entry) }
{
    match url {
        Some(url) => parts_in(url),
        None => None,
    }
}

fn client_of(text: Option<&str>) -> Option<Uuid>
    ensures { result ≡ read_by parsed (option_copied text.entry) }
{
    match text {
        Some(text) => read_uuid(text),
        None => None,
    }
}

impl Settings {
    /// The sync server that the settings name, where they name a client too.
    pub fn server(&self, alloc: Global) -> Result<Option<ServerSettings>, Memory>
        ensures { IfOk result (λ server. server ≡ server_set self.now) }
    {
        let client = client_of(self.get("sync.server.client_id"));
        server_of(alloc, parts_at(self.get("sync.server.url")), client)
    }
}
