// The time zone of a run.
ghost use Rattle.tw.specs.Zones.{ReadsRule, ReadsVariable};

use crate::start::StartError;
use std::alloc::Global;
use std::env::VarError;
use std::{env, fs};
use tw_time::Zone;

/// The zone of the POSIX rule that the variable `TZ` holds (tzset(3)), and UTC if it is not set, or empty. If it holds
/// anything else, a zone's name among others, the command line is faulty.
pub fn zone(rt: &HostRuntime) -> Result<Zone, StartError> {
    zone_of_variable(env::var(rt, "TZ"))
}

fn zone_of_variable(read: Result<String, VarError>) -> Result<Zone, StartError>
    ensures { ReadsVariable read result }
{
    match read {
        Ok(rule) => zone_of(rule.as_str()),
        Err(VarError::NotPresent) => Ok(Zone::utc()),
        Err(VarError::NotUnicode) => Err(StartError::CommandLine),
        Err(VarError::OutOfMemory) => Err(StartError::Memory),
    }
}

fn zone_of(rule: &str) -> Result<Zone, StartError>
    ensures { ReadsRule rule.now result }
{
    match Zone::read(rule) {
        Ok(zone) => Ok(zone),
        Err(_) => Err(StartError::Zone),
    }
}

// A name without `.`, so that it leads out of no folder.
fn is_place(name: &str) -> bool {
    !name.is_empty() && name.as_bytes().iter().all(|byte| is_name_byte(*byte))
}

fn is_name_byte(byte: u8) -> bool {
    byte.is_ascii_alphanumeric() || byte == b'/' || byte == b'_' || byte == b'+' || byte == b'-'
}

/// The file of tzfile(5) whose last line is the rule of the place that a value of `TZ` names, and `/etc/localtime` if there is none.
pub fn zone_file(rt: &HostRuntime, alloc: Global, zone: &str) -> Result<String, StartError> {
    let name = zone.strip_prefix(':').unwrap_or(zone);
    let mut path = String::from_str(alloc, "/usr/share/zoneinfo/")?;
    path.push_str(name)?;
    if is_place(name) && is_file(rt, path.as_str()) {
        return Ok(path);
    }
    Ok(String::from_str(alloc, "/etc/localtime")?)
}

fn is_file(rt: &HostRuntime, path: &str) -> bool {
    match fs::metadata(rt, path) {
        Ok(metadata) => metadata.is_file(),
        Err(_) => false,
    }
}
