//! The time zone of the user.

use lapd_cli_console::Escaped;
use lapd_cli_decode::Zone;
use lapd_cli_options::PrintedTime;
use std::alloc::Global;
use std::env;
use std::fs::File;
use std::io::Read;

/// The folder of the zones with a name.
const ZONES: &str = "/usr/share/zoneinfo/";

/// The zone of this host.
const HOST_ZONE: &str = "/etc/localtime";

/// The most octets of a file that is read as a zone.
const MOST_FILE: usize = 262_144;

/// The zone of these times: that of the user for local time, else UTC. If the user's zone can't be
/// read, that is reported, and the zone is UTC.
pub fn zone_of(rt: &HostRuntime, time: PrintedTime) -> Zone {
    if !matches!(time, PrintedTime::Local) {
        return Zone::Utc;
    }
    match user_zone(rt) {
        Some(zone) => zone,
        None => Zone::Utc,
    }
}

// The zone that the variable TZ names, or else that of the host. Why there is none is reported.
fn user_zone(rt: &HostRuntime) -> Option<Zone> {
    let Ok(name) = env::var(rt, "TZ") else {
        let zone = file_zone(rt, HOST_ZONE);
        if zone.is_none() {
            let _ = eprintln!(rt; "no time zone can be read from {HOST_ZONE}: times are in UTC");
        }
        return zone;
    };
    let zone = named_zone(rt, name.as_str());
    if zone.is_none() {
        let name = Escaped(name.as_str());
        let _ = eprintln!(rt; "TZ is no time zone, '{name}': times are in UTC");
    }
    zone
}

// The zone with this name: a file of zones, or a POSIX TZ string. An empty name is UTC.
fn named_zone(rt: &HostRuntime, name: &str) -> Option<Zone> {
    let name = name.strip_prefix(":").unwrap_or(name);
    if name.is_empty() {
        return Some(Zone::Utc);
    }
    let found = if name.starts_with("/") {
        file_zone(rt, name)
    } else {
        match path_of(rt.alloc(), name) {
            Some(path) => file_zone(rt, path.as_str()),
            None => None,
        }
    };
    match found {
        Some(zone) => Some(zone),
        None => Zone::of_text(name.as_bytes()),
    }
}

// The file of a zone; none if memory ran out.
fn path_of(alloc: Global, name: &str) -> Option<String> {
    match format!(in alloc; "{ZONES}{name}") {
        Ok(path) => Some(path),
        Err(_) => None,
    }
}

// The zone in a file, if it can be read and is one.
fn file_zone(rt: &HostRuntime, path: &str) -> Option<Zone> {
    let Ok(mut file) = File::open(rt, path) else {
        return None;
    };
    let mut octets = Vec::new(rt.alloc());
    if !read_whole(&mut file, &mut octets) {
        return None;
    }
    match Zone::of_file(rt.alloc(), octets.as_slice()) {
        Ok(zone) => zone,
        Err(_) => None,
    }
}

// Appends what a reader has, if it is not too long. Returns whether it could be read.
fn read_whole<R: Read>(reader: &mut R, octets: &mut Vec<u8>) -> bool {
    let mut part = [0; 4096];
    for _read in 0..MOST_FILE {
        match reader.read(&mut part) {
            Ok(0) => return true,
            Ok(count) => {
                if octets.len() > MOST_FILE || octets.extend_from_slice(&part[..count]).is_err() {
                    return false;
                }
            }
            Err(_) => return false,
        }
    }
    false
}
