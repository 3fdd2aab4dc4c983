//! The machine's time zone.
use jiff::tz::{SystemTimeZone, TimeZone, TimeZoneDatabase};
use std::alloc::{AllocError, Global};
use std::rt::{Env, Files};
use std::{env, fs};

/// Where the zones stand by name.
const ZONES: &str = "/usr/share/zoneinfo";

/// The zone that the variable `TZ` says, by a rule, a name or a file; else that of `/etc/localtime`; and UTC where that isn't one.
#[derive(Drop)]
pub struct LocalZone {
    system: Option<SystemTimeZone>,
    /// The zone that `TZ` names, where it does.
    named: TimeZoneDatabase,
}

impl LocalZone {
    /// UTC.
    pub fn utc(alloc: Global) -> Self {
        LocalZone {
            system: None,
            named: TimeZoneDatabase::new(alloc),
        }
    }

    /// The machine's zone, as it is now.
    ///
    /// Errors: OutOfMemory.
    pub fn read<R: AllocGlobal + Env + Files>(rt: &R) -> Result<Self, AllocError> {
        let mut zone = LocalZone::utc(rt.alloc());
        if let Ok(word) = env::var(rt, "TZ") {
            zone.add_named(rt, word.strip_prefix(':').unwrap_or(word.as_str()))?;
        }
        zone.system = SystemTimeZone::read(rt).ok();
        Ok(zone)
    }

    // Reads the zone of a name, where there is one.
    fn add_named<R: AllocGlobal + Files>(&mut self, rt: &R, name: &str) -> Result<(), AllocError> {
        let path = format!(in rt.alloc(); "{ZONES}/{name}")?;
        if let Ok(octets) = fs::read(rt, path.as_str()) {
            let _ = self.named.insert(name, octets.as_slice());
        }
        Ok(())
    }

    /// The zone.
    pub fn zone(&self) -> TimeZone<'_> {
        match &self.system {
            Some(system) => match system.time_zone(&self.named) {
                Ok(zone) => zone,
                Err(_) => TimeZone::UTC,
            },
            None => TimeZone::UTC,
        }
    }
}
