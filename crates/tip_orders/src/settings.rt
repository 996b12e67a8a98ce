//! The configuration in a file.
use std::fs;
use thiserror::Error;
use tip_duties::{are_controls_own, may_be_hosted};
use tip_settings::{Config, ConfigFault, read_config};

/// Why a file has no configuration that can be served.
#[derive(Clone, Copy, Debug, Error)]
pub enum SettingFault {
    #[error("cannot read")]
    Read,
    #[error(transparent)]
    Wrong(ConfigFault),
    #[error("more than 64 realms, or two of one name")]
    Realms,
    #[error("`control` is no loopback address with a port")]
    Control,
    #[error("out of memory")]
    Memory,
}

/// The configuration in a file, if its realms may be hosted together.
pub fn settings_in(rt: &HostRuntime, path: &str) -> Result<Config, SettingFault> {
    let bytes = fs::read(rt, path).map_err(|_| SettingFault::Read)?;
    match read_config(rt.alloc(), &bytes) {
        Ok(config) if !may_be_hosted(&config.realms) => Err(SettingFault::Realms),
        Ok(config) if !are_controls_own(&config.realms) => Err(SettingFault::Control),
        Ok(config) => Ok(config),
        Err(ConfigFault::Memory) => Err(SettingFault::Memory),
        Err(fault) => Err(SettingFault::Wrong(fault)),
    }
}
