ghost use Rattle.std.specs.Prelude.{◌≡◌, IfOk};
ghost use Rattle.fabric_terms.specs.Sound.{IsSound};
ghost use Rattle.service_file.specs.Sound.{IsSoundService};
ghost use Rattle.serve_top.specs.Setups.{Judges, JudgesFile, config_in, lines_in, settings_in};
ghost use Rattle.serve_top.specs.Actors.{JudgesActor};

use crate::addresses::need_addresses;
use crate::end::{End, FolderFault, short};
use crate::file_lines::{MAX_FILE_LINE, has_two, split_file};
use fabric_config::{ConfigError, need_endpoints, read_config};
use fabric_status::Status;
use fabric_terms::FabricConfig;
use service_file::{
    ActorFile, ActorFileError, ServiceError, ServiceSettings, checksum_of, read_actor_file,
    read_service,
};
use std::alloc::Global;

/// What FILE says.
#[derive(Drop)]
pub struct Setup {
    pub config: FabricConfig,
    pub settings: ServiceSettings,
    pub checksum: [u8; 32],
}

/// What line 1 says.
fn config_in(alloc: Global, line: &[u8]) -> Result<FabricConfig, End>
    ensures config { Judges (config_in line.now) result }
    ensures sound { IfOk result IsSound }
{
    if line.len() > MAX_FILE_LINE {
        return Err(End::As(Status::TooLarge(1)));
    }
    let config = match read_config(alloc, line) {
        Ok(config) => config,
        Err(ConfigError::OutOfMemory) => return Err(short()),
        Err(error) => return Err(End::As(Status::BadConfig(error))),
    };
    match need_endpoints(&config) {
        Ok(()) => Ok(config),
        Err(error) => Err(End::As(Status::BadConfig(error))),
    }
}

/// What line 2 says.
fn settings_in(alloc: Global, config: &FabricConfig, line: &[u8]) -> Result<ServiceSettings, End>
    requires { IsSound config.now }
    ensures settings { Judges (settings_in config.now line.now) result }
    ensures sound { IfOk result (IsSoundService config.now) }
{
    if line.len() > MAX_FILE_LINE {
        return Err(End::As(Status::TooLarge(2)));
    }
    match read_service(alloc, config, line) {
        Ok(settings) => Ok(settings),
        Err(ServiceError::OutOfMemory) => Err(short()),
        Err(ServiceError::Bad(field)) => Err(End::Service(field)),
    }
}

/// What both lines say, if nothing stands behind them.
#[tactic(auto, unfolding(crate::specs::Setups::lines_in))]
fn lines_in(alloc: Global, bytes: &[u8]) -> Result<(FabricConfig, ServiceSettings), End>
    ensures lines { Judges (lines_in bytes.now) result }
    ensures sound { IfOk result (λ r. IsSound r.0 × IsSoundService r.0 r.1) }
{
    let lines = split_file(bytes);
    let config = config_in(alloc, lines.config)?;
    let settings = settings_in(alloc, &config, lines.service)?;
    if !has_two(&lines) {
        return Err(End::As(Status::BadLine(3)));
    }
    Ok((config, settings))
}

/// What FILE says, or the first check that it fails: line 1, line 2, what stands behind them, and then the addresses.
pub fn read_setup(alloc: Global, bytes: &[u8]) -> Result<Setup, End>
    ensures file { JudgesFile bytes.now result }
    ensures sound { IfOk result (λ s. IsSound s.config) }
    ensures settings { IfOk result (λ s. IsSoundService s.config s.settings) }
{
    let (config, settings) = lines_in(alloc, bytes)?;
    need_addresses(alloc, &config)?;
    let checksum = checksum_of(alloc, &config)?;
    Ok(Setup {
        config,
        settings,
        checksum,
    })
}

/// What the file `actor` says, if it is of this actor and of this configuration.
pub fn judge_actor(
    alloc: Global,
    bytes: &[u8],
    actor: u16,
    checksum: &[u8; 32],
) -> Result<ActorFile, End>
    ensures { JudgesActor bytes.now actor checksum.now result }
{
    let file = match read_actor_file(alloc, bytes) {
        Ok(file) => file,
        Err(ActorFileError::OutOfMemory) => return Err(short()),
        Err(ActorFileError::Bad) => return Err(End::Folder(FolderFault::Actor)),
    };
    if file.actor != actor {
        Err(End::Folder(FolderFault::Other))
    } else if file.checksum != *checksum {
        Err(End::Folder(FolderFault::Config))
    } else {
        Ok(file)
    }
}
