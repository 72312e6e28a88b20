//! The worker of HTTP players, if the configuration has an address for them: it is opened, taken apart, and
//! its door is shut.
ghost use Rattle.std.specs.Prelude.{◌≡◌, ◌≤◌, ◌+◌, if◌then◌else◌, Bool, true, false, option_map, is_some, vec_len, All, IfOk, IfSome, MatchResult};
ghost use Rattle.relay_config.specs.Accepts.{Lawful};
ghost use Rattle.relay_config.specs.Sum.{http_workers};
ghost use Rattle.relay_outside.specs.Doors.{IsDone, with_one};
ghost use Rattle.relay_outside.specs.Houses.{asked_door};
ghost use Rattle.relay_serve.specs.Ends.{HouseCause};
ghost use Rattle.relay_serve.specs.Http.{AsksForHttp, IsServingHttp, IsShutHttp, LeftHttp, http_doors};
ghost use Rattle.relay_serve.specs.Settling.{TellsMore};
ghost use Rattle.relay_serve.specs.Starts.{HasRules};
ghost use Rattle.http_worker.specs.Running.{HasRun};
ghost use Rattle.stream_registry.specs.Gates.{told_at};
ghost use Rattle.stream_registry.specs.Roots.{Later};
ghost use Rattle.stream_registry.specs.SharedState.{shared_rules};

use crate::starting::OpenFail;
use http_worker::HttpWorker;
use relay_config::{Config, http_room};
use relay_outside::{Door, House, Rest};
use std::alloc::Global;
use stream_registry::{PlaceTable, Shared};

/// The worker of the HTTP players.
pub type ServeHttp<D, R> = HttpWorker<Shared<PlaceTable>, D, R>;

// The worker whose door listens there.
fn open_at<H: House>(
    alloc: Global,
    house: &mut H,
    config: &Config,
    port: Shared<PlaceTable>,
    listen: &[u8],
) -> Result<ServeHttp<H::Door, H::Rest>, OpenFail>
    requires lawful { Lawful config.now }
    ensures house { MatchResult result (λ _. H.told house.new ≡ H.told house.old) (λ fail. HouseCause fail (H.told house.old) (H.told house.new)) }
    ensures asked { IfOk result (λ _. H.asked house.new ≡ with_one (H.asked house.old) (asked_door config.now.workers listen.now config.now.accept)) }
    ensures named { H.named house.new ≡ H.named house.old }
    ensures port { IfOk result (λ w. w.bench.port ≡ port) }
    ensures serving { IfOk result (IsServingHttp config.now H.Door.Link.told H.Door.Link.counts H.Door.told) }
{
    let number = config.workers;
    let Some(door) = house.door(number, listen, config.accept) else {
        return Err(OpenFail::HouseFault);
    };
    let Some(rest) = house.rest(number) else {
        return Err(OpenFail::HouseFault);
    };
    let links = http_room(config);
    let Ok(worker) = HttpWorker::new(alloc, links, config.limits, port, door, rest) else {
        return Err(OpenFail::OutOfMemory);
    };
    Ok(worker)
}

/// How many ports more that is.
pub(crate) fn spare_ports(wanted: bool) -> usize
    ensures value { result ≡ (if wanted then 1 else 0) }
    ensures most { result ≤ 1 }
{
    if wanted { 1 } else { 0 }
}

/// Returns one port more, if it is wanted: the last of these.
pub(crate) fn spare_port(
    wanted: bool,
    rules: &Shared<PlaceTable>,
    ports: &mut Vec<Shared<PlaceTable>>,
) -> Option<Shared<PlaceTable>>
    requires some { (if wanted then 1 else 0) ≤ vec_len ports.old }
    requires rules { All (HasRules (shared_rules rules.now)) ports.old.items }
    ensures there { is_some result ≡ wanted }
    ensures others { vec_len ports.new + (if wanted then 1 else 0) ≡ vec_len ports.old }
    ensures rules { All (HasRules (shared_rules rules.now)) ports.new.items }
    ensures own { IfSome result (HasRules (shared_rules rules.now)) }
{
    let _ = rules;
    if !wanted {
        return None;
    }
    ports.pop()
}

/// Its port: the last of these.
pub(crate) fn own_port(
    config: &Config,
    rules: &Shared<PlaceTable>,
    ports: &mut Vec<Shared<PlaceTable>>,
) -> Option<Shared<PlaceTable>>
    requires some { http_workers config.now ≤ vec_len ports.old }
    requires rules { All (HasRules (shared_rules rules.now)) ports.old.items }
    ensures there { is_some result ≡ is_some config.now.http }
    ensures others { vec_len ports.new + http_workers config.now ≡ vec_len ports.old }
    ensures rules { All (HasRules (shared_rules rules.now)) ports.new.items }
    ensures own { IfSome result (HasRules (shared_rules rules.now)) }
{
    let _ = rules;
    if config.http.is_none() {
        return None;
    }
    ports.pop()
}

/// The worker of the HTTP players, if it has a port: with a door and a rest of the house.
pub(crate) fn open_http<H: House>(
    alloc: Global,
    house: &mut H,
    config: &Config,
    first: &Shared<PlaceTable>,
    port: Option<Shared<PlaceTable>>,
) -> Result<Option<ServeHttp<H::Door, H::Rest>>, OpenFail>
    requires lawful { Lawful config.now }
    requires there { is_some port ≡ is_some config.now.http }
    requires rules { IfSome port (HasRules (shared_rules first.now)) }
    ensures house { MatchResult result (λ _. H.told house.new ≡ H.told house.old) (λ fail. HouseCause fail (H.told house.old) (H.told house.new)) }
    ensures asked { IfOk result (λ _. TellsMore (AsksForHttp config.now) (http_doors config.now) (H.asked house.old) (H.asked house.new)) }
    ensures named { H.named house.new ≡ H.named house.old }
    ensures there { IfOk result (λ http. is_some http ≡ is_some config.now.http) }
    ensures rules { IfOk result (λ http. IfSome http (λ w. HasRules (shared_rules first.now) w.bench.port)) }
    ensures serving { IfOk result (λ http. IfSome http (IsServingHttp config.now H.Door.Link.told H.Door.Link.counts H.Door.told)) }
{
    let _ = first;
    let Some(port) = port else {
        return Ok(None);
    };
    let Some(listen) = &config.http else {
        return Ok(None);
    };
    let worker = open_at(alloc, house, config, port, listen.as_slice())?;
    Ok(Some(worker))
}

/// The remains of the worker: its door, if there was one, whether it lacked memory, and whether a player
/// found the history of its stream full.
#[derive(Drop)]
pub(crate) struct HttpLeft<D: Door> {
    pub door: Option<D>,
    pub refused: bool,
    pub worn: bool,
}

/// Takes the worker apart. Its port is gathered into the first.
pub(crate) fn take_http_apart<D: Door, R: Rest>(
    config: &Config,
    first: &mut Shared<PlaceTable>,
    http: Option<ServeHttp<D, R>>,
) -> HttpLeft<D>
    requires there { is_some http ≡ is_some config.now.http }
    requires run { IfSome http (HasRun D.told) }
    requires rules { IfSome http (λ w. HasRules (shared_rules first.old) w.bench.port) }
    requires serving { IfSome http (IsServingHttp config.now D.Link.told D.Link.counts D.told) }
    ensures rules { shared_rules first.new ≡ shared_rules first.old }
    ensures grown { Later (told_at first.old.roots) (told_at first.new.roots) }
    ensures done { IfSome (option_map D.told result.door) IsDone }
    ensures left { result.refused ≡ false
        → LeftHttp config.now (shared_rules first.old).limits (told_at first.new.roots) result.worn config.now.http (option_map D.told result.door) }
{
    let _ = config;
    let Some(worker) = http else {
        return HttpLeft {
            door: None,
            refused: false,
            worn: false,
        };
    };
    let finished = worker.finish();
    first.gather(finished.port);
    HttpLeft {
        door: Some(finished.door),
        refused: finished.refused,
        worn: finished.worn,
    }
}

/// Shuts its door, behind those of the other workers. Whether there was memory for it.
pub(crate) fn shut_http<H: House>(house: &mut H, config: &Config, door: Option<H::Door>) -> bool
    requires { IfSome (option_map H.Door.told door) IsDone }
    ensures faults { (H.told house.new).faults ≡ (H.told house.old).faults }
    ensures asked { H.asked house.new ≡ H.asked house.old }
    ensures named { H.named house.new ≡ H.named house.old }
    ensures kept { (H.told house.new).kept ≡ (H.told house.old).kept }
    ensures shut { result ≡ true → (streams : _) (histories : _) (worn : Bool)
        → LeftHttp config.now streams histories worn config.now.http (option_map H.Door.told door)
        → TellsMore (IsShutHttp config.now streams histories worn) (http_doors config.now) (H.told house.old).shut (H.told house.new).shut }
{
    match door {
        None => true,
        Some(door) => house.shut(config.workers, door).is_ok(),
    }
}
