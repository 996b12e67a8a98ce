//! The top body: it alone makes boxes, opens connections and joins threads.
use crate::rows::count_branches;
use crate::starting::{Shelves, Started, check, load, start};
use simulated_branch::Simulated;
use std::alloc::Global;
use std::io::Write;
use std::net::{Net, TcpListener, TcpStream};
use tip_branch::{Branch, Phase, Plan};
use tip_core::Core;
use tip_duties::ServeFault;
use tip_rows::RowLog;
use tip_settings::Config;
use tip_sockets::{Runtime, end_accepting, listen_all};
use tip_watched::Watched;

/// Serves the realms of a configuration over a store, until so many connections that were accepted have ended; without a number,
/// without end. It says on standard output where it listens, that it is ready, and in the end how many entries each realm has;
/// on standard error what an operator must know. Boxes are simulated ones: those of a connection promise what the realm's letters
/// say, those of a stored row are willing.
pub fn host_realms<R, S, W>(
    rt: &R,
    alloc: Global,
    mut store: S,
    config: &Config,
    sessions: Option<u32>,
    out: &mut W,
) -> Result<(), ServeFault>
where
    R: Runtime + Net<Listener = TcpListener, Stream = TcpStream>,
    S: RowLog + Drop + Send + 'static,
    S::Medium: Send + 'static,
    W: Write,
{
    check(alloc, &mut store, config)?;
    let shelves = Shelves::new(alloc, &config.realms)?;
    let store = Watched::over(store, shelves.watcher(*rt, alloc)?);
    host_watched(rt, alloc, store, config, sessions, shelves, out)
}

/// Serves the realms over a store that tells the shelves what becomes of its rows.
fn host_watched<R, S, W>(
    rt: &R,
    alloc: Global,
    store: S,
    config: &Config,
    sessions: Option<u32>,
    shelves: Shelves,
    out: &mut W,
) -> Result<(), ServeFault>
where
    R: Runtime + Net<Listener = TcpListener, Stream = TcpStream>,
    S: RowLog + Drop + Send + 'static,
    S::Medium: Send + 'static,
    W: Write,
{
    let recovering = load(alloc, store, Core::new(alloc), config)?;
    let mut pool: Vec<Box<dyn Branch + Send>> = Vec::new(alloc);
    for _ in 0..count_branches(recovering.realms()) {
        pool.push(Box::new(alloc, Simulated::new(Plan::Yes, Phase::Ready))?)?;
    }
    let Started { mut server, duties } = start(alloc, recovering, config, sessions, pool, shelves)?;
    let entrances = listen_all(rt, alloc, config)?;
    let doors = server.begin(rt, config, entrances, duties, out)?;
    for _ in rt.forever() {
        let Some(task) = server.next(rt) else {
            break;
        };
        let mut boxes: Vec<Box<dyn Branch + Send>> = Vec::new(alloc);
        let mut is_short = false;
        for place in 0..server.box_count(&task) {
            let (plan, phase) = server.box_at(&task, place);
            let Ok(branch) = Box::new(alloc, Simulated::new(plan, phase)) else {
                is_short = true;
                break;
            };
            if boxes.push(branch).is_err() {
                is_short = true;
                break;
            }
        }
        if is_short {
            server.forgo(rt, task);
        } else {
            server.act(rt, task, boxes);
        }
    }
    server.stop(rt);
    end_accepting(rt, doors);
    server.report(out)
}
