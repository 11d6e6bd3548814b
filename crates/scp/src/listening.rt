//! The addresses where a run awaits its links, and HTTP requests.

ghost use Rattle.std.specs.Prelude.{◌≡◌, ◌⊎◌, IfErr};
ghost use Rattle.fp_serve.specs.declared.run.fault.ServeFault.TheVariants.{Memory, NoConnection};

use crate::fault::RunFault;
use fp_serve::{MetricsListener, RecentEvents, ServeFault};
use std::hash::RandomState;
use std::io::ErrorKind;
use std::net::{IpAddr, Net, SocketAddr, TcpListener, TcpStream};
use std::random::RandomSource;

/// Whether this is a multicast address, or the broadcast address 255.255.255.255. Linux listens there, and nobody can
/// connect. The broadcast address of a network isn't recognized: its text is like any other's.
fn is_multicast_or_broadcast(ip: IpAddr) -> bool {
    match ip.to_canonical() {
        IpAddr::V4(ip) => ip.is_multicast() || ip.is_broadcast(),
        IpAddr::V6(ip) => ip.is_multicast(),
    }
}

/// A listener at the IP address and port of a text.
pub(crate) fn listener_at<H: Net<Listener = TcpListener, Stream = TcpStream>>(
    rt: &H,
    listen: &str,
) -> Result<TcpListener, ServeFault>
    ensures fault { IfErr result (λ fault. (fault ≡ NoConnection) ⊎ (fault ≡ Memory)) }
{
    let Ok(address) = listen.parse::<SocketAddr>() else {
        return Err(ServeFault::NoConnection);
    };
    if is_multicast_or_broadcast(address.ip()) {
        return Err(ServeFault::NoConnection);
    }
    match TcpListener::bind(rt, address) {
        Ok(listener) => Ok(listener),
        Err(error) if error.kind() == ErrorKind::OutOfMemory => Err(ServeFault::Memory),
        Err(_) => Err(ServeFault::NoConnection),
    }
}

/// A listener for requests of the run's counters, at the IP address and port of a text, if there is one.
pub(crate) fn metrics_listener_at<H>(
    rt: &H,
    address: Option<&str>,
) -> Result<Option<MetricsListener>, RunFault>
where
    H: AllocGlobal + Net<Listener = TcpListener, Stream = TcpStream> + RandomSource,
{
    let Some(address) = address else {
        return Ok(None);
    };
    let (Ok(listener), Ok(keys)) = (listener_at(rt, address), RandomState::new(rt)) else {
        return Err(RunFault::NoMetrics);
    };
    let recent = RecentEvents::new(rt.alloc())?;
    Ok(Some(MetricsListener {
        listener,
        keys,
        recent,
    }))
}
