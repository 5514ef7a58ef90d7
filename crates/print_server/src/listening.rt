//! The port that connections are made to.
ghost use Rattle.std.specs.Prelude.{◌≡◌, ◌∷◌, []};
ghost use Rattle.std.specs.Net.Socket.{socket_ip, socket_port};
ghost use Rattle.std.specs.Net.Addr.{ipv4_octets};
ghost use Rattle.std.specs.declared.net.ip_addr.IpAddr.TheVariants.{V4};
ghost use Rattle.std.specs.declared.net.ipv4_addr.Ipv4Addr.{Ipv4Addr as IpOfVersion4};

use std::io;
use std::net::{Ipv4Addr, Net, SocketAddr, TcpListener, TcpStream};

/// How often in a row taking a connection may fail before the server gives up.
const ACCEPT_TRIES: u32 = 100;

/// A port of the loopback interface.
fn loopback(port: u16) -> SocketAddr
    ensures ip { (ip : IpOfVersion4) × (socket_ip result ≡ V4 ip) × (ipv4_octets ip ≡ 127 ∷ 0 ∷ 0 ∷ 1 ∷ []) }
    ensures port { socket_port result ≡ port }
{
    SocketAddr::from((Ipv4Addr::LOCALHOST, port))
}

/// Listens on a port of the loopback interface. That it is this port no contract says, as those of the kit's listeners name no address.
///
/// It is an error where the port can't be listened on, as one that another program listens on.
pub fn listen<R: Net>(net: &R, port: u16) -> io::Result<R::Listener> {
    TcpListener::bind(net, loopback(port))
}

/// The next connection. A connection that fails while it is taken is passed over, as it may have been reset by its client; a listener
/// that fails again and again is an error.
pub(crate) fn next_stream(listener: &TcpListener) -> io::Result<TcpStream> {
    for _ in 1..ACCEPT_TRIES {
        if let Ok((stream, _)) = listener.accept() {
            return Ok(stream);
        }
    }
    let (stream, _) = listener.accept()?;
    Ok(stream)
}
