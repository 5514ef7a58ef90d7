//! The routes of the server.
ghost use Rattle.std.specs.Prelude.{◌≡◌, IfErr, IfOk, OnOk, map};
ghost use Rattle.http_head.specs.Routes as spec;

use matchit::{InsertError, Router};
use std::alloc::Global;

/// What answers a route.
#[derive(Clone, Copy)]
pub enum Route {
    /// An IPP message.
    Print,
    /// A line of the device.
    Report,
    /// The device's queue.
    Queue,
    /// A document of a job.
    Document,
}

/// Adds these paths, each with what answers it.
fn add(router: &mut Router<Route>, routes: &[(&str, Route)]) -> Result<(), InsertError>
    ensures added { OnOk result (router.new ≡ spec.rows_of (map (λ r. (r.0.now, r.1)) routes.now) router.old) }
    ensures wanting { spec.AreFree (map (λ r. (r.0.now, r.1)) routes.now) router.old → IfErr result (λ e. e ≡ InsertError.OutOfMemory) }
{
    for (path, route) in routes {
        router.insert(*path, *route)?;
    }
    Ok(())
}

/// The router of the server. The one error is want of memory, [`InsertError::OutOfMemory`]: no two of its routes conflict.
pub fn router(alloc: Global) -> Result<Router<Route>, InsertError>
    ensures routes { IfOk result (λ r. r ≡ spec.routes) }
    ensures wanting { IfErr result (λ e. e ≡ InsertError.OutOfMemory) }
{
    let mut router = Router::new(alloc);
    add(
        &mut router,
        &[
            ("/ipp/print", Route::Print),
            ("/ipp/print/{job}", Route::Print),
            ("/device/report", Route::Report),
            ("/device/queue", Route::Queue),
            ("/device/document/{job}/{n}", Route::Document),
        ],
    )?;
    Ok(router)
}

/// What answers a path.
pub(crate) fn route_of(router: &Router<Route>, path: &str) -> Option<Route>
    requires { router.now ≡ spec.routes }
    ensures { result ≡ spec.route_of path.now }
{
    match router.at(path) {
        Ok(found) => Some(*found.value),
        Err(_) => None,
    }
}
