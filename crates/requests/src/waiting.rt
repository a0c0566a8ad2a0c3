//! Requests that wait, with the places of their lines.
ghost use Rattle.std.specs.Prelude.{◌≡◌, ◌<◌};
ghost use Rattle.command_words.specs.Geometry.{lines_of};
ghost use Rattle.requests.specs.Queue.{waiting_as};

use crate::{Kind, Request};
use command_words::{Geometry, LineAddr, Place, map_line};

/// A request that waits: its number, the request, and where its line lies.
#[derive(Clone, Copy, Debug, PartialEq, Eq)]
pub struct Waiting {
    /// The number of its `RequestId`.
    pub id: u64,
    pub request: Request,
    pub place: Place,
}

impl Waiting {
    /// The request under this number, with the place of its line in this geometry.
    pub fn new(id: u64, request: Request, geometry: Geometry) -> Self
        requires { request.line < lines_of geometry }
        ensures { result ≡ waiting_as geometry id request }
    {
        let place = map_line(request.line, geometry);
        Waiting { id, request, place }
    }
}

impl Default for Waiting {
    ghost is_default = { λ w. w.id ≡ 0 };

    /// A read of line 0 under the number 0, which no request has: what a place of a fixed queue holds where none waits.
    fn default() -> Self {
        let geometry = Geometry::with_rows(1);
        let line = LineAddr::new(0, geometry).unwrap();
        let kind = Kind::Read;
        Waiting::new(0, Request { line, kind }, geometry)
    }
}
