//! Requests that are kept until their answers are written.
ghost use Rattle.std.specs.Prelude.{◌≡◌};

use crate::request_buffer::{HeldRequest, Outcome, RequestBuffer};
use command_words::{Geometry, LineAddr};
use error_scrub::LineRead;
use ondie_ecc::ReadState;
use requests::{Kind, Request};
use std::test::Fail;

// A request of line 0 in the trace line with this number.
fn request(number: u64, kind: Kind, bytes: Option<[u8; 64]>) -> HeldRequest {
    HeldRequest {
        number,
        request: Request {
            line: LineAddr::new(0, Geometry::with_rows(16)).unwrap(),
            kind,
        },
        bytes,
        outcome: Outcome::Unserved,
    }
}

fn found() -> Outcome {
    Outcome::Found(LineRead {
        bytes: [0; 64],
        state: ReadState::Clean,
    })
}

// Takes out the first request that was served: the number of its trace line, or 0.
fn popped(held: &mut RequestBuffer) -> u64 {
    match held.pop_served() {
        Some(request) => request.number,
        None => 0,
    }
}

#[test]
fn served_requests_leave_in_order(rt: HostRuntime) -> Result<(), Fail> {
    let mut held = RequestBuffer::new(rt.alloc())?;
    held.push(request(1, Kind::Read, None));
    held.push(request(2, Kind::Write, Some([7; 64])));
    held.push(request(4, Kind::Read, None));
    held.note(2, Outcome::Wrote);
    let none = held.pop_served().is_none();
    assert!(rt; none);
    held.note(1, found());
    assert_eq!(rt; popped(&mut held), 1);
    assert_eq!(rt; popped(&mut held), 2);
    assert_eq!(rt; popped(&mut held), 0);
    Ok(())
}
