// The request that the store still shows.
ghost use Rattle.sched_reread.specs.Again.{Stands};

use packet_request::Request;

// The request in a job's part of the store, with its stamp, and what Match and Commit count on.
#[derive(Drop)]
pub struct Shown<'a> {
    pub request: Request<'a>,
    pub stamp: u32,
    pub ghost stands: { Stands request.packet.bytes.now stamp },
}
