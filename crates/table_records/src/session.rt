// A session, as its record is written.
ghost use Rattle.table_records.specs.Record.{Session, session_of};

use std::marker::Model;

// What a session is recorded with.
#[derive(Drop, Debug)]
pub struct Session<'a> {
    pub nas_port: u32,
    pub framed_address: u32,
    pub session_timeout: u32,
    pub idle_timeout: u32,
    pub user_name: &'a [u8],
    pub session_id: &'a [u8],
    pub calling_station: &'a [u8],
    pub filter_id: &'a [u8],
}

impl<'a> Model for Session<'a> {
    ghost Value = { Session };

    ghost view = { λ s. session_of s.nas_port s.framed_address s.session_timeout s.idle_timeout s.user_name.now s.session_id.now s.calling_station.now s.filter_id.now };
}
