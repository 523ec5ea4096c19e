// A packet that has the form of a request, with one pass over its attributes: what every rule after D4 looks at.
#![tactic(auto)]

ghost use Rattle.std.specs.Prelude.{◌≡◌, None};
ghost use Rattle.attr_survey.specs.Survey.{Flagged};
ghost use Rattle.packet_form.specs.Packet.{code_of, area_of};
ghost use Rattle.packet_form.specs.Discards.{form_of};

use attr_survey::{Noted, Survey};
use packet_form::Packet;

// A packet that meets none of D1 to D3, and the survey of its attributes.
#[derive(Drop)]
pub struct Request<'a> {
    pub packet: Packet<'a>,
    pub survey: Survey<'a>,
    pub ghost formed: { form_of packet.bytes.now ≡ None },
    pub ghost area_is: { survey.area.now ≡ area_of packet.bytes.now },
}

impl<'a> Request<'a> {
    // The request in a packet that meets none of D1 to D3. What its survey notes stands where the caller lends it.
    #[inline(always)]
    pub fn of(packet: Packet<'a>, noted: &'a mut [Noted; 256]) -> Request<'a>
        requires { form_of packet.bytes.now ≡ None }
        ensures packet_value { result.packet ≡ packet.entry }
        ensures code_value { result.survey.code ≡ code_of packet.entry.bytes.now }
        ensures flagged { Flagged result.survey.area.now result.survey.code result.survey.flags }
    {
        let survey = Survey::of(packet.area(), packet.code(), noted);
        Request { packet, survey }
    }
}
