// A message of the centre: read, carried out and answered.
ghost use Rattle.std.specs.Prelude.{◌≡◌, ◌≤◌, ℕ, Bool, true, [], ◌∷◌, IfOk, MatchResult, Ok, length, replicate};
ghost use Rattle.answering.specs.Fitting.{Sent};
ghost use Rattle.answers.specs.Answers.{error};
ghost use Rattle.controller.specs.Answers.{Answers, Passed, Reacted};
ghost use Rattle.controller.specs.Held.{state_of};
ghost use Rattle.controller.specs.Links.{open_number};
ghost use Rattle.controller.specs.Results.{came_messaging};
ghost use Rattle.law.specs.Calls.{answered, first_refusal, not_open, not_whole, too_long};
ghost use Rattle.law.specs.Calls.Call.{messaging};
ghost use Rattle.messages.specs.Messages.{error_for};
ghost use Rattle.requests.specs.Requests.{keep_alive, read_request, request_fits, request_meant};

use super::checks::check_space;
use super::{LastAlive, Table};
use crate::links::OpenLink;
use answering::sending::send;
use answers::answer::Answer;
use cbsp::keep_alive::seconds;
use cbsp::refusal::Refusal;
use cells::file::MOST_CELLS;
use elements::faults::Fault;
use messages::message::Message;
use messages::reading::check_whole;
use requests::reading::read_request;
use requests::request::{KeepAlive, Request};
use site::Site;

// What was sent: how many octets, and what was wrong with the message where these are an ERROR INDICATION.
#[derive(Clone, Copy, PartialEq, Eq, Debug)]
pub struct Answered {
    pub len: usize,
    pub fault: Option<Fault>,
}

impl Table {
    // Takes a message and writes its answer. The marks, 64 octets of any content, are zero after it.
    pub fn message<S: Site>(
        &mut self,
        site: &S,
        link: &OpenLink,
        octets: &[u8],
        marks: &mut [u8],
        space: &mut [u8],
    ) -> Result<Answered, Refusal>
        ensures answers { Answers (messaging (open_number link.now) octets.now (length marks.old) (length space.old)) (S.Site.model site.now).opened (state_of self.old) (state_of self.new) space.old space.new (came_messaging result) }
        ensures marks { MatchResult result (λ _. marks.new ≡ replicate 64 0) (λ _. marks.new ≡ marks.old) }
    {
        check_space(space)?;
        let Some(marks) = marks.as_mut_array() else {
            return Err(Refusal::WrongMarkCount);
        };
        self.check_received(link, octets)?;
        Ok(self.take(site, octets, marks, space))
    }

    // Whether one whole message came over a link that takes it.
    fn check_received(&self, link: &OpenLink, octets: &[u8]) -> Result<(), Refusal>
        ensures passed { Passed (first_refusal (too_long octets.now ∷ not_whole octets.now ∷ not_open (open_number link.now) (state_of self.now) ∷ [])) result }
        ensures headed { IfOk result (λ _. 4 ≤ length octets.now) }
    {
        check_whole(octets)?;
        self.check_open(link)
    }

    // Reads a whole message; it is carried out, or its fault is indicated.
    fn take<S: Site>(
        &mut self,
        site: &S,
        octets: &[u8],
        marks: &mut [u8; MOST_CELLS],
        space: &mut [u8],
    ) -> Answered
        requires room { 2048 ≤ length space.old }
        requires headed { 4 ≤ length octets.now }
        ensures reacted { Reacted (answered (state_of self.old) (S.Site.model site.now).opened (read_request octets.now)) result.len (state_of self.new) space.old space.new }
        ensures fault { result.fault ≡ (answered (state_of self.old) (S.Site.model site.now).opened (read_request octets.now)).fault }
        ensures clear { marks.new ≡ replicate 64 0 }
    {
        match read_request(octets) {
            Ok(request) => {
                let len = self.carry_out(site, request, marks, space);
                Answered { len, fault: None }
            }
            Err(fault) => {
                marks.fill(0);
                let len = indicate(fault, space);
                Answered {
                    len,
                    fault: Some(fault),
                }
            }
        }
    }

    // Does what a request asks, and answers it.
    fn carry_out<S: Site>(
        &mut self,
        site: &S,
        request: Request<'_>,
        marks: &mut [u8; MOST_CELLS],
        space: &mut [u8],
    ) -> usize
        requires room { 2048 ≤ length space.old }
        requires fits { request_fits (request_meant request) ≡ true }
        ensures reacted { Reacted (answered (state_of self.old) (S.Site.model site.now).opened (Ok (request_meant request.entry))) result (state_of self.new) space.old space.new }
        ensures clear { marks.new ≡ replicate 64 0 }
    {
        match request {
            Request::WriteReplace(request) => self.store.write(site, request, marks, space),
            Request::Kill(request) => self.store.kill(site, request, marks, space),
            Request::MessageStatusQuery(request) => self.store.query(site, request, marks, space),
            Request::Reset(request) => self.store.reset(site, request, marks, space),
            Request::KeepAlive(request) => {
                marks.fill(0);
                self.keep_alive(request, space)
            }
        }
    }

    // Notes the time of a KEEP-ALIVE, and writes KEEP-ALIVE COMPLETE.
    #[tactic(auto, using(crate::proofs::Cells::alive_spelt))]
    fn keep_alive(&mut self, request: KeepAlive, space: &mut [u8]) -> usize
        requires { 2048 ≤ length space.old }
        ensures { (opened : ℕ → Bool) → Reacted (answered (state_of self.old) opened (Ok (keep_alive request.period))) result (state_of self.new) space.old space.new }
    {
        let since = self.periods;
        self.alive = seconds(request.period).map(|seconds| LastAlive { seconds, since });
        send(space, Answer::KeepAliveComplete)
    }
}

// Writes ERROR INDICATION for a fault.
#[tactic(auto, using(crate::proofs::Cells::fault_spelt))]
fn indicate(fault: Fault, space: &mut [u8]) -> usize
    requires { 2048 ≤ length space.old }
    ensures { Sent (error (error_for fault)) result space.old space.new }
{
    match Message::from(fault) {
        Message::Answer(answer) => send(space, answer),
        // no fault is a request
        Message::Request(_) => unreachable!(),
    }
}
